//! The fields that are read.
ghost use Rattle.std.specs.Prelude.{◌≡◌, ◌==◌, ◌<◌, position};
ghost use Rattle.fix_orders.specs.Faults.{is_required};
ghost use Rattle.fix_orders.specs.Table.{table, row_at, need_in};

use crate::kind::Kind;

/// Whether a field is read in a kind of message.
#[derive(Clone, Copy, Debug, PartialEq, Eq)]
pub(crate) enum Need {
    /// It isn't read.
    Unread,
    /// It is read where it is there.
    Optional,
    /// It has to be there.
    Required,
    /// Of a limit order (40=2) it has to be there; of another it isn't read.
    WithLimit,
    /// Of a trade (150=F) it has to be there; of another report it isn't read.
    WithTrade,
}

/// What reads a field's value.
#[derive(Clone, Copy, Debug, PartialEq, Eq)]
pub(crate) enum ReadAs {
    /// `read_seq`.
    Sequence,
    /// `Id::read`.
    Identifier,
    /// Nothing: the value has told the kind of the message.
    AnyText,
    /// One of 1, 2, 5 and 6.
    SideCode,
    /// `read_qty`.
    Quantity,
    /// 1 or 2.
    OrdType,
    /// `read_price`.
    Price,
}

/// A field that is read: its tag, what reads it, and whether it is read in each kind of message.
#[derive(Clone, Copy, Debug, PartialEq, Eq)]
pub(crate) struct Row {
    pub tag: u32,
    pub read_as: ReadAs,
    pub new_order: Need,
    pub cancel: Need,
    pub replace: Need,
    pub report: Need,
    pub cancel_reject: Need,
}

/// How many fields are read.
pub(crate) const ROWS: usize = 16;

/// Places of rows in the table, from 0.
pub(crate) mod place {
    /// MsgSeqNum (34).
    pub(crate) const MSG_SEQ_NUM: usize = 0;
    /// SenderCompID (49).
    pub(crate) const SENDER_COMP_ID: usize = 1;
    /// TargetCompID (56).
    pub(crate) const TARGET_COMP_ID: usize = 2;
    /// SendingTime (52).
    pub(crate) const SENDING_TIME: usize = 3;
    /// ExecType (150).
    pub(crate) const EXEC_TYPE: usize = 5;
    /// ClOrdID (11).
    pub(crate) const CL_ORD_ID: usize = 6;
    /// OrigClOrdID (41).
    pub(crate) const ORIG_CL_ORD_ID: usize = 7;
    /// Account (1).
    pub(crate) const ACCOUNT: usize = 8;
    /// Symbol (55).
    pub(crate) const SYMBOL: usize = 9;
    /// Side (54).
    pub(crate) const SIDE: usize = 10;
    /// OrderQty (38).
    pub(crate) const ORDER_QTY: usize = 11;
    /// OrdType (40).
    pub(crate) const ORD_TYPE: usize = 12;
    /// Price (44).
    pub(crate) const PRICE: usize = 13;
    /// LastQty (32).
    pub(crate) const LAST_QTY: usize = 14;
    /// LastPx (31).
    pub(crate) const LAST_PX: usize = 15;
}

/// The fields that are read, in the order in which faults are looked for.
pub(crate) static TABLE: [Row; ROWS] = [
    // MsgSeqNum.
    Row {
        tag: 34,
        read_as: ReadAs::Sequence,
        new_order: Need::Required,
        cancel: Need::Required,
        replace: Need::Required,
        report: Need::Required,
        cancel_reject: Need::Required,
    },
    // SenderCompID.
    Row {
        tag: 49,
        read_as: ReadAs::Identifier,
        new_order: Need::Required,
        cancel: Need::Required,
        replace: Need::Required,
        report: Need::Required,
        cancel_reject: Need::Required,
    },
    // TargetCompID.
    Row {
        tag: 56,
        read_as: ReadAs::Identifier,
        new_order: Need::Required,
        cancel: Need::Required,
        replace: Need::Required,
        report: Need::Required,
        cancel_reject: Need::Required,
    },
    // SendingTime.
    Row {
        tag: 52,
        read_as: ReadAs::Identifier,
        new_order: Need::Required,
        cancel: Need::Required,
        replace: Need::Required,
        report: Need::Required,
        cancel_reject: Need::Required,
    },
    // MsgType.
    Row {
        tag: 35,
        read_as: ReadAs::AnyText,
        new_order: Need::Required,
        cancel: Need::Required,
        replace: Need::Required,
        report: Need::Required,
        cancel_reject: Need::Required,
    },
    // ExecType.
    Row {
        tag: 150,
        read_as: ReadAs::Identifier,
        new_order: Need::Unread,
        cancel: Need::Unread,
        replace: Need::Unread,
        report: Need::Required,
        cancel_reject: Need::Unread,
    },
    // ClOrdID.
    Row {
        tag: 11,
        read_as: ReadAs::Identifier,
        new_order: Need::Required,
        cancel: Need::Required,
        replace: Need::Required,
        report: Need::Optional,
        cancel_reject: Need::Required,
    },
    // OrigClOrdID.
    Row {
        tag: 41,
        read_as: ReadAs::Identifier,
        new_order: Need::Unread,
        cancel: Need::Required,
        replace: Need::Required,
        report: Need::Unread,
        cancel_reject: Need::Unread,
    },
    // Account.
    Row {
        tag: 1,
        read_as: ReadAs::Identifier,
        new_order: Need::Required,
        cancel: Need::Unread,
        replace: Need::Optional,
        report: Need::Unread,
        cancel_reject: Need::Unread,
    },
    // Symbol.
    Row {
        tag: 55,
        read_as: ReadAs::Identifier,
        new_order: Need::Required,
        cancel: Need::Unread,
        replace: Need::Required,
        report: Need::Unread,
        cancel_reject: Need::Unread,
    },
    // Side.
    Row {
        tag: 54,
        read_as: ReadAs::SideCode,
        new_order: Need::Required,
        cancel: Need::Unread,
        replace: Need::Required,
        report: Need::Unread,
        cancel_reject: Need::Unread,
    },
    // OrderQty.
    Row {
        tag: 38,
        read_as: ReadAs::Quantity,
        new_order: Need::Required,
        cancel: Need::Unread,
        replace: Need::Required,
        report: Need::Unread,
        cancel_reject: Need::Unread,
    },
    // OrdType.
    Row {
        tag: 40,
        read_as: ReadAs::OrdType,
        new_order: Need::Required,
        cancel: Need::Unread,
        replace: Need::Required,
        report: Need::Unread,
        cancel_reject: Need::Unread,
    },
    // Price.
    Row {
        tag: 44,
        read_as: ReadAs::Price,
        new_order: Need::WithLimit,
        cancel: Need::Unread,
        replace: Need::WithLimit,
        report: Need::Unread,
        cancel_reject: Need::Unread,
    },
    // LastQty.
    Row {
        tag: 32,
        read_as: ReadAs::Quantity,
        new_order: Need::Unread,
        cancel: Need::Unread,
        replace: Need::Unread,
        report: Need::WithTrade,
        cancel_reject: Need::Unread,
    },
    // LastPx.
    Row {
        tag: 31,
        read_as: ReadAs::Price,
        new_order: Need::Unread,
        cancel: Need::Unread,
        replace: Need::Unread,
        report: Need::WithTrade,
        cancel_reject: Need::Unread,
    },
];

impl Need {
    /// Whether a field with this need, where it is read, has to be there.
    pub(crate) fn is_required(self) -> bool
        ensures { result ≡ is_required self }
    {
        match self {
            Need::Unread | Need::Optional => false,
            Need::Required | Need::WithLimit | Need::WithTrade => true,
        }
    }
}

impl Row {
    /// Whether the row's field is read in a kind of message.
    pub(crate) fn need_in(&self, kind: Kind) -> Need
        ensures { result ≡ need_in kind self.now }
    {
        match kind {
            Kind::NewOrderSingle => self.new_order,
            Kind::OrderCancelRequest => self.cancel,
            Kind::OrderCancelReplaceRequest => self.replace,
            Kind::ExecutionReport => self.report,
            Kind::OrderCancelReject => self.cancel_reject,
            Kind::Admin | Kind::Other => Need::Unread,
        }
    }
}

/// The row at a place of the table.
pub(crate) fn row_at(place: usize) -> Row
    requires { place < ROWS }
    ensures { result ≡ row_at place }
{
    TABLE[place]
}

/// The place of a tag in the table, where it is read in some kind of message.
pub(crate) fn place_of(tag: u32) -> Option<usize>
    ensures { result ≡ position (λ r. r.tag == tag) table }
{
    TABLE.iter().position(|row| row.tag == tag)
}
