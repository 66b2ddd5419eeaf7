//! What is read of each kind of message.

use fix_fields::{Id, IdText};

/// Who sent a message, to whom, with which number and when.
#[derive(Debug, Drop)]
pub struct Head<'a> {
    /// SenderCompID (49).
    pub sender: IdText<'a>,
    /// TargetCompID (56).
    pub target: IdText<'a>,
    /// MsgSeqNum (34), from 1 to 999,999,999.
    pub seq: u32,
    /// SendingTime (52), as it came.
    pub time: IdText<'a>,
}

/// OrdType (40).
#[derive(Clone, Copy, Debug, PartialEq, Eq)]
pub enum OrderKind {
    /// 40=1.
    Market,
    /// 40=2.
    Limit,
}

/// NewOrderSingle (35=D).
#[derive(Debug, Drop)]
pub struct NewOrder<'a> {
    pub head: Head<'a>,
    /// ClOrdID (11).
    pub id: IdText<'a>,
    /// Account (1).
    pub account: IdText<'a>,
    /// Symbol (55).
    pub symbol: IdText<'a>,
    /// Side (54): the byte of a `Side`.
    pub side: u8,
    /// OrderQty (38) in whole units, from 1 to 1,000,000,000.
    pub quantity: u64,
    /// OrdType (40).
    pub kind: OrderKind,
    /// Price (44) in ten-thousandths of a currency unit, from 1 to 9,999,999,999; 0 of a market order.
    pub price: u64,
}

/// OrderCancelRequest (35=F).
#[derive(Debug, Drop)]
pub struct Cancel<'a> {
    pub head: Head<'a>,
    /// ClOrdID (11).
    pub id: IdText<'a>,
    /// OrigClOrdID (41).
    pub orig: IdText<'a>,
}

/// OrderCancelReplaceRequest (35=G).
#[derive(Debug, Drop)]
pub struct Replace<'a> {
    pub head: Head<'a>,
    /// ClOrdID (11).
    pub id: IdText<'a>,
    /// OrigClOrdID (41).
    pub orig: IdText<'a>,
    /// Account (1), where it is there.
    pub account: Option<IdText<'a>>,
    /// Symbol (55).
    pub symbol: IdText<'a>,
    /// Side (54): the byte of a `Side`.
    pub side: u8,
    /// OrderQty (38) in whole units, from 1 to 1,000,000,000.
    pub quantity: u64,
    /// OrdType (40).
    pub kind: OrderKind,
    /// Price (44) in ten-thousandths of a currency unit, from 1 to 9,999,999,999; 0 of a market order.
    pub price: u64,
}

/// ExecType (150).
#[derive(Clone, Copy, Debug, PartialEq, Eq)]
pub enum Exec {
    /// 150=0.
    New,
    /// 150=4.
    Canceled,
    /// 150=5.
    Replaced,
    /// 150=8.
    Rejected,
    /// 150=C.
    Expired,
    /// 150=F, with LastQty (32) in whole units and LastPx (31) in ten-thousandths of a currency unit.
    Trade { quantity: u64, price: u64 },
    /// Any other.
    Else,
}

/// ExecutionReport (35=8).
#[derive(Debug, Drop)]
pub struct Report<'a> {
    pub head: Head<'a>,
    /// ClOrdID (11), where it is there.
    pub id: Option<IdText<'a>>,
    /// ExecType (150).
    pub exec: Exec,
}

/// OrderCancelReject (35=9).
#[derive(Debug, Drop)]
pub struct CancelReject<'a> {
    pub head: Head<'a>,
    /// ClOrdID (11).
    pub id: IdText<'a>,
}

/// A message that has no field fault.
#[derive(Debug, Drop)]
pub enum Message<'a> {
    /// 35=D.
    New(NewOrder<'a>),
    /// 35=F.
    Cancel(Cancel<'a>),
    /// 35=G.
    Replace(Replace<'a>),
    /// 35=8.
    Report(Report<'a>),
    /// 35=9.
    CancelReject(CancelReject<'a>),
    /// A message of the session: 35 is one of 0 to 5 and A. No field is read.
    Admin,
    /// Any other message. No field is read.
    Other,
}

/// The first fault of a message's fields.
#[derive(Clone, Copy, Debug, PartialEq, Eq)]
pub struct FieldFault {
    /// The tag of the field: RefTagID (371).
    pub tag: u32,
    /// SessionRejectReason (373): 1 required and missing, 13 more than once, 4 without a value,
    /// 6 of another form, 5 out of range or not listed.
    pub reason: u8,
}

/// To whom a message is written, with which number and which time.
#[derive(Clone, Copy, Debug, PartialEq, Eq)]
pub struct Stamp {
    /// TargetCompID (56).
    pub target: Id,
    /// MsgSeqNum (34), from 1 to 99,999,999.
    pub seq: u32,
    /// SendingTime (52).
    pub time: Id,
}
