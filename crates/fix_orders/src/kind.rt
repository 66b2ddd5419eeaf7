//! Kinds of message.
ghost use Rattle.std.specs.Prelude.{◌≡◌};
ghost use Rattle.fix_orders.specs.Kinds.{kind_of};

/// The kind of a message.
#[derive(Clone, Copy, Debug, PartialEq, Eq)]
pub enum Kind {
    /// 35=D.
    NewOrderSingle,
    /// 35=F.
    OrderCancelRequest,
    /// 35=G.
    OrderCancelReplaceRequest,
    /// 35=8.
    ExecutionReport,
    /// 35=9.
    OrderCancelReject,
    /// A message of the session: 35 is one of 0 to 5 and A.
    Admin,
    /// Any other message.
    Other,
}

/// The kind of a message with this MsgType (35).
pub fn kind_of(text: &[u8]) -> Kind
    ensures { result ≡ kind_of text.now }
{
    match text {
        b"D" => Kind::NewOrderSingle,
        b"F" => Kind::OrderCancelRequest,
        b"G" => Kind::OrderCancelReplaceRequest,
        b"8" => Kind::ExecutionReport,
        b"9" => Kind::OrderCancelReject,
        b"0" | b"1" | b"2" | b"3" | b"4" | b"5" | b"A" => Kind::Admin,
        _ => Kind::Other,
    }
}
