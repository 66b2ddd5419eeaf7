//! The messages that refuse a request or a message.
ghost use Rattle.std.specs.Prelude.{◌≡◌};
ghost use Rattle.fix_orders.specs.Put.{HasPut, IsShort, IsSeq, IsTypeText};
ghost use Rattle.fix_orders.specs.Writing.{cancel_reject_fields, session_reject_fields};

use crate::message::{FieldFault, Stamp};
use crate::put::{Part, put_all, put_opening};
use fix_fields::{IdText, Writer};
use itoa::Buffer;

/// Writes the OrderCancelReject that refuses an OrderCancelRequest or an OrderCancelReplaceRequest
/// with this ClOrdID (11) and OrigClOrdID (41). CxlRejResponseTo (434) is 1 for the first and 2 for
/// the second; CxlRejReason (102) and Text (58) say why.
pub fn write_reject_cancel(
    to: &mut Writer,
    id: &IdText,
    orig: &IdText,
    stamp: &Stamp,
    answers: u8,
    reason: u8,
    text: &[u8],
)
    requires seq { IsSeq stamp.now.seq }
    requires text { IsShort text.now }
    ensures { HasPut (cancel_reject_fields id.now orig.now stamp.now answers reason text.now)
        to.new }
{
    let mut answers_digits = Buffer::new();
    let mut reason_digits = Buffer::new();
    put_opening(to, b'9', stamp);
    put_all(to, &[Part(37, b"NONE"), Part(11, id.bytes())]);
    put_all(to, &[Part(41, orig.bytes()), Part(39, b"8")]);
    put_all(
        to,
        &[
            Part(434, answers_digits.format(answers).as_bytes()),
            Part(102, reason_digits.format(reason).as_bytes()),
        ],
    );
    put_all(to, &[Part(58, text)]);
}

/// Writes the Reject of a message of this MsgType (35) with a field fault. RefSeqNum (45) is the
/// number of the message, or 0.
pub fn write_reject_session(
    to: &mut Writer,
    stamp: &Stamp,
    ref_seq: u32,
    kind: &[u8],
    fault: &FieldFault,
)
    requires seq { IsSeq stamp.now.seq }
    requires kind { IsTypeText kind.now }
    ensures { HasPut (session_reject_fields stamp.now ref_seq kind.now fault.now) to.new }
{
    let mut seq_digits = Buffer::new();
    let mut tag_digits = Buffer::new();
    let mut reason_digits = Buffer::new();
    put_opening(to, b'3', stamp);
    put_all(
        to,
        &[
            Part(45, seq_digits.format(ref_seq).as_bytes()),
            Part(371, tag_digits.format(fault.tag).as_bytes()),
        ],
    );
    put_all(
        to,
        &[
            Part(372, kind),
            Part(373, reason_digits.format(fault.reason).as_bytes()),
        ],
    );
}
