//! The report that refuses an order.
ghost use Rattle.std.specs.Prelude.{◌≡◌, List, [], ◌∷◌, ◌++◌, codes, decimal};
ghost use Rattle.fix_fields.specs.Fields.{FieldValue, field};
ghost use Rattle.fix_fields.specs.Places.{HasFieldsIn};
ghost use Rattle.fix_orders.specs.Put.{HasPut, HasRoom, IsReadAs, IsShort, IsSeq};
ghost use Rattle.fix_orders.specs.Writing.{order_reject_fields, reply_fields};

use crate::message::{Message, NewOrder, Stamp};
use crate::put::{Part, put_all, put_opening};
use crate::slots::slots_of;
use crate::table::place::{ACCOUNT, ORDER_QTY, SIDE, SYMBOL};
use fix_fields::{Frame, IdText, Writer};
use itoa::{Buffer, write_digits};

/// Appends ExecID (17): G and the number of the message.
fn put_execution(to: &mut Writer, number: u32)
    requires room { HasRoom (field 17 (codes "G" ++ decimal number) ∷ []) to.old }
    ensures { (fields : List FieldValue) → HasPut fields to.old
        → HasPut (fields ++ field 17 (codes "G" ++ decimal number) ∷ []) to.new }
{
    let mut text = [0; 11];
    let from = write_digits(u64::from(number), &mut text, 11) - 1;
    text[from] = b'G';
    put_all(to, &[Part(17, &text[from..])]);
}

/// Appends OrderID (37), of which there is none, and ClOrdID (11).
fn put_reply(to: &mut Writer, id: &IdText)
    requires room { HasRoom (reply_fields id.now) to.old }
    ensures { (fields : List FieldValue) → HasPut fields to.old
        → HasPut (fields ++ reply_fields id.now) to.new }
{
    put_all(to, &[Part(37, b"NONE"), Part(11, id.bytes())]);
}

/// Writes the ExecutionReport that refuses an order: OrdRejReason (103) and Text (58) say why.
/// Account (1), Symbol (55), Side (54) and OrderQty (38) are as they came.
pub fn write_reject_order(
    to: &mut Writer,
    bytes: &[u8],
    frame: &Frame,
    order: &NewOrder,
    stamp: &Stamp,
    reason: u8,
    text: &[u8],
)
    requires accepted { IsReadAs bytes.now frame.now (Message.New order.now) }
    requires seq { IsSeq stamp.now.seq }
    requires text { IsShort text.now }
    ensures { (listed : List FieldValue) → HasFieldsIn bytes.now frame.now listed
        → HasPut (order_reject_fields listed order.now.id stamp.now reason text.now) to.new }
{
    let slots = slots_of(bytes, frame);
    let mut reason_digits = Buffer::new();
    put_opening(to, b'8', stamp);
    put_reply(to, &order.id);
    put_execution(to, stamp.seq);
    put_all(to, &[Part(150, b"8"), Part(39, b"8")]);
    put_all(to, &[Part(103, reason_digits.format(reason).as_bytes())]);
    put_all(
        to,
        &[
            Part(1, slots.at(ACCOUNT).first()),
            Part(55, slots.at(SYMBOL).first()),
            Part(54, slots.at(SIDE).first()),
            Part(38, slots.at(ORDER_QTY).first()),
        ],
    );
    put_all(to, &[Part(151, b"0"), Part(14, b"0"), Part(6, b"0")]);
    put_all(to, &[Part(58, text)]);
}
