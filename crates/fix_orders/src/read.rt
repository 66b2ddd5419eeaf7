//! Reading a message.
ghost use Rattle.std.specs.Prelude.{◌≡◌, ℕ, ◌<◌, List, None, IsTrue};
ghost use Rattle.fix_fields.specs.Fields.{FieldValue};
ghost use Rattle.fix_fields.specs.Numbers.{price_of, quantity_of};
ghost use Rattle.fix_fields.specs.Places.{HasFieldsIn, IsSoundIn};
ghost use Rattle.fix_orders.specs.Faults.{text_reason, values_of, value_of};
ghost use Rattle.fix_orders.specs.Reading.{number_in, byte_in, optional_value, order_kind_for};
ghost use Rattle.fix_orders.specs.Reading.{head_of, price_for, new_order_of, cancel_of, replace_of};
ghost use Rattle.fix_orders.specs.Reading.{exec_of, report_of, cancel_reject_of, message_of, read_of};
ghost use Rattle.fix_orders.specs.Sides.{side_of};
ghost use Rattle.fix_orders.specs.Slotted.{SlotsHave, IsChecked, is_id_place, is_optional_place};
ghost use Rattle.fix_orders.specs.Table.{row_at};

use crate::fault::first_fault;
use crate::kind::{Kind, kind_of};
use crate::message::{
    Cancel, CancelReject, Exec, FieldFault, Head, Message, NewOrder, OrderKind, Replace, Report,
};
use crate::side::Side;
use crate::slots::{Slot, Slots, slots_of, text_at};
use crate::table::place::{
    ACCOUNT, CL_ORD_ID, EXEC_TYPE, LAST_PX, LAST_QTY, MSG_SEQ_NUM, ORD_TYPE, ORDER_QTY,
    ORIG_CL_ORD_ID, PRICE, SENDER_COMP_ID, SENDING_TIME, SIDE, SYMBOL, TARGET_COMP_ID,
};
use crate::table::{ROWS, ReadAs};
use fix_fields::{Frame, IdText, fields, read_price, read_qty, read_seq};

/// The id of a text that is one.
fn id_in(text: &[u8]) -> IdText
    requires { text_reason ReadAs.Identifier text.now ≡ None }
    ensures { result ≡ text.now }
{
    match IdText::read(text) {
        Ok(id) => id,
        Err(_) => unreachable!(),
    }
}

/// The id of a row that each message of the kind has.
fn id_at<'a>(slots: &Slots<'a>, kind: Kind, place: usize) -> IdText<'a>
    requires checked { IsChecked kind slots.now }
    requires place { place < ROWS }
    requires id { IsTrue (is_id_place kind place) }
    ensures { (listed : List FieldValue) → SlotsHave slots.now listed
        → result ≡ value_of (row_at place).tag listed }
{
    id_in(slots.at(place).first())
}

/// The id of a row that a message of the kind may have.
fn optional_id_at<'a>(slots: &Slots<'a>, kind: Kind, place: usize) -> Option<IdText<'a>>
    requires checked { IsChecked kind slots.now }
    requires place { place < ROWS }
    requires id { IsTrue (is_optional_place kind place) }
    ensures { (listed : List FieldValue) → SlotsHave slots.now listed
        → result ≡ optional_value (values_of (row_at place).tag listed) }
{
    match slots.at(place) {
        Slot::Absent => None,
        Slot::Once(text) => Some(id_in(text)),
        Slot::Often(text) => Some(id_in(text)),
    }
}

/// The quantity of the row at a place.
fn quantity_at(slots: &Slots, place: usize) -> u64
    requires { place < ROWS }
    ensures { (listed : List FieldValue) → SlotsHave slots.now listed
        → result ≡ number_in (quantity_of (value_of (row_at place).tag listed)) }
{
    match read_qty(slots.at(place).first()) {
        Ok(quantity) => quantity,
        Err(_) => 0,
    }
}

/// The price of the row at a place.
fn price_at(slots: &Slots, place: usize) -> u64
    requires { place < ROWS }
    ensures { (listed : List FieldValue) → SlotsHave slots.now listed
        → result ≡ number_in (price_of (value_of (row_at place).tag listed)) }
{
    match read_price(slots.at(place).first()) {
        Ok(price) => price,
        Err(_) => 0,
    }
}

/// Side (54).
fn side_of(slots: &Slots) -> u8
    ensures { (listed : List FieldValue) → SlotsHave slots.now listed
        → result ≡ byte_in (side_of (value_of 54 listed)) }
{
    match Side::read(slots.at(SIDE).first()) {
        Ok(side) => side.byte(),
        Err(_) => 0,
    }
}

/// OrdType (40).
fn order_kind_of(slots: &Slots) -> OrderKind
    ensures { (listed : List FieldValue) → SlotsHave slots.now listed
        → result ≡ order_kind_for listed }
{
    match OrderKind::read(slots.at(ORD_TYPE).first()) {
        Ok(kind) => kind,
        Err(_) => OrderKind::Market,
    }
}

/// Price (44) of a limit order, and 0 of a market order.
fn price_of(slots: &Slots, kind: OrderKind) -> u64
    ensures { (listed : List FieldValue) → SlotsHave slots.now listed
        → result ≡ price_for kind (value_of 44 listed) }
{
    match kind {
        OrderKind::Market => 0,
        OrderKind::Limit => price_at(slots, PRICE),
    }
}

/// Who sent a message, to whom, with which number and when.
fn head_of<'a>(slots: &Slots<'a>, kind: Kind) -> Head<'a>
    requires checked { IsChecked kind slots.now }
    requires sender { IsTrue (is_id_place kind SENDER_COMP_ID) }
    requires target { IsTrue (is_id_place kind TARGET_COMP_ID) }
    requires time { IsTrue (is_id_place kind SENDING_TIME) }
    ensures { (listed : List FieldValue) → SlotsHave slots.now listed
        → result ≡ head_of listed }
{
    let seq = match read_seq(slots.at(MSG_SEQ_NUM).first()) {
        Ok(seq) => seq,
        Err(_) => 0,
    };
    Head {
        sender: id_at(slots, kind, SENDER_COMP_ID),
        target: id_at(slots, kind, TARGET_COMP_ID),
        seq,
        time: id_at(slots, kind, SENDING_TIME),
    }
}

/// A NewOrderSingle.
fn new_order_of<'a>(slots: &Slots<'a>) -> NewOrder<'a>
    requires { IsChecked Kind.NewOrderSingle slots.now }
    ensures { (listed : List FieldValue) → SlotsHave slots.now listed
        → result ≡ new_order_of listed }
{
    let kind = order_kind_of(slots);
    NewOrder {
        head: head_of(slots, Kind::NewOrderSingle),
        id: id_at(slots, Kind::NewOrderSingle, CL_ORD_ID),
        account: id_at(slots, Kind::NewOrderSingle, ACCOUNT),
        symbol: id_at(slots, Kind::NewOrderSingle, SYMBOL),
        side: side_of(slots),
        quantity: quantity_at(slots, ORDER_QTY),
        kind,
        price: price_of(slots, kind),
    }
}

/// An OrderCancelRequest.
fn cancel_of<'a>(slots: &Slots<'a>) -> Cancel<'a>
    requires { IsChecked Kind.OrderCancelRequest slots.now }
    ensures { (listed : List FieldValue) → SlotsHave slots.now listed
        → result ≡ cancel_of listed }
{
    Cancel {
        head: head_of(slots, Kind::OrderCancelRequest),
        id: id_at(slots, Kind::OrderCancelRequest, CL_ORD_ID),
        orig: id_at(slots, Kind::OrderCancelRequest, ORIG_CL_ORD_ID),
    }
}

/// An OrderCancelReplaceRequest.
fn replace_of<'a>(slots: &Slots<'a>) -> Replace<'a>
    requires { IsChecked Kind.OrderCancelReplaceRequest slots.now }
    ensures { (listed : List FieldValue) → SlotsHave slots.now listed
        → result ≡ replace_of listed }
{
    let kind = order_kind_of(slots);
    Replace {
        head: head_of(slots, Kind::OrderCancelReplaceRequest),
        id: id_at(slots, Kind::OrderCancelReplaceRequest, CL_ORD_ID),
        orig: id_at(slots, Kind::OrderCancelReplaceRequest, ORIG_CL_ORD_ID),
        account: optional_id_at(slots, Kind::OrderCancelReplaceRequest, ACCOUNT),
        symbol: id_at(slots, Kind::OrderCancelReplaceRequest, SYMBOL),
        side: side_of(slots),
        quantity: quantity_at(slots, ORDER_QTY),
        kind,
        price: price_of(slots, kind),
    }
}

/// ExecType (150), with LastQty (32) and LastPx (31) of a trade.
fn exec_of(slots: &Slots) -> Exec
    ensures { (listed : List FieldValue) → SlotsHave slots.now listed
        → result ≡ exec_of listed }
{
    match slots.at(EXEC_TYPE).first() {
        b"0" => Exec::New,
        b"4" => Exec::Canceled,
        b"5" => Exec::Replaced,
        b"8" => Exec::Rejected,
        b"C" => Exec::Expired,
        b"F" => Exec::Trade {
            quantity: quantity_at(slots, LAST_QTY),
            price: price_at(slots, LAST_PX),
        },
        _ => Exec::Else,
    }
}

/// An ExecutionReport.
fn report_of<'a>(slots: &Slots<'a>) -> Report<'a>
    requires { IsChecked Kind.ExecutionReport slots.now }
    ensures { (listed : List FieldValue) → SlotsHave slots.now listed
        → result ≡ report_of listed }
{
    Report {
        head: head_of(slots, Kind::ExecutionReport),
        id: optional_id_at(slots, Kind::ExecutionReport, CL_ORD_ID),
        exec: exec_of(slots),
    }
}

/// An OrderCancelReject.
fn cancel_reject_of<'a>(slots: &Slots<'a>) -> CancelReject<'a>
    requires { IsChecked Kind.OrderCancelReject slots.now }
    ensures { (listed : List FieldValue) → SlotsHave slots.now listed
        → result ≡ cancel_reject_of listed }
{
    CancelReject {
        head: head_of(slots, Kind::OrderCancelReject),
        id: id_at(slots, Kind::OrderCancelReject, CL_ORD_ID),
    }
}

/// The message of a kind, which has no fault.
fn message_of<'a>(slots: &Slots<'a>, kind: Kind) -> Message<'a>
    requires { IsChecked kind slots.now }
    ensures { (listed : List FieldValue) → SlotsHave slots.now listed
        → result ≡ message_of kind listed }
{
    match kind {
        Kind::NewOrderSingle => Message::New(new_order_of(slots)),
        Kind::OrderCancelRequest => Message::Cancel(cancel_of(slots)),
        Kind::OrderCancelReplaceRequest => Message::Replace(replace_of(slots)),
        Kind::ExecutionReport => Message::Report(report_of(slots)),
        Kind::OrderCancelReject => Message::CancelReject(cancel_reject_of(slots)),
        Kind::Admin => Message::Admin,
        Kind::Other => Message::Other,
    }
}

/// The value of MsgType (35), which is the first field of a sound frame.
pub fn type_text<'a>(bytes: &'a [u8], frame: &Frame) -> &'a [u8]
    requires sound { IsSoundIn bytes.now frame.now }
    ensures { (listed : List FieldValue) → HasFieldsIn bytes.now frame.now listed
        → result.now ≡ value_of 35 listed }
{
    match fields(bytes, frame).next() {
        Some(field) => text_at(bytes, field),
        None => &[],
    }
}

/// What a sound frame says. The fields are read in the order of the table, in one pass over them; a
/// message with a fault isn't read.
pub fn read_message<'a>(bytes: &'a [u8], frame: &Frame) -> Result<Message<'a>, FieldFault>
    requires sound { IsSoundIn bytes.now frame.now }
    ensures { (listed : List FieldValue) → HasFieldsIn bytes.now frame.now listed
        → result ≡ read_of listed }
{
    let kind = kind_of(type_text(bytes, frame));
    match kind {
        Kind::Admin => return Ok(Message::Admin),
        Kind::Other => return Ok(Message::Other),
        _ => {}
    }
    let slots = slots_of(bytes, frame);
    match first_fault(&slots, kind) {
        Some(fault) => Err(fault),
        None => Ok(message_of(&slots, kind)),
    }
}
