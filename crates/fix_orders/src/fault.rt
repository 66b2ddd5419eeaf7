//! The first fault of a message's fields.
ghost use Rattle.std.specs.Prelude.{◌≡◌, ℕ, ◌<◌, List, Result};
ghost use Rattle.fix_fields.specs.Fields.{FieldValue};
ghost use Rattle.fix_orders.specs.Faults.{spelling_reason, text_reason, values_reason, is_read};
ghost use Rattle.fix_orders.specs.Faults.{row_reason, first_fault};
ghost use Rattle.fix_orders.specs.Slotted.{SlotHas, SlotsHave};
ghost use Rattle.fix_orders.specs.Table.{table, row_at};

use crate::kind::Kind;
use crate::message::{FieldFault, OrderKind};
use crate::reason::Reason;
use crate::side::Side;
use crate::slots::{Slot, Slots};
use crate::table::{Need, ROWS, ReadAs, place, row_at};
use fix_fields::{IdText, Spelling, read_price, read_qty, read_seq};

/// The reason, if any, of what a reader answers.
fn spelling_reason<T: Drop>(read: Result<T, Spelling>) -> Option<Reason>
    ensures { result ≡ spelling_reason read }
{
    match read {
        Ok(_) => None,
        Err(Spelling::Form) => Some(Reason::Misspelled),
        Err(Spelling::Range) => Some(Reason::OutOfRange),
    }
}

impl ReadAs {
    /// The reason, if any, for which a value isn't read.
    fn reason(self, text: &[u8]) -> Option<Reason>
        ensures { result ≡ text_reason self text.now }
    {
        match self {
            ReadAs::Sequence => spelling_reason(read_seq(text)),
            ReadAs::Identifier => spelling_reason(IdText::read(text)),
            ReadAs::AnyText => None,
            ReadAs::SideCode => spelling_reason(Side::read(text)),
            ReadAs::Quantity => spelling_reason(read_qty(text)),
            ReadAs::OrdType => spelling_reason(OrderKind::read(text)),
            ReadAs::Price => spelling_reason(read_price(text)),
        }
    }
}

/// The reason, if any, by what stands in a slot of a field that is read.
fn slot_reason(slot: Slot, is_required: bool, read_as: ReadAs) -> Option<Reason>
    ensures { (values : List (List ℕ)) → SlotHas slot.entry values
        → result ≡ values_reason is_required read_as values }
{
    match slot {
        Slot::Absent if is_required => Some(Reason::Missing),
        Slot::Absent => None,
        Slot::Often(_) => Some(Reason::Repeated),
        Slot::Once(text) if text.is_empty() => Some(Reason::Empty),
        Slot::Once(text) => read_as.reason(text),
    }
}

/// Whether a field with this need is read in the message of these slots.
fn is_read(slots: &Slots, need: Need) -> bool
    ensures { (listed : List FieldValue) → SlotsHave slots.now listed
        → result ≡ is_read listed need }
{
    match need {
        Need::Unread => false,
        Need::Optional | Need::Required => true,
        Need::WithLimit => matches!(slots.at(place::ORD_TYPE).first(), b"2"),
        Need::WithTrade => matches!(slots.at(place::EXEC_TYPE).first(), b"F"),
    }
}

/// The reason, if any, of the row at a place.
fn row_reason(slots: &Slots, kind: Kind, place: usize) -> Option<Reason>
    requires { place < ROWS }
    ensures { (listed : List FieldValue) → SlotsHave slots.now listed
        → result ≡ row_reason kind listed (row_at place) }
{
    let row = row_at(place);
    let need = row.need_in(kind);
    if !is_read(slots, need) {
        return None;
    }
    slot_reason(slots.at(place), need.is_required(), row.read_as)
}

/// The fault of the first row that has one.
pub(crate) fn first_fault(slots: &Slots, kind: Kind) -> Option<FieldFault>
    ensures { (listed : List FieldValue) → SlotsHave slots.now listed
        → result ≡ first_fault kind listed table }
{
    for place in 0..ROWS {
        if let Some(reason) = row_reason(slots, kind, place) {
            return Some(FieldFault {
                tag: row_at(place).tag,
                reason: reason.code(),
            });
        }
    }
    None
}
