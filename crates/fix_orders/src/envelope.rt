//! What of a message's head is read, whatever else is wrong with the message.
ghost use Rattle.std.specs.Prelude.{◌≡◌, ℕ, List, IfSome};
ghost use Rattle.std.specs.Option.{option_map};
ghost use Rattle.fix_fields.specs.Fields.{FieldValue};
ghost use Rattle.fix_fields.specs.Places.{HasFieldsIn, IsSoundIn};
ghost use Rattle.fix_orders.specs.Envelopes.{only_value, sequence_in, id_in, envelope_of};
ghost use Rattle.fix_orders.specs.Slotted.{SlotHas};

use crate::slots::{Slot, slots_of};
use crate::table::place::{MSG_SEQ_NUM, SENDER_COMP_ID, SENDING_TIME};
use fix_fields::{Frame, Id, read_seq};

/// What of a message's head stands once and is read. A message with a fault has one too: its Reject
/// tells the number, goes to the sender and has the time.
#[derive(Clone, Copy, Debug, PartialEq, Eq)]
pub struct Envelope {
    /// MsgSeqNum (34), from 1 to 999,999,999.
    pub seq: Option<u32>,
    /// SenderCompID (49).
    pub sender: Option<Id>,
    /// SendingTime (52), as it came.
    pub time: Option<Id>,
}

/// The value of a tag that stands once.
fn only_text(slot: Slot) -> Option<&[u8]>
    ensures { (values : List (List ℕ)) → SlotHas slot.entry values
        → option_map (λ text. text.now) result ≡ only_value values }
{
    match slot {
        Slot::Once(text) => Some(text),
        Slot::Absent | Slot::Often(_) => None,
    }
}

/// The one value as a sequence number, where it is one.
fn sequence_in(slot: Slot) -> Option<u32>
    ensures { (values : List (List ℕ)) → SlotHas slot.entry values → result ≡ sequence_in values }
{
    read_seq(only_text(slot)?).ok()
}

/// The one value as an id, where it is one.
fn id_in(slot: Slot) -> Option<Id>
    ensures { (values : List (List ℕ)) → SlotHas slot.entry values → result ≡ id_in values }
{
    Id::read(only_text(slot)?).ok()
}

/// What of a sound frame's head is read, whatever else is wrong with it.
pub fn read_envelope(bytes: &[u8], frame: &Frame) -> Envelope
    requires sound { IsSoundIn bytes.now frame.now }
    ensures { (listed : List FieldValue) → HasFieldsIn bytes.now frame.now listed
        → result ≡ envelope_of listed }
{
    let slots = slots_of(bytes, frame);
    Envelope {
        seq: sequence_in(slots.at(MSG_SEQ_NUM)),
        sender: id_in(slots.at(SENDER_COMP_ID)),
        time: id_in(slots.at(SENDING_TIME)),
    }
}
