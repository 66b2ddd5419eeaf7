//! Where the fields of the table stand in a message.
ghost use Rattle.std.specs.Prelude.{◌≡◌, ℕ, ◌<◌, List, [], ◌∷◌, ◌++◌};
ghost use Rattle.fix_fields.specs.Fields.{FieldValue, field};
ghost use Rattle.fix_fields.specs.Places.{HasFieldsIn, IsSoundIn, IsPlace, field_at};
ghost use Rattle.fix_orders.specs.Faults.{values_of, first_value};
ghost use Rattle.fix_orders.specs.Slotted.{SlotHas, SlotsHave};
ghost use Rattle.fix_orders.specs.Table.{row_at};

use crate::table::{ROWS, place_of};
use fix_fields::{Field, Frame, fields};

/// How often a tag stands in a message, and its first value.
#[derive(Clone, Copy, Debug)]
pub(crate) enum Slot<'a> {
    /// Nowhere.
    Absent,
    /// Once.
    Once(&'a [u8]),
    /// More than once.
    Often(&'a [u8]),
}

/// A slot for each row of the table.
#[derive(Clone, Copy, Debug)]
pub(crate) struct Slots<'a> {
    pub places: [Slot<'a>; ROWS],
}

impl<'a> Slot<'a> {
    /// The slot after one more field of its tag.
    fn with(self, text: &'a [u8]) -> Slot<'a>
        ensures { (values : List (List ℕ)) → SlotHas self.entry values
            → SlotHas result (values ++ text.now ∷ []) }
    {
        match self {
            Slot::Absent => Slot::Once(text),
            Slot::Once(first) => Slot::Often(first),
            Slot::Often(first) => Slot::Often(first),
        }
    }

    /// The first value, and nothing where there is none.
    pub(crate) fn first(self) -> &'a [u8]
        ensures { (values : List (List ℕ)) → SlotHas self.entry values
            → result.now ≡ first_value values }
    {
        match self {
            Slot::Absent => &[],
            Slot::Once(text) | Slot::Often(text) => text,
        }
    }
}

impl<'a> Slots<'a> {
    /// The slots before any field.
    fn none() -> Slots<'a>
        ensures { SlotsHave result [] }
    {
        Slots {
            places: [Slot::Absent; ROWS],
        }
    }

    /// One more field.
    fn add(&mut self, tag: u32, text: &'a [u8])
        ensures { (listed : List FieldValue) → SlotsHave self.old listed
            → SlotsHave self.new (listed ++ field tag text.now ∷ []) }
    {
        if let Some(place) = place_of(tag) {
            self.places[place] = self.places[place].with(text);
        }
    }

    /// The slot of the row at a place.
    pub(crate) fn at(&self, place: usize) -> Slot<'a>
        requires { place < ROWS }
        ensures { (listed : List FieldValue) → SlotsHave self.now listed
            → SlotHas result (values_of (row_at place).tag listed) }
    {
        self.places[place]
    }
}

/// The value of a field that stands within the bytes.
pub(crate) fn text_at(bytes: &[u8], field: Field) -> &[u8]
    ensures { IsPlace bytes.now field → result.now ≡ (field_at bytes.now field).value }
{
    if field.from <= field.to && field.to <= bytes.len() {
        &bytes[field.from..field.to]
    } else {
        &[]
    }
}

/// Where the fields of a sound frame stand, in one pass over them.
pub(crate) fn slots_of<'a>(bytes: &'a [u8], frame: &Frame) -> Slots<'a>
    requires sound { IsSoundIn bytes.now frame.now }
    ensures { (listed : List FieldValue) → HasFieldsIn bytes.now frame.now listed
        → SlotsHave result listed }
{
    let mut slots = Slots::none();
    for field in fields(bytes, frame) {
        slots.add(field.tag, text_at(bytes, field));
    }
    slots
}
