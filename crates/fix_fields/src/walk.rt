//! The fields of a frame, one after another.
ghost use Rattle.std.specs.Prelude.{◌≡◌, ◌≤◌, ℕ, List, length};
ghost use Rattle.std.specs.Iterator.{YieldsFirst, item_count};
ghost use Rattle.fix_fields.specs.Fields.{FieldValue};
ghost use Rattle.fix_fields.specs.Places.{HasFieldsIn, IsSoundIn, ArePlacesOf};

use crate::field_reader::first_field;
use crate::frame::Frame;
use std::marker::Model;

/// Where a field stands: its tag, and the places of its value from `from` up to `to`, from 0.
#[derive(Clone, Copy, Debug, PartialEq, Eq)]
pub struct Field {
    pub tag: u32,
    pub from: usize,
    pub to: usize,
}

/// The fields of a sound frame that are still to come. Contracts see the list of their places.
#[derive(Drop)]
pub struct FieldWalk<'a> {
    bytes: &'a [u8],
    at: usize,
    end: usize,
}

impl<'a> Model for FieldWalk<'a> {
    ghost use Rattle.std.specs.Prelude.{List};
    ghost use Rattle.fix_fields.specs.declared.walk.Field.{Field};
    ghost use Rattle.fix_fields.specs.FieldWalks.{places_between, WalksFields};

    ghost Value = { List Field };

    ghost view = { λ walk. places_between walk.bytes.now walk.at walk.end };

    ghost invariant = { λ walk. WalksFields walk.bytes.now walk.at walk.end };
}

impl<'a> Iterator for FieldWalk<'a> {
    type Item = Field;

    ghost next_gives = { YieldsFirst (λ rest. rest) };

    ghost remaining = { item_count (λ rest. rest) };

    #[inline(always)]
    fn next(&mut self) -> Option<Field> {
        let field = first_field(&self.bytes[self.at..self.end])?;
        let placed = Field {
            tag: field.tag,
            from: self.at + field.from,
            to: self.at + field.to,
        };
        self.at = placed.to + 1;
        Some(placed)
    }
}

/// The fields of a sound frame, in their order.
pub fn fields<'a>(bytes: &'a [u8], frame: &Frame) -> FieldWalk<'a>
    requires sound { IsSoundIn bytes.now frame.now }
    ensures places { (listed : List FieldValue) → HasFieldsIn bytes.now frame.now listed
        → ArePlacesOf bytes.now result listed }
    ensures few { length result ≤ length bytes.now }
{
    FieldWalk {
        bytes,
        at: frame.body_from,
        end: frame.body_to,
    }
}
