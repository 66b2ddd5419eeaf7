//! The message that passes another on.
ghost use Rattle.std.specs.Prelude.{◌≡◌, ℕ, ◌+◌, ◌≤◌, List, [], ◌∷◌, ◌++◌, Some, IfSome, IsSome};
ghost use Rattle.std.specs.Prelude.{length, filter, not};
ghost use Rattle.fix_fields.specs.Fields.{FieldValue, IsField, field, field_text, fields_text};
ghost use Rattle.fix_fields.specs.Places.{HasFieldsIn, IsSoundIn, IsPlace, field_at};
ghost use Rattle.fix_fields.specs.declared.writer.TheConstants.{WRITTEN_MOST};
ghost use Rattle.fix_orders.specs.Faults.{value_of};
ghost use Rattle.fix_orders.specs.Put.{HasPut, IsSeq, IsPassedOn};
ghost use Rattle.fix_orders.specs.Writing.{forward_fields, is_own_field};

use crate::message::Stamp;
use crate::put::put_opening;
use crate::read::type_text;
use crate::slots::text_at;
use fix_fields::{Field, Frame, Writer, fields};

/// Whether a forward has a field of this tag of its own.
fn is_own(tag: u32) -> bool
    ensures { (value : List ℕ) → result ≡ is_own_field (field tag value) }
{
    matches!(tag, 35 | 49 | 56 | 34 | 52)
}

/// Appends a field as it came, unless a forward has one of its tag of its own.
fn put_other(to: &mut Writer, bytes: &[u8], field: Field)
    requires begun { IsSome to.old }
    requires place { IsPlace bytes.now field }
    requires is_field { IsField (field_at bytes.now field) }
    requires room { IfSome to.old
        (λ body. length body + length (field_text (field_at bytes.now field)) ≤ WRITTEN_MOST) }
    ensures { IfSome to.old (λ body. to.new ≡ Some (body
        ++ fields_text (filter (λ f. not (is_own_field f)) (field_at bytes.now field ∷ [])))) }
{
    if !is_own(field.tag) {
        to.put(field.tag, text_at(bytes, field));
    }
}

/// Appends the fields that a forward passes on as they came.
fn put_others(to: &mut Writer, bytes: &[u8], frame: &Frame)
    requires sound { IsSoundIn bytes.now frame.now }
    requires begun { IsSome to.old }
    requires room { IfSome to.old (λ body. length body ≤ 200) }
    ensures { (listed : List FieldValue) → HasFieldsIn bytes.now frame.now listed
        → IfSome to.old (λ body. to.new
        ≡ Some (body ++ fields_text (filter (λ f. not (is_own_field f)) listed))) }
{
    for field in fields(bytes, frame) {
        put_other(to, bytes, field);
    }
}

/// MsgType (35) of a message that is passed on, which is one byte.
fn type_byte(bytes: &[u8], frame: &Frame) -> u8
    requires { IsPassedOn bytes.now frame.now }
    ensures printable { (33 ≤ result) × (result ≤ 126) }
    ensures is { (listed : List FieldValue) → HasFieldsIn bytes.now frame.now listed
        → result ∷ [] ≡ value_of 35 listed }
{
    type_text(bytes, frame)[0]
}

/// Writes the message that passes another on: its own sender, receiver, number and time, and all
/// other fields as they came, in their order. The time of the stamp is that of the message where it
/// is passed on as it came.
pub fn write_forward(to: &mut Writer, bytes: &[u8], frame: &Frame, stamp: &Stamp)
    requires accepted { IsPassedOn bytes.now frame.now }
    requires seq { IsSeq stamp.now.seq }
    ensures { (listed : List FieldValue) → HasFieldsIn bytes.now frame.now listed
        → HasPut (forward_fields stamp.now listed) to.new }
{
    put_opening(to, type_byte(bytes, frame), stamp);
    put_others(to, bytes, frame);
}
