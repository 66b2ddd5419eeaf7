//! Fields one after another, and those that each message begins with.
ghost use Rattle.std.specs.Prelude.{◌≡◌, ℕ, ◌≤◌, List, [], ◌∷◌, ◌++◌, length, map, IfSome};
ghost use Rattle.std.specs.List.{AllByRecursion};
ghost use Rattle.fix_fields.specs.Fields.{FieldValue, IsField};
ghost use Rattle.fix_orders.specs.Put.{HasPut, HasRoom, IsSeq, IsStamp, part_value};
ghost use Rattle.fix_orders.specs.Writing.{opening_fields};

use crate::message::Stamp;
use fix_fields::Writer;
use itoa::Buffer;

/// A field that is to be written: its tag and its value.
#[derive(Clone, Copy, Debug)]
pub(crate) struct Part<'a>(pub u32, pub &'a [u8]);

/// Appends fields in their order.
pub(crate) fn put_all(to: &mut Writer, parts: &[Part])
    requires parts { AllByRecursion IsField (map part_value parts.now) }
    requires room { HasRoom (map part_value parts.now) to.old }
    ensures { (fields : List FieldValue) → HasPut fields to.old
        → HasPut (fields ++ map part_value parts.now) to.new }
{
    for part in parts {
        to.put(part.0, part.1);
    }
}

/// Begins a message: its type, the gate as sender, its receiver, its number and its time.
pub(crate) fn put_opening(to: &mut Writer, kind: u8, stamp: &Stamp)
    requires kind { (33 ≤ kind) × (kind ≤ 126) }
    requires seq { IsSeq stamp.now.seq }
    ensures put { HasPut (opening_fields (kind ∷ []) stamp.now) to.new }
    ensures stamp { IsStamp stamp.now }
{
    let mut seq = Buffer::new();
    to.begin(kind);
    put_all(
        to,
        &[
            Part(49, b"GATE"),
            Part(56, stamp.target.bytes()),
            Part(34, seq.format(stamp.seq).as_bytes()),
            Part(52, stamp.time.bytes()),
        ],
    );
}
