//! The field in front of a text, and whether a text is fields.
ghost use Rattle.std.specs.Prelude.{◌≡◌, ℕ, ◌+◌, ◌<◌, ◌≤◌, List, IsTrue, ◌↔◌, IfSome, IfNone};
ghost use Rattle.std.specs.Prelude.{is_some, Option};
ghost use Rattle.std.specs.Prelude.{min, take};
ghost use Rattle.std.specs.List.{prefix_len};
ghost use Rattle.std.specs.Char.{is_ascii_digit};
ghost use Rattle.std.specs.Str.Parse.{digits_value};
ghost use Rattle.memchr.specs.Find.{IsFirstByte, is_byte};
ghost use Rattle.fix_fields.specs.Fields.{FieldValue, checksum_of, is_value_byte};
ghost use Rattle.fix_fields.specs.Frames.{AreDigits, HasFields};
ghost use Rattle.fix_fields.specs.declared.walk.Field.{Field};
ghost use Rattle.fix_fields.specs.FieldPlaces.{IsTagCut, BeginsTag, BeginsField, IsFieldList};
ghost use Rattle.fix_fields.specs.FieldPlaces.{BeginsKind};

use crate::cut::SOH;
use crate::frame::checksum;
use crate::number::number_after;
use crate::walk::Field;
use memchr::memchr;
use std::simd::prelude::*;

/// The most digits of a tag.
const TAG_DIGITS: usize = 6;

/// The bytes that are looked at together for the end of a value.
const LANES: usize = 32;

/// How many digits stand in front, of the first six bytes, and the number that they write.
#[inline(always)]
fn tag_digits(text: &[u8]) -> (usize, u32)
    ensures count { result.0 ≡ min 6 (prefix_len is_ascii_digit text.now) }
    ensures number { result.1 ≡ digits_value 10 (take result.0 text.now) }
{
    let mut count = 0usize;
    let mut tag = 0u32;
    while count < TAG_DIGITS && count < text.len() && text[count].is_ascii_digit() {
        tag = tag * 10 + u32::from(text[count] - b'0');
        count += 1;
    }
    (count, tag)
}

/// How many bytes stand before the first SOH, or 32 where there is none.
#[inline(always)]
fn lanes_before_soh(lanes: u8x32) -> usize
    ensures { result ≡ prefix_len is_value_byte lanes }
{
    let bits = lanes.simd_eq(u8x32::splat(SOH)).to_bitmask();
    if bits == 0 {
        LANES
    } else {
        bits.trailing_zeros() as usize
    }
}

/// The place of the first SOH. Most values are short, so the first 32 bytes are looked at together.
#[inline(always)]
fn soh_place(text: &[u8]) -> Option<usize>
    ensures { IsFirstByte (is_byte 1) text.now result }
{
    if text.len() >= LANES {
        let count = lanes_before_soh(u8x32::from_slice(text));
        if count < LANES {
            return Some(count);
        }
    }
    memchr(SOH, text)
}

/// Whether so many digits in front are those of a tag.
fn is_tag_cut(text: &[u8], count: usize) -> bool
    ensures { IsTrue result ↔ IsTagCut text.now count }
{
    1 <= count && count < text.len() && text[count] == b'=' && text[0] != b'0'
}

/// The tag in front, and the place after the equals sign behind it.
#[inline(always)]
fn first_tag(text: &[u8]) -> Option<(u32, usize)>
    ensures some { IfSome result (λ t. BeginsTag text.now t.0 t.1) }
    ensures none { IfNone result ((tag : ℕ) (from : ℕ) → BeginsTag text.now tag from → ⊥) }
{
    let (count, tag) = tag_digits(text);
    if !is_tag_cut(text, count) {
        return None;
    }
    Some((tag, count + 1))
}

/// The field in front, where one stands there.
#[inline(always)]
pub(crate) fn first_field(text: &[u8]) -> Option<Field>
    ensures some { IfSome result (λ f. BeginsField text.now f) }
    ensures none { IfNone result ((f : Field) → BeginsField text.now f → ⊥) }
{
    let (tag, from) = first_tag(text)?;
    let count = soh_place(&text[from..])?;
    Some(Field {
        tag,
        from,
        to: from + count,
    })
}

/// Whether the text is fields, one after another.
fn is_field_list(text: &[u8]) -> bool
    ensures { IsTrue result ↔ IsFieldList text.now }
{
    let mut rest = text;
    while !rest.is_empty() {
        match first_field(rest) {
            None => return false,
            Some(field) => rest = &rest[field.to + 1..],
        }
    }
    true
}

/// Whether the field there is MsgType (35) with a value.
fn is_kind(field: &Field) -> bool
    ensures { IsTrue result ↔ ((field.now.tag ≡ 35) × (field.now.from < field.now.to)) }
{
    field.tag == 35 && field.from < field.to
}

/// Whether the text begins with MsgType (35) with a value.
fn begins_with_kind(text: &[u8]) -> bool
    ensures { IsTrue result ↔ ((f : Field) × BeginsKind text.now f) }
{
    match first_field(text) {
        None => false,
        Some(field) => is_kind(&field),
    }
}

/// Whether the three digits are the checksum of these bytes.
fn is_checksum_of(sum_digits: &[u8], before: &[u8]) -> bool
    requires { AreDigits 3 3 sum_digits.now }
    ensures { IsTrue result ↔ (digits_value 10 sum_digits.now ≡ checksum_of before.now) }
{
    number_after(0, sum_digits) == u64::from(checksum(before))
}

/// Whether the digits are the checksum of what stands before CheckSum (10), and the body is fields,
/// MsgType (35) with a value first.
pub(crate) fn is_sound(before: &[u8], sum_digits: &[u8], body: &[u8]) -> bool
    requires { AreDigits 3 3 sum_digits.now }
    ensures { (fields : Option (List FieldValue))
        × HasFields before.now sum_digits.now body.now fields
        × (result ≡ is_some fields) }
{
    if !is_checksum_of(sum_digits, before) {
        return false;
    }
    if !begins_with_kind(body) {
        return false;
    }
    is_field_list(body)
}
