//! Ids.
ghost use Rattle.std.specs.Prelude.{◌≡◌, ℕ, ◌≤◌, List, length, nat_eq, Some, refl, ◌++◌, drop};
ghost use Rattle.std.specs.List.{list_all};
ghost use Rattle.std.specs.Ordering.{nat_cmp};
ghost use Rattle.std.specs.Cmp.{partial_equiv_from_equiv};
ghost use Rattle.std.specs.Cmp.Lexicographic.{pointwise, slice_cmp, nat_list_eq_equiv};
ghost use Rattle.std.specs.Cmp.Lexicographic.{nat_list_cmp_total, texts_ties, texts_po};
ghost use Rattle.fix_fields.specs.Numbers.{id_of, is_printable};
ghost use Rattle.fix_fields.specs.IdText.{IsId, padded_id};

use crate::number::Spelling;
use std::cmp::Ordering;
use std::marker::Model;

/// The most bytes of an id.
const ID_MOST: usize = 64;

/// 1 to 64 bytes of 32 to 126, held in place. Contracts see the list of its bytes.
#[derive(Clone, Copy, Debug)]
pub struct Id {
    bytes: [u8; 64],
    len: usize,
}

impl Model for Id {
    ghost use Rattle.std.specs.Prelude.{◌≤◌, ◌≡◌, ℕ, List, take, length};
    ghost use Rattle.fix_fields.specs.IdText.{HoldsId, padded_id};

    ghost Value = { List ℕ };

    ghost view = { λ id. take id.len id.bytes };

    ghost invariant = { λ id. HoldsId id.bytes id.len };

    ghost inverse = { λ text. record { bytes = padded_id text; len = length text } };

    ghost use Rattle.fix_fields.specs.IdLaw.{holds_back};

    ghost inverse_ok = { λ a h. holds_back a h };
}

impl Id {
    /// The text as an id: `Form` where a byte isn't one of 32 to 126, then `Range` where there is
    /// no byte or more than 64.
    pub fn read(text: &[u8]) -> Result<Id, Spelling>
        ensures { result ≡ id_of text.now }
    {
        if !is_printable(text) {
            return Err(Spelling::Form);
        }
        if text.is_empty() || text.len() > ID_MOST {
            return Err(Spelling::Range);
        }
        Ok(Id {
            bytes: padded(text),
            len: text.len(),
        })
    }

    /// The bytes, of which there are 1 to 64, each of 32 to 126.
    pub fn bytes(&self) -> &[u8]
        ensures same { result.now ≡ self.now }
        ensures id { IsId self.now }
    {
        &self.bytes[..self.len]
    }
}

/// 1 to 64 bytes of 32 to 126, where they stand in a text. Contracts see the list of the bytes.
#[derive(Debug, Drop)]
pub struct IdText<'a> {
    bytes: &'a [u8],
}

impl<'a> Model for IdText<'a> {
    ghost use Rattle.std.specs.Prelude.{ℕ, List};
    ghost use Rattle.fix_fields.specs.IdText.{IsId};

    ghost Value = { List ℕ };

    ghost view = { λ id. id.bytes.now };

    ghost invariant = { λ id. IsId id.bytes.now };
}

impl<'a> IdText<'a> {
    /// The text as an id: `Form` where a byte isn't one of 32 to 126, then `Range` where there is
    /// no byte or more than 64.
    #[inline]
    pub fn read(text: &'a [u8]) -> Result<IdText<'a>, Spelling>
        ensures { result ≡ id_of text.now }
    {
        if !is_printable(text) {
            return Err(Spelling::Form);
        }
        if text.is_empty() || text.len() > ID_MOST {
            return Err(Spelling::Range);
        }
        Ok(IdText { bytes: text })
    }

    /// The bytes, of which there are 1 to 64, each of 32 to 126.
    pub fn bytes(&self) -> &'a [u8]
        ensures same { result.now ≡ self.now }
        ensures id { IsId self.now }
    {
        self.bytes
    }

    /// The id, held in place.
    pub fn owned(&self) -> Id
        ensures { result ≡ self.now }
    {
        Id {
            bytes: padded(self.bytes),
            len: self.bytes.len(),
        }
    }
}

// Two ids are equal where their texts are.
impl PartialEq for Id {
    ghost eq = { pointwise nat_eq };

    ghost laws = { partial_equiv_from_equiv nat_list_eq_equiv };

    fn eq(&self, other: &Self) -> bool {
        self.bytes() == other.bytes()
    }
}

impl Eq for Id {
    ghost laws = { nat_list_eq_equiv };
}

impl PartialOrd for Id {
    ghost partial_cmp = { λ a b. Some (slice_cmp nat_cmp a b) };

    ghost laws = { texts_po };

    fn partial_cmp(&self, other: &Self) -> Option<Ordering> {
        Some(self.cmp(other))
    }
}

// Ids stand in the order of their texts, as words in a dictionary do.
impl Ord for Id {
    ghost cmp = { slice_cmp nat_cmp };

    ghost total = { nat_list_cmp_total };

    ghost matches_partial_cmp = { λ a b. refl };

    ghost matches_eq = { texts_ties };

    fn cmp(&self, other: &Self) -> Ordering {
        self.bytes().cmp(other.bytes())
    }
}

/// Whether each byte is one of 32 to 126.
fn is_printable(text: &[u8]) -> bool
    ensures { result ≡ list_all is_printable text.now }
{
    text.iter().all(|byte| 32 <= *byte && *byte <= 126)
}

/// Writes the text over the first bytes.
fn write_front(into: &mut [u8], text: &[u8])
    requires { length text.now ≤ length into.old }
    ensures { into.new ≡ text.now ++ drop (length text.now) into.old }
{
    into[..text.len()].copy_from_slice(text);
}

/// The text with zeros up to 64 bytes.
fn padded(text: &[u8]) -> [u8; 64]
    requires { length text.now ≤ 64 }
    ensures { result ≡ padded_id text.now }
{
    let mut bytes = [0; 64];
    write_front(&mut bytes, text);
    bytes
}
