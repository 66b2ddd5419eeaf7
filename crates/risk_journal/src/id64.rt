//! Names that are held in place.
ghost use Rattle.std.specs.Prelude.{◌≡◌, ◌≤◌, length, ◌++◌, drop};
ghost use Rattle.risk_journal.specs.Id64Text.{IsId64, padded_name};

use std::marker::Model;

/// A name of 1 to 64 bytes, held in place. Contracts see the list of its bytes.
#[derive(Clone, Copy, Debug)]
pub struct Id64 {
    bytes: [u8; 64],
    len: usize,
}

impl Model for Id64 {
    ghost use Rattle.std.specs.Prelude.{◌≤◌, ◌≡◌, ℕ, List, take, length};
    ghost use Rattle.risk_journal.specs.Id64Text.{HoldsName, padded_name};

    ghost Value = { List ℕ };

    ghost view = { λ name. take name.len name.bytes };

    ghost invariant = { λ name. HoldsName name.bytes name.len };

    ghost inverse = { λ text. record { bytes = padded_name text; len = length text } };

    ghost use Rattle.risk_journal.specs.Id64Law.{holds_back};

    ghost inverse_ok = { λ a h. holds_back a h };
}

impl Id64 {
    /// The text, held in place.
    pub fn of(text: &[u8]) -> Id64
        requires { IsId64 text.now }
        ensures { result ≡ text.now }
    {
        Id64 {
            bytes: padded(text),
            len: text.len(),
        }
    }

    /// The bytes.
    pub fn bytes(&self) -> &[u8]
        ensures { result.now ≡ self.now }
    {
        &self.bytes[..self.len]
    }
}

/// Writes the text over the first bytes.
fn write_front(into: &mut [u8], text: &[u8])
    requires { length text.now ≤ length into.old }
    ensures { into.new ≡ text.now ++ drop (length text.now) into.old }
{
    into[..text.len()].copy_from_slice(text);
}

/// The text with zeros up to 64 bytes.
fn padded(text: &[u8]) -> [u8; 64]
    requires { length text.now ≤ 64 }
    ensures { result ≡ padded_name text.now }
{
    let mut bytes = [0; 64];
    write_front(&mut bytes, text);
    bytes
}
