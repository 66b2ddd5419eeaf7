//! The numbers and texts of refusals.
ghost use Rattle.std.specs.Prelude.{◌≡◌, ◌+◌, ◌≤◌, ◌++◌, length, take, drop, codes, decimal};
ghost use Rattle.fix_orders.specs.Put.{IsShort};
ghost use Rattle.session_engine.specs.Answers.{code_of, order_reason_of, request_reason_of};
ghost use Rattle.session_engine.specs.Answers.{screen_code_of, text_of};

use itoa::Buffer;
use order_desk::Refusal;
use risk_journal::Id64;

/// The number of a refusal in the journal.
pub(crate) fn code_of(refusal: Refusal) -> u8
    ensures { result ≡ code_of refusal }
{
    match refusal {
        Refusal::Firm => 1,
        Refusal::Account => 2,
        Refusal::Symbol => 3,
        Refusal::Halt => 4,
        Refusal::Quota => 5,
        Refusal::Cap => 6,
        Refusal::Duplicate => 7,
        Refusal::UnknownAccount => 8,
        Refusal::UnknownSymbol => 9,
        Refusal::Unknown => 11,
        Refusal::Closed => 12,
        Refusal::Pending => 13,
        Refusal::Mismatch => 14,
        Refusal::Quantity => 15,
        Refusal::Screen(_) => 10,
    }
}

/// What the journal tells further of a refusal: the code of the screen that refuses, and else 0.
pub(crate) fn screen_code_of(refusal: Refusal) -> u32
    ensures { result ≡ screen_code_of refusal }
{
    match refusal {
        Refusal::Screen(code) => u32::from(code),
        _ => 0,
    }
}

/// OrdRejReason (103) of an order (D) that is refused.
pub(crate) fn order_reason_of(refusal: Refusal) -> u8
    ensures { result ≡ order_reason_of refusal }
{
    match refusal {
        Refusal::Firm | Refusal::Account | Refusal::Symbol | Refusal::Cap => 3,
        Refusal::Halt | Refusal::Quota => 0,
        Refusal::Duplicate => 6,
        Refusal::UnknownSymbol => 1,
        Refusal::UnknownAccount
        | Refusal::Unknown
        | Refusal::Closed
        | Refusal::Pending
        | Refusal::Mismatch
        | Refusal::Quantity
        | Refusal::Screen(_) => 99,
    }
}

/// CxlRejReason (102) of a cancel (F) or a replace (G) that is refused.
pub(crate) fn request_reason_of(refusal: Refusal) -> u8
    ensures { result ≡ request_reason_of refusal }
{
    match refusal {
        Refusal::Duplicate => 6,
        Refusal::Unknown => 1,
        Refusal::Closed => 0,
        Refusal::Pending => 3,
        Refusal::Firm
        | Refusal::Account
        | Refusal::Symbol
        | Refusal::Halt
        | Refusal::Quota
        | Refusal::Cap
        | Refusal::UnknownAccount
        | Refusal::UnknownSymbol
        | Refusal::Mismatch
        | Refusal::Quantity
        | Refusal::Screen(_) => 2,
    }
}

/// Text (58).
pub(crate) fn text_of(refusal: Refusal) -> Id64
    ensures text { result ≡ text_of refusal }
    ensures short { IsShort result }
{
    match refusal {
        Refusal::Firm => Id64::of(b"FIRM"),
        Refusal::Account => Id64::of(b"ACCOUNT"),
        Refusal::Symbol => Id64::of(b"SYMBOL"),
        Refusal::Halt => Id64::of(b"HALT"),
        Refusal::Quota => Id64::of(b"QUOTA"),
        Refusal::Cap => Id64::of(b"CAP"),
        Refusal::Duplicate => Id64::of(b"DUPLICATE"),
        Refusal::UnknownAccount => Id64::of(b"UNKNOWN ACCOUNT"),
        Refusal::UnknownSymbol => Id64::of(b"UNKNOWN SYMBOL"),
        Refusal::Unknown => Id64::of(b"UNKNOWN"),
        Refusal::Closed => Id64::of(b"CLOSED"),
        Refusal::Pending => Id64::of(b"PENDING"),
        Refusal::Mismatch => Id64::of(b"MISMATCH"),
        Refusal::Quantity => Id64::of(b"QUANTITY"),
        Refusal::Screen(code) => screen_text(code),
    }
}

/// Text (58) of a refusal by a screen: the word and the screen's code.
fn screen_text(code: u16) -> Id64
    ensures text { result ≡ codes "SCREEN " ++ decimal code }
    ensures short { IsShort result }
{
    let mut buffer = Buffer::new();
    let digits = buffer.format(code).as_bytes();
    let mut text = *b"SCREEN 00000";
    write_digits(&mut text, digits);
    Id64::of(&text[..7 + digits.len()])
}

/// Writes digits over the bytes behind the word.
fn write_digits(text: &mut [u8], digits: &[u8])
    requires { 7 + length digits.now ≤ length text.old }
    ensures { text.new ≡ take 7 text.old ++ digits.now ++ drop (7 + length digits.now) text.old }
{
    text[7..7 + digits.len()].copy_from_slice(digits);
}
