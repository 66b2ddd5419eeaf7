//! Why an order or a request is refused.
ghost use Rattle.std.specs.Prelude.{◌≡◌};
ghost use Rattle.order_desk.specs.Refusals.{refusal_by, refusal_by_code, refusal_of};

use admit_core::Verdict;
use exposure_book::BookFault;

/// Why an order, a cancel or a replace is refused.
#[derive(Clone, Copy, Debug, PartialEq, Eq)]
pub enum Refusal {
    /// The firm's root would be above its limit.
    Firm,
    /// The account's root would be above its limit.
    Account,
    /// The symbol's root would be above its limit.
    Symbol,
    /// Somebody has halted.
    Halt,
    /// Fewer than two posts are left in one of its trees.
    Quota,
    /// A value is more than a leaf holds.
    Cap,
    /// Its ClOrdID (11) is one of an order in the book.
    Duplicate,
    /// The limits have no row for its Account (1).
    UnknownAccount,
    /// The limits have no row for its Symbol (55).
    UnknownSymbol,
    /// Its OrigClOrdID (41) is of no order, or isn't the current id of its order.
    Unknown,
    /// Nothing is left of the order that it names.
    Closed,
    /// A request is pending on the order that it names.
    Pending,
    /// Its Account (1), Symbol (55) or Side (54) isn't that of the order that it names.
    Mismatch,
    /// Its OrderQty (38) is at most what is filled of the order that it names.
    Quantity,
    /// A screen gave it this code, which isn't 0.
    Screen(u16),
}

/// Why a verdict refuses, if it does.
pub(crate) fn refusal_by(verdict: Verdict) -> Option<Refusal>
    ensures { result ≡ refusal_by verdict }
{
    match verdict {
        Verdict::Sent => None,
        Verdict::Firm => Some(Refusal::Firm),
        Verdict::Account => Some(Refusal::Account),
        Verdict::Symbol => Some(Refusal::Symbol),
        Verdict::Halt => Some(Refusal::Halt),
        Verdict::Quota => Some(Refusal::Quota),
    }
}

/// Why a request with this fault is refused.
pub(crate) fn refusal_of(fault: BookFault) -> Refusal
    ensures { result ≡ refusal_of fault }
{
    match fault {
        BookFault::Duplicate => Refusal::Duplicate,
        BookFault::Unknown => Refusal::Unknown,
        BookFault::Closed => Refusal::Closed,
        BookFault::Pending => Refusal::Pending,
        BookFault::Mismatch => Refusal::Mismatch,
        BookFault::Quantity => Refusal::Quantity,
        BookFault::Cap => Refusal::Cap,
    }
}

/// Why an order with this code of the screens is refused, if it is.
pub(crate) fn refusal_by_code(code: u16) -> Option<Refusal>
    ensures { result ≡ refusal_by_code code }
{
    match code {
        0 => None,
        _ => Some(Refusal::Screen(code)),
    }
}
