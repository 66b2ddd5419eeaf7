//! The verdict of the roots that were read.
ghost use Rattle.std.specs.Prelude.{◌≡◌};
ghost use Rattle.admit_core.specs.Admission.{roots_read};
ghost use Rattle.admit_core.specs.Asking.{verdict_of};
ghost use Rattle.admit_core.specs.Legs.{legs_asked};

use crate::ask::{Ask, Verdict};
use risk_board::Seen;

/// The halt root comes first, then the first of the three roots that is above its limit.
pub(crate) fn decide(ask: &Ask, halt: &Seen, roots: &[Seen; 3]) -> Verdict
    ensures { result ≡ verdict_of (legs_asked ask.now) (roots_read halt.now roots.now) }
{
    if halt.value > 0 {
        return Verdict::Halt;
    }
    if roots[0].value > ask.limits[0] {
        return Verdict::Firm;
    }
    if roots[1].value > ask.limits[1] {
        return Verdict::Account;
    }
    if roots[2].value > ask.limits[2] {
        return Verdict::Symbol;
    }
    Verdict::Sent
}
