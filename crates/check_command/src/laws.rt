//! A law on verdicts. The function does nothing: its contract is the law.
ghost use Rattle.std.specs.Prelude.{◌≡◌};
ghost use Rattle.journal_check.specs.Faults.{Case};
ghost use Rattle.check_command.specs.Verdicts.{Verdict, IsVerdict};

use journal_check::one_judgement_stands;

/// The files of a check have one verdict: lawful, or one fault with its kind and its row.
pub fn one_verdict_stands()
    ensures { (case : Case) (one other : Verdict) → IsVerdict case one → IsVerdict case other
        → one ≡ other }
{
    one_judgement_stands();
}
