//! Laws on what is checked. The functions do nothing: their contracts are the laws.
ghost use Rattle.std.specs.Prelude.{◌≡◌, ℕ, ◌≤◌, ◌↔◌, List, length, true};
ghost use Rattle.fold_law.specs.declared.limits.TheConstants.{SESSIONS};
ghost use Rattle.fold_law.specs.Whole.{whole_of};
ghost use Rattle.risk_board.specs.History.{Event, IsLegal};
ghost use Rattle.risk_board.specs.declared.hand.Line.{Line as LineValue};
ghost use Rattle.trail_replay.specs.Arrays.{AreLines};
ghost use Rattle.admit_core.specs.Admitted.{StaysWithin};
ghost use Rattle.tree_check.specs.Reads.{reads_in};
ghost use Rattle.tree_check.specs.Staying.{stays_along};
ghost use Rattle.tree_check.specs.Walked.{are_walked};

use fold_law::Fold;

/// The reads of a legal history agree with a walk along it.
pub fn legal_reads_are_walked<F: Fold>()
    ensures { (components : ℕ) (lines : List LineValue) (events : List (List Event))
        → components ≤ SESSIONS → AreLines F.CAP lines
        → IsLegal (whole_of F.join F.UNIT) F.UNIT components lines events
        → are_walked F.join F.UNIT lines (reads_in events) ≡ true }
{}

/// What is checked of a limit is that what is admitted stays within it along the whole history.
pub fn staying_is_within()
    ensures { (limit : ℕ) (lines : List LineValue) (events : List (List Event))
        → (stays_along limit (length events) lines (reads_in events) ≡ true)
        ↔ StaysWithin limit (length events) lines events }
{}
