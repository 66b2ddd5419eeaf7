//! A law on what is said of journals. The function does nothing: its contract is the law.
ghost use Rattle.std.specs.Prelude.{◌≡◌, ℕ};
ghost use Rattle.journal_check.specs.Faults.{Case, IsFirstFault, IsLawful};

/// A journal is lawful or has one first fault, and not both.
pub fn one_judgement_stands()
    ensures either { (case : Case) (kind row : ℕ) → IsLawful case → ¬ IsFirstFault case kind row }
    ensures one { (case : Case) (kind row other at : ℕ) → IsFirstFault case kind row
        → IsFirstFault case other at → (kind ≡ other) × (row ≡ at) }
{}
