//! Laws on limit files. The functions do nothing: their contracts are the laws.
ghost use Rattle.std.specs.Prelude.{◌≡◌, ℕ, List, ◌↔◌};
ghost use Rattle.limit_table.specs.Files.{IsLimitFile, IsFirstFault, IsHeldByFile};
ghost use Rattle.limit_table.specs.FileLimits.{AreFileLimits};
ghost use Rattle.limit_table.specs.declared.limits.Limits.{Limits as Value};
ghost use Rattle.limit_table.specs.declared.fault.LimitFault.{LimitFault as Fault};

/// A text holds one set of limits or has one first fault, and not both.
pub fn one_answer_stands()
    ensures limits { (bytes : List ℕ) (a : Value) (b : Value)
        → IsLimitFile bytes a → IsLimitFile bytes b → a ≡ b }
    ensures fault { (bytes : List ℕ) (a : Fault) (b : Fault)
        → IsFirstFault bytes a → IsFirstFault bytes b → a ≡ b }
    ensures either { (bytes : List ℕ) (limits : Value) (why : Fault)
        → IsLimitFile bytes limits → IsFirstFault bytes why → ⊥ }
{}

/// A file can hold just those limits whose numbers and names are in range, with few names of each
/// kind, all different.
pub fn held_limits_stand()
    ensures { (limits : Value) → IsHeldByFile limits ↔ AreFileLimits limits }
{}
