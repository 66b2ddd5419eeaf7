//! The largest.
ghost use Rattle.std.specs.Prelude.{max, nat_le};
ghost use Rattle.fold_law.specs.Max.{IsMaxOf};
ghost use Rattle.fold_law.specs.MaxLaws.{max_laws};

use crate::fold::Fold;
use crate::limits::LEAF;

/// The largest, of leaf values up to `LEAF`.
pub struct Max;

impl Fold for Max {
    ghost UNIT = { 0 };

    const UNIT: u64 = 0;

    ghost use Rattle.fold_law.specs.declared.limits.TheConstants.{LEAF};

    ghost CAP = { LEAF };

    const CAP: u64 = LEAF;

    ghost join = { max };

    ghost le = { nat_le };

    ghost under = { IsMaxOf };

    fn join(a: u64, b: u64) -> u64 {
        a.max(b)
    }

    fn le(a: u64, b: u64) -> bool {
        a <= b
    }

    ghost laws = { max_laws };
}
