//! The sum.
ghost use Rattle.std.specs.Prelude.{nat_le};
ghost use Rattle.fold_law.specs.Sum.{sum_of, IsSumOf};
ghost use Rattle.fold_law.specs.SumLaws.{sum_laws};

use crate::fold::Fold;
use crate::limits::LEAF;

/// The sum, of at most `LEAF` for each leaf.
pub struct Sum;

impl Fold for Sum {
    ghost UNIT = { 0 };

    const UNIT: u64 = 0;

    ghost use Rattle.fold_law.specs.declared.limits.TheConstants.{LEAF};

    ghost CAP = { LEAF };

    const CAP: u64 = LEAF;

    ghost join = { sum_of };

    ghost le = { nat_le };

    ghost under = { IsSumOf };

    fn join(a: u64, b: u64) -> u64 {
        a + b
    }

    fn le(a: u64, b: u64) -> bool {
        a <= b
    }

    ghost laws = { sum_laws };
}
