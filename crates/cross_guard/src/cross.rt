//! The fold of resting orders: of buys the highest level, and of sells the lowest.
ghost use Rattle.std.specs.Prelude.{◌≡◌};
ghost use Rattle.cross_guard.specs.Halves.{cross_cap, cross_join, cross_le, IsPacked};
ghost use Rattle.cross_guard.specs.HalvesLaws.{cross_laws};

use fold_law::Fold;

/// A value has two halves, and each is below this: above it the highest level of a buy, 0 without
/// one, and below it this less the lowest level of a sell, 0 without one.
pub const HALF: u64 = 524_288;

/// Every value is below this.
pub const PACKED: u64 = 274_877_906_944;

/// Two values as one: the larger of each half.
pub(crate) fn joined(a: u64, b: u64) -> u64
    ensures { result ≡ cross_join a b }
{
    (a / HALF).max(b / HALF) * HALF + (a % HALF).max(b % HALF)
}

/// The larger of both halves.
pub struct Cross;

impl Fold for Cross {
    ghost UNIT = { 0 };

    const UNIT: u64 = 0;

    ghost CAP = { cross_cap };

    const CAP: u64 = PACKED - 1;

    ghost join = { cross_join };

    ghost le = { cross_le };

    ghost under = { IsPacked };

    fn join(a: u64, b: u64) -> u64 {
        joined(a, b)
    }

    fn le(a: u64, b: u64) -> bool {
        a / HALF <= b / HALF && a % HALF <= b % HALF
    }

    ghost laws = { cross_laws };
}
