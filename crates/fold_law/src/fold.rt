//! What a fold is, and the fold of a list.
ghost use Rattle.std.specs.Prelude.{◌≡◌, ℕ, ◌+◌, ◌≤◌, Bool, length, All};
ghost use Rattle.fold_law.specs.Laws.{FoldLaws, CanJoin};
ghost use Rattle.fold_law.specs.Whole.{whole_of};

use crate::limits::SESSIONS;

/// Want of memory.
#[derive(Clone, Copy, Debug, PartialEq, Eq)]
pub struct Memory;

/// A fold of at most `SESSIONS` leaf values.
pub trait Fold {
    /// The value of no leaf.
    ghost UNIT: { ℕ };

    const UNIT: u64;

    /// The largest value of a leaf.
    ghost CAP: { ℕ };

    const CAP: u64;

    /// Two values as one.
    ghost join: { ℕ → ℕ → ℕ };
    /// Whether the first is at most the second.
    ghost le: { ℕ → ℕ → Bool };
    /// That a value can be the join of at most so many leaf values.
    ghost under: { ℕ → ℕ → Type 0 };

    /// Joins two values, which are joins of at most `SESSIONS` leaf values together.
    fn join(a: u64, b: u64) -> u64
        requires { CanJoin under a b }
        ensures { result ≡ join a b };

    /// Whether the first is at most the second, in the fold's own order.
    fn le(a: u64, b: u64) -> bool
        ensures { result ≡ le a b };

    /// The laws of joining and of the order.
    ghost laws: { FoldLaws UNIT CAP join le under };
}

/// The join of the leaves from the left, starting at `UNIT`. Each is a leaf value or the unit.
pub fn whole<F: Fold>(leaves: &[u64]) -> u64
    requires few { length leaves.now ≤ SESSIONS }
    requires leaves { All (F.under 1) leaves.now }
    ensures { result ≡ whole_of F.join F.UNIT leaves.now }
{
    let mut joined = F::UNIT;
    for leaf in leaves {
        joined = F::join(joined, *leaf);
    }
    joined
}
