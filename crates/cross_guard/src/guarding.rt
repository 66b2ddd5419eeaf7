//! Post, read, compare.
ghost use Rattle.std.specs.Prelude.{◌≡◌, ◌≢◌, ◌↔◌, IsTrue};
ghost use Rattle.cross_guard.specs.Halves.{is_clear};
ghost use Rattle.cross_guard.specs.Guarding.{CanGuard, guard_calls, is_spent, last_call};
ghost use Rattle.cross_guard.specs.Guarding.{standing_by, unread, with_calls};

use crate::level::clear;
use risk_board::{Hand, Seen};

/// What becomes of an order.
#[derive(Clone, Copy, Debug, PartialEq, Eq)]
pub enum CrossVerdict {
    /// The root of all sessions is clear with it.
    Sent,
    /// It isn't, so the order might trade with one of the firm's own.
    Cross,
    /// Too few posts are left to ask.
    Quota,
}

/// The verdict, and the root that was read for it.
#[derive(Clone, Copy, Debug, PartialEq, Eq)]
pub struct CrossOutcome {
    pub verdict: CrossVerdict,
    /// Zeros where nothing was read.
    pub root: Seen,
}

/// Asks about an order of the symbol whose tree this is, from 0. `old` is what the session last posted
/// there, 0 before any, and `new` is that with the order's value. The new value is posted, **then** the
/// root of all sessions is read; where it isn't clear, the old value is posted again. Where a post and
/// one that takes it back are more than the quota leaves, nothing is called.
pub fn guard<H: Hand>(hand: &mut H, tree: u32, old: u64, new: u64) -> CrossOutcome
    requires { CanGuard (H.meaning hand.old) tree old new }
    ensures quota { (result.verdict ≡ CrossVerdict.Quota)
        ↔ IsTrue (is_spent (H.meaning hand.old) tree) }
    ensures unread { result.verdict ≡ CrossVerdict.Quota → result.root ≡ unread }
    ensures sent { result.verdict ≢ CrossVerdict.Quota
        → (result.verdict ≡ CrossVerdict.Sent) ↔ IsTrue (is_clear result.root.value) }
    ensures stands { last_call tree (H.meaning hand.new).calls
        ≡ standing_by result.verdict old new }
    ensures calls { H.meaning hand.new
        ≡ with_calls (guard_calls tree old new result) (H.meaning hand.old) }
    ensures origin { H.SameOrigin hand.old hand.new }
{
    if hand.left(tree) < 2 {
        return CrossOutcome {
            verdict: CrossVerdict::Quota,
            root: Seen { stamp: 0, value: 0 },
        };
    }
    hand.post(tree, new);
    let root = hand.read(tree);
    if clear(root.value) {
        return CrossOutcome {
            verdict: CrossVerdict::Sent,
            root,
        };
    }
    hand.post(tree, old);
    CrossOutcome {
        verdict: CrossVerdict::Cross,
        root,
    }
}
