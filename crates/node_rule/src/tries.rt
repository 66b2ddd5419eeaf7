//! A try in hand: the word that it would write, its install, and where the ascent stands after it.
ghost use Rattle.std.specs.Prelude.{◌≡◌, ℕ, suc, ◌+◌, ◌*◌, ◌^◌, ◌<◌, ◌≤◌, Some};
ghost use Rattle.fold_law.specs.declared.limits.TheConstants.{SESSIONS, QUOTA};
ghost use Rattle.stamp_word.specs.declared.limits.TheConstants.{LEVELS};
ghost use Rattle.stamp_word.specs.Word.{stamp_in, value_in};
ghost use Rattle.node_rule.specs.Views.{try_of, risen};
ghost use Rattle.node_rule.specs.Steps.{install_of, ascent_lost};
ghost use Rattle.node_rule.specs.Standing.{IsBounded};

use crate::view::{Ascent, Install, Stage, Try};
use fold_law::Fold;
use stamp_word::{pack, stamp_of, value_of};

pub(crate) fn try_held(x: &Ascent) -> Option<Try>
    ensures { result ≡ try_of x.now.stage }
{
    match x.stage {
        Stage::Fresh => None,
        Stage::First(tried) => Some(tried),
        Stage::Lost { .. } => None,
        Stage::Second { tried, .. } => Some(tried),
    }
}

/// The word that the try would write: the next stamp, with the join of the children's values.
pub(crate) fn full_word<F: Fold>(tried: &Try, x: &Ascent) -> u64
    requires full { (left : ℕ) × (right : ℕ) × (tried.now.left ≡ Some left)
        × (tried.now.right ≡ Some right) }
    requires bounded { IsBounded F.under x.now.height tried.now }
    requires low { x.now.height < LEVELS }
    ensures stamp { stamp_in result ≡ suc (stamp_in tried.now.parent) }
    ensures value { (left right : ℕ) → tried.now.left ≡ Some left
        → tried.now.right ≡ Some right
        → value_in result ≡ F.join (value_in left) (value_in right) }
{
    let Some(left) = tried.left else {
        unreachable!()
    };
    let Some(right) = tried.right else {
        unreachable!()
    };
    let joined = F::join(value_of(left), value_of(right));
    pack(stamp_of(tried.parent) + 1, joined)
}

pub(crate) fn install(x: &Ascent, tried: &Try) -> Install
    requires { stamp_in tried.now.parent ≤ QUOTA * SESSIONS }
    ensures { result ≡ install_of x.now tried.now }
{
    Install {
        tree: x.tree,
        node: x.node / 2,
        stamp: stamp_of(tried.parent) + 1,
        left: stamp_of(tried.left.unwrap_or(0)),
        right: stamp_of(tried.right.unwrap_or(0)),
    }
}

pub(crate) fn risen_to(x: &Ascent, stamp: u32) -> Option<Ascent>
    requires { x.now.height < LEVELS }
    ensures { result ≡ risen x.now stamp }
{
    if x.node / 2 == 1 {
        None
    } else {
        Some(Ascent {
            tree: x.tree,
            node: x.node / 2,
            height: x.height + 1,
            held: stamp,
            stage: Stage::Fresh,
        })
    }
}

pub(crate) fn after_lost(x: &Ascent, found: u64) -> Option<Ascent>
    requires { x.now.height < LEVELS }
    ensures { result ≡ ascent_lost x.now found x.now.stage }
{
    match x.stage {
        Stage::First(tried) => {
            let first = stamp_of(tried.parent);
            Some(Ascent {
                stage: Stage::Lost { first },
                ..*x
            })
        }
        Stage::Second { .. } => risen_to(x, stamp_of(found)),
        _ => Some(*x),
    }
}
