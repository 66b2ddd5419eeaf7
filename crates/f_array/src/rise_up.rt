//! An ascent from its leaf to the root.
ghost use Rattle.std.specs.Prelude.{◌≡◌, ℕ, ◌+◌, ◌*◌, ◌≤◌};
ghost use Rattle.node_rule.specs.Standing.{IsOf};
ghost use Rattle.f_array.specs.Rising.{IsBegun, HasRisen};

use double_refresh::refresh;
use fold_law::Fold;
use node_rule::{Climb, Words};
use stamp_word::Steps;
use std::sync::ledger::Ledger;

// Takes an ascent at its leaf up to the root, by a refresh for each level.
pub(crate) fn rise_up<F: Fold, L: Ledger>(
    words: &Words<F>,
    climb: &mut Climb<F>,
    steps: &mut Steps<L>,
)
    requires table { IsOf words.now climb.old }
    requires begun { IsBegun climb.old }
    ensures risen { HasRisen climb.old climb.new }
    ensures own_least { climb.old.steps ≤ climb.new.steps }
    ensures own_most { climb.new.steps ≤ climb.old.steps + 8 * climb.old.plan.levels }
    ensures least { steps.old ≤ steps.new }
    ensures most { steps.new ≤ steps.old + 8 * climb.old.plan.levels }
{
    for _ in 0..words.shape().levels + 1 {
        if climb.node() == 1 {
            return;
        }
        refresh(words, climb, steps);
    }
}
