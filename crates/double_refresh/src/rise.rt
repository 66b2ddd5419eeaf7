//! One or two tries at the parent of an ascent's node.
ghost use Rattle.std.specs.Prelude.{◌≡◌, ℕ, ◌+◌, ◌≤◌};
ghost use Rattle.std.specs.Bool.{OnTrue, OnFalse};
ghost use Rattle.node_rule.specs.Standing.{IsOf, KeepsSeat, IsFresh, HasTry, HasFullTry};
ghost use Rattle.double_refresh.specs.Refreshing.{HasLoadedBoth, Wins, Loses, Rises};

use fold_law::Fold;
use node_rule::{Climb, Words};
use stamp_word::Steps;
use std::sync::ledger::Ledger;

// Loads both children for the try in hand.
pub(crate) fn load_children<F: Fold, L: Ledger>(
    words: &Words<F>,
    climb: &mut Climb<F>,
    steps: &mut Steps<L>,
)
    requires table { IsOf words.now climb.old }
    requires stage { HasTry climb.old }
    ensures table { KeepsSeat climb.old climb.new }
    ensures full { HasFullTry climb.new }
    ensures view { HasLoadedBoth climb.old climb.new }
    ensures own_steps { climb.new.steps ≡ climb.old.steps + 2 }
    ensures steps { steps.new ≡ steps.old + 2 }
{
    words.load_left(climb, steps);
    words.load_right(climb, steps);
}

// The rest of a try: the children are loaded, and the parent's word is exchanged.
pub(crate) fn attempt<F: Fold, L: Ledger>(
    words: &Words<F>,
    climb: &mut Climb<F>,
    steps: &mut Steps<L>,
) -> bool
    requires table { IsOf words.now climb.old }
    requires stage { HasTry climb.old }
    ensures table { KeepsSeat climb.old climb.new }
    ensures won { OnTrue result (Wins climb.old climb.new) }
    ensures lost { OnFalse result (Loses climb.old climb.new) }
    ensures own_steps { climb.new.steps ≡ climb.old.steps + 3 }
    ensures steps { steps.new ≡ steps.old + 3 }
{
    load_children(words, climb, steps);
    words.exchange(climb, steps)
}

/// Takes an ascent that has loaded nothing for its parent yet up to the parent: below the root it
/// stands there, with a held stamp that covers its post and nothing loaded for the next parent;
/// where the parent is the root, the session is between two posts. It wins at most one exchange.
///
/// Its steps are bounded by the seat's own count and by the counter that is handed in. The seat
/// counts each of them, so a body that loads a word until another session changes it is refused.
pub fn refresh<F: Fold, L: Ledger>(words: &Words<F>, climb: &mut Climb<F>, steps: &mut Steps<L>)
    requires table { IsOf words.now climb.old }
    requires stage { IsFresh climb.old }
    ensures table { KeepsSeat climb.old climb.new }
    ensures rises { Rises climb.old climb.new }
    ensures own_least { climb.old.steps + 4 ≤ climb.new.steps }
    ensures own_most { climb.new.steps ≤ climb.old.steps + 8 }
    ensures least { steps.old + 4 ≤ steps.new }
    ensures steps { steps.new ≤ steps.old + 8 }
{
    words.first_load(climb, steps);
    if attempt(words, climb, steps) {
        return;
    }
    words.second_load(climb, steps);
    attempt(words, climb, steps);
}
