//! The laws: what a close gives is lawful, and of each tree of a lawful record the history is legal,
//! with bounds on what it comes to. The functions do nothing: their contracts are the laws.
ghost use Rattle.std.specs.Prelude.{◌≡◌, ℕ, ◌^◌, ◌<◌, ◌≤◌, List, [], ◌∷◌, All, length, map};
ghost use Rattle.stamp_word.specs.Places.{IsLeast};
ghost use Rattle.risk_board.specs.History.{array_after, components_of};
ghost use Rattle.node_rule.specs.Standing.{Forested};
ghost use Rattle.node_rule.specs.ValuePart.{IsKept};
ghost use Rattle.f_array.specs.Passes.{PassValue};
ghost use Rattle.f_array.specs.declared.record.Record.{Record};
ghost use Rattle.f_array.specs.Records.{AreAllOf, IsShapeOf, did_of, final_view};
ghost use Rattle.trail_replay.specs.Fronts.{IsLawful};
ghost use Rattle.trail_replay.specs.Histories.{HasLegalHistory, AreLegalIn};
ghost use Rattle.trail_replay.specs.Histories.{history_of, places_of};

use fold_law::Fold;

/// A record of the shape of a forest, with what each of its passes did, and with words that meet
/// the rule with them, as a close gives it, is lawful.
pub fn closed_records_are_lawful<F: Fold>()
    ensures { (forest : Forested) (passes : List PassValue) (taken : Record)
        → AreAllOf forest passes → IsShapeOf forest.plan taken.shape
        → taken.passes.items ≡ map did_of passes
        → IsKept forest.plan F.UNIT F.CAP F.join taken.words.items
        (final_view forest.plan passes ∷ [])
        → IsLawful F.UNIT F.CAP F.join taken }
{}

/// Of every lawful record and every tree of it the history is legal, with each read at the place of
/// its stamp.
pub fn histories_are_legal<F: Fold>()
    ensures { (taken : Record) (tree : ℕ) → IsLawful F.UNIT F.CAP F.join taken
        → tree < taken.shape.trees → HasLegalHistory F.join F.UNIT taken tree }
{}

/// Of every lawful record and each of its trees the lines and the places that a replay gives are
/// legal.
pub fn histories_are_legal_by_places<F: Fold>()
    ensures { (taken : Record) (tree : ℕ) → IsLawful F.UNIT F.CAP F.join taken
        → tree < taken.shape.trees
        → AreLegalIn F.join F.UNIT taken tree (history_of taken tree) (places_of taken tree) }
{}

/// The leaves of the least tree with one for each session are as many as the components of the plain
/// array of so many sessions.
pub fn components_are_leaves()
    ensures { (sessions levels : ℕ) → 1 ≤ sessions → IsLeast sessions levels
        → 2 ^ levels ≡ components_of sessions }
{}

/// Of every lawful record a `u32` counts the lines of a tree, and each component of an array behind
/// them is a leaf value, where the unit is one.
pub fn histories_have_totals<F: Fold>()
    ensures few { (taken : Record) (tree : ℕ) → IsLawful F.UNIT F.CAP F.join taken
        → tree < taken.shape.trees → length (history_of taken tree) < 2 ^ 32 }
    ensures leaves { (taken : Record) (tree components : ℕ) → IsLawful F.UNIT F.CAP F.join taken
        → F.UNIT ≤ F.CAP
        → All (λ value. value ≤ F.CAP) (array_after F.UNIT components (history_of taken tree)) }
{}
