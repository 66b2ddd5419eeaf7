//! The screens of a session, with which it is run again.
ghost use Rattle.std.specs.Prelude.{◌≡◌, ◌≤◌, ◌<◌, ℕ, List, length, map, All, IfSome};
ghost use Rattle.fold_law.specs.declared.limits.TheConstants.{LEAF};
ghost use Rattle.gate_ports.specs.Faults.{Rose};
ghost use Rattle.limit_table.specs.Trees.{halt_tree};
ghost use Rattle.risk_journal.specs.JournalGrammar.{HasEnded};
ghost use Rattle.session_engine.specs.Session.{armed_for};
ghost use Rattle.journal_check.specs.PostBounds.{PostsAtMost};
ghost use Rattle.journal_check.specs.SameActs.{IsInTrees};
ghost use Rattle.journal_check.specs.SessionActs.{IsOwnSession, DiffersAt};

use crate::replay::{Compared, Likeness, compare};
use gate_ports::Source;
use limit_table::Limits;
use risk_journal::Act;
use screen_kit::Screen;
use std::alloc::Global;

/// The screens of a session, with which it can be run again.
pub(crate) trait SessionScreens: Drop {
    ghost use Rattle.std.specs.Prelude.{List};
    ghost use Rattle.screen_kit.specs.Screens.{ScreenValue};

    /// What the screens mean, in their order.
    ghost meaning: { Self → List ScreenValue };

    /// Runs a session again and compares its acts with these.
    fn rerun<S: Source>(
        self,
        alloc: Global,
        limits: &Limits,
        session: u32,
        source: S,
        acts: &[Act],
    ) -> Compared<S>
        requires ended { HasEnded acts.now }
        requires trees { All (IsInTrees (halt_tree limits.now)) acts.now }
        ensures alike { result.likeness ≡ Likeness.Alike → IfSome (S.left source) (λ bytes.
            IsOwnSession limits.now (armed_for limits.now (meaning self)) bytes acts.now) }
        ensures capped { result.likeness ≡ Likeness.Alike → All (PostsAtMost LEAF) acts.now }
        ensures apart { (index : ℕ) → result.likeness ≡ Likeness.Apart index
            → IfSome (S.left source) (λ bytes. DiffersAt limits.now
            (armed_for limits.now (meaning self)) bytes acts.now index) }
        ensures inside { (index : ℕ) → result.likeness ≡ Likeness.Apart index
            → index < length acts.now }
        ensures read_fault { result.likeness ≡ Likeness.ReadFault
            → Rose (S.faults source) (S.faults result.source) }
        ensures later { S.faults source ≤ S.faults result.source }
        ensures name { S.name result.source ≡ S.name source };
}

impl SessionScreens for Vec<Box<dyn Screen + Send>> {
    ghost use Rattle.std.specs.Prelude.{map};

    ghost meaning = { λ a. map (λ b. (Screen-box b).meaning b.value) a.items };

    fn rerun<S: Source>(
        self,
        alloc: Global,
        limits: &Limits,
        session: u32,
        source: S,
        acts: &[Act],
    ) -> Compared<S> {
        compare(alloc, limits, session, self, source, acts)
    }
}
