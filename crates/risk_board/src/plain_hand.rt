//! The hand of one session on a plain board.
ghost use Rattle.std.specs.Prelude.{◌≡◌, ◌+◌, ◌-◌, ◌≤◌, ◌<◌, [], length};

use crate::board::PlainBoard;
use crate::hand::{Call, Hand, Seen};
use crate::kept::Kept;
use fold_law::{Fold, Memory};
use std::marker::{Model, PhantomData};

/// A session's hand, which owns the board. The stamp of its read is the number of posts in the tree.
#[derive(Drop)]
pub struct PlainHand<F: Fold> {
    kept: Kept,
    session: u32,
    spare: u32,
    fold: PhantomData<F>,
}

impl<F: Fold> Model for PlainHand<F> {
    ghost use Rattle.fold_law.specs.Whole.{whole_of};
    ghost use Rattle.risk_board.specs.Plain.{PlainHandValue};

    ghost Value = { PlainHandValue };

    ghost use Rattle.risk_board.specs.Kept.{board_of, IsHeld};

    ghost view = { λ h. record { board = board_of h.kept; session = h.session; spare = h.spare } };

    ghost invariant = { λ h.
        IsHeld (whole_of F.join F.UNIT) F.UNIT (F.under 1) h.kept h.session h.spare };
}

impl<F: Fold> PlainBoard<F> {
    ghost use Rattle.std.specs.Prelude.{Some, slice_get};
    ghost use Rattle.risk_board.specs.Plain.{hand_of};

    /// The hand of a session that has no call yet. It has room for no call.
    pub fn hand(self, session: u32) -> PlainHand<F>
        requires in_range { session < length self.calls }
        requires fresh { slice_get self.calls session ≡ Some [] }
        ensures meaning { hand_of F.CAP result ≡ record {
          number = session;
          trees = length self.lines;
          quota = self.quota;
          cap = F.CAP;
          spare = 0;
          calls = [];
        } }
        ensures board { result.board ≡ self }
    {
        PlainHand {
            kept: self.kept,
            session,
            spare: 0,
            fold: PhantomData,
        }
    }
}

impl<F: Fold> PlainHand<F> {
    /// The board, with the hand's calls as those of its session.
    pub fn give_back(self) -> PlainBoard<F>
        ensures { result ≡ self.board }
    {
        PlainBoard {
            kept: self.kept,
            fold: PhantomData,
        }
    }
}

impl<F: Fold> Hand for PlainHand<F> {
    ghost use Rattle.risk_board.specs.declared.hand.Call.TheVariants as Call;
    ghost use Rattle.risk_board.specs.Calls.{post_count};
    ghost use Rattle.risk_board.specs.Hands.{with_call};
    ghost use Rattle.risk_board.specs.Plain.{hand_of, KeepsOthers, lines_in, lines_with_post};

    ghost meaning = { hand_of F.CAP };

    ghost SameOrigin = { KeepsOthers };

    fn number(&self) -> u32 {
        self.session
    }

    fn left(&self, tree: u32) -> u32 {
        self.kept.quota - self.kept.trees[tree as usize].posts[self.session as usize]
    }

    fn spare(&self) -> u32 {
        self.spare
    }

    fn reserve(&mut self, calls: u32) -> Result<(), Memory> {
        if calls <= self.spare {
            return Ok(());
        }
        self.kept.reserve(self.session, calls)?;
        self.spare = calls;
        Ok(())
    }

    /// The post's line comes last in its tree, and the other trees' lines stay.
    fn post(&mut self, tree: u32, value: u64)
        requires tree { tree < (hand_of F.CAP self.old).trees }
        requires left { post_count tree (hand_of F.CAP self.old).calls
            < (hand_of F.CAP self.old).quota }
        requires spare { 1 ≤ (hand_of F.CAP self.old).spare }
        requires capped { value ≤ (hand_of F.CAP self.old).cap }
        ensures added { hand_of F.CAP self.new
            ≡ with_call (Call.Post tree value) (hand_of F.CAP self.old) }
        ensures origin { KeepsOthers self.old self.new }
        ensures lines { self.new.board.lines ≡ lines_with_post tree value self.old }
    {
        self.kept.trees[tree as usize].post(self.session, value);
        let own = &mut self.kept.calls[self.session as usize];
        own.push_reserved(Call::Post { tree, value });
        self.spare -= 1;
    }

    /// The stamp counts the tree's lines, and no line changes.
    fn read(&mut self, tree: u32) -> Seen
        requires tree { tree < (hand_of F.CAP self.old).trees }
        requires spare { 1 ≤ (hand_of F.CAP self.old).spare }
        ensures added { let call = Call.Read tree result.stamp result.value in
            hand_of F.CAP self.new ≡ with_call call (hand_of F.CAP self.old) }
        ensures origin { KeepsOthers self.old self.new }
        ensures stamp { result.stamp ≡ length (lines_in tree self.old) }
        ensures lines { self.new.board.lines ≡ self.old.board.lines }
    {
        let seen = self.kept.trees[tree as usize].root::<F>();
        let own = &mut self.kept.calls[self.session as usize];
        own.push_reserved(Call::Read {
            tree,
            stamp: seen.stamp,
            value: seen.value,
        });
        self.spare -= 1;
        seen
    }

    ghost use Rattle.risk_board.specs.Plain.{keeps_others_itself, keeps_others_through};
    ghost use Rattle.risk_board.specs.Plain.{keeps_others_means};

    ghost origin_same = { keeps_others_itself };

    ghost origin_next = { keeps_others_through };

    ghost origin_means = { keeps_others_means F.CAP };
}
