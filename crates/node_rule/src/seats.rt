//! A new table, and seats that are split off and joined again.
ghost use Rattle.std.specs.Prelude.{◌≡◌, ℕ, suc, ◌+◌, ◌*◌, ◌^◌, ◌<◌, ◌≤◌, List, [], IfOk, OnErr, None};
ghost use Rattle.fold_law.specs.declared.limits.TheConstants.{SESSIONS, QUOTA};
ghost use Rattle.stamp_word.specs.Places.{IsLeast};
ghost use Rattle.node_rule.specs.Standing.{plan_of, IsOf, IsKeeperOf, IsIdle};
ghost use Rattle.node_rule.specs.Standing.{IsNewKeeper, GivesOne, IsDealt, TakesBack, AreListsOf};

use crate::climb::Climb;
use crate::keeper::KeeperSeat;
use crate::rule::{Deal, NodeRule, Take};
use crate::view::{Install, Plan, View};
use crate::words::Words;
use fold_law::{Fold, Memory};
use risk_board::Call;
use stamp_word::{CountedTable, Shape};
use std::alloc::Global;
use std::marker::PhantomData;

impl<F: Fold> Words<F> {
    /// A new table, with each node at `{ stamp: 0, value: UNIT }`, and the keeper's seat.
    pub fn open(
        alloc: Global,
        shape: Shape,
        sessions: u32,
        quota: u32,
    ) -> Result<(Words<F>, KeeperSeat<F>), Memory>
        requires sessions { (1 ≤ sessions) × (sessions ≤ SESSIONS) }
        requires quota { (1 ≤ quota) × (quota ≤ QUOTA) }
        requires shape { IsLeast sessions shape.levels }
        ensures plan { IfOk result (λ new.
            new.0.plan ≡ plan_of shape.levels shape.trees sessions quota) }
        ensures keeper { IfOk result (λ new. IsNewKeeper new.0 new.1) }
    {
        let plan = Plan {
            levels: shape.levels,
            trees: shape.trees,
            sessions,
            quota,
        };
        let width = shape.trees as usize * (2 << shape.levels);
        let Ok(words) = (vec![in alloc; F::UNIT; width]) else {
            return Err(Memory);
        };
        let Ok((table, seat)) = CountedTable::<View, Plan, NodeRule<F>>::of_words(
            alloc,
            words.as_slice(),
            &plan,
        ) else {
            return Err(Memory);
        };
        let keeper = KeeperSeat {
            seat,
            plan,
            given: 0,
            fold: PhantomData,
        };
        Ok((Words { table, plan, alloc }, keeper))
    }

    /// The climb of the next session, by one step of the keeper. A refused split makes none.
    pub fn split(&self, alloc: Global, keeper: &mut KeeperSeat<F>) -> Result<Climb<F>, Memory>
        requires table { IsKeeperOf self.now keeper.old }
        requires left { keeper.old.given < keeper.old.plan.sessions }
        ensures session { IfOk result (λ new. IsDealt keeper.old new) }
        ensures keeper { IfOk result (λ _. GivesOne keeper.old keeper.new) }
        ensures own_step { IfOk result (λ _. keeper.new.steps ≡ keeper.old.steps + 1) }
        ensures refused { OnErr result (keeper.new ≡ keeper.old) }
    {
        let Ok(counts) = (vec![in alloc; 0u32; self.plan.trees as usize]) else {
            return Err(Memory);
        };
        let number = keeper.given;
        let seat = self.table.split_seat::<Deal>(&mut keeper.seat);
        keeper.given = number + 1;
        Ok(Climb {
            seat,
            plan: keeper.plan,
            number,
            calls: Vec::new(alloc),
            trail: Vec::new(alloc),
            counts,
            ascent: None,
            spare: 0,
            fold: PhantomData,
        })
    }

    /// Takes back the climb of a session that is between two posts, by one step of the keeper, and
    /// gives its calls and its installs.
    pub fn join(&self, keeper: &mut KeeperSeat<F>, done: Climb<F>) -> (Vec<Call>, Vec<Install>)
        requires table { IsKeeperOf self.now keeper.old }
        requires done { IsOf self.now done }
        requires idle { IsIdle done }
        ensures keeper { TakesBack keeper.old done keeper.new }
        ensures lists { AreListsOf done result.0.items result.1.items }
        ensures own_step { keeper.new.steps ≡ keeper.old.steps + 1 }
    {
        let Climb {
            seat,
            plan: _,
            number: _,
            calls,
            trail,
            counts: _,
            ascent: _,
            spare: _,
            fold: _,
        } = done;
        self.table.join_seat::<Take>(&mut keeper.seat, seat);
        (calls, trail)
    }
}
