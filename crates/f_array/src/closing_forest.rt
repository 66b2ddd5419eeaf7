//! The forest is closed once every pass is back.
ghost use Rattle.std.specs.Prelude.{◌≡◌, [], ◌∷◌, ◌≤◌, length, map, IfOk, All};
ghost use Rattle.node_rule.specs.Standing.{IsKeeperOf};
ghost use Rattle.node_rule.specs.ValuePart.{IsKept};
ghost use Rattle.f_array.specs.Passes.{IsPassOf};
ghost use Rattle.f_array.specs.Records.{AreAllOf, did_of, IsShapeOf, HasTakenBack, final_view};

use crate::forest::Forest;
use crate::pass::{Keeper, Pass};
use crate::record::{PassRecord, Record};
use fold_law::{Fold, Memory};
use node_rule::{KeeperSeat, Words};
use std::alloc::Global;

impl<F: Fold> Forest<F> {
    /// The record of the forest, whose words and installs meet the rule, all sessions idle. It asks
    /// for the keeper and all passes of the forest, in order of number. A refused close has given up
    /// the forest.
    pub fn close(self, keeper: Keeper<F>, passes: Vec<Pass<F>>) -> Result<Record, Memory>
        requires keeper { keeper ≡ self }
        requires passes { AreAllOf self passes.items }
        ensures shape { IfOk result (λ taken. IsShapeOf self.plan taken.shape) }
        ensures passes { IfOk result (λ taken. taken.passes.items ≡ map did_of passes.items) }
        ensures kept { let view = final_view self.plan passes.items in
            IfOk result (λ taken.
            IsKept self.plan F.UNIT F.CAP F.join taken.words.items (view ∷ [])) }
    {
        let Forest { words, alloc } = self;
        let Keeper { seat } = keeper;
        let mut keeper = seat;
        let shape = words.shape();
        let Ok(passes) = take_back(&words, alloc, &mut keeper, passes) else {
            return Err(Memory);
        };
        let Ok(words) = words.close(keeper) else {
            return Err(Memory);
        };
        Ok(Record {
            shape,
            words,
            passes,
        })
    }
}

// What each pass did; the keeper has it too.
fn take_back<F: Fold>(
    words: &Words<F>,
    alloc: Global,
    keeper: &mut KeeperSeat<F>,
    passes: Vec<Pass<F>>,
) -> Result<Vec<PassRecord>, Memory>
    requires table { IsKeeperOf words.now keeper.old }
    requires none { HasTakenBack keeper.old.plan.sessions [] keeper.old }
    requires passes { All (IsPassOf words.now) passes.items }
    ensures table { IfOk result (λ _. IsKeeperOf words.now keeper.new) }
    ensures taken { IfOk result (λ _.
        HasTakenBack keeper.old.plan.sessions passes.items keeper.new) }
    ensures did { IfOk result (λ did. did.items ≡ map did_of passes.items) }
{
    let mut did = Vec::new(alloc);
    for pass in passes {
        let Pass { climb } = pass;
        let (calls, trail) = words.join(keeper, climb);
        let Ok(()) = did.push(PassRecord { calls, trail }) else {
            return Err(Memory);
        };
    }
    Ok(did)
}
