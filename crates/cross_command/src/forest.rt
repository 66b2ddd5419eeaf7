//! The forest of a filter, over which all its sessions post and read, and the passes of the
//! sessions.
ghost use Rattle.std.specs.Prelude.{◌≡◌, ◌≤◌, IfOk};
ghost use Rattle.f_array.specs.Passes.{new_passes};
ghost use Rattle.f_array.specs.Records.{AreAllOf};
ghost use Rattle.gate_files.specs.Words.{session_most};
ghost use Rattle.cross_command.specs.Forest.{HasClosed, IsOpened};

use cross_guard::Cross;
use f_array::{Forest, Keeper, Pass, Record};
use fold_law::Memory;
use limit_table::Limits;
use stamp_word::Shape;
use std::alloc::Global;
use trail_replay::closed_records_are_lawful;

/// The forest of a filter, and what closes it.
#[derive(Drop)]
pub(crate) struct CrossForest {
    /// A tree for each symbol, and one where there is none.
    pub trees: Forest<Cross>,
    pub keeper: Keeper<Cross>,
}

/// A new forest, with the passes of its sessions, in their order.
#[derive(Drop)]
pub(crate) struct Opening {
    pub forest: CrossForest,
    pub passes: Vec<Pass<Cross>>,
}

/// Opens the forest of these limits for so many sessions.
pub(crate) fn open_forest(alloc: Global, limits: &Limits, sessions: u32) -> Result<Opening, Memory>
    requires sessions { (1 ≤ sessions) × (sessions ≤ session_most) }
    ensures forest { IfOk result (λ made. IsOpened limits.now sessions made.forest) }
    ensures passes { IfOk result (λ made.
        made.passes.items ≡ new_passes made.forest.trees sessions) }
{
    limits.stand_in_a_file();
    let count = (limits.symbols().len() as u32).max(1);
    let shape = Shape::of(sessions, count);
    let (trees, keeper, passes) = Forest::<Cross>::open(alloc, shape, sessions, limits.quota())?;
    Ok(Opening {
        forest: CrossForest { trees, keeper },
        passes,
    })
}

/// Closes the forest, once all its passes are back.
pub(crate) fn close_forest(forest: CrossForest, passes: Vec<Pass<Cross>>) -> Result<Record, Memory>
    requires keeper { forest.keeper ≡ forest.trees }
    requires passes { AreAllOf forest.trees passes.items }
    ensures { IfOk result (λ taken. HasClosed forest.trees.plan passes.items taken) }
{
    closed_records_are_lawful::<Cross>();
    let CrossForest { trees, keeper } = forest;
    trees.close(keeper, passes)
}
