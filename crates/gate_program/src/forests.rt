//! The two forests of a run, over which all its sessions post and read, and the passes of the
//! sessions on them.
ghost use Rattle.std.specs.Prelude.{◌≡◌, ◌≤◌, IfOk};
ghost use Rattle.f_array.specs.Records.{AreAllOf};
ghost use Rattle.gate_program.specs.Forests.{AreBack, AreNew, AreOpened, HasClosed, HaveClosed};
ghost use Rattle.gate_files.specs.Words.{session_most};

use f_array::{Forest, Keeper, Pass, Record};
use fold_law::{Fold, Max, Memory, Sum};
use limit_table::Limits;
use stamp_word::Shape;
use std::alloc::Global;
use trail_replay::closed_records_are_lawful;

/// The forests of a run, and what closes them.
#[derive(Drop)]
pub(crate) struct Forests {
    /// The trees of sums: the firm's, and one for each account and each symbol.
    pub sums: Forest<Sum>,
    pub sum_keeper: Keeper<Sum>,
    /// The halt tree alone.
    pub halts: Forest<Max>,
    pub halt_keeper: Keeper<Max>,
}

/// A pass of each session on both forests, in the order of the sessions.
#[derive(Drop)]
pub(crate) struct Passes {
    pub sums: Vec<Pass<Sum>>,
    pub halts: Vec<Pass<Max>>,
}

/// New forests, with the passes of their sessions.
#[derive(Drop)]
pub(crate) struct Opening {
    pub forests: Forests,
    pub passes: Passes,
}

/// Opens the forests of these limits for so many sessions.
pub(crate) fn open_forests(alloc: Global, limits: &Limits, sessions: u32) -> Result<Opening, Memory>
    requires sessions { (1 ≤ sessions) × (sessions ≤ session_most) }
    ensures forests { IfOk result (λ made. AreOpened limits.now sessions made.forests) }
    ensures passes { IfOk result (λ made. AreNew sessions made.forests made.passes) }
{
    let shape = Shape::of(sessions, limits.halt_tree());
    let (sums, sum_keeper, own) = Forest::<Sum>::open(alloc, shape, sessions, limits.quota())?;
    let shape = Shape::of(sessions, 1);
    let (halts, halt_keeper, others) = Forest::<Max>::open(alloc, shape, sessions, limits.quota())?;
    Ok(Opening {
        forests: Forests {
            sums,
            sum_keeper,
            halts,
            halt_keeper,
        },
        passes: Passes {
            sums: own,
            halts: others,
        },
    })
}

/// The records of the forests of a run.
#[derive(Drop)]
pub(crate) struct Records {
    pub sums: Record,
    pub halts: Record,
}

/// The record of one forest.
fn close<F: Fold>(
    forest: Forest<F>,
    keeper: Keeper<F>,
    passes: Vec<Pass<F>>,
) -> Result<Record, Memory>
    requires keeper { keeper ≡ forest }
    requires passes { AreAllOf forest passes.items }
    ensures { IfOk result (λ taken.
        HasClosed F.UNIT F.CAP F.join forest.plan passes.items taken) }
{
    closed_records_are_lawful::<F>();
    forest.close(keeper, passes)
}

/// Closes the forests of a run, once all their passes are back.
pub(crate) fn close_forests(forests: Forests, passes: Passes) -> Result<Records, Memory>
    requires sum_keeper { forests.sum_keeper ≡ forests.sums }
    requires halt_keeper { forests.halt_keeper ≡ forests.halts }
    requires back { AreBack forests passes }
    ensures { IfOk result (λ records. HaveClosed forests passes records) }
{
    let Forests {
        sums,
        sum_keeper,
        halts,
        halt_keeper,
    } = forests;
    Ok(Records {
        sums: close(sums, sum_keeper, passes.sums)?,
        halts: close(halts, halt_keeper, passes.halts)?,
    })
}
