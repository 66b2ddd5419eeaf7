//! The sessions of a filter as tasks over its forest, all side by side.
ghost use Rattle.std.specs.Prelude.{◌≡◌, ◌^◌, ◌<◌, ◌≤◌, length, map, IfErr, IfOk};
ghost use Rattle.std.specs.List.{AllByRecursion};
ghost use Rattle.f_array.specs.Passes.{new_passes};
ghost use Rattle.gate_files.specs.Objects.{objects_of};
ghost use Rattle.session_tasks.specs.Did.{HasDone, HaveDone};
ghost use Rattle.session_tasks.specs.Tasks.{CanEnd};
ghost use Rattle.cross_guard.specs.Follows.{FollowsInput, StopsEarly};
ghost use Rattle.cross_guard.specs.Told.{Placing, with_places};
ghost use Rattle.cross_command.specs.Finish.{all_with_places};
ghost use Rattle.cross_command.specs.Forest.{HasMade, HaveCalled, IsOpened, IsReady};
ghost use Rattle.cross_command.specs.Rules.{follows, stops};

use crate::forest::CrossForest;
use cross_guard::{Cross, CrossDone, run_cross};
use f_array::{Forest, Pass, TreeHand};
use gate_files::{Opened, Sinks};
use gate_ports::{Sink, Source};
use limit_table::Limits;
use session_tasks::{Ended, Task, TaskDone, Tasks, run_all};
use std::alloc::Global;
use std::thread::Threads;

/// Filters a session over its hand on the forest, and gives its pass back. Whatever places its
/// reads get, it did what it is held to.
fn run_task<S: Source, K: Sink>(
    alloc: Global,
    limits: &Limits,
    trees: &Forest<Cross>,
    task: Task<Pass<Cross>, S, K>,
) -> TaskDone<Pass<Cross>, S, K>
    requires { IsReady limits.now trees.now task.own }
    ensures made { HasMade task.own result.pass result.acts.items }
    ensures few { length result.acts.items < 2 ^ 32 }
    ensures done { (place : Placing)
        → HasDone (FollowsInput limits.now) (StopsEarly limits.now)
        (objects_of S.left S.name S.faults K.held K.name K.faults task.opened)
        (objects_of S.left S.name S.faults K.held K.name K.faults result.opened)
        (with_places place result.acts.items) result.end }
{
    let Task { own, opened } = task;
    let Opened { input, sinks } = opened;
    let Sinks { venue, client } = sinks;
    let session = own.number();
    let hand = TreeHand::new(trees, own);
    let done = run_cross(alloc, session, limits, hand, input, venue, client);
    let CrossDone {
        hand,
        acts,
        end,
        source,
        pass,
        client,
    } = done;
    TaskDone {
        pass: hand.give_back(),
        acts,
        end,
        opened: Opened {
            input: source,
            sinks: Sinks {
                venue: pass,
                client,
            },
        },
    }
}

/// Filters each session over this forest, all side by side. There is room for what they leave.
/// Where memory is wanting none is run, and the objects are given back.
pub(crate) fn run_sessions<R: Threads + Sync, S: Source + Send, K: Sink + Send>(
    rt: &R,
    alloc: Global,
    limits: &Limits,
    forest: &CrossForest,
    tasks: Tasks<Pass<Cross>, Pass<Cross>, S, K>,
) -> Result<Ended<Pass<Cross>, S, K>, Vec<Opened<S, K>>>
    requires some { 1 ≤ length tasks.waiting.items }
    requires opened { IsOpened limits.now (length tasks.waiting.items) forest.now }
    requires passes { map (λ t. t.own) tasks.waiting.items
        ≡ new_passes forest.now.trees (length tasks.waiting.items) }
    requires room { CanEnd tasks }
    ensures called { IfOk result (λ ended. HaveCalled limits.now forest.now ended.passes.items
        (map (λ own. own.items) ended.acts.items)) }
    ensures few { IfOk result (λ ended.
        AllByRecursion (λ own. length own < 2 ^ 32) (map (λ own. own.items) ended.acts.items)) }
    ensures done { IfOk result (λ ended. (place : Placing)
        → HaveDone (follows limits.now) (stops limits.now)
        (map (λ t. objects_of S.left S.name S.faults K.held K.name K.faults t.opened)
        tasks.waiting.items)
        (map (objects_of S.left S.name S.faults K.held K.name K.faults) ended.opened.items)
        (all_with_places place (map (λ own. own.items) ended.acts.items)) ended.ends.items) }
    ensures err { IfErr result (λ back. back.items ≡ map (λ t. t.opened) tasks.waiting.items) }
{
    let trees = &forest.trees;
    let run = |task: Task<Pass<Cross>, S, K>| -> TaskDone<Pass<Cross>, S, K>
        requires { IsReady limits.now trees.now task.own }
        ensures { HasMade task.own result.pass result.acts.items
            × (length result.acts.items < 2 ^ 32)
            × ((place : Placing)
            → HasDone (FollowsInput limits.entry.now) (StopsEarly limits.entry.now)
            (objects_of S.left S.name S.faults K.held K.name K.faults task.opened)
            (objects_of S.left S.name S.faults K.held K.name K.faults result.opened)
            (with_places place result.acts.items) result.end) }
    { run_task(alloc, limits, trees, task) };
    run_all(rt, alloc, tasks, &run)
}
