//! The sessions of a run as tasks over its two forests, all side by side.
ghost use Rattle.std.specs.Prelude.{◌≡◌, ◌^◌, ◌<◌, ◌≤◌, [], length, map, take, IfErr, IfOk};
ghost use Rattle.std.specs.Prelude.{vec_capacity};
ghost use Rattle.std.specs.List.{AllZip, AllByRecursion};
ghost use Rattle.gate_program.specs.Forests.{AreReady, HaveMade};
ghost use Rattle.gate_files.specs.Objects.{objects_of};
ghost use Rattle.gate_program.specs.Objects.{HasDone};

use crate::forests::{Forests, Passes};
use f_array::{Forest, Pass, TreeHand};
use fold_law::{Max, Sum};
use fork_all::map_all;
use gate_files::{Opened, Sinks};
use gate_ports::{Gate, Sink, Source};
use limit_table::Limits;
use risk_journal::{Act, End};
use screen_kit::Screen;
use session_engine::{Hands, SessionDone, run_session};
use std::alloc::Global;
use std::thread::Threads;

/// A session to be run.
#[derive(Drop)]
pub(crate) struct Task<S, K> {
    pub sum: Pass<Sum>,
    pub halt: Pass<Max>,
    pub screens: Vec<Box<dyn Screen + Send>>,
    pub opened: Opened<S, K>,
}

/// A session that was run: what it did, how it ended, its passes and its objects.
#[derive(Drop)]
pub(crate) struct TaskDone<S, K> {
    pub sum: Pass<Sum>,
    pub halt: Pass<Max>,
    pub acts: Vec<Act>,
    pub end: End,
    pub opened: Opened<S, K>,
}

/// A task for each session that was opened, with the passes and the set of screens in its place.
/// There is room for them.
pub(crate) fn tasks_of<S: Drop, K: Drop>(
    passes: Passes,
    screens: Vec<Vec<Box<dyn Screen + Send>>>,
    opened: Vec<Opened<S, K>>,
    room: Vec<Task<S, K>>,
) -> Vec<Task<S, K>>
    requires sums { length passes.sums.items ≡ length opened.items }
    requires halts { length passes.halts.items ≡ length opened.items }
    requires screens { length opened.items ≤ length screens.items }
    requires empty { room.items ≡ [] }
    requires room { length opened.items ≤ vec_capacity room }
    ensures sums { map (λ t. t.sum) result.items ≡ passes.sums.items }
    ensures halts { map (λ t. t.halt) result.items ≡ passes.halts.items }
    ensures opened { map (λ t. t.opened) result.items ≡ opened.items }
    ensures screens { map (λ t. t.screens) result.items
        ≡ take (length opened.items) screens.items }
{
    let Passes {
        mut sums,
        mut halts,
    } = passes;
    let mut screens = screens;
    let mut tasks = room;
    for own in opened {
        tasks.push_reserved(Task {
            sum: sums.remove(0),
            halt: halts.remove(0),
            screens: screens.remove(0),
            opened: own,
        });
    }
    tasks
}

/// Runs a session over its hands on both forests, and gives its passes back.
fn run_task<S: Source, K: Sink, G: Gate>(
    alloc: Global,
    limits: &Limits,
    gate: &G,
    sums: &Forest<Sum>,
    halts: &Forest<Max>,
    task: Task<S, K>,
) -> TaskDone<S, K>
    requires { AreReady limits.now sums.now halts.now task.sum task.halt }
    ensures made { HaveMade limits.now task.sum task.halt result.sum result.halt result.acts.items }
    ensures few { length result.acts.items < 2 ^ 32 }
    ensures done { HasDone limits.now (map (λ b. (Screen-box b).meaning b.value) task.screens.items)
        (objects_of S.left S.name S.faults K.held K.name K.faults task.opened)
        (objects_of S.left S.name S.faults K.held K.name K.faults result.opened)
        result.acts.items result.end }
{
    let Task {
        sum,
        halt,
        screens,
        opened,
    } = task;
    let Opened { input, sinks } = opened;
    let Sinks { venue, client } = sinks;
    let session = sum.number();
    let hands = Hands {
        sum: TreeHand::new(sums, sum),
        halt: TreeHand::new(halts, halt),
    };
    let done = run_session(
        alloc, session, limits, hands, screens, input, venue, client, gate,
    );
    let SessionDone {
        hands,
        acts,
        end,
        source,
        venue,
        client,
    } = done;
    let Hands { sum, halt } = hands;
    TaskDone {
        sum: sum.give_back(),
        halt: halt.give_back(),
        acts,
        end,
        opened: Opened {
            input: source,
            sinks: Sinks { venue, client },
        },
    }
}

/// Runs each task, all side by side, and gives what each left, in their order. Where memory is
/// wanting none is run, and the tasks are given back.
pub(crate) fn run_tasks<R: Threads + Sync, S: Source + Send, K: Sink + Send, G: Gate>(
    rt: &R,
    alloc: Global,
    limits: &Limits,
    gate: &G,
    forests: &Forests,
    tasks: Vec<Task<S, K>>,
) -> Result<Vec<TaskDone<S, K>>, Vec<Task<S, K>>>
    requires ready { AllByRecursion (λ task.
        AreReady limits.now forests.now.sums forests.now.halts task.sum task.halt) tasks.items }
    ensures ok { IfOk result (λ done. AllZip (λ task one.
        HaveMade limits.now task.sum task.halt one.sum one.halt one.acts.items
        × (length one.acts.items < 2 ^ 32)
        × HasDone limits.now (map (λ b. (Screen-box b).meaning b.value) task.screens.items)
        (objects_of S.left S.name S.faults K.held K.name K.faults task.opened)
        (objects_of S.left S.name S.faults K.held K.name K.faults one.opened)
        one.acts.items one.end)
        tasks.items done.items) }
    ensures err { IfErr result (λ back. back.items ≡ tasks.items) }
{
    let sums = &forests.sums;
    let halts = &forests.halts;
    let run = |task: Task<S, K>| -> TaskDone<S, K>
        requires { AreReady limits.now sums.now halts.now task.sum task.halt }
        ensures { HaveMade limits.entry.now task.sum task.halt result.sum result.halt
            result.acts.items
            × (length result.acts.items < 2 ^ 32)
            × HasDone limits.entry.now
            (map (λ b. (Screen-box b).meaning b.value) task.screens.items)
            (objects_of S.left S.name S.faults K.held K.name K.faults
            task.opened)
            (objects_of S.left S.name S.faults K.held K.name K.faults
            result.opened)
            result.acts.items result.end }
    { run_task(alloc, limits, gate, sums, halts, task) };
    map_all(rt, alloc, tasks, &run)
}

/// The objects of tasks that were not run. There is room for them.
pub(crate) fn opened_of<S: Drop, K: Drop>(
    tasks: Vec<Task<S, K>>,
    room: Vec<Opened<S, K>>,
) -> Vec<Opened<S, K>>
    requires empty { room.items ≡ [] }
    requires room { length tasks.items ≤ vec_capacity room }
    ensures { result.items ≡ map (λ t. t.opened) tasks.items }
{
    let mut all = room;
    for task in tasks {
        all.push_reserved(task.opened);
    }
    all
}
