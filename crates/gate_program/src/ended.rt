//! The sessions of a run, and what they leave, by kind.
ghost use Rattle.std.specs.Prelude.{◌≡◌, ◌^◌, ◌≤◌, ◌<◌, [], length, map, IfErr, IfOk, vec_capacity};
ghost use Rattle.std.specs.List.{AllByRecursion};
ghost use Rattle.f_array.specs.Passes.{new_passes};
ghost use Rattle.gate_program.specs.Forests.{AreOpened, HaveRun};
ghost use Rattle.gate_files.specs.Objects.{objects_of};
ghost use Rattle.gate_program.specs.Objects.{HaveDone};
ghost use Rattle.gate_program.specs.Room.{HasNone, HasSpare};

use crate::forests::{Forests, Passes};
use crate::tasks::{Task, TaskDone, opened_of, run_tasks};
use fold_law::Memory;
use gate_files::Opened;
use gate_ports::{Gate, Sink, Source};
use limit_table::Limits;
use risk_journal::{Act, End};
use std::alloc::Global;
use std::thread::Threads;

/// What sessions did, how each ended, their passes and their objects, all in the order of the
/// sessions.
#[derive(Drop)]
pub(crate) struct Ended<S, K> {
    pub passes: Passes,
    pub acts: Vec<Vec<Act>>,
    pub ends: Vec<End>,
    pub opened: Vec<Opened<S, K>>,
}

/// Room for the tasks of sessions, and for what they leave.
#[derive(Drop)]
pub(crate) struct Room<S, K> {
    pub tasks: Vec<Task<S, K>>,
    pub ended: Ended<S, K>,
}

/// An empty list with room for so many elements.
fn room_of<T: Drop>(alloc: Global, count: usize) -> Result<Vec<T>, Memory>
    ensures empty { IfOk result (λ room. room.items ≡ []) }
    ensures room { IfOk result (λ room. count ≤ vec_capacity room) }
{
    match Vec::with_capacity(alloc, count) {
        Ok(room) => Ok(room),
        Err(_) => Err(Memory),
    }
}

/// Room for so many sessions.
pub(crate) fn room_for<S: Drop, K: Drop>(alloc: Global, count: usize) -> Result<Room<S, K>, Memory>
    ensures no_task { IfOk result (λ room. room.tasks.items ≡ []) }
    ensures task_room { IfOk result (λ room. count ≤ vec_capacity room.tasks) }
    ensures empty { IfOk result (λ room. HasNone room.ended) }
    ensures room { IfOk result (λ room. HasSpare count room.ended) }
{
    Ok(Room {
        tasks: room_of(alloc, count)?,
        ended: Ended {
            passes: Passes {
                sums: room_of(alloc, count)?,
                halts: room_of(alloc, count)?,
            },
            acts: room_of(alloc, count)?,
            ends: room_of(alloc, count)?,
            opened: room_of(alloc, count)?,
        },
    })
}

/// Takes apart what each session left. There is room for it.
pub(crate) fn taken_apart<S: Drop, K: Drop>(
    done: Vec<TaskDone<S, K>>,
    room: Ended<S, K>,
) -> Ended<S, K>
    requires empty { HasNone room }
    requires room { HasSpare (length done.items) room }
    ensures sums { result.passes.sums.items ≡ map (λ d. d.sum) done.items }
    ensures halts { result.passes.halts.items ≡ map (λ d. d.halt) done.items }
    ensures acts { map (λ own. own.items) result.acts.items ≡ map (λ d. d.acts.items) done.items }
    ensures ends { result.ends.items ≡ map (λ d. d.end) done.items }
    ensures opened { result.opened.items ≡ map (λ d. d.opened) done.items }
{
    let mut ended = room;
    for one in done {
        let TaskDone {
            sum,
            halt,
            acts,
            end,
            opened,
        } = one;
        ended.passes.sums.push_reserved(sum);
        ended.passes.halts.push_reserved(halt);
        ended.acts.push_reserved(acts);
        ended.ends.push_reserved(end);
        ended.opened.push_reserved(opened);
    }
    ended
}

/// Runs each task over these forests, all side by side, and takes apart what they left. There is room
/// for it. Where memory is wanting none is run, and the objects are given back.
pub(crate) fn run_sessions<R: Threads + Sync, S: Source + Send, K: Sink + Send, G: Gate>(
    rt: &R,
    alloc: Global,
    limits: &Limits,
    gate: &G,
    forests: &Forests,
    tasks: Vec<Task<S, K>>,
    room: Ended<S, K>,
) -> Result<Ended<S, K>, Vec<Opened<S, K>>>
    requires some { 1 ≤ length tasks.items }
    requires forests { AreOpened limits.now (length tasks.items) forests.now }
    requires sums { map (λ t. t.sum) tasks.items
        ≡ new_passes forests.now.sums (length tasks.items) }
    requires halts { map (λ t. t.halt) tasks.items
        ≡ new_passes forests.now.halts (length tasks.items) }
    requires empty { HasNone room }
    requires room { HasSpare (length tasks.items) room }
    ensures ran { IfOk result (λ ended.
        HaveRun limits.now forests.now ended.passes (map (λ own. own.items) ended.acts.items)) }
    ensures few { IfOk result (λ ended.
        AllByRecursion (λ own. length own < 2 ^ 32) (map (λ own. own.items) ended.acts.items)) }
    ensures done { IfOk result (λ ended. HaveDone limits.now
        (map (λ t. map (λ b. (Screen-box b).meaning b.value) t.screens.items) tasks.items)
        (map (λ t. objects_of S.left S.name S.faults K.held K.name K.faults
        t.opened) tasks.items)
        (map (objects_of S.left S.name S.faults K.held K.name K.faults)
        ended.opened.items)
        (map (λ own. own.items) ended.acts.items) ended.ends.items) }
    ensures err { IfErr result (λ back. back.items ≡ map (λ t. t.opened) tasks.items) }
{
    limits.stand_in_a_file();
    match run_tasks::<R, S, K, G>(rt, alloc, limits, gate, forests, tasks) {
        Ok(done) => Ok(taken_apart(done, room)),
        Err(tasks) => Err(opened_of(tasks, room.opened)),
    }
}
