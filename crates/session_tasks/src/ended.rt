//! The sessions of a run, and what they leave, by kind.
ghost use Rattle.std.specs.Prelude.{◌≡◌, ◌≤◌, [], length, map, List, IfErr, IfOk, vec_capacity};
ghost use Rattle.std.specs.List.{AllZip, AllByRecursion};
ghost use Rattle.session_tasks.specs.Tasks.{AreApart, CanEnd, HasNone, HasRoom, HasSpare};
ghost use Rattle.session_tasks.specs.declared.task.TaskDone.{TaskDone as Done};

use crate::task::{Task, TaskDone, all_waiting, opened_of};
use fold_law::Memory;
use fork_all::map_all;
use gate_files::Opened;
use risk_journal::{Act, End};
use std::alloc::Global;
use std::thread::Threads;

/// What sessions did, how each ended, their passes and their objects, all in the order of the
/// sessions.
#[derive(Drop)]
pub struct Ended<P, S, K> {
    pub passes: Vec<P>,
    pub acts: Vec<Vec<Act>>,
    pub ends: Vec<End>,
    pub opened: Vec<Opened<S, K>>,
}

/// The tasks of sessions, and room for what they leave.
#[derive(Drop)]
pub struct Tasks<W, P, S, K> {
    pub waiting: Vec<Task<W, S, K>>,
    pub ended: Ended<P, S, K>,
}

/// An empty list with room for so many elements.
fn room_of<T: Drop>(alloc: Global, count: usize) -> Result<Vec<T>, Memory>
    ensures empty { IfOk result (λ room. room.items ≡ []) }
    ensures room { IfOk result (λ room. count ≤ vec_capacity room) }
{
    match Vec::with_capacity(alloc, count) {
        Ok(room) => Ok(room),
        Err(_) => Err(Memory),
    }
}

/// Room for so many sessions.
pub fn room_for<W: Drop, P: Drop, S: Drop, K: Drop>(
    alloc: Global,
    count: usize,
) -> Result<Tasks<W, P, S, K>, Memory>
    ensures { IfOk result (HasRoom count) }
{
    Ok(Tasks {
        waiting: room_of(alloc, count)?,
        ended: Ended {
            passes: room_of(alloc, count)?,
            acts: room_of(alloc, count)?,
            ends: room_of(alloc, count)?,
            opened: room_of(alloc, count)?,
        },
    })
}

/// A task for each session that was opened, with what stands in its place of what they take along.
/// There is room for them.
pub fn tasks_of<W: Drop, P: Drop, S: Drop, K: Drop>(
    own: Vec<W>,
    opened: Vec<Opened<S, K>>,
    room: Tasks<W, P, S, K>,
) -> Tasks<W, P, S, K>
    requires many { length own.items ≡ length opened.items }
    requires room { HasRoom (length opened.items) room }
    ensures own { map (λ t. t.own) result.waiting.items ≡ own.items }
    ensures opened { map (λ t. t.opened) result.waiting.items ≡ opened.items }
    ensures room { CanEnd result }
{
    let Tasks { waiting, ended } = room;
    Tasks {
        waiting: all_waiting(own, opened, waiting),
        ended,
    }
}

/// Takes apart what each session left. There is room for it.
fn taken_apart<P: Drop, S: Drop, K: Drop>(
    done: Vec<TaskDone<P, S, K>>,
    room: Ended<P, S, K>,
) -> Ended<P, S, K>
    requires empty { HasNone room }
    requires room { HasSpare (length done.items) room }
    ensures { AreApart done.items result }
{
    let mut ended = room;
    for one in done {
        let TaskDone {
            pass,
            acts,
            end,
            opened,
        } = one;
        ended.passes.push_reserved(pass);
        ended.acts.push_reserved(acts);
        ended.ends.push_reserved(end);
        ended.opened.push_reserved(opened);
    }
    ended
}

/// Runs each task, all side by side, and takes apart what they left. There is room for it. Where
/// memory is wanting none is run, and the objects are given back.
pub fn run_all<
    R: Threads + Sync,
    W: Send + Drop,
    P: Send + Drop,
    S: Send + Drop,
    K: Send + Drop,
    F: Fn(Task<W, S, K>) -> TaskDone<P, S, K> + Sync,
>(
    rt: &R,
    alloc: Global,
    tasks: Tasks<W, P, S, K>,
    apply: &F,
) -> Result<Ended<P, S, K>, Vec<Opened<S, K>>>
    requires ready { AllByRecursion (F.pre apply.now) tasks.waiting.items }
    requires room { CanEnd tasks }
    ensures ok { IfOk result (λ ended. (done : List (Done P S K))
        × AllZip (F.post apply.now) tasks.waiting.items done × AreApart done ended) }
    ensures err { IfErr result (λ back. back.items ≡ map (λ t. t.opened) tasks.waiting.items) }
{
    let Tasks { waiting, ended } = tasks;
    match map_all(rt, alloc, waiting, apply) {
        Ok(done) => Ok(taken_apart(done, ended)),
        Err(waiting) => Err(opened_of(waiting, ended.opened)),
    }
}
