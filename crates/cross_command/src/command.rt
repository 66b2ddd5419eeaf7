//! The command, from its limit file to its journal.
ghost use Rattle.std.specs.Prelude.{◌≡◌, ◌⊎◌, ◌^◌, ◌<◌, IsTrue, [], length, map};
ghost use Rattle.std.specs.List.{AllByRecursion};
ghost use Rattle.gate_files.specs.CommandOf.{run_value};
ghost use Rattle.gate_files.specs.Objects.{objects_of, EachOwn};
ghost use Rattle.gate_files.specs.Stages.{folder_of, folder_with};
ghost use Rattle.gate_files.specs.Statuses.{answer_number, answer_text};
ghost use Rattle.gate_files.specs.Stops.{HasCounted};
ghost use Rattle.gate_files.specs.Words.{is_run};
ghost use Rattle.session_tasks.specs.Jobs.{IsJob};
ghost use Rattle.session_tasks.specs.Tasks.{HasRoom};
ghost use Rattle.session_tasks.specs.Ways.{SessionsWent};
ghost use Rattle.cross_command.specs.Crossed.{CrossWent, HasCrossed};
ghost use Rattle.cross_command.specs.Finish.{HaveEnded, HaveStood};
ghost use Rattle.cross_command.specs.Forest.{HaveCalled};

use crate::answer::answer_after;
use crate::forest::{CrossForest, Opening, open_forest};
use crate::replay::journal_after;
use crate::tasks::run_sessions;
use cross_guard::{
    Cross, a_history_admits_what_sessions_do, admitted_orders_never_cross, admitted_stays_clear,
};
use f_array::Pass;
use fold_law::Memory;
use gate_files::{Answer, Named, Opened, Run, Status, close_sessions, open_sessions, read_limits};
use gate_ports::Folder;
use limit_table::Limits;
use session_tasks::{Ended, Finished, Job, Ready, keep, tasks_of};
use std::alloc::Global;
use std::thread::Threads;

/// Sessions that ran over a forest, before it is closed.
#[derive(Drop)]
struct Ran<S, K> {
    forest: CrossForest,
    ended: Ended<Pass<Cross>, S, K>,
}

/// Closes sessions that ran over a forest, and writes their journal.
fn finish_run<R: Threads + Sync, D: Folder>(
    rt: &R,
    alloc: Global,
    job: &Job,
    ran: Ran<D::In, D::Out>,
    folder: &mut D,
) -> Answer
    requires job { IsJob job.now }
    requires called { HaveCalled job.now.limits ran.forest ran.ended.passes.items
        (map (λ own. own.items) ran.ended.acts.items) }
    requires act_count { length ran.ended.acts.items ≡ length job.now.run.sessions.now }
    requires object_count { length ran.ended.opened.items ≡ length job.now.run.sessions.now }
    requires own { EachOwn (run_value job.now.run) (D.texts folder.old)
        (map (objects_of D.In.left D.In.name D.In.faults D.Out.held D.Out.name D.Out.faults)
        ran.ended.opened.items) }
    ensures { (answer_number result ≡ 8) ⊎ HaveStood job.now.limits (run_value job.now.run)
        (folder_of D.texts D.read_faults D.write_faults folder.old)
        (folder_of D.texts D.read_faults D.write_faults folder.new)
        (map (λ own. own.items) ran.ended.acts.items) ran.ended.ends.items
        (map (objects_of D.In.left D.In.name D.In.faults D.Out.held D.Out.name D.Out.faults)
        ran.ended.opened.items) (answer_text result) (answer_number result) }
{
    job.limits.stand_in_a_file();
    let Ran { forest, ended } = ran;
    let Ended {
        passes,
        acts,
        ends,
        opened,
    } = ended;
    let Ok(journal) = journal_after(rt, alloc, forest, passes, acts) else {
        close_sessions::<D, Named>(&job.run, &job.names.sessions, opened, folder);
        return Answer::Stopped(Status::Memory);
    };
    let finished = Finished {
        journal,
        ends,
        opened,
    };
    match keep::<R, D, Named>(rt, alloc, job, finished, folder) {
        Ok(kept) => answer_after(alloc, &kept),
        Err(Memory) => Answer::Stopped(Status::Memory),
    }
}

/// Filters sessions that were opened over a forest of their own, all side by side, closes them and
/// writes their journal.
fn cross_opened<R: Threads + Sync, D: Folder>(
    rt: &R,
    alloc: Global,
    ready: Ready<Pass<Cross>, Pass<Cross>, D::In, D::Out>,
    opened: Vec<Opened<D::In, D::Out>>,
    folder: &mut D,
) -> Answer
    requires job { IsJob ready.job }
    requires room { HasRoom (length ready.job.run.sessions.now) ready.room }
    requires many { length opened.items ≡ length ready.job.run.sessions.now }
    requires own { EachOwn (run_value ready.job.run) (D.texts folder.old)
        (map (objects_of D.In.left D.In.name D.In.faults D.Out.held D.Out.name D.Out.faults)
        opened.items) }
    ensures { (answer_number result ≡ 8) ⊎ HaveEnded D.In.faults ready.entry.job.limits
        (run_value ready.entry.job.run)
        (folder_of D.texts D.read_faults D.write_faults folder.old)
        (folder_of D.texts D.read_faults D.write_faults folder.new)
        (map (objects_of D.In.left D.In.name D.In.faults D.Out.held D.Out.name D.Out.faults)
        opened.items) (answer_text result) (answer_number result) }
{
    let Ready { job, room } = ready;
    let Ok(opening) = open_forest(alloc, &job.limits, job.run.sessions.len() as u32) else {
        close_sessions::<D, Named>(&job.run, &job.names.sessions, opened, folder);
        return Answer::Stopped(Status::Memory);
    };
    let Opening { forest, passes } = opening;
    let tasks = tasks_of(passes, opened, room);
    match run_sessions::<R, D::In, D::Out>(rt, alloc, &job.limits, &forest, tasks) {
        Ok(ended) => {
            let ran = Ran { forest, ended };
            finish_run(rt, alloc, &job, ran, folder)
        }
        Err(opened) => {
            close_sessions::<D, Named>(&job.run, &job.names.sessions, opened, folder);
            Answer::Stopped(Status::Memory)
        }
    }
}

/// Filters the sessions of a run with the limits that count for it.
fn cross_limited<R: Threads + Sync, D: Folder>(
    rt: &R,
    alloc: Global,
    run: &Run,
    limits: Limits,
    folder: &mut D,
) -> Answer
    requires run { IsTrue (is_run (run_value run.now)) }
    requires limits { HasCounted (D.texts folder.old) run.now.limits.now
        (length run.now.sessions.now) limits }
    ensures { (answer_number result ≡ 8)
        ⊎ SessionsWent (HasCrossed (run_value run.now)) (run_value run.now)
        (folder_with D.texts D.read_faults D.write_faults [] folder.old)
        (folder_with D.texts D.read_faults D.write_faults (answer_text result) folder.new)
        (answer_number result) }
{
    admitted_stays_clear();
    admitted_orders_never_cross();
    a_history_admits_what_sessions_do();
    let ready = match Ready::of(alloc, run, limits) {
        Ok(ready) => ready,
        Err(Memory) => return Answer::Stopped(Status::Memory),
    };
    match open_sessions(alloc, run, &ready.job.names.sessions, folder) {
        Ok(opened) => cross_opened(rt, alloc, ready, opened, folder),
        Err(status) => Answer::Stopped(status),
    }
}

/// Filters the sessions of a run, side by side: of the orders of all of them that rest at the venue
/// no buy crosses a sell. What may go on to the venue and what answers the clients are written in
/// the folder of outputs, and the journal behind them. What is told is the line of the status, or
/// why there was no run.
pub fn cross_words<R: Threads + Sync, D: Folder>(
    rt: &R,
    alloc: Global,
    run: &Run,
    folder: &mut D,
) -> Answer
    requires { IsTrue (is_run (run_value run.now)) }
    ensures { (answer_number result ≡ 8) ⊎ CrossWent (run_value run.now)
        (folder_with D.texts D.read_faults D.write_faults [] folder.old)
        (folder_with D.texts D.read_faults D.write_faults (answer_text result) folder.new)
        (answer_number result) }
{
    match read_limits(alloc, run.limits, folder) {
        Ok(limits) => {
            let limits = limits.counted_for(run.sessions.len() as u32);
            cross_limited(rt, alloc, run, limits, folder)
        }
        Err(status) => Answer::Stopped(status),
    }
}
