//! A run before its sessions are opened.
ghost use Rattle.std.specs.Prelude.{◌≡◌, IfOk, IsTrue, length};
ghost use Rattle.gate_files.specs.CommandOf.{run_value};
ghost use Rattle.gate_files.specs.Words.{is_run};
ghost use Rattle.session_tasks.specs.Jobs.{IsJob};
ghost use Rattle.session_tasks.specs.Tasks.{HasRoom};

use crate::ended::{Tasks, room_for};
use fold_law::Memory;
use gate_files::{Names, Run, names_in};
use limit_table::Limits;
use std::alloc::Global;

/// A run that may begin: its words, the limits that count for so many sessions, and the names of
/// its outputs.
#[derive(Drop)]
pub struct Job<'a> {
    pub run: Run<'a>,
    pub limits: Limits,
    pub names: Names,
}

impl<'a> Job<'a> {
    /// The job of a run with these limits.
    pub fn of(alloc: Global, run: &Run<'a>, limits: Limits) -> Result<Job<'a>, Memory>
        requires { IsTrue (is_run (run_value run.now)) }
        ensures job { IfOk result IsJob }
        ensures run { IfOk result (λ job. job.run ≡ run.now) }
        ensures limits { IfOk result (λ job. job.limits ≡ limits) }
    {
        let names = names_in(alloc, run.out, run.sessions.len() as u32)?;
        Ok(Job {
            run: *run,
            limits,
            names,
        })
    }
}

/// What a run has by it before its sessions are opened: its job, and room for what they do.
#[derive(Drop)]
pub struct Ready<'a, W, P, S, K> {
    pub job: Job<'a>,
    pub room: Tasks<W, P, S, K>,
}

impl<'a, W: Drop, P: Drop, S: Drop, K: Drop> Ready<'a, W, P, S, K> {
    /// Takes the memory for the sessions of a run with these limits.
    pub fn of(alloc: Global, run: &Run<'a>, limits: Limits) -> Result<Ready<'a, W, P, S, K>, Memory>
        requires { IsTrue (is_run (run_value run.now)) }
        ensures job { IfOk result (λ ready. IsJob ready.job) }
        ensures run { IfOk result (λ ready. ready.job.run ≡ run.now) }
        ensures limits { IfOk result (λ ready. ready.job.limits ≡ limits) }
        ensures room { IfOk result (λ ready. HasRoom (length run.now.sessions.now) ready.room) }
    {
        let room = room_for(alloc, run.sessions.len())?;
        let job = Job::of(alloc, run, limits)?;
        Ok(Ready { job, room })
    }
}
