//! The end of a run: its sessions are closed, and their journal is written.
ghost use Rattle.std.specs.Prelude.{◌≡◌, ◌^◌, ◌<◌, ◌≤◌, length, map, IfOk};
ghost use Rattle.risk_journal.specs.JournalText.{journal_text};
ghost use Rattle.gate_files.specs.CommandOf.{run_value};
ghost use Rattle.gate_files.specs.Objects.{objects_of, EachOwn};
ghost use Rattle.gate_files.specs.Stages.{folder_of, Went, ChangesOnly};
ghost use Rattle.session_tasks.specs.Jobs.{IsJob};
ghost use Rattle.session_tasks.specs.Kept.{HasKept, IsKept};

use crate::job::Job;
use crate::pieces::journal_pieces;
use fold_law::Memory;
use gate_files::{Inputs, Opened, close_sessions, write_file};
use gate_ports::{Folder, PortFault};
use risk_journal::{End, Journal};
use std::alloc::Global;
use std::thread::Threads;

/// Sessions that have ended: their journal, how each ended, and their objects.
#[derive(Drop)]
pub struct Finished<S, K> {
    pub journal: Journal,
    pub ends: Vec<End>,
    pub opened: Vec<Opened<S, K>>,
}

/// Sessions that were closed: their journal, how each ended, and whether the journal could not be
/// written.
#[derive(Drop)]
pub struct Kept {
    pub journal: Journal,
    pub ends: Vec<End>,
    pub refused: bool,
}

/// Writes a journal under its name. Answers whether it could not be written.
fn write_journal<R: Threads + Sync, D: Folder>(
    rt: &R,
    alloc: Global,
    name: &str,
    journal: &Journal,
    folder: &mut D,
) -> Result<bool, Memory>
    requires few { length journal.now.acts.items < 2 ^ 32 }
    requires few_trees { length journal.now.lines.items < 2 ^ 32 }
    ensures went { Went (folder_of D.texts D.read_faults D.write_faults folder.old)
        (folder_of D.texts D.read_faults D.write_faults folder.new) }
    ensures kept { IfOk result (λ refused. IsKept
        (folder_of D.texts D.read_faults D.write_faults folder.old)
        (folder_of D.texts D.read_faults D.write_faults folder.new) name.now
        (journal_text (map (λ own. own.items) journal.now.acts.items)
        (map (λ own. own.items) journal.now.lines.items)) refused) }
    ensures others { IfOk result (λ refused.
        ChangesOnly (D.texts folder.old) (D.texts folder.new) name.now) }
{
    let pieces = journal_pieces(rt, alloc, journal)?;
    match write_file(name, &pieces, folder) {
        Ok(()) => Ok(false),
        Err(PortFault::Failed) => Ok(true),
        Err(PortFault::Memory) => Err(Memory),
    }
}

/// Gives the inputs of sessions that have ended back, closes their outputs, and writes their
/// journal.
pub fn keep<R: Threads + Sync, D: Folder, I: Inputs<D>>(
    rt: &R,
    alloc: Global,
    job: &Job,
    finished: Finished<I::In, D::Out>,
    folder: &mut D,
) -> Result<Kept, Memory>
    requires job { IsJob job.now }
    requires few_trees { length finished.journal.lines.items < 2 ^ 32 }
    requires act_count { length finished.journal.acts.items ≡ length job.now.run.sessions.now }
    requires object_count { length finished.opened.items ≡ length job.now.run.sessions.now }
    requires own { EachOwn (run_value job.now.run) (D.texts folder.old)
        (map (objects_of I.In.left I.In.name I.In.faults D.Out.held D.Out.name D.Out.faults)
        finished.opened.items) }
    ensures journal { IfOk result (λ kept. kept.journal ≡ finished.journal) }
    ensures ends { IfOk result (λ kept. kept.ends ≡ finished.ends) }
    ensures kept { IfOk result (λ kept. HasKept (run_value job.now.run)
        (folder_of D.texts D.read_faults D.write_faults folder.old)
        (folder_of D.texts D.read_faults D.write_faults folder.new)
        (map (λ own. own.items) finished.journal.acts.items)
        (map (λ own. own.items) finished.journal.lines.items)
        (map (objects_of I.In.left I.In.name I.In.faults D.Out.held D.Out.name D.Out.faults)
        finished.opened.items) kept.refused) }
{
    let Finished {
        journal,
        ends,
        opened,
    } = finished;
    close_sessions::<D, I>(&job.run, &job.names.sessions, opened, folder);
    let refused = write_journal(rt, alloc, job.names.journal.as_str(), &journal, folder)?;
    Ok(Kept {
        journal,
        ends,
        refused,
    })
}
