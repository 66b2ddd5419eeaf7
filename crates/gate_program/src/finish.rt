//! The journal of a run, and what comes of the run behind it.
ghost use Rattle.std.specs.Prelude.{◌≡◌, ◌^◌, ◌<◌, ◌≤◌, ◌⊎◌, length, map, All, string_bytes};
ghost use Rattle.gate_files.specs.CommandOf.{folder_value, run_value};
ghost use Rattle.gate_program.specs.Finish.{HasAnswer, HasStood, HasFinished};
ghost use Rattle.gate_program.specs.Histories.{AreLegalLines};
ghost use Rattle.gate_program.specs.Telling.{told_of};
ghost use Rattle.gate_program.specs.Totals.{HaveTotals};
ghost use Rattle.gate_files.specs.Names.{AreNames};
ghost use Rattle.gate_files.specs.Objects.{objects_of, EachOwn};
ghost use Rattle.gate_files.specs.Stages.{folder_of, Went};
ghost use Rattle.gate_files.specs.Statuses.{answer_number, answer_text};
ghost use Rattle.gate_files.specs.Words.{journal_name, session_most};

use crate::pieces::journal_pieces;
use crate::summary::text_after;
use crate::told::Told;
use fold_law::Memory;
use gate_files::{
    Answer, Inputs, Names, Opened, Run, Status, close_sessions, standing, write_file,
};
use gate_ports::{Folder, PortFault};
use limit_table::Limits;
use risk_journal::{End, Journal};
use std::alloc::Global;
use std::thread::Threads;

/// What comes of a run whose sessions have ended. `refused` says whether its journal could not be
/// written.
fn answer_after<R: Threads + Sync>(
    rt: &R,
    alloc: Global,
    limits: &Limits,
    told: &Told,
    journal: Journal,
    ends: &[End],
    refused: bool,
) -> Answer
    requires few { length journal.acts.items ≤ session_most }
    requires ends { length ends.now ≡ length journal.acts.items }
    requires acts { All (λ own. length own.items < 2 ^ 32) journal.acts.items }
    requires lines { HaveTotals (length journal.acts.items)
        (map (λ own. own.items) journal.lines.items) }
    requires legal { AreLegalLines limits.now (map (λ own. own.items) journal.acts.items)
        (map (λ own. own.items) journal.lines.items) }
    ensures { (answer_number result ≡ 8) ⊎ HasAnswer (told_of told.now limits.now)
        (map (λ own. own.items) journal.acts.items) ends.now
        (map (λ own. own.items) journal.lines.items) refused
        (answer_text result) (answer_number result) }
{
    let status = standing(ends, refused);
    if let Status::Memory = status {
        return Answer::Stopped(Status::Memory);
    }
    match text_after(rt, alloc, limits, told, journal, ends, status) {
        Ok(text) => Answer::Ended(status, text),
        Err(Memory) => Answer::Stopped(Status::Memory),
    }
}

/// Writes the journal of sessions that have ended.
fn keep_journal<R: Threads + Sync, D: Folder>(
    rt: &R,
    alloc: Global,
    limits: &Limits,
    told: &Told,
    name: &str,
    journal: Journal,
    ends: &[End],
    folder: &mut D,
) -> Answer
    requires few { length journal.acts.items ≤ session_most }
    requires ends { length ends.now ≡ length journal.acts.items }
    requires few_trees { length journal.lines.items < 2 ^ 32 }
    requires acts { All (λ own. length own.items < 2 ^ 32) journal.acts.items }
    requires lines { HaveTotals (length journal.acts.items)
        (map (λ own. own.items) journal.lines.items) }
    requires legal { AreLegalLines limits.now (map (λ own. own.items) journal.acts.items)
        (map (λ own. own.items) journal.lines.items) }
    ensures went { Went (folder_of D.texts D.read_faults D.write_faults folder.old)
        (folder_of D.texts D.read_faults D.write_faults folder.new) }
    ensures stood { (answer_number result ≡ 8) ⊎ HasStood (told_of told.now limits.now) name.now
        (folder_of D.texts D.read_faults D.write_faults folder.old)
        (folder_of D.texts D.read_faults D.write_faults folder.new)
        (map (λ own. own.items) journal.acts.items) ends.now
        (map (λ own. own.items) journal.lines.items)
        (answer_text result) (answer_number result) }
{
    let pieces = match journal_pieces(rt, alloc, &journal) {
        Ok(pieces) => pieces,
        Err(Memory) => return Answer::Stopped(Status::Memory),
    };
    match write_file(name, &pieces, folder) {
        Ok(()) => answer_after(rt, alloc, limits, told, journal, ends, false),
        Err(PortFault::Failed) => answer_after(rt, alloc, limits, told, journal, ends, true),
        Err(PortFault::Memory) => Answer::Stopped(Status::Memory),
    }
}

/// Sessions that have ended: their journal, how each ended, and their objects.
#[derive(Drop)]
pub(crate) struct Finished<S, K> {
    pub journal: Journal,
    pub ends: Vec<End>,
    pub opened: Vec<Opened<S, K>>,
}

/// Closes sessions that have ended, and writes the journal.
pub(crate) fn finish<R: Threads + Sync, D: Folder, I: Inputs<D>>(
    rt: &R,
    alloc: Global,
    run: &Run,
    limits: &Limits,
    told: &Told,
    names: &Names,
    finished: Finished<I::In, D::Out>,
    folder: &mut D,
) -> Answer
    requires most { length run.now.sessions.now ≤ session_most }
    requires names { AreNames (folder_value run.now.out) (length run.now.sessions.now)
        names.now.sessions.items }
    requires journal { string_bytes names.now.journal ≡ journal_name (folder_value run.now.out) }
    requires few_trees { length finished.journal.lines.items < 2 ^ 32 }
    requires acts { All (λ own. length own.items < 2 ^ 32) finished.journal.acts.items }
    requires lines { HaveTotals (length finished.journal.acts.items)
        (map (λ own. own.items) finished.journal.lines.items) }
    requires legal { AreLegalLines limits.now (map (λ own. own.items) finished.journal.acts.items)
        (map (λ own. own.items) finished.journal.lines.items) }
    requires act_count { length finished.journal.acts.items ≡ length run.now.sessions.now }
    requires end_count { length finished.ends.items ≡ length run.now.sessions.now }
    requires object_count { length finished.opened.items ≡ length run.now.sessions.now }
    requires own { EachOwn (run_value run.now) (D.texts folder.old)
        (map (objects_of I.In.left I.In.name I.In.faults D.Out.held D.Out.name D.Out.faults)
        finished.opened.items) }
    ensures { (answer_number result ≡ 8) ⊎ HasFinished (told_of told.now limits.now)
        (run_value run.now)
        (folder_of D.texts D.read_faults D.write_faults folder.old)
        (folder_of D.texts D.read_faults D.write_faults folder.new)
        (map (λ own. own.items) finished.journal.acts.items)
        (map (λ own. own.items) finished.journal.lines.items)
        finished.ends.items
        (map (objects_of I.In.left I.In.name I.In.faults D.Out.held D.Out.name D.Out.faults)
        finished.opened.items) (answer_text result) (answer_number result) }
{
    let Finished {
        journal,
        ends,
        opened,
    } = finished;
    close_sessions::<D, I>(run, &names.sessions, opened, folder);
    keep_journal(
        rt,
        alloc,
        limits,
        told,
        names.journal.as_str(),
        journal,
        &ends,
        folder,
    )
}
