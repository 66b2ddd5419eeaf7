//! A load that is made and run.
ghost use Rattle.std.specs.Prelude.{◌≡◌, ◌*◌, ◌⊎◌, ◌≤◌, [], length, map, sum_by, codes};
ghost use Rattle.std.specs.Prelude.{IfOk, string_bytes, vec_capacity};
ghost use Rattle.std.specs.List.{AllByRecursion};
ghost use Rattle.make_load.specs.Loads.{session_texts};
ghost use Rattle.make_load.specs.declared.load.Load.{Load};
ghost use Rattle.gate_files.specs.CommandOf.{IsAsked};
ghost use Rattle.gate_files.specs.Names.{AreNames};
ghost use Rattle.gate_program.specs.Loads.{counts_of, load_folder, HasLoadLimits, LoadWent};
ghost use Rattle.gate_program.specs.Room.{HasNone, HasSpare};
ghost use Rattle.gate_files.specs.Stages.{folder_with};
ghost use Rattle.gate_files.specs.Statuses.{answer_number, answer_text};
ghost use Rattle.gate_files.specs.Words.{journal_name, session_most};
ghost use Rattle.gate_program.specs.declared.told.Told.TheVariants as told_as;

use crate::command::{Ready, ready_for, run_opened};
use crate::load::{create_sessions, input_names, no_screens};
use crate::told::Told;
use fold_law::Memory;
use gate_files::{Answer, OutputFiles, OutputFolder, Run, Status, Sure, limits_from};
use gate_ports::{Folder, Gate};
use limit_table::Limits;
use make_load::{Asked, Counts, load_limits_are_a_file, loads_are_whole, make_load};
use session_engine::{a_history_admits_what_sessions_do, admitted_stays_within};
use std::alloc::Global;
use std::thread::Threads;

/// The bytes of all files.
fn bytes_of(files: &[Vec<u8>]) -> u32
    requires few { length files.now ≤ session_most }
    requires sizes { AllByRecursion (λ own. length own.items ≤ 20000000) files.now }
    ensures { result ≡ sum_by length (map (λ own. own.items) files.now) }
{
    let mut bytes = 0;
    for own in files {
        bytes += own.len() as u32;
    }
    bytes
}

/// Takes the memory for so many sessions of a load.
fn ready_in_load<S: Drop, K: Drop>(alloc: Global, count: usize) -> Result<Ready<S, K>, Memory>
    requires { count ≤ session_most }
    ensures names { IfOk result (λ ready. AreNames load_folder count ready.names.sessions.items) }
    ensures journal { IfOk result (λ ready.
        string_bytes ready.names.journal ≡ journal_name load_folder) }
    ensures no_task { IfOk result (λ ready. ready.room.tasks.items ≡ []) }
    ensures task_room { IfOk result (λ ready. count ≤ vec_capacity ready.room.tasks) }
    ensures empty { IfOk result (λ ready. HasNone ready.room.ended) }
    ensures room { IfOk result (λ ready. HasSpare count ready.room.ended) }
{
    let out = OutputFolder {
        name: "load",
        files: OutputFiles::Run,
    };
    ready_for(alloc, out, count)
}

/// Runs the sessions of a load, whose files these are.
fn run_load<R: Threads + Sync, D: Folder, G: Gate>(
    rt: &R,
    alloc: Global,
    asked: &Asked,
    limits: &Limits,
    told: &Told,
    gate: &G,
    files: Vec<Vec<u8>>,
    folder: &mut D,
) -> Answer
    requires asked { IsAsked asked.now }
    requires limits { HasLoadLimits asked.now.sessions limits.now }
    requires told { told.now ≡ told_as.Summary asked.now (counts_of asked.now) }
    requires files { map (λ own. own.items) files.items
        ≡ session_texts asked.now.number asked.now.sessions asked.now.orders }
    ensures { (answer_number result ≡ 8) ⊎ LoadWent asked.now
        (folder_with D.texts D.read_faults D.write_faults [] folder.old)
        (folder_with D.texts D.read_faults D.write_faults (answer_text result) folder.new)
        (answer_number result) }
{
    admitted_stays_within();
    a_history_admits_what_sessions_do();
    loads_are_whole();
    let Ok(ready) = ready_in_load(alloc, files.len()) else {
        return Answer::Stopped(Status::Memory);
    };
    let Ok(names) = input_names(alloc, &ready.names.sessions) else {
        return Answer::Stopped(Status::Memory);
    };
    let Ok(screens) = no_screens(alloc) else {
        return Answer::Stopped(Status::Memory);
    };
    let run = Run {
        limits: "",
        out: OutputFolder {
            name: "load",
            files: OutputFiles::Run,
        },
        sessions: &names,
    };
    match create_sessions(alloc, &run, &ready.names.sessions, files, folder) {
        Ok(opened) => run_opened::<R, D, Sure, G>(
            rt, alloc, &run, limits, told, gate, ready, screens, opened, folder,
        ),
        Err(status) => Answer::Stopped(status),
    }
}

/// Makes a load and runs it, but for what it tells.
pub(crate) fn make_words<R: Threads + Sync, D: Folder, G: Gate>(
    rt: &R,
    alloc: Global,
    asked: &Asked,
    gate: &G,
    folder: &mut D,
) -> Answer
    requires { IsAsked asked.now }
    ensures { (answer_number result ≡ 8) ⊎ LoadWent asked.now
        (folder_with D.texts D.read_faults D.write_faults [] folder.old)
        (folder_with D.texts D.read_faults D.write_faults (answer_text result) folder.new)
        (answer_number result) }
{
    load_limits_are_a_file();
    loads_are_whole();
    let Ok(load) = make_load(alloc, asked.number, asked.sessions, asked.orders) else {
        return Answer::Stopped(Status::Memory);
    };
    let counts = Counts {
        new: load.new,
        cancel: load.cancel,
        report: load.report,
        bytes: bytes_of(&load.sessions),
        reads: 0,
    };
    let told = Told::Summary(*asked, counts);
    match limits_from(alloc, &load.limits) {
        Ok(limits) => {
            let limits = limits.counted_for(asked.sessions);
            run_load(
                rt,
                alloc,
                asked,
                &limits,
                &told,
                gate,
                load.sessions,
                folder,
            )
        }
        Err(status) => Answer::Stopped(status),
    }
}
