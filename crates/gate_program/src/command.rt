//! The top call.
ghost use Rattle.std.specs.Prelude.{◌≡◌, ◌⊎◌, ◌^◌, ◌<◌, ◌≤◌, IsTrue, IfOk, [], length, map};
ghost use Rattle.std.specs.Prelude.{string_bytes, vec_capacity};
ghost use Rattle.std.specs.List.{AllByRecursion};
ghost use Rattle.check_command.specs.Gate.{CheckWent};
ghost use Rattle.cross_command.specs.Crossed.{CrossWent};
ghost use Rattle.gate_files.specs.CommandOf.{folder_value, run_value, check_value, IsAsked};
ghost use Rattle.gate_program.specs.Commands.{GateRun};
ghost use Rattle.gate_program.specs.Loads.{LoadWent};
ghost use Rattle.gate_program.specs.Finish.{HasEnded, HasKept};
ghost use Rattle.gate_program.specs.Forests.{HaveRun};
ghost use Rattle.gate_files.specs.Stops.{HasCounted};
ghost use Rattle.gate_program.specs.Gate.{RunWent, SessionsWent};
ghost use Rattle.gate_files.specs.Told.{ports_of};
ghost use Rattle.gate_files.specs.Names.{AreNames};
ghost use Rattle.gate_files.specs.Objects.{objects_of, EachOwn};
ghost use Rattle.gate_program.specs.Room.{HasNone, HasSpare};
ghost use Rattle.gate_files.specs.Stages.{folder_of, folder_with};
ghost use Rattle.gate_files.specs.Statuses.{answer_number, answer_text};
ghost use Rattle.gate_program.specs.Telling.{told_of};
ghost use Rattle.gate_files.specs.Words.{is_run, is_check, journal_name, session_most};

use crate::ended::{Ended, Room, room_for, run_sessions};
use crate::finish::{Finished, finish};
use crate::forests::{Forests, Opening, open_forests};
use crate::make::make_words;
use crate::replay::journal_after;
use crate::tasks::tasks_of;
use crate::told::Told;
use check_command::check_words;
use cross_command::cross_words;
use fold_law::Memory;
use gate_files::{
    Answer, Check, Command, Inputs, Named, Names, Opened, OutputFolder, Run, Status,
    close_sessions, command_from, names_in, open_sessions, read_limits, tell, tell_answer,
};
use gate_ports::{Folder, Gate, Sink};
use limit_table::Limits;
use make_load::Asked;
use screen_kit::Screen;
use session_engine::{a_history_admits_what_sessions_do, admitted_stays_within, places_are_free};
use std::alloc::Global;
use std::thread::Threads;

/// What a run has by it before its sessions are opened: names, and room for what they do.
#[derive(Drop)]
pub(crate) struct Ready<S, K> {
    pub names: Names,
    pub room: Room<S, K>,
}

/// Takes the memory for so many sessions.
pub(crate) fn ready_for<S: Drop, K: Drop>(
    alloc: Global,
    out: OutputFolder,
    count: usize,
) -> Result<Ready<S, K>, Memory>
    requires { count ≤ session_most }
    ensures names { IfOk result (λ ready. AreNames (folder_value out.entry) count ready.names.sessions.items) }
    ensures journal { IfOk result (λ ready.
        string_bytes ready.names.journal ≡ journal_name (folder_value out.entry)) }
    ensures no_task { IfOk result (λ ready. ready.room.tasks.items ≡ []) }
    ensures task_room { IfOk result (λ ready. count ≤ vec_capacity ready.room.tasks) }
    ensures empty { IfOk result (λ ready. HasNone ready.room.ended) }
    ensures room { IfOk result (λ ready. HasSpare count ready.room.ended) }
{
    let names = names_in(alloc, out, count as u32)?;
    let room = room_for(alloc, count)?;
    Ok(Ready { names, room })
}

/// Closes sessions that ran over these forests, and writes their journal.
fn finish_run<R: Threads + Sync, D: Folder, I: Inputs<D>>(
    rt: &R,
    alloc: Global,
    run: &Run,
    limits: &Limits,
    told: &Told,
    names: &Names,
    forests: Forests,
    ended: Ended<I::In, D::Out>,
    folder: &mut D,
) -> Answer
    requires most { length run.now.sessions.now ≤ session_most }
    requires names { AreNames (folder_value run.now.out) (length run.now.sessions.now)
        names.now.sessions.items }
    requires journal { string_bytes names.now.journal ≡ journal_name (folder_value run.now.out) }
    requires ran { HaveRun limits.now forests ended.passes (map (λ own. own.items) ended.acts.items) }
    requires few { AllByRecursion (λ own. length own < 2 ^ 32)
        (map (λ own. own.items) ended.acts.items) }
    requires act_count { length ended.acts.items ≡ length run.now.sessions.now }
    requires end_count { length ended.ends.items ≡ length run.now.sessions.now }
    requires object_count { length ended.opened.items ≡ length run.now.sessions.now }
    requires own { EachOwn (run_value run.now) (D.texts folder.old)
        (map (objects_of I.In.left I.In.name I.In.faults D.Out.held D.Out.name D.Out.faults)
        ended.opened.items) }
    ensures { (answer_number result ≡ 8) ⊎ HasKept (told_of told.now limits.now) limits.now
        (run_value run.now)
        (folder_of D.texts D.read_faults D.write_faults folder.old)
        (folder_of D.texts D.read_faults D.write_faults folder.new)
        (map (λ own. own.items) ended.acts.items) ended.ends.items
        (map (objects_of I.In.left I.In.name I.In.faults D.Out.held D.Out.name D.Out.faults)
        ended.opened.items) (answer_text result) (answer_number result) }
{
    limits.stand_in_a_file();
    let Ended {
        passes,
        acts,
        ends,
        opened,
    } = ended;
    match journal_after(rt, alloc, forests, passes, acts) {
        Ok(journal) => {
            let finished = Finished {
                journal,
                ends,
                opened,
            };
            finish::<R, D, I>(rt, alloc, run, limits, told, names, finished, folder)
        }
        Err(Memory) => {
            close_sessions::<D, I>(run, &names.sessions, opened, folder);
            Answer::Stopped(Status::Memory)
        }
    }
}

/// Runs sessions that were opened over forests of their own, each with its screens, all side by side,
/// closes them and writes the journal.
pub(crate) fn run_opened<R: Threads + Sync, D: Folder, I: Inputs<D>, G: Gate>(
    rt: &R,
    alloc: Global,
    run: &Run,
    limits: &Limits,
    told: &Told,
    gate: &G,
    ready: Ready<I::In, D::Out>,
    screens: Vec<Vec<Box<dyn Screen + Send>>>,
    opened: Vec<Opened<I::In, D::Out>>,
    folder: &mut D,
) -> Answer
    requires some { 1 ≤ length run.now.sessions.now }
    requires most { length run.now.sessions.now ≤ session_most }
    requires names { AreNames (folder_value run.now.out) (length run.now.sessions.now)
        ready.names.sessions.items }
    requires journal { string_bytes ready.names.journal ≡ journal_name (folder_value run.now.out) }
    requires no_task { ready.room.tasks.items ≡ [] }
    requires task_room { length run.now.sessions.now ≤ vec_capacity ready.room.tasks }
    requires empty { HasNone ready.room.ended }
    requires room { HasSpare (length run.now.sessions.now) ready.room.ended }
    requires sets { length screens.items ≡ session_most }
    requires many { length opened.items ≡ length run.now.sessions.now }
    requires own { EachOwn (run_value run.now) (D.texts folder.old)
        (map (objects_of I.In.left I.In.name I.In.faults D.Out.held D.Out.name D.Out.faults)
        opened.items) }
    ensures { (answer_number result ≡ 8) ⊎ HasEnded I.In.faults
        (told_of told.now limits.now) limits.now
        (map (λ set. map (λ b. (Screen-box b).meaning b.value) set.items) screens.items)
        (run_value run.now)
        (folder_of D.texts D.read_faults D.write_faults folder.old)
        (folder_of D.texts D.read_faults D.write_faults folder.new)
        (map (objects_of I.In.left I.In.name I.In.faults D.Out.held D.Out.name D.Out.faults)
        opened.items) (answer_text result) (answer_number result) }
{
    places_are_free();
    let Ready { names, room } = ready;
    let Ok(opening) = open_forests(alloc, limits, run.sessions.len() as u32) else {
        close_sessions::<D, I>(run, &names.sessions, opened, folder);
        return Answer::Stopped(Status::Memory);
    };
    let Opening { forests, passes } = opening;
    let tasks = tasks_of(passes, screens, opened, room.tasks);
    match run_sessions::<R, I::In, D::Out, G>(
        rt, alloc, limits, gate, &forests, tasks, room.ended,
    ) {
        Ok(ended) => finish_run::<R, D, I>(
            rt, alloc, run, limits, told, &names, forests, ended, folder,
        ),
        Err(opened) => {
            close_sessions::<D, I>(run, &names.sessions, opened, folder);
            Answer::Stopped(Status::Memory)
        }
    }
}

/// Runs the sessions of a run with the limits that count for it.
fn run_limited<R: Threads + Sync, D: Folder, G: Gate>(
    rt: &R,
    alloc: Global,
    run: &Run,
    limits: &Limits,
    gate: &G,
    screens: Vec<Vec<Box<dyn Screen + Send>>>,
    folder: &mut D,
) -> Answer
    requires run { IsTrue (is_run (run_value run.now)) }
    requires limits { HasCounted (D.texts folder.old) run.now.limits.now
        (length run.now.sessions.now) limits.now }
    requires sets { length screens.items ≡ session_most }
    ensures { (answer_number result ≡ 8) ⊎ SessionsWent (run_value run.now)
        (map (λ set. map (λ b. (Screen-box b).meaning b.value) set.items) screens.items)
        (folder_with D.texts D.read_faults D.write_faults [] folder.old)
        (folder_with D.texts D.read_faults D.write_faults (answer_text result) folder.new)
        (answer_number result) }
{
    admitted_stays_within();
    a_history_admits_what_sessions_do();
    let ready = match ready_for(alloc, run.out, run.sessions.len()) {
        Ok(ready) => ready,
        Err(Memory) => return Answer::Stopped(Status::Memory),
    };
    match open_sessions(alloc, run, &ready.names.sessions, folder) {
        Ok(opened) => run_opened::<R, D, Named, G>(
            rt,
            alloc,
            run,
            limits,
            &Told::Totals,
            gate,
            ready,
            screens,
            opened,
            folder,
        ),
        Err(status) => Answer::Stopped(status),
    }
}

/// Does a run, but for what it tells.
fn run_words<R: Threads + Sync, D: Folder, G: Gate>(
    rt: &R,
    alloc: Global,
    run: &Run,
    gate: &G,
    screens: Vec<Vec<Box<dyn Screen + Send>>>,
    folder: &mut D,
) -> Answer
    requires run { IsTrue (is_run (run_value run.now)) }
    requires sets { length screens.items ≡ session_most }
    ensures { (answer_number result ≡ 8) ⊎ RunWent (run_value run.now)
        (map (λ set. map (λ b. (Screen-box b).meaning b.value) set.items) screens.items)
        (folder_with D.texts D.read_faults D.write_faults [] folder.old)
        (folder_with D.texts D.read_faults D.write_faults (answer_text result) folder.new)
        (answer_number result) }
{
    match read_limits(alloc, run.limits, folder) {
        Ok(limits) => {
            let limits = limits.counted_for(run.sessions.len() as u32);
            run_limited(rt, alloc, run, &limits, gate, screens, folder)
        }
        Err(status) => Answer::Stopped(status),
    }
}

/// Does a run, and tells what it comes to.
fn run_and_tell<R: Threads + Sync, D: Folder, O: Sink, G: Gate>(
    rt: &R,
    alloc: Global,
    run: &Run,
    folder: &mut D,
    out: &mut O,
    screens: Vec<Vec<Box<dyn Screen + Send>>>,
    gate: &G,
) -> u8
    requires run { IsTrue (is_run (run_value run.now)) }
    requires sets { length screens.items ≡ session_most }
    ensures { (result ≡ 8) ⊎ RunWent (run_value run.now)
        (map (λ set. map (λ b. (Screen-box b).meaning b.value) set.items) screens.items)
        (ports_of D.texts D.read_faults D.write_faults O.held O.faults folder.old out.old)
        (ports_of D.texts D.read_faults D.write_faults O.held O.faults folder.new out.new) result }
{
    let answer = run_words(rt, alloc, run, gate, screens, folder);
    if answer.number() == Status::Memory.number() {
        return Status::Memory.number();
    }
    tell_answer(alloc, out, answer)
}

/// Does a check, and tells what it comes to.
fn check_and_tell<D: Folder, O: Sink>(
    alloc: Global,
    check: &Check,
    folder: &mut D,
    out: &mut O,
    screens: Vec<Vec<Box<dyn Screen + Send>>>,
) -> u8
    requires check { IsTrue (is_check (check_value check.now)) }
    requires sets { length screens.items ≡ session_most }
    ensures { (result ≡ 8) ⊎ CheckWent (check_value check.now)
        (map (λ set. map (λ b. (Screen-box b).meaning b.value) set.items) screens.items)
        (ports_of D.texts D.read_faults D.write_faults O.held O.faults folder.old out.old)
        (ports_of D.texts D.read_faults D.write_faults O.held O.faults folder.new out.new) result }
{
    let answer = check_words(alloc, check, folder, screens);
    if answer.number() == Status::Memory.number() {
        return Status::Memory.number();
    }
    tell_answer(alloc, out, answer)
}

/// Filters sessions against crossing orders, and tells what it comes to.
fn cross_and_tell<R: Threads + Sync, D: Folder, O: Sink>(
    rt: &R,
    alloc: Global,
    run: &Run,
    folder: &mut D,
    out: &mut O,
) -> u8
    requires { IsTrue (is_run (run_value run.now)) }
    ensures { (result ≡ 8) ⊎ CrossWent (run_value run.now)
        (ports_of D.texts D.read_faults D.write_faults O.held O.faults folder.old out.old)
        (ports_of D.texts D.read_faults D.write_faults O.held O.faults folder.new out.new) result }
{
    let answer = cross_words(rt, alloc, run, folder);
    if answer.number() == Status::Memory.number() {
        return Status::Memory.number();
    }
    tell_answer(alloc, out, answer)
}

/// Makes a load and runs it, and tells what it comes to.
fn make_and_tell<R: Threads + Sync, D: Folder, O: Sink, G: Gate>(
    rt: &R,
    alloc: Global,
    asked: &Asked,
    folder: &mut D,
    out: &mut O,
    gate: &G,
) -> u8
    requires { IsAsked asked.now }
    ensures { (result ≡ 8) ⊎ LoadWent asked.now
        (ports_of D.texts D.read_faults D.write_faults O.held O.faults folder.old out.old)
        (ports_of D.texts D.read_faults D.write_faults O.held O.faults folder.new out.new) result }
{
    let answer = make_words(rt, alloc, asked, gate, folder);
    if answer.number() == Status::Memory.number() {
        return Status::Memory.number();
    }
    tell_answer(alloc, out, answer)
}

/// Does what the words ask for, and answers the status of the program.
///
/// `words` doesn't hold the program's name. There is a set of screens for each session that a run
/// or a check may have: a session's is the one in its place, and those that no session takes are
/// dropped. The statuses are 0 where all was read and written, or a journal is lawful, 2 where the
/// words are no form, 3 where the limit file is refused, 4 after a session that ends within a frame
/// or with none, 5 and 6 after a fault of reading or of writing, 7 where a journal that was checked
/// has a fault, and 8 for want of memory.
pub fn gate<R: Threads + Sync, D: Folder, O: Sink, G: Gate>(
    rt: &R,
    alloc: Global,
    words: &[String],
    folder: &mut D,
    out: &mut O,
    screens: Vec<Vec<Box<dyn Screen + Send>>>,
    gate: &G,
) -> u8
    requires sets { length screens.items ≡ session_most }
    ensures run { GateRun (map string_bytes words.now)
        (map (λ set. map (λ b. (Screen-box b).meaning b.value) set.items) screens.items)
        (ports_of D.texts D.read_faults D.write_faults O.held O.faults folder.old out.old)
        (ports_of D.texts D.read_faults D.write_faults O.held O.faults folder.new out.new) result }
{
    match command_from(words) {
        Some(Command::Run(run)) => run_and_tell(rt, alloc, &run, folder, out, screens, gate),
        Some(Command::Make(asked)) => make_and_tell(rt, alloc, &asked, folder, out, gate),
        Some(Command::Check(check)) => check_and_tell(alloc, &check, folder, out, screens),
        Some(Command::Cross(run)) => cross_and_tell(rt, alloc, &run, folder, out),
        None => tell(alloc, out, Status::Usage),
    }
}
