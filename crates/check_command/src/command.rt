//! The command.
ghost use Rattle.std.specs.Prelude.{◌≡◌, ◌⊎◌, IsTrue, [], length, map};
ghost use Rattle.gate_files.specs.CommandOf.{check_value};
ghost use Rattle.gate_files.specs.Stages.{folder_of, folder_with, Went};
ghost use Rattle.gate_files.specs.Statuses.{answer_number, answer_text};
ghost use Rattle.gate_files.specs.Words.{is_check, session_most};
ghost use Rattle.check_command.specs.Files.{AreRead};
ghost use Rattle.check_command.specs.Gate.{CheckWent, FilesJudged};

use crate::files::{Files, read_files};
use crate::inputs::{give_back, open_inputs};
use crate::telling::answer_to;
use gate_files::{Answer, Check};
use gate_ports::Folder;
use journal_check::{CheckDone, check as judge};
use screen_kit::Screen;
use std::alloc::Global;

/// Opens the sessions, judges the journal, and gives the sessions back.
fn judge_files<D: Folder>(
    alloc: Global,
    check: &Check,
    files: &Files,
    folder: &mut D,
    screens: Vec<Vec<Box<dyn Screen + Send>>>,
) -> Answer
    requires check { IsTrue (is_check (check_value check.now)) }
    requires sets { length screens.items ≡ session_most }
    requires read { AreRead (D.texts folder.old) (check_value check.now) files.now.limits
        files.now.journal.items }
    ensures went { Went (folder_of D.texts D.read_faults D.write_faults folder.old)
        (folder_of D.texts D.read_faults D.write_faults folder.new) }
    ensures way { (answer_number result ≡ 8) ⊎ FilesJudged (check_value check.now)
        (map (λ set. map (λ b. (Screen-box b).meaning b.value) set.items) screens.items)
        (folder_with D.texts D.read_faults D.write_faults [] folder.old)
        (folder_with D.texts D.read_faults D.write_faults (answer_text result) folder.new)
        (answer_number result) }
{
    let sources = match open_inputs(alloc, check.sessions, folder) {
        Ok(sources) => sources,
        Err(status) => return Answer::Stopped(status),
    };
    let CheckDone { answer, sources } = judge(
        alloc,
        &files.limits,
        &files.journal,
        sources,
        screens,
    );
    give_back(check.sessions, sources, folder);
    answer_to(alloc, answer)
}

/// Does a check, but for what it tells: reads the limit file and the journal, opens the sessions,
/// judges the journal by them, and gives them back.
///
/// There is a set of screens for each session that a check may have: a session's is the one in its
/// place. The statuses are 0 for a lawful journal, 7 for one with a fault, 3 for a limit file that
/// is refused, 5 for a file that can't be read, and 8 for want of memory.
pub fn check_words<D: Folder>(
    alloc: Global,
    check: &Check,
    folder: &mut D,
    screens: Vec<Vec<Box<dyn Screen + Send>>>,
) -> Answer
    requires check { IsTrue (is_check (check_value check.now)) }
    requires sets { length screens.items ≡ session_most }
    ensures { (answer_number result ≡ 8) ⊎ CheckWent (check_value check.now)
        (map (λ set. map (λ b. (Screen-box b).meaning b.value) set.items) screens.items)
        (folder_with D.texts D.read_faults D.write_faults [] folder.old)
        (folder_with D.texts D.read_faults D.write_faults (answer_text result) folder.new)
        (answer_number result) }
{
    match read_files(alloc, check, folder) {
        Ok(files) => judge_files(alloc, check, &files, folder, screens),
        Err(status) => Answer::Stopped(status),
    }
}
