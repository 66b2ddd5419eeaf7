//! The limit file and the journal of a check.
ghost use Rattle.std.specs.Prelude.{◌≡◌, ◌⊎◌, [], IfOk, IfErr, IsTrue};
ghost use Rattle.gate_files.specs.CommandOf.{check_value};
ghost use Rattle.gate_files.specs.Stages.{folder_of, folder_with, Went};
ghost use Rattle.gate_files.specs.Statuses.{number_of, told_text};
ghost use Rattle.gate_files.specs.Words.{is_check};
ghost use Rattle.check_command.specs.Files.{AreRead};
ghost use Rattle.check_command.specs.Gate.{FilesStopped};

use gate_files::{Check, Status, fetch_name, read_limits};
use gate_ports::Folder;
use journal_check::JOURNAL_MOST;
use limit_table::Limits;
use std::alloc::Global;

/// What was read for a check.
#[derive(Drop)]
pub(crate) struct Files {
    /// The limits that count for the number of its sessions.
    pub limits: Limits,
    /// The bytes of the journal, at most one more than is judged.
    pub journal: Vec<u8>,
}

/// Reads the limit file, and then the journal to its end, or to one byte more than is judged.
pub(crate) fn read_files<D: Folder>(
    alloc: Global,
    check: &Check,
    folder: &mut D,
) -> Result<Files, Status>
    requires { IsTrue (is_check (check_value check.now)) }
    ensures went { Went (folder_of D.texts D.read_faults D.write_faults folder.old)
        (folder_of D.texts D.read_faults D.write_faults folder.new) }
    ensures texts { D.texts folder.new ≡ D.texts folder.old }
    ensures ok { IfOk result (λ files. AreRead (D.texts folder.old) (check_value check.now)
        files.limits files.journal.items) }
    ensures err { IfErr result (λ status. (number_of status ≡ 8)
        ⊎ FilesStopped (check_value check.now)
        (folder_with D.texts D.read_faults D.write_faults [] folder.old)
        (folder_with D.texts D.read_faults D.write_faults (told_text status) folder.new)
        (number_of status)) }
{
    let file = match read_limits(alloc, check.limits, folder) {
        Ok(file) => file,
        Err(status) => return Err(status),
    };
    let limits = file.counted_for(check.sessions.len() as u32);
    match fetch_name(alloc, check.journal, JOURNAL_MOST + 1, folder) {
        Ok(journal) => Ok(Files { limits, journal }),
        Err(status) => Err(status),
    }
}
