//! The names of a run's outputs.
ghost use Rattle.std.specs.Prelude.{◌≡◌, ◌≤◌, ◌<◌, string_bytes, IfOk};
ghost use Rattle.gate_files.specs.CommandOf.{folder_value};
ghost use Rattle.gate_files.specs.Words.{journal_file, journal_name, session_most, venue_ending};
ghost use Rattle.gate_files.specs.Names.{AreNamesOf, AreNames};

use fold_law::Memory;
use std::alloc::Global;

/// The files that a command writes in its folder of outputs.
#[derive(Clone, Copy, Debug)]
pub enum OutputFiles {
    /// `sNN.venue` and `sNN.client` of each session, and `journal.csv`.
    Run,
    /// `sNN.pass` and `sNN.client` of each session, and `cross.csv`.
    Cross,
}

impl OutputFiles {
    /// How the name of a session's output for the venue ends.
    pub(crate) fn venue_ending(self) -> &'static str
        ensures { result.now ≡ venue_ending self }
    {
        match self {
            OutputFiles::Run => ".venue",
            OutputFiles::Cross => ".pass",
        }
    }

    /// The journal, after the folder of outputs.
    pub(crate) fn journal_file(self) -> &'static str
        ensures { result.now ≡ journal_file self }
    {
        match self {
            OutputFiles::Run => "/journal.csv",
            OutputFiles::Cross => "/cross.csv",
        }
    }
}

/// A folder of outputs, and the files that are written there.
#[derive(Clone, Copy, Debug)]
pub struct OutputFolder<'a> {
    pub name: &'a str,
    pub files: OutputFiles,
}

/// The names of a session's two outputs.
#[derive(Drop)]
pub struct Outputs {
    /// What goes on to the venue: a run's own messages, and what a filter passes.
    pub venue: String,
    pub client: String,
}

/// The names that a run writes.
#[derive(Drop)]
pub struct Names {
    /// The outputs of the sessions, in their order.
    pub sessions: Vec<Outputs>,
    pub journal: String,
}

/// The names of a session's outputs in a folder.
fn outputs_of(alloc: Global, out: OutputFolder, session: u32) -> Result<Outputs, Memory>
    requires { session < 100 }
    ensures { IfOk result (λ own. AreNamesOf (folder_value out.entry) session own) }
{
    let tens = session / 10;
    let units = session % 10;
    let folder = out.name;
    let ending = out.files.venue_ending();
    let Ok(venue) = format!(in alloc; "{folder}/s{tens}{units}{ending}") else {
        return Err(Memory);
    };
    let Ok(client) = format!(in alloc; "{folder}/s{tens}{units}.client") else {
        return Err(Memory);
    };
    Ok(Outputs { venue, client })
}

/// The names of so many sessions' outputs in a folder.
fn sessions_in(alloc: Global, out: OutputFolder, count: u32) -> Result<Vec<Outputs>, Memory>
    requires { count ≤ session_most }
    ensures { IfOk result (λ all. AreNames (folder_value out.entry) count all.items) }
{
    let mut all = Vec::new(alloc);
    for session in 0..count {
        let own = outputs_of(alloc, out, session)?;
        let Ok(()) = all.push(own) else {
            return Err(Memory);
        };
    }
    Ok(all)
}

/// The names that a run of so many sessions writes in a folder.
pub fn names_in(alloc: Global, out: OutputFolder, count: u32) -> Result<Names, Memory>
    requires { count ≤ session_most }
    ensures sessions { IfOk result (λ names.
        AreNames (folder_value out.entry) count names.sessions.items) }
    ensures journal { IfOk result (λ names.
        string_bytes names.journal ≡ journal_name (folder_value out.entry)) }
{
    let sessions = sessions_in(alloc, out, count)?;
    let folder = out.name;
    let file = out.files.journal_file();
    let Ok(journal) = format!(in alloc; "{folder}{file}") else {
        return Err(Memory);
    };
    Ok(Names { sessions, journal })
}
