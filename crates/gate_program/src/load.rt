//! The sessions of a load: their names, their inputs, which are in memory, and their outputs.
ghost use Rattle.std.specs.Prelude.{◌≡◌, ◌+◌, ◌<◌, ◌≤◌, [], IfOk, IfErr, Some, length, map, replicate};
ghost use Rattle.std.specs.Prelude.{string_bytes};
ghost use Rattle.gate_files.specs.CommandOf.{folder_value, run_value};
ghost use Rattle.gate_files.specs.Names.{AreNames};
ghost use Rattle.gate_files.specs.Objects.{objects_of, HasCreated};
ghost use Rattle.gate_files.specs.Stages.{folder_of, HasUnmade};
ghost use Rattle.gate_files.specs.Words.{session_most, venue_name};
ghost use Rattle.gate_ports.specs.Objects.{SureState};

use fold_law::{Memory, SESSIONS};
use gate_files::{Opened, Outputs, Run, Status, Sure, close_sessions, create_outputs};
use gate_ports::{Folder, SureSource};
use screen_kit::Screen;
use std::alloc::Global;

/// The most bytes that a session gets at once.
const FETCH_MOST: usize = 65_536;

/// A name for each session's input: that of its output to the venue.
pub(crate) fn input_names(alloc: Global, outputs: &[Outputs]) -> Result<Vec<String>, Memory>
    ensures { IfOk result (λ all.
        map string_bytes all.items ≡ map (λ own. string_bytes own.venue) outputs.now) }
{
    let mut all = Vec::new(alloc);
    for own in outputs {
        let Ok(name) = String::from_str(alloc, own.venue.as_str()) else {
            return Err(Memory);
        };
        let Ok(()) = all.push(name) else {
            return Err(Memory);
        };
    }
    Ok(all)
}

/// An empty set of screens for each session that there may be.
pub(crate) fn no_screens(alloc: Global) -> Result<Vec<Vec<Box<dyn Screen + Send>>>, Memory>
    ensures sets { IfOk result (λ sets.
        map (λ set. set.items) sets.items ≡ replicate session_most []) }
    ensures many { IfOk result (λ sets. length sets.items ≡ session_most) }
{
    let mut sets = Vec::new(alloc);
    for _ in 0..SESSIONS {
        let Ok(()) = sets.push(Vec::new(alloc)) else {
            return Err(Memory);
        };
    }
    Ok(sets)
}

/// Makes the outputs of a load's sessions in their order, each beside its session's input. Where one
/// can't be made, those before it are closed empty.
pub(crate) fn create_sessions<D: Folder>(
    alloc: Global,
    run: &Run,
    names: &[Outputs],
    files: Vec<Vec<u8>>,
    folder: &mut D,
) -> Result<Vec<Opened<SureSource, D::Out>>, Status>
    requires most { length run.now.sessions.now ≤ session_most }
    requires names { AreNames (folder_value run.now.out) (length run.now.sessions.now) names.now }
    requires inputs { map string_bytes run.now.sessions.now
        ≡ map (λ own. string_bytes own.venue) names.now }
    requires files { length files.items ≡ length run.now.sessions.now }
    ensures ok { IfOk result (λ all. HasCreated (run_value run.now)
        (folder_of D.texts D.read_faults D.write_faults folder.old)
        (folder_of D.texts D.read_faults D.write_faults folder.new)
        (map (objects_of (λ (s : SureState). Some s.left) (λ s. None) (λ s. 0)
        D.Out.held D.Out.name D.Out.faults) all.items)) }
    ensures lefts { IfOk result (λ all. map (λ (own : Opened SureState D.Out). own.input.left) all.items
        ≡ map (λ own. own.items) files.items) }
    ensures err { IfErr result (λ status. HasUnmade (run_value run.now)
        (folder_of D.texts D.read_faults D.write_faults folder.old)
        (folder_of D.texts D.read_faults D.write_faults folder.new) status) }
{
    let Ok(mut all) = Vec::with_capacity(alloc, files.len()) else {
        return Err(Status::Memory);
    };
    let mut files = files;
    for session in 0..names.len() {
        match create_outputs(&names[session], folder) {
            Ok(sinks) => all.push_reserved(Opened {
                input: SureSource::new(files.remove(0), FETCH_MOST),
                sinks,
            }),
            Err(status) => {
                close_sessions::<D, Sure>(run, names, all, folder);
                return Err(status);
            }
        }
    }
    Ok(all)
}
