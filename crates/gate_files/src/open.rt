//! What is read and opened before a session runs.
ghost use Rattle.std.specs.Prelude.{◌≡◌, ◌+◌, [], IfOk, IfErr, OnErr, IsTrue, length, map};
ghost use Rattle.std.specs.Prelude.{string_bytes};
ghost use Rattle.std.specs.Option.{option_map};
ghost use Rattle.gate_files.specs.Stages.{folder_of, Went, HasFront, HasLimitsFault};
ghost use Rattle.gate_files.specs.Early.{MayEmpty};
ghost use Rattle.gate_files.specs.Stops.{HasLimits};
ghost use Rattle.gate_files.specs.Stages.{IsUnread, IsUnmade, IsUnopened, IsNewSource, IsNewSink};
ghost use Rattle.gate_files.specs.Stages.{with_two, HasUnopened};
ghost use Rattle.gate_files.specs.Words.{is_run};
ghost use Rattle.gate_files.specs.CommandOf.{folder_value, run_value};
ghost use Rattle.gate_files.specs.Names.{AreNames};
ghost use Rattle.gate_files.specs.Objects.{objects_of, HasOpened};

use crate::close::close_sessions;
use crate::inputs::Named;
use crate::limits::limits_from;
use crate::names::Outputs;
use crate::status::Status;
use crate::words::Run;
use gate_ports::{FetchEnd, Folder, PortFault, fetch_up_to};
use limit_table::Limits;
use std::alloc::Global;

/// The most bytes of a limit file.
const LIMIT_BYTES: usize = 1_048_576;

/// Reads a name to its end, or to so many bytes.
pub fn fetch_name<D: Folder>(
    alloc: Global,
    name: &str,
    most: usize,
    folder: &mut D,
) -> Result<Vec<u8>, Status>
    ensures went { Went (folder_of D.texts D.read_faults D.write_faults folder.old)
        (folder_of D.texts D.read_faults D.write_faults folder.new) }
    ensures texts { D.texts folder.new ≡ D.texts folder.old }
    ensures ok { IfOk result (λ bytes.
        HasFront (D.texts folder.old) name.now most bytes.items) }
    ensures err { IfErr result (λ status.
        IsUnread (folder_of D.texts D.read_faults D.write_faults folder.old)
        (folder_of D.texts D.read_faults D.write_faults folder.new) name.now status) }
{
    let mut input = match folder.open(name) {
        Ok(input) => input,
        Err(PortFault::Failed) => return Err(Status::ReadFault),
        Err(PortFault::Memory) => return Err(Status::Memory),
    };
    let fetched = fetch_up_to(alloc, &mut input, most);
    folder.done(name, input);
    match fetched.end {
        FetchEnd::Whole => Ok(fetched.bytes),
        FetchEnd::Failed => Err(Status::ReadFault),
        FetchEnd::Memory => Err(Status::Memory),
    }
}

/// Reads the limit file.
pub fn read_limits<D: Folder>(alloc: Global, name: &str, folder: &mut D) -> Result<Limits, Status>
    ensures went { Went (folder_of D.texts D.read_faults D.write_faults folder.old)
        (folder_of D.texts D.read_faults D.write_faults folder.new) }
    ensures texts { D.texts folder.new ≡ D.texts folder.old }
    ensures ok { IfOk result (λ limits.
        HasLimits (D.texts folder.old) name.now limits) }
    ensures err { IfErr result (λ status.
        HasLimitsFault (folder_of D.texts D.read_faults D.write_faults folder.old)
        (folder_of D.texts D.read_faults D.write_faults folder.new) name.now status) }
{
    let bytes = match fetch_name(alloc, name, LIMIT_BYTES + 1, folder) {
        Ok(bytes) => bytes,
        Err(status) => return Err(status),
    };
    limits_from(alloc, &bytes)
}

/// The outputs of a session.
#[derive(Drop)]
pub struct Sinks<K> {
    pub venue: K,
    pub client: K,
}

/// Makes the two outputs of a session. Where the second can't be made the first is closed empty.
pub fn create_outputs<D: Folder>(outputs: &Outputs, folder: &mut D) -> Result<Sinks<D::Out>, Status>
    ensures went { Went (folder_of D.texts D.read_faults D.write_faults folder.old)
        (folder_of D.texts D.read_faults D.write_faults folder.new) }
    ensures texts { IfOk result (λ sinks. D.texts folder.new ≡ option_map
        (with_two (string_bytes outputs.now.venue) [] (string_bytes outputs.now.client) [])
        (D.texts folder.old)) }
    ensures venue { IfOk result (λ sinks. IsNewSink (D.texts folder.old)
        (string_bytes outputs.now.venue)
        (D.Out.held sinks.venue) (D.Out.name sinks.venue) (D.Out.faults sinks.venue)) }
    ensures client { IfOk result (λ sinks. IsNewSink (D.texts folder.old)
        (string_bytes outputs.now.client)
        (D.Out.held sinks.client) (D.Out.name sinks.client) (D.Out.faults sinks.client)) }
    ensures err { IfErr result (λ status.
        IsUnmade (folder_of D.texts D.read_faults D.write_faults folder.old)
        (folder_of D.texts D.read_faults D.write_faults folder.new)
        (string_bytes outputs.now.venue) (string_bytes outputs.now.client) status) }
    ensures left { OnErr result (MayEmpty (D.texts folder.old) (D.texts folder.new)
        (string_bytes outputs.now.venue)) }
{
    let venue_name = outputs.venue.as_str();
    let venue = match folder.create(venue_name) {
        Ok(venue) => venue,
        Err(PortFault::Failed) => return Err(Status::WriteFault),
        Err(PortFault::Memory) => return Err(Status::Memory),
    };
    match folder.create(outputs.client.as_str()) {
        Ok(client) => Ok(Sinks { venue, client }),
        Err(fault) => {
            folder.close(venue_name, venue);
            match fault {
                PortFault::Failed => Err(Status::WriteFault),
                PortFault::Memory => Err(Status::Memory),
            }
        }
    }
}

/// A session's input and its outputs.
#[derive(Drop)]
pub struct Opened<S, K> {
    pub input: S,
    pub sinks: Sinks<K>,
}

/// Opens a session and makes its outputs. Where an output can't be made the input is given back.
pub fn open_session<D: Folder>(
    session: &str,
    outputs: &Outputs,
    folder: &mut D,
) -> Result<Opened<D::In, D::Out>, Status>
    ensures went { Went (folder_of D.texts D.read_faults D.write_faults folder.old)
        (folder_of D.texts D.read_faults D.write_faults folder.new) }
    ensures texts { IfOk result (λ opened. D.texts folder.new ≡ option_map
        (with_two (string_bytes outputs.now.venue) [] (string_bytes outputs.now.client) [])
        (D.texts folder.old)) }
    ensures input { IfOk result (λ opened. IsNewSource (D.texts folder.old) session.now
        (D.In.left opened.input) (D.In.name opened.input) (D.In.faults opened.input)) }
    ensures venue { IfOk result (λ opened. let sink = opened.sinks.venue in
        IsNewSink (D.texts folder.old) (string_bytes outputs.now.venue)
        (D.Out.held sink) (D.Out.name sink) (D.Out.faults sink)) }
    ensures client { IfOk result (λ opened. let sink = opened.sinks.client in
        IsNewSink (D.texts folder.old) (string_bytes outputs.now.client)
        (D.Out.held sink) (D.Out.name sink) (D.Out.faults sink)) }
    ensures err { IfErr result (λ status.
        IsUnopened (folder_of D.texts D.read_faults D.write_faults folder.old)
        (folder_of D.texts D.read_faults D.write_faults folder.new) session.now
        (string_bytes outputs.now.venue) (string_bytes outputs.now.client) status) }
    ensures left { OnErr result (MayEmpty (D.texts folder.old) (D.texts folder.new)
        (string_bytes outputs.now.venue)) }
{
    let input = match folder.open(session) {
        Ok(input) => input,
        Err(PortFault::Failed) => return Err(Status::ReadFault),
        Err(PortFault::Memory) => return Err(Status::Memory),
    };
    match create_outputs(outputs, folder) {
        Ok(sinks) => Ok(Opened { input, sinks }),
        Err(status) => {
            folder.done(session, input);
            Err(status)
        }
    }
}

/// Opens the sessions of a run in their order, each with its outputs. Where one can't be opened
/// those
/// before it are given back, and their outputs closed empty.
pub fn open_sessions<D: Folder>(
    alloc: Global,
    run: &Run,
    names: &[Outputs],
    folder: &mut D,
) -> Result<Vec<Opened<D::In, D::Out>>, Status>
    requires run { IsTrue (is_run (run_value run.now)) }
    requires names { AreNames (folder_value run.now.out) (length run.now.sessions.now) names.now }
    ensures ok { IfOk result (λ all. HasOpened (run_value run.now)
        (folder_of D.texts D.read_faults D.write_faults folder.old)
        (folder_of D.texts D.read_faults D.write_faults folder.new)
        (map (objects_of D.In.left D.In.name D.In.faults D.Out.held D.Out.name D.Out.faults)
        all.items)) }
    ensures many { IfOk result (λ all. length all.items ≡ length run.now.sessions.now) }
    ensures err { IfErr result (λ status. HasUnopened (run_value run.now)
        (folder_of D.texts D.read_faults D.write_faults folder.old)
        (folder_of D.texts D.read_faults D.write_faults folder.new) status) }
{
    let Ok(mut all) = Vec::with_capacity(alloc, run.sessions.len()) else {
        return Err(Status::Memory);
    };
    for session in 0..run.sessions.len() {
        match open_session(run.sessions[session].as_str(), &names[session], folder) {
            Ok(opened) => all.push_reserved(opened),
            Err(status) => {
                close_sessions::<D, Named>(run, names, all, folder);
                return Err(status);
            }
        }
    }
    Ok(all)
}
