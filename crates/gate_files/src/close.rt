//! What is given back and closed after the sessions of a run.
ghost use Rattle.std.specs.Prelude.{◌≡◌, ◌≢◌, ◌≤◌, length, map, string_bytes};
ghost use Rattle.gate_files.specs.CommandOf.{folder_value, run_value};
ghost use Rattle.gate_files.specs.Names.{AreNames};
ghost use Rattle.gate_files.specs.Objects.{objects_of, EachOwn, HasClosed};
ghost use Rattle.gate_files.specs.Ports.{ReadRose, WriteRose};
ghost use Rattle.gate_files.specs.Stages.{folder_of, Went, IsOwn, AreClosed};
ghost use Rattle.gate_files.specs.Words.{session_most};

use crate::inputs::Inputs;
use crate::names::Outputs;
use crate::open::{Opened, Sinks};
use crate::words::Run;
use gate_ports::Folder;

/// Gives a session's input back, and closes its outputs, the venue's first.
pub fn close_session<D: Folder, I: Inputs<D>>(
    session: &str,
    outputs: &Outputs,
    opened: Opened<I::In, D::Out>,
    folder: &mut D,
)
    requires input { IsOwn (D.texts folder.old) session.now (I.In.name opened.input) }
    requires venue { IsOwn (D.texts folder.old) (string_bytes outputs.now.venue)
        (D.Out.name opened.sinks.venue) }
    requires client { IsOwn (D.texts folder.old) (string_bytes outputs.now.client)
        (D.Out.name opened.sinks.client) }
    ensures went { Went (folder_of D.texts D.read_faults D.write_faults folder.old)
        (folder_of D.texts D.read_faults D.write_faults folder.new) }
    ensures texts { AreClosed (D.texts folder.old) (D.texts folder.new)
        (string_bytes outputs.now.venue) (string_bytes outputs.now.client)
        (D.Out.held opened.sinks.venue) (D.Out.held opened.sinks.client) }

    // A fault of an object is one of its name.
    ensures input_cause { I.In.faults opened.input ≢ 0
        → ReadRose (folder_of D.texts D.read_faults D.write_faults folder.old)
        (folder_of D.texts D.read_faults D.write_faults folder.new) session.now }
    ensures venue_cause { D.Out.faults opened.sinks.venue ≢ 0
        → WriteRose (folder_of D.texts D.read_faults D.write_faults folder.old)
        (folder_of D.texts D.read_faults D.write_faults folder.new)
        (string_bytes outputs.now.venue) }
    ensures client_cause { D.Out.faults opened.sinks.client ≢ 0
        → WriteRose (folder_of D.texts D.read_faults D.write_faults folder.old)
        (folder_of D.texts D.read_faults D.write_faults folder.new)
        (string_bytes outputs.now.client) }
{
    let Opened { input, sinks } = opened;
    let Sinks { venue, client } = sinks;
    I::give_back(folder, session, input);
    folder.close(outputs.venue.as_str(), venue);
    folder.close(outputs.client.as_str(), client);
}

/// Gives the first sessions' inputs back and closes their outputs, in the order of the sessions.
pub fn close_sessions<D: Folder, I: Inputs<D>>(
    run: &Run,
    names: &[Outputs],
    opened: Vec<Opened<I::In, D::Out>>,
    folder: &mut D,
)
    requires few { length opened.items ≤ length run.now.sessions.now }
    requires most { length run.now.sessions.now ≤ session_most }
    requires names { AreNames (folder_value run.now.out) (length run.now.sessions.now) names.now }
    requires own { EachOwn (run_value run.now) (D.texts folder.old)
        (map (objects_of I.In.left I.In.name I.In.faults D.Out.held D.Out.name D.Out.faults)
        opened.items) }
    ensures { HasClosed (run_value run.now)
        (folder_of D.texts D.read_faults D.write_faults folder.old)
        (folder_of D.texts D.read_faults D.write_faults folder.new)
        (map (objects_of I.In.left I.In.name I.In.faults D.Out.held D.Out.name D.Out.faults)
        opened.items) }
{
    let count = opened.len();
    let mut opened = opened;
    for session in 0..count {
        let next = opened.remove(0);
        close_session::<D, I>(
            run.sessions[session].as_str(),
            &names[session],
            next,
            folder,
        );
    }
}
