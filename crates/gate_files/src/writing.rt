//! A name that gets a text in pieces.
ghost use Rattle.std.specs.Prelude.{OnOk, OnErr, IsErrOf, ◌≡◌};
ghost use Rattle.std.specs.Io.KnownBytes.{Appends};
ghost use Rattle.gate_ports.specs.Bytes.{AppendsFront};
ghost use Rattle.gate_ports.specs.Faults.{HasCause};
ghost use Rattle.gate_files.specs.Early.{KeepsOrFronts};
ghost use Rattle.gate_files.specs.Joined.{joined};
ghost use Rattle.gate_files.specs.Ports.{Holds, WriteRose};
ghost use Rattle.gate_files.specs.Stages.{folder_of, Went, ChangesOnly};

use gate_ports::{Folder, PortFault, Sink, give_all};

/// Gives pieces, one after another. Where the sink refuses it holds a front of them.
fn give_pieces<S: Sink>(sink: &mut S, pieces: &[Vec<u8>]) -> Result<(), PortFault>
    ensures ok { OnOk result (Appends (S.held sink.old) (S.held sink.new) (joined pieces.now)) }
    ensures err { OnErr result
        (AppendsFront (S.held sink.old) (S.held sink.new) (joined pieces.now)) }
    ensures cause { HasCause (S.faults sink.old) (S.faults sink.new)
        (IsErrOf result PortFault.Failed) }
    ensures name { S.name sink.new ≡ S.name sink.old }
{
    for piece in pieces {
        give_all(sink, piece)?;
    }
    Ok(())
}

/// Creates a name, gives it these pieces and closes it.
pub fn write_file<D: Folder>(
    name: &str,
    pieces: &[Vec<u8>],
    folder: &mut D,
) -> Result<(), PortFault>
    ensures went { Went (folder_of D.texts D.read_faults D.write_faults folder.old)
        (folder_of D.texts D.read_faults D.write_faults folder.new) }
    ensures ok { OnOk result (Holds (D.texts folder.new) name.now (joined pieces.now)) }
    ensures err { OnErr result
        (KeepsOrFronts (D.texts folder.old) (D.texts folder.new) name.now (joined pieces.now)) }
    ensures others { ChangesOnly (D.texts folder.old) (D.texts folder.new) name.now }
    ensures cause { IsErrOf result PortFault.Failed
        → WriteRose (folder_of D.texts D.read_faults D.write_faults folder.old)
        (folder_of D.texts D.read_faults D.write_faults folder.new) name.now }
{
    let mut output = match folder.create(name) {
        Ok(output) => output,
        Err(fault) => return Err(fault),
    };
    let given = give_pieces(&mut output, pieces);
    folder.close(name, output);
    given
}
