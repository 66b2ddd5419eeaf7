//! Sources of sessions: opened in their order, and given back.
ghost use Rattle.std.specs.Prelude.{◌≡◌, ◌≤◌, IfOk, IfErr, length, map, string_bytes};
ghost use Rattle.gate_files.specs.Stages.{folder_of, Went, IsNewSource, IsUnread};
ghost use Rattle.check_command.specs.Inputs.{AreNew, AreOwn, AreGivenBack, HasUnopened};

use gate_files::Status;
use gate_ports::{Folder, PortFault};
use std::alloc::Global;

/// Opens a name.
fn open_input<D: Folder>(name: &str, folder: &mut D) -> Result<D::In, Status>
    ensures went { Went (folder_of D.texts D.read_faults D.write_faults folder.old)
        (folder_of D.texts D.read_faults D.write_faults folder.new) }
    ensures texts { D.texts folder.new ≡ D.texts folder.old }
    ensures ok { IfOk result (λ input. IsNewSource (D.texts folder.old) name.now
        (D.In.left input) (D.In.name input) (D.In.faults input)) }
    ensures err { IfErr result (λ status.
        IsUnread (folder_of D.texts D.read_faults D.write_faults folder.old)
        (folder_of D.texts D.read_faults D.write_faults folder.new) name.now status) }
{
    match folder.open(name) {
        Ok(input) => Ok(input),
        Err(PortFault::Failed) => Err(Status::ReadFault),
        Err(PortFault::Memory) => Err(Status::Memory),
    }
}

/// Opens names in their order. Where one can't be opened those before it are given back.
pub fn open_inputs<D: Folder>(
    alloc: Global,
    names: &[String],
    folder: &mut D,
) -> Result<Vec<D::In>, Status>
    ensures went { Went (folder_of D.texts D.read_faults D.write_faults folder.old)
        (folder_of D.texts D.read_faults D.write_faults folder.new) }
    ensures texts { D.texts folder.new ≡ D.texts folder.old }
    ensures ok { IfOk result (λ all. AreNew D.In.left D.In.name D.In.faults (D.texts folder.old)
        (map string_bytes names.now) all.items) }
    ensures many { IfOk result (λ all. length all.items ≡ length names.now) }
    ensures err { IfErr result (λ status. HasUnopened (map string_bytes names.now)
        (folder_of D.texts D.read_faults D.write_faults folder.old)
        (folder_of D.texts D.read_faults D.write_faults folder.new) status) }
{
    let Ok(mut all) = Vec::with_capacity(alloc, names.len()) else {
        return Err(Status::Memory);
    };
    for place in 0..names.len() {
        match open_input(names[place].as_str(), folder) {
            Ok(input) => all.push_reserved(input),
            Err(status) => {
                give_back(names, all, folder);
                return Err(status);
            }
        }
    }
    Ok(all)
}

/// Gives the sources of the first names back, in their order.
pub fn give_back<D: Folder>(names: &[String], sources: Vec<D::In>, folder: &mut D)
    requires few { length sources.items ≤ length names.now }
    requires own { AreOwn D.In.name (D.texts folder.old) (map string_bytes names.now)
        sources.items }
    ensures { AreGivenBack D.In.faults (map string_bytes names.now)
        (folder_of D.texts D.read_faults D.write_faults folder.old)
        (folder_of D.texts D.read_faults D.write_faults folder.new) sources.items }
{
    let count = sources.len();
    let mut sources = sources;
    for place in 0..count {
        let next = sources.remove(0);
        folder.done(names[place].as_str(), next);
    }
}
