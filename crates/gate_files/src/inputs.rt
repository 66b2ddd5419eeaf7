//! Where the inputs of sessions come from, which is where they go back to.
ghost use Rattle.std.specs.Prelude.{◌≡◌, ◌≢◌};
ghost use Rattle.gate_ports.specs.Faults.{HasNamedCause, NeverFalls};
ghost use Rattle.gate_ports.specs.Names.{MeansName, IsThere};

use gate_ports::{Folder, Source, SureSource};

/// Inputs of sessions whose outputs stand in a folder of this type.
pub trait Inputs<D: Folder> {
    type In: Source + Send;

    /// Gives an input back under a name, of which it may be one. Where one of its calls failed, the
    /// name's count of failed reads rises.
    fn give_back(folder: &mut D, name: &str, input: Self::In)
        requires means { MeansName (Self.In.name input) name.now }
        requires there { IsThere (D.texts folder.old) name.now }
        ensures texts { D.texts folder.new ≡ D.texts folder.old }
        ensures cause { HasNamedCause (D.read_faults folder.old) (D.read_faults folder.new) name.now
            (Self.In.faults input ≢ 0) }
        ensures writes { NeverFalls (D.write_faults folder.old) (D.write_faults folder.new) };
}

/// Inputs that were opened in the folder itself.
pub struct Named;

impl<D: Folder> Inputs<D> for Named {
    type In = D::In;

    fn give_back(folder: &mut D, name: &str, input: D::In) {
        folder.done(name, input)
    }
}

/// Inputs in memory, of which no call fails. The folder doesn't know them.
pub struct Sure;

impl<D: Folder> Inputs<D> for Sure {
    type In = SureSource;

    fn give_back(_folder: &mut D, _name: &str, _input: SureSource) {}
}
