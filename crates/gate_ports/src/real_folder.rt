//! A folder over the system's files.
ghost use Rattle.std.specs.Prelude.{◌≡◌, ◌≢◌, None, Err, IfOk, IsErrOf, nat_lt};
ghost use Rattle.std.specs.Result.{is_err};
ghost use Rattle.gate_ports.specs.Faults.{HasNamedCause};
ghost use Rattle.gate_ports.specs.Real.{new_reader, raised_where};

use crate::ports::{Folder, PortFault};
use crate::raise::{raised, raised_if};
use crate::real::{RealSink, RealSource};
use std::fs;
use std::io::{Read, Write};
use std::marker::Model;
use std::rt::Files;

/// A folder over the system's files: a name is a path. Its two counts stand for every name.
#[derive(Drop)]
pub struct RealFolder<'a, R> {
    files: &'a R,
    read_faults: u64,
    write_faults: u64,
}

impl<'a, R> Model for RealFolder<'a, R> {
    ghost use Rattle.gate_ports.specs.Real.{FolderCounts};

    ghost Value = { FolderCounts };

    ghost view = { λ folder. record {
      reads = folder.read_faults;
      writes = folder.write_faults;
    } };
}

impl<'a, R: Files> RealFolder<'a, R> {
    /// A folder over these files, of which no call has failed.
    pub fn new(files: &'a R) -> RealFolder<'a, R>
        ensures { result ≡ record { reads = 0; writes = 0 } }
    {
        RealFolder {
            files,
            read_faults: 0,
            write_faults: 0,
        }
    }
}

impl<'a, R: Files> Folder for RealFolder<'a, R>
where
    R::File: Read + Write + Drop + Send,
{
    type In = RealSource<R::File>;

    type Out = RealSink<R::File>;

    ghost texts = { λ _. None };

    ghost read_faults = { λ folder _. folder.reads };

    ghost write_faults = { λ folder _. folder.writes };

    /// Opens a file for reading.
    fn open(&mut self, name: &str) -> Result<RealSource<R::File>, PortFault>
        ensures fresh { IfOk result (λ input. input ≡ new_reader) }
        ensures only_failed { result ≢ Err PortFault.Memory }
        ensures after { self.new ≡ record self.old {
          reads = raised_where (is_err result) self.old.reads;
        } }
    {
        match fs::open(self.files, name) {
            Ok(inner) => Ok(RealSource::new(inner)),
            Err(_) => {
                self.read_faults = raised(self.read_faults);
                Err(PortFault::Failed)
            }
        }
    }

    /// Makes a file, or empties the one that is there, for writing.
    fn create(&mut self, name: &str) -> Result<RealSink<R::File>, PortFault>
        ensures fresh { IfOk result (λ output. output ≡ 0) }
        ensures only_failed { result ≢ Err PortFault.Memory }
        ensures after { self.new ≡ record self.old {
          writes = raised_where (is_err result) self.old.writes;
        } }
    {
        match fs::create(self.files, name) {
            Ok(inner) => Ok(RealSink::new(inner)),
            Err(_) => {
                self.write_faults = raised(self.write_faults);
                Err(PortFault::Failed)
            }
        }
    }

    /// Closes a file that was read.
    fn done(&mut self, _name: &str, input: RealSource<R::File>)
        ensures after { self.new ≡
            record self.old { reads = raised_where (nat_lt 0 input.faults) self.old.reads } }
    {
        self.read_faults = raised_if(input.has_failed(), self.read_faults);
    }

    /// Closes a file that was written.
    fn close(&mut self, _name: &str, output: RealSink<R::File>)
        ensures after { self.new ≡ record self.old {
          writes = raised_where (nat_lt 0 output) self.old.writes;
        } }
    {
        self.write_faults = raised_if(output.has_failed(), self.write_faults);
    }
}
