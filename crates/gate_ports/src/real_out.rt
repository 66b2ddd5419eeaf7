//! A sink over standard output.
ghost use Rattle.std.specs.Prelude.{◌≡◌, ◌≢◌, None, Err, IsErrOf};
ghost use Rattle.std.specs.Result.{is_err};
ghost use Rattle.gate_ports.specs.Bytes.{TakesSome};
ghost use Rattle.gate_ports.specs.Faults.{HasCause};
ghost use Rattle.gate_ports.specs.Real.{raised_where};

use crate::ports::{PortFault, Sink};
use crate::real::RealSink;
use std::io::{self, Printer};
use std::marker::Model;

/// A sink over standard output, without a buffer of its own.
#[derive(Drop)]
pub struct RealOut<'a, R> {
    inner: RealSink<Printer<'a, R>>,
}

impl<'a, R> Model for RealOut<'a, R> {
    ghost use Rattle.std.specs.Prelude.{ℕ};

    ghost Value = { ℕ };

    ghost view = { λ out. out.inner };
}

impl<'a, R: Print> RealOut<'a, R> {
    /// The standard output of this runtime, of which no call has failed.
    pub fn new(rt: &'a R) -> RealOut<'a, R>
        ensures { result ≡ 0 }
    {
        RealOut {
            inner: RealSink::new(io::writer(rt)),
        }
    }
}

impl<'a, R: Print> Sink for RealOut<'a, R> {
    ghost held = { λ _. None };

    ghost faults = { λ out. out };

    ghost name = { λ _. None };

    /// Writes what standard output takes. Each error is counted, and so is a write that took
    /// nothing of a piece that isn't empty.
    fn give(&mut self, piece: &[u8]) -> Result<usize, PortFault>
        ensures bound { TakesSome result piece.now }
        ensures only_failed { result ≢ Err PortFault.Memory }
        ensures after { self.new ≡ raised_where (is_err result) self.old }
        ensures cause { HasCause self.old self.new (IsErrOf result PortFault.Failed) }
    {
        self.inner.give(piece)
    }
}
