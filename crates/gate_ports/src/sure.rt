//! A source in memory of which no call fails.
ghost use Rattle.std.specs.Prelude.{◌≡◌, ◌<◌, ◌++◌, Some, None, length, take, drop, min, IsOk, IsErr};
ghost use Rattle.std.specs.Prelude.{IfOk};
ghost use Rattle.std.specs.Io.KnownBytes.{ReadConsumes};
ghost use Rattle.gate_ports.specs.Faults.{HasCause};
ghost use Rattle.gate_ports.specs.Objects.{new_sure_source, after_sure_fetch};

use crate::memory::copy_front;
use crate::ports::{Failed, Source};
use std::marker::Model;

/// A source over bytes in memory of which no call fails: its count of faults is 0, and stays so.
#[derive(Drop)]
pub struct SureSource {
    bytes: Vec<u8>,
    at: usize,
    most: usize,
    is_ended: bool,
}

impl Model for SureSource {
    ghost use Rattle.std.specs.Prelude.{◌≤◌, ◌<◌, length, drop};
    ghost use Rattle.gate_ports.specs.Objects.{SureState};

    ghost Value = { SureState };

    ghost view = { λ s. record {
      left = drop s.at s.bytes.items;
      most = s.most;
      is_ended = s.is_ended;
    } };

    ghost invariant = { λ s. (s.at ≤ length s.bytes.items) × (0 < s.most) };
}

impl SureSource {
    /// A source that has these bytes left, of which a call gives at most `most`.
    pub fn new(bytes: Vec<u8>, most: usize) -> SureSource
        requires { 0 < most }
        ensures { result ≡ new_sure_source bytes.items most }
    {
        SureSource {
            bytes,
            at: 0,
            most,
            is_ended: false,
        }
    }
}

impl Source for SureSource {
    ghost left = { λ s. Some s.left };

    ghost is_ended = { λ s. s.is_ended };

    ghost faults = { λ _. 0 };

    ghost name = { λ _. None };

    /// Gives as many of the next bytes as the rest, the buffer and `most` allow. It never fails, and
    /// takes no memory.
    fn fetch(&mut self, buf: &mut [u8]) -> Result<usize, Failed>
        ensures sure { IsOk result }
        ensures count { IfOk result (λ n.
            n ≡ min (min (length self.old.left) (length buf.old)) self.old.most) }
        ensures read { IfOk result (λ n. buf.new ≡ take n self.old.left ++ drop n buf.old) }
        ensures after { self.new ≡ after_sure_fetch self.old result (length buf.old) }

        // What any source promises.
        ensures bytes { ReadConsumes (Some self.old.left) (Some self.new.left) result buf.new }
        ensures cause { HasCause 0 0 (IsErr result) }
    {
        let count = copy_front(&self.bytes[self.at..], buf, self.most);
        self.at += count;
        self.is_ended |= count == 0 && !buf.is_empty();
        Ok(count)
    }
}
