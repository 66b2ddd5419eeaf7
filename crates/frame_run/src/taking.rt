//! Frames are taken one after another as they come, up to what is no frame.
ghost use Rattle.std.specs.Prelude.{◌≡◌, ℕ, ◌+◌, ◌≤◌, List, [], IsOk, IfErr, IsTrue};
ghost use Rattle.fix_fields.specs.Frames.{FrameValue};
ghost use Rattle.gate_ports.specs.declared.ports.PortFault.{PortFault};
ghost use Rattle.gate_ports.specs.Faults.{Rose};
ghost use Rattle.frame_run.specs.Ends.{FetchesInput, IsByInput, input_most};
ghost use Rattle.frame_run.specs.Frames.{IsSomeFrame};
ghost use Rattle.frame_run.specs.Taking.{Leads, IsUnderWay, TakesNext, TakesSource};
ghost use Rattle.frame_run.specs.Taking.{StopsNext, StopsBy};

use crate::ahead::look_ahead;
use crate::end::{end_after, end_by};
use fix_fields::{Found, Frame, FrameBuffer};
use gate_ports::{PortFault, Source};
use risk_journal::End;
use std::alloc::Global;

/// What takes frames one after another, and gives what comes of them to sinks.
pub trait TakesFrames {
    /// The frames of an input that lead from one value to another.
    ghost Took: { Leads Self };
    /// The frames of an input that lead from one value to another at which the run stopped for this
    /// refusal. Of what comes of the last of them some may not have been given.
    ghost Stopped: { PortFault → Leads Self };
    /// One value, and a value so many frames later at most.
    ghost IsAfter: { Self → Self → ℕ → Type 0 };

    /// Takes a frame. Refused, the run ends: with this frame in hand where a sink failed, and maybe
    /// before it where memory was wanting.
    fn take_frame(&mut self, bytes: &[u8], frame: &Frame) -> Result<(), PortFault>
        requires stands { IsSomeFrame bytes.now frame.now }
        requires ready { IsUnderWay Took self.old }
        ensures took { IsOk result → TakesNext Took Took bytes.now frame.now self.old self.new }
        ensures stopped { IfErr result (λ why.
            StopsNext Took Stopped why bytes.now frame.now self.old self.new) }
        ensures after { IsAfter self.old self.new 1 };

    ghost after_none: { (a : Self) → IsAfter a a 0 };

    ghost after_next: { (a b c : Self) (one two : ℕ) → IsAfter a b one → IsAfter b c two
        → IsAfter a c (one + two) };

    ghost stopped_whole: { (input : List ℕ) (start now : Self) (frames : List FrameValue)
        → Took input start frames now → Stopped PortFault.Memory input start frames now };
}

/// Takes the frames of a source up to what is no frame, and says how the run ends. Its head is long
/// because it says all of a run that `take_input` does.
fn take_frames<T: TakesFrames, S: Source>(
    taker: &mut T,
    source: &mut S,
    buffer: &mut FrameBuffer,
) -> End
    requires empty { (buffer.old.held ≡ []) × (buffer.old.base ≡ 0) }
    requires fresh { (input : List ℕ) → T.Took input taker.old [] taker.old }
    ensures follows { IsByInput result
        → TakesSource T.Took taker.old taker.new (S.left source.old) result }
    ensures stopped { StopsBy T.Took T.Stopped taker.old taker.new (S.left source.old)
        (S.left source.new) result }
    ensures after { (count : ℕ) × (count ≤ input_most) × T.IsAfter taker.old taker.new count }
    ensures fetched { FetchesInput (S.left source.old) (S.left source.new) result }
    ensures read_fault { result ≡ End.ReadFault → Rose (S.faults source.old) (S.faults source.new) }
    ensures whole { result ≡ End.Whole → IsTrue (S.is_ended source.new) }
    ensures source_later { S.faults source.old ≤ S.faults source.new }
    ensures source_name { S.name source.new ≡ S.name source.old }
{
    loop {
        let Ok(ahead) = look_ahead(source, buffer) else {
            return End::ReadFault;
        };
        let Found::Frame(frame) = ahead.next else {
            return end_after(ahead.goes_on, buffer.base(), ahead.next);
        };
        if let Err(fault) = taker.take_frame(buffer.bytes(), &frame) {
            return end_by(fault);
        }
        buffer.pass(&frame);
    }
}

/// Takes the frames of a source up to what is no frame, over at most `INPUT_MOST` bytes, and says how
/// the run ends. More is fetched only where what has come is no whole frame.
pub fn take_input<T: TakesFrames, S: Source>(alloc: Global, taker: &mut T, source: &mut S) -> End
    requires fresh { (input : List ℕ) → T.Took input taker.old [] taker.old }
    ensures follows { IsByInput result
        → TakesSource T.Took taker.old taker.new (S.left source.old) result }
    ensures stopped { StopsBy T.Took T.Stopped taker.old taker.new (S.left source.old)
        (S.left source.new) result }
    ensures after { (count : ℕ) × (count ≤ input_most) × T.IsAfter taker.old taker.new count }
    ensures fetched { FetchesInput (S.left source.old) (S.left source.new) result }
    ensures read_fault { result ≡ End.ReadFault → Rose (S.faults source.old) (S.faults source.new) }
    ensures whole { result ≡ End.Whole → IsTrue (S.is_ended source.new) }
    ensures source_later { S.faults source.old ≤ S.faults source.new }
    ensures source_name { S.name source.new ≡ S.name source.old }
{
    match FrameBuffer::new(alloc) {
        Ok(mut buffer) => take_frames(taker, source, &mut buffer),
        Err(_) => End::Memory,
    }
}
