//! Messages that are written are given.
ghost use Rattle.std.specs.Prelude.{◌≡◌, List, codes, IsOk, IsErrOf, IsSome};
ghost use Rattle.std.specs.Io.KnownBytes.{Appends};
ghost use Rattle.fix_fields.specs.Fields.{FieldValue};
ghost use Rattle.fix_fields.specs.Messages.{message_text};
ghost use Rattle.fix_orders.specs.Put.{HasPut, IsSeq, IsPassedOn};
ghost use Rattle.gate_ports.specs.Faults.{HasCause};
ghost use Rattle.session_engine.specs.Taken.{HasItsTime, Forwards, Gives};

use fix_fields::{Id, Writer};
use fix_orders::{Stamp, write_forward};
use frame_run::SoundFrame;
use gate_ports::{PortFault, Sink, give_all};

/// TargetCompID (56) of the messages to the venue.
pub(crate) fn venue_id() -> Id
    ensures { result ≡ codes "VENUE" }
{
    match Id::read(b"VENUE") {
        Ok(id) => id,
        Err(_) => unreachable!(),
    }
}

/// Gives the message that was written. Refused, it gave a front of it.
pub(crate) fn give_written<S: Sink>(sink: &mut S, writer: &mut Writer) -> Result<(), PortFault>
    requires written { IsSome writer.old }
    ensures given { Gives (IsOk result) (S.held sink.old) (S.held sink.new)
        (λ whole. (fields : List FieldValue) → HasPut fields writer.old
        → Appends (S.held sink.old) whole (message_text fields)) }
    ensures cause { HasCause (S.faults sink.old) (S.faults sink.new)
        (IsErrOf result PortFault.Failed) }
    ensures name { S.name sink.new ≡ S.name sink.old }
{
    give_all(sink, writer.finish())
}

/// Passes a message on, with the time that it has. Refused, it gave a front of it.
pub(crate) fn forward<S: Sink>(
    sink: &mut S,
    writer: &mut Writer,
    sound: &SoundFrame<'_>,
    stamp: &Stamp,
) -> Result<(), PortFault>
    requires passed { IsPassedOn sound.now.bytes sound.now.frame }
    requires number { IsSeq stamp.now.seq }
    requires time { HasItsTime sound.now stamp.now }
    ensures given { Gives (IsOk result) (S.held sink.old) (S.held sink.new)
        (Forwards sound.now stamp.now (S.held sink.old)) }
    ensures cause { HasCause (S.faults sink.old) (S.faults sink.new)
        (IsErrOf result PortFault.Failed) }
    ensures name { S.name sink.new ≡ S.name sink.old }
{
    write_forward(writer, sound.bytes(), sound.frame(), stamp);
    give_written(sink, writer)
}
