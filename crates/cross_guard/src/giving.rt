//! The bytes of a frame, and the giving of a message that was written.
ghost use Rattle.std.specs.Prelude.{◌≡◌, List, IsOk, IsErrOf, IsSome, Some};
ghost use Rattle.std.specs.Io.KnownBytes.{Appends};
ghost use Rattle.fix_fields.specs.Fields.{FieldValue, fields_text};
ghost use Rattle.fix_fields.specs.Messages.{message_text};
ghost use Rattle.frame_run.specs.Frames.{text_in};
ghost use Rattle.gate_ports.specs.Faults.{HasCause};
ghost use Rattle.cross_guard.specs.Giving.{Gives, StandsIn};

use fix_fields::{Frame, Writer};
use frame_run::SoundFrame;
use gate_ports::{PortFault, Sink, give_all};

/// The bytes of a frame.
pub(crate) fn frame_text<'a>(bytes: &'a [u8], frame: &Frame) -> &'a [u8]
    requires { StandsIn bytes.now frame.now }
    ensures { result.now ≡ text_in bytes.now frame.now }
{
    &bytes[frame.start..frame.end]
}

/// The bytes of a sound frame.
pub(crate) fn sound_text<'a>(sound: &SoundFrame<'a>) -> &'a [u8]
    ensures { result.now ≡ text_in sound.now.bytes sound.now.frame }
{
    frame_text(sound.bytes(), sound.frame())
}

/// Gives the message that was written. Refused, it gave a front of it.
pub(crate) fn give_written<S: Sink>(sink: &mut S, writer: &mut Writer) -> Result<(), PortFault>
    requires written { IsSome writer.old }
    ensures given { Gives (IsOk result) (S.held sink.old) (S.held sink.new)
        (λ whole. (fields : List FieldValue) → writer.old ≡ Some (fields_text fields)
        → Appends (S.held sink.old) whole (message_text fields)) }
    ensures cause { HasCause (S.faults sink.old) (S.faults sink.new)
        (IsErrOf result PortFault.Failed) }
    ensures name { S.name sink.new ≡ S.name sink.old }
{
    give_all(sink, writer.finish())
}
