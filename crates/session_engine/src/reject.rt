//! The answers to messages with a field fault.
ghost use Rattle.std.specs.Prelude.{◌≡◌, true, false, Err, IsOk, IsErrOf, List};
ghost use Rattle.std.specs.Option.{unwrap_or};
ghost use Rattle.fix_fields.specs.Fields.{FieldValue};
ghost use Rattle.fix_fields.specs.Places.{HasFieldsIn};
ghost use Rattle.fix_orders.specs.Reading.{read_of};
ghost use Rattle.session_engine.specs.Answers.{no_time};
ghost use Rattle.session_engine.specs.Running.{Continues, TakesFront, IsReady, frame_acts};
ghost use Rattle.session_engine.specs.Session.{is_request};
ghost use Rattle.session_engine.specs.Taken.{FailsAs};

use crate::answer::{give_written, venue_id};
use crate::note::Note;
use crate::session::Session;
use fix_fields::Id;
use fix_orders::{
    Envelope, FieldFault, Kind, Stamp, kind_of, read_envelope, type_text, write_reject_session,
};
use frame_run::SoundFrame;
use gate_ports::{PortFault, Sink};
use risk_board::Hand;
use risk_journal::Act;
use screen_kit::Screen;

/// The number of a refusal for a field fault in the journal.
const FAULT_CODE: u8 = 16;

/// Whether a client sends messages of this kind.
fn is_request(kind: Kind) -> bool
    ensures { result ≡ is_request kind }
{
    match kind {
        Kind::NewOrderSingle | Kind::OrderCancelRequest | Kind::OrderCancelReplaceRequest => true,
        Kind::ExecutionReport | Kind::OrderCancelReject | Kind::Admin | Kind::Other => false,
    }
}

/// SendingTime (52) of the answer to a message that has none that is read.
fn no_time() -> Id
    ensures { result ≡ no_time }
{
    match Id::read(b"19700101-00:00:00") {
        Ok(id) => id,
        Err(_) => unreachable!(),
    }
}

/// SendingTime (52) of the answer to a message with this head.
fn time_of(envelope: &Envelope) -> Id
    ensures { result ≡ unwrap_or envelope.now.time no_time }
{
    match envelope.time {
        Some(time) => time,
        None => no_time(),
    }
}

impl<'a, H: Hand, M: Hand, K: Screen, V: Sink, C: Sink> Session<'a, H, M, K, V, C> {
    /// Refuses a request with a field fault: the client gets its Reject.
    fn refuse_faulty(&mut self, sound: &SoundFrame<'_>, fault: &FieldFault) -> Result<(), PortFault>
        requires fails { FailsAs sound.now fault.now true }
        requires ready { IsReady self.old }
        ensures continues { Continues H.SameOrigin M.SameOrigin self.old self.new frame_acts }
        ensures taken { TakesFront K.meaning sound.now (IsOk result)
            (IsErrOf result PortFault.Failed) self.old self.new }
    {
        let envelope = read_envelope(sound.bytes(), sound.frame());
        self.client_id = envelope.sender.unwrap_or(self.client_id);
        self.desk.tell(Act::Refused {
            frame: self.counts.frames,
            code: FAULT_CODE,
            first: fault.tag,
            second: u32::from(fault.reason),
        });
        self.counts.frames += 1;
        self.counts.client += 1;
        let stamp = Stamp {
            target: self.client_id,
            seq: self.counts.client,
            time: time_of(&envelope),
        };
        let kind = type_text(sound.bytes(), sound.frame());
        let seq = envelope.seq.unwrap_or(0);
        write_reject_session(&mut self.writer, &stamp, seq, kind, fault);
        give_written(&mut self.client, &mut self.writer)
    }

    /// Notes a report with a field fault: the venue gets its Reject.
    fn return_faulty(&mut self, sound: &SoundFrame<'_>, fault: &FieldFault) -> Result<(), PortFault>
        requires fails { FailsAs sound.now fault.now false }
        requires ready { IsReady self.old }
        ensures continues { Continues H.SameOrigin M.SameOrigin self.old self.new frame_acts }
        ensures taken { TakesFront K.meaning sound.now (IsOk result)
            (IsErrOf result PortFault.Failed) self.old self.new }
    {
        let envelope = read_envelope(sound.bytes(), sound.frame());
        self.desk.tell(Act::Noted {
            frame: self.counts.frames,
            code: Note::FaultyField.code(),
            first: fault.tag,
            second: u32::from(fault.reason),
        });
        self.counts.frames += 1;
        self.counts.venue += 1;
        let stamp = Stamp {
            target: venue_id(),
            seq: self.counts.venue,
            time: time_of(&envelope),
        };
        let kind = type_text(sound.bytes(), sound.frame());
        let seq = envelope.seq.unwrap_or(0);
        write_reject_session(&mut self.writer, &stamp, seq, kind, fault);
        give_written(&mut self.venue, &mut self.writer)
    }

    /// Takes a message with a field fault: a request is refused, and a report is sent back.
    pub(crate) fn take_faulty(
        &mut self,
        sound: &SoundFrame<'_>,
        fault: &FieldFault,
    ) -> Result<(), PortFault>
        requires read { (fields : List FieldValue)
            → HasFieldsIn sound.now.bytes sound.now.frame fields → read_of fields ≡ Err fault.now }
        requires ready { IsReady self.old }
        ensures continues { Continues H.SameOrigin M.SameOrigin self.old self.new frame_acts }
        ensures taken { TakesFront K.meaning sound.now (IsOk result)
            (IsErrOf result PortFault.Failed) self.old self.new }
    {
        if is_request(kind_of(type_text(sound.bytes(), sound.frame()))) {
            self.refuse_faulty(sound, fault)
        } else {
            self.return_faulty(sound, fault)
        }
    }
}
