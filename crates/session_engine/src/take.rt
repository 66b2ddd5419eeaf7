//! Taking a sound frame: it is read, and what it says is decided on, applied or noted.
ghost use Rattle.std.specs.Prelude.{IsOk, IsErrOf};
ghost use Rattle.fix_orders.specs.declared.message.Message.TheVariants as Message;
ghost use Rattle.session_engine.specs.Running.{Continues, TakesFront, IsReady, frame_acts};
ghost use Rattle.session_engine.specs.Taken.{ReadsAs};

use crate::answer::{forward, give_written};
use crate::codes::{order_reason_of, request_reason_of, text_of};
use crate::note::Note;
use crate::session::Session;
use fix_orders::{
    Cancel, CancelReject, Message, NewOrder, Replace, Report, read_message, write_reject_cancel,
    write_reject_order,
};
use frame_run::SoundFrame;
use gate_ports::{PortFault, Sink};
use order_desk::{Reply, decide_cancel, decide_new, decide_replace, settle};
use risk_board::Hand;
use screen_kit::Screen;

/// CxlRejResponseTo (434) of a cancel (F) that is refused.
const TO_CANCEL: u8 = 1;

/// CxlRejResponseTo (434) of a replace (G) that is refused.
const TO_REPLACE: u8 = 2;

impl<'a, H: Hand, M: Hand, K: Screen, V: Sink, C: Sink> Session<'a, H, M, K, V, C> {
    /// Takes an order (D): sent, it goes on to the venue; refused, the client is told so.
    fn take_new(&mut self, sound: &SoundFrame<'_>, order: &NewOrder<'_>) -> Result<(), PortFault>
        requires read { ReadsAs sound.now (Message.New order.now) }
        requires ready { IsReady self.old }
        ensures continues { Continues H.SameOrigin M.SameOrigin self.old self.new frame_acts }
        ensures taken { TakesFront K.meaning sound.now (IsOk result)
            (IsErrOf result PortFault.Failed) self.old self.new }
    {
        self.desk.is_covered();
        let refusal = decide_new(&mut self.desk, order);
        let stamp = self.tell_answer(&order.head, refusal);
        match refusal {
            None => forward(&mut self.venue, &mut self.writer, sound, &stamp),
            Some(why) => {
                let text = text_of(why);
                write_reject_order(
                    &mut self.writer,
                    sound.bytes(),
                    sound.frame(),
                    order,
                    &stamp,
                    order_reason_of(why),
                    text.bytes(),
                );
                give_written(&mut self.client, &mut self.writer)
            }
        }
    }

    /// Takes a cancel (F): sent, it goes on to the venue; refused, the client is told so.
    fn take_cancel(&mut self, sound: &SoundFrame<'_>, cancel: &Cancel<'_>) -> Result<(), PortFault>
        requires read { ReadsAs sound.now (Message.Cancel cancel.now) }
        requires ready { IsReady self.old }
        ensures continues { Continues H.SameOrigin M.SameOrigin self.old self.new frame_acts }
        ensures taken { TakesFront K.meaning sound.now (IsOk result)
            (IsErrOf result PortFault.Failed) self.old self.new }
    {
        let refusal = decide_cancel(&mut self.desk, cancel);
        let stamp = self.tell_answer(&cancel.head, refusal);
        match refusal {
            None => forward(&mut self.venue, &mut self.writer, sound, &stamp),
            Some(why) => {
                let text = text_of(why);
                write_reject_cancel(
                    &mut self.writer,
                    &cancel.id,
                    &cancel.orig,
                    &stamp,
                    TO_CANCEL,
                    request_reason_of(why),
                    text.bytes(),
                );
                give_written(&mut self.client, &mut self.writer)
            }
        }
    }

    /// Takes a replace (G): sent, it goes on to the venue; refused, the client is told so.
    fn take_replace(
        &mut self,
        sound: &SoundFrame<'_>,
        replace: &Replace<'_>,
    ) -> Result<(), PortFault>
        requires read { ReadsAs sound.now (Message.Replace replace.now) }
        requires ready { IsReady self.old }
        ensures continues { Continues H.SameOrigin M.SameOrigin self.old self.new frame_acts }
        ensures taken { TakesFront K.meaning sound.now (IsOk result)
            (IsErrOf result PortFault.Failed) self.old self.new }
    {
        self.desk.is_covered();
        let refusal = decide_replace(&mut self.desk, replace);
        let stamp = self.tell_answer(&replace.head, refusal);
        match refusal {
            None => forward(&mut self.venue, &mut self.writer, sound, &stamp),
            Some(why) => {
                let text = text_of(why);
                write_reject_cancel(
                    &mut self.writer,
                    &replace.id,
                    &replace.orig,
                    &stamp,
                    TO_REPLACE,
                    request_reason_of(why),
                    text.bytes(),
                );
                give_written(&mut self.client, &mut self.writer)
            }
        }
    }

    /// Takes an execution report (8): it is applied, and goes on to the client.
    fn take_report(&mut self, sound: &SoundFrame<'_>, report: &Report<'_>) -> Result<(), PortFault>
        requires read { ReadsAs sound.now (Message.Report report.now) }
        requires ready { IsReady self.old }
        ensures continues { Continues H.SameOrigin M.SameOrigin self.old self.new frame_acts }
        ensures taken { TakesFront K.meaning sound.now (IsOk result)
            (IsErrOf result PortFault.Failed) self.old self.new }
    {
        let effect = settle(&mut self.desk, &Reply::Report(report));
        let stamp = self.tell_effect(&report.head, effect);
        forward(&mut self.client, &mut self.writer, sound, &stamp)
    }

    /// Takes a cancel reject (9): it is applied, and goes on to the client.
    fn take_cancel_reject(
        &mut self,
        sound: &SoundFrame<'_>,
        reject: &CancelReject<'_>,
    ) -> Result<(), PortFault>
        requires read { ReadsAs sound.now (Message.CancelReject reject.now) }
        requires ready { IsReady self.old }
        ensures continues { Continues H.SameOrigin M.SameOrigin self.old self.new frame_acts }
        ensures taken { TakesFront K.meaning sound.now (IsOk result)
            (IsErrOf result PortFault.Failed) self.old self.new }
    {
        let effect = settle(&mut self.desk, &Reply::Reject(reject));
        let stamp = self.tell_effect(&reject.head, effect);
        forward(&mut self.client, &mut self.writer, sound, &stamp)
    }

    /// Takes a sound frame that was taken up.
    pub(crate) fn take_sound(&mut self, sound: &SoundFrame<'_>) -> Result<(), PortFault>
        requires ready { IsReady self.old }
        ensures continues { Continues H.SameOrigin M.SameOrigin self.old self.new frame_acts }
        ensures taken { TakesFront K.meaning sound.now (IsOk result)
            (IsErrOf result PortFault.Failed) self.old self.new }
    {
        match read_message(sound.bytes(), sound.frame()) {
            Err(fault) => self.take_faulty(sound, &fault),
            Ok(Message::New(order)) => self.take_new(sound, &order),
            Ok(Message::Cancel(cancel)) => self.take_cancel(sound, &cancel),
            Ok(Message::Replace(replace)) => self.take_replace(sound, &replace),
            Ok(Message::Report(report)) => self.take_report(sound, &report),
            Ok(Message::CancelReject(reject)) => self.take_cancel_reject(sound, &reject),
            Ok(Message::Admin) => {
                self.counts.frames += 1;
                Ok(())
            }
            Ok(Message::Other) => {
                self.note_frame(Note::OtherType);
                Ok(())
            }
        }
    }
}
