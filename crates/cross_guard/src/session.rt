//! A session as one value: its hand, its resting orders, what is counted, and where its messages go.
ghost use Rattle.std.specs.Prelude.{◌≡◌, ◌+◌, ◌≤◌, ◌<◌, IfErr, IsOk, IsErrOf};
ghost use Rattle.fix_orders.specs.Put.{IsShort, seq_most};
ghost use Rattle.fix_orders.specs.declared.message.Message.TheVariants as Message;
ghost use Rattle.gate_ports.specs.declared.ports.PortFault.TheVariants as PortFault;
ghost use Rattle.cross_guard.specs.Crossing.{Continues, ReadsAs, frame_acts, kept_of};
ghost use Rattle.cross_guard.specs.Answering.{CanRefuse, PassesOn, Refuses, Sends, TellsRefusal};
ghost use Rattle.cross_guard.specs.Answering.{stamp_to};
ghost use Rattle.cross_guard.specs.Session.{code_of, order_refusal, replace_refusal, text_of};

use crate::giving::give_written;
use crate::guarding::CrossVerdict;
use crate::orders::RestingOrders;
use crate::told::ToldHand;
use fix_fields::Writer;
use fix_orders::{Head, NewOrder, Replace, Stamp, write_reject_cancel, write_reject_order};
use frame_run::SoundFrame;
use gate_ports::{PortFault, Sink, give_all};
use limit_table::Limits;
use risk_board::Hand;
use risk_journal::Act;
use std::alloc::Global;
use std::marker::Model;

/// The most acts of a frame: a post, a read and a post back of a guard, and the answer.
const FRAME_ACTS: u32 = 4;

/// OrdRejReason (103) of an order that is refused: a broker's or exchange's option.
const REASON: u8 = 0;

/// CxlRejReason (102) of a replace that is refused: a broker's or exchange's option.
const REPLACE_REASON: u8 = 2;

/// CxlRejResponseTo (434) of a replace (G) that is refused.
const TO_REPLACE: u8 = 2;

/// A session as it runs.
#[derive(Drop)]
pub(crate) struct CrossSession<'a, H: Hand, P: Sink, C: Sink> {
    pub(crate) alloc: Global,
    pub(crate) limits: &'a Limits,
    pub(crate) told: ToldHand<H>,
    pub(crate) orders: RestingOrders,
    /// Where messages are written, one after another.
    pub(crate) writer: Writer,
    pub(crate) frames: u32,
    /// How many frames were refused, and so how many messages went to the client.
    pub(crate) refused: u32,
    pub(crate) pass: P,
    pub(crate) client: C,
}

impl<'a, H: Hand, P: Sink, C: Sink> Model for CrossSession<'a, H, P, C> {
    ghost use Rattle.cross_guard.specs.Crossing.{Crossing};

    ghost Value = { Crossing H };

    ghost view = { λ a. record {
      limits = a.limits.now;
      told = a.told;
      orders = a.orders;
      frames = a.frames;
      refused = a.refused;
      pass = record { held = P.held a.pass; faults = P.faults a.pass; name = P.name a.pass };
      client = record { held = C.held a.client; faults = C.faults a.client; name = C.name a.client };
    } };
}

/// The number of a refusal in the journal.
fn code_of(why: CrossVerdict) -> u8
    ensures { result ≡ code_of why }
{
    match why {
        CrossVerdict::Sent => 0,
        CrossVerdict::Cross => 17,
        CrossVerdict::Quota => 5,
    }
}

/// Text (58) of a refusal.
fn text_of(why: CrossVerdict) -> &'static [u8]
    ensures text { result.now ≡ text_of why }
    ensures short { IsShort result.now }
{
    match why {
        CrossVerdict::Sent => b"",
        CrossVerdict::Cross => b"CROSS",
        CrossVerdict::Quota => b"QUOTA",
    }
}

impl<'a, H: Hand, P: Sink, C: Sink> CrossSession<'a, H, P, C> {
    /// Takes room for what a frame does.
    pub(crate) fn reserve(&mut self) -> Result<(), PortFault>
        ensures continues { Continues H.SameOrigin self.old self.new 0 }
        ensures kept { kept_of self.new ≡ kept_of self.old }
        ensures room { IsOk result → frame_acts ≤ self.new.told.room }
        ensures refused { IfErr result (λ why. why ≡ PortFault.Memory) }
    {
        match self.told.reserve(FRAME_ACTS) {
            Ok(()) => Ok(()),
            Err(_) => Err(PortFault::Memory),
        }
    }

    /// Counts a frame and passes its bytes on. Refused, a front of them was given.
    pub(crate) fn pass_on(&mut self, text: &[u8]) -> Result<(), PortFault>
        requires { self.old.frames < seq_most }
        ensures continues { Continues H.SameOrigin self.old self.new 0 }
        ensures passes { PassesOn text.now (IsOk result) (IsErrOf result PortFault.Failed)
            self.old self.new }
    {
        self.frames += 1;
        give_all(&mut self.pass, text)
    }

    /// Tells that an order or a replace goes on, and passes its frame on.
    pub(crate) fn send(&mut self, text: &[u8]) -> Result<(), PortFault>
        requires frames { self.old.frames < seq_most }
        requires room { 1 ≤ self.old.told.room }
        ensures continues { Continues H.SameOrigin self.old self.new 1 }
        ensures sends { Sends text.now (IsOk result) (IsErrOf result PortFault.Failed)
            self.old self.new }
    {
        self.told.tell(Act::Sent { frame: self.frames });
        self.pass_on(text)
    }

    /// Tells that a message with this head is refused, counts it, and gives the stamp of its answer.
    fn tell_refusal(&mut self, head: &Head<'_>, why: CrossVerdict) -> Stamp
        requires frames { self.old.frames < seq_most }
        requires refused { self.old.refused < seq_most }
        requires room { 1 ≤ self.old.told.room }
        ensures continues { Continues H.SameOrigin self.old self.new 1 }
        ensures tells { TellsRefusal why self.old self.new }
        ensures stamp { result ≡ stamp_to head.now (self.old.refused + 1) }
    {
        self.told.tell(Act::Refused {
            frame: self.frames,
            code: code_of(why),
            first: 0,
            second: 0,
        });
        self.frames += 1;
        self.refused += 1;
        Stamp {
            target: head.sender.owned(),
            seq: self.refused,
            time: head.time.owned(),
        }
    }

    /// Refuses an order: that is told, and the client gets a report of it.
    pub(crate) fn refuse_order(
        &mut self,
        sound: &SoundFrame<'_>,
        order: &NewOrder<'_>,
        why: CrossVerdict,
    ) -> Result<(), PortFault>
        requires read { ReadsAs sound.now (Message.New order.now) }
        requires can { CanRefuse self.old }
        ensures continues { Continues H.SameOrigin self.old self.new 1 }
        ensures refuses { Refuses order_refusal sound.now why (IsOk result)
            (IsErrOf result PortFault.Failed) self.old self.new }
    {
        let stamp = self.tell_refusal(&order.head, why);
        write_reject_order(
            &mut self.writer,
            sound.bytes(),
            sound.frame(),
            order,
            &stamp,
            REASON,
            text_of(why),
        );
        give_written(&mut self.client, &mut self.writer)
    }

    /// Refuses a replace: that is told, and the client gets a reject of it.
    pub(crate) fn refuse_replace(
        &mut self,
        sound: &SoundFrame<'_>,
        replace: &Replace<'_>,
        why: CrossVerdict,
    ) -> Result<(), PortFault>
        requires read { ReadsAs sound.now (Message.Replace replace.now) }
        requires can { CanRefuse self.old }
        ensures continues { Continues H.SameOrigin self.old self.new 1 }
        ensures refuses { Refuses replace_refusal sound.now why (IsOk result)
            (IsErrOf result PortFault.Failed) self.old self.new }
    {
        let stamp = self.tell_refusal(&replace.head, why);
        write_reject_cancel(
            &mut self.writer,
            &replace.id,
            &replace.orig,
            &stamp,
            TO_REPLACE,
            REPLACE_REASON,
            text_of(why),
        );
        give_written(&mut self.client, &mut self.writer)
    }
}
