//! Taking a frame: it is read, and what it says is asked about, or applied to the resting orders.
ghost use Rattle.std.specs.Prelude.{◌≡◌, ◌*◌, ◌<◌, ◌≤◌, length, IsOk, IsErrOf, IfSome, IfNone};
ghost use Rattle.std.specs.Prelude.{slice_get, Some, None};
ghost use Rattle.fix_orders.specs.declared.message.Message.TheVariants as Message;
ghost use Rattle.limit_table.specs.Trees.{LimitsValue};
ghost use Rattle.cross_guard.specs.Crossing.{Continues, IsReady, ReadsAs, TakesOrNone, TakesSound};
ghost use Rattle.cross_guard.specs.Crossing.{frame_acts};
ghost use Rattle.cross_guard.specs.Halves.{cross_cap};
ghost use Rattle.cross_guard.specs.Levels.{value_of_order};
ghost use Rattle.cross_guard.specs.Answering.{settled_by};
ghost use Rattle.cross_guard.specs.Session.{symbol_place};
ghost use Rattle.cross_guard.specs.Told.{IsAfter, cross_trees};

use crate::giving::{frame_text, sound_text};
use crate::guarding::CrossVerdict;
use crate::level::cross_value;
use crate::orders::{Added, RestingOrders};
use crate::session::CrossSession;
use crate::told::ToldHand;
use fix_fields::{Frame, IdText};
use fix_orders::{
    Cancel, CancelReject, Message, NewOrder, OrderKind, Replace, Report, read_message,
};
use frame_run::{SoundFrame, TakesFrames};
use gate_ports::{PortFault, Sink};
use limit_table::Limits;
use risk_board::Hand;

/// The place of the symbol of this name among the symbols, from 0, which is the number of its tree.
fn tree_of(limits: &Limits, symbol: &IdText<'_>) -> Option<u32>
    ensures place { result ≡ symbol_place symbol.now limits.now }
    ensures tree { IfSome result (λ tree. tree < length limits.now.symbols) }
{
    limits.stand_in_a_file();
    limits.symbol(symbol)
}

/// The value of an order of the symbol at this place.
fn value_at(limits: &Limits, tree: u32, side: u8, kind: OrderKind, price: u64) -> u64
    requires { tree < length limits.now.symbols }
    ensures value { IfSome (slice_get limits.now.symbols tree)
        (λ row. result ≡ value_of_order row side kind price) }
    ensures capped { result ≤ cross_cap }
{
    limits.stand_in_a_file();
    cross_value(&limits.symbols()[tree as usize], side, &kind, price)
}

/// Posts what the orders rest as in a symbol, if one is named, where that differs from the last post and a
/// post is left.
fn settle<H: Hand>(told: &mut ToldHand<H>, orders: &RestingOrders, tree: Option<u32>)
    requires tree { IfSome tree (λ tree. tree < told.old.trees) }
    requires room { 1 ≤ told.old.room }
    ensures after { IsAfter H.SameOrigin told.old told.new 1 }
    ensures acts { (limits : LimitsValue) → limits.quota ≡ told.old.quota
        → told.new.acts ≡ settled_by limits tree orders.now told.old.acts }
{
    let Some(tree) = tree else { return };
    let value = orders.value_in(tree);
    if value == told.last(tree) || told.left(tree) == 0 {
        return;
    }
    told.post(tree, value);
}

impl<'a, H: Hand, P: Sink, C: Sink> CrossSession<'a, H, P, C> {
    /// Takes an order (D). It is kept before it is asked about, so that no memory is wanting behind its
    /// post; refused, it is dropped again, and the client is told so.
    fn take_new(&mut self, sound: &SoundFrame<'_>, order: &NewOrder<'_>) -> Result<(), PortFault>
        requires read { ReadsAs sound.now (Message.New order.now) }
        requires ready { IsReady self.old }
        ensures continues { Continues H.SameOrigin self.old self.new frame_acts }
        ensures taken { TakesOrNone (TakesSound self.old.limits sound.now) (IsOk result)
            (IsErrOf result PortFault.Failed) result self.old self.new }
    {
        let text = sound_text(sound);
        let Some(tree) = tree_of(self.limits, &order.symbol) else {
            return self.pass_on(text);
        };
        let value = value_at(self.limits, tree, order.side, order.kind, order.price);
        if self.orders.add(self.alloc, tree, order, value).is_err() {
            return Err(PortFault::Memory);
        }
        match self.told.ask(tree, value) {
            CrossVerdict::Sent => self.send(text),
            why => {
                self.orders.take_back(Added::Order);
                self.refuse_order(sound, order, why)
            }
        }
    }

    /// Takes a replace (G), as an order.
    fn take_replace(
        &mut self,
        sound: &SoundFrame<'_>,
        replace: &Replace<'_>,
    ) -> Result<(), PortFault>
        requires read { ReadsAs sound.now (Message.Replace replace.now) }
        requires ready { IsReady self.old }
        ensures continues { Continues H.SameOrigin self.old self.new frame_acts }
        ensures taken { TakesOrNone (TakesSound self.old.limits sound.now) (IsOk result)
            (IsErrOf result PortFault.Failed) result self.old self.new }
    {
        let text = sound_text(sound);
        let Some(tree) = tree_of(self.limits, &replace.symbol) else {
            return self.pass_on(text);
        };
        let value = value_at(self.limits, tree, replace.side, replace.kind, replace.price);
        let Ok(added) = self.orders.replace(self.alloc, tree, replace, value) else {
            return Err(PortFault::Memory);
        };
        match self.told.ask(tree, value) {
            CrossVerdict::Sent => self.send(text),
            why => {
                self.orders.take_back(added);
                self.refuse_replace(sound, replace, why)
            }
        }
    }

    /// Takes a cancel (F), which is passed on.
    fn take_cancel(&mut self, sound: &SoundFrame<'_>, cancel: &Cancel<'_>) -> Result<(), PortFault>
        requires read { ReadsAs sound.now (Message.Cancel cancel.now) }
        requires ready { IsReady self.old }
        ensures continues { Continues H.SameOrigin self.old self.new frame_acts }
        ensures taken { TakesOrNone (TakesSound self.old.limits sound.now) (IsOk result)
            (IsErrOf result PortFault.Failed) result self.old self.new }
    {
        if self.orders.cancel(cancel).is_err() {
            return Err(PortFault::Memory);
        }
        self.pass_on(sound_text(sound))
    }

    /// Takes an execution report (8): it is applied, what rests is posted where that is less, and it is
    /// passed on.
    fn take_report(&mut self, sound: &SoundFrame<'_>, report: &Report<'_>) -> Result<(), PortFault>
        requires read { ReadsAs sound.now (Message.Report report.now) }
        requires ready { IsReady self.old }
        ensures continues { Continues H.SameOrigin self.old self.new frame_acts }
        ensures taken { TakesOrNone (TakesSound self.old.limits sound.now) (IsOk result)
            (IsErrOf result PortFault.Failed) result self.old self.new }
    {
        let text = sound_text(sound);
        let Some(id) = &report.id else {
            return self.pass_on(text);
        };
        let tree = self.orders.report(id, report.exec);
        settle(&mut self.told, &self.orders, tree);
        self.pass_on(text)
    }

    /// Takes a cancel reject (9), as a report.
    fn take_cancel_reject(
        &mut self,
        sound: &SoundFrame<'_>,
        reject: &CancelReject<'_>,
    ) -> Result<(), PortFault>
        requires read { ReadsAs sound.now (Message.CancelReject reject.now) }
        requires ready { IsReady self.old }
        ensures continues { Continues H.SameOrigin self.old self.new frame_acts }
        ensures taken { TakesOrNone (TakesSound self.old.limits sound.now) (IsOk result)
            (IsErrOf result PortFault.Failed) result self.old self.new }
    {
        let tree = self.orders.reject(&reject.id);
        settle(&mut self.told, &self.orders, tree);
        self.pass_on(sound_text(sound))
    }

    /// Takes a sound frame.
    fn take_sound(&mut self, sound: &SoundFrame<'_>) -> Result<(), PortFault>
        requires ready { IsReady self.old }
        ensures continues { Continues H.SameOrigin self.old self.new frame_acts }
        ensures taken { TakesOrNone (TakesSound self.old.limits sound.now) (IsOk result)
            (IsErrOf result PortFault.Failed) result self.old self.new }
    {
        let text = sound_text(sound);
        match read_message(sound.bytes(), sound.frame()) {
            Ok(Message::New(order)) => self.take_new(sound, &order),
            Ok(Message::Cancel(cancel)) => self.take_cancel(sound, &cancel),
            Ok(Message::Replace(replace)) => self.take_replace(sound, &replace),
            Ok(Message::Report(report)) => self.take_report(sound, &report),
            Ok(Message::CancelReject(reject)) => self.take_cancel_reject(sound, &reject),
            Ok(Message::Admin) => self.pass_on(text),
            Ok(Message::Other) => self.pass_on(text),
            Err(_) => self.pass_on(text),
        }
    }
}

impl<'a, H: Hand, P: Sink, C: Sink> TakesFrames for CrossSession<'a, H, P, C> {
    ghost use Rattle.cross_guard.specs.Crossing.{Continues, TookFrames, StoppedFrames, frame_acts};
    ghost use Rattle.cross_guard.specs.Lasting.{continues_same, continues_next};
    ghost use Rattle.cross_guard.specs.Lasting.{stopped_whole};

    ghost Took = { λ input. TookFrames input };

    ghost Stopped = { λ why. StoppedFrames why };

    ghost IsAfter = { λ before now frames. Continues H.SameOrigin before now (frame_acts * frames) };

    fn take_frame(&mut self, bytes: &[u8], frame: &Frame) -> Result<(), PortFault> {
        self.reserve()?;
        let Some(sound) = SoundFrame::of(bytes, frame) else {
            return self.pass_on(frame_text(bytes, frame));
        };
        self.take_sound(&sound)
    }

    ghost after_none = { λ a. continues_same H.SameOrigin H.origin_same a 0 };

    ghost after_next = { λ a b c one two. continues_next H.SameOrigin H.origin_next a b c one two };

    ghost stopped_whole = { λ input. stopped_whole input };
}
