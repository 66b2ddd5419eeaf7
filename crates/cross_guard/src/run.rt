//! A session from its first frame to its end.
ghost use Rattle.std.specs.Prelude.{◌≡◌, ◌^◌, ◌<◌, [], ◌∷◌, ◌++◌, length, vec_capacity};
ghost use Rattle.cross_guard.specs.Ended.{EndsAs, IsSourceDone};
ghost use Rattle.frame_run.specs.Sinks.{sink_of};
ghost use Rattle.risk_journal.specs.ActLists.{calls_of};
ghost use Rattle.cross_guard.specs.Follows.{Follows};
ghost use Rattle.cross_guard.specs.Lasting.{AreSinksDone};
ghost use Rattle.cross_guard.specs.Told.{IsCrossHand, Placing, with_places};

use crate::orders::RestingOrders;
use crate::session::CrossSession;
use crate::told::{ToldEnd, ToldHand};
use fix_fields::Writer;
use frame_run::take_input;
use gate_ports::{Sink, Source};
use limit_table::Limits;
use risk_board::Hand;
use risk_journal::{Act, End};
use std::alloc::Global;

/// A session that has ended.
#[derive(Drop)]
pub struct CrossDone<H: Hand, S: Source, P: Sink, C: Sink> {
    pub hand: H,
    pub acts: Vec<Act>,
    pub end: End,
    pub source: S,
    pub pass: P,
    pub client: C,
}

impl<'a, H: Hand, P: Sink, C: Sink> CrossSession<'a, H, P, C> {
    /// A session before its first frame.
    fn open(
        alloc: Global,
        limits: &'a Limits,
        told: ToldHand<H>,
        pass: P,
        client: C,
    ) -> CrossSession<'a, H, P, C>
        ensures { result ≡ record {
          limits = limits.now;
          told = told;
          orders = [];
          frames = 0;
          refused = 0;
          pass = sink_of P.held P.faults P.name pass;
          client = sink_of C.held C.faults C.name client;
        } }
    {
        CrossSession {
            alloc,
            limits,
            told,
            orders: RestingOrders::new(alloc),
            writer: Writer::new(),
            frames: 0,
            refused: 0,
            pass,
            client,
        }
    }

    /// The session at its end, with the act that says so.
    fn close<S: Source>(self, end: End, source: S) -> CrossDone<H, S, P, C>
        ensures acts { result.acts.items ≡ self.entry.told.acts ++ Act.Ended end ∷ [] }
        ensures end { result.end ≡ end }
        ensures hand { result.hand ≡ self.entry.told.hand }
        ensures calls { (H.meaning result.hand).calls ≡ calls_of result.acts.items }
        ensures pass { sink_of P.held P.faults P.name result.pass ≡ self.entry.pass }
        ensures client { sink_of C.held C.faults C.name result.client ≡ self.entry.client }
        ensures source { result.source ≡ source }
    {
        let ended = self.told.end(end);
        CrossDone {
            hand: ended.hand,
            acts: ended.acts,
            end,
            source,
            pass: self.pass,
            client: self.client,
        }
    }
}

/// A session that had no memory to begin with.
fn without_frames<H: Hand, S: Source, P: Sink, C: Sink>(
    ended: ToldEnd<H>,
    source: S,
    pass: P,
    client: C,
) -> CrossDone<H, S, P, C>
    ensures { result ≡ record {
      hand = ended.hand;
      acts = ended.acts;
      end = End.Memory;
      source = source;
      pass = pass;
      client = client;
    } }
{
    CrossDone {
        hand: ended.hand,
        acts: ended.acts,
        end: End::Memory,
        source,
        pass,
        client,
    }
}

/// Filters a session, whose number counts from 0, up to its end, over at most 33,554,432 bytes of its
/// source. Each order and replace of a known symbol is put to the guard of the symbol's tree: sent, its
/// frame is passed on as it is, and refused, the client is told so. All other frames are passed on, and
/// reports post what the session's orders rest as where that is less. Places of reads aren't known here and
/// told as 0; with whatever places, the acts are the session function's.
pub fn run_cross<H: Hand, S: Source, P: Sink, C: Sink>(
    alloc: Global,
    _session: u32,
    limits: &Limits,
    hand: H,
    mut source: S,
    pass: P,
    client: C,
) -> CrossDone<H, S, P, C>
    requires hand { IsCrossHand limits.now (H.meaning hand) }
    requires idle { (H.meaning hand).calls ≡ [] }
    ensures origin { H.SameOrigin hand result.hand }
    ensures calls { (H.meaning result.hand).calls ≡ calls_of result.acts.items }
    ensures follows { (place : Placing) → Follows limits.now (S.left source) (S.left result.source)
        (with_places place result.acts.items) result.end
        (sink_of P.held P.faults P.name pass) (sink_of P.held P.faults P.name result.pass)
        (sink_of C.held C.faults C.name client) (sink_of C.held C.faults C.name result.client) }
    ensures source { IsSourceDone S.left S.faults S.name S.is_ended source result.source result.end }
    ensures sinks { AreSinksDone (sink_of P.held P.faults P.name pass)
        (sink_of P.held P.faults P.name result.pass) (sink_of C.held C.faults C.name client)
        (sink_of C.held C.faults C.name result.client) result.end }
    ensures ends { EndsAs result.acts.items result.end }
    ensures no_room { result.acts.items ≡ [] → vec_capacity result.acts ≡ 0 }
    ensures few { length result.acts.items < 2 ^ 32 }
{
    let told = match ToldHand::open(alloc, limits, hand) {
        Ok(told) => told,
        Err(ended) => return without_frames(ended, source, pass, client),
    };
    let mut session = CrossSession::open(alloc, limits, told, pass, client);
    let end = take_input(alloc, &mut session, &mut source);
    session.close(end, source)
}
