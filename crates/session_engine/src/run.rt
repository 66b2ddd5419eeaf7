//! A session from its first frame to its end.
ghost use Rattle.std.specs.Prelude.{◌≡◌, [], ◌∷◌, ◌++◌, map, vec_capacity};
ghost use Rattle.frame_run.specs.Sinks.{sink_of};
ghost use Rattle.limit_table.specs.Trees.{halt_tree};
ghost use Rattle.risk_journal.specs.ActLists.{calls_below, calls_at};
ghost use Rattle.admit_core.specs.Hands.{IsFresh};
ghost use Rattle.order_desk.specs.Values.{first_book};
ghost use Rattle.session_engine.specs.Counted.{no_counts};
ghost use Rattle.session_engine.specs.Done.{AreIdleHands, IsBeginning};
ghost use Rattle.session_engine.specs.Done.{AreHandsDone, IsSourceDone, RanOver};
ghost use Rattle.session_engine.specs.Follows.{EndsWith};
ghost use Rattle.session_engine.specs.Session.{armed_for, unnamed_client};

use crate::counts::Counts;
use crate::order_gate::{AtGate, NumberedGate};
use crate::session::Session;
use admit_core::Ended;
use exposure_book::Book;
use fix_fields::{Id, Writer};
use frame_run::take_input;
use gate_ports::{Gate, Sink, Source};
use limit_table::Limits;
use order_desk::Desk;
use risk_board::Hand;
use risk_journal::{Act, End};
use screen_kit::{Screen, Terms, arm_all};
use std::alloc::Global;

/// The hands of a session: one on the trees of sums, and one on the halt tree, which is its tree 0.
#[derive(Drop)]
pub struct Hands<H: Hand, M: Hand> {
    pub sum: H,
    pub halt: M,
}

/// A session that has ended.
#[derive(Drop)]
pub struct SessionDone<H: Hand, M: Hand, S, V, C> {
    pub hands: Hands<H, M>,
    pub acts: Vec<Act>,
    pub end: End,
    pub source: S,
    pub venue: V,
    pub client: C,
}

/// What a session begins with, beside its screens and its source.
#[derive(Drop)]
struct Start<'a, H: Hand, M: Hand, V: Sink, C: Sink> {
    alloc: Global,
    limits: &'a Limits,
    hands: admit_core::Hands<H, M>,
    book: Book,
    venue: V,
    client: C,
}

/// TargetCompID (56) of the messages to the client before any request names it.
fn unnamed_client() -> Id
    ensures { result ≡ unnamed_client }
{
    match Id::read(b"CLIENT") {
        Ok(id) => id,
        Err(_) => unreachable!(),
    }
}

impl<'a, H: Hand, M: Hand, K: Screen, V: Sink, C: Sink> Session<'a, H, M, K, V, C> {
    /// A session before its first frame.
    fn open(start: Start<'a, H, M, V, C>, screens: Vec<K>) -> Session<'a, H, M, K, V, C>
        requires fresh { IsFresh start.limits.now start.hands.sum start.hands.halt start.hands }
        requires book { start.book.value ≡ first_book start.limits.now }
        ensures { result ≡ record {
          desk = record {
            limits = start.entry.limits.now;
            hands = start.entry.hands;
            book = start.entry.book;
            screens = screens.items;
          };
          counts = no_counts;
          client_id = unnamed_client;
          venue = sink_of V.held V.faults V.name start.entry.venue;
          client = sink_of C.held C.faults C.name start.entry.client;
        } }
    {
        Session {
            desk: Desk::open(start.limits, start.hands, start.book, screens),
            counts: Counts::zero(),
            writer: Writer::new(),
            client_id: unnamed_client(),
            venue: start.venue,
            client: start.client,
        }
    }

    /// The session at its end, with the act that says so.
    fn close<S: Source>(self, end: End, source: S) -> SessionDone<H, M, S, V, C>
        ensures acts { result.acts.items ≡ self.entry.desk.hands.acts ++ Act.Ended end ∷ [] }
        ensures end { result.end ≡ end }
        ensures sum { result.hands.sum ≡ self.entry.desk.hands.sum }
        ensures halt { result.hands.halt ≡ self.entry.desk.hands.halt }
        ensures sum_calls { (H.meaning result.hands.sum).calls
            ≡ calls_below (halt_tree self.entry.desk.limits) result.acts.items }
        ensures halt_calls { (M.meaning result.hands.halt).calls
            ≡ calls_at (halt_tree self.entry.desk.limits) result.acts.items }
        ensures venue { sink_of V.held V.faults V.name result.venue ≡ self.entry.venue }
        ensures client { sink_of C.held C.faults C.name result.client ≡ self.entry.client }
        ensures source { result.source ≡ source }
    {
        self.desk.is_covered();
        let ended = self.desk.end(end);
        SessionDone {
            hands: Hands {
                sum: ended.sum,
                halt: ended.halt,
            },
            acts: ended.acts,
            end,
            source,
            venue: self.venue,
            client: self.client,
        }
    }
}

/// Arms the screens, takes the frames of the source, and ends. Its head is long because it says all that
/// `run_session` does.
fn run_start<'a, H: Hand, M: Hand, K: Screen, S: Source, V: Sink, C: Sink, G: Gate>(
    start: Start<'a, H, M, V, C>,
    mut screens: Vec<K>,
    mut source: S,
    gate: NumberedGate<'a, G>,
) -> SessionDone<H, M, S, V, C>
    requires { IsBeginning start.limits.now start.hands start.book.value }
    ensures hands { AreHandsDone start.entry.limits.now H.SameOrigin H.meaning M.SameOrigin M.meaning
        start.entry.hands.sum result.hands.sum start.entry.hands.halt result.hands.halt
        result.acts.items }
    ensures follows { RanOver S.left V.held V.faults V.name C.held C.faults C.name
        start.entry.limits.now (armed_for start.entry.limits.now (map K.meaning screens.items)) source
        result.source start.entry.venue result.venue start.entry.client result.client
        result.acts.items result.end }
    ensures source { IsSourceDone S.left S.faults S.name S.is_ended source result.source result.end }
    ensures ends { EndsWith result.acts.items result.end }
{
    let alloc = start.alloc;
    let terms = Terms {
        repeat: start.limits.repeat(),
    };
    if arm_all(&mut screens, &terms).is_err() {
        return Session::open(start, screens).close(End::Memory, source);
    }
    let mut session = AtGate {
        gate,
        session: Session::open(start, screens),
    };
    let end = take_input(alloc, &mut session, &mut source);
    session.session.close(end, source)
}

/// A session that had no memory to begin with.
fn without_frames<H: Hand, M: Hand, S: Source, V: Sink, C: Sink>(
    ended: Ended<H, M>,
    source: S,
    venue: V,
    client: C,
) -> SessionDone<H, M, S, V, C>
    ensures { result ≡ record {
      hands = record { sum = ended.sum; halt = ended.halt };
      acts = ended.acts;
      end = End.Memory;
      source = source;
      venue = venue;
      client = client;
    } }
{
    SessionDone {
        hands: Hands {
            sum: ended.sum,
            halt: ended.halt,
        },
        acts: ended.acts,
        end: End::Memory,
        source,
        venue,
        client,
    }
}

/// Runs a session, whose number counts from 0, up to its end, over at most so many bytes of its
/// source. The screens are armed before the first frame, which ends it with `Memory` where it is
/// refused, and dropped at the end. Before each order, a sound frame of type D or G, the gate is
/// called with the session's number and the order's, from 0. Its parameters are many because each is
/// lent or given by another part of the caller, and its head is long because each stands on a line.
pub fn run_session<H: Hand, M: Hand, S: Source, V: Sink, C: Sink, G: Gate>(
    alloc: Global,
    session: u32,
    limits: &Limits,
    hands: Hands<H, M>,
    screens: Vec<Box<dyn Screen + Send>>,
    source: S,
    venue: V,
    client: C,
    gate: &G,
) -> SessionDone<H, M, S, V, C>
    requires { AreIdleHands limits.now (H.meaning hands.sum) (M.meaning hands.halt) }
    ensures hands { AreHandsDone limits.now H.SameOrigin H.meaning M.SameOrigin M.meaning
        hands.sum result.hands.sum hands.halt result.hands.halt result.acts.items }
    ensures follows { RanOver S.left V.held V.faults V.name C.held C.faults C.name limits.now
        (armed_for limits.now (map (λ b. (Screen-box b).meaning b.value) screens.items)) source
        result.source venue result.venue client result.client result.acts.items result.end }
    ensures source { IsSourceDone S.left S.faults S.name S.is_ended source result.source result.end }
    ensures no_room { result.acts.items ≡ [] → vec_capacity result.acts ≡ 0 }
{
    let own = match admit_core::Hands::open(alloc, limits, hands.sum, hands.halt) {
        Ok(own) => own,
        Err(ended) => return without_frames(ended, source, venue, client),
    };
    let book = match Book::new(alloc, limits) {
        Ok(book) => book,
        Err(_) => return without_frames(own.end(End::Memory), source, venue, client),
    };
    let start = Start {
        alloc,
        limits,
        hands: own,
        book,
        venue,
        client,
    };
    let numbered = NumberedGate {
        number: session,
        gate,
    };
    run_start(start, screens, source, numbered)
}
