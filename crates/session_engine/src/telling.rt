//! What is told of a request and of a report, and how their messages are counted.
ghost use Rattle.std.specs.Prelude.{◌≡◌, ◌+◌, ◌≤◌, ◌++◌};
ghost use Rattle.session_engine.specs.Answers.{stamp_of};
ghost use Rattle.session_engine.specs.Running.{Continues, TellsAnswer};
ghost use Rattle.session_engine.specs.Taken.{HasSmallCounts, CountsTrips, counts_decided};
ghost use Rattle.session_engine.specs.Taken.{answer_act, answer_stamp, note_by, note_acts};
ghost use Rattle.session_engine.specs.Taken.{counted_client};
ghost use Rattle.session_engine.specs.Trips.{is_firm, is_trip_number, acts_tripped};

use crate::answer::venue_id;
use crate::codes::{code_of, screen_code_of};
use crate::note::Note;
use crate::session::Session;
use fix_orders::{Head, Stamp};
use gate_ports::Sink;
use order_desk::{Effect, Refusal};
use risk_board::Hand;
use risk_journal::Act;
use screen_kit::Screen;

/// Whether a request is refused as Firm.
fn is_firm(refusal: Option<Refusal>) -> bool
    ensures { result ≡ is_firm refusal }
{
    match refusal {
        Some(Refusal::Firm) => true,
        _ => false,
    }
}

/// Whether there is a trip number, and it is this.
fn is_trip_number(trip: Option<u32>, firms: u32) -> bool
    ensures { result ≡ is_trip_number trip firms }
{
    match trip {
        None => false,
        Some(number) => firms == number,
    }
}

/// The act that tells what was decided on the request of a frame.
fn answer_of(frame: u32, refusal: Option<Refusal>) -> Act
    ensures { result ≡ answer_act frame refusal }
{
    match refusal {
        None => Act::Sent { frame },
        Some(why) => Act::Refused {
            frame,
            code: code_of(why),
            first: screen_code_of(why),
            second: 0,
        },
    }
}

/// What is noted of a report, if anything.
fn note_by(effect: Effect) -> Option<Note>
    ensures { result ≡ note_by effect }
{
    match effect {
        Effect::Applied => None,
        Effect::NotLowered => Some(Note::NotLowered),
        Effect::Stray => Some(Note::Stray),
        Effect::Over => Some(Note::Over),
    }
}

impl<'a, H: Hand, M: Hand, K: Screen, V: Sink, C: Sink> Session<'a, H, M, K, V, C> {
    /// Counts a request that is refused as Firm. Where the count reaches the trip number, the halt tree
    /// is tripped.
    fn count_refusal(&mut self, refusal: Option<Refusal>)
        requires trips { CountsTrips self.old.desk.limits self.old.desk.hands.acts self.old.counts }
        requires room { 1 ≤ self.old.desk.hands.room }
        ensures continues { Continues H.SameOrigin M.SameOrigin self.old self.new 1 }
        ensures acts { self.new.desk.hands.acts ≡ acts_tripped self.old.desk.limits refusal
            self.old.counts.firms self.old.desk.hands.acts }
        ensures others { self.new ≡ record self.old {
          desk = record (self.old.desk) { hands = self.new.desk.hands };
          counts = counts_decided refusal self.old.counts;
        } }
    {
        if !is_firm(refusal) {
            return;
        }
        self.counts.firms += 1;
        if is_trip_number(self.desk.limits().trip(), self.counts.firms) {
            self.desk.is_covered();
            self.desk.trip();
        }
    }

    /// Tells what was decided on a request with this head, counts its frame and its answer, names the
    /// client, and gives the answer's stamp. A refusal as Firm is counted, and may trip the halt tree.
    pub(crate) fn tell_answer(&mut self, head: &Head<'_>, refusal: Option<Refusal>) -> Stamp
        requires counts { HasSmallCounts self.old.counts }
        requires trips { CountsTrips self.old.desk.limits self.old.desk.hands.acts self.old.counts }
        requires room { 2 ≤ self.old.desk.hands.room }
        ensures continues { Continues H.SameOrigin M.SameOrigin self.old self.new 2 }
        ensures told { TellsAnswer refusal head.now.sender self.old self.new }
        ensures stamp { result
            ≡ answer_stamp refusal head.now.time self.new.client_id self.new.counts }
    {
        self.count_refusal(refusal);
        self.desk.tell(answer_of(self.counts.frames, refusal));
        self.counts.frames += 1;
        self.client_id = head.sender.owned();
        let time = head.time.owned();
        match refusal {
            None => {
                self.counts.venue += 1;
                Stamp {
                    target: venue_id(),
                    seq: self.counts.venue,
                    time,
                }
            }
            Some(_) => {
                self.counts.client += 1;
                Stamp {
                    target: self.client_id,
                    seq: self.counts.client,
                    time,
                }
            }
        }
    }

    /// Tells what became of a report with this head, counts its frame and its forward, and gives the
    /// forward's stamp.
    pub(crate) fn tell_effect(&mut self, head: &Head<'_>, effect: Effect) -> Stamp
        requires counts { HasSmallCounts self.old.counts }
        requires room { 1 ≤ self.old.desk.hands.room }
        ensures continues { Continues H.SameOrigin M.SameOrigin self.old self.new 1 }
        ensures acts { self.new.desk.hands.acts
            ≡ self.old.desk.hands.acts ++ note_acts self.old.counts.frames (note_by effect) }
        ensures others { self.new ≡ record self.old {
          desk = record (self.old.desk) { hands = self.new.desk.hands };
          counts = counted_client self.old.counts;
        } }
        ensures stamp { result
            ≡ stamp_of self.new.client_id self.new.counts.client head.now.time }
    {
        if let Some(note) = note_by(effect) {
            self.desk.tell(note.act(self.counts.frames));
        }
        self.counts.frames += 1;
        self.counts.client += 1;
        Stamp {
            target: self.client_id,
            seq: self.counts.client,
            time: head.time.owned(),
        }
    }
}
