//! An officer from its first row to its end.
ghost use Rattle.std.specs.Prelude.{◌≡◌, ◌≢◌, [], vec_capacity, ◌⊎◌};
ghost use Rattle.risk_journal.specs.ActLists.{calls_at};
ghost use Rattle.limit_table.specs.Trees.{halt_tree};
ghost use Rattle.limit_desk.specs.Hands.{IsLevelHand, IsLimitHand};
ghost use Rattle.limit_desk.specs.Posting.{AreOfficerRows, IsCutShort, officer_acts};
ghost use Rattle.limit_desk.specs.Trees.{limit_calls};

use crate::hands::DeskHands;
use crate::officer::OfficerRow;
use crate::told::{ToldEnd, ToldOfficer};
use limit_table::Limits;
use risk_board::Hand;
use risk_journal::{Act, End};
use std::alloc::Global;

/// An officer that has ended.
#[derive(Drop)]
pub struct OfficerDone<H: Hand, M: Hand, D: Hand> {
    pub hands: DeskHands<H, M, D>,
    pub acts: Vec<Act>,
    pub end: End,
}

/// The officer at its end, with its hand on the trees of sums again.
fn done<H: Hand, M: Hand, D: Hand>(sum: H, told: ToldEnd<M, D>, end: End) -> OfficerDone<H, M, D>
    ensures { result ≡ record {
      hands = record { sum = sum; halt = told.halt; desk = told.desk };
      acts = told.acts;
      end = end;
    } }
{
    OfficerDone {
        hands: DeskHands {
            sum,
            halt: told.halt,
            desk: told.desk,
        },
        acts: told.acts,
        end,
    }
}

/// Posts what each row of an officer file says, in order: a limit in the limit tree of its tree of sums,
/// a level in the halt tree. Where memory is wanting before a row's post, no further row is posted. The
/// hand on the trees of sums comes back as it was.
pub fn run_officer<H: Hand, M: Hand, D: Hand>(
    alloc: Global,
    limits: &Limits,
    rows: &[OfficerRow],
    hands: DeskHands<H, M, D>,
) -> OfficerDone<H, M, D>
    requires halt_hand { IsLevelHand (M.meaning hands.halt) }
    requires desk_hand { IsLimitHand limits.now (D.meaning hands.desk) }
    requires halt_idle { (M.meaning hands.halt).calls ≡ [] }
    requires desk_idle { (D.meaning hands.desk).calls ≡ [] }
    requires rows { AreOfficerRows limits.now rows.now }

    ensures end { (result.end ≡ End.Whole) ⊎ (result.end ≡ End.Memory) }
    ensures whole { result.end ≡ End.Whole
        → result.acts.items ≡ officer_acts limits.now rows.now End.Whole }
    ensures cut_short { result.end ≡ End.Memory
        → IsCutShort limits.now rows.now result.acts.items }
    ensures no_room { result.acts.items ≡ [] → vec_capacity result.acts ≡ 0 }

    ensures sum { result.hands.sum ≡ hands.sum }
    ensures halt { M.SameOrigin hands.halt result.hands.halt }
    ensures desk { D.SameOrigin hands.desk result.hands.desk }
    ensures halt_calls { let calls = calls_at (halt_tree limits.now) result.acts.items in
        (M.meaning result.hands.halt).calls ≡ calls }
    ensures desk_calls { let calls = limit_calls (halt_tree limits.now) result.acts.items in
        (D.meaning result.hands.desk).calls ≡ calls }
{
    let mut told = match ToldOfficer::open(alloc, limits, hands.halt, hands.desk) {
        Ok(told) => told,
        Err(told) => return done(hands.sum, told, End::Memory),
    };
    for row in rows {
        if told.reserve().is_err() {
            return done(hands.sum, told.end(End::Memory), End::Memory);
        }
        told.post(*row);
    }
    done(hands.sum, told.end(End::Whole), End::Whole)
}
