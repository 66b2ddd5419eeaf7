//! The first row of a journal's acts that has a fault by itself.
ghost use Rattle.std.specs.Prelude.{◌≡◌, ℕ, ◌+◌, ◌≤◌, ◌<◌, ◌^◌, ◌↔◌, length, map, IsTrue, IfSome, None};
ghost use Rattle.risk_journal.specs.JournalText.{end_number};
ghost use Rattle.journal_check.specs.Items.{items_of};
ghost use Rattle.journal_check.specs.ActFaults.{Has, IsFirstHas, NoneHas};
ghost use Rattle.journal_check.specs.Firsts.{IsFirstRow};
ghost use Rattle.journal_check.specs.RowNumbers.{HasActWith, count_all};

use risk_journal::{Act, End};

/// What an act may have by itself that no act of a lawful journal has.
#[derive(Clone, Copy, Debug, PartialEq, Eq)]
pub(crate) enum ActFault {
    /// It says that a session ended by a fault.
    Early,
    /// It is of a tree above this one.
    Above(u32),
}

/// Whether a session ended by a fault: by a read, by a write or for want of memory.
fn is_early(end: End) -> bool
    ensures { IsTrue result ↔ (4 ≤ end_number end) }
{
    match end {
        End::Whole | End::Cut(_) | End::Broken(_) | End::TooLong(_) => false,
        End::ReadFault | End::WriteFault | End::Memory => true,
    }
}

/// Whether an act has this fault.
fn has(act: &Act, fault: ActFault) -> bool
    ensures { IsTrue result ↔ Has fault act.now }
{
    match fault {
        ActFault::Early => match *act {
            Act::Ended { end } => is_early(end),
            Act::Post { .. }
            | Act::Read { .. }
            | Act::Sent { .. }
            | Act::Refused { .. }
            | Act::Noted { .. } => false,
        },
        ActFault::Above(last) => match *act {
            Act::Post { tree, .. } | Act::Read { tree, .. } => last < tree,
            Act::Sent { .. } | Act::Refused { .. } | Act::Noted { .. } | Act::Ended { .. } => false,
        },
    }
}

/// The index, from 0, of the first of a session's acts with this fault.
fn first_of(acts: &[Act], fault: ActFault) -> Option<usize>
    ensures found { IfSome result (IsFirstHas (Has fault) acts.now) }
    ensures none { result ≡ None → NoneHas (Has fault) acts.now }
{
    for index in 0..acts.len() {
        if has(&acts[index], fault) {
            return Some(index);
        }
    }
    None
}

/// The first row of the acts with this fault.
pub(crate) fn first_act_row(acts: &[Vec<Act>], fault: ActFault) -> Option<u32>
    requires { 2 + count_all (items_of acts.now) < 2 ^ 32 }
    ensures found { IfSome result
        (IsFirstRow (HasActWith (Has fault) (items_of acts.now))) }
    ensures none { result ≡ None
        → (row : ℕ) → ¬ HasActWith (Has fault) (items_of acts.now) row }
{
    let mut row = 2;
    for own in acts {
        if let Some(index) = first_of(own, fault) {
            return Some(row + index as u32);
        }
        row += own.len() as u32;
    }
    None
}
