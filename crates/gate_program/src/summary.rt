//! The text that is told of sessions that have ended.
ghost use Rattle.std.specs.Prelude.{◌≡◌, ◌^◌, ◌*◌, ◌≤◌, ◌<◌, length, map, All, IfOk, count_by};
ghost use Rattle.gate_program.specs.Histories.{AreLegalLines};
ghost use Rattle.gate_files.specs.Statuses.{number_of};
ghost use Rattle.gate_program.specs.Telling.{is_read, reads_of, told_of};
ghost use Rattle.gate_program.specs.Totals.{HaveTotals};
ghost use Rattle.gate_files.specs.Words.{session_most};

use crate::agreeing::compare_trees;
use crate::told::Told;
use crate::totals::totals_text;
use fold_law::Memory;
use gate_files::Status;
use limit_table::Limits;
use make_load::{Counts, summary_text};
use risk_journal::{Act, End, Journal};
use std::alloc::Global;
use std::thread::Threads;

/// How many reads a session made.
fn count_reads(acts: &[Act]) -> u32
    requires { length acts.now < 2 ^ 32 }
    ensures { result ≡ count_by is_read acts.now }
{
    acts.iter()
        .filter(|act| matches!(act, Act::Read { .. }))
        .count() as u32
}

/// How many reads all sessions made.
fn count_all_reads(acts: &[Vec<Act>]) -> u64
    requires few { length acts.now ≤ session_most }
    requires acts { All (λ own. length own.items < 2 ^ 32) acts.now }
    ensures { result ≡ reads_of (map (λ own. own.items) acts.now) }
{
    let mut reads = 0;
    for own in acts {
        reads += u64::from(count_reads(own.as_slice()));
    }
    reads
}

/// The text that is told of sessions that ended with this journal, these ends and this status. Before a
/// summary the journal's trees are compared with what it tells.
pub(crate) fn text_after<R: Threads + Sync>(
    rt: &R,
    alloc: Global,
    limits: &Limits,
    told: &Told,
    journal: Journal,
    ends: &[End],
    status: Status,
) -> Result<Vec<u8>, Memory>
    requires few { length journal.acts.items ≤ session_most }
    requires ends { length ends.now ≡ length journal.acts.items }
    requires acts { All (λ own. length own.items < 2 ^ 32) journal.acts.items }
    requires lines { HaveTotals (length journal.acts.items)
        (map (λ own. own.items) journal.lines.items) }
    requires legal { AreLegalLines limits.now (map (λ own. own.items) journal.acts.items)
        (map (λ own. own.items) journal.lines.items) }
    ensures { IfOk result (λ text. text.items ≡ told_of told.now limits.now
        (map (λ own. own.items) journal.acts.items) ends.now
        (map (λ own. own.items) journal.lines.items) (number_of status)) }
{
    match (told, status) {
        (Told::Summary(asked, counts), Status::Done) => {
            let counts = Counts {
                reads: count_all_reads(&journal.acts),
                ..*counts
            };
            compare_trees(rt, alloc, limits, journal)?;
            summary_text(alloc, asked, &counts)
        }
        _ => totals_text(rt, alloc, limits, &journal, ends, status),
    }
}
