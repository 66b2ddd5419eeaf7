//! The totals of a run, as text.
ghost use Rattle.std.specs.Prelude.{◌≡◌, ◌^◌, ◌≤◌, ◌<◌, length, map, All, IfOk, count_by};
ghost use Rattle.std.specs.List.{AllByRecursion};
ghost use Rattle.risk_board.specs.History.{array_after};
ghost use Rattle.limit_table.specs.Trees.{halt_tree, fold_of, limit_of};
ghost use Rattle.gate_program.specs.Totals.{HasTotal, HaveTotals};
ghost use Rattle.gate_files.specs.Statuses.{number_of};
ghost use Rattle.gate_program.specs.Totals.{is_sent, is_refused, is_noted, session_total};
ghost use Rattle.gate_program.specs.Totals.{session_totals, total_at, IsCountable, kind_of, name_of, or_zero, tree_total};
ghost use Rattle.gate_program.specs.Totals.{tree_totals_from, totals_of};
ghost use Rattle.gate_files.specs.Words.{session_most};

use fold_law::{Max, Memory, Sum, whole};
use fork_all::map_all;
use gate_files::Status;
use limit_table::Limits;
use risk_board::{Line, components};
use risk_journal::{
    Act, End, Id64, Journal, SessionTotal, Totals, TreeKind, TreeTotal, write_totals,
};
use std::alloc::Global;
use std::thread::Threads;
use trail_replay::numbers;

/// How many orders were sent.
fn count_sent(acts: &[Act]) -> u32
    requires { length acts.now < 2 ^ 32 }
    ensures { result ≡ count_by is_sent acts.now }
{
    acts.iter()
        .filter(|act| matches!(act, Act::Sent { .. }))
        .count() as u32
}

/// How many orders were refused.
fn count_refused(acts: &[Act]) -> u32
    requires { length acts.now < 2 ^ 32 }
    ensures { result ≡ count_by is_refused acts.now }
{
    acts.iter()
        .filter(|act| matches!(act, Act::Refused { .. }))
        .count() as u32
}

/// How many frames were noted.
fn count_noted(acts: &[Act]) -> u32
    requires { length acts.now < 2 ^ 32 }
    ensures { result ≡ count_by is_noted acts.now }
{
    acts.iter()
        .filter(|act| matches!(act, Act::Noted { .. }))
        .count() as u32
}

/// The total of a session with this end and these acts.
fn session_total(end: End, acts: &[Act]) -> SessionTotal
    requires { length acts.now < 2 ^ 32 }
    ensures { result ≡ session_total end acts.now }
{
    SessionTotal {
        end,
        sent: count_sent(acts),
        refused: count_refused(acts),
        noted: count_noted(acts),
    }
}

/// The totals of sessions with these ends and acts, side by side.
fn session_totals<R: Threads + Sync>(
    rt: &R,
    alloc: Global,
    ends: &[End],
    acts: &[Vec<Act>],
) -> Result<Vec<SessionTotal>, Memory>
    requires ends { length ends.now ≡ length acts.now }
    requires few { length acts.now < 2 ^ 32 }
    requires acts { All (λ own. length own.items < 2 ^ 32) acts.now }
    ensures { IfOk result (λ all.
        all.items ≡ session_totals ends.now (map (λ own. own.items) acts.now)) }
{
    let sessions = numbers(alloc, acts.len() as u32)?;
    let total = |session: u32| -> SessionTotal
        requires { IsCountable ends.now (map (λ own. own.items) acts.now) session }
        ensures { result ≡ total_at ends.entry.now (map (λ own. own.items) acts.entry.now) session }
    { session_total(ends[session as usize], &acts[session as usize]) };
    match map_all(rt, alloc, sessions, &total) {
        Ok(all) => Ok(all),
        Err(_) => Err(Memory),
    }
}

/// What the limit file says of a tree.
#[derive(Drop)]
pub(crate) struct Row {
    kind: TreeKind,
    name: Id64,
    pub limit: u64,
}

/// What the limit file says of the tree of this number.
pub(crate) fn row_of(limits: &Limits, tree: usize) -> Row
    ensures kind { result.kind ≡ kind_of limits.now tree }
    ensures name { result.name ≡ name_of limits.now tree }
    ensures limit { result.limit ≡ or_zero (limit_of limits.now tree) }
{
    let accounts = limits.accounts();
    let symbols = limits.symbols();
    if tree == 0 {
        Row {
            kind: TreeKind::Firm,
            name: Id64::of(b"-"),
            limit: limits.firm(),
        }
    } else if tree < 1 + accounts.len() {
        let row = &accounts[tree - 1];
        Row {
            kind: TreeKind::Account,
            name: Id64::of(row.name.bytes()),
            limit: row.limit,
        }
    } else if tree < 1 + accounts.len() + symbols.len() {
        let row = &symbols[tree - 1 - accounts.len()];
        Row {
            kind: TreeKind::Symbol,
            name: Id64::of(row.name.bytes()),
            limit: row.limit,
        }
    } else {
        Row {
            kind: TreeKind::Halt,
            name: Id64::of(b"-"),
            limit: 0,
        }
    }
}

/// The plain array of so many components behind these lines.
fn array_of(alloc: Global, components: usize, lines: &[Line]) -> Result<Vec<u64>, Memory>
    requires { AllByRecursion (λ line. line.session < components) lines.now }
    ensures array { IfOk result (λ array. array.items ≡ array_after 0 components lines.now) }
    ensures many { IfOk result (λ array. length array.items ≡ components) }
{
    let Ok(mut array) = Vec::from_elem(alloc, 0, components) else {
        return Err(Memory);
    };
    for line in lines {
        array[line.session as usize] = line.value;
    }
    Ok(array)
}

/// How a tree stands behind its lines.
fn tree_total(
    alloc: Global,
    limits: &Limits,
    sessions: usize,
    tree: usize,
    lines: &[Line],
) -> Result<TreeTotal, Memory>
    requires few { sessions ≤ session_most }
    requires lines { HasTotal sessions lines.now }
    ensures { IfOk result (λ total. total ≡ tree_total limits.now sessions tree lines.now) }
{
    let row = row_of(limits, tree);
    let array = array_of(alloc, components(sessions as u32) as usize, lines)?;
    let root = if tree == limits.halt_tree() as usize {
        whole::<Max>(&array)
    } else {
        whole::<Sum>(&array)
    };
    Ok(TreeTotal {
        kind: row.kind,
        name: row.name,
        posts: lines.len() as u32,
        root,
        limit: row.limit,
    })
}

/// How the trees stand behind their lines, in the order of their numbers.
fn tree_totals(
    alloc: Global,
    limits: &Limits,
    sessions: usize,
    lines: &[Vec<Line>],
) -> Result<Vec<TreeTotal>, Memory>
    requires few { sessions ≤ session_most }
    requires lines { HaveTotals sessions (map (λ own. own.items) lines.now) }
    ensures { IfOk result (λ all. all.items
        ≡ tree_totals_from limits.now sessions 0 (map (λ own. own.items) lines.now)) }
{
    let mut all = Vec::new(alloc);
    for tree in 0..lines.len() {
        let total = tree_total(alloc, limits, sessions, tree, lines[tree].as_slice())?;
        let Ok(()) = all.push(total) else {
            return Err(Memory);
        };
    }
    Ok(all)
}

/// The text of the totals of a run with this journal, these ends and this status.
pub(crate) fn totals_text<R: Threads + Sync>(
    rt: &R,
    alloc: Global,
    limits: &Limits,
    journal: &Journal,
    ends: &[End],
    status: Status,
) -> Result<Vec<u8>, Memory>
    requires few { length journal.now.acts.items ≤ session_most }
    requires ends { length ends.now ≡ length journal.now.acts.items }
    requires acts { All (λ own. length own.items < 2 ^ 32) journal.now.acts.items }
    requires lines { HaveTotals (length journal.now.acts.items)
        (map (λ own. own.items) journal.now.lines.items) }
    ensures { IfOk result (λ text. text.items ≡ totals_of limits.now
        (map (λ own. own.items) journal.now.acts.items) ends.now
        (map (λ own. own.items) journal.now.lines.items) (number_of status)) }
{
    let sessions = session_totals(rt, alloc, ends, &journal.acts)?;
    let trees = tree_totals(alloc, limits, journal.acts.len(), &journal.lines)?;
    let totals = Totals {
        sessions,
        trees,
        status: status.number(),
    };
    write_totals(alloc, &totals)
}
