//! The text of a journal in pieces: its first row, the rows of each session, and those of each
//! tree. The pieces are written side by side.
ghost use Rattle.std.specs.Prelude.{◌≡◌, ◌^◌, ◌<◌, ◌++◌, length, map, IfOk, OnOk};
ghost use Rattle.std.specs.List.{AllZip, AllByRecursion, flat_map, range_with_len};
ghost use Rattle.risk_journal.specs.JournalText.{header_text, journal_text, session_text};
ghost use Rattle.risk_journal.specs.JournalText.{tree_text};
ghost use Rattle.session_tasks.specs.Pieces.{bytes_in, HasRows, IsWritten};
ghost use Rattle.gate_files.specs.Joined.{joined};

use fold_law::Memory;
use fork_all::map_all;
use risk_board::Line;
use risk_journal::{Act, Journal, header_row, write_session, write_tree};
use std::alloc::Global;
use std::thread::Threads;

/// The numbers of so many items, from 0.
fn numbers(alloc: Global, count: u32) -> Result<Vec<u32>, Memory>
    ensures { IfOk result (λ all. all.items ≡ range_with_len 0 count) }
{
    let mut all = Vec::new(alloc);
    for number in 0..count {
        let Ok(()) = all.push(number) else {
            return Err(Memory);
        };
    }
    Ok(all)
}

/// The rows of each session, side by side.
fn session_pieces<R: Threads + Sync>(
    rt: &R,
    alloc: Global,
    sessions: &[Vec<Act>],
) -> Result<Vec<Result<Vec<u8>, Memory>>, Memory>
    requires few { length sessions.now < 2 ^ 32 }
    ensures { IfOk result (λ written.
        AllZip (HasRows session_text (map (λ own. own.items) sessions.now))
        (range_with_len 0 (length sessions.now)) written.items) }
{
    let all = numbers(alloc, sessions.len() as u32)?;
    let write = |session: u32| -> Result<Vec<u8>, Memory>
        requires { session < length sessions.now }
        ensures { HasRows session_text (map (λ own. own.items) sessions.entry.now) session result }
    { write_session(alloc, session, &sessions[session as usize]) };
    match map_all(rt, alloc, all, &write) {
        Ok(written) => Ok(written),
        Err(_) => Err(Memory),
    }
}

/// The rows of each tree, side by side.
fn tree_pieces<R: Threads + Sync>(
    rt: &R,
    alloc: Global,
    trees: &[Vec<Line>],
) -> Result<Vec<Result<Vec<u8>, Memory>>, Memory>
    requires few { length trees.now < 2 ^ 32 }
    ensures { IfOk result (λ written.
        AllZip (HasRows tree_text (map (λ own. own.items) trees.now))
        (range_with_len 0 (length trees.now)) written.items) }
{
    let all = numbers(alloc, trees.len() as u32)?;
    let write = |tree: u32| -> Result<Vec<u8>, Memory>
        requires { tree < length trees.now }
        ensures { HasRows tree_text (map (λ own. own.items) trees.entry.now) tree result }
    { write_tree(alloc, tree, &trees[tree as usize]) };
    match map_all(rt, alloc, all, &write) {
        Ok(written) => Ok(written),
        Err(_) => Err(Memory),
    }
}

/// Adds pieces behind others, where memory was wanting in none.
fn add_pieces(
    pieces: &mut Vec<Vec<u8>>,
    written: Vec<Result<Vec<u8>, Memory>>,
) -> Result<(), Memory>
    ensures whole { OnOk result (AllByRecursion IsWritten written.items) }
    ensures bytes { OnOk result
        (joined pieces.new.items ≡ joined pieces.old.items ++ flat_map bytes_in written.items) }
{
    for piece in written {
        let Ok(()) = pieces.push(piece?) else {
            return Err(Memory);
        };
    }
    Ok(())
}

/// The first row of the journal.
fn first_piece(alloc: Global) -> Result<Vec<u8>, Memory>
    ensures { IfOk result (λ piece. piece.items ≡ header_text) }
{
    let mut piece = Vec::new(alloc);
    match piece.extend_from_slice(header_row()) {
        Ok(()) => Ok(piece),
        Err(_) => Err(Memory),
    }
}

/// The text of a journal in pieces, one after another.
pub(crate) fn journal_pieces<R: Threads + Sync>(
    rt: &R,
    alloc: Global,
    journal: &Journal,
) -> Result<Vec<Vec<u8>>, Memory>
    requires few { length journal.now.acts.items < 2 ^ 32 }
    requires few_trees { length journal.now.lines.items < 2 ^ 32 }
    ensures { IfOk result (λ pieces. joined pieces.items
        ≡ journal_text (map (λ own. own.items) journal.now.acts.items)
        (map (λ own. own.items) journal.now.lines.items)) }
{
    let mut pieces = Vec::new(alloc);
    let Ok(()) = pieces.push(first_piece(alloc)?) else {
        return Err(Memory);
    };
    let sessions = session_pieces(rt, alloc, &journal.acts)?;
    add_pieces(&mut pieces, sessions)?;
    let trees = tree_pieces(rt, alloc, &journal.lines)?;
    add_pieces(&mut pieces, trees)?;
    Ok(pieces)
}
