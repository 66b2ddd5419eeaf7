//! The journal: each session's acts, and then the lines of each tree.
ghost use Rattle.std.specs.Prelude.{◌≡◌, ◌++◌, map, OnOk, IfOk};
ghost use Rattle.std.specs.List.{flat_map, enumerate_from};
ghost use Rattle.risk_journal.specs.JournalText.{header_text, journal_text, session_text, tree_text};
ghost use Rattle.risk_journal.specs.JournalText.{act_text, line_text, end_number, end_place};
ghost use Rattle.risk_journal.specs.RowCells.{cell_text};

use crate::acts::{Act, End};
use crate::csv_rows::{Cells, add, add_row};
use fold_law::Memory;
use risk_board::Line;
use std::alloc::Global;

/// What the sessions did, and the lines of each tree in its order.
#[derive(Drop)]
pub struct Journal {
    pub acts: Vec<Vec<Act>>,
    pub lines: Vec<Vec<Line>>,
}

/// The text of the journal.
pub fn write_journal(alloc: Global, journal: &Journal) -> Result<Vec<u8>, Memory>
    ensures { IfOk result (λ text. text.items
        ≡ journal_text (map (λ own. own.items) journal.now.acts.items)
        (map (λ own. own.items) journal.now.lines.items)) }
{
    let mut text = Vec::new(alloc);
    add(&mut text, header_row())?;
    add_sessions(&mut text, &journal.acts)?;
    add_trees(&mut text, &journal.lines)?;
    Ok(text)
}

/// The first row of the journal.
pub fn header_row() -> &'static [u8]
    ensures { result.now ≡ header_text }
{
    b"kind,session,a,b,c,d\n"
}

/// The journal's rows of the acts of one session, by its number from 0.
pub fn write_session(alloc: Global, session: u32, acts: &[Act]) -> Result<Vec<u8>, Memory>
    ensures { IfOk result (λ text. text.items ≡ session_text (session, acts.now)) }
{
    let mut text = Vec::new(alloc);
    add_acts(&mut text, u64::from(session), acts)?;
    Ok(text)
}

/// The journal's rows of the lines of one tree, by its number from 0.
pub fn write_tree(alloc: Global, tree: u32, lines: &[Line]) -> Result<Vec<u8>, Memory>
    ensures { IfOk result (λ text. text.items ≡ tree_text (tree, lines.now)) }
{
    let mut text = Vec::new(alloc);
    add_lines(&mut text, u64::from(tree), lines)?;
    Ok(text)
}

/// Writes the acts of each session.
fn add_sessions(text: &mut Vec<u8>, sessions: &[Vec<Act>]) -> Result<(), Memory>
    ensures { OnOk result (text.new.items ≡ text.old.items
        ++ flat_map session_text (enumerate_from 0 (map (λ own. own.items) sessions.now))) }
{
    let mut session = 0;
    for acts in sessions {
        add_acts(text, session, acts)?;
        session += 1;
    }
    Ok(())
}

/// Writes the acts of a session.
fn add_acts(text: &mut Vec<u8>, session: u64, acts: &[Act]) -> Result<(), Memory>
    ensures { OnOk result (text.new.items ≡ text.old.items
        ++ flat_map (act_text session) acts.now) }
{
    for act in acts {
        add_act(text, session, act)?;
    }
    Ok(())
}

/// Writes an act of a session.
fn add_act(text: &mut Vec<u8>, session: u64, act: &Act) -> Result<(), Memory>
    ensures { OnOk result (text.new.items ≡ text.old.items ++ act_text session act.now) }
{
    match *act {
        Act::Post { tree, index, value } => {
            let cells = (some(tree), some(index), Some(value), None);
            add_row(text, b"post", session, cells)
        }
        Act::Read {
            tree,
            stamp,
            place,
            value,
        } => {
            let cells = (some(tree), some(stamp), some(place), Some(value));
            add_row(text, b"read", session, cells)
        }
        Act::Sent { frame } => add_row(text, b"sent", session, (some(frame), None, None, None)),
        Act::Refused {
            frame,
            code,
            first,
            second,
        } => {
            let cells = answer_cells(frame, code, first, second);
            add_row(text, b"refused", session, cells)
        }
        Act::Noted {
            frame,
            code,
            first,
            second,
        } => {
            let cells = answer_cells(frame, code, first, second);
            add_row(text, b"noted", session, cells)
        }
        Act::Ended { end } => add_row(text, b"ended", session, end_cells(end)),
    }
}

/// The cells of a refusal or a note.
pub(crate) fn answer_cells(frame: u32, code: u8, first: u32, second: u32) -> Cells
    ensures frame { result.0 ≡ Some frame }
    ensures code { result.1 ≡ Some code }
    ensures first { result.2 ≡ Some first }
    ensures second { result.3 ≡ Some second }
{
    (
        some(frame),
        Some(u64::from(code)),
        some(first),
        some(second),
    )
}

/// The cells of an end.
fn end_cells(end: End) -> Cells
    ensures number { result.0 ≡ Some (end_number end) }
    ensures place { cell_text result.1 ≡ end_place end }
    ensures third { result.2 ≡ None }
    ensures fourth { result.3 ≡ None }
{
    (Some(number_of_end(end)), place_of_end(end), None, None)
}

/// A cell with a number.
pub(crate) fn some(number: u32) -> Option<u64>
    ensures { result ≡ Some number }
{
    Some(u64::from(number))
}

/// The number of an end.
pub(crate) fn number_of_end(end: End) -> u64
    ensures { result ≡ end_number end }
{
    match end {
        End::Whole => 0,
        End::Cut(_) => 1,
        End::Broken(_) => 2,
        End::TooLong(_) => 3,
        End::ReadFault => 4,
        End::WriteFault => 5,
        End::Memory => 6,
    }
}

/// The place of an end, where it has one.
fn place_of_end(end: End) -> Option<u64>
    ensures { cell_text result ≡ end_place end }
{
    match end {
        End::Cut(place) | End::Broken(place) | End::TooLong(place) => Some(place),
        End::Whole | End::ReadFault | End::WriteFault | End::Memory => None,
    }
}

/// Writes the lines of each tree.
fn add_trees(text: &mut Vec<u8>, trees: &[Vec<Line>]) -> Result<(), Memory>
    ensures { OnOk result (text.new.items ≡ text.old.items
        ++ flat_map tree_text (enumerate_from 0 (map (λ own. own.items) trees.now))) }
{
    let mut tree = 0;
    for lines in trees {
        add_lines(text, tree, lines)?;
        tree += 1;
    }
    Ok(())
}

/// Writes the lines of a tree.
fn add_lines(text: &mut Vec<u8>, tree: u64, lines: &[Line]) -> Result<(), Memory>
    ensures { OnOk result (text.new.items ≡ text.old.items ++ tree_text (tree, lines.now)) }
{
    let mut place = 0;
    for line in lines {
        place += 1;
        add_line(text, tree, place, line)?;
    }
    Ok(())
}

/// Writes a line of a tree, at its place from 1.
fn add_line(text: &mut Vec<u8>, tree: u64, place: u64, line: &Line) -> Result<(), Memory>
    ensures { OnOk result (text.new.items ≡ text.old.items ++ line_text tree place line.now) }
{
    let cells = (Some(tree), Some(place), some(line.index), Some(line.value));
    add_row(text, b"line", u64::from(line.session), cells)
}
