//! The journal, read row by row.
ghost use Rattle.std.specs.Prelude.{◌≡◌, ◌↔◌, ℕ, ◌+◌, ◌-◌, ◌^◌, ◌≤◌, ◌<◌, ◌++◌, [], length};
ghost use Rattle.std.specs.Prelude.{map};
ghost use Rattle.std.specs.Prelude.{IsTrue, IfOk, OnOk, Err};
ghost use Rattle.std.specs.Prelude.{true, false};
ghost use Rattle.risk_journal.specs.JournalText.{header_text};
ghost use Rattle.risk_journal.specs.JournalGrammar.{IsJournal, IsFirstFault};
ghost use Rattle.risk_journal.specs.Reading.{none_taken, with_act, with_row, MayFollow};
ghost use Rattle.risk_journal.specs.SparseTrees.{expand_from, AreRising};
ghost use Rattle.risk_journal.specs.TakenView.{taken_of, TakesRow, IsRefused, Reached};
ghost use Rattle.risk_journal.specs.declared.reading.JournalFault.TheVariants as fault;

use crate::acts::Act;
use crate::journal::Journal;
use crate::row_reading::read_row;
use crate::rows::Row;
use crate::sparse::{
    SparseJournal, TreeLines, expand_journal, has_none, lines_in, take_line, trees_count,
};
use fold_law::Memory;
use memchr::memchr;
use std::alloc::Global;
use std::mem;

/// Why a text wasn't read as a journal.
#[derive(Clone, Copy, Debug, PartialEq, Eq)]
pub enum JournalFault {
    /// The row with this number, from 1, is the first that no journal has there.
    Row(u32),
    /// Memory was wanting.
    Memory,
}

/// What was read so far: the sessions that ended, the acts of one that goes on, and the lines of
/// each tree that has some, by ascending number.
#[derive(Drop)]
pub(crate) struct Reading {
    pub(crate) ended: Vec<Vec<Act>>,
    pub(crate) begun: Vec<Act>,
    pub(crate) trees: Vec<TreeLines>,
}

/// The first row.
const HEADER: &[u8] = b"kind,session,a,b,c,d\n";

/// The journal of a text, or its first fault. Memory is wanted for each tree up to the last that has
/// a line.
pub fn read_journal(alloc: Global, bytes: &[u8]) -> Result<Journal, JournalFault>
    requires { length bytes.now ≤ 2 ^ 32 - 2 }
    ensures read { IfOk result (λ journal. IsJournal bytes.now
        (map (λ own. own.items) journal.acts.items)
        (map (λ own. own.items) journal.lines.items)) }
    ensures refused { (row : ℕ) → result ≡ Err (fault.Row row) → IsFirstFault bytes.now row }
{
    let told = read_sparse_journal(alloc, bytes)?;
    match expand_journal(alloc, told) {
        Ok(journal) => Ok(journal),
        Err(_) => Err(JournalFault::Memory),
    }
}

/// The journal of a text with the lines of the trees that have some, or its first fault. Memory is
/// linear in the text.
pub fn read_sparse_journal(alloc: Global, bytes: &[u8]) -> Result<SparseJournal, JournalFault>
    requires { length bytes.now ≤ 2 ^ 32 - 2 }
    ensures read { IfOk result (λ told. IsJournal bytes.now
        (map (λ own. own.items) told.acts.items) (expand_from 0 told.trees.items)) }
    ensures rising { IfOk result (λ told. AreRising 0 told.trees.items) }
    ensures refused { (row : ℕ) → result ≡ Err (fault.Row row) → IsFirstFault bytes.now row }
{
    let Some(rest) = bytes.strip_prefix(HEADER) else {
        return Err(JournalFault::Row(1));
    };
    let mut reading = Reading {
        ended: Vec::new(alloc),
        begun: Vec::new(alloc),
        trees: Vec::new(alloc),
    };
    let number = read_rows(alloc, &mut reading, rest)?;
    if !has_ended(&reading) {
        return Err(JournalFault::Row(number));
    }
    Ok(SparseJournal {
        acts: reading.ended,
        trees: reading.trees,
    })
}

/// Whether no session goes on.
fn has_ended(reading: &Reading) -> bool
    ensures { IsTrue result ↔ (reading.now.begun.items ≡ []) }
{
    reading.begun.is_empty()
}

/// Takes the row of this text, without its LF, if it may come next.
fn take_text(alloc: Global, reading: &mut Reading, text: &[u8]) -> Result<bool, Memory>
    requires { AreRising 0 reading.old.trees.items }
    ensures rising { (result ≡ Ok true) → AreRising 0 reading.new.trees.items }
    ensures taken { (result ≡ Ok true)
        → TakesRow (taken_of reading.old) text.now (taken_of reading.new) }
    ensures refused { (result ≡ Ok false) → IsRefused (taken_of reading.old) text.now }
{
    let Some(row) = read_row(text) else {
        return Ok(false);
    };
    if !may_follow(reading, &row) {
        return Ok(false);
    }
    take_row(alloc, reading, row)?;
    Ok(true)
}

/// Whether the row may come next.
fn may_follow(reading: &Reading, row: &Row) -> bool
    requires { AreRising 0 reading.now.trees.items }
    ensures { IsTrue result ↔ MayFollow (taken_of reading.now) row.now }
{
    match *row {
        Row::OfSession { session, act: _ } => {
            session as usize == reading.ended.len() && has_none(&reading.trees)
        }
        Row::OfTree {
            tree,
            place,
            line: _,
        } => {
            reading.begun.is_empty()
                && trees_count(&reading.trees) <= tree as usize + 1
                && place as usize == lines_in(&reading.trees, tree) + 1
        }
    }
}

/// Takes a row that may come next.
fn take_row(alloc: Global, reading: &mut Reading, row: Row) -> Result<(), Memory>
    requires rising { AreRising 0 reading.old.trees.items }
    requires follows { MayFollow (taken_of reading.old) row }
    ensures rising { OnOk result (AreRising 0 reading.new.trees.items) }
    ensures taken { OnOk result (taken_of reading.new ≡ with_row (taken_of reading.old) row) }
{
    match row {
        Row::OfSession { session: _, act } => take_act(alloc, reading, act),
        Row::OfTree {
            tree,
            place: _,
            line,
        } => take_line(alloc, &mut reading.trees, tree, line),
    }
}

/// Takes an act of the session that goes on.
fn take_act(alloc: Global, reading: &mut Reading, act: Act) -> Result<(), Memory>
    ensures trees { reading.new.trees ≡ reading.old.trees }
    ensures taken { OnOk result (taken_of reading.new ≡ with_act (taken_of reading.old) act) }
{
    reading.begun.push(act).map_err(|_| Memory)?;
    match act {
        Act::Ended { end: _ } => {
            let acts = mem::replace(&mut reading.begun, Vec::new(alloc));
            reading.ended.push(acts).map_err(|_| Memory)
        }
        Act::Post { .. }
        | Act::Read { .. }
        | Act::Sent { .. }
        | Act::Refused { .. }
        | Act::Noted { .. } => Ok(()),
    }
}

/// Takes all rows behind the header: the number of the row behind the last, from 1.
fn read_rows(alloc: Global, reading: &mut Reading, rest: &[u8]) -> Result<u32, JournalFault>
    requires short { length rest.now + 21 ≤ 2 ^ 32 - 2 }
    requires none { taken_of reading.old ≡ none_taken }
    requires rising { AreRising 0 reading.old.trees.items }
    ensures rising { IfOk result (λ number. AreRising 0 reading.new.trees.items) }
    ensures read { IfOk result (λ number.
        Reached (header_text ++ rest.now) [] number (taken_of reading.new)) }
    ensures refused { (row : ℕ) → result ≡ Err (fault.Row row)
        → IsFirstFault (header_text ++ rest.now) row }
{
    let mut number = 2;
    let mut at = 0;
    while at < rest.len() {
        let later = &rest[at..];
        let Some(end) = memchr(b'\n', later) else {
            return Err(JournalFault::Row(number));
        };
        match take_text(alloc, reading, &later[..end]) {
            Err(_) => return Err(JournalFault::Memory),
            Ok(false) => return Err(JournalFault::Row(number)),
            Ok(true) => {}
        }
        at += end + 1;
        number += 1;
    }
    Ok(number)
}
