//! The totals of a run: what each session did, how each tree stands, and the status.
ghost use Rattle.std.specs.Prelude.{◌≡◌, ◌++◌, ◌∷◌, decimal, OnOk, IfOk};
ghost use Rattle.std.specs.List.{flat_map, enumerate_from};
ghost use Rattle.risk_journal.specs.TotalsText.{totals_text, session_line, tree_line, status_line};
ghost use Rattle.risk_journal.specs.TotalsText.{end_words, kind_word, shown_name, count_text};

use crate::acts::End;
use crate::csv_rows::{add, add_number};
use crate::id64::Id64;
use fold_law::Memory;
use std::alloc::Global;

/// What a tree sums up.
#[derive(Clone, Copy, Debug, PartialEq, Eq)]
pub enum TreeKind {
    /// All orders.
    Firm,
    /// The orders of an account.
    Account,
    /// The orders in a symbol.
    Symbol,
    /// The halt flag.
    Halt,
}

/// How a session ended, and how many orders it sent and refused and how many frames it noted.
#[derive(Clone, Copy, Debug)]
pub struct SessionTotal {
    pub end: End,
    pub sent: u32,
    pub refused: u32,
    pub noted: u32,
}

/// A tree after the run: its posts, its root at the end, and its limit. Values are in whole currency
/// units. Only an account's and a symbol's name is shown.
#[derive(Clone, Copy, Debug)]
pub struct TreeTotal {
    pub kind: TreeKind,
    pub name: Id64,
    pub posts: u32,
    pub root: u64,
    pub limit: u64,
}

/// The totals of the sessions and of the trees, each in the order of their numbers, and the status.
#[derive(Drop)]
pub struct Totals {
    pub sessions: Vec<SessionTotal>,
    pub trees: Vec<TreeTotal>,
    pub status: u8,
}

/// The text of the totals.
pub fn write_totals(alloc: Global, totals: &Totals) -> Result<Vec<u8>, Memory>
    ensures { IfOk result (λ text. text.items
        ≡ totals_text totals.now.sessions.items totals.now.trees.items totals.now.status) }
{
    let mut text = Vec::new(alloc);
    add_session_lines(&mut text, &totals.sessions)?;
    add_tree_lines(&mut text, &totals.trees)?;
    add_status(&mut text, totals.status)?;
    Ok(text)
}

/// Writes the line of each session.
fn add_session_lines(text: &mut Vec<u8>, sessions: &[SessionTotal]) -> Result<(), Memory>
    ensures { OnOk result (text.new.items ≡ text.old.items
        ++ flat_map (λ numbered. session_line numbered.0 numbered.1)
        (enumerate_from 0 sessions.now)) }
{
    let mut number = 0;
    for total in sessions {
        add_session_line(text, number, total)?;
        number += 1;
    }
    Ok(())
}

/// Writes the line of a session.
fn add_session_line(text: &mut Vec<u8>, number: u64, total: &SessionTotal) -> Result<(), Memory>
    ensures { OnOk result (text.new.items ≡ text.old.items ++ session_line number total.now) }
{
    add(text, b"session")?;
    add_spaced_number(text, number)?;
    add_end(text, total.end)?;
    add_count(text, b"sent", u64::from(total.sent))?;
    add_count(text, b"refused", u64::from(total.refused))?;
    add_count(text, b"noted", u64::from(total.noted))?;
    add(text, b"\n")
}

/// Writes a space and how a session ended.
fn add_end(text: &mut Vec<u8>, end: End) -> Result<(), Memory>
    ensures { OnOk result (text.new.items ≡ text.old.items ++ (32 ∷ end_words end)) }
{
    match end {
        End::Whole => add(text, b" whole"),
        End::Cut(place) => add_placed(text, b" cut ", place),
        End::Broken(place) => add_placed(text, b" broken ", place),
        End::TooLong(place) => add_placed(text, b" long ", place),
        End::ReadFault => add(text, b" read-fault"),
        End::WriteFault => add(text, b" write-fault"),
        End::Memory => add(text, b" memory"),
    }
}

/// Writes a word and a place.
fn add_placed(text: &mut Vec<u8>, word: &[u8], place: u64) -> Result<(), Memory>
    ensures { OnOk result (text.new.items ≡ text.old.items ++ (word.now ++ decimal place)) }
{
    add(text, word)?;
    add_number(text, place)
}

/// Writes the line of each tree.
fn add_tree_lines(text: &mut Vec<u8>, trees: &[TreeTotal]) -> Result<(), Memory>
    ensures { OnOk result (text.new.items ≡ text.old.items
        ++ flat_map (λ numbered. tree_line numbered.0 numbered.1) (enumerate_from 0 trees.now)) }
{
    let mut number = 0;
    for total in trees {
        add_tree_line(text, number, total)?;
        number += 1;
    }
    Ok(())
}

/// Writes the line of a tree.
fn add_tree_line(text: &mut Vec<u8>, number: u64, total: &TreeTotal) -> Result<(), Memory>
    ensures { OnOk result (text.new.items ≡ text.old.items ++ tree_line number total.now) }
{
    add(text, b"tree")?;
    add_spaced_number(text, number)?;
    add_kind(text, total.kind)?;
    add_name(text, total.kind, &total.name)?;
    add_count(text, b"posts", u64::from(total.posts))?;
    add_count(text, b"root", total.root)?;
    add_count(text, b"limit", total.limit)?;
    add(text, b"\n")
}

/// Writes a space and the word of a kind of tree.
fn add_kind(text: &mut Vec<u8>, kind: TreeKind) -> Result<(), Memory>
    ensures { OnOk result (text.new.items ≡ text.old.items ++ (32 ∷ kind_word kind)) }
{
    match kind {
        TreeKind::Firm => add(text, b" firm"),
        TreeKind::Account => add(text, b" account"),
        TreeKind::Symbol => add(text, b" symbol"),
        TreeKind::Halt => add(text, b" halt"),
    }
}

/// Writes a space and the name of a tree of this kind.
fn add_name(text: &mut Vec<u8>, kind: TreeKind, name: &Id64) -> Result<(), Memory>
    ensures { OnOk result (text.new.items ≡ text.old.items ++ (32 ∷ shown_name kind name.now)) }
{
    match kind {
        TreeKind::Firm | TreeKind::Halt => add(text, b" -"),
        TreeKind::Account | TreeKind::Symbol => add_spaced(text, name.bytes()),
    }
}

/// Writes the line of the status.
fn add_status(text: &mut Vec<u8>, status: u8) -> Result<(), Memory>
    ensures { OnOk result (text.new.items ≡ text.old.items ++ status_line status) }
{
    add(text, b"status")?;
    add_spaced_number(text, u64::from(status))?;
    add(text, b"\n")
}

/// Writes a word and a number, each behind a space.
fn add_count(text: &mut Vec<u8>, word: &[u8], count: u64) -> Result<(), Memory>
    ensures { OnOk result (text.new.items ≡ text.old.items ++ count_text word.now count) }
{
    add_spaced(text, word)?;
    add_spaced_number(text, count)
}

/// Writes a space and a word.
fn add_spaced(text: &mut Vec<u8>, word: &[u8]) -> Result<(), Memory>
    ensures { OnOk result (text.new.items ≡ text.old.items ++ (32 ∷ word.now)) }
{
    add(text, b" ")?;
    add(text, word)
}

/// Writes a space and a number.
fn add_spaced_number(text: &mut Vec<u8>, number: u64) -> Result<(), Memory>
    ensures { OnOk result (text.new.items ≡ text.old.items ++ (32 ∷ decimal number)) }
{
    add(text, b" ")?;
    add_number(text, number)
}
