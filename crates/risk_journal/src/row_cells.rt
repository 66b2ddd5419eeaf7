//! A row of text cut into its cells, and what they say.
ghost use Rattle.std.specs.Prelude.{◌≡◌, ◌≢◌, ℕ, ◌<◌, ◌^◌, List, [], ◌∷◌, decimal, MatchOption};
ghost use Rattle.std.specs.Prelude.{Option};
ghost use Rattle.std.specs.List.{slice_split, join_with_byte};
ghost use Rattle.risk_journal.specs.RowCells.{cell_text, is_comma};
ghost use Rattle.risk_journal.specs.Rows.{kind_text, FitsColumn, FitColumns, column_cells};
ghost use Rattle.risk_journal.specs.declared.rows.Kind.{Kind as KindValue};
ghost use Rattle.risk_journal.specs.declared.rows.Columns.{Columns as ColumnsValue};

use crate::rows::{Columns, Kind};
use itoa::Buffer;
use memchr::memchr;

/// The cells of a row: what kind it is, its session and four more.
#[derive(Clone, Copy)]
pub(crate) struct RowCells<'a> {
    pub(crate) kind: &'a [u8],
    pub(crate) session: &'a [u8],
    pub(crate) a: &'a [u8],
    pub(crate) b: &'a [u8],
    pub(crate) c: &'a [u8],
    pub(crate) d: &'a [u8],
}

/// What stands before the first comma, and what stands behind it.
fn cut_cell(text: &[u8]) -> Option<(&[u8], &[u8])>
    ensures { MatchOption result (slice_split is_comma text.now ≡ text.now ∷ [])
        (λ cut. slice_split is_comma text.now ≡ cut.0.now ∷ slice_split is_comma cut.1.now) }
{
    let Some(place) = memchr(b',', text) else {
        return None;
    };
    Some((&text[..place], &text[place + 1..]))
}

/// The six cells of a row without its LF.
fn split_cells(row: &[u8]) -> Option<RowCells<'_>>
    ensures { MatchOption result ((p : List ℕ) (q : List ℕ) (r : List ℕ) (s : List ℕ)
        (t : List ℕ) (u : List ℕ)
        → slice_split is_comma row.now ≢ p ∷ q ∷ r ∷ s ∷ t ∷ u ∷ [])
        (λ cells. slice_split is_comma row.now ≡ cells.kind.now ∷ cells.session.now
        ∷ cells.a.now ∷ cells.b.now ∷ cells.c.now ∷ cells.d.now ∷ []) }
{
    let (kind, rest) = cut_cell(row)?;
    let (session, rest) = cut_cell(rest)?;
    let (a, rest) = cut_cell(rest)?;
    let (b, rest) = cut_cell(rest)?;
    let (c, d) = cut_cell(rest)?;
    match cut_cell(d) {
        Some(_) => None,
        None => Some(RowCells {
            kind,
            session,
            a,
            b,
            c,
            d,
        }),
    }
}

/// The kind of row with this word.
fn kind_named(word: &[u8]) -> Option<Kind>
    ensures { MatchOption result ((kind : KindValue) → kind_text kind ≢ word.now)
        (λ kind. kind_text kind ≡ word.now) }
{
    if word == b"post".as_slice() {
        Some(Kind::Post)
    } else if word == b"read".as_slice() {
        Some(Kind::Read)
    } else if word == b"sent".as_slice() {
        Some(Kind::Sent)
    } else if word == b"refused".as_slice() {
        Some(Kind::Refused)
    } else if word == b"noted".as_slice() {
        Some(Kind::Noted)
    } else if word == b"ended".as_slice() {
        Some(Kind::Ended)
    } else if word == b"line".as_slice() {
        Some(Kind::Line)
    } else {
        None
    }
}

/// The number below 2^64 that is written so: digits without a leading zero.
fn read_number(text: &[u8]) -> Option<u64>
    ensures { MatchOption result ((number : ℕ) → number < 2 ^ 64 → decimal number ≢ text.now)
        (λ number. (number < 2 ^ 64) × (decimal number ≡ text.now)) }
{
    let Ok(digits) = std::str::from_utf8(text) else {
        return None;
    };
    let Ok(number) = digits.parse::<u64>() else {
        return None;
    };
    let mut buffer = Buffer::new();
    if buffer.format(number).as_bytes() == text {
        Some(number)
    } else {
        None
    }
}

/// The number in a cell, or none where it is empty.
fn read_column(cell: &[u8]) -> Option<Option<u64>>
    ensures { MatchOption result
        ((column : Option ℕ) → FitsColumn column → cell_text column ≢ cell.now)
        (λ column. FitsColumn column × (cell_text column ≡ cell.now)) }
{
    if cell.is_empty() {
        return Some(None);
    }
    let number = read_number(cell)?;
    Some(Some(number))
}

/// The columns of a row without its LF.
pub(crate) fn read_columns(row: &[u8]) -> Option<Columns>
    ensures { MatchOption result ((columns : ColumnsValue) → FitColumns columns
        → join_with_byte 44 (column_cells columns) ≢ row.now)
        (λ columns. FitColumns columns × (join_with_byte 44 (column_cells columns) ≡ row.now)) }
{
    let Some(cells) = split_cells(row) else {
        return None;
    };
    let Some(kind) = kind_named(cells.kind) else {
        return None;
    };
    let Some(session) = read_number(cells.session) else {
        return None;
    };
    let Some(a) = read_column(cells.a) else {
        return None;
    };
    let Some(b) = read_column(cells.b) else {
        return None;
    };
    let Some(c) = read_column(cells.c) else {
        return None;
    };
    let Some(d) = read_column(cells.d) else {
        return None;
    };
    Some(Columns {
        kind,
        session,
        a,
        b,
        c,
        d,
    })
}
