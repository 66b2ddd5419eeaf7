//! The rows of a journal, read.
ghost use Rattle.std.specs.Prelude.{◌≡◌, ◌≢◌, ◌++◌, ◌∷◌, [], ℕ, MatchOption};
ghost use Rattle.risk_journal.specs.Rows.{FitsRow, FitColumns, columns_of, text_of_row};
ghost use Rattle.risk_journal.specs.Rows.{act_columns};
ghost use Rattle.risk_journal.specs.Rows.{end_column, columns_in};
ghost use Rattle.risk_journal.specs.RowWith.{row_with, act_with, end_with, word_of, byte_of};
ghost use Rattle.risk_journal.specs.RowWith.{number_of, are_same};
ghost use Rattle.risk_journal.specs.declared.rows.Row.{Row as RowValue};

use crate::acts::{Act, End};
use crate::csv_rows::Cells;
use crate::journal::{answer_cells, number_of_end, some};
use crate::row_cells::read_columns;
use crate::rows::{Columns, Kind, Row};
use risk_board::Line;

/// The row of this text without its LF.
pub(crate) fn read_row(text: &[u8]) -> Option<Row>
    ensures { MatchOption result ((row : RowValue) → FitsRow row
        → text_of_row row ≢ text.now ++ 10 ∷ [])
        (λ row. FitsRow row × (text_of_row row ≡ text.now ++ 10 ∷ [])) }
{
    let Some(columns) = read_columns(text) else {
        return None;
    };
    let Some(row) = row_of(&columns) else {
        return None;
    };
    Some(row)
}

/// The row with these columns.
fn row_of(columns: &Columns) -> Option<Row>
    requires { FitColumns columns.now }
    ensures { MatchOption result
        ((row : RowValue) → FitsRow row → columns_of row ≢ columns.now)
        (λ row. FitsRow row × (columns_of row ≡ columns.now)) }
{
    let row = row_for(columns);
    let own = columns_for(&row);
    if do_agree(&own, columns) {
        Some(row)
    } else {
        None
    }
}

/// Whether the numbers of columns are the same.
fn do_agree(columns: &Columns, others: &Columns) -> bool
    ensures { result ≡ are_same columns.now others.now }
{
    columns.session == others.session
        && columns.a == others.a
        && columns.b == others.b
        && columns.c == others.c
        && columns.d == others.d
}

/// The row that has these columns, if any has.
fn row_for(columns: &Columns) -> Row
    ensures { result ≡ row_with columns.now }
{
    match columns.kind {
        Kind::Line => Row::OfTree {
            tree: word(columns.a),
            place: word(columns.b),
            line: Line {
                session: word(Some(columns.session)),
                index: word(columns.c),
                value: number(columns.d),
            },
        },
        Kind::Post | Kind::Read | Kind::Sent | Kind::Refused | Kind::Noted | Kind::Ended => {
            Row::OfSession {
                session: word(Some(columns.session)),
                act: act_for(columns),
            }
        }
    }
}

/// The act that has these columns, if any has.
fn act_for(columns: &Columns) -> Act
    ensures { result ≡ act_with columns.now }
{
    match columns.kind {
        Kind::Post => Act::Post {
            tree: word(columns.a),
            index: word(columns.b),
            value: number(columns.c),
        },
        Kind::Read => Act::Read {
            tree: word(columns.a),
            stamp: word(columns.b),
            place: word(columns.c),
            value: number(columns.d),
        },
        Kind::Sent | Kind::Line => Act::Sent {
            frame: word(columns.a),
        },
        Kind::Refused => Act::Refused {
            frame: word(columns.a),
            code: byte(columns.b),
            first: word(columns.c),
            second: word(columns.d),
        },
        Kind::Noted => Act::Noted {
            frame: word(columns.a),
            code: byte(columns.b),
            first: word(columns.c),
            second: word(columns.d),
        },
        Kind::Ended => Act::Ended {
            end: end_for(number(columns.a), number(columns.b)),
        },
    }
}

/// The end with this number, and with this place if it has one.
fn end_for(number: u64, place: u64) -> End
    ensures { result ≡ end_with number place }
{
    match number {
        1 => End::Cut(place),
        2 => End::Broken(place),
        3 => End::TooLong(place),
        4 => End::ReadFault,
        5 => End::WriteFault,
        6 => End::Memory,
        _ => End::Whole,
    }
}

/// A column's number below 2^32, or else 0.
fn word(column: Option<u64>) -> u32
    ensures { result ≡ word_of column }
{
    match column {
        Some(number) => u32::try_from(number).unwrap_or(0),
        None => 0,
    }
}

/// A column's number below 2^8, or else 0.
fn byte(column: Option<u64>) -> u8
    ensures { result ≡ byte_of column }
{
    match column {
        Some(number) => u8::try_from(number).unwrap_or(0),
        None => 0,
    }
}

/// A column's number, or else 0.
fn number(column: Option<u64>) -> u64
    ensures { result ≡ number_of column }
{
    column.unwrap_or(0)
}

/// The columns of a row.
fn columns_for(row: &Row) -> Columns
    ensures { result ≡ columns_of row.now }
{
    match *row {
        Row::OfSession { session, act } => act_columns_for(session, act),
        Row::OfTree { tree, place, line } => Columns {
            kind: Kind::Line,
            session: u64::from(line.session),
            a: Some(u64::from(tree)),
            b: Some(u64::from(place)),
            c: Some(u64::from(line.index)),
            d: Some(line.value),
        },
    }
}

/// The columns of an act of a session.
fn act_columns_for(session: u32, act: Act) -> Columns
    ensures { result ≡ act_columns session act }
{
    match act {
        Act::Post { tree, index, value } => {
            let cells = (some(tree), some(index), Some(value), None);
            columns(Kind::Post, session, cells)
        }
        Act::Read {
            tree,
            stamp,
            place,
            value,
        } => {
            let cells = (some(tree), some(stamp), some(place), Some(value));
            columns(Kind::Read, session, cells)
        }
        Act::Sent { frame } => columns(Kind::Sent, session, (some(frame), None, None, None)),
        Act::Refused {
            frame,
            code,
            first,
            second,
        } => {
            let cells = answer_cells(frame, code, first, second);
            columns(Kind::Refused, session, cells)
        }
        Act::Noted {
            frame,
            code,
            first,
            second,
        } => {
            let cells = answer_cells(frame, code, first, second);
            columns(Kind::Noted, session, cells)
        }
        Act::Ended { end } => {
            let cells = (Some(number_of_end(end)), column_of_end(end), None, None);
            columns(Kind::Ended, session, cells)
        }
    }
}

/// Columns with these last four.
fn columns(kind: Kind, session: u32, cells: Cells) -> Columns
    ensures { result ≡ columns_in kind session cells.0 cells.1 cells.2 cells.3 }
{
    Columns {
        kind,
        session: u64::from(session),
        a: cells.0,
        b: cells.1,
        c: cells.2,
        d: cells.3,
    }
}

/// The place of an end as a column.
fn column_of_end(end: End) -> Option<u64>
    ensures { result ≡ end_column end }
{
    match end {
        End::Cut(place) | End::Broken(place) | End::TooLong(place) => Some(place),
        End::Whole | End::ReadFault | End::WriteFault | End::Memory => None,
    }
}
