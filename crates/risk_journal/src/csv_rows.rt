//! Rows of six cells: a kind, a session and four numbers, of which some aren't there.
ghost use Rattle.std.specs.Prelude.{◌≡◌, ◌+◌, ◌≤◌, ◌++◌, [], ◌∷◌, drop, decimal, OnOk};
ghost use Rattle.risk_journal.specs.JournalText.{row_text};
ghost use Rattle.risk_journal.specs.RowCells.{cell_text};

use fold_law::Memory;
use itoa::{Buffer, write_digits};

/// The last four cells of a row, of which some are empty.
pub(crate) type Cells = (Option<u64>, Option<u64>, Option<u64>, Option<u64>);

/// The bytes of a session and four cells with their commas and LF, and more.
const ROW_MOST: usize = 128;

/// Writes a cell so that it ends at a place, and gives the place where it begins.
#[inline(always)]
fn write_cell(row: &mut [u8; ROW_MOST], end: usize, cell: Option<u64>) -> usize
    requires { (20 ≤ end) × (end ≤ 128) }
    ensures few { (result ≤ end) × (end ≤ result + 20) }
    ensures written { drop result row.new ≡ cell_text cell ++ drop end row.old }
{
    match cell {
        Some(number) => write_digits(number, row, end),
        None => end,
    }
}

/// Writes a comma and a cell so that they end at a place, and gives the place where they begin.
fn write_next_cell(row: &mut [u8; ROW_MOST], end: usize, cell: Option<u64>) -> usize
    requires { (21 ≤ end) × (end ≤ 128) }
    ensures few { (result ≤ end) × (end ≤ result + 21) }
    ensures written { drop result row.new ≡ 44 ∷ (cell_text cell ++ drop end row.old) }
{
    let from = write_cell(row, end, cell);
    row[from - 1] = b',';
    from - 1
}

/// Writes a row behind the text. What follows its kind is written from the back, and then added at
/// once.
pub(crate) fn add_row(
    text: &mut Vec<u8>,
    kind: &[u8],
    session: u64,
    cells: Cells,
) -> Result<(), Memory>
    ensures { OnOk result (text.new.items ≡ text.old.items ++ row_text (kind.now ∷ decimal session
        ∷ cell_text cells.0 ∷ cell_text cells.1 ∷ cell_text cells.2 ∷ cell_text cells.3 ∷ [])) }
{
    let mut row = [b'\n'; ROW_MOST];
    let fourth = write_next_cell(&mut row, ROW_MOST - 1, cells.3);
    let third = write_next_cell(&mut row, fourth, cells.2);
    let second = write_next_cell(&mut row, third, cells.1);
    let first = write_next_cell(&mut row, second, cells.0);
    let from = write_next_cell(&mut row, first, Some(session));
    add(text, kind)?;
    add(text, &row[from..])
}

/// Writes a number behind the text.
pub(crate) fn add_number(text: &mut Vec<u8>, number: u64) -> Result<(), Memory>
    ensures { OnOk result (text.new.items ≡ text.old.items ++ decimal number) }
{
    let mut buffer = Buffer::new();
    add(text, buffer.format(number).as_bytes())
}

/// Writes bytes behind the text.
pub(crate) fn add(text: &mut Vec<u8>, bytes: &[u8]) -> Result<(), Memory>
    ensures { OnOk result (text.new.items ≡ text.old.items ++ bytes.now) }
{
    match text.extend_from_slice(bytes) {
        Ok(()) => Ok(()),
        Err(_) => Err(Memory),
    }
}
