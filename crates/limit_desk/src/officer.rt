//! Officer files: the limits and the levels of the halt that an officer posts.
ghost use Rattle.std.specs.Prelude.{◌≡◌, ◌≢◌, ◌<◌, ◌-◌, ◌^◌, ◌++◌, ◌∷◌, [], min, IfOk, IfErr, OnOk, IsTrue};
ghost use Rattle.std.specs.List.{list_all, position};
ghost use Rattle.std.specs.Char.{is_ascii_digit};
ghost use Rattle.std.specs.Str.Parse.{digits_value};
ghost use Rattle.csv.specs.Records.{fields_of};
ghost use Rattle.limit_table.specs.Columns.{column, is_number};
ghost use Rattle.limit_table.specs.Kinds.{same_text};
ghost use Rattle.limit_table.specs.declared.fault.LimitFault.TheVariants as fault;
ghost use Rattle.limit_desk.specs.Officers.{kind_named, value_in, limit_in, account_named, symbol_named};
ghost use Rattle.limit_desk.specs.Officers.{row_by, row_at, named_row, IsRead, IsRowFault};
ghost use Rattle.limit_desk.specs.Officers.{IsOfficerFile, IsFirstFault};
ghost use Rattle.limit_desk.specs.Posting.{AreOfficerRows};

use crate::least::OPEN;
use csv::{ByteRecord, ReaderBuilder};
use limit_table::{AccountRow, LimitFault, Limits, SymbolRow};
use std::alloc::Global;

/// The most bytes of an officer file.
const BYTES_MOST: usize = 1_048_576;

/// The most rows of an officer file.
pub const ROWS_MOST: usize = 50_000;

/// Where an officer posts.
#[derive(Clone, Copy, Debug, PartialEq, Eq)]
pub enum OfficerTree {
    /// The limit tree of the tree of sums with this number.
    Limit(u32),
    Halt,
}

/// A row of an officer file: a post.
#[derive(Clone, Copy, Debug, PartialEq, Eq)]
pub struct OfficerRow {
    pub tree: OfficerTree,
    pub value: u64,
}

/// What a row's first column says.
#[derive(Clone, Copy, Debug, PartialEq, Eq)]
pub(crate) enum OfficerKind {
    Firm,
    Account,
    Symbol,
    Halt,
}

/// The kind with this name.
fn find_kind(word: &[u8]) -> Option<OfficerKind>
    ensures { result ≡ kind_named word.now }
{
    if word == b"firm".as_slice() {
        Some(OfficerKind::Firm)
    } else if word == b"account".as_slice() {
        Some(OfficerKind::Account)
    } else if word == b"symbol".as_slice() {
        Some(OfficerKind::Symbol)
    } else if word == b"halt".as_slice() {
        Some(OfficerKind::Halt)
    } else {
        None
    }
}

/// The text of the column at a place from 0, which is empty where there is none.
fn column(fields: &ByteRecord, place: usize) -> &[u8]
    ensures { result.now ≡ column (fields_of fields.now) place }
{
    match fields.get(place) {
        Some(text) => text,
        None => &[],
    }
}

/// Whether each byte is a decimal digit.
fn are_digits(text: &[u8]) -> bool
    ensures { result ≡ list_all is_ascii_digit text.now }
{
    text.iter().all(|byte| byte.is_ascii_digit())
}

/// Whether the text is 1 to 12 digits.
fn is_number(text: &[u8]) -> bool
    ensures { result ≡ is_number text.now }
{
    are_digits(text) && 1 <= text.len() && text.len() <= 12
}

/// The number that the digits write, or the largest number where it is larger.
fn number_of(digits: &[u8]) -> u64
    requires { IsTrue (list_all is_ascii_digit digits.now) }
    ensures { result ≡ min (digits_value 10 digits.now) (2 ^ 64 - 1) }
{
    let mut value = 0u64;
    for digit in digits {
        value = value
            .saturating_mul(10)
            .saturating_add(u64::from(*digit - b'0'));
    }
    value
}

/// The number in a column of the row with this number, at most `most`.
fn read_value(row: u32, text: &[u8], most: u64) -> Result<u64, LimitFault>
    requires { most < 2 ^ 64 - 1 }
    ensures { result ≡ value_in row most text.now }
{
    if !is_number(text) {
        return Err(LimitFault::Number(row));
    }
    let value = number_of(text);
    if most < value {
        return Err(LimitFault::Number(row));
    }
    Ok(value)
}

/// The limit in a column: a number, or that there is none.
fn read_limit(row: u32, text: &[u8]) -> Result<u64, LimitFault>
    ensures { result ≡ limit_in row text.now }
{
    if text == b"none".as_slice() {
        return Ok(OPEN);
    }
    read_value(row, text, OPEN - 1)
}

/// The place of the first account of this name, from 0.
fn account_place(rows: &[AccountRow], name: &[u8]) -> Option<usize>
    ensures { result ≡ position (λ row. same_text row.name name.now) rows.now }
{
    rows.iter().position(|row| row.name.bytes() == name)
}

/// The place of the first symbol of this name, from 0.
fn symbol_place(rows: &[SymbolRow], name: &[u8]) -> Option<usize>
    ensures { result ≡ position (λ row. same_text row.name name.now) rows.now }
{
    rows.iter().position(|row| row.name.bytes() == name)
}

/// The tree of the account of this name.
fn find_account(limits: &Limits, name: &[u8]) -> Option<u32>
    ensures { result ≡ account_named limits.now name.now }
{
    let _few = limits.halt_tree();
    match account_place(limits.accounts(), name) {
        Some(place) => Some(limits.account_tree(place as u32)),
        None => None,
    }
}

/// The tree of the symbol of this name.
fn find_symbol(limits: &Limits, name: &[u8]) -> Option<u32>
    ensures { result ≡ symbol_named limits.now name.now }
{
    let _few = limits.halt_tree();
    match symbol_place(limits.symbols(), name) {
        Some(place) => Some(limits.symbol_tree(place as u32)),
        None => None,
    }
}

/// A post of the value in the limit tree of this tree, if there is one.
fn post_in(row: u32, tree: Option<u32>, value: u64) -> Result<OfficerRow, LimitFault>
    ensures { result ≡ named_row row tree value }
{
    match tree {
        Some(tree) => Ok(OfficerRow {
            tree: OfficerTree::Limit(tree),
            value,
        }),
        None => Err(LimitFault::Name(row)),
    }
}

/// What a row of this kind sets by its name and its third column.
fn read_by(
    limits: &Limits,
    row: u32,
    kind: OfficerKind,
    name: &[u8],
    text: &[u8],
) -> Result<OfficerRow, LimitFault>
    ensures { result ≡ row_by limits.now row kind name.now text.now }
{
    match kind {
        OfficerKind::Firm | OfficerKind::Halt if !name.is_empty() => Err(LimitFault::RowShape(row)),
        OfficerKind::Firm => post_in(row, Some(0), read_limit(row, text)?),
        OfficerKind::Account => {
            let value = read_limit(row, text)?;
            post_in(row, find_account(limits, name), value)
        }
        OfficerKind::Symbol => {
            let value = read_limit(row, text)?;
            post_in(row, find_symbol(limits, name), value)
        }
        OfficerKind::Halt => Ok(OfficerRow {
            tree: OfficerTree::Halt,
            value: read_value(row, text, 1)?,
        }),
    }
}

/// What the row with this number sets, or what is wrong with it.
fn read_row(limits: &Limits, row: u32, fields: &ByteRecord) -> Result<OfficerRow, LimitFault>
    ensures { result ≡ row_at limits.now row (fields_of fields.now) }
{
    if fields.len() != 3 {
        return Err(LimitFault::RowShape(row));
    }
    let Some(kind) = find_kind(column(fields, 0)) else {
        return Err(LimitFault::Kind(row));
    };
    let read = read_by(limits, row, kind, column(fields, 1), column(fields, 2))?;
    if row as usize > ROWS_MOST {
        return Err(LimitFault::TooMany(row));
    }
    Ok(read)
}

/// Adds a post.
fn add_row(rows: &mut Vec<OfficerRow>, row: OfficerRow) -> Result<(), LimitFault>
    ensures added { OnOk result (rows.new.items ≡ rows.old.items ++ row ∷ []) }
    ensures refused { IfErr result (λ why. why ≡ fault.Memory) }
{
    match rows.push(row) {
        Ok(()) => Ok(()),
        Err(_) => Err(LimitFault::Memory),
    }
}

/// The posts of a text, or the first fault of a row.
fn read_rows(alloc: Global, limits: &Limits, bytes: &[u8]) -> Result<Vec<OfficerRow>, LimitFault>
    ensures read { IfOk result (λ rows. IsRead limits.now bytes.now rows.items) }
    ensures refused { IfErr result (λ why. why ≢ fault.Memory → IsRowFault limits.now bytes.now why) }
{
    let reader = ReaderBuilder::new()
        .has_headers(false)
        .flexible(true)
        .from_reader(alloc, bytes);
    let mut rows = Vec::new(alloc);
    for record in reader.into_byte_records() {
        let Ok(fields) = record else {
            return Err(LimitFault::Memory);
        };
        let row = match read_row(limits, rows.len() as u32 + 1, &fields) {
            Ok(row) => row,
            Err(why) => return Err(why),
        };
        match add_row(&mut rows, row) {
            Ok(()) => {}
            Err(why) => return Err(why),
        }
    }
    Ok(rows)
}

/// The posts of an officer file, one for each row, in order, or the first fault of a text that is none.
pub fn read_officer(
    alloc: Global,
    limits: &Limits,
    bytes: &[u8],
) -> Result<Vec<OfficerRow>, LimitFault>
    ensures read { IfOk result (λ rows. IsOfficerFile limits.now bytes.now rows.items) }
    ensures sound { IfOk result (λ rows. AreOfficerRows limits.now rows.items) }
    ensures refused { IfErr result (λ why. why ≢ fault.Memory → IsFirstFault limits.now bytes.now why) }
{
    if bytes.len() > BYTES_MOST {
        return Err(LimitFault::TooMany(0));
    }
    read_rows(alloc, limits, bytes)
}
