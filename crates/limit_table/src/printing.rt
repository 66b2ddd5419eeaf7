//! Limit files, written.
ghost use Rattle.std.specs.Prelude.{◌≡◌, [], map, take, length, OnOk, IfOk};
ghost use Rattle.std.specs.List.{list_any};
ghost use Rattle.csv.specs.Writing.{row_text, default_writer};
ghost use Rattle.limit_table.specs.Files.{IsLimitFile};
ghost use Rattle.limit_table.specs.Printing.{HasText, AppendsText, count_row, text_of, file_text};
ghost use Rattle.limit_table.specs.Printing.{version_text, written_version};
ghost use Rattle.limit_table.specs.Versions.{column_count};
ghost use Rattle.limit_table.specs.declared.kind.Entry.TheVariants as entry;

use crate::kind::{AccountRow, Entry, OffRow, SymbolRow};
use crate::limits::Limits;
use crate::listing::list_rows;
use crate::price::{PRICE_ROOM, print_price};
use crate::version::Version;
use csv::{Writer, WriterBuilder};
use fold_law::Memory;
use itoa::Buffer;
use std::alloc::Global;

/// Nothing in a column.
const NOTHING: &[u8] = b"";

/// A text with no row.
fn new_text(alloc: Global) -> Writer<Vec<u8>>
    ensures { HasText result [] }
{
    WriterBuilder::new().from_writer(Vec::new(alloc))
}

/// Writes a row of these seven columns, or of the first six in version 1.
fn write_row(text: &mut Writer<Vec<u8>>, version: Version, columns: &[&[u8]]) -> Result<(), Memory>
    requires { length columns.now ≡ 7 }
    ensures { OnOk result (AppendsText text.old text.new (row_text default_writer
        (take (column_count version) (map (λ column. column.now) columns.now)))) }
{
    match text.write_fields(&columns[..version.column_count()]) {
        Ok(()) => Ok(()),
        Err(_) => Err(Memory),
    }
}

/// Writes a row of one number.
fn write_count(
    text: &mut Writer<Vec<u8>>,
    version: Version,
    kind: &[u8],
    count: u64,
) -> Result<(), Memory>
    ensures { OnOk result (AppendsText text.old text.new
        (row_text default_writer (take (column_count version) (count_row kind.now count)))) }
{
    let mut digits = Buffer::new();
    let number = digits.format(count).as_bytes();
    write_row(
        text,
        version,
        &[kind, NOTHING, number, NOTHING, NOTHING, NOTHING, NOTHING],
    )
}

/// Writes the row of an account, whose mode is empty where it is gross.
fn write_account(
    text: &mut Writer<Vec<u8>>,
    version: Version,
    row: &AccountRow,
) -> Result<(), Memory>
    ensures { OnOk result (AppendsText text.old text.new
        (text_of version (entry.Account row.now))) }
{
    let mut digits = Buffer::new();
    let number = digits.format(row.limit).as_bytes();
    let name = row.name.bytes();
    if row.net {
        return write_row(
            text,
            version,
            &[b"account", name, number, NOTHING, NOTHING, NOTHING, b"net"],
        );
    }
    write_row(
        text,
        version,
        &[b"account", name, number, NOTHING, NOTHING, NOTHING, NOTHING],
    )
}

/// Writes the row of a screen that is dropped.
fn write_off(text: &mut Writer<Vec<u8>>, version: Version, row: &OffRow) -> Result<(), Memory>
    ensures { OnOk result (AppendsText text.old text.new (text_of version (entry.Off row.now))) }
{
    let mut digits = Buffer::new();
    let number = digits.format(u64::from(row.from)).as_bytes();
    let name = row.name.bytes();
    write_row(
        text,
        version,
        &[b"off", name, number, NOTHING, NOTHING, NOTHING, NOTHING],
    )
}

/// Writes the row of a symbol.
fn write_symbol(text: &mut Writer<Vec<u8>>, version: Version, row: &SymbolRow) -> Result<(), Memory>
    ensures { OnOk result (AppendsText text.old text.new
        (text_of version (entry.Symbol row.now))) }
{
    let (mut limit, mut size) = (Buffer::new(), Buffer::new());
    let (mut low, mut high) = ([0; PRICE_ROOM], [0; PRICE_ROOM]);
    write_row(
        text,
        version,
        &[
            b"symbol",
            row.name.bytes(),
            limit.format(row.limit).as_bytes(),
            print_price(row.low, &mut low),
            print_price(row.high, &mut high),
            size.format(row.size).as_bytes(),
            NOTHING,
        ],
    )
}

/// Writes the row that sets this.
fn write_entry(text: &mut Writer<Vec<u8>>, version: Version, set: &Entry) -> Result<(), Memory>
    ensures { OnOk result (AppendsText text.old text.new (text_of version set.now)) }
{
    match set {
        Entry::Firm(limit) => write_count(text, version, b"firm", *limit),
        Entry::Account(row) => write_account(text, version, row),
        Entry::Symbol(row) => write_symbol(text, version, row),
        Entry::Trip(count) => write_count(text, version, b"trip", u64::from(*count)),
        Entry::Quota(count) => write_count(text, version, b"quota", u64::from(*count)),
        Entry::Repeat(count) => write_count(text, version, b"repeat", u64::from(*count)),
        Entry::Off(row) => write_off(text, version, row),
    }
}

/// Writes the row that tells the version, which version 1 hasn't.
fn write_version(text: &mut Writer<Vec<u8>>, version: Version) -> Result<(), Memory>
    ensures { OnOk result (AppendsText text.old text.new (version_text version)) }
{
    match version {
        Version::One => Ok(()),
        Version::Two => write_row(
            text,
            version,
            &[
                b"version", b"2", NOTHING, NOTHING, NOTHING, NOTHING, NOTHING,
            ],
        ),
    }
}

/// Whether an account is net.
fn has_net(limits: &Limits) -> bool
    ensures { result ≡ list_any (λ row. row.net) limits.now.accounts }
{
    limits.accounts().iter().any(|row| row.net)
}

/// The version in which limits are written: 2 exactly where an account is net.
fn written_version(limits: &Limits) -> Version
    ensures { result ≡ written_version limits.now }
{
    if has_net(limits) {
        Version::Two
    } else {
        Version::One
    }
}

/// The limits as the text of a limit file, which `read_limits` reads as the same limits.
pub fn print_limits(alloc: Global, limits: &Limits) -> Result<Vec<u8>, Memory>
    ensures written { IfOk result (λ text. text.items ≡ file_text limits.now) }
    ensures read_again { IfOk result (λ text. IsLimitFile text.items limits.now) }
{
    limits.stand_in_a_file();
    let rows = list_rows(alloc, limits)?;
    let version = written_version(limits);
    let mut text = new_text(alloc);
    write_version(&mut text, version)?;
    for row in rows.as_slice() {
        write_entry(&mut text, version, row)?;
    }
    match text.into_inner() {
        Ok(text) => Ok(text),
        Err(_) => Err(Memory),
    }
}
