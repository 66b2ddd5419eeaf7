//! A row by itself, and a row after others.
ghost use Rattle.std.specs.Prelude.{◌≡◌, count_by, ◌≤◌, nat_le};
ghost use Rattle.std.specs.List.{list_any};
ghost use Rattle.csv.specs.Records.{fields_of};
ghost use Rattle.limit_table.specs.Columns.{texts_in};
ghost use Rattle.limit_table.specs.Entries.{entry_of, entry_by, symbol_in, account_in, off_in};
ghost use Rattle.limit_table.specs.Faults.{entry_fault, same_key, count_alike, row_after};

use crate::columns::{
    Columns, are_blank, is_mode_of, is_net, read_band_price, read_count, read_name, read_number,
    split_columns,
};
use crate::kind::{AccountRow, Cause, Entry, Kind, OffRow, SymbolRow, find_kind};
use crate::version::Version;
use csv::ByteRecord;

/// The largest limit in currency units.
const AMOUNT_MOST: u64 = 999_999_999_999;

/// The largest size of an order, in shares.
const SIZE_MOST: u64 = 1_000_000_000;

/// The largest number of refusals that trips the halt.
const TRIP_MOST: u32 = 1_000_000;

/// The largest quota that a file may set.
const QUOTA_MOST: u32 = 200_000;

/// The longest window of the screen of repeats, in orders.
const REPEAT_MOST: u32 = 64;

/// The last order from which a screen may be dropped.
const OFF_MOST: u32 = 1_000_000_000;

/// The columns of an account.
fn read_account(row: &Columns<'_>) -> Result<Entry, Cause>
    ensures { result ≡ account_in (texts_in row.now) }
{
    let limit = read_number(row.limit, 0, AMOUNT_MOST)?;
    let name = read_name(row.name)?;
    let net = is_net(row.mode);
    Ok(Entry::Account(AccountRow { name, limit, net }))
}

/// The columns of a symbol.
fn read_symbol(row: &Columns<'_>) -> Result<Entry, Cause>
    ensures { result ≡ symbol_in (texts_in row.now) }
{
    let limit = read_number(row.limit, 0, AMOUNT_MOST)?;
    let low = read_band_price(row.low)?;
    let high = read_band_price(row.high)?;
    let size = read_number(row.size, 1, SIZE_MOST)?;
    let name = read_name(row.name)?;
    Ok(Entry::Symbol(SymbolRow {
        name,
        limit,
        low,
        high,
        size,
    }))
}

/// The columns of a screen that is dropped.
fn read_off(row: &Columns<'_>) -> Result<Entry, Cause>
    ensures { result ≡ off_in (texts_in row.now) }
{
    let from = read_count(row.limit, 0, OFF_MOST)?;
    let name = read_name(row.name)?;
    Ok(Entry::Off(OffRow { name, from }))
}

/// The columns of a row of this kind.
fn read_by(kind: Kind, row: &Columns<'_>) -> Result<Entry, Cause>
    ensures { result ≡ entry_by kind (texts_in row.now) }
{
    match kind {
        Kind::Firm => Ok(Entry::Firm(read_number(row.limit, 0, AMOUNT_MOST)?)),
        Kind::Account => read_account(row),
        Kind::Symbol => read_symbol(row),
        Kind::Trip => Ok(Entry::Trip(read_count(row.limit, 1, TRIP_MOST)?)),
        Kind::Quota => Ok(Entry::Quota(read_count(row.limit, 1, QUOTA_MOST)?)),
        Kind::Repeat => Ok(Entry::Repeat(read_count(row.limit, 0, REPEAT_MOST)?)),
        Kind::Off => read_off(row),
    }
}

/// What a row of a file of this version sets, looked at by itself.
fn read_entry(version: Version, fields: &ByteRecord) -> Result<Entry, Cause>
    ensures { result ≡ entry_of version (fields_of fields.now) }
{
    if fields.len() != version.column_count() {
        return Err(Cause::RowShape);
    }
    let columns = split_columns(fields);
    let Some(kind) = find_kind(columns.kind) else {
        return Err(Cause::Kind);
    };
    if !is_mode_of(kind, &columns) {
        return Err(Cause::Kind);
    }
    if !are_blank(kind, &columns) {
        return Err(Cause::RowShape);
    }
    read_by(kind, &columns)
}

/// Whether a row before has the same kind and the same name.
fn is_repeated(earlier: &[Entry], entry: &Entry) -> bool
    ensures { result ≡ list_any (same_key entry.now) earlier.now }
{
    earlier.iter().any(|other| entry.has_key_of(other))
}

/// How many rows before are of the same kind.
fn count_alike(earlier: &[Entry], entry: &Entry) -> usize
    ensures { result ≡ count_alike entry.now earlier.now }
{
    earlier.iter().filter(|other| entry.is_like(other)).count()
}

/// What is wrong with a row after the rows before, if anything.
fn find_fault(earlier: &[Entry], entry: &Entry) -> Option<Cause>
    ensures { result ≡ entry_fault earlier.now entry.now }
{
    if is_repeated(earlier, entry) {
        Some(Cause::Repeated)
    } else if entry.kind().rows_most() <= count_alike(earlier, entry) {
        Some(Cause::TooMany)
    } else if entry.is_crossed() {
        Some(Cause::Band)
    } else {
        None
    }
}

/// What a row sets after the rows before, or what is wrong with it.
pub(crate) fn read_row(
    version: Version,
    earlier: &[Entry],
    fields: &ByteRecord,
) -> Result<Entry, Cause>
    ensures { result ≡ row_after version earlier.now (fields_of fields.now) }
{
    let entry = read_entry(version, fields)?;
    match find_fault(earlier, &entry) {
        Some(cause) => Err(cause),
        None => Ok(entry),
    }
}
