//! The limits that the rows of a file set.
ghost use Rattle.std.specs.Prelude.{◌≡◌, ◌≢◌, ◌<◌, ◌^◌, length, IfOk, IfErr, find, filter_map, option_map};
ghost use Rattle.std.specs.Prelude.{Some, None};
ghost use Rattle.limit_table.specs.Kinds.{kind_of, same_kind};
ghost use Rattle.limit_table.specs.Tables.{first_of, account_in, symbol_in, off_in, firm_of, trip_of};
ghost use Rattle.limit_table.specs.Tables.{quota_of, repeat_of, limits_of, IsFew};
ghost use Rattle.limit_table.specs.Files.{AreOfFile};
ghost use Rattle.limit_table.specs.declared.fault.LimitFault.TheVariants as fault;

use crate::fault::LimitFault;
use crate::kind::{AccountRow, Entry, Kind, OffRow, SymbolRow};
use crate::limits::Limits;
use crate::lists::{Accounts, OffRows, Symbols};
use std::alloc::{AllocError, Global};

/// The quota that a file sets which has no row of it.
const QUOTA_DEFAULT: u32 = 50_000;

/// The first row of a kind.
fn find_first(entries: &[Entry], kind: Kind) -> Option<&Entry>
    ensures { option_map (λ entry. entry.now) result ≡ first_of kind entries.now }
{
    entries.iter().find(|entry| entry.kind().is(kind))
}

/// The firm's limit, if there is a row of the firm.
fn find_firm(entries: &[Entry]) -> Option<u64>
    ensures { result ≡ firm_of entries.now }
{
    match find_first(entries, Kind::Firm) {
        Some(Entry::Firm(limit)) => Some(*limit),
        _ => None,
    }
}

/// The number of refusals with which the halt is tripped, if there is one.
fn find_trip(entries: &[Entry]) -> Option<u32>
    ensures { result ≡ trip_of entries.now }
{
    match find_first(entries, Kind::Trip) {
        Some(Entry::Trip(count)) => Some(*count),
        _ => None,
    }
}

/// The most posts of a session in one tree.
fn find_quota(entries: &[Entry]) -> u32
    ensures { result ≡ quota_of entries.now }
{
    match find_first(entries, Kind::Quota) {
        Some(Entry::Quota(count)) => *count,
        _ => QUOTA_DEFAULT,
    }
}

/// The setting of the screen of repeats.
fn find_repeat(entries: &[Entry]) -> u32
    ensures { result ≡ repeat_of entries.now }
{
    match find_first(entries, Kind::Repeat) {
        Some(Entry::Repeat(count)) => *count,
        _ => 0,
    }
}

/// The account rows, in order.
fn account_rows(alloc: Global, entries: &[Entry]) -> Result<Vec<AccountRow>, AllocError>
    ensures { IfOk result (λ rows. rows.items ≡ filter_map account_in entries.now) }
{
    entries
        .iter()
        .filter_map(|entry| match entry {
            Entry::Account(row) => Some(*row),
            _ => None,
        })
        .collect(alloc)
}

/// The symbol rows, in order.
fn symbol_rows(alloc: Global, entries: &[Entry]) -> Result<Vec<SymbolRow>, AllocError>
    ensures { IfOk result (λ rows. rows.items ≡ filter_map symbol_in entries.now) }
{
    entries
        .iter()
        .filter_map(|entry| match entry {
            Entry::Symbol(row) => Some(*row),
            _ => None,
        })
        .collect(alloc)
}

/// The rows of dropped screens, in order.
fn off_rows(alloc: Global, entries: &[Entry]) -> Result<Vec<OffRow>, AllocError>
    ensures { IfOk result (λ rows. rows.items ≡ filter_map off_in entries.now) }
{
    entries
        .iter()
        .filter_map(|entry| match entry {
            Entry::Off(row) => Some(*row),
            _ => None,
        })
        .collect(alloc)
}

/// The accounts, in order.
fn make_accounts(alloc: Global, entries: &[Entry]) -> Result<Accounts, LimitFault>
    requires { IsFew entries.now }
    ensures made { IfOk result (λ rows. rows ≡ filter_map account_in entries.now) }
    ensures refused { IfErr result (λ why. why ≡ fault.Memory) }
{
    let Ok(rows) = account_rows(alloc, entries) else {
        return Err(LimitFault::Memory);
    };
    match Accounts::new(alloc, rows) {
        Ok(accounts) => Ok(accounts),
        Err(_) => Err(LimitFault::Memory),
    }
}

/// The symbols, in order.
fn make_symbols(alloc: Global, entries: &[Entry]) -> Result<Symbols, LimitFault>
    requires { IsFew entries.now }
    ensures made { IfOk result (λ rows. rows ≡ filter_map symbol_in entries.now) }
    ensures refused { IfErr result (λ why. why ≡ fault.Memory) }
{
    let Ok(rows) = symbol_rows(alloc, entries) else {
        return Err(LimitFault::Memory);
    };
    match Symbols::new(alloc, rows) {
        Ok(symbols) => Ok(symbols),
        Err(_) => Err(LimitFault::Memory),
    }
}

/// The limits that the rows set.
pub(crate) fn make_limits(alloc: Global, entries: &[Entry]) -> Result<Limits, LimitFault>
    requires { AreOfFile entries.now }
    ensures made { IfOk result (λ limits. limits_of entries.now ≡ Some limits) }
    ensures refused { IfErr result (λ why.
        why ≢ fault.Memory → (why ≡ fault.NoFirm) × (firm_of entries.now ≡ None)) }
{
    let Some(firm) = find_firm(entries) else {
        return Err(LimitFault::NoFirm);
    };
    let accounts = make_accounts(alloc, entries)?;
    let symbols = make_symbols(alloc, entries)?;
    let Ok(off) = off_rows(alloc, entries) else {
        return Err(LimitFault::Memory);
    };
    Ok(Limits {
        firm,
        accounts,
        symbols,
        trip: find_trip(entries),
        quota: find_quota(entries),
        repeat: find_repeat(entries),
        off: OffRows::new(off),
    })
}
