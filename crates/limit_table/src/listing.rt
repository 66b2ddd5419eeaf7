//! The rows that are written for limits, in order.
ghost use Rattle.std.specs.Prelude.{◌≡◌, ◌++◌, ◌∷◌, [], map, OnOk, IfOk};
ghost use Rattle.limit_table.specs.Printing.{trip_rows, entries_in};
ghost use Rattle.limit_table.specs.declared.kind.Entry.TheVariants as entry;

use crate::kind::{AccountRow, Entry, OffRow, SymbolRow};
use crate::limits::Limits;
use fold_law::Memory;
use std::alloc::Global;

/// Adds a row.
fn add_row(rows: &mut Vec<Entry>, row: Entry) -> Result<(), Memory>
    ensures { OnOk result (rows.new.items ≡ rows.old.items ++ row ∷ []) }
{
    match rows.push(row) {
        Ok(()) => Ok(()),
        Err(_) => Err(Memory),
    }
}

/// Adds a row for each account.
fn add_accounts(rows: &mut Vec<Entry>, accounts: &[AccountRow]) -> Result<(), Memory>
    ensures { OnOk result
        (rows.new.items ≡ rows.old.items ++ map (λ row. entry.Account row) accounts.now) }
{
    for account in accounts {
        add_row(rows, Entry::Account(*account))?;
    }
    Ok(())
}

/// Adds a row for each symbol.
fn add_symbols(rows: &mut Vec<Entry>, symbols: &[SymbolRow]) -> Result<(), Memory>
    ensures { OnOk result
        (rows.new.items ≡ rows.old.items ++ map (λ row. entry.Symbol row) symbols.now) }
{
    for symbol in symbols {
        add_row(rows, Entry::Symbol(*symbol))?;
    }
    Ok(())
}

/// Adds the row that trips the halt, if there is one.
fn add_trip(rows: &mut Vec<Entry>, trip: Option<u32>) -> Result<(), Memory>
    ensures { OnOk result (rows.new.items ≡ rows.old.items ++ trip_rows trip) }
{
    match trip {
        Some(count) => add_row(rows, Entry::Trip(count)),
        None => Ok(()),
    }
}

/// Adds a row for each screen that is dropped.
fn add_off(rows: &mut Vec<Entry>, off: &[OffRow]) -> Result<(), Memory>
    ensures { OnOk result (rows.new.items ≡ rows.old.items ++ map (λ row. entry.Off row) off.now) }
{
    for screen in off {
        add_row(rows, Entry::Off(*screen))?;
    }
    Ok(())
}

/// The rows for these limits: the firm, the accounts, the symbols, the trip if there is one, the
/// quota, the repeats and the screens that are dropped.
pub(crate) fn list_rows(alloc: Global, limits: &Limits) -> Result<Vec<Entry>, Memory>
    ensures { IfOk result (λ rows. rows.items ≡ entries_in limits.now) }
{
    let mut rows = Vec::new(alloc);
    add_row(&mut rows, Entry::Firm(limits.firm))?;
    add_accounts(&mut rows, limits.accounts.rows())?;
    add_symbols(&mut rows, limits.symbols.rows())?;
    add_trip(&mut rows, limits.trip)?;
    add_row(&mut rows, Entry::Quota(limits.quota))?;
    add_row(&mut rows, Entry::Repeat(limits.repeat))?;
    add_off(&mut rows, limits.off.rows())?;
    Ok(rows)
}
