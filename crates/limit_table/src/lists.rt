//! The accounts, symbols and screens of a limit file, in the order of their rows.
ghost use Rattle.std.specs.Prelude.{◌≡◌, ◌<◌, ◌^◌, length, IfOk, map};
ghost use Rattle.limit_table.specs.Places.{IsPlaceOf, account_names, symbol_names};

use crate::kind::{AccountRow, OffRow, SymbolRow};
use crate::places::index_names;
use fix_fields::Id;
use fold_law::Memory;
use std::alloc::Global;
use std::collections::BTreeMap;
use std::marker::Model;

/// Account rows. Contracts see the list of them.
#[derive(Drop)]
pub struct Accounts {
    rows: Vec<AccountRow>,
    places: BTreeMap<Id, u32>,
}

impl Model for Accounts {
    ghost use Rattle.std.specs.Prelude.{List};
    ghost use Rattle.limit_table.specs.declared.kind.AccountRow.{AccountRow as Row};
    ghost use Rattle.limit_table.specs.Places.{IsIndex, account_names};

    ghost Value = { List Row };

    ghost view = { λ a. a.rows.items };

    ghost use Rattle.std.specs.Ordering.{nat_cmp};
    ghost use Rattle.std.specs.Cmp.Lexicographic.{slice_cmp};
    ghost use Rattle.std.specs.BTreeMap.{get};

    ghost invariant = { λ a.
        IsIndex (account_names a.rows.items) (get (slice_cmp nat_cmp) a.places) };
}

/// Symbol rows. Contracts see the list of them.
#[derive(Drop)]
pub struct Symbols {
    rows: Vec<SymbolRow>,
    places: BTreeMap<Id, u32>,
}

impl Model for Symbols {
    ghost use Rattle.std.specs.Prelude.{List};
    ghost use Rattle.limit_table.specs.declared.kind.SymbolRow.{SymbolRow as Row};
    ghost use Rattle.limit_table.specs.Places.{IsIndex, symbol_names};

    ghost Value = { List Row };

    ghost view = { λ a. a.rows.items };

    ghost use Rattle.std.specs.Ordering.{nat_cmp};
    ghost use Rattle.std.specs.Cmp.Lexicographic.{slice_cmp};
    ghost use Rattle.std.specs.BTreeMap.{get};

    ghost invariant = { λ a.
        IsIndex (symbol_names a.rows.items) (get (slice_cmp nat_cmp) a.places) };
}

/// Screens that are dropped. Contracts see the list of them.
#[derive(Drop)]
pub struct OffRows {
    rows: Vec<OffRow>,
}

impl Model for OffRows {
    ghost use Rattle.std.specs.Prelude.{List};
    ghost use Rattle.limit_table.specs.declared.kind.OffRow.{OffRow as Row};

    ghost Value = { List Row };

    ghost view = { λ a. a.rows.items };
}

/// The names of the accounts, in order.
fn name_accounts(alloc: Global, rows: &[AccountRow]) -> Result<Vec<Id>, Memory>
    ensures { IfOk result (λ names. names.items ≡ account_names rows.now) }
{
    match rows.iter().map(|row| row.name).collect(alloc) {
        Ok(names) => Ok(names),
        Err(_) => Err(Memory),
    }
}

/// The names of the symbols, in order.
fn name_symbols(alloc: Global, rows: &[SymbolRow]) -> Result<Vec<Id>, Memory>
    ensures { IfOk result (λ names. names.items ≡ symbol_names rows.now) }
{
    match rows.iter().map(|row| row.name).collect(alloc) {
        Ok(names) => Ok(names),
        Err(_) => Err(Memory),
    }
}

impl Accounts {
    /// These rows in this order.
    pub fn new(alloc: Global, rows: Vec<AccountRow>) -> Result<Accounts, Memory>
        requires { length rows.items < 2 ^ 32 }
        ensures { IfOk result (λ accounts. accounts ≡ rows.items) }
    {
        let names = name_accounts(alloc, rows.as_slice())?;
        let places = index_names(alloc, names.as_slice())?;
        Ok(Accounts { rows, places })
    }

    /// The rows, in order.
    pub fn rows(&self) -> &[AccountRow]
        ensures { result.now ≡ self.now }
    {
        self.rows.as_slice()
    }

    /// The rows, in order, given back.
    pub fn into_rows(self) -> Vec<AccountRow>
        ensures { result.items ≡ self }
    {
        self.rows
    }

    /// The place of a row with this name, from 0.
    pub(crate) fn place(&self, name: &Id) -> Option<u32>
        ensures { IsPlaceOf (account_names self.now) name.now result }
    {
        self.places.get(name).copied()
    }
}

impl Symbols {
    /// These rows in this order.
    pub fn new(alloc: Global, rows: Vec<SymbolRow>) -> Result<Symbols, Memory>
        requires { length rows.items < 2 ^ 32 }
        ensures { IfOk result (λ symbols. symbols ≡ rows.items) }
    {
        let names = name_symbols(alloc, rows.as_slice())?;
        let places = index_names(alloc, names.as_slice())?;
        Ok(Symbols { rows, places })
    }

    /// The rows, in order.
    pub fn rows(&self) -> &[SymbolRow]
        ensures { result.now ≡ self.now }
    {
        self.rows.as_slice()
    }

    /// The rows, in order, given back.
    pub fn into_rows(self) -> Vec<SymbolRow>
        ensures { result.items ≡ self }
    {
        self.rows
    }

    /// The place of a row with this name, from 0.
    pub(crate) fn place(&self, name: &Id) -> Option<u32>
        ensures { IsPlaceOf (symbol_names self.now) name.now result }
    {
        self.places.get(name).copied()
    }
}

impl OffRows {
    /// These rows in this order.
    pub fn new(rows: Vec<OffRow>) -> OffRows
        ensures { result ≡ rows.items }
    {
        OffRows { rows }
    }

    /// The rows, in order.
    pub fn rows(&self) -> &[OffRow]
        ensures { result.now ≡ self.now }
    {
        self.rows.as_slice()
    }

    /// The rows, in order, given back.
    pub fn into_rows(self) -> Vec<OffRow>
        ensures { result.items ≡ self }
    {
        self.rows
    }
}
