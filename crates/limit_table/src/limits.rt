//! The limits of a file, and the numbers of its trees.
ghost use Rattle.std.specs.Prelude.{◌≡◌, ◌≤◌, ◌<◌, length};
ghost use Rattle.std.specs.List.{slice_index_or};
ghost use Rattle.limit_table.specs.Entries.{quota_most};
ghost use Rattle.limit_table.specs.Files.{IsHeldByFile};
ghost use Rattle.limit_table.specs.Places.{IsPlaceOf, account_names, symbol_names};
ghost use Rattle.limit_table.specs.Trees.{halt_tree, account_tree, symbol_tree, tree_limits};
ghost use Rattle.limit_table.specs.Trees.{sums_most};

use crate::kind::{AccountRow, SymbolRow};
use crate::lists::{Accounts, OffRows, Symbols};
use fix_fields::IdText;
use std::marker::Model;

/// The limits of a file. Limits are in currency units.
#[derive(Drop)]
pub struct Limits {
    /// The firm's limit.
    pub firm: u64,
    /// The accounts, in the order of their rows.
    pub accounts: Accounts,
    /// The symbols, in the order of their rows.
    pub symbols: Symbols,
    /// The number of refusals at the firm's limit with which the halt is tripped, if any.
    pub trip: Option<u32>,
    /// The most posts of a session in one tree.
    pub quota: u32,
    /// The setting of the screen of repeats, 0 where there is none.
    pub repeat: u32,
    /// The screens that are dropped, in the order of their rows.
    pub off: OffRows,
}

impl Model for Limits {
    ghost use Rattle.limit_table.specs.Value.{LimitsValue};

    ghost Value = { LimitsValue };

    ghost use Rattle.limit_table.specs.Files.{IsHeldByFile};

    ghost view = { λ a. record {
      firm = a.firm;
      accounts = a.accounts;
      symbols = a.symbols;
      trip = a.trip;
      quota = a.quota;
      repeat = a.repeat;
      off = a.off;
    } };

    ghost invariant = { λ a. IsHeldByFile (record {
      firm = a.firm;
      accounts = a.accounts;
      symbols = a.symbols;
      trip = a.trip;
      quota = a.quota;
      repeat = a.repeat;
      off = a.off;
    }) };
}

impl Limits {
    /// The firm's limit, in currency units.
    pub fn firm(&self) -> u64
        ensures { result ≡ self.now.firm }
    {
        self.firm
    }

    /// The number of refusals at the firm's limit with which the halt is tripped, if any.
    pub fn trip(&self) -> Option<u32>
        ensures { result ≡ self.now.trip }
    {
        self.trip
    }

    /// The most posts of a session in one tree.
    pub fn quota(&self) -> u32
        ensures quota { result ≡ self.now.quota }
        ensures least { 1 ≤ result }
        ensures most { result ≤ quota_most }
    {
        self.quota
    }

    /// The setting of the screen of repeats, 0 where there is none.
    pub fn repeat(&self) -> u32
        ensures { result ≡ self.now.repeat }
    {
        self.repeat
    }

    /// The accounts, in the order of their rows.
    pub fn accounts(&self) -> &[AccountRow]
        ensures { result.now ≡ self.now.accounts }
    {
        self.accounts.rows()
    }

    /// The symbols, in the order of their rows.
    pub fn symbols(&self) -> &[SymbolRow]
        ensures { result.now ≡ self.now.symbols }
    {
        self.symbols.rows()
    }

    /// Any limits can be held by a file.
    pub fn stand_in_a_file(&self)
        ensures { IsHeldByFile self.now }
    {
        let _ = &self.firm;
    }

    /// The place of the account of this name among the accounts, from 0.
    pub fn account(&self, name: &IdText) -> Option<u32>
        ensures { IsPlaceOf (account_names self.now.accounts) name.now result }
    {
        self.accounts.place(&name.owned())
    }

    /// The place of the symbol of this name among the symbols, from 0.
    pub fn symbol(&self, name: &IdText) -> Option<u32>
        ensures { IsPlaceOf (symbol_names self.now.symbols) name.now result }
    {
        self.symbols.place(&name.owned())
    }

    /// The limit of the account at this place, in currency units.
    pub fn account_limit(&self, account: u32) -> u64
        requires { account < length self.now.accounts }
        ensures { result ≡ slice_index_or (tree_limits self.now) (account_tree account) 0 }
    {
        self.accounts()[account as usize].limit
    }

    /// The limit of the symbol at this place, in currency units.
    pub fn symbol_limit(&self, symbol: u32) -> u64
        requires { symbol < length self.now.symbols }
        ensures { result ≡ slice_index_or (tree_limits self.now) (symbol_tree self.now symbol) 0 }
    {
        self.symbols()[symbol as usize].limit
    }

    /// The number of the tree of the account at this place. The firm's tree is 0.
    pub fn account_tree(&self, account: u32) -> u32
        requires { account < length self.now.accounts }
        ensures { result ≡ account_tree account }
    {
        let _ = &self.accounts;
        1 + account
    }

    /// The number of the tree of the symbol at this place, after those of the accounts.
    pub fn symbol_tree(&self, symbol: u32) -> u32
        requires { symbol < length self.now.symbols }
        ensures { result ≡ symbol_tree self.now symbol }
    {
        1 + self.accounts.rows().len() as u32 + symbol
    }

    /// The number of the halt tree, after those of the symbols, and so of the trees of sums.
    pub fn halt_tree(&self) -> u32
        ensures tree { result ≡ halt_tree self.now }
        ensures few { result ≤ sums_most }
    {
        1 + self.accounts.rows().len() as u32 + self.symbols.rows().len() as u32
    }
}
