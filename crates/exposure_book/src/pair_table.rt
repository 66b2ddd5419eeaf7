//! The sums of each pair of an account and a symbol, and running totals of the trees beside them.
ghost use Rattle.std.specs.Prelude.{◌≡◌, ◌+◌, ◌-◌, ◌*◌, ◌≤◌, ◌<◌, ◌^◌, length, IfOk, replicate};
ghost use Rattle.exposure_book.specs.Orders.{worth_of};
ghost use Rattle.exposure_book.specs.Pairs.{all_of, no_sums, plus, minus, Has};
ghost use Rattle.exposure_book.specs.PairTables.{pair_at, sums_at, with_pair, in_firm, IsPair};
ghost use Rattle.exposure_book.specs.PairTables.{IsPartOf, most_exposure};

use crate::order::Order;
use crate::pair_sums::PairSums;
use fold_law::Memory;
use std::alloc::Global;
use std::marker::Model;

/// The exposure of a pair's three trees, in ten-thousandths.
#[derive(Clone, Copy, Debug)]
pub(crate) struct TreeSums {
    /// The exposure of the firm.
    pub firm: u128,
    /// The exposure of the pair's account.
    pub account: u128,
    /// The exposure of the pair's symbol.
    pub symbol: u128,
}

/// The sums of each pair. Contracts see a table: of each account whether it is net, the number of
/// symbols, and the sums, account after account.
#[derive(Drop)]
pub(crate) struct PairTable {
    /// Of each account, whether it is net.
    nets: Vec<bool>,
    /// The sums of each pair: those of the first account, by symbol, then those of the next.
    pairs: Vec<PairSums>,
    /// The exposure of all pairs, in ten-thousandths.
    firm: u128,
    /// The exposure of each account.
    accounts: Vec<u128>,
    /// The exposure of each symbol.
    symbols: Vec<u128>,
}

impl Model for PairTable {
    ghost use Rattle.std.specs.Prelude.{length};
    ghost use Rattle.exposure_book.specs.PairTables.{TableValue, AreTotals};

    ghost Value = { TableValue };

    ghost view = { λ t. record {
      nets = t.nets.items;
      symbols = length t.symbols.items;
      pairs = t.pairs.items;
    } };

    ghost invariant = { λ t. AreTotals (record {
      nets = t.nets.items;
      symbols = length t.symbols.items;
      pairs = t.pairs.items;
    }) t.firm t.accounts.items t.symbols.items };
}

/// So many zeros.
fn zeros(alloc: Global, count: usize) -> Result<Vec<u128>, Memory>
    ensures { IfOk result (λ totals. totals.items ≡ replicate count 0) }
{
    match vec![in alloc; 0u128; count] {
        Ok(totals) => Ok(totals),
        Err(_) => Err(Memory),
    }
}

/// So many pairs with no order.
fn no_pairs(alloc: Global, count: usize) -> Result<Vec<PairSums>, Memory>
    ensures { IfOk result (λ pairs. pairs.items ≡ replicate count no_sums) }
{
    match vec![in alloc; PairSums::none(); count] {
        Ok(pairs) => Ok(pairs),
        Err(_) => Err(Memory),
    }
}

/// The total with one part of it replaced.
fn moved(total: u128, old: u128, new: u128) -> u128
    requires part { IsPartOf total old }
    requires fits { new < 2 ^ 126 }
    ensures value { result ≡ total - old + new }
{
    total - old + new
}

impl PairTable {
    /// The table of so many symbols and these accounts, with no order.
    pub fn new(alloc: Global, nets: Vec<bool>, symbols: usize) -> Result<PairTable, Memory>
        requires { length nets.items * symbols < 2 ^ 63 }
        ensures { IfOk result (λ table. table ≡ record {
          nets = nets.items;
          symbols = symbols;
          pairs = replicate (length nets.items * symbols) no_sums;
        }) }
    {
        let pairs = no_pairs(alloc, nets.len() * symbols)?;
        let accounts = zeros(alloc, nets.len())?;
        let symbols = zeros(alloc, symbols)?;
        Ok(PairTable {
            nets,
            pairs,
            firm: 0,
            accounts,
            symbols,
        })
    }

    /// The sums of a pair.
    pub fn pair(&self, account: u32, symbol: u32) -> PairSums
        requires { IsPair self.now account symbol }
        ensures value { result ≡ pair_at self.now account symbol }
        ensures fits { all_of result < 2 ^ 120 }
    {
        self.pairs[self.place(account, symbol)]
    }

    /// The sums of the three trees of a pair.
    pub fn sums(&self, account: u32, symbol: u32) -> TreeSums
        requires { IsPair self.now account symbol }
        ensures value { result ≡ sums_at self.now account symbol }
        ensures firm { result.firm ≤ most_exposure }
        ensures account { result.account ≤ most_exposure }
        ensures symbol { result.symbol ≤ most_exposure }
    {
        TreeSums {
            firm: self.firm,
            account: self.accounts[account as usize],
            symbol: self.symbols[symbol as usize],
        }
    }

    /// The sums of the three trees of a pair, were it this one.
    pub fn sums_with(&self, account: u32, symbol: u32, next: &PairSums) -> TreeSums
        requires pair { IsPair self.now account symbol }
        requires fits { all_of next.now < 2 ^ 126 }
        ensures value { result ≡ sums_at (with_pair account symbol next.now self.now) account symbol }
        ensures firm { result.firm < 2 ^ 127 }
        ensures account { result.account < 2 ^ 127 }
        ensures symbol { result.symbol < 2 ^ 127 }
    {
        let was = self.pair(account, symbol);
        let net = self.nets[account as usize];
        let old = was.exposure(net);
        let new = next.exposure(net);
        TreeSums {
            firm: moved(self.firm, old, new),
            account: moved(self.accounts[account as usize], old, new),
            symbol: moved(self.symbols[symbol as usize], old, new),
        }
    }

    /// Puts this pair in the place of the one that stands there.
    pub fn put(&mut self, account: u32, symbol: u32, next: &PairSums)
        requires pair { IsPair self.old account symbol }
        requires fits { all_of next.now < 2 ^ 120 }
        requires capped { in_firm (with_pair account symbol next.now self.old) ≤ most_exposure }
        ensures { self.new ≡ with_pair account symbol next.now self.old }
    {
        let sums = self.sums_with(account, symbol, next);
        let place = self.place(account, symbol);
        self.firm = sums.firm;
        self.accounts[account as usize] = sums.account;
        self.symbols[symbol as usize] = sums.symbol;
        self.pairs[place] = *next;
    }

    /// The sums of an order's pair, with another order of the same pair and side in its place.
    pub fn changed(&self, old: &Order, next: &Order) -> PairSums
        requires pair { IsPair self.now next.now.account next.now.symbol }
        requires has { Has old.now (pair_at self.now next.now.account next.now.symbol) }
        requires fits { worth_of next.now < 2 ^ 124 }
        ensures value { result ≡ plus next.now (minus old.now
            (pair_at self.now next.now.account next.now.symbol)) }
        ensures fits { all_of result < 2 ^ 126 }
    {
        self.pair(next.account, next.symbol).without(old).with(next)
    }

    /// Puts another order of the same pair and side in the place of an order.
    pub fn change(&mut self, old: &Order, next: &Order)
        requires pair { IsPair self.old next.now.account next.now.symbol }
        requires has { Has old.now (pair_at self.old next.now.account next.now.symbol) }
        requires next { worth_of next.now < 2 ^ 124 }
        requires fits { all_of (plus next.now (minus old.now
            (pair_at self.old next.now.account next.now.symbol))) < 2 ^ 120 }
        requires capped { in_firm (with_pair next.now.account next.now.symbol (plus next.now
            (minus old.now (pair_at self.old next.now.account next.now.symbol))) self.old)
            ≤ most_exposure }
        ensures { self.new ≡ with_pair next.now.account next.now.symbol (plus next.now
            (minus old.now (pair_at self.old next.now.account next.now.symbol))) self.old }
    {
        let pair = self.changed(old, next);
        self.put(next.account, next.symbol, &pair);
    }

    /// Where the sums of a pair stand.
    fn place(&self, account: u32, symbol: u32) -> usize
        requires { IsPair self.now account symbol }
        ensures value { result ≡ account * self.now.symbols + symbol }
        ensures within { result < length self.now.pairs }
    {
        account as usize * self.symbols.len() + symbol as usize
    }
}
