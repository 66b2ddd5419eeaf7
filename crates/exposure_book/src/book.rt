//! The book: the orders, their ids, and the sums of their pairs beside them.
ghost use Rattle.std.specs.Prelude.{◌≡◌, ◌+◌, ◌≤◌, ◌<◌, ◌^◌, ◌++◌, [], ◌∷◌, length, IfOk};
ghost use Rattle.std.specs.Prelude.{OnOk, IfSome, slice_set, true, None};
ghost use Rattle.exposure_book.specs.Orders.{Lowers};
ghost use Rattle.exposure_book.specs.Books.{empty_book, nets_of, place_of, order_with};
ghost use Rattle.exposure_book.specs.Books.{pair_of_order, terms_of, proposal_of, units_up};
ghost use Rattle.exposure_book.specs.Books.{firm_sum, with_orders};
ghost use Rattle.exposure_book.specs.Proposals.{capped, is_within_cap};
ghost use Rattle.exposure_book.specs.Commits.{added, named};
ghost use Rattle.exposure_book.specs.PairTables.{most_exposure};
ghost use Rattle.exposure_book.specs.Totals.{IsOrderAt, IsPlaced, Asks};

use crate::answer::{BookFault, Proposal, Terms3};
use crate::id_key::IdKey;
use crate::order::Order;
use crate::pair_table::{PairTable, TreeSums};
use crate::price::{UNIT, units};
use fix_orders::{Id, IdText};
use fold_law::{LEAF, Memory};
use indexmap::IndexMap;
use limit_table::Limits;
use std::alloc::Global;
use std::marker::Model;

/// The most exposure of a session, in ten-thousandths: what a leaf may hold.
const MOST_EXPOSURE: u128 = LEAF as u128 * UNIT;

/// The largest reserve of an order whose values a leaf can hold: what was sold in its pair is at
/// most a leaf's more than what was bought, and the other way round.
const MOST_LEFT: u128 = 2 * MOST_EXPOSURE;

/// The orders of one session, oldest first, and every id that was committed. Contracts see them as
/// lists beside the numbers of accounts and symbols and which accounts are net, and apart from that
/// the room for more.
#[derive(Drop)]
pub struct Book {
    /// The orders, oldest first.
    orders: Vec<Order>,
    /// The ids, oldest first, each with the place of its order.
    ids: IndexMap<IdKey, usize>,
    /// The sums of each pair, and the exposure of each tree.
    table: PairTable,
}

impl Model for Book {
    ghost use Rattle.std.specs.Prelude.{◌-◌, min, length, vec_len};
    ghost use Rattle.std.specs.Vec.{vec_capacity};
    ghost use Rattle.indexmap.specs.IndexMap.{spare};
    ghost use Rattle.exposure_book.specs.Books.{BookInMemory};
    ghost use Rattle.exposure_book.specs.Totals.{AreKept};

    ghost Value = { BookInMemory };

    ghost view = { λ b. record {
      value = record {
        accounts = length b.table.nets;
        symbols = b.table.symbols;
        nets = b.table.nets;
        orders = b.orders.items;
        ids = b.ids.entries;
      };
      room = min (vec_capacity b.orders - vec_len b.orders) (spare b.ids);
    } };

    ghost invariant = { λ b. AreKept b.orders.items b.ids.entries b.table };
}

/// Of each account, whether it is net.
fn list_nets(alloc: Global, limits: &Limits) -> Result<Vec<bool>, Memory>
    ensures { IfOk result (λ nets. nets.items ≡ nets_of limits.now) }
{
    match limits.accounts().iter().map(|row| row.net).collect(alloc) {
        Ok(nets) => Ok(nets),
        Err(_) => Err(Memory),
    }
}

/// The values of these exposures, unless a leaf can't hold one of them.
fn capped(sums: &TreeSums) -> Result<Proposal, BookFault>
    requires firm { sums.now.firm < 2 ^ 127 }
    requires account { sums.now.account < 2 ^ 127 }
    requires symbol { sums.now.symbol < 2 ^ 127 }
    ensures value { result ≡ capped (record {
      firm = units_up sums.now.firm;
      account = units_up sums.now.account;
      symbol = units_up sums.now.symbol;
    }) }
    ensures within { IfOk result (λ values. is_within_cap values ≡ true) }
{
    let most = u128::from(LEAF);
    let (firm, account, symbol) = (units(sums.firm), units(sums.account), units(sums.symbol));
    if firm <= most && account <= most && symbol <= most {
        return Ok(Proposal {
            firm: firm as u64,
            account: account as u64,
            symbol: symbol as u64,
        });
    }
    Err(BookFault::Cap)
}

impl Book {
    /// A book for these limits with no order.
    pub fn new(alloc: Global, limits: &Limits) -> Result<Book, Memory>
        ensures { IfOk result (λ book. book.value ≡ empty_book limits.now) }
    {
        limits.stand_in_a_file();
        let nets = list_nets(alloc, limits)?;
        let table = PairTable::new(alloc, nets, limits.symbols().len())?;
        Ok(Book {
            orders: Vec::new(alloc),
            ids: IndexMap::new(alloc),
            table,
        })
    }

    /// Makes room for one more id and order. Where that is refused, the room may have grown in
    /// part.
    pub fn reserve_one(&mut self) -> Result<(), Memory>
        ensures same { self.new.value ≡ self.old.value }
        ensures kept { self.old.room ≤ self.new.room }
        ensures ok { OnOk result (1 ≤ self.new.room) }
    {
        if self.ids.reserve(1).is_err() || self.orders.reserve(1).is_err() {
            return Err(Memory);
        }
        Ok(())
    }

    /// The account and the symbol of the order that has this id, None where no order has it.
    pub fn pair_of(&self, id: &IdText) -> Option<(u32, u32)>
        ensures value { result ≡ pair_of_order (order_with self.now.value id.now) }
        ensures placed { IfSome result (λ pair.
            (pair.0 < self.now.value.accounts) × (pair.1 < self.now.value.symbols)) }
    {
        let place = self.place(&id.owned())?;
        let order = self.order(place);
        Some((order.account, order.symbol))
    }

    /// The place of the order that has this id.
    pub(crate) fn place(&self, id: &Id) -> Option<usize>
        ensures value { result ≡ place_of id.now self.now.value.ids }
        ensures within { IfSome result (λ place. place < length self.now.value.orders) }
    {
        self.ids.get(&IdKey::new(id)).copied()
    }

    /// The order at this place.
    pub(crate) fn order(&self, place: usize) -> Order
        requires { place < length self.now.value.orders }
        ensures { IsOrderAt self.now.value place result }
    {
        self.orders[place]
    }

    /// The values of this order's three trees, were it at this place with other terms.
    pub(crate) fn values_with(
        &self,
        place: usize,
        old: &Order,
        next: &Order,
    ) -> Result<Proposal, BookFault>
        requires order { IsOrderAt self.now.value place old.now }
        requires asks { Asks old.now next.now }
        ensures value { result ≡ capped (proposal_of (with_orders
            (slice_set self.now.value.orders place next.now) self.now.value)
            next.now.account next.now.symbol) }
        ensures within { IfOk result (λ values. is_within_cap values ≡ true) }
    {
        if next.left() > MOST_LEFT {
            return Err(BookFault::Cap);
        }
        let pair = self.table.changed(old, next);
        capped(&self.table.sums_with(next.account, next.symbol, &pair))
    }

    /// The values of this order's three trees, were it one more.
    pub(crate) fn values_with_one(&self, next: &Order) -> Result<Proposal, BookFault>
        requires placed { IsPlaced self.now.value.accounts self.now.value.symbols next.now }
        requires unfilled { next.now.notional ≡ 0 }
        ensures value { result ≡ capped (proposal_of (with_orders
            (self.now.value.orders ++ next.now ∷ []) self.now.value)
            next.now.account next.now.symbol) }
        ensures within { IfOk result (λ values. is_within_cap values ≡ true) }
    {
        let rest = self.table.pair(next.account, next.symbol);
        if next.left() > MOST_LEFT {
            return Err(BookFault::Cap);
        }
        let pair = rest.with(next);
        capped(&self.table.sums_with(next.account, next.symbol, &pair))
    }

    /// The values of this order's three trees.
    pub(crate) fn terms(&self, order: &Order) -> Terms3
        requires { IsPlaced self.now.value.accounts self.now.value.symbols order.now }
        ensures { result ≡ terms_of self.now.value order.now }
    {
        let sums = self.table.sums(order.account, order.symbol);
        Terms3 {
            account: order.account,
            symbol: order.symbol,
            firm_value: units(sums.firm) as u64,
            account_value: units(sums.account) as u64,
            symbol_value: units(sums.symbol) as u64,
        }
    }

    /// Puts an order that counts for no more in the place of the one that stands there.
    pub(crate) fn put(&mut self, place: usize, old: &Order, next: &Order)
        requires order { IsOrderAt self.old.value place old.now }
        requires lowers { Lowers old.now next.now }
        ensures orders { self.new.value
            ≡ with_orders (slice_set self.old.value.orders place next.now) self.old.value }
        ensures room { self.new.room ≡ self.old.room }
    {
        self.table.change(old, next);
        self.orders[place] = *next;
    }

    /// Puts this order with other terms in the place of the one that stands there, and adds this id
    /// as one of its own.
    pub(crate) fn change(&mut self, place: usize, old: &Order, next: &Order, id: &Id)
        requires order { IsOrderAt self.old.value place old.now }
        requires asks { Asks old.now next.now }
        requires new { place_of id.now self.old.value.ids ≡ None }
        requires capped { firm_sum (with_orders
            (slice_set self.old.value.orders place next.now) self.old.value) ≤ most_exposure }
        requires room { 1 ≤ self.old.room }
        ensures book { self.new.value ≡ named id.now place
            (with_orders (slice_set self.old.value.orders place next.now) self.old.value) }
        ensures room { self.old.room ≤ self.new.room + 1 }
    {
        self.table.change(old, next);
        self.orders[place] = *next;
        let _known = self.ids.insert(IdKey::new(id), place);
        let _count = self.ids.len();
    }

    /// Adds this order after the others, with its id.
    pub(crate) fn add(&mut self, next: &Order)
        requires new { place_of next.now.current self.old.value.ids ≡ None }
        requires placed { IsPlaced self.old.value.accounts self.old.value.symbols next.now }
        requires capped { firm_sum (with_orders
            (self.old.value.orders ++ next.now ∷ []) self.old.value) ≤ most_exposure }
        requires unfilled { next.now.notional ≡ 0 }
        requires room { 1 ≤ self.old.room }
        ensures book { self.new.value ≡ added next.now self.old.value }
        ensures room { self.old.room ≤ self.new.room + 1 }
    {
        let rest = self.table.pair(next.account, next.symbol);
        let pair = rest.with(next);
        self.table.put(next.account, next.symbol, &pair);
        let _known = self
            .ids
            .insert(IdKey::new(&next.current), self.orders.len());
        let _count = self.ids.len();
        self.orders.push_reserved(*next);
    }
}
