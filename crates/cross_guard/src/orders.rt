//! The orders of a session that may rest at the venue.
ghost use Rattle.std.specs.Prelude.{◌≡◌, ◌≤◌, List, [], ◌∷◌, ◌++◌, OnOk, OnErr, IfOk, IfSome, IfNone};
ghost use Rattle.std.specs.Prelude.{Some, false};
ghost use Rattle.std.specs.List.{list_any};
ghost use Rattle.cross_guard.specs.Halves.{cross_cap};
ghost use Rattle.cross_guard.specs.Added.{IsAdded};
ghost use Rattle.cross_guard.specs.Held.{IsLast};
ghost use Rattle.cross_guard.specs.Resting.{after_new, after_replace, after_cancel, after_report};
ghost use Rattle.cross_guard.specs.Resting.{RestingValue, after_reject, is_open_with, is_replaced_by};
ghost use Rattle.cross_guard.specs.Resting.{started, symbol_with, value_in};

use crate::cross::joined;
use crate::resting::{RestingOrder, Term};
use fix_fields::IdText;
use fix_orders::{Cancel, Exec, NewOrder, Replace};
use fold_law::Memory;
use std::alloc::Global;
use std::marker::Model;

/// The orders of a session that may rest at the venue, in the order in which they came. Symbols are told
/// by their places among the limits' rows, from 0. Contracts see a list.
#[derive(Drop)]
pub struct RestingOrders {
    orders: Vec<RestingOrder>,
}

impl Model for RestingOrders {
    ghost use Rattle.std.specs.Prelude.{List};
    ghost use Rattle.cross_guard.specs.Resting.{RestingValue};

    ghost Value = { List RestingValue };

    ghost view = { λ a. a.orders.items };
}

/// How a request is kept: as the last term of the order at this place, or as the last order.
#[derive(Clone, Copy, Debug, PartialEq, Eq)]
pub enum Added {
    Term(usize),
    Order,
}

/// The place of the last order that isn't closed and has the id.
fn last_open(orders: &[RestingOrder], id: &[u8]) -> Option<usize>
    ensures some { IfSome result (λ place. IsLast (is_open_with id.now) place orders.now) }
    ensures none { IfNone result (list_any (is_open_with id.now) orders.now ≡ false) }
{
    let mut place = orders.len();
    while place > 0 {
        place -= 1;
        if orders[place].is_open_with(id) {
            return Some(place);
        }
    }
    None
}

/// Whether a replace of this symbol adds a term to the order.
fn is_replaced_by(order: &RestingOrder, symbol: u32, request: &Replace) -> bool
    ensures { result ≡ is_replaced_by symbol request.now order.now }
{
    order.is_open_with(request.orig.bytes())
        && order.symbol() == symbol
        && order.side() == request.side
}

/// The place of the last order to which a replace of this symbol adds a term.
fn last_replaced(orders: &[RestingOrder], symbol: u32, request: &Replace) -> Option<usize>
    ensures some { IfSome result (λ place.
        IsLast (is_replaced_by symbol request.now) place orders.now) }
    ensures none { IfNone result (list_any (is_replaced_by symbol request.now) orders.now ≡ false) }
{
    let mut place = orders.len();
    while place > 0 {
        place -= 1;
        if is_replaced_by(&orders[place], symbol, request) {
            return Some(place);
        }
    }
    None
}

/// One order more, that starts with a term.
fn start(
    orders: &mut Vec<RestingOrder>,
    alloc: Global,
    symbol: u32,
    side: u8,
    term: &Term,
) -> Result<(), Memory>
    requires { term.now.value ≤ cross_cap }
    ensures ok { OnOk result (orders.new.items
        ≡ orders.old.items ++ started symbol side term.now ∷ []) }
    ensures err { OnErr result (orders.new.items ≡ orders.old.items) }
{
    let order = RestingOrder::start(alloc, symbol, side, term)?;
    if orders.push(order).is_err() {
        return Err(Memory);
    }
    Ok(())
}

/// What orders rest as in a symbol, as one value.
fn join_orders(orders: &[RestingOrder], symbol: u32) -> u64
    ensures value { result ≡ value_in symbol orders.now }
    ensures capped { result ≤ cross_cap }
{
    let mut all = 0;
    for order in orders {
        all = joined(all, order.rests_in(symbol));
    }
    all
}

impl RestingOrders {
    /// No order yet.
    pub fn new(alloc: Global) -> RestingOrders
        ensures { result ≡ [] }
    {
        RestingOrders {
            orders: Vec::new(alloc),
        }
    }

    /// An order (D) of the symbol is passed, with the value that it has. Refused, nothing changes.
    pub fn add(
        &mut self,
        alloc: Global,
        symbol: u32,
        order: &NewOrder,
        value: u64,
    ) -> Result<(), Memory>
        requires { value ≤ cross_cap }
        ensures ok { OnOk result (self.new ≡ after_new symbol order.now value self.old) }
        ensures err { OnErr result (self.new ≡ self.old) }
    {
        let term = Term {
            id: order.id.owned(),
            value,
            total: order.quantity,
        };
        start(&mut self.orders, alloc, symbol, order.side, &term)
    }

    /// A replace (G) of the symbol is passed, with the value that it has, and kept so. Refused, nothing
    /// changes.
    pub fn replace(
        &mut self,
        alloc: Global,
        symbol: u32,
        request: &Replace,
        value: u64,
    ) -> Result<Added, Memory>
        requires { value ≤ cross_cap }
        ensures ok { OnOk result (self.new ≡ after_replace symbol request.now value self.old) }
        ensures added { IfOk result (λ added. IsAdded added self.old self.new) }
        ensures err { OnErr result (self.new ≡ self.old) }
    {
        let term = Term {
            id: request.id.owned(),
            value,
            total: request.quantity,
        };
        match last_replaced(&self.orders, symbol, request) {
            Some(place) => {
                self.orders[place].add_term(&term)?;
                Ok(Added::Term(place))
            }
            None => {
                start(&mut self.orders, alloc, symbol, request.side, &term)?;
                Ok(Added::Order)
            }
        }
    }

    /// What was kept last is taken back.
    pub fn take_back(&mut self, added: Added)
        requires { (before : List RestingValue) × IsAdded added before self.old }
        ensures { (before : List RestingValue) → IsAdded added before self.old → self.new ≡ before }
    {
        match added {
            Added::Term(place) => self.orders[place].drop_term(),
            Added::Order => {
                self.orders.pop();
            }
        }
    }

    /// A cancel (F) is passed. Refused, nothing changes.
    pub fn cancel(&mut self, request: &Cancel) -> Result<(), Memory>
        ensures ok { OnOk result (self.new ≡ after_cancel request.now self.old) }
        ensures err { OnErr result (self.new ≡ self.old) }
    {
        match last_open(&self.orders, request.orig.bytes()) {
            Some(place) => self.orders[place].add_id(request.id.owned()),
            None => Ok(()),
        }
    }

    /// What a report (8) with this id makes of the last open order that has it, and the place of that
    /// order's symbol.
    pub fn report(&mut self, id: &IdText, exec: Exec) -> Option<u32>
        ensures orders { self.new ≡ after_report (Some id.now) exec self.old }
        ensures symbol { result ≡ symbol_with id.now self.old }
    {
        match last_open(&self.orders, id.bytes()) {
            Some(place) => {
                let order = &mut self.orders[place];
                let tree = order.symbol();
                order.report(id.bytes(), exec);
                Some(tree)
            }
            None => None,
        }
    }

    /// What a cancel reject (9) with this id makes of the last open order that has it, and the place of
    /// that order's symbol.
    pub fn reject(&mut self, id: &IdText) -> Option<u32>
        ensures orders { self.new ≡ after_reject id.now self.old }
        ensures symbol { result ≡ symbol_with id.now self.old }
    {
        match last_open(&self.orders, id.bytes()) {
            Some(place) => {
                let order = &mut self.orders[place];
                let tree = order.symbol();
                order.reject(id.bytes());
                Some(tree)
            }
            None => None,
        }
    }

    /// What the orders rest as in a symbol, as one value.
    pub fn value_in(&self, symbol: u32) -> u64
        ensures value { result ≡ value_in symbol self.now }
        ensures capped { result ≤ cross_cap }
    {
        join_orders(&self.orders, symbol)
    }
}
