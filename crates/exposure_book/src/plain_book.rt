//! A book that looks through its lists and sums from scratch: the yardstick of the tests.
use crate::order::Order;
use crate::pending::Pending;
use fix_orders::{Exec, Id};
use std::alloc::{AllocError, Global};

/// Orders and ids as plain lists, with no total: of two accounts and two symbols.
#[derive(Drop)]
pub(crate) struct PlainBook {
    orders: Vec<Order>,
    ids: Vec<(Id, usize)>,
    /// The account that is net, if one is.
    net: Option<u32>,
}

/// What an order counts for, in ten-thousandths.
fn exposure(order: &Order) -> u128 {
    let (mut total, mut price) = (order.total, order.price);
    if let Pending::Replace {
        total: asked_total,
        price: asked_price,
        ..
    } = order.pending
    {
        total = total.max(asked_total);
        price = price.max(asked_price);
    }
    if order.ended || total <= order.filled {
        return order.notional;
    }
    let left = u128::from(total - order.filled);
    order
        .notional
        .saturating_add(left.saturating_mul(u128::from(price)))
}

/// The id and terms of the pending request, None where none is pending.
fn asked(order: &Order) -> Option<(Id, u64, u64)> {
    match order.pending {
        Pending::Nothing => None,
        Pending::Cancel { id } => Some((id, order.total, order.price)),
        Pending::Replace { id, total, price } => Some((id, total, price)),
    }
}

/// Whether the pending request has this id.
fn is_asked(order: &Order, id: &Id) -> bool {
    match asked(order) {
        Some((own, _, _)) => own == *id,
        None => false,
    }
}

/// Whether a replace with this id is pending.
fn is_replace(order: &Order, id: &Id) -> bool {
    matches!(order.pending, Pending::Replace { .. }) && is_asked(order, id)
}

/// The order with the terms of the request that is pending on it.
fn with_terms(order: &Order) -> Order {
    match asked(order) {
        Some((id, total, price)) => Order {
            total,
            price,
            current: id,
            pending: Pending::Nothing,
            ..*order
        },
        None => *order,
    }
}

/// The order after a report, which doesn't trade beyond its reserve.
fn reported(order: &Order, id: &Id, exec: Exec) -> Order {
    let mut next = *order;
    match exec {
        Exec::New | Exec::Else => {}
        Exec::Canceled | Exec::Expired => {
            next.pending = Pending::Nothing;
            next.ended = true;
        }
        Exec::Replaced if is_replace(order, id) => next = with_terms(order),
        Exec::Replaced => {}
        Exec::Rejected => {
            next.ended = order.ended || *id == order.current;
            if next.ended || is_asked(order, id) {
                next.pending = Pending::Nothing;
            }
        }
        Exec::Trade { quantity, price } => {
            let paid = u128::from(quantity).saturating_mul(u128::from(price));
            next.filled = order.filled.saturating_add(quantity);
            next.notional = order.notional.saturating_add(paid);
        }
    }
    next
}

impl PlainBook {
    /// A book with no order, in which this account is net.
    pub fn new(alloc: Global, net: Option<u32>) -> PlainBook {
        PlainBook {
            orders: Vec::new(alloc),
            ids: Vec::new(alloc),
            net,
        }
    }

    /// Adds an order with this request pending on it.
    pub fn add(&mut self, order: &Order, request: Pending) -> Result<(), AllocError> {
        self.ids.push((order.current, self.orders.len()))?;
        self.orders.push(Order {
            pending: request,
            ..*order
        })?;
        Ok(())
    }

    /// Makes this request pending on the order with the id that it names.
    pub fn ask(&mut self, id: &Id, orig: &Id, request: Pending) -> Result<(), AllocError> {
        let Some(place) = self.place(orig) else {
            return Ok(());
        };
        self.ids.push((*id, place))?;
        if let Some(order) = self.orders.get_mut(place) {
            order.pending = request;
        }
        Ok(())
    }

    /// Applies a report that isn't beyond the reserve to the order with this id.
    pub fn report(&mut self, id: &Id, exec: Exec) {
        let Some(place) = self.place(id) else {
            return;
        };
        if let Some(order) = self.orders.get_mut(place) {
            *order = reported(order, id, exec);
        }
    }

    /// Drops the request with this id.
    pub fn reject(&mut self, id: &Id) {
        let Some(place) = self.place(id) else {
            return;
        };
        if let Some(order) = self.orders.get_mut(place) {
            if is_asked(order, id) {
                order.pending = Pending::Nothing;
            }
        }
    }

    /// The order that has this id.
    pub fn order(&self, id: &Id) -> Option<Order> {
        let place = self.place(id)?;
        self.orders.get(place).copied()
    }

    /// The values of the firm, of this account and of this symbol.
    pub fn values(&self, account: u32, symbol: u32) -> [u128; 3] {
        let mut sums = [0u128; 3];
        for pair in [(0, 0), (0, 1), (1, 0), (1, 1)] {
            let part = self.pair(pair.0, pair.1);
            sums[0] = sums[0].saturating_add(part);
            if pair.0 == account {
                sums[1] = sums[1].saturating_add(part);
            }
            if pair.1 == symbol {
                sums[2] = sums[2].saturating_add(part);
            }
        }
        [up(sums[0]), up(sums[1]), up(sums[2])]
    }

    /// What the orders of this account in this symbol count for.
    fn pair(&self, account: u32, symbol: u32) -> u128 {
        let (mut bought, mut sold, mut buys, mut sells) = (0u128, 0u128, 0u128, 0u128);
        for order in &self.orders {
            let own = order.account == account && order.symbol == symbol;
            if own && order.side == b'1' {
                bought = bought.saturating_add(order.notional);
                buys = buys.saturating_add(exposure(order));
            } else if own {
                sold = sold.saturating_add(order.notional);
                sells = sells.saturating_add(exposure(order));
            }
        }
        if self.net == Some(account) {
            return buys.saturating_sub(sold).max(sells.saturating_sub(bought));
        }
        buys.saturating_add(sells)
    }

    /// The place of the order with this id, by looking through all ids.
    fn place(&self, id: &Id) -> Option<usize> {
        for (own, place) in &self.ids {
            if *own == *id {
                return Some(*place);
            }
        }
        None
    }
}

/// Whole currency units, rounded up.
fn up(sum: u128) -> u128 {
    if sum % 10_000 == 0 {
        sum / 10_000
    } else {
        sum / 10_000 + 1
    }
}
