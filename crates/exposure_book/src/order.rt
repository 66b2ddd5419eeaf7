//! One order of a book, and what a report makes of it.
ghost use Rattle.std.specs.Prelude.{◌≡◌, ◌+◌, ◌^◌, ◌<◌, [], IfSome};
ghost use Rattle.exposure_book.specs.Orders.{leaves_of, reserve_of, left_of, worth_of, is_closed};
ghost use Rattle.exposure_book.specs.Orders.{is_buy, Lowers};
ghost use Rattle.exposure_book.specs.Reports.{ended_order, without_request, rejected_order};
ghost use Rattle.exposure_book.specs.Reports.{replaced_by, order_after, is_covered, traded_order};

use crate::pending::Pending;
use crate::price::BUY;
use fix_orders::{Exec, Id};

/// An order of a book. Quantities are whole units, prices ten-thousandths of a currency unit, and
/// what was filled is worth quantity × price in ten-thousandths, rounded nowhere.
#[derive(Clone, Copy, Debug)]
pub struct Order {
    /// The place of its account, from 0.
    pub account: u32,
    /// The place of its symbol, from 0.
    pub symbol: u32,
    /// The byte of Side (54).
    pub side: u8,
    /// OrderQty (38), what is filled included.
    pub total: u64,
    /// The reserve price: the dearest price that it counts for.
    pub price: u64,
    /// The quantity filled.
    pub filled: u64,
    /// What was filled, at the prices at which it was.
    pub notional: u128,
    /// The id by which requests name it.
    pub current: Id,
    /// The request that the venue has not answered.
    pub pending: Pending,
    /// Whether it was canceled, expired or rejected.
    pub ended: bool,
}

impl Order {
    /// What may still be filled, a pending replace included. 0 once the order has ended.
    pub(crate) fn leaves(&self) -> u64
        ensures value { result ≡ leaves_of self.now }
        ensures fits { self.now.filled + result < 2 ^ 64 }
    {
        let filled = self.filled;
        if self.ended {
            return 0;
        }
        self.total.max(self.pending.total()).saturating_sub(filled)
    }

    /// The dearest price at which it may trade, a pending replace included.
    pub(crate) fn reserve(&self) -> u64
        ensures { result ≡ reserve_of self.now }
    {
        self.price.max(self.pending.price())
    }

    /// Whether nothing is left of it.
    pub(crate) fn is_closed(&self) -> bool
        ensures { result ≡ is_closed self.now }
    {
        self.leaves() == 0
    }

    /// The reserve in ten-thousandths, rounded nowhere.
    pub(crate) fn left(&self) -> u128
        ensures { result ≡ left_of self.now }
    {
        u128::from(self.leaves()) * u128::from(self.reserve())
    }

    /// Whether it is a buy. Every other side is a sell.
    pub(crate) fn is_buy(&self) -> bool
        ensures { result ≡ is_buy self.now }
    {
        self.side == BUY
    }

    /// The order after a report with this id. None where it trades beyond the reserve.
    pub(crate) fn after(&self, id: &Id, exec: Exec) -> Option<Order>
        requires { worth_of self.now < 2 ^ 120 }
        ensures value { result ≡ order_after id.now exec self.now }
        ensures lowers { IfSome result (Lowers self.now) }
    {
        match exec {
            Exec::New | Exec::Else => Some(*self),
            Exec::Canceled | Exec::Expired => Some(self.ended_order()),
            Exec::Replaced => Some(self.replaced(id)),
            Exec::Rejected => Some(self.rejected(id)),
            Exec::Trade { quantity, price } => self.traded(quantity, price),
        }
    }

    /// The order after a cancel reject with this id.
    pub(crate) fn without_request(&self, id: &Id) -> Order
        ensures value { result ≡ without_request id.now self.now }
        ensures lowers { Lowers self.now result }
    {
        if self.pending.has_id(id) {
            return Order {
                pending: Pending::Nothing,
                ..*self
            };
        }
        *self
    }

    /// Canceled, expired or rejected.
    fn ended_order(&self) -> Order
        ensures { result ≡ ended_order self.now }
    {
        Order {
            pending: Pending::Nothing,
            ended: true,
            ..*self
        }
    }

    /// Its replace with this id has taken place.
    fn replaced(&self, id: &Id) -> Order
        ensures { result ≡ replaced_by self.now.pending id.now self.now }
    {
        match self.pending {
            Pending::Replace {
                id: own,
                total,
                price,
            } if own == *id => self.with_terms(own, total, price),
            Pending::Nothing | Pending::Cancel { .. } | Pending::Replace { .. } => *self,
        }
    }

    /// The order with this id, total and reserve price, and no request pending.
    fn with_terms(&self, id: Id, total: u64, reserve: u64) -> Order
        ensures { result ≡ record self.now {
          total = total;
          price = reserve;
          current = id;
          pending = Pending.Nothing;
        } }
    {
        Order {
            total,
            price: reserve,
            current: id,
            pending: Pending::Nothing,
            ..*self
        }
    }

    /// It or its request with this id was rejected.
    fn rejected(&self, id: &Id) -> Order
        ensures { result ≡ rejected_order id.now self.now }
    {
        if *id == self.current {
            return self.ended_order();
        }
        self.without_request(id)
    }

    /// So much was filled at this price, unless that is beyond the reserve.
    fn traded(&self, quantity: u64, price: u64) -> Option<Order>
        requires { worth_of self.now < 2 ^ 120 }
        ensures { result ≡ order_after [] (Exec.Trade quantity price) self.now }
    {
        if quantity > self.leaves() || price > self.reserve() {
            return None;
        }
        Some(Order {
            filled: self.filled + quantity,
            notional: self.notional + u128::from(quantity) * u128::from(price),
            ..*self
        })
    }
}
