//! What a book answers to an order or a request that is proposed.
ghost use Rattle.std.specs.Prelude.{◌≡◌, ◌<◌, ◌^◌, length, IfOk, slice_get, Some, true};
ghost use Rattle.exposure_book.specs.Totals.{IsPlaced};
ghost use Rattle.exposure_book.specs.Proposals.{new_order, requested, is_of_order, with_replace};
ghost use Rattle.exposure_book.specs.Proposals.{proposal_of_new, proposal_of_cancel};
ghost use Rattle.exposure_book.specs.Proposals.{proposal_of_replace, is_within_cap};

use crate::answer::{BookFault, Proposal};
use crate::book::Book;
use crate::order::Order;
use crate::pending::Pending;
use crate::price::reserve_price;
use fix_orders::{Cancel, Id, NewOrder, Replace};
use limit_table::Limits;

/// The order that a D asks for.
pub(crate) fn new_order(asked: &NewOrder, account: u32, symbol: u32, high: u64) -> Order
    ensures { result ≡ new_order asked.now account symbol high }
{
    Order {
        account,
        symbol,
        side: asked.side,
        total: asked.quantity,
        price: reserve_price(asked.side, asked.kind, asked.price, high),
        filled: 0,
        notional: 0,
        current: asked.id.owned(),
        pending: Pending::Nothing,
        ended: false,
    }
}

/// Whether Account (1) is absent or the order's, and Symbol (55) and Side (54) are the order's.
fn is_of_order(request: &Replace, limits: &Limits, order: &Order) -> bool
    requires { IsPlaced (length limits.now.accounts) (length limits.now.symbols) order.now }
    ensures { result ≡ is_of_order request.now limits.now order.now }
{
    let account = &limits.accounts()[order.account as usize].name;
    let symbol = &limits.symbols()[order.symbol as usize].name;
    let own_account = match &request.account {
        Some(name) => name.owned() == *account,
        None => true,
    };
    own_account && request.symbol.owned() == *symbol && request.side == order.side
}

/// The order with the replace pending on it.
pub(crate) fn with_replace(request: &Replace, limits: &Limits, order: &Order) -> Order
    requires { IsPlaced (length limits.now.accounts) (length limits.now.symbols) order.now }
    ensures { result ≡ with_replace request.now limits.now order.now }
{
    let high = limits.symbols()[order.symbol as usize].high;
    Order {
        pending: Pending::Replace {
            id: request.id.owned(),
            total: request.quantity,
            price: reserve_price(request.side, request.kind, request.price, high),
        },
        ..*order
    }
}

impl Book {
    /// The values with this order, in whole currency units. `high` is the upper collar price of its
    /// symbol in ten-thousandths. Duplicate where an order has its ClOrdID (11), then Cap where a
    /// leaf can't hold one of the values.
    pub fn propose_new(
        &self,
        order: &NewOrder,
        account: u32,
        symbol: u32,
        high: u64,
    ) -> Result<Proposal, BookFault>
        requires account { account < self.now.value.accounts }
        requires symbol { symbol < self.now.value.symbols }
        ensures value { result ≡ proposal_of_new self.now.value order.now account symbol high }
        ensures within { IfOk result (λ values. is_within_cap values ≡ true) }
    {
        if self.place(&order.id.owned()).is_some() {
            return Err(BookFault::Duplicate);
        }
        self.values_with_one(&new_order(order, account, symbol, high))
    }

    /// Whether this cancel may be sent: Duplicate, Unknown, Closed, Pending, and Unknown again
    /// where its OrigClOrdID (41) isn't the current id of its order, in this order.
    pub fn propose_cancel(&self, request: &Cancel) -> Result<(), BookFault>
        ensures { result ≡ proposal_of_cancel self.now.value request.now }
    {
        match self.requested(&request.id.owned(), &request.orig.owned()) {
            Ok(_) => Ok(()),
            Err(fault) => Err(fault),
        }
    }

    /// The values with this replace pending, in whole currency units. The faults are those of a
    /// cancel, and then Mismatch, Quantity and Cap, in this order.
    pub fn propose_replace(&self, request: &Replace, limits: &Limits) -> Result<Proposal, BookFault>
        requires accounts { length limits.now.accounts ≡ self.now.value.accounts }
        requires symbols { length limits.now.symbols ≡ self.now.value.symbols }
        ensures value { result ≡ proposal_of_replace self.now.value request.now limits.now }
        ensures within { IfOk result (λ values. is_within_cap values ≡ true) }
    {
        let place = match self.requested(&request.id.owned(), &request.orig.owned()) {
            Ok(place) => place,
            Err(fault) => return Err(fault),
        };
        let order = self.order(place);
        if !is_of_order(request, limits, &order) {
            return Err(BookFault::Mismatch);
        }
        if request.quantity <= order.filled {
            return Err(BookFault::Quantity);
        }
        self.values_with(place, &order, &with_replace(request, limits, &order))
    }

    /// The place of the order that a request with these ids may change, or what stands against it.
    fn requested(&self, id: &Id, orig: &Id) -> Result<usize, BookFault>
        ensures value { result ≡ requested self.now.value id.now orig.now }
        ensures within { IfOk result (λ place. place < length self.now.value.orders) }
    {
        if self.place(id).is_some() {
            return Err(BookFault::Duplicate);
        }
        let Some(place) = self.place(orig) else {
            return Err(BookFault::Unknown);
        };
        let order = self.order(place);
        if order.is_closed() {
            return Err(BookFault::Closed);
        }
        if order.pending.is_some() {
            return Err(BookFault::Pending);
        }
        if *orig != order.current {
            return Err(BookFault::Unknown);
        }
        Ok(place)
    }
}
