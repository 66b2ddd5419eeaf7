//! What is offered to the screens and to the trees for a request that the book takes.
ghost use Rattle.std.specs.Prelude.{◌≡◌, ◌<◌, length, Ok, IfOk};
ghost use Rattle.exposure_book.specs.Proposals.{proposal_of_new, proposal_of_replace};
ghost use Rattle.admit_core.specs.Legs.{AreRowsOf};
ghost use Rattle.order_desk.specs.Offers.{new_seen, replace_seen, new_offer, replace_offer};
ghost use Rattle.order_desk.specs.Offers.{IsSoundFor};

use crate::refusal::{Refusal, refusal_of};
use crate::rows::find_rows;
use admit_core::OrderRows;
use exposure_book::{Book, Proposal};
use fix_orders::{NewOrder, Replace};
use limit_table::Limits;
use screen_kit::Order;

/// What is offered for a request that the book takes.
#[derive(Clone, Copy, Debug, PartialEq, Eq)]
pub struct Offer {
    /// The order that is asked for, as screens see it.
    pub seen: Order,
    /// Where its account and its symbol stand among the rows of the limits.
    pub rows: OrderRows,
    /// What the book's orders are worth with it, in whole currency units.
    pub values: Proposal,
    /// Whether the trees are asked about it also where no value is above what was last posted.
    pub always: bool,
}

/// What screens see of an order (D) of these rows: its Side (54), its OrdType (40), its OrderQty (38)
/// and its Price (44) in ten-thousandths of a currency unit, with the terms of its symbol.
fn new_seen(limits: &Limits, order: &NewOrder, rows: &OrderRows) -> Order
    requires { rows.now.symbol < length limits.now.symbols }
    ensures { result ≡ new_seen limits.now order.now rows.now }
{
    let symbol = &limits.symbols()[rows.symbol as usize];
    Order {
        account: rows.account,
        symbol: rows.symbol,
        side: order.side,
        kind: order.kind,
        quantity: order.quantity,
        price: order.price,
        low: symbol.low,
        high: symbol.high,
        size: symbol.size,
    }
}

/// The same of a replace (G) of an order of these rows.
fn replace_seen(limits: &Limits, request: &Replace, rows: &OrderRows) -> Order
    requires { rows.now.symbol < length limits.now.symbols }
    ensures { result ≡ replace_seen limits.now request.now rows.now }
{
    let symbol = &limits.symbols()[rows.symbol as usize];
    Order {
        account: rows.account,
        symbol: rows.symbol,
        side: request.side,
        kind: request.kind,
        quantity: request.quantity,
        price: request.price,
        low: symbol.low,
        high: symbol.high,
        size: symbol.size,
    }
}

/// What is offered for an order (D): an unknown account or symbol comes before the book's faults.
pub(crate) fn offer_new(book: &Book, limits: &Limits, order: &NewOrder) -> Result<Offer, Refusal>
    requires accounts { book.now.value.accounts ≡ length limits.now.accounts }
    requires symbols { book.now.value.symbols ≡ length limits.now.symbols }
    ensures value { result ≡ new_offer limits.now order.now book.now.value }
    ensures sound { IfOk result (IsSoundFor limits.now) }
    ensures proposed { IfOk result (λ offer. proposal_of_new book.now.value order.now
        offer.rows.account offer.rows.symbol offer.seen.high ≡ Ok offer.values) }
{
    let rows = find_rows(limits, order)?;
    let seen = new_seen(limits, order, &rows);
    match book.propose_new(order, rows.account, rows.symbol, seen.high) {
        Ok(values) => Ok(Offer {
            seen,
            rows,
            values,
            always: true,
        }),
        Err(fault) => Err(refusal_of(fault)),
    }
}

/// What is offered for a replace (G): the book's faults come first.
pub(crate) fn offer_replace(
    book: &Book,
    limits: &Limits,
    request: &Replace,
) -> Result<Offer, Refusal>
    requires accounts { book.now.value.accounts ≡ length limits.now.accounts }
    requires symbols { book.now.value.symbols ≡ length limits.now.symbols }
    ensures value { result ≡ replace_offer limits.now request.now book.now.value }
    ensures sound { IfOk result (IsSoundFor limits.now) }
    ensures proposed { IfOk result (λ offer.
        proposal_of_replace book.now.value request.now limits.now ≡ Ok offer.values) }
{
    let values = match book.propose_replace(request, limits) {
        Ok(values) => values,
        Err(fault) => return Err(refusal_of(fault)),
    };
    let Some((account, symbol)) = book.pair_of(&request.orig) else {
        return Err(Refusal::Unknown);
    };
    let rows = OrderRows { account, symbol };
    Ok(Offer {
        seen: replace_seen(limits, request, &rows),
        rows,
        values,
        always: false,
    })
}
