//! What no clause says: that orders are kept with ample memory, and that what rests after requests and
//! reports is what was worked by hand.
ghost use Rattle.std.specs.Prelude.{◌≤◌};

use crate::{RestingOrders, cross_value};
use fix_fields::{Id, IdText};
use fix_orders::{Cancel, Exec, Head, NewOrder, OrderKind, Replace};
use limit_table::SymbolRow;
use std::alloc::Global;
use std::process::Abort;
use std::test::*;

/// What comes. Of a request the first id is its own, and a second one the OrigClOrdID (41); then come
/// the price in ten-thousandths, 0 at the market, and the quantity.
#[derive(Clone, Copy)]
enum Comes {
    Buy(&'static str, u64, u64),
    Sell(&'static str, u64, u64),
    ReplaceBuy(&'static str, &'static str, u64, u64),
    ReplaceSell(&'static str, &'static str, u64, u64),
    Cancel(&'static str, &'static str),
    Report(&'static str, Exec),
    /// At 10.00.
    Trade(&'static str, u64),
    CancelReject(&'static str),
}

/// What comes, by its name, and what rests then.
type Row = (&'static str, Comes, u64);

/// Sells with the price levels 90,101 at 10.01, 90,001 at 10.00 and 89,901 at 9.99.
const REPLACES_IN_A_CHAIN: [Row; 8] = [
    ("a sell at 10.00", Comes::Sell("a1", 100_000, 10), 434_287),
    (
        "a replace to 10.01: the lower counts",
        Comes::ReplaceSell("a2", "a1", 100_100, 10),
        434_287,
    ),
    (
        "which is replaced",
        Comes::Report("a2", Exec::Replaced),
        434_187,
    ),
    (
        "one more to 9.99",
        Comes::ReplaceSell("a3", "a2", 99_900, 10),
        434_387,
    ),
    (
        "one more to 10.00, by the first id",
        Comes::ReplaceSell("a4", "a1", 100_000, 10),
        434_387,
    ),
    (
        "the third is rejected",
        Comes::Report("a3", Exec::Rejected),
        434_287,
    ),
    (
        "the fourth has a cancel reject",
        Comes::CancelReject("a4"),
        434_187,
    ),
    (
        "the order is canceled by its first id",
        Comes::Report("a1", Exec::Canceled),
        0,
    ),
];

/// Buys at 10.00 and 9.99.
const TRADES_IN_PARTS: [Row; 8] = [
    (
        "a buy of 10 at 10.00",
        Comes::Buy("b1", 100_000, 10),
        47_186_444_288,
    ),
    ("a trade of 4", Comes::Trade("b1", 4), 47_186_444_288),
    (
        "a replace to 20 at 9.99",
        Comes::ReplaceBuy("b2", "b1", 99_900, 20),
        47_186_444_288,
    ),
    ("10 of 20 are filled", Comes::Trade("b1", 6), 47_186_444_288),
    (
        "which is replaced",
        Comes::Report("b2", Exec::Replaced),
        47_134_015_488,
    ),
    ("19 of 20 are filled", Comes::Trade("b2", 9), 47_134_015_488),
    ("all are filled", Comes::Trade("b1", 1), 0),
    (
        "nothing changes a closed order",
        Comes::Report("b2", Exec::Replaced),
        0,
    ),
];

const REJECTS_OF_A_TERM: [Row; 8] = [
    ("a sell at 10.00", Comes::Sell("c1", 100_000, 10), 434_287),
    (
        "a cancel reject of the first term",
        Comes::CancelReject("c1"),
        434_287,
    ),
    (
        "a report with an id of no order",
        Comes::Report("zz", Exec::Rejected),
        434_287,
    ),
    ("a cancel", Comes::Cancel("c2", "c1"), 434_287),
    ("its cancel reject", Comes::CancelReject("c2"), 434_287),
    (
        "the cancel is rejected",
        Comes::Report("c2", Exec::Rejected),
        434_287,
    ),
    (
        "the order is rejected",
        Comes::Report("c1", Exec::Rejected),
        0,
    ),
    (
        "an order with that id again",
        Comes::Sell("c1", 100_100, 10),
        434_187,
    ),
];

/// The later of two live orders with one id is meant.
const ONE_ID_TWICE: [Row; 4] = [
    ("a sell at 10.00", Comes::Sell("d1", 100_000, 10), 434_287),
    (
        "a buy at 9.99",
        Comes::Buy("d1", 99_900, 10),
        47_134_449_775,
    ),
    (
        "the buy is canceled",
        Comes::Report("d1", Exec::Canceled),
        434_287,
    ),
    (
        "the sell is canceled",
        Comes::Report("d1", Exec::Canceled),
        0,
    ),
];

const MARKET_AND_OUTSIDE: [Row; 8] = [
    ("a market buy", Comes::Buy("e1", 0, 10), 274_877_382_656),
    ("a market sell", Comes::Sell("e2", 0, 10), 274_877_906_943),
    (
        "the buy expires",
        Comes::Report("e1", Exec::Expired),
        524_287,
    ),
    ("the sell is traded", Comes::Trade("e2", 10), 0),
    (
        "a buy below the low collar",
        Comes::Buy("f1", 9_999, 10),
        524_288,
    ),
    (
        "a sell above the high collar",
        Comes::Sell("f2", 120_001, 10),
        524_289,
    ),
    (
        "a replace of another side: an order",
        Comes::ReplaceBuy("f3", "f2", 10_000, 10),
        524_289,
    ),
    (
        "the sell is canceled",
        Comes::Report("f2", Exec::Canceled),
        524_288,
    ),
];

/// In collars with a price level for each second price.
const LEVELS_OF_TWO_PRICES: [Row; 4] = [
    (
        "a sell between two levels, of 2",
        Comes::Sell("g1", 4, 10),
        524_286,
    ),
    (
        "a buy between the same, of 3",
        Comes::Buy("g2", 4, 10),
        2_097_150,
    ),
    (
        "a sell at 3 counts less",
        Comes::Sell("g3", 5, 10),
        2_097_150,
    ),
    (
        "the first is canceled",
        Comes::Report("g1", Exec::Canceled),
        2_097_149,
    ),
];

fn text(id: &'static str) -> Result<IdText<'static>, Fail> {
    match IdText::read(id.as_bytes()) {
        Ok(id) => Ok(id),
        Err(_) => Err("no id")?,
    }
}

fn head() -> Result<Head<'static>, Fail> {
    Ok(Head {
        sender: text("C1")?,
        target: text("GATE")?,
        seq: 1,
        time: text("20240102-10:00:00")?,
    })
}

fn kind_of(price: u64) -> OrderKind {
    match price {
        0 => OrderKind::Market,
        _ => OrderKind::Limit,
    }
}

fn new_order(
    id: &'static str,
    side: u8,
    price: u64,
    quantity: u64,
) -> Result<NewOrder<'static>, Fail> {
    Ok(NewOrder {
        head: head()?,
        id: text(id)?,
        account: text("ACC")?,
        symbol: text("XYZ")?,
        side,
        quantity,
        kind: kind_of(price),
        price,
    })
}

fn replace(
    ids: (&'static str, &'static str),
    side: u8,
    price: u64,
    quantity: u64,
) -> Result<Replace<'static>, Fail> {
    Ok(Replace {
        head: head()?,
        id: text(ids.0)?,
        orig: text(ids.1)?,
        account: None,
        symbol: text("XYZ")?,
        side,
        quantity,
        kind: kind_of(price),
        price,
    })
}

/// Adds an order of the symbol at place 0.
fn adds(
    orders: &mut RestingOrders,
    alloc: Global,
    row: &SymbolRow,
    order: &NewOrder,
) -> Result<(), Fail>
    requires { row.now.low ≤ row.now.high }
{
    let value = cross_value(row, order.side, &order.kind, order.price);
    orders.add(alloc, 0, order, value)?;
    Ok(())
}

/// Adds a replace of the symbol at place 0.
fn replaces(
    orders: &mut RestingOrders,
    alloc: Global,
    row: &SymbolRow,
    request: &Replace,
) -> Result<(), Fail>
    requires { row.now.low ≤ row.now.high }
{
    let value = cross_value(row, request.side, &request.kind, request.price);
    let _ = orders.replace(alloc, 0, request, value)?;
    Ok(())
}

/// Has the orders take what comes.
fn takes(
    orders: &mut RestingOrders,
    alloc: Global,
    row: &SymbolRow,
    what: &Comes,
) -> Result<(), Fail>
    requires { row.now.low ≤ row.now.high }
{
    match *what {
        Comes::Buy(id, price, quantity) => {
            adds(orders, alloc, row, &new_order(id, b'1', price, quantity)?)?;
        }
        Comes::Sell(id, price, quantity) => {
            adds(orders, alloc, row, &new_order(id, b'2', price, quantity)?)?;
        }
        Comes::ReplaceBuy(id, orig, price, quantity) => {
            replaces(
                orders,
                alloc,
                row,
                &replace((id, orig), b'1', price, quantity)?,
            )?;
        }
        Comes::ReplaceSell(id, orig, price, quantity) => {
            replaces(
                orders,
                alloc,
                row,
                &replace((id, orig), b'2', price, quantity)?,
            )?;
        }
        Comes::Cancel(id, orig) => {
            let cancel = Cancel {
                head: head()?,
                id: text(id)?,
                orig: text(orig)?,
            };
            orders.cancel(&cancel)?;
        }
        Comes::Report(id, exec) => {
            orders.report(&text(id)?, exec);
        }
        Comes::Trade(id, quantity) => {
            let exec = Exec::Trade {
                quantity,
                price: 100_000,
            };
            orders.report(&text(id)?, exec);
        }
        Comes::CancelReject(id) => {
            orders.reject(&text(id)?);
        }
    }
    Ok(())
}

/// What rests after each row, in a symbol with these collars.
fn rests(rt: &impl Abort, alloc: Global, collars: (u64, u64), rows: &[Row]) -> Result<(), Fail> {
    let name = match Id::read(b"XYZ") {
        Ok(name) => name,
        Err(_) => Err("no id")?,
    };
    let row = SymbolRow {
        name,
        limit: 100_000,
        low: collars.0,
        high: collars.1,
        size: 100_000,
    };
    assert!(rt; row.low <= row.high, "the collars");
    let mut orders = RestingOrders::new(alloc);
    for (name, what, value) in rows {
        takes(&mut orders, alloc, &row, what)?;
        assert_eq!(rt; orders.value_in(0), *value, "{name}");
        assert_eq!(rt; orders.value_in(1), 0, "{name}: another symbol");
    }
    Ok(())
}

#[test]
fn what_rests_as_requests_and_reports_come(rt: HostRuntime) -> Result<(), Fail> {
    rests(&rt, rt.alloc(), (10_000, 120_000), &REPLACES_IN_A_CHAIN)?;
    rests(&rt, rt.alloc(), (10_000, 120_000), &TRADES_IN_PARTS)?;
    rests(&rt, rt.alloc(), (10_000, 120_000), &REJECTS_OF_A_TERM)?;
    rests(&rt, rt.alloc(), (10_000, 120_000), &ONE_ID_TWICE)?;
    rests(&rt, rt.alloc(), (10_000, 120_000), &MARKET_AND_OUTSIDE)?;
    rests(&rt, rt.alloc(), (1, 1_048_573), &LEVELS_OF_TWO_PRICES)
}
