//! What no clause says: that guards run over a plain board with ample memory, and that values, verdicts
//! and posts are those of orders worked by hand.
ghost use Rattle.std.specs.Prelude.{◌≡◌, ◌<◌, ◌≤◌, length, IfOk};
ghost use Rattle.risk_board.specs.Plain.{hand_of};
ghost use Rattle.cross_guard.specs.Guarding.{last_call};
ghost use Rattle.cross_guard.specs.Halves.{cross_cap};

use crate::{Cross, CrossVerdict, clear, cross_value, guard};
use fix_fields::Id;
use fix_orders::OrderKind;
use fold_law::{Fold, QUOTA};
use limit_table::SymbolRow;
use risk_board::{Hand, PlainBoard, PlainHand};
use std::alloc::Global;
use std::process::Abort;
use std::test::*;

/// The levels of a buy at 10.00, one at 9.99 and a sell at 10.00, in collars of 1.00 and 12.00.
const BUY: u64 = 47_186_444_288;

const LOWER_BUY: u64 = 47_134_015_488;

const SELL: u64 = 434_287;

/// The collars of a symbol, and an order there with the value that it has. Prices are in
/// ten-thousandths.
#[derive(Clone, Copy)]
struct Priced {
    name: &'static str,
    collars: (u64, u64),
    side: u8,
    kind: OrderKind,
    price: u64,
    value: u64,
}

/// A buy of a price within collars of 1.00 and 12.00, which have a level for each ten-thousandth.
const BUYS_AT_10: Priced = Priced {
    name: "a buy at 10.00",
    collars: (10_000, 120_000),
    side: b'1',
    kind: OrderKind::Limit,
    price: 100_000,
    value: BUY,
};

const WITHIN: [Priced; 6] = [
    BUYS_AT_10,
    Priced {
        name: "a buy at 9.99",
        price: 99_900,
        value: LOWER_BUY,
        ..BUYS_AT_10
    },
    Priced {
        name: "a sell at 10.00",
        side: b'2',
        value: SELL,
        ..BUYS_AT_10
    },
    Priced {
        name: "a short sell at 10.00",
        side: b'5',
        value: SELL,
        ..BUYS_AT_10
    },
    Priced {
        name: "a buy at the low collar, of level 1",
        price: 10_000,
        value: 524_288,
        ..BUYS_AT_10
    },
    Priced {
        name: "a sell at the low collar, of level 1",
        side: b'2',
        price: 10_000,
        value: 524_287,
        ..BUYS_AT_10
    },
];

const OUTSIDE: [Priced; 8] = [
    Priced {
        name: "a buy below the low collar, of level 1",
        price: 9_999,
        value: 524_288,
        ..BUYS_AT_10
    },
    Priced {
        name: "a sell below the low collar, of level 1",
        side: b'2',
        price: 9_999,
        value: 524_287,
        ..BUYS_AT_10
    },
    Priced {
        name: "a buy above the high collar, of level 524,287",
        price: 120_001,
        value: 274_877_382_656,
        ..BUYS_AT_10
    },
    Priced {
        name: "a sell above the high collar, of level 524,287",
        side: b'2',
        price: 120_001,
        value: 1,
        ..BUYS_AT_10
    },
    Priced {
        name: "a market buy, of level 524,287",
        kind: OrderKind::Market,
        price: 0,
        value: 274_877_382_656,
        ..BUYS_AT_10
    },
    Priced {
        name: "a market sell, of level 1",
        side: b'2',
        kind: OrderKind::Market,
        price: 0,
        value: 524_287,
        ..BUYS_AT_10
    },
    Priced {
        name: "a buy where both collars are one price, of level 1",
        collars: (100_000, 100_000),
        value: 524_288,
        ..BUYS_AT_10
    },
    Priced {
        name: "a sell where both collars are one price, of level 1",
        collars: (100_000, 100_000),
        side: b'2',
        value: 524_287,
        ..BUYS_AT_10
    },
];

/// Collars that are 1,048,572 apart, so that there is a level for each second price.
const WIDE: [Priced; 5] = [
    Priced {
        name: "a buy between two levels, of the upper one, 3",
        collars: (1, 1_048_573),
        price: 4,
        value: 1_572_864,
        ..BUYS_AT_10
    },
    Priced {
        name: "a sell between two levels, of the lower one, 2",
        collars: (1, 1_048_573),
        side: b'2',
        price: 4,
        value: 524_286,
        ..BUYS_AT_10
    },
    Priced {
        name: "a sell at a level, 3",
        collars: (1, 1_048_573),
        side: b'2',
        price: 5,
        value: 524_285,
        ..BUYS_AT_10
    },
    Priced {
        name: "a buy at the high collar, of level 524,287",
        collars: (1, 1_048_573),
        price: 1_048_573,
        value: 274_877_382_656,
        ..BUYS_AT_10
    },
    Priced {
        name: "a buy one above the low collar, of level 2, where the collars are 524,287 apart",
        collars: (1, 524_288),
        price: 2,
        value: 1_048_576,
        ..BUYS_AT_10
    },
];

fn has_values(rt: &impl Abort, orders: &[Priced]) -> Result<(), Fail> {
    let name = match Id::read(b"XYZ") {
        Ok(name) => name,
        Err(_) => Err("no id")?,
    };
    for order in orders {
        let row = SymbolRow {
            name,
            limit: 100_000,
            low: order.collars.0,
            high: order.collars.1,
            size: 100_000,
        };
        assert!(rt; row.low <= row.high, "the collars of {}", order.name);
        let value = cross_value(&row, order.side, &order.kind, order.price);
        assert_eq!(rt; value, order.value, "{}", order.name);
    }
    Ok(())
}

#[test]
fn values_within_the_collars(rt: HostRuntime) -> Result<(), Fail> {
    has_values(&rt, &WITHIN)
}

#[test]
fn values_outside_the_collars_and_at_the_market(rt: HostRuntime) -> Result<(), Fail> {
    has_values(&rt, &OUTSIDE)
}

#[test]
fn values_where_a_level_has_several_prices(rt: HostRuntime) -> Result<(), Fail> {
    has_values(&rt, &WIDE)
}

#[test]
fn what_is_clear(rt: HostRuntime) -> Result<(), Fail> {
    let values: [(&str, u64, bool); 7] = [
        ("nothing", 0, true),
        ("a buy alone", BUY, true),
        ("a sell alone", SELL, true),
        ("a buy and a sell of one level", BUY + SELL, false),
        ("a buy below a sell", LOWER_BUY + SELL, true),
        ("a buy one level below a sell", 524_288 + 524_286, true),
        (
            "a buy between the levels of a sell a price above",
            1_572_864 + 524_285,
            false,
        ),
    ];
    for (name, value, is_clear) in values {
        assert_eq!(rt; clear(value), is_clear, "{name}");
    }
    Ok(())
}

/// What happens in a symbol's tree.
#[derive(Clone, Copy)]
enum Happens {
    /// An order with which the session would have this value: the verdict, and the value of the root
    /// that is read.
    Order(u64, CrossVerdict, u64),
    /// A report that leaves this of the session's orders.
    Report(u64),
}

/// An order or a report by its name.
type Row = (&'static str, Happens);

/// A sell at 10.00, and of the same session a buy at its price, then one below it.
const SELL_THEN_BUYS: [Row; 3] = [
    (
        "a sell alone",
        Happens::Order(SELL, CrossVerdict::Sent, SELL),
    ),
    (
        "a buy at its price",
        Happens::Order(BUY + SELL, CrossVerdict::Cross, BUY + SELL),
    ),
    (
        "a buy below",
        Happens::Order(LOWER_BUY + SELL, CrossVerdict::Sent, LOWER_BUY + SELL),
    ),
];

/// A sell at 10.00 that is canceled before a buy at its price.
const SELL_CANCELED: [Row; 3] = [
    (
        "a sell alone",
        Happens::Order(SELL, CrossVerdict::Sent, SELL),
    ),
    ("the sell is canceled", Happens::Report(0)),
    (
        "a buy at its price",
        Happens::Order(BUY, CrossVerdict::Sent, BUY),
    ),
];

/// With three posts in the tree.
const FEW_POSTS: [Row; 3] = [
    (
        "a sell, with three left",
        Happens::Order(SELL, CrossVerdict::Sent, SELL),
    ),
    (
        "a buy, with two",
        Happens::Order(LOWER_BUY + SELL, CrossVerdict::Sent, LOWER_BUY + SELL),
    ),
    (
        "a higher buy, with one",
        Happens::Order(BUY + SELL, CrossVerdict::Quota, 0),
    ),
];

/// A session that has a sell at 10.00.
const SELLS: [Row; 1] = [(
    "a sell alone",
    Happens::Order(SELL, CrossVerdict::Sent, SELL),
)];

/// Buys of a session while another has a sell at 10.00.
const BUYS_AGAINST_IT: [Row; 2] = [
    (
        "a buy at the other's price",
        Happens::Order(BUY, CrossVerdict::Cross, BUY + SELL),
    ),
    (
        "a buy below it",
        Happens::Order(LOWER_BUY, CrossVerdict::Sent, LOWER_BUY + SELL),
    ),
];

/// What two sessions do one after the other, with so many posts each, and what they post.
#[derive(Clone, Copy)]
struct Case {
    quota: u32,
    first: &'static [Row],
    second: &'static [Row],
    /// The number of the session, from 0, and the value.
    posts: &'static [(u32, u64)],
}

/// Does what the rows say in tree 0, with a hand that has posted nothing there.
fn does_all<H: Hand>(rt: &impl Abort, hand: &mut H, rows: &[Row]) -> Result<(), Fail>
    requires tree { 0 < (H.meaning hand.old).trees }
    requires cap { (H.meaning hand.old).cap ≡ cross_cap }
    requires fresh { last_call 0 (H.meaning hand.old).calls ≡ 0 }
    ensures { H.SameOrigin hand.old hand.new }
{
    let mut last = 0;
    for (name, happens) in rows {
        hand.reserve(3)?;
        match happens {
            Happens::Order(new, verdict, root) => {
                assert!(rt;
                    *new <= Cross::CAP && Cross::le(last, *new),
                    "{name}: can be asked"
                );
                let outcome = guard(hand, 0, last, *new);
                assert_eq!(rt; outcome.verdict, *verdict, "{name}");
                assert_eq!(rt; outcome.root.value, *root, "{name}: the root");
                if outcome.verdict == CrossVerdict::Sent {
                    last = *new;
                }
            }
            Happens::Report(value) => {
                assert!(rt;
                    *value <= Cross::CAP && hand.left(0) > 0,
                    "{name}: can be posted"
                );
                hand.post(0, *value);
                last = *value;
            }
        }
    }
    Ok(())
}

/// Both sessions on one board, and what was posted in its tree.
fn posts_are(rt: &impl Abort, alloc: Global, case: &Case) -> Result<(), Fail> {
    assert!(rt; case.quota > 0 && case.quota <= QUOTA, "a quota");
    let board = PlainBoard::<Cross>::open(alloc, 1, 2, case.quota)?;
    let mut hand = board.hand(0);
    does_all(rt, &mut hand, case.first)?;
    let mut other = hand.give_back().hand(1);
    does_all(rt, &mut other, case.second)?;
    let board = other.give_back();
    assert_eq!(rt; board.lines(0).len(), case.posts.len(), "as many posts");
    for (line, (session, value)) in board.lines(0).iter().zip(case.posts) {
        assert_eq!(rt; line.session, *session, "whose post");
        assert_eq!(rt; line.value, *value, "its value");
    }
    Ok(())
}

#[test]
fn a_buy_at_the_price_of_the_sessions_own_sell_is_refused(rt: HostRuntime) -> Result<(), Fail> {
    let case = Case {
        quota: 9,
        first: &SELL_THEN_BUYS,
        second: &[],
        posts: &[
            (0, 434_287),
            (0, 47_186_878_575),
            (0, 434_287),
            (0, 47_134_449_775),
        ],
    };
    posts_are(&rt, rt.alloc(), &case)
}

#[test]
fn a_buy_at_the_price_of_a_canceled_sell_is_sent(rt: HostRuntime) -> Result<(), Fail> {
    let case = Case {
        quota: 9,
        first: &SELL_CANCELED,
        second: &[],
        posts: &[(0, 434_287), (0, 0), (0, 47_186_444_288)],
    };
    posts_are(&rt, rt.alloc(), &case)
}

#[test]
fn a_buy_at_the_price_of_another_sessions_sell_is_refused(rt: HostRuntime) -> Result<(), Fail> {
    let case = Case {
        quota: 9,
        first: &SELLS,
        second: &BUYS_AGAINST_IT,
        posts: &[
            (0, 434_287),
            (1, 47_186_444_288),
            (1, 0),
            (1, 47_134_015_488),
        ],
    };
    posts_are(&rt, rt.alloc(), &case)
}

#[test]
fn an_order_with_one_post_left_isnt_asked_about(rt: HostRuntime) -> Result<(), Fail> {
    let case = Case {
        quota: 3,
        first: &FEW_POSTS,
        second: &[],
        posts: &[(0, 434_287), (0, 47_134_449_775)],
    };
    posts_are(&rt, rt.alloc(), &case)
}
