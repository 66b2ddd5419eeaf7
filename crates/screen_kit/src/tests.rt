//! What no clause says: that the screens arm with ample memory, the codes of whole sets asked for
//! one order after another, worked by hand, and that each box is dropped once.

use crate::counted::Counted;
use crate::first_orders::FirstOrders;
use crate::no_room::NoRoom;
use crate::{
    CollarScreen, Order, OrderKind, RepeatScreen, Screen, SizeScreen, Terms, arm_all, ask, retire,
};
use std::process::Abort;
use std::sync::Arc;
use std::sync::atomic::{AtomicU64, Ordering};
use std::test::*;

/// An order, and the code that the set gives it after those above it.
#[derive(Clone, Copy)]
struct Row {
    name: &'static str,
    order: Order,
    code: u16,
}

/// A buy with a limit in a symbol from 1.0000 to 12.0000, of at most 1,000.
fn buy(quantity: u64, price: u64) -> Order {
    Order {
        account: 0,
        symbol: 0,
        side: b'1',
        kind: OrderKind::Limit,
        quantity,
        price,
        low: 10_000,
        high: 120_000,
        size: 1_000,
    }
}

/// A buy at the market.
fn market_buy(quantity: u64) -> Order {
    let mut order = buy(quantity, 0);
    order.kind = OrderKind::Market;
    order
}

/// The row of that name.
fn of(name: &'static str, order: Order, code: u16) -> Row {
    Row { name, order, code }
}

/// Arms the set, and asks it for the order of each row.
fn asks(
    rt: &impl Abort,
    screens: &mut Vec<Box<dyn Screen + Send>>,
    repeat: u32,
    rows: &[Row],
) -> Result<(), Fail> {
    arm_all(screens, &Terms { repeat })?;
    for row in rows {
        let name = row.name;
        assert_eq!(rt; ask(screens, &row.order), row.code, "{name}");
    }
    Ok(())
}

#[test]
fn the_given_screens_refuse_size_price_and_repeats(rt: HostRuntime) -> Result<(), Fail> {
    let alloc = rt.alloc();
    let mut screens: Vec<Box<dyn Screen + Send>> = Vec::new(alloc);
    screens.push(Box::new(alloc, SizeScreen::new(alloc))?)?;
    screens.push(Box::new(alloc, CollarScreen::new(alloc))?)?;
    screens.push(Box::new(alloc, RepeatScreen::new(alloc))?)?;
    let rows = [
        of("the first", buy(5, 100_000), 0),
        of("the same", buy(5, 100_000), 3),
        of("the same once more", buy(5, 100_000), 3),
        of("above the collar", buy(1, 120_100), 2),
        of("not judged by the screen for repeats", buy(1, 120_100), 2),
        of("at the upper price", buy(1, 120_000), 0),
        of("at the lower price", buy(1, 10_000), 0),
        of("below the collar", buy(1, 9_999), 2),
        of("no price", market_buy(1), 0),
        of("as large as may be", buy(1_000, 100_000), 0),
        of("too large", buy(1_001, 100_000), 1),
        of("too large and above the collar", buy(1_001, 120_001), 1),
    ];
    asks(&rt, &mut screens, 2, &rows)
}

#[test]
fn a_window_holds_refused_orders_too(rt: HostRuntime) -> Result<(), Fail> {
    let alloc = rt.alloc();
    let mut screens: Vec<Box<dyn Screen + Send>> = Vec::new(alloc);
    screens.push(Box::new(alloc, RepeatScreen::new(alloc))?)?;
    let rows = [
        of("a", buy(1, 100_000), 0),
        of("b", buy(2, 100_000), 0),
        of("a, one before the last", buy(1, 100_000), 3),
        of("c", buy(3, 100_000), 0),
        of("a, refused one before the last", buy(1, 100_000), 3),
        of("d", buy(4, 100_000), 0),
        of("e", buy(5, 100_000), 0),
        of("a, too long ago", buy(1, 100_000), 0),
    ];
    asks(&rt, &mut screens, 2, &rows)?;
    let again = [
        of("armed again, nothing was judged", buy(1, 100_000), 0),
        of("a window of none", buy(1, 100_000), 0),
    ];
    asks(&rt, &mut screens, 0, &again)
}

#[test]
fn a_set_with_a_screen_that_gets_no_room_is_not_armed(rt: HostRuntime) -> Result<(), Fail> {
    let alloc = rt.alloc();
    let mut screens: Vec<Box<dyn Screen + Send>> = Vec::new(alloc);
    screens.push(Box::new(alloc, SizeScreen::new(alloc))?)?;
    screens.push(Box::new(alloc, NoRoom)?)?;
    screens.push(Box::new(alloc, RepeatScreen::new(alloc))?)?;
    let terms = Terms { repeat: 2 };
    assert!(rt;
        arm_all(&mut screens, &terms).is_err(),
        "the second gets none"
    );
    assert!(rt; retire(&mut screens, "no_room"), "it has its name");
    assert!(rt;
        arm_all(&mut screens, &terms).is_ok(),
        "the others get theirs"
    );
    Ok(())
}

#[test]
fn a_screen_of_a_firm_refuses_from_the_third_order_on(rt: HostRuntime) -> Result<(), Fail> {
    let alloc = rt.alloc();
    let mut screens: Vec<Box<dyn Screen + Send>> = Vec::new(alloc);
    screens.push(Box::new(alloc, SizeScreen::new(alloc))?)?;
    screens.push(Box::new(alloc, FirstOrders { most: 2, passed: 0 })?)?;
    let rows = [
        of("the first", buy(1, 100_000), 0),
        of(
            "too large, and not judged by the later screen",
            buy(2_000, 100_000),
            1,
        ),
        of("the second", buy(1, 100_000), 0),
        of("the third", buy(1, 100_000), 100),
        of("the fourth", buy(1, 100_000), 100),
    ];
    asks(&rt, &mut screens, 0, &rows)
}

#[test]
fn each_box_is_dropped_once(rt: HostRuntime) -> Result<(), Fail> {
    let alloc = rt.alloc();
    let drops = Arc::new(alloc, AtomicU64::new(0))?;
    let mut screens: Vec<Box<dyn Screen + Send>> = Vec::new(alloc);
    for (code, weight) in [(101, 1), (102, 10), (103, 100)] {
        let counted = Counted {
            code,
            weight,
            drops: Arc::try_clone(&drops)?,
        };
        screens.push(Box::new(alloc, counted)?)?;
    }
    asks(
        &rt,
        &mut screens,
        0,
        &[of("the first refuses", buy(1, 100_000), 101)],
    )?;
    assert!(rt; !retire(&mut screens, "size"), "no screen has the name");
    assert_eq!(rt; drops.load(Ordering::SeqCst), 0, "nothing was dropped");
    assert!(rt; retire(&mut screens, "counted"), "three have the name");
    assert_eq!(rt; drops.load(Ordering::SeqCst), 1, "the first was dropped");
    asks(
        &rt,
        &mut screens,
        0,
        &[of("the second refuses", buy(1, 100_000), 102)],
    )?;
    drop(screens);
    assert_eq!(rt; drops.load(Ordering::SeqCst), 111, "each was dropped once");
    Ok(())
}
