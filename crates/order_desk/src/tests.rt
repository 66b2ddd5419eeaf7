//! What no clause says: that each call answers with ample memory, and what is decided and posted in
//! whole sequences of messages, worked by hand.
ghost use Rattle.std.specs.Prelude.{◌≡◌, length, IfOk};

use crate::dropping::only_its_own_rows_drop_screens;
use crate::laws::a_first_book_is_covered;
use crate::screened::SCREENED;
use crate::sequences::{Answer, Posted, SEQUENCES, Sequence, Step, Turn};
use crate::{Desk, Refusal, Reply, decide_cancel, decide_new, decide_replace, settle};
use admit_core::Hands;
use exposure_book::Book;
use fix_orders::{
    Cancel, CancelReject, Exec, Head, IdText, Message, NewOrder, OrderKind, Replace, Report,
};
use fold_law::{Max, Sum};
use limit_table::{Limits, read_limits};
use risk_board::{Hand, PlainBoard};
use screen_kit::{CollarScreen, RepeatScreen, Screen, SizeScreen, Terms, arm_all};
use std::alloc::Global;
use std::process::Abort;
use std::test::*;

/// The id of this text.
fn id(text: &[u8]) -> Result<IdText, Fail> {
    match IdText::read(text) {
        Ok(id) => Ok(id),
        Err(_) => Err("no id")?,
    }
}

/// A head that nothing here looks at.
fn head() -> Result<Head<'static>, Fail> {
    Ok(Head {
        sender: id(b"C1")?,
        target: id(b"GATE")?,
        seq: 1,
        time: id(b"20240102-10:00:00")?,
    })
}

/// A limit order of these ids, account and symbol.
fn order<'a>(
    names: [&'a [u8]; 3],
    side: u8,
    quantity: u64,
    price: u64,
) -> Result<Message<'a>, Fail> {
    let [own, account, symbol] = names;
    Ok(Message::New(NewOrder {
        head: head()?,
        id: id(own)?,
        account: id(account)?,
        symbol: id(symbol)?,
        side,
        quantity,
        kind: OrderKind::Limit,
        price,
    }))
}

/// A replace by a limit order of these ids, account and symbol. An empty account isn't there.
fn replace<'a>(
    names: [&'a [u8]; 4],
    side: u8,
    quantity: u64,
    price: u64,
) -> Result<Message<'a>, Fail> {
    let [own, orig, account, symbol] = names;
    Ok(Message::Replace(Replace {
        head: head()?,
        id: id(own)?,
        orig: id(orig)?,
        account: IdText::read(account).ok(),
        symbol: id(symbol)?,
        side,
        quantity,
        kind: OrderKind::Limit,
        price,
    }))
}

/// A report, without an id where there is none.
fn report(own: Option<IdText>, exec: Exec) -> Result<Message, Fail> {
    Ok(Message::Report(Report {
        head: head()?,
        id: own,
        exec,
    }))
}

/// The message of a step.
fn message(step: Step) -> Result<Message<'static>, Fail> {
    match step {
        Step::Buy(own, quantity, price) => order([own, b"ACC", b"XYZ"], b'1', quantity, price),
        Step::New(own, account, symbol, side, quantity, price) => {
            order([own, account, symbol], side, quantity, price)
        }
        Step::Cancel(own, orig) => Ok(Message::Cancel(Cancel {
            head: head()?,
            id: id(own)?,
            orig: id(orig)?,
        })),
        Step::Replace(own, orig, quantity, price) => {
            replace([own, orig, b"", b"XYZ"], b'1', quantity, price)
        }
        Step::ReplaceOf(own, orig, account, symbol, side, quantity, price) => {
            replace([own, orig, account, symbol], side, quantity, price)
        }
        Step::Trade(own, quantity, price) => {
            report(Some(id(own)?), Exec::Trade { quantity, price })
        }
        Step::Report(own, exec) => report(Some(id(own)?), exec),
        Step::NoId(exec) => report(None, exec),
        Step::Reject(own) => Ok(Message::CancelReject(CancelReject {
            head: head()?,
            id: id(own)?,
        })),
    }
}

/// Whether a step is an order or a replace, which are counted.
fn is_order(step: Step) -> bool {
    matches!(
        step,
        Step::Buy(..) | Step::New(..) | Step::Replace(..) | Step::ReplaceOf(..)
    )
}

/// Sent, or refused.
fn decided(refusal: Option<Refusal>) -> Answer {
    match refusal {
        None => Answer::Sent,
        Some(why) => Answer::Refused(why),
    }
}

/// Takes the memory for one message and what comes of it, and gives what comes of it.
fn take<H: Hand, M: Hand, K: Screen>(
    desk: &mut Desk<'_, H, M, K>,
    message: &Message,
) -> Result<Answer, Fail> {
    desk.reserve(12)?;
    match message {
        Message::New(order) => Ok(decided(decide_new(desk, order))),
        Message::Cancel(request) => Ok(decided(decide_cancel(desk, request))),
        Message::Replace(request) => Ok(decided(decide_replace(desk, request))),
        Message::Report(report) => Ok(Answer::Settled(settle(desk, &Reply::Report(report)))),
        Message::CancelReject(reject) => Ok(Answer::Settled(settle(desk, &Reply::Reject(reject)))),
        Message::Admin | Message::Other => Err("no message of an order")?,
    }
}

/// Whether this was last posted in the trees.
fn stands<H: Hand, M: Hand, K: Screen>(desk: &Desk<'_, H, M, K>, posted: Posted) -> bool {
    let limits = desk.limits;
    for tree in 0..limits.halt_tree() {
        let want = match posted {
            Posted::All(value) => Some(value),
            Posted::Trees(values) => values.get(tree as usize).copied(),
        };
        if want != Some(desk.hands.last(tree)) {
            return false;
        }
    }
    true
}

/// Takes one message, and compares what comes of it.
fn compare<H: Hand, M: Hand, K: Screen>(
    rt: &impl Abort,
    desk: &mut Desk<'_, H, M, K>,
    name: &str,
    turn: Turn,
) -> Result<(), Fail> {
    let (step, want, acts, posted) = turn;
    let before = desk.hands.acts().len();
    let got = take(desk, &message(step)?)?;
    assert_eq!(rt; got, want, "{name}: {step:?}");
    let made = desk.hands.acts().len().saturating_sub(before);
    assert_eq!(rt; made, acts, "{name}: {step:?}: acts");
    let as_wanted = stands(desk, posted);
    assert!(rt; as_wanted, "{name}: {step:?}: {posted:?}");
    Ok(())
}

/// A halt tree of two sessions, which session 1 has tripped or not.
fn open_halt(rt: &impl Abort, alloc: Global, halted: bool) -> Result<PlainBoard<Max>, Fail>
    ensures lines { IfOk result (λ board. length board.lines ≡ 1) }
    ensures calls { IfOk result (λ board. length board.calls ≡ 2) }
    ensures quota { IfOk result (λ board. board.quota ≡ 2) }
{
    let board = PlainBoard::<Max>::open(alloc, 1, 2, 2)?;
    if !halted {
        return Ok(board);
    }
    assert!(rt; board.calls(1).is_empty(), "session 1 has made no call");
    let mut hand = board.hand(1);
    hand.reserve(1)?;
    assert!(rt; hand.left(0) > 0, "a post is left");
    hand.post(0, 1);
    Ok(hand.give_back())
}

/// A session over plain boards before its first message, and its messages in turn.
fn run<K: Screen>(
    rt: &impl Abort,
    alloc: Global,
    limits: &Limits,
    mut screens: Vec<K>,
    sequence: &Sequence,
) -> Result<(), Fail> {
    let name = sequence.name;
    let sum = PlainBoard::<Sum>::open(alloc, limits.halt_tree(), 1, limits.quota())?.hand(0);
    let board = open_halt(rt, alloc, sequence.halted)?;
    assert!(rt;
        board.calls(0).is_empty(),
        "{name}: session 0 has made no call"
    );
    let Ok(hands) = Hands::open(alloc, limits, sum, board.hand(0)) else {
        return Err("memory")?;
    };
    let book = Book::new(alloc, limits)?;
    let repeat = limits.repeat();
    arm_all(&mut screens, &Terms { repeat })?;
    a_first_book_is_covered();
    only_its_own_rows_drop_screens();
    let mut desk = Desk::open(limits, hands, book, screens);
    let mut orders = 0u32;
    for turn in sequence.turns {
        if is_order(turn.0) {
            desk.drop_screens(orders);
            orders = orders.wrapping_add(1);
        }
        compare(rt, &mut desk, name, *turn)?;
    }
    Ok(())
}

#[test]
fn what_comes_of_each_message(rt: HostRuntime) -> Result<(), Fail> {
    for sequence in &SEQUENCES {
        let name = sequence.name;
        let limits = read_limits(rt.alloc(), sequence.limits);
        assert!(&rt; limits.is_ok(), "{name}: limits");
        if let Ok(limits) = limits {
            let none: Vec<SizeScreen> = Vec::new(rt.alloc());
            run(&rt, rt.alloc(), &limits, none, sequence)?;
        }
    }
    Ok(())
}

#[test]
fn what_comes_of_each_message_behind_screens(rt: HostRuntime) -> Result<(), Fail> {
    let alloc = rt.alloc();
    for sequence in &SCREENED {
        let name = sequence.name;
        let mut set: Vec<Box<dyn Screen + Send>> = Vec::new(alloc);
        set.push(Box::new(alloc, SizeScreen::new(alloc))?)?;
        set.push(Box::new(alloc, CollarScreen::new(alloc))?)?;
        set.push(Box::new(alloc, RepeatScreen::new(alloc))?)?;
        let limits = read_limits(alloc, sequence.limits);
        assert!(&rt; limits.is_ok(), "{name}: limits");
        if let Ok(limits) = limits {
            run(&rt, alloc, &limits, set, sequence)?;
        }
    }
    Ok(())
}
