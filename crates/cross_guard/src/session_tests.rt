//! Sessions over plain boards and ports in memory, with ample memory, as rows of tables: what comes in,
//! whether it is passed, and what is posted of it. Bytes of a body have a bar for SOH; BodyLength and
//! CheckSum of a frame are made here.
ghost use Rattle.std.specs.Prelude.{◌≡◌};
ghost use Rattle.risk_board.specs.Plain.{hand_of};
ghost use Rattle.cross_guard.specs.Halves.{cross_cap};
ghost use Rattle.cross_guard.specs.Told.{IsCrossHand};
ghost use Rattle.limit_table.specs.Trees.{LimitsValue};

use crate::session_rows::{
    AT_THE_MARKET, BUYS, BUYS_AGAINST_IT, Comes, FEW, NEAR_ORDERS, NONE, OUTSIDE_THE_COLLARS,
    PASSED_ON, REJECTS_OF_A_TERM, REPLACES_IN_A_CHAIN, Row, SELL_CANCELED, SELL_THEN_BUYS, SELLS,
    SELLS_AGAINST_IT, THREE_POSTS, TRADES_IN_PARTS, WIDE, XYZ,
};
use crate::{Cross, CrossDone, run_cross};
use fold_law::QUOTA;
use gate_ports::{MemSink, MemSource};
use itoa::Buffer;
use limit_table::{Limits, read_limits};
use risk_board::{PlainBoard, PlainHand};
use risk_journal::{Act, End};
use std::alloc::{AllocError, Global};
use std::process::Abort;
use std::test::*;

/// Appends bytes, with SOH for each bar.
fn add(to: &mut Vec<u8>, bytes: &[u8]) -> Result<(), AllocError> {
    for byte in bytes {
        to.push(if *byte == b'|' { 1 } else { *byte })?;
    }
    Ok(())
}

/// The sum of all bytes, modulo 256.
fn sum_of(bytes: &[u8]) -> u8 {
    let mut sum = 0u8;
    for byte in bytes {
        sum = sum.wrapping_add(*byte);
    }
    sum
}

/// The frame of this body.
fn frame_of(alloc: Global, body: &[u8]) -> Result<Vec<u8>, AllocError> {
    let mut digits = Buffer::new();
    let mut frame = Vec::new(alloc);
    add(&mut frame, b"8=FIX.4.4|9=")?;
    add(&mut frame, digits.format(body.len()).as_bytes())?;
    add(&mut frame, b"|")?;
    add(&mut frame, body)?;
    let sum = sum_of(frame.as_slice());
    add(&mut frame, b"10=")?;
    frame.push(b'0' + sum / 100)?;
    frame.push(b'0' + sum / 10 % 10)?;
    frame.push(b'0' + sum % 10)?;
    frame.push(1)?;
    Ok(frame)
}

/// The body of a message of this type, with these fields behind its head.
fn body_of(alloc: Global, kind: &str, fields: &str) -> Result<String, Fail> {
    Ok(format!(in alloc; "35={kind}|49=C1|56=GATE|34=1|52=20240102-10:00:00|{fields}")?)
}

/// The fields of a request behind its ids.
fn asked(alloc: Global, side: u8, price: &str, quantity: u32) -> Result<String, Fail> {
    let side = side.wrapping_sub(b'0');
    Ok(format!(in alloc; "1=ACC|55=XYZ|54={side}|38={quantity}|{price}60=20240102-10:00:00|")?)
}

/// The body of what comes.
fn body(alloc: Global, comes: &Comes) -> Result<String, Fail> {
    match *comes {
        Comes::Order(id, side, price, quantity) => {
            let asked = asked(alloc, side, price, quantity)?;
            let fields = format!(in alloc; "11={id}|{asked}")?;
            body_of(alloc, "D", fields.as_str())
        }
        Comes::Replace(id, orig, side, price, quantity) => {
            let asked = asked(alloc, side, price, quantity)?;
            let fields = format!(in alloc; "11={id}|41={orig}|{asked}")?;
            body_of(alloc, "G", fields.as_str())
        }
        Comes::Cancel(id, orig) => {
            let fields = format!(in alloc; "11={id}|41={orig}|1=ACC|55=XYZ|54=2|")?;
            body_of(alloc, "F", fields.as_str())
        }
        Comes::Report(id, exec) => {
            let exec = char::from(exec);
            let fields = format!(in alloc; "11={id}|150={exec}|")?;
            body_of(alloc, "8", fields.as_str())
        }
        Comes::Trade(id, quantity) => {
            let fields = format!(in alloc; "11={id}|150=F|32={quantity}|31=10.0000|")?;
            body_of(alloc, "8", fields.as_str())
        }
        Comes::CancelReject(id) => {
            let fields = format!(in alloc; "11={id}|41=zz|")?;
            body_of(alloc, "9", fields.as_str())
        }
        Comes::Body(body) => Ok(String::from_str(alloc, body)?),
        Comes::Raw(raw) => Ok(String::from_str(alloc, raw)?),
    }
}

/// The bytes of what comes.
fn bytes_of(alloc: Global, comes: &Comes) -> Result<Vec<u8>, Fail> {
    let body = body(alloc, comes)?;
    match comes {
        Comes::Raw(_) => {
            let mut bytes = Vec::new(alloc);
            add(&mut bytes, body.as_bytes())?;
            Ok(bytes)
        }
        _ => Ok(frame_of(alloc, body.as_bytes())?),
    }
}

/// The bytes of all rows, or of those that are passed, with a line end behind each where they come in.
fn stream_of(alloc: Global, rows: &[Row], passed_alone: bool) -> Result<Vec<u8>, Fail> {
    let mut bytes = Vec::new(alloc);
    for (_, comes, passed, _) in rows {
        if passed_alone && !*passed {
            continue;
        }
        bytes.extend_from_slice(bytes_of(alloc, comes)?.as_slice())?;
        if !passed_alone {
            bytes.push(b'\n')?;
        }
    }
    Ok(bytes)
}

/// What a session reads, at most 100 bytes a call, of which these fail.
fn source_of(alloc: Global, rows: &[Row], failing: Vec<u64>) -> Result<MemSource, Fail> {
    Ok(MemSource::new(stream_of(alloc, rows, false)?, 100, failing))
}

/// An output, of whose calls these fail.
fn sink(alloc: Global, failing: Vec<u64>) -> MemSink {
    MemSink::new(alloc, 1_000, failing)
}

/// A session of a plain board that has ended.
type Ended = CrossDone<PlainHand<Cross>, MemSource, MemSink, MemSink>;

/// What was posted, passed and told to the client, against the rows.
fn compare(
    rt: &impl Abort,
    alloc: Global,
    name: &str,
    rows: &[Row],
    done: &Ended,
) -> Result<(), Fail> {
    let passed = stream_of(alloc, rows, true)?;
    assert_eq!(rt; done.end, End::Whole, "{name}: the end");
    assert_eq!(rt;
        done.pass.bytes(),
        passed.as_slice(),
        "{name}: what is passed"
    );
    let mut posts = Vec::new(alloc);
    for act in done.acts.as_slice() {
        if let Act::Post { value, .. } = act {
            posts.push(*value)?;
        }
    }
    let mut wanted: Vec<u64> = Vec::new(alloc);
    for (_, _, _, values) in rows {
        wanted.extend_from_slice(values)?;
    }
    assert_eq!(rt; posts.as_slice(), wanted.as_slice(), "{name}: the posts");
    Ok(())
}

/// What a session reads from and writes to.
#[derive(Drop)]
struct Ports {
    source: MemSource,
    pass: MemSink,
    client: MemSink,
}

/// Ports of which no call fails.
fn ports_of(alloc: Global, rows: &[Row]) -> Result<Ports, Fail> {
    Ok(Ports {
        source: source_of(alloc, rows, Vec::new(alloc))?,
        pass: sink(alloc, Vec::new(alloc)),
        client: sink(alloc, Vec::new(alloc)),
    })
}

/// Runs a session over these limits with a board of its own.
fn runs(rt: &impl Abort, alloc: Global, limits: &Limits, ports: Ports) -> Result<Ended, Fail> {
    assert!(rt; limits.quota() <= QUOTA, "a quota in range");
    let _few = limits.halt_tree();
    let trees = limits.symbols().len().max(1) as u32;
    let hand = PlainBoard::<Cross>::open(alloc, trees, 1, limits.quota())?.hand(0);
    let Ports {
        source,
        pass,
        client,
    } = ports;
    Ok(run_cross(alloc, 0, limits, hand, source, pass, client))
}

/// Runs a session over the limits of this file, and compares it with the rows.
fn runs_as(
    rt: &impl Abort,
    alloc: Global,
    name: &str,
    file: &[u8],
    rows: &[Row],
) -> Result<Ended, Fail> {
    match read_limits(alloc, file) {
        Ok(limits) => {
            let done = runs(rt, alloc, &limits, ports_of(alloc, rows)?)?;
            compare(rt, alloc, name, rows, &done)?;
            Ok(done)
        }
        Err(_) => Err("no limits")?,
    }
}

#[test]
fn own_orders_that_cross_are_refused(rt: HostRuntime) -> Result<(), Fail> {
    let alloc = rt.alloc();
    let done = runs_as(&rt, alloc, "a sell, then buys", XYZ, &SELL_THEN_BUYS)?;
    let refusal = frame_of(
        alloc,
        b"35=8|49=GATE|56=C1|34=1|52=20240102-10:00:00|37=NONE|11=a2|17=G1|150=8|39=8|103=0|1=ACC|\
            55=XYZ|54=1|38=10|151=0|14=0|6=0|58=CROSS|",
    )?;
    assert_eq!(rt; done.client.bytes(), refusal.as_slice(), "the refusal");
    let acts = done.acts.as_slice();
    let wanted = [
        Act::Post {
            tree: 0,
            index: 1,
            value: 434_287,
        },
        Act::Read {
            tree: 0,
            stamp: 1,
            place: 0,
            value: 434_287,
        },
        Act::Sent { frame: 0 },
        Act::Post {
            tree: 0,
            index: 2,
            value: 47_186_878_575,
        },
        Act::Read {
            tree: 0,
            stamp: 2,
            place: 0,
            value: 47_186_878_575,
        },
        Act::Post {
            tree: 0,
            index: 3,
            value: 434_287,
        },
        Act::Refused {
            frame: 1,
            code: 17,
            first: 0,
            second: 0,
        },
        Act::Post {
            tree: 0,
            index: 4,
            value: 47_134_449_775,
        },
        Act::Read {
            tree: 0,
            stamp: 4,
            place: 0,
            value: 47_134_449_775,
        },
        Act::Sent { frame: 2 },
        Act::Ended { end: End::Whole },
    ];
    assert_eq!(rt; acts, wanted.as_slice(), "the acts");
    Ok(())
}

#[test]
fn what_rests_is_asked_about(rt: HostRuntime) -> Result<(), Fail> {
    let alloc = rt.alloc();
    runs_as(&rt, alloc, "a sell that is canceled", XYZ, &SELL_CANCELED)?;
    runs_as(&rt, alloc, "trades in parts", XYZ, &TRADES_IN_PARTS)?;
    runs_as(&rt, alloc, "rejects of a term", XYZ, &REJECTS_OF_A_TERM)?;
    runs_as(&rt, alloc, "at the market", XYZ, &AT_THE_MARKET)?;
    runs_as(&rt, alloc, "outside the collars", XYZ, &OUTSIDE_THE_COLLARS)?;
    runs_as(&rt, alloc, "near orders", WIDE, &NEAR_ORDERS)?;
    Ok(())
}

#[test]
fn a_replace_that_crosses_is_refused(rt: HostRuntime) -> Result<(), Fail> {
    let alloc = rt.alloc();
    let done = runs_as(&rt, alloc, "replaces in a chain", XYZ, &REPLACES_IN_A_CHAIN)?;
    let mut refusals = frame_of(
        alloc,
        b"35=8|49=GATE|56=C1|34=1|52=20240102-10:00:00|37=NONE|11=b1|17=G1|150=8|39=8|103=0|1=ACC|\
            55=XYZ|54=1|38=10|151=0|14=0|6=0|58=CROSS|",
    )?;
    let second = frame_of(
        alloc,
        b"35=9|49=GATE|56=C1|34=2|52=20240102-10:00:00|37=NONE|11=a3|41=a2|39=8|434=2|102=2|58=CROSS|",
    )?;
    refusals.extend_from_slice(second.as_slice())?;
    assert_eq!(rt; done.client.bytes(), refusals.as_slice(), "the refusals");
    Ok(())
}

#[test]
fn an_order_with_too_few_posts_left_is_refused(rt: HostRuntime) -> Result<(), Fail> {
    let alloc = rt.alloc();
    let done = runs_as(&rt, alloc, "three posts", FEW, &THREE_POSTS)?;
    let refusal = frame_of(
        alloc,
        b"35=8|49=GATE|56=C1|34=1|52=20240102-10:00:00|37=NONE|11=a3|17=G1|150=8|39=8|103=0|1=ACC|\
            55=XYZ|54=1|38=10|151=0|14=0|6=0|58=QUOTA|",
    )?;
    assert_eq!(rt; done.client.bytes(), refusal.as_slice(), "the refusal");
    Ok(())
}

#[test]
fn all_else_is_passed(rt: HostRuntime) -> Result<(), Fail> {
    let alloc = rt.alloc();
    let done = runs_as(&rt, alloc, "all else", XYZ, &PASSED_ON)?;
    assert!(rt; done.client.bytes().is_empty(), "nothing to the client");
    let done = runs_as(&rt, alloc, "without a symbol", NONE, &PASSED_ON)?;
    assert!(rt; done.client.bytes().is_empty(), "nothing to the client");
    Ok(())
}

/// Two sessions in turn over one board, each compared with its rows.
fn in_turn(rt: &impl Abort, alloc: Global, first: &[Row], second: &[Row]) -> Result<(), Fail> {
    let Ok(limits) = read_limits(alloc, XYZ) else {
        return Err("no limits")?;
    };
    assert!(rt; limits.quota() <= QUOTA, "a quota in range");
    let _few = limits.halt_tree();
    let trees = limits.symbols().len().max(1) as u32;
    let board = PlainBoard::<Cross>::open(alloc, trees, 2, limits.quota())?;
    let ports = ports_of(alloc, first)?;
    let done = run_cross(
        alloc,
        0,
        &limits,
        board.hand(0),
        ports.source,
        ports.pass,
        ports.client,
    );
    compare(rt, alloc, "the first session", first, &done)?;
    let ports = ports_of(alloc, second)?;
    let hand = done.hand.give_back().hand(1);
    let done = run_cross(
        alloc,
        1,
        &limits,
        hand,
        ports.source,
        ports.pass,
        ports.client,
    );
    compare(rt, alloc, "the second session", second, &done)
}

#[test]
fn of_two_sessions_orders_that_cross_one_is_passed(rt: HostRuntime) -> Result<(), Fail> {
    in_turn(&rt, rt.alloc(), &SELLS, &BUYS_AGAINST_IT)?;
    in_turn(&rt, rt.alloc(), &BUYS, &SELLS_AGAINST_IT)
}

/// What a session of a sell and a buy at its price does where the ports fail.
fn ends_by(
    rt: &impl Abort,
    alloc: Global,
    name: &str,
    ports: Ports,
    end: End,
    acts: usize,
) -> Result<(), Fail> {
    let Ok(limits) = read_limits(alloc, XYZ) else {
        return Err("no limits")?;
    };
    let done = runs(rt, alloc, &limits, ports)?;
    assert_eq!(rt; done.end, end, "{name}: the end");
    assert_eq!(rt; done.acts.len(), acts, "{name}: as many acts");
    Ok(())
}

#[test]
fn sessions_end_by_their_ports(rt: HostRuntime) -> Result<(), Fail> {
    let alloc = rt.alloc();
    let mut ports = ports_of(alloc, &SELL_THEN_BUYS)?;
    ports.source = source_of(alloc, &SELL_THEN_BUYS, [0].to_vec(alloc)?)?;
    ends_by(&rt, alloc, "the first read fails", ports, End::ReadFault, 1)?;
    let mut ports = ports_of(alloc, &SELL_THEN_BUYS)?;
    ports.pass = sink(alloc, [0].to_vec(alloc)?);
    ends_by(
        &rt,
        alloc,
        "the sell can't be passed",
        ports,
        End::WriteFault,
        4,
    )?;
    let mut ports = ports_of(alloc, &SELL_THEN_BUYS)?;
    ports.client = sink(alloc, [0].to_vec(alloc)?);
    ends_by(
        &rt,
        alloc,
        "the buy can't be refused",
        ports,
        End::WriteFault,
        8,
    )
}
