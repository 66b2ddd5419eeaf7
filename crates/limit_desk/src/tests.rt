//! What no clause says: that officer files are read with ample memory, with faults and posts worked by
//! hand, and that a limit which one session posts is read by another, over a plain board.
use crate::{Min, OPEN, OfficerRow, OfficerTree, effective, read_officer};
use limit_table::{LimitFault, Limits, read_limits};
use risk_board::{Hand, PlainBoard};
use std::alloc::Global;
use std::process::Abort;
use std::test::*;

/// Accounts A and B have the trees 1 and 2, the symbols X and Y the trees 3 and 4.
const LIMITS: &[u8] =
    b"firm,,1100,,,\naccount,A,0,,,\naccount,B,800,,,\nsymbol,X,0,1,12,100000\nsymbol,Y,150,1,12,100000\n";

/// Texts, and their first fault.
const FAULTS: [(&str, LimitFault); 21] = [
    ("firm,500\n", LimitFault::RowShape(1)),
    ("firm,,500,\n", LimitFault::RowShape(1)),
    ("trip,,5\n", LimitFault::Kind(1)),
    ("Firm,,5\n", LimitFault::Kind(1)),
    ("trip,A,abc\n", LimitFault::Kind(1)),
    ("firm,A,abc\n", LimitFault::RowShape(1)),
    ("halt,A,2\n", LimitFault::RowShape(1)),
    ("firm,,abc\n", LimitFault::Number(1)),
    ("firm,,\n", LimitFault::Number(1)),
    ("firm,,-1\n", LimitFault::Number(1)),
    ("firm,,0000000000001\n", LimitFault::Number(1)),
    ("firm,,274877906943\n", LimitFault::Number(1)),
    ("firm,,None\n", LimitFault::Number(1)),
    ("halt,,2\n", LimitFault::Number(1)),
    ("halt,,none\n", LimitFault::Number(1)),
    ("account,C,abc\n", LimitFault::Number(1)),
    ("account,C,5\n", LimitFault::Name(1)),
    ("account,,5\n", LimitFault::Name(1)),
    ("account,X,5\n", LimitFault::Name(1)),
    ("symbol,A,5\n", LimitFault::Name(1)),
    (
        "firm,,5\n\nhalt,,1\nsymbol,Z,5\nfirm,,abc\n",
        LimitFault::Name(3),
    ),
];

/// Rows, and the post of each.
const POSTS: [(&str, OfficerTree, u64); 11] = [
    ("firm,,0\n", OfficerTree::Limit(0), 0),
    (
        "firm,,274877906942\n",
        OfficerTree::Limit(0),
        274_877_906_942,
    ),
    ("firm,,000000000500\n", OfficerTree::Limit(0), 500),
    ("firm,,none\n", OfficerTree::Limit(0), 274_877_906_943),
    ("account,A,7\n", OfficerTree::Limit(1), 7),
    ("account,B,none\n", OfficerTree::Limit(2), 274_877_906_943),
    ("symbol,X,7\r\n", OfficerTree::Limit(3), 7),
    ("symbol,\"Y\",8", OfficerTree::Limit(4), 8),
    ("halt,,0\n", OfficerTree::Halt, 0),
    ("halt,,1\n", OfficerTree::Halt, 1),
    ("halt,,01\n", OfficerTree::Halt, 1),
];

/// The limits of these accounts and symbols.
fn limits(alloc: Global) -> Result<Limits, Fail> {
    match read_limits(alloc, LIMITS) {
        Ok(limits) => Ok(limits),
        Err(_) => Err("no limits")?,
    }
}

/// The posts of a text.
fn posts(alloc: Global, text: &str) -> Result<Vec<OfficerRow>, Fail> {
    let limits = limits(alloc)?;
    match read_officer(alloc, &limits, text.as_bytes()) {
        Ok(rows) => Ok(rows),
        Err(_) => Err("a fault")?,
    }
}

fn has_fault(rt: &impl Abort, alloc: Global, text: &str, fault: LimitFault) -> Result<(), Fail> {
    let limits = limits(alloc)?;
    match read_officer(alloc, &limits, text.as_bytes()) {
        Ok(_) => Err("no fault")?,
        Err(why) => assert_eq!(rt; why, fault, "{text}"),
    }
    Ok(())
}

#[test]
fn first_faults(rt: HostRuntime) -> Result<(), Fail> {
    for (text, fault) in FAULTS {
        has_fault(&rt, rt.alloc(), text, fault)?;
    }
    Ok(())
}

#[test]
fn rows_and_their_posts(rt: HostRuntime) -> Result<(), Fail> {
    for (text, tree, value) in POSTS {
        let rows = posts(rt.alloc(), text)?;
        assert_eq!(rt; rows.len(), 1, "{text}");
        for row in &rows {
            assert_eq!(rt; row.tree, tree, "{text}");
            assert_eq!(rt; row.value, value, "{text}");
        }
    }
    Ok(())
}

#[test]
fn posts_stand_in_the_order_of_the_rows(rt: HostRuntime) -> Result<(), Fail> {
    let rows = posts(rt.alloc(), "firm,,500\nhalt,,1\nfirm,,none\n")?;
    let values = [500, 1, OPEN];
    assert_eq!(rt; rows.len(), values.len(), "as many");
    for (row, value) in rows.iter().zip(&values) {
        assert_eq!(rt; row.value, *value, "in order");
    }
    let none = posts(rt.alloc(), "")?;
    assert!(rt; none.is_empty(), "no row");
    Ok(())
}

#[test]
fn a_posted_limit_is_read(rt: HostRuntime) -> Result<(), Fail> {
    let board = PlainBoard::<Min>::open(rt.alloc(), 1, 3, 2)?;
    let mut desk = board.hand(1);
    desk.reserve(1)?;
    assert_eq!(rt;
        effective(&mut desk, 0, 1000).limit,
        1000,
        "nothing is posted"
    );
    let mut officer = desk.give_back().hand(0);
    officer.reserve(1)?;
    officer.post(0, 500);
    let mut desk = officer.give_back().hand(2);
    desk.reserve(1)?;
    assert_eq!(rt; effective(&mut desk, 0, 1000).limit, 500, "the post counts");
    Ok(())
}
