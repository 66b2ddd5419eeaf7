//! What no clause says: that officers run over plain boards with ample memory, with acts worked by hand,
//! and that a session behind them reads what they posted.
ghost use Rattle.std.specs.Prelude.{◌<◌, length};

use crate::{DeskHands, Min, OfficerDone, effective, read_officer, run_officer};
use fold_law::{Max, QUOTA, Sum};
use limit_table::{Limits, read_limits};
use risk_board::{Hand, PlainBoard, PlainHand};
use risk_journal::{Act, End};
use std::alloc::Global;
use std::process::Abort;
use std::test::*;

/// Accounts A and B have the trees 1 and 2, the symbols X and Y the trees 3 and 4, and the halt tree is 5.
/// Behind it are the limit trees, 6 to 10.
const LIMITS: &[u8] =
    b"firm,,1000,,,\naccount,A,0,,,\naccount,B,800,,,\nsymbol,X,0,1,12,100000\nsymbol,Y,150,1,12,100000\n";

/// An officer's file, its posts by tree, index and value, and what a session behind it reads as the
/// limit of the firm, of B and of Y where the file's is 1000, and as the level of the halt.
struct Row {
    name: &'static str,
    text: &'static str,
    posts: &'static [(u32, u32, u64)],
    limits: [u64; 3],
    level: u64,
}

const ROWS: [Row; 5] = [
    Row {
        name: "three limit trees and the halt tree",
        text: "firm,,500\naccount,B,none\nhalt,,1\nsymbol,Y,7\nfirm,,600\nhalt,,0\nhalt,,1\n",
        posts: &[
            (6, 1, 500),
            (8, 1, 274_877_906_943),
            (5, 1, 1),
            (10, 1, 7),
            (6, 2, 600),
            (5, 2, 0),
            (5, 3, 1),
        ],
        limits: [600, 1000, 7],
        level: 1,
    },
    Row {
        name: "no row",
        text: "",
        posts: &[],
        limits: [1000, 1000, 1000],
        level: 0,
    },
    Row {
        name: "a limit above the file's",
        text: "firm,,2000\n",
        posts: &[(6, 1, 2000)],
        limits: [1000, 1000, 1000],
        level: 0,
    },
    Row {
        name: "a limit below the file's",
        text: "firm,,500\n",
        posts: &[(6, 1, 500)],
        limits: [500, 1000, 1000],
        level: 0,
    },
    Row {
        name: "a halt that is lifted",
        text: "halt,,1\nhalt,,0\n",
        posts: &[(5, 1, 1), (5, 2, 0)],
        limits: [1000, 1000, 1000],
        level: 0,
    },
];

/// The posts and the end.
fn compare(rt: &impl Abort, row: &Row, acts: &[Act], end: End) {
    assert_eq!(rt; end, End::Whole, "{}", row.name);
    assert_eq!(rt; acts.len(), row.posts.len() + 1, "{}", row.name);
    for (act, (tree, index, value)) in acts.iter().zip(row.posts) {
        let post = Act::Post {
            tree: *tree,
            index: *index,
            value: *value,
        };
        assert_eq!(rt; *act, post, "{}", row.name);
    }
    let last = acts.last().copied();
    assert_eq!(rt; last, Some(Act::Ended { end: End::Whole }), "{}", row.name);
}

/// The limits that count for the firm, for B and for Y where the file's are 1000.
fn limits_that_count(mut desk: PlainHand<Min>) -> Result<[u64; 3], Fail>
    requires { 4 < length desk.board.lines }
{
    desk.reserve(3)?;
    let firm = effective(&mut desk, 0, 1000).limit;
    let account = effective(&mut desk, 2, 1000).limit;
    let symbol = effective(&mut desk, 4, 1000).limit;
    Ok([firm, account, symbol])
}

/// The level of the halt.
fn level(mut halt: PlainHand<Max>) -> Result<u64, Fail>
    requires { 0 < length halt.board.lines }
{
    halt.reserve(1)?;
    Ok(halt.read(0).value)
}

/// An officer of this file as session 0 of two, over plain boards, and then what session 1 reads.
fn compare_row(rt: &impl Abort, alloc: Global, limits: &Limits, row: &Row) -> Result<(), Fail> {
    let Ok(rows) = read_officer(alloc, limits, row.text.as_bytes()) else {
        return Err("a fault")?;
    };
    assert!(rt; limits.quota() <= QUOTA, "a quota in range");
    let trees = limits.halt_tree();
    assert_eq!(rt; trees, 5, "the firm's, two accounts' and two symbols'");
    let hands = DeskHands {
        sum: PlainBoard::<Sum>::open(alloc, trees, 2, limits.quota())?.hand(0),
        halt: PlainBoard::<Max>::open(alloc, 1, 2, 50_000)?.hand(0),
        desk: PlainBoard::<Min>::open(alloc, trees, 2, 50_000)?.hand(0),
    };
    let OfficerDone { hands, acts, end } = run_officer(alloc, limits, &rows, hands);
    compare(rt, row, &acts, end);
    let DeskHands {
        sum: _sum,
        halt,
        desk,
    } = hands;
    let limits = limits_that_count(desk.give_back().hand(1))?;
    assert_eq!(rt; limits, row.limits, "{}", row.name);
    assert_eq!(rt; level(halt.give_back().hand(1))?, row.level, "{}", row.name);
    Ok(())
}

#[test]
fn officers_post_their_rows(rt: HostRuntime) -> Result<(), Fail> {
    let Ok(limits) = read_limits(rt.alloc(), LIMITS) else {
        return Err("no limits")?;
    };
    for row in &ROWS {
        compare_row(&rt, rt.alloc(), &limits, row)?;
    }
    Ok(())
}
