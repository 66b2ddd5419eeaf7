//! What no clause says: that the calls are made over plain boards with ample memory, and that their
//! answers and acts are those of values worked by hand, over five trees of sums and a halt tree.
ghost use Rattle.std.specs.Prelude.{◌≡◌, ◌<◌, ◌≤◌, length, IfOk};
ghost use Rattle.admit_core.specs.declared.ask.TheConstants.{MOST_CALLS};
ghost use Rattle.admit_core.specs.Hands.{IsOver};

use crate::{
    Ask, Hands, MOST_CALLS, OrderRows, Outcome, Verdict, admit, ask_all, is_above_last, lower_all,
    trip,
};
use fold_law::{Fold, LEAF, Max, Memory, QUOTA, Sum};
use limit_table::{Limits, read_limits};
use risk_board::{Hand, PlainBoard, Seen};
use risk_journal::{Act, End};
use std::alloc::Global;
use std::process::Abort;
use std::test::*;

/// Accounts A and B have the trees 1 and 2, symbols X and Y the trees 3 and 4, and the halt tree is 5.
/// With what session 1 has posted, 600, 500 and 50 are at the limits of the firm, of B and of Y.
const NINE_POSTS: &[u8] =
    b"firm,,1100,,,\naccount,A,0,,,\naccount,B,800,,,\nsymbol,X,0,1,12,100000\nsymbol,Y,150,1,12,100000\nquota,,9,,,\n";

/// The same with three posts of a session in each tree.
const THREE_POSTS: &[u8] =
    b"firm,,1100,,,\naccount,A,0,,,\naccount,B,800,,,\nsymbol,X,0,1,12,100000\nsymbol,Y,150,1,12,100000\nquota,,3,,,\n";

/// The account B and the symbol Y.
const ROWS: OrderRows = OrderRows {
    account: 1,
    symbol: 1,
};

/// What session 1 has posted in the trees of sums.
const OTHERS: [u64; 5] = [500, 9, 300, 7, 100];

/// What is called, and its answer.
#[derive(Clone, Copy)]
enum Called {
    /// With these limits in place of the file's.
    Admit([u64; 3], Outcome),
    Ask(Verdict),
    LowerAll(bool),
    IsAboveLast(bool),
    /// Before any other call.
    Trip,
}

/// An act that is told: its tree, its index or stamp, and its value. The place of a read is told as 0.
#[derive(Clone, Copy, Debug, PartialEq, Eq)]
enum Short {
    Post(u32, u32, u64),
    Read(u32, u32, u64),
}

/// Values that are handed in after those of the rows before, the acts that are told of them, and what
/// is kept as last posted then.
#[derive(Clone, Copy)]
struct Row {
    name: &'static str,
    called: Called,
    values: [u64; 3],
    acts: &'static [Short],
    lasts: [u64; 5],
}

/// The first order, which is sent.
const AT_THE_LIMITS: Row = Row {
    name: "each root at its limit",
    called: Called::Ask(Verdict::Sent),
    values: [600, 500, 50],
    acts: &[
        Short::Post(0, 1, 600),
        Short::Post(2, 1, 500),
        Short::Post(4, 1, 50),
        Short::Read(5, 0, 0),
        Short::Read(0, 2, 1100),
        Short::Read(2, 2, 800),
        Short::Read(4, 2, 150),
    ],
    lasts: [600, 0, 500, 0, 50],
};

const ASKED: [Row; 6] = [
    AT_THE_LIMITS,
    Row {
        name: "the firm's root above, and the symbol's",
        called: Called::Ask(Verdict::Firm),
        values: [601, 500, 51],
        acts: &[
            Short::Post(0, 2, 601),
            Short::Post(2, 2, 500),
            Short::Post(4, 2, 51),
            Short::Read(5, 0, 0),
            Short::Read(0, 3, 1101),
            Short::Read(2, 3, 800),
            Short::Read(4, 3, 151),
            Short::Post(0, 3, 600),
            Short::Post(2, 3, 500),
            Short::Post(4, 3, 50),
        ],
        ..AT_THE_LIMITS
    },
    Row {
        name: "the account's root above, and the symbol's",
        called: Called::Ask(Verdict::Account),
        values: [600, 501, 51],
        acts: &[
            Short::Post(0, 4, 600),
            Short::Post(2, 4, 501),
            Short::Post(4, 4, 51),
            Short::Read(5, 0, 0),
            Short::Read(0, 5, 1100),
            Short::Read(2, 5, 801),
            Short::Read(4, 5, 151),
            Short::Post(0, 5, 600),
            Short::Post(2, 5, 500),
            Short::Post(4, 5, 50),
        ],
        ..AT_THE_LIMITS
    },
    Row {
        name: "the symbol's root above",
        called: Called::Ask(Verdict::Symbol),
        values: [1, 2, 51],
        acts: &[
            Short::Post(0, 6, 1),
            Short::Post(2, 6, 2),
            Short::Post(4, 6, 51),
            Short::Read(5, 0, 0),
            Short::Read(0, 7, 501),
            Short::Read(2, 7, 302),
            Short::Read(4, 7, 151),
            Short::Post(0, 7, 600),
            Short::Post(2, 7, 500),
            Short::Post(4, 7, 50),
        ],
        ..AT_THE_LIMITS
    },
    Row {
        name: "two posts left",
        called: Called::Ask(Verdict::Sent),
        values: [1, 2, 3],
        acts: &[
            Short::Post(0, 8, 1),
            Short::Post(2, 8, 2),
            Short::Post(4, 8, 3),
            Short::Read(5, 0, 0),
            Short::Read(0, 9, 501),
            Short::Read(2, 9, 302),
            Short::Read(4, 9, 103),
        ],
        lasts: [1, 0, 2, 0, 3],
    },
    Row {
        name: "one post left",
        called: Called::Ask(Verdict::Quota),
        values: [1, 2, 4],
        acts: &[],
        lasts: [1, 0, 2, 0, 3],
    },
];

const ADMITTED: [Row; 2] = [
    Row {
        name: "all three roots above",
        called: Called::Admit(
            [1099, 799, 149],
            Outcome {
                verdict: Verdict::Firm,
                halt: Seen { stamp: 0, value: 0 },
                roots: [
                    Seen {
                        stamp: 2,
                        value: 1100,
                    },
                    Seen {
                        stamp: 2,
                        value: 800,
                    },
                    Seen {
                        stamp: 2,
                        value: 150,
                    },
                ],
            },
        ),
        values: [600, 500, 50],
        acts: &[
            Short::Post(0, 1, 600),
            Short::Post(2, 1, 500),
            Short::Post(4, 1, 50),
            Short::Read(5, 0, 0),
            Short::Read(0, 2, 1100),
            Short::Read(2, 2, 800),
            Short::Read(4, 2, 150),
            Short::Post(0, 2, 0),
            Short::Post(2, 2, 0),
            Short::Post(4, 2, 0),
        ],
        lasts: [0; 5],
    },
    Row {
        name: "one post left for an admission",
        called: Called::Admit(
            [1100, 800, 150],
            Outcome {
                verdict: Verdict::Quota,
                halt: Seen { stamp: 0, value: 0 },
                roots: [Seen { stamp: 0, value: 0 }; 3],
            },
        ),
        values: [600, 500, 50],
        acts: &[],
        lasts: [0; 5],
    },
];

const HALTED: [Row; 1] = [Row {
    name: "session 1 has halted",
    called: Called::Ask(Verdict::Halt),
    values: [601, 500, 50],
    acts: &[
        Short::Post(0, 1, 601),
        Short::Post(2, 1, 500),
        Short::Post(4, 1, 50),
        Short::Read(5, 1, 1),
        Short::Read(0, 2, 1101),
        Short::Read(2, 2, 800),
        Short::Read(4, 2, 150),
        Short::Post(0, 2, 0),
        Short::Post(2, 2, 0),
        Short::Post(4, 2, 0),
    ],
    lasts: [0; 5],
}];

const TRIPPED: [Row; 2] = [
    Row {
        name: "the session trips the halt tree",
        called: Called::Trip,
        values: [0; 3],
        acts: &[Short::Post(5, 1, 1)],
        lasts: [0; 5],
    },
    Row {
        name: "the session has halted itself",
        called: Called::Ask(Verdict::Halt),
        values: [1, 2, 3],
        acts: &[
            Short::Post(0, 1, 1),
            Short::Post(2, 1, 2),
            Short::Post(4, 1, 3),
            Short::Read(5, 1, 1),
            Short::Read(0, 2, 501),
            Short::Read(2, 2, 302),
            Short::Read(4, 2, 103),
            Short::Post(0, 2, 0),
            Short::Post(2, 2, 0),
            Short::Post(4, 2, 0),
        ],
        lasts: [0; 5],
    },
];

const LOWERED: [Row; 7] = [
    AT_THE_LIMITS,
    Row {
        name: "nothing falls",
        called: Called::LowerAll(true),
        values: [600, 500, 50],
        acts: &[],
        lasts: [600, 0, 500, 0, 50],
    },
    Row {
        name: "all fall",
        called: Called::LowerAll(true),
        values: [400, 400, 40],
        acts: &[
            Short::Post(0, 2, 400),
            Short::Post(2, 2, 400),
            Short::Post(4, 2, 40),
        ],
        lasts: [400, 0, 400, 0, 40],
    },
    Row {
        name: "the account's falls",
        called: Called::LowerAll(true),
        values: [400, 300, 40],
        acts: &[Short::Post(2, 3, 300)],
        lasts: [400, 0, 300, 0, 40],
    },
    Row {
        name: "no post left for the account's",
        called: Called::LowerAll(false),
        values: [200, 200, 20],
        acts: &[Short::Post(0, 3, 200), Short::Post(4, 3, 20)],
        lasts: [200, 0, 300, 0, 20],
    },
    Row {
        name: "no post left, and none needed",
        called: Called::LowerAll(true),
        values: [200, 300, 20],
        acts: &[],
        lasts: [200, 0, 300, 0, 20],
    },
    Row {
        name: "no post left for any",
        called: Called::LowerAll(false),
        values: [0, 0, 0],
        acts: &[],
        lasts: [200, 0, 300, 0, 20],
    },
];

/// Whether one of these values is above what the first order has posted.
const fn compared(name: &'static str, values: [u64; 3], is_above: bool) -> Row {
    Row {
        name,
        called: Called::IsAboveLast(is_above),
        values,
        acts: &[],
        ..AT_THE_LIMITS
    }
}

/// An act in short, if it is a post or a read whose place is told as 0.
fn short_of(act: &Act) -> Option<Short> {
    match *act {
        Act::Post { tree, index, value } => Some(Short::Post(tree, index, value)),
        Act::Read {
            tree,
            stamp,
            place: 0,
            value,
        } => Some(Short::Read(tree, stamp, value)),
        _ => None,
    }
}

/// Compares the acts of a row.
fn compares(rt: &impl Abort, row: &Row, acts: &[Act]) {
    let name = row.name;
    assert_eq!(rt; acts.len(), row.acts.len(), "{name}: acts");
    for (act, want) in acts.iter().zip(row.acts) {
        assert_eq!(rt; short_of(act), Some(*want), "{name}");
    }
}

/// Makes the row's call, and compares its answer.
fn answers<H: Hand, M: Hand>(rt: &impl Abort, hands: &mut Hands<H, M>, limits: &Limits, row: &Row)
    requires over { IsOver limits.now hands.old }
    requires account { 1 < length limits.now.accounts }
    requires symbol { 1 < length limits.now.symbols }
    requires room { MOST_CALLS ≤ hands.old.room }
    ensures over { IsOver limits.now hands.new }
{
    let Row { name, values, .. } = row;
    let is_above = is_above_last(hands, limits, &ROWS, values);
    match row.called {
        Called::Admit(most, want) => {
            assert!(rt;
                values[0] <= LEAF && values[1] <= LEAF && values[2] <= LEAF,
                "{name}: values in range"
            );
            let ask = Ask {
                trees: [0, 2, 4],
                old: [hands.last(0), hands.last(2), hands.last(4)],
                new: *values,
                limits: most,
            };
            assert_eq!(rt; admit(hands, &ask), want, "{name}");
        }
        Called::Ask(verdict) => {
            assert!(rt;
                values[0] <= LEAF && values[1] <= LEAF && values[2] <= LEAF,
                "{name}: values in range"
            );
            assert_eq!(rt; ask_all(hands, limits, &ROWS, values), verdict, "{name}");
        }
        Called::LowerAll(done) => {
            assert!(rt; !is_above, "{name}: none above");
            assert_eq!(rt; lower_all(hands, limits, &ROWS, values), done, "{name}");
        }
        Called::IsAboveLast(want) => assert_eq!(rt; is_above, want, "{name}"),
        Called::Trip => {
            assert!(rt; hands.acts().is_empty(), "{name}: the first call");
            trip(hands);
        }
    }
}

/// Makes the row's call, and compares.
fn calls<H: Hand, M: Hand>(
    rt: &impl Abort,
    hands: &mut Hands<H, M>,
    limits: &Limits,
    row: &Row,
) -> Result<(), Fail>
    requires over { IsOver limits.now hands.old }
    requires account { 1 < length limits.now.accounts }
    requires symbol { 1 < length limits.now.symbols }
    ensures over { IsOver limits.now hands.new }
{
    let from = hands.acts().len();
    hands.reserve(MOST_CALLS)?;
    answers(rt, hands, limits, row);
    assert!(rt; from <= hands.acts().len(), "no act is lost");
    compares(rt, row, &hands.acts()[from..]);
    for (tree, last) in row.lasts.iter().enumerate() {
        assert!(rt; (tree as u32) < limits.halt_tree(), "a tree of sums");
        assert_eq!(rt; hands.last(tree as u32), *last, "{}: last posted", row.name);
    }
    Ok(())
}

/// Makes the rows' calls with hands that have made none.
fn calls_all<H: Hand, M: Hand>(
    rt: &impl Abort,
    mut hands: Hands<H, M>,
    limits: &Limits,
    rows: &[Row],
) -> Result<(), Fail>
    requires over { IsOver limits.now hands }
    requires account { 1 < length limits.now.accounts }
    requires symbol { 1 < length limits.now.symbols }
{
    for row in rows {
        calls(rt, &mut hands, limits, row)?;
    }
    let count = hands.acts().len();
    let ended = hands.end(End::Whole);
    assert!(rt; count < ended.acts.len(), "the end is told");
    assert_eq!(rt; ended.acts[count], Act::Ended { end: End::Whole });
    Ok(())
}

/// Has session 1 post these values in the first trees, and gives back the board.
fn post_other<F: Fold>(
    rt: &impl Abort,
    board: PlainBoard<F>,
    values: &[u64],
) -> Result<PlainBoard<F>, Fail>
    requires trees { length values.now ≤ length board.lines }
    requires sessions { length board.calls ≡ 2 }
    ensures trees { IfOk result (λ after. length after.lines ≡ length board.lines) }
    ensures sessions { IfOk result (λ after. length after.calls ≡ 2) }
    ensures quota { IfOk result (λ after. after.quota ≡ board.quota) }
{
    assert!(rt; board.calls(1).is_empty(), "session 1 has made no call");
    let mut hand = board.hand(1);
    for (tree, value) in values.iter().enumerate() {
        hand.reserve(1)?;
        assert!(rt;
            tree < 5 && hand.left(tree as u32) > 0 && *value <= F::CAP,
            "a post is left, of a value in range"
        );
        hand.post(tree as u32, *value);
    }
    Ok(hand.give_back())
}

/// Makes the rows' calls over plain boards on which session 1 has posted.
fn runs(
    rt: &impl Abort,
    alloc: Global,
    limits: &Limits,
    halts: &[u64],
    rows: &[Row],
) -> Result<(), Fail> {
    assert!(rt; limits.quota() <= QUOTA && halts.len() <= 1, "in range");
    assert!(rt;
        limits.accounts().len() == 2 && limits.symbols().len() == 2,
        "two accounts and two symbols"
    );
    let sums = PlainBoard::<Sum>::open(alloc, limits.halt_tree(), 2, limits.quota())?;
    let sums = post_other(rt, sums, &OTHERS)?;
    let halt = post_other(rt, PlainBoard::<Max>::open(alloc, 1, 2, 1)?, halts)?;
    assert!(rt;
        sums.calls(0).is_empty() && halt.calls(0).is_empty(),
        "session 0 has made no call"
    );
    match Hands::open(alloc, limits, sums.hand(0), halt.hand(0)) {
        Ok(hands) => calls_all(rt, hands, limits, rows),
        Err(_) => Err(Fail::from(Memory)),
    }
}

/// Reads the limits, and makes the rows' calls.
fn runs_by(
    rt: &impl Abort,
    alloc: Global,
    text: &[u8],
    halts: &[u64],
    rows: &[Row],
) -> Result<(), Fail> {
    let limits = read_limits(alloc, text);
    assert!(rt; limits.is_ok(), "a limit file");
    match limits {
        Ok(limits) => runs(rt, alloc, &limits, halts, rows),
        Err(_) => Ok(()),
    }
}

#[test]
fn orders_are_asked_for_within_the_quota(rt: HostRuntime) -> Result<(), Fail> {
    runs_by(&rt, rt.alloc(), NINE_POSTS, &[], &ASKED)?;
    runs_by(&rt, rt.alloc(), NINE_POSTS, &[1], &HALTED)?;
    runs_by(&rt, rt.alloc(), NINE_POSTS, &[], &TRIPPED)
}

#[test]
fn an_admission_tells_the_roots_that_it_read(rt: HostRuntime) -> Result<(), Fail> {
    runs_by(&rt, rt.alloc(), THREE_POSTS, &[], &ADMITTED)
}

#[test]
fn what_falls_is_posted_where_a_post_is_left(rt: HostRuntime) -> Result<(), Fail> {
    runs_by(&rt, rt.alloc(), THREE_POSTS, &[], &LOWERED)
}

#[test]
fn values_are_compared_with_the_last_posts(rt: HostRuntime) -> Result<(), Fail> {
    let rows = [
        AT_THE_LIMITS,
        compared("none above", [600, 500, 50], false),
        compared("the firm's above", [601, 0, 0], true),
        compared("the account's above", [600, 501, 50], true),
        compared("the symbol's above", [600, 500, 51], true),
        compared("all below", [50, 50, 0], false),
    ];
    runs_by(&rt, rt.alloc(), THREE_POSTS, &[], &rows)
}
