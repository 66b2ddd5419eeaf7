//! What no clause says: that a board and its hands run at both folds with ample memory, over two trees
//! and two sessions in turn, and that many posts with reads take little time.
ghost use Rattle.std.specs.Prelude.{◌≡◌, ◌<◌, length, IfOk};
ghost use Rattle.risk_board.specs.Hands.{KeepsOrigin};

use fold_law::{Fold, Max, SESSIONS, Sum};
use risk_board::{Hand, Line, PlainBoard, Seen};
use std::process::Abort;
use std::test::*;

/// A name, a tree, the value of a post there, and what a read right after it sees.
type Row = (&'static str, u32, u64, Seen);

fn seen(stamp: u32, value: u64) -> Seen {
    Seen { stamp, value }
}

fn line(session: u32, index: u32, value: u64) -> Line {
    Line {
        session,
        index,
        value,
    }
}

/// Makes the rows' calls as a session that has made none, and gives back the board.
fn plays<F: Fold>(
    rt: &impl Abort,
    board: PlainBoard<F>,
    session: u32,
    rows: &[Row],
) -> Result<PlainBoard<F>, Fail>
    requires trees { length board.lines ≡ 2 }
    requires session { session < length board.calls }
    ensures trees { IfOk result (λ after. length after.lines ≡ 2) }
    ensures sessions { IfOk result (λ after. length after.calls ≡ length board.calls) }
{
    assert!(rt;
        board.calls(session).is_empty(),
        "the session has made no call"
    );
    let mut hand = board.hand(session);
    for (name, tree, value, wanted) in rows {
        assert!(rt;
            *tree < 2 && *value <= F::CAP,
            "{name}: a tree and a value in range"
        );
        hand.reserve(2)?;
        assert!(rt; hand.left(*tree) > 0, "{name}: a post is left");
        hand.post(*tree, *value);
        assert_eq!(rt; hand.read(*tree), *wanted, "{name}");
    }
    Ok(hand.give_back())
}

#[test]
fn a_board_runs_under_the_sum(rt: HostRuntime) -> Result<(), Fail> {
    let first = [
        ("a first post", 0, 600, seen(1, 600)),
        (
            "the second takes the first one's place",
            0,
            200,
            seen(2, 200),
        ),
        ("the trees are apart", 1, 50, seen(1, 50)),
    ];
    let third = [
        ("the values of both", 0, 1000, seen(3, 1200)),
        ("the values of both in the other tree", 1, 7, seen(2, 57)),
    ];
    let board = PlainBoard::<Sum>::open(rt.alloc(), 2, 3, 500)?;
    let board = plays(&rt, board, 0, &first)?;
    let board = plays(&rt, board, 2, &third)?;
    let lines = [line(0, 1, 600), line(0, 2, 200), line(2, 1, 1000)];
    assert_eq!(rt; board.lines(0), lines.as_slice());
    assert_eq!(rt; board.calls(2).len(), 4);
    Ok(())
}

#[test]
fn a_board_runs_under_the_largest(rt: HostRuntime) -> Result<(), Fail> {
    let first = [
        ("a first post", 0, 600, seen(1, 600)),
        ("a lower one takes its place", 0, 200, seen(2, 200)),
    ];
    let third = [
        ("the other's is larger", 0, 100, seen(3, 200)),
        ("its own is larger", 0, 300, seen(4, 300)),
    ];
    let board = PlainBoard::<Max>::open(rt.alloc(), 2, 3, 500)?;
    let board = plays(&rt, board, 0, &first)?;
    let board = plays(&rt, board, 2, &third)?;
    assert_eq!(rt; board.lines(0).len(), 4);
    Ok(())
}

/// Makes so many posts of 1 in the first tree, with a read after each.
fn posts_and_reads<H: Hand>(rt: &impl Abort, hand: &mut H, times: u32)
    requires trees { 0 < (H.meaning hand.old).trees }
    requires cap { 0 < (H.meaning hand.old).cap }
    ensures { KeepsOrigin (H.meaning hand.old) (H.meaning hand.new) }
{
    for _ in 0..times {
        assert!(rt;
            hand.spare() >= 2 && hand.left(0) > 0,
            "room and a post are left"
        );
        hand.post(0, 1);
        let _root = hand.read(0);
    }
}

#[test]
fn a_hand_takes_a_whole_quota_of_posts(rt: HostRuntime) -> Result<(), Fail> {
    let board = PlainBoard::<Sum>::open(rt.alloc(), 1, SESSIONS, 50_000)?;
    let mut hand = board.hand(7);
    for _ in 0..100 {
        hand.reserve(1000)?;
        posts_and_reads(&rt, &mut hand, 500);
    }
    assert_eq!(rt; hand.left(0), 0);
    Ok(())
}
