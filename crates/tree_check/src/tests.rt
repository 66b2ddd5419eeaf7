//! What no clause says: that each call succeeds with ample memory, on a history of two sessions with
//! reads that fit and reads that don't.

use crate::{ReadAt, ToldTree, are_walked, reads_by_tree, stays_within, trees_agree};
use fold_law::Sum;
use risk_board::Line;
use risk_journal::Act;
use std::test::*;
use trail_replay::History;

const LINES: [Line; 2] = [
    Line {
        session: 0,
        index: 1,
        value: 600,
    },
    Line {
        session: 1,
        index: 1,
        value: 600,
    },
];

#[test]
fn reads_are_compared_with_a_walk(rt: HostRuntime) -> Result<(), Fail> {
    const READS: [(&str, u32, u64, bool); 4] = [
        ("before the first line", 0, 0, true),
        ("after both", 2, 1200, true),
        ("a value of the place before", 2, 600, false),
        ("a place behind the history", 3, 1200, false),
    ];
    let alloc = rt.alloc();
    let history = History {
        lines: Vec::from_slice(alloc, &LINES)?,
        places: Vec::new(alloc),
    };
    for (name, place, value, want) in READS {
        let read = ReadAt {
            session: 0,
            place,
            value,
        };
        assert_eq!(rt;
            are_walked::<Sum>(alloc, &history, &[read])?,
            want,
            "{name}"
        );
    }
    Ok(())
}

#[test]
fn admitted_exposure_is_compared_with_the_limit(rt: HostRuntime) -> Result<(), Fail> {
    // A read of session 1 after both lines, with this value, and the limit.
    const READS: [(&str, u64, u64, bool); 3] = [
        ("both are admitted within the limit", 1200, 1200, true),
        ("the second is not admitted", 1200, 1000, true),
        ("a read that hides a post admits too much", 600, 1000, false),
    ];
    let alloc = rt.alloc();
    for (name, value, limit, want) in READS {
        let reads = [
            ReadAt {
                session: 0,
                place: 1,
                value: 600,
            },
            ReadAt {
                session: 1,
                place: 2,
                value,
            },
        ];
        assert_eq!(rt;
            stays_within(alloc, 2, &LINES, &reads, limit)?,
            want,
            "{name}"
        );
    }
    Ok(())
}

#[test]
fn reads_are_listed_by_their_trees(rt: HostRuntime) -> Result<(), Fail> {
    let alloc = rt.alloc();
    let act = Act::Read {
        tree: 1,
        stamp: 4,
        place: 2,
        value: 7,
    };
    let mut acts = Vec::new(alloc);
    acts.push(Vec::new(alloc))?;
    acts.push(Vec::from_slice(alloc, &[Act::Sent { frame: 0 }, act])?)?;
    let trees = reads_by_tree(alloc, 2, &acts)?;
    assert_eq!(rt; trees.len(), 2);
    assert_eq!(rt; trees[0].as_slice(), [].as_slice());
    let read = ReadAt {
        session: 1,
        place: 2,
        value: 7,
    };
    assert_eq!(rt; trees[1].as_slice(), [read].as_slice());
    Ok(())
}

#[test]
fn trees_are_checked_side_by_side(rt: HostRuntime) -> Result<(), Fail> {
    const TREES: [(&str, u64, Option<u64>, bool); 4] = [
        ("a tree without a limit", 600, None, true),
        ("a limit that is kept", 600, Some(600), true),
        (
            "a limit above which nothing is admitted",
            600,
            Some(599),
            true,
        ),
        ("a read that a walk doesn't give", 1200, None, false),
    ];
    let alloc = rt.alloc();
    for (name, value, limit, want) in TREES {
        let mut trees = Vec::new(alloc);
        trees.push(ToldTree {
            history: History {
                lines: Vec::from_slice(alloc, &LINES)?,
                places: Vec::new(alloc),
            },
            reads: Vec::from_slice(
                alloc,
                &[ReadAt {
                    session: 0,
                    place: 1,
                    value,
                }],
            )?,
            limit,
        })?;
        assert_eq!(rt;
            trees_agree::<_, Sum>(&rt, alloc, 2, trees)?,
            want,
            "{name}"
        );
    }
    Ok(())
}
