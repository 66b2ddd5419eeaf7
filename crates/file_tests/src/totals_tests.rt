//! The text of totals, by whole texts: no clause shows the words byte for byte. With ample memory
//! it is written.
use risk_journal::{End, Id64, SessionTotal, Totals, TreeKind, TreeTotal, write_totals};
use std::test::Fail;

/// The lines of one session and four trees.
const ONE_ORDER: &str = "session 0 whole sent 1 refused 0 noted 0\n\
    tree 0 firm - posts 1 root 1000 limit 1000\n\
    tree 1 account ACC posts 1 root 1000 limit 100000\n\
    tree 2 symbol XYZ posts 1 root 1000 limit 100000\n\
    tree 3 halt - posts 0 root 0 limit 0\nstatus 0\n";

/// Each end with its words.
const ENDS: [(End, &str); 7] = [
    (
        End::Whole,
        "session 0 whole sent 1 refused 2 noted 3\nstatus 4\n",
    ),
    (
        End::Cut(136),
        "session 0 cut 136 sent 1 refused 2 noted 3\nstatus 4\n",
    ),
    (
        End::Broken(0),
        "session 0 broken 0 sent 1 refused 2 noted 3\nstatus 4\n",
    ),
    (
        End::TooLong(9),
        "session 0 long 9 sent 1 refused 2 noted 3\nstatus 4\n",
    ),
    (
        End::ReadFault,
        "session 0 read-fault sent 1 refused 2 noted 3\nstatus 4\n",
    ),
    (
        End::WriteFault,
        "session 0 write-fault sent 1 refused 2 noted 3\nstatus 4\n",
    ),
    (
        End::Memory,
        "session 0 memory sent 1 refused 2 noted 3\nstatus 4\n",
    ),
];

#[test]
fn writes_the_totals_of_one_order(rt: HostRuntime) -> Result<(), Fail> {
    let mut sessions = Vec::new(rt.alloc());
    sessions.push(SessionTotal {
        end: End::Whole,
        sent: 1,
        refused: 0,
        noted: 0,
    })?;
    let mut trees = Vec::new(rt.alloc());
    for (kind, name, posts, root, limit) in [
        (TreeKind::Firm, Id64::of(b"-"), 1, 1000, 1000),
        (TreeKind::Account, Id64::of(b"ACC"), 1, 1000, 100_000),
        (TreeKind::Symbol, Id64::of(b"XYZ"), 1, 1000, 100_000),
        (TreeKind::Halt, Id64::of(b"HALT"), 0, 0, 0),
    ] {
        trees.push(TreeTotal {
            kind,
            name,
            posts,
            root,
            limit,
        })?;
    }
    let totals = Totals {
        sessions,
        trees,
        status: 0,
    };
    let text = write_totals(rt.alloc(), &totals).ok().ok_or("memory")?;
    assert_eq!(rt; text.as_slice(), ONE_ORDER.as_bytes());
    Ok(())
}

#[test]
fn writes_each_end_in_words(rt: HostRuntime) -> Result<(), Fail> {
    for (end, want) in ENDS {
        let mut sessions = Vec::new(rt.alloc());
        sessions.push(SessionTotal {
            end,
            sent: 1,
            refused: 2,
            noted: 3,
        })?;
        let totals = Totals {
            sessions,
            trees: Vec::new(rt.alloc()),
            status: 4,
        };
        let text = write_totals(rt.alloc(), &totals).ok().ok_or("memory")?;
        assert_eq!(rt; text.as_slice(), want.as_bytes(), "{end:?}");
    }
    Ok(())
}
