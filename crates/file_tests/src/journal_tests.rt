//! With ample memory the journal is written. No clause says that memory isn't wanting.
use risk_board::Line;
use risk_journal::{Act, End, Journal, set_places, write_journal};
use std::test::Fail;

const ACTS: [Act; 6] = [
    Act::Post {
        tree: 0,
        index: 1,
        value: 1000,
    },
    Act::Read {
        tree: 0,
        stamp: 1,
        place: 1,
        value: 1000,
    },
    Act::Sent { frame: 0 },
    Act::Refused {
        frame: 1,
        code: 6,
        first: 0,
        second: 0,
    },
    Act::Noted {
        frame: 2,
        code: 5,
        first: 44,
        second: 6,
    },
    Act::Ended {
        end: End::TooLong(321),
    },
];

const LINES: [Line; 1] = [Line {
    session: 0,
    index: 1,
    value: 1000,
}];

const JOURNAL: &str = "kind,session,a,b,c,d\npost,0,0,1,1000,\nread,0,0,1,1,1000\nsent,0,0,,,\n\
    refused,0,1,6,0,0\nnoted,0,2,5,44,6\nended,0,3,321,,\nline,0,0,1,1,1000\n";

#[test]
fn writes_the_journal(rt: HostRuntime) -> Result<(), Fail> {
    let mut acts = Vec::new(rt.alloc());
    acts.push(ACTS.to_vec(rt.alloc())?)?;
    let mut lines = Vec::new(rt.alloc());
    lines.push(LINES.to_vec(rt.alloc())?)?;
    let text = write_journal(rt.alloc(), &Journal { acts, lines })
        .ok()
        .ok_or("memory")?;
    assert_eq!(rt; text.as_slice(), JOURNAL.as_bytes());
    Ok(())
}

#[test]
fn sets_a_place_by_tree_and_stamp(rt: HostRuntime) -> Result<(), Fail> {
    let mut acts = ACTS.to_vec(rt.alloc())?;
    acts[1] = Act::Read {
        tree: 1,
        stamp: 2,
        place: 0,
        value: 1000,
    };
    let mut places = Vec::new(rt.alloc());
    places.push(vec![in rt.alloc(); 0, 1, 2]?)?;
    places.push(vec![in rt.alloc(); 0, 3, 7]?)?;
    set_places(&mut acts, &places);
    let want = Act::Read {
        tree: 1,
        stamp: 2,
        place: 7,
        value: 1000,
    };
    assert_eq!(rt; acts[1], want);
    assert_eq!(rt; acts[5], ACTS[5]);
    Ok(())
}
