//! Runs of two sessions in which one call or two fail: the status, what is told and every output.
//! Each session has three orders of 1 at 10.00. The first one has a fourth, without its Symbol (55),
//! which is refused and posts nothing: where both run, its taking up shows that the third is done,
//! and the second session goes on then. No clause says that memory isn't wanting, nor which call of
//! an object fails.
ghost use Rattle.std.specs.Prelude.{◌<◌};

use crate::command::gate;
use crate::rows::{LARGE, Piece, Row, Session, bytes_of, no_screens, stage_of};
use crate::test_gates::InTurn;
use gate_ports::{MemFolder, MemSink};
use std::alloc::Global;
use std::process::Abort;
use std::sync::atomic::AtomicU32;
use std::test::*;
use std::thread::Threads;

/// What the first session reads.
const FIRST_ORDERS: &[Piece] = &[
    Piece::Whole(
        b"35=D|49=C1|56=GATE|34=1|52=20240102-10:00:00|11=a1|1=ACC|\
            55=XYZ|54=1|38=1|40=2|44=10.00|60=20240102-10:00:00|",
    ),
    Piece::Whole(
        b"35=D|49=C1|56=GATE|34=2|52=20240102-10:00:00|11=a2|1=ACC|\
            55=XYZ|54=1|38=1|40=2|44=10.00|60=20240102-10:00:00|",
    ),
    Piece::Whole(
        b"35=D|49=C1|56=GATE|34=3|52=20240102-10:00:00|11=a3|1=ACC|\
            55=XYZ|54=1|38=1|40=2|44=10.00|60=20240102-10:00:00|",
    ),
    Piece::Whole(
        b"35=D|49=C1|56=GATE|34=4|52=20240102-10:00:00|11=a4|1=ACC|\
            54=1|38=1|40=2|44=10.00|60=20240102-10:00:00|",
    ),
];

/// What the venue gets of it.
const FIRST_SENT: &[Piece] = &[
    Piece::Whole(
        b"35=D|49=GATE|56=VENUE|34=1|52=20240102-10:00:00|11=a1|1=ACC|\
            55=XYZ|54=1|38=1|40=2|44=10.00|60=20240102-10:00:00|",
    ),
    Piece::Whole(
        b"35=D|49=GATE|56=VENUE|34=2|52=20240102-10:00:00|11=a2|1=ACC|\
            55=XYZ|54=1|38=1|40=2|44=10.00|60=20240102-10:00:00|",
    ),
    Piece::Whole(
        b"35=D|49=GATE|56=VENUE|34=3|52=20240102-10:00:00|11=a3|1=ACC|\
            55=XYZ|54=1|38=1|40=2|44=10.00|60=20240102-10:00:00|",
    ),
];

/// What its client gets.
const FIRST_REFUSED: &[Piece] = &[Piece::Whole(
    b"35=3|49=GATE|56=C1|34=1|52=20240102-10:00:00|45=4|371=55|372=D|373=1|",
)];

/// What the second session reads.
const SECOND_ORDERS: &[Piece] = &[
    Piece::Whole(
        b"35=D|49=C2|56=GATE|34=1|52=20240102-10:00:00|11=b1|1=ACC|\
            55=XYZ|54=1|38=1|40=2|44=10.00|60=20240102-10:00:00|",
    ),
    Piece::Whole(
        b"35=D|49=C2|56=GATE|34=2|52=20240102-10:00:00|11=b2|1=ACC|\
            55=XYZ|54=1|38=1|40=2|44=10.00|60=20240102-10:00:00|",
    ),
    Piece::Whole(
        b"35=D|49=C2|56=GATE|34=3|52=20240102-10:00:00|11=b3|1=ACC|\
            55=XYZ|54=1|38=1|40=2|44=10.00|60=20240102-10:00:00|",
    ),
];

/// What the venue gets of it.
const SECOND_SENT: &[Piece] = &[
    Piece::Whole(
        b"35=D|49=GATE|56=VENUE|34=1|52=20240102-10:00:00|11=b1|1=ACC|\
            55=XYZ|54=1|38=1|40=2|44=10.00|60=20240102-10:00:00|",
    ),
    Piece::Whole(
        b"35=D|49=GATE|56=VENUE|34=2|52=20240102-10:00:00|11=b2|1=ACC|\
            55=XYZ|54=1|38=1|40=2|44=10.00|60=20240102-10:00:00|",
    ),
    Piece::Whole(
        b"35=D|49=GATE|56=VENUE|34=3|52=20240102-10:00:00|11=b3|1=ACC|\
            55=XYZ|54=1|38=1|40=2|44=10.00|60=20240102-10:00:00|",
    ),
];

/// The same without the last message.
const TWO_SENT: &[Piece] = &[
    Piece::Whole(
        b"35=D|49=GATE|56=VENUE|34=1|52=20240102-10:00:00|11=b1|1=ACC|\
            55=XYZ|54=1|38=1|40=2|44=10.00|60=20240102-10:00:00|",
    ),
    Piece::Whole(
        b"35=D|49=GATE|56=VENUE|34=2|52=20240102-10:00:00|11=b2|1=ACC|\
            55=XYZ|54=1|38=1|40=2|44=10.00|60=20240102-10:00:00|",
    ),
];

/// The same with the first 64 bytes of the last message.
const TWO_SENT_AND_A_FRONT: &[Piece] = &[
    Piece::Whole(
        b"35=D|49=GATE|56=VENUE|34=1|52=20240102-10:00:00|11=b1|1=ACC|\
            55=XYZ|54=1|38=1|40=2|44=10.00|60=20240102-10:00:00|",
    ),
    Piece::Whole(
        b"35=D|49=GATE|56=VENUE|34=2|52=20240102-10:00:00|11=b2|1=ACC|\
            55=XYZ|54=1|38=1|40=2|44=10.00|60=20240102-10:00:00|",
    ),
    Piece::Raw(
        b"8=FIX.4.4\x019=112\x0135=D\x0149=GATE\x0156=VENUE\x0134=3\x01\
            52=20240102-10:00:00\x01",
    ),
];

/// What goes in.
const INPUTS: Row = Row {
    name: "two sessions of three orders",
    limits: LARGE,
    sessions: &[
        Session {
            input: FIRST_ORDERS,
            venue: FIRST_SENT,
            client: FIRST_REFUSED,
        },
        Session {
            input: SECOND_ORDERS,
            venue: SECOND_SENT,
            client: &[],
        },
    ],
    journal: b"",
    status: 0,
    told: b"",
};

/// Calls that fail, and what stands then. A name that isn't there has no text.
#[derive(Clone, Copy)]
struct Case {
    name: &'static str,
    /// The calls on names of the folder, each with its number from 0.
    failing: &'static [(gate_ports::Fail, &'static str, u64)],
    /// Whether standard output, which takes 8 bytes a call, fails at its second call.
    is_cut_off: bool,
    /// How many sessions aren't waited for.
    ended: u32,
    status: u8,
    told: &'static [u8],
    first_venue: Option<&'static [Piece]>,
    first_client: Option<&'static [Piece]>,
    second_venue: Option<&'static [Piece]>,
    second_client: Option<&'static [Piece]>,
    journal: Option<&'static [u8]>,
}

/// Runs that end before a session.
static EARLY: [Case; 4] = [
    Case {
        name: "the limit file cannot be opened",
        failing: &[(gate_ports::Fail::Open, "limits", 0)],
        is_cut_off: false,
        ended: 0,
        status: 5,
        told: b"read fault\n",
        first_venue: None,
        first_client: None,
        second_venue: None,
        second_client: None,
        journal: None,
    },
    Case {
        name: "the limit file cannot be read",
        failing: &[(gate_ports::Fail::Fetch, "limits", 0)],
        is_cut_off: false,
        ended: 0,
        status: 5,
        told: b"read fault\n",
        first_venue: None,
        first_client: None,
        second_venue: None,
        second_client: None,
        journal: None,
    },
    Case {
        name: "the second session cannot be opened",
        failing: &[(gate_ports::Fail::Open, "session1", 0)],
        is_cut_off: false,
        ended: 0,
        status: 5,
        told: b"read fault\n",
        first_venue: Some(&[]),
        first_client: Some(&[]),
        second_venue: None,
        second_client: None,
        journal: None,
    },
    Case {
        name: "the second client's output cannot be made",
        failing: &[(gate_ports::Fail::Create, "out/s01.client", 0)],
        is_cut_off: false,
        ended: 0,
        status: 6,
        told: b"write fault\n",
        first_venue: Some(&[]),
        first_client: Some(&[]),
        second_venue: Some(&[]),
        second_client: None,
        journal: None,
    },
];

/// Runs whose sessions end.
static AFTER: [Case; 5] = [
    Case {
        name: "the first session cannot be read",
        failing: &[(gate_ports::Fail::Fetch, "session0", 0)],
        is_cut_off: false,
        ended: 1,
        status: 5,
        told: b"session 0 read-fault sent 0 refused 0 noted 0\n\
            session 1 whole sent 3 refused 0 noted 0\n\
            tree 0 firm - posts 3 root 30 limit 5000\n\
            tree 1 account ACC posts 3 root 30 limit 100000\n\
            tree 2 symbol XYZ posts 3 root 30 limit 100000\n\
            tree 3 halt - posts 0 root 0 limit 0\n\
            status 5\n",
        first_venue: Some(&[]),
        first_client: Some(&[]),
        second_venue: Some(SECOND_SENT),
        second_client: Some(&[]),
        journal: Some(
            b"kind,session,a,b,c,d\n\
                ended,0,4,,,\n\
                post,1,0,1,10,\npost,1,1,1,10,\npost,1,2,1,10,\n\
                read,1,3,0,0,0\nread,1,0,1,1,10\nread,1,1,1,1,10\nread,1,2,1,1,10\n\
                sent,1,0,,,\n\
                post,1,0,2,20,\npost,1,1,2,20,\npost,1,2,2,20,\n\
                read,1,3,0,0,0\nread,1,0,2,2,20\nread,1,1,2,2,20\nread,1,2,2,2,20\n\
                sent,1,1,,,\n\
                post,1,0,3,30,\npost,1,1,3,30,\npost,1,2,3,30,\n\
                read,1,3,0,0,0\nread,1,0,3,3,30\nread,1,1,3,3,30\nread,1,2,3,3,30\n\
                sent,1,2,,,\n\
                ended,1,0,,,\n\
                line,1,0,1,1,10\nline,1,0,2,2,20\nline,1,0,3,3,30\n\
                line,1,1,1,1,10\nline,1,1,2,2,20\nline,1,1,3,3,30\n\
                line,1,2,1,1,10\nline,1,2,2,2,20\nline,1,2,3,3,30\n",
        ),
    },
    Case {
        name: "the second session's third message cannot be written",
        failing: &[(gate_ports::Fail::Give, "out/s01.venue", 2)],
        is_cut_off: false,
        ended: 0,
        status: 6,
        told: b"session 0 whole sent 3 refused 1 noted 0\n\
            session 1 write-fault sent 3 refused 0 noted 0\n\
            tree 0 firm - posts 6 root 60 limit 5000\n\
            tree 1 account ACC posts 6 root 60 limit 100000\n\
            tree 2 symbol XYZ posts 6 root 60 limit 100000\n\
            tree 3 halt - posts 0 root 0 limit 0\n\
            status 6\n",
        first_venue: Some(FIRST_SENT),
        first_client: Some(FIRST_REFUSED),
        second_venue: Some(TWO_SENT),
        second_client: Some(&[]),
        journal: Some(
            b"kind,session,a,b,c,d\n\
                post,0,0,1,10,\npost,0,1,1,10,\npost,0,2,1,10,\n\
                read,0,3,0,0,0\nread,0,0,1,1,10\nread,0,1,1,1,10\nread,0,2,1,1,10\n\
                sent,0,0,,,\n\
                post,0,0,2,20,\npost,0,1,2,20,\npost,0,2,2,20,\n\
                read,0,3,0,0,0\nread,0,0,2,2,20\nread,0,1,2,2,20\nread,0,2,2,2,20\n\
                sent,0,1,,,\n\
                post,0,0,3,30,\npost,0,1,3,30,\npost,0,2,3,30,\n\
                read,0,3,0,0,0\nread,0,0,3,3,30\nread,0,1,3,3,30\nread,0,2,3,3,30\n\
                sent,0,2,,,\n\
                refused,0,3,16,55,1\n\
                ended,0,0,,,\n\
                post,1,0,1,10,\npost,1,1,1,10,\npost,1,2,1,10,\n\
                read,1,3,0,0,0\nread,1,0,4,4,40\nread,1,1,4,4,40\nread,1,2,4,4,40\n\
                sent,1,0,,,\n\
                post,1,0,2,20,\npost,1,1,2,20,\npost,1,2,2,20,\n\
                read,1,3,0,0,0\nread,1,0,5,5,50\nread,1,1,5,5,50\nread,1,2,5,5,50\n\
                sent,1,1,,,\n\
                post,1,0,3,30,\npost,1,1,3,30,\npost,1,2,3,30,\n\
                read,1,3,0,0,0\nread,1,0,6,6,60\nread,1,1,6,6,60\nread,1,2,6,6,60\n\
                sent,1,2,,,\n\
                ended,1,5,,,\n\
                line,0,0,1,1,10\nline,0,0,2,2,20\nline,0,0,3,3,30\nline,1,0,4,1,10\nline,1,0,5,2,20\nline,1,0,6,3,30\n\
                line,0,1,1,1,10\nline,0,1,2,2,20\nline,0,1,3,3,30\nline,1,1,4,1,10\nline,1,1,5,2,20\nline,1,1,6,3,30\n\
                line,0,2,1,1,10\nline,0,2,2,2,20\nline,0,2,3,3,30\nline,1,2,4,1,10\nline,1,2,5,2,20\nline,1,2,6,3,30\n",
        ),
    },
    Case {
        name: "one session cannot be read, and the other's first message not be written",
        failing: &[
            (gate_ports::Fail::Fetch, "session0", 0),
            (gate_ports::Fail::Give, "out/s01.venue", 0),
        ],
        is_cut_off: false,
        ended: 1,
        status: 6,
        told: b"session 0 read-fault sent 0 refused 0 noted 0\n\
            session 1 write-fault sent 1 refused 0 noted 0\n\
            tree 0 firm - posts 1 root 10 limit 5000\n\
            tree 1 account ACC posts 1 root 10 limit 100000\n\
            tree 2 symbol XYZ posts 1 root 10 limit 100000\n\
            tree 3 halt - posts 0 root 0 limit 0\n\
            status 6\n",
        first_venue: Some(&[]),
        first_client: Some(&[]),
        second_venue: Some(&[]),
        second_client: Some(&[]),
        journal: Some(
            b"kind,session,a,b,c,d\n\
                ended,0,4,,,\n\
                post,1,0,1,10,\npost,1,1,1,10,\npost,1,2,1,10,\n\
                read,1,3,0,0,0\nread,1,0,1,1,10\nread,1,1,1,1,10\nread,1,2,1,1,10\n\
                sent,1,0,,,\n\
                ended,1,5,,,\n\
                line,1,0,1,1,10\n\
                line,1,1,1,1,10\n\
                line,1,2,1,1,10\n",
        ),
    },
    Case {
        name: "the journal cannot be made",
        failing: &[(gate_ports::Fail::Create, "out/journal.csv", 0)],
        is_cut_off: false,
        ended: 0,
        status: 6,
        told: b"session 0 whole sent 3 refused 1 noted 0\n\
            session 1 whole sent 3 refused 0 noted 0\n\
            tree 0 firm - posts 6 root 60 limit 5000\n\
            tree 1 account ACC posts 6 root 60 limit 100000\n\
            tree 2 symbol XYZ posts 6 root 60 limit 100000\n\
            tree 3 halt - posts 0 root 0 limit 0\n\
            status 6\n",
        first_venue: Some(FIRST_SENT),
        first_client: Some(FIRST_REFUSED),
        second_venue: Some(SECOND_SENT),
        second_client: Some(&[]),
        journal: None,
    },
    Case {
        name: "standard output fails after eight bytes",
        failing: &[],
        is_cut_off: true,
        ended: 0,
        status: 6,
        told: b"session ",
        first_venue: Some(FIRST_SENT),
        first_client: Some(FIRST_REFUSED),
        second_venue: Some(SECOND_SENT),
        second_client: Some(&[]),
        journal: Some(
            b"kind,session,a,b,c,d\n\
                post,0,0,1,10,\npost,0,1,1,10,\npost,0,2,1,10,\n\
                read,0,3,0,0,0\nread,0,0,1,1,10\nread,0,1,1,1,10\nread,0,2,1,1,10\n\
                sent,0,0,,,\n\
                post,0,0,2,20,\npost,0,1,2,20,\npost,0,2,2,20,\n\
                read,0,3,0,0,0\nread,0,0,2,2,20\nread,0,1,2,2,20\nread,0,2,2,2,20\n\
                sent,0,1,,,\n\
                post,0,0,3,30,\npost,0,1,3,30,\npost,0,2,3,30,\n\
                read,0,3,0,0,0\nread,0,0,3,3,30\nread,0,1,3,3,30\nread,0,2,3,3,30\n\
                sent,0,2,,,\n\
                refused,0,3,16,55,1\n\
                ended,0,0,,,\n\
                post,1,0,1,10,\npost,1,1,1,10,\npost,1,2,1,10,\n\
                read,1,3,0,0,0\nread,1,0,4,4,40\nread,1,1,4,4,40\nread,1,2,4,4,40\n\
                sent,1,0,,,\n\
                post,1,0,2,20,\npost,1,1,2,20,\npost,1,2,2,20,\n\
                read,1,3,0,0,0\nread,1,0,5,5,50\nread,1,1,5,5,50\nread,1,2,5,5,50\n\
                sent,1,1,,,\n\
                post,1,0,3,30,\npost,1,1,3,30,\npost,1,2,3,30,\n\
                read,1,3,0,0,0\nread,1,0,6,6,60\nread,1,1,6,6,60\nread,1,2,6,6,60\n\
                sent,1,2,,,\n\
                ended,1,0,,,\n\
                line,0,0,1,1,10\nline,0,0,2,2,20\nline,0,0,3,3,30\nline,1,0,4,1,10\nline,1,0,5,2,20\nline,1,0,6,3,30\n\
                line,0,1,1,1,10\nline,0,1,2,2,20\nline,0,1,3,3,30\nline,1,1,4,1,10\nline,1,1,5,2,20\nline,1,1,6,3,30\n\
                line,0,2,1,1,10\nline,0,2,2,2,20\nline,0,2,3,3,30\nline,1,2,4,1,10\nline,1,2,5,2,20\nline,1,2,6,3,30\n",
        ),
    },
];

/// Compares the text of a name with these bytes, or sees that it isn't there.
fn compare_text(
    rt: &impl Abort,
    of: &str,
    folder: &MemFolder,
    name: &str,
    wanted: Option<&[u8]>,
) -> Result<(), Fail> {
    match wanted {
        Some(bytes) => assert_eq!(rt; folder.get(name), Some(bytes), "{of}: {name}"),
        None => assert_eq!(rt; folder.get(name), None, "{of}: {name}"),
    }
    Ok(())
}

/// Compares a stream with these pieces, or sees that it isn't there.
fn compare_stream(
    rt: &impl Abort,
    alloc: Global,
    of: &str,
    folder: &MemFolder,
    name: &str,
    pieces: Option<&[Piece]>,
) -> Result<(), Fail> {
    let Some(pieces) = pieces else {
        return compare_text(rt, of, folder, name, None);
    };
    let wanted = bytes_of(alloc, pieces)?;
    compare_text(rt, of, folder, name, Some(wanted.as_slice()))
}

/// Compares what a run left with its case.
fn compare_left(
    rt: &impl Abort,
    alloc: Global,
    case: &Case,
    folder: &MemFolder,
) -> Result<(), Fail> {
    let of = case.name;
    compare_stream(rt, alloc, of, folder, "out/s00.venue", case.first_venue)?;
    compare_stream(rt, alloc, of, folder, "out/s00.client", case.first_client)?;
    compare_stream(rt, alloc, of, folder, "out/s01.venue", case.second_venue)?;
    compare_stream(rt, alloc, of, folder, "out/s01.client", case.second_client)?;
    compare_text(rt, of, folder, "out/journal.csv", case.journal)?;
    compare_text(rt, of, folder, "limits", Some(LARGE))?;
    compare_stream(rt, alloc, of, folder, "session0", Some(FIRST_ORDERS))?;
    compare_stream(rt, alloc, of, folder, "session1", Some(SECOND_ORDERS))
}

/// Runs each case with a folder of which a call moves at most so many bytes, and compares.
fn compare_all<R: Threads + Sync + Abort>(
    rt: &R,
    alloc: Global,
    cases: &[Case],
    most: usize,
) -> Result<(), Fail>
    requires { 0 < most }
{
    for case in cases {
        let mut stage = stage_of(alloc, &INPUTS, most)?;
        for (what, name, number) in case.failing {
            stage.folder.fail(*what, name, *number)?;
        }
        if case.is_cut_off {
            stage.out = MemSink::new(alloc, 8, Vec::from_slice(alloc, &[1])?);
        }
        let status = gate(
            rt,
            alloc,
            &stage.words,
            &mut stage.folder,
            &mut stage.out,
            no_screens(alloc)?,
            &InTurn {
                last: 3,
                ended: AtomicU32::new(case.ended),
            },
        );
        let name = case.name;
        assert_eq!(rt; status, case.status, "{name}");
        assert_eq!(rt; stage.out.bytes(), case.told, "{name}");
        compare_left(rt, alloc, case, &stage.folder)?;
    }
    Ok(())
}

#[test]
fn one_failing_call_leaves_what_was_done(rt: HostRuntime) -> Result<(), Fail> {
    let alloc = rt.alloc();
    compare_all(&rt, alloc, &EARLY, 65_536)?;
    compare_all(&rt, alloc, &AFTER, 65_536)
}

#[test]
fn a_message_that_fails_stands_as_a_front(rt: HostRuntime) -> Result<(), Fail> {
    let case = Case {
        name: "the second session's third message cannot be written whole",
        failing: &[(gate_ports::Fail::Give, "out/s01.venue", 7)],
        second_venue: Some(TWO_SENT_AND_A_FRONT),
        ..AFTER[1]
    };
    compare_all(&rt, rt.alloc(), &[case], 64)
}
