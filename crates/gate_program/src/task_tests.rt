//! Two sessions that run at once: of what they race for one gets it or none, and where they are
//! held until both have come, each reads what the other has posted. No clause says that sessions
//! run at once.
use crate::command::gate;
use crate::rows::{Piece, Row, SMALL, Session, bytes_of, compare_streams, no_screens, stage_of};
use crate::test_gates::{Meeting, TURNS};
use gate_ports::MemFolder;
use risk_journal::{Act, read_journal};
use std::alloc::Global;
use std::process::Abort;
use std::sync::atomic::Ordering;
use std::test::*;

/// An order of 60 at 10.00, which is 600.
const FIRST: Session = Session {
    input: &[Piece::Whole(
        b"35=D|49=C1|56=GATE|34=1|52=20240102-10:00:00|11=a1|1=ACC|55=XYZ|54=1|38=60|\
            40=2|44=10.00|60=20240102-10:00:00|",
    )],
    venue: &[Piece::Whole(
        b"35=D|49=GATE|56=VENUE|34=1|52=20240102-10:00:00|11=a1|1=ACC|55=XYZ|54=1|38=60|\
            40=2|44=10.00|60=20240102-10:00:00|",
    )],
    client: &[Piece::Whole(
        b"35=8|49=GATE|56=C1|34=1|52=20240102-10:00:00|37=NONE|11=a1|17=G1|150=8|39=8|\
            103=3|1=ACC|55=XYZ|54=1|38=60|151=0|14=0|6=0|58=FIRM|",
    )],
};

/// Another client's.
const SECOND: Session = Session {
    input: &[Piece::Whole(
        b"35=D|49=C2|56=GATE|34=1|52=20240102-10:00:00|11=b1|1=ACC|55=XYZ|54=1|38=60|\
            40=2|44=10.00|60=20240102-10:00:00|",
    )],
    venue: &[Piece::Whole(
        b"35=D|49=GATE|56=VENUE|34=1|52=20240102-10:00:00|11=b1|1=ACC|55=XYZ|54=1|38=60|\
            40=2|44=10.00|60=20240102-10:00:00|",
    )],
    client: &[Piece::Whole(
        b"35=8|49=GATE|56=C2|34=1|52=20240102-10:00:00|37=NONE|11=b1|17=G1|150=8|39=8|\
            103=3|1=ACC|55=XYZ|54=1|38=60|151=0|14=0|6=0|58=FIRM|",
    )],
};

/// The firm's limit admits one of the two.
const RACERS: Row = Row {
    name: "two orders of which the firm's limit admits one",
    limits: SMALL,
    sessions: &[FIRST, SECOND],
    journal: b"",
    status: 0,
    told: b"",
};

/// How often the two race.
const RACES: u32 = 10_000;

/// How many turns one that is ready waits for the other, so that both start at once.
const START: u32 = 10_000;

/// What the venue gets of an order that is sent, and what the client gets of one that is refused.
#[derive(Drop)]
struct Answers {
    sent: Vec<u8>,
    refused: Vec<u8>,
}

/// The answers of a session.
fn answers_of(alloc: Global, session: &Session) -> Result<Answers, Fail> {
    Ok(Answers {
        sent: bytes_of(alloc, session.venue)?,
        refused: bytes_of(alloc, session.client)?,
    })
}

/// Whether a session with these streams sent its order. Else it refused it.
fn has_sent(
    rt: &impl Abort,
    folder: &MemFolder,
    venue: &str,
    client: &str,
    answers: &Answers,
) -> bool {
    let (Some(to_venue), Some(to_client)) = (folder.get(venue), folder.get(client)) else {
        panic!(rt; "a stream is missing");
    };
    let has_sent = to_venue == answers.sent.as_slice();
    if has_sent {
        assert!(rt; to_client.is_empty(), "sent and refused");
    } else {
        assert!(rt; to_venue.is_empty(), "neither sent nor refused");
        assert_eq!(rt; to_client, answers.refused.as_slice());
    }
    has_sent
}

#[test]
fn two_that_race_never_both_get_what_one_may_have(rt: HostRuntime) -> Result<(), Fail> {
    let alloc = rt.alloc();
    let first = answers_of(alloc, &FIRST)?;
    let second = answers_of(alloc, &SECOND)?;
    for _ in 0..RACES {
        let mut stage = stage_of(alloc, &RACERS, 65_536)?;
        let status = gate(
            &rt,
            alloc,
            &stage.words,
            &mut stage.folder,
            &mut stage.out,
            no_screens(alloc)?,
            &Meeting::of(START),
        );
        assert_eq!(rt; status, 0);
        let folder = &stage.folder;
        let is_first = has_sent(&rt, folder, "out/s00.venue", "out/s00.client", &first);
        let is_second = has_sent(&rt, folder, "out/s01.venue", "out/s01.client", &second);
        assert!(rt; !(is_first && is_second), "both were sent");
    }
    Ok(())
}

/// Two orders of 600 of each of two clients, all within the limits.
const MEETING: Row = Row {
    name: "two sessions that meet at both of their orders",
    limits: b"firm,,100000,,,\naccount,ACC,100000,,,\nsymbol,XYZ,100000,1,12,100000\n",
    sessions: &[
        Session {
            input: &[
                Piece::Whole(
                    b"35=D|49=C1|56=GATE|34=1|52=20240102-10:00:00|11=a1|1=ACC|\
                        55=XYZ|54=1|38=60|40=2|44=10.00|60=20240102-10:00:00|",
                ),
                Piece::Whole(
                    b"35=D|49=C1|56=GATE|34=2|52=20240102-10:00:00|11=a2|1=ACC|\
                        55=XYZ|54=1|38=60|40=2|44=10.00|60=20240102-10:00:00|",
                ),
            ],
            venue: &[
                Piece::Whole(
                    b"35=D|49=GATE|56=VENUE|34=1|52=20240102-10:00:00|11=a1|1=ACC|\
                        55=XYZ|54=1|38=60|40=2|44=10.00|60=20240102-10:00:00|",
                ),
                Piece::Whole(
                    b"35=D|49=GATE|56=VENUE|34=2|52=20240102-10:00:00|11=a2|1=ACC|\
                        55=XYZ|54=1|38=60|40=2|44=10.00|60=20240102-10:00:00|",
                ),
            ],
            client: &[],
        },
        Session {
            input: &[
                Piece::Whole(
                    b"35=D|49=C2|56=GATE|34=1|52=20240102-10:00:00|11=b1|1=ACC|\
                        55=XYZ|54=1|38=60|40=2|44=10.00|60=20240102-10:00:00|",
                ),
                Piece::Whole(
                    b"35=D|49=C2|56=GATE|34=2|52=20240102-10:00:00|11=b2|1=ACC|\
                        55=XYZ|54=1|38=60|40=2|44=10.00|60=20240102-10:00:00|",
                ),
            ],
            venue: &[
                Piece::Whole(
                    b"35=D|49=GATE|56=VENUE|34=1|52=20240102-10:00:00|11=b1|1=ACC|\
                        55=XYZ|54=1|38=60|40=2|44=10.00|60=20240102-10:00:00|",
                ),
                Piece::Whole(
                    b"35=D|49=GATE|56=VENUE|34=2|52=20240102-10:00:00|11=b2|1=ACC|\
                        55=XYZ|54=1|38=60|40=2|44=10.00|60=20240102-10:00:00|",
                ),
            ],
            client: &[],
        },
    ],
    journal: b"",
    status: 0,
    told: b"",
};

/// The root of the firm's tree that a session read for its second order.
fn second_root(acts: &[Act]) -> Option<u64> {
    let mut reads = 0u64;
    for act in acts {
        if let Act::Read { tree: 0, value, .. } = act {
            if reads == 1 {
                return Some(*value);
            }
            reads = reads.saturating_add(1);
        }
    }
    None
}

#[test]
fn two_that_meet_see_each_others_orders(rt: HostRuntime) -> Result<(), Fail> {
    let alloc = rt.alloc();
    let meeting = Meeting::of(TURNS);
    let mut stage = stage_of(alloc, &MEETING, 65_536)?;
    let status = gate(
        &rt,
        alloc,
        &stage.words,
        &mut stage.folder,
        &mut stage.out,
        no_screens(alloc)?,
        &meeting,
    );
    assert_eq!(rt; status, 0);
    assert_eq!(rt;
        meeting.missed.load(Ordering::SeqCst),
        0,
        "a session gave up"
    );
    compare_streams(&rt, alloc, &MEETING, &stage.folder)?;
    let text = stage.folder.get("out/journal.csv").ok_or("no journal")?;
    assert!(rt; text.len() <= 10_000, "a short journal");
    let journal = read_journal(alloc, text).ok().ok_or("no journal's text")?;
    assert_eq!(rt; journal.acts.len(), 2);
    let first = second_root(&journal.acts[0]).ok_or("no second read")?;
    let second = second_root(&journal.acts[1]).ok_or("no second read")?;
    assert!(rt; first == 1_800 || first == 2_400);
    assert!(rt; second == 1_800 || second == 2_400);
    assert!(rt; first == 2_400 || second == 2_400);
    Ok(())
}
