//! Whole runs with screens over a folder in memory, byte by byte: the program's own, and a firm's.
//! No clause says what a worked row gives, that memory isn't wanting, nor that each screen is
//! dropped once.
use crate::command::gate;
use crate::rows::{Piece, Row, Session, compare, no_screens, stage_of};
use crate::sets::gate_with_screens;
use crate::test_gates::{InTurn, Watching};
use crate::test_screens::FirstTwo;
use gate_ports::OpenGate;
use std::sync::Arc;
use std::sync::atomic::{AtomicU64, Ordering};
use std::test::*;

/// The last two orders judged may not be repeated, a price is 1 to 12, and a quantity at most
/// 100,000.
const TWO: &[u8] = b"firm,,100000,,,\n\
    account,ACC,100000,,,\n\
    symbol,XYZ,100000,1,12,100000\n\
    repeat,,2,,,\n";

/// What the program's own screens refuse.
const OWN: [Row; 3] = [
    Row {
        name: "orders again, above the collar and above the size",
        limits: TWO,
        sessions: &[Session {
            input: &[
                Piece::Whole(
                    b"35=D|49=C1|56=GATE|34=1|52=20240102-10:00:00|11=a1|1=ACC|55=XYZ|\
                            54=1|38=5|40=2|44=10.00|60=20240102-10:00:00|",
                ),
                Piece::Whole(
                    b"35=D|49=C1|56=GATE|34=2|52=20240102-10:00:00|11=a2|1=ACC|55=XYZ|\
                            54=1|38=5|40=2|44=10.00|60=20240102-10:00:00|",
                ),
                Piece::Whole(
                    b"35=D|49=C1|56=GATE|34=3|52=20240102-10:00:00|11=a3|1=ACC|55=XYZ|\
                            54=1|38=5|40=2|44=10.00|60=20240102-10:00:00|",
                ),
                Piece::Whole(
                    b"35=D|49=C1|56=GATE|34=4|52=20240102-10:00:00|11=a4|1=ACC|55=XYZ|\
                            54=1|38=1|40=2|44=12.01|60=20240102-10:00:00|",
                ),
                Piece::Whole(
                    b"35=D|49=C1|56=GATE|34=5|52=20240102-10:00:00|11=a5|1=ACC|55=XYZ|\
                            54=1|38=100001|40=2|44=12.01|60=20240102-10:00:00|",
                ),
            ],
            venue: &[Piece::Whole(
                b"35=D|49=GATE|56=VENUE|34=1|52=20240102-10:00:00|11=a1|1=ACC|55=XYZ|\
                            54=1|38=5|40=2|44=10.00|60=20240102-10:00:00|",
            )],
            client: &[
                Piece::Whole(
                    b"35=8|49=GATE|56=C1|34=1|52=20240102-10:00:00|37=NONE|11=a2|17=G1|\
                            150=8|39=8|103=99|1=ACC|55=XYZ|54=1|38=5|151=0|14=0|6=0|58=SCREEN 3|",
                ),
                Piece::Whole(
                    b"35=8|49=GATE|56=C1|34=2|52=20240102-10:00:00|37=NONE|11=a3|17=G2|\
                            150=8|39=8|103=99|1=ACC|55=XYZ|54=1|38=5|151=0|14=0|6=0|58=SCREEN 3|",
                ),
                Piece::Whole(
                    b"35=8|49=GATE|56=C1|34=3|52=20240102-10:00:00|37=NONE|11=a4|17=G3|\
                            150=8|39=8|103=99|1=ACC|55=XYZ|54=1|38=1|151=0|14=0|6=0|58=SCREEN 2|",
                ),
                Piece::Whole(
                    b"35=8|49=GATE|56=C1|34=4|52=20240102-10:00:00|37=NONE|11=a5|17=G4|\
                            150=8|39=8|103=99|1=ACC|55=XYZ|54=1|38=100001|151=0|14=0|6=0|\
                            58=SCREEN 1|",
                ),
            ],
        }],
        journal: b"kind,session,a,b,c,d\n\
            post,0,0,1,50,\npost,0,1,1,50,\npost,0,2,1,50,\n\
            read,0,3,0,0,0\nread,0,0,1,1,50\nread,0,1,1,1,50\nread,0,2,1,1,50\n\
            sent,0,0,,,\nrefused,0,1,10,3,0\nrefused,0,2,10,3,0\n\
            refused,0,3,10,2,0\nrefused,0,4,10,1,0\nended,0,0,,,\n\
            line,0,0,1,1,50\nline,0,1,1,1,50\nline,0,2,1,1,50\n",
        status: 0,
        told: b"session 0 whole sent 1 refused 4 noted 0\n\
            tree 0 firm - posts 1 root 50 limit 100000\n\
            tree 1 account ACC posts 1 root 50 limit 100000\n\
            tree 2 symbol XYZ posts 1 root 50 limit 100000\n\
            tree 3 halt - posts 0 root 0 limit 0\n\
            status 0\n",
    },
    Row {
        name: "replaces again, above the collar and above the size",
        limits: TWO,
        sessions: &[Session {
            input: &[
                Piece::Whole(
                    b"35=D|49=C1|56=GATE|34=1|52=20240102-10:00:00|11=a1|1=ACC|55=XYZ|\
                            54=1|38=5|40=2|44=10.00|60=20240102-10:00:00|",
                ),
                Piece::Whole(
                    b"35=G|49=C1|56=GATE|34=2|52=20240102-10:00:00|11=b1|41=a1|55=XYZ|\
                            54=1|38=100001|40=2|44=12.01|60=20240102-10:00:00|",
                ),
                Piece::Whole(
                    b"35=G|49=C1|56=GATE|34=3|52=20240102-10:00:00|11=b2|41=a1|55=XYZ|\
                            54=1|38=5|40=2|44=12.01|60=20240102-10:00:00|",
                ),
                Piece::Whole(
                    b"35=G|49=C1|56=GATE|34=4|52=20240102-10:00:00|11=b3|41=a1|55=XYZ|\
                            54=1|38=5|40=2|44=10.00|60=20240102-10:00:00|",
                ),
            ],
            venue: &[Piece::Whole(
                b"35=D|49=GATE|56=VENUE|34=1|52=20240102-10:00:00|11=a1|1=ACC|55=XYZ|\
                            54=1|38=5|40=2|44=10.00|60=20240102-10:00:00|",
            )],
            client: &[
                Piece::Whole(
                    b"35=9|49=GATE|56=C1|34=1|52=20240102-10:00:00|37=NONE|11=b1|41=a1|\
                            39=8|434=2|102=2|58=SCREEN 1|",
                ),
                Piece::Whole(
                    b"35=9|49=GATE|56=C1|34=2|52=20240102-10:00:00|37=NONE|11=b2|41=a1|\
                            39=8|434=2|102=2|58=SCREEN 2|",
                ),
                Piece::Whole(
                    b"35=9|49=GATE|56=C1|34=3|52=20240102-10:00:00|37=NONE|11=b3|41=a1|\
                            39=8|434=2|102=2|58=SCREEN 3|",
                ),
            ],
        }],
        journal: b"kind,session,a,b,c,d\n\
            post,0,0,1,50,\npost,0,1,1,50,\npost,0,2,1,50,\n\
            read,0,3,0,0,0\nread,0,0,1,1,50\nread,0,1,1,1,50\nread,0,2,1,1,50\n\
            sent,0,0,,,\nrefused,0,1,10,1,0\nrefused,0,2,10,2,0\n\
            refused,0,3,10,3,0\nended,0,0,,,\nline,0,0,1,1,50\n\
            line,0,1,1,1,50\nline,0,2,1,1,50\n",
        status: 0,
        told: b"session 0 whole sent 1 refused 3 noted 0\n\
            tree 0 firm - posts 1 root 50 limit 100000\n\
            tree 1 account ACC posts 1 root 50 limit 100000\n\
            tree 2 symbol XYZ posts 1 root 50 limit 100000\n\
            tree 3 halt - posts 0 root 0 limit 0\n\
            status 0\n",
    },
    Row {
        name: "an order again, again without the screen that is dropped, and above the collar",
        limits: b"firm,,100000,,,\naccount,ACC,100000,,,\nsymbol,XYZ,100000,1,12,100000\n\
            repeat,,2,,,\noff,repeat,2,,,\n",
        sessions: &[Session {
            input: &[
                Piece::Whole(
                    b"35=D|49=C1|56=GATE|34=1|52=20240102-10:00:00|11=a1|1=ACC|55=XYZ|\
                            54=1|38=5|40=2|44=10.00|60=20240102-10:00:00|",
                ),
                Piece::Whole(
                    b"35=D|49=C1|56=GATE|34=2|52=20240102-10:00:00|11=a2|1=ACC|55=XYZ|\
                            54=1|38=5|40=2|44=10.00|60=20240102-10:00:00|",
                ),
                Piece::Whole(
                    b"35=D|49=C1|56=GATE|34=3|52=20240102-10:00:00|11=a3|1=ACC|55=XYZ|\
                            54=1|38=5|40=2|44=10.00|60=20240102-10:00:00|",
                ),
                Piece::Whole(
                    b"35=D|49=C1|56=GATE|34=4|52=20240102-10:00:00|11=a4|1=ACC|55=XYZ|\
                            54=1|38=1|40=2|44=12.01|60=20240102-10:00:00|",
                ),
            ],
            venue: &[
                Piece::Whole(
                    b"35=D|49=GATE|56=VENUE|34=1|52=20240102-10:00:00|11=a1|1=ACC|55=XYZ|\
                            54=1|38=5|40=2|44=10.00|60=20240102-10:00:00|",
                ),
                Piece::Whole(
                    b"35=D|49=GATE|56=VENUE|34=2|52=20240102-10:00:00|11=a3|1=ACC|55=XYZ|\
                            54=1|38=5|40=2|44=10.00|60=20240102-10:00:00|",
                ),
            ],
            client: &[
                Piece::Whole(
                    b"35=8|49=GATE|56=C1|34=1|52=20240102-10:00:00|37=NONE|11=a2|17=G1|\
                            150=8|39=8|103=99|1=ACC|55=XYZ|54=1|38=5|151=0|14=0|6=0|58=SCREEN 3|",
                ),
                Piece::Whole(
                    b"35=8|49=GATE|56=C1|34=2|52=20240102-10:00:00|37=NONE|11=a4|17=G2|\
                            150=8|39=8|103=99|1=ACC|55=XYZ|54=1|38=1|151=0|14=0|6=0|58=SCREEN 2|",
                ),
            ],
        }],
        journal: b"kind,session,a,b,c,d\n\
            post,0,0,1,50,\npost,0,1,1,50,\npost,0,2,1,50,\n\
            read,0,3,0,0,0\nread,0,0,1,1,50\nread,0,1,1,1,50\nread,0,2,1,1,50\n\
            sent,0,0,,,\nrefused,0,1,10,3,0\n\
            post,0,0,2,100,\npost,0,1,2,100,\npost,0,2,2,100,\n\
            read,0,3,0,0,0\nread,0,0,2,2,100\nread,0,1,2,2,100\nread,0,2,2,2,100\n\
            sent,0,2,,,\nrefused,0,3,10,2,0\nended,0,0,,,\n\
            line,0,0,1,1,50\nline,0,0,2,2,100\nline,0,1,1,1,50\nline,0,1,2,2,100\n\
            line,0,2,1,1,50\nline,0,2,2,2,100\n",
        status: 0,
        told: b"session 0 whole sent 2 refused 2 noted 0\n\
            tree 0 firm - posts 2 root 100 limit 100000\n\
            tree 1 account ACC posts 2 root 100 limit 100000\n\
            tree 2 symbol XYZ posts 2 root 100 limit 100000\n\
            tree 3 halt - posts 0 root 0 limit 0\n\
            status 0\n",
    },
];

/// Session 0 has a screen that lets two orders pass, and session 1 has none.
const FIRMS: Row = Row {
    name: "a firm's own screen of one session",
    limits: TWO,
    sessions: &[
        Session {
            input: &[
                Piece::Whole(
                    b"35=D|49=C1|56=GATE|34=1|52=20240102-10:00:00|11=a1|1=ACC|55=XYZ|\
                        54=1|38=1|40=2|44=10.00|60=20240102-10:00:00|",
                ),
                Piece::Whole(
                    b"35=D|49=C1|56=GATE|34=2|52=20240102-10:00:00|11=a2|1=ACC|55=XYZ|\
                        54=1|38=2|40=2|44=10.00|60=20240102-10:00:00|",
                ),
                Piece::Whole(
                    b"35=D|49=C1|56=GATE|34=3|52=20240102-10:00:00|11=a3|1=ACC|55=XYZ|\
                        54=1|38=3|40=2|44=10.00|60=20240102-10:00:00|",
                ),
                Piece::Whole(
                    b"35=G|49=C1|56=GATE|34=4|52=20240102-10:00:00|11=b1|41=a1|55=XYZ|\
                        54=1|38=2|40=2|44=10.00|60=20240102-10:00:00|",
                ),
                Piece::Whole(
                    b"35=D|49=C1|56=GATE|34=5|52=20240102-10:00:00|11=a4|1=ACC|54=1|38=60|\
                        40=2|44=10.00|60=20240102-10:00:00|",
                ),
            ],
            venue: &[
                Piece::Whole(
                    b"35=D|49=GATE|56=VENUE|34=1|52=20240102-10:00:00|11=a1|1=ACC|55=XYZ|\
                        54=1|38=1|40=2|44=10.00|60=20240102-10:00:00|",
                ),
                Piece::Whole(
                    b"35=D|49=GATE|56=VENUE|34=2|52=20240102-10:00:00|11=a2|1=ACC|55=XYZ|\
                        54=1|38=2|40=2|44=10.00|60=20240102-10:00:00|",
                ),
            ],
            client: &[
                Piece::Whole(
                    b"35=8|49=GATE|56=C1|34=1|52=20240102-10:00:00|37=NONE|11=a3|17=G1|\
                        150=8|39=8|103=99|1=ACC|55=XYZ|54=1|38=3|151=0|14=0|6=0|\
                        58=SCREEN 100|",
                ),
                Piece::Whole(
                    b"35=9|49=GATE|56=C1|34=2|52=20240102-10:00:00|37=NONE|11=b1|41=a1|\
                        39=8|434=2|102=2|58=SCREEN 100|",
                ),
                Piece::Whole(
                    b"35=3|49=GATE|56=C1|34=3|52=20240102-10:00:00|45=5|371=55|372=D|\
                        373=1|",
                ),
            ],
        },
        Session {
            input: &[
                Piece::Whole(
                    b"35=D|49=C2|56=GATE|34=1|52=20240102-10:00:00|11=b1|1=ACC|55=XYZ|\
                        54=1|38=1|40=2|44=10.00|60=20240102-10:00:00|",
                ),
                Piece::Whole(
                    b"35=D|49=C2|56=GATE|34=2|52=20240102-10:00:00|11=b2|1=ACC|55=XYZ|\
                        54=1|38=2|40=2|44=10.00|60=20240102-10:00:00|",
                ),
                Piece::Whole(
                    b"35=D|49=C2|56=GATE|34=3|52=20240102-10:00:00|11=b3|1=ACC|55=XYZ|\
                        54=1|38=3|40=2|44=10.00|60=20240102-10:00:00|",
                ),
            ],
            venue: &[
                Piece::Whole(
                    b"35=D|49=GATE|56=VENUE|34=1|52=20240102-10:00:00|11=b1|1=ACC|55=XYZ|\
                        54=1|38=1|40=2|44=10.00|60=20240102-10:00:00|",
                ),
                Piece::Whole(
                    b"35=D|49=GATE|56=VENUE|34=2|52=20240102-10:00:00|11=b2|1=ACC|55=XYZ|\
                        54=1|38=2|40=2|44=10.00|60=20240102-10:00:00|",
                ),
                Piece::Whole(
                    b"35=D|49=GATE|56=VENUE|34=3|52=20240102-10:00:00|11=b3|1=ACC|55=XYZ|\
                        54=1|38=3|40=2|44=10.00|60=20240102-10:00:00|",
                ),
            ],
            client: &[],
        },
    ],
    journal: b"kind,session,a,b,c,d\n\
        post,0,0,1,10,\npost,0,1,1,10,\npost,0,2,1,10,\n\
        read,0,3,0,0,0\nread,0,0,1,1,10\nread,0,1,1,1,10\nread,0,2,1,1,10\n\
        sent,0,0,,,\n\
        post,0,0,2,30,\npost,0,1,2,30,\npost,0,2,2,30,\n\
        read,0,3,0,0,0\nread,0,0,2,2,30\nread,0,1,2,2,30\nread,0,2,2,2,30\n\
        sent,0,1,,,\nrefused,0,2,10,100,0\nrefused,0,3,10,100,0\nrefused,0,4,16,55,1\n\
        ended,0,0,,,\n\
        post,1,0,1,10,\npost,1,1,1,10,\npost,1,2,1,10,\n\
        read,1,3,0,0,0\nread,1,0,3,3,40\nread,1,1,3,3,40\nread,1,2,3,3,40\n\
        sent,1,0,,,\n\
        post,1,0,2,30,\npost,1,1,2,30,\npost,1,2,2,30,\n\
        read,1,3,0,0,0\nread,1,0,4,4,60\nread,1,1,4,4,60\nread,1,2,4,4,60\n\
        sent,1,1,,,\n\
        post,1,0,3,60,\npost,1,1,3,60,\npost,1,2,3,60,\n\
        read,1,3,0,0,0\nread,1,0,5,5,90\nread,1,1,5,5,90\nread,1,2,5,5,90\n\
        sent,1,2,,,\nended,1,0,,,\n\
        line,0,0,1,1,10\nline,0,0,2,2,30\nline,1,0,3,1,10\nline,1,0,4,2,30\n\
        line,1,0,5,3,60\n\
        line,0,1,1,1,10\nline,0,1,2,2,30\nline,1,1,3,1,10\nline,1,1,4,2,30\n\
        line,1,1,5,3,60\n\
        line,0,2,1,1,10\nline,0,2,2,2,30\nline,1,2,3,1,10\nline,1,2,4,2,30\n\
        line,1,2,5,3,60\n",
    status: 0,
    told: b"session 0 whole sent 2 refused 3 noted 0\n\
        session 1 whole sent 3 refused 0 noted 0\n\
        tree 0 firm - posts 5 root 90 limit 100000\n\
        tree 1 account ACC posts 5 root 90 limit 100000\n\
        tree 2 symbol XYZ posts 5 root 90 limit 100000\n\
        tree 3 halt - posts 0 root 0 limit 0\n\
        status 0\n",
};

#[test]
fn the_programs_screens_refuse_repeats_prices_and_sizes(rt: HostRuntime) -> Result<(), Fail> {
    let alloc = rt.alloc();
    for row in &OWN {
        let mut stage = stage_of(alloc, row, 65_536)?;
        let status = gate_with_screens(
            &rt,
            alloc,
            &stage.words,
            &mut stage.folder,
            &mut stage.out,
            &OpenGate,
        )?;
        compare(&rt, alloc, row, &stage, status)?;
    }
    Ok(())
}

#[test]
fn each_session_takes_its_own_screens_and_all_are_dropped(rt: HostRuntime) -> Result<(), Fail> {
    let alloc = rt.alloc();
    let drops = Arc::new(alloc, AtomicU64::new(0))?;
    let mut screens = no_screens(alloc)?;
    let taken = FirstTwo {
        passed: 9,
        drops: Arc::try_clone(&drops)?,
    };
    let left = FirstTwo {
        passed: 9,
        drops: Arc::try_clone(&drops)?,
    };
    screens[0].push(Box::new(alloc, taken)?)?;
    screens[63].push(Box::new(alloc, left)?)?;
    let mut stage = stage_of(alloc, &FIRMS, 65_536)?;
    let status = gate(
        &rt,
        alloc,
        &stage.words,
        &mut stage.folder,
        &mut stage.out,
        screens,
        &InTurn::by(4),
    );
    compare(&rt, alloc, &FIRMS, &stage, status)?;
    assert_eq!(&rt;
        drops.load(Ordering::SeqCst),
        2,
        "one was taken, the other was not"
    );
    Ok(())
}

/// The firm's screen is dropped as the third order is taken up: an order with a field fault counts,
/// and a cancel doesn't. No screen has the other name.
const DROPPED: Row = Row {
    name: "a firm's own screen that is dropped",
    limits: b"firm,,100000,,,\naccount,ACC,100000,,,\nsymbol,XYZ,100000,1,12,100000\n\
        off,first_two,2,,,\noff,other,2,,,\n",
    sessions: &[Session {
        input: &[
            Piece::Whole(
                b"35=D|49=C1|56=GATE|34=1|52=20240102-10:00:00|11=a1|1=ACC|55=XYZ|\
                            54=1|38=1|40=2|44=10.00|60=20240102-10:00:00|",
            ),
            Piece::Whole(
                b"35=D|49=C1|56=GATE|34=2|52=20240102-10:00:00|11=a2|1=ACC|54=1|38=60|\
                            40=2|44=10.00|60=20240102-10:00:00|",
            ),
            Piece::Whole(b"35=F|49=C1|56=GATE|34=3|52=20240102-10:00:00|11=b1|41=zz|"),
            Piece::Whole(
                b"35=D|49=C1|56=GATE|34=4|52=20240102-10:00:00|11=a3|1=ACC|55=XYZ|\
                            54=1|38=2|40=2|44=10.00|60=20240102-10:00:00|",
            ),
            Piece::Whole(
                b"35=D|49=C1|56=GATE|34=5|52=20240102-10:00:00|11=a4|1=ACC|55=XYZ|\
                            54=1|38=3|40=2|44=10.00|60=20240102-10:00:00|",
            ),
        ],
        venue: &[
            Piece::Whole(
                b"35=D|49=GATE|56=VENUE|34=1|52=20240102-10:00:00|11=a1|1=ACC|55=XYZ|\
                            54=1|38=1|40=2|44=10.00|60=20240102-10:00:00|",
            ),
            Piece::Whole(
                b"35=D|49=GATE|56=VENUE|34=2|52=20240102-10:00:00|11=a3|1=ACC|55=XYZ|\
                            54=1|38=2|40=2|44=10.00|60=20240102-10:00:00|",
            ),
            Piece::Whole(
                b"35=D|49=GATE|56=VENUE|34=3|52=20240102-10:00:00|11=a4|1=ACC|55=XYZ|\
                            54=1|38=3|40=2|44=10.00|60=20240102-10:00:00|",
            ),
        ],
        client: &[
            Piece::Whole(b"35=3|49=GATE|56=C1|34=1|52=20240102-10:00:00|45=2|371=55|372=D|373=1|"),
            Piece::Whole(
                b"35=9|49=GATE|56=C1|34=2|52=20240102-10:00:00|37=NONE|11=b1|41=zz|39=8|434=1|\
                            102=1|58=UNKNOWN|",
            ),
        ],
    }],
    journal: b"kind,session,a,b,c,d\n\
        post,0,0,1,10,\npost,0,1,1,10,\npost,0,2,1,10,\n\
        read,0,3,0,0,0\nread,0,0,1,1,10\nread,0,1,1,1,10\nread,0,2,1,1,10\n\
        sent,0,0,,,\nrefused,0,1,16,55,1\nrefused,0,2,11,0,0\n\
        post,0,0,2,30,\npost,0,1,2,30,\npost,0,2,2,30,\n\
        read,0,3,0,0,0\nread,0,0,2,2,30\nread,0,1,2,2,30\nread,0,2,2,2,30\n\
        sent,0,3,,,\n\
        post,0,0,3,60,\npost,0,1,3,60,\npost,0,2,3,60,\n\
        read,0,3,0,0,0\nread,0,0,3,3,60\nread,0,1,3,3,60\nread,0,2,3,3,60\n\
        sent,0,4,,,\nended,0,0,,,\n\
        line,0,0,1,1,10\nline,0,0,2,2,30\nline,0,0,3,3,60\n\
        line,0,1,1,1,10\nline,0,1,2,2,30\nline,0,1,3,3,60\n\
        line,0,2,1,1,10\nline,0,2,2,2,30\nline,0,2,3,3,60\n",
    status: 0,
    told: b"session 0 whole sent 3 refused 2 noted 0\n\
        tree 0 firm - posts 3 root 60 limit 100000\n\
        tree 1 account ACC posts 3 root 60 limit 100000\n\
        tree 2 symbol XYZ posts 3 root 60 limit 100000\n\
        tree 3 halt - posts 0 root 0 limit 0\n\
        status 0\n",
};

#[test]
fn a_screen_is_dropped_once_as_the_order_of_its_row_is_taken_up(
    rt: HostRuntime,
) -> Result<(), Fail> {
    let alloc = rt.alloc();
    let drops = Arc::new(alloc, AtomicU64::new(0))?;
    let mut screens = no_screens(alloc)?;
    let own = FirstTwo {
        passed: 9,
        drops: Arc::try_clone(&drops)?,
    };
    screens[0].push(Box::new(alloc, own)?)?;
    let watching = Watching::at(2, Arc::try_clone(&drops)?);
    let mut stage = stage_of(alloc, &DROPPED, 65_536)?;
    let status = gate(
        &rt,
        alloc,
        &stage.words,
        &mut stage.folder,
        &mut stage.out,
        screens,
        &watching,
    );
    compare(&rt, alloc, &DROPPED, &stage, status)?;
    assert_eq!(&rt;
        watching.before.load(Ordering::SeqCst),
        0,
        "at the gate it stands"
    );
    assert_eq!(&rt;
        watching.after.load(Ordering::SeqCst),
        1,
        "at the next order it is gone"
    );
    assert_eq!(&rt; drops.load(Ordering::SeqCst), 1, "at the end too");
    Ok(())
}
