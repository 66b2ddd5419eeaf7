//! Runs of one session over broken frames, and over what no client and no venue should send.
use crate::command::gate;
use crate::rows::{
    BUY, BUY_SENT, LARGE, Piece, Row, Session, bytes_of, compare, no_screens, stage_of,
};
use crate::test_screens::Refusing;
use gate_ports::OpenGate;
use screen_kit::SizeScreen;
use std::alloc::Global;
use std::process::Abort;
use std::test::*;
use std::thread::Threads;

/// Frames that are broken, reports that don't fit, and an id that was used.
static HOSTILE: [Row; 8] = [
    Row {
        name: "a frame of another version",
        limits: LARGE,
        sessions: &[Session {
            input: &[Piece::Raw(
                b"8=FIX.4.2|9=113|35=D|49=C1|56=GATE|34=1|52=20240102-10:00:00|11=a1|1=ACC|\
                        55=XYZ|54=1|38=100|40=2|44=10.0000|60=20240102-10:00:00|10=173|",
            )],
            venue: &[],
            client: &[],
        }],
        journal: b"kind,session,a,b,c,d\n\
            ended,0,2,0,,\n",
        status: 4,
        told: b"session 0 broken 0 sent 0 refused 0 noted 0\n\
            tree 0 firm - posts 0 root 0 limit 5000\n\
            tree 1 account ACC posts 0 root 0 limit 100000\n\
            tree 2 symbol XYZ posts 0 root 0 limit 100000\n\
            tree 3 halt - posts 0 root 0 limit 0\n\
            status 4\n",
    },
    Row {
        name: "a length of eight digits",
        limits: LARGE,
        sessions: &[Session {
            input: &[Piece::Raw(
                b"8=FIX.4.4|9=00000113|35=D|49=C1|56=GATE|34=1|52=20240102-10:00:00|11=a1|1=ACC|\
                        55=XYZ|54=1|38=100|40=2|44=10.0000|60=20240102-10:00:00|10=159|",
            )],
            venue: &[],
            client: &[],
        }],
        journal: b"kind,session,a,b,c,d\n\
            ended,0,2,0,,\n",
        status: 4,
        told: b"session 0 broken 0 sent 0 refused 0 noted 0\n\
            tree 0 firm - posts 0 root 0 limit 5000\n\
            tree 1 account ACC posts 0 root 0 limit 100000\n\
            tree 2 symbol XYZ posts 0 root 0 limit 100000\n\
            tree 3 halt - posts 0 root 0 limit 0\n\
            status 4\n",
    },
    Row {
        name: "a length of 0",
        limits: LARGE,
        sessions: &[Session {
            input: &[Piece::Raw(b"8=FIX.4.4|9=0|10=200|")],
            venue: &[],
            client: &[],
        }],
        journal: b"kind,session,a,b,c,d\n\
            ended,0,2,0,,\n",
        status: 4,
        told: b"session 0 broken 0 sent 0 refused 0 noted 0\n\
            tree 0 firm - posts 0 root 0 limit 5000\n\
            tree 1 account ACC posts 0 root 0 limit 100000\n\
            tree 2 symbol XYZ posts 0 root 0 limit 100000\n\
            tree 3 halt - posts 0 root 0 limit 0\n\
            status 4\n",
    },
    Row {
        name: "a trade of an order that nobody sent",
        limits: LARGE,
        sessions: &[Session {
            input: &[
                Piece::Whole(BUY),
                Piece::Whole(
                    b"35=8|49=VENUE|56=GATE|34=1|52=20240102-10:00:00|37=O1|11=zz|17=E1|150=F|\
                            39=1|55=XYZ|54=1|38=100|32=10|31=9.00|151=90|14=10|6=9.00|",
                ),
            ],
            venue: &[Piece::Whole(BUY_SENT)],
            client: &[Piece::Whole(
                b"35=8|49=GATE|56=C1|34=1|52=20240102-10:00:00|37=O1|11=zz|17=E1|150=F|39=1|\
                        55=XYZ|54=1|38=100|32=10|31=9.00|151=90|14=10|6=9.00|",
            )],
        }],
        journal: b"kind,session,a,b,c,d\n\
            post,0,0,1,1000,\npost,0,1,1,1000,\npost,0,2,1,1000,\n\
            read,0,3,0,0,0\nread,0,0,1,1,1000\nread,0,1,1,1,1000\nread,0,2,1,1,1000\n\
            sent,0,0,,,\nnoted,0,1,3,0,0\nended,0,0,,,\n\
            line,0,0,1,1,1000\nline,0,1,1,1,1000\nline,0,2,1,1,1000\n",
        status: 0,
        told: b"session 0 whole sent 1 refused 0 noted 1\n\
            tree 0 firm - posts 1 root 1000 limit 5000\n\
            tree 1 account ACC posts 1 root 1000 limit 100000\n\
            tree 2 symbol XYZ posts 1 root 1000 limit 100000\n\
            tree 3 halt - posts 0 root 0 limit 0\n\
            status 0\n",
    },
    Row {
        name: "a trade of more than is left",
        limits: LARGE,
        sessions: &[Session {
            input: &[
                Piece::Whole(BUY),
                Piece::Whole(
                    b"35=8|49=VENUE|56=GATE|34=1|52=20240102-10:00:00|37=O1|11=a1|17=E1|150=F|\
                            39=1|55=XYZ|54=1|38=100|32=101|31=9.00|151=0|14=101|6=9.00|",
                ),
            ],
            venue: &[Piece::Whole(BUY_SENT)],
            client: &[Piece::Whole(
                b"35=8|49=GATE|56=C1|34=1|52=20240102-10:00:00|37=O1|11=a1|17=E1|150=F|39=1|\
                        55=XYZ|54=1|38=100|32=101|31=9.00|151=0|14=101|6=9.00|",
            )],
        }],
        journal: b"kind,session,a,b,c,d\n\
            post,0,0,1,1000,\npost,0,1,1,1000,\npost,0,2,1,1000,\n\
            read,0,3,0,0,0\nread,0,0,1,1,1000\nread,0,1,1,1,1000\nread,0,2,1,1,1000\n\
            sent,0,0,,,\nnoted,0,1,4,0,0\nended,0,0,,,\n\
            line,0,0,1,1,1000\nline,0,1,1,1,1000\nline,0,2,1,1,1000\n",
        status: 0,
        told: b"session 0 whole sent 1 refused 0 noted 1\n\
            tree 0 firm - posts 1 root 1000 limit 5000\n\
            tree 1 account ACC posts 1 root 1000 limit 100000\n\
            tree 2 symbol XYZ posts 1 root 1000 limit 100000\n\
            tree 3 halt - posts 0 root 0 limit 0\n\
            status 0\n",
    },
    Row {
        name: "a trade of an order that is canceled",
        limits: LARGE,
        sessions: &[Session {
            input: &[
                Piece::Whole(BUY),
                Piece::Whole(
                    b"35=8|49=VENUE|56=GATE|34=1|52=20240102-10:00:00|37=O1|11=a1|17=E1|150=4|\
                            39=4|55=XYZ|54=1|38=100|151=0|14=0|6=0|",
                ),
                Piece::Whole(
                    b"35=8|49=VENUE|56=GATE|34=2|52=20240102-10:00:00|37=O1|11=a1|17=E2|150=F|\
                            39=1|55=XYZ|54=1|38=100|32=1|31=9.00|151=0|14=1|6=9.00|",
                ),
            ],
            venue: &[Piece::Whole(BUY_SENT)],
            client: &[
                Piece::Whole(
                    b"35=8|49=GATE|56=C1|34=1|52=20240102-10:00:00|37=O1|11=a1|17=E1|150=4|39=4|\
                            55=XYZ|54=1|38=100|151=0|14=0|6=0|",
                ),
                Piece::Whole(
                    b"35=8|49=GATE|56=C1|34=2|52=20240102-10:00:00|37=O1|11=a1|17=E2|150=F|39=1|\
                            55=XYZ|54=1|38=100|32=1|31=9.00|151=0|14=1|6=9.00|",
                ),
            ],
        }],
        journal: b"kind,session,a,b,c,d\n\
            post,0,0,1,1000,\npost,0,1,1,1000,\npost,0,2,1,1000,\n\
            read,0,3,0,0,0\nread,0,0,1,1,1000\nread,0,1,1,1,1000\nread,0,2,1,1,1000\n\
            sent,0,0,,,\npost,0,0,2,0,\npost,0,1,2,0,\npost,0,2,2,0,\n\
            noted,0,2,4,0,0\nended,0,0,,,\n\
            line,0,0,1,1,1000\nline,0,0,2,2,0\nline,0,1,1,1,1000\nline,0,1,2,2,0\n\
            line,0,2,1,1,1000\nline,0,2,2,2,0\n",
        status: 0,
        told: b"session 0 whole sent 1 refused 0 noted 1\n\
            tree 0 firm - posts 2 root 0 limit 5000\n\
            tree 1 account ACC posts 2 root 0 limit 100000\n\
            tree 2 symbol XYZ posts 2 root 0 limit 100000\n\
            tree 3 halt - posts 0 root 0 limit 0\n\
            status 0\n",
    },
    Row {
        name: "a replace that nobody asked for is reported",
        limits: LARGE,
        sessions: &[Session {
            input: &[
                Piece::Whole(BUY),
                Piece::Whole(
                    b"35=8|49=VENUE|56=GATE|34=1|52=20240102-10:00:00|37=O1|11=a1|17=E1|150=5|\
                            39=5|55=XYZ|54=1|38=100|151=100|14=0|6=0|",
                ),
            ],
            venue: &[Piece::Whole(BUY_SENT)],
            client: &[Piece::Whole(
                b"35=8|49=GATE|56=C1|34=1|52=20240102-10:00:00|37=O1|11=a1|17=E1|150=5|39=5|\
                        55=XYZ|54=1|38=100|151=100|14=0|6=0|",
            )],
        }],
        journal: b"kind,session,a,b,c,d\n\
            post,0,0,1,1000,\npost,0,1,1,1000,\npost,0,2,1,1000,\n\
            read,0,3,0,0,0\nread,0,0,1,1,1000\nread,0,1,1,1,1000\nread,0,2,1,1,1000\n\
            sent,0,0,,,\nended,0,0,,,\nline,0,0,1,1,1000\nline,0,1,1,1,1000\nline,0,2,1,1,1000\n",
        status: 0,
        told: b"session 0 whole sent 1 refused 0 noted 0\n\
            tree 0 firm - posts 1 root 1000 limit 5000\n\
            tree 1 account ACC posts 1 root 1000 limit 100000\n\
            tree 2 symbol XYZ posts 1 root 1000 limit 100000\n\
            tree 3 halt - posts 0 root 0 limit 0\n\
            status 0\n",
    },
    Row {
        name: "an order with the id of a cancel",
        limits: LARGE,
        sessions: &[Session {
            input: &[
                Piece::Whole(BUY),
                Piece::Whole(b"35=F|49=C1|56=GATE|34=2|52=20240102-10:00:00|11=c1|41=a1|"),
                Piece::Whole(
                    b"35=D|49=C1|56=GATE|34=3|52=20240102-10:00:00|11=c1|1=ACC|55=XYZ|54=1|\
                            38=100|40=2|44=10.00|60=20240102-10:00:00|",
                ),
            ],
            venue: &[
                Piece::Whole(BUY_SENT),
                Piece::Whole(b"35=F|49=GATE|56=VENUE|34=2|52=20240102-10:00:00|11=c1|41=a1|"),
            ],
            client: &[Piece::Whole(
                b"35=8|49=GATE|56=C1|34=1|52=20240102-10:00:00|37=NONE|11=c1|17=G1|150=8|39=8|\
                        103=6|1=ACC|55=XYZ|54=1|38=100|151=0|14=0|6=0|58=DUPLICATE|",
            )],
        }],
        journal: b"kind,session,a,b,c,d\n\
            post,0,0,1,1000,\npost,0,1,1,1000,\npost,0,2,1,1000,\n\
            read,0,3,0,0,0\nread,0,0,1,1,1000\nread,0,1,1,1,1000\nread,0,2,1,1,1000\n\
            sent,0,0,,,\nsent,0,1,,,\nrefused,0,2,7,0,0\nended,0,0,,,\n\
            line,0,0,1,1,1000\nline,0,1,1,1,1000\nline,0,2,1,1,1000\n",
        status: 0,
        told: b"session 0 whole sent 2 refused 1 noted 0\n\
            tree 0 firm - posts 1 root 1000 limit 5000\n\
            tree 1 account ACC posts 1 root 1000 limit 100000\n\
            tree 2 symbol XYZ posts 1 root 1000 limit 100000\n\
            tree 3 halt - posts 0 root 0 limit 0\n\
            status 0\n",
    },
];

/// Requests on an order that has one pending, and trades where no post is left.
static SPENT: [Row; 2] = [
    Row {
        name: "a second cancel before the first is answered",
        limits: LARGE,
        sessions: &[Session {
            input: &[
                Piece::Whole(BUY),
                Piece::Whole(b"35=F|49=C1|56=GATE|34=2|52=20240102-10:00:00|11=c1|41=a1|"),
                Piece::Whole(b"35=F|49=C1|56=GATE|34=3|52=20240102-10:00:00|11=c2|41=a1|"),
            ],
            venue: &[
                Piece::Whole(BUY_SENT),
                Piece::Whole(b"35=F|49=GATE|56=VENUE|34=2|52=20240102-10:00:00|11=c1|41=a1|"),
            ],
            client: &[Piece::Whole(
                b"35=9|49=GATE|56=C1|34=1|52=20240102-10:00:00|37=NONE|11=c2|41=a1|39=8|434=1|\
                        102=3|58=PENDING|",
            )],
        }],
        journal: b"kind,session,a,b,c,d\n\
            post,0,0,1,1000,\npost,0,1,1,1000,\npost,0,2,1,1000,\n\
            read,0,3,0,0,0\nread,0,0,1,1,1000\nread,0,1,1,1,1000\nread,0,2,1,1,1000\n\
            sent,0,0,,,\nsent,0,1,,,\nrefused,0,2,13,0,0\nended,0,0,,,\n\
            line,0,0,1,1,1000\nline,0,1,1,1,1000\nline,0,2,1,1,1000\n",
        status: 0,
        told: b"session 0 whole sent 2 refused 1 noted 0\n\
            tree 0 firm - posts 1 root 1000 limit 5000\n\
            tree 1 account ACC posts 1 root 1000 limit 100000\n\
            tree 2 symbol XYZ posts 1 root 1000 limit 100000\n\
            tree 3 halt - posts 0 root 0 limit 0\n\
            status 0\n",
    },
    Row {
        name: "two trades with no post left",
        limits: b"firm,,5000,,,\naccount,ACC,100000,,,\nsymbol,XYZ,100000,1,12,100000\n\
            quota,,2,,,\n",
        sessions: &[Session {
            input: &[
                Piece::Whole(BUY),
                Piece::Whole(
                    b"35=8|49=VENUE|56=GATE|34=1|52=20240102-10:00:00|37=O1|11=a1|17=E1|150=F|\
                            39=1|55=XYZ|54=1|38=100|32=40|31=9.50|151=60|14=40|6=9.50|",
                ),
                Piece::Whole(
                    b"35=D|49=C1|56=GATE|34=2|52=20240102-10:00:00|11=a2|1=ACC|55=XYZ|54=1|\
                            38=100|40=2|44=10.00|60=20240102-10:00:00|",
                ),
                Piece::Whole(
                    b"35=8|49=VENUE|56=GATE|34=2|52=20240102-10:00:00|37=O1|11=a1|17=E2|150=F|\
                            39=1|55=XYZ|54=1|38=100|32=10|31=9.00|151=50|14=50|6=9.40|",
                ),
                Piece::Whole(
                    b"35=8|49=VENUE|56=GATE|34=3|52=20240102-10:00:00|37=O1|11=a1|17=E3|150=F|\
                            39=1|55=XYZ|54=1|38=100|32=10|31=9.00|151=40|14=60|6=9.33|",
                ),
            ],
            venue: &[Piece::Whole(BUY_SENT)],
            client: &[
                Piece::Whole(
                    b"35=8|49=GATE|56=C1|34=1|52=20240102-10:00:00|37=O1|11=a1|17=E1|150=F|39=1|\
                            55=XYZ|54=1|38=100|32=40|31=9.50|151=60|14=40|6=9.50|",
                ),
                Piece::Whole(
                    b"35=8|49=GATE|56=C1|34=2|52=20240102-10:00:00|37=NONE|11=a2|17=G2|150=8|\
                            39=8|103=0|1=ACC|55=XYZ|54=1|38=100|151=0|14=0|6=0|58=QUOTA|",
                ),
                Piece::Whole(
                    b"35=8|49=GATE|56=C1|34=3|52=20240102-10:00:00|37=O1|11=a1|17=E2|150=F|39=1|\
                            55=XYZ|54=1|38=100|32=10|31=9.00|151=50|14=50|6=9.40|",
                ),
                Piece::Whole(
                    b"35=8|49=GATE|56=C1|34=4|52=20240102-10:00:00|37=O1|11=a1|17=E3|150=F|39=1|\
                            55=XYZ|54=1|38=100|32=10|31=9.00|151=40|14=60|6=9.33|",
                ),
            ],
        }],
        journal: b"kind,session,a,b,c,d\n\
            post,0,0,1,1000,\npost,0,1,1,1000,\npost,0,2,1,1000,\n\
            read,0,3,0,0,0\nread,0,0,1,1,1000\nread,0,1,1,1,1000\nread,0,2,1,1,1000\n\
            sent,0,0,,,\npost,0,0,2,980,\npost,0,1,2,980,\npost,0,2,2,980,\n\
            refused,0,2,5,0,0\nnoted,0,3,6,0,0\nnoted,0,4,6,0,0\nended,0,0,,,\n\
            line,0,0,1,1,1000\nline,0,0,2,2,980\nline,0,1,1,1,1000\nline,0,1,2,2,980\n\
            line,0,2,1,1,1000\nline,0,2,2,2,980\n",
        status: 0,
        told: b"session 0 whole sent 1 refused 1 noted 2\n\
            tree 0 firm - posts 2 root 980 limit 5000\n\
            tree 1 account ACC posts 2 root 980 limit 100000\n\
            tree 2 symbol XYZ posts 2 root 980 limit 100000\n\
            tree 3 halt - posts 0 root 0 limit 0\n\
            status 0\n",
    },
];

/// An order, and its message once more without its last byte. Shorter fronts come to the same.
static CUT: Row = Row {
    name: "an order whole, and then cut",
    limits: LARGE,
    sessions: &[Session {
        input: &[Piece::Whole(BUY), Piece::Cut(BUY)],
        venue: &[Piece::Whole(BUY_SENT)],
        client: &[],
    }],
    journal: b"kind,session,a,b,c,d\n\
            post,0,0,1,1000,\npost,0,1,1,1000,\npost,0,2,1,1000,\n\
            read,0,3,0,0,0\nread,0,0,1,1,1000\nread,0,1,1,1,1000\nread,0,2,1,1,1000\n\
            sent,0,0,,,\nended,0,1,136,,\n\
            line,0,0,1,1,1000\nline,0,1,1,1,1000\nline,0,2,1,1,1000\n",
    status: 4,
    told: b"session 0 cut 136 sent 1 refused 0 noted 0\n\
            tree 0 firm - posts 1 root 1000 limit 5000\n\
            tree 1 account ACC posts 1 root 1000 limit 100000\n\
            tree 2 symbol XYZ posts 1 root 1000 limit 100000\n\
            tree 3 halt - posts 0 root 0 limit 0\n\
            status 4\n",
};

/// The screen for sizes is gone before the first order is judged, so what refuses it is the screen
/// behind it.
static DROPPED: Row = Row {
    name: "a screen that is dropped as the first order is taken up",
    limits: b"firm,,5000,,,\naccount,ACC,100000,,,\nsymbol,XYZ,100000,1,12,100000\noff,size,0,,,\n",
    sessions: &[Session {
        input: &[Piece::Whole(
            b"35=D|49=C1|56=GATE|34=1|52=20240102-10:00:00|11=a1|1=ACC|55=XYZ|54=1|38=100001|\
                    40=2|44=10.00|60=20240102-10:00:00|",
        )],
        venue: &[],
        client: &[Piece::Whole(
            b"35=8|49=GATE|56=C1|34=1|52=20240102-10:00:00|37=NONE|11=a1|17=G1|150=8|39=8|103=99|\
                    1=ACC|55=XYZ|54=1|38=100001|151=0|14=0|6=0|58=SCREEN 65535|",
        )],
    }],
    journal: b"kind,session,a,b,c,d\n\
            refused,0,0,10,65535,0\nended,0,0,,,\n",
    status: 0,
    told: b"session 0 whole sent 0 refused 1 noted 0\n\
            tree 0 firm - posts 0 root 0 limit 5000\n\
            tree 1 account ACC posts 0 root 0 limit 100000\n\
            tree 2 symbol XYZ posts 0 root 0 limit 100000\n\
            tree 3 halt - posts 0 root 0 limit 0\n\
            status 0\n",
};

/// Runs these rows with no screens, and compares.
fn compare_all<R: Threads + Sync + Abort>(rt: &R, alloc: Global, rows: &[Row]) -> Result<(), Fail> {
    for row in rows {
        let mut stage = stage_of(alloc, row, 65_536)?;
        let status = gate(
            rt,
            alloc,
            &stage.words,
            &mut stage.folder,
            &mut stage.out,
            no_screens(alloc)?,
            &OpenGate,
        );
        compare(rt, alloc, row, &stage, status)?;
    }
    Ok(())
}

#[test]
fn broken_frames_end_a_session_and_reports_that_do_not_fit_raise_nothing(
    rt: HostRuntime,
) -> Result<(), Fail> {
    compare_all(&rt, rt.alloc(), &HOSTILE)
}

#[test]
fn a_pending_request_and_a_spent_quota_stand(rt: HostRuntime) -> Result<(), Fail> {
    compare_all(&rt, rt.alloc(), &SPENT)
}

#[test]
fn an_order_cut_after_any_of_its_bytes_is_cut(rt: HostRuntime) -> Result<(), Fail> {
    let alloc = rt.alloc();
    let whole = bytes_of(alloc, &[Piece::Whole(BUY)])?;
    for front in 1..whole.len() {
        let mut stage = stage_of(alloc, &CUT, 65_536)?;
        let mut input = whole.to_vec(alloc)?;
        input.extend_from_slice(&whole[..front])?;
        stage.folder.put("session0", input)?;
        let status = gate(
            &rt,
            alloc,
            &stage.words,
            &mut stage.folder,
            &mut stage.out,
            no_screens(alloc)?,
            &OpenGate,
        );
        stage
            .folder
            .put("session0", bytes_of(alloc, CUT.sessions[0].input)?)?;
        compare(&rt, alloc, &CUT, &stage, status)?;
    }
    Ok(())
}

#[test]
fn a_screen_is_dropped_before_the_order_is_judged(rt: HostRuntime) -> Result<(), Fail> {
    let alloc = rt.alloc();
    let mut screens = no_screens(alloc)?;
    screens[0].push(Box::new(alloc, SizeScreen::new(alloc))?)?;
    screens[0].push(Box::new(alloc, Refusing)?)?;
    let mut stage = stage_of(alloc, &DROPPED, 65_536)?;
    let status = gate(
        &rt,
        alloc,
        &stage.words,
        &mut stage.folder,
        &mut stage.out,
        screens,
        &OpenGate,
    );
    compare(&rt, alloc, &DROPPED, &stage, status)
}
