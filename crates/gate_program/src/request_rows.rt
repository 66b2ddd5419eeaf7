//! Runs of one session: cancels (F), replaces (G) and reports that don't fit the book, and each
//! kind of frame.
use crate::rows::{BUY, BUY_SENT, LARGE, Piece, Row, SMALL, Session};

/// Requests that are refused for each cause once, and reports of no order.
pub(crate) static REQUESTS: [Row; 4] = [
    Row {
        name: "a replace of no order, and a cancel",
        limits: LARGE,
        sessions: &[Session {
            input: &[
                Piece::Whole(
                    b"35=G|49=C1|56=GATE|34=1|52=20240102-10:00:00|11=b1|41=zz|55=XYZ|\
                            54=1|38=150|40=2|44=10.00|60=20240102-10:00:00|",
                ),
                Piece::Whole(
                    b"35=F|49=C1|56=GATE|34=2|52=20240102-10:00:00|11=c1|41=zz|55=XYZ|\
                            54=1|60=20240102-10:00:00|",
                ),
            ],
            venue: &[],
            client: &[
                Piece::Whole(
                    b"35=9|49=GATE|56=C1|34=1|52=20240102-10:00:00|37=NONE|11=b1|41=zz|\
                            39=8|434=2|102=1|58=UNKNOWN|",
                ),
                Piece::Whole(
                    b"35=9|49=GATE|56=C1|34=2|52=20240102-10:00:00|37=NONE|11=c1|41=zz|\
                            39=8|434=1|102=1|58=UNKNOWN|",
                ),
            ],
        }],
        journal: b"kind,session,a,b,c,d\n\
            refused,0,0,11,0,0\nrefused,0,1,11,0,0\nended,0,0,,,\n",
        status: 0,
        told: b"session 0 whole sent 0 refused 2 noted 0\n\
            tree 0 firm - posts 0 root 0 limit 5000\n\
            tree 1 account ACC posts 0 root 0 limit 100000\n\
            tree 2 symbol XYZ posts 0 root 0 limit 100000\n\
            tree 3 halt - posts 0 root 0 limit 0\n\
            status 0\n",
    },
    Row {
        name: "cancels of an order with a cancel pending, and of one that is closed",
        limits: LARGE,
        sessions: &[Session {
            input: &[
                Piece::Whole(BUY),
                Piece::Whole(
                    b"35=F|49=C1|56=GATE|34=2|52=20240102-10:00:00|11=c1|41=a1|55=XYZ|\
                            54=1|60=20240102-10:00:00|",
                ),
                Piece::Whole(
                    b"35=F|49=C1|56=GATE|34=3|52=20240102-10:00:00|11=c2|41=a1|55=XYZ|\
                            54=1|60=20240102-10:00:00|",
                ),
                Piece::Whole(
                    b"35=8|49=VENUE|56=GATE|34=1|52=20240102-10:00:00|37=O1|11=c1|41=a1|\
                            17=E1|150=4|39=4|55=XYZ|54=1|38=100|151=0|14=0|6=0|",
                ),
                Piece::Whole(
                    b"35=F|49=C1|56=GATE|34=4|52=20240102-10:00:00|11=c3|41=a1|55=XYZ|\
                            54=1|60=20240102-10:00:00|",
                ),
                Piece::Whole(
                    b"35=F|49=C1|56=GATE|34=5|52=20240102-10:00:00|11=a1|41=zz|55=XYZ|\
                            54=1|60=20240102-10:00:00|",
                ),
            ],
            venue: &[
                Piece::Whole(BUY_SENT),
                Piece::Whole(
                    b"35=F|49=GATE|56=VENUE|34=2|52=20240102-10:00:00|11=c1|41=a1|55=XYZ|\
                            54=1|60=20240102-10:00:00|",
                ),
            ],
            client: &[
                Piece::Whole(
                    b"35=9|49=GATE|56=C1|34=1|52=20240102-10:00:00|37=NONE|11=c2|41=a1|\
                            39=8|434=1|102=3|58=PENDING|",
                ),
                Piece::Whole(
                    b"35=8|49=GATE|56=C1|34=2|52=20240102-10:00:00|37=O1|11=c1|41=a1|\
                            17=E1|150=4|39=4|55=XYZ|54=1|38=100|151=0|14=0|6=0|",
                ),
                Piece::Whole(
                    b"35=9|49=GATE|56=C1|34=3|52=20240102-10:00:00|37=NONE|11=c3|41=a1|\
                            39=8|434=1|102=0|58=CLOSED|",
                ),
                Piece::Whole(
                    b"35=9|49=GATE|56=C1|34=4|52=20240102-10:00:00|37=NONE|11=a1|41=zz|\
                            39=8|434=1|102=6|58=DUPLICATE|",
                ),
            ],
        }],
        journal: b"kind,session,a,b,c,d\n\
            post,0,0,1,1000,\npost,0,1,1,1000,\npost,0,2,1,1000,\n\
            read,0,3,0,0,0\nread,0,0,1,1,1000\nread,0,1,1,1,1000\nread,0,2,1,1,1000\n\
            sent,0,0,,,\nsent,0,1,,,\nrefused,0,2,13,0,0\n\
            post,0,0,2,0,\npost,0,1,2,0,\npost,0,2,2,0,\n\
            refused,0,4,12,0,0\nrefused,0,5,7,0,0\nended,0,0,,,\n\
            line,0,0,1,1,1000\nline,0,0,2,2,0\n\
            line,0,1,1,1,1000\nline,0,1,2,2,0\n\
            line,0,2,1,1,1000\nline,0,2,2,2,0\n",
        status: 0,
        told: b"session 0 whole sent 2 refused 3 noted 0\n\
            tree 0 firm - posts 2 root 0 limit 5000\n\
            tree 1 account ACC posts 2 root 0 limit 100000\n\
            tree 2 symbol XYZ posts 2 root 0 limit 100000\n\
            tree 3 halt - posts 0 root 0 limit 0\n\
            status 0\n",
    },
    Row {
        name: "replaces that don't fit their order",
        limits: LARGE,
        sessions: &[Session {
            input: &[
                Piece::Whole(BUY),
                Piece::Whole(
                    b"35=8|49=VENUE|56=GATE|34=1|52=20240102-10:00:00|37=O1|11=a1|17=E1|\
                            150=F|39=1|55=XYZ|54=1|38=100|32=40|31=10.00|151=60|14=40|6=10|",
                ),
                Piece::Whole(
                    b"35=G|49=C1|56=GATE|34=2|52=20240102-10:00:00|11=b1|41=a1|55=XYZ|\
                            54=2|38=150|40=2|44=10.00|60=20240102-10:00:00|",
                ),
                Piece::Whole(
                    b"35=G|49=C1|56=GATE|34=3|52=20240102-10:00:00|11=b2|41=a1|55=XYZ|\
                            54=1|38=40|40=2|44=10.00|60=20240102-10:00:00|",
                ),
                Piece::Whole(
                    b"35=G|49=C1|56=GATE|34=4|52=20240102-10:00:00|11=b3|41=a1|55=XYZ|\
                            54=1|38=1000000000|40=2|44=999999.9999|60=20240102-10:00:00|",
                ),
                Piece::Whole(
                    b"35=G|49=C1|56=GATE|34=5|52=20240102-10:00:00|11=b4|41=a1|55=XYZ|\
                            54=1|38=600|40=2|44=10.00|60=20240102-10:00:00|",
                ),
                Piece::Whole(
                    b"35=G|49=C1|56=GATE|34=6|52=20240102-10:00:00|11=a1|41=a1|55=XYZ|\
                            54=1|38=600|40=2|44=10.00|60=20240102-10:00:00|",
                ),
            ],
            venue: &[Piece::Whole(BUY_SENT)],
            client: &[
                Piece::Whole(
                    b"35=8|49=GATE|56=C1|34=1|52=20240102-10:00:00|37=O1|11=a1|17=E1|\
                            150=F|39=1|55=XYZ|54=1|38=100|32=40|31=10.00|151=60|14=40|6=10|",
                ),
                Piece::Whole(
                    b"35=9|49=GATE|56=C1|34=2|52=20240102-10:00:00|37=NONE|11=b1|41=a1|\
                            39=8|434=2|102=2|58=MISMATCH|",
                ),
                Piece::Whole(
                    b"35=9|49=GATE|56=C1|34=3|52=20240102-10:00:00|37=NONE|11=b2|41=a1|\
                            39=8|434=2|102=2|58=QUANTITY|",
                ),
                Piece::Whole(
                    b"35=9|49=GATE|56=C1|34=4|52=20240102-10:00:00|37=NONE|11=b3|41=a1|\
                            39=8|434=2|102=2|58=CAP|",
                ),
                Piece::Whole(
                    b"35=9|49=GATE|56=C1|34=5|52=20240102-10:00:00|37=NONE|11=b4|41=a1|\
                            39=8|434=2|102=2|58=FIRM|",
                ),
                Piece::Whole(
                    b"35=9|49=GATE|56=C1|34=6|52=20240102-10:00:00|37=NONE|11=a1|41=a1|\
                            39=8|434=2|102=6|58=DUPLICATE|",
                ),
            ],
        }],
        journal: b"kind,session,a,b,c,d\n\
            post,0,0,1,1000,\npost,0,1,1,1000,\npost,0,2,1,1000,\n\
            read,0,3,0,0,0\nread,0,0,1,1,1000\nread,0,1,1,1,1000\nread,0,2,1,1,1000\n\
            sent,0,0,,,\nrefused,0,2,14,0,0\nrefused,0,3,15,0,0\nrefused,0,4,6,0,0\n\
            post,0,0,2,6000,\npost,0,1,2,6000,\npost,0,2,2,6000,\n\
            read,0,3,0,0,0\nread,0,0,2,2,6000\nread,0,1,2,2,6000\nread,0,2,2,2,6000\n\
            post,0,0,3,1000,\npost,0,1,3,1000,\npost,0,2,3,1000,\n\
            refused,0,5,1,0,0\nrefused,0,6,7,0,0\nended,0,0,,,\n\
            line,0,0,1,1,1000\nline,0,0,2,2,6000\nline,0,0,3,3,1000\n\
            line,0,1,1,1,1000\nline,0,1,2,2,6000\nline,0,1,3,3,1000\n\
            line,0,2,1,1,1000\nline,0,2,2,2,6000\nline,0,2,3,3,1000\n",
        status: 0,
        told: b"session 0 whole sent 1 refused 5 noted 0\n\
            tree 0 firm - posts 3 root 1000 limit 5000\n\
            tree 1 account ACC posts 3 root 1000 limit 100000\n\
            tree 2 symbol XYZ posts 3 root 1000 limit 100000\n\
            tree 3 halt - posts 0 root 0 limit 0\n\
            status 0\n",
    },
    Row {
        name: "reports of no order before any client is known",
        limits: LARGE,
        sessions: &[Session {
            input: &[
                Piece::Whole(
                    b"35=8|49=VENUE|56=GATE|34=1|52=20240102-10:00:00|37=O1|11=zz|17=E1|\
                            150=4|39=4|",
                ),
                Piece::Whole(
                    b"35=8|49=VENUE|56=GATE|34=2|52=20240102-10:00:00|37=O1|17=E2|150=0|\
                            39=0|",
                ),
                Piece::Whole(
                    b"35=9|49=VENUE|56=GATE|34=3|52=20240102-10:00:00|37=O1|11=zz|41=a1|\
                            39=0|434=1|102=1|",
                ),
            ],
            venue: &[],
            client: &[
                Piece::Whole(
                    b"35=8|49=GATE|56=CLIENT|34=1|52=20240102-10:00:00|37=O1|11=zz|17=E1|\
                            150=4|39=4|",
                ),
                Piece::Whole(
                    b"35=8|49=GATE|56=CLIENT|34=2|52=20240102-10:00:00|37=O1|17=E2|150=0|\
                            39=0|",
                ),
                Piece::Whole(
                    b"35=9|49=GATE|56=CLIENT|34=3|52=20240102-10:00:00|37=O1|11=zz|41=a1|\
                            39=0|434=1|102=1|",
                ),
            ],
        }],
        journal: b"kind,session,a,b,c,d\n\
            noted,0,0,3,0,0\nnoted,0,1,3,0,0\nnoted,0,2,3,0,0\nended,0,0,,,\n",
        status: 0,
        told: b"session 0 whole sent 0 refused 0 noted 3\n\
            tree 0 firm - posts 0 root 0 limit 5000\n\
            tree 1 account ACC posts 0 root 0 limit 100000\n\
            tree 2 symbol XYZ posts 0 root 0 limit 100000\n\
            tree 3 halt - posts 0 root 0 limit 0\n\
            status 0\n",
    },
];

/// Frames that are sound, garbled, cut, too long and none; Rejects.
pub(crate) static FRAMES: [Row; 6] = [
    Row {
        name: "a garbled order between two",
        limits: LARGE,
        sessions: &[Session {
            input: &[
                Piece::Whole(
                    b"35=D|49=C1|56=GATE|34=1|52=20240102-10:00:00|11=a1|1=ACC|55=XYZ|\
                            54=1|38=10|40=2|44=10.00|60=20240102-10:00:00|",
                ),
                Piece::Garbled(
                    b"35=D|49=C1|56=GATE|34=2|52=20240102-10:00:00|11=a2|1=ACC|55=XYZ|\
                            54=1|38=10|40=2|44=10.00|60=20240102-10:00:00|",
                ),
                Piece::Whole(
                    b"35=D|49=C1|56=GATE|34=3|52=20240102-10:00:00|11=a3|1=ACC|55=XYZ|\
                            54=1|38=10|40=2|44=11.00|60=20240102-10:00:00|",
                ),
            ],
            venue: &[
                Piece::Whole(
                    b"35=D|49=GATE|56=VENUE|34=1|52=20240102-10:00:00|11=a1|1=ACC|55=XYZ|\
                            54=1|38=10|40=2|44=10.00|60=20240102-10:00:00|",
                ),
                Piece::Whole(
                    b"35=D|49=GATE|56=VENUE|34=2|52=20240102-10:00:00|11=a3|1=ACC|55=XYZ|\
                            54=1|38=10|40=2|44=11.00|60=20240102-10:00:00|",
                ),
            ],
            client: &[],
        }],
        journal: b"kind,session,a,b,c,d\n\
            post,0,0,1,100,\npost,0,1,1,100,\npost,0,2,1,100,\n\
            read,0,3,0,0,0\nread,0,0,1,1,100\nread,0,1,1,1,100\nread,0,2,1,1,100\n\
            sent,0,0,,,\nnoted,0,1,1,0,0\n\
            post,0,0,2,210,\npost,0,1,2,210,\npost,0,2,2,210,\n\
            read,0,3,0,0,0\nread,0,0,2,2,210\nread,0,1,2,2,210\nread,0,2,2,2,210\n\
            sent,0,2,,,\nended,0,0,,,\n\
            line,0,0,1,1,100\nline,0,0,2,2,210\n\
            line,0,1,1,1,100\nline,0,1,2,2,210\n\
            line,0,2,1,1,100\nline,0,2,2,2,210\n",
        status: 0,
        told: b"session 0 whole sent 2 refused 0 noted 1\n\
            tree 0 firm - posts 2 root 210 limit 5000\n\
            tree 1 account ACC posts 2 root 210 limit 100000\n\
            tree 2 symbol XYZ posts 2 root 210 limit 100000\n\
            tree 3 halt - posts 0 root 0 limit 0\n\
            status 0\n",
    },
    Row {
        name: "the second order is cut",
        limits: SMALL,
        sessions: &[Session {
            input: &[Piece::Whole(BUY), Piece::Cut(BUY)],
            venue: &[Piece::Whole(BUY_SENT)],
            client: &[],
        }],
        journal: b"kind,session,a,b,c,d\n\
            post,0,0,1,1000,\npost,0,1,1,1000,\npost,0,2,1,1000,\n\
            read,0,3,0,0,0\nread,0,0,1,1,1000\nread,0,1,1,1,1000\nread,0,2,1,1,1000\n\
            sent,0,0,,,\nended,0,1,136,,\nline,0,0,1,1,1000\n\
            line,0,1,1,1,1000\nline,0,2,1,1,1000\n",
        status: 4,
        told: b"session 0 cut 136 sent 1 refused 0 noted 0\n\
            tree 0 firm - posts 1 root 1000 limit 1000\n\
            tree 1 account ACC posts 1 root 1000 limit 100000\n\
            tree 2 symbol XYZ posts 1 root 1000 limit 100000\n\
            tree 3 halt - posts 0 root 0 limit 0\n\
            status 4\n",
    },
    Row {
        name: "no frame stands behind the order",
        limits: SMALL,
        sessions: &[Session {
            input: &[Piece::Whole(BUY), Piece::Raw(b"8=FIX.4.2|9=5|")],
            venue: &[Piece::Whole(BUY_SENT)],
            client: &[],
        }],
        journal: b"kind,session,a,b,c,d\n\
            post,0,0,1,1000,\npost,0,1,1,1000,\npost,0,2,1,1000,\n\
            read,0,3,0,0,0\nread,0,0,1,1,1000\nread,0,1,1,1,1000\nread,0,2,1,1,1000\n\
            sent,0,0,,,\nended,0,2,136,,\nline,0,0,1,1,1000\n\
            line,0,1,1,1,1000\nline,0,2,1,1,1000\n",
        status: 4,
        told: b"session 0 broken 136 sent 1 refused 0 noted 0\n\
            tree 0 firm - posts 1 root 1000 limit 1000\n\
            tree 1 account ACC posts 1 root 1000 limit 100000\n\
            tree 2 symbol XYZ posts 1 root 1000 limit 100000\n\
            tree 3 halt - posts 0 root 0 limit 0\n\
            status 4\n",
    },
    Row {
        name: "the longest body",
        limits: SMALL,
        sessions: &[Session {
            input: &[Piece::Filled(BUY, 8192)],
            venue: &[Piece::Filled(BUY_SENT, 8195)],
            client: &[],
        }],
        journal: b"kind,session,a,b,c,d\n\
            post,0,0,1,1000,\npost,0,1,1,1000,\npost,0,2,1,1000,\n\
            read,0,3,0,0,0\nread,0,0,1,1,1000\nread,0,1,1,1,1000\nread,0,2,1,1,1000\n\
            sent,0,0,,,\nended,0,0,,,\nline,0,0,1,1,1000\n\
            line,0,1,1,1,1000\nline,0,2,1,1,1000\n",
        status: 0,
        told: b"session 0 whole sent 1 refused 0 noted 0\n\
            tree 0 firm - posts 1 root 1000 limit 1000\n\
            tree 1 account ACC posts 1 root 1000 limit 100000\n\
            tree 2 symbol XYZ posts 1 root 1000 limit 100000\n\
            tree 3 halt - posts 0 root 0 limit 0\n\
            status 0\n",
    },
    Row {
        name: "a body of one byte more",
        limits: SMALL,
        sessions: &[Session {
            input: &[Piece::Filled(BUY, 8193)],
            venue: &[],
            client: &[],
        }],
        journal: b"kind,session,a,b,c,d\nended,0,3,0,,\n",
        status: 4,
        told: b"session 0 long 0 sent 0 refused 0 noted 0\n\
            tree 0 firm - posts 0 root 0 limit 1000\n\
            tree 1 account ACC posts 0 root 0 limit 100000\n\
            tree 2 symbol XYZ posts 0 root 0 limit 100000\n\
            tree 3 halt - posts 0 root 0 limit 0\n\
            status 4\n",
    },
    Row {
        name: "a client's ordinary file, a line for each message",
        limits: LARGE,
        sessions: &[Session {
            input: &[
                Piece::Whole(b"35=A|49=C1|56=GATE|34=1|52=20240102-10:00:00|98=0|108=30|"),
                Piece::Raw(b"\n"),
                Piece::Whole(b"35=0|49=C1|56=GATE|34=2|52=20240102-10:00:00|"),
                Piece::Raw(b"\n"),
                Piece::Whole(
                    b"35=D|49=C1|56=GATE|34=2|52=20240102-10:00:00|50=T7|11=a1|453=1|\
                            448=DESK1|447=D|452=11|1=ACC|55=XYZ|54=1|60=20240102-10:00:00|\
                            38=100|40=2|44=9.5|59=0|",
                ),
                Piece::Raw(b"\n"),
                Piece::Whole(
                    b"35=8|49=VENUE|56=GATE|34=1|52=20240102-10:00:00|37=O1|11=a1|17=E1|\
                            150=0|39=0|55=XYZ|54=1|38=100|151=100|14=0|6=0|",
                ),
                Piece::Raw(b"\n"),
                Piece::Whole(
                    b"35=8|49=VENUE|56=GATE|34=2|52=20240102-10:00:00|37=O1|11=a1|17=E2|\
                            150=F|39=2|55=XYZ|54=1|38=100|32=100|31=9.5|151=0|14=100|6=9.5|",
                ),
                Piece::Raw(b"\n"),
            ],
            venue: &[Piece::Whole(
                b"35=D|49=GATE|56=VENUE|34=1|52=20240102-10:00:00|50=T7|11=a1|453=1|\
                            448=DESK1|447=D|452=11|1=ACC|55=XYZ|54=1|60=20240102-10:00:00|\
                            38=100|40=2|44=9.5|59=0|",
            )],
            client: &[
                Piece::Whole(
                    b"35=8|49=GATE|56=C1|34=1|52=20240102-10:00:00|37=O1|11=a1|17=E1|\
                            150=0|39=0|55=XYZ|54=1|38=100|151=100|14=0|6=0|",
                ),
                Piece::Whole(
                    b"35=8|49=GATE|56=C1|34=2|52=20240102-10:00:00|37=O1|11=a1|17=E2|\
                            150=F|39=2|55=XYZ|54=1|38=100|32=100|31=9.5|151=0|14=100|6=9.5|",
                ),
            ],
        }],
        journal: b"kind,session,a,b,c,d\n\
            post,0,0,1,950,\npost,0,1,1,950,\npost,0,2,1,950,\n\
            read,0,3,0,0,0\nread,0,0,1,1,950\nread,0,1,1,1,950\nread,0,2,1,1,950\n\
            sent,0,2,,,\nended,0,0,,,\nline,0,0,1,1,950\n\
            line,0,1,1,1,950\nline,0,2,1,1,950\n",
        status: 0,
        told: b"session 0 whole sent 1 refused 0 noted 0\n\
            tree 0 firm - posts 1 root 950 limit 5000\n\
            tree 1 account ACC posts 1 root 950 limit 100000\n\
            tree 2 symbol XYZ posts 1 root 950 limit 100000\n\
            tree 3 halt - posts 0 root 0 limit 0\n\
            status 0\n",
    },
];

/// Messages with a field fault, and one of another type.
pub(crate) static FAULTS: [Row; 3] = [
    Row {
        name: "orders with a field fault",
        limits: LARGE,
        sessions: &[Session {
            input: &[
                Piece::Whole(
                    b"35=D|49=C1|56=GATE|34=7|52=20240102-10:00:00|11=a1|1=ACC|54=1|\
                            38=100|40=2|44=10.00|60=20240102-10:00:00|",
                ),
                Piece::Whole(
                    b"35=D|49=C1|56=GATE|34=7|52=20240102-10:00:00|11=a1|1=ACC|55=XYZ|\
                            54=1|38=100|40=3|44=10.00|60=20240102-10:00:00|",
                ),
            ],
            venue: &[],
            client: &[
                Piece::Whole(
                    b"35=3|49=GATE|56=C1|34=1|52=20240102-10:00:00|45=7|371=55|372=D|\
                            373=1|",
                ),
                Piece::Whole(
                    b"35=3|49=GATE|56=C1|34=2|52=20240102-10:00:00|45=7|371=40|372=D|\
                            373=5|",
                ),
            ],
        }],
        journal: b"kind,session,a,b,c,d\n\
            refused,0,0,16,55,1\nrefused,0,1,16,40,5\nended,0,0,,,\n",
        status: 0,
        told: b"session 0 whole sent 0 refused 2 noted 0\n\
            tree 0 firm - posts 0 root 0 limit 5000\n\
            tree 1 account ACC posts 0 root 0 limit 100000\n\
            tree 2 symbol XYZ posts 0 root 0 limit 100000\n\
            tree 3 halt - posts 0 root 0 limit 0\n\
            status 0\n",
    },
    Row {
        name: "requests with a field fault, of no client and then of one",
        limits: LARGE,
        sessions: &[Session {
            input: &[
                Piece::Whole(b"35=F|56=GATE|34=x|52=|11=b1|41=a1|"),
                Piece::Whole(b"35=G|49=C2|56=GATE|34=8|52=20240102-10:00:00|11=b2|41=a1|"),
                Piece::Whole(b"35=F|56=GATE|34=x|52=|11=b1|41=a1|"),
            ],
            venue: &[],
            client: &[
                Piece::Whole(
                    b"35=3|49=GATE|56=CLIENT|34=1|52=19700101-00:00:00|45=0|371=34|372=F|\
                            373=6|",
                ),
                Piece::Whole(
                    b"35=3|49=GATE|56=C2|34=2|52=20240102-10:00:00|45=8|371=55|372=G|\
                            373=1|",
                ),
                Piece::Whole(
                    b"35=3|49=GATE|56=C2|34=3|52=19700101-00:00:00|45=0|371=34|372=F|\
                            373=6|",
                ),
            ],
        }],
        journal: b"kind,session,a,b,c,d\n\
            refused,0,0,16,34,6\nrefused,0,1,16,55,1\nrefused,0,2,16,34,6\nended,0,0,,,\n",
        status: 0,
        told: b"session 0 whole sent 0 refused 3 noted 0\n\
            tree 0 firm - posts 0 root 0 limit 5000\n\
            tree 1 account ACC posts 0 root 0 limit 100000\n\
            tree 2 symbol XYZ posts 0 root 0 limit 100000\n\
            tree 3 halt - posts 0 root 0 limit 0\n\
            status 0\n",
    },
    Row {
        name: "reports with a field fault, and a message of another type",
        limits: LARGE,
        sessions: &[Session {
            input: &[
                Piece::Whole(
                    b"35=8|49=VENUE|56=GATE|34=3|52=20240102-10:00:00|37=O1|11=a1|17=E1|\
                            150=F|31=10|",
                ),
                Piece::Whole(
                    b"35=D|49=C1|56=GATE|34=2|52=20240102-10:00:00|11=a1|1=ACC|55=XYZ|\
                            54=1|38=10|40=2|44=10.00|60=20240102-10:00:00|",
                ),
                Piece::Whole(b"35=j|49=C1|56=GATE|34=3|52=20240102-10:00:00|45=2|"),
                Piece::Whole(b"35=9|49=VENUE|56=GATE|34=4|52=20240102-10:00:00|"),
            ],
            venue: &[
                Piece::Whole(
                    b"35=3|49=GATE|56=VENUE|34=1|52=20240102-10:00:00|45=3|371=32|372=8|\
                            373=1|",
                ),
                Piece::Whole(
                    b"35=D|49=GATE|56=VENUE|34=2|52=20240102-10:00:00|11=a1|1=ACC|55=XYZ|\
                            54=1|38=10|40=2|44=10.00|60=20240102-10:00:00|",
                ),
                Piece::Whole(
                    b"35=3|49=GATE|56=VENUE|34=3|52=20240102-10:00:00|45=4|371=11|372=9|\
                            373=1|",
                ),
            ],
            client: &[],
        }],
        journal: b"kind,session,a,b,c,d\nnoted,0,0,5,32,1\n\
            post,0,0,1,100,\npost,0,1,1,100,\npost,0,2,1,100,\n\
            read,0,3,0,0,0\nread,0,0,1,1,100\nread,0,1,1,1,100\nread,0,2,1,1,100\n\
            sent,0,1,,,\nnoted,0,2,2,0,0\nnoted,0,3,5,11,1\nended,0,0,,,\n\
            line,0,0,1,1,100\nline,0,1,1,1,100\nline,0,2,1,1,100\n",
        status: 0,
        told: b"session 0 whole sent 1 refused 0 noted 3\n\
            tree 0 firm - posts 1 root 100 limit 5000\n\
            tree 1 account ACC posts 1 root 100 limit 100000\n\
            tree 2 symbol XYZ posts 1 root 100 limit 100000\n\
            tree 3 halt - posts 0 root 0 limit 0\n\
            status 0\n",
    },
];
