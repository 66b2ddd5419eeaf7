//! Runs of one session: orders (D), and what their limits and the book make of them.
use crate::rows::{BUY, BUY_SENT, LARGE, Piece, Row, SMALL, Session};

/// Orders that are sent, changed by reports, or refused for the firm's limit or as duplicates.
pub(crate) static ORDERS: [Row; 8] = [
    Row {
        name: "nothing",
        limits: SMALL,
        sessions: &[Session {
            input: &[],
            venue: &[],
            client: &[],
        }],
        journal: b"kind,session,a,b,c,d\nended,0,0,,,\n",
        status: 0,
        told: b"session 0 whole sent 0 refused 0 noted 0\n\
            tree 0 firm - posts 0 root 0 limit 1000\n\
            tree 1 account ACC posts 0 root 0 limit 100000\n\
            tree 2 symbol XYZ posts 0 root 0 limit 100000\n\
            tree 3 halt - posts 0 root 0 limit 0\n\
            status 0\n",
    },
    Row {
        name: "an order at the firm's limit, in whole bytes",
        limits: SMALL,
        sessions: &[Session {
            input: &[Piece::Raw(
                b"8=FIX.4.4|9=113|35=D|49=C1|56=GATE|34=1|52=20240102-10:00:00|11=a1|\
                            1=ACC|55=XYZ|54=1|38=100|40=2|44=10.0000|60=20240102-10:00:00|\
                            10=175|",
            )],
            venue: &[Piece::Raw(
                b"8=FIX.4.4|9=116|35=D|49=GATE|56=VENUE|34=1|52=20240102-10:00:00|\
                            11=a1|1=ACC|55=XYZ|54=1|38=100|40=2|44=10.0000|60=20240102-10:00:00|\
                            10=193|",
            )],
            client: &[],
        }],
        journal: b"kind,session,a,b,c,d\n\
            post,0,0,1,1000,\npost,0,1,1,1000,\npost,0,2,1,1000,\n\
            read,0,3,0,0,0\nread,0,0,1,1,1000\nread,0,1,1,1,1000\nread,0,2,1,1,1000\n\
            sent,0,0,,,\nended,0,0,,,\nline,0,0,1,1,1000\n\
            line,0,1,1,1,1000\nline,0,2,1,1,1000\n",
        status: 0,
        told: b"session 0 whole sent 1 refused 0 noted 0\n\
            tree 0 firm - posts 1 root 1000 limit 1000\n\
            tree 1 account ACC posts 1 root 1000 limit 100000\n\
            tree 2 symbol XYZ posts 1 root 1000 limit 100000\n\
            tree 3 halt - posts 0 root 0 limit 0\n\
            status 0\n",
    },
    Row {
        name: "an order above it by rounding up, in whole bytes",
        limits: SMALL,
        sessions: &[Session {
            input: &[Piece::Raw(
                b"8=FIX.4.4|9=113|35=D|49=C1|56=GATE|34=1|52=20240102-10:00:00|11=a1|\
                            1=ACC|55=XYZ|54=1|38=100|40=2|44=10.0001|60=20240102-10:00:00|\
                            10=176|",
            )],
            venue: &[],
            client: &[Piece::Raw(
                b"8=FIX.4.4|9=130|35=8|49=GATE|56=C1|34=1|52=20240102-10:00:00|\
                            37=NONE|11=a1|17=G1|150=8|39=8|103=3|1=ACC|55=XYZ|54=1|38=100|151=0|\
                            14=0|6=0|58=FIRM|10=038|",
            )],
        }],
        journal: b"kind,session,a,b,c,d\n\
            post,0,0,1,1001,\npost,0,1,1,1001,\npost,0,2,1,1001,\n\
            read,0,3,0,0,0\nread,0,0,1,1,1001\nread,0,1,1,1,1001\nread,0,2,1,1,1001\n\
            post,0,0,2,0,\npost,0,1,2,0,\npost,0,2,2,0,\n\
            refused,0,0,1,0,0\nended,0,0,,,\n\
            line,0,0,1,1,1001\nline,0,0,2,2,0\n\
            line,0,1,1,1,1001\nline,0,1,2,2,0\n\
            line,0,2,1,1,1001\nline,0,2,2,2,0\n",
        status: 0,
        told: b"session 0 whole sent 0 refused 1 noted 0\n\
            tree 0 firm - posts 2 root 0 limit 1000\n\
            tree 1 account ACC posts 2 root 0 limit 100000\n\
            tree 2 symbol XYZ posts 2 root 0 limit 100000\n\
            tree 3 halt - posts 0 root 0 limit 0\n\
            status 0\n",
    },
    Row {
        name: "a sell at its upper collar price, a fill below it and a hostile report",
        limits: LARGE,
        sessions: &[Session {
            input: &[
                Piece::Whole(
                    b"35=D|49=C1|56=GATE|34=1|52=20240102-10:00:00|11=a1|1=ACC|55=XYZ|\
                            54=2|38=100|40=2|44=9.00|60=20240102-10:00:00|",
                ),
                Piece::Whole(
                    b"35=8|49=VENUE|56=GATE|34=1|52=20240102-10:00:00|37=O1|11=a1|17=E1|\
                            150=F|39=1|55=XYZ|54=2|38=100|32=40|31=9.50|151=60|14=40|6=9.50|",
                ),
                Piece::Whole(
                    b"35=8|49=VENUE|56=GATE|34=2|52=20240102-10:00:00|37=O1|11=a1|17=E2|\
                            150=F|39=1|55=XYZ|54=2|38=100|32=10|31=12.0001|151=50|14=50|6=10|",
                ),
            ],
            venue: &[Piece::Whole(
                b"35=D|49=GATE|56=VENUE|34=1|52=20240102-10:00:00|11=a1|1=ACC|55=XYZ|\
                            54=2|38=100|40=2|44=9.00|60=20240102-10:00:00|",
            )],
            client: &[
                Piece::Whole(
                    b"35=8|49=GATE|56=C1|34=1|52=20240102-10:00:00|37=O1|11=a1|17=E1|\
                            150=F|39=1|55=XYZ|54=2|38=100|32=40|31=9.50|151=60|14=40|6=9.50|",
                ),
                Piece::Whole(
                    b"35=8|49=GATE|56=C1|34=2|52=20240102-10:00:00|37=O1|11=a1|17=E2|\
                            150=F|39=1|55=XYZ|54=2|38=100|32=10|31=12.0001|151=50|14=50|6=10|",
                ),
            ],
        }],
        journal: b"kind,session,a,b,c,d\n\
            post,0,0,1,1200,\npost,0,1,1,1200,\npost,0,2,1,1200,\n\
            read,0,3,0,0,0\nread,0,0,1,1,1200\nread,0,1,1,1,1200\nread,0,2,1,1,1200\n\
            sent,0,0,,,\n\
            post,0,0,2,1100,\npost,0,1,2,1100,\npost,0,2,2,1100,\n\
            noted,0,2,4,0,0\nended,0,0,,,\n\
            line,0,0,1,1,1200\nline,0,0,2,2,1100\n\
            line,0,1,1,1,1200\nline,0,1,2,2,1100\n\
            line,0,2,1,1,1200\nline,0,2,2,2,1100\n",
        status: 0,
        told: b"session 0 whole sent 1 refused 0 noted 1\n\
            tree 0 firm - posts 2 root 1100 limit 5000\n\
            tree 1 account ACC posts 2 root 1100 limit 100000\n\
            tree 2 symbol XYZ posts 2 root 1100 limit 100000\n\
            tree 3 halt - posts 0 root 0 limit 0\n\
            status 0\n",
    },
    Row {
        name: "a market order at its upper collar price",
        limits: LARGE,
        sessions: &[Session {
            input: &[Piece::Whole(
                b"35=D|49=C1|56=GATE|34=1|52=20240102-10:00:00|11=a1|1=ACC|55=XYZ|\
                            54=1|38=100|40=1|60=20240102-10:00:00|",
            )],
            venue: &[Piece::Whole(
                b"35=D|49=GATE|56=VENUE|34=1|52=20240102-10:00:00|11=a1|1=ACC|55=XYZ|\
                            54=1|38=100|40=1|60=20240102-10:00:00|",
            )],
            client: &[],
        }],
        journal: b"kind,session,a,b,c,d\n\
            post,0,0,1,1200,\npost,0,1,1,1200,\npost,0,2,1,1200,\n\
            read,0,3,0,0,0\nread,0,0,1,1,1200\nread,0,1,1,1,1200\nread,0,2,1,1,1200\n\
            sent,0,0,,,\nended,0,0,,,\nline,0,0,1,1,1200\n\
            line,0,1,1,1,1200\nline,0,2,1,1,1200\n",
        status: 0,
        told: b"session 0 whole sent 1 refused 0 noted 0\n\
            tree 0 firm - posts 1 root 1200 limit 5000\n\
            tree 1 account ACC posts 1 root 1200 limit 100000\n\
            tree 2 symbol XYZ posts 1 root 1200 limit 100000\n\
            tree 3 halt - posts 0 root 0 limit 0\n\
            status 0\n",
    },
    Row {
        name: "a replace that the venue refuses",
        limits: LARGE,
        sessions: &[Session {
            input: &[
                Piece::Whole(BUY),
                Piece::Whole(
                    b"35=G|49=C1|56=GATE|34=2|52=20240102-10:00:00|11=b1|41=a1|55=XYZ|\
                            54=1|38=150|40=2|44=10.00|60=20240102-10:00:00|",
                ),
                Piece::Whole(
                    b"35=9|49=VENUE|56=GATE|34=1|52=20240102-10:00:00|37=O1|11=b1|41=a1|\
                            39=0|434=2|102=2|",
                ),
            ],
            venue: &[
                Piece::Whole(BUY_SENT),
                Piece::Whole(
                    b"35=G|49=GATE|56=VENUE|34=2|52=20240102-10:00:00|11=b1|41=a1|55=XYZ|\
                            54=1|38=150|40=2|44=10.00|60=20240102-10:00:00|",
                ),
            ],
            client: &[Piece::Whole(
                b"35=9|49=GATE|56=C1|34=1|52=20240102-10:00:00|37=O1|11=b1|41=a1|39=0|\
                            434=2|102=2|",
            )],
        }],
        journal: b"kind,session,a,b,c,d\n\
            post,0,0,1,1000,\npost,0,1,1,1000,\npost,0,2,1,1000,\n\
            read,0,3,0,0,0\nread,0,0,1,1,1000\nread,0,1,1,1,1000\nread,0,2,1,1,1000\n\
            sent,0,0,,,\n\
            post,0,0,2,1500,\npost,0,1,2,1500,\npost,0,2,2,1500,\n\
            read,0,3,0,0,0\nread,0,0,2,2,1500\nread,0,1,2,2,1500\nread,0,2,2,2,1500\n\
            sent,0,1,,,\n\
            post,0,0,3,1000,\npost,0,1,3,1000,\npost,0,2,3,1000,\n\
            ended,0,0,,,\n\
            line,0,0,1,1,1000\nline,0,0,2,2,1500\nline,0,0,3,3,1000\n\
            line,0,1,1,1,1000\nline,0,1,2,2,1500\nline,0,1,3,3,1000\n\
            line,0,2,1,1,1000\nline,0,2,2,2,1500\nline,0,2,3,3,1000\n",
        status: 0,
        told: b"session 0 whole sent 2 refused 0 noted 0\n\
            tree 0 firm - posts 3 root 1000 limit 5000\n\
            tree 1 account ACC posts 3 root 1000 limit 100000\n\
            tree 2 symbol XYZ posts 3 root 1000 limit 100000\n\
            tree 3 halt - posts 0 root 0 limit 0\n\
            status 0\n",
    },
    Row {
        name: "a replace that lowers, and its report",
        limits: LARGE,
        sessions: &[Session {
            input: &[
                Piece::Whole(BUY),
                Piece::Whole(
                    b"35=G|49=C1|56=GATE|34=2|52=20240102-10:00:00|11=b1|41=a1|55=XYZ|\
                            54=1|38=80|40=2|44=10.00|60=20240102-10:00:00|",
                ),
                Piece::Whole(
                    b"35=8|49=VENUE|56=GATE|34=1|52=20240102-10:00:00|37=O1|11=b1|41=a1|\
                            17=E1|150=5|39=5|55=XYZ|54=1|38=80|151=80|14=0|6=0|",
                ),
            ],
            venue: &[
                Piece::Whole(BUY_SENT),
                Piece::Whole(
                    b"35=G|49=GATE|56=VENUE|34=2|52=20240102-10:00:00|11=b1|41=a1|55=XYZ|\
                            54=1|38=80|40=2|44=10.00|60=20240102-10:00:00|",
                ),
            ],
            client: &[Piece::Whole(
                b"35=8|49=GATE|56=C1|34=1|52=20240102-10:00:00|37=O1|11=b1|41=a1|\
                            17=E1|150=5|39=5|55=XYZ|54=1|38=80|151=80|14=0|6=0|",
            )],
        }],
        journal: b"kind,session,a,b,c,d\n\
            post,0,0,1,1000,\npost,0,1,1,1000,\npost,0,2,1,1000,\n\
            read,0,3,0,0,0\nread,0,0,1,1,1000\nread,0,1,1,1,1000\nread,0,2,1,1,1000\n\
            sent,0,0,,,\nsent,0,1,,,\n\
            post,0,0,2,800,\npost,0,1,2,800,\npost,0,2,2,800,\n\
            ended,0,0,,,\nline,0,0,1,1,1000\nline,0,0,2,2,800\n\
            line,0,1,1,1,1000\nline,0,1,2,2,800\n\
            line,0,2,1,1,1000\nline,0,2,2,2,800\n",
        status: 0,
        told: b"session 0 whole sent 2 refused 0 noted 0\n\
            tree 0 firm - posts 2 root 800 limit 5000\n\
            tree 1 account ACC posts 2 root 800 limit 100000\n\
            tree 2 symbol XYZ posts 2 root 800 limit 100000\n\
            tree 3 halt - posts 0 root 0 limit 0\n\
            status 0\n",
    },
    Row {
        name: "an id that was refused, and again once it is sent",
        limits: SMALL,
        sessions: &[Session {
            input: &[
                Piece::Whole(
                    b"35=D|49=C1|56=GATE|34=1|52=20240102-10:00:00|11=a1|1=ACC|55=XYZ|\
                            54=1|38=200|40=2|44=10.00|60=20240102-10:00:00|",
                ),
                Piece::Whole(
                    b"35=D|49=C1|56=GATE|34=2|52=20240102-10:00:00|11=a1|1=ACC|55=XYZ|\
                            54=1|38=100|40=2|44=10.00|60=20240102-10:00:00|",
                ),
                Piece::Whole(
                    b"35=D|49=C1|56=GATE|34=3|52=20240102-10:00:00|11=a1|1=ACC|55=XYZ|\
                            54=1|38=100|40=2|44=10.00|60=20240102-10:00:00|",
                ),
            ],
            venue: &[Piece::Whole(
                b"35=D|49=GATE|56=VENUE|34=1|52=20240102-10:00:00|11=a1|1=ACC|55=XYZ|\
                            54=1|38=100|40=2|44=10.00|60=20240102-10:00:00|",
            )],
            client: &[
                Piece::Whole(
                    b"35=8|49=GATE|56=C1|34=1|52=20240102-10:00:00|37=NONE|11=a1|17=G1|\
                            150=8|39=8|103=3|1=ACC|55=XYZ|54=1|38=200|151=0|14=0|6=0|58=FIRM|",
                ),
                Piece::Whole(
                    b"35=8|49=GATE|56=C1|34=2|52=20240102-10:00:00|37=NONE|11=a1|17=G2|\
                            150=8|39=8|103=6|1=ACC|55=XYZ|54=1|38=100|151=0|14=0|6=0|\
                            58=DUPLICATE|",
                ),
            ],
        }],
        journal: b"kind,session,a,b,c,d\n\
            post,0,0,1,2000,\npost,0,1,1,2000,\npost,0,2,1,2000,\n\
            read,0,3,0,0,0\nread,0,0,1,1,2000\nread,0,1,1,1,2000\nread,0,2,1,1,2000\n\
            post,0,0,2,0,\npost,0,1,2,0,\npost,0,2,2,0,\n\
            refused,0,0,1,0,0\n\
            post,0,0,3,1000,\npost,0,1,3,1000,\npost,0,2,3,1000,\n\
            read,0,3,0,0,0\nread,0,0,3,3,1000\nread,0,1,3,3,1000\nread,0,2,3,3,1000\n\
            sent,0,1,,,\nrefused,0,2,7,0,0\nended,0,0,,,\n\
            line,0,0,1,1,2000\nline,0,0,2,2,0\nline,0,0,3,3,1000\n\
            line,0,1,1,1,2000\nline,0,1,2,2,0\nline,0,1,3,3,1000\n\
            line,0,2,1,1,2000\nline,0,2,2,2,0\nline,0,2,3,3,1000\n",
        status: 0,
        told: b"session 0 whole sent 1 refused 2 noted 0\n\
            tree 0 firm - posts 3 root 1000 limit 1000\n\
            tree 1 account ACC posts 3 root 1000 limit 100000\n\
            tree 2 symbol XYZ posts 3 root 1000 limit 100000\n\
            tree 3 halt - posts 0 root 0 limit 0\n\
            status 0\n",
    },
];

/// Refusals, each cause of the limits, the quota, the trip and the names once.
pub(crate) static REFUSALS: [Row; 8] = [
    Row {
        name: "a quota of two posts, used up",
        limits: b"firm,,5000,,,\n\
            account,ACC,100000,,,\n\
            symbol,XYZ,100000,1,12,100000\n\
            quota,,2,,,\n",
        sessions: &[Session {
            input: &[
                Piece::Whole(
                    b"35=D|49=C1|56=GATE|34=1|52=20240102-10:00:00|11=a1|1=ACC|55=XYZ|\
                            54=1|38=100|40=2|44=10.00|60=20240102-10:00:00|",
                ),
                Piece::Whole(
                    b"35=8|49=VENUE|56=GATE|34=1|52=20240102-10:00:00|37=O1|11=a1|17=E1|\
                            150=F|39=1|55=XYZ|54=1|38=100|32=40|31=9.50|151=60|14=40|6=9.50|",
                ),
                Piece::Whole(
                    b"35=D|49=C1|56=GATE|34=2|52=20240102-10:00:00|11=a2|1=ACC|55=XYZ|\
                            54=1|38=100|40=2|44=10.00|60=20240102-10:00:00|",
                ),
                Piece::Whole(
                    b"35=8|49=VENUE|56=GATE|34=2|52=20240102-10:00:00|37=O1|11=a1|17=E2|\
                            150=F|39=1|55=XYZ|54=1|38=100|32=10|31=9.00|151=50|14=50|6=9.40|",
                ),
            ],
            venue: &[Piece::Whole(
                b"35=D|49=GATE|56=VENUE|34=1|52=20240102-10:00:00|11=a1|1=ACC|55=XYZ|\
                            54=1|38=100|40=2|44=10.00|60=20240102-10:00:00|",
            )],
            client: &[
                Piece::Whole(
                    b"35=8|49=GATE|56=C1|34=1|52=20240102-10:00:00|37=O1|11=a1|17=E1|\
                            150=F|39=1|55=XYZ|54=1|38=100|32=40|31=9.50|151=60|14=40|6=9.50|",
                ),
                Piece::Whole(
                    b"35=8|49=GATE|56=C1|34=2|52=20240102-10:00:00|37=NONE|11=a2|17=G2|\
                            150=8|39=8|103=0|1=ACC|55=XYZ|54=1|38=100|151=0|14=0|6=0|58=QUOTA|",
                ),
                Piece::Whole(
                    b"35=8|49=GATE|56=C1|34=3|52=20240102-10:00:00|37=O1|11=a1|17=E2|\
                            150=F|39=1|55=XYZ|54=1|38=100|32=10|31=9.00|151=50|14=50|6=9.40|",
                ),
            ],
        }],
        journal: b"kind,session,a,b,c,d\n\
            post,0,0,1,1000,\npost,0,1,1,1000,\npost,0,2,1,1000,\n\
            read,0,3,0,0,0\nread,0,0,1,1,1000\nread,0,1,1,1,1000\nread,0,2,1,1,1000\n\
            sent,0,0,,,\n\
            post,0,0,2,980,\npost,0,1,2,980,\npost,0,2,2,980,\n\
            refused,0,2,5,0,0\nnoted,0,3,6,0,0\nended,0,0,,,\n\
            line,0,0,1,1,1000\nline,0,0,2,2,980\n\
            line,0,1,1,1,1000\nline,0,1,2,2,980\n\
            line,0,2,1,1,1000\nline,0,2,2,2,980\n",
        status: 0,
        told: b"session 0 whole sent 1 refused 1 noted 1\n\
            tree 0 firm - posts 2 root 980 limit 5000\n\
            tree 1 account ACC posts 2 root 980 limit 100000\n\
            tree 2 symbol XYZ posts 2 root 980 limit 100000\n\
            tree 3 halt - posts 0 root 0 limit 0\n\
            status 0\n",
    },
    Row {
        name: "a quota of one post",
        limits: b"firm,,1000,,,\n\
            account,ACC,100000,,,\n\
            symbol,XYZ,100000,1,12,100000\n\
            quota,,1,,,\n",
        sessions: &[Session {
            input: &[Piece::Whole(BUY)],
            venue: &[],
            client: &[Piece::Whole(
                b"35=8|49=GATE|56=C1|34=1|52=20240102-10:00:00|37=NONE|11=a1|17=G1|\
                            150=8|39=8|103=0|1=ACC|55=XYZ|54=1|38=100|151=0|14=0|6=0|58=QUOTA|",
            )],
        }],
        journal: b"kind,session,a,b,c,d\nrefused,0,0,5,0,0\nended,0,0,,,\n",
        status: 0,
        told: b"session 0 whole sent 0 refused 1 noted 0\n\
            tree 0 firm - posts 0 root 0 limit 1000\n\
            tree 1 account ACC posts 0 root 0 limit 100000\n\
            tree 2 symbol XYZ posts 0 root 0 limit 100000\n\
            tree 3 halt - posts 0 root 0 limit 0\n\
            status 0\n",
    },
    Row {
        name: "the first refusal as Firm trips, and the next order is halted",
        limits: b"firm,,1000,,,\n\
            account,ACC,100000,,,\n\
            symbol,XYZ,100000,1,12,100000\n\
            trip,,1,,,\n",
        sessions: &[Session {
            input: &[
                Piece::Whole(
                    b"35=D|49=C1|56=GATE|34=1|52=20240102-10:00:00|11=a1|1=ACC|55=XYZ|\
                            54=1|38=200|40=2|44=10.00|60=20240102-10:00:00|",
                ),
                Piece::Whole(
                    b"35=D|49=C1|56=GATE|34=2|52=20240102-10:00:00|11=a2|1=ACC|55=XYZ|\
                            54=1|38=1|40=2|44=10.00|60=20240102-10:00:00|",
                ),
            ],
            venue: &[],
            client: &[
                Piece::Whole(
                    b"35=8|49=GATE|56=C1|34=1|52=20240102-10:00:00|37=NONE|11=a1|17=G1|\
                            150=8|39=8|103=3|1=ACC|55=XYZ|54=1|38=200|151=0|14=0|6=0|58=FIRM|",
                ),
                Piece::Whole(
                    b"35=8|49=GATE|56=C1|34=2|52=20240102-10:00:00|37=NONE|11=a2|17=G2|\
                            150=8|39=8|103=0|1=ACC|55=XYZ|54=1|38=1|151=0|14=0|6=0|58=HALT|",
                ),
            ],
        }],
        journal: b"kind,session,a,b,c,d\n\
            post,0,0,1,2000,\npost,0,1,1,2000,\npost,0,2,1,2000,\n\
            read,0,3,0,0,0\nread,0,0,1,1,2000\nread,0,1,1,1,2000\nread,0,2,1,1,2000\n\
            post,0,0,2,0,\npost,0,1,2,0,\npost,0,2,2,0,\n\
            post,0,3,1,1,\nrefused,0,0,1,0,0\n\
            post,0,0,3,10,\npost,0,1,3,10,\npost,0,2,3,10,\n\
            read,0,3,1,1,1\nread,0,0,3,3,10\nread,0,1,3,3,10\nread,0,2,3,3,10\n\
            post,0,0,4,0,\npost,0,1,4,0,\npost,0,2,4,0,\n\
            refused,0,1,4,0,0\nended,0,0,,,\n\
            line,0,0,1,1,2000\nline,0,0,2,2,0\nline,0,0,3,3,10\nline,0,0,4,4,0\n\
            line,0,1,1,1,2000\nline,0,1,2,2,0\nline,0,1,3,3,10\nline,0,1,4,4,0\n\
            line,0,2,1,1,2000\nline,0,2,2,2,0\nline,0,2,3,3,10\nline,0,2,4,4,0\n\
            line,0,3,1,1,1\n",
        status: 0,
        told: b"session 0 whole sent 0 refused 2 noted 0\n\
            tree 0 firm - posts 4 root 0 limit 1000\n\
            tree 1 account ACC posts 4 root 0 limit 100000\n\
            tree 2 symbol XYZ posts 4 root 0 limit 100000\n\
            tree 3 halt - posts 1 root 1 limit 0\n\
            status 0\n",
    },
    Row {
        name: "a replace and an order are refused as Firm, and the second of them trips",
        limits: b"firm,,1000,,,\n\
            account,ACC,100000,,,\n\
            symbol,XYZ,100000,1,12,100000\n\
            trip,,2,,,\n",
        sessions: &[Session {
            input: &[
                Piece::Whole(
                    b"35=D|49=C1|56=GATE|34=1|52=20240102-10:00:00|11=a1|1=ACC|55=XYZ|\
                            54=1|38=90|40=2|44=10.00|60=20240102-10:00:00|",
                ),
                Piece::Whole(
                    b"35=G|49=C1|56=GATE|34=2|52=20240102-10:00:00|11=b1|41=a1|55=XYZ|\
                            54=1|38=101|40=2|44=10.00|60=20240102-10:00:00|",
                ),
                Piece::Whole(
                    b"35=D|49=C1|56=GATE|34=3|52=20240102-10:00:00|11=a2|1=ACC|55=XYZ|\
                            54=1|38=20|40=2|44=10.00|60=20240102-10:00:00|",
                ),
                Piece::Whole(
                    b"35=D|49=C1|56=GATE|34=4|52=20240102-10:00:00|11=a3|1=ACC|55=XYZ|\
                            54=1|38=200|40=2|44=10.00|60=20240102-10:00:00|",
                ),
            ],
            venue: &[Piece::Whole(
                b"35=D|49=GATE|56=VENUE|34=1|52=20240102-10:00:00|11=a1|1=ACC|55=XYZ|\
                            54=1|38=90|40=2|44=10.00|60=20240102-10:00:00|",
            )],
            client: &[
                Piece::Whole(
                    b"35=9|49=GATE|56=C1|34=1|52=20240102-10:00:00|37=NONE|11=b1|41=a1|\
                            39=8|434=2|102=2|58=FIRM|",
                ),
                Piece::Whole(
                    b"35=8|49=GATE|56=C1|34=2|52=20240102-10:00:00|37=NONE|11=a2|17=G2|\
                            150=8|39=8|103=3|1=ACC|55=XYZ|54=1|38=20|151=0|14=0|6=0|58=FIRM|",
                ),
                Piece::Whole(
                    b"35=8|49=GATE|56=C1|34=3|52=20240102-10:00:00|37=NONE|11=a3|17=G3|\
                            150=8|39=8|103=0|1=ACC|55=XYZ|54=1|38=200|151=0|14=0|6=0|58=HALT|",
                ),
            ],
        }],
        journal: b"kind,session,a,b,c,d\n\
            post,0,0,1,900,\npost,0,1,1,900,\npost,0,2,1,900,\n\
            read,0,3,0,0,0\nread,0,0,1,1,900\nread,0,1,1,1,900\nread,0,2,1,1,900\n\
            sent,0,0,,,\n\
            post,0,0,2,1010,\npost,0,1,2,1010,\npost,0,2,2,1010,\n\
            read,0,3,0,0,0\nread,0,0,2,2,1010\nread,0,1,2,2,1010\nread,0,2,2,2,1010\n\
            post,0,0,3,900,\npost,0,1,3,900,\npost,0,2,3,900,\n\
            refused,0,1,1,0,0\n\
            post,0,0,4,1100,\npost,0,1,4,1100,\npost,0,2,4,1100,\n\
            read,0,3,0,0,0\nread,0,0,4,4,1100\nread,0,1,4,4,1100\nread,0,2,4,4,1100\n\
            post,0,0,5,900,\npost,0,1,5,900,\npost,0,2,5,900,\n\
            post,0,3,1,1,\nrefused,0,2,1,0,0\n\
            post,0,0,6,2900,\npost,0,1,6,2900,\npost,0,2,6,2900,\n\
            read,0,3,1,1,1\nread,0,0,6,6,2900\nread,0,1,6,6,2900\nread,0,2,6,6,2900\n\
            post,0,0,7,900,\npost,0,1,7,900,\npost,0,2,7,900,\n\
            refused,0,3,4,0,0\nended,0,0,,,\n\
            line,0,0,1,1,900\nline,0,0,2,2,1010\nline,0,0,3,3,900\nline,0,0,4,4,1100\n\
            line,0,0,5,5,900\nline,0,0,6,6,2900\nline,0,0,7,7,900\n\
            line,0,1,1,1,900\nline,0,1,2,2,1010\nline,0,1,3,3,900\nline,0,1,4,4,1100\n\
            line,0,1,5,5,900\nline,0,1,6,6,2900\nline,0,1,7,7,900\n\
            line,0,2,1,1,900\nline,0,2,2,2,1010\nline,0,2,3,3,900\nline,0,2,4,4,1100\n\
            line,0,2,5,5,900\nline,0,2,6,6,2900\nline,0,2,7,7,900\n\
            line,0,3,1,1,1\n",
        status: 0,
        told: b"session 0 whole sent 1 refused 3 noted 0\n\
            tree 0 firm - posts 7 root 900 limit 1000\n\
            tree 1 account ACC posts 7 root 900 limit 100000\n\
            tree 2 symbol XYZ posts 7 root 900 limit 100000\n\
            tree 3 halt - posts 1 root 1 limit 0\n\
            status 0\n",
    },
    Row {
        name: "above the account's limit, and the symbol's",
        limits: b"firm,,1000,,,\n\
            account,ACC,999,,,\n\
            symbol,XYZ,0,1,12,100000\n",
        sessions: &[Session {
            input: &[Piece::Whole(BUY)],
            venue: &[],
            client: &[Piece::Whole(
                b"35=8|49=GATE|56=C1|34=1|52=20240102-10:00:00|37=NONE|11=a1|17=G1|\
                            150=8|39=8|103=3|1=ACC|55=XYZ|54=1|38=100|151=0|14=0|6=0|58=ACCOUNT|",
            )],
        }],
        journal: b"kind,session,a,b,c,d\n\
            post,0,0,1,1000,\npost,0,1,1,1000,\npost,0,2,1,1000,\n\
            read,0,3,0,0,0\nread,0,0,1,1,1000\nread,0,1,1,1,1000\nread,0,2,1,1,1000\n\
            post,0,0,2,0,\npost,0,1,2,0,\npost,0,2,2,0,\n\
            refused,0,0,2,0,0\nended,0,0,,,\n\
            line,0,0,1,1,1000\nline,0,0,2,2,0\n\
            line,0,1,1,1,1000\nline,0,1,2,2,0\n\
            line,0,2,1,1,1000\nline,0,2,2,2,0\n",
        status: 0,
        told: b"session 0 whole sent 0 refused 1 noted 0\n\
            tree 0 firm - posts 2 root 0 limit 1000\n\
            tree 1 account ACC posts 2 root 0 limit 999\n\
            tree 2 symbol XYZ posts 2 root 0 limit 0\n\
            tree 3 halt - posts 0 root 0 limit 0\n\
            status 0\n",
    },
    Row {
        name: "the smallest limit of a symbol, and an order in another",
        limits: b"firm,,5000,,,\n\
            account,ACC,100000,,,\n\
            symbol,XYZ,0,1,12,100000\n\
            symbol,ABC,100000,1,12,100000\n",
        sessions: &[Session {
            input: &[
                Piece::Whole(
                    b"35=D|49=C1|56=GATE|34=1|52=20240102-10:00:00|11=a1|1=ACC|55=XYZ|\
                            54=1|38=1|40=2|44=10.00|60=20240102-10:00:00|",
                ),
                Piece::Whole(
                    b"35=D|49=C1|56=GATE|34=2|52=20240102-10:00:00|11=a2|1=ACC|55=ABC|\
                            54=1|38=1|40=2|44=10.00|60=20240102-10:00:00|",
                ),
            ],
            venue: &[Piece::Whole(
                b"35=D|49=GATE|56=VENUE|34=1|52=20240102-10:00:00|11=a2|1=ACC|55=ABC|\
                            54=1|38=1|40=2|44=10.00|60=20240102-10:00:00|",
            )],
            client: &[Piece::Whole(
                b"35=8|49=GATE|56=C1|34=1|52=20240102-10:00:00|37=NONE|11=a1|17=G1|\
                            150=8|39=8|103=3|1=ACC|55=XYZ|54=1|38=1|151=0|14=0|6=0|58=SYMBOL|",
            )],
        }],
        journal: b"kind,session,a,b,c,d\n\
            post,0,0,1,10,\npost,0,1,1,10,\npost,0,2,1,10,\n\
            read,0,4,0,0,0\nread,0,0,1,1,10\nread,0,1,1,1,10\nread,0,2,1,1,10\n\
            post,0,0,2,0,\npost,0,1,2,0,\npost,0,2,2,0,\n\
            refused,0,0,3,0,0\n\
            post,0,0,3,10,\npost,0,1,3,10,\npost,0,3,1,10,\n\
            read,0,4,0,0,0\nread,0,0,3,3,10\nread,0,1,3,3,10\nread,0,3,1,1,10\n\
            sent,0,1,,,\nended,0,0,,,\n\
            line,0,0,1,1,10\nline,0,0,2,2,0\nline,0,0,3,3,10\n\
            line,0,1,1,1,10\nline,0,1,2,2,0\nline,0,1,3,3,10\n\
            line,0,2,1,1,10\nline,0,2,2,2,0\nline,0,3,1,1,10\n",
        status: 0,
        told: b"session 0 whole sent 1 refused 1 noted 0\n\
            tree 0 firm - posts 3 root 10 limit 5000\n\
            tree 1 account ACC posts 3 root 10 limit 100000\n\
            tree 2 symbol XYZ posts 2 root 0 limit 0\n\
            tree 3 symbol ABC posts 1 root 10 limit 100000\n\
            tree 4 halt - posts 0 root 0 limit 0\n\
            status 0\n",
    },
    Row {
        name: "an id again, of an unknown account, of an unknown symbol, and of known ones",
        limits: SMALL,
        sessions: &[Session {
            input: &[
                Piece::Whole(
                    b"35=D|49=C1|56=GATE|34=1|52=20240102-10:00:00|11=a1|1=ACC|55=XYZ|\
                            54=1|38=10|40=2|44=10.00|60=20240102-10:00:00|",
                ),
                Piece::Whole(
                    b"35=D|49=C1|56=GATE|34=2|52=20240102-10:00:00|11=a1|1=ACD|55=XYW|\
                            54=1|38=10|40=2|44=10.00|60=20240102-10:00:00|",
                ),
                Piece::Whole(
                    b"35=D|49=C1|56=GATE|34=3|52=20240102-10:00:00|11=a1|1=ACC|55=XYW|\
                            54=1|38=10|40=2|44=10.00|60=20240102-10:00:00|",
                ),
                Piece::Whole(
                    b"35=D|49=C1|56=GATE|34=4|52=20240102-10:00:00|11=a1|1=ACC|55=XYZ|\
                            54=1|38=10|40=2|44=10.00|60=20240102-10:00:00|",
                ),
            ],
            venue: &[Piece::Whole(
                b"35=D|49=GATE|56=VENUE|34=1|52=20240102-10:00:00|11=a1|1=ACC|55=XYZ|\
                            54=1|38=10|40=2|44=10.00|60=20240102-10:00:00|",
            )],
            client: &[
                Piece::Whole(
                    b"35=8|49=GATE|56=C1|34=1|52=20240102-10:00:00|37=NONE|11=a1|17=G1|\
                            150=8|39=8|103=99|1=ACD|55=XYW|54=1|38=10|151=0|14=0|6=0|\
                            58=UNKNOWN ACCOUNT|",
                ),
                Piece::Whole(
                    b"35=8|49=GATE|56=C1|34=2|52=20240102-10:00:00|37=NONE|11=a1|17=G2|\
                            150=8|39=8|103=1|1=ACC|55=XYW|54=1|38=10|151=0|14=0|6=0|\
                            58=UNKNOWN SYMBOL|",
                ),
                Piece::Whole(
                    b"35=8|49=GATE|56=C1|34=3|52=20240102-10:00:00|37=NONE|11=a1|17=G3|\
                            150=8|39=8|103=6|1=ACC|55=XYZ|54=1|38=10|151=0|14=0|6=0|\
                            58=DUPLICATE|",
                ),
            ],
        }],
        journal: b"kind,session,a,b,c,d\n\
            post,0,0,1,100,\npost,0,1,1,100,\npost,0,2,1,100,\n\
            read,0,3,0,0,0\nread,0,0,1,1,100\nread,0,1,1,1,100\nread,0,2,1,1,100\n\
            sent,0,0,,,\nrefused,0,1,8,0,0\nrefused,0,2,9,0,0\nrefused,0,3,7,0,0\nended,0,0,,,\n\
            line,0,0,1,1,100\nline,0,1,1,1,100\nline,0,2,1,1,100\n",
        status: 0,
        told: b"session 0 whole sent 1 refused 3 noted 0\n\
            tree 0 firm - posts 1 root 100 limit 1000\n\
            tree 1 account ACC posts 1 root 100 limit 100000\n\
            tree 2 symbol XYZ posts 1 root 100 limit 100000\n\
            tree 3 halt - posts 0 root 0 limit 0\n\
            status 0\n",
    },
    Row {
        name: "more than a leaf holds",
        limits: b"firm,,1000,,,\n\
            account,ACC,100000,,,\n\
            symbol,XYZ,100000,1,12,100000\n\
            quota,,1,,,\n",
        sessions: &[Session {
            input: &[Piece::Whole(
                b"35=D|49=C1|56=GATE|34=1|52=20240102-10:00:00|11=a1|1=ACC|55=XYZ|\
                            54=1|38=1000000000|40=2|44=999999.9999|60=20240102-10:00:00|",
            )],
            venue: &[],
            client: &[Piece::Whole(
                b"35=8|49=GATE|56=C1|34=1|52=20240102-10:00:00|37=NONE|11=a1|17=G1|\
                            150=8|39=8|103=3|1=ACC|55=XYZ|54=1|38=1000000000|151=0|14=0|6=0|\
                            58=CAP|",
            )],
        }],
        journal: b"kind,session,a,b,c,d\nrefused,0,0,6,0,0\nended,0,0,,,\n",
        status: 0,
        told: b"session 0 whole sent 0 refused 1 noted 0\n\
            tree 0 firm - posts 0 root 0 limit 1000\n\
            tree 1 account ACC posts 0 root 0 limit 100000\n\
            tree 2 symbol XYZ posts 0 root 0 limit 100000\n\
            tree 3 halt - posts 0 root 0 limit 0\n\
            status 0\n",
    },
];
