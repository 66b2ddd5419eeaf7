//! Runs of several sessions. Each but the last ends with an order without its Symbol (55), which is
//! refused and posts nothing, so that its taking up shows that the order before it is done.
use crate::rows::{LARGE, Piece, Row, SMALL, Session};

/// One session goes on where the one before it has ended.
pub(crate) static TURNS: [Row; 4] = [
    Row {
        name: "the second session meets the first's exposure",
        limits: SMALL,
        sessions: &[
            Session {
                input: &[
                    Piece::Whole(
                        b"35=D|49=C1|56=GATE|34=1|52=20240102-10:00:00|11=a1|1=ACC|55=XYZ|\
                            54=1|38=60|40=2|44=10.00|60=20240102-10:00:00|",
                    ),
                    Piece::Whole(
                        b"35=D|49=C1|56=GATE|34=2|52=20240102-10:00:00|11=a2|1=ACC|54=1|38=60|\
                            40=2|44=10.00|60=20240102-10:00:00|",
                    ),
                ],
                venue: &[Piece::Whole(
                    b"35=D|49=GATE|56=VENUE|34=1|52=20240102-10:00:00|11=a1|1=ACC|55=XYZ|\
                            54=1|38=60|40=2|44=10.00|60=20240102-10:00:00|",
                )],
                client: &[Piece::Whole(
                    b"35=3|49=GATE|56=C1|34=1|52=20240102-10:00:00|45=2|371=55|372=D|\
                            373=1|",
                )],
            },
            Session {
                input: &[Piece::Whole(
                    b"35=D|49=C2|56=GATE|34=1|52=20240102-10:00:00|11=b1|1=ACC|55=XYZ|\
                            54=1|38=60|40=2|44=10.00|60=20240102-10:00:00|",
                )],
                venue: &[],
                client: &[Piece::Whole(
                    b"35=8|49=GATE|56=C2|34=1|52=20240102-10:00:00|37=NONE|11=b1|17=G1|\
                            150=8|39=8|103=3|1=ACC|55=XYZ|54=1|38=60|151=0|14=0|6=0|58=FIRM|",
                )],
            },
        ],
        journal: b"kind,session,a,b,c,d\n\
            post,0,0,1,600,\npost,0,1,1,600,\npost,0,2,1,600,\n\
            read,0,3,0,0,0\nread,0,0,1,1,600\nread,0,1,1,1,600\nread,0,2,1,1,600\n\
            sent,0,0,,,\nrefused,0,1,16,55,1\nended,0,0,,,\n\
            post,1,0,1,600,\npost,1,1,1,600,\npost,1,2,1,600,\n\
            read,1,3,0,0,0\nread,1,0,2,2,1200\nread,1,1,2,2,1200\nread,1,2,2,2,1200\n\
            post,1,0,2,0,\npost,1,1,2,0,\npost,1,2,2,0,\n\
            refused,1,0,1,0,0\nended,1,0,,,\n\
            line,0,0,1,1,600\nline,1,0,2,1,600\nline,1,0,3,2,0\n\
            line,0,1,1,1,600\nline,1,1,2,1,600\nline,1,1,3,2,0\n\
            line,0,2,1,1,600\nline,1,2,2,1,600\nline,1,2,3,2,0\n",
        status: 0,
        told: b"session 0 whole sent 1 refused 1 noted 0\n\
            session 1 whole sent 0 refused 1 noted 0\n\
            tree 0 firm - posts 3 root 600 limit 1000\n\
            tree 1 account ACC posts 3 root 600 limit 100000\n\
            tree 2 symbol XYZ posts 3 root 600 limit 100000\n\
            tree 3 halt - posts 0 root 0 limit 0\n\
            status 0\n",
    },
    Row {
        name: "three sessions, each with an account of its own",
        limits: b"firm,,5000,,,\n\
            account,A0,1000,,,\n\
            account,A1,1000,,,\n\
            account,A2,1000,,,\n\
            symbol,XYZ,100000,1,12,100000\n",
        sessions: &[
            Session {
                input: &[
                    Piece::Whole(
                        b"35=D|49=C0|56=GATE|34=1|52=20240102-10:00:00|11=a0|1=A0|55=XYZ|54=1|\
                            38=60|40=2|44=10.00|60=20240102-10:00:00|",
                    ),
                    Piece::Whole(
                        b"35=D|49=C0|56=GATE|34=2|52=20240102-10:00:00|11=b0|1=A0|54=1|38=60|\
                            40=2|44=10.00|60=20240102-10:00:00|",
                    ),
                ],
                venue: &[Piece::Whole(
                    b"35=D|49=GATE|56=VENUE|34=1|52=20240102-10:00:00|11=a0|1=A0|55=XYZ|\
                            54=1|38=60|40=2|44=10.00|60=20240102-10:00:00|",
                )],
                client: &[Piece::Whole(
                    b"35=3|49=GATE|56=C0|34=1|52=20240102-10:00:00|45=2|371=55|372=D|\
                            373=1|",
                )],
            },
            Session {
                input: &[
                    Piece::Whole(
                        b"35=D|49=C1|56=GATE|34=1|52=20240102-10:00:00|11=a1|1=A1|55=XYZ|54=1|\
                            38=60|40=2|44=10.00|60=20240102-10:00:00|",
                    ),
                    Piece::Whole(
                        b"35=D|49=C1|56=GATE|34=2|52=20240102-10:00:00|11=b1|1=A1|54=1|38=60|\
                            40=2|44=10.00|60=20240102-10:00:00|",
                    ),
                ],
                venue: &[Piece::Whole(
                    b"35=D|49=GATE|56=VENUE|34=1|52=20240102-10:00:00|11=a1|1=A1|55=XYZ|\
                            54=1|38=60|40=2|44=10.00|60=20240102-10:00:00|",
                )],
                client: &[Piece::Whole(
                    b"35=3|49=GATE|56=C1|34=1|52=20240102-10:00:00|45=2|371=55|372=D|\
                            373=1|",
                )],
            },
            Session {
                input: &[Piece::Whole(
                    b"35=D|49=C2|56=GATE|34=1|52=20240102-10:00:00|11=a2|1=A2|55=XYZ|54=1|\
                            38=60|40=2|44=10.00|60=20240102-10:00:00|",
                )],
                venue: &[Piece::Whole(
                    b"35=D|49=GATE|56=VENUE|34=1|52=20240102-10:00:00|11=a2|1=A2|55=XYZ|\
                            54=1|38=60|40=2|44=10.00|60=20240102-10:00:00|",
                )],
                client: &[],
            },
        ],
        journal: b"kind,session,a,b,c,d\n\
            post,0,0,1,600,\npost,0,1,1,600,\npost,0,4,1,600,\n\
            read,0,5,0,0,0\nread,0,0,1,1,600\nread,0,1,1,1,600\nread,0,4,1,1,600\n\
            sent,0,0,,,\nrefused,0,1,16,55,1\nended,0,0,,,\n\
            post,1,0,1,600,\npost,1,2,1,600,\npost,1,4,1,600,\n\
            read,1,5,0,0,0\nread,1,0,2,2,1200\nread,1,2,1,1,600\nread,1,4,2,2,1200\n\
            sent,1,0,,,\nrefused,1,1,16,55,1\nended,1,0,,,\n\
            post,2,0,1,600,\npost,2,3,1,600,\npost,2,4,1,600,\n\
            read,2,5,0,0,0\nread,2,0,3,3,1800\nread,2,3,1,1,600\nread,2,4,3,3,1800\n\
            sent,2,0,,,\nended,2,0,,,\n\
            line,0,0,1,1,600\nline,1,0,2,1,600\nline,2,0,3,1,600\n\
            line,0,1,1,1,600\nline,1,2,1,1,600\nline,2,3,1,1,600\n\
            line,0,4,1,1,600\nline,1,4,2,1,600\nline,2,4,3,1,600\n",
        status: 0,
        told: b"session 0 whole sent 1 refused 1 noted 0\n\
            session 1 whole sent 1 refused 1 noted 0\n\
            session 2 whole sent 1 refused 0 noted 0\n\
            tree 0 firm - posts 3 root 1800 limit 5000\n\
            tree 1 account A0 posts 1 root 600 limit 1000\n\
            tree 2 account A1 posts 1 root 600 limit 1000\n\
            tree 3 account A2 posts 1 root 600 limit 1000\n\
            tree 4 symbol XYZ posts 3 root 1800 limit 100000\n\
            tree 5 halt - posts 0 root 0 limit 0\n\
            status 0\n",
    },
    Row {
        name: "a session is cut between two that are whole",
        limits: LARGE,
        sessions: &[
            Session {
                input: &[
                    Piece::Whole(
                        b"35=D|49=C1|56=GATE|34=1|52=20240102-10:00:00|11=a1|1=ACC|55=XYZ|\
                            54=1|38=10|40=2|44=10.00|60=20240102-10:00:00|",
                    ),
                    Piece::Whole(
                        b"35=D|49=C1|56=GATE|34=2|52=20240102-10:00:00|11=a2|1=ACC|54=1|38=10|\
                            40=2|44=10.00|60=20240102-10:00:00|",
                    ),
                ],
                venue: &[Piece::Whole(
                    b"35=D|49=GATE|56=VENUE|34=1|52=20240102-10:00:00|11=a1|1=ACC|55=XYZ|\
                            54=1|38=10|40=2|44=10.00|60=20240102-10:00:00|",
                )],
                client: &[Piece::Whole(
                    b"35=3|49=GATE|56=C1|34=1|52=20240102-10:00:00|45=2|371=55|372=D|\
                            373=1|",
                )],
            },
            Session {
                input: &[
                    Piece::Whole(
                        b"35=D|49=C2|56=GATE|34=1|52=20240102-10:00:00|11=b1|1=ACC|55=XYZ|\
                            54=1|38=20|40=2|44=10.00|60=20240102-10:00:00|",
                    ),
                    Piece::Whole(
                        b"35=D|49=C2|56=GATE|34=2|52=20240102-10:00:00|11=b2|1=ACC|54=1|38=20|\
                            40=2|44=10.00|60=20240102-10:00:00|",
                    ),
                    Piece::Cut(
                        b"35=D|49=C2|56=GATE|34=3|52=20240102-10:00:00|11=b3|1=ACC|55=XYZ|\
                            54=1|38=20|40=2|44=10.00|60=20240102-10:00:00|",
                    ),
                ],
                venue: &[Piece::Whole(
                    b"35=D|49=GATE|56=VENUE|34=1|52=20240102-10:00:00|11=b1|1=ACC|55=XYZ|\
                            54=1|38=20|40=2|44=10.00|60=20240102-10:00:00|",
                )],
                client: &[Piece::Whole(
                    b"35=3|49=GATE|56=C2|34=1|52=20240102-10:00:00|45=2|371=55|372=D|\
                            373=1|",
                )],
            },
            Session {
                input: &[Piece::Whole(
                    b"35=D|49=C3|56=GATE|34=1|52=20240102-10:00:00|11=c1|1=ACC|55=XYZ|\
                            54=1|38=30|40=2|44=10.00|60=20240102-10:00:00|",
                )],
                venue: &[Piece::Whole(
                    b"35=D|49=GATE|56=VENUE|34=1|52=20240102-10:00:00|11=c1|1=ACC|55=XYZ|\
                            54=1|38=30|40=2|44=10.00|60=20240102-10:00:00|",
                )],
                client: &[],
            },
        ],
        journal: b"kind,session,a,b,c,d\n\
            post,0,0,1,100,\npost,0,1,1,100,\npost,0,2,1,100,\n\
            read,0,3,0,0,0\nread,0,0,1,1,100\nread,0,1,1,1,100\nread,0,2,1,1,100\n\
            sent,0,0,,,\nrefused,0,1,16,55,1\nended,0,0,,,\n\
            post,1,0,1,200,\npost,1,1,1,200,\npost,1,2,1,200,\n\
            read,1,3,0,0,0\nread,1,0,2,2,300\nread,1,1,2,2,300\nread,1,2,2,2,300\n\
            sent,1,0,,,\nrefused,1,1,16,55,1\nended,1,1,259,,\n\
            post,2,0,1,300,\npost,2,1,1,300,\npost,2,2,1,300,\n\
            read,2,3,0,0,0\nread,2,0,3,3,600\nread,2,1,3,3,600\nread,2,2,3,3,600\n\
            sent,2,0,,,\nended,2,0,,,\n\
            line,0,0,1,1,100\nline,1,0,2,1,200\nline,2,0,3,1,300\n\
            line,0,1,1,1,100\nline,1,1,2,1,200\nline,2,1,3,1,300\n\
            line,0,2,1,1,100\nline,1,2,2,1,200\nline,2,2,3,1,300\n",
        status: 4,
        told: b"session 0 whole sent 1 refused 1 noted 0\n\
            session 1 cut 259 sent 1 refused 1 noted 0\n\
            session 2 whole sent 1 refused 0 noted 0\n\
            tree 0 firm - posts 3 root 600 limit 5000\n\
            tree 1 account ACC posts 3 root 600 limit 100000\n\
            tree 2 symbol XYZ posts 3 root 600 limit 100000\n\
            tree 3 halt - posts 0 root 0 limit 0\n\
            status 4\n",
    },
    Row {
        name: "the first session trips the halt tree, and the second is halted",
        limits: b"firm,,1000,,,\n\
            account,ACC,100000,,,\n\
            symbol,XYZ,100000,1,12,100000\n\
            trip,,1,,,\n",
        sessions: &[
            Session {
                input: &[
                    Piece::Whole(
                        b"35=D|49=C1|56=GATE|34=1|52=20240102-10:00:00|11=a1|1=ACC|55=XYZ|\
                            54=1|38=200|40=2|44=10.00|60=20240102-10:00:00|",
                    ),
                    Piece::Whole(
                        b"35=D|49=C1|56=GATE|34=2|52=20240102-10:00:00|11=a2|1=ACC|54=1|38=60|\
                            40=2|44=10.00|60=20240102-10:00:00|",
                    ),
                ],
                venue: &[],
                client: &[
                    Piece::Whole(
                        b"35=8|49=GATE|56=C1|34=1|52=20240102-10:00:00|37=NONE|11=a1|17=G1|\
                            150=8|39=8|103=3|1=ACC|55=XYZ|54=1|38=200|151=0|14=0|6=0|58=FIRM|",
                    ),
                    Piece::Whole(
                        b"35=3|49=GATE|56=C1|34=2|52=20240102-10:00:00|45=2|371=55|372=D|\
                            373=1|",
                    ),
                ],
            },
            Session {
                input: &[Piece::Whole(
                    b"35=D|49=C2|56=GATE|34=1|52=20240102-10:00:00|11=b1|1=ACC|55=XYZ|\
                            54=1|38=1|40=2|44=10.00|60=20240102-10:00:00|",
                )],
                venue: &[],
                client: &[Piece::Whole(
                    b"35=8|49=GATE|56=C2|34=1|52=20240102-10:00:00|37=NONE|11=b1|17=G1|\
                            150=8|39=8|103=0|1=ACC|55=XYZ|54=1|38=1|151=0|14=0|6=0|58=HALT|",
                )],
            },
        ],
        journal: b"kind,session,a,b,c,d\n\
            post,0,0,1,2000,\npost,0,1,1,2000,\npost,0,2,1,2000,\n\
            read,0,3,0,0,0\nread,0,0,1,1,2000\nread,0,1,1,1,2000\nread,0,2,1,1,2000\n\
            post,0,0,2,0,\npost,0,1,2,0,\npost,0,2,2,0,\n\
            post,0,3,1,1,\nrefused,0,0,1,0,0\nrefused,0,1,16,55,1\nended,0,0,,,\n\
            post,1,0,1,10,\npost,1,1,1,10,\npost,1,2,1,10,\n\
            read,1,3,1,1,1\nread,1,0,3,3,10\nread,1,1,3,3,10\nread,1,2,3,3,10\n\
            post,1,0,2,0,\npost,1,1,2,0,\npost,1,2,2,0,\n\
            refused,1,0,4,0,0\nended,1,0,,,\n\
            line,0,0,1,1,2000\nline,0,0,2,2,0\nline,1,0,3,1,10\nline,1,0,4,2,0\n\
            line,0,1,1,1,2000\nline,0,1,2,2,0\nline,1,1,3,1,10\nline,1,1,4,2,0\n\
            line,0,2,1,1,2000\nline,0,2,2,2,0\nline,1,2,3,1,10\nline,1,2,4,2,0\n\
            line,0,3,1,1,1\n",
        status: 0,
        told: b"session 0 whole sent 0 refused 2 noted 0\n\
            session 1 whole sent 0 refused 1 noted 0\n\
            tree 0 firm - posts 4 root 0 limit 1000\n\
            tree 1 account ACC posts 4 root 0 limit 100000\n\
            tree 2 symbol XYZ posts 4 root 0 limit 100000\n\
            tree 3 halt - posts 1 root 1 limit 0\n\
            status 0\n",
    },
];
