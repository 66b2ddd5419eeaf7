//! Runs of one session of an account that is net, and of one that is gross.
use crate::rows::{BUY, BUY_SENT, Piece, Row, Session};

/// A firm's limit of 5,000, an account that is net, and a symbol.
const NET_ACCOUNT: &[u8] = b"version,2,,,,,\nfirm,,5000,,,,\naccount,ACC,100000,,,,net\n\
    symbol,XYZ,100000,1,12,100000,\n";

/// The same with an account that is gross.
const GROSS_ACCOUNT: &[u8] = b"version,2,,,,,\nfirm,,5000,,,,\naccount,ACC,100000,,,,gross\n\
    symbol,XYZ,100000,1,12,100000,\n";

/// A buy that is filled, and a sell behind it.
pub(crate) static NET: [Row; 2] = [
    Row {
        name: "a net account: 1,000 are bought, the larger of 1,000 and 1,200 less 1,000, then 950 are sold",
        limits: NET_ACCOUNT,
        sessions: &[Session {
            input: &[
                Piece::Whole(BUY),
                Piece::Whole(
                    b"35=8|49=VENUE|56=GATE|34=1|52=20240102-10:00:00|37=O1|11=a1|17=E1|\
                            150=F|39=2|55=XYZ|54=1|38=100|32=100|31=10.00|151=0|14=100|6=10.00|",
                ),
                Piece::Whole(
                    b"35=D|49=C1|56=GATE|34=2|52=20240102-10:00:00|11=a2|1=ACC|55=XYZ|\
                            54=2|38=100|40=2|44=9.00|60=20240102-10:00:00|",
                ),
                Piece::Whole(
                    b"35=8|49=VENUE|56=GATE|34=2|52=20240102-10:00:00|37=O2|11=a2|17=E2|\
                            150=F|39=2|55=XYZ|54=2|38=100|32=100|31=9.50|151=0|14=100|6=9.50|",
                ),
            ],
            venue: &[
                Piece::Whole(BUY_SENT),
                Piece::Whole(
                    b"35=D|49=GATE|56=VENUE|34=2|52=20240102-10:00:00|11=a2|1=ACC|55=XYZ|\
                            54=2|38=100|40=2|44=9.00|60=20240102-10:00:00|",
                ),
            ],
            client: &[
                Piece::Whole(
                    b"35=8|49=GATE|56=C1|34=1|52=20240102-10:00:00|37=O1|11=a1|17=E1|\
                            150=F|39=2|55=XYZ|54=1|38=100|32=100|31=10.00|151=0|14=100|6=10.00|",
                ),
                Piece::Whole(
                    b"35=8|49=GATE|56=C1|34=2|52=20240102-10:00:00|37=O2|11=a2|17=E2|\
                            150=F|39=2|55=XYZ|54=2|38=100|32=100|31=9.50|151=0|14=100|6=9.50|",
                ),
            ],
        }],
        journal: b"kind,session,a,b,c,d\n\
            post,0,0,1,1000,\npost,0,1,1,1000,\npost,0,2,1,1000,\n\
            read,0,3,0,0,0\nread,0,0,1,1,1000\nread,0,1,1,1,1000\nread,0,2,1,1,1000\n\
            sent,0,0,,,\n\
            post,0,0,2,1000,\npost,0,1,2,1000,\npost,0,2,2,1000,\n\
            read,0,3,0,0,0\nread,0,0,2,2,1000\nread,0,1,2,2,1000\nread,0,2,2,2,1000\n\
            sent,0,2,,,\n\
            post,0,0,3,50,\npost,0,1,3,50,\npost,0,2,3,50,\nended,0,0,,,\n\
            line,0,0,1,1,1000\nline,0,0,2,2,1000\nline,0,0,3,3,50\n\
            line,0,1,1,1,1000\nline,0,1,2,2,1000\nline,0,1,3,3,50\n\
            line,0,2,1,1,1000\nline,0,2,2,2,1000\nline,0,2,3,3,50\n",
        status: 0,
        told: b"session 0 whole sent 2 refused 0 noted 0\n\
            tree 0 firm - posts 3 root 50 limit 5000\n\
            tree 1 account ACC posts 3 root 50 limit 100000\n\
            tree 2 symbol XYZ posts 3 root 50 limit 100000\n\
            tree 3 halt - posts 0 root 0 limit 0\n\
            status 0\n",
    },
    Row {
        name: "a gross account: 1,000 are bought, 1,200 more are left, then 950 are sold",
        limits: GROSS_ACCOUNT,
        sessions: &[Session {
            input: &[
                Piece::Whole(BUY),
                Piece::Whole(
                    b"35=8|49=VENUE|56=GATE|34=1|52=20240102-10:00:00|37=O1|11=a1|17=E1|\
                            150=F|39=2|55=XYZ|54=1|38=100|32=100|31=10.00|151=0|14=100|6=10.00|",
                ),
                Piece::Whole(
                    b"35=D|49=C1|56=GATE|34=2|52=20240102-10:00:00|11=a2|1=ACC|55=XYZ|\
                            54=2|38=100|40=2|44=9.00|60=20240102-10:00:00|",
                ),
                Piece::Whole(
                    b"35=8|49=VENUE|56=GATE|34=2|52=20240102-10:00:00|37=O2|11=a2|17=E2|\
                            150=F|39=2|55=XYZ|54=2|38=100|32=100|31=9.50|151=0|14=100|6=9.50|",
                ),
            ],
            venue: &[
                Piece::Whole(BUY_SENT),
                Piece::Whole(
                    b"35=D|49=GATE|56=VENUE|34=2|52=20240102-10:00:00|11=a2|1=ACC|55=XYZ|\
                            54=2|38=100|40=2|44=9.00|60=20240102-10:00:00|",
                ),
            ],
            client: &[
                Piece::Whole(
                    b"35=8|49=GATE|56=C1|34=1|52=20240102-10:00:00|37=O1|11=a1|17=E1|\
                            150=F|39=2|55=XYZ|54=1|38=100|32=100|31=10.00|151=0|14=100|6=10.00|",
                ),
                Piece::Whole(
                    b"35=8|49=GATE|56=C1|34=2|52=20240102-10:00:00|37=O2|11=a2|17=E2|\
                            150=F|39=2|55=XYZ|54=2|38=100|32=100|31=9.50|151=0|14=100|6=9.50|",
                ),
            ],
        }],
        journal: b"kind,session,a,b,c,d\n\
            post,0,0,1,1000,\npost,0,1,1,1000,\npost,0,2,1,1000,\n\
            read,0,3,0,0,0\nread,0,0,1,1,1000\nread,0,1,1,1,1000\nread,0,2,1,1,1000\n\
            sent,0,0,,,\n\
            post,0,0,2,2200,\npost,0,1,2,2200,\npost,0,2,2,2200,\n\
            read,0,3,0,0,0\nread,0,0,2,2,2200\nread,0,1,2,2,2200\nread,0,2,2,2,2200\n\
            sent,0,2,,,\n\
            post,0,0,3,1950,\npost,0,1,3,1950,\npost,0,2,3,1950,\nended,0,0,,,\n\
            line,0,0,1,1,1000\nline,0,0,2,2,2200\nline,0,0,3,3,1950\n\
            line,0,1,1,1,1000\nline,0,1,2,2,2200\nline,0,1,3,3,1950\n\
            line,0,2,1,1,1000\nline,0,2,2,2,2200\nline,0,2,3,3,1950\n",
        status: 0,
        told: b"session 0 whole sent 2 refused 0 noted 0\n\
            tree 0 firm - posts 3 root 1950 limit 5000\n\
            tree 1 account ACC posts 3 root 1950 limit 100000\n\
            tree 2 symbol XYZ posts 3 root 1950 limit 100000\n\
            tree 3 halt - posts 0 root 0 limit 0\n\
            status 0\n",
    },
];
