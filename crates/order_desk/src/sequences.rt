//! Sequences of messages of one session, each message with what comes of it, the acts that it makes
//! and what was last posted in each tree after it, worked by hand.
use crate::Effect::{Applied, NotLowered, Over, Stray};
use crate::Refusal::{
    Account, Cap, Closed, Duplicate, Firm, Halt, Mismatch, Pending, Quantity, Quota, Symbol,
    Unknown, UnknownAccount, UnknownSymbol,
};
use crate::sequences::Answer::{Refused, Sent, Settled};
use crate::sequences::Posted::{All, Trees};
use crate::sequences::Step::{Buy, Cancel, New, NoId, Reject, Replace, ReplaceOf, Report, Trade};
use crate::{Effect, Refusal};
use fix_orders::Exec;
use fix_orders::Exec::{Canceled, Else, Expired, Rejected, Replaced};

/// One message. A price is in ten-thousandths of a currency unit.
#[derive(Clone, Copy, Debug)]
pub(crate) enum Step {
    /// ClOrdID, quantity, price: a buy of ACC in XYZ.
    Buy(&'static [u8], u64, u64),
    /// ClOrdID, account, symbol, side, quantity, price.
    New(&'static [u8], &'static [u8], &'static [u8], u8, u64, u64),
    /// ClOrdID, OrigClOrdID.
    Cancel(&'static [u8], &'static [u8]),
    /// ClOrdID, OrigClOrdID, quantity, price: of a buy in XYZ, without account.
    Replace(&'static [u8], &'static [u8], u64, u64),
    /// ClOrdID, OrigClOrdID, account, symbol, side, quantity, price.
    ReplaceOf(&'static [u8], &'static [u8], &'static [u8], &'static [u8], u8, u64, u64),
    /// ClOrdID, quantity, price: a report of a trade.
    Trade(&'static [u8], u64, u64),
    /// ClOrdID, and what is reported.
    Report(&'static [u8], Exec),
    /// A report without an id.
    NoId(Exec),
    /// ClOrdID of a cancel reject.
    Reject(&'static [u8]),
}

/// What comes of a message.
#[derive(Clone, Copy, Debug, PartialEq, Eq)]
pub(crate) enum Answer {
    /// The request is sent.
    Sent,
    Refused(Refusal),
    /// A report or a cancel reject.
    Settled(Effect),
}

/// What was last posted in the trees.
#[derive(Clone, Copy, Debug)]
pub(crate) enum Posted {
    /// The same in each tree.
    All(u64),
    /// In the firm's tree, then in those of the accounts, then in those of the symbols.
    Trees(&'static [u64]),
}

/// A message, what comes of it, how many acts it makes, and what was last posted then.
pub(crate) type Turn = (Step, Answer, usize, Posted);

/// The messages of one session over these limits.
#[derive(Clone, Copy)]
pub(crate) struct Sequence {
    pub name: &'static str,
    pub limits: &'static [u8],
    /// Whether another session has tripped the halt tree before the first message.
    pub halted: bool,
    pub turns: &'static [Turn],
}

/// A sequence over limits in which no other session has halted, with a line a turn.
macro_rules! over {
    ($limits:ident, $name:literal; $($step:expr => $answer:expr, $acts:expr, $posted:expr;)+) => {
        Sequence {
            name: $name,
            limits: $limits,
            halted: false,
            turns: &[$(($step, $answer, $acts, $posted)),+],
        }
    };
}

pub(crate) use over;

const SELL: u8 = b'2';

/// An account and a symbol up to 12.0000, with limits that no order here passes.
const WIDE: &[u8] = b"firm,,5000,,,\naccount,ACC,100000,,,\nsymbol,XYZ,100000,1,12,100000\n";

/// The same with a firm's limit of 1,000.
const THOUSAND: &[u8] = b"firm,,1000,,,\naccount,ACC,100000,,,\nsymbol,XYZ,100000,1,12,100000\n";

/// Two posts of a session in each tree.
const TWO_POSTS: &[u8] =
    b"firm,,5000,,,\naccount,ACC,100000,,,\nsymbol,XYZ,100000,1,12,100000\nquota,,2,,,\n";

/// Two accounts, the second with a limit of 500; a symbol up to 12.0000 with a limit of 900, and
/// one up to 20.0000.
const FOUR: &[u8] = b"firm,,5000,,,
account,ACC,5000,,,
account,OTHER,500,,,
symbol,XYZ,900,1,12,100000
symbol,ABC,5000,1,20,100000
";

/// Limits at what a leaf can hold.
const HUGE: &[u8] = b"firm,,4294967295,,,
account,ACC,4294967295,,,
symbol,XYZ,4294967295,1,999999.9999,1000000000
";

/// The sequences. Another session has halted in the last of them alone.
pub(crate) const SEQUENCES: [Sequence; 20] = [
    over! { WIDE, "a sell, a fill below the reserve price, and one above it";
        New(b"a1", b"ACC", b"XYZ", SELL, 100, 90000) => Sent, 7, All(1200);
        Trade(b"a1", 40, 95000) => Settled(Applied), 3, All(1100);
        Trade(b"a1", 10, 120001) => Settled(Over), 0, All(1100);
        Trade(b"a1", 61, 90000) => Settled(Over), 0, All(1100);
    },
    over! { WIDE, "a replace that the venue rejects";
        Buy(b"a1", 100, 100000) => Sent, 7, All(1000);
        Replace(b"b1", b"a1", 150, 100000) => Sent, 7, All(1500);
        Reject(b"b1") => Settled(Applied), 3, All(1000);
        Reject(b"b1") => Settled(Applied), 0, All(1000);
        Reject(b"zz") => Settled(Stray), 0, All(1000);
    },
    over! { WIDE, "a replace that lowers is sent at once, and posted once it has taken place";
        Buy(b"a1", 100, 100000) => Sent, 7, All(1000);
        Replace(b"b1", b"a1", 80, 100000) => Sent, 0, All(1000);
        Report(b"b1", Replaced) => Settled(Applied), 3, All(800);
    },
    over! { WIDE, "a replace at a lower price, and one above what was posted";
        Buy(b"a1", 100, 100000) => Sent, 7, All(1000);
        Replace(b"b1", b"a1", 100, 50000) => Sent, 0, All(1000);
        Report(b"b1", Replaced) => Settled(Applied), 3, All(500);
        Replace(b"b2", b"b1", 100, 50001) => Sent, 7, All(501);
    },
    over! { THOUSAND, "a refused order leaves its id, and a sent one keeps it";
        Buy(b"a1", 200, 100000) => Refused(Firm), 10, All(0);
        Buy(b"a1", 100, 100000) => Sent, 7, All(1000);
        Buy(b"a1", 100, 100000) => Refused(Duplicate), 0, All(1000);
    },
    over! { THOUSAND, "a refused replace leaves order and id as they were";
        Buy(b"a1", 90, 100000) => Sent, 7, All(900);
        Replace(b"b1", b"a1", 101, 100000) => Refused(Firm), 10, All(900);
        Replace(b"b1", b"a1", 100, 100000) => Sent, 7, All(1000);
        Report(b"b1", Rejected) => Settled(Applied), 3, All(900);
    },
    over! { TWO_POSTS, "too few posts";
        Buy(b"a1", 100, 100000) => Sent, 7, All(1000);
        Trade(b"a1", 40, 95000) => Settled(Applied), 3, All(980);
        Buy(b"a2", 1, 100000) => Refused(Quota), 0, All(980);
        Trade(b"a1", 10, 90000) => Settled(NotLowered), 0, All(980);
        Replace(b"b1", b"a1", 102, 100000) => Refused(Quota), 0, All(980);
        Replace(b"b1", b"a1", 101, 100000) => Sent, 0, All(980);
        Report(b"b1", Else) => Settled(Applied), 0, All(980);
        Report(b"b1", Rejected) => Settled(NotLowered), 0, All(980);
    },
    over! { WIDE, "reports that change no value";
        Buy(b"a1", 100, 95000) => Sent, 7, All(950);
        Report(b"a1", Exec::New) => Settled(Applied), 0, All(950);
        Trade(b"a1", 100, 95000) => Settled(Applied), 0, All(950);
        Report(b"a1", Canceled) => Settled(Applied), 0, All(950);
    },
    over! { WIDE, "reports of no order";
        Buy(b"a1", 100, 100000) => Sent, 7, All(1000);
        Report(b"zz", Canceled) => Settled(Stray), 0, All(1000);
        NoId(Canceled) => Settled(Stray), 0, All(1000);
    },
    over! { WIDE, "orders that end";
        Buy(b"a1", 100, 100000) => Sent, 7, All(1000);
        Buy(b"a2", 10, 100000) => Sent, 7, All(1100);
        Buy(b"a3", 1, 100000) => Sent, 7, All(1110);
        Trade(b"a1", 25, 100000) => Settled(Applied), 0, All(1110);
        Report(b"a1", Canceled) => Settled(Applied), 3, All(360);
        Report(b"a2", Expired) => Settled(Applied), 3, All(260);
        Report(b"a3", Rejected) => Settled(Applied), 3, All(250);
    },
    over! { FOUR, "a value rounded up once falls in some trees alone";
        Buy(b"a1", 1, 10001) => Sent, 7, Trees(&[2, 2, 0, 2, 0]);
        New(b"a2", b"OTHER", b"ABC", b'1', 1, 5000) => Sent, 7, Trees(&[2, 2, 1, 2, 1]);
        Trade(b"a1", 1, 10000) => Settled(Applied), 2, Trees(&[2, 1, 1, 1, 1]);
    },
    over! { FOUR, "an order counts in its own three trees";
        Buy(b"a1", 10, 100000) => Sent, 7, Trees(&[100, 100, 0, 100, 0]);
        New(b"a2", b"OTHER", b"ABC", SELL, 10, 100000)
            => Sent, 7, Trees(&[300, 100, 200, 100, 200]);
        New(b"a3", b"OTHER", b"ABC", SELL, 16, 100000)
            => Refused(Account), 10, Trees(&[300, 100, 200, 100, 200]);
        Buy(b"a3", 81, 100000) => Refused(Symbol), 10, Trees(&[300, 100, 200, 100, 200]);
        ReplaceOf(b"b2", b"a2", b"OTHER", b"ABC", SELL, 26, 100000)
            => Refused(Account), 10, Trees(&[300, 100, 200, 100, 200]);
        Replace(b"b1", b"a1", 91, 100000) => Refused(Symbol), 10, Trees(&[300, 100, 200, 100, 200]);
        ReplaceOf(b"b2", b"a2", b"OTHER", b"ABC", SELL, 25, 100000)
            => Sent, 7, Trees(&[600, 100, 500, 100, 500]);
    },
    over! { WIDE, "an unknown account comes first, then an unknown symbol";
        Buy(b"a1", 1, 100000) => Sent, 7, All(10);
        New(b"a1", b"NONE", b"NONE", b'1', 1, 100000) => Refused(UnknownAccount), 0, All(10);
        New(b"a1", b"ACC", b"NONE", b'1', 1, 100000) => Refused(UnknownSymbol), 0, All(10);
        Buy(b"a1", 1, 100000) => Refused(Duplicate), 0, All(10);
    },
    over! { WIDE, "requests on no order, and on one that isn't named by its current id";
        Replace(b"b1", b"zz", 1, 100000) => Refused(Unknown), 0, All(0);
        Cancel(b"c1", b"zz") => Refused(Unknown), 0, All(0);
        Buy(b"a1", 100, 100000) => Sent, 7, All(1000);
        Replace(b"b1", b"a1", 100, 100000) => Sent, 0, All(1000);
        Report(b"b1", Replaced) => Settled(Applied), 0, All(1000);
        Replace(b"b2", b"a1", 90, 100000) => Refused(Unknown), 0, All(1000);
        Cancel(b"c1", b"a1") => Refused(Unknown), 0, All(1000);
        Cancel(b"c1", b"b1") => Sent, 0, All(1000);
    },
    over! { WIDE, "a request while one is pending, and on a closed order";
        Buy(b"a1", 100, 100000) => Sent, 7, All(1000);
        Cancel(b"c1", b"a1") => Sent, 0, All(1000);
        Cancel(b"c1", b"a1") => Refused(Duplicate), 0, All(1000);
        Cancel(b"c2", b"a1") => Refused(Pending), 0, All(1000);
        Replace(b"b1", b"a1", 200, 100000) => Refused(Pending), 0, All(1000);
        Report(b"c1", Canceled) => Settled(Applied), 3, All(0);
        Cancel(b"c2", b"a1") => Refused(Closed), 0, All(0);
        Replace(b"b1", b"a1", 200, 100000) => Refused(Closed), 0, All(0);
        Replace(b"a1", b"a1", 200, 100000) => Refused(Duplicate), 0, All(0);
    },
    over! { WIDE, "a cancel that the venue rejects";
        Buy(b"a1", 100, 100000) => Sent, 7, All(1000);
        Cancel(b"c1", b"a1") => Sent, 0, All(1000);
        Reject(b"c1") => Settled(Applied), 0, All(1000);
        Cancel(b"c2", b"a1") => Sent, 0, All(1000);
    },
    over! { FOUR, "a replace of another account, symbol or side";
        Buy(b"a1", 10, 100000) => Sent, 7, Trees(&[100, 100, 0, 100, 0]);
        ReplaceOf(b"b1", b"a1", b"OTHER", b"XYZ", b'1', 20, 100000)
            => Refused(Mismatch), 0, Trees(&[100, 100, 0, 100, 0]);
        ReplaceOf(b"b1", b"a1", b"ACC", b"ABC", b'1', 20, 100000)
            => Refused(Mismatch), 0, Trees(&[100, 100, 0, 100, 0]);
        ReplaceOf(b"b1", b"a1", b"ACC", b"XYZ", SELL, 20, 100000)
            => Refused(Mismatch), 0, Trees(&[100, 100, 0, 100, 0]);
        ReplaceOf(b"b1", b"a1", b"ACC", b"XYZ", b'1', 20, 100000)
            => Sent, 7, Trees(&[200, 200, 0, 200, 0]);
    },
    over! { WIDE, "a replace to what is filled";
        Buy(b"a1", 100, 100000) => Sent, 7, All(1000);
        Trade(b"a1", 40, 100000) => Settled(Applied), 0, All(1000);
        Replace(b"b1", b"a1", 40, 100000) => Refused(Quantity), 0, All(1000);
        Replace(b"b1", b"a1", 41, 100000) => Sent, 0, All(1000);
        Report(b"b1", Replaced) => Settled(Applied), 3, All(410);
    },
    over! { HUGE, "more than a leaf can hold";
        Buy(b"a1", 1000000000, 42950) => Refused(Cap), 0, All(0);
        Buy(b"a1", 1000000000, 42949) => Sent, 7, All(4294900000);
        Replace(b"b1", b"a1", 1000000000, 42950) => Refused(Cap), 0, All(4294900000);
    },
    Sequence {
        halted: true,
        ..over! { WIDE, "somebody has halted";
            Buy(b"a1", 1, 100000) => Refused(Halt), 10, All(0);
            Buy(b"a1", 1000, 100000) => Refused(Halt), 10, All(0);
        }
    },
];
