//! Sequences of messages with the values of the firm, the account and the symbol after each, worked
//! by hand.
use crate::BookFault;
use crate::sequences::Step::{Buy, Cancel, New, Reject, Replace, ReplaceOf, Report, Trade};
use crate::sequences::Want::{All, Over, Refused, Stray, Taken, Values};
use fix_orders::Exec;

/// One message. An account or a report's id that is empty isn't there; a price is ten-thousandths,
/// and 0 of a market order.
#[derive(Clone, Copy, Debug)]
pub(crate) enum Step {
    /// ClOrdID, quantity, price: a buy of the first account in the first symbol.
    Buy(&'static [u8], u64, u64),
    /// ClOrdID, place of the account, place of the symbol, side, quantity, price.
    New(&'static [u8], u32, u32, u8, u64, u64),
    /// ClOrdID, OrigClOrdID.
    Cancel(&'static [u8], &'static [u8]),
    /// ClOrdID, OrigClOrdID, quantity, price: of a buy in the first symbol, without account.
    Replace(&'static [u8], &'static [u8], u64, u64),
    /// ClOrdID, OrigClOrdID, account, symbol, side, quantity, price.
    ReplaceOf(&'static [u8], &'static [u8], &'static [u8], &'static [u8], u8, u64, u64),
    /// ClOrdID, quantity, price: a report of a trade.
    Trade(&'static [u8], u64, u64),
    /// ClOrdID, and what is reported.
    Report(&'static [u8], Exec),
    /// ClOrdID of a cancel reject.
    Reject(&'static [u8]),
}

/// What a message is answered.
#[derive(Clone, Copy, Debug, PartialEq, Eq)]
pub(crate) enum Want {
    /// The same value of the firm, the account and the symbol.
    All(u64),
    /// The values of the firm, the account and the symbol.
    Values(u64, u64, u64),
    /// A cancel is taken.
    Taken,
    Refused(BookFault),
    Stray,
    Over,
}

pub(crate) const BUY: u8 = b'1';

pub(crate) const SELL: u8 = b'2';

const SHORT: u8 = b'5';

const EXEMPT: u8 = b'6';

/// Name, and each message with what it is answered.
pub(crate) const SEQUENCES: [(&str, &[(Step, Want)]); 41] = [
    (
        "a buy counts at its price",
        &[(Buy(b"a1", 100, 100000), All(1000))],
    ),
    (
        "a sell counts at the upper collar price",
        &[(New(b"a1", 0, 0, SELL, 100, 90000), All(1200))],
    ),
    (
        "a short sale counts as a sale",
        &[
            (New(b"a1", 0, 0, SHORT, 100, 90000), All(1200)),
            (New(b"a2", 0, 0, EXEMPT, 10, 10000), All(1320)),
        ],
    ),
    (
        "a market order counts at the upper collar price",
        &[
            (Buy(b"a1", 10, 0), All(120)),
            (New(b"a2", 0, 0, SELL, 10, 0), All(240)),
        ],
    ),
    (
        "orders are rounded up once, and not one by one",
        &[
            (Buy(b"a1", 1, 1), All(1)),
            (Buy(b"a2", 1, 1), All(1)),
            (Buy(b"a3", 1, 9998), All(1)),
            (Buy(b"a4", 1, 1), All(2)),
        ],
    ),
    (
        "a fill below the reserve price, and one beyond it",
        &[
            (New(b"a1", 0, 0, SELL, 100, 90000), All(1200)),
            (Trade(b"a1", 40, 95000), All(1100)),
            (Trade(b"a1", 10, 120001), Over),
            (Trade(b"a1", 61, 90000), Over),
            (Trade(b"a1", 60, 120000), All(1100)),
        ],
    ),
    (
        "a replace that the venue rejects",
        &[
            (Buy(b"a1", 100, 100000), All(1000)),
            (Replace(b"b1", b"a1", 150, 100000), All(1500)),
            (Reject(b"b1"), All(1000)),
        ],
    ),
    (
        "a replace that lowers counts once it has taken place",
        &[
            (Buy(b"a1", 100, 100000), All(1000)),
            (Replace(b"b1", b"a1", 80, 100000), All(1000)),
            (Report(b"b1", Exec::Replaced), All(800)),
        ],
    ),
    (
        "an id stands once",
        &[
            (Buy(b"a1", 100, 100000), All(1000)),
            (Buy(b"a1", 1, 100000), Refused(BookFault::Duplicate)),
            (Buy(b"a2", 1, 100000), All(1010)),
        ],
    ),
    (
        "an unknown order",
        &[
            (
                Replace(b"b1", b"zz", 10, 100000),
                Refused(BookFault::Unknown),
            ),
            (Cancel(b"c1", b"zz"), Refused(BookFault::Unknown)),
        ],
    ),
    (
        "fills on both sides of a replace",
        &[
            (Buy(b"a1", 100, 100000), All(1000)),
            (Trade(b"a1", 30, 90000), All(970)),
            (Replace(b"b1", b"a1", 150, 100000), All(1470)),
            (Trade(b"a1", 20, 90000), All(1450)),
            (Report(b"b1", Exec::Replaced), All(1450)),
            (Trade(b"b1", 100, 100000), All(1450)),
            (Trade(b"b1", 1, 10000), Over),
        ],
    ),
    (
        "a replace up, rejected by a report",
        &[
            (Buy(b"a1", 100, 100000), All(1000)),
            (Replace(b"b1", b"a1", 150, 110000), All(1650)),
            (Report(b"b1", Exec::Rejected), All(1000)),
            (Trade(b"a1", 100, 100001), Over),
            (Trade(b"a1", 100, 100000), All(1000)),
        ],
    ),
    (
        "a replace down, and filled beyond it",
        &[
            (Buy(b"a1", 100, 100000), All(1000)),
            (Replace(b"b1", b"a1", 40, 100000), All(1000)),
            (Trade(b"a1", 60, 100000), All(1000)),
            (Report(b"b1", Exec::Replaced), All(600)),
            (Trade(b"b1", 1, 100000), Over),
            (
                Replace(b"c1", b"b1", 100, 100000),
                Refused(BookFault::Closed),
            ),
        ],
    ),
    (
        "a fill while a cancel is pending",
        &[
            (Buy(b"a1", 100, 100000), All(1000)),
            (Cancel(b"c1", b"a1"), Taken),
            (Trade(b"a1", 40, 100000), All(1000)),
            (Report(b"c1", Exec::Canceled), All(400)),
            (Trade(b"a1", 1, 10000), Over),
        ],
    ),
    (
        "two orders of one symbol in two accounts",
        &[
            (Buy(b"a1", 100, 100000), All(1000)),
            (New(b"a2", 1, 0, BUY, 50, 100000), Values(1500, 500, 1500)),
            (Trade(b"a1", 100, 80000), Values(1300, 800, 1300)),
            (Report(b"a2", Exec::Canceled), Values(800, 0, 800)),
        ],
    ),
    (
        "two symbols of one account",
        &[
            (Buy(b"a1", 100, 100000), All(1000)),
            (New(b"a2", 0, 1, BUY, 10, 200000), Values(1200, 1200, 200)),
            (Trade(b"a2", 10, 190000), Values(1190, 1190, 190)),
            (Report(b"a1", Exec::Expired), Values(190, 190, 0)),
        ],
    ),
    (
        "an order of another account and another symbol",
        &[
            (Buy(b"a1", 100, 100000), All(1000)),
            (New(b"a2", 1, 1, BUY, 10, 200000), Values(1200, 200, 200)),
            (Report(b"a1", Exec::Canceled), Values(200, 0, 0)),
            (Report(b"a2", Exec::New), All(200)),
        ],
    ),
    (
        "an id of a cancel, and then of an order",
        &[
            (Buy(b"a1", 100, 100000), All(1000)),
            (Cancel(b"c1", b"a1"), Taken),
            (Buy(b"c1", 1, 10000), Refused(BookFault::Duplicate)),
        ],
    ),
    (
        "an id of a replace that was rejected stays an id",
        &[
            (Buy(b"a1", 100, 100000), All(1000)),
            (Replace(b"b1", b"a1", 120, 100000), All(1200)),
            (Reject(b"b1"), All(1000)),
            (Cancel(b"b1", b"a1"), Refused(BookFault::Duplicate)),
            (Trade(b"b1", 10, 50000), All(950)),
        ],
    ),
    (
        "an id that was refused is free",
        &[
            (
                Replace(b"b1", b"zz", 10, 100000),
                Refused(BookFault::Unknown),
            ),
            (Report(b"b1", Exec::Canceled), Stray),
            (Buy(b"b1", 100, 100000), All(1000)),
        ],
    ),
    (
        "a report for the id of a refused order",
        &[
            (Buy(b"a1", 100, 100000), All(1000)),
            (
                ReplaceOf(b"r1", b"a1", b"", b"ABC", BUY, 100, 100000),
                Refused(BookFault::Mismatch),
            ),
            (Trade(b"r1", 1, 10000), Stray),
            (Report(b"r1", Exec::Rejected), Stray),
        ],
    ),
    (
        "a report with no id or an unknown one",
        &[
            (Buy(b"a1", 100, 100000), All(1000)),
            (Report(b"", Exec::Canceled), Stray),
            (Trade(b"zz", 1, 10000), Stray),
            (Reject(b"zz"), Stray),
        ],
    ),
    (
        "a second request waits",
        &[
            (Buy(b"a1", 100, 100000), All(1000)),
            (Cancel(b"c1", b"a1"), Taken),
            (Cancel(b"c2", b"a1"), Refused(BookFault::Pending)),
            (
                Replace(b"c3", b"a1", 120, 100000),
                Refused(BookFault::Pending),
            ),
        ],
    ),
    (
        "a cancel that is rejected can be asked again",
        &[
            (Buy(b"a1", 100, 100000), All(1000)),
            (Cancel(b"c1", b"a1"), Taken),
            (Reject(b"c1"), All(1000)),
            (Cancel(b"c2", b"a1"), Taken),
        ],
    ),
    (
        "a request by an old id",
        &[
            (Buy(b"a1", 100, 100000), All(1000)),
            (Replace(b"b1", b"a1", 120, 100000), All(1200)),
            (Report(b"b1", Exec::Replaced), All(1200)),
            (Cancel(b"c1", b"a1"), Refused(BookFault::Unknown)),
            (Cancel(b"c2", b"b1"), Taken),
        ],
    ),
    (
        "a request on a filled order",
        &[
            (Buy(b"a1", 10, 100000), All(100)),
            (Trade(b"a1", 10, 90000), All(90)),
            (Cancel(b"c1", b"a1"), Refused(BookFault::Closed)),
            (
                Replace(b"b1", b"a1", 20, 100000),
                Refused(BookFault::Closed),
            ),
        ],
    ),
    (
        "an order that was canceled",
        &[
            (Buy(b"a1", 100, 100000), All(1000)),
            (Report(b"a1", Exec::Canceled), All(0)),
            (Cancel(b"c1", b"a1"), Refused(BookFault::Closed)),
            (Report(b"a1", Exec::Replaced), All(0)),
            (Trade(b"a1", 1, 1), Over),
        ],
    ),
    (
        "an order that expires after a fill",
        &[
            (Buy(b"a1", 100, 100000), All(1000)),
            (Trade(b"a1", 30, 100000), All(1000)),
            (Report(b"a1", Exec::Expired), All(300)),
            (Report(b"a1", Exec::Rejected), All(300)),
        ],
    ),
    (
        "an order that is rejected",
        &[
            (Buy(b"a1", 100, 100000), All(1000)),
            (Report(b"a1", Exec::Rejected), All(0)),
            (Trade(b"a1", 1, 10000), Over),
        ],
    ),
    (
        "a reject with an old id changes nothing",
        &[
            (Buy(b"a1", 100, 100000), All(1000)),
            (Replace(b"b1", b"a1", 120, 100000), All(1200)),
            (Report(b"b1", Exec::Replaced), All(1200)),
            (Report(b"a1", Exec::Rejected), All(1200)),
            (Reject(b"a1"), All(1200)),
            (Report(b"b1", Exec::Rejected), All(0)),
        ],
    ),
    (
        "a replace below what is filled",
        &[
            (Buy(b"a1", 100, 100000), All(1000)),
            (Trade(b"a1", 40, 100000), All(1000)),
            (
                Replace(b"b1", b"a1", 40, 100000),
                Refused(BookFault::Quantity),
            ),
            (Replace(b"b1", b"a1", 41, 100000), All(1000)),
            (Report(b"b1", Exec::Replaced), All(410)),
        ],
    ),
    (
        "a replace of another account, symbol or side",
        &[
            (Buy(b"a1", 100, 100000), All(1000)),
            (
                ReplaceOf(b"b1", b"a1", b"OTHER", b"XYZ", BUY, 100, 100000),
                Refused(BookFault::Mismatch),
            ),
            (
                ReplaceOf(b"b1", b"a1", b"", b"ABC", BUY, 100, 100000),
                Refused(BookFault::Mismatch),
            ),
            (
                ReplaceOf(b"b1", b"a1", b"", b"XYZ", SELL, 100, 100000),
                Refused(BookFault::Mismatch),
            ),
            (
                ReplaceOf(b"b1", b"a1", b"ACC", b"XYZ", BUY, 110, 100000),
                All(1100),
            ),
        ],
    ),
    (
        "the most that a leaf holds",
        &[
            (Buy(b"a1", 1000000000, 42949), All(4294900000)),
            (Buy(b"a2", 67295, 10000), All(4294967295)),
            (Buy(b"a3", 1, 1), Refused(BookFault::Cap)),
            (Replace(b"b1", b"a2", 67296, 10000), Refused(BookFault::Cap)),
            (Report(b"a2", Exec::Canceled), All(4294900000)),
            (Buy(b"a3", 1, 1), All(4294900001)),
        ],
    ),
    (
        "a replace by a market order",
        &[
            (Buy(b"a1", 100, 100000), All(1000)),
            (Replace(b"b1", b"a1", 100, 0), All(1200)),
            (Trade(b"a1", 10, 120000), All(1200)),
            (Report(b"b1", Exec::Replaced), All(1200)),
        ],
    ),
    (
        "a replace at a lower price",
        &[
            (Buy(b"a1", 100, 100000), All(1000)),
            (Replace(b"b1", b"a1", 100, 80000), All(1000)),
            (Trade(b"a1", 10, 100000), All(1000)),
            (Report(b"b1", Exec::Replaced), All(820)),
            (Trade(b"b1", 1, 80001), Over),
        ],
    ),
    (
        "a replace at a higher price",
        &[
            (Buy(b"a1", 100, 100000), All(1000)),
            (Replace(b"b1", b"a1", 100, 110000), All(1100)),
            (Trade(b"a1", 50, 110000), All(1100)),
            (Report(b"b1", Exec::Replaced), All(1100)),
        ],
    ),
    (
        "a replace at a lower price for more, and a fill at the old price",
        &[
            (Buy(b"a1", 100, 100000), All(1000)),
            (Replace(b"b1", b"a1", 200, 50000), All(2000)),
            (Trade(b"b1", 100, 100000), All(2000)),
            (Report(b"b1", Exec::Replaced), All(1500)),
        ],
    ),
    (
        "reports that change nothing",
        &[
            (Buy(b"a1", 100, 100000), All(1000)),
            (Report(b"a1", Exec::New), All(1000)),
            (Report(b"a1", Exec::Else), All(1000)),
            (Report(b"a1", Exec::Replaced), All(1000)),
        ],
    ),
    (
        "a cancel isn't replaced",
        &[
            (Buy(b"a1", 100, 100000), All(1000)),
            (Cancel(b"c1", b"a1"), Taken),
            (Report(b"c1", Exec::Replaced), All(1000)),
            (Cancel(b"c2", b"a1"), Refused(BookFault::Pending)),
            (Report(b"c1", Exec::Rejected), All(1000)),
            (Cancel(b"c2", b"a1"), Taken),
        ],
    ),
    (
        "fills by the id of a replace that is then rejected",
        &[
            (Buy(b"a1", 100, 100000), All(1000)),
            (Replace(b"b1", b"a1", 150, 100000), All(1500)),
            (Trade(b"b1", 150, 100000), All(1500)),
            (Reject(b"b1"), All(1500)),
            (Trade(b"a1", 1, 10000), Over),
        ],
    ),
    (
        "a cancel reject of a replace by the id of the order changes nothing",
        &[
            (Buy(b"a1", 100, 100000), All(1000)),
            (Replace(b"b1", b"a1", 150, 100000), All(1500)),
            (Reject(b"a1"), All(1500)),
            (Report(b"a1", Exec::Canceled), All(0)),
            (Reject(b"b1"), All(0)),
        ],
    ),
];
