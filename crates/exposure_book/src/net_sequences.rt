//! Sequences of messages with the values of the firm, the account and the symbol after each, worked
//! by hand. The first account is net, and the second is gross.
use crate::BookFault;
use crate::sequences::Step::{Buy, New, Reject, Replace, Trade};
use crate::sequences::Want::{All, Refused, Values};
use crate::sequences::{BUY, SELL, Step, Want};

/// Name, and each message with what it is answered.
pub(crate) const NET_SEQUENCES: [(&str, &[(Step, Want)]); 8] = [
    (
        // 1,000 bought; a sell for 1,200 counts for 200 beside it, and leaves 50 once it is filled.
        "a sell behind a filled buy",
        &[
            (Buy(b"a1", 100, 100000), All(1000)),
            (Trade(b"a1", 100, 100000), All(1000)),
            (New(b"a2", 0, 0, SELL, 100, 90000), All(1000)),
            (Trade(b"a2", 100, 95000), All(50)),
        ],
    ),
    (
        "the same of a gross account",
        &[
            (New(b"a1", 1, 0, BUY, 100, 100000), All(1000)),
            (Trade(b"a1", 100, 100000), All(1000)),
            (New(b"a2", 1, 0, SELL, 100, 90000), All(2200)),
            (Trade(b"a2", 100, 95000), All(1950)),
        ],
    ),
    (
        // 100 bought, 300 sold, then 500 more bought.
        "buys and sells that cross zero",
        &[
            (Buy(b"a1", 10, 100000), All(100)),
            (Trade(b"a1", 10, 100000), All(100)),
            (New(b"a2", 0, 0, SELL, 30, 90000), All(260)),
            (Trade(b"a2", 30, 100000), All(200)),
            (Buy(b"a3", 50, 100000), All(300)),
            (Trade(b"a3", 50, 100000), All(300)),
        ],
    ),
    (
        // The sell counts for 600 and then 580; what was sold offsets the buy.
        "a fill below the reserve on the smaller side",
        &[
            (Buy(b"a1", 100, 100000), All(1000)),
            (New(b"a2", 0, 0, SELL, 50, 90000), All(1000)),
            (Trade(b"a2", 20, 110000), All(780)),
        ],
    ),
    (
        "a refused replace",
        &[
            (Buy(b"a1", 100, 100000), All(1000)),
            (Trade(b"a1", 60, 100000), All(1000)),
            (New(b"a2", 0, 0, SELL, 50, 90000), All(1000)),
            (Replace(b"b1", b"a1", 150, 100000), All(1500)),
            (Reject(b"b1"), All(1000)),
        ],
    ),
    (
        "two symbols of one account don't offset each other",
        &[
            (Buy(b"a1", 100, 100000), All(1000)),
            (Trade(b"a1", 100, 100000), All(1000)),
            (New(b"a2", 0, 1, SELL, 10, 150000), Values(1200, 1200, 200)),
            (Trade(b"a2", 10, 150000), Values(1150, 1150, 150)),
        ],
    ),
    (
        "a net account beside a gross one",
        &[
            (Buy(b"a1", 100, 100000), All(1000)),
            (Trade(b"a1", 100, 100000), All(1000)),
            (New(b"a2", 1, 0, BUY, 100, 100000), Values(2000, 1000, 2000)),
            (New(b"a3", 1, 0, SELL, 100, 90000), Values(3200, 2200, 3200)),
            (New(b"a4", 0, 0, SELL, 100, 90000), Values(3200, 1000, 3200)),
        ],
    ),
    (
        "an order that no leaf can hold",
        &[
            (
                Buy(b"a1", 1_000_000_000, 9_999_999_999),
                Refused(BookFault::Cap),
            ),
            (Buy(b"a2", 1, 100000), All(10)),
        ],
    ),
];
