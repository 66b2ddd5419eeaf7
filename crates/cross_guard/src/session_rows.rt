//! What comes to the sessions of the tests, as rows of tables.

/// What comes: a request with its ids, Side (54), the fields of its price and OrderQty (38), or a report.
#[derive(Clone, Copy)]
pub(crate) enum Comes {
    /// An order (D).
    Order(&'static str, u8, &'static str, u32),
    /// A replace (G): the second id is its OrigClOrdID (41).
    Replace(&'static str, &'static str, u8, &'static str, u32),
    /// A cancel (F).
    Cancel(&'static str, &'static str),
    /// A report (8) of this ExecType (150).
    Report(&'static str, u8),
    /// A trade of so many.
    Trade(&'static str, u32),
    /// A cancel reject (9).
    CancelReject(&'static str),
    /// The frame of this body.
    Body(&'static str),
    /// These bytes.
    Raw(&'static str),
}

/// What comes, by its name, whether it is passed, and the values that are posted of it.
pub(crate) type Row = (&'static str, Comes, bool, &'static [u64]);

pub(crate) const BUY: u8 = b'1';

pub(crate) const SELL: u8 = b'2';

pub(crate) const AT_MARKET: &str = "40=1|";

pub(crate) const AT_10: &str = "40=2|44=10.0000|";

pub(crate) const AT_10_01: &str = "40=2|44=10.0100|";

pub(crate) const AT_9_99: &str = "40=2|44=9.9900|";

/// Collars of 1.00 and 12.00, with a price level for each ten-thousandth.
pub(crate) const XYZ: &[u8] = b"firm,,1000,,,\naccount,ACC,1000,,,\nsymbol,XYZ,1000,1,12,100000\n";

/// The same with three posts.
pub(crate) const FEW: &[u8] =
    b"firm,,1000,,,\naccount,ACC,1000,,,\nsymbol,XYZ,1000,1,12,100000\nquota,,3,,,\n";

/// Collars with a price level for each second price.
pub(crate) const WIDE: &[u8] =
    b"firm,,1000,,,\naccount,ACC,1000,,,\nsymbol,XYZ,1000,0.0001,104.8573,100000\n";

/// Limits without a symbol.
pub(crate) const NONE: &[u8] = b"firm,,1000,,,\naccount,ACC,1000,,,\n";

/// A sell at 10.00, a buy at its price, and one below it.
pub(crate) const SELL_THEN_BUYS: [Row; 3] = [
    (
        "a sell alone",
        Comes::Order("a1", SELL, AT_10, 10),
        true,
        &[434_287],
    ),
    (
        "a buy at its price",
        Comes::Order("a2", BUY, AT_10, 10),
        false,
        &[47_186_878_575, 434_287],
    ),
    (
        "a buy below",
        Comes::Order("a3", BUY, AT_9_99, 10),
        true,
        &[47_134_449_775],
    ),
];

/// A sell that is canceled before a buy at its price.
pub(crate) const SELL_CANCELED: [Row; 3] = [
    (
        "a sell alone",
        Comes::Order("a1", SELL, AT_10, 10),
        true,
        &[434_287],
    ),
    ("it is canceled", Comes::Report("a1", b'4'), true, &[0]),
    (
        "a buy at its price",
        Comes::Order("a2", BUY, AT_10, 10),
        true,
        &[47_186_444_288],
    ),
];

pub(crate) const REPLACES_IN_A_CHAIN: [Row; 11] = [
    (
        "a sell at 10.00",
        Comes::Order("a1", SELL, AT_10, 10),
        true,
        &[434_287],
    ),
    (
        "a replace to 10.01: the lower counts",
        Comes::Replace("a2", "a1", SELL, AT_10_01, 10),
        true,
        &[434_287],
    ),
    (
        "a buy at 10.00 meets the first term",
        Comes::Order("b1", BUY, AT_10, 10),
        false,
        &[47_186_878_575, 434_287],
    ),
    (
        "the sell is replaced",
        Comes::Report("a2", b'5'),
        true,
        &[434_187],
    ),
    (
        "a buy at 10.00 is below it",
        Comes::Order("b2", BUY, AT_10, 10),
        true,
        &[47_186_878_475],
    ),
    (
        "a replace of the sell to 9.99 meets the buy",
        Comes::Replace("a3", "a2", SELL, AT_9_99, 10),
        false,
        &[47_186_878_675, 47_186_878_475],
    ),
    (
        "the buy expires",
        Comes::Report("b2", b'C'),
        true,
        &[434_187],
    ),
    (
        "a replace to 9.99 by the first id",
        Comes::Replace("a4", "a1", SELL, AT_9_99, 10),
        true,
        &[434_387],
    ),
    (
        "a cancel, whose id is one more",
        Comes::Cancel("a5", "a4"),
        true,
        &[],
    ),
    (
        "a cancel reject of the replace",
        Comes::CancelReject("a4"),
        true,
        &[434_187],
    ),
    (
        "the sell is canceled by that id",
        Comes::Report("a5", b'4'),
        true,
        &[0],
    ),
];

pub(crate) const TRADES_IN_PARTS: [Row; 8] = [
    (
        "a buy of 10 at 10.00",
        Comes::Order("b1", BUY, AT_10, 10),
        true,
        &[47_186_444_288],
    ),
    ("a trade of 4", Comes::Trade("b1", 4), true, &[]),
    (
        "a replace to 20 at 9.99",
        Comes::Replace("b2", "b1", BUY, AT_9_99, 20),
        true,
        &[47_186_444_288],
    ),
    ("10 of 20 are filled", Comes::Trade("b1", 6), true, &[]),
    (
        "the buy is replaced",
        Comes::Report("b2", b'5'),
        true,
        &[47_134_015_488],
    ),
    (
        "a sell at 9.99 meets it",
        Comes::Order("c1", SELL, AT_9_99, 10),
        false,
        &[47_134_449_875, 47_134_015_488],
    ),
    ("all are filled", Comes::Trade("b2", 10), true, &[0]),
    (
        "a sell at 9.99",
        Comes::Order("c2", SELL, AT_9_99, 10),
        true,
        &[434_387],
    ),
];

pub(crate) const REJECTS_OF_A_TERM: [Row; 6] = [
    (
        "a sell at 10.01",
        Comes::Order("a1", SELL, AT_10_01, 10),
        true,
        &[434_187],
    ),
    (
        "a replace to 9.99",
        Comes::Replace("a2", "a1", SELL, AT_9_99, 10),
        true,
        &[434_387],
    ),
    (
        "the replace is rejected",
        Comes::Report("a2", b'8'),
        true,
        &[434_187],
    ),
    (
        "a report with an id of no order",
        Comes::Report("zz", b'8'),
        true,
        &[],
    ),
    (
        "a buy at 10.00",
        Comes::Order("b1", BUY, AT_10, 10),
        true,
        &[47_186_878_475],
    ),
    (
        "the sell is rejected",
        Comes::Report("a1", b'8'),
        true,
        &[47_186_444_288],
    ),
];

pub(crate) const AT_THE_MARKET: [Row; 5] = [
    (
        "a market buy",
        Comes::Order("e1", BUY, AT_MARKET, 10),
        true,
        &[274_877_382_656],
    ),
    (
        "a market sell meets it",
        Comes::Order("e2", SELL, AT_MARKET, 10),
        false,
        &[274_877_906_943, 274_877_382_656],
    ),
    ("the buy expires", Comes::Report("e1", b'C'), true, &[0]),
    (
        "a market sell",
        Comes::Order("e3", SELL, AT_MARKET, 10),
        true,
        &[524_287],
    ),
    (
        "a buy below the low collar meets it",
        Comes::Order("e4", BUY, "40=2|44=0.9999|", 10),
        false,
        &[1_048_575, 524_287],
    ),
];

pub(crate) const OUTSIDE_THE_COLLARS: [Row; 3] = [
    (
        "a buy below the low one",
        Comes::Order("f1", BUY, "40=2|44=0.9999|", 10),
        true,
        &[524_288],
    ),
    (
        "a sell above the high one",
        Comes::Order("f2", SELL, "40=2|44=12.0001|", 10),
        true,
        &[524_289],
    ),
    (
        "a buy above both meets it",
        Comes::Order("f3", BUY, "40=2|44=13.0000|", 10),
        false,
        &[274_877_382_657, 524_289],
    ),
];

/// A level of two prices: orders that are near are refused although they don't cross.
pub(crate) const NEAR_ORDERS: [Row; 3] = [
    (
        "a sell at 0.0004",
        Comes::Order("g1", SELL, "40=2|44=0.0004|", 10),
        true,
        &[524_286],
    ),
    (
        "a buy at 0.0003",
        Comes::Order("g2", BUY, "40=2|44=0.0003|", 10),
        false,
        &[1_572_862, 524_286],
    ),
    (
        "a buy at 0.0001",
        Comes::Order("g3", BUY, "40=2|44=0.0001|", 10),
        true,
        &[1_048_574],
    ),
];

pub(crate) const THREE_POSTS: [Row; 5] = [
    (
        "a sell, with three left",
        Comes::Order("a1", SELL, AT_10, 10),
        true,
        &[434_287],
    ),
    (
        "a buy, with two",
        Comes::Order("a2", BUY, AT_9_99, 10),
        true,
        &[47_134_449_775],
    ),
    (
        "a buy, with one",
        Comes::Order("a3", BUY, AT_9_99, 10),
        false,
        &[],
    ),
    (
        "the sell is canceled, with one",
        Comes::Report("a1", b'4'),
        true,
        &[47_134_015_488],
    ),
    (
        "the buy is canceled, with none",
        Comes::Report("a2", b'4'),
        true,
        &[],
    ),
];

/// What is passed without an act.
pub(crate) const PASSED_ON: [Row; 6] = [
    (
        "an order of an unknown symbol",
        Comes::Body(
            "35=D|49=C1|56=GATE|34=1|52=20240102-10:00:00|11=h1|1=ACC|55=ABC|54=1|38=10|40=2|\
                44=10.0000|60=20240102-10:00:00|",
        ),
        true,
        &[],
    ),
    (
        "an order without a price",
        Comes::Body(
            "35=D|49=C1|56=GATE|34=1|52=20240102-10:00:00|11=h2|1=ACC|55=XYZ|54=1|38=10|40=2|\
                60=20240102-10:00:00|",
        ),
        true,
        &[],
    ),
    (
        "a heartbeat",
        Comes::Body("35=0|49=C1|56=GATE|34=1|"),
        true,
        &[],
    ),
    (
        "another type",
        Comes::Body("35=j|49=C1|56=GATE|34=1|"),
        true,
        &[],
    ),
    (
        "a frame with another checksum",
        Comes::Raw("8=FIX.4.4|9=5|35=0|10=000|"),
        true,
        &[],
    ),
    (
        "a report without ClOrdID",
        Comes::Body("35=8|49=V|56=C1|34=1|52=20240102-10:00:00|150=4|"),
        true,
        &[],
    ),
];

/// A session that has a sell at 10.00.
pub(crate) const SELLS: [Row; 1] = [(
    "a sell alone",
    Comes::Order("a1", SELL, AT_10, 10),
    true,
    &[434_287],
)];

/// Buys of a session while another has a sell at 10.00.
pub(crate) const BUYS_AGAINST_IT: [Row; 2] = [
    (
        "a buy at the other's price",
        Comes::Order("a1", BUY, AT_10, 10),
        false,
        &[47_186_444_288, 0],
    ),
    (
        "a buy below it",
        Comes::Order("a2", BUY, AT_9_99, 10),
        true,
        &[47_134_015_488],
    ),
];

/// A session that has a buy at 10.00.
pub(crate) const BUYS: [Row; 1] = [(
    "a buy alone",
    Comes::Order("a1", BUY, AT_10, 10),
    true,
    &[47_186_444_288],
)];

/// Sells of a session while another has a buy at 10.00.
pub(crate) const SELLS_AGAINST_IT: [Row; 2] = [
    (
        "a sell at the other's price",
        Comes::Order("a1", SELL, AT_10, 10),
        false,
        &[434_287, 0],
    ),
    (
        "a sell above it",
        Comes::Order("a2", SELL, AT_10_01, 10),
        true,
        &[434_187],
    ),
];
