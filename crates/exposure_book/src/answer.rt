//! What a book answers.

/// The values of an order's three trees, in whole currency units.
#[derive(Clone, Copy, Debug, PartialEq, Eq)]
pub struct Proposal {
    /// The value of the firm.
    pub firm: u64,
    /// The value of the order's account.
    pub account: u64,
    /// The value of the order's symbol.
    pub symbol: u64,
}

/// An order's account and symbol, from 0, and the values of its three trees in whole currency
/// units.
#[derive(Clone, Copy, Debug, PartialEq, Eq)]
pub struct Terms3 {
    pub account: u32,
    pub symbol: u32,
    pub firm_value: u64,
    pub account_value: u64,
    pub symbol_value: u64,
}

/// Why an order or a request isn't taken.
#[derive(Clone, Copy, Debug, PartialEq, Eq)]
pub enum BookFault {
    /// The ClOrdID (11) is an id of some order.
    Duplicate,
    /// The OrigClOrdID (41) is an id of no order, or isn't the current id of its order.
    Unknown,
    /// Nothing is left of the order.
    Closed,
    /// A request is pending on the order.
    Pending,
    /// Account (1) is there and differs from the order's, or Symbol (55) or Side (54) differs.
    Mismatch,
    /// The new OrderQty (38) is at most the quantity filled.
    Quantity,
    /// One of the three values is above the most that a leaf may hold.
    Cap,
}

/// What became of a report.
#[derive(Clone, Copy, Debug, PartialEq, Eq)]
pub enum Applied {
    /// It was applied, and these are its order's values now.
    Applied(Terms3),
    /// It has no id, or an id of no order. Nothing changed.
    Stray,
    /// It trades more than is left, or above the reserve price. Nothing changed.
    Over,
}
