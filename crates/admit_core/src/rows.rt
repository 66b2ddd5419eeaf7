//! Where an order's account and symbol stand among the rows of the limits.

/// The places of an order's account and of its symbol among the rows of the limits, from 0.
#[derive(Clone, Copy, Debug, PartialEq, Eq)]
pub struct OrderRows {
    pub account: u32,
    pub symbol: u32,
}
