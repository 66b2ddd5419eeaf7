//! What an order asks for, and what it gets.

use risk_board::Seen;

/// The most calls that an admission makes: three posts, four reads, and three posts back.
pub const MOST_CALLS: u32 = 10;

/// What an order asks of its three trees, in the order firm, account, symbol. Values and limits are in
/// whole currency units.
#[derive(Clone, Copy, Debug, PartialEq, Eq)]
pub struct Ask {
    /// The trees, counted from 0.
    pub trees: [u32; 3],
    /// What the session last posted in each, 0 before any post.
    pub old: [u64; 3],
    /// What its orders are worth in each with this one.
    pub new: [u64; 3],
    /// What the root of each may be at most.
    pub limits: [u64; 3],
}

/// What comes of an order.
#[derive(Clone, Copy, Debug, PartialEq, Eq)]
pub enum Verdict {
    /// No root was above its limit, and the halt root was 0.
    Sent,
    /// The firm's root was above its limit.
    Firm,
    /// The account's root was above its limit, and the firm's was not.
    Account,
    /// The symbol's root was above its limit, and the two others were not.
    Symbol,
    /// The halt root was above 0.
    Halt,
    /// In one of the trees the session may not make two more posts. Nothing was posted or read.
    Quota,
}

/// The verdict on an order, and the roots that were read for it: the halt root, and those of the three
/// trees in the order of the ask. After `Quota` all are zero.
#[derive(Clone, Copy, Debug, PartialEq, Eq)]
pub struct Outcome {
    pub verdict: Verdict,
    pub halt: Seen,
    pub roots: [Seen; 3],
}
