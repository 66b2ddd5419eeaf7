//! The numbers that words and trees are built for. Each stands here once.

/// The most sessions of a run, and so the most leaves that a fold joins.
pub const SESSIONS: u32 = 64;

/// Every stamp is below this: a word has 26 bits for one.
pub const STAMPS: u32 = 67_108_864;

/// Every value is below this: a word has 38 bits for one.
pub const VALUES: u64 = 274_877_906_944;

/// The largest value of one leaf, in whole currency units.
pub const LEAF: u64 = 4_294_967_295;

/// The most posts of one session in one tree.
pub const QUOTA: u32 = 1_000_000;
