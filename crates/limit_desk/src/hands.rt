//! The hands of an officer, and of a session that reads limits.
use risk_board::Hand;

/// A hand on the trees of sums, one on the halt tree, and one on the limit trees, where the limit tree of a
/// tree of sums has that tree's number. Trees are counted from 0.
#[derive(Drop)]
pub struct DeskHands<H: Hand, M: Hand, D: Hand> {
    pub sum: H,
    pub halt: M,
    pub desk: D,
}
