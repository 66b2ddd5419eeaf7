//! What a closed forest gives.
use node_rule::Install;
use risk_board::Call;
use stamp_word::Shape;
use std::marker::Model;

/// What one pass did: its calls in order, and the installs that its posts won in order. Contracts
/// see the two lists.
#[derive(Drop)]
pub struct PassRecord {
    pub calls: Vec<Call>,
    pub trail: Vec<Install>,
}

impl Model for PassRecord {
    ghost use Rattle.f_array.specs.Records.{Did};

    ghost Value = { Did };

    ghost view = { λ p. record { calls = p.calls.items; trail = p.trail.items } };
}

/// The shape and the words of the trees, and what each pass did, by number.
#[derive(Drop)]
pub struct Record {
    pub shape: Shape,
    pub words: Vec<u64>,
    pub passes: Vec<PassRecord>,
}
