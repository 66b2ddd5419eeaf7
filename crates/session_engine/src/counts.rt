//! What a session counts.
ghost use Rattle.std.specs.Prelude.{◌≡◌};
ghost use Rattle.session_engine.specs.Counted.{no_counts};

/// What a session counts as it goes.
#[derive(Clone, Copy, Debug, PartialEq, Eq)]
pub(crate) struct Counts {
    /// How many frames were taken.
    pub frames: u32,
    /// How many orders were taken up: sound frames of type D or G.
    pub orders: u32,
    /// How many messages the venue has.
    pub venue: u32,
    /// How many messages the client has.
    pub client: u32,
    /// How many requests were refused as Firm.
    pub firms: u32,
}

impl Counts {
    /// The counts before the first frame.
    pub(crate) fn zero() -> Counts
        ensures { result ≡ no_counts }
    {
        Counts {
            frames: 0,
            orders: 0,
            venue: 0,
            client: 0,
            firms: 0,
        }
    }
}
