//! What is noted of a frame.
ghost use Rattle.std.specs.Prelude.{◌≡◌};
ghost use Rattle.session_engine.specs.Answers.{note_code};
ghost use Rattle.session_engine.specs.Taken.{noted_act};

use risk_journal::Act;

/// What is noted of a frame.
#[derive(Clone, Copy, Debug, PartialEq, Eq)]
pub(crate) enum Note {
    /// The frame isn't sound.
    NotSound,
    /// A message of another type.
    OtherType,
    /// A report with no id, or with an id of no order.
    Stray,
    /// A report of a trade of more than is left, or above the reserve price.
    Over,
    /// A field fault in a message of the venue.
    FaultyField,
    /// A report lowered a value in a tree in which no post is left.
    NotLowered,
}

impl Note {
    /// The number in the journal.
    pub(crate) fn code(self) -> u8
        ensures { result ≡ note_code self }
    {
        match self {
            Note::NotSound => 1,
            Note::OtherType => 2,
            Note::Stray => 3,
            Note::Over => 4,
            Note::FaultyField => 5,
            Note::NotLowered => 6,
        }
    }

    /// The act that notes this of a frame.
    pub(crate) fn act(self, frame: u32) -> Act
        ensures { result ≡ noted_act self frame }
    {
        Act::Noted {
            frame,
            code: self.code(),
            first: 0,
            second: 0,
        }
    }
}
