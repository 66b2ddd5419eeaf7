//! Why a field is a fault.
ghost use Rattle.std.specs.Prelude.{◌≡◌};
ghost use Rattle.fix_orders.specs.Faults.{reason_code};

/// Why a field is a fault: SessionRejectReason (373).
#[derive(Clone, Copy, Debug, PartialEq, Eq)]
pub(crate) enum Reason {
    /// Required, and not there.
    Missing,
    /// More than once there.
    Repeated,
    /// Without a value.
    Empty,
    /// Not spelled as its reader reads it.
    Misspelled,
    /// Out of range, or none of the values that are listed.
    OutOfRange,
}

impl Reason {
    /// The number of SessionRejectReason (373).
    pub(crate) fn code(self) -> u8
        ensures { result ≡ reason_code self }
    {
        match self {
            Reason::Missing => 1,
            Reason::Repeated => 13,
            Reason::Empty => 4,
            Reason::Misspelled => 6,
            Reason::OutOfRange => 5,
        }
    }
}
