//! How a call of the gate ends, and what it is to tell.
ghost use Rattle.std.specs.Prelude.{◌≡◌};
ghost use Rattle.std.specs.List.{list_any};
ghost use Rattle.gate_files.specs.Standing.{standing_of, is_memory, is_write_fault, is_read_fault};
ghost use Rattle.gate_files.specs.Standing.{is_cut_short};
ghost use Rattle.gate_files.specs.Statuses.{number_of, answer_number};

use limit_table::LimitFault;
use risk_journal::End;

/// How a call of the gate ends.
#[derive(Clone, Copy, Debug)]
pub enum Status {
    /// All was read and all was written.
    Done,
    /// The words are no form.
    Usage,
    /// The limit file is refused.
    Limits(LimitFault),
    /// A session's input ends within a frame, or what stands there is no frame, or one too long.
    CutShort,
    /// A read failed.
    ReadFault,
    /// A write failed.
    WriteFault,
    /// The journal has a fault.
    Unlawful,
    /// Memory was wanting.
    Memory,
}

impl Status {
    /// The exit status of the program.
    pub fn number(self) -> u8
        ensures { result ≡ number_of self }
    {
        match self {
            Status::Done => 0,
            Status::Usage => 2,
            Status::Limits(_) => 3,
            Status::CutShort => 4,
            Status::ReadFault => 5,
            Status::WriteFault => 6,
            Status::Unlawful => 7,
            Status::Memory => 8,
        }
    }
}

/// The status after sessions with these ends, the first that applies. `refused` says whether the
/// journal could not be written.
pub fn standing(ends: &[End], refused: bool) -> Status
    ensures { number_of result ≡ standing_of ends.now refused }
{
    if has_memory(ends) {
        Status::Memory
    } else if refused || has_write_fault(ends) {
        Status::WriteFault
    } else if has_read_fault(ends) {
        Status::ReadFault
    } else if has_cut_short(ends) {
        Status::CutShort
    } else {
        Status::Done
    }
}

/// Whether memory was wanting in a session.
fn has_memory(ends: &[End]) -> bool
    ensures { result ≡ list_any is_memory ends.now }
{
    ends.iter().any(|end| matches!(end, End::Memory))
}

/// Whether a session ended by a write that failed.
fn has_write_fault(ends: &[End]) -> bool
    ensures { result ≡ list_any is_write_fault ends.now }
{
    ends.iter().any(|end| matches!(end, End::WriteFault))
}

/// Whether a session ended by a read that failed.
fn has_read_fault(ends: &[End]) -> bool
    ensures { result ≡ list_any is_read_fault ends.now }
{
    ends.iter().any(|end| matches!(end, End::ReadFault))
}

/// Whether a session ended within a frame, or with none, or one that is too long.
fn has_cut_short(ends: &[End]) -> bool
    ensures { result ≡ list_any is_cut_short ends.now }
{
    ends.iter().any(|end| is_cut_short(end))
}

/// Whether the input ends within a frame, or no frame stands there, or one that is too long.
fn is_cut_short(end: &End) -> bool
    ensures { result ≡ is_cut_short end.now }
{
    matches!(end, End::Cut(_) | End::Broken(_) | End::TooLong(_))
}

/// What a run comes to.
#[derive(Drop)]
pub enum Answer {
    /// It stopped with this status, and has no totals.
    Stopped(Status),
    /// Its sessions ended with this status, and these are its totals.
    Ended(Status, Vec<u8>),
}

impl Answer {
    /// The exit status of the program, before it is told.
    pub fn number(&self) -> u8
        ensures { result ≡ answer_number self.now }
    {
        match self {
            Answer::Stopped(status) => status.number(),
            Answer::Ended(status, _) => status.number(),
        }
    }
}
