//! How a run over frames ends.
ghost use Rattle.std.specs.Prelude.{◌≡◌, ◌+◌, ◌^◌, ◌<◌};
ghost use Rattle.fix_fields.specs.Windows.{moved};
ghost use Rattle.frame_run.specs.Ends.{EndsBy, IsNoFrame, place_of, end_by};

use fix_fields::Found;
use gate_ports::PortFault;
use risk_journal::End;

/// The most bytes of an input.
pub const INPUT_MOST: usize = 33_554_432;

/// The end of a run by what stands next, so many bytes into the input, where its source goes on past
/// the input or doesn't.
pub(crate) fn end_after(goes_on: bool, base: u64, next: Found) -> End
    requires no_frame { IsNoFrame next }
    requires fits { base + place_of next < 2 ^ 64 }
    ensures { EndsBy goes_on (moved base next) result }
{
    match next {
        Found::Frame(_) => unreachable!(),
        Found::Broken(place) => End::Broken(base + place as u64),
        Found::TooLong(place) => End::TooLong(base + place as u64),
        Found::Cut(place) if goes_on => End::TooLong(base + place as u64),
        Found::Cut(place) => End::Cut(base + place as u64),
        Found::End if goes_on => End::TooLong(INPUT_MOST as u64),
        Found::End => End::Whole,
    }
}

/// The end of a run whose sink refused, or in which memory was wanting.
pub fn end_by(fault: PortFault) -> End
    ensures { result ≡ end_by fault }
{
    match fault {
        PortFault::Failed => End::WriteFault,
        PortFault::Memory => End::Memory,
    }
}
