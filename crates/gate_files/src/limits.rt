//! The limits of a limit file, and why a text gives none.
ghost use Rattle.std.specs.Prelude.{◌≡◌, IfOk, IfErr};
ghost use Rattle.limit_table.specs.Files.{IsLimitFile};
ghost use Rattle.gate_files.specs.Stages.{GivesNoLimits, status_of_fault};

use crate::status::Status;
use limit_table::{LimitFault, Limits, read_limits};
use std::alloc::Global;

/// The limits of a text, or why it gives none.
pub fn limits_from(alloc: Global, text: &[u8]) -> Result<Limits, Status>
    ensures ok { IfOk result (λ limits. IsLimitFile text.now limits) }
    ensures err { IfErr result (λ status. GivesNoLimits text.now status) }
{
    match read_limits(alloc, text) {
        Ok(limits) => Ok(limits),
        Err(fault) => Err(status_of_fault(fault)),
    }
}

/// The status of a text that is refused for this fault.
fn status_of_fault(fault: LimitFault) -> Status
    ensures { result ≡ status_of_fault fault }
{
    match fault {
        LimitFault::Memory => Status::Memory,
        _ => Status::Limits(fault),
    }
}
