//! Limit files, read.
ghost use Rattle.std.specs.Prelude.{◌≡◌, ◌≢◌, ◌≤◌, IfOk, IfErr, length};
ghost use Rattle.limit_table.specs.Files.{IsLimitFile, IsFirstFault, HoldsEntries, IsRowFault};
ghost use Rattle.limit_table.specs.declared.fault.LimitFault.TheVariants as fault;

use crate::fault::LimitFault;
use crate::kind::Entry;
use crate::limits::Limits;
use crate::making::make_limits;
use crate::so_far::SoFar;
use csv::ReaderBuilder;
use std::alloc::Global;

/// The most bytes of a limit file.
const BYTES_MOST: usize = 1_048_576;

/// What the rows of a file set, or the first fault of a row.
fn read_entries(alloc: Global, bytes: &[u8]) -> Result<Vec<Entry>, LimitFault>
    ensures read { IfOk result (λ entries. HoldsEntries bytes.now entries.items) }
    ensures refused { IfErr result (λ why. why ≢ fault.Memory → IsRowFault bytes.now why) }
{
    let reader = ReaderBuilder::new()
        .has_headers(false)
        .flexible(true)
        .from_reader(alloc, bytes);
    let mut so_far = SoFar::new(alloc);
    for row in reader.into_byte_records() {
        let Ok(fields) = row else {
            return Err(LimitFault::Memory);
        };
        match so_far.take(&fields) {
            Ok(()) => {}
            Err(fault) => return Err(fault),
        }
    }
    Ok(so_far.into_entries())
}

/// The limits of a file, or the first fault of a text that isn't one.
pub fn read_limits(alloc: Global, bytes: &[u8]) -> Result<Limits, LimitFault>
    ensures read { IfOk result (λ limits. IsLimitFile bytes.now limits) }
    ensures refused { IfErr result (λ why. why ≢ fault.Memory → IsFirstFault bytes.now why) }
{
    if bytes.len() > BYTES_MOST {
        return Err(LimitFault::TooMany(0));
    }
    let entries = read_entries(alloc, bytes)?;
    make_limits(alloc, entries.as_slice())
}
