//! What the rows of a file set, as they are read one after the other.
ghost use Rattle.std.specs.Prelude.{◌≡◌, ◌≢◌, ◌≤◌, ◌++◌, [], ◌∷◌, List, ℕ, OnOk, IfErr};
ghost use Rattle.csv.specs.Records.{fields_of};
ghost use Rattle.limit_table.specs.Files.{IsLastFault};
ghost use Rattle.limit_table.specs.RowsSoFar.{StandsFor, rows_most};
ghost use Rattle.limit_table.specs.declared.fault.LimitFault.TheVariants as fault;

use crate::entry::read_row;
use crate::fault::{LimitFault, fault_in};
use crate::kind::Entry;
use crate::version::{Version, is_version_row};
use csv::ByteRecord;
use std::alloc::Global;

/// What the rows so far set.
#[derive(Drop)]
pub(crate) struct SoFar {
    /// How many rows there were, the one that tells the version included.
    count: u32,
    /// The version that the first row tells.
    version: Version,
    /// What the other rows set, in order.
    entries: Vec<Entry>,
}

impl SoFar {
    /// Before the first row.
    pub fn new(alloc: Global) -> SoFar
        ensures { StandsFor result [] }
    {
        SoFar {
            count: 0,
            version: Version::One,
            entries: Vec::new(alloc),
        }
    }

    /// Takes the next row.
    pub fn take(&mut self, fields: &ByteRecord) -> Result<(), LimitFault>
        requires few { self.old.count ≤ rows_most }
        ensures taken { (rows : List (List (List ℕ))) → StandsFor self.old rows
            → OnOk result (StandsFor self.new (rows ++ fields_of fields.now ∷ [])) }
        ensures refused { (rows : List (List (List ℕ))) → StandsFor self.old rows
            → IfErr result (λ why. why ≢ fault.Memory
            → IsLastFault (rows ++ fields_of fields.now ∷ []) why) }
    {
        self.count += 1;
        if self.count == 1 && is_version_row(fields) {
            self.version = Version::Two;
            return Ok(());
        }
        match read_row(self.version, self.entries.as_slice(), fields) {
            Ok(entry) => self.add(entry),
            Err(cause) => Err(fault_in(self.count, cause)),
        }
    }

    /// What the rows set.
    pub fn into_entries(self) -> Vec<Entry>
        ensures { result.items ≡ self.entries.items }
    {
        self.entries
    }

    /// Adds what a row sets.
    fn add(&mut self, entry: Entry) -> Result<(), LimitFault>
        ensures same { (self.new.count ≡ self.old.count) × (self.new.version ≡ self.old.version) }
        ensures added { OnOk result
            (self.new.entries.items ≡ self.old.entries.items ++ entry ∷ []) }
        ensures refused { IfErr result (λ why. why ≡ fault.Memory) }
    {
        match self.entries.push(entry) {
            Ok(()) => Ok(()),
            Err(_) => Err(LimitFault::Memory),
        }
    }
}
