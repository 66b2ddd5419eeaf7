//! The version of a limit file.
ghost use Rattle.std.specs.Prelude.{◌≡◌};
ghost use Rattle.csv.specs.Records.{fields_of};
ghost use Rattle.limit_table.specs.Versions.{column_count, is_version_row};

use crate::columns::column;
use csv::ByteRecord;

/// The version of a limit file.
#[derive(Clone, Copy, Debug, PartialEq, Eq)]
pub(crate) enum Version {
    /// Each row has six columns.
    One,
    /// The first row tells the version, and each other row has a seventh column: the mode.
    Two,
}

impl Version {
    /// How many columns a row has.
    pub fn column_count(self) -> usize
        ensures { result ≡ column_count self }
    {
        match self {
            Version::One => 6,
            Version::Two => 7,
        }
    }
}

/// Whether the row says that the file is of version 2.
pub(crate) fn is_version_row(fields: &ByteRecord) -> bool
    ensures { result ≡ is_version_row (fields_of fields.now) }
{
    fields.len() == 7
        && column(fields, 0) == b"version".as_slice()
        && column(fields, 1) == b"2".as_slice()
        && column(fields, 2).is_empty()
        && column(fields, 3).is_empty()
        && column(fields, 4).is_empty()
        && column(fields, 5).is_empty()
        && column(fields, 6).is_empty()
}
