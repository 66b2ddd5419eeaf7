//! Why a limit file is refused.
ghost use Rattle.std.specs.Prelude.{◌≡◌};
ghost use Rattle.limit_table.specs.Files.{fault_at};

use crate::kind::Cause;

/// Why a limit file is refused. Rows are counted from 1.
#[derive(Clone, Copy, Debug, PartialEq, Eq)]
pub enum LimitFault {
    /// The row hasn't as many columns as the file's version asks for, or a column is filled that its
    /// kind leaves empty.
    RowShape(u32),
    /// The row's first column names no kind, or the mode of an account is none.
    Kind(u32),
    /// A number or a price in the row isn't spelled as one, or is out of its range.
    Number(u32),
    /// The row's name isn't 1 to 64 bytes of 32 to 126.
    Name(u32),
    /// An earlier row has the same kind and the same name.
    Repeated(u32),
    /// There is no row of the firm.
    NoFirm,
    /// There are as many rows of this kind already as there may be; or, with row 0, the file has more
    /// than 1,048,576 bytes.
    TooMany(u32),
    /// The row's lowest price is above its highest.
    Band(u32),
    /// Memory ran out.
    Memory,
}

/// The fault with this cause in the row with this number.
pub(crate) fn fault_in(row: u32, cause: Cause) -> LimitFault
    ensures { result ≡ fault_at row cause }
{
    match cause {
        Cause::RowShape => LimitFault::RowShape(row),
        Cause::Kind => LimitFault::Kind(row),
        Cause::Number => LimitFault::Number(row),
        Cause::Name => LimitFault::Name(row),
        Cause::Repeated => LimitFault::Repeated(row),
        Cause::TooMany => LimitFault::TooMany(row),
        Cause::Band => LimitFault::Band(row),
    }
}
