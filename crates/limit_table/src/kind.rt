//! The rows of a limit file.
ghost use Rattle.std.specs.Prelude.{◌≡◌};
ghost use Rattle.limit_table.specs.Kinds.{kind_named, kind_of, name_of, is_crossed, rows_most};
ghost use Rattle.limit_table.specs.Kinds.{same_kind, same_name};
ghost use Rattle.limit_table.specs.Faults.{same_key};

use fix_fields::Id;

/// An account with its limit in currency units.
#[derive(Clone, Copy, Debug, PartialEq, Eq)]
pub struct AccountRow {
    pub name: Id,
    pub limit: u64,
    /// Whether what it bought and what it sold in a symbol offset each other.
    pub net: bool,
}

/// A symbol with its limit in currency units, its lowest and highest price in ten-thousandths of a
/// currency unit, and its largest quantity of one order.
#[derive(Clone, Copy, Debug, PartialEq, Eq)]
pub struct SymbolRow {
    pub name: Id,
    pub limit: u64,
    pub low: u64,
    pub high: u64,
    pub size: u64,
}

/// A screen by its name, and the number of the order as which it is dropped.
#[derive(Clone, Copy, Debug, PartialEq, Eq)]
pub struct OffRow {
    pub name: Id,
    pub from: u32,
}

/// What a row's first column says.
#[derive(Clone, Copy, Debug, PartialEq, Eq)]
pub(crate) enum Kind {
    Firm,
    Account,
    Symbol,
    Trip,
    Quota,
    Repeat,
    Off,
}

/// A row that is read: what it sets.
#[derive(Clone, Copy, Debug)]
pub(crate) enum Entry {
    Firm(u64),
    Account(AccountRow),
    Symbol(SymbolRow),
    Trip(u32),
    Quota(u32),
    Repeat(u32),
    Off(OffRow),
}

/// What is wrong with a row.
#[derive(Clone, Copy, Debug, PartialEq, Eq)]
pub(crate) enum Cause {
    RowShape,
    Kind,
    Number,
    Name,
    Repeated,
    TooMany,
    Band,
}

/// The kind with this name.
pub(crate) fn find_kind(word: &[u8]) -> Option<Kind>
    ensures { result ≡ kind_named word.now }
{
    if word == b"firm".as_slice() {
        Some(Kind::Firm)
    } else if word == b"account".as_slice() {
        Some(Kind::Account)
    } else if word == b"symbol".as_slice() {
        Some(Kind::Symbol)
    } else if word == b"trip".as_slice() {
        Some(Kind::Trip)
    } else if word == b"quota".as_slice() {
        Some(Kind::Quota)
    } else if word == b"repeat".as_slice() {
        Some(Kind::Repeat)
    } else if word == b"off".as_slice() {
        Some(Kind::Off)
    } else {
        None
    }
}

impl Kind {
    /// The most rows of this kind.
    pub fn rows_most(self) -> usize
        ensures { result ≡ rows_most self }
    {
        match self {
            Kind::Account => 100,
            Kind::Symbol => 400,
            Kind::Off => 16,
            _ => 1,
        }
    }

    /// Whether the other is the same kind.
    pub fn is(self, other: Kind) -> bool
        ensures { result ≡ same_kind self other }
    {
        self as u8 == other as u8
    }
}

/// Whether both have the same name or neither has one.
fn is_same_name(a: Option<Id>, b: Option<Id>) -> bool
    ensures { result ≡ same_name a b }
{
    match (a, b) {
        (Some(a), Some(b)) => a == b,
        (None, None) => true,
        _ => false,
    }
}

impl Entry {
    /// The kind of row.
    pub fn kind(&self) -> Kind
        ensures { result ≡ kind_of self.now }
    {
        match self {
            Entry::Firm(_) => Kind::Firm,
            Entry::Account(_) => Kind::Account,
            Entry::Symbol(_) => Kind::Symbol,
            Entry::Trip(_) => Kind::Trip,
            Entry::Quota(_) => Kind::Quota,
            Entry::Repeat(_) => Kind::Repeat,
            Entry::Off(_) => Kind::Off,
        }
    }

    /// The name in the row, if its kind has one.
    fn name(&self) -> Option<Id>
        ensures { result ≡ name_of self.now }
    {
        match self {
            Entry::Account(row) => Some(row.name),
            Entry::Symbol(row) => Some(row.name),
            Entry::Off(row) => Some(row.name),
            _ => None,
        }
    }

    /// Whether the other row is of the same kind.
    pub fn is_like(&self, other: &Entry) -> bool
        ensures { result ≡ same_kind (kind_of self.now) (kind_of other.now) }
    {
        self.kind().is(other.kind())
    }

    /// Whether the other row has the same kind and the same name.
    pub fn has_key_of(&self, other: &Entry) -> bool
        ensures { result ≡ same_key self.now other.now }
    {
        self.is_like(other) && is_same_name(self.name(), other.name())
    }

    /// Whether the lowest price is above the highest.
    pub fn is_crossed(&self) -> bool
        ensures { result ≡ is_crossed self.now }
    {
        match self {
            Entry::Symbol(row) => row.high < row.low,
            _ => false,
        }
    }
}
