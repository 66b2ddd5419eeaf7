//! Requests that the venue has not answered.
ghost use Rattle.std.specs.Prelude.{◌≡◌};
ghost use Rattle.exposure_book.specs.Pendings.{pending_total, pending_price, has_id_pending};
ghost use Rattle.exposure_book.specs.Pendings.{is_pending};

use fix_orders::Id;

/// The request that is pending on an order.
#[derive(Clone, Copy, Debug)]
pub enum Pending {
    /// No request is pending.
    Nothing,
    /// A cancel with this ClOrdID (11).
    Cancel { id: Id },
    /// A replace with this ClOrdID (11), OrderQty (38) in whole units, and reserve price in
    /// ten-thousandths of a currency unit.
    Replace { id: Id, total: u64, price: u64 },
}

impl Pending {
    /// The total of a replace, 0 where none is pending.
    pub(crate) fn total(&self) -> u64
        ensures { result ≡ pending_total self.now }
    {
        match self {
            Pending::Replace { total, .. } => *total,
            Pending::Nothing | Pending::Cancel { .. } => 0,
        }
    }

    /// The reserve price of a replace, 0 where none is pending.
    pub(crate) fn price(&self) -> u64
        ensures { result ≡ pending_price self.now }
    {
        match self {
            Pending::Replace { price, .. } => *price,
            Pending::Nothing | Pending::Cancel { .. } => 0,
        }
    }

    /// Whether a request is pending.
    pub(crate) fn is_some(&self) -> bool
        ensures { result ≡ is_pending self.now }
    {
        !matches!(self, Pending::Nothing)
    }

    /// Whether a request with this id is pending.
    pub(crate) fn has_id(&self, of: &Id) -> bool
        ensures { result ≡ has_id_pending self.now of.now }
    {
        match self {
            Pending::Nothing => false,
            Pending::Cancel { id } => *id == *of,
            Pending::Replace { id, .. } => *id == *of,
        }
    }
}
