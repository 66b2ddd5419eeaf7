//! Prices, and whole currency units.
ghost use Rattle.std.specs.Prelude.{◌≡◌, ◌+◌, ◌<◌, ◌^◌};
ghost use Rattle.exposure_book.specs.Orders.{reserve_price};
ghost use Rattle.exposure_book.specs.Books.{units_up};

use fix_orders::OrderKind;

/// The byte of Side (54) of a buy.
pub(crate) const BUY: u8 = b'1';

/// Ten-thousandths in a currency unit.
pub(crate) const UNIT: u128 = 10_000;

/// The dearest price that an order counts for, in ten-thousandths: of a buy with a limit its price,
/// of every sell and every market order the upper collar price of its symbol.
pub(crate) fn reserve_price(side: u8, kind: OrderKind, price: u64, high: u64) -> u64
    ensures { result ≡ reserve_price side kind price high }
{
    match kind {
        OrderKind::Limit if side == BUY => price,
        OrderKind::Limit | OrderKind::Market => high,
    }
}

/// Ten-thousandths as whole currency units, rounded up.
pub(crate) fn units(sum: u128) -> u128
    requires { sum + UNIT < 2 ^ 128 }
    ensures { result ≡ units_up sum }
{
    (sum + (UNIT - 1)) / UNIT
}
