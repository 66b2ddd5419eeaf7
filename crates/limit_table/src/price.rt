//! Prices as they are written.
ghost use Rattle.std.specs.Prelude.{◌≡◌, ◌<◌, ◌∷◌};
ghost use Rattle.limit_table.specs.Printing.{four_digits, price_text, price_unit};

use itoa::write_digits;

/// The room for a price: up to 20 digits, a point and four digits.
pub(crate) const PRICE_ROOM: usize = 25;

/// Ten-thousandths in a currency unit.
const UNIT: u64 = 10_000;

/// The place of the point.
const POINT: usize = 20;

/// A point and the four digits of a number.
fn decimals(number: u64) -> [u8; 5]
    requires { number < price_unit }
    ensures { result ≡ 46 ∷ four_digits number }
{
    [
        b'.',
        b'0' + (number / 1000) as u8,
        b'0' + (number / 100 % 10) as u8,
        b'0' + (number / 10 % 10) as u8,
        b'0' + (number % 10) as u8,
    ]
}

/// A price in ten-thousandths of a currency unit, as its whole part, a point and four digits.
pub(crate) fn print_price(price: u64, into: &mut [u8; PRICE_ROOM]) -> &[u8]
    ensures { result.now ≡ price_text price }
{
    into[POINT..].copy_from_slice(&decimals(price % UNIT));
    let start = write_digits(price / UNIT, into, POINT);
    &into[start..]
}
