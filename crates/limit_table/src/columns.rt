//! The columns of a row, and the numbers, prices and names in them.
ghost use Rattle.std.specs.Prelude.{◌≡◌, ◌≤◌, ◌<◌, ◌-◌, ◌^◌, min, IfOk, IsTrue, unwrap_or};
ghost use Rattle.std.specs.List.{list_all};
ghost use Rattle.std.specs.Char.{is_ascii_digit};
ghost use Rattle.std.specs.Str.Parse.{digits_value};
ghost use Rattle.csv.specs.Records.{fields_of};
ghost use Rattle.limit_table.specs.Columns.{column, columns_of, texts_in, is_number, number_in};
ghost use Rattle.limit_table.specs.Columns.{price_in, name_in, are_blank, has_name, has_band};
ghost use Rattle.limit_table.specs.Columns.{has_mode, is_net, is_mode, is_mode_of};

use crate::kind::{Cause, Kind};
use csv::ByteRecord;
use fix_fields::{Id, read_price};

/// The texts of a row's columns: six, and in version 2 the mode behind them.
#[derive(Clone, Copy)]
pub(crate) struct Columns<'a> {
    pub kind: &'a [u8],
    pub name: &'a [u8],
    pub limit: &'a [u8],
    pub low: &'a [u8],
    pub high: &'a [u8],
    pub size: &'a [u8],
    pub mode: &'a [u8],
}

/// The text of the column at a place from 0, which is empty where there is none.
pub(crate) fn column(fields: &ByteRecord, place: usize) -> &[u8]
    ensures { result.now ≡ column (fields_of fields.now) place }
{
    match fields.get(place) {
        Some(text) => text,
        None => &[],
    }
}

/// The texts of a row's columns.
pub(crate) fn split_columns(fields: &ByteRecord) -> Columns<'_>
    ensures { texts_in result ≡ columns_of (fields_of fields.now) }
{
    Columns {
        kind: column(fields, 0),
        name: column(fields, 1),
        limit: column(fields, 2),
        low: column(fields, 3),
        high: column(fields, 4),
        size: column(fields, 5),
        mode: column(fields, 6),
    }
}

/// Whether a row of this kind has a name.
fn has_name(kind: Kind) -> bool
    ensures { result ≡ has_name kind }
{
    matches!(kind, Kind::Account | Kind::Symbol | Kind::Off)
}

/// Whether a row of this kind has prices and a size.
fn has_band(kind: Kind) -> bool
    ensures { result ≡ has_band kind }
{
    matches!(kind, Kind::Symbol)
}

/// Whether a row of this kind has a mode.
fn has_mode(kind: Kind) -> bool
    ensures { result ≡ has_mode kind }
{
    matches!(kind, Kind::Account)
}

/// Whether an account with this mode is net.
pub(crate) fn is_net(mode: &[u8]) -> bool
    ensures { result ≡ is_net mode.now }
{
    mode == b"net".as_slice()
}

/// Whether the text is a mode: nothing, `gross` or `net`.
fn is_mode(text: &[u8]) -> bool
    ensures { result ≡ is_mode text.now }
{
    text.is_empty() || text == b"gross".as_slice() || is_net(text)
}

/// Whether the mode that a row of this kind has is one.
pub(crate) fn is_mode_of(kind: Kind, row: &Columns<'_>) -> bool
    ensures { result ≡ is_mode_of kind (texts_in row.now) }
{
    !has_mode(kind) || is_mode(row.mode)
}

/// Whether the columns that a row of this kind leaves empty are empty.
pub(crate) fn are_blank(kind: Kind, row: &Columns<'_>) -> bool
    ensures { result ≡ are_blank kind (texts_in row.now) }
{
    (has_name(kind) || row.name.is_empty())
        && (has_band(kind) || row.low.is_empty() && row.high.is_empty() && row.size.is_empty())
        && (has_mode(kind) || row.mode.is_empty())
}

/// Whether each byte is a decimal digit.
fn are_digits(text: &[u8]) -> bool
    ensures { result ≡ list_all is_ascii_digit text.now }
{
    text.iter().all(|byte| byte.is_ascii_digit())
}

/// Whether the text is 1 to 12 digits.
fn is_number(text: &[u8]) -> bool
    ensures { result ≡ is_number text.now }
{
    are_digits(text) && 1 <= text.len() && text.len() <= 12
}

/// The number that the digits write, or the largest number where it is larger.
fn number_of(digits: &[u8]) -> u64
    requires { IsTrue (list_all is_ascii_digit digits.now) }
    ensures { result ≡ min (digits_value 10 digits.now) (2 ^ 64 - 1) }
{
    let mut value = 0u64;
    for digit in digits {
        value = value
            .saturating_mul(10)
            .saturating_add(u64::from(*digit - b'0'));
    }
    value
}

/// The number in a column, from `least` to `most`.
pub(crate) fn read_number(text: &[u8], least: u64, most: u64) -> Result<u64, Cause>
    requires { most < 2 ^ 64 - 1 }
    ensures number { result ≡ number_in least most text.now }
    ensures within { IfOk result (λ number. number ≤ most) }
{
    if !is_number(text) {
        return Err(Cause::Number);
    }
    let value = number_of(text);
    if value < least || most < value {
        return Err(Cause::Number);
    }
    Ok(value)
}

/// The same of a number that fits 32 bits.
pub(crate) fn read_count(text: &[u8], least: u32, most: u32) -> Result<u32, Cause>
    ensures { result ≡ number_in least most text.now }
{
    match read_number(text, u64::from(least), u64::from(most)) {
        Ok(number) => Ok(number as u32),
        Err(cause) => Err(cause),
    }
}

/// The price in a column, in ten-thousandths of a currency unit.
pub(crate) fn read_band_price(text: &[u8]) -> Result<u64, Cause>
    ensures { result ≡ price_in text.now }
{
    match read_price(text) {
        Ok(price) => Ok(price),
        Err(_) => Err(Cause::Number),
    }
}

/// The name in a column.
pub(crate) fn read_name(text: &[u8]) -> Result<Id, Cause>
    ensures { result ≡ name_in text.now }
{
    match Id::read(text) {
        Ok(name) => Ok(name),
        Err(_) => Err(Cause::Name),
    }
}
