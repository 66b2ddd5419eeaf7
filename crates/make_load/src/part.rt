//! The values of a load's fields, and how they are spelled.
ghost use Rattle.std.specs.Prelude.{◌≡◌, ◌<◌, ◌++◌, ◌∷◌, [], codes, decimal, OnOk};
ghost use Rattle.make_load.specs.Patterns.{two_digits};
ghost use Rattle.make_load.specs.Values.{text_of, IsSpelled};

use fold_law::Memory;
use itoa::Buffer;

/// The value of a field. Sessions, orders, accounts and symbols are counted from 0, reports from 1.
#[derive(Clone, Copy, Debug)]
pub(crate) enum Value {
    /// The gate's company id.
    Gate,
    /// The venue's company id.
    Venue,
    /// The time of all messages.
    Time,
    /// F, of ExecType (150).
    Trade,
    Number(u32),
    /// A price in whole currency units.
    Price(u32),
    Account(u32),
    Symbol(u32),
    /// OrderID (37), by which the venue knows an order.
    OrderNumber(u32),
    /// ExecID (17), by the number of the report.
    Execution(u32),
    /// The company id of a session's client.
    Client(u32),
    /// ClOrdID (11) of a session's order.
    OrderId(u32, u32),
    /// ClOrdID (11) of the cancel of a session's order.
    CancelId(u32, u32),
}

/// A field that is to be written: its tag and its value.
#[derive(Clone, Copy, Debug)]
pub(crate) struct Part(pub u32, pub Value);

/// Adds bytes at the end.
pub(crate) fn add(text: &mut Vec<u8>, bytes: &[u8]) -> Result<(), Memory>
    ensures { OnOk result (text.new.items ≡ text.old.items ++ bytes.now) }
{
    text.extend_from_slice(bytes).map_err(|_| Memory)
}

/// Adds a number in decimal.
pub(crate) fn add_number(text: &mut Vec<u8>, number: u32) -> Result<(), Memory>
    ensures { OnOk result (text.new.items ≡ text.old.items ++ decimal number) }
{
    let mut digits = Buffer::new();
    add(text, digits.format(number).as_bytes())
}

/// Adds a letter and a number.
fn add_named(text: &mut Vec<u8>, letter: u8, number: u32) -> Result<(), Memory>
    ensures { OnOk result (text.new.items ≡ text.old.items ++ letter ∷ decimal number) }
{
    add(text, &[letter])?;
    add_number(text, number)
}

/// Adds a letter and a session in two digits.
fn add_session(text: &mut Vec<u8>, letter: u8, session: u32) -> Result<(), Memory>
    requires { session < 100 }
    ensures { OnOk result (text.new.items ≡ text.old.items ++ letter ∷ two_digits session) }
{
    let tens = b'0' + (session / 10) as u8;
    let units = b'0' + (session % 10) as u8;
    add(text, &[letter, tens, units])
}

/// Adds a letter, a session in two digits, a dash and an order.
fn add_id(text: &mut Vec<u8>, letter: u8, session: u32, order: u32) -> Result<(), Memory>
    requires { session < 100 }
    ensures { OnOk result (text.new.items
        ≡ text.old.items ++ letter ∷ two_digits session ++ codes "-" ++ decimal order) }
{
    add_session(text, letter, session)?;
    add(text, b"-")?;
    add_number(text, order)
}

/// Adds a value as it is spelled.
pub(crate) fn add_value(text: &mut Vec<u8>, value: Value) -> Result<(), Memory>
    requires { IsSpelled value }
    ensures { OnOk result (text.new.items ≡ text.old.items ++ text_of value) }
{
    match value {
        Value::Gate => add(text, b"GATE"),
        Value::Venue => add(text, b"VENUE"),
        Value::Time => add(text, b"20240102-10:00:00"),
        Value::Trade => add(text, b"F"),
        Value::Number(number) => add_number(text, number),
        Value::Price(price) => {
            add_number(text, price)?;
            add(text, b".00")
        }
        Value::Account(number) => add_named(text, b'A', number),
        Value::Symbol(number) => add_named(text, b'S', number),
        Value::OrderNumber(number) => add_named(text, b'O', number),
        Value::Execution(number) => add_named(text, b'E', number),
        Value::Client(session) => add_session(text, b'C', session),
        Value::OrderId(session, order) => add_id(text, b'o', session, order),
        Value::CancelId(session, order) => add_id(text, b'c', session, order),
    }
}
