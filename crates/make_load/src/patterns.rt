//! The fields of each message of a load, behind its type.
ghost use Rattle.std.specs.Prelude.{◌≡◌, ◌^◌, ◌<◌};
ghost use Rattle.std.specs.List.{AllByRecursion};
ghost use Rattle.make_load.specs.Patterns.{new_order, taken, filled, cancel, canceled};
ghost use Rattle.make_load.specs.Values.{IsPart, message_of};
ghost use Rattle.make_load.specs.Sizes.{AreSmall};

use crate::draws::Draws;
use crate::part::{Part, Value};

/// The fields of a new order (D).
pub(crate) fn new_order(session: u32, order: u32, number: u32, draws: &Draws) -> [Part; 12]
    requires session { session < 100 }
    requires small { AreSmall draws.now }
    ensures fields { message_of 68 result ≡ new_order session order number draws.now }
    ensures parts { AllByRecursion IsPart result }
{
    [
        Part(49, Value::Client(session)),
        Part(56, Value::Gate),
        Part(34, Value::Number(number)),
        Part(52, Value::Time),
        Part(11, Value::OrderId(session, order)),
        Part(1, Value::Account(draws.account)),
        Part(55, Value::Symbol(draws.symbol)),
        Part(54, Value::Number(draws.side)),
        Part(38, Value::Number(draws.quantity)),
        Part(40, Value::Number(2)),
        Part(44, Value::Price(draws.price)),
        Part(60, Value::Time),
    ]
}

/// The fields of the report (8) that an order was taken.
pub(crate) fn taken(session: u32, order: u32, number: u32, draws: &Draws) -> [Part; 15]
    requires session { session < 100 }
    requires small { AreSmall draws.now }
    ensures fields { message_of 56 result ≡ taken session order number draws.now }
    ensures parts { AllByRecursion IsPart result }
{
    [
        Part(49, Value::Venue),
        Part(56, Value::Gate),
        Part(34, Value::Number(number)),
        Part(52, Value::Time),
        Part(37, Value::OrderNumber(order)),
        Part(11, Value::OrderId(session, order)),
        Part(17, Value::Execution(number)),
        Part(150, Value::Number(0)),
        Part(39, Value::Number(0)),
        Part(55, Value::Symbol(draws.symbol)),
        Part(54, Value::Number(draws.side)),
        Part(38, Value::Number(draws.quantity)),
        Part(151, Value::Number(draws.quantity)),
        Part(14, Value::Number(0)),
        Part(6, Value::Number(0)),
    ]
}

/// The fields of the report (8) that an order was filled.
pub(crate) fn filled(session: u32, order: u32, number: u32, draws: &Draws) -> [Part; 17]
    requires session { session < 100 }
    requires small { AreSmall draws.now }
    ensures fields { message_of 56 result ≡ filled session order number draws.now }
    ensures parts { AllByRecursion IsPart result }
{
    [
        Part(49, Value::Venue),
        Part(56, Value::Gate),
        Part(34, Value::Number(number)),
        Part(52, Value::Time),
        Part(37, Value::OrderNumber(order)),
        Part(11, Value::OrderId(session, order)),
        Part(17, Value::Execution(number)),
        Part(150, Value::Trade),
        Part(39, Value::Number(2)),
        Part(55, Value::Symbol(draws.symbol)),
        Part(54, Value::Number(draws.side)),
        Part(38, Value::Number(draws.quantity)),
        Part(32, Value::Number(draws.quantity)),
        Part(31, Value::Price(draws.price)),
        Part(151, Value::Number(0)),
        Part(14, Value::Number(draws.quantity)),
        Part(6, Value::Price(draws.price)),
    ]
}

/// The fields of the cancel (F) of an order.
pub(crate) fn cancel(session: u32, order: u32, number: u32, draws: &Draws) -> [Part; 10]
    requires session { session < 100 }
    requires small { AreSmall draws.now }
    ensures fields { message_of 70 result ≡ cancel session order number draws.now }
    ensures parts { AllByRecursion IsPart result }
{
    [
        Part(49, Value::Client(session)),
        Part(56, Value::Gate),
        Part(34, Value::Number(number)),
        Part(52, Value::Time),
        Part(11, Value::CancelId(session, order)),
        Part(41, Value::OrderId(session, order)),
        Part(55, Value::Symbol(draws.symbol)),
        Part(54, Value::Number(draws.side)),
        Part(38, Value::Number(draws.quantity)),
        Part(60, Value::Time),
    ]
}

/// The fields of the report (8) that an order was canceled.
pub(crate) fn canceled(session: u32, order: u32, number: u32, draws: &Draws) -> [Part; 16]
    requires session { session < 100 }
    requires small { AreSmall draws.now }
    ensures fields { message_of 56 result ≡ canceled session order number draws.now }
    ensures parts { AllByRecursion IsPart result }
{
    [
        Part(49, Value::Venue),
        Part(56, Value::Gate),
        Part(34, Value::Number(number)),
        Part(52, Value::Time),
        Part(37, Value::OrderNumber(order)),
        Part(11, Value::CancelId(session, order)),
        Part(41, Value::OrderId(session, order)),
        Part(17, Value::Execution(number)),
        Part(150, Value::Number(4)),
        Part(39, Value::Number(4)),
        Part(55, Value::Symbol(draws.symbol)),
        Part(54, Value::Number(draws.side)),
        Part(38, Value::Number(draws.quantity)),
        Part(151, Value::Number(0)),
        Part(14, Value::Number(0)),
        Part(6, Value::Number(0)),
    ]
}
