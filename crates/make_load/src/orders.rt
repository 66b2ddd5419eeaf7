//! The messages of an order, one after another in a session's file.
ghost use Rattle.std.specs.Prelude.{◌≡◌, ◌^◌, ◌+◌, ◌≤◌, ◌<◌, [], ◌∷◌, ◌++◌, length, map, Some, OnOk, IfOk};
ghost use Rattle.std.specs.Prelude.{IsSome, IfSome};
ghost use Rattle.std.specs.List.{AllByRecursion};
ghost use Rattle.fix_fields.specs.Fields.{field_text, fields_text};
ghost use Rattle.make_load.specs.Loads.{line_of, fate_messages, fate_requests, fate_reports, order_messages};
ghost use Rattle.make_load.specs.Pens.{AddsLines, CountsOrder, IsFew};
ghost use Rattle.make_load.specs.Sizes.{AreSmall};
ghost use Rattle.make_load.specs.Values.{IsPart, message_of, part_value};

use crate::draws::{Draws, Fate};
use crate::part::{Part, add, add_value};
use crate::patterns::{cancel, canceled, filled, new_order, taken};
use fix_fields::Writer;
use fold_law::Memory;

/// How many messages of the client and how many reports of the venue a session's file has.
#[derive(Clone, Copy, Debug)]
pub(crate) struct Numbers {
    pub requests: u32,
    pub reports: u32,
}

/// Where a session's file is written: the writer of its messages, room for a value, and the bytes.
#[derive(Drop)]
pub(crate) struct Pen {
    pub writer: Writer,
    pub text: Vec<u8>,
    pub bytes: Vec<u8>,
}

/// Appends a field to a message.
fn put_part(writer: &mut Writer, text: &mut Vec<u8>, part: Part) -> Result<(), Memory>
    requires part { IsPart part }
    requires begun { IsSome writer.old }
    requires room { IfSome writer.old (λ body. length body ≤ 8000) }
    ensures { OnOk result (IfSome writer.old (λ body.
        writer.new ≡ Some (body ++ field_text (part_value part)))) }
{
    text.clear();
    add_value(text, part.1)?;
    writer.put(part.0, text.as_slice());
    Ok(())
}

/// Writes a message of these fields.
fn write_message(
    writer: &mut Writer,
    text: &mut Vec<u8>,
    kind: u8,
    parts: &[Part],
) -> Result<(), Memory>
    requires kind { (33 ≤ kind) × (kind ≤ 126) }
    requires parts { AllByRecursion IsPart parts.now }
    requires few { length parts.now ≤ 20 }
    ensures { OnOk result (writer.new ≡ Some (fields_text (message_of kind parts.now))) }
{
    writer.begin(kind);
    for part in parts {
        put_part(writer, text, *part)?;
    }
    Ok(())
}

/// Adds a message of these fields, on a line of its own.
fn add_message(pen: &mut Pen, kind: u8, parts: &[Part]) -> Result<(), Memory>
    requires kind { (33 ≤ kind) × (kind ≤ 126) }
    requires parts { AllByRecursion IsPart parts.now }
    requires few { length parts.now ≤ 20 }
    ensures { OnOk result (pen.new.bytes.items
        ≡ pen.old.bytes.items ++ line_of (message_of kind parts.now)) }
{
    write_message(&mut pen.writer, &mut pen.text, kind, parts)?;
    add(&mut pen.bytes, pen.writer.finish())?;
    add(&mut pen.bytes, b"\n")
}

/// Adds what follows an order that was taken.
fn add_fate(
    pen: &mut Pen,
    session: u32,
    order: u32,
    numbers: Numbers,
    draws: &Draws,
) -> Result<Numbers, Memory>
    requires session { session < 100 }
    requires small { AreSmall draws.now }
    requires requests { numbers.requests < 2 ^ 31 }
    requires reports { numbers.reports < 2 ^ 31 }
    ensures lines { OnOk result (AddsLines pen.old.bytes.items pen.new.bytes.items
        (fate_messages draws.now.fate session order numbers.requests numbers.reports draws.now)) }
    ensures requests { IfOk result (λ after.
        after.requests ≡ numbers.requests + fate_requests draws.now.fate) }
    ensures reports { IfOk result (λ after.
        after.reports ≡ numbers.reports + fate_reports draws.now.fate) }
{
    let Numbers { requests, reports } = numbers;
    match draws.fate {
        Fate::Filled => {
            add_message(pen, b'8', &filled(session, order, reports + 1, draws))?;
            Ok(Numbers {
                requests,
                reports: reports + 1,
            })
        }
        Fate::Canceled => {
            add_message(pen, b'F', &cancel(session, order, requests + 1, draws))?;
            add_message(pen, b'8', &canceled(session, order, reports + 1, draws))?;
            Ok(Numbers {
                requests: requests + 1,
                reports: reports + 1,
            })
        }
        Fate::Left => Ok(numbers),
    }
}

/// Adds the messages of an order, behind so many of the client and so many reports.
pub(crate) fn add_order(
    pen: &mut Pen,
    session: u32,
    order: u32,
    numbers: Numbers,
    draws: &Draws,
) -> Result<Numbers, Memory>
    requires session { session < 100 }
    requires small { AreSmall draws.now }
    requires requests { numbers.requests + 1 < 2 ^ 31 }
    requires reports { numbers.reports + 1 < 2 ^ 31 }
    ensures lines { OnOk result (AddsLines pen.old.bytes.items pen.new.bytes.items
        (order_messages session order numbers.requests numbers.reports draws.now)) }
    ensures counted { IfOk result (λ after. CountsOrder numbers after draws.now) }
{
    let counted = Numbers {
        requests: numbers.requests + 1,
        reports: numbers.reports + 1,
    };
    add_message(
        pen,
        b'D',
        &new_order(session, order, counted.requests, draws),
    )?;
    add_message(pen, b'8', &taken(session, order, counted.reports, draws))?;
    add_fate(pen, session, order, counted, draws)
}
