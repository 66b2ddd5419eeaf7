//! What no clause says: which values are faults of which field, and whole messages byte for byte.
ghost use Rattle.std.specs.Prelude.{IfSome};
ghost use Rattle.fix_fields.specs.Places.{IsSoundIn};

use fix_fields::{Found, Frame, checksum, next_frame};
use fix_orders::{FieldFault, Message, read_message};
use itoa::Buffer;
use std::alloc::{AllocError, Global};
use std::process::Abort;
use std::test::*;

/// What is done to a field of a message.
#[derive(Clone, Copy)]
enum Change {
    LeftOut,
    Twice,
    Set(&'static [u8]),
}

/// A name, a change of a field, and SessionRejectReason (373).
type Cause = (&'static str, Change, u8);

const SEQUENCE: [Cause; 5] = [
    ("missing", Change::LeftOut, 1),
    ("twice", Change::Twice, 13),
    ("empty", Change::Set(b""), 4),
    ("a letter", Change::Set(b"1a"), 6),
    ("zero", Change::Set(b"0"), 5),
];

const ID: [Cause; 5] = [
    ("missing", Change::LeftOut, 1),
    ("twice", Change::Twice, 13),
    ("empty", Change::Set(b""), 4),
    ("byte 127", Change::Set(b"a\x7f"), 6),
    ("65 bytes", Change::Set(&[b'x'; 65]), 5),
];

const OPTIONAL_ID: [Cause; 4] = [
    ("twice", Change::Twice, 13),
    ("empty", Change::Set(b""), 4),
    ("byte 127", Change::Set(b"a\x7f"), 6),
    ("65 bytes", Change::Set(&[b'x'; 65]), 5),
];

const TYPE: [Cause; 1] = [("twice", Change::Twice, 13)];

const LISTED: [Cause; 5] = [
    ("missing", Change::LeftOut, 1),
    ("twice", Change::Twice, 13),
    ("empty", Change::Set(b""), 4),
    ("not listed", Change::Set(b"3"), 5),
    ("two bytes", Change::Set(b"12"), 5),
];

const QUANTITY: [Cause; 6] = [
    ("missing", Change::LeftOut, 1),
    ("twice", Change::Twice, 13),
    ("empty", Change::Set(b""), 4),
    ("an exponent", Change::Set(b"1e3"), 6),
    ("a half", Change::Set(b"1.5"), 5),
    ("too many", Change::Set(b"1000000001"), 5),
];

const PRICE: [Cause; 6] = [
    ("missing", Change::LeftOut, 1),
    ("twice", Change::Twice, 13),
    ("empty", Change::Set(b""), 4),
    ("an exponent", Change::Set(b"1e3"), 6),
    ("a fifth decimal", Change::Set(b"10.00001"), 5),
    ("zero", Change::Set(b"0"), 5),
];

type Fields = &'static [(u32, &'static [u8])];

const NEW_ORDER: Fields = &[
    (35, b"D"),
    (49, b"C1"),
    (56, b"GATE"),
    (34, b"7"),
    (52, b"20240102-10:00:00"),
    (11, b"a1"),
    (1, b"ACC"),
    (55, b"XYZ"),
    (54, b"1"),
    (38, b"100"),
    (40, b"2"),
    (44, b"10.50"),
];

const CANCEL: Fields = &[
    (35, b"F"),
    (49, b"C1"),
    (56, b"GATE"),
    (34, b"7"),
    (52, b"20240102-10:00:00"),
    (11, b"b1"),
    (41, b"a1"),
];

const REPLACE: Fields = &[
    (35, b"G"),
    (49, b"C1"),
    (56, b"GATE"),
    (34, b"7"),
    (52, b"20240102-10:00:00"),
    (11, b"b1"),
    (41, b"a1"),
    (1, b"ACC"),
    (55, b"XYZ"),
    (54, b"1"),
    (38, b"100"),
    (40, b"2"),
    (44, b"10.50"),
];

const TRADE: Fields = &[
    (35, b"8"),
    (49, b"VENUE"),
    (56, b"GATE"),
    (34, b"7"),
    (52, b"20240102-10:00:00"),
    (150, b"F"),
    (11, b"a1"),
    (32, b"40"),
    (31, b"9.5"),
];

const CANCEL_REJECT: Fields = &[
    (35, b"9"),
    (49, b"VENUE"),
    (56, b"GATE"),
    (34, b"7"),
    (52, b"20240102-10:00:00"),
    (11, b"b1"),
];

/// A kind of message, one of it without a fault, and for each field that is read its causes.
type Kind = (&'static str, Fields, &'static [(u32, &'static [Cause])]);

const KINDS: [Kind; 5] = [
    (
        "D",
        NEW_ORDER,
        &[
            (34, &SEQUENCE),
            (49, &ID),
            (56, &ID),
            (52, &ID),
            (35, &TYPE),
            (11, &ID),
            (1, &ID),
            (55, &ID),
            (54, &LISTED),
            (38, &QUANTITY),
            (40, &LISTED),
            (44, &PRICE),
        ],
    ),
    (
        "F",
        CANCEL,
        &[
            (34, &SEQUENCE),
            (49, &ID),
            (56, &ID),
            (52, &ID),
            (35, &TYPE),
            (11, &ID),
            (41, &ID),
        ],
    ),
    (
        "G",
        REPLACE,
        &[
            (34, &SEQUENCE),
            (49, &ID),
            (56, &ID),
            (52, &ID),
            (35, &TYPE),
            (11, &ID),
            (41, &ID),
            (1, &OPTIONAL_ID),
            (55, &ID),
            (54, &LISTED),
            (38, &QUANTITY),
            (40, &LISTED),
            (44, &PRICE),
        ],
    ),
    (
        "8",
        TRADE,
        &[
            (34, &SEQUENCE),
            (49, &ID),
            (56, &ID),
            (52, &ID),
            (35, &TYPE),
            (150, &ID),
            (11, &OPTIONAL_ID),
            (32, &QUANTITY),
            (31, &PRICE),
        ],
    ),
    (
        "9",
        CANCEL_REJECT,
        &[
            (34, &SEQUENCE),
            (49, &ID),
            (56, &ID),
            (52, &ID),
            (35, &TYPE),
            (11, &ID),
        ],
    ),
];

/// Appends a field.
fn put(body: &mut Vec<u8>, tag: u32, value: &[u8]) -> Result<(), AllocError> {
    let mut digits = Buffer::new();
    body.extend_from_slice(digits.format(tag).as_bytes())?;
    body.push(b'=')?;
    body.extend_from_slice(value)?;
    body.push(1)?;
    Ok(())
}

/// Appends a field after a change.
fn put_changed(
    body: &mut Vec<u8>,
    tag: u32,
    value: &[u8],
    change: Change,
) -> Result<(), AllocError> {
    match change {
        Change::LeftOut => Ok(()),
        Change::Twice => {
            put(body, tag, value)?;
            put(body, tag, value)
        }
        Change::Set(other) => put(body, tag, other),
    }
}

/// The whole message with this body.
pub(crate) fn framed(alloc: Global, body: &[u8]) -> Result<Vec<u8>, AllocError> {
    let mut digits = Buffer::new();
    let mut message = b"8=FIX.4.4\x019=".to_vec(alloc)?;
    message.extend_from_slice(digits.format(body.len()).as_bytes())?;
    message.push(1)?;
    message.extend_from_slice(body)?;
    let sum = checksum(message.as_slice());
    message.extend_from_slice(b"10=")?;
    message.push(b'0' + sum / 100)?;
    message.push(b'0' + sum / 10 % 10)?;
    message.push(b'0' + sum % 10)?;
    message.push(1)?;
    Ok(message)
}

/// The whole message of these fields, with one of them changed.
fn changed(
    alloc: Global,
    listed: &[(u32, &[u8])],
    tag: u32,
    change: Change,
) -> Result<Vec<u8>, AllocError> {
    let mut body = Vec::new(alloc);
    for (one, value) in listed {
        if *one == tag {
            put_changed(&mut body, tag, value, change)?;
        } else {
            put(&mut body, *one, value)?;
        }
    }
    framed(alloc, body.as_slice())
}

/// The frame in front, where it is sound.
pub(crate) fn sound_frame(bytes: &[u8]) -> Option<Frame>
    ensures { IfSome result (λ frame. IsSoundIn bytes.now frame) }
{
    match next_frame(bytes, 0) {
        Found::Frame(frame) if frame.sound => Some(frame),
        _ => None,
    }
}

/// The field fault of the message in front, where it is sound and has one.
fn fault_in(bytes: &[u8]) -> Option<FieldFault> {
    let frame = sound_frame(bytes)?;
    read_message(bytes, &frame).err()
}

/// Each cause of one field gives its fault.
fn check_field(
    rt: &impl Abort,
    alloc: Global,
    name: &str,
    listed: &[(u32, &[u8])],
    tag: u32,
    causes: &[Cause],
) -> Result<(), Fail> {
    for (cause, change, reason) in causes {
        let bytes = changed(alloc, listed, tag, *change)?;
        let fault = FieldFault {
            tag,
            reason: *reason,
        };
        assert_eq!(rt;
            fault_in(bytes.as_slice()),
            Some(fault),
            "{name} {tag} {cause}"
        );
    }
    Ok(())
}

/// Each field of one kind of message.
fn check_kind(rt: &impl Abort, alloc: Global, kind: &Kind) -> Result<(), Fail> {
    let (name, listed, cases) = kind;
    for (tag, causes) in *cases {
        check_field(rt, alloc, name, listed, *tag, causes)?;
    }
    Ok(())
}

#[test]
fn each_field_has_its_faults(rt: HostRuntime) -> Result<(), Fail> {
    for kind in &KINDS {
        check_kind(&rt, rt.alloc(), kind)?;
    }
    Ok(())
}
