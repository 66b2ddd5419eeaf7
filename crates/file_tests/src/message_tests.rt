//! What no clause says: whole messages, byte for byte, as an engine of FIX 4.4 writes them.
ghost use Rattle.std.specs.Prelude.{IfSome};
ghost use Rattle.fix_fields.specs.Places.{IsSoundIn};
ghost use Rattle.fix_orders.specs.Put.{IsReadAs, IsSeq};

use crate::order_tests::{framed, sound_frame};
use fix_fields::{Frame, Id, IdText, Writer};
use fix_orders::{
    Message, NewOrder, Stamp, read_envelope, read_message, type_text, write_forward,
    write_reject_cancel, write_reject_order, write_reject_session,
};
use std::alloc::{AllocError, Global};
use std::test::*;

/// The id of this text.
fn id(text: &[u8]) -> Option<Id> {
    Id::read(text).ok()
}

/// A stamp of the first message to this receiver.
fn stamp_to(target: &[u8]) -> Option<Stamp>
    ensures { IfSome result (λ stamp. IsSeq stamp.seq) }
{
    let target = id(target)?;
    let time = id(b"20240102-10:00:00")?;
    Some(Stamp {
        target,
        seq: 1,
        time,
    })
}

/// The order in a sound frame.
fn order_in<'a>(bytes: &'a [u8], frame: &Frame) -> Option<NewOrder<'a>>
    requires { IsSoundIn bytes.now frame.now }
    ensures { IfSome result (λ order. IsReadAs bytes.now frame.now (Message.New order)) }
{
    match read_message(bytes, frame) {
        Ok(Message::New(order)) => Some(order),
        _ => None,
    }
}

/// The message that passes an order on.
fn forward<'a>(to: &'a mut Writer, bytes: &[u8]) -> Option<&'a [u8]> {
    let frame = sound_frame(bytes)?;
    let stamp = stamp_to(b"VENUE")?;
    let _order = order_in(bytes, &frame)?;
    write_forward(to, bytes, &frame, &stamp);
    Some(to.finish())
}

/// The message that refuses an order beyond the firm's limit.
fn refusal<'a>(to: &'a mut Writer, bytes: &[u8]) -> Option<&'a [u8]> {
    let frame = sound_frame(bytes)?;
    let stamp = stamp_to(b"C1")?;
    let order = order_in(bytes, &frame)?;
    write_reject_order(to, bytes, &frame, &order, &stamp, 3, b"FIRM");
    Some(to.finish())
}

/// The message that refuses a request of an unknown order.
fn request_refusal(to: &mut Writer) -> Option<&[u8]> {
    let stamp = stamp_to(b"C1")?;
    let request = IdText::read(b"b1").ok()?;
    let orig = IdText::read(b"zz").ok()?;
    write_reject_cancel(to, &request, &orig, &stamp, 2, 1, b"UNKNOWN");
    Some(to.finish())
}

/// The message that refuses one with a field fault.
fn reject<'a>(to: &'a mut Writer, bytes: &[u8]) -> Option<&'a [u8]> {
    let frame = sound_frame(bytes)?;
    let stamp = stamp_to(b"C1")?;
    let Err(fault) = read_message(bytes, &frame) else {
        return None;
    };
    write_reject_session(to, &stamp, 7, type_text(bytes, &frame), &fault);
    Some(to.finish())
}

/// Name, an order, and the message that passes it on.
const FORWARDS: [(&str, &[u8], &[u8]); 3] = [
    (
        "an order at its limit",
        b"8=FIX.4.4\x019=113\x0135=D\x0149=C1\x0156=GATE\x0134=1\x0152=20240102-10:00:00\x0111=a1\x011=ACC\x0155=XYZ\x0154=1\x0138=100\x0140=2\x0144=10.0000\x0160=20240102-10:00:00\x0110=175\x01",
        b"8=FIX.4.4\x019=116\x0135=D\x0149=GATE\x0156=VENUE\x0134=1\x0152=20240102-10:00:00\x0111=a1\x011=ACC\x0155=XYZ\x0154=1\x0138=100\x0140=2\x0144=10.0000\x0160=20240102-10:00:00\x0110=193\x01",
    ),
    (
        "a group of parties",
        b"8=FIX.4.4\x019=153\x0135=D\x0149=C1\x0156=GATE\x0134=2\x0152=20240102-10:00:00\x0150=TRADER\x0111=a1\x01453=1\x01448=DESK1\x01447=D\x01452=11\x011=ACC\x0155=XYZ\x0154=1\x0160=20240102-10:00:00\x0138=100\x0140=2\x0144=9.5\x0159=0\x0110=223\x01",
        b"8=FIX.4.4\x019=156\x0135=D\x0149=GATE\x0156=VENUE\x0134=1\x0152=20240102-10:00:00\x0150=TRADER\x0111=a1\x01453=1\x01448=DESK1\x01447=D\x01452=11\x011=ACC\x0155=XYZ\x0154=1\x0160=20240102-10:00:00\x0138=100\x0140=2\x0144=9.5\x0159=0\x0110=240\x01",
    ),
    (
        "a group of two, and a field that isn't read twice",
        b"8=FIX.4.4\x019=128\x0135=D\x0149=C1\x0156=GATE\x0134=2\x0152=20240102-10:00:00\x0111=a1\x01453=2\x01448=DESK1\x01447=D\x01448=DESK2\x01447=D\x011=ACC\x0155=XYZ\x0154=5\x0138=100\x0140=1\x0158=\x0158=b\x0110=070\x01",
        b"8=FIX.4.4\x019=131\x0135=D\x0149=GATE\x0156=VENUE\x0134=1\x0152=20240102-10:00:00\x0111=a1\x01453=2\x01448=DESK1\x01447=D\x01448=DESK2\x01447=D\x011=ACC\x0155=XYZ\x0154=5\x0138=100\x0140=1\x0158=\x0158=b\x0110=078\x01",
    ),
];

/// The body of an order up to the text of Text (58).
const ORDER: &[u8] =
    b"35=D\x0149=C1\x0156=GATE\x0134=1\x0152=20240102-10:00:00\x0111=a1\x011=ACC\x01\
55=XYZ\x0154=1\x0138=100\x0140=2\x0144=10.0000\x0160=20240102-10:00:00\x0158=";

#[test]
fn orders_are_passed_on(rt: HostRuntime) -> Result<(), Fail> {
    let mut to = Writer::new();
    for (name, order, want) in FORWARDS {
        assert_eq!(rt; forward(&mut to, order), Some(want), "{name}");
    }
    Ok(())
}

/// A dearer order, and its refusal.
const DEARER: &[u8] =
    b"8=FIX.4.4\x019=113\x0135=D\x0149=C1\x0156=GATE\x0134=1\x0152=20240102-10:00:00\x0111=a1\x011=ACC\x0155=XYZ\x0154=1\x0138=100\x0140=2\x0144=10.0001\x0160=20240102-10:00:00\x0110=176\x01";

const REFUSED: &[u8] =
    b"8=FIX.4.4\x019=130\x0135=8\x0149=GATE\x0156=C1\x0134=1\x0152=20240102-10:00:00\x0137=NONE\x0111=a1\x0117=G1\x01150=8\x0139=8\x01103=3\x011=ACC\x0155=XYZ\x0154=1\x0138=100\x01151=0\x0114=0\x016=0\x0158=FIRM\x0110=038\x01";

#[test]
fn an_order_is_refused(rt: HostRuntime) -> Result<(), Fail> {
    let mut to = Writer::new();
    assert_eq!(rt;
        refusal(&mut to, DEARER),
        Some(REFUSED),
        "beyond the firm's limit"
    );
    Ok(())
}

/// The refusal of a request of an unknown order.
const UNKNOWN: &[u8] =
    b"8=FIX.4.4\x019=93\x0135=9\x0149=GATE\x0156=C1\x0134=1\x0152=20240102-10:00:00\x0137=NONE\x0111=b1\x0141=zz\x0139=8\x01434=2\x01102=1\x0158=UNKNOWN\x0110=000\x01";

#[test]
fn a_request_is_refused(rt: HostRuntime) -> Result<(), Fail> {
    let mut to = Writer::new();
    assert_eq!(rt; request_refusal(&mut to), Some(UNKNOWN), "an unknown order");
    Ok(())
}

/// Name, a message of number 7 with a field fault, and its Reject.
const REJECTS: [(&str, &[u8], &[u8]); 2] = [
    (
        "without a symbol",
        b"8=FIX.4.4\x019=83\x0135=D\x0149=C1\x0156=GATE\x0134=7\x0152=20240102-10:00:00\x0111=a1\x011=ACC\x0154=1\x0138=100\x0140=2\x0144=10.00\x0110=135\x01",
        b"8=FIX.4.4\x019=69\x0135=3\x0149=GATE\x0156=C1\x0134=1\x0152=20240102-10:00:00\x0145=7\x01371=55\x01372=D\x01373=1\x0110=220\x01",
    ),
    (
        "of another type",
        b"8=FIX.4.4\x019=90\x0135=D\x0149=C1\x0156=GATE\x0134=7\x0152=20240102-10:00:00\x0111=a1\x011=ACC\x0155=XYZ\x0154=1\x0138=100\x0140=3\x0144=10.00\x0110=057\x01",
        b"8=FIX.4.4\x019=69\x0135=3\x0149=GATE\x0156=C1\x0134=1\x0152=20240102-10:00:00\x0145=7\x01371=40\x01372=D\x01373=5\x0110=218\x01",
    ),
];

#[test]
fn faults_are_answered(rt: HostRuntime) -> Result<(), Fail> {
    let mut to = Writer::new();
    for (name, message, want) in REJECTS {
        assert_eq!(rt; reject(&mut to, message), Some(want), "{name}");
    }
    Ok(())
}

/// An order whose Text (58) fills the body up to 8,192 bytes.
fn filled(alloc: Global) -> Result<Vec<u8>, AllocError> {
    let mut body = ORDER.to_vec(alloc)?;
    for _ in 0..8075 {
        body.push(b'x')?;
    }
    body.push(1)?;
    framed(alloc, body.as_slice())
}

#[test]
fn the_longest_order_is_passed_on(rt: HostRuntime) -> Result<(), Fail> {
    let bytes = filled(rt.alloc())?;
    let mut to = Writer::new();
    let message = forward(&mut to, bytes.as_slice()).ok_or("no order")?;
    assert_eq!(rt;
        message.len(),
        8219,
        "17 bytes, a body of 8,195, and 7 bytes"
    );
    assert!(rt; message.starts_with(b"8=FIX.4.4\x019=8195\x0135=D\x0149=GATE\x0156=VENUE\x01"));
    Ok(())
}

/// Name, the body of a message, and its number, sender and time, where each stands once and is read.
const HEADS: [(&str, &[u8], Option<u32>, Option<&[u8]>, Option<&[u8]>); 4] = [
    (
        "whole",
        b"35=D\x0149=C1\x0134=7\x0152=20240102-10:00:00\x01",
        Some(7),
        Some(b"C1"),
        Some(b"20240102-10:00:00"),
    ),
    (
        "twice, or nowhere",
        b"35=D\x0149=C1\x0149=C1\x0134=7\x0134=7\x01",
        None,
        None,
        None,
    ),
    (
        "empty, or of another form",
        b"35=8\x0149=\x0134=x\x0152=a\x7f\x01",
        None,
        None,
        None,
    ),
    (
        "a message of which no field is read",
        b"35=B\x0152=10:00\x0134=0\x0149=C2\x01",
        None,
        Some(b"C2"),
        Some(b"10:00"),
    ),
];

/// The bytes of an id.
fn text_of(id: &Option<Id>) -> Option<&[u8]> {
    match id {
        Some(id) => Some(id.bytes()),
        None => None,
    }
}

#[test]
fn heads_are_read(rt: HostRuntime) -> Result<(), Fail> {
    for (name, body, seq, sender, time) in HEADS {
        let bytes = framed(rt.alloc(), body)?;
        let frame = sound_frame(bytes.as_slice()).ok_or("no frame")?;
        let head = read_envelope(bytes.as_slice(), &frame);
        assert_eq!(rt; head.seq, seq, "the number, {name}");
        assert_eq!(rt; text_of(&head.sender), sender, "the sender, {name}");
        assert_eq!(rt; text_of(&head.time), time, "the time, {name}");
    }
    Ok(())
}
