//! Worked rows, and a caller of the walk with its proof.
ghost use Rattle.std.specs.Prelude.{◌≡◌, ◌==◌, ℕ, List, count_by, IfSome};
ghost use Rattle.fix_fields.specs.Fields.{FieldValue};
ghost use Rattle.fix_fields.specs.Places.{HasFieldsIn, IsSoundIn};

use fix_fields::{
    Field, Found, Frame, bytes_in_a_frame_are_cut, checksum, cut_is_short, fields, found_stays,
    frame_is_within, frame_stays, next_frame, one_frame_stands_there, one_is_found,
    one_list_is_spelled,
};
use std::test::Fail;

/// How many fields of a sound frame have this tag.
fn count_of_tag(bytes: &[u8], frame: &Frame, tag: u32) -> usize
    requires { IsSoundIn bytes.now frame.now }
    ensures { (listed : List FieldValue) → HasFieldsIn bytes.now frame.now listed
        → result ≡ count_by (λ field. field.tag == tag) listed }
{
    let mut count = 0;
    for field in fields(bytes, frame) {
        if field.tag == tag {
            count += 1;
        }
    }
    count
}

/// The frame in front, where it is sound.
fn sound_frame(bytes: &[u8]) -> Option<Frame>
    ensures { IfSome result (λ frame. IsSoundIn bytes.now frame) }
{
    match next_frame(bytes, 0) {
        Found::Frame(frame) if frame.sound => Some(frame),
        _ => None,
    }
}

/// Name, bytes, the place from which a frame is looked for, and what is found.
const ROWS: [(&str, &[u8], usize, Found); 29] = [
    (
        "a worked order",
        b"8=FIX.4.4\x019=113\x0135=D\x0149=C1\x0156=GATE\x0134=1\x0152=20240102-10:00:00\x0111=a1\x011=ACC\x0155=XYZ\x0154=1\x0138=100\x0140=2\x0144=10.0000\x0160=20240102-10:00:00\x0110=175\x01",
        0,
        Found::Frame(Frame {
            start: 0,
            body_from: 16,
            body_to: 129,
            end: 136,
            sound: true,
        }),
    ),
    (
        "CR and LF before it",
        b"\r\n\n8=FIX.4.4\x019=10\x0135=D\x0158=x\x0110=006\x01",
        0,
        Found::Frame(Frame {
            start: 3,
            body_from: 18,
            body_to: 28,
            end: 35,
            sound: true,
        }),
    ),
    (
        "from behind another",
        b"8=FIX.4.4\x019=10\x0135=D\x0158=x\x0110=006\x018=FIX.4.4\x019=5\x0135=0\x0110=163\x01",
        32,
        Found::Frame(Frame {
            start: 32,
            body_from: 46,
            body_to: 51,
            end: 58,
            sound: true,
        }),
    ),
    (
        "bytes behind it",
        b"8=FIX.4.4\x019=10\x0135=D\x0158=x\x0110=006\x018=FI",
        0,
        Found::Frame(Frame {
            start: 0,
            body_from: 15,
            body_to: 25,
            end: 32,
            sound: true,
        }),
    ),
    ("nothing", b"", 0, Found::End),
    ("line ends alone", b"\r\n\r\n", 0, Found::End),
    (
        "from the end",
        b"8=FIX.4.4\x019=10\x0135=D\x0158=x\x0110=006\x01",
        32,
        Found::End,
    ),
    (
        "a checksum one too high",
        b"8=FIX.4.4\x019=113\x0135=D\x0149=C1\x0156=GATE\x0134=1\x0152=20240102-10:00:00\x0111=a1\x011=ACC\x0155=XYZ\x0154=1\x0138=100\x0140=2\x0144=10.0000\x0160=20240102-10:00:00\x0110=176\x01",
        0,
        Found::Frame(Frame {
            start: 0,
            body_from: 16,
            body_to: 129,
            end: 136,
            sound: false,
        }),
    ),
    (
        "a second frame short of its last byte",
        b"8=FIX.4.4\x019=113\x0135=D\x0149=C1\x0156=GATE\x0134=1\x0152=20240102-10:00:00\x0111=a1\x011=ACC\x0155=XYZ\x0154=1\x0138=100\x0140=2\x0144=10.0000\x0160=20240102-10:00:00\x0110=175\x018=FIX.4.4\x019=113\x0135=D\x0149=C1\x0156=GATE\x0134=1\x0152=20240102-10:00:00\x0111=a1\x011=ACC\x0155=XYZ\x0154=1\x0138=100\x0140=2\x0144=10.0000\x0160=20240102-10:00:00\x0110=175",
        136,
        Found::Cut(136),
    ),
    (
        "leading zeros in BodyLength",
        b"8=FIX.4.4\x019=0000010\x0135=D\x0158=x\x0110=246\x01",
        0,
        Found::Frame(Frame {
            start: 0,
            body_from: 20,
            body_to: 30,
            end: 37,
            sound: true,
        }),
    ),
    (
        "eight digits of BodyLength",
        b"8=FIX.4.4\x019=00000010\x0135=D\x0158=x\x0110=038\x01",
        0,
        Found::Broken(0),
    ),
    (
        "no digit of BodyLength",
        b"8=FIX.4.4\x019=\x0135=D\x0158=x\x0110=165\x01",
        0,
        Found::Broken(0),
    ),
    (
        "an empty body",
        b"8=FIX.4.4\x019=0\x0110=200\x01",
        0,
        Found::Broken(0),
    ),
    (
        "a BodyLength one too low",
        b"8=FIX.4.4\x019=9\x0135=D\x0158=x\x0110=222\x01",
        0,
        Found::Broken(0),
    ),
    (
        "a BodyLength one too high",
        b"8=FIX.4.4\x019=11\x0135=D\x0158=x\x0110=007\x01",
        0,
        Found::Cut(0),
    ),
    (
        "another BeginString",
        b"8=FIX.4.2\x019=10\x0135=D\x0158=x\x0110=004\x01",
        0,
        Found::Broken(0),
    ),
    (
        "a space in front",
        b" 8=FIX.4.4\x019=10\x0135=D\x0158=x\x0110=006\x01",
        0,
        Found::Broken(0),
    ),
    (
        "two digits of CheckSum",
        b"8=FIX.4.4\x019=10\x0135=D\x0158=x\x0110=42\x01",
        0,
        Found::Cut(0),
    ),
    (
        "four digits of CheckSum",
        b"8=FIX.4.4\x019=10\x0135=D\x0158=x\x0110=0042\x01",
        0,
        Found::Broken(0),
    ),
    (
        "a tag with a leading zero",
        b"8=FIX.4.4\x019=11\x0135=D\x01058=x\x0110=055\x01",
        0,
        Found::Frame(Frame {
            start: 0,
            body_from: 15,
            body_to: 26,
            end: 33,
            sound: false,
        }),
    ),
    (
        "a tag of six digits",
        b"8=FIX.4.4\x019=14\x0135=D\x01999999=x\x0110=243\x01",
        0,
        Found::Frame(Frame {
            start: 0,
            body_from: 15,
            body_to: 29,
            end: 36,
            sound: true,
        }),
    ),
    (
        "a tag of seven digits",
        b"8=FIX.4.4\x019=15\x0135=D\x011000000=x\x0110=239\x01",
        0,
        Found::Frame(Frame {
            start: 0,
            body_from: 15,
            body_to: 30,
            end: 37,
            sound: false,
        }),
    ),
    (
        "a tag of zero",
        b"8=FIX.4.4\x019=9\x0135=D\x010=x\x0110=161\x01",
        0,
        Found::Frame(Frame {
            start: 0,
            body_from: 14,
            body_to: 23,
            end: 30,
            sound: false,
        }),
    ),
    (
        "an empty value",
        b"8=FIX.4.4\x019=9\x0135=D\x0158=\x0110=102\x01",
        0,
        Found::Frame(Frame {
            start: 0,
            body_from: 14,
            body_to: 23,
            end: 30,
            sound: true,
        }),
    ),
    (
        "an empty MsgType",
        b"8=FIX.4.4\x019=9\x0135=\x0158=x\x0110=154\x01",
        0,
        Found::Frame(Frame {
            start: 0,
            body_from: 14,
            body_to: 23,
            end: 30,
            sound: false,
        }),
    ),
    (
        "MsgType second",
        b"8=FIX.4.4\x019=10\x0158=x\x0135=D\x0110=006\x01",
        0,
        Found::Frame(Frame {
            start: 0,
            body_from: 15,
            body_to: 25,
            end: 32,
            sound: false,
        }),
    ),
    (
        "an equals sign in a value",
        b"8=FIX.4.4\x019=12\x0135=D\x0158=a=b\x0110=144\x01",
        0,
        Found::Frame(Frame {
            start: 0,
            body_from: 15,
            body_to: 27,
            end: 34,
            sound: true,
        }),
    ),
    (
        "a field without an equals sign",
        b"8=FIX.4.4\x019=8\x0135=D\x0158\x0110=040\x01",
        0,
        Found::Frame(Frame {
            start: 0,
            body_from: 14,
            body_to: 22,
            end: 29,
            sound: false,
        }),
    ),
    (
        "an empty field",
        b"8=FIX.4.4\x019=11\x0135=D\x01\x0158=x\x0110=008\x01",
        0,
        Found::Frame(Frame {
            start: 0,
            body_from: 15,
            body_to: 26,
            end: 33,
            sound: false,
        }),
    ),
];

#[test]
fn finds_what_stands_there(rt: HostRuntime) {
    for (name, bytes, from, want) in ROWS {
        if from <= bytes.len() {
            assert_eq!(rt; next_frame(bytes, from), want, "{name}");
        }
    }
}

/// A frame with four fields, of which one is empty and two have one tag.
const WALKED: &[u8] = b"8=FIX.4.4\x019=22\x0135=D\x0158=\x0149=C1\x0158=a=b\x0110=091\x01";

/// Where the fields of that frame stand.
const PLACES: [Field; 4] = [
    Field {
        tag: 35,
        from: 18,
        to: 19,
    },
    Field {
        tag: 58,
        from: 23,
        to: 23,
    },
    Field {
        tag: 49,
        from: 27,
        to: 29,
    },
    Field {
        tag: 58,
        from: 33,
        to: 36,
    },
];

#[test]
fn walks_the_fields_in_order(rt: HostRuntime) -> Result<(), Fail> {
    let frame = sound_frame(WALKED).ok_or("a sound frame")?;
    for (field, want) in fields(WALKED, &frame).zip(PLACES) {
        assert_eq!(rt; field, want);
    }
    assert_eq!(rt; fields(WALKED, &frame).nth(3), Some(PLACES[3]));
    assert_eq!(rt; fields(WALKED, &frame).nth(4), None);
    for (tag, want) in [(35, 1), (58, 2), (49, 1), (1, 0)] {
        assert_eq!(rt; count_of_tag(WALKED, &frame, tag), want, "tag {tag}");
    }
    Ok(())
}

/// What stands before the value that fills a body up to so many bytes, how long that value is, and
/// what is found: in the whole frame, and where its last byte is missing.
const BOUNDS: [(&[u8], usize, Found, Found); 3] = [
    (
        b"8=FIX.4.4\x019=8192\x0135=D\x0158=",
        8183,
        Found::Frame(Frame {
            start: 0,
            body_from: 17,
            body_to: 8209,
            end: 8216,
            sound: true,
        }),
        Found::Cut(0),
    ),
    (
        b"8=FIX.4.4\x019=0008192\x0135=D\x0158=",
        8183,
        Found::Frame(Frame {
            start: 0,
            body_from: 20,
            body_to: 8212,
            end: 8219,
            sound: true,
        }),
        Found::Cut(0),
    ),
    (
        b"8=FIX.4.4\x019=8193\x0135=D\x0158=",
        8184,
        Found::TooLong(0),
        Found::TooLong(0),
    ),
];

#[test]
fn takes_a_body_up_to_its_bound(rt: HostRuntime) -> Result<(), Fail> {
    for (head, count, whole, short) in BOUNDS {
        let mut bytes = head.to_vec(rt.alloc())?;
        for _ in 0..count {
            bytes.push(b'x')?;
        }
        bytes.push(1)?;
        let sum = checksum(&bytes);
        bytes.extend_from_slice(b"10=")?;
        for digit in [sum / 100, sum / 10 % 10, sum % 10] {
            bytes.push(digit.wrapping_add(b'0'))?;
        }
        assert_eq!(rt;
            next_frame(&bytes, 0),
            short,
            "short of a byte: {count} bytes"
        );
        bytes.push(1)?;
        assert_eq!(rt; next_frame(&bytes, 0), whole, "a value of {count} bytes");
    }
    Ok(())
}

#[test]
fn states_laws() {
    frame_stays();
    found_stays();
    one_frame_stands_there();
    one_is_found();
    bytes_in_a_frame_are_cut();
    cut_is_short();
    frame_is_within();
    one_list_is_spelled();
}
