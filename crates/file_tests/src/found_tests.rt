//! The answers other than a frame, each at each of its causes.
use fix_fields::{Found, next_frame};

/// Name, bytes, the place from which a frame is looked for, and what is found.
const ROWS: [(&str, &[u8], usize, Found); 36] = [
    // The rest ends before a frame could.
    ("one byte", b"8", 0, Found::Cut(0)),
    (
        "the head but for an equals sign",
        b"8=FIX.4.4\x019",
        0,
        Found::Cut(0),
    ),
    (
        "the head's constant bytes",
        b"8=FIX.4.4\x019=",
        0,
        Found::Cut(0),
    ),
    (
        "one digit of BodyLength",
        b"8=FIX.4.4\x019=1",
        0,
        Found::Cut(0),
    ),
    (
        "seven digits of BodyLength",
        b"8=FIX.4.4\x019=0000010",
        0,
        Found::Cut(0),
    ),
    (
        "seven digits of a length above the most, not ended",
        b"8=FIX.4.4\x019=9999999",
        0,
        Found::Cut(0),
    ),
    ("a head", b"8=FIX.4.4\x019=10\x01", 0, Found::Cut(0)),
    (
        "a head of the longest body",
        b"8=FIX.4.4\x019=8192\x01",
        0,
        Found::Cut(0),
    ),
    (
        "a head and other bytes than a frame's, too few",
        b"8=FIX.4.4\x019=10\x01xxxxxxxxxxxxxxxx",
        0,
        Found::Cut(0),
    ),
    (
        "a body short of its last byte",
        b"8=FIX.4.4\x019=10\x0135=D\x0158=x",
        0,
        Found::Cut(0),
    ),
    (
        "a body",
        b"8=FIX.4.4\x019=10\x0135=D\x0158=x\x01",
        0,
        Found::Cut(0),
    ),
    (
        "a body and the tag of CheckSum",
        b"8=FIX.4.4\x019=10\x0135=D\x0158=x\x0110=",
        0,
        Found::Cut(0),
    ),
    (
        "a frame short of its last byte",
        b"8=FIX.4.4\x019=10\x0135=D\x0158=x\x0110=006",
        0,
        Found::Cut(0),
    ),
    (
        "an empty body, short of its last byte",
        b"8=FIX.4.4\x019=0\x0110=200",
        0,
        Found::Cut(0),
    ),
    ("line ends before it", b"\r\n\r8=FIX", 0, Found::Cut(3)),
    (
        "behind a frame",
        b"8=FIX.4.4\x019=10\x0135=D\x0158=x\x0110=006\x018=FIX",
        32,
        Found::Cut(32),
    ),
    // No frame stands there, whatever follows.
    ("another first byte", b"9", 0, Found::Broken(0)),
    (
        "line ends before another first byte",
        b"\r\n ",
        0,
        Found::Broken(2),
    ),
    (
        "another version, and nothing behind it",
        b"8=FIX.4.2",
        0,
        Found::Broken(0),
    ),
    (
        "another version",
        b"8=FIX.4.2\x019=10\x0135=D\x0158=x\x0110=004\x01",
        0,
        Found::Broken(0),
    ),
    (
        "another second field",
        b"8=FIX.4.4\x0135=D\x01",
        0,
        Found::Broken(0),
    ),
    (
        "a length of no digit",
        b"8=FIX.4.4\x019=\x01",
        0,
        Found::Broken(0),
    ),
    (
        "a minus sign before the length",
        b"8=FIX.4.4\x019=-1",
        0,
        Found::Broken(0),
    ),
    (
        "another byte behind a digit",
        b"8=FIX.4.4\x019=1x",
        0,
        Found::Broken(0),
    ),
    (
        "eight digits of BodyLength, and nothing behind them",
        b"8=FIX.4.4\x019=00000010",
        0,
        Found::Broken(0),
    ),
    (
        "eight digits of a length above the most",
        b"8=FIX.4.4\x019=99999999\x01",
        0,
        Found::Broken(0),
    ),
    (
        "an empty body",
        b"8=FIX.4.4\x019=0\x0110=200\x01",
        0,
        Found::Broken(0),
    ),
    (
        "a body without its last SOH",
        b"8=FIX.4.4\x019=10\x0135=D\x0158=xx10=125\x01",
        0,
        Found::Broken(0),
    ),
    (
        "a length one too low",
        b"8=FIX.4.4\x019=9\x0135=D\x0158=x\x0110=222\x01",
        0,
        Found::Broken(0),
    ),
    (
        "another tag than that of CheckSum",
        b"8=FIX.4.4\x019=10\x0135=D\x0158=x\x0111=006\x01",
        0,
        Found::Broken(0),
    ),
    (
        "a letter in CheckSum",
        b"8=FIX.4.4\x019=10\x0135=D\x0158=x\x0110=00a\x01",
        0,
        Found::Broken(0),
    ),
    (
        "no SOH behind CheckSum",
        b"8=FIX.4.4\x019=10\x0135=D\x0158=x\x0110=0060",
        0,
        Found::Broken(0),
    ),
    // BodyLength (9) is above the most.
    (
        "one byte more than the most",
        b"8=FIX.4.4\x019=8193\x01",
        0,
        Found::TooLong(0),
    ),
    (
        "one byte more, with leading zeros",
        b"8=FIX.4.4\x019=0008193\x01",
        0,
        Found::TooLong(0),
    ),
    (
        "the largest length",
        b"8=FIX.4.4\x019=9999999\x01x",
        0,
        Found::TooLong(0),
    ),
    (
        "line ends before a long length",
        b"\n8=FIX.4.4\x019=10000\x01",
        0,
        Found::TooLong(1),
    ),
];

#[test]
fn tells_why_no_frame_stands_there(rt: HostRuntime) {
    for (name, bytes, from, want) in ROWS {
        if from <= bytes.len() {
            assert_eq!(rt; next_frame(bytes, from), want, "{name}");
        }
    }
}

/// A worked order, of 136 bytes.
const ORDER: &[u8] =
    b"8=FIX.4.4\x019=113\x0135=D\x0149=C1\x0156=GATE\x0134=1\x0152=20240102-10:00:00\x0111=a1\x011=ACC\x0155=XYZ\x0154=1\x0138=100\x0140=2\x0144=10.0000\x0160=20240102-10:00:00\x0110=175\x01";

#[test]
fn is_cut_behind_each_byte_of_a_frame(rt: HostRuntime) {
    for count in 1..ORDER.len() {
        assert_eq!(rt;
            next_frame(&ORDER[..count], 0),
            Found::Cut(0),
            "{count} bytes"
        );
    }
}
