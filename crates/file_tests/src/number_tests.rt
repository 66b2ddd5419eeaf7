//! What no clause says: how prices, quantities, sequence numbers and ids are spelled, at both
//! sides of each limit, and that each reader runs.
use fix_fields::{Id, Spelling, read_price, read_qty, read_seq};
use std::test::*;

type Read = Result<u64, Spelling>;

const PRICES: [(&str, &[u8], Read); 22] = [
    ("leading zeros", b"010.50", Ok(105_000)),
    ("more zeros than four", b"10.00000", Ok(100_000)),
    ("no whole part", b".5", Ok(5_000)),
    ("no fraction", b"5.", Ok(50_000)),
    ("a fifth decimal", b"10.00001", Err(Spelling::Range)),
    ("an exponent", b"1e3", Err(Spelling::Form)),
    ("zero", b"0", Err(Spelling::Range)),
    ("zeros", b"0.0000", Err(Spelling::Range)),
    ("the smallest", b"0.0001", Ok(1)),
    ("below the smallest", b"0.00001", Err(Spelling::Range)),
    ("the largest", b"999999.9999", Ok(9_999_999_999)),
    (
        "a fifth decimal at the largest",
        b"999999.99995",
        Err(Spelling::Range),
    ),
    ("above the largest", b"1000000", Err(Spelling::Range)),
    ("32 bytes", b"00000000000000000000000000010.50", Ok(105_000)),
    (
        "33 bytes",
        b"000000000000000000000000000010.50",
        Err(Spelling::Range),
    ),
    (
        "past 64 bits",
        b"18446744073709551617",
        Err(Spelling::Range),
    ),
    ("a minus sign", b"-1", Err(Spelling::Range)),
    ("a minus sign alone", b"-", Err(Spelling::Form)),
    ("a plus sign", b"+1", Err(Spelling::Form)),
    ("a point alone", b".", Err(Spelling::Form)),
    ("nothing", b"", Err(Spelling::Form)),
    ("two points", b"1.2.3", Err(Spelling::Form)),
];

#[test]
fn prices_are_read(rt: HostRuntime) -> Result<(), Fail> {
    for (name, text, want) in PRICES {
        assert_eq!(rt; read_price(text), want, "{name}");
    }
    Ok(())
}

const QUANTITIES: [(&str, &[u8], Read); 7] = [
    ("zeros behind the point", b"100.000", Ok(100)),
    ("a half", b"1.5", Err(Spelling::Range)),
    ("zero", b"0", Err(Spelling::Range)),
    ("the smallest", b"1", Ok(1)),
    ("the largest", b"1000000000", Ok(1_000_000_000)),
    ("above the largest", b"1000000001", Err(Spelling::Range)),
    ("a letter", b"1O", Err(Spelling::Form)),
];

#[test]
fn quantities_are_read(rt: HostRuntime) -> Result<(), Fail> {
    for (name, text, want) in QUANTITIES {
        assert_eq!(rt; read_qty(text), want, "{name}");
    }
    Ok(())
}

const SEQUENCE_NUMBERS: [(&str, &[u8], Result<u32, Spelling>); 9] = [
    ("leading zeros", b"007", Ok(7)),
    ("a fraction", b"7.0", Err(Spelling::Form)),
    ("a minus sign", b"-7", Err(Spelling::Form)),
    ("nothing", b"", Err(Spelling::Form)),
    ("zero", b"0", Err(Spelling::Range)),
    ("the largest", b"999999999", Ok(999_999_999)),
    ("above the largest", b"1000000000", Err(Spelling::Range)),
    ("32 bytes", b"00000000000000000000000000000007", Ok(7)),
    (
        "33 bytes",
        b"000000000000000000000000000000007",
        Err(Spelling::Range),
    ),
];

#[test]
fn sequence_numbers_are_read(rt: HostRuntime) -> Result<(), Fail> {
    for (name, text, want) in SEQUENCE_NUMBERS {
        assert_eq!(rt; read_seq(text), want, "{name}");
    }
    Ok(())
}

// A value of 8,000 digits is answered too.
#[test]
fn a_long_text_is_out_of_range(rt: HostRuntime) -> Result<(), Fail> {
    let text = [b'9'; 8000];
    assert_eq!(rt; read_price(&text), Err(Spelling::Range), "a price");
    assert_eq!(rt; read_qty(&text), Err(Spelling::Range), "a quantity");
    assert_eq!(rt; read_seq(&text), Err(Spelling::Range), "a sequence number");
    assert_eq!(rt; Id::read(&text).is_err(), true, "an id");
    Ok(())
}

const IDS: [(&str, &[u8], Option<Spelling>); 9] = [
    ("a letter and a digit", b"a1", None),
    ("byte 31", b"a\x1f", Some(Spelling::Form)),
    ("byte 32", b"a ", None),
    ("byte 126", b"a~", None),
    ("byte 127", b"a\x7f", Some(Spelling::Form)),
    ("nothing", b"", Some(Spelling::Range)),
    ("64 bytes", &[b'x'; 64], None),
    ("65 bytes", &[b'x'; 65], Some(Spelling::Range)),
    ("65 bytes with SOH", &[1; 65], Some(Spelling::Form)),
];

#[test]
fn ids_are_read(rt: HostRuntime) -> Result<(), Fail> {
    for (name, text, want) in IDS {
        match Id::read(text) {
            Ok(id) => {
                assert_eq!(rt; want, None, "{name}");
                assert_eq!(rt; id.bytes(), text, "{name}");
            }
            Err(fault) => assert_eq!(rt; Some(fault), want, "{name}"),
        }
    }
    Ok(())
}

// A shorter id stands before a longer one that it begins, and 2 behind 10, as in a dictionary.
const ORDERED: [(&str, &[u8], &[u8]); 4] = [
    ("a front", b"a", b"a1"),
    ("a space", b"a", b"a "),
    ("by the first byte that differs", b"a10", b"a2"),
    ("capitals first", b"Z", b"a"),
];

#[test]
fn ids_are_ordered_as_texts(rt: HostRuntime) -> Result<(), Fail> {
    for (name, low, high) in ORDERED {
        let (Ok(low), Ok(high)) = (Id::read(low), Id::read(high)) else {
            assert!(rt; false, "{name}");
            return Ok(());
        };
        assert!(rt; low < high, "{name}");
        assert!(rt; low != high, "{name}");
        assert!(rt; low == low, "{name}");
    }
    Ok(())
}
