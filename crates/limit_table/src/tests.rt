//! What no clause says: how the columns of a limit file are spelled, at both sides of each limit, and
//! that each call runs.
use crate::{LimitFault, read_limits};
use fix_fields::IdText;
use std::alloc::{AllocError, Global};
use std::test::*;

type Want = Option<LimitFault>;

const SPELLINGS: [(&str, &[u8], Want); 25] = [
    ("an empty file", b"", Some(LimitFault::NoFirm)),
    ("empty lines", b"\n\r\n\n", Some(LimitFault::NoFirm)),
    (
        "no row of the firm",
        b"quota,,1,,,\n",
        Some(LimitFault::NoFirm),
    ),
    ("the firm alone", b"firm,,1000,,,\n", None),
    ("no last line end", b"firm,,1000,,,", None),
    ("CR and LF", b"firm,,1000,,,\r\nquota,,1,,,\r\n", None),
    (
        "empty lines between rows",
        b"\nfirm,,1000,,,\n\nquota,,1,,,\n",
        None,
    ),
    ("a byte order mark", b"\xef\xbb\xbffirm,,1000,,,\n", None),
    ("quoted columns", b"\"firm\",\"\",\"1000\",,,\n", None),
    ("the firm last", b"account,ACC,1,,,\nfirm,,1000,,,\n", None),
    (
        "a blank before the kind",
        b" firm,,1000,,,\n",
        Some(LimitFault::Kind(1)),
    ),
    (
        "a capital letter",
        b"Firm,,1000,,,\n",
        Some(LimitFault::Kind(1)),
    ),
    (
        "five columns",
        b"firm,,1000,,\n",
        Some(LimitFault::RowShape(1)),
    ),
    (
        "seven columns",
        b"firm,,1000,,,,\n",
        Some(LimitFault::RowShape(1)),
    ),
    ("one column", b"firm\n", Some(LimitFault::RowShape(1))),
    (
        "a header row",
        b"kind,name,limit,low,high,size\n",
        Some(LimitFault::Kind(1)),
    ),
    (
        "a name of the firm",
        b"firm,A,1000,,,\n",
        Some(LimitFault::RowShape(1)),
    ),
    (
        "a price of an account",
        b"account,A,1,1,,\n",
        Some(LimitFault::RowShape(1)),
    ),
    (
        "a size of a screen",
        b"off,A,1,,,1\n",
        Some(LimitFault::RowShape(1)),
    ),
    ("12 digits", b"firm,,000000001000,,,\n", None),
    (
        "13 digits",
        b"firm,,0000000001000,,,\n",
        Some(LimitFault::Number(1)),
    ),
    ("no digit", b"firm,,,,,\n", Some(LimitFault::Number(1))),
    (
        "a minus sign",
        b"firm,,-1,,,\n",
        Some(LimitFault::Number(1)),
    ),
    ("a point", b"firm,,1.0,,,\n", Some(LimitFault::Number(1))),
    (
        "a blank after the number",
        b"firm,,1 ,,,\n",
        Some(LimitFault::Number(1)),
    ),
];

const RANGES: [(&str, &[u8], Want); 26] = [
    ("the firm's least", b"firm,,0,,,\n", None),
    ("the firm's most", b"firm,,999999999999,,,\n", None),
    ("an account's least", b"firm,,1,,,\naccount,A,0,,,\n", None),
    (
        "an account's most",
        b"firm,,1,,,\naccount,A,999999999999,,,\n",
        None,
    ),
    (
        "a symbol's least",
        b"firm,,1,,,\nsymbol,A,0,.0001,.0001,1\n",
        None,
    ),
    (
        "a symbol's most",
        b"firm,,1,,,\nsymbol,A,999999999999,1,999999.9999,1000000000\n",
        None,
    ),
    ("size 0", b"symbol,A,0,1,1,0\n", Some(LimitFault::Number(1))),
    (
        "a size above the most",
        b"symbol,A,0,1,1,1000000001\n",
        Some(LimitFault::Number(1)),
    ),
    (
        "price 0",
        b"symbol,A,0,0,1,1\n",
        Some(LimitFault::Number(1)),
    ),
    (
        "a price above the most",
        b"symbol,A,0,1,1000000,1\n",
        Some(LimitFault::Number(1)),
    ),
    (
        "a fifth decimal",
        b"symbol,A,0,1,1.00001,1\n",
        Some(LimitFault::Number(1)),
    ),
    ("trip 0", b"trip,,0,,,\n", Some(LimitFault::Number(1))),
    ("trip 1", b"firm,,1,,,\ntrip,,1,,,\n", None),
    ("the most of trip", b"firm,,1,,,\ntrip,,1000000,,,\n", None),
    (
        "one above",
        b"trip,,1000001,,,\n",
        Some(LimitFault::Number(1)),
    ),
    ("quota 0", b"quota,,0,,,\n", Some(LimitFault::Number(1))),
    ("the most of quota", b"firm,,1,,,\nquota,,200000,,,\n", None),
    (
        "one above",
        b"quota,,200001,,,\n",
        Some(LimitFault::Number(1)),
    ),
    ("repeat 0", b"firm,,1,,,\nrepeat,,0,,,\n", None),
    ("the most of repeat", b"firm,,1,,,\nrepeat,,64,,,\n", None),
    ("one above", b"repeat,,65,,,\n", Some(LimitFault::Number(1))),
    ("off 0", b"firm,,1,,,\noff,A,0,,,\n", None),
    (
        "the most of off",
        b"firm,,1,,,\noff,A,1000000000,,,\n",
        None,
    ),
    (
        "one above",
        b"off,A,1000000001,,,\n",
        Some(LimitFault::Number(1)),
    ),
    ("low at high", b"firm,,1,,,\nsymbol,A,0,2,2,1\n", None),
    (
        "low above high",
        b"firm,,1,,,\nsymbol,A,0,2.0001,2,1\n",
        Some(LimitFault::Band(2)),
    ),
];

const ORDERS: [(&str, &[u8], Want); 15] = [
    (
        "two rows of the firm",
        b"firm,,1,,,\nfirm,,1,,,\n",
        Some(LimitFault::Repeated(2)),
    ),
    (
        "two quotas",
        b"quota,,1,,,\nquota,,2,,,\n",
        Some(LimitFault::Repeated(2)),
    ),
    (
        "one account twice",
        b"account,A,1,,,\naccount,A,2,,,\n",
        Some(LimitFault::Repeated(2)),
    ),
    (
        "an account and a symbol of one name",
        b"firm,,1,,,\naccount,A,1,,,\nsymbol,A,1,1,1,1\noff,A,1,,,\n",
        None,
    ),
    ("no name", b"account,,1,,,\n", Some(LimitFault::Name(1))),
    (
        "a name with a tab",
        b"account,A\tB,1,,,\n",
        Some(LimitFault::Name(1)),
    ),
    (
        "a name beyond 126",
        b"account,\x7f,1,,,\n",
        Some(LimitFault::Name(1)),
    ),
    (
        "64 bytes",
        b"firm,,1,,,\noff,0123456789012345678901234567890123456789012345678901234567890123,1,,,\n",
        None,
    ),
    (
        "65 bytes",
        b"off,01234567890123456789012345678901234567890123456789012345678901234,1,,,\n",
        Some(LimitFault::Name(1)),
    ),
    (
        "the shape before the kind",
        b"x,,1,,\n",
        Some(LimitFault::RowShape(1)),
    ),
    (
        "the kind before a filled column",
        b"x,y,1,1,1,1\n",
        Some(LimitFault::Kind(1)),
    ),
    (
        "a filled column before the number",
        b"firm,A,x,,,\n",
        Some(LimitFault::RowShape(1)),
    ),
    (
        "the number before the name",
        b"account,,x,,,\n",
        Some(LimitFault::Number(1)),
    ),
    (
        "a repeated row before its prices",
        b"symbol,A,1,1,1,1\nsymbol,A,1,2,1,1\n",
        Some(LimitFault::Repeated(2)),
    ),
    (
        "the first row with a fault",
        b"trip,,0,,,\nx\n",
        Some(LimitFault::Number(1)),
    ),
];

fn fault_of(alloc: Global, text: &[u8]) -> Want {
    match read_limits(alloc, text) {
        Ok(_) => None,
        Err(fault) => Some(fault),
    }
}

#[test]
fn spellings_are_told_apart(rt: HostRuntime) -> Result<(), Fail> {
    for (name, text, want) in SPELLINGS {
        assert_eq!(rt; fault_of(rt.alloc(), text), want, "{name}");
    }
    Ok(())
}

#[test]
fn ranges_have_two_sides(rt: HostRuntime) -> Result<(), Fail> {
    for (name, text, want) in RANGES {
        assert_eq!(rt; fault_of(rt.alloc(), text), want, "{name}");
    }
    Ok(())
}

#[test]
fn the_first_fault_is_answered(rt: HostRuntime) -> Result<(), Fail> {
    for (name, text, want) in ORDERS {
        assert_eq!(rt; fault_of(rt.alloc(), text), want, "{name}");
    }
    Ok(())
}

/// So many rows, each with three digits between two texts.
fn many_rows(alloc: Global, front: &[u8], back: &[u8], count: u32) -> Result<Vec<u8>, AllocError> {
    let mut text = Vec::new(alloc);
    text.extend_from_slice(b"firm,,1,,,\n")?;
    for n in 0..count {
        text.extend_from_slice(front)?;
        let digits = [n / 100 % 10, n / 10 % 10, n % 10];
        for digit in digits {
            text.extend_from_slice(&[b"0123456789"[digit as usize % 10]])?;
        }
        text.extend_from_slice(back)?;
    }
    Ok(text)
}

#[test]
fn rows_of_a_kind_are_few(rt: HostRuntime) -> Result<(), Fail> {
    let cases: [(&[u8], &[u8], u32, Want); 6] = [
        (b"account,", b",1,,,\n", 100, None),
        (b"account,", b",1,,,\n", 101, Some(LimitFault::TooMany(102))),
        (b"symbol,", b",1,1,1,1\n", 400, None),
        (b"symbol,", b",1,2,1,1\n", 401, Some(LimitFault::Band(2))),
        (b"off,", b",1,,,\n", 16, None),
        (b"off,", b",1,,,\n", 17, Some(LimitFault::TooMany(18))),
    ];
    for (front, back, count, want) in cases {
        let text = many_rows(rt.alloc(), front, back, count)?;
        assert_eq!(rt; fault_of(rt.alloc(), text.as_slice()), want);
    }
    let text = many_rows(rt.alloc(), b"symbol,", b",1,1,1,1\n", 401)?;
    assert_eq!(rt;
        fault_of(rt.alloc(), text.as_slice()),
        Some(LimitFault::TooMany(402))
    );
    Ok(())
}

#[test]
fn a_long_file_is_refused(rt: HostRuntime) -> Result<(), Fail> {
    let mut text = vec![in rt.alloc(); b'\n'; 1_048_576]?;
    assert_eq!(rt;
        fault_of(rt.alloc(), text.as_slice()),
        Some(LimitFault::NoFirm)
    );
    text.extend_from_slice(b"\n")?;
    assert_eq!(rt;
        fault_of(rt.alloc(), text.as_slice()),
        Some(LimitFault::TooMany(0))
    );
    Ok(())
}

#[test]
fn limits_are_those_of_the_rows(rt: HostRuntime) -> Result<(), Fail> {
    let text = b"firm,,1000,,,\naccount,ACC,100000,,,\nsymbol,XYZ,100000,1,12,100000\n";
    let Ok(limits) = read_limits(rt.alloc(), text) else {
        panic!(rt; "no limits");
    };
    assert_eq!(rt; limits.firm, 1000);
    let ([account], [symbol]) = (limits.accounts.rows(), limits.symbols.rows()) else {
        panic!(rt; "other rows");
    };
    assert_eq!(rt; account.limit, 100_000);
    assert_eq!(rt; symbol.low, 10_000);
    assert_eq!(rt; symbol.high, 120_000);
    assert_eq!(rt; symbol.size, 100_000);
    assert_eq!(rt; limits.trip, None);
    assert_eq!(rt; limits.quota, 50_000);
    assert_eq!(rt; limits.repeat, 0);
    assert!(rt; limits.off.rows().is_empty());
    Ok(())
}

/// A quota in a file, how many sessions run with it, and the quota that counts.
const COUNTED: [(&[u8], u32, u32); 8] = [
    (b"200000", 1, 200_000),
    (b"200000", 32, 200_000),
    (b"200000", 33, 100_000),
    (b"200000", 64, 100_000),
    (b"100001", 32, 100_001),
    (b"100001", 33, 100_000),
    (b"100000", 33, 100_000),
    (b"1", 64, 1),
];

#[test]
fn a_quota_counts_by_the_sessions(rt: HostRuntime) -> Result<(), Fail> {
    for (quota, sessions, counted) in COUNTED {
        let mut text = Vec::from_slice(rt.alloc(), b"firm,,7,,,\naccount,A,1,,,\nquota,,")?;
        text.extend_from_slice(quota)?;
        text.extend_from_slice(b",,,\n")?;
        let Ok(limits) = read_limits(rt.alloc(), text.as_slice()) else {
            panic!(rt; "no limits");
        };
        let limits = limits.counted_for(sessions);
        assert_eq!(rt; limits.quota(), counted, "{sessions} sessions");
        assert_eq!(rt; limits.firm(), 7);
        assert_eq!(rt; limits.accounts().len(), 1);
    }
    Ok(())
}

#[test]
fn names_have_places(rt: HostRuntime) -> Result<(), Fail> {
    let text = b"account,\"A,\"\"B\",7,,,\nsymbol, S ,1,1,1,1\nfirm,,1,,,\naccount,#,8,,,\n\
        off,duplicate,3,,,\ntrip,,2,,,\nquota,,9,,,\nrepeat,,4,,,\n";
    let Ok(limits) = read_limits(rt.alloc(), text) else {
        panic!(rt; "no limits");
    };
    let names: [(&[u8], Option<u32>, Option<u32>); 4] = [
        (b"A,\"B", Some(0), None),
        (b"#", Some(1), None),
        (b" S ", None, Some(0)),
        (b"S", None, None),
    ];
    for (text, account, symbol) in names {
        let Ok(name) = IdText::read(text) else {
            panic!(rt; "no name");
        };
        assert_eq!(rt; limits.account(&name), account);
        assert_eq!(rt; limits.symbol(&name), symbol);
    }
    assert_eq!(rt; limits.trip, Some(2));
    assert_eq!(rt; limits.quota, 9);
    assert_eq!(rt; limits.repeat, 4);
    let [off] = limits.off.rows() else {
        panic!(rt; "other rows");
    };
    assert_eq!(rt; off.from, 3);
    Ok(())
}

#[test]
fn trees_stand_in_order(rt: HostRuntime) -> Result<(), Fail> {
    let text = b"firm,,1,,,\nsymbol,X,1,1,1,1\naccount,A,1,,,\nsymbol,Y,1,1,1,1\naccount,B,1,,,\n";
    let Ok(limits) = read_limits(rt.alloc(), text) else {
        panic!(rt; "no limits");
    };
    if limits.accounts.rows().len() == 2 && limits.symbols.rows().len() == 2 {
        assert_eq!(rt; limits.account_tree(1), 2);
        assert_eq!(rt; limits.symbol_tree(0), 3);
        assert_eq!(rt; limits.symbol_tree(1), 4);
    }
    assert_eq!(rt; limits.halt_tree(), 5);
    Ok(())
}
