//! Journals against the answers that were worked out for them by hand, each fault alone and before each
//! later one; and a source that fails. Bytes of inputs have a bar for SOH.
use crate::{CheckFault, Checked, JOURNAL_MOST, check};
use fold_law::SESSIONS;
use gate_ports::MemSource;
use limit_table::{Limits, read_limits};
use std::alloc::{AllocError, Global};
use std::process::Abort;
use std::test::*;

/// A firm's limit of 1,000, and an account and a symbol with more: trees 0 to 2, and the halt tree 3.
const LIMITS: &[u8] = b"firm,,1000,,,\naccount,ACC,100000,,,\nsymbol,XYZ,100000,1,12,100000\n";

/// An order of 100 at 10.00, which is 1,000.
const ORDER: &[u8] =
    b"8=FIX.4.4|9=113|35=D|49=C1|56=GATE|34=1|52=20240102-10:00:00|11=a1|1=ACC|55=XYZ|54=1|38=100|\
        40=2|44=10.0000|60=20240102-10:00:00|10=175|";

/// That order, and one like it: together they are above the firm's limit.
const TWO_ORDERS: &[u8] =
    b"8=FIX.4.4|9=113|35=D|49=C1|56=GATE|34=1|52=20240102-10:00:00|11=a1|1=ACC|55=XYZ|54=1|38=100|\
        40=2|44=10.0000|60=20240102-10:00:00|10=175|\
        8=FIX.4.4|9=113|35=D|49=C1|56=GATE|34=1|52=20240102-10:00:00|11=a2|1=ACC|55=XYZ|54=1|38=100|\
        40=2|44=10.0000|60=20240102-10:00:00|10=176|";

/// No input.
const NOTHING: &[u8] = b"";

/// The journal of a session with that order: it is sent.
const SENT: &[u8] = b"kind,session,a,b,c,d\n\
post,0,0,1,1000,\n\
post,0,1,1,1000,\n\
post,0,2,1,1000,\n\
read,0,3,0,0,0\n\
read,0,0,1,1,1000\n\
read,0,1,1,1,1000\n\
read,0,2,1,1,1000\n\
sent,0,0,,,\n\
ended,0,0,,,\n\
line,0,0,1,1,1000\n\
line,0,1,1,1,1000\n\
line,0,2,1,1,1000\n";

/// The journal of a session with the two orders: the first is sent, and the second refused.
const ONE_REFUSED: &[u8] = b"kind,session,a,b,c,d\n\
post,0,0,1,1000,\n\
post,0,1,1,1000,\n\
post,0,2,1,1000,\n\
read,0,3,0,0,0\n\
read,0,0,1,1,1000\n\
read,0,1,1,1,1000\n\
read,0,2,1,1,1000\n\
sent,0,0,,,\n\
post,0,0,2,2000,\n\
post,0,1,2,2000,\n\
post,0,2,2,2000,\n\
read,0,3,0,0,0\n\
read,0,0,2,2,2000\n\
read,0,1,2,2,2000\n\
read,0,2,2,2,2000\n\
post,0,0,3,1000,\n\
post,0,1,3,1000,\n\
post,0,2,3,1000,\n\
refused,0,1,1,0,0\n\
ended,0,0,,,\n\
line,0,0,1,1,1000\n\
line,0,0,2,2,2000\n\
line,0,0,3,3,1000\n\
line,0,1,1,1,1000\n\
line,0,1,2,2,2000\n\
line,0,1,3,3,1000\n\
line,0,2,1,1,1000\n\
line,0,2,2,2,2000\n\
line,0,2,3,3,1000\n";

/// The journal of the one order with another value in the read of the firm's root.
const OTHER_READ: &[u8] = b"kind,session,a,b,c,d\n\
post,0,0,1,1000,\n\
post,0,1,1,1000,\n\
post,0,2,1,1000,\n\
read,0,3,0,0,0\n\
read,0,0,1,1,999\n\
read,0,1,1,1,1000\n\
read,0,2,1,1,1000\n\
sent,0,0,,,\n\
ended,0,0,,,\n\
line,0,0,1,1,1000\n\
line,0,1,1,1,1000\n\
line,0,2,1,1,1000\n";

/// The same without the last line.
const FEWER_LINES: &[u8] = b"kind,session,a,b,c,d\n\
post,0,0,1,1000,\n\
post,0,1,1,1000,\n\
post,0,2,1,1000,\n\
read,0,3,0,0,0\n\
read,0,0,1,1,1000\n\
read,0,1,1,1,1000\n\
read,0,2,1,1,1000\n\
sent,0,0,,,\n\
ended,0,0,,,\n\
line,0,0,1,1,1000\n\
line,0,1,1,1,1000\n";

/// The same with another value posted in the firm's tree.
const OTHER_POST: &[u8] = b"kind,session,a,b,c,d\n\
post,0,0,1,999,\n\
post,0,1,1,1000,\n\
post,0,2,1,1000,\n\
read,0,3,0,0,0\n\
read,0,0,1,1,1000\n\
read,0,1,1,1,1000\n\
read,0,2,1,1,1000\n\
sent,0,0,,,\n\
ended,0,0,,,\n\
line,0,0,1,1,1000\n\
line,0,1,1,1,1000\n\
line,0,2,1,1,1000\n";

/// A fault of this kind in this row.
fn fault(kind: u8, row: u32) -> Checked {
    Checked::No(CheckFault { row, kind })
}

/// A change of a row of the journal above, by its number from 1: another row, none, or more.
type Change = (usize, &'static [u8]);

/// A changed journal, and its first fault, if it has one.
#[derive(Clone, Copy)]
struct Case {
    name: &'static str,
    changes: &'static [Change],
    fault: Option<CheckFault>,
}

/// The faults alone, and the first of two of a kind. The rows of acts are 2 to 10, and those of lines 11
/// to 13.
const CASES: &[Case] = &[
    Case {
        name: "no change",
        changes: &[],
        fault: None,
    },
    Case {
        name: "text",
        changes: &[(1, b"kind\n")],
        fault: Some(CheckFault { row: 1, kind: 1 }),
    },
    Case {
        name: "text in a later row",
        changes: &[(4, b"posted,0,2,1,1000,\n")],
        fault: Some(CheckFault { row: 4, kind: 1 }),
    },
    Case {
        name: "count",
        changes: &[(10, b"ended,0,0,,,\nended,1,0,,,\n")],
        fault: Some(CheckFault { row: 0, kind: 2 }),
    },
    Case {
        name: "early",
        changes: &[(10, b"ended,0,4,,,\n")],
        fault: Some(CheckFault { row: 10, kind: 3 }),
    },
    Case {
        name: "early by a write that failed",
        changes: &[(10, b"ended,0,5,,,\n")],
        fault: Some(CheckFault { row: 10, kind: 3 }),
    },
    Case {
        name: "an act's tree",
        changes: &[(5, b"read,0,4,0,0,0\n")],
        fault: Some(CheckFault { row: 5, kind: 4 }),
    },
    Case {
        name: "a line's tree",
        changes: &[(13, b"line,0,4,1,1,1000\n")],
        fault: Some(CheckFault { row: 13, kind: 4 }),
    },
    Case {
        name: "a line of the last tree that has a number",
        changes: &[(13, b"line,0,4294967295,1,1,1000\n")],
        fault: Some(CheckFault { row: 13, kind: 4 }),
    },
    Case {
        name: "the first of two far trees",
        changes: &[
            (12, b"line,0,4,1,1,1000\n"),
            (13, b"line,0,4294967295,1,1,1000\n"),
        ],
        fault: Some(CheckFault { row: 12, kind: 4 }),
    },
    Case {
        name: "a near line behind a far one",
        changes: &[(12, b"line,0,4294967295,1,1,1000\n")],
        fault: Some(CheckFault { row: 13, kind: 1 }),
    },
    Case {
        name: "acts",
        changes: &[(9, b"sent,0,1,,,\n")],
        fault: Some(CheckFault { row: 9, kind: 5 }),
    },
    Case {
        name: "an act less",
        changes: &[(9, b"")],
        fault: Some(CheckFault { row: 9, kind: 5 }),
    },
    Case {
        name: "an act more",
        changes: &[(9, b"sent,0,0,,,\nsent,0,0,,,\n")],
        fault: Some(CheckFault { row: 10, kind: 5 }),
    },
    Case {
        name: "a line's value",
        changes: &[(12, b"line,0,1,1,1,1001\n")],
        fault: Some(CheckFault { row: 12, kind: 6 }),
    },
    Case {
        name: "a line's index",
        changes: &[(11, b"line,0,0,1,2,1000\n")],
        fault: Some(CheckFault { row: 11, kind: 6 }),
    },
    Case {
        name: "a line's session",
        changes: &[(11, b"line,1,0,1,1,1000\n")],
        fault: Some(CheckFault { row: 11, kind: 6 }),
    },
    Case {
        name: "a line more",
        changes: &[(13, b"line,0,2,1,1,1000\nline,0,2,2,2,1000\n")],
        fault: Some(CheckFault { row: 14, kind: 6 }),
    },
    Case {
        name: "no line",
        changes: &[(11, b""), (12, b""), (13, b"")],
        fault: Some(CheckFault { row: 0, kind: 6 }),
    },
    Case {
        name: "a read's value",
        changes: &[(7, b"read,0,1,1,1,1001\n")],
        fault: Some(CheckFault { row: 7, kind: 7 }),
    },
    Case {
        name: "a read's place",
        changes: &[(8, b"read,0,2,1,0,1000\n")],
        fault: Some(CheckFault { row: 8, kind: 7 }),
    },
    Case {
        name: "a place past the history",
        changes: &[(5, b"read,0,3,0,1,0\n")],
        fault: Some(CheckFault { row: 5, kind: 7 }),
    },
    Case {
        name: "a missing line before reads",
        changes: &[(5, b"read,0,3,0,1,0\n"), (13, b"")],
        fault: Some(CheckFault { row: 0, kind: 6 }),
    },
    Case {
        name: "the first of two reads",
        changes: &[(7, b"read,0,1,1,1,1001\n"), (8, b"read,0,2,1,1,1001\n")],
        fault: Some(CheckFault { row: 7, kind: 7 }),
    },
    Case {
        name: "a wrong line before a missing one",
        changes: &[(11, b""), (12, b"line,0,1,1,1,1001\n")],
        fault: Some(CheckFault { row: 11, kind: 6 }),
    },
];

/// Each kind of fault before each later one.
const BEFORE: &[Case] = &[
    Case {
        name: "text before count",
        changes: &[(1, b"kind\n"), (10, b"ended,0,0,,,\nended,1,0,,,\n")],
        fault: Some(CheckFault { row: 1, kind: 1 }),
    },
    Case {
        name: "text before early",
        changes: &[(1, b"kind\n"), (10, b"ended,0,4,,,\n")],
        fault: Some(CheckFault { row: 1, kind: 1 }),
    },
    Case {
        name: "text before tree",
        changes: &[(1, b"kind\n"), (13, b"line,0,4,1,1,1000\n")],
        fault: Some(CheckFault { row: 1, kind: 1 }),
    },
    Case {
        name: "text before acts",
        changes: &[(1, b"kind\n"), (9, b"sent,0,1,,,\n")],
        fault: Some(CheckFault { row: 1, kind: 1 }),
    },
    Case {
        name: "text before lines",
        changes: &[(1, b"kind\n"), (11, b"line,0,0,1,2,1000\n")],
        fault: Some(CheckFault { row: 1, kind: 1 }),
    },
    Case {
        name: "text before reads",
        changes: &[(1, b"kind\n"), (8, b"read,0,2,1,0,1000\n")],
        fault: Some(CheckFault { row: 1, kind: 1 }),
    },
    Case {
        name: "count before early",
        changes: &[(10, b"ended,0,4,,,\nended,1,0,,,\n")],
        fault: Some(CheckFault { row: 0, kind: 2 }),
    },
    Case {
        name: "count before tree",
        changes: &[
            (10, b"ended,0,0,,,\nended,1,0,,,\n"),
            (13, b"line,0,4,1,1,1000\n"),
        ],
        fault: Some(CheckFault { row: 0, kind: 2 }),
    },
    Case {
        name: "count before a tree far behind",
        changes: &[
            (10, b"ended,0,0,,,\nended,1,0,,,\n"),
            (13, b"line,0,4294967295,1,1,1000\n"),
        ],
        fault: Some(CheckFault { row: 0, kind: 2 }),
    },
    Case {
        name: "count before acts",
        changes: &[(9, b"sent,0,1,,,\n"), (10, b"ended,0,0,,,\nended,1,0,,,\n")],
        fault: Some(CheckFault { row: 0, kind: 2 }),
    },
    Case {
        name: "count before lines",
        changes: &[
            (10, b"ended,0,0,,,\nended,1,0,,,\n"),
            (11, b"line,0,0,1,2,1000\n"),
        ],
        fault: Some(CheckFault { row: 0, kind: 2 }),
    },
    Case {
        name: "count before reads",
        changes: &[
            (8, b"read,0,2,1,0,1000\n"),
            (10, b"ended,0,0,,,\nended,1,0,,,\n"),
        ],
        fault: Some(CheckFault { row: 0, kind: 2 }),
    },
    Case {
        name: "early before tree",
        changes: &[(2, b"post,0,4,1,1000,\n"), (10, b"ended,0,6,,,\n")],
        fault: Some(CheckFault { row: 10, kind: 3 }),
    },
    Case {
        name: "early before acts",
        changes: &[(9, b"sent,0,1,,,\n"), (10, b"ended,0,4,,,\n")],
        fault: Some(CheckFault { row: 10, kind: 3 }),
    },
    Case {
        name: "early before lines",
        changes: &[(10, b"ended,0,4,,,\n"), (11, b"line,0,0,1,2,1000\n")],
        fault: Some(CheckFault { row: 10, kind: 3 }),
    },
    Case {
        name: "early before reads",
        changes: &[(8, b"read,0,2,1,0,1000\n"), (10, b"ended,0,4,,,\n")],
        fault: Some(CheckFault { row: 10, kind: 3 }),
    },
    Case {
        name: "tree before acts",
        changes: &[(2, b"post,0,0,1,999,\n"), (13, b"line,0,4,1,1,1000\n")],
        fault: Some(CheckFault { row: 13, kind: 4 }),
    },
    Case {
        name: "tree before lines",
        changes: &[(11, b"line,0,0,1,2,1000\n"), (13, b"line,0,4,1,1,1000\n")],
        fault: Some(CheckFault { row: 13, kind: 4 }),
    },
    Case {
        name: "tree before reads",
        changes: &[(8, b"read,0,2,1,0,1000\n"), (13, b"line,0,4,1,1,1000\n")],
        fault: Some(CheckFault { row: 13, kind: 4 }),
    },
    Case {
        name: "acts before lines",
        changes: &[(9, b"sent,0,1,,,\n"), (11, b"line,0,0,1,2,1000\n")],
        fault: Some(CheckFault { row: 9, kind: 5 }),
    },
    Case {
        name: "acts before reads",
        changes: &[(8, b"read,0,2,1,0,1000\n"), (9, b"sent,0,1,,,\n")],
        fault: Some(CheckFault { row: 9, kind: 5 }),
    },
    Case {
        name: "lines before reads",
        changes: &[(5, b"read,0,3,0,1,0\n"), (12, b"line,0,1,1,1,1001\n")],
        fault: Some(CheckFault { row: 12, kind: 6 }),
    },
];

/// The journal of two orders, by the stamps of its reads. Those of the halt tree are in rows 5 and 13, and
/// those of the firm's in 6 and 14.
const STAMPS: &[Case] = &[
    Case {
        name: "no change",
        changes: &[],
        fault: None,
    },
    Case {
        name: "a later stamp of a later read",
        changes: &[(14, b"read,0,0,3,2,2000\n")],
        fault: None,
    },
    Case {
        name: "one stamp at two places",
        changes: &[(14, b"read,0,0,1,2,2000\n")],
        fault: Some(CheckFault { row: 14, kind: 7 }),
    },
    Case {
        name: "an earlier stamp at a later place",
        changes: &[(6, b"read,0,0,4,1,1000\n")],
        fault: Some(CheckFault { row: 14, kind: 7 }),
    },
    Case {
        name: "an earlier stamp at one place",
        changes: &[(5, b"read,0,3,1,0,0\n")],
        fault: Some(CheckFault { row: 13, kind: 7 }),
    },
    Case {
        name: "later stamps at one place",
        changes: &[(5, b"read,0,3,1,0,0\n"), (13, b"read,0,3,2,0,0\n")],
        fault: None,
    },
];

/// The bytes, with SOH for each bar.
fn bytes_of(alloc: Global, text: &[u8]) -> Result<Vec<u8>, AllocError> {
    let mut bytes = Vec::new(alloc);
    for byte in text {
        bytes.push(if *byte == b'|' { 1 } else { *byte })?;
    }
    Ok(bytes)
}

/// The limits of the file above.
fn limits(alloc: Global) -> Result<Limits, Fail> {
    match read_limits(alloc, LIMITS) {
        Ok(limits) => Ok(limits),
        Err(_) => Err("the limits are no file's".into()),
    }
}

/// The row with this number of a journal, with its changes.
fn add_row(text: &mut Vec<u8>, number: usize, row: &[u8], case: &Case) -> Result<(), AllocError> {
    for change in case.changes {
        if change.0 == number {
            return text.extend_from_slice(change.1);
        }
    }
    text.extend_from_slice(row)?;
    text.push(b'\n')?;
    Ok(())
}

/// A journal with the changes of a case.
fn changed(alloc: Global, journal: &[u8], case: &Case) -> Result<Vec<u8>, AllocError> {
    let mut text = Vec::new(alloc);
    let mut row = Vec::new(alloc);
    let mut number = 1usize;
    for byte in journal {
        if *byte == b'\n' {
            add_row(&mut text, number, &row, case)?;
            row.clear();
            number = number.saturating_add(1);
        } else {
            row.push(*byte)?;
        }
    }
    Ok(text)
}

/// What is said of a journal with sessions of these inputs. The call with this number on each source
/// fails, from 0.
fn said(
    rt: &impl Abort,
    alloc: Global,
    journal: &[u8],
    inputs: &[&[u8]],
    failing: u64,
) -> Result<Checked, Fail> {
    let mut sources = Vec::new(alloc);
    let mut screens = Vec::new(alloc);
    for input in inputs {
        let calls = [failing].to_vec(alloc)?;
        sources.push(MemSource::new(bytes_of(alloc, input)?, 100, calls))?;
        screens.push(Vec::new(alloc))?;
    }
    assert!(rt; sources.len() >= 1, "a source");
    assert!(rt; sources.len() <= SESSIONS as usize, "few sources");
    assert!(rt; sources.len() <= screens.len(), "screens for each");
    let count = sources.len();
    let done = check(alloc, &limits(alloc)?, journal, sources, screens);
    assert_eq!(rt; done.sources.len(), count, "all sources come back");
    Ok(done.answer)
}

/// No call has this number.
const NEVER: u64 = 999;

#[test]
fn worked_journals_have_their_answers(rt: HostRuntime) -> Result<(), Fail> {
    let alloc = rt.alloc();
    assert_eq!(rt; said(&rt, alloc, SENT, &[ORDER], NEVER)?, Checked::Yes);
    assert_eq!(rt; said(&rt, alloc, OTHER_READ, &[ORDER], NEVER)?, fault(7, 6));
    assert_eq!(rt;
        said(&rt, alloc, FEWER_LINES, &[ORDER], NEVER)?,
        fault(6, 0)
    );
    assert_eq!(rt; said(&rt, alloc, OTHER_POST, &[ORDER], NEVER)?, fault(5, 2));
    Ok(())
}

/// Compares each case of a journal of a session with this input.
fn compares(
    rt: &impl Abort,
    alloc: Global,
    journal: &[u8],
    input: &[u8],
    cases: &[Case],
) -> Result<(), Fail> {
    for case in cases {
        let text = changed(alloc, journal, case)?;
        let answer = said(rt, alloc, &text, &[input], NEVER)?;
        let expected = match case.fault {
            Some(first) => Checked::No(first),
            None => Checked::Yes,
        };
        assert_eq!(rt; answer, expected, "{}", case.name);
    }
    Ok(())
}

#[test]
fn each_fault_comes_alone(rt: HostRuntime) -> Result<(), Fail> {
    compares(&rt, rt.alloc(), SENT, ORDER, CASES)
}

#[test]
fn each_kind_comes_before_each_later_one(rt: HostRuntime) -> Result<(), Fail> {
    compares(&rt, rt.alloc(), SENT, ORDER, BEFORE)
}

#[test]
fn stamps_stand_in_the_order_of_places(rt: HostRuntime) -> Result<(), Fail> {
    compares(&rt, rt.alloc(), ONE_REFUSED, TWO_ORDERS, STAMPS)
}

/// So many bytes of a letter.
fn letters(alloc: Global, count: usize) -> Result<Vec<u8>, AllocError> {
    let piece = [b'k'; 65_536];
    let mut text = Vec::with_capacity(alloc, count)?;
    for _ in 0..count / piece.len() {
        text.extend_from_slice(&piece)?;
    }
    text.extend_from_slice(&piece[..count % piece.len()])?;
    Ok(text)
}

#[test]
fn a_journal_of_a_byte_too_many_is_no_text(rt: HostRuntime) -> Result<(), Fail> {
    let alloc = rt.alloc();
    let text = letters(alloc, JOURNAL_MOST + 1)?;
    assert_eq!(rt; said(&rt, alloc, &text, &[NOTHING], NEVER)?, fault(1, 0));
    Ok(())
}

#[test]
fn another_input_is_not_the_journals(rt: HostRuntime) -> Result<(), Fail> {
    let alloc = rt.alloc();
    assert_eq!(rt; said(&rt, alloc, SENT, &[NOTHING], NEVER)?, fault(5, 2));
    assert_eq!(rt;
        said(&rt, alloc, b"kind,session,a,b,c,d\n", &[NOTHING], NEVER)?,
        fault(2, 0)
    );
    assert_eq!(rt;
        said(
            &rt,
            alloc,
            b"kind,session,a,b,c,d\nended,0,0,,,\n",
            &[NOTHING],
            NEVER
        )?,
        Checked::Yes
    );
    Ok(())
}

#[test]
fn a_source_that_fails_is_told(rt: HostRuntime) -> Result<(), Fail> {
    let alloc = rt.alloc();
    assert_eq!(rt; said(&rt, alloc, SENT, &[ORDER], 0)?, Checked::ReadFault);
    assert_eq!(rt; said(&rt, alloc, SENT, &[ORDER], 1)?, Checked::ReadFault);
    assert_eq!(rt; said(&rt, alloc, SENT, &[ORDER, NOTHING], 0)?, fault(2, 0));
    Ok(())
}

#[test]
fn sessions_are_told_apart(rt: HostRuntime) -> Result<(), Fail> {
    let alloc = rt.alloc();
    let two = b"kind,session,a,b,c,d\nended,0,0,,,\nended,1,0,,,\n";
    assert_eq!(rt;
        said(&rt, alloc, two, &[NOTHING, NOTHING], NEVER)?,
        Checked::Yes
    );
    assert_eq!(rt;
        said(&rt, alloc, two, &[NOTHING, ORDER], NEVER)?,
        fault(5, 3)
    );
    assert_eq!(rt; said(&rt, alloc, two, &[ORDER, ORDER], NEVER)?, fault(5, 2));
    Ok(())
}

/// The journal above with one byte in place of another.
fn with_byte(alloc: Global, place: usize, byte: u8) -> Result<Vec<u8>, AllocError> {
    let mut text = Vec::from_slice(alloc, SENT)?;
    if let Some(old) = text.get_mut(place) {
        *old = byte;
    }
    Ok(text)
}

/// Whether the byte is a digit.
fn is_digit_at(place: usize) -> bool {
    match SENT.get(place) {
        Some(byte) => byte.is_ascii_digit(),
        None => false,
    }
}

/// Whether the byte stands in the stamp of a read. Each tree has one read here, and any stamp is its.
fn is_in_stamp(place: usize) -> bool {
    let mut commas = 0u32;
    let mut of_read = false;
    for earlier in 0..place {
        match SENT.get(earlier) {
            Some(b'\n') => {
                commas = 0;
                of_read = SENT.get(earlier.saturating_add(1)) == Some(&b'r');
            }
            Some(b',') => commas = commas.saturating_add(1),
            _ => {}
        }
    }
    of_read && commas == 3
}

#[test]
fn each_other_digit_is_a_fault_but_in_the_stamp_of_an_only_read(
    rt: HostRuntime,
) -> Result<(), Fail> {
    let alloc = rt.alloc();
    for place in 0..SENT.len() {
        if is_digit_at(place) {
            for byte in [b'0', b'1', b'2', b'7', b'9'] {
                let text = with_byte(alloc, place, byte)?;
                let answer = said(&rt, alloc, &text, &[ORDER], NEVER)?;
                let is_lawful = text.as_slice() == SENT || is_in_stamp(place);
                assert_eq!(rt;
                    answer == Checked::Yes,
                    is_lawful,
                    "place {place}, byte {byte}"
                );
            }
        }
    }
    Ok(())
}
