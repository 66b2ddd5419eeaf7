//! That with ample memory a check answers, and doesn't say that memory was wanting; and the two
//! texts, byte for byte. Bytes of inputs have a bar for SOH.
ghost use Rattle.std.specs.Prelude.{◌≡◌, length, IfOk};
ghost use Rattle.gate_files.specs.Words.{session_most};

use crate::command::check_words;
use crate::telling::{fault_text, lawful_text};
use fold_law::SESSIONS;
use gate_files::{Answer, Command, command_from};
use gate_ports::{Fail as Failing, MemFolder};
use journal_check::CheckFault;
use screen_kit::Screen;
use std::alloc::{AllocError, Global};
use std::test::*;

/// What is told of a lawful journal.
const LAWFUL: &[u8] = b"LAWFUL\n";

/// A fault, and what is told of it.
const TEXTS: &[(CheckFault, &[u8])] = &[
    (CheckFault { row: 0, kind: 1 }, b"check fault 1 row 0\n"),
    (CheckFault { row: 6, kind: 7 }, b"check fault 7 row 6\n"),
    (
        CheckFault {
            row: 4_294_967_295,
            kind: 5,
        },
        b"check fault 5 row 4294967295\n",
    ),
];

/// A firm's limit of 1,000, and an account and a symbol with more.
const LIMITS: &[u8] = b"firm,,1000,,,\naccount,ACC,100000,,,\nsymbol,XYZ,100000,1,12,100000\n";

/// An order of 100 at 10.00, which is 1,000.
const ORDER: &[u8] =
    b"8=FIX.4.4|9=113|35=D|49=C1|56=GATE|34=1|52=20240102-10:00:00|11=a1|1=ACC|55=XYZ|54=1|38=100|\
        40=2|44=10.0000|60=20240102-10:00:00|10=175|";

/// The journal of a session with that order: it is sent.
const SENT: &[u8] = b"kind,session,a,b,c,d\n\
post,0,0,1,1000,\n\
post,0,1,1,1000,\n\
post,0,2,1,1000,\n\
read,0,3,0,0,0\n\
read,0,0,1,1,1000\n\
read,0,1,1,1,1000\n\
read,0,2,1,1,1000\n\
sent,0,0,,,\n\
ended,0,0,,,\n\
line,0,0,1,1,1000\n\
line,0,1,1,1,1000\n\
line,0,2,1,1,1000\n";

/// The same with another value in the read of the firm's root.
const OTHER_READ: &[u8] = b"kind,session,a,b,c,d\n\
post,0,0,1,1000,\n\
post,0,1,1,1000,\n\
post,0,2,1,1000,\n\
read,0,3,0,0,0\n\
read,0,0,1,1,999\n\
read,0,1,1,1,1000\n\
read,0,2,1,1,1000\n\
sent,0,0,,,\n\
ended,0,0,,,\n\
line,0,0,1,1,1000\n\
line,0,1,1,1,1000\n\
line,0,2,1,1,1000\n";

/// A check of a journal by a limit file and one session's input, where a call may fail: its status,
/// and the text of a verdict.
#[derive(Clone, Copy)]
struct Row {
    name: &'static str,
    limits: &'static [u8],
    journal: &'static [u8],
    fails: Option<(&'static str, Failing)>,
    status: u8,
    told: &'static [u8],
}

const ROWS: &[Row] = &[
    Row {
        name: "lawful",
        limits: LIMITS,
        journal: SENT,
        fails: None,
        status: 0,
        told: LAWFUL,
    },
    Row {
        name: "another read",
        limits: LIMITS,
        journal: OTHER_READ,
        fails: None,
        status: 7,
        told: b"check fault 7 row 6\n",
    },
    Row {
        name: "no journal",
        limits: LIMITS,
        journal: b"kind\n",
        fails: None,
        status: 7,
        told: b"check fault 1 row 1\n",
    },
    Row {
        name: "no limit file",
        limits: b"firm\n",
        journal: SENT,
        fails: None,
        status: 3,
        told: b"",
    },
    Row {
        name: "limits that can't be opened",
        limits: LIMITS,
        journal: SENT,
        fails: Some(("limits", Failing::Open)),
        status: 5,
        told: b"",
    },
    Row {
        name: "a journal that can't be read",
        limits: LIMITS,
        journal: SENT,
        fails: Some(("journal", Failing::Fetch)),
        status: 5,
        told: b"",
    },
    Row {
        name: "a session that can't be opened",
        limits: LIMITS,
        journal: SENT,
        fails: Some(("session", Failing::Open)),
        status: 5,
        told: b"",
    },
    Row {
        name: "a session that can't be read",
        limits: LIMITS,
        journal: SENT,
        fails: Some(("session", Failing::Fetch)),
        status: 5,
        told: b"",
    },
    Row {
        name: "a fault of the text before a session that can't be read",
        limits: LIMITS,
        journal: b"kind\n",
        fails: Some(("session", Failing::Fetch)),
        status: 7,
        told: b"check fault 1 row 1\n",
    },
];

/// The bytes, with SOH for each bar.
fn bytes_of(alloc: Global, text: &[u8]) -> Result<Vec<u8>, AllocError> {
    let mut bytes = Vec::new(alloc);
    for byte in text {
        bytes.push(if *byte == b'|' { 1 } else { *byte })?;
    }
    Ok(bytes)
}

/// A set of no screens for each session that a check may have.
fn no_screens(alloc: Global) -> Result<Vec<Vec<Box<dyn Screen + Send>>>, AllocError>
    ensures { IfOk result (λ sets. length sets.items ≡ session_most) }
{
    let mut sets: Vec<Vec<Box<dyn Screen + Send>>> = Vec::new(alloc);
    for _ in 0..SESSIONS {
        sets.push(Vec::new(alloc))?;
    }
    Ok(sets)
}

/// The folder of a row, of which a call moves at most 100 bytes.
fn folder_of(alloc: Global, row: &Row) -> Result<MemFolder, Fail> {
    let mut folder = MemFolder::new(alloc, 100);
    folder.put("limits", Vec::from_slice(alloc, row.limits)?)?;
    folder.put("journal", Vec::from_slice(alloc, row.journal)?)?;
    folder.put("session", bytes_of(alloc, ORDER)?)?;
    if let Some((name, call)) = row.fails {
        folder.fail(call, name, 0)?;
    }
    Ok(folder)
}

/// The words of a command line.
fn words_of(alloc: Global, words: &[&str]) -> Result<Vec<String>, AllocError> {
    let mut all = Vec::new(alloc);
    for word in words {
        all.push(String::from_str(alloc, word)?)?;
    }
    Ok(all)
}

/// The answer to a row.
fn answer_to_row(alloc: Global, row: &Row) -> Result<Answer, Fail> {
    let words = words_of(alloc, &["check", "limits", "journal", "session"])?;
    let mut folder = folder_of(alloc, row)?;
    match command_from(&words) {
        Some(Command::Check(check)) => {
            Ok(check_words(alloc, &check, &mut folder, no_screens(alloc)?))
        }
        _ => Err("the words are no check".into()),
    }
}

/// What an answer tells, where it isn't told by its status.
fn told(answer: &Answer) -> &[u8] {
    match answer {
        Answer::Ended(_, text) => text.as_slice(),
        Answer::Stopped(_) => b"",
    }
}

#[test]
fn checks_have_their_answers(rt: HostRuntime) -> Result<(), Fail> {
    let alloc = rt.alloc();
    for row in ROWS {
        let answer = answer_to_row(alloc, row)?;
        let name = row.name;
        assert_eq!(rt; answer.number(), row.status, "{name}");
        assert_eq!(rt; told(&answer), row.told, "{name}");
    }
    Ok(())
}

#[test]
fn verdicts_have_their_texts(rt: HostRuntime) -> Result<(), Fail> {
    let alloc = rt.alloc();
    let lawful = lawful_text(alloc).ok().ok_or("memory")?;
    assert_eq!(rt; lawful.as_slice(), LAWFUL);
    for row in TEXTS {
        let text = fault_text(alloc, row.0).ok().ok_or("memory")?;
        assert_eq!(rt; text.as_slice(), row.1);
    }
    Ok(())
}
