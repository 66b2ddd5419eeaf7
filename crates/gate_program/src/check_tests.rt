//! Checks of a journal by the gate, over a folder in memory: statuses and what is told. No clause
//! says that memory isn't wanting, nor what a table's row gives.
use crate::command::gate;
use crate::rows::{BUY, Piece, SMALL, USAGE, bytes_of, no_screens, words_of};
use gate_ports::{Fail as Failing, Folder, MemFolder, MemSink, OpenGate};
use std::alloc::Global;
use std::process::Abort;
use std::test::*;
use std::thread::Threads;

const WORDS: &[&str] = &["check", "limits", "journal", "session"];

/// The journal of a session of one order, which is sent.
const SENT: &[u8] = b"kind,session,a,b,c,d\n\
post,0,0,1,1000,\n\
post,0,1,1,1000,\n\
post,0,2,1,1000,\n\
read,0,3,0,0,0\n\
read,0,0,1,1,1000\n\
read,0,1,1,1,1000\n\
read,0,2,1,1,1000\n\
sent,0,0,,,\n\
ended,0,0,,,\n\
line,0,0,1,1,1000\n\
line,0,1,1,1,1000\n\
line,0,2,1,1,1000\n";

/// The same with another value in the read of the firm's root.
const OTHER_READ: &[u8] = b"kind,session,a,b,c,d\n\
post,0,0,1,1000,\n\
post,0,1,1,1000,\n\
post,0,2,1,1000,\n\
read,0,3,0,0,0\n\
read,0,0,1,1,999\n\
read,0,1,1,1,1000\n\
read,0,2,1,1,1000\n\
sent,0,0,,,\n\
ended,0,0,,,\n\
line,0,0,1,1,1000\n\
line,0,1,1,1,1000\n\
line,0,2,1,1,1000\n";

/// The same without the last line.
const FEWER_LINES: &[u8] = b"kind,session,a,b,c,d\n\
post,0,0,1,1000,\n\
post,0,1,1,1000,\n\
post,0,2,1,1000,\n\
read,0,3,0,0,0\n\
read,0,0,1,1,1000\n\
read,0,1,1,1,1000\n\
read,0,2,1,1,1000\n\
sent,0,0,,,\n\
ended,0,0,,,\n\
line,0,0,1,1,1000\n\
line,0,1,1,1,1000\n";

/// The same with another value posted in the firm's tree.
const OTHER_POST: &[u8] = b"kind,session,a,b,c,d\n\
post,0,0,1,999,\n\
post,0,1,1,1000,\n\
post,0,2,1,1000,\n\
read,0,3,0,0,0\n\
read,0,0,1,1,1000\n\
read,0,1,1,1,1000\n\
read,0,2,1,1,1000\n\
sent,0,0,,,\n\
ended,0,0,,,\n\
line,0,0,1,1,1000\n\
line,0,1,1,1,1000\n\
line,0,2,1,1,1000\n";

/// A check: its words, limit file and journal, the calls that fail, each with its number from 0,
/// the status and what is told. The folder has a session of one order, and an empty one.
#[derive(Clone, Copy)]
struct Case {
    name: &'static str,
    words: &'static [&'static str],
    limits: &'static [u8],
    journal: &'static [u8],
    failing: &'static [(Failing, &'static str, u64)],
    /// Whether standard output, which takes 4 bytes a call, fails at its second call.
    is_cut_off: bool,
    status: u8,
    told: &'static [u8],
}

const LAWFUL: Case = Case {
    name: "a lawful journal",
    words: WORDS,
    limits: SMALL,
    journal: SENT,
    failing: &[],
    is_cut_off: false,
    status: 0,
    told: b"LAWFUL\n",
};

/// Journals that are judged.
const JUDGED: [Case; 6] = [
    LAWFUL,
    Case {
        name: "a read of another value",
        journal: OTHER_READ,
        status: 7,
        told: b"check fault 7 row 6\n",
        ..LAWFUL
    },
    Case {
        name: "a post without a line",
        journal: FEWER_LINES,
        status: 7,
        told: b"check fault 6 row 0\n",
        ..LAWFUL
    },
    Case {
        name: "a post of another value",
        journal: OTHER_POST,
        status: 7,
        told: b"check fault 5 row 2\n",
        ..LAWFUL
    },
    Case {
        name: "a journal of fewer sessions",
        words: &["check", "limits", "journal", "session", "empty"],
        status: 7,
        told: b"check fault 2 row 0\n",
        ..LAWFUL
    },
    Case {
        name: "no journal, in the limit file's place",
        words: &["check", "limits", "limits", "session"],
        status: 7,
        told: b"check fault 1 row 1\n",
        ..LAWFUL
    },
];

/// Files that can't be read, or are none.
const UNREAD: [Case; 8] = [
    Case {
        name: "an empty limit file",
        limits: b"",
        status: 3,
        told: b"limits fault 6 row 0\n",
        ..LAWFUL
    },
    Case {
        name: "no limit file",
        words: &["check", "other", "journal", "session"],
        status: 5,
        told: b"read fault\n",
        ..LAWFUL
    },
    Case {
        name: "no journal",
        words: &["check", "limits", "other", "session"],
        status: 5,
        told: b"read fault\n",
        ..LAWFUL
    },
    Case {
        name: "a journal that cannot be read",
        failing: &[(Failing::Fetch, "journal", 0)],
        status: 5,
        told: b"read fault\n",
        ..LAWFUL
    },
    Case {
        name: "no session",
        words: &["check", "limits", "journal", "other"],
        status: 5,
        told: b"read fault\n",
        ..LAWFUL
    },
    Case {
        name: "a session that cannot be opened",
        failing: &[(Failing::Open, "session", 0)],
        status: 5,
        told: b"read fault\n",
        ..LAWFUL
    },
    Case {
        name: "a session that cannot be read",
        failing: &[(Failing::Fetch, "session", 0)],
        status: 5,
        told: b"read fault\n",
        ..LAWFUL
    },
    Case {
        name: "standard output fails after four bytes",
        is_cut_off: true,
        status: 6,
        told: b"LAWF",
        ..LAWFUL
    },
];

/// Words that are no form.
const FORMLESS: [Case; 6] = [
    Case {
        name: "no session",
        words: &["check", "limits", "journal"],
        status: 2,
        told: USAGE,
        ..LAWFUL
    },
    Case {
        name: "a session twice",
        words: &["check", "limits", "journal", "session", "session"],
        status: 2,
        told: USAGE,
        ..LAWFUL
    },
    Case {
        name: "two equal sessions",
        words: &["check", "limits", "journal", "session", "empty", "session"],
        status: 2,
        told: USAGE,
        ..LAWFUL
    },
    Case {
        name: "an empty word",
        words: &["check", "limits", "", "session"],
        status: 2,
        told: USAGE,
        ..LAWFUL
    },
    Case {
        name: "a word with a dash",
        words: &["check", "-limits", "journal", "session"],
        status: 2,
        told: USAGE,
        ..LAWFUL
    },
    Case {
        name: "a session with a dash",
        words: &["check", "limits", "journal", "-session"],
        status: 2,
        told: USAGE,
        ..LAWFUL
    },
];

/// A folder with the case's files, of which a call moves at most 64 bytes.
fn folder_of(alloc: Global, case: &Case) -> Result<MemFolder, Fail> {
    let mut folder = MemFolder::new(alloc, 64);
    folder.put("limits", Vec::from_slice(alloc, case.limits)?)?;
    folder.put("journal", Vec::from_slice(alloc, case.journal)?)?;
    folder.put("session", bytes_of(alloc, &[Piece::Whole(BUY)])?)?;
    folder.put("empty", Vec::new(alloc))?;
    for (what, name, number) in case.failing {
        folder.fail(*what, name, *number)?;
    }
    Ok(folder)
}

/// Sees that the files are as they were.
fn compare_files(
    rt: &impl Abort,
    alloc: Global,
    case: &Case,
    folder: &MemFolder,
) -> Result<(), Fail> {
    let name = case.name;
    let order = bytes_of(alloc, &[Piece::Whole(BUY)])?;
    assert_eq!(rt; folder.get("limits"), Some(case.limits), "{name}");
    assert_eq!(rt; folder.get("journal"), Some(case.journal), "{name}");
    assert_eq!(rt; folder.get("session"), Some(order.as_slice()), "{name}");
    assert_eq!(rt; folder.get("empty"), Some(b"".as_slice()), "{name}");
    Ok(())
}

/// Does each check, and compares.
fn compare_all<R: Threads + Sync + Abort>(
    rt: &R,
    alloc: Global,
    cases: &[Case],
) -> Result<(), Fail> {
    for case in cases {
        let words = words_of(alloc, case.words)?;
        let mut folder = folder_of(alloc, case)?;
        let mut out = MemSink::new(alloc, 65_536, Vec::new(alloc));
        if case.is_cut_off {
            out = MemSink::new(alloc, 4, Vec::from_slice(alloc, &[1])?);
        }
        let status = gate(
            rt,
            alloc,
            &words,
            &mut folder,
            &mut out,
            no_screens(alloc)?,
            &OpenGate,
        );
        let name = case.name;
        assert_eq!(rt; status, case.status, "{name}");
        assert_eq!(rt; out.bytes(), case.told, "{name}");
        compare_files(rt, alloc, case, &folder)?;
    }
    Ok(())
}

#[test]
fn a_journal_is_lawful_or_its_first_fault_is_told(rt: HostRuntime) -> Result<(), Fail> {
    compare_all(&rt, rt.alloc(), &JUDGED)
}

#[test]
fn a_check_ends_at_a_file_that_it_cannot_read(rt: HostRuntime) -> Result<(), Fail> {
    compare_all(&rt, rt.alloc(), &UNREAD)
}

#[test]
fn words_of_a_check_are_a_form_or_none(rt: HostRuntime) -> Result<(), Fail> {
    compare_all(&rt, rt.alloc(), &FORMLESS)
}
