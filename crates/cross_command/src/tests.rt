//! Filters over a folder in memory, byte by byte, and those that stop. No clause says what a worked
//! row gives, nor that memory isn't wanting.

use crate::cross_words;
use crate::rows::{
    BUY, BUY_ANOTHER, Frame, LIMITS, REFUSAL, ROWS, Row, SELL, Session, client_of, folder_of,
    passed_of, words_of,
};
use gate_files::{Command, command_from, tell_answer};
use gate_ports::{Fail as Failing, Folder, MemFolder, MemSink};
use std::alloc::Global;
use std::process::Abort;
use std::test::*;
use std::thread::Threads;

/// What a filter was called with, its status and what it told.
#[derive(Drop)]
struct Done {
    folder: MemFolder,
    status: u8,
    told: MemSink,
}

/// Filters so many of the sessions of a folder.
fn done_over<R: Threads + Sync>(
    rt: &R,
    alloc: Global,
    folder: MemFolder,
    sessions: usize,
) -> Result<Done, Fail> {
    let words = words_of(alloc, sessions)?;
    let Some(Command::Cross(run)) = command_from(&words) else {
        return Err("no filter")?;
    };
    let mut folder = folder;
    let mut told = MemSink::new(alloc, 100, Vec::new(alloc));
    let answer = cross_words(rt, alloc, &run, &mut folder);
    let status = tell_answer(alloc, &mut told, answer);
    Ok(Done {
        folder,
        status,
        told,
    })
}

/// Compares what a filter wrote of a session with its row.
fn compare_session(
    rt: &impl Abort,
    alloc: Global,
    number: usize,
    session: &Session,
    folder: &MemFolder,
) -> Result<(), Fail> {
    let pass = format!(in alloc; "out/s{number:02}.pass")?;
    let passed = passed_of(alloc, session.frames)?;
    assert_eq!(rt;
        folder.get(pass.as_str()),
        Some(passed.as_slice()),
        "{pass}"
    );
    let client = format!(in alloc; "out/s{number:02}.client")?;
    let told = client_of(alloc, session.client)?;
    assert_eq!(rt;
        folder.get(client.as_str()),
        Some(told.as_slice()),
        "{client}"
    );
    Ok(())
}

/// Compares what a filter wrote with its row.
fn compare_outputs(
    rt: &impl Abort,
    alloc: Global,
    row: &Row,
    folder: &MemFolder,
) -> Result<(), Fail> {
    let name = row.name;
    for (number, session) in row.sessions.iter().enumerate() {
        compare_session(rt, alloc, number, session, folder)?;
    }
    assert_eq!(rt;
        folder.get("out/cross.csv"),
        Some(row.journal),
        "{name}: the journal"
    );
    assert_eq!(rt;
        folder.get("out/journal.csv"),
        None,
        "{name}: no other journal"
    );
    Ok(())
}

/// Filters the sessions of a row, and compares.
fn compare<R: Threads + Sync + Abort>(rt: &R, alloc: Global, row: &Row) -> Result<(), Fail> {
    let name = row.name;
    let folder = folder_of(alloc, row.sessions)?;
    let done = done_over(rt, alloc, folder, row.sessions.len())?;
    assert_eq!(rt; done.status, 0, "{name}: the status");
    assert_eq!(rt;
        done.told.bytes(),
        b"status 0\n".as_slice(),
        "{name}: what is told"
    );
    compare_outputs(rt, alloc, row, &done.folder)
}

#[test]
fn sessions_are_filtered(rt: HostRuntime) -> Result<(), Fail> {
    for row in &ROWS {
        compare(&rt, rt.alloc(), row)?;
    }
    Ok(())
}

const SELLER: Session = Session {
    frames: &[(SELL, true)],
    client: &[],
};

const BUYER: Session = Session {
    frames: &[(BUY, true)],
    client: &[],
};

/// Whether a session's frames were passed, which is all of them or none.
fn is_passed(
    rt: &impl Abort,
    alloc: Global,
    folder: &MemFolder,
    pass: &str,
    frames: &[Frame],
) -> Result<bool, Fail> {
    let Some(text) = folder.get(pass) else {
        return Err("no output")?;
    };
    let whole = passed_of(alloc, frames)?;
    assert!(rt;
        text.is_empty() || text == whole.as_slice(),
        "{pass}: all or none"
    );
    Ok(!text.is_empty())
}

/// Which of the two is asked first is open, and both may be refused.
#[test]
fn of_two_sessions_orders_that_cross_one_is_passed_at_most(rt: HostRuntime) -> Result<(), Fail> {
    let alloc = rt.alloc();
    for _ in 0..20 {
        let done = done_over(&rt, alloc, folder_of(alloc, &[SELLER, BUYER])?, 2)?;
        assert_eq!(rt; done.status, 0, "the status");
        let sold = is_passed(&rt, alloc, &done.folder, "out/s00.pass", SELLER.frames)?;
        let bought = is_passed(&rt, alloc, &done.folder, "out/s01.pass", BUYER.frames)?;
        assert!(rt; !(sold && bought), "never both");
        let refusal = client_of(alloc, &[REFUSAL])?;
        let refused = done.folder.get("out/s01.client") == Some(refusal.as_slice());
        assert_eq!(rt; refused, !bought, "the buyer is told");
    }
    Ok(())
}

const ANOTHER: Session = Session {
    frames: &[(BUY_ANOTHER, true)],
    client: &[],
};

/// A call that fails in a filter of two sessions in two symbols, the status, what is told, and
/// whether the journal stands.
type Fault = (&'static str, Failing, &'static str, u8, &'static [u8], bool);

const FAULTS: [Fault; 7] = [
    (
        "the limits can't be opened",
        Failing::Open,
        "limits",
        5,
        b"read fault\n",
        false,
    ),
    (
        "a session can't be opened",
        Failing::Open,
        "session1",
        5,
        b"read fault\n",
        false,
    ),
    (
        "an output can't be made",
        Failing::Create,
        "out/s01.client",
        6,
        b"write fault\n",
        false,
    ),
    (
        "another can't",
        Failing::Create,
        "out/s00.pass",
        6,
        b"write fault\n",
        false,
    ),
    (
        "a session can't be read",
        Failing::Fetch,
        "session0",
        5,
        b"status 5\n",
        true,
    ),
    (
        "nothing can be passed",
        Failing::Give,
        "out/s01.pass",
        6,
        b"status 6\n",
        true,
    ),
    (
        "no journal can be made",
        Failing::Create,
        "out/cross.csv",
        6,
        b"status 6\n",
        false,
    ),
];

#[test]
fn one_failing_call_has_its_status(rt: HostRuntime) -> Result<(), Fail> {
    let alloc = rt.alloc();
    for (name, what, of, status, told, stands) in &FAULTS {
        let mut folder = folder_of(alloc, &[SELLER, ANOTHER])?;
        folder.fail(*what, of, 0)?;
        let done = done_over(&rt, alloc, folder, 2)?;
        assert_eq!(rt; done.status, *status, "{name}: the status");
        assert_eq!(rt; done.told.bytes(), *told, "{name}: what is told");
        let there = done.folder.get("out/cross.csv").is_some();
        assert_eq!(rt; there, *stands, "{name}: the journal");
    }
    Ok(())
}

/// A limit file, what a session reads, the status and what is told.
const STOPS: [(&str, &[u8], &[u8], u8, &[u8]); 3] = [
    (
        "no limits",
        b"firm,,1000,,\n",
        b"",
        3,
        b"limits fault 1 row 1\n",
    ),
    (
        "an input that is cut",
        LIMITS,
        b"8=FIX.4.4\x019=5",
        4,
        b"status 4\n",
    ),
    (
        "an input that is broken",
        LIMITS,
        b"8=FIX.4.2\x01",
        4,
        b"status 4\n",
    ),
];

#[test]
fn limits_and_inputs_have_their_status(rt: HostRuntime) -> Result<(), Fail> {
    let alloc = rt.alloc();
    for (name, limits, input, status, told) in &STOPS {
        let mut folder = MemFolder::new(alloc, 100);
        folder.put("limits", Vec::from_slice(alloc, limits)?)?;
        folder.put("session0", Vec::from_slice(alloc, input)?)?;
        let done = done_over(&rt, alloc, folder, 1)?;
        assert_eq!(rt; done.status, *status, "{name}: the status");
        assert_eq!(rt; done.told.bytes(), *told, "{name}: what is told");
    }
    Ok(())
}

/// Words, and whether they are those of a filter.
const WORDS: [(&str, &[&str], bool); 7] = [
    ("one session", &["cross", "limits", "out", "a"], true),
    ("no session", &["cross", "limits", "out"], false),
    (
        "two equal sessions",
        &["cross", "limits", "out", "a", "a"],
        false,
    ),
    (
        "limits that are the journal",
        &["cross", "out/cross.csv", "out", "a"],
        false,
    ),
    (
        "a session that is an output",
        &["cross", "limits", "out", "a", "out/s00.pass"],
        false,
    ),
    (
        "a session that is a run's output",
        &["cross", "limits", "out", "out/s00.venue"],
        true,
    ),
    (
        "a word with a dash",
        &["cross", "limits", "-out", "a"],
        false,
    ),
];

#[test]
fn the_form_of_a_filter_is_that_of_a_run(rt: HostRuntime) -> Result<(), Fail> {
    let alloc = rt.alloc();
    for (name, words, wanted) in &WORDS {
        let mut all = Vec::new(alloc);
        for word in *words {
            all.push(String::from_str(alloc, word)?)?;
        }
        let filters = matches!(command_from(&all), Some(Command::Cross(_)));
        assert_eq!(rt; filters, *wanted, "{name}");
    }
    Ok(())
}
