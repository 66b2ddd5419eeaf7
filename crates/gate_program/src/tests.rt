//! Runs that stop before a session, and one whose standard output fails: statuses and what is told.
//! No clause says that memory isn't wanting, nor what a table's row gives.
use crate::command::gate;
use crate::rows::{Piece, Row, SMALL, Session, USAGE, compare, no_screens, stage_of, words_of};
use gate_ports::{Folder, MemFolder, MemSink, OpenGate};
use std::test::*;

const WORDS: [&str; 4] = ["run", "limits", "out", "session"];

/// Words, the limit file's text, the status and what is told. No session is there.
const STOPS: [(&str, &[&str], &[u8], u8, &[u8]); 15] = [
    ("no words", &[], SMALL, 2, USAGE),
    ("too few words", &["run", "limits", "out"], SMALL, 2, USAGE),
    (
        "two equal sessions",
        &["run", "limits", "out", "a", "b", "a"],
        SMALL,
        2,
        USAGE,
    ),
    (
        "a session twice",
        &["run", "limits", "out", "a", "a"],
        SMALL,
        2,
        USAGE,
    ),
    (
        "another command",
        &["make", "limits", "out", "session"],
        SMALL,
        2,
        USAGE,
    ),
    (
        "an empty word",
        &["run", "limits", "", "session"],
        SMALL,
        2,
        USAGE,
    ),
    (
        "a word with a dash",
        &["run", "limits", "out", "-session"],
        SMALL,
        2,
        USAGE,
    ),
    ("an option", &["--help"], SMALL, 2, USAGE),
    (
        "limits that are the journal",
        &["run", "out/journal.csv", "out", "session"],
        SMALL,
        2,
        USAGE,
    ),
    (
        "a session that is an output",
        &["run", "limits", "out", "out/s00.client"],
        SMALL,
        2,
        USAGE,
    ),
    (
        "a session that is another's output",
        &["run", "limits", "out", "out/s01.venue", "session"],
        SMALL,
        2,
        USAGE,
    ),
    (
        "limits that are the last output",
        &["run", "out/s02.client", "out", "a", "b", "c"],
        SMALL,
        2,
        USAGE,
    ),
    (
        "an output of no session",
        &["run", "limits", "out", "out/s01.venue"],
        SMALL,
        5,
        b"read fault\n",
    ),
    (
        "no limit file",
        &["run", "other", "out", "session"],
        SMALL,
        5,
        b"read fault\n",
    ),
    ("no session", &WORDS, SMALL, 5, b"read fault\n"),
];

/// A limit file's text, the status and what is told. No session is there, so with limits a run ends as
/// a read fault.
const LIMIT_FILES: [(&str, &[u8], u8, &[u8]); 18] = [
    (
        "five columns",
        b"firm,,1000,,\n",
        3,
        b"limits fault 1 row 1\n",
    ),
    (
        "no kind",
        b"firm,,1000,,,\n\nfund,,1,,,\n",
        3,
        b"limits fault 2 row 2\n",
    ),
    (
        "no number",
        b"quota,,200001,,,\n",
        3,
        b"limits fault 3 row 1\n",
    ),
    (
        "no name",
        b"firm,,1,,,\nquota,,1,,,\naccount,,1,,,\n",
        3,
        b"limits fault 4 row 3\n",
    ),
    (
        "two rows of the firm",
        b"firm,,1,,,\nfirm,,1,,,\n",
        3,
        b"limits fault 5 row 2\n",
    ),
    ("an empty file", b"", 3, b"limits fault 6 row 0\n"),
    (
        "seventeen dropped screens",
        b"off,a,1,,,\noff,b,1,,,\noff,c,1,,,\noff,d,1,,,\noff,e,1,,,\noff,f,1,,,\n\
            off,g,1,,,\noff,h,1,,,\noff,i,1,,,\noff,j,1,,,\noff,k,1,,,\noff,l,1,,,\n\
            off,m,1,,,\noff,n,1,,,\noff,o,1,,,\noff,p,1,,,\noff,q,1,,,\n",
        3,
        b"limits fault 7 row 17\n",
    ),
    (
        "low above high",
        b"symbol,XYZ,1,2,1,1\n",
        3,
        b"limits fault 8 row 1\n",
    ),
    (
        "a dropped screen",
        b"firm,,1,,,\noff,size,0,,,\n",
        5,
        b"read fault\n",
    ),
    ("the firm alone", b"firm,,1000,,,\n", 5, b"read fault\n"),
    ("an account and a symbol", SMALL, 5, b"read fault\n"),
    ("a trip", b"firm,,1,,,\ntrip,,1,,,\n", 5, b"read fault\n"),
    ("no line end", b"firm,,1000,,,", 5, b"read fault\n"),
    (
        "a quota",
        b"quota,,200000,,,\nfirm,,0,,,\n",
        5,
        b"read fault\n",
    ),
    (
        "the screen of repeats",
        b"repeat,,64,,,\nfirm,,1,,,\n",
        5,
        b"read fault\n",
    ),
    (
        "a net account",
        b"version,2,,,,,\nfirm,,1,,,,\naccount,A,1,,,,net\n",
        5,
        b"read fault\n",
    ),
    (
        "another mode",
        b"version,2,,,,,\nfirm,,5000,,,,\naccount,ACC,100000,,,,net\n\
            symbol,XYZ,100000,1,12,100000,\naccount,A2,1,,,,both\n",
        3,
        b"limits fault 2 row 5\n",
    ),
    (
        "a mode in version 1",
        b"firm,,1,,,\naccount,A,1,,,,net\n",
        3,
        b"limits fault 1 row 2\n",
    ),
];

/// A sink takes a front of the totals, and the rest stands.
const CUT_OFF: Row = Row {
    name: "standard output fails after four bytes",
    limits: SMALL,
    sessions: &[Session {
        input: &[Piece::Whole(b"35=0|49=C1|56=GATE|34=1|52=20240102-10:00:00|")],
        venue: &[],
        client: &[],
    }],
    journal: b"kind,session,a,b,c,d\nended,0,0,,,\n",
    status: 6,
    told: b"sess",
};

#[test]
fn a_limit_file_is_taken_or_refused(rt: HostRuntime) -> Result<(), Fail> {
    let alloc = rt.alloc();
    let words = words_of(alloc, &WORDS)?;
    for (name, limits, want, told) in LIMIT_FILES {
        let mut folder = MemFolder::new(alloc, 65536);
        folder.put("limits", Vec::from_slice(alloc, limits)?)?;
        let mut out = MemSink::new(alloc, 65536, Vec::new(alloc));
        let status = gate(
            &rt,
            alloc,
            &words,
            &mut folder,
            &mut out,
            no_screens(alloc)?,
            &OpenGate,
        );
        assert_eq!(rt; status, want, "{name}");
        assert_eq!(rt; out.bytes(), told, "{name}");
        assert_eq!(rt; folder.get("out/s00.venue"), None, "{name}");
    }
    Ok(())
}

#[test]
fn a_limit_file_has_a_most_length(rt: HostRuntime) -> Result<(), Fail> {
    let alloc = rt.alloc();
    let words = words_of(alloc, &WORDS)?;
    let cases: [(usize, &[u8]); 2] = [
        (1_048_576, b"limits fault 6 row 0\n"),
        (1_048_577, b"limits fault 7 row 0\n"),
    ];
    for (length, told) in cases {
        let mut folder = MemFolder::new(alloc, 65536);
        folder.put("limits", vec![in alloc; b'\n'; length]?)?;
        let mut out = MemSink::new(alloc, 65536, Vec::new(alloc));
        let status = gate(
            &rt,
            alloc,
            &words,
            &mut folder,
            &mut out,
            no_screens(alloc)?,
            &OpenGate,
        );
        assert_eq!(rt; status, 3);
        assert_eq!(rt; out.bytes(), told);
    }
    Ok(())
}

#[test]
fn stops_before_a_session(rt: HostRuntime) -> Result<(), Fail> {
    let alloc = rt.alloc();
    for (name, words, limits, want, told) in STOPS {
        let mut folder = MemFolder::new(alloc, 65536);
        folder.put("limits", Vec::from_slice(alloc, limits)?)?;
        let mut out = MemSink::new(alloc, 65536, Vec::new(alloc));
        let words = words_of(alloc, words)?;
        let status = gate(
            &rt,
            alloc,
            &words,
            &mut folder,
            &mut out,
            no_screens(alloc)?,
            &OpenGate,
        );
        assert_eq!(rt; status, want, "{name}");
        assert_eq!(rt; out.bytes(), told, "{name}");
        assert_eq!(rt; folder.get("out/journal.csv"), None, "{name}");
    }
    Ok(())
}

#[test]
fn a_run_and_a_check_have_at_most_64_sessions(rt: HostRuntime) -> Result<(), Fail> {
    let alloc = rt.alloc();
    for (command, count, want) in [
        ("run", 64, 5),
        ("run", 65, 2),
        ("check", 64, 5),
        ("check", 65, 2),
    ] {
        let mut words = words_of(alloc, &[command, "limits", "out"])?;
        for session in 0..count {
            words.push(format!(in alloc; "session{session}")?)?;
        }
        let mut folder = MemFolder::new(alloc, 65536);
        folder.put("limits", Vec::from_slice(alloc, SMALL)?)?;
        let mut out = MemSink::new(alloc, 65536, Vec::new(alloc));
        let status = gate(
            &rt,
            alloc,
            &words,
            &mut folder,
            &mut out,
            no_screens(alloc)?,
            &OpenGate,
        );
        assert_eq!(rt; status, want, "{command} with {count} sessions");
    }
    Ok(())
}

#[test]
fn a_fault_of_standard_output_is_a_write_fault(rt: HostRuntime) -> Result<(), Fail> {
    let alloc = rt.alloc();
    let mut stage = stage_of(alloc, &CUT_OFF, 65_536)?;
    stage.out = MemSink::new(alloc, 4, Vec::from_slice(alloc, &[1])?);
    let status = gate(
        &rt,
        alloc,
        &stage.words,
        &mut stage.folder,
        &mut stage.out,
        no_screens(alloc)?,
        &OpenGate,
    );
    compare(&rt, alloc, &CUT_OFF, &stage, status)
}

#[test]
fn a_second_session_that_is_missing_ends_the_run(rt: HostRuntime) -> Result<(), Fail> {
    let alloc = rt.alloc();
    let words = words_of(alloc, &["run", "limits", "out", "a", "b", "c"])?;
    let mut folder = MemFolder::new(alloc, 65536);
    folder.put("limits", Vec::from_slice(alloc, SMALL)?)?;
    folder.put("a", Vec::new(alloc))?;
    folder.put("c", Vec::new(alloc))?;
    let mut out = MemSink::new(alloc, 65536, Vec::new(alloc));
    let status = gate(
        &rt,
        alloc,
        &words,
        &mut folder,
        &mut out,
        no_screens(alloc)?,
        &OpenGate,
    );
    assert_eq!(rt; status, 5);
    assert_eq!(rt; out.bytes(), b"read fault\n".as_slice());
    assert_eq!(rt; folder.get("out/s00.venue"), Some(b"".as_slice()));
    assert_eq!(rt; folder.get("out/s00.client"), Some(b"".as_slice()));
    assert_eq!(rt; folder.get("out/s01.venue"), None);
    assert_eq!(rt; folder.get("out/s02.venue"), None);
    assert_eq!(rt; folder.get("out/journal.csv"), None);
    Ok(())
}
