//! Loads that are made and run over a folder in memory, byte by byte. No clause says what a worked row
//! gives, nor that memory isn't wanting.
use crate::command::gate;
use crate::rows::{no_screens, words_of};
use gate_ports::{Fail as Call, MemFolder, MemSink, OpenGate};
use risk_journal::{Act, read_journal};
use std::alloc::Global;
use std::process::Abort;
use std::test::*;
use std::thread::Threads;

/// What is told of one order.
const ONE: &[u8] = b"make 0 1 1\n\
new 1 cancel 0 report 1 bytes 272\n\
reads 4\n\
tree 0 firm LEGAL WITHIN LIMITS\n\
tree 1 account A0 LEGAL WITHIN LIMITS\n\
tree 2 account A1 LEGAL WITHIN LIMITS\n\
tree 3 account A2 LEGAL WITHIN LIMITS\n\
tree 4 account A3 LEGAL WITHIN LIMITS\n\
tree 5 symbol S0 LEGAL WITHIN LIMITS\n\
tree 6 symbol S1 LEGAL WITHIN LIMITS\n\
tree 7 symbol S2 LEGAL WITHIN LIMITS\n\
tree 8 symbol S3 LEGAL WITHIN LIMITS\n\
tree 9 symbol S4 LEGAL WITHIN LIMITS\n\
tree 10 symbol S5 LEGAL WITHIN LIMITS\n\
tree 11 symbol S6 LEGAL WITHIN LIMITS\n\
tree 12 symbol S7 LEGAL WITHIN LIMITS\n\
tree 13 halt LEGAL\n\
status 0\n";

/// What is told of 2,000 orders of each of eight sessions. The counts were worked from the tables of the
/// load.
const LARGE: &[u8] = b"make 7 8 2000\n\
new 16000 cancel 4018 report 24049 bytes 6435208\n\
reads 64000\n\
tree 0 firm LEGAL WITHIN LIMITS\n\
tree 1 account A0 LEGAL WITHIN LIMITS\n\
tree 2 account A1 LEGAL WITHIN LIMITS\n\
tree 3 account A2 LEGAL WITHIN LIMITS\n\
tree 4 account A3 LEGAL WITHIN LIMITS\n\
tree 5 symbol S0 LEGAL WITHIN LIMITS\n\
tree 6 symbol S1 LEGAL WITHIN LIMITS\n\
tree 7 symbol S2 LEGAL WITHIN LIMITS\n\
tree 8 symbol S3 LEGAL WITHIN LIMITS\n\
tree 9 symbol S4 LEGAL WITHIN LIMITS\n\
tree 10 symbol S5 LEGAL WITHIN LIMITS\n\
tree 11 symbol S6 LEGAL WITHIN LIMITS\n\
tree 12 symbol S7 LEGAL WITHIN LIMITS\n\
tree 13 halt LEGAL\n\
status 0\n";

/// What is told of 100 orders of each of 64 sessions, whose counts were worked in the same way.
const MANY: &[u8] = b"make 7 64 100\n\
new 6400 cancel 1601 report 9604 bytes 2486519\n\
reads 25600\n\
tree 0 firm LEGAL WITHIN LIMITS\n\
tree 1 account A0 LEGAL WITHIN LIMITS\n\
tree 2 account A1 LEGAL WITHIN LIMITS\n\
tree 3 account A2 LEGAL WITHIN LIMITS\n\
tree 4 account A3 LEGAL WITHIN LIMITS\n\
tree 5 symbol S0 LEGAL WITHIN LIMITS\n\
tree 6 symbol S1 LEGAL WITHIN LIMITS\n\
tree 7 symbol S2 LEGAL WITHIN LIMITS\n\
tree 8 symbol S3 LEGAL WITHIN LIMITS\n\
tree 9 symbol S4 LEGAL WITHIN LIMITS\n\
tree 10 symbol S5 LEGAL WITHIN LIMITS\n\
tree 11 symbol S6 LEGAL WITHIN LIMITS\n\
tree 12 symbol S7 LEGAL WITHIN LIMITS\n\
tree 13 halt LEGAL\n\
status 0\n";

/// The words of a load, the status and what is told.
const LOADS: [(&str, [&str; 4], &[u8]); 3] = [
    ("one order", ["make", "0", "1", "1"], ONE),
    ("a large load", ["make", "7", "8", "2000"], LARGE),
    ("the same again", ["make", "7", "8", "2000"], LARGE),
];

/// Words that ask for no load.
const MALFORMED: [(&str, &[&str]); 8] = [
    ("too few", &["make", "7", "8"]),
    ("too many", &["make", "7", "8", "20", "1"]),
    ("a leading zero", &["make", "07", "8", "20"]),
    ("a plus", &["make", "+7", "8", "20"]),
    ("a number above a u32", &["make", "4294967296", "8", "20"]),
    ("no session", &["make", "7", "0", "20"]),
    ("65 sessions", &["make", "7", "65", "20"]),
    ("10,001 orders", &["make", "7", "8", "10001"]),
];

#[test]
fn other_words_after_make_are_no_load(rt: HostRuntime) -> Result<(), Fail> {
    let alloc = rt.alloc();
    for (name, words) in MALFORMED {
        let mut folder = MemFolder::new(alloc, 65536);
        let mut out = MemSink::new(alloc, 65536, Vec::new(alloc));
        let words = words_of(alloc, words)?;
        let status = gate(
            &rt,
            alloc,
            &words,
            &mut folder,
            &mut out,
            no_screens(alloc)?,
            &OpenGate,
        );
        assert_eq!(rt; status, 2, "{name}");
        assert_eq!(rt; folder.get("load/journal.csv"), None, "{name}");
    }
    Ok(())
}

/// Makes and runs a load, and compares what is told.
fn compare_told<R: Threads + Sync + Abort>(
    rt: &R,
    alloc: Global,
    name: &str,
    words: &[&str],
    told: &[u8],
) -> Result<(), Fail> {
    let mut folder = MemFolder::new(alloc, 65536);
    let mut out = MemSink::new(alloc, 65536, Vec::new(alloc));
    let words = words_of(alloc, words)?;
    let status = gate(
        rt,
        alloc,
        &words,
        &mut folder,
        &mut out,
        no_screens(alloc)?,
        &OpenGate,
    );
    assert_eq!(rt; status, 0, "{name}");
    assert_eq!(rt; out.bytes(), told, "{name}");
    Ok(())
}

#[test]
fn a_load_gives_its_summary(rt: HostRuntime) -> Result<(), Fail> {
    for (name, words, told) in LOADS {
        compare_told(&rt, rt.alloc(), name, &words, told)?;
    }
    Ok(())
}

#[test]
fn a_load_of_the_most_sessions_gives_its_summary(rt: HostRuntime) -> Result<(), Fail> {
    let words = ["make", "7", "64", "100"];
    compare_told(&rt, rt.alloc(), "64 sessions", &words, MANY)
}

#[test]
fn a_load_leaves_a_journal_with_its_reads(rt: HostRuntime) -> Result<(), Fail> {
    let alloc = rt.alloc();
    let mut folder = MemFolder::new(alloc, 65536);
    let mut out = MemSink::new(alloc, 65536, Vec::new(alloc));
    let words = words_of(alloc, &["make", "7", "8", "20"])?;
    let status = gate(
        &rt,
        alloc,
        &words,
        &mut folder,
        &mut out,
        no_screens(alloc)?,
        &OpenGate,
    );
    assert_eq!(rt; status, 0);
    let text = folder.get("load/journal.csv").ok_or("no journal")?;
    assert!(rt; text.len() <= 1_000_000, "a journal of a small load");
    let journal = read_journal(alloc, text).ok().ok_or("no journal's text")?;
    let mut reads: u32 = 0;
    for own in &journal.acts {
        for act in own {
            if let Act::Read { .. } = act {
                reads = reads.saturating_add(1);
            }
        }
    }
    assert_eq!(rt; reads, 640);
    assert!(rt;
        folder.get("load/s07.client").is_some(),
        "the last session's output"
    );
    assert_eq!(rt; folder.get("load/s08.venue"), None);
    Ok(())
}

#[test]
fn a_load_whose_output_is_refused_ends_with_a_write_fault(rt: HostRuntime) -> Result<(), Fail> {
    let alloc = rt.alloc();
    let mut folder = MemFolder::new(alloc, 65536);
    folder.fail(Call::Create, "load/s01.client", 0)?;
    let mut out = MemSink::new(alloc, 65536, Vec::new(alloc));
    let words = words_of(alloc, &["make", "7", "2", "20"])?;
    let status = gate(
        &rt,
        alloc,
        &words,
        &mut folder,
        &mut out,
        no_screens(alloc)?,
        &OpenGate,
    );
    assert_eq!(rt; status, 6);
    assert_eq!(rt; out.bytes(), b"write fault\n".as_slice());
    assert_eq!(rt; folder.get("load/s00.venue"), Some(b"".as_slice()));
    assert_eq!(rt; folder.get("load/journal.csv"), None);
    Ok(())
}
