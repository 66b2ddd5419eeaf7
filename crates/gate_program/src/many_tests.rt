//! Runs of more than 32 sessions. No clause says that memory isn't wanting.
use crate::command::gate;
use crate::rows::{BUY, BUY_SENT, Piece, SMALL, bytes_of, no_screens, words_of};
use gate_ports::{MemFolder, MemSink, OpenGate};
use std::alloc::Global;
use std::process::Abort;
use std::test::*;
use std::thread::Threads;

/// What is told of the trees of sessions that did nothing.
const TREES: &[u8] = b"tree 0 firm - posts 0 root 0 limit 1000\n\
tree 1 account ACC posts 0 root 0 limit 100000\n\
tree 2 symbol XYZ posts 0 root 0 limit 100000\n\
tree 3 halt - posts 0 root 0 limit 0\n\
status 0\n";

/// Words and files of so many empty sessions, and what their run tells and writes in its journal.
#[derive(Drop)]
struct Empties {
    words: Vec<String>,
    folder: MemFolder,
    told: String,
    journal: String,
}

/// So many empty sessions.
fn empty_sessions(alloc: Global, count: u32) -> Result<Empties, Fail> {
    let mut words = words_of(alloc, &["run", "limits", "out"])?;
    let mut folder = MemFolder::new(alloc, 65_536);
    folder.put("limits", Vec::from_slice(alloc, SMALL)?)?;
    let mut told = String::new(alloc);
    let mut journal = String::from_str(alloc, "kind,session,a,b,c,d\n")?;
    for session in 0..count {
        let name = format!(in alloc; "session{session}")?;
        folder.put(name.as_str(), Vec::new(alloc))?;
        words.push(name)?;
        let line = format!(in alloc; "session {session} whole sent 0 refused 0 noted 0\n")?;
        told.push_str(line.as_str())?;
        let row = format!(in alloc; "ended,{session},0,,,\n")?;
        journal.push_str(row.as_str())?;
    }
    Ok(Empties {
        words,
        folder,
        told,
        journal,
    })
}

#[test]
fn many_empty_sessions_are_whole(rt: HostRuntime) -> Result<(), Fail> {
    let alloc = rt.alloc();
    for (count, last) in [(33, "out/s32.client"), (64, "out/s63.client")] {
        let Empties {
            words,
            mut folder,
            told,
            journal,
        } = empty_sessions(alloc, count)?;
        let mut out = MemSink::new(alloc, 65_536, Vec::new(alloc));
        let screens = no_screens(alloc)?;
        let status = gate(
            &rt,
            alloc,
            &words,
            &mut folder,
            &mut out,
            screens,
            &OpenGate,
        );
        assert_eq!(rt; status, 0, "{count} sessions");
        let mut wanted = told.into_bytes();
        wanted.extend_from_slice(TREES)?;
        assert_eq!(rt; out.bytes(), wanted.as_slice(), "{count} sessions");
        let written = folder.get("out/journal.csv");
        assert_eq!(rt; written, Some(journal.as_bytes()), "{count} sessions");
        assert_eq!(rt; folder.get(last), Some(b"".as_slice()), "{last}");
    }
    Ok(())
}

/// So many sessions of one order each, all of one symbol, of which the firm's limit admits one.
fn racing_sessions(alloc: Global, count: u32) -> Result<Empties, Fail> {
    let order = bytes_of(alloc, &[Piece::Whole(BUY)])?;
    let mut racing = empty_sessions(alloc, count)?;
    for session in 0..count {
        let name = format!(in alloc; "session{session}")?;
        let input = Vec::from_slice(alloc, order.as_slice())?;
        racing.folder.put(name.as_str(), input)?;
    }
    Ok(racing)
}

#[test]
fn of_many_with_one_symbol_at_most_one_gets_what_one_may_have(rt: HostRuntime) -> Result<(), Fail> {
    let alloc = rt.alloc();
    let forward = bytes_of(alloc, &[Piece::Whole(BUY_SENT)])?;
    let mut racing = racing_sessions(alloc, 64)?;
    let mut out = MemSink::new(alloc, 65_536, Vec::new(alloc));
    let screens = no_screens(alloc)?;
    let status = gate(
        &rt,
        alloc,
        &racing.words,
        &mut racing.folder,
        &mut out,
        screens,
        &OpenGate,
    );
    assert_eq!(rt; status, 0);
    let mut sent = 0u32;
    for session in 0..64 {
        let name = format!(in alloc; "out/s{session:02}.venue")?;
        let venue = racing.folder.get(name.as_str()).ok_or("no output")?;
        if venue == forward.as_slice() {
            sent = sent.saturating_add(1);
        } else {
            assert!(rt; venue.is_empty(), "{name}");
        }
    }
    assert!(rt; sent <= 1, "{sent} were sent");
    Ok(())
}

/// Sees that the journal of a run of so many sessions is lawful, by its files.
fn compare_lawful<R: Threads + Sync + Abort>(
    rt: &R,
    alloc: Global,
    folder: &mut MemFolder,
    count: u32,
) -> Result<(), Fail> {
    let mut words = words_of(alloc, &["check", "limits", "out/journal.csv"])?;
    for session in 0..count {
        words.push(format!(in alloc; "session{session}")?)?;
    }
    let mut out = MemSink::new(alloc, 65_536, Vec::new(alloc));
    let screens = no_screens(alloc)?;
    let status = gate(rt, alloc, &words, folder, &mut out, screens, &OpenGate);
    assert_eq!(rt; status, 0, "{count} sessions");
    assert_eq!(rt; out.bytes(), b"LAWFUL\n".as_slice(), "{count} sessions");
    Ok(())
}

#[test]
fn journals_of_runs_on_threads_are_lawful(rt: HostRuntime) -> Result<(), Fail> {
    let alloc = rt.alloc();
    for count in [8, 64] {
        let mut racing = racing_sessions(alloc, count)?;
        let mut out = MemSink::new(alloc, 65_536, Vec::new(alloc));
        let screens = no_screens(alloc)?;
        let status = gate(
            &rt,
            alloc,
            &racing.words,
            &mut racing.folder,
            &mut out,
            screens,
            &OpenGate,
        );
        assert_eq!(rt; status, 0, "{count} sessions");
        compare_lawful(&rt, alloc, &mut racing.folder, count)?;
    }
    Ok(())
}
