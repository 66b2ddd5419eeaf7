//! Filters by the gate, over a folder in memory: what one passes can be run, and the statuses of those
//! that don't begin. No clause says that memory isn't wanting, nor what a table's row gives.
use crate::command::gate;
use crate::rows::{LARGE, Piece, USAGE, bytes_of, no_screens, words_of};
use gate_ports::{Folder, MemFolder, MemSink, OpenGate};
use std::alloc::Global;
use std::process::Abort;
use std::test::*;
use std::thread::Threads;

/// A sell of 10 at 10.00.
const SELL: &[u8] =
    b"35=D|49=C1|56=GATE|34=1|52=20240102-10:00:00|11=a1|1=ACC|55=XYZ|54=2|38=10|40=2|44=10.0000|\
        60=20240102-10:00:00|";

/// A buy at its price, which crosses it.
const BUY: &[u8] =
    b"35=D|49=C1|56=GATE|34=2|52=20240102-10:00:00|11=a2|1=ACC|55=XYZ|54=1|38=10|40=2|44=10.0000|\
        60=20240102-10:00:00|";

/// A buy below it.
const BUY_BELOW: &[u8] =
    b"35=D|49=C1|56=GATE|34=3|52=20240102-10:00:00|11=a3|1=ACC|55=XYZ|54=1|38=10|40=2|44=9.9900|\
        60=20240102-10:00:00|";

/// What a run sends of the sell and of the buy below it.
const SENT: [Piece; 2] = [
    Piece::Whole(
        b"35=D|49=GATE|56=VENUE|34=1|52=20240102-10:00:00|11=a1|1=ACC|55=XYZ|54=2|38=10|40=2|\
            44=10.0000|60=20240102-10:00:00|",
    ),
    Piece::Whole(
        b"35=D|49=GATE|56=VENUE|34=2|52=20240102-10:00:00|11=a3|1=ACC|55=XYZ|54=1|38=10|40=2|\
            44=9.9900|60=20240102-10:00:00|",
    ),
];

/// Calls the gate with these words over a folder, and compares the status and what is told first.
fn calls<R: Threads + Sync + Abort>(
    rt: &R,
    alloc: Global,
    words: &[&str],
    folder: &mut MemFolder,
    wanted: (u8, &[u8]),
) -> Result<(), Fail> {
    let (status, told) = wanted;
    let words = words_of(alloc, words)?;
    let mut out = MemSink::new(alloc, 100, Vec::new(alloc));
    let answered = gate(
        rt,
        alloc,
        &words,
        folder,
        &mut out,
        no_screens(alloc)?,
        &OpenGate,
    );
    assert_eq!(rt; answered, status, "the status");
    assert!(rt; out.bytes().starts_with(told), "what is told");
    Ok(())
}

/// Compares the text of a name with these pieces.
fn has(
    rt: &impl Abort,
    alloc: Global,
    folder: &MemFolder,
    name: &str,
    pieces: &[Piece],
) -> Result<(), Fail> {
    let wanted = bytes_of(alloc, pieces)?;
    assert_eq!(rt; folder.get(name), Some(wanted.as_slice()), "{name}");
    Ok(())
}

#[test]
fn what_a_filter_passes_can_be_run(rt: HostRuntime) -> Result<(), Fail> {
    let alloc = rt.alloc();
    let mut folder = MemFolder::new(alloc, 100);
    folder.put("limits", Vec::from_slice(alloc, LARGE)?)?;
    let orders = [
        Piece::Whole(SELL),
        Piece::Whole(BUY),
        Piece::Whole(BUY_BELOW),
    ];
    folder.put("session", bytes_of(alloc, &orders)?)?;
    let filter = ["cross", "limits", "out", "session"];
    calls(&rt, alloc, &filter, &mut folder, (0, b"status 0\n"))?;
    let passed = [Piece::Whole(SELL), Piece::Whole(BUY_BELOW)];
    has(&rt, alloc, &folder, "out/s00.pass", &passed)?;
    let run = ["run", "limits", "sent", "out/s00.pass"];
    let told = b"session 0 whole sent 2 refused 0 noted 0\n";
    calls(&rt, alloc, &run, &mut folder, (0, told))?;
    has(&rt, alloc, &folder, "sent/s00.venue", &SENT)
}

/// Words of filters over a folder with limits and no session, the status and what is told.
const STOPS: [(&[&str], u8, &[u8]); 4] = [
    (&["cross", "limits", "out"], 2, USAGE),
    (&["cross", "out/cross.csv", "out", "session"], 2, USAGE),
    (&["cross", "other", "out", "session"], 5, b"read fault\n"),
    (&["cross", "limits", "out", "session"], 5, b"read fault\n"),
];

#[test]
fn filters_that_stop_have_their_status(rt: HostRuntime) -> Result<(), Fail> {
    let alloc = rt.alloc();
    for (words, status, told) in &STOPS {
        let mut folder = MemFolder::new(alloc, 100);
        folder.put("limits", Vec::from_slice(alloc, LARGE)?)?;
        calls(&rt, alloc, words, &mut folder, (*status, told))?;
        assert_eq!(rt; folder.get("out/cross.csv"), None, "no journal");
    }
    Ok(())
}
