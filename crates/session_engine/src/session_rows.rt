//! Sessions over plain boards and ports in memory, with ample memory, as rows of tables: what comes
//! in, and the journal and both streams that come of it. Bytes have a bar for SOH.
use crate::{Hands, run_session};
use fold_law::{Max, QUOTA, Sum};
use gate_ports::{MemSink, MemSource, OpenGate};
use limit_table::{Limits, read_limits};
use risk_board::PlainBoard;
use risk_journal::{Act, Journal, write_journal};
use screen_kit::Screen;
use std::alloc::{AllocError, Global};
use std::process::Abort;
use std::test::*;

/// A firm, an account and a symbol whose limits an order of 100 at 10.00 doesn't pass.
pub(crate) const TIE: &[u8] = b"firm,,1000,,,\naccount,ACC,1000,,,\nsymbol,XYZ,1000,1,12,100000\n";

/// 100 at 10.00, which is 1,000.
pub(crate) const ORDER: &[u8] =
    b"8=FIX.4.4|9=113|35=D|49=C1|56=GATE|34=1|52=20240102-10:00:00|11=a1|1=ACC|55=XYZ|54=1|38=100|\
        40=2|44=10.0000|60=20240102-10:00:00|10=175|";

/// What a session over these limits and this input does.
#[derive(Clone, Copy)]
pub(crate) struct Row {
    pub name: &'static str,
    pub input: &'static [u8],
    /// The number of the call on the source that fails, from 0.
    pub read: u64,
    /// The number of the call on the venue's sink that fails, from 0.
    pub write: u64,
    pub journal: &'static [u8],
    pub venue: &'static [u8],
}

/// No call has this number.
pub(crate) const NEVER: u64 = 999;

/// What a session reads from and writes to.
#[derive(Drop)]
pub(crate) struct Ports {
    pub source: MemSource,
    pub venue: MemSink,
    pub client: MemSink,
}

/// The row's ports.
fn ports_of(alloc: Global, row: &Row) -> Result<Ports, Fail> {
    let input = bytes_of(alloc, row.input)?;
    let reads = [row.read].to_vec(alloc)?;
    let writes = [row.write].to_vec(alloc)?;
    Ok(Ports {
        source: MemSource::new(input, 100, reads),
        venue: MemSink::new(alloc, 1000, writes),
        client: MemSink::new(alloc, 1000, Vec::new(alloc)),
    })
}

/// The bytes, with SOH for each bar.
fn bytes_of(alloc: Global, text: &[u8]) -> Result<Vec<u8>, AllocError> {
    let mut bytes = Vec::new(alloc);
    for byte in text {
        bytes.push(if *byte == b'|' { 1 } else { *byte })?;
    }
    Ok(bytes)
}

/// The text of a journal of one session, without the trees' lines.
fn journal_of(alloc: Global, own: Vec<Act>) -> Result<Vec<u8>, Fail> {
    let mut acts = Vec::new(alloc);
    acts.push(own)?;
    let lines = Vec::new(alloc);
    Ok(
        write_journal(alloc, &Journal { acts, lines })
            .ok()
            .ok_or("memory")?,
    )
}

/// What a session did, and what is left in its ports.
#[derive(Drop)]
pub(crate) struct Run {
    pub journal: Vec<u8>,
    pub ports: Ports,
}

/// Runs a session with these screens over plain boards of its own.
fn run_over(
    rt: &impl Abort,
    alloc: Global,
    limits: &Limits,
    screens: Vec<Box<dyn Screen + Send>>,
    ports: Ports,
) -> Result<Run, Fail> {
    assert!(rt; limits.quota() <= QUOTA, "a quota in range");
    let hands = Hands {
        sum: PlainBoard::<Sum>::open(alloc, limits.halt_tree(), 1, limits.quota())?.hand(0),
        halt: PlainBoard::<Max>::open(alloc, 1, 1, limits.quota())?.hand(0),
    };
    let Ports {
        source,
        venue,
        client,
    } = ports;
    let done = run_session(
        alloc, 0, limits, hands, screens, source, venue, client, &OpenGate,
    );
    Ok(Run {
        journal: journal_of(alloc, done.acts)?,
        ports: Ports {
            source: done.source,
            venue: done.venue,
            client: done.client,
        },
    })
}

/// Runs a session with these screens over the limits of this file.
pub(crate) fn run_file(
    rt: &impl Abort,
    alloc: Global,
    file: &[u8],
    screens: Vec<Box<dyn Screen + Send>>,
    ports: Ports,
) -> Result<Run, Fail> {
    match read_limits(alloc, file) {
        Ok(limits) => run_over(rt, alloc, &limits, screens, ports),
        Err(_) => Err("no limits")?,
    }
}

/// Runs the row's session with these screens, and compares what it did and wrote.
pub(crate) fn compare_row(
    rt: &impl Abort,
    alloc: Global,
    row: &Row,
    screens: Vec<Box<dyn Screen + Send>>,
) -> Result<(), Fail> {
    let name = row.name;
    let venue = bytes_of(alloc, row.venue)?;
    let run = run_file(rt, alloc, TIE, screens, ports_of(alloc, row)?)?;
    assert_eq!(rt; run.journal.as_slice(), row.journal, "{name}: the journal");
    assert_eq!(rt;
        run.ports.venue.bytes(),
        venue.as_slice(),
        "{name}: to the venue"
    );
    assert!(rt;
        run.ports.client.bytes().is_empty(),
        "{name}: to the client"
    );
    Ok(())
}
