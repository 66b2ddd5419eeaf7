//! Runs of the gate over a folder in memory as rows of tables: what goes in, and every byte of what
//! comes out. Bytes have a bar for SOH; BodyLength and CheckSum of a frame are made here.
ghost use Rattle.std.specs.Prelude.{◌≡◌, ◌<◌, length, IfOk};
ghost use Rattle.gate_files.specs.Words.{session_most};

use fold_law::SESSIONS;
use gate_ports::{Folder, MemFolder, MemSink};
use itoa::Buffer;
use screen_kit::Screen;
use std::alloc::{AllocError, Global};
use std::process::Abort;
use std::test::*;

/// What is told where the words are no form.
pub(crate) const USAGE: &[u8] =
    b"usage: gate run LIMITS OUT SESSION... | gate make NUMBER SESSIONS ORDERS \
        | gate check LIMITS JOURNAL SESSION... | gate cross LIMITS OUT SESSION...\n";

/// A firm's limit of 1,000, and an account and a symbol with more.
pub(crate) const SMALL: &[u8] =
    b"firm,,1000,,,\naccount,ACC,100000,,,\nsymbol,XYZ,100000,1,12,100000\n";

/// The same with 5,000.
pub(crate) const LARGE: &[u8] =
    b"firm,,5000,,,\naccount,ACC,100000,,,\nsymbol,XYZ,100000,1,12,100000\n";

/// An order (D) of 100 at 10.0000, which is 1,000.
pub(crate) const BUY: &[u8] =
    b"35=D|49=C1|56=GATE|34=1|52=20240102-10:00:00|11=a1|1=ACC|55=XYZ|54=1|38=100|40=2|44=10.0000|\
        60=20240102-10:00:00|";

/// It goes on to the venue as the first message.
pub(crate) const BUY_SENT: &[u8] =
    b"35=D|49=GATE|56=VENUE|34=1|52=20240102-10:00:00|11=a1|1=ACC|55=XYZ|54=1|38=100|40=2|\
        44=10.0000|60=20240102-10:00:00|";

/// Some bytes of a session's input or of one of its streams.
#[derive(Clone, Copy)]
pub(crate) enum Piece {
    /// The frame of this body.
    Whole(&'static [u8]),
    /// The same with a checksum that is one too high.
    Garbled(&'static [u8]),
    /// The same without its last byte.
    Cut(&'static [u8]),
    /// The frame of this body, filled up by Text (58) to so many bytes.
    Filled(&'static [u8], usize),
    /// These bytes.
    Raw(&'static [u8]),
}

/// What a session reads, and what its two streams are then.
#[derive(Clone, Copy)]
pub(crate) struct Session {
    pub input: &'static [Piece],
    pub venue: &'static [Piece],
    pub client: &'static [Piece],
}

/// A run: the limit file and the sessions, the journal, the status and what is told.
#[derive(Clone, Copy)]
pub(crate) struct Row {
    pub name: &'static str,
    pub limits: &'static [u8],
    pub sessions: &'static [Session],
    pub journal: &'static [u8],
    pub status: u8,
    pub told: &'static [u8],
}

/// What a run is called with.
#[derive(Drop)]
pub(crate) struct Stage {
    pub words: Vec<String>,
    pub folder: MemFolder,
    pub out: MemSink,
}

/// The words of a command line.
pub(crate) fn words_of(alloc: Global, words: &[&str]) -> Result<Vec<String>, AllocError> {
    let mut all = Vec::new(alloc);
    for word in words {
        all.push(String::from_str(alloc, word)?)?;
    }
    Ok(all)
}

/// A set of no screens for each session that a run may have.
pub(crate) fn no_screens(alloc: Global) -> Result<Vec<Vec<Box<dyn Screen + Send>>>, AllocError>
    ensures { IfOk result (λ sets. length sets.items ≡ session_most) }
{
    let mut sets: Vec<Vec<Box<dyn Screen + Send>>> = Vec::new(alloc);
    for _ in 0..SESSIONS {
        sets.push(Vec::new(alloc))?;
    }
    Ok(sets)
}

/// Appends bytes, with SOH for each bar.
fn add(to: &mut Vec<u8>, bytes: &[u8]) -> Result<(), AllocError> {
    for byte in bytes {
        to.push(if *byte == b'|' { 1 } else { *byte })?;
    }
    Ok(())
}

/// The sum of all bytes, modulo 256.
fn sum_of(bytes: &[u8]) -> u8 {
    let mut sum = 0u8;
    for byte in bytes {
        sum = sum.wrapping_add(*byte);
    }
    sum
}

/// Appends the frame of this body, with so much more in its checksum.
fn add_frame(to: &mut Vec<u8>, alloc: Global, body: &[u8], more: u8) -> Result<(), AllocError> {
    let mut digits = Buffer::new();
    let mut frame = Vec::new(alloc);
    add(&mut frame, b"8=FIX.4.4|9=")?;
    add(&mut frame, digits.format(body.len()).as_bytes())?;
    add(&mut frame, b"|")?;
    add(&mut frame, body)?;
    let sum = sum_of(frame.as_slice()).wrapping_add(more);
    add(&mut frame, b"10=")?;
    frame.push(b'0' + sum / 100)?;
    frame.push(b'0' + sum / 10 % 10)?;
    frame.push(b'0' + sum % 10)?;
    frame.push(1)?;
    to.extend_from_slice(frame.as_slice())
}

/// The body, filled up by Text (58) to so many bytes.
fn filled(alloc: Global, body: &[u8], length: usize) -> Result<Vec<u8>, AllocError> {
    let front = body.len() + 4;
    let mut filled = body.to_vec(alloc)?;
    filled.extend_from_slice(b"58=")?;
    for _ in front..length {
        filled.push(b'x')?;
    }
    filled.push(b'|')?;
    Ok(filled)
}

/// The bytes of these pieces.
pub(crate) fn bytes_of(alloc: Global, pieces: &[Piece]) -> Result<Vec<u8>, AllocError> {
    let mut bytes = Vec::new(alloc);
    for piece in pieces {
        match piece {
            Piece::Whole(body) => add_frame(&mut bytes, alloc, body, 0)?,
            Piece::Garbled(body) => add_frame(&mut bytes, alloc, body, 1)?,
            Piece::Cut(body) => {
                add_frame(&mut bytes, alloc, body, 0)?;
                let _last = bytes.pop();
            }
            Piece::Filled(body, length) => {
                let body = filled(alloc, body, *length)?;
                add_frame(&mut bytes, alloc, body.as_slice(), 0)?;
            }
            Piece::Raw(raw) => add(&mut bytes, raw)?,
        }
    }
    Ok(bytes)
}

/// Limits, sessions named `session0` and so on, and a folder `out`, of which a call moves at most
/// so many bytes.
pub(crate) fn stage_of(alloc: Global, row: &Row, most: usize) -> Result<Stage, Fail>
    requires { 0 < most }
{
    let mut words = words_of(alloc, &["run", "limits", "out"])?;
    let mut folder = MemFolder::new(alloc, most);
    folder.put("limits", Vec::from_slice(alloc, row.limits)?)?;
    for (number, session) in row.sessions.iter().enumerate() {
        let name = format!(in alloc; "session{number}")?;
        folder.put(name.as_str(), bytes_of(alloc, session.input)?)?;
        words.push(name)?;
    }
    let out = MemSink::new(alloc, most, Vec::new(alloc));
    Ok(Stage { words, folder, out })
}

/// Compares the text of a name with these pieces.
fn compare_text(
    rt: &impl Abort,
    alloc: Global,
    row: &Row,
    folder: &MemFolder,
    name: &str,
    pieces: &[Piece],
) -> Result<(), Fail> {
    let wanted = bytes_of(alloc, pieces)?;
    let of = row.name;
    assert_eq!(rt; folder.get(name), Some(wanted.as_slice()), "{of}: {name}");
    Ok(())
}

/// Compares the streams of each session of a run, and its input, which stays as it was.
pub(crate) fn compare_streams(
    rt: &impl Abort,
    alloc: Global,
    row: &Row,
    folder: &MemFolder,
) -> Result<(), Fail> {
    for (number, session) in row.sessions.iter().enumerate() {
        let input = format!(in alloc; "session{number}")?;
        let venue = format!(in alloc; "out/s{number:02}.venue")?;
        let client = format!(in alloc; "out/s{number:02}.client")?;
        compare_text(rt, alloc, row, folder, input.as_str(), session.input)?;
        compare_text(rt, alloc, row, folder, venue.as_str(), session.venue)?;
        compare_text(rt, alloc, row, folder, client.as_str(), session.client)?;
    }
    Ok(())
}

/// Compares what a run told and wrote, and what it left as it was, with its row.
pub(crate) fn compare(
    rt: &impl Abort,
    alloc: Global,
    row: &Row,
    stage: &Stage,
    status: u8,
) -> Result<(), Fail> {
    let name = row.name;
    assert_eq!(rt; status, row.status, "{name}");
    assert_eq!(rt; stage.out.bytes(), row.told, "{name}");
    compare_streams(rt, alloc, row, &stage.folder)?;
    assert_eq!(rt;
        stage.folder.get("out/journal.csv"),
        Some(row.journal),
        "{name}"
    );
    assert_eq!(rt; stage.folder.get("limits"), Some(row.limits), "{name}");
    Ok(())
}
