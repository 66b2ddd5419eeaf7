//! What sessions of the tests read, and what a filter gives for it, as rows of tables. Bytes of a
//! body have a bar for SOH; BodyLength and CheckSum of a frame are made here.

use gate_ports::{Folder, MemFolder};
use itoa::Buffer;
use std::alloc::{AllocError, Global};
use std::test::*;

/// A frame of a session's input: its body, and whether it is passed.
pub(crate) type Frame = (&'static [u8], bool);

/// A filter of sessions: the frames of each, the bodies of what its client gets, and the journal.
#[derive(Clone, Copy)]
pub(crate) struct Row {
    pub name: &'static str,
    pub sessions: &'static [Session],
    pub journal: &'static [u8],
}

/// What a session reads, and the bodies of what its client gets.
#[derive(Clone, Copy)]
pub(crate) struct Session {
    pub frames: &'static [Frame],
    pub client: &'static [&'static [u8]],
}

/// Collars of 1.00 and 12.00, with a price level for each ten-thousandth, in two symbols.
pub(crate) const LIMITS: &[u8] = b"firm,,100000,,,\naccount,ACC,100000,,,\n\
    symbol,XYZ,100000,1,12,100000\nsymbol,ABC,100000,1,12,100000\n";

/// A sell of 10 at 10.00.
pub(crate) const SELL: &[u8] =
    b"35=D|49=C1|56=GATE|34=1|52=20240102-10:00:00|11=a1|1=ACC|55=XYZ|54=2|38=10|40=2|44=10.0000|\
        60=20240102-10:00:00|";

/// A buy of 10 at its price.
pub(crate) const BUY: &[u8] =
    b"35=D|49=C1|56=GATE|34=2|52=20240102-10:00:00|11=a2|1=ACC|55=XYZ|54=1|38=10|40=2|44=10.0000|\
        60=20240102-10:00:00|";

/// A buy below it.
pub(crate) const BUY_BELOW: &[u8] =
    b"35=D|49=C1|56=GATE|34=3|52=20240102-10:00:00|11=a3|1=ACC|55=XYZ|54=1|38=10|40=2|44=9.9900|\
        60=20240102-10:00:00|";

/// A buy at its price in another symbol.
pub(crate) const BUY_ANOTHER: &[u8] =
    b"35=D|49=C1|56=GATE|34=1|52=20240102-10:00:00|11=b1|1=ACC|55=ABC|54=1|38=10|40=2|44=10.0000|\
        60=20240102-10:00:00|";

/// The sell is canceled.
pub(crate) const CANCELED: &[u8] = b"35=8|49=VENUE|56=GATE|34=1|52=20240102-10:00:00|11=a1|150=4|";

/// The buy at the sell's price is refused.
pub(crate) const REFUSAL: &[u8] =
    b"35=8|49=GATE|56=C1|34=1|52=20240102-10:00:00|37=NONE|11=a2|17=G1|150=8|39=8|103=0|1=ACC|\
        55=XYZ|54=1|38=10|151=0|14=0|6=0|58=CROSS|";

pub(crate) const ROWS: [Row; 4] = [
    Row {
        name: "a sell, a buy at its price and one below",
        sessions: &[Session {
            frames: &[(SELL, true), (BUY, false), (BUY_BELOW, true)],
            client: &[REFUSAL],
        }],
        journal: b"kind,session,a,b,c,d\n\
            post,0,0,1,434287,\nread,0,0,1,1,434287\nsent,0,0,,,\n\
            post,0,0,2,47186878575,\nread,0,0,2,2,47186878575\npost,0,0,3,434287,\n\
            refused,0,1,17,0,0\n\
            post,0,0,4,47134449775,\nread,0,0,4,4,47134449775\nsent,0,2,,,\n\
            ended,0,0,,,\n\
            line,0,0,1,1,434287\nline,0,0,2,2,47186878575\nline,0,0,3,3,434287\n\
            line,0,0,4,4,47134449775\n",
    },
    Row {
        name: "a sell that is canceled, and a buy at its price",
        sessions: &[Session {
            frames: &[(SELL, true), (CANCELED, true), (BUY, true)],
            client: &[],
        }],
        journal: b"kind,session,a,b,c,d\n\
            post,0,0,1,434287,\nread,0,0,1,1,434287\nsent,0,0,,,\npost,0,0,2,0,\n\
            post,0,0,3,47186444288,\nread,0,0,3,3,47186444288\nsent,0,2,,,\n\
            ended,0,0,,,\n\
            line,0,0,1,1,434287\nline,0,0,2,2,0\nline,0,0,3,3,47186444288\n",
    },
    Row {
        name: "two sessions in two symbols",
        sessions: &[
            Session {
                frames: &[(SELL, true)],
                client: &[],
            },
            Session {
                frames: &[(BUY_ANOTHER, true)],
                client: &[],
            },
        ],
        journal: b"kind,session,a,b,c,d\n\
            post,0,0,1,434287,\nread,0,0,1,1,434287\nsent,0,0,,,\nended,0,0,,,\n\
            post,1,1,1,47186444288,\nread,1,1,1,1,47186444288\nsent,1,0,,,\nended,1,0,,,\n\
            line,0,0,1,1,434287\nline,1,1,1,1,47186444288\n",
    },
    Row {
        name: "a session without a frame",
        sessions: &[Session {
            frames: &[],
            client: &[],
        }],
        journal: b"kind,session,a,b,c,d\nended,0,0,,,\n",
    },
];

/// Appends bytes, with SOH for each bar.
fn add(to: &mut Vec<u8>, bytes: &[u8]) -> Result<(), AllocError> {
    for byte in bytes {
        to.push(if *byte == b'|' { 1 } else { *byte })?;
    }
    Ok(())
}

/// The sum of all bytes, modulo 256.
fn sum_of(bytes: &[u8]) -> u8 {
    let mut sum = 0u8;
    for byte in bytes {
        sum = sum.wrapping_add(*byte);
    }
    sum
}

/// Appends the frame of this body.
pub(crate) fn add_frame(to: &mut Vec<u8>, alloc: Global, body: &[u8]) -> Result<(), AllocError> {
    let mut digits = Buffer::new();
    let mut frame = Vec::new(alloc);
    add(&mut frame, b"8=FIX.4.4|9=")?;
    add(&mut frame, digits.format(body.len()).as_bytes())?;
    add(&mut frame, b"|")?;
    add(&mut frame, body)?;
    let sum = sum_of(frame.as_slice());
    add(&mut frame, b"10=")?;
    frame.push(b'0' + sum / 100)?;
    frame.push(b'0' + sum / 10 % 10)?;
    frame.push(b'0' + sum % 10)?;
    frame.push(1)?;
    to.extend_from_slice(frame.as_slice())
}

/// What a session reads: each frame, with a line end behind it.
fn input_of(alloc: Global, frames: &[Frame]) -> Result<Vec<u8>, AllocError> {
    let mut bytes = Vec::new(alloc);
    for (body, _) in frames {
        add_frame(&mut bytes, alloc, body)?;
        bytes.push(b'\n')?;
    }
    Ok(bytes)
}

/// What is passed of it: the frames that are, with nothing between them.
pub(crate) fn passed_of(alloc: Global, frames: &[Frame]) -> Result<Vec<u8>, AllocError> {
    let mut bytes = Vec::new(alloc);
    for (body, passed) in frames {
        if *passed {
            add_frame(&mut bytes, alloc, body)?;
        }
    }
    Ok(bytes)
}

/// What its client gets.
pub(crate) fn client_of(alloc: Global, bodies: &[&[u8]]) -> Result<Vec<u8>, AllocError> {
    let mut bytes = Vec::new(alloc);
    for body in bodies {
        add_frame(&mut bytes, alloc, body)?;
    }
    Ok(bytes)
}

/// The limits, and what these sessions read under the names `session0` and so on.
pub(crate) fn folder_of(alloc: Global, sessions: &[Session]) -> Result<MemFolder, Fail> {
    let mut folder = MemFolder::new(alloc, 100);
    folder.put("limits", Vec::from_slice(alloc, LIMITS)?)?;
    for (number, session) in sessions.iter().enumerate() {
        let name = format!(in alloc; "session{number}")?;
        folder.put(name.as_str(), input_of(alloc, session.frames)?)?;
    }
    Ok(folder)
}

/// The words of a filter of so many of these sessions.
pub(crate) fn words_of(alloc: Global, sessions: usize) -> Result<Vec<String>, AllocError> {
    let mut words = Vec::new(alloc);
    for word in ["cross", "limits", "out"] {
        words.push(String::from_str(alloc, word)?)?;
    }
    for number in 0..sessions {
        words.push(format!(in alloc; "session{number}")?)?;
    }
    Ok(words)
}
