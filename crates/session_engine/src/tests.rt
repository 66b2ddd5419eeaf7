//! What no clause says: that memory isn't wanting, and how much is fetched of a long source that
//! begins with no frame. What a session does with each kind of frame is tested with the top call.
use crate::session_rows::{NEVER, ORDER, Ports, Row, TIE, compare_row, run_file};
use crate::{
    halt_is_tripped_once, places_are_free, reads_are_taken_in_order, sent_orders_are_covered,
    sessions_part_at_a_read,
};
use gate_ports::{MemSink, MemSource, Source};
use std::alloc::Global;
use std::test::*;

/// The order passed on.
const FORWARD: &[u8] =
    b"8=FIX.4.4|9=116|35=D|49=GATE|56=VENUE|34=1|52=20240102-10:00:00|11=a1|1=ACC|55=XYZ|54=1|\
        38=100|40=2|44=10.0000|60=20240102-10:00:00|10=193|";

const ENDS: [Row; 3] = [
    Row {
        name: "nothing fails",
        input: ORDER,
        read: NEVER,
        write: NEVER,
        journal: b"kind,session,a,b,c,d\npost,0,0,1,1000,\npost,0,1,1,1000,\npost,0,2,1,1000,\n\
            read,0,3,0,0,0\nread,0,0,1,0,1000\nread,0,1,1,0,1000\nread,0,2,1,0,1000\n\
            sent,0,0,,,\nended,0,0,,,\n",
        venue: FORWARD,
    },
    Row {
        name: "the second read fails",
        input: ORDER,
        read: 1,
        write: NEVER,
        journal: b"kind,session,a,b,c,d\nended,0,4,,,\n",
        venue: b"",
    },
    Row {
        name: "the order can't be written",
        input: ORDER,
        read: NEVER,
        write: 0,
        journal: b"kind,session,a,b,c,d\npost,0,0,1,1000,\npost,0,1,1,1000,\npost,0,2,1,1000,\n\
            read,0,3,0,0,0\nread,0,0,1,0,1000\nread,0,1,1,0,1000\nread,0,2,1,0,1000\n\
            sent,0,0,,,\nended,0,5,,,\n",
        venue: b"",
    },
];

#[test]
fn sessions_end_by_their_ports(rt: HostRuntime) -> Result<(), Fail> {
    for row in &ENDS {
        compare_row(&rt, rt.alloc(), row, Vec::new(rt.alloc()))?;
    }
    Ok(())
}

/// 1,000,000 bytes that begin with those of another version.
fn a_million_bytes(alloc: Global) -> Result<Vec<u8>, Fail> {
    let mut bytes = b"8=FIX.4.2".to_vec(alloc)?;
    bytes.extend_from_slice(&[b'x'; 991])?;
    for _ in 1..1_000 {
        bytes.extend_from_slice(&[b'x'; 1_000])?;
    }
    Ok(bytes)
}

/// How many bytes a source has left, which are then taken.
fn left_in(source: &mut MemSource) -> Result<usize, Fail> {
    let mut left = 0usize;
    let mut room = [0u8; 1_000];
    for _ in 0..2_000 {
        let got = source.fetch(&mut room).ok().ok_or("a fetch")?;
        left = left.wrapping_add(got);
    }
    Ok(left)
}

#[test]
fn of_what_begins_with_no_frame_a_buffer_is_fetched(rt: HostRuntime) -> Result<(), Fail> {
    let alloc = rt.alloc();
    let ports = Ports {
        source: MemSource::new(a_million_bytes(alloc)?, 65_536, Vec::new(alloc)),
        venue: MemSink::new(alloc, 1, Vec::new(alloc)),
        client: MemSink::new(alloc, 1, Vec::new(alloc)),
    };
    let mut run = run_file(&rt, alloc, TIE, Vec::new(alloc), ports)?;
    let journal: &[u8] = b"kind,session,a,b,c,d\nended,0,2,0,,\n";
    assert_eq!(&rt; run.journal.as_slice(), journal, "broken at 0");
    let left = left_in(&mut run.ports.source)?;
    assert!(&rt; left >= 983_616, "{left} bytes are left");
    Ok(())
}

#[test]
fn the_laws_can_be_called() {
    sent_orders_are_covered();
    halt_is_tripped_once();
    places_are_free();
    reads_are_taken_in_order();
    sessions_part_at_a_read();
}
