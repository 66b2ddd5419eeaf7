//! Runs over inputs in memory, by a taker that counts its frames. No clause says that memory isn't
//! wanting.
ghost use Rattle.std.specs.Prelude.{◌≡◌, length};

use crate::{TakesFrames, take_input};
use fix_fields::Frame;
use gate_ports::{MemSource, PortFault};
use risk_journal::End;
use std::test::Fail;

/// Counts frames, and refuses the frame of this number, from 0.
#[derive(Drop)]
struct Tally {
    frames: u32,
    refuses: u32,
    why: PortFault,
}

impl TakesFrames for Tally {
    ghost Took = { λ input start frames now. (start.frames ≡ 0) × (now.frames ≡ length frames) };

    ghost Stopped = { λ why input start frames now. Unit {0} };

    ghost IsAfter = { λ before now count. Unit {0} };

    fn take_frame(&mut self, _bytes: &[u8], _frame: &Frame) -> Result<(), PortFault> {
        if self.frames == self.refuses {
            return Err(self.why);
        }
        self.frames += 1;
        Ok(())
    }

    ghost after_none = { λ a. tt };

    ghost after_next = { λ a b c one two first second. tt };

    ghost stopped_whole = { λ input start now frames took. tt };
}

/// A run: what comes in, the call on the source that fails, the frame that is refused and why, and the
/// end and the number of frames that come of it. Calls and frames are counted from 0.
struct Row {
    name: &'static str,
    input: &'static [u8],
    read: u64,
    refuses: u32,
    why: PortFault,
    end: End,
    frames: u32,
}

/// No call or frame has this number.
const NEVER: u32 = 999;

/// Two frames of 26 bytes, of which the second isn't sound.
const TWO: &[u8] =
    b"8=FIX.4.4\x019=5\x0135=0\x0110=163\x01\n8=FIX.4.4\x019=5\x0135=0\x0110=000\x01\n";

const ROWS: [Row; 6] = [
    Row {
        name: "all frames are taken",
        input: TWO,
        read: NEVER as u64,
        refuses: NEVER,
        why: PortFault::Memory,
        end: End::Whole,
        frames: 2,
    },
    Row {
        name: "the rest is cut",
        input: b"8=FIX.4.4\x019=5\x0135=0\x0110=163\x018=FIX",
        read: NEVER as u64,
        refuses: NEVER,
        why: PortFault::Memory,
        end: End::Cut(26),
        frames: 1,
    },
    Row {
        name: "the rest is of another version",
        input: b"8=FIX.4.4\x019=5\x0135=0\x0110=163\x018=FIX.4.2\x01",
        read: NEVER as u64,
        refuses: NEVER,
        why: PortFault::Memory,
        end: End::Broken(26),
        frames: 1,
    },
    Row {
        name: "the first read fails",
        input: TWO,
        read: 0,
        refuses: NEVER,
        why: PortFault::Memory,
        end: End::ReadFault,
        frames: 0,
    },
    Row {
        name: "the second frame can't be given",
        input: TWO,
        read: NEVER as u64,
        refuses: 1,
        why: PortFault::Failed,
        end: End::WriteFault,
        frames: 1,
    },
    Row {
        name: "memory is wanting in the first frame",
        input: TWO,
        read: NEVER as u64,
        refuses: 0,
        why: PortFault::Memory,
        end: End::Memory,
        frames: 0,
    },
];

#[test]
fn runs_end_by_their_input_or_a_fault(rt: HostRuntime) -> Result<(), Fail> {
    let alloc = rt.alloc();
    for row in &ROWS {
        let name = row.name;
        let mut source = MemSource::new(row.input.to_vec(alloc)?, 9, [row.read].to_vec(alloc)?);
        let mut tally = Tally {
            frames: 0,
            refuses: row.refuses,
            why: row.why,
        };
        let end = take_input(alloc, &mut tally, &mut source);
        assert_eq!(rt; end, row.end, "{name}: the end");
        assert_eq!(rt; tally.frames, row.frames, "{name}: the frames");
    }
    Ok(())
}
