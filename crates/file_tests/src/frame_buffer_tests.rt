//! Worked frames that come in two pieces, cut at each byte.
ghost use Rattle.std.specs.Prelude.{◌≤◌, length};

use fix_fields::{Found, Frame, FrameBuffer};
use std::alloc::Global;
use std::test::Fail;

/// Name, bytes, the place of the first that is neither CR nor LF, and what stands there, in places
/// from it.
const ROWS: [(&str, &[u8], u64, Found); 6] = [
    (
        "a worked order",
        b"8=FIX.4.4\x019=113\x0135=D\x0149=C1\x0156=GATE\x0134=1\x0152=20240102-10:00:00\x0111=a1\x011=ACC\x0155=XYZ\x0154=1\x0138=100\x0140=2\x0144=10.0000\x0160=20240102-10:00:00\x0110=175\x01",
        0,
        Found::Frame(Frame {
            start: 0,
            body_from: 16,
            body_to: 129,
            end: 136,
            sound: true,
        }),
    ),
    (
        "CR and LF before a frame",
        b"\r\n\n8=FIX.4.4\x019=10\x0135=D\x0158=x\x0110=006\x01",
        3,
        Found::Frame(Frame {
            start: 0,
            body_from: 15,
            body_to: 25,
            end: 32,
            sound: true,
        }),
    ),
    (
        "a frame with another checksum",
        b"8=FIX.4.4\x019=10\x0135=D\x0158=x\x0110=007\x01",
        0,
        Found::Frame(Frame {
            start: 0,
            body_from: 15,
            body_to: 25,
            end: 32,
            sound: false,
        }),
    ),
    (
        "another tag than that of CheckSum",
        b"8=FIX.4.4\x019=10\x0135=D\x0158=x\x0111=006\x01",
        0,
        Found::Broken(0),
    ),
    (
        "one byte more than the most",
        b"8=FIX.4.4\x019=8193\x01",
        0,
        Found::TooLong(0),
    ),
    ("line ends alone", b"\r\n\r\n", 4, Found::End),
];

/// The most bytes of a piece, and of what stands before it.
const PIECE_MOST: usize = 1_000;

/// Copies as much of a piece as there is room for, and says how much.
fn copy_front(room: &mut [u8], piece: &[u8]) -> usize
    ensures within { result ≤ length room.new }
    ensures few { result ≤ 1000 }
{
    let count = room.len().min(piece.len()).min(PIECE_MOST);
    room[..count].copy_from_slice(&piece[..count]);
    count
}

/// Takes a piece into the buffer, where few bytes came before it.
fn feed(buffer: &mut FrameBuffer, piece: &[u8]) {
    if buffer.base() <= 1_000 && buffer.bytes().len() <= PIECE_MOST {
        let count = copy_front(buffer.room(), piece);
        buffer.took(count);
    }
}

/// What stands next once all pieces came, where each is looked at before the next comes.
fn found_by_pieces(alloc: Global, pieces: &[&[u8]]) -> Result<(u64, Found), Fail> {
    let mut buffer = FrameBuffer::new(alloc)?;
    let mut found = Found::End;
    for piece in pieces {
        feed(&mut buffer, piece);
        found = buffer.next();
    }
    Ok((buffer.base(), found))
}

#[test]
fn a_frame_that_comes_in_two_pieces_is_found_as_a_whole_one(rt: HostRuntime) -> Result<(), Fail> {
    for (name, bytes, base, want) in ROWS {
        for cut in 0..bytes.len() {
            let found = found_by_pieces(rt.alloc(), &[&bytes[..cut], &bytes[cut..]])?;
            assert_eq!(rt; found, (base, want), "{name}, cut at {cut}");
        }
    }
    Ok(())
}
