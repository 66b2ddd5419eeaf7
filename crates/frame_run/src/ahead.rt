//! What stands next, with as many bytes fetched as that takes.
ghost use Rattle.std.specs.Prelude.{◌≡◌, ℕ, ◌+◌, ◌^◌, ◌≤◌, ◌<◌, List, [], length, take, true};
ghost use Rattle.std.specs.Prelude.{IfOk, IsErr};
ghost use Rattle.std.specs.Io.KnownBytes.{Consumes, IsAtEnd};
ghost use Rattle.gate_ports.specs.Faults.{HasCause};
ghost use Rattle.frame_run.specs.Ends.{input_most};
ghost use Rattle.frame_run.specs.Ahead.{FetchesInto, GoesOn, LooksAhead, FailsAhead};

use crate::end::INPUT_MOST;
use fix_fields::{Found, FrameBuffer};
use gate_ports::{Failed, Source};

/// What stands next.
#[derive(Clone, Copy)]
pub(crate) struct Ahead {
    pub next: Found,
    /// Whether the source goes on past the input, where that was looked at.
    pub goes_on: bool,
}

/// Fetches once into the front of the room, at most so many bytes, and says how many.
fn fetch_front<S: Source>(source: &mut S, room: &mut [u8], most: usize) -> Result<usize, Failed>
    requires some { 0 < most }
    requires room { 0 < length room.old }
    ensures bytes { IfOk result (λ n.
        Consumes (S.left source.old) (S.left source.new) (take n room.new)) }
    ensures bound { IfOk result (λ n. (n ≤ most) × (n ≤ length room.new)) }
    ensures end { IfOk result (λ n. n ≡ 0
        → (S.is_ended source.new ≡ true) × IsAtEnd (S.left source.new)) }
    ensures none { IsErr result → Consumes (S.left source.old) (S.left source.new) [] }
    ensures cause { HasCause (S.faults source.old) (S.faults source.new) (IsErr result) }
    ensures name { S.name source.new ≡ S.name source.old }
{
    let count = room.len().min(most);
    source.fetch(&mut room[..count])
}

/// Fetches once into the buffer, at most so many bytes, and says how many. Its head is long because each
/// answer has its clauses: some bytes, the end of the source, and a failure.
fn fetch_into<S: Source>(
    source: &mut S,
    buffer: &mut FrameBuffer,
    most: usize,
) -> Result<usize, Failed>
    requires some { 0 < most }
    requires room { 0 < length buffer.old.room }
    requires fits { buffer.old.base + length buffer.old.held + most < 2 ^ 64 }
    ensures bytes { IfOk result (λ n.
        FetchesInto (S.left source.old) (S.left source.new) buffer.old buffer.new n most) }
    ensures end { IfOk result (λ n. n ≡ 0
        → (S.is_ended source.new ≡ true) × IsAtEnd (S.left source.new)) }
    ensures none { IsErr result → Consumes (S.left source.old) (S.left source.new) [] }
    ensures held { IsErr result
        → (buffer.new.held ≡ buffer.old.held) × (buffer.new.base ≡ buffer.old.base) }
    ensures cause { HasCause (S.faults source.old) (S.faults source.new) (IsErr result) }
    ensures name { S.name source.new ≡ S.name source.old }
{
    let got = fetch_front(source, buffer.room(), most)?;
    buffer.took(got);
    Ok(got)
}

/// Fetches one byte, and says whether there is one.
fn goes_on<S: Source>(source: &mut S) -> Result<bool, Failed>
    ensures ok { IfOk result (λ on. GoesOn (S.left source.old) (S.left source.new)
        (S.is_ended source.new ≡ true) on) }
    ensures none { IsErr result → Consumes (S.left source.old) (S.left source.new) [] }
    ensures cause { HasCause (S.faults source.old) (S.faults source.new) (IsErr result) }
    ensures name { S.name source.new ≡ S.name source.old }
{
    let mut byte = [0u8; 1];
    let got = source.fetch(&mut byte)?;
    Ok(got > 0)
}

/// Fetches until no more bytes can change what stands next, the source is at its end, or the input
/// has its most bytes.
pub(crate) fn look_ahead<S: Source>(
    source: &mut S,
    buffer: &mut FrameBuffer,
) -> Result<Ahead, Failed>
    requires few { buffer.old.base + length buffer.old.held ≤ input_most }
    ensures ok { IfOk result (λ ahead. LooksAhead (S.left source.old) (S.left source.new)
        (S.is_ended source.new ≡ true) buffer.old buffer.new ahead) }
    ensures fails { IsErr result
        → FailsAhead (S.left source.old) (S.left source.new) buffer.old buffer.new }
    ensures cause { HasCause (S.faults source.old) (S.faults source.new) (IsErr result) }
    ensures name { S.name source.new ≡ S.name source.old }
{
    loop {
        let next = buffer.next();
        if !next.may_change() {
            return Ok(Ahead {
                next,
                goes_on: false,
            });
        }
        let have = buffer.base() as usize + buffer.bytes().len();
        if have == INPUT_MOST {
            let goes_on = goes_on(source)?;
            return Ok(Ahead { next, goes_on });
        }
        if fetch_into(source, buffer, INPUT_MOST - have)? == 0 {
            return Ok(Ahead {
                next,
                goes_on: false,
            });
        }
    }
}
