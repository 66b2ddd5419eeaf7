//! The first bytes of a source, up to a number of them.
ghost use Rattle.std.specs.Prelude.{◌≡◌, ◌≤◌, ◌<◌, [], length, true, IfSome, IfNone, ◌⊎◌};
ghost use Rattle.std.specs.Io.KnownBytes.{Consumes};
ghost use Rattle.gate_ports.specs.Faults.{Rose};
ghost use Rattle.gate_ports.specs.Fetches.{GrowsByFetched};

use crate::ports::Source;
use std::alloc::Global;

/// Why no more bytes were fetched.
#[derive(Clone, Copy, Debug, PartialEq, Eq)]
pub enum FetchEnd {
    /// The source is at its end, or all the bytes that were asked for are here.
    Whole,
    /// A read failed.
    Failed,
    /// Memory was wanting.
    Memory,
}

/// The bytes that a source gave.
#[derive(Drop)]
pub struct Fetched {
    pub bytes: Vec<u8>,
    pub end: FetchEnd,
}

/// The most bytes of one fetch.
const PIECE: usize = 65536;

/// Fetches bytes until there are so many, the source ends or a read fails.
pub fn fetch_up_to<S: Source>(alloc: Global, source: &mut S, most: usize) -> Fetched
    ensures bytes { Consumes (S.left source.old) (S.left source.new) result.bytes.items }
    ensures most { length result.bytes.items ≤ most }
    ensures whole { result.end ≡ FetchEnd.Whole → (length result.bytes.items ≡ most)
        ⊎ ((S.is_ended source.new ≡ true) × IfSome (S.left source.new) (λ rest. rest ≡ [])) }
    ensures failed { result.end ≡ FetchEnd.Failed
        → Rose (S.faults source.old) (S.faults source.new) }
    ensures later { S.faults source.old ≤ S.faults source.new }
    ensures name { S.name source.new ≡ S.name source.old }
{
    let mut bytes = Vec::new(alloc);
    let Some(mut buffer) = zeros(alloc, PIECE) else {
        return Fetched {
            bytes,
            end: FetchEnd::Memory,
        };
    };
    let piece = buffer.as_mut_slice();
    while bytes.len() < most {
        let room = piece.len().min(most - bytes.len());
        if let Some(end) = fetch_more(source, &mut bytes, &mut piece[..room]) {
            return Fetched { bytes, end };
        }
    }
    Fetched {
        bytes,
        end: FetchEnd::Whole,
    }
}

/// So many zeros. None where memory is wanting.
fn zeros(alloc: Global, count: usize) -> Option<Vec<u8>>
    ensures { IfSome result (λ items. length items.items ≡ count) }
{
    vec![in alloc; 0u8; count].ok()
}

/// Fetches once, into the buffer and then behind the bytes. None where more may come.
fn fetch_more<S: Source>(source: &mut S, bytes: &mut Vec<u8>, buffer: &mut [u8]) -> Option<FetchEnd>
    requires { 0 < length buffer.old }
    ensures step { GrowsByFetched (S.left source.old) (S.left source.new)
        bytes.old.items bytes.new.items (length buffer.old) }
    ensures more { IfNone result (length bytes.old.items < length bytes.new.items) }
    ensures whole { result ≡ Some FetchEnd.Whole → (S.is_ended source.new ≡ true)
        × IfSome (S.left source.new) (λ rest. rest ≡ []) }
    ensures failed { result ≡ Some FetchEnd.Failed
        → Rose (S.faults source.old) (S.faults source.new) }
    ensures later { S.faults source.old ≤ S.faults source.new }
    ensures name { S.name source.new ≡ S.name source.old }
{
    if bytes.reserve(buffer.len()).is_err() {
        return Some(FetchEnd::Memory);
    }
    match source.fetch(buffer) {
        Err(_) => Some(FetchEnd::Failed),
        Ok(0) => Some(FetchEnd::Whole),
        Ok(count) => match bytes.extend_from_slice(&buffer[..count]) {
            Ok(()) => None,
            Err(_) => unreachable!(),
        },
    }
}
