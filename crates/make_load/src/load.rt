//! A whole load.
ghost use Rattle.std.specs.Prelude.{◌≡◌, ◌≤◌, ◌<◌, IfOk, codes, map};
ghost use Rattle.make_load.specs.Loads.{limit_text, session_texts, count_in_load};

use crate::session::{ORDERS_MOST, session_file};
use fold_law::{Memory, SESSIONS};
use std::alloc::Global;

/// The limit file that goes with every load.
const LIMITS: &[u8] = b"firm,,2000000,,,\n\
account,A0,800000,,,\n\
account,A1,800000,,,\n\
account,A2,800000,,,\n\
account,A3,800000,,,\n\
symbol,S0,500000,1,100,1000\n\
symbol,S1,500000,1,100,1000\n\
symbol,S2,500000,1,100,1000\n\
symbol,S3,500000,1,100,1000\n\
symbol,S4,500000,1,100,1000\n\
symbol,S5,500000,1,100,1000\n\
symbol,S6,500000,1,100,1000\n\
symbol,S7,500000,1,100,1000\n\
quota,,200000,,,\n";

/// A load: a limit file, and the files of sessions that run under it.
#[derive(Drop)]
pub struct Load {
    /// The limit file.
    pub limits: Vec<u8>,
    /// The files of the sessions, in their order: FIX 4.4 messages, a line each.
    pub sessions: Vec<Vec<u8>>,
    /// How many orders (D) there are.
    pub new: u32,
    /// How many cancels (F) there are.
    pub cancel: u32,
    /// How many reports (8) there are.
    pub report: u32,
}

/// The limit file, in memory of its own.
fn load_limits(alloc: Global) -> Result<Vec<u8>, Memory>
    ensures { IfOk result (λ text. text.items ≡ limit_text) }
{
    match Vec::from_slice(alloc, LIMITS) {
        Ok(text) => Ok(text),
        Err(_) => Err(Memory),
    }
}

/// The load of this number, of so many sessions with so many orders each. A session's file is the same
/// for any number of sessions.
pub fn make_load(alloc: Global, number: u32, sessions: u32, orders: u32) -> Result<Load, Memory>
    requires sessions { (1 ≤ sessions) × (sessions ≤ SESSIONS) }
    requires orders { (1 ≤ orders) × (orders ≤ ORDERS_MOST) }
    ensures limits { IfOk result (λ load. load.limits.items ≡ limit_text) }
    ensures sessions { IfOk result (λ load.
        map (λ own. own.items) load.sessions.items ≡ session_texts number sessions orders) }
    ensures new { IfOk result (λ load.
        load.new ≡ count_in_load (codes "D") number sessions orders) }
    ensures cancel { IfOk result (λ load.
        load.cancel ≡ count_in_load (codes "F") number sessions orders) }
    ensures report { IfOk result (λ load.
        load.report ≡ count_in_load (codes "8") number sessions orders) }
{
    let mut load = Load {
        limits: load_limits(alloc)?,
        sessions: Vec::new(alloc),
        new: 0,
        cancel: 0,
        report: 0,
    };
    for session in 0..sessions {
        let file = session_file(alloc, number, orders, session)?;
        load.new += file.new;
        load.cancel += file.cancel;
        load.report += file.report;
        let Ok(()) = load.sessions.push(file.bytes) else {
            return Err(Memory);
        };
    }
    Ok(load)
}
