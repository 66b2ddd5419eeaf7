//! Gates by which tests hold sessions, one after another, or two at each of their orders, or watch
//! them.

use gate_ports::Gate;
use std::alloc::Global;
use std::hint;
use std::sync::Arc;
use std::sync::atomic::{AtomicU32, AtomicU64, Ordering};

/// How many turns a session makes before it gives up: some seconds.
pub(crate) const TURNS: u32 = 100_000_000;

/// Holds each session's first order until the session before it has taken up its last one.
#[derive(Drop)]
pub(crate) struct InTurn {
    /// The number of each session's last order, from 0.
    pub last: u32,
    /// How many sessions have taken up their last order.
    pub ended: AtomicU32,
}

impl InTurn {
    /// Sessions whose last order has this number.
    pub(crate) fn by(last: u32) -> InTurn {
        InTurn {
            last,
            ended: AtomicU32::new(0),
        }
    }
}

impl Gate for InTurn {
    fn before(&self, session: u32, order: u32) {
        if order == self.last {
            self.ended
                .store(session.saturating_add(1), Ordering::SeqCst);
        }
        if order > 0 {
            return;
        }
        for _ in 0..TURNS {
            if self.ended.load(Ordering::SeqCst) >= session {
                return;
            }
            hint::spin_loop();
        }
    }
}

/// Holds two sessions at each of their orders until both have taken it up.
#[derive(Drop)]
pub(crate) struct Meeting {
    /// How many turns a session makes before it gives up.
    pub turns: u32,
    /// How many orders session 0 has taken up.
    pub first: AtomicU32,
    /// How many orders session 1 has taken up.
    pub second: AtomicU32,
    /// How often a session gave up.
    pub missed: AtomicU32,
}

impl Meeting {
    /// Two sessions that have taken up nothing.
    pub(crate) fn of(turns: u32) -> Meeting {
        Meeting {
            turns,
            first: AtomicU32::new(0),
            second: AtomicU32::new(0),
            missed: AtomicU32::new(0),
        }
    }

    /// Turns until a session has taken up more than so many orders, or gives up.
    fn wait_for(&self, other: &AtomicU32, order: u32) {
        for _ in 0..self.turns {
            if other.load(Ordering::SeqCst) > order {
                return;
            }
            hint::spin_loop();
        }
        self.missed.fetch_add(1, Ordering::SeqCst);
    }
}

impl Gate for Meeting {
    fn before(&self, session: u32, order: u32) {
        if session == 0 {
            self.first.store(order.saturating_add(1), Ordering::SeqCst);
            self.wait_for(&self.second, order);
        } else {
            self.second.store(order.saturating_add(1), Ordering::SeqCst);
            self.wait_for(&self.first, order);
        }
    }
}

/// Looks at how many screens were dropped, as an order and the one behind it come to the gate.
#[derive(Drop)]
pub(crate) struct Watching {
    /// The number of the first of the two, from 0.
    pub order: u32,
    /// What the screens count their drops in.
    pub drops: Arc<AtomicU64, Global>,
    /// How many were dropped as the first came.
    pub before: AtomicU64,
    /// How many were dropped as the second came.
    pub after: AtomicU64,
}

impl Watching {
    /// Has looked at nothing yet.
    pub(crate) fn at(order: u32, drops: Arc<AtomicU64, Global>) -> Watching {
        Watching {
            order,
            drops,
            before: AtomicU64::new(999),
            after: AtomicU64::new(999),
        }
    }
}

impl Gate for Watching {
    fn before(&self, _session: u32, order: u32) {
        let dropped = self.drops.load(Ordering::SeqCst);
        if order == self.order {
            self.before.store(dropped, Ordering::SeqCst);
        } else if order > self.order {
            self.after.store(dropped, Ordering::SeqCst);
        }
    }
}
