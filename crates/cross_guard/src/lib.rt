//! A guard against a firm's own crossing orders: no buy that it lets through meets a sell that it lets
//! through, of whatever sessions.
//!
//! What a session may have at the venue on both sides of a symbol is one value of two *halves*: the
//! highest level of its buys, and the lowest level of its sells, told so that in both halves more is
//! larger. A *level* is a price's place among 524,287 between the symbol's collars. The root of a
//! symbol's tree joins the values of all sessions by halves, and is *clear* where its highest buy is
//! below its lowest sell. What of a session's orders may rest is kept order by order, with all *terms*
//! that the venue may have of each. `run_cross` filters a session so, frame by frame. No code here knows
//! of threads.
#![tactic(auto)]

mod cross;
mod giving;
mod guarding;
mod laws;
mod level;
mod orders;
mod resting;
mod run;
mod session;
mod take;
mod told;

pub use cross::{Cross, HALF, PACKED};
pub use guarding::{CrossOutcome, CrossVerdict, guard};
pub use laws::{
    a_history_admits_what_sessions_do, admitted_orders_never_cross, admitted_stays_clear,
    clear_keeps_orders_apart, resting_orders_are_covered,
};
pub use level::{clear, cross_value};
pub use orders::{Added, RestingOrders};
pub use run::{CrossDone, run_cross};

#[cfg(test)]
mod orders_tests;
#[cfg(test)]
mod session_rows;
#[cfg(test)]
mod session_tests;
#[cfg(test)]
mod tests;
