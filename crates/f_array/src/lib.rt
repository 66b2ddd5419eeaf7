//! F-arrays: trees of words under one rule, posted to and read by sessions on many threads.
//!
//! A *forest* has as many trees as its shape says, each an array with a component for each session
//! whose root is the fold of the components. A *pass* is what one session posts and reads with; it
//! keeps its own calls, and the installs that its posts won. A post stores the session's component
//! and rises to the root, one level at a time, in a bounded number of steps; a read is one step.
//! The pass counts its steps itself, so no call waits by loading a word again and again.
//! Both go through shared references, on any number of threads, take no memory, refuse nothing and
//! wait for nobody. The *keeper* closes the forest, once all passes are back, and the *record* says
//! what each pass did.
//!
//! What the record's words and installs say together is the running rule, which `docs/RULE.md`
//! tells. That a history can be made of them stands in the crate above.
#![tactic(auto)]

mod closing_forest;
mod forest;
mod pass;
mod record;
mod rise_up;
mod tree_hand;

pub use forest::Forest;
pub use pass::{Keeper, Pass};
pub use record::{PassRecord, Record};
pub use tree_hand::TreeHand;
