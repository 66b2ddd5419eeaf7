//! The running rule of the trees, and the calls that each make one step under it.
//!
//! A tree of words carries posts from the leaves to its root. Each session has a leaf, and a seat
//! of the table with a *view*: what the session did, and the ascent that it has in hand. An *ascent*
//! takes a post up from its leaf: at each level it loads the parent and both its children and
//! exchanges the parent's word for the next stamp with the join of the children's values. An
//! exchange that won is an *install*. A *climb* is a seat with the session's lists of calls and
//! installs. The rule says, of all words and views at any moment, which posts each stamp of each
//! node covers and which value it has; `docs/RULE.md` tells it in plain words.
//!
//! The rule is kept by the table itself: each call here asks for a view that allows its one step,
//! and tells what the step leaves in the view, and that the seat has made one step more. What is
//! *not* here is the order of the calls of an ascent, which the crate above makes, and that a step
//! is ever made.
#![tactic(auto)]

mod calls;
mod climb;
mod closing_words;
mod keeper;
mod rule;
mod seats;
mod tries;
mod view;
mod words;

pub use climb::Climb;
pub use keeper::KeeperSeat;
pub use rule::NodeRule;
pub use view::{Ascent, Install, Plan, Stage, Track, Try, View};
pub use words::Words;
