//! Boxed screens: tests of single orders, of which a firm can write its own.
//!
//! A screen has a name, keeps a list of numbers, and gives each order that it judges a code: 0 lets
//! it pass. It is armed once with the terms of a run, and then its code is told by the fold of the
//! orders that it judged. A set of screens is asked in its order, up to the first that refuses.
//! Three screens are given: for an order's size, for its price, and for repeats. What an order may
//! cost is not told here, nor what a session does with a code.
#![tactic(auto)]

mod boxed;
mod collar;
mod laws;
mod order;
mod repeat;
mod screen;
mod set;
mod size;

pub use collar::CollarScreen;
pub use fix_orders::OrderKind;
pub use fold_law::Memory;
pub use laws::{code_is_a_fold, later_screens_judge_what_passed, repeats_are_of_the_last_orders};
pub use order::{Order, Terms};
pub use repeat::RepeatScreen;
pub use screen::Screen;
pub use set::{arm_all, ask, retire};
pub use size::SizeScreen;

#[cfg(test)]
mod counted;
#[cfg(test)]
mod first_orders;
#[cfg(test)]
mod no_room;
#[cfg(test)]
mod tests;
