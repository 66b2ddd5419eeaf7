//! One level of an ascent, in at most two tries.
//!
//! A try loads the parent of the ascent's node, then its left and its right child, and exchanges
//! the parent's word for the next stamp with the join of the children's values. A try can lose: another
//! session exchanged the parent's word in between. Two tries are enough all the same. Say the first
//! load of the parent found stamp s, and both tries lost. Then the parent was exchanged at least
//! twice since: the word that the second exchange put there has stamp s + 2 or more. Whoever made
//! it loaded the parent at s + 1 or later, so after our first load, and loaded the children after
//! that; our node already held our post by then. So that exchange took our post up, and the ascent
//! may stand at the parent without having won anything.
//!
//! The proof of this stands with the running rule, in the crate below. Here is the order of the
//! calls. The function takes no memory, refuses nothing and waits for nobody.
#![tactic(auto)]

mod rise;

pub use rise::refresh;

#[cfg(test)]
mod tests;
