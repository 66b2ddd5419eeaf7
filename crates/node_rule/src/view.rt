//! What seats know. A view is a ghost: no value of one is made while the program runs.
use risk_board::Call;
use std::collections::LinkedList;

/// A node of a tree got a stamp, from children that were read at two stamps.
#[derive(Clone, Copy, Debug, PartialEq, Eq)]
pub struct Install {
    /// The tree, from 0.
    pub tree: u32,
    /// The node, from 1.
    pub node: u32,
    /// The stamp that the node got.
    pub stamp: u32,
    /// The stamp at which its left child was read.
    pub left: u32,
    /// The stamp at which its right child was read.
    pub right: u32,
}

/// What one session did.
pub struct Track {
    /// Its number, from 0.
    pub number: u32,
    /// Its posts and reads, in order.
    pub calls: LinkedList<Call>,
    /// The installs of its won exchanges, in order.
    pub trail: LinkedList<Install>,
}

/// The words of a try at a node.
#[derive(Clone, Copy, Debug, PartialEq, Eq)]
pub struct Try {
    /// The node's own, which was loaded first.
    pub parent: u64,
    /// Its left child's, once that is loaded.
    pub left: Option<u64>,
    /// Its right child's, once that is loaded.
    pub right: Option<u64>,
}

/// How far an ascent has come at the parent of its node.
#[derive(Clone, Copy, Debug, PartialEq, Eq)]
pub enum Stage {
    /// Nothing is loaded yet.
    Fresh,
    /// In the first try, with these words loaded.
    First(Try),
    /// The first try lost. It had loaded the parent at the stamp `first`.
    Lost { first: u32 },
    /// In the second try, with these words loaded; the first one had loaded the parent at `first`.
    Second { first: u32, tried: Try },
}

/// A post on its way to the root of its tree.
#[derive(Clone, Copy, Debug, PartialEq, Eq)]
pub struct Ascent {
    /// The tree of the post, from 0.
    pub tree: u32,
    /// The node at which the ascent stands.
    pub node: u32,
    /// So many levels is that node above the leaf.
    pub height: u32,
    /// The stamp of the node that covers the post.
    pub held: u32,
    /// How far it has come at the node's parent.
    pub stage: Stage,
}

/// The view of a seat. A step has to know the `levels` of the trees.
pub enum View {
    /// Of the keeper: how many numbers it gave, and what the joined sessions did.
    Keeper {
        levels: u32,
        given: u32,
        joined: LinkedList<Track>,
    },
    /// Of a session: what it did, and the ascent in hand.
    Session {
        levels: u32,
        track: Track,
        ascent: Option<Ascent>,
    },
    /// Of a seat that was joined.
    Spent,
}

/// What the rule is told once.
#[derive(Clone, Copy)]
pub struct Plan {
    /// The levels of each tree above its leaves.
    pub levels: u32,
    /// How many trees there are.
    pub trees: u32,
    /// How many sessions there are.
    pub sessions: u32,
    /// The most posts of a session in a tree.
    pub quota: u32,
}
