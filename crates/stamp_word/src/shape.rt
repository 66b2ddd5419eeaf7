//! How many trees there are, how deep they are, and where their words lie.
ghost use Rattle.std.specs.Prelude.{◌≡◌, ℕ, ◌+◌, ◌*◌, ◌^◌, ◌<◌, ◌≤◌};
ghost use Rattle.fold_law.specs.declared.limits.TheConstants.{SESSIONS};
ghost use Rattle.stamp_word.specs.declared.limits.TheConstants.{LEVELS, TREES};
ghost use Rattle.stamp_word.specs.Places.{IsShape, IsLeast, place_of, leaf_of};

use crate::limits::LEVELS;

/// The levels above the leaves of each tree, and the number of trees. Trees and sessions are
/// counted from 0, the nodes of a tree from 1; node 0 is no node, and its word is never written.
#[derive(Clone, Copy, Debug, PartialEq, Eq)]
pub struct Shape {
    pub levels: u32,
    pub trees: u32,
    ghost within: { IsShape levels trees },
}

impl Shape {
    /// The shape with the fewest levels that give each session a leaf.
    pub fn of(sessions: u32, trees: u32) -> Shape
        requires sessions { (1 ≤ sessions) × (sessions ≤ SESSIONS) }
        requires trees { (1 ≤ trees) × (trees ≤ TREES) }
        ensures levels { IsLeast sessions result.levels }
        ensures trees { result.trees ≡ trees }
    {
        let levels = levels_for(sessions);
        Shape { levels, trees }
    }

    /// The place of the word of a tree's root.
    pub fn root(&self, tree: u32) -> u32
        requires tree { tree < self.now.trees }
        ensures { result ≡ place_of self.now.levels tree 1 }
    {
        self.path(tree, 1)
    }

    /// The left child of an inner node.
    pub fn left(&self, node: u32) -> u32
        requires inner { (1 ≤ node) × (node < 2 ^ self.now.levels) }
        ensures { result ≡ 2 * node }
    {
        2 * node
    }

    /// The right child of an inner node.
    pub fn right(&self, node: u32) -> u32
        requires inner { (1 ≤ node) × (node < 2 ^ self.now.levels) }
        ensures { result ≡ 2 * node + 1 }
    {
        self.left(node) + 1
    }

    /// The leaf of a session.
    pub fn leaf(&self, session: u32) -> u32
        requires session { session < 2 ^ self.now.levels }
        ensures { result ≡ leaf_of self.now.levels session }
    {
        (1 << self.levels) + session
    }

    /// The place of a node's word in the table.
    pub fn path(&self, tree: u32, node: u32) -> u32
        requires tree { tree < self.now.trees }
        requires node { node < 2 * 2 ^ self.now.levels }
        ensures { result ≡ place_of self.now.levels tree node }
    {
        tree * (2 << self.levels) + node
    }
}

// The least number of levels with a leaf for each session.
fn levels_for(sessions: u32) -> u32
    requires { (1 ≤ sessions) × (sessions ≤ SESSIONS) }
    ensures least { IsLeast sessions result }
    ensures within { result ≤ LEVELS }
{
    for levels in 0..LEVELS {
        if sessions <= 1 << levels {
            return levels;
        }
    }
    LEVELS
}
