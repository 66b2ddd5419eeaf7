//! What a session may do with its own components, and what each call leaves.
ghost use Rattle.std.specs.Prelude.{◌≡◌, ◌+◌, ◌-◌, ◌≤◌, ◌<◌, OnOk};

use fold_law::Memory;

/// The root of a tree at a read: its stamp, and its value in the unit of the posts.
#[derive(Clone, Copy, Debug, PartialEq, Eq)]
pub struct Seen {
    pub stamp: u32,
    pub value: u64,
}

/// A call of a session. Trees are counted from 0.
#[derive(Clone, Copy, Debug, PartialEq, Eq)]
pub enum Call {
    Post { tree: u32, value: u64 },
    Read { tree: u32, stamp: u32, value: u64 },
}

/// A post in a tree's history: the session from 0, the number of this post among the session's posts in
/// that tree from 1, and the value.
#[derive(Clone, Copy, Debug, PartialEq, Eq)]
pub struct Line {
    pub session: u32,
    pub index: u32,
    pub value: u64,
}

/// A session's hand: its own component of each tree, and the roots.
pub trait Hand: Drop {
    ghost use Rattle.risk_board.specs.declared.hand.Call.TheVariants as Call;
    ghost use Rattle.risk_board.specs.Calls.{post_count};
    ghost use Rattle.risk_board.specs.Hands.{HandValue, with_call, KeepsHand, KeepsOrigin};

    /// What the hand is: its own calls so far, and the bounds of its further calls.
    ghost meaning: { Self → HandValue };
    /// Two values of one hand, over one board or forest.
    ghost SameOrigin: { Self → Self → Type 0 };

    /// The session's number, from 0.
    fn number(&self) -> u32
        ensures { result ≡ (meaning self.now).number };

    /// How many more posts the quota lets the session make in the tree.
    fn left(&self, tree: u32) -> u32
        requires { tree < (meaning self.now).trees }
        ensures { result ≡ (meaning self.now).quota - post_count tree (meaning self.now).calls };

    /// For how many more calls there is room.
    fn spare(&self) -> u32
        ensures { result ≡ (meaning self.now).spare };

    /// Takes room for so many calls. A refusal leaves the hand as it was; room may have grown in part.
    fn reserve(&mut self, calls: u32) -> Result<(), Memory>
        requires { calls ≤ 1000 }
        ensures ok { OnOk result (calls ≤ (meaning self.new).spare) }
        ensures spare { (meaning self.old).spare ≤ (meaning self.new).spare }
        ensures kept { KeepsHand (meaning self.old) (meaning self.new) }
        ensures origin { SameOrigin self.old self.new };

    /// Sets the session's component of the tree.
    fn post(&mut self, tree: u32, value: u64)
        requires tree { tree < (meaning self.old).trees }
        requires left { post_count tree (meaning self.old).calls < (meaning self.old).quota }
        requires spare { 1 ≤ (meaning self.old).spare }
        requires capped { value ≤ (meaning self.old).cap }
        ensures added { meaning self.new ≡ with_call (Call.Post tree value) (meaning self.old) }
        ensures origin { SameOrigin self.old self.new };

    /// Reads the tree's root.
    fn read(&mut self, tree: u32) -> Seen
        requires tree { tree < (meaning self.old).trees }
        requires spare { 1 ≤ (meaning self.old).spare }
        ensures added { let call = Call.Read tree result.stamp result.value in
            meaning self.new ≡ with_call call (meaning self.old) }
        ensures origin { SameOrigin self.old self.new };

    ghost origin_same: { (a : Self) → SameOrigin a a };

    ghost origin_next: { (a b c : Self) → SameOrigin a b → SameOrigin b c → SameOrigin a c };

    ghost origin_means: { (a b : Self) → SameOrigin a b → KeepsOrigin (meaning a) (meaning b) };
}
