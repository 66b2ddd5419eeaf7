//! What a plain board and its hand keep.
ghost use Rattle.std.specs.Prelude.{◌≡◌, ℕ, ◌<◌, length, map, OnOk};

use crate::hand::Call;
use crate::tree::PlainTree;
use fold_law::Memory;

/// How many posts a session may make in a tree, the trees, and the calls by session.
#[derive(Drop)]
pub(crate) struct Kept {
    pub(crate) quota: u32,
    pub(crate) trees: Vec<PlainTree>,
    pub(crate) calls: Vec<Vec<Call>>,
}

impl Kept {
    ghost use Rattle.risk_board.specs.Kept.{HasRoom, KeepsAll};

    /// Takes room for so many more calls of the session, in whichever trees. A refusal may have grown
    /// the room in part.
    pub(crate) fn reserve(&mut self, session: u32, calls: u32) -> Result<(), Memory>
        requires { session < length self.old.calls.items }
        ensures ok { OnOk result (HasRoom self.new session calls) }
        ensures kept { KeepsAll self.old self.new }
        ensures room { (spare : ℕ) → HasRoom self.old session spare → HasRoom self.new session spare }
    {
        let own = &mut self.calls[session as usize];
        if own.reserve(calls as usize).is_err() {
            return Err(Memory);
        }
        reserve_lines(&mut self.trees, calls)
    }
}

ghost use Rattle.risk_board.specs.Tree.{contents};
ghost use Rattle.risk_board.specs.Kept.{HaveRoom};

/// Takes room for so many more lines in each tree. A refusal may have grown the room of some.
fn reserve_lines(trees: &mut Vec<PlainTree>, lines: u32) -> Result<(), Memory>
    ensures ok { OnOk result (HaveRoom lines trees.new.items) }
    ensures contents { map contents trees.new.items ≡ map contents trees.old.items }
    ensures room { (spare : ℕ) → HaveRoom spare trees.old.items → HaveRoom spare trees.new.items }
{
    for tree in trees.iter_mut() {
        tree.reserve(lines)?;
    }
    Ok(())
}
