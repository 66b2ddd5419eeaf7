//! The table is closed once every session was joined.
ghost use Rattle.std.specs.Prelude.{◌≡◌, ℕ, ◌<◌, List, [], ◌∷◌, length, IfOk};
ghost use Rattle.std.specs.Slots.{slots_items, slots_len, IsFull};
ghost use Rattle.node_rule.specs.declared.view.View.TheVariants.{Keeper};
ghost use Rattle.node_rule.specs.Standing.{IsKeeperOf};
ghost use Rattle.node_rule.specs.ValuePart.{IsKept};

use crate::keeper::KeeperSeat;
use crate::words::Words;
use atomic_table::Closed;
use fold_law::{Fold, Memory};
use std::alloc::Global;

// The words of a closed table.
fn words_of(alloc: Global, closed: &Closed<(), Global>) -> Result<Vec<u64>, Memory>
    requires { IsFull closed.now.words }
    ensures { IfOk result (λ w. w.items ≡ slots_items closed.now.words) }
{
    let mut words = Vec::new(alloc);
    for i in 0..closed.words.len() {
        let Ok(()) = words.push(closed.word(i)) else {
            return Err(Memory);
        };
    }
    Ok(words)
}

impl<F: Fold> Words<F> {
    /// The words, which meet the rule over the keeper's view alone. A refused close has given up
    /// the table.
    pub fn close(self, keeper: KeeperSeat<F>) -> Result<Vec<u64>, Memory>
        requires table { IsKeeperOf self keeper }
        requires joined { length keeper.joined ≡ keeper.given }
        ensures { let view = Keeper self.plan.levels keeper.given keeper.joined in
            IfOk result (λ words.
            IsKept self.plan F.UNIT F.CAP F.join words.items (view ∷ [])) }
    {
        let Words {
            table,
            plan: _,
            alloc,
        } = self;
        let KeeperSeat {
            seat,
            plan: _,
            given: _,
            fold: _,
        } = keeper;
        let closed = table.close_with(seat);
        let words = words_of(alloc, &closed);
        closed.free();
        words
    }
}
