//! Posting lower values.
ghost use Rattle.std.specs.Prelude.{◌≡◌, ◌≤◌, ◌<◌, All};
ghost use Rattle.risk_journal.specs.ActLists.{last_post};
ghost use Rattle.admit_core.specs.Hands.{IsAfter, IsOver};
ghost use Rattle.admit_core.specs.Legs.{legs_of, AreRowsOf};
ghost use Rattle.admit_core.specs.Lowering.{lowered_to, lowering};

use crate::hands::Hands;
use crate::rows::OrderRows;
use limit_table::Limits;
use risk_board::Hand;

/// Posts a value that is below what was last posted in a tree of sums, where a post is left there.
/// False exactly where none is left for it. No root is read: what falls is within every limit that it
/// was within before.
pub fn lower<H: Hand, M: Hand>(hands: &mut Hands<H, M>, tree: u32, value: u64) -> bool
    requires tree { tree < hands.old.halt_tree }
    requires lower { value ≤ last_post tree hands.old.acts }
    requires room { 1 ≤ hands.old.room }
    ensures after { IsAfter H.SameOrigin M.SameOrigin hands.old hands.new 1 }
    ensures lowered { record { done = result; acts = hands.new.acts }
        ≡ lowered_to hands.old.quota tree value hands.old.acts }
{
    if value == hands.last(tree) {
        return true;
    }
    if hands.left(tree) == 0 {
        return false;
    }
    hands.post(tree, value);
    true
}

/// Posts each of the three values, of the firm, the account and the symbol of these rows, that is
/// below what was last posted in its tree, where a post is left there. False exactly where none is
/// left for one of them. No root is read. The three legs are named in three clauses, which makes the
/// head longer than others.
pub fn lower_all<H: Hand, M: Hand>(
    hands: &mut Hands<H, M>,
    limits: &Limits,
    rows: &OrderRows,
    values: &[u64; 3],
) -> bool
    requires over { IsOver limits.now hands.old }
    requires rows { AreRowsOf limits.now rows.now }
    requires lower { All (λ leg. leg.new ≤ leg.old)
        (legs_of limits.now rows.now hands.old.acts values.now) }
    requires room { 3 ≤ hands.old.room }
    ensures after { IsAfter H.SameOrigin M.SameOrigin hands.old hands.new 3 }
    ensures acts { hands.new.acts ≡ (lowering limits.now
        (legs_of limits.now rows.now hands.old.acts values.now) hands.old.acts).acts }
    ensures done { result ≡ (lowering limits.now
        (legs_of limits.now rows.now hands.old.acts values.now) hands.old.acts).done }
{
    let firm_done = lower(hands, 0, values[0]);
    let account_done = lower(hands, limits.account_tree(rows.account), values[1]);
    let symbol_done = lower(hands, limits.symbol_tree(rows.symbol), values[2]);
    firm_done & account_done & symbol_done
}
