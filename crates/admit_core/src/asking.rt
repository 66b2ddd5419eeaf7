//! Asking the trees about an order.
ghost use Rattle.std.specs.Prelude.{◌≡◌, ◌≤◌, All, AllPairs, nat_lt};
ghost use Rattle.std.specs.List.{list_any};
ghost use Rattle.fold_law.specs.declared.limits.TheConstants.{LEAF};
ghost use Rattle.admit_core.specs.declared.ask.TheConstants.{MOST_CALLS};
ghost use Rattle.admit_core.specs.Asking.{Asks};
ghost use Rattle.admit_core.specs.Hands.{IsAfter, IsOver};
ghost use Rattle.admit_core.specs.Legs.{legs_of, legs_asked, IsLegOf, AreApart, AreRowsOf};

use crate::admission::admit;
use crate::ask::{Ask, Verdict};
use crate::hands::Hands;
use crate::rows::OrderRows;
use limit_table::Limits;
use risk_board::Hand;

/// What is asked for an order of these rows, with these values.
fn ask_for<H: Hand, M: Hand>(
    hands: &Hands<H, M>,
    limits: &Limits,
    rows: &OrderRows,
    values: &[u64; 3],
) -> Ask
    requires over { IsOver limits.now hands.now }
    requires rows { AreRowsOf limits.now rows.now }
    requires capped { All (λ value. value ≤ LEAF) values.now }
    ensures legs { All (IsLegOf hands.now.halt_tree hands.now.acts) (legs_asked result) }
    ensures apart { AllPairs AreApart (legs_asked result) }
    ensures asked { legs_asked result ≡ legs_of limits.now rows.now hands.now.acts values.now }
{
    let account = limits.account_tree(rows.account);
    let symbol = limits.symbol_tree(rows.symbol);
    Ask {
        trees: [0, account, symbol],
        old: [hands.last(0), hands.last(account), hands.last(symbol)],
        new: *values,
        limits: [
            limits.firm(),
            limits.account_limit(rows.account),
            limits.symbol_limit(rows.symbol),
        ],
    }
}

/// Posts the three values, of the firm, the account and the symbol of these rows, reads the halt root
/// and the three roots, and decides; after a verdict other than `Sent` it posts the old values again.
/// `Quota`, and nothing done, where two posts aren't left in one of the trees.
pub fn ask_all<H: Hand, M: Hand>(
    hands: &mut Hands<H, M>,
    limits: &Limits,
    rows: &OrderRows,
    values: &[u64; 3],
) -> Verdict
    requires over { IsOver limits.now hands.old }
    requires rows { AreRowsOf limits.now rows.now }
    requires capped { All (λ value. value ≤ LEAF) values.now }
    requires room { MOST_CALLS ≤ hands.old.room }
    ensures after { IsAfter H.SameOrigin M.SameOrigin hands.old hands.new MOST_CALLS }
    ensures asks { Asks limits.now (legs_of limits.now rows.now hands.old.acts values.now)
        hands.old.acts hands.new.acts result }
{
    admit(hands, &ask_for(hands, limits, rows, values)).verdict
}

/// Whether one of the three values is above what was last posted in its tree.
pub fn is_above_last<H: Hand, M: Hand>(
    hands: &Hands<H, M>,
    limits: &Limits,
    rows: &OrderRows,
    values: &[u64; 3],
) -> bool
    requires over { IsOver limits.now hands.now }
    requires rows { AreRowsOf limits.now rows.now }
    ensures { result ≡ list_any (λ leg. nat_lt leg.old leg.new)
        (legs_of limits.now rows.now hands.now.acts values.now) }
{
    values[0] > hands.last(0)
        || values[1] > hands.last(limits.account_tree(rows.account))
        || values[2] > hands.last(limits.symbol_tree(rows.symbol))
}
