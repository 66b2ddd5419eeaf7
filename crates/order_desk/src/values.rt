//! The three values of an order, in the order in which its trees are asked.
ghost use Rattle.std.specs.Prelude.{◌≡◌};
ghost use Rattle.order_desk.specs.Values.{values_of, values_told, rows_told};

use admit_core::OrderRows;
use exposure_book::{Proposal, Terms3};

/// The values that a book proposes: of the firm, the account and the symbol, in whole currency
/// units.
pub(crate) fn values_of(values: &Proposal) -> [u64; 3]
    ensures { result ≡ values_of values.now }
{
    [values.firm, values.account, values.symbol]
}

/// The values of an order after a report: of the firm, its account and its symbol, in whole
/// currency units.
pub(crate) fn values_told(terms: &Terms3) -> [u64; 3]
    ensures { result ≡ values_told terms.now }
{
    [terms.firm_value, terms.account_value, terms.symbol_value]
}

/// The rows of that order.
pub(crate) fn rows_told(terms: &Terms3) -> OrderRows
    ensures { result ≡ rows_told terms.now }
{
    OrderRows {
        account: terms.account,
        symbol: terms.symbol,
    }
}
