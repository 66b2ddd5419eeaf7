//! Where an order's account and symbol stand among the rows of the limits.
ghost use Rattle.std.specs.Prelude.{◌≡◌, IfOk};
ghost use Rattle.admit_core.specs.Legs.{AreRowsOf};
ghost use Rattle.order_desk.specs.Rows.{rows_of};

use crate::refusal::Refusal;
use admit_core::OrderRows;
use fix_orders::NewOrder;
use limit_table::Limits;

/// Where the account and the symbol of an order stand, or the one that stands nowhere.
pub(crate) fn find_rows(limits: &Limits, order: &NewOrder) -> Result<OrderRows, Refusal>
    ensures value { result ≡ rows_of limits.now order.now }
    ensures rows { IfOk result (AreRowsOf limits.now) }
{
    limits.stand_in_a_file();
    let Some(account) = limits.account(&order.account) else {
        return Err(Refusal::UnknownAccount);
    };
    let Some(symbol) = limits.symbol(&order.symbol) else {
        return Err(Refusal::UnknownSymbol);
    };
    Ok(OrderRows { account, symbol })
}
