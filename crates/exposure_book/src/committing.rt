//! What was proposed is committed.
ghost use Rattle.std.specs.Prelude.{◌≡◌, ◌+◌, ◌≤◌, ◌<◌, length, IsOk};
ghost use Rattle.exposure_book.specs.Totals.{IsPlaced};
ghost use Rattle.exposure_book.specs.Proposals.{proposal_of_new, proposal_of_cancel};
ghost use Rattle.exposure_book.specs.Proposals.{proposal_of_replace};
ghost use Rattle.exposure_book.specs.Commits.{with_new, with_cancel_pending};
ghost use Rattle.exposure_book.specs.Commits.{with_replace_pending};

use crate::book::Book;
use crate::order::Order;
use crate::pending::Pending;
use crate::proposing::{new_order, with_replace};
use fix_orders::{Cancel, NewOrder, Replace};
use limit_table::Limits;

impl Book {
    /// Adds the order that was proposed.
    pub fn commit_new(&mut self, order: &NewOrder, account: u32, symbol: u32, high: u64)
        requires account { account < self.old.value.accounts }
        requires symbol { symbol < self.old.value.symbols }
        requires proposed { IsOk (proposal_of_new self.old.value order.now account symbol high) }
        requires room { 1 ≤ self.old.room }
        ensures book { self.new.value ≡ with_new order.now account symbol high self.old.value }
        ensures room { self.old.room ≤ self.new.room + 1 }
    {
        self.add(&new_order(order, account, symbol, high));
    }

    /// Makes the cancel that was proposed pending on its order.
    pub fn commit_cancel(&mut self, request: &Cancel)
        requires proposed { IsOk (proposal_of_cancel self.old.value request.now) }
        requires room { 1 ≤ self.old.room }
        ensures book { self.new.value ≡ with_cancel_pending request.now self.old.value }
        ensures room { self.old.room ≤ self.new.room + 1 }
    {
        let Some(place) = self.place(&request.orig.owned()) else {
            return;
        };
        let order = self.order(place);
        let next = Order {
            pending: Pending::Cancel {
                id: request.id.owned(),
            },
            ..order
        };
        self.change(place, &order, &next, &request.id.owned());
    }

    /// Makes the replace that was proposed pending on its order.
    pub fn commit_replace(&mut self, request: &Replace, limits: &Limits)
        requires accounts { length limits.now.accounts ≡ self.old.value.accounts }
        requires symbols { length limits.now.symbols ≡ self.old.value.symbols }
        requires proposed { IsOk (proposal_of_replace self.old.value request.now limits.now) }
        requires room { 1 ≤ self.old.room }
        ensures book { self.new.value ≡ with_replace_pending request.now limits.now self.old.value }
        ensures room { self.old.room ≤ self.new.room + 1 }
    {
        let Some(place) = self.place(&request.orig.owned()) else {
            return;
        };
        let order = self.order(place);
        let next = with_replace(request, limits, &order);
        self.change(place, &order, &next, &request.id.owned());
    }
}
