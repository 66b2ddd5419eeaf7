//! What the venue's reports make of a book.
ghost use Rattle.std.specs.Prelude.{◌≡◌, ◌≢◌, ◌↔◌, None, Some, IsSomeAnd, slice_get, slice_set};
ghost use Rattle.exposure_book.specs.Orders.{Lowers};
ghost use Rattle.exposure_book.specs.Books.{order_with, terms_of, with_orders};
ghost use Rattle.exposure_book.specs.Totals.{IsOrderAt};
ghost use Rattle.exposure_book.specs.Reports.{outcome_of_report, outcome_of_reject};
ghost use Rattle.exposure_book.specs.Reports.{reported_order, IsBeyond, IsPlacedAnswer};

use crate::answer::Applied;
use crate::book::Book;
use crate::order::Order;
use fix_orders::{CancelReject, Report};

impl Book {
    /// Applies an ExecutionReport (8) to the order that has its ClOrdID (11). Stray where it has
    /// none or no order has it, Over where it trades beyond the reserve; neither changes anything.
    pub fn apply(&mut self, report: &Report) -> Applied
        ensures answer { result ≡ (outcome_of_report self.old.value report.now).answer }
        ensures orders { self.new.value ≡ record self.old.value {
          orders = (outcome_of_report self.old.value report.now).orders;
        } }
        ensures room { self.new.room ≡ self.old.room }
        ensures placed { IsPlacedAnswer self.old.value.accounts self.old.value.symbols result }
        ensures stray { (result ≡ Applied.Stray)
            ↔ (reported_order self.old.value report.now.id ≡ None) }
        ensures over { (result ≡ Applied.Over)
            ↔ IsSomeAnd (reported_order self.old.value report.now.id) (IsBeyond report.now.exec) }
    {
        let Some(id) = &report.id else {
            return Applied::Stray;
        };
        let id = id.owned();
        let Some(place) = self.place(&id) else {
            return Applied::Stray;
        };
        let order = self.order(place);
        match order.after(&id, report.exec) {
            Some(next) => self.settle(place, &order, &next),
            None => Applied::Over,
        }
    }

    /// Applies an OrderCancelReject (9) to the order that has its ClOrdID (11). Stray where no
    /// order has it, which changes nothing. Never Over.
    pub fn apply_reject(&mut self, reject: &CancelReject) -> Applied
        ensures answer { result ≡ (outcome_of_reject self.old.value reject.now).answer }
        ensures orders { self.new.value ≡ record self.old.value {
          orders = (outcome_of_reject self.old.value reject.now).orders;
        } }
        ensures room { self.new.room ≡ self.old.room }
        ensures placed { IsPlacedAnswer self.old.value.accounts self.old.value.symbols result }
        ensures stray { (result ≡ Applied.Stray)
            ↔ (order_with self.old.value reject.now.id ≡ None) }
        ensures never_over { result ≢ Applied.Over }
    {
        let id = reject.id.owned();
        let Some(place) = self.place(&id) else {
            return Applied::Stray;
        };
        let order = self.order(place);
        self.settle(place, &order, &order.without_request(&id))
    }

    /// Puts an order that counts for no more in the place of this one.
    fn settle(&mut self, place: usize, order: &Order, next: &Order) -> Applied
        requires order { IsOrderAt self.old.value place order.now }
        requires lowers { Lowers order.now next.now }
        ensures answer { result ≡ Applied.Applied (terms_of (with_orders
            (slice_set self.old.value.orders place next.now) self.old.value) next.now) }
        ensures orders { self.new.value
            ≡ with_orders (slice_set self.old.value.orders place next.now) self.old.value }
        ensures room { self.new.room ≡ self.old.room }
        ensures placed { IsPlacedAnswer self.old.value.accounts self.old.value.symbols result }
    {
        self.put(place, order, next);
        Applied::Applied(self.terms(next))
    }
}
