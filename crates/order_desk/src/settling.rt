//! What the venue's reports make of a session.
ghost use Rattle.std.specs.Prelude.{◌≡◌, ◌≤◌};
ghost use Rattle.exposure_book.specs.Books.{BookValue};
ghost use Rattle.admit_core.specs.Hands.{IsOver, IsAfter};
ghost use Rattle.order_desk.specs.Desks.{IsLater};
ghost use Rattle.order_desk.specs.Reported.{TellsLower, effect_of, outcome_of, reply_settled};
ghost use Rattle.order_desk.specs.Reported.{settled_with};

use crate::desk::Desk;
use crate::effect::Effect;
use crate::values::{rows_told, values_told};
use admit_core::{Hands, lower_all};
use exposure_book::{Applied, Book};
use fix_orders::{CancelReject, Report};
use limit_table::Limits;
use risk_board::Hand;
use screen_kit::Screen;

/// What the venue says of an order.
#[derive(Clone, Copy)]
pub enum Reply<'a> {
    /// An ExecutionReport (8).
    Report(&'a Report<'a>),
    /// An OrderCancelReject (9).
    Reject(&'a CancelReject<'a>),
}

/// Applies what the venue says to its order.
fn apply(book: &mut Book, reply: &Reply<'_>) -> Applied
    ensures answer { result ≡ (outcome_of book.old.value reply.now).answer }
    ensures orders { book.new.value ≡ record book.old.value {
      orders = (outcome_of book.old.value reply.now).orders;
    } }
    ensures room { book.new.room ≡ book.old.room }
{
    match reply {
        Reply::Report(report) => book.apply(report),
        Reply::Reject(reject) => book.apply_reject(reject),
    }
}

/// Applies what the venue says to its order, and posts the order's three values where they fell.
pub fn settle<H: Hand, M: Hand, K: Screen>(
    desk: &mut Desk<'_, H, M, K>,
    reply: &Reply<'_>,
) -> Effect
    requires room { 3 ≤ desk.old.hands.room }
    ensures later { IsLater H.SameOrigin M.SameOrigin desk.old desk.new 3 }
    ensures screens { desk.new.screens ≡ desk.old.screens }
    ensures settled { reply_settled desk.old.limits reply.now desk.old.book.value desk.old.hands.acts
        ≡ record { effect = result; acts = desk.new.hands.acts; book = desk.new.book.value } }
{
    let limits = desk.limits;
    let applied = apply(&mut desk.book, reply);
    post_lower(&mut desk.hands, limits, &applied)
}

/// Posts the values of an order's three trees where the book applied a report and they fell.
fn post_lower<H: Hand, M: Hand>(
    hands: &mut Hands<H, M>,
    limits: &Limits,
    applied: &Applied,
) -> Effect
    requires over { IsOver limits.now hands.old }
    requires lower { TellsLower limits.now hands.old.acts applied.now }
    requires room { 3 ≤ hands.old.room }
    ensures after { IsAfter H.SameOrigin M.SameOrigin hands.old hands.new 3 }
    ensures settled { (book : BookValue) → settled_with limits.now book hands.old.acts applied.now
        ≡ record { effect = result; acts = hands.new.acts; book = book } }
{
    match applied {
        Applied::Applied(terms) => {
            effect_of(lower_all(hands, limits, &rows_told(terms), &values_told(terms)))
        }
        Applied::Stray => Effect::Stray,
        Applied::Over => Effect::Over,
    }
}

/// What became of a report, by whether every value that fell was posted.
fn effect_of(done: bool) -> Effect
    ensures { result ≡ effect_of done }
{
    if done {
        Effect::Applied
    } else {
        Effect::NotLowered
    }
}
