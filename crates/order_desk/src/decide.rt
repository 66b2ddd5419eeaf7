//! What is decided on an order, a cancel and a replace.
ghost use Rattle.std.specs.Prelude.{◌≡◌, map};
ghost use Rattle.admit_core.specs.declared.ask.TheConstants.{MOST_CALLS};
ghost use Rattle.admit_core.specs.Tapes.{Tape};
ghost use Rattle.order_desk.specs.Decisions.{Decides, cancel_decided, new_screened};
ghost use Rattle.order_desk.specs.Decisions.{replace_screened, screens_after};
ghost use Rattle.order_desk.specs.Desks.{HasRoom, IsLater};
ghost use Rattle.order_desk.specs.Offers.{new_offer, replace_offer};

use crate::desk::Desk;
use crate::judge::judge;
use crate::offer::{offer_new, offer_replace};
use crate::refusal::{Refusal, refusal_of};
use fix_orders::{Cancel, NewOrder, Replace};
use risk_board::Hand;
use screen_kit::Screen;

/// Decides on an order (D). Sent, it stands in the book, and its values are posted; refused, book
/// and posted values are as before. The screens judge it where its account and symbol are known and
/// the book takes it.
pub fn decide_new<H: Hand, M: Hand, K: Screen>(
    desk: &mut Desk<'_, H, M, K>,
    order: &NewOrder,
) -> Option<Refusal>
    requires room { HasRoom MOST_CALLS desk.old }
    ensures later { IsLater H.SameOrigin M.SameOrigin desk.old desk.new MOST_CALLS }
    ensures decides { Decides
        (new_screened desk.old.limits order.now (map K.meaning desk.old.screens))
        desk.old.hands.acts desk.new.hands.acts desk.old.book.value desk.new.book.value result }
    ensures screens { map K.meaning desk.new.screens
        ≡ screens_after (map K.meaning desk.old.screens)
        (new_offer desk.old.limits order.now desk.old.book.value) }
{
    let limits = desk.limits;
    let offer = match offer_new(&desk.book, limits, order) {
        Ok(offer) => offer,
        Err(why) => return Some(why),
    };
    match judge(&mut desk.hands, &mut desk.screens, limits, &offer) {
        None => {
            let rows = &offer.rows;
            desk.book
                .commit_new(order, rows.account, rows.symbol, offer.seen.high);
            None
        }
        Some(why) => Some(why),
    }
}

/// Decides on a cancel (F). Sent, it is pending on its order; refused, the book is as before. No
/// tree is asked.
pub fn decide_cancel<H: Hand, M: Hand, K: Screen>(
    desk: &mut Desk<'_, H, M, K>,
    request: &Cancel,
) -> Option<Refusal>
    requires room { HasRoom 0 desk.old }
    ensures same { desk.new ≡ record desk.old { book = desk.new.book } }
    ensures decides { (before : Tape) → cancel_decided request.now desk.old.book.value before
        ≡ record { refusal = result; tape = before; book = desk.new.book.value } }
{
    match desk.book.propose_cancel(request) {
        Ok(()) => {
            desk.book.commit_cancel(request);
            None
        }
        Err(fault) => Some(refusal_of(fault)),
    }
}

/// Decides on a replace (G). Sent, it is pending on its order, and its values are posted where one
/// is above what was; refused, book and posted values are as before. The screens judge it where the
/// book takes it.
pub fn decide_replace<H: Hand, M: Hand, K: Screen>(
    desk: &mut Desk<'_, H, M, K>,
    request: &Replace,
) -> Option<Refusal>
    requires room { HasRoom MOST_CALLS desk.old }
    ensures later { IsLater H.SameOrigin M.SameOrigin desk.old desk.new MOST_CALLS }
    ensures decides { Decides
        (replace_screened desk.old.limits request.now (map K.meaning desk.old.screens))
        desk.old.hands.acts desk.new.hands.acts desk.old.book.value desk.new.book.value result }
    ensures screens { map K.meaning desk.new.screens
        ≡ screens_after (map K.meaning desk.old.screens)
        (replace_offer desk.old.limits request.now desk.old.book.value) }
{
    let limits = desk.limits;
    let offer = match offer_replace(&desk.book, limits, request) {
        Ok(offer) => offer,
        Err(why) => return Some(why),
    };
    match judge(&mut desk.hands, &mut desk.screens, limits, &offer) {
        None => {
            desk.book.commit_replace(request, limits);
            None
        }
        Some(refusal) => Some(refusal),
    }
}
