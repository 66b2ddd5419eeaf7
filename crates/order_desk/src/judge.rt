//! What the screens and the trees say to what is offered.
ghost use Rattle.std.specs.Prelude.{◌≡◌, ◌≤◌, map};
ghost use Rattle.screen_kit.specs.Sets.{after_asking};
ghost use Rattle.admit_core.specs.declared.ask.TheConstants.{MOST_CALLS};
ghost use Rattle.admit_core.specs.Hands.{IsOver, IsAfter};
ghost use Rattle.order_desk.specs.Decisions.{Judges, judged, tree_decided};
ghost use Rattle.order_desk.specs.Offers.{IsSoundFor};

use crate::offer::Offer;
use crate::refusal::{Refusal, refusal_by, refusal_by_code};
use crate::values::values_of;
use admit_core::{Hands, is_above_last};
use limit_table::Limits;
use risk_board::Hand;
use screen_kit::Screen;

/// Asks the trees about an offer, where it is always asked about and else where one of its values is
/// above what was last posted. None where they take the values, and where they aren't asked.
fn ask_trees<H: Hand, M: Hand>(
    hands: &mut Hands<H, M>,
    limits: &Limits,
    offer: &Offer,
) -> Option<Refusal>
    requires over { IsOver limits.now hands.old }
    requires sound { IsSoundFor limits.now offer.now }
    requires room { MOST_CALLS ≤ hands.old.room }
    ensures after { IsAfter H.SameOrigin M.SameOrigin hands.old hands.new MOST_CALLS }
    ensures decides { Judges (tree_decided limits.now offer.now)
        hands.old.acts hands.new.acts result }
{
    let values = values_of(&offer.values);
    let above = is_above_last(hands, limits, &offer.rows, &values);
    if offer.always || above {
        refusal_by(admit_core::ask_all(hands, limits, &offer.rows, &values))
    } else {
        None
    }
}

/// Asks the screens about an offer, and where each lets it pass the trees. None where nothing refuses
/// it.
pub(crate) fn judge<H: Hand, M: Hand, K: Screen>(
    hands: &mut Hands<H, M>,
    screens: &mut Vec<K>,
    limits: &Limits,
    offer: &Offer,
) -> Option<Refusal>
    requires over { IsOver limits.now hands.old }
    requires sound { IsSoundFor limits.now offer.now }
    requires room { MOST_CALLS ≤ hands.old.room }
    ensures after { IsAfter H.SameOrigin M.SameOrigin hands.old hands.new MOST_CALLS }
    ensures decides { Judges (judged limits.now (map K.meaning screens.old.items) offer.now)
        hands.old.acts hands.new.acts result }
    ensures screens { map K.meaning screens.new.items
        ≡ after_asking offer.now.seen (map K.meaning screens.old.items) }
{
    match refusal_by_code(screen_kit::ask(screens, &offer.seen)) {
        Some(why) => Some(why),
        None => ask_trees(hands, limits, offer),
    }
}
