//! What the orders of an account in a symbol come to.
ghost use Rattle.std.specs.Prelude.{◌≡◌, ◌+◌, ◌≤◌, ◌<◌, ◌^◌};
ghost use Rattle.exposure_book.specs.Orders.{worth_of};
ghost use Rattle.exposure_book.specs.Pairs.{all_of, exposure_of_pair, no_sums, plus, minus, Has};

use crate::order::Order;

/// What the orders of a pair of an account and a symbol come to, in ten-thousandths of a currency
/// unit, rounded nowhere.
#[derive(Clone, Copy, Debug)]
pub(crate) struct PairSums {
    /// Filled notional of its buys.
    pub bought: u128,
    /// Filled notional of its sells.
    pub sold: u128,
    /// The reserves of its buys: what is left of each, at its reserve price.
    pub to_buy: u128,
    /// The reserves of its sells.
    pub to_sell: u128,
}

impl PairSums {
    /// A pair with no order.
    pub fn none() -> PairSums
        ensures { result ≡ no_sums }
    {
        PairSums {
            bought: 0,
            sold: 0,
            to_buy: 0,
            to_sell: 0,
        }
    }

    /// Exposure in ten-thousandths. Where the account is net, what was sold offsets what the buys
    /// count for, and what was bought offsets what the sells count for; the larger counts.
    pub fn exposure(&self, net: bool) -> u128
        requires { all_of self.now < 2 ^ 127 }
        ensures value { result ≡ exposure_of_pair net self.now }
        ensures within { result ≤ all_of self.now }
    {
        let buys = self.bought + self.to_buy;
        let sells = self.sold + self.to_sell;
        if net {
            buys.saturating_sub(self.sold)
                .max(sells.saturating_sub(self.bought))
        } else {
            buys + sells
        }
    }

    /// The sums with one order more.
    pub fn with(&self, order: &Order) -> PairSums
        requires { all_of self.now + worth_of order.now < 2 ^ 127 }
        ensures { result ≡ plus order.now self.now }
    {
        if order.is_buy() {
            return PairSums {
                bought: self.bought + order.notional,
                to_buy: self.to_buy + order.left(),
                ..*self
            };
        }
        PairSums {
            sold: self.sold + order.notional,
            to_sell: self.to_sell + order.left(),
            ..*self
        }
    }

    /// The sums with one of their orders less.
    pub fn without(&self, order: &Order) -> PairSums
        requires { Has order.now self.now }
        ensures { result ≡ minus order.now self.now }
    {
        if order.is_buy() {
            return PairSums {
                bought: self.bought - order.notional,
                to_buy: self.to_buy - order.left(),
                ..*self
            };
        }
        PairSums {
            sold: self.sold - order.notional,
            to_sell: self.to_sell - order.left(),
            ..*self
        }
    }
}
