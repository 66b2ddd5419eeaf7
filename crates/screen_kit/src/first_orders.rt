//! A screen of a firm's own: it lets so many first orders pass.
ghost use Rattle.screen_kit.specs.FirstOrders.{first_orders_screen};

use crate::{Memory, Order, Screen, Terms};

/// The code of an order that is one too many. Codes below 100 are the gate's own.
const TOO_MANY: u16 = 100;

/// `first_orders`: refuses with 100 every order after the first `most` that it judged.
#[derive(Drop)]
pub struct FirstOrders {
    pub most: u32,
    pub passed: u32,
}

impl Screen for FirstOrders {
    ghost meaning = { λ screen. first_orders_screen screen.most screen.passed };

    fn name(&self) -> &str {
        "first_orders"
    }

    fn arm(&mut self, _terms: &Terms) -> Result<(), Memory> {
        self.passed = 0;
        Ok(())
    }

    fn judge(&mut self, _order: &Order) -> u16 {
        if self.passed < self.most {
            self.passed += 1;
            0
        } else {
            TOO_MANY
        }
    }
}
