//! The screen for a limit order's price.
ghost use Rattle.std.specs.Prelude.{◌≡◌};
ghost use Rattle.screen_kit.specs.Collar.{collar_screen};

use crate::order::{Order, Terms};
use crate::screen::Screen;
use fix_orders::OrderKind;
use fold_law::Memory;
use std::alloc::Global;

/// The code of a limit price outside its collar.
const OUTSIDE: u16 = 2;

/// `collar`: refuses with 2 where a limit price is below the least or above the largest price of
/// the order's symbol.
#[derive(Drop)]
pub struct CollarScreen;

impl CollarScreen {
    /// Takes no memory.
    pub fn new(_alloc: Global) -> Self
        ensures { ⟦<CollarScreen as Screen>⟧.meaning result ≡ collar_screen }
    {
        CollarScreen
    }
}

impl Screen for CollarScreen {
    ghost meaning = { λ _. collar_screen };

    fn name(&self) -> &str {
        "collar"
    }

    fn arm(&mut self, _terms: &Terms) -> Result<(), Memory> {
        Ok(())
    }

    fn judge(&mut self, order: &Order) -> u16 {
        match order.kind {
            OrderKind::Limit if order.price < order.low || order.price > order.high => OUTSIDE,
            OrderKind::Limit | OrderKind::Market => 0,
        }
    }
}
