//! The screen for an order's size.
ghost use Rattle.std.specs.Prelude.{◌≡◌};
ghost use Rattle.screen_kit.specs.Size.{size_screen};

use crate::order::{Order, Terms};
use crate::screen::Screen;
use fold_law::Memory;
use std::alloc::Global;

/// The code of an order that is too large.
const TOO_LARGE: u16 = 1;

/// `size`: refuses with 1 where the quantity is above the size of the order's symbol.
#[derive(Drop)]
pub struct SizeScreen;

impl SizeScreen {
    /// Takes no memory.
    pub fn new(_alloc: Global) -> Self
        ensures { ⟦<SizeScreen as Screen>⟧.meaning result ≡ size_screen }
    {
        SizeScreen
    }
}

impl Screen for SizeScreen {
    ghost meaning = { λ _. size_screen };

    fn name(&self) -> &str {
        "size"
    }

    fn arm(&mut self, _terms: &Terms) -> Result<(), Memory> {
        Ok(())
    }

    fn judge(&mut self, order: &Order) -> u16 {
        if order.quantity > order.size {
            TOO_LARGE
        } else {
            0
        }
    }
}
