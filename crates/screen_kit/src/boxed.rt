//! A boxed screen is a screen, so a set may hold screens of any kinds.

use crate::order::{Order, Terms};
use crate::screen::Screen;
use fold_law::Memory;

impl Screen for Box<dyn Screen + Send> {
    ghost meaning = { λ b. (Screen-box b).meaning b.value };

    fn name(&self) -> &str {
        (**self).name()
    }

    fn arm(&mut self, terms: &Terms) -> Result<(), Memory> {
        (**self).arm(terms)
    }

    fn judge(&mut self, order: &Order) -> u16 {
        (**self).judge(order)
    }
}
