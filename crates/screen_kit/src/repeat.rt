//! The screen for repeated orders.
ghost use Rattle.std.specs.Prelude.{◌≡◌, [], ◌∷◌, ◌++◌, if◌then◌else◌};
ghost use Rattle.std.specs.List.{list_any};
ghost use Rattle.circular_buffer.specs.Buffer.{buffer, keep_last};
ghost use Rattle.screen_kit.specs.Repeat.{repeat_screen, kept_in, is_same};

use crate::order::{Order, Terms};
use crate::screen::Screen;
use circular_buffer::HeapCircularBuffer;
use fold_law::Memory;
use std::alloc::Global;

/// The code of an order that repeats another.
const REPEATED: u16 = 3;

/// `repeat`: refuses with 3 where one of the last `repeat` orders that it judged has the same
/// account, symbol, side, kind, quantity and price.
#[derive(Drop)]
pub struct RepeatScreen {
    alloc: Global,
    /// The last orders judged, oldest first: none before the screen is armed.
    window: Option<HeapCircularBuffer<Order>>,
}

impl RepeatScreen {
    /// Takes no memory. Before it is armed the screen lets every order pass.
    pub fn new(alloc: Global) -> Self
        ensures { ⟦<RepeatScreen as Screen>⟧.meaning result ≡ repeat_screen [] }
    {
        RepeatScreen {
            alloc,
            window: None,
        }
    }
}

impl Screen for RepeatScreen {
    ghost meaning = { λ screen. repeat_screen (kept_in screen.window) };

    fn name(&self) -> &str {
        "repeat"
    }

    fn arm(&mut self, terms: &Terms) -> Result<(), Memory> {
        match HeapCircularBuffer::with_capacity(self.alloc, terms.repeat as usize) {
            Ok(window) => {
                self.window = Some(window);
                Ok(())
            }
            Err(_) => Err(Memory),
        }
    }

    fn judge(&mut self, order: &Order) -> u16 {
        match &mut self.window {
            Some(window) => judge_in(window, order),
            None => 0,
        }
    }
}

/// The code of an order by the window of those before it, which it joins.
fn judge_in(window: &mut HeapCircularBuffer<Order>, order: &Order) -> u16
    ensures code { let repeated = list_any (λ kept. is_same order.now kept) window.old.items in
        result ≡ (if repeated then 3 else 0) }
    ensures joined { let most = window.old.capacity in
        window.new ≡ buffer (keep_last most (window.old.items ++ order.now ∷ [])) most }
{
    let repeated = has_same(window, order);
    window.push_back(*order);
    if repeated { REPEATED } else { 0 }
}

/// Whether one of these orders is the same.
fn has_same(window: &HeapCircularBuffer<Order>, order: &Order) -> bool
    ensures { result ≡ list_any (λ kept. is_same order.now kept) window.now.items }
{
    window.iter().any(|kept| order.is_same(kept))
}
