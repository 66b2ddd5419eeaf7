//! Screens of a firm's own, which tests hand in.
ghost use Rattle.std.specs.Prelude.{◌+◌, [], ◌∷◌, codes, nat_lt, slice_index, if◌then◌else◌};

use screen_kit::{Memory, Order, Screen, Terms};
use std::alloc::Global;
use std::sync::Arc;
use std::sync::atomic::{AtomicU64, Ordering};

/// `first_two`: refuses with 100 every order after the first two that it judged, and counts its
/// drop.
pub(crate) struct FirstTwo {
    pub passed: u32,
    pub drops: Arc<AtomicU64, Global>,
}

impl Drop for FirstTwo {
    fn drop(self) {
        let FirstTwo { passed: _, drops } = self;
        drops.fetch_add(1, Ordering::SeqCst);
    }
}

impl Screen for FirstTwo {
    ghost meaning = { λ screen. record {
      name = codes "first_two";
      kept = screen.passed ∷ [];
      opening = λ _. 0 ∷ [];
      code = λ kept _. (if nat_lt (slice_index kept 0) 2 then 0 else 100);
      next = λ kept _. (if nat_lt (slice_index kept 0) 2 then slice_index kept 0 + 1
          else slice_index kept 0) ∷ [];
    } };

    fn name(&self) -> &str {
        "first_two"
    }

    fn arm(&mut self, _terms: &Terms) -> Result<(), Memory> {
        self.passed = 0;
        Ok(())
    }

    fn judge(&mut self, _order: &Order) -> u16 {
        if self.passed < 2 {
            self.passed += 1;
            0
        } else {
            100
        }
    }
}

/// `refusing`: refuses every order with the largest code.
#[derive(Drop)]
pub(crate) struct Refusing;

impl Screen for Refusing {
    ghost meaning = { λ _. record {
      name = codes "refusing";
      kept = [];
      opening = λ _. [];
      code = λ _ _. 65535;
      next = λ kept _. kept;
    } };

    fn name(&self) -> &str {
        "refusing"
    }

    fn arm(&mut self, _terms: &Terms) -> Result<(), Memory> {
        Ok(())
    }

    fn judge(&mut self, _order: &Order) -> u16 {
        65_535
    }
}
