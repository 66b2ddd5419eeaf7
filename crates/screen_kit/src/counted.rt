//! A screen that counts how often it is dropped.
ghost use Rattle.std.specs.Prelude.{[], codes};

use crate::{Memory, Order, Screen, Terms};
use std::alloc::Global;
use std::sync::Arc;
use std::sync::atomic::{AtomicU64, Ordering};

/// `counted`: refuses every order with its code, and adds its weight to the drops at its drop.
pub struct Counted {
    pub code: u16,
    pub weight: u64,
    pub drops: Arc<AtomicU64, Global>,
}

impl Drop for Counted {
    fn drop(self) {
        let Counted {
            code: _,
            weight,
            drops,
        } = self;
        drops.fetch_add(weight, Ordering::SeqCst);
    }
}

impl Screen for Counted {
    ghost meaning = { λ screen. record {
      name = codes "counted";
      kept = [];
      opening = λ _. [];
      code = λ _ _. screen.code;
      next = λ kept _. kept;
    } };

    fn name(&self) -> &str {
        "counted"
    }

    fn arm(&mut self, _terms: &Terms) -> Result<(), Memory> {
        Ok(())
    }

    fn judge(&mut self, _order: &Order) -> u16 {
        self.code
    }
}
