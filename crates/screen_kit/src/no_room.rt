//! A screen that never gets its room.
ghost use Rattle.std.specs.Prelude.{[], codes};

use crate::{Memory, Order, Screen, Terms};

/// `no_room`: can't be armed.
#[derive(Drop)]
pub struct NoRoom;

impl Screen for NoRoom {
    ghost meaning = { λ _. record {
      name = codes "no_room";
      kept = [];
      opening = λ _. [];
      code = λ _ _. 0;
      next = λ kept _. kept;
    } };

    fn name(&self) -> &str {
        "no_room"
    }

    fn arm(&mut self, _terms: &Terms) -> Result<(), Memory> {
        Err(Memory)
    }

    fn judge(&mut self, _order: &Order) -> u16 {
        0
    }
}
