//! What a screen is.
ghost use Rattle.std.specs.Prelude.{◌≡◌, ℕ, List, OnOk};

use crate::order::{Order, Terms};
use fold_law::Memory;

/// A screen. Codes below 100 are those of the screens given here; a firm's own have 100 and above.
pub trait Screen: Drop {
    ghost use Rattle.screen_kit.specs.Screens.{ScreenValue, IsSameScreen, armed, code_for, judged};

    /// What the screen is: its name, what it keeps, and its rules.
    ghost meaning: { Self → ScreenValue };

    /// The name by which the screen can be retired.
    fn name(&self) -> &str
        ensures { result.now ≡ (meaning self.now).name };

    /// Brings the screen to its opening state, and takes the room that judging needs. After
    /// `Memory` it keeps its name and rules, and is not to be used.
    fn arm(&mut self, terms: &Terms) -> Result<(), Memory>
        ensures ok { OnOk result (meaning self.new ≡ armed terms.now (meaning self.old)) }
        ensures same { IsSameScreen (meaning self.old) (meaning self.new) };

    /// The code of the order; 0 lets it pass. Takes no memory.
    fn judge(&mut self, order: &Order) -> u16
        ensures code { result ≡ code_for order.now (meaning self.old) }
        ensures next { meaning self.new ≡ judged order.now (meaning self.old) };
}
