//! A set of screens: armed, asked in order, and a screen taken out by its name. The screens are of
//! one kind, and boxed ones of any.
ghost use Rattle.std.specs.Prelude.{◌≡◌, map, IsTrue, ◌↔◌, OnOk};
ghost use Rattle.std.specs.Bool.{OnTrue};
ghost use Rattle.std.specs.List.{AllZip};
ghost use Rattle.screen_kit.specs.Screens.{IsSameScreen, armed};
ghost use Rattle.screen_kit.specs.Sets.{first_code, after_asking, HasName, LosesFirst, without_first};

use crate::order::{Order, Terms};
use crate::screen::Screen;
use fold_law::Memory;

/// Arms each screen, in order. After `Memory` each has its name and rules still, and none is to be
/// used.
pub fn arm_all<S: Screen>(screens: &mut Vec<S>, terms: &Terms) -> Result<(), Memory>
    ensures ok { OnOk result (map S.meaning screens.new.items
        ≡ map (armed terms.now) (map S.meaning screens.old.items)) }
    ensures same { AllZip IsSameScreen
        (map S.meaning screens.old.items) (map S.meaning screens.new.items) }
{
    for i in 0..screens.len() {
        screens[i].arm(terms)?;
    }
    Ok(())
}

/// The first code other than 0, asked in order; 0 where every screen lets the order pass. Each
/// screen after the one that refuses is as before.
pub fn ask<S: Screen>(screens: &mut Vec<S>, order: &Order) -> u16
    ensures code { result ≡ first_code order.now (map S.meaning screens.old.items) }
    ensures after { map S.meaning screens.new.items
        ≡ after_asking order.now (map S.meaning screens.old.items) }
{
    for i in 0..screens.len() {
        let code = screens[i].judge(order);
        if code != 0 {
            return code;
        }
    }
    0
}

/// Drops the first screen of that name, and keeps the others in their order. True exactly where it
/// dropped one.
pub fn retire<S: Screen>(screens: &mut Vec<S>, name: &str) -> bool
    ensures found { IsTrue result ↔ HasName name.now (map S.meaning screens.old.items) }
    ensures after { map S.meaning screens.new.items
        ≡ without_first name.now (map S.meaning screens.old.items) }
    ensures dropped { OnTrue result (LosesFirst name.now
        (map S.meaning screens.old.items) (map S.meaning screens.new.items)) }
{
    for i in 0..screens.len() {
        if has_name(&screens[i], name) {
            let _dropped = screens.remove(i);
            return true;
        }
    }
    false
}

/// Whether the screen has this name.
fn has_name<S: Screen>(screen: &S, name: &str) -> bool
    ensures { IsTrue result ↔ ((S.meaning screen.now).name ≡ name.now) }
{
    screen.name() == name
}
