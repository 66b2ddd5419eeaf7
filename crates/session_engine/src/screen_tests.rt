//! That a session ends where a screen gets no room. What screens refuse is tested with the top call.
ghost use Rattle.std.specs.Prelude.{[], codes};

use crate::session_rows::{NEVER, ORDER, Row, compare_row};
use screen_kit::{Memory, Order, Screen, SizeScreen, Terms};
use std::test::*;

/// `no_room`: can't be armed.
#[derive(Drop)]
struct NoRoom;

impl Screen for NoRoom {
    ghost meaning = { λ _. record {
      name = codes "no_room";
      kept = [];
      opening = λ _. [];
      code = λ _ _. 0;
      next = λ kept _. kept;
    } };

    fn name(&self) -> &str {
        "no_room"
    }

    fn arm(&mut self, _terms: &Terms) -> Result<(), Memory> {
        Err(Memory)
    }

    fn judge(&mut self, _order: &Order) -> u16 {
        0
    }
}

const NOT_ARMED: Row = Row {
    name: "no frame is taken where a screen gets no room",
    input: ORDER,
    read: NEVER,
    write: NEVER,
    journal: b"kind,session,a,b,c,d\nended,0,6,,,\n",
    venue: b"",
};

#[test]
fn a_session_ends_where_a_screen_gets_no_room(rt: HostRuntime) -> Result<(), Fail> {
    let alloc = rt.alloc();
    let mut screens: Vec<Box<dyn Screen + Send>> = Vec::new(alloc);
    screens.push(Box::new(alloc, SizeScreen::new(alloc))?)?;
    screens.push(Box::new(alloc, NoRoom)?)?;
    compare_row(&rt, alloc, &NOT_ARMED, screens)
}
