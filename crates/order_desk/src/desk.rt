//! What a session decides with.
ghost use Rattle.std.specs.Prelude.{◌≡◌, ◌≤◌, ◌++◌, [], ◌∷◌, map, OnOk};
ghost use Rattle.risk_journal.specs.ActLists.{posts_in, calls_below, calls_at};
ghost use Rattle.admit_core.specs.Tapes.{IsNoCall, with_post};
ghost use Rattle.order_desk.specs.Desks.{HasRoom, IsDesk, IsLater};
ghost use Rattle.order_desk.specs.Dropping.{screens_left};

use crate::dropping::drop_by_rows;
use admit_core::{Ended, Hands, trip};
use exposure_book::Book;
use fold_law::Memory;
use limit_table::Limits;
use risk_board::Hand;
use risk_journal::{Act, End};
use screen_kit::Screen;
use std::marker::Model;

/// The limits of a session, its hands with what they did, the book of its orders, and its screens. What
/// is posted always covers the orders of the book.
#[derive(Drop)]
pub struct Desk<'a, H: Hand, M: Hand, K: Screen> {
    pub(crate) limits: &'a Limits,
    pub(crate) hands: Hands<H, M>,
    pub(crate) book: Book,
    pub(crate) screens: Vec<K>,
}

impl<'a, H: Hand, M: Hand, K: Screen> Model for Desk<'a, H, M, K> {
    ghost use Rattle.order_desk.specs.Desks.{DeskValue, IsDesk};

    ghost Value = { DeskValue H M K };

    ghost view = { λ a. record {
      limits = a.limits.now;
      hands = a.hands;
      book = a.book;
      screens = a.screens.items;
    } };

    ghost invariant = { λ a. IsDesk a.limits.now a.hands a.book.value };
}

impl<'a, H: Hand, M: Hand, K: Screen> Desk<'a, H, M, K> {
    /// A desk of these parts.
    pub fn open(
        limits: &'a Limits,
        hands: Hands<H, M>,
        book: Book,
        screens: Vec<K>,
    ) -> Desk<'a, H, M, K>
        requires desk { IsDesk limits.now hands book.value }
        ensures { result ≡ record {
          limits = limits.now;
          hands = hands;
          book = book;
          screens = screens.items;
        } }
    {
        Desk {
            limits,
            hands,
            book,
            screens,
        }
    }

    /// The limits.
    pub fn limits(&self) -> &'a Limits
        ensures { result.now ≡ self.now.limits }
    {
        self.limits
    }

    /// The hands are over the trees of the limits, and what is posted covers the orders of the book.
    /// This does nothing: it tells a caller so.
    pub fn is_covered(&self)
        ensures { IsDesk self.now.limits self.now.hands self.now.book.value }
    {
        let _hands = &self.hands;
    }

    /// Takes room for so many acts, one order and one id. Refused, nothing else changes; room may have
    /// grown in part.
    pub fn reserve(&mut self, acts: u32) -> Result<(), Memory>
        requires { acts ≤ 1000 }
        ensures later { IsLater H.SameOrigin M.SameOrigin self.old self.new 0 }
        ensures acts { self.new.hands.acts ≡ self.old.hands.acts }
        ensures book { self.new.book.value ≡ self.old.book.value }
        ensures screens { self.new.screens ≡ self.old.screens }
        ensures ok { OnOk result (HasRoom acts self.new) }
    {
        self.hands.reserve(acts)?;
        self.book.reserve_one()
    }

    /// Drops the screens that the limits drop as this order, whose number counts from 0, is taken up.
    /// Takes no memory.
    pub fn drop_screens(&mut self, order: u32)
        ensures same { self.new ≡ record self.old { screens = self.new.screens } }
        ensures screens { map K.meaning self.new.screens
            ≡ screens_left self.old.limits order (map K.meaning self.old.screens) }
    {
        let limits: &Limits = self.limits;
        drop_by_rows(&mut self.screens, limits.off.rows(), order);
    }

    /// Trips the halt tree, where the session hasn't yet.
    pub fn trip(&mut self)
        requires untripped { posts_in self.old.hands.halt_tree self.old.hands.acts ≡ 0 }
        requires room { 1 ≤ self.old.hands.room }
        ensures later { IsLater H.SameOrigin M.SameOrigin self.old self.new 1 }
        ensures same { self.new ≡ record self.old { hands = self.new.hands } }
        ensures acts { self.new.hands.acts
            ≡ with_post self.old.hands.halt_tree 1 self.old.hands.acts }
    {
        trip(&mut self.hands);
    }

    /// Tells an act that is no call.
    pub fn tell(&mut self, act: Act)
        requires no_call { IsNoCall act }
        requires room { 1 ≤ self.old.hands.room }
        ensures later { IsLater H.SameOrigin M.SameOrigin self.old self.new 1 }
        ensures same { self.new ≡ record self.old { hands = self.new.hands } }
        ensures acts { self.new.hands.acts ≡ self.old.hands.acts ++ act ∷ [] }
    {
        self.hands.tell(act);
    }

    /// The hands and the acts at last, with the one that ends the session.
    pub fn end(self, end: End) -> Ended<H, M>
        ensures acts { result.acts.items ≡ self.entry.hands.acts ++ Act.Ended end ∷ [] }
        ensures sum { result.sum ≡ self.entry.hands.sum }
        ensures halt { result.halt ≡ self.entry.hands.halt }
        ensures sum_calls { (H.meaning result.sum).calls
            ≡ calls_below self.entry.hands.halt_tree result.acts.items }
        ensures halt_calls { (M.meaning result.halt).calls
            ≡ calls_at self.entry.hands.halt_tree result.acts.items }
    {
        self.hands.end(end)
    }
}
