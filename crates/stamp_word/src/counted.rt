//! Tables whose seats count their own steps. A seat's count lies in its view: it takes no bytes,
//! and only a step changes it. Neither the table within nor a seat of it is handed out, so outside
//! this crate nothing loads, stores or exchanges a word but the calls here and in `step`, each of
//! which counts its step.
ghost use Rattle.std.specs.Prelude.{◌≡◌, ◌≢◌, ℕ, suc, [], ◌∷◌, ◌+◌, ◌<◌, length, IfOk};
ghost use Rattle.std.specs.Slots.{slots_items, slots_len, IsFull};
ghost use Rattle.atomic_table.specs.Table.{State, Splits, Joins, opening, Final, Seen};

use atomic_table::{Closed, Join, Play, Seat, Split, Table, TableRule};
use std::alloc::{AllocError, Global};
use std::marker::{Model, PhantomData};

// A table's rule, with a count beside each view, of which the rule says nothing.
pub struct Counted<R> {
    rule: PhantomData<R>,
}

impl<V, K, R: TableRule<(), V, K>> TableRule<(), (V, u64), K> for Counted<R> {
    ghost use Rattle.stamp_word.specs.Counting.{uncounted};

    ghost holds = { λ key s. R.holds key (uncounted s) };

    ghost first = { λ key. (R.first key, 0) };
}

// What a step tells, and that its seat's count is one more.
pub(crate) struct Once<M> {
    play: PhantomData<M>,
}

impl<V, M: Play<(), V>> Play<(), (V, u64)> for Once<M> {
    ghost use Rattle.stamp_word.specs.Counting.{Counts};

    ghost then = { Counts M.then };
}

// A split is a step of the seat that is split; the new seat has made none.
struct Parted<M> {
    split: PhantomData<M>,
}

impl<V, M: Split<V>> Split<(V, u64)> for Parted<M> {
    ghost use Rattle.std.specs.Prelude.{suc};

    ghost left = { λ v. (M.left v.0, suc v.1) };

    ghost right = { λ v. (M.right v.0, 0) };
}

// A join is a step of the seat that takes the other in.
struct United<M> {
    join: PhantomData<M>,
}

impl<V, M: Join<V>> Join<(V, u64)> for United<M> {
    ghost use Rattle.std.specs.Prelude.{suc};

    ghost both = { λ v w. (M.both v.0 w.0, suc v.1) };

    ghost spent = { (M.spent, 0) };
}

/// A table of words under a rule, whose seats count their steps. Contracts see which table it is,
/// and what its rule was told once.
#[derive(Drop)]
pub struct CountedTable<V, K, R: TableRule<(), V, K>> {
    pub(crate) table: Table<(), (V, u64), K, Counted<R>, Global>,
}

impl<V, K, R: TableRule<(), V, K>> Model for CountedTable<V, K, R> {
    ghost use Rattle.stamp_word.specs.Counting.{TableValue};

    ghost Value = { TableValue K };

    ghost view = { λ t. record { table_id = t.table.shared.table_id; key = t.table.shared.key } };
}

/// A seat of a table, which counts the steps that it makes on the words. Contracts see its table,
/// its number, its view and its steps. It takes no bytes.
#[derive(Drop)]
pub struct CountedSeat<V> {
    pub(crate) seat: Seat<(), (V, u64)>,
}

impl<V> Model for CountedSeat<V> {
    ghost use Rattle.stamp_word.specs.Counting.{SeatValue, plain};

    ghost Value = { SeatValue V };

    ghost view = { λ s. record {
      table_id = s.seat.table_id;
      id = s.seat.id;
      me = plain s.seat.me;
      steps = s.seat.me.0.1;
    } };
}

impl<V, K, R: TableRule<(), V, K>> CountedTable<V, K, R> {
    /// A new table, and its first seat, which has made no step.
    pub fn of_words(
        alloc: Global,
        words: &[u64],
        about: &K,
    ) -> Result<(CountedTable<V, K, R>, CountedSeat<V>), AllocError>
        requires rule { R.holds about.now (opening words.now [] (R.first about.now)) }
        ensures key { IfOk result (λ new. new.0.key ≡ about.now) }
        ensures words { IfOk result (λ new. new.0.table_id.words ≡ length words.now) }
        ensures no_slots { IfOk result (λ new. new.0.table_id.slots ≡ 0) }
        ensures seat { IfOk result (λ new.
            (new.1.table_id ≡ new.0.table_id) × (new.1.id ≡ 0)) }
        ensures view { IfOk result (λ new. new.1.me ≡ (R.first about.now, [])) }
        ensures no_step { IfOk result (λ new. new.1.steps ≡ 0) }
    {
        match Table::<(), (V, u64), K, Counted<R>, Global>::of_words(alloc, words, about) {
            Ok((table, seat)) => Ok((CountedTable { table }, CountedSeat { seat })),
            Err(e) => Err(e),
        }
    }

    /// Cuts the seat's view in two, by one step. The new seat has made none.
    pub fn split_seat<M: Split<V>>(&self, seat: &mut CountedSeat<V>) -> CountedSeat<V>
        requires seat { seat.old.table_id ≡ self.now.table_id }
        requires some { 0 < self.now.table_id.words }
        requires allowed { Splits (R.holds self.now.key) seat.old.id seat.old.me.0
            (M.left seat.old.me.0) (M.right seat.old.me.0) }
        ensures seat { (seat.new.table_id ≡ seat.old.table_id) × (seat.new.id ≡ seat.old.id) }
        ensures left { seat.new.me ≡ (M.left seat.old.me.0, seat.old.me.1) }
        ensures own_step { seat.new.steps ≡ seat.old.steps + 1 }
        ensures table { result.table_id ≡ seat.old.table_id }
        ensures right { result.me ≡ (M.right seat.old.me.0, []) }
        ensures no_step { result.steps ≡ 0 }
    {
        let right = self.table.shared.split_seat::<Parted<M>>(&mut seat.seat);
        CountedSeat { seat: right }
    }

    /// Takes the other seat's view in, by one step.
    pub fn join_seat<M: Join<V>>(&self, seat: &mut CountedSeat<V>, other: CountedSeat<V>)
        requires seat { seat.old.table_id ≡ self.now.table_id }
        requires other { (other.table_id ≡ self.now.table_id) × (other.me.1 ≡ []) }
        requires some { 0 < self.now.table_id.words }
        requires allowed { Joins (R.holds self.now.key) seat.old.id seat.old.me.0 other.id
            other.me.0 (M.both seat.old.me.0 other.me.0) M.spent }
        ensures seat { (seat.new.table_id ≡ seat.old.table_id) × (seat.new.id ≡ seat.old.id) }
        ensures both { seat.new.me ≡ (M.both seat.old.me.0 other.me.0, seat.old.me.1) }
        ensures own_step { seat.new.steps ≡ seat.old.steps + 1 }
    {
        let CountedSeat { seat: done } = other;
        self.table
            .shared
            .join_seat::<United<M>>(&mut seat.seat, done);
    }

    /// The words, of a state that meets the rule, with the seat's view in it.
    pub fn close_with(self, seat: CountedSeat<V>) -> Closed<(), Global>
        requires seat { seat.table_id ≡ self.table_id }
        ensures words { (slots_len result.words ≡ self.table_id.words) × IsFull result.words }
        ensures slots { (slots_len result.slots ≡ self.table_id.slots) × IsFull result.slots }
        ensures rule { Final (Seen (R.holds self.key) seat.id seat.me.0) (slots_items result.words)
            (slots_items result.slots) }
    {
        let CountedTable { table } = self;
        let CountedSeat { seat } = seat;
        table.close_with(seat)
    }
}
