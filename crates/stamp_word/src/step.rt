//! Single steps on one word of a table, each counted twice: by its seat, and by the counter that is
//! handed in.
//!
//! The step is named by a type `M`, which says what the seat is told. A step asks what the table
//! asks: that, whatever the words and the views are, the step keeps the table's rule.
ghost use Rattle.std.specs.Prelude.{◌≡◌, ◌≢◌, ◌+◌, ◌<◌, OnOk, OnErr, MatchResult};
ghost use Rattle.stamp_word.specs.Stepping.{
  loading,
  storing,
  exchanging,
  MayLoad,
  MayStore,
  MayExchange,
};

use crate::counted::{CountedSeat, CountedTable, Once};
use crate::steps::Steps;
use atomic_table::{Play, TableRule};
use std::sync::ledger::Ledger;

/// The word at a place, by one load.
pub fn load<V, K, R: TableRule<(), V, K>, M: Play<(), V>, L: Ledger>(
    table: &CountedTable<V, K, R>,
    seat: &mut CountedSeat<V>,
    place: u32,
    steps: &mut Steps<L>,
) -> u64
    requires seat { seat.old.table_id ≡ table.now.table_id }
    requires place { place < table.now.table_id.words }
    requires allowed { let slots = table.now.table_id.slots in
        MayLoad (R.holds table.now.key) M.then slots seat.old.id seat.old.me place }
    ensures seat { (seat.new.table_id ≡ seat.old.table_id) × (seat.new.id ≡ seat.old.id) }
    ensures told { let step = loading table.now.table_id.slots place in
        M.then step seat.old.me result seat.new.me }
    ensures own_step { seat.new.steps ≡ seat.old.steps + 1 }
    ensures one_step { steps.new ≡ steps.old + 1 }
{
    steps.tick();
    table
        .table
        .shared
        .load::<Once<M>>(&mut seat.seat, place as usize)
}

/// Sets the word at a place, by one store.
pub fn store<V, K, R: TableRule<(), V, K>, M: Play<(), V>, L: Ledger>(
    table: &CountedTable<V, K, R>,
    seat: &mut CountedSeat<V>,
    place: u32,
    word: u64,
    steps: &mut Steps<L>,
)
    requires seat { seat.old.table_id ≡ table.now.table_id }
    requires place { place < table.now.table_id.words }
    requires allowed { let slots = table.now.table_id.slots in
        MayStore (R.holds table.now.key) M.then slots seat.old.id seat.old.me place word }
    ensures seat { (seat.new.table_id ≡ seat.old.table_id) × (seat.new.id ≡ seat.old.id) }
    ensures told { let step = storing table.now.table_id.slots place word in
        M.then step seat.old.me word seat.new.me }
    ensures own_step { seat.new.steps ≡ seat.old.steps + 1 }
    ensures one_step { steps.new ≡ steps.old + 1 }
{
    steps.tick();
    table
        .table
        .shared
        .store::<Once<M>>(&mut seat.seat, place as usize, word);
}

/// Sets the word at a place to `new` exactly where it is `old`, by one exchange; else gives the
/// word that it found.
pub fn exchange_if<V, K, R: TableRule<(), V, K>, M: Play<(), V>, L: Ledger>(
    table: &CountedTable<V, K, R>,
    seat: &mut CountedSeat<V>,
    place: u32,
    old: u64,
    new: u64,
    steps: &mut Steps<L>,
) -> Result<(), u64>
    requires seat { seat.old.table_id ≡ table.now.table_id }
    requires place { place < table.now.table_id.words }
    requires allowed { let slots = table.now.table_id.slots in
        MayExchange (R.holds table.now.key) M.then slots seat.old.id seat.old.me place old new }
    ensures seat { (seat.new.table_id ≡ seat.old.table_id) × (seat.new.id ≡ seat.old.id) }
    ensures told { let step = exchanging table.now.table_id.slots place old new in
        MatchResult result
        (λ _. M.then step seat.old.me old seat.new.me)
        (λ found. (found ≢ old) × M.then step seat.old.me found seat.new.me) }
    ensures own_step { seat.new.steps ≡ seat.old.steps + 1 }
    ensures one_step { steps.new ≡ steps.old + 1 }
{
    steps.tick();
    let found = table
        .table
        .shared
        .compare_exchange::<Once<M>>(&mut seat.seat, place as usize, old, new);
    if found == old { Ok(()) } else { Err(found) }
}
