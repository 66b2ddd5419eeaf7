//! Screens are dropped by the rows of a limit file, as the order with a row's number is taken up.
ghost use Rattle.std.specs.Prelude.{◌≡◌, ◌≢◌, ℕ, List, map, All};
ghost use Rattle.limit_table.specs.Trees.{LimitsValue};
ghost use Rattle.screen_kit.specs.Screens.{ScreenValue};
ghost use Rattle.screen_kit.specs.Sets.{HasName};
ghost use Rattle.order_desk.specs.Dropping.{after_row, after_rows, screens_left};

use fix_fields::Id;
use limit_table::OffRow;
use screen_kit::{Screen, retire};

/// The text of a name, whose bytes are all of 32 to 126.
fn text_of(name: &Id) -> &str
    ensures { result.now ≡ name.now }
{
    match std::str::from_utf8(name.bytes()) {
        Ok(text) => text,
        Err(_) => unreachable!(),
    }
}

/// Drops the first screen of the row's name, where the order has the row's number.
fn drop_by_row<K: Screen>(screens: &mut Vec<K>, row: &OffRow, order: u32)
    ensures { map K.meaning screens.new.items
        ≡ after_row order row.now (map K.meaning screens.old.items) }
{
    if row.from == order {
        let _dropped = retire(screens, text_of(&row.name));
    }
}

/// Drops the screens of the rows with this order's number, in the order of the rows. Takes no memory.
pub(crate) fn drop_by_rows<K: Screen>(screens: &mut Vec<K>, rows: &[OffRow], order: u32)
    ensures { map K.meaning screens.new.items
        ≡ after_rows order rows.now (map K.meaning screens.old.items) }
{
    for row in rows {
        drop_by_row(screens, row, order);
    }
}

/// Rows of other orders drop nothing, nor do rows with names that no screen has. This does nothing: its
/// contract is the law.
pub fn only_its_own_rows_drop_screens()
    ensures others { (limits : LimitsValue) (order : ℕ) (screens : List ScreenValue)
        → All (λ row. row.from ≢ order) limits.off → screens_left limits order screens ≡ screens }
    ensures absent { (limits : LimitsValue) (order : ℕ) (screens : List ScreenValue)
        → All (λ row. ¬ HasName row.name screens) limits.off
        → screens_left limits order screens ≡ screens }
{}
