//! Laws on clear values. The functions do nothing: their contracts are the laws.
ghost use Rattle.std.specs.Prelude.{◌≡◌, ℕ, List, length, true, Option};
ghost use Rattle.fix_fields.specs.Fields.{FieldValue};
ghost use Rattle.fold_law.specs.Whole.{whole_of};
ghost use Rattle.limit_table.specs.Trees.{LimitsValue};
ghost use Rattle.risk_journal.specs.ActLists.{SeenAt};
ghost use Rattle.cross_guard.specs.Covering.{Covers};
ghost use Rattle.cross_guard.specs.Session.{CrossSession, opening, after_frame};
ghost use Rattle.risk_board.specs.History.{Event, IsLegal};
ghost use Rattle.risk_board.specs.declared.hand.Line.{Line as LineValue};
ghost use Rattle.limit_table.specs.declared.kind.SymbolRow.{SymbolRow as RowValue};
ghost use Rattle.cross_guard.specs.Halves.{cross_join, is_clear};
ghost use Rattle.cross_guard.specs.Laws.{PricedOrder, AreOpposed, AreApart, IsCovered, NeverCross};
ghost use Rattle.cross_guard.specs.Standings.{AdmitsOwn, StaysClear};

/// Of two orders of one symbol that a clear value covers, a buy and a sell, neither is a market order,
/// and the buy's price is below the sell's. So it is of any prices, within the collars or not.
pub fn clear_keeps_orders_apart()
    ensures { (row : RowValue) (value : ℕ) (buy sell : PricedOrder) → AreOpposed row buy sell
        → is_clear value ≡ true → IsCovered row buy value → IsCovered row sell value
        → AreApart buy sell }
{}

/// In a legal history of this fold, what any number of sessions have admitted is clear at each place.
pub fn admitted_stays_clear()
    ensures { (components : ℕ) (lines : List LineValue) (events : List (List Event))
        → IsLegal (whole_of cross_join 0) 0 components lines events
        → StaysClear (length events) lines events }
{}

/// In a legal history of this fold no buy that any session has admitted crosses a sell that any has
/// admitted, at each place: neither is a market order, and the buy's price is below the sell's.
pub fn admitted_orders_never_cross()
    ensures { (components : ℕ) (lines : List LineValue) (events : List (List Event))
        → IsLegal (whole_of cross_join 0) 0 components lines events → NeverCross lines events }
{}

/// Before the first frame, and after each, what the orders of a session rest as is admitted in each
/// symbol, whatever its frames and its reads are.
pub fn resting_orders_are_covered()
    ensures first { (reads : List SeenAt) → Covers (opening reads) }
    ensures next { (limits : LimitsValue) (text : List ℕ) (fields : Option (List FieldValue))
        (session : CrossSession) → Covers session
        → Covers (after_frame limits text fields session) }
{}

/// In a legal history each session stands at each place as a front of its own posts and reads leaves it,
/// and at the end as all of them do.
pub fn a_history_admits_what_sessions_do()
    ensures { (whole : List ℕ → ℕ) (unit components : ℕ) (lines : List LineValue)
        (events : List (List Event)) → IsLegal whole unit components lines events
        → AdmitsOwn lines events }
{}
