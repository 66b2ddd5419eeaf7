//! Laws on the halt tree. The functions do nothing: their contracts are the laws.
ghost use Rattle.std.specs.Prelude.{ℕ, List};
ghost use Rattle.fix_orders.specs.declared.message.Cancel.{Cancel};
ghost use Rattle.fix_orders.specs.declared.message.CancelReject.{CancelReject};
ghost use Rattle.fix_orders.specs.declared.message.NewOrder.{NewOrder};
ghost use Rattle.fix_orders.specs.declared.message.Replace.{Replace};
ghost use Rattle.fix_orders.specs.declared.message.Report.{Report};
ghost use Rattle.exposure_book.specs.Books.{BookValue};
ghost use Rattle.risk_journal.specs.declared.acts.Act.{Act};
ghost use Rattle.admit_core.specs.Tapes.{Tape, with_post};
ghost use Rattle.limit_table.specs.Trees.{LimitsValue, halt_tree};
ghost use Rattle.order_desk.specs.Backing.{Covers};
ghost use Rattle.order_desk.specs.Decisions.{new_decided, cancel_decided, replace_decided};
ghost use Rattle.order_desk.specs.Halting.{KeepsHalt};
ghost use Rattle.order_desk.specs.Reported.{report_settled, reject_settled};

/// A post in the halt tree keeps the book's orders covered.
pub fn tripping_keeps_cover()
    ensures { (limits : LimitsValue) (value : ℕ) (acts : List Act) (book : BookValue)
        → Covers limits acts book → Covers limits (with_post (halt_tree limits) value acts) book }
{}

/// What is decided on an order, a cancel or a replace of a covered book posts nothing in the halt
/// tree.
pub fn decisions_keep_halt()
    ensures new { (limits : LimitsValue) (order : NewOrder) (book : BookValue) (before : Tape)
        → KeepsHalt limits before.acts (new_decided limits order book before).tape.acts }
    ensures cancel { (limits : LimitsValue) (request : Cancel) (book : BookValue) (before : Tape)
        → KeepsHalt limits before.acts (cancel_decided request book before).tape.acts }
    ensures replace { (limits : LimitsValue) (request : Replace) (book : BookValue) (before : Tape)
        → Covers limits before.acts book
        → KeepsHalt limits before.acts (replace_decided limits request book before).tape.acts }
{}

/// What a report or a cancel reject on a covered book comes to posts nothing in the halt tree.
pub fn reports_keep_halt()
    ensures report { (limits : LimitsValue) (report : Report) (book : BookValue) (acts : List Act)
        → Covers limits acts book
        → KeepsHalt limits acts (report_settled limits report book acts).acts }
    ensures reject { (limits : LimitsValue) (reject : CancelReject) (book : BookValue)
        (acts : List Act)
        → Covers limits acts book
        → KeepsHalt limits acts (reject_settled limits reject book acts).acts }
{}
