//! Laws on what stands posted and admitted for a book's orders. The functions do nothing: their
//! contracts are the laws.
ghost use Rattle.std.specs.Prelude.{◌≡◌, ℕ, List, []};
ghost use Rattle.fix_orders.specs.declared.message.Cancel.{Cancel};
ghost use Rattle.fix_orders.specs.declared.message.CancelReject.{CancelReject};
ghost use Rattle.fix_orders.specs.declared.message.NewOrder.{NewOrder};
ghost use Rattle.fix_orders.specs.declared.message.Replace.{Replace};
ghost use Rattle.fix_orders.specs.declared.message.Report.{Report};
ghost use Rattle.exposure_book.specs.Books.{BookValue};
ghost use Rattle.screen_kit.specs.Screens.{ScreenValue};
ghost use Rattle.risk_journal.specs.declared.acts.Act.{Act};
ghost use Rattle.admit_core.specs.Tapes.{Tape};
ghost use Rattle.limit_table.specs.Trees.{LimitsValue};
ghost use Rattle.order_desk.specs.Backing.{Covers};
ghost use Rattle.order_desk.specs.declared.refusal.Refusal.TheVariants.{Screen};
ghost use Rattle.order_desk.specs.Decisions.{cancel_decided, refused};
ghost use Rattle.order_desk.specs.Reported.{report_settled, reject_settled};
ghost use Rattle.order_desk.specs.Decisions.{new_screened, replace_screened};
ghost use Rattle.order_desk.specs.Values.{first_book};

/// A book with no order is covered before any post.
pub fn a_first_book_is_covered()
    ensures { (limits : LimitsValue) → Covers limits [] (first_book limits) }
{}

/// What is decided on an order, a cancel or a replace keeps the book's orders covered, whatever is
/// read and whatever the screens are.
pub fn decisions_keep_cover()
    ensures new { (limits : LimitsValue) (order : NewOrder) (screens : List ScreenValue)
        (book : BookValue) (before : Tape)
        → Covers limits before.acts book
        → Covers limits (new_screened limits order screens book before).tape.acts
        (new_screened limits order screens book before).book }
    ensures cancel { (limits : LimitsValue) (request : Cancel) (book : BookValue) (before : Tape)
        → Covers limits before.acts book
        → Covers limits (cancel_decided request book before).tape.acts
        (cancel_decided request book before).book }
    ensures replace { (limits : LimitsValue) (request : Replace) (screens : List ScreenValue)
        (book : BookValue) (before : Tape)
        → Covers limits before.acts book
        → Covers limits (replace_screened limits request screens book before).tape.acts
        (replace_screened limits request screens book before).book }
{}

/// What a screen refuses changes neither the acts nor the book, and takes no read.
pub fn a_screens_refusal_changes_nothing()
    ensures new { (limits : LimitsValue) (order : NewOrder) (screens : List ScreenValue)
        (book : BookValue) (before : Tape) (code : ℕ)
        → (new_screened limits order screens book before).refusal ≡ Some (Screen code)
        → new_screened limits order screens book before ≡ refused (Screen code) book before }
    ensures replace { (limits : LimitsValue) (request : Replace) (screens : List ScreenValue)
        (book : BookValue) (before : Tape) (code : ℕ)
        → (replace_screened limits request screens book before).refusal ≡ Some (Screen code)
        → replace_screened limits request screens book before
        ≡ refused (Screen code) book before }
{}

/// What a report or a cancel reject comes to keeps the book's orders covered.
pub fn reports_keep_cover()
    ensures report { (limits : LimitsValue) (report : Report) (book : BookValue) (acts : List Act)
        → Covers limits acts book
        → Covers limits (report_settled limits report book acts).acts
        (report_settled limits report book acts).book }
    ensures reject { (limits : LimitsValue) (reject : CancelReject) (book : BookValue)
        (acts : List Act)
        → Covers limits acts book
        → Covers limits (reject_settled limits reject book acts).acts
        (reject_settled limits reject book acts).book }
{}
