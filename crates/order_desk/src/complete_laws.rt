//! Laws on what is sent: nothing is refused without its cause. The functions do nothing: their
//! contracts are the laws.
ghost use Rattle.std.specs.Prelude.{◌≡◌, ◌↔◌, List, None, IsOk, true, false};
ghost use Rattle.fix_orders.specs.declared.message.Cancel.{Cancel};
ghost use Rattle.fix_orders.specs.declared.message.NewOrder.{NewOrder};
ghost use Rattle.fix_orders.specs.declared.message.Replace.{Replace};
ghost use Rattle.exposure_book.specs.Books.{BookValue};
ghost use Rattle.exposure_book.specs.Commits.{with_cancel_pending, with_replace_pending};
ghost use Rattle.exposure_book.specs.Proposals.{proposal_of_cancel};
ghost use Rattle.exposure_book.specs.declared.answer.Proposal.{Proposal};
ghost use Rattle.screen_kit.specs.Screens.{ScreenValue};
ghost use Rattle.screen_kit.specs.Sets.{first_code};
ghost use Rattle.admit_core.specs.Asking.{is_short};
ghost use Rattle.admit_core.specs.Legs.{legs_of};
ghost use Rattle.admit_core.specs.Tapes.{Tape};
ghost use Rattle.limit_table.specs.Trees.{LimitsValue};
ghost use Rattle.admit_core.specs.declared.rows.OrderRows.{OrderRows as RowsValue};
ghost use Rattle.order_desk.specs.Decisions.{cancel_decided, is_above_last, sent_at_once};
ghost use Rattle.order_desk.specs.Decisions.{new_screened, replace_screened};
ghost use Rattle.order_desk.specs.Offers.{new_seen, replace_seen};
ghost use Rattle.order_desk.specs.Sending.{ProposesNew, ProposesReplace, RootsAllow};
ghost use Rattle.order_desk.specs.Values.{values_of};

/// An order that the book proposes and no screen refuses, and for which two posts are left in each
/// of its trees, is sent exactly where the roots allow it; and so is a replace with a value above
/// what was last posted.
pub fn an_order_is_sent_exactly_within_limits()
    ensures new { (limits : LimitsValue) (order : NewOrder) (rows : RowsValue) (values : Proposal)
        (screens : List ScreenValue) (book : BookValue) (before : Tape)
        → ProposesNew limits order rows values book
        → first_code (new_seen limits order rows) screens ≡ 0
        → is_short limits before.acts (legs_of limits rows before.acts (values_of values)) ≡ false
        → ((new_screened limits order screens book before).refusal ≡ None)
        ↔ RootsAllow limits rows before.reads }
    ensures replace { (limits : LimitsValue) (request : Replace) (rows : RowsValue)
        (values : Proposal) (screens : List ScreenValue) (book : BookValue) (before : Tape)
        → ProposesReplace limits request rows values book
        → first_code (replace_seen limits request rows) screens ≡ 0
        → is_above_last (legs_of limits rows before.acts (values_of values)) ≡ true
        → is_short limits before.acts (legs_of limits rows before.acts (values_of values)) ≡ false
        → ((replace_screened limits request screens book before).refusal ≡ None)
        ↔ RootsAllow limits rows before.reads }
{}

/// A replace that the book proposes and no screen refuses, and none of whose values is above what
/// was last posted, is sent with no act; and so is each cancel that the book proposes.
pub fn what_raises_no_value_is_sent()
    ensures replace { (limits : LimitsValue) (request : Replace) (rows : RowsValue)
        (values : Proposal) (screens : List ScreenValue) (book : BookValue) (before : Tape)
        → ProposesReplace limits request rows values book
        → first_code (replace_seen limits request rows) screens ≡ 0
        → is_above_last (legs_of limits rows before.acts (values_of values)) ≡ false
        → replace_screened limits request screens book before
        ≡ sent_at_once (with_replace_pending request limits book) before }
    ensures cancel { (request : Cancel) (book : BookValue) (before : Tape)
        → IsOk (proposal_of_cancel book request)
        → cancel_decided request book before
        ≡ sent_at_once (with_cancel_pending request book) before }
{}
