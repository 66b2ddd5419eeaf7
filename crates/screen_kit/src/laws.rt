//! Laws on screens. The functions do nothing: their contracts are the laws.
ghost use Rattle.std.specs.Prelude.{List};
ghost use Rattle.screen_kit.specs.declared.order.Order.{Order};
ghost use Rattle.screen_kit.specs.declared.order.Terms.{Terms};
ghost use Rattle.screen_kit.specs.Laws.{CodeIsFold, LaterJudgeWhatPassed, TellsRepeats};

/// A screen's code for an order is told by the fold of the orders that it judged since it was
/// armed, from its opening state.
pub fn code_is_a_fold()
    ensures { CodeIsFold }
{}

/// In a set that is asked for one order after another, the first screen judges each of them, and
/// those after it the ones that it lets pass.
pub fn later_screens_judge_what_passed()
    ensures { LaterJudgeWhatPassed }
{}

/// The screen for repeats gives 3 exactly where one of the last `repeat` orders that it judged
/// since it was armed is the same, and otherwise 0.
pub fn repeats_are_of_the_last_orders()
    ensures { (terms : Terms) (orders : List Order) (order : Order)
        → TellsRepeats terms orders order }
{}
