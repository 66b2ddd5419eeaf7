//! Laws on what a session's acts admit. The functions do nothing: their contracts are the laws.
ghost use Rattle.std.specs.Prelude.{◌≡◌, ℕ, ◌≤◌, ◌<◌, List, length, take, All, false};
ghost use Rattle.fold_law.specs.Sum.{sum_of};
ghost use Rattle.fold_law.specs.Whole.{whole_of};
ghost use Rattle.risk_board.specs.History.{Event, IsLegal};
ghost use Rattle.risk_board.specs.declared.hand.Line.{Line as LineValue};
ghost use Rattle.risk_journal.specs.declared.acts.Act.{Act as ActValue};
ghost use Rattle.admit_core.specs.declared.rows.OrderRows.{OrderRows as RowsValue};
ghost use Rattle.admit_core.specs.Admitted.{AdmitsLast, AdmitsOwn, StaysWithin};
ghost use Rattle.admit_core.specs.Asking.{asking, is_short};
ghost use Rattle.admit_core.specs.Legs.{legs_of};
ghost use Rattle.admit_core.specs.Lowering.{lowering};
ghost use Rattle.admit_core.specs.Slices.{Machine, KeepsSlice, admitted_together, slices_sum};
ghost use Rattle.admit_core.specs.Tapes.{Tape, with_post};
ghost use Rattle.limit_table.specs.Trees.{LimitsValue, halt_tree};

/// In a legal history of sums what any number of sessions have admitted stays within every limit.
pub fn admitted_stays_within()
    ensures { (limit components : ℕ) (lines : List LineValue) (events : List (List Event))
        → IsLegal (whole_of sum_of 0) 0 components lines events
        → StaysWithin limit (length events) lines events }
{}

/// In a legal history the steps of a session are its own posts and reads. So it stands at each
/// place as a front of them leaves it, and at the end as all of them do; what is admitted there is
/// the sum of what the sessions' own events admit.
pub fn a_history_admits_what_sessions_do()
    ensures { (whole : List ℕ → ℕ) (unit limit components : ℕ) (lines : List LineValue)
        (events : List (List Event)) → IsLegal whole unit components lines events
        → AdmitsOwn limit lines events }
{}

/// Where each last post is admitted, it is so after the trees were asked about values none of which
/// is below the last post, whatever the roots said. With too few posts left nothing is asked.
pub fn asking_admits()
    ensures { (limits : LimitsValue) (rows : RowsValue) (values : List ℕ) (before : Tape)
        → AdmitsLast limits before.acts
        → (is_short limits before.acts (legs_of limits rows before.acts values) ≡ false
        → All (λ leg. leg.old ≤ leg.new) (legs_of limits rows before.acts values))
        → AdmitsLast limits
        (asking limits (legs_of limits rows before.acts values) before).tape.acts }
{}

/// Where each last post is admitted, it is so after lower values were posted.
pub fn lowering_admits()
    ensures { (limits : LimitsValue) (rows : RowsValue) (values : List ℕ) (acts : List ActValue)
        → AdmitsLast limits acts → rows.account < length limits.accounts
        → All (λ leg. leg.new ≤ leg.old) (legs_of limits rows acts values)
        → AdmitsLast limits (lowering limits (legs_of limits rows acts values) acts).acts }
{}

/// Where each last post is admitted, it is so after a post in the halt tree, which has no limit.
pub fn tripping_admits()
    ensures { (limits : LimitsValue) (value : ℕ) (acts : List ActValue)
        → AdmitsLast limits acts → AdmitsLast limits (with_post (halt_tree limits) value acts) }
{}

/// Where any number of machines stay each within a slice of a limit, and the slices together are
/// within it, so is what they have admitted together: after each step, in whatever order their steps
/// come in time.
pub fn slices_keep_the_limit()
    ensures { (limit : ℕ) (machines : List Machine) (steps : List ℕ)
        → slices_sum machines ≤ limit → All KeepsSlice machines
        → (count : ℕ) → admitted_together (take count steps) machines ≤ limit }
{}
