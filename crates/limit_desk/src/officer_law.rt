//! Laws on officer files and on officers. The functions do nothing: their contracts are the laws.
ghost use Rattle.std.specs.Prelude.{ℕ, List};
ghost use Rattle.limit_table.specs.Trees.{LimitsValue};
ghost use Rattle.risk_journal.specs.declared.acts.End.{End};
ghost use Rattle.limit_desk.specs.declared.officer.OfficerRow.{OfficerRow};
ghost use Rattle.limit_desk.specs.OneAnswer.{IsOneAnswer};
ghost use Rattle.limit_desk.specs.Posted.{PostsTheirRows};

/// No text is both an officer file and faulty, or has two answers.
pub fn one_officer_answer_stands()
    ensures { (limits : LimitsValue) (bytes : List ℕ) → IsOneAnswer limits bytes }
{}

/// In each tree an officer posts the values of its rows there, in their order, and does nothing else.
pub fn officers_post_their_rows()
    ensures { (limits : LimitsValue) (rows : List OfficerRow) (end : End)
        → PostsTheirRows limits rows end }
{}
