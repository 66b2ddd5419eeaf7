//! Laws on the journal's text. Each function does nothing: its contract is the law.
ghost use Rattle.std.specs.Prelude.{◌≡◌, ℕ, List};
ghost use Rattle.risk_board.specs.declared.hand.Line.{Line};
ghost use Rattle.risk_journal.specs.JournalText.{journal_text};
ghost use Rattle.risk_journal.specs.JournalGrammar.{IsSound, IsJournal, IsFirstFault};
ghost use Rattle.risk_journal.specs.JournalGrammar.{IsWithoutEmptyEnd};
ghost use Rattle.risk_journal.specs.declared.acts.Act.{Act};

/// The text of a sound journal has no fault, and what is read of it is the same journal, the empty
/// trees at the end left off.
pub fn written_is_read()
    ensures no_fault { (acts : List (List Act)) (lines : List (List Line)) (row : ℕ)
        → IsSound acts lines → IsFirstFault (journal_text acts lines) row → ⊥ }
    ensures same { (acts : List (List Act)) (lines : List (List Line))
        (read : List (List Act)) (trees : List (List Line))
        → IsSound acts lines → IsJournal (journal_text acts lines) read trees
        → (read ≡ acts) × IsWithoutEmptyEnd lines trees }
{}

/// A text is at most one journal or has at most one first fault, and not both.
pub fn one_reading_stands()
    ensures journal { (text : List ℕ) (acts : List (List Act)) (lines : List (List Line))
        (others : List (List Act)) (trees : List (List Line))
        → IsJournal text acts lines → IsJournal text others trees
        → (acts ≡ others) × (lines ≡ trees) }
    ensures fault { (text : List ℕ) (m : ℕ) (n : ℕ)
        → IsFirstFault text m → IsFirstFault text n → m ≡ n }
    ensures either { (text : List ℕ) (acts : List (List Act)) (lines : List (List Line)) (row : ℕ)
        → IsJournal text acts lines → IsFirstFault text row → ⊥ }
{}
