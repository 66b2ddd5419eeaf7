//! What comes of a filter whose sessions have ended.
ghost use Rattle.std.specs.Prelude.{◌≡◌, ◌⊎◌, IfOk};
ghost use Rattle.risk_journal.specs.TotalsText.{status_line};
ghost use Rattle.gate_files.specs.Statuses.{answer_number, answer_text};
ghost use Rattle.cross_command.specs.Finish.{HasAnswer};

use fold_law::Memory;
use gate_files::{Answer, Status, standing};
use risk_journal::{Totals, write_totals};
use session_tasks::Kept;
use std::alloc::Global;

/// The line of a status: totals without a session or a tree.
fn status_text(alloc: Global, status: u8) -> Result<Vec<u8>, Memory>
    ensures { IfOk result (λ text. text.items ≡ status_line status) }
{
    let totals = Totals {
        sessions: Vec::new(alloc),
        trees: Vec::new(alloc),
        status,
    };
    write_totals(alloc, &totals)
}

/// What comes of sessions that were closed: the status by their ends and their journal.
pub(crate) fn answer_after(alloc: Global, kept: &Kept) -> Answer
    ensures { (answer_number result ≡ 8)
        ⊎ HasAnswer kept.now.ends.items kept.now.refused (answer_text result)
        (answer_number result) }
{
    let status = standing(&kept.ends, kept.refused);
    if let Status::Memory = status {
        return Answer::Stopped(Status::Memory);
    }
    match status_text(alloc, status.number()) {
        Ok(text) => Answer::Ended(status, text),
        Err(Memory) => Answer::Stopped(Status::Memory),
    }
}
