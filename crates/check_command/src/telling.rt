//! What is answered to what a judge says.
ghost use Rattle.std.specs.Prelude.{◌≡◌, ◌⊎◌, ◌++◌, decimal, IfOk, OnOk};
ghost use Rattle.gate_files.specs.Statuses.{answer_number};
ghost use Rattle.check_command.specs.Verdicts.{Verdict, verdict_text, IsAnswerFor};
ghost use Rattle.check_command.specs.Verdicts.Verdict.{Lawful, Faulty};

use fold_law::Memory;
use gate_files::{Answer, Status};
use itoa::Buffer;
use journal_check::{CheckFault, Checked};
use std::alloc::Global;

/// The answer to what a judge says, with its text. Where memory is wanting for that, it says so.
pub(crate) fn answer_to(alloc: Global, said: Checked) -> Answer
    ensures { (answer_number result ≡ 8) ⊎ IsAnswerFor said result }
{
    match said {
        Checked::Yes => match lawful_text(alloc) {
            Ok(text) => Answer::Ended(Status::Done, text),
            Err(Memory) => Answer::Stopped(Status::Memory),
        },
        Checked::No(fault) => match fault_text(alloc, fault) {
            Ok(text) => Answer::Ended(Status::Unlawful, text),
            Err(Memory) => Answer::Stopped(Status::Memory),
        },
        Checked::ReadFault => Answer::Stopped(Status::ReadFault),
        Checked::Memory => Answer::Stopped(Status::Memory),
    }
}

/// What is told of a lawful journal.
pub(crate) fn lawful_text(alloc: Global) -> Result<Vec<u8>, Memory>
    ensures { IfOk result (λ text. text.items ≡ verdict_text Lawful) }
{
    let mut text = Vec::new(alloc);
    add(&mut text, b"LAWFUL\n")?;
    Ok(text)
}

/// What is told of a journal with this fault.
pub(crate) fn fault_text(alloc: Global, fault: CheckFault) -> Result<Vec<u8>, Memory>
    ensures { IfOk result (λ text. text.items ≡ verdict_text (Faulty fault.kind fault.row)) }
{
    let mut text = Vec::new(alloc);
    add(&mut text, b"check fault ")?;
    add_number(&mut text, u32::from(fault.kind))?;
    add(&mut text, b" row ")?;
    add_number(&mut text, fault.row)?;
    add(&mut text, b"\n")?;
    Ok(text)
}

/// Writes a number behind the text.
fn add_number(text: &mut Vec<u8>, number: u32) -> Result<(), Memory>
    ensures { OnOk result (text.new.items ≡ text.old.items ++ decimal number) }
{
    let mut buffer = Buffer::new();
    add(text, buffer.format(number).as_bytes())
}

/// Writes bytes behind the text.
fn add(text: &mut Vec<u8>, bytes: &[u8]) -> Result<(), Memory>
    ensures { OnOk result (text.new.items ≡ text.old.items ++ bytes.now) }
{
    match text.extend_from_slice(bytes) {
        Ok(()) => Ok(()),
        Err(_) => Err(Memory),
    }
}
