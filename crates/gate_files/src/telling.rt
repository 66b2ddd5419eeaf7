//! What standard output is given at the end of a call.
ghost use Rattle.std.specs.Prelude.{◌≡◌, ◌⊎◌, ◌++◌, decimal, IfOk, OnOk};
ghost use Rattle.gate_files.specs.Limits.{fault_number, fault_row, limits_fault_text};
ghost use Rattle.gate_files.specs.Told.{IsTold};
ghost use Rattle.gate_files.specs.Statuses.{number_of, told_text, answer_number, answer_text};

use crate::status::{Answer, Status};
use fold_law::Memory;
use gate_ports::{PortFault, Sink, give_all};
use itoa::Buffer;
use limit_table::LimitFault;
use std::alloc::Global;

/// Tells what a run comes to, and answers its status. A write that fails gives that of a write
/// fault
/// in its place. Where memory was wanting nothing is told.
pub fn tell_answer<O: Sink>(alloc: Global, out: &mut O, answer: Answer) -> u8
    ensures { (result ≡ 8) ⊎ IsTold (O.held out.old) (O.held out.new) (O.faults out.old)
        (O.faults out.new) (answer_text answer) (answer_number answer) result }
{
    match answer {
        Answer::Stopped(status) => tell(alloc, out, status),
        Answer::Ended(status, text) => tell_text(out, &text, status),
    }
}

/// Tells why a run stopped. A fault of the limit file takes memory for its text.
pub fn tell<O: Sink>(alloc: Global, out: &mut O, standing: Status) -> u8
    ensures { (result ≡ 8) ⊎ IsTold (O.held out.old) (O.held out.new)
        (O.faults out.old) (O.faults out.new) (told_text standing) (number_of standing) result }
{
    match standing {
        Status::Usage => tell_text(
            out,
            b"usage: gate run LIMITS OUT SESSION... | gate make NUMBER SESSIONS ORDERS \
              | gate check LIMITS JOURNAL SESSION... | gate cross LIMITS OUT SESSION...\n",
            standing,
        ),
        Status::Limits(fault) => tell_fault(alloc, out, fault),
        Status::ReadFault => tell_text(out, b"read fault\n", standing),
        Status::WriteFault => tell_text(out, b"write fault\n", standing),
        Status::Done | Status::CutShort | Status::Unlawful => tell_text(out, b"", standing),
        Status::Memory => Status::Memory.number(),
    }
}

/// Tells the fault of a limit file.
fn tell_fault<O: Sink>(alloc: Global, out: &mut O, fault: LimitFault) -> u8
    ensures { (result ≡ 8) ⊎ IsTold (O.held out.old) (O.held out.new)
        (O.faults out.old) (O.faults out.new) (limits_fault_text fault) 3 result }
{
    match fault_text(alloc, fault) {
        Ok(text) => tell_text(out, &text, Status::Limits(fault)),
        Err(Memory) => Status::Memory.number(),
    }
}

/// Tells a text at the status that stands.
fn tell_text<O: Sink>(out: &mut O, text: &[u8], standing: Status) -> u8
    ensures { (result ≡ 8) ⊎ IsTold (O.held out.old) (O.held out.new)
        (O.faults out.old) (O.faults out.new) text.now (number_of standing) result }
{
    match give_all(out, text) {
        Ok(()) => standing.number(),
        Err(PortFault::Failed) => Status::WriteFault.number(),
        Err(PortFault::Memory) => Status::Memory.number(),
    }
}

/// What is told of a limit file that is refused for this fault.
fn fault_text(alloc: Global, fault: LimitFault) -> Result<Vec<u8>, Memory>
    ensures { IfOk result (λ text. text.items ≡ limits_fault_text fault) }
{
    let mut text = Vec::new(alloc);
    add(&mut text, b"limits fault ")?;
    add_number(&mut text, fault_number(fault))?;
    add(&mut text, b" row ")?;
    add_number(&mut text, fault_row(fault))?;
    add(&mut text, b"\n")?;
    Ok(text)
}

/// The number of a fault, from 1. Want of memory is no fault of a file, and is 0.
fn fault_number(fault: LimitFault) -> u32
    ensures { result ≡ fault_number fault }
{
    match fault {
        LimitFault::RowShape(_) => 1,
        LimitFault::Kind(_) => 2,
        LimitFault::Number(_) => 3,
        LimitFault::Name(_) => 4,
        LimitFault::Repeated(_) => 5,
        LimitFault::NoFirm => 6,
        LimitFault::TooMany(_) => 7,
        LimitFault::Band(_) => 8,
        LimitFault::Memory => 0,
    }
}

/// The row of a fault, from 1, and 0 where it has none.
fn fault_row(fault: LimitFault) -> u32
    ensures { result ≡ fault_row fault }
{
    match fault {
        LimitFault::RowShape(row) => row,
        LimitFault::Kind(row) => row,
        LimitFault::Number(row) => row,
        LimitFault::Name(row) => row,
        LimitFault::Repeated(row) => row,
        LimitFault::TooMany(row) => row,
        LimitFault::Band(row) => row,
        LimitFault::NoFirm | LimitFault::Memory => 0,
    }
}

/// Writes a number behind the text.
fn add_number(text: &mut Vec<u8>, number: u32) -> Result<(), Memory>
    ensures { OnOk result (text.new.items ≡ text.old.items ++ decimal number) }
{
    let mut buffer = Buffer::new();
    add(text, buffer.format(number).as_bytes())
}

/// Writes bytes behind the text.
fn add(text: &mut Vec<u8>, bytes: &[u8]) -> Result<(), Memory>
    ensures { OnOk result (text.new.items ≡ text.old.items ++ bytes.now) }
{
    match text.extend_from_slice(bytes) {
        Ok(()) => Ok(()),
        Err(_) => Err(Memory),
    }
}
