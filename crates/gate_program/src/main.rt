//! The gate: the words of its command line, its limit file, its sessions, its journal and its
//! totals.
#![tactic(auto)]

mod agreeing;
#[cfg(test)]
mod check_tests;
mod command;
mod completeness;
#[cfg(test)]
mod cross_tests;
mod ended;
#[cfg(test)]
mod fault_tests;
mod finish;
mod forests;
#[cfg(test)]
mod hostile_rows;
mod load;
mod make;
#[cfg(test)]
mod make_tests;
#[cfg(test)]
mod many_tests;
#[cfg(test)]
mod net_rows;
#[cfg(test)]
mod order_rows;
mod pieces;
mod replay;
#[cfg(test)]
mod request_rows;
#[cfg(test)]
mod row_tests;
#[cfg(test)]
mod rows;
#[cfg(test)]
mod screen_tests;
mod sets;
mod summary;
#[cfg(test)]
mod task_tests;
mod tasks;
#[cfg(test)]
mod test_gates;
#[cfg(test)]
mod test_screens;
#[cfg(test)]
mod tests;
mod told;
mod totals;
#[cfg(test)]
mod turn_rows;

pub use command::gate;
pub use completeness::{
    unfailing_checks_are_judged, unfailing_filters_are_done_or_cut, whole_filters_are_done,
    whole_inputs_are_done,
};
use fold_law::Memory;
use gate_files::Status;
use gate_ports::{OpenGate, RealFolder, RealOut};
use sets::gate_with_screens;
use std::alloc::Global;
use std::env;
use std::io::ErrorKind;
use std::process::ExitCode;
use std::rt::Env;

/// The words behind the program's name. Where they aren't UTF-8 there are none, which is no form.
fn words_behind_name<R: Env + Alloc<A = Global>>(rt: &R) -> Result<Vec<String>, Memory> {
    match env::args(rt) {
        Ok(args) => args.skip(1).collect(rt.alloc()).map_err(|_| Memory),
        Err(error) if error.kind() == ErrorKind::OutOfMemory => Err(Memory),
        Err(_) => Ok(Vec::new(rt.alloc())),
    }
}

/// Does what the command line asks for over the system's files, with the program's own screens, and
/// ends with the status.
fn main(rt: HostRuntime) -> ExitCode {
    let words = match words_behind_name(&rt) {
        Ok(words) => words,
        Err(Memory) => return ExitCode::from(Status::Memory.number()),
    };
    let mut folder = RealFolder::new(&rt);
    let mut out = RealOut::new(&rt);
    match gate_with_screens(&rt, rt.alloc(), &words, &mut folder, &mut out, &OpenGate) {
        Ok(status) => ExitCode::from(status),
        Err(_) => ExitCode::from(Status::Memory.number()),
    }
}
