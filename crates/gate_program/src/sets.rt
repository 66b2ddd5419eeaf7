//! The screens that the program gives its sessions.

use crate::command;
use fold_law::SESSIONS;
use gate_ports::{Folder, Gate, Sink};
use screen_kit::{CollarScreen, RepeatScreen, Screen, SizeScreen};
use std::alloc::{AllocError, Global};
use std::thread::Threads;

/// Does what the words ask for, with screens for size, price and repeats for each session, asked in
/// this order. It answers want of memory where none could be had for a screen.
pub(crate) fn gate_with_screens<R: Threads + Sync, D: Folder, O: Sink, G: Gate>(
    rt: &R,
    alloc: Global,
    words: &[String],
    folder: &mut D,
    out: &mut O,
    gate: &G,
) -> Result<u8, AllocError> {
    let mut sets: Vec<Vec<Box<dyn Screen + Send>>> = Vec::new(alloc);
    for _ in 0..SESSIONS {
        let mut set: Vec<Box<dyn Screen + Send>> = Vec::new(alloc);
        set.push(Box::new(alloc, SizeScreen::new(alloc))?)?;
        set.push(Box::new(alloc, CollarScreen::new(alloc))?)?;
        set.push(Box::new(alloc, RepeatScreen::new(alloc))?)?;
        sets.push(set)?;
    }
    Ok(command::gate(rt, alloc, words, folder, out, sets, gate))
}
