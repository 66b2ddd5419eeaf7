//! Whole runs over a folder in memory, byte by byte, whose calls move much, little and one byte. No
//! clause says what a worked row gives, nor that memory isn't wanting.
ghost use Rattle.std.specs.Prelude.{◌<◌};

use crate::command::gate;
use crate::net_rows::NET;
use crate::order_rows::{ORDERS, REFUSALS};
use crate::request_rows::{FAULTS, FRAMES, REQUESTS};
use crate::rows::{Row, compare, no_screens, stage_of};
use crate::test_gates::InTurn;
use crate::turn_rows::TURNS;
use std::alloc::Global;
use std::process::Abort;
use std::test::*;
use std::thread::Threads;

/// Runs these rows with no screens, sessions in turn, and calls that move at most so many bytes,
/// and compares.
fn compare_all<R: Threads + Sync + Abort>(
    rt: &R,
    alloc: Global,
    rows: &[Row],
    most: usize,
) -> Result<(), Fail>
    requires { 0 < most }
{
    for row in rows {
        let mut stage = stage_of(alloc, row, most)?;
        let status = gate(
            rt,
            alloc,
            &stage.words,
            &mut stage.folder,
            &mut stage.out,
            no_screens(alloc)?,
            &InTurn::by(1),
        );
        compare(rt, alloc, row, &stage, status)?;
    }
    Ok(())
}

/// Compares orders.
fn compare_orders<R: Threads + Sync + Abort>(rt: &R, alloc: Global, most: usize) -> Result<(), Fail>
    requires { 0 < most }
{
    compare_all(rt, alloc, &ORDERS, most)
}

/// Compares refusals.
fn compare_refusals<R: Threads + Sync + Abort>(
    rt: &R,
    alloc: Global,
    most: usize,
) -> Result<(), Fail>
    requires { 0 < most }
{
    compare_all(rt, alloc, &REFUSALS, most)
}

/// Compares cancels and replaces.
fn compare_requests<R: Threads + Sync + Abort>(
    rt: &R,
    alloc: Global,
    most: usize,
) -> Result<(), Fail>
    requires { 0 < most }
{
    compare_all(rt, alloc, &REQUESTS, most)
}

/// Compares frames.
fn compare_frames<R: Threads + Sync + Abort>(rt: &R, alloc: Global, most: usize) -> Result<(), Fail>
    requires { 0 < most }
{
    compare_all(rt, alloc, &FRAMES, most)
}

/// Compares field faults.
fn compare_faults<R: Threads + Sync + Abort>(rt: &R, alloc: Global, most: usize) -> Result<(), Fail>
    requires { 0 < most }
{
    compare_all(rt, alloc, &FAULTS, most)
}

/// Compares sessions in turn.
fn compare_turns<R: Threads + Sync + Abort>(rt: &R, alloc: Global, most: usize) -> Result<(), Fail>
    requires { 0 < most }
{
    compare_all(rt, alloc, &TURNS, most)
}

/// Runs each row so, and compares.
fn compare_tables<R: Threads + Sync + Abort>(rt: &R, alloc: Global, most: usize) -> Result<(), Fail>
    requires { 0 < most }
{
    compare_orders(rt, alloc, most)?;
    compare_refusals(rt, alloc, most)?;
    compare_requests(rt, alloc, most)?;
    compare_frames(rt, alloc, most)?;
    compare_faults(rt, alloc, most)?;
    compare_all(rt, alloc, &NET, most)?;
    compare_turns(rt, alloc, most)
}

#[test]
fn rows_are_the_same_however_ports_cut_them(rt: HostRuntime) -> Result<(), Fail> {
    let alloc = rt.alloc();
    compare_tables(&rt, alloc, 65_536)?;
    compare_tables(&rt, alloc, 4_096)?;
    compare_tables(&rt, alloc, 7)?;
    compare_tables(&rt, alloc, 1)
}
