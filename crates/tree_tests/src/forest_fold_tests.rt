//! What no clause says: that a fold's unit need not be 0, and what a root has once all threads are done.
ghost use Rattle.std.specs.Prelude.{min, nat_le, ◌≤◌, All, IfSome};
ghost use Rattle.fold_law.specs.Max.{IsMaxOf};
ghost use Rattle.fold_law.specs.declared.limits.TheConstants.{LEAF};
ghost use Rattle.f_array.specs.LeastLaws.{least_laws};
ghost use Rattle.f_array.specs.Passes.{IsPassOf, IsSamePass};

use f_array::{Forest, Pass, TreeHand};
use fold_law::{Fold, LEAF, Sum};
use risk_board::{Hand, Seen};
use stamp_word::Shape;
use std::alloc::Global;
use std::test::*;
use std::thread;
use std::thread::Threads;

// The least, of leaf values up to `LEAF`.
struct Least;

impl Fold for Least {
    ghost UNIT = { LEAF };

    const UNIT: u64 = LEAF;

    ghost CAP = { LEAF };

    const CAP: u64 = LEAF;

    ghost join = { min };

    ghost le = { nat_le };

    ghost under = { IsMaxOf };

    fn join(a: u64, b: u64) -> u64 {
        a.min(b)
    }

    fn le(a: u64, b: u64) -> bool {
        a <= b
    }

    ghost laws = { least_laws };
}

// What a session reads before and after a post.
fn read_round_post(forest: &Forest<Least>, pass: Pass<Least>, value: u64) -> Option<(Seen, Seen)>
    requires forest { IsPassOf forest.now pass }
    requires tree { 1 ≤ pass.plan.trees }
    requires capped { value ≤ LEAF }
{
    let mut hand = TreeHand::new(forest, pass);
    if hand.left(0) == 0 {
        return None;
    }
    let Ok(()) = hand.reserve(3) else {
        return None;
    };
    let before = hand.read(0);
    hand.post(0, value);
    Some((before, hand.read(0)))
}

#[test]
fn a_root_is_at_first_the_unit(rt: HostRuntime) -> Result<(), Fail> {
    let Ok((forest, _, passes)) = Forest::<Least>::open(rt.alloc(), Shape::of(2, 1), 2, 10) else {
        panic!(rt; "no memory")
    };
    let unit = Seen {
        stamp: 0,
        value: LEAF,
    };
    let first = Seen {
        stamp: 1,
        value: 600,
    };
    let second = Seen {
        stamp: 2,
        value: 200,
    };
    for pass in passes {
        if pass.number() == 0 {
            let seen = read_round_post(&forest, pass, 600);
            assert_eq!(rt; seen, Some((unit, first)), "before any post, and after one");
        } else {
            let seen = read_round_post(&forest, pass, 200);
            assert_eq!(rt;
                seen,
                Some((first, second)),
                "after one post, and after two"
            );
        }
    }
    Ok(())
}

// A post of four times the round, and the session's number, as far as a leaf holds it.
fn post_round(forest: &Forest<Sum>, pass: Pass<Sum>, round: u32) -> Pass<Sum>
    requires forest { IsPassOf forest.now pass }
    requires tree { 1 ≤ pass.plan.trees }
    ensures { IsSamePass pass result }
{
    let value = (4 * u64::from(round) + u64::from(pass.number())).min(LEAF);
    let mut hand = TreeHand::new(forest, pass);
    if hand.left(0) > 0 && hand.reserve(1).is_ok() {
        hand.post(0, value);
    }
    hand.give_back()
}

// A post for each round.
fn post_often(forest: &Forest<Sum>, mut pass: Pass<Sum>, rounds: u32) -> Pass<Sum>
    requires forest { IsPassOf forest.now pass }
    requires tree { 1 ≤ pass.plan.trees }
    ensures { IsSamePass pass result }
{
    for round in 0..rounds {
        pass = post_round(forest, pass, round);
    }
    pass
}

// Two sessions post, each on a thread of its own.
fn post_both<R: Threads + Sync>(
    rt: &R,
    forest: &Forest<Sum>,
    left: Pass<Sum>,
    right: Pass<Sum>,
    rounds: u32,
) -> Pass<Sum>
    requires left { IsPassOf forest.now left × (1 ≤ left.plan.trees) }
    requires right { IsPassOf forest.now right × (1 ≤ right.plan.trees) }
    ensures { IsSamePass left result }
{
    let run_left = move || post_often(forest, left, rounds);
    let run_right = move || post_often(forest, right, rounds);
    thread::join(rt, run_left, run_right).0
}

// Four sessions post, each on a thread of its own.
fn post_four<R: Threads + Sync>(
    rt: &R,
    forest: &Forest<Sum>,
    left: (Pass<Sum>, Pass<Sum>),
    right: (Pass<Sum>, Pass<Sum>),
    rounds: u32,
) -> Pass<Sum>
    requires first { IsPassOf forest.now left.0 × (1 ≤ left.0.plan.trees) }
    requires second { IsPassOf forest.now left.1 × (1 ≤ left.1.plan.trees) }
    requires third { IsPassOf forest.now right.0 × (1 ≤ right.0.plan.trees) }
    requires fourth { IsPassOf forest.now right.1 × (1 ≤ right.1.plan.trees) }
    ensures { IsSamePass left.0 result }
{
    let run_left = move ||
        requires { (IsPassOf forest.now left.0 × (1 ≤ left.0.plan.trees))
            × (IsPassOf forest.now left.1 × (1 ≤ left.1.plan.trees)) }
    { post_both(rt, forest, left.0, left.1, rounds) };
    let run_right = move ||
        requires { (IsPassOf forest.now right.0 × (1 ≤ right.0.plan.trees))
            × (IsPassOf forest.now right.1 × (1 ≤ right.1.plan.trees)) }
    { post_both(rt, forest, right.0, right.1, rounds) };
    thread::join(rt, run_left, run_right).0
}

// The last of the passes.
fn next_pass(forest: &Forest<Sum>, passes: &mut Vec<Pass<Sum>>) -> Option<Pass<Sum>>
    requires trees { 1 ≤ forest.now.plan.trees }
    requires all { All (IsPassOf forest.now) passes.old.items }
    ensures all { All (IsPassOf forest.now) passes.new.items }
    ensures next { IfSome result (λ p. IsPassOf forest.now p × (1 ≤ p.plan.trees)) }
{
    let pass = passes.pop()?;
    Some(pass)
}

// What a session reads once all four are done.
fn read_root(forest: &Forest<Sum>, pass: Pass<Sum>) -> Option<u64>
    requires forest { IsPassOf forest.now pass }
    requires tree { 1 ≤ pass.plan.trees }
{
    let mut hand = TreeHand::new(forest, pass);
    let Ok(()) = hand.reserve(1) else {
        return None;
    };
    Some(hand.read(0).value)
}

// Four sessions post to one tree at once, and then one of them reads its root.
fn post_at_once<R: Threads + Sync>(rt: &R, alloc: Global, rounds: u32) -> Option<u64> {
    let Ok((forest, _, mut passes)) = Forest::<Sum>::open(alloc, Shape::of(4, 1), 4, 2000) else {
        return None;
    };
    let first = next_pass(&forest, &mut passes)?;
    let second = next_pass(&forest, &mut passes)?;
    let third = next_pass(&forest, &mut passes)?;
    let fourth = next_pass(&forest, &mut passes)?;
    let pass = post_four(rt, &forest, (first, second), (third, fourth), rounds);
    read_root(&forest, pass)
}

#[test]
fn a_root_is_the_sum_of_the_last_posts(rt: HostRuntime) -> Result<(), Fail> {
    let once = post_at_once(&rt, rt.alloc(), 1);
    assert_eq!(rt; once, Some(6), "one post each: 0 to 3");
    let often = post_at_once(&rt, rt.alloc(), 2000);
    assert_eq!(rt;
        often,
        Some(31_990),
        "2000 posts each, the last of 7996 to 7999"
    );
    Ok(())
}
