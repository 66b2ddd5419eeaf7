//! What no clause says: that calls succeed with memory at hand, on several threads, and what the root
//! has when all are done. With one session a post counts one step.
ghost use Rattle.std.specs.Prelude.{◌≡◌, ◌+◌, ◌≤◌, ◌<◌, IfSome};
ghost use Rattle.fold_law.specs.declared.limits.TheConstants.{SESSIONS};
ghost use Rattle.stamp_word.specs.declared.limits.TheConstants.{TREES};
ghost use Rattle.node_rule.specs.Sums.{posts_in};
ghost use Rattle.f_array.specs.Passes.{IsPassOf, IsSamePass};
ghost use Rattle.f_array.specs.Records.{AreAllOf};

use f_array::{Forest, Pass, TreeHand};
use fold_law::Sum;
use risk_board::{Hand, Seen};
use stamp_word::{Shape, Steps, count_steps, value_of};
use std::alloc::Global;
use std::marker::Brand;
use std::sync::ledger::{Blank, Ledger};
use std::test::*;
use std::thread;
use std::thread::Threads;

// Posts and reads in turn in each tree.
fn run_pass(forest: &Forest<Sum>, pass: Pass<Sum>, trees: u32, rounds: u32) -> Pass<Sum>
    requires forest { IsPassOf forest.now pass }
    requires trees { trees ≤ pass.plan.trees }
    ensures { IsSamePass pass result }
{
    run_counted::<Brand>(forest, pass, trees, rounds, Blank::new(1))
}

fn run_counted<L: Ledger>(
    forest: &Forest<Sum>,
    mut pass: Pass<Sum>,
    trees: u32,
    rounds: u32,
    blank: Blank,
) -> Pass<Sum>
    requires forest { IsPassOf forest.now pass }
    requires trees { trees ≤ pass.plan.trees }
    requires blank { (blank.name ≡ L.name) × (blank.parts ≡ L.parts) × (0 < L.parts) }
    ensures { IsSamePass pass result }
{
    let mut steps = count_steps::<L>(blank);
    for _ in 0..rounds {
        pass = one_round_each(forest, pass, trees, &mut steps);
    }
    pass
}

fn one_round_each<L: Ledger>(
    forest: &Forest<Sum>,
    mut pass: Pass<Sum>,
    trees: u32,
    steps: &mut Steps<L>,
) -> Pass<Sum>
    requires forest { IsPassOf forest.now pass }
    requires trees { trees ≤ pass.plan.trees }
    ensures { IsSamePass pass result }
{
    for tree in 0..trees {
        pass = one_round(forest, pass, tree, steps);
    }
    pass
}

fn one_round<L: Ledger>(
    forest: &Forest<Sum>,
    mut pass: Pass<Sum>,
    tree: u32,
    steps: &mut Steps<L>,
) -> Pass<Sum>
    requires forest { IsPassOf forest.now pass }
    requires tree { tree < pass.plan.trees }
    ensures { IsSamePass pass result }
{
    if pass.left(tree) > 0 && pass.reserve(2).is_ok() {
        forest.post(&mut pass, tree, 5, steps);
        forest.read(&mut pass, tree, steps);
    }
    pass
}

// A post and a read by whatever hand.
fn use_hand<H: Hand>(hand: &mut H) -> Option<Seen>
    requires tree { 1 ≤ (H.meaning hand.old).trees }
    requires capped { 5 ≤ (H.meaning hand.old).cap }
{
    if hand.left(0) == 0 {
        return None;
    }
    let Ok(()) = hand.reserve(2) else {
        return None;
    };
    hand.post(0, 5);
    Some(hand.read(0))
}

// The same by the hand of a pass.
fn use_pass(forest: &Forest<Sum>, pass: Pass<Sum>) -> Option<Seen>
    requires forest { IsPassOf forest.now pass }
    requires tree { 1 ≤ pass.plan.trees }
{
    let mut hand = TreeHand::new(forest, pass);
    let seen = use_hand(&mut hand);
    let pass = hand.give_back();
    if pass.spare() > 0 { None } else { seen }
}

// With one session there is no level above the leaf.
fn post_alone<L: Ledger>(forest: &Forest<Sum>, pass: &mut Pass<Sum>, steps: &mut Steps<L>)
    requires forest { IsPassOf forest.now pass.old }
    requires alone { pass.old.plan.levels ≡ 0 }
    requires tree { 0 < pass.old.plan.trees }
    requires left { posts_in 0 pass.old.track < pass.old.plan.quota }
    requires spare { 1 ≤ pass.old.spare }
    ensures { steps.new ≡ steps.old + 1 }
{
    forest.post(pass, 0, 5, steps);
}

// With three sessions there are two levels.
fn post_of_three<L: Ledger>(forest: &Forest<Sum>, pass: &mut Pass<Sum>, steps: &mut Steps<L>)
    requires forest { IsPassOf forest.now pass.old }
    requires levels { pass.old.plan.levels ≡ 2 }
    requires tree { 0 < pass.old.plan.trees }
    requires left { posts_in 0 pass.old.track < pass.old.plan.quota }
    requires spare { 1 ≤ pass.old.spare }
    ensures { steps.new ≤ steps.old + 17 }
{
    forest.post(pass, 0, 5, steps);
}

// All passes on threads of their own.
fn run_all<R: Threads + Sync>(
    rt: &R,
    forest: &Forest<Sum>,
    passes: Vec<Pass<Sum>>,
    trees: u32,
    rounds: u32,
) -> Option<Vec<Pass<Sum>>>
    requires trees { trees ≤ forest.now.plan.trees }
    requires all { AreAllOf forest.now passes.items }
    ensures { IfSome result (λ after. AreAllOf forest.now after.items) }
{
    let run = |pass: Pass<Sum>|
        requires { IsPassOf forest.now pass × (trees ≤ pass.plan.trees) }
        ensures { IsSamePass pass result }
    { run_pass(forest, pass, trees, rounds) };
    match thread::map_vec(rt, passes, &run) {
        Ok(after) => Some(after),
        Err(_) => None,
    }
}

// How many calls all passes made together, and the value of the first tree's root.
fn run_forest<R: Threads + Sync>(
    rt: &R,
    alloc: Global,
    sessions: u32,
    trees: u32,
    rounds: u32,
) -> Option<(usize, u64)>
    requires sessions { (1 ≤ sessions) × (sessions ≤ SESSIONS) }
    requires trees { (1 ≤ trees) × (trees ≤ TREES) }
{
    let shape = Shape::of(sessions, trees);
    let Ok((forest, keeper, passes)) = Forest::<Sum>::open(alloc, shape, sessions, 2000) else {
        return None;
    };
    let passes = run_all(rt, &forest, passes, trees, rounds)?;
    let Ok(taken) = forest.close(keeper, passes) else {
        return None;
    };
    let mut calls: usize = 0;
    for did in &taken.passes {
        calls = calls.saturating_add(did.calls.len());
    }
    let root = taken.words.get(1)?;
    Some((calls, value_of(*root)))
}

#[test]
fn threads_hold_all_their_calls(rt: HostRuntime) -> Result<(), Fail> {
    let two = run_forest(&rt, rt.alloc(), 2, 1, 1000);
    assert_eq!(rt; two, Some((4000, 10)), "two sessions");
    let eight = run_forest(&rt, rt.alloc(), 8, 1, 500);
    assert_eq!(rt; eight, Some((8000, 40)), "eight sessions on one tree");
    let many = run_forest(&rt, rt.alloc(), 8, 13, 50);
    assert_eq!(rt; many, Some((10400, 40)), "eight sessions on 13 trees");
    let most = run_forest(&rt, rt.alloc(), 64, 1, 50);
    assert_eq!(rt; most, Some((6400, 320)), "as many sessions as there may be");
    let one = run_forest(&rt, rt.alloc(), 1, 2, 10);
    assert_eq!(rt; one, Some((40, 5)), "one session");
    Ok(())
}

#[test]
fn a_hand_sees_its_own_post(rt: HostRuntime) -> Result<(), Fail> {
    let Ok((forest, _, passes)) = Forest::<Sum>::open(rt.alloc(), Shape::of(1, 1), 1, 10) else {
        panic!(rt; "no memory")
    };
    for pass in passes {
        let seen = use_pass(&forest, pass);
        assert_eq!(rt; seen, Some(Seen { stamp: 1, value: 5 }), "the only session");
    }
    Ok(())
}
