//! What no clause says: that each call of the running rule returns with memory at hand, on threads,
//! that a try beside another session's loses, and what an ascent tells of itself at worked numbers.
ghost use Rattle.std.specs.Prelude.{◌≡◌, [], ◌≤◌, ◌<◌, IfSome};
ghost use Rattle.std.specs.Bool.{OnTrue, OnFalse};
ghost use Rattle.fold_law.specs.declared.limits.TheConstants.{LEAF};
ghost use Rattle.node_rule.specs.Standing.{IsOf, IsKeeperOf, KeepsTable, KeepsSeat};
ghost use Rattle.node_rule.specs.Standing.{IsIdle, IsFresh, HasTry};
ghost use Rattle.double_refresh.specs.Refreshing.{Wins, Loses, Rises};

use crate::refresh;
use crate::rise::{attempt, load_children};
use fold_law::Sum;
use node_rule::{Climb, KeeperSeat, Words};
use risk_board::{Call, Seen};
use stamp_word::{Shape, Steps, count_steps, stamp_of, value_of};
use std::alloc::Global;
use std::marker::Brand;
use std::sync::ledger::{Blank, Ledger};
use std::test::*;
use std::thread;
use std::thread::Threads;

// What an ascent tells of itself, with the posts that its session has left in the second tree.
#[derive(Clone, Copy, Debug, PartialEq, Eq)]
struct Told {
    number: u32,
    tree: u32,
    node: u32,
    held: u32,
    left: u32,
    spare: u32,
}

fn tells(climb: &Climb<Sum>) -> Told
    requires tree { 1 < climb.now.plan.trees }
{
    Told {
        number: climb.number(),
        tree: climb.tree(),
        node: climb.node(),
        held: climb.held(),
        left: climb.left(1),
        spare: climb.spare(),
    }
}

// A post in the second tree, which begins an ascent.
fn begin<L: Ledger>(
    words: &Words<Sum>,
    climb: &mut Climb<Sum>,
    value: u64,
    steps: &mut Steps<L>,
) -> bool
    requires table { IsOf words.now climb.old }
    requires idle { IsIdle climb.old }
    requires levels { climb.old.plan.levels ≡ 1 }
    requires tree { 1 < climb.old.plan.trees }
    requires capped { value ≤ LEAF }
    ensures table { KeepsTable climb.old climb.new }
    ensures begun { OnTrue result (IsFresh climb.new) }
{
    if climb.left(1) == 0 || climb.reserve(2).is_err() {
        return false;
    }
    words.store_leaf(climb, 1, value, steps);
    true
}

// A try with the words of its parent loaded, beside which another session makes a whole refresh.
fn attempt_beside<L: Ledger>(
    words: &Words<Sum>,
    late: &mut Climb<Sum>,
    early: &mut Climb<Sum>,
    steps: &mut Steps<L>,
) -> bool
    requires late { IsOf words.now late.old × HasTry late.old }
    requires early { IsOf words.now early.old × IsFresh early.old }
    ensures late { KeepsSeat late.old late.new }
    ensures early { KeepsSeat early.old early.new × Rises early.old early.new }
    ensures won { OnTrue result (Wins late.old late.new) }
    ensures lost { OnFalse result (Loses late.old late.new) }
{
    load_children(words, late, steps);
    refresh(words, early, steps);
    words.exchange(late, steps)
}

// A refresh by hand, whose first try has another session's refresh beside it. It answers which of its
// tries won.
fn refresh_beside<L: Ledger>(
    words: &Words<Sum>,
    late: &mut Climb<Sum>,
    early: &mut Climb<Sum>,
    steps: &mut Steps<L>,
) -> (bool, bool)
    requires late { IsOf words.now late.old × IsFresh late.old }
    requires early { IsOf words.now early.old × IsFresh early.old }
    ensures late { KeepsSeat late.old late.new × Rises late.old late.new }
    ensures early { KeepsSeat early.old early.new × Rises early.old early.new }
{
    words.first_load(late, steps);
    if attempt_beside(words, late, early, steps) {
        return (true, false);
    }
    words.second_load(late, steps);
    (false, attempt(words, late, steps))
}

// A session posts, and its post ascends to the root.
fn ascend_once(words: &Words<Sum>, climb: Climb<Sum>, value: u64) -> Option<(Climb<Sum>, Told)>
    requires table { IsOf words.now climb }
    requires idle { IsIdle climb }
    requires plan { (words.now.plan.levels ≡ 1) × (1 < words.now.plan.trees) }
    requires capped { value ≤ LEAF }
    ensures { IfSome result (λ r. IsOf words.now r.0 × IsIdle r.0) }
{
    ascend_counted::<Brand>(words, climb, value, Blank::new(1))
}

fn ascend_counted<L: Ledger>(
    words: &Words<Sum>,
    mut climb: Climb<Sum>,
    value: u64,
    blank: Blank,
) -> Option<(Climb<Sum>, Told)>
    requires table { IsOf words.now climb }
    requires idle { IsIdle climb }
    requires plan { (words.now.plan.levels ≡ 1) × (1 < words.now.plan.trees) }
    requires capped { value ≤ LEAF }
    requires blank { (blank.name ≡ L.name) × (blank.parts ≡ L.parts) × (0 < L.parts) }
    ensures { IfSome result (λ r. IsOf words.now r.0 × IsIdle r.0) }
{
    let mut steps = count_steps::<L>(blank);
    if !begin(words, &mut climb, value, &mut steps) {
        return None;
    }
    let at_leaf = tells(&climb);
    refresh(words, &mut climb, &mut steps);
    if climb.node() != 1 {
        return None;
    }
    Some((climb, at_leaf))
}

// Both sessions post, each on a thread of its own.
fn ascend_both<R: Threads + Sync>(
    rt: &R,
    words: &Words<Sum>,
    first: Climb<Sum>,
    second: Climb<Sum>,
) -> (Option<(Climb<Sum>, Told)>, Option<(Climb<Sum>, Told)>)
    requires first { IsOf words.now first × IsIdle first }
    requires second { IsOf words.now second × IsIdle second }
    requires plan { (words.now.plan.levels ≡ 1) × (1 < words.now.plan.trees) }
    ensures first { IfSome result.0 (λ r. IsOf words.now r.0 × IsIdle r.0) }
    ensures second { IfSome result.1 (λ r. IsOf words.now r.0 × IsIdle r.0) }
{
    let run_first = move || ascend_once(words, first, 5);
    let run_second = move || ascend_once(words, second, 7);
    thread::join(rt, run_first, run_second)
}

// What two sessions met whose second ascents were beside each other.
#[derive(Drop)]
struct Met {
    first: Climb<Sum>,
    second: Climb<Sum>,
    told: (Told, Told),
    tries: (bool, bool),
    seen: Seen,
}

fn meet(words: &Words<Sum>, first: Climb<Sum>, second: Climb<Sum>) -> Option<Met>
    requires first { IsOf words.now first × IsIdle first }
    requires second { IsOf words.now second × IsIdle second }
    requires plan { (words.now.plan.levels ≡ 1) × (1 < words.now.plan.trees) }
    ensures first { IfSome result (λ met. IsOf words.now met.first × IsIdle met.first) }
    ensures second { IfSome result (λ met. IsOf words.now met.second × IsIdle met.second) }
{
    meet_counted::<Brand>(words, first, second, Blank::new(1))
}

fn meet_counted<L: Ledger>(
    words: &Words<Sum>,
    mut first: Climb<Sum>,
    mut second: Climb<Sum>,
    blank: Blank,
) -> Option<Met>
    requires first { IsOf words.now first × IsIdle first }
    requires second { IsOf words.now second × IsIdle second }
    requires plan { (words.now.plan.levels ≡ 1) × (1 < words.now.plan.trees) }
    requires blank { (blank.name ≡ L.name) × (blank.parts ≡ L.parts) × (0 < L.parts) }
    ensures first { IfSome result (λ met. IsOf words.now met.first × IsIdle met.first) }
    ensures second { IfSome result (λ met. IsOf words.now met.second × IsIdle met.second) }
{
    let mut steps = count_steps::<L>(blank);
    if !begin(words, &mut first, 11, &mut steps) {
        return None;
    }
    if !begin(words, &mut second, 13, &mut steps) {
        return None;
    }
    let told = (tells(&first), tells(&second));
    let tries = refresh_beside(words, &mut first, &mut second, &mut steps);
    if first.node() != 1 || second.node() != 1 || second.spare() == 0 {
        return None;
    }
    let seen = words.read_root(&mut second, 1, &mut steps);
    Some(Met {
        first,
        second,
        told,
        tries,
        seen,
    })
}

// How many calls and installs each session made, and the root.
#[derive(Clone, Copy, Debug, PartialEq, Eq)]
struct Left {
    first: (usize, usize),
    second: (usize, usize),
    root: Seen,
}

fn close_both(
    words: Words<Sum>,
    mut keeper: KeeperSeat<Sum>,
    first: Climb<Sum>,
    second: Climb<Sum>,
) -> Option<Left>
    requires keeper { IsKeeperOf words keeper }
    requires given { (keeper.given ≡ 2) × (keeper.joined ≡ []) }
    requires first { IsOf words first × IsIdle first }
    requires second { IsOf words second × IsIdle second }
{
    let (calls, trail) = words.join(&mut keeper, first);
    let first = (calls.len(), trail.len());
    let (calls, trail) = words.join(&mut keeper, second);
    let second = (calls.len(), trail.len());
    let Ok(words) = words.close(keeper) else {
        return None;
    };
    let root = *words.get(5)?;
    Some(Left {
        first,
        second,
        root: Seen {
            stamp: stamp_of(root),
            value: value_of(root),
        },
    })
}

// New words of two sessions and two trees, with both sessions' climbs.
#[derive(Drop)]
struct Opened {
    words: Words<Sum>,
    keeper: KeeperSeat<Sum>,
    first: Climb<Sum>,
    second: Climb<Sum>,
}

fn open_two(alloc: Global) -> Option<Opened>
    ensures keeper { IfSome result (λ made. IsKeeperOf made.words made.keeper) }
    ensures given { IfSome result (λ made.
        (made.keeper.given ≡ 2) × (made.keeper.joined ≡ [])) }
    ensures first { IfSome result (λ made. IsOf made.words made.first × IsIdle made.first) }
    ensures second { IfSome result (λ made. IsOf made.words made.second × IsIdle made.second) }
    ensures plan { IfSome result (λ made. (made.words.plan.levels ≡ 1)
        × (made.words.plan.trees ≡ 2)) }
{
    let shape = Shape {
        levels: 1,
        trees: 2,
    };
    let Ok((words, mut keeper)) = Words::<Sum>::open(alloc, shape, 2, 10) else {
        return None;
    };
    let Ok(first) = words.split(alloc, &mut keeper) else {
        return None;
    };
    let Ok(second) = words.split(alloc, &mut keeper) else {
        return None;
    };
    Some(Opened {
        words,
        keeper,
        first,
        second,
    })
}

// What a post tells at the leaf: the second post of a session holds the leaf's stamp 2.
fn at_leaf(number: u32, held: u32, left: u32) -> Told {
    Told {
        number,
        tree: 1,
        node: if number == 0 { 2 } else { 3 },
        held,
        left,
        spare: 1,
    }
}

// What the whole run told: at the leaves, at the first posts and at the second ones, and afterwards.
#[derive(Clone, Copy, Debug, PartialEq, Eq)]
struct Outcome {
    first_posts: (Told, Told),
    second_posts: (Told, Told),
    tries: (bool, bool),
    seen: Seen,
    left: Left,
}

// Each call at least once: first on two threads, and then of two ascents beside each other.
fn run_both<R: Threads + Sync>(rt: &R, alloc: Global) -> Option<Outcome> {
    let Opened {
        words,
        keeper,
        first,
        second,
    } = open_two(alloc)?;
    let (first, second) = ascend_both(rt, &words, first, second);
    let (first, told_first) = first?;
    let (second, told_second) = second?;
    let Met {
        first,
        second,
        told,
        tries,
        seen,
    } = meet(&words, first, second)?;
    let left = close_both(words, keeper, first, second)?;
    Some(Outcome {
        first_posts: (told_first, told_second),
        second_posts: told,
        tries,
        seen,
        left,
    })
}

#[test]
fn each_call_returns_and_tells(rt: HostRuntime) -> Result<(), Fail> {
    let Some(outcome) = run_both(&rt, rt.alloc()) else {
        panic!(rt; "no run")
    };
    let first = (at_leaf(0, 1, 9), at_leaf(1, 1, 9));
    assert_eq!(rt; outcome.first_posts, first, "at the first posts");
    let second = (at_leaf(0, 2, 8), at_leaf(1, 2, 8));
    assert_eq!(rt; outcome.second_posts, second, "at the second posts");
    assert_eq!(rt;
        outcome.tries,
        (false, true),
        "a try beside another refresh loses"
    );
    let root = Seen {
        stamp: 4,
        value: 24,
    };
    assert_eq!(rt;
        outcome.seen,
        root,
        "both second posts, by the fourth exchange"
    );
    let left = Left {
        first: (2, 2),
        second: (3, 2),
        root,
    };
    assert_eq!(rt; outcome.left, left, "the calls, the installs and the root");
    Ok(())
}
