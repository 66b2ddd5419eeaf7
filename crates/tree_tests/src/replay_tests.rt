//! What no clause says: that calls succeed with memory at hand, and a history that is known from
//! its calls. Of runs on several threads each read is compared with a walk along the history.
ghost use Rattle.std.specs.Prelude.{◌≡◌, ◌≤◌, ◌<◌, IfSome};
ghost use Rattle.fold_law.specs.declared.limits.TheConstants.{SESSIONS, LEAF};
ghost use Rattle.fold_law.specs.Sum.{sum_of};
ghost use Rattle.stamp_word.specs.declared.limits.TheConstants.{TREES};
ghost use Rattle.f_array.specs.Passes.{IsPassOf, IsSamePass};
ghost use Rattle.f_array.specs.Records.{AreAllOf};
ghost use Rattle.trail_replay.specs.Arrays.{AreLines};
ghost use Rattle.trail_replay.specs.Fronts.{IsLawful};

use f_array::{Forest, Keeper, Pass, Record};
use fold_law::{LEAF, Sum};
use risk_board::{Call, Line};
use stamp_word::{Shape, Steps, count_steps};
use std::alloc::Global;
use std::marker::Brand;
use std::sync::ledger::{Blank, Ledger};
use std::test::*;
use std::thread;
use std::thread::Threads;
use trail_replay::{History, Prepared, Walk, at, place, replay, replay_of};

// What passes are to do in each tree, the one with this number alone or all: so many rounds of a
// post or a read or both, of which the first post has this value.
#[derive(Clone, Copy)]
struct Job {
    only: Option<u32>,
    rounds: u32,
    value: u64,
    posts: bool,
    reads: bool,
}

fn work(forest: &Forest<Sum>, pass: Pass<Sum>, trees: u32, job: Job) -> Pass<Sum>
    requires forest { IsPassOf forest.now pass }
    requires trees { trees ≤ pass.plan.trees }
    ensures { IsSamePass pass result }
{
    work_counted::<Brand>(forest, pass, trees, job, Blank::new(1))
}

fn work_counted<L: Ledger>(
    forest: &Forest<Sum>,
    mut pass: Pass<Sum>,
    trees: u32,
    job: Job,
    blank: Blank,
) -> Pass<Sum>
    requires forest { IsPassOf forest.now pass }
    requires trees { trees ≤ pass.plan.trees }
    requires blank { (blank.name ≡ L.name) × (blank.parts ≡ L.parts) × (0 < L.parts) }
    ensures { IsSamePass pass result }
{
    let mut steps = count_steps::<L>(blank);
    let number = pass.number();
    if job.only.unwrap_or(number) != number {
        return pass;
    }
    for round in 0..job.rounds {
        pass = each_tree(forest, pass, trees, job, round, &mut steps);
    }
    pass
}

fn each_tree<L: Ledger>(
    forest: &Forest<Sum>,
    mut pass: Pass<Sum>,
    trees: u32,
    job: Job,
    round: u32,
    steps: &mut Steps<L>,
) -> Pass<Sum>
    requires forest { IsPassOf forest.now pass }
    requires trees { trees ≤ pass.plan.trees }
    ensures { IsSamePass pass result }
{
    for tree in 0..trees {
        if job.posts {
            let value = job.value.saturating_add(u64::from(round)).min(LEAF);
            pass = post_once(forest, pass, tree, value, steps);
        }
        if job.reads {
            pass = read_once(forest, pass, tree, steps);
        }
    }
    pass
}

fn post_once<L: Ledger>(
    forest: &Forest<Sum>,
    mut pass: Pass<Sum>,
    tree: u32,
    value: u64,
    steps: &mut Steps<L>,
) -> Pass<Sum>
    requires forest { IsPassOf forest.now pass }
    requires tree { tree < pass.plan.trees }
    requires capped { value ≤ LEAF }
    ensures { IsSamePass pass result }
{
    if pass.left(tree) > 0 && pass.reserve(1).is_ok() {
        forest.post(&mut pass, tree, value, steps);
    }
    pass
}

fn read_once<L: Ledger>(
    forest: &Forest<Sum>,
    mut pass: Pass<Sum>,
    tree: u32,
    steps: &mut Steps<L>,
) -> Pass<Sum>
    requires forest { IsPassOf forest.now pass }
    requires tree { tree < pass.plan.trees }
    ensures { IsSamePass pass result }
{
    if pass.reserve(1).is_ok() {
        forest.read(&mut pass, tree, steps);
    }
    pass
}

// All passes on threads of their own.
fn run_all<R: Threads + Sync>(
    rt: &R,
    forest: &Forest<Sum>,
    passes: Vec<Pass<Sum>>,
    trees: u32,
    job: Job,
) -> Option<Vec<Pass<Sum>>>
    requires trees { trees ≤ forest.now.plan.trees }
    requires all { AreAllOf forest.now passes.items }
    ensures { IfSome result (λ after. AreAllOf forest.now after.items) }
{
    let run = |pass: Pass<Sum>|
        requires { IsPassOf forest.now pass × (trees ≤ pass.plan.trees) }
        ensures { IsSamePass pass result }
    { work(forest, pass, trees, job) };
    match thread::map_vec(rt, passes, &run) {
        Ok(after) => Some(after),
        Err(_) => None,
    }
}

// The same, one job after another.
fn run_jobs<R: Threads + Sync>(
    rt: &R,
    forest: &Forest<Sum>,
    passes: Vec<Pass<Sum>>,
    trees: u32,
    jobs: [Job; 3],
) -> Option<Vec<Pass<Sum>>>
    requires trees { trees ≤ forest.now.plan.trees }
    requires all { AreAllOf forest.now passes.items }
    ensures { IfSome result (λ after. AreAllOf forest.now after.items) }
{
    let passes = run_all(rt, forest, passes, trees, jobs[0])?;
    let passes = run_all(rt, forest, passes, trees, jobs[1])?;
    run_all(rt, forest, passes, trees, jobs[2])
}

// The record of these jobs in the first trees of a forest.
fn record_of<R: Threads + Sync>(
    rt: &R,
    alloc: Global,
    sessions: u32,
    trees: u32,
    used: u32,
    jobs: [Job; 3],
) -> Option<Record>
    requires sessions { (1 ≤ sessions) × (sessions ≤ SESSIONS) }
    requires trees { (1 ≤ trees) × (trees ≤ TREES) }
    requires used { used ≤ trees }
    ensures lawful { IfSome result (λ taken. IsLawful 0 LEAF sum_of taken) }
    ensures trees { IfSome result (λ taken. taken.shape.trees ≡ trees) }
{
    let shape = Shape::of(sessions, trees);
    let Ok((forest, keeper, passes)) = Forest::<Sum>::open(alloc, shape, sessions, 2000) else {
        return None;
    };
    let passes = run_jobs(rt, &forest, passes, used, jobs)?;
    close(forest, keeper, passes)
}

fn close(forest: Forest<Sum>, keeper: Keeper<Sum>, passes: Vec<Pass<Sum>>) -> Option<Record>
    requires keeper { keeper ≡ forest }
    requires passes { AreAllOf forest passes.items }
    ensures lawful { IfSome result (λ taken. IsLawful 0 LEAF sum_of taken) }
    ensures trees { IfSome result (λ taken. taken.shape.trees ≡ forest.plan.trees) }
{
    let Ok(taken) = forest.close(keeper, passes) else {
        return None;
    };
    Some(taken)
}

// The place of a call that is a read of the tree, where it is as the walk says; of any other call
// the last place.
fn place_of_call<'a>(
    walk: &mut Walk<'a, Sum>,
    history: &'a History,
    last: u32,
    call: &Call,
    tree: u32,
) -> Option<u32>
    requires lines { walk.old.lines ≡ history.now.lines.items }
    requires last { walk.old.place ≡ last }
    ensures lines { walk.new.lines ≡ walk.old.lines }
    ensures place { IfSome result (λ p. walk.new.place ≡ p) }
{
    let Call::Read {
        tree: of,
        stamp,
        value,
    } = *call
    else {
        return Some(last);
    };
    if of != tree {
        return Some(last);
    }
    if stamp as usize >= history.places.len() {
        return None;
    }
    let here = place(history, stamp);
    if here < last || here as usize > history.lines.len() {
        return None;
    }
    if walk.to(here) == value {
        Some(here)
    } else {
        None
    }
}

// Whether each read of the tree by one session is as a walk says.
fn reads_agree(history: &History, calls: &[Call], tree: u32) -> bool
    requires { AreLines LEAF history.now.lines.items }
{
    let mut walk = Walk::<Sum>::start(history);
    let mut last = 0;
    for call in calls {
        let Some(here) = place_of_call(&mut walk, history, last, call, tree) else {
            return false;
        };
        last = here;
    }
    true
}

// How many lines the tree has, where each read of it is as a walk says.
fn lines_of_tree(alloc: Global, taken: &Record, prepared: &Prepared, tree: u32) -> Option<usize>
    requires lawful { IsLawful 0 LEAF sum_of taken.now }
    requires prepared { prepared.now ≡ taken.now }
    requires tree { tree < taken.now.shape.trees }
{
    let Ok(history) = replay_of::<Sum>(alloc, prepared, tree) else {
        return None;
    };
    for did in &taken.passes {
        if !reads_agree(&history, &did.calls, tree) {
            return None;
        }
    }
    Some(history.lines.len())
}

const NONE: Job = Job {
    only: None,
    rounds: 0,
    value: 0,
    posts: false,
    reads: false,
};

const FIRST_POSTS: Job = Job {
    only: Some(0),
    rounds: 1,
    value: 5,
    posts: true,
    reads: false,
};

const SECOND_POSTS: Job = Job {
    only: Some(1),
    rounds: 1,
    value: 7,
    posts: true,
    reads: false,
};

const FIRST_READS: Job = Job {
    only: Some(0),
    rounds: 1,
    value: 0,
    posts: false,
    reads: true,
};

const LINES: [Line; 2] = [
    Line {
        session: 0,
        index: 1,
        value: 5,
    },
    Line {
        session: 1,
        index: 1,
        value: 7,
    },
];

#[test]
fn two_posts_and_a_read_are_in_order(rt: HostRuntime) -> Result<(), Fail> {
    const JOBS: [Job; 3] = [FIRST_POSTS, SECOND_POSTS, FIRST_READS];
    let Some(taken) = record_of(&rt, rt.alloc(), 2, 1, 1, JOBS) else {
        panic!(rt; "no record")
    };
    let Ok(history) = replay::<Sum>(rt.alloc(), &taken, 0) else {
        panic!(rt; "no memory")
    };
    assert_eq!(rt; history.lines.as_slice(), LINES.as_slice(), "lines");
    assert_eq!(rt; history.places.as_slice(), [0, 1, 2].as_slice(), "places");
    assert_eq!(rt; at::<Sum>(&history, 1), 5, "the root after one post");
    let Ok(prepared) = Prepared::of(rt.alloc(), &taken) else {
        panic!(rt; "no memory")
    };
    let lines = lines_of_tree(rt.alloc(), &taken, &prepared, 0);
    assert_eq!(rt; lines, Some(2), "the read");
    Ok(())
}

const BOTH: Job = Job {
    only: None,
    rounds: 1,
    value: 3,
    posts: true,
    reads: true,
};

#[test]
fn reads_on_threads_are_as_a_walk_says(rt: HostRuntime) -> Result<(), Fail> {
    const RUNS: [(&str, u32, u32, u32, u32, usize); 4] = [
        ("two sessions", 2, 1, 1, 1000, 2000),
        ("eight sessions", 8, 13, 13, 60, 480),
        ("one session, no level", 1, 1, 1, 50, 50),
        ("a tree without a post", 2, 1, 0, 1, 0),
    ];
    for (name, sessions, trees, used, rounds, lines) in RUNS {
        let job = Job { rounds, ..BOTH };
        let Some(taken) = record_of(&rt, rt.alloc(), sessions, trees, used, [job, NONE, NONE])
        else {
            panic!(rt; "no record")
        };
        let Ok(prepared) = Prepared::of(rt.alloc(), &taken) else {
            panic!(rt; "no memory")
        };
        for tree in 0..trees {
            assert_eq!(rt;
                lines_of_tree(rt.alloc(), &taken, &prepared, tree),
                Some(lines),
                "{name}, {tree}"
            );
        }
    }
    Ok(())
}
