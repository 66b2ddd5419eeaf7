//! A session as a task, before it runs and after.
ghost use Rattle.std.specs.Prelude.{◌≡◌, ◌≤◌, [], length, map, vec_capacity};

use gate_files::Opened;
use risk_journal::{Act, End};

/// A session to be run: what it takes along, and its objects.
#[derive(Drop)]
pub struct Task<W, S, K> {
    pub own: W,
    pub opened: Opened<S, K>,
}

/// A session that was run: its pass on the forests, what it did, how it ended, and its objects.
#[derive(Drop)]
pub struct TaskDone<P, S, K> {
    pub pass: P,
    pub acts: Vec<Act>,
    pub end: End,
    pub opened: Opened<S, K>,
}

/// A task for each session that was opened, with what stands in its place of what they take along.
/// There is room for them.
pub(crate) fn all_waiting<W: Drop, S: Drop, K: Drop>(
    own: Vec<W>,
    opened: Vec<Opened<S, K>>,
    room: Vec<Task<W, S, K>>,
) -> Vec<Task<W, S, K>>
    requires many { length own.items ≡ length opened.items }
    requires empty { room.items ≡ [] }
    requires room { length opened.items ≤ vec_capacity room }
    ensures own { map (λ t. t.own) result.items ≡ own.items }
    ensures opened { map (λ t. t.opened) result.items ≡ opened.items }
{
    let mut left = own;
    let mut tasks = room;
    for one in opened {
        tasks.push_reserved(Task {
            own: left.remove(0),
            opened: one,
        });
    }
    tasks
}

/// The objects of tasks that were not run. There is room for them.
pub(crate) fn opened_of<W: Drop, S: Drop, K: Drop>(
    tasks: Vec<Task<W, S, K>>,
    room: Vec<Opened<S, K>>,
) -> Vec<Opened<S, K>>
    requires empty { room.items ≡ [] }
    requires room { length tasks.items ≤ vec_capacity room }
    ensures { result.items ≡ map (λ t. t.opened) tasks.items }
{
    let mut all = room;
    for task in tasks {
        all.push_reserved(task.opened);
    }
    all
}
