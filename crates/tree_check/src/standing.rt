//! How sessions stand in a tree: what each has posted, and what of it is admitted.
ghost use Rattle.std.specs.Prelude.{◌≡◌, ℕ, ◌≤◌, ◌<◌, length, nat_le, replicate, map, IfOk};
ghost use Rattle.std.specs.List.{AllByRecursion};
ghost use Rattle.fold_law.specs.declared.limits.TheConstants.{SESSIONS};
ghost use Rattle.admit_core.specs.Admitted.{after_moment, nothing};
ghost use Rattle.tree_check.specs.Reads.{line_moment, read_moment};
ghost use Rattle.tree_check.specs.Staying.{admitted_by, standing_values, IsLow, IsOwn};

use crate::read_at::ReadAt;
use fold_law::Memory;
use risk_board::Line;
use std::alloc::Global;

/// What a session has posted in a tree, and how much of it is admitted, in currency units.
#[derive(Clone, Copy, Debug, PartialEq, Eq)]
pub(crate) struct Standing {
    pub posted: u64,
    pub admitted: u64,
}

/// So many sessions that have posted nothing.
pub(crate) fn new_standings(alloc: Global, sessions: u32) -> Result<Vec<Standing>, Memory>
    ensures values { IfOk result (λ all. standing_values all.items ≡ replicate sessions nothing) }
    ensures low { IfOk result (λ all. AllByRecursion IsLow all.items) }
    ensures many { IfOk result (λ all. length all.items ≡ sessions) }
{
    let mut all = Vec::new(alloc);
    for _ in 0..sessions {
        let none = Standing {
            posted: 0,
            admitted: 0,
        };
        let Ok(()) = all.push(none) else {
            return Err(Memory);
        };
    }
    Ok(all)
}

/// A post lowers what its session has admitted to it.
pub(crate) fn take_line(standings: &mut [Standing], line: &Line)
    requires own { IsOwn (length standings.old) line.now }
    requires low { AllByRecursion IsLow standings.old }
    ensures taken { (limit : ℕ) → standing_values standings.new
        ≡ after_moment limit (standing_values standings.old) (line_moment line.now) }
    ensures low { AllByRecursion IsLow standings.new }
{
    let session = line.session as usize;
    let before = standings[session];
    standings[session] = Standing {
        posted: line.value,
        admitted: before.admitted.min(line.value),
    };
}

/// A read within the limit admits what its session has posted.
pub(crate) fn take_read(standings: &mut [Standing], limit: u64, read: &ReadAt)
    requires session { read.now.session < length standings.old }
    requires low { AllByRecursion IsLow standings.old }
    ensures taken { standing_values standings.new
        ≡ after_moment limit (standing_values standings.old) (read_moment read.now) }
    ensures low { AllByRecursion IsLow standings.new }
{
    let session = read.session as usize;
    let before = standings[session];
    let admitted = if read.value <= limit {
        before.posted
    } else {
        before.admitted
    };
    standings[session] = Standing {
        posted: before.posted,
        admitted,
    };
}

/// Whether what is admitted over all sessions is within the limit.
pub(crate) fn is_within(standings: &[Standing], limit: u64) -> bool
    requires low { AllByRecursion IsLow standings.now }
    requires few { length standings.now ≤ SESSIONS }
    ensures { result ≡ nat_le (admitted_by (standing_values standings.now)) limit }
{
    let mut sum = 0;
    for own in standings {
        sum += own.admitted;
    }
    sum <= limit
}
