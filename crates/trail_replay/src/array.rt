//! The components of the plain array.
ghost use Rattle.std.specs.Prelude.{◌≡◌, ◌<◌};
ghost use Rattle.std.specs.List.{AllByRecursion};
ghost use Rattle.fold_law.specs.declared.limits.TheConstants.{SESSIONS};
ghost use Rattle.trail_replay.specs.Arrays.{after_lines};

use fold_law::SESSIONS;
use risk_board::Line;

/// A component for each session of a run.
pub(crate) type Leaves = [u64; SESSIONS as usize];

/// Sets the components of these lines' sessions, line by line.
pub(crate) fn set_lines(leaves: &mut Leaves, lines: &[Line])
    requires { AllByRecursion (λ line. line.session < SESSIONS) lines.now }
    ensures { leaves.new ≡ after_lines leaves.old lines.now }
{
    for line in lines {
        leaves[line.session as usize] = line.value;
    }
}
