//! The lines of a session's posts.
ghost use Rattle.std.specs.Prelude.{◌≡◌, ◌+◌, ◌^◌, ◌<◌, ◌≤◌, ◌++◌, length, OnOk};
ghost use Rattle.risk_board.specs.History.{own_lines};
ghost use Rattle.trail_replay.specs.Blocks.{lines_between};

use fold_law::Memory;
use risk_board::Line;

/// Adds the lines of a session's posts after the first so many, up to another number of them.
pub(crate) fn add_between(
    lines: &mut Vec<Line>,
    session: u32,
    before: u32,
    upto: u32,
    values: &[u64],
) -> Result<(), Memory>
    requires ordered { before ≤ upto }
    requires within { upto ≤ length values.now }
    ensures { OnOk result (lines.new.items
        ≡ lines.old.items ++ lines_between session before upto values.now) }
{
    let some = &values[before as usize..upto as usize];
    add_lines(lines, session, before, some)
}

/// Adds the lines of a session's posts, of which the first has the index after this one.
fn add_lines(lines: &mut Vec<Line>, session: u32, before: u32, values: &[u64]) -> Result<(), Memory>
    requires { before + length values.now < 2 ^ 32 }
    ensures { OnOk result (lines.new.items
        ≡ lines.old.items ++ own_lines session (before + 1) values.now) }
{
    let mut index = before;
    for value in values {
        index += 1;
        let line = Line {
            session,
            index,
            value: *value,
        };
        let Ok(()) = lines.push(line) else {
            return Err(Memory);
        };
    }
    Ok(())
}
