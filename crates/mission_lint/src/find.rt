//! All lines.
ghost use Rattle.std.specs.Prelude.{◌≡◌, IfOk};
ghost use Rattle.mission_lint.specs.Lines.{lint_of};

use crate::rules::push_rule_lines;
use lint_lines::{Lines, push_script_lines, push_word_lines};
use mission_type::Mission;
use std::alloc::{AllocError, Global};

/// The lines that are written of a mission.
pub fn find_lines(alloc: Global, mission: &Mission) -> Result<Lines, AllocError>
    ensures { IfOk result (λ lines. lines.items ≡ lint_of mission.now) }
{
    let mut lines = Lines::new(alloc);
    push_rule_lines(mission, &mut lines)?;
    push_script_lines(mission, &mut lines)?;
    push_word_lines(mission, &mut lines)?;
    Ok(lines)
}
