//! The lines of a class.

ghost use Rattle.std.specs.Prelude.{◌≡◌, ◌<◌, ◌+◌, ◌==◌, ◌&&◌, ℕ, length, reverse, OnOk, IfOk};
ghost use Rattle.std.specs.List.{AllByRecursion, sum_by};
ghost use Rattle.derivation.specs.Logs as logs;
ghost use Rattle.logs.specs.Members as spec;
ghost use Rattle.logs.specs.Sets.{times};

use crate::additions::Additions;
use crate::lookups::founds;
use algebra::{ClassId, LineId};
use derivation::Line;
use std::alloc::{AllocError, Global};

/// Adds the line that founds a class, if one does.
fn push_founding(lines: &[Line], class: ClassId, found: &mut Vec<LineId>) -> Result<(), AllocError>
    ensures { OnOk result ((n : ℕ) → times n found.new.items ≡ times n found.old.items + spec.once_if (logs.founds (reverse lines.now) class && (class == n))) }
{
    if founds(lines, class) {
        found.push(class)?;
    }
    Ok(())
}

/// Adds the lines of a class, the last of them first.
fn push_lines(
    lines: &[Line],
    additions: &Additions,
    class: ClassId,
    found: &mut Vec<LineId>,
) -> Result<(), AllocError>
    requires additions { spec.AreAdditions (reverse lines.now) additions.now }
    requires class { class < length lines.now }
    ensures { OnOk result ((n : ℕ) → times n found.new.items ≡ times n found.old.items + spec.once_of (logs.member (reverse lines.now) n) class) }
{
    let mut line = additions.last_of(class);
    while line != class {
        found.push(line)?;
        line = additions.before(line);
    }
    push_founding(lines, class, found)
}

/// The lines of a class and of those that are the same.
pub fn lines_of(
    alloc: Global,
    lines: &[Line],
    additions: &Additions,
    classes: &[ClassId],
) -> Result<Vec<LineId>, AllocError>
    requires additions { spec.AreAdditions (reverse lines.now) additions.now }
    requires classes { AllByRecursion (λ c. c < length lines.now) classes.now }
    ensures { IfOk result (λ found. (n : ℕ) → times n found.items ≡ sum_by (spec.once_of (logs.member (reverse lines.now) n)) classes.now) }
{
    let mut found = Vec::new(alloc);
    for class in classes {
        push_lines(lines, additions, *class, &mut found)?;
    }
    Ok(found)
}
