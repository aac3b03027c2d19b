//! Appending of lines to lines.

ghost use Rattle.std.specs.Prelude.{◌≡◌, ◌++◌, ℕ, drop, take, OnOk};

use crsm_base::{Line, Lines, NoMemory};
use std::alloc::Global;

/// Appends copies of lines. `NoMemory` if memory runs out.
pub(crate) fn add(alloc: Global, more: &[Line], lines: &mut Lines) -> Result<(), NoMemory>
    ensures { OnOk result (lines.new ≡ lines.old ++ more.now) }
{
    for line in more {
        lines.push(line.copy(alloc)?)?;
    }
    Ok(())
}

/// Appends the first of these lines, as many as `count` says. Those after the first stay. `NoMemory` if memory runs
/// out.
pub(crate) fn add_first(
    alloc: Global,
    more: &mut Lines,
    count: usize,
    lines: &mut Lines,
) -> Result<(), NoMemory>
    ensures added { OnOk result (lines.new ≡ lines.old ++ take count more.old) }
    ensures stay { OnOk result (drop count more.new ≡ drop count more.old) }
{
    let told = more.as_slice();
    if count < told.len() {
        add(alloc, &told[..count], lines)?;
        return Ok(());
    }
    // Nearly always all of them are appended: they are moved.
    lines.append(more)?;
    Ok(())
}
