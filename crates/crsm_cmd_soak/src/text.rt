//! The text of a summary and of final lines.

ghost use Rattle.std.specs.Prelude.{◌≡◌, ◌++◌, IfOk, OnOk};
ghost use Rattle.crsm_schedule.specs.Transcript.{lines_text};
ghost use Rattle.crsm_cmd_soak.specs.Text.{row, summary_text};

use crate::summary::Summary;
use crsm_base::{Bytes, Line, NoMemory};
use crsm_schedule::push_line;
use itoa::Buffer;
use std::alloc::Global;

/// Appends a line of a word and a number.
fn push_row(text: &mut Bytes, name: &[u8], value: u128) -> Result<(), NoMemory>
    ensures { OnOk result (text.new ≡ text.old ++ row name.now value) }
{
    let mut buffer = Buffer::new();
    text.append(name)?;
    text.push(b' ')?;
    text.append(buffer.format(value).as_bytes())?;
    text.push(b'\n')?;
    Ok(())
}

/// Returns the text of a summary. `NoMemory` if memory runs out.
#[tactic(auto, unfolding(crate::specs::Text::summary_text))]
pub(crate) fn text_of(alloc: Global, summary: &Summary) -> Result<Bytes, NoMemory>
    ensures { IfOk result (λ text. text ≡ summary_text summary.now) }
{
    let mut text = Bytes::new(alloc);
    push_row(&mut text, b"steps", u128::from(summary.steps))?;
    push_row(&mut text, b"submitted", summary.submitted)?;
    push_row(&mut text, b"executed", u128::from(summary.executed))?;
    push_row(&mut text, b"answered", summary.answered)?;
    push_row(&mut text, b"refused", summary.refused)?;
    push_row(&mut text, b"dropped", summary.dropped)?;
    push_row(&mut text, b"epoch", u128::from(summary.epoch))?;
    push_row(&mut text, b"datagrams", summary.datagrams)?;
    Ok(text)
}

/// Appends the text of final lines. `NoMemory` if memory runs out.
pub(crate) fn push_finals(text: &mut Bytes, finals: &[Line]) -> Result<(), NoMemory>
    ensures { OnOk result (text.new ≡ text.old ++ lines_text 0 finals.now) }
{
    for line in finals {
        push_line(text, 0, line)?;
    }
    Ok(())
}
