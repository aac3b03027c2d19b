//! The lines of an audit, and their order.

ghost use Rattle.std.specs.Prelude.{◌≡◌, ◌<◌, IfOk, IfSome, Some};
ghost use Rattle.std.specs.Prelude.{ℕ, decimal};
ghost use Rattle.crsm_text.specs.Reads.{ReadsAs};
ghost use Rattle.crsm_audit.specs.declared.line.AuditLine.{AuditLine as Spelt};
ghost use Rattle.crsm_audit.specs.Lines.{FitsLine, line_text};
ghost use Rattle.crsm_audit.specs.Lines as on_paper;

use crsm_text::read_number;
use crsm_text_sheet::{LineError, SheetLine, read_sheet};
use std::alloc::Global;

/// A line of an audit.
#[derive(Drop)]
pub(crate) enum AuditLine {
    /// The sheet of this node begins.
    Node { me: u32 },
    /// A line of the current sheet.
    Sheet { line: SheetLine },
}

/// The progress of the current sheet.
#[derive(Clone, Copy, Debug, PartialEq, Eq)]
pub(crate) enum Progress {
    /// No sheet has begun.
    Before,
    /// Bodies of its log may follow.
    Finding,
    /// Its log was read to its end, and turns may follow.
    Running,
}

/// Parses the number of a node.
fn node_of(word: &[u8]) -> Option<u32>
    ensures found { IfSome result (λ me. (me < 15) × (word.now ≡ decimal me)) }
    ensures only { (me : ℕ) → me < 15 → word.now ≡ decimal me → result ≡ Some me }
{
    let number = read_number(word)?;
    if number < 15 {
        Some(number as u32)
    } else {
        None
    }
}

/// Parses a line of an audit.
pub(crate) fn read_line(alloc: Global, text: &[u8]) -> Result<AuditLine, LineError>
    ensures found { IfOk result (λ line. FitsLine line × (text.now ≡ line_text line)) }
    ensures only { (line : Spelt) → FitsLine line → text.now ≡ line_text line → ReadsAs result line }
{
    if let Some(word) = text.strip_prefix(b"node ") {
        let Some(me) = node_of(word) else {
            return Err(LineError::Unreadable);
        };
        return Ok(AuditLine::Node { me });
    }
    let line = read_sheet(alloc, text)?;
    Ok(AuditLine::Sheet { line })
}

/// Returns the progress of a sheet after this line, or `None` if it cannot follow.
fn behind(progress: Progress, line: &SheetLine) -> Option<Progress>
    ensures { result ≡ on_paper.behind progress line.now }
{
    match (progress, line) {
        (Progress::Finding, SheetLine::Entry { .. }) => Some(Progress::Finding),
        (Progress::Finding, SheetLine::Open) => Some(Progress::Running),
        (Progress::Running, SheetLine::In { .. }) => Some(Progress::Running),
        (Progress::Running, SheetLine::Tick { .. }) => Some(Progress::Running),
        (Progress::Running, SheetLine::Suspect { .. }) => Some(Progress::Running),
        _ => None,
    }
}

/// Returns the progress of the current sheet after this line, or `None` if it cannot follow.
pub(crate) fn follows(progress: Progress, line: &AuditLine) -> Option<Progress>
    ensures { result ≡ on_paper.follows progress line.now }
{
    match line {
        AuditLine::Node { .. } => match progress {
            Progress::Finding => None,
            Progress::Before | Progress::Running => Some(Progress::Finding),
        },
        AuditLine::Sheet { line } => behind(progress, line),
    }
}
