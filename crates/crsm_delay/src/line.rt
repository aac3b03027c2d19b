//! The lines of a plan after its first one, each without its line feed.

ghost use Rattle.std.specs.Prelude.{◌≡◌, ◌++◌, IfSome, codes};
ghost use Rattle.crsm_delay.specs.Grammar.{FitsLine, line_text};
ghost use Rattle.crsm_delay.specs.declared.line.PlanLine.{PlanLine as Spelt};

use crsm_text::{read_number, two_fields, two_numbers};

/// A line of a plan.
#[derive(Clone, Copy, Debug, PartialEq, Eq)]
pub enum PlanLine {
    /// The clock of the replica is ahead by `by` microseconds.
    Offset { replica: u64, by: u64 },
    /// Datagrams from replica `from` to replica `to` take `by` microseconds.
    Delay { from: u64, to: u64, by: u64 },
    /// The command reaches the replica at the moment `at`, in microseconds.
    Command { replica: u64, at: u64 },
}

fn offset_of(text: &[u8]) -> Option<PlanLine>
    ensures found { IfSome result (λ l. FitsLine l × (codes "offset " ++ text.now ≡ line_text l)) }
    ensures only { (l : Spelt) → FitsLine l → codes "offset " ++ text.now ≡ line_text l → result ≡ Some l }
{
    let (replica, by) = two_numbers(text)?;
    Some(PlanLine::Offset { replica, by })
}

fn delay_of(text: &[u8]) -> Option<PlanLine>
    ensures found { IfSome result (λ l. FitsLine l × (codes "delay " ++ text.now ≡ line_text l)) }
    ensures only { (l : Spelt) → FitsLine l → codes "delay " ++ text.now ≡ line_text l → result ≡ Some l }
{
    let (from, to, rest) = two_fields(text)?;
    let by = read_number(rest)?;
    Some(PlanLine::Delay { from, to, by })
}

fn command_of(text: &[u8]) -> Option<PlanLine>
    ensures found { IfSome result (λ l. FitsLine l × (codes "command " ++ text.now ≡ line_text l)) }
    ensures only { (l : Spelt) → FitsLine l → codes "command " ++ text.now ≡ line_text l → result ≡ Some l }
{
    let (replica, at) = two_numbers(text)?;
    Some(PlanLine::Command { replica, at })
}

/// Parses a line of a plan. `None` if it is outside the grammar.
pub fn read_line(text: &[u8]) -> Option<PlanLine>
    ensures found { IfSome result (λ l. FitsLine l × (text.now ≡ line_text l)) }
    ensures only { (l : Spelt) → FitsLine l → text.now ≡ line_text l → result ≡ Some l }
{
    if let Some(rest) = text.strip_prefix(b"offset ") {
        return offset_of(rest);
    }
    if let Some(rest) = text.strip_prefix(b"delay ") {
        return delay_of(rest);
    }
    if let Some(rest) = text.strip_prefix(b"command ") {
        return command_of(rest);
    }
    None
}
