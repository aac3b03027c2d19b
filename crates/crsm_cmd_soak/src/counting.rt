//! Counts of lines by their kind.

ghost use Rattle.std.specs.Prelude.{◌≡◌};
ghost use Rattle.std.specs.List.{count_by};
ghost use Rattle.crsm_cmd_soak.specs.Counting as on_paper;
ghost use Rattle.crsm_cmd_soak.specs.Counting.{greatest, is_answer, is_drop, is_refusal, is_send, is_submission};

use crsm_base::Line;

/// Returns whether the line tells of a submitted command.
#[tactic(auto, unfolding(crate::specs::Counting::is_submission))]
fn is_submission(line: &Line) -> bool
    ensures { result ≡ is_submission line.now }
{
    matches!(line, Line::Submit { .. })
}

/// Returns the number of submitted commands among the lines.
pub(crate) fn submissions(lines: &[Line]) -> u64
    ensures { result ≡ count_by is_submission lines.now }
{
    let mut count: u64 = 0;
    for line in lines {
        if is_submission(line) {
            count += 1;
        }
    }
    count
}

/// Returns whether the line is an answer.
#[tactic(auto, unfolding(crate::specs::Counting::is_answer))]
fn is_answer(line: &Line) -> bool
    ensures { result ≡ is_answer line.now }
{
    matches!(line, Line::ReplyOk { .. })
}

/// Returns the number of answers among the lines.
pub(crate) fn answers(lines: &[Line]) -> u64
    ensures { result ≡ count_by is_answer lines.now }
{
    let mut count: u64 = 0;
    for line in lines {
        if is_answer(line) {
            count += 1;
        }
    }
    count
}

/// Returns whether the line is a refusal.
#[tactic(auto, unfolding(crate::specs::Counting::is_refusal))]
fn is_refusal(line: &Line) -> bool
    ensures { result ≡ is_refusal line.now }
{
    matches!(line, Line::ReplyNo { .. })
}

/// Returns the number of refusals among the lines.
pub(crate) fn refusals(lines: &[Line]) -> u64
    ensures { result ≡ count_by is_refusal lines.now }
{
    let mut count: u64 = 0;
    for line in lines {
        if is_refusal(line) {
            count += 1;
        }
    }
    count
}

/// Returns whether the line is a reply that a command is dropped.
#[tactic(auto, unfolding(crate::specs::Counting::is_drop))]
fn is_drop(line: &Line) -> bool
    ensures { result ≡ is_drop line.now }
{
    matches!(line, Line::ReplyDropped { .. })
}

/// Returns the number of replies among the lines that a command is dropped.
pub(crate) fn drops(lines: &[Line]) -> u64
    ensures { result ≡ count_by is_drop lines.now }
{
    let mut count: u64 = 0;
    for line in lines {
        if is_drop(line) {
            count += 1;
        }
    }
    count
}

/// Returns whether the line tells of a datagram sent.
#[tactic(auto, unfolding(crate::specs::Counting::is_send))]
fn is_send(line: &Line) -> bool
    ensures { result ≡ is_send line.now }
{
    matches!(line, Line::Send { .. })
}

/// Returns the number of datagrams sent among the lines.
pub(crate) fn sends(lines: &[Line]) -> u64
    ensures { result ≡ count_by is_send lines.now }
{
    let mut count: u64 = 0;
    for line in lines {
        if is_send(line) {
            count += 1;
        }
    }
    count
}

/// Returns the executed length in a final line, 0 for other lines.
#[tactic(auto, unfolding(crate::specs::Counting::executed_in))]
fn executed_in(line: &Line) -> u64
    ensures { result ≡ on_paper.executed_in line.now }
{
    match line {
        Line::Final { executed, .. } => *executed,
        _ => 0,
    }
}

/// Returns the known epoch in a final line, 0 for other lines.
#[tactic(auto, unfolding(crate::specs::Counting::known_in))]
fn known_in(line: &Line) -> u64
    ensures { result ≡ on_paper.known_in line.now }
{
    match line {
        Line::Final { known, .. } => *known,
        _ => 0,
    }
}

/// Returns the greatest executed length in the lines.
pub(crate) fn greatest_executed(lines: &[Line]) -> u64
    ensures { result ≡ greatest on_paper.executed_in lines.now }
{
    let mut greatest: u64 = 0;
    for line in lines {
        greatest = greatest.max(executed_in(line));
    }
    greatest
}

/// Returns the greatest known epoch in the lines.
pub(crate) fn greatest_known(lines: &[Line]) -> u64
    ensures { result ≡ greatest on_paper.known_in lines.now }
{
    let mut greatest: u64 = 0;
    for line in lines {
        greatest = greatest.max(known_in(line));
    }
    greatest
}
