//! The answers in the lines of a step.

ghost use Rattle.std.specs.Prelude.{List, IfSome};
ghost use Rattle.std.specs.List.{AllByRecursion};
ghost use Rattle.crsm_spec.specs.Types.{Entry};
ghost use Rattle.crsm_replica_results.specs.Answering.{IsTrueOf, IsAnswerAt};

use crsm_base::{Answer, Line, NoMemory};
use std::alloc::Global;

/// Returns the indices of the lines of executed entries, in order. It is a hint: `answer_to` reads the line itself.
/// `NoMemory` if memory runs out.
pub fn executions(alloc: Global, lines: &[Line]) -> Result<Vec<usize>, NoMemory> {
    let mut indices = Vec::new(alloc);
    for index in 0..lines.len() {
        if let Line::Exec { .. } = &lines[index] {
            indices.push(index)?;
        }
    }
    Ok(indices)
}

/// Returns the answer to the executed entry with index `place`, or `None` if no line has it. The executed entries of
/// one step have consecutive indices.
pub fn told_at<'a>(lines: &'a [Line], executions: &[usize], place: u64) -> Option<&'a Answer>
    ensures { (done : List Entry) → AllByRecursion (IsTrueOf done) lines.now → IfSome result (λ answer. IsAnswerAt done place answer.now) }
{
    let first = place_told(line_at(lines, executions, 0)?)?;
    if place < first {
        return None;
    }
    let line = line_at(lines, executions, place - first)?;
    answer_in(line, place)
}

/// Returns the line of this execution.
fn line_at<'a>(lines: &'a [Line], executions: &[usize], index: u64) -> Option<&'a Line>
    ensures { (done : List Entry) → AllByRecursion (IsTrueOf done) lines.now → IfSome result (λ line. IsTrueOf done line.now) }
{
    let index = executions.get(index as usize)?;
    lines.get(*index)
}

fn place_told(line: &Line) -> Option<u64> {
    match line {
        Line::Exec { place, .. } => Some(*place),
        _ => None,
    }
}

/// Returns the answer that a line has for the index `at`.
fn answer_in(line: &Line, at: u64) -> Option<&Answer>
    ensures { (done : List Entry) → IsTrueOf done line.now → IfSome result (λ answer. IsAnswerAt done at answer.now) }
{
    match line {
        Line::Exec { place, answer, .. } if *place == at => Some(answer),
        _ => None,
    }
}
