//! The answer to an entry.

ghost use Rattle.std.specs.Prelude.{◌≡◌, ◌<◌, ℕ, List, None, IsTrue, IfOk};
ghost use Rattle.std.specs.List.{AllByRecursion};
ghost use Rattle.crsm_ledger.specs.Ledger.{LedgerStands, executed_count};
ghost use Rattle.crsm_spec.specs.Types.{Rec};
ghost use Rattle.crsm_spec.specs.Log.{executed};
ghost use Rattle.crsm_replica_results.specs.Answering.{IsTrueOf, IsAnswerAt, answered};
ghost use Rattle.crsm_replica_results.specs.Rising.{WhereRising};

use crate::place::place_of;
use crate::replay::replay;
use crate::told::told_at;
use crsm_base::{Answer, Entry, Line, NoMemory};
use crsm_ledger::Ledger;
use std::alloc::Global;

/// Returns the index of an entry among the executed ones and the store's answer to it, or `None` if it is not executed.
/// `lines` are those of a step that executed entries, and `executions` the indices of their execution lines. An entry
/// of an earlier step is executed again in a separate store. `NoMemory` if memory runs out.
pub fn answer_to(
    alloc: Global,
    ledger: &Ledger,
    lines: &[Line],
    executions: &[usize],
    entry: &Entry,
) -> Result<Option<(u64, Answer)>, NoMemory>
    ensures { WhereRising ledger.now (λ log. AllByRecursion (IsTrueOf (executed log)) lines.now → IfOk result (λ r. r ≡ answered (executed log) entry.now)) }
{
    match place_of(ledger, entry)? {
        Some(place) => {
            let answer = answer_at(alloc, ledger, lines, executions, place)?;
            Ok(Some((place, answer)))
        }
        None => Ok(None),
    }
}

/// Returns whether the entry is after all executed ones, and so has no answer yet.
pub fn has_no_answer(ledger: &Ledger, entry: &Entry) -> bool
    ensures { WhereRising ledger.now (λ log. IsTrue result → None ≡ answered (executed log) entry.now) }
{
    ledger.is_ahead(entry)
}

/// Returns the answer to the executed entry with this index.
fn answer_at(
    alloc: Global,
    ledger: &Ledger,
    lines: &[Line],
    executions: &[usize],
    place: u64,
) -> Result<Answer, NoMemory>
    requires { place < executed_count ledger.now }
    ensures { (me n : ℕ) (log : List Rec) → LedgerStands me n ledger.now log → AllByRecursion (IsTrueOf (executed log)) lines.now →
        IfOk result (IsAnswerAt (executed log) place) }
{
    match told_at(lines, executions, place) {
        Some(answer) => answer.copy(alloc),
        None => replay(alloc, ledger, place),
    }
}
