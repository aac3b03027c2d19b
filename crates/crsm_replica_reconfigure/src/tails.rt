//! The tests whether the rest of a decision's tail follows the executed entries.

ghost use Rattle.std.specs.Prelude.{◌≡◌, ◌≢◌, ◌<◌, ◌+◌, ◌-◌, ◌^◌, [], ◌++◌, true, length, IfOk, slice_get};
ghost use Rattle.std.specs.Option.{option_map_or, option_copied};
ghost use Rattle.crsm_base.specs.Order.{entry_lt};
ghost use Rattle.crsm_spec.specs.Log.{Log, executed, decision};
ghost use Rattle.crsm_spec.specs.Draft.{Draft};
ghost use Rattle.crsm_ledger.specs.Ledger.{LedgerStands};
ghost use Rattle.std.specs.Prelude.{ℕ};
ghost use Rattle.crsm_replica.specs.Replica.{ReplicaStands};
ghost use Rattle.crsm_replica_reconfigure.specs.Rules.{tail_goes_on, rest_goes_on, first_left};

use crsm_base::{Decision, Entries, Entry, NoMemory, entry_precedes};
use crsm_ledger::Ledger;
use crsm_replica::ReplicaState;

/// Returns whether the rest of the decision's tail follows the executed entries, if its base is executed. `NoMemory` if
/// memory runs out.
pub fn tail_goes_on(state: &ReplicaState, decision: &Decision) -> Result<bool, NoMemory>
    ensures { IfOk result (λ b. (x : Draft) → ReplicaStands state.now x → b ≡ tail_goes_on decision.now (executed x.replica.log)) }
{
    let Some(entry) = first_left(decision, state.executed_len(), 0) else {
        return Ok(true);
    };
    stands_behind(state.ledger(), entry)
}

/// Returns whether the rest of the known decision's tail follows the executed entries and `entries`, which is not
/// empty. `NoMemory` if memory runs out.
pub fn rest_goes_on(state: &ReplicaState, entries: &Entries) -> Result<bool, NoMemory>
    requires { entries.now ≢ [] }
    ensures { IfOk result (λ b. (x : Draft) → ReplicaStands state.now x → b ≡ rest_goes_on (decision x.replica.log) (executed x.replica.log ++ entries.now)) }
{
    let Some(decision) = state.decision()? else {
        return Ok(true);
    };
    let entries = entries.as_slice();
    let Some(entry) = first_left(&decision, state.executed_len(), entries.len()) else {
        drop(decision);
        return Ok(true);
    };
    let is_behind = ends_before(entries, entry);
    drop(decision);
    Ok(is_behind)
}

/// Returns the first entry of the tail that is not among the `done` executed ones and the `more` after them, or `None`
/// if these do not contain the base or no entry is left.
fn first_left(decision: &Decision, done: u64, more: usize) -> Option<&Entry>
    requires { more < 2 ^ 63 }
    ensures { option_copied result ≡ first_left decision.now (done + more) }
{
    let tail = decision.tail.as_slice();
    if done < decision.base_len {
        let missing = decision.base_len - done;
        if (more as u64) < missing {
            return None;
        }
        return tail.get((more as u64 - missing) as usize);
    }
    let start = (done - decision.base_len).min(tail.len() as u64);
    tail.get(start as usize + more)
}

/// Returns whether the entry is after the last executed one, if any.
fn stands_behind(ledger: &Ledger, entry: &Entry) -> Result<bool, NoMemory>
    ensures { IfOk result (λ b. (me n : ℕ) (log : Log) → LedgerStands me n ledger.now log → b ≡ option_map_or (λ f. entry_lt f entry.now) (slice_get (executed log) (length (executed log) - 1)) true) }
{
    let found = ledger.executed(ledger.executed_len().saturating_sub(1))?;
    let Some(last) = found else {
        return Ok(true);
    };
    let is_behind = entry_precedes(&last, entry);
    drop(last);
    Ok(is_behind)
}

/// Returns whether the entry is after the last of these, if any.
fn ends_before(entries: &[Entry], entry: &Entry) -> bool
    ensures { result ≡ option_map_or (λ f. entry_lt f entry.now) (slice_get entries.now (length entries.now - 1)) true }
{
    let Some(last) = entries.get(entries.len().saturating_sub(1)) else {
        return true;
    };
    entry_precedes(last, entry)
}
