//! The search for an entry among the executed ones.

ghost use Rattle.std.specs.Prelude.{◌≡◌, ◌<◌, ◌≤◌, ℕ, false, List, slice_get, IfOk};
ghost use Rattle.std.specs.Option.{option_map, option_map_or, IfSome};
ghost use Rattle.crsm_ledger.specs.Ledger.{LedgerStands, executed_count};
ghost use Rattle.crsm_spec.specs.Types.{Rec};
ghost use Rattle.crsm_spec.specs.Clients.{find_executed};
ghost use Rattle.crsm_spec.specs.Log.{executed};
ghost use Rattle.crsm_replica_results.specs.Rising.{WhereRising, IsBeforeAt, is_same};

use crsm_base::{Entry, NoMemory, entry_precedes, is_same_stamp};
use crsm_ledger::Ledger;

/// Returns the index of the entry among the executed ones, or `None` if it is not executed. `NoMemory` if memory runs
/// out.
pub fn place_of(ledger: &Ledger, entry: &Entry) -> Result<Option<u64>, NoMemory>
    ensures within { IfOk result (λ r. IfSome r (λ place. place < executed_count ledger.now)) }
    ensures value { WhereRising ledger.now (λ log. IfOk result (λ r. r ≡ option_map (λ p. p.0) (find_executed (executed log) entry.now))) }
{
    if ledger.is_ahead(entry) {
        return Ok(None);
    }
    Ok(seek(ledger, entry)?)
}

/// Searches for the entry. Executed entries ascend, and the one asked for is nearly always among the last: so the
/// search starts at the end, in doubled steps and then in halves.
fn seek(ledger: &Ledger, entry: &Entry) -> Result<Option<u64>, NoMemory>
    ensures within { IfOk result (λ r. IfSome r (λ place. place < executed_count ledger.now)) }
    ensures value { WhereRising ledger.now (λ log. IfOk result (λ r. r ≡ option_map (λ p. p.0) (find_executed (executed log) entry.now))) }
{
    let end = ledger.executed_len();
    let mut low = 0;
    let mut high = end;
    let mut back: u64 = 1;
    while low < high {
        let middle = middle_of(low, high, back);
        back = back.saturating_mul(2);
        if is_before_at(ledger, middle, entry)? {
            low = middle + 1;
        } else {
            high = middle;
        }
    }
    if end <= low {
        return Ok(None);
    }
    if is_at(ledger, low, entry)? {
        Ok(Some(low))
    } else {
        Ok(None)
    }
}

/// Returns an index below `high`: `back` before the last one, or halfway down to `low` if that is nearer.
fn middle_of(low: u64, high: u64, back: u64) -> u64
    requires { low < high }
    ensures above { low ≤ result }
    ensures below { result < high }
{
    high - 1 - back.min((high - low) / 2)
}

/// Returns whether the executed entry with this index is the entry.
fn is_at(ledger: &Ledger, place: u64, entry: &Entry) -> Result<bool, NoMemory>
    requires { place < executed_count ledger.now }
    ensures { (me n : ℕ) (log : List Rec) → LedgerStands me n ledger.now log → IfOk result (λ at. at ≡ option_map_or (is_same entry.now) (slice_get (executed log) place) false) }
{
    let found = ledger.executed_at(place)?;
    Ok(are_same(&found, entry))
}

/// Returns whether the executed entry with this index comes before the entry.
fn is_before_at(ledger: &Ledger, place: u64, entry: &Entry) -> Result<bool, NoMemory>
    requires { place < executed_count ledger.now }
    ensures { (me n : ℕ) (log : List Rec) → LedgerStands me n ledger.now log → IfOk result (IsBeforeAt (executed log) place entry.now) }
{
    let found = ledger.executed_at(place)?;
    Ok(entry_precedes(&found, entry))
}

/// Returns whether both have the same position in the global order.
#[tactic(auto, unfolding(crate::specs::Rising::is_same))]
fn are_same(a: &Entry, b: &Entry) -> bool
    ensures { result ≡ is_same b.now a.now }
{
    a.epoch == b.epoch && is_same_stamp(a.stamp, b.stamp)
}
