//! The answer to an entry of an earlier step.

ghost use Rattle.std.specs.Prelude.{◌<◌, ℕ, List, IfOk};
ghost use Rattle.crsm_ledger.specs.Ledger.{LedgerStands, executed_count};
ghost use Rattle.crsm_spec.specs.Types.{Rec};
ghost use Rattle.crsm_spec.specs.Log.{executed};
ghost use Rattle.crsm_replica_results.specs.Answering.{IsAnswerAt};

use crsm_base::{Answer, NoMemory};
use crsm_kv::Store;
use crsm_ledger::Ledger;
use std::alloc::Global;

/// Executes the entries up to this index in a separate store, and returns the last answer. `NoMemory` if memory runs
/// out.
pub fn replay(alloc: Global, ledger: &Ledger, place: u64) -> Result<Answer, NoMemory>
    requires { place < executed_count ledger.now }
    ensures { (me n : ℕ) (log : List Rec) → LedgerStands me n ledger.now log → IfOk result (IsAnswerAt (executed log) place) }
{
    let mut store = Store::new(alloc)?;
    for before in 0..place {
        let entry = ledger.executed_at(before)?;
        store.apply(&entry.command)?;
    }
    let entry = ledger.executed_at(place)?;
    let answer = store.apply(&entry.command)?;
    Ok(answer)
}
