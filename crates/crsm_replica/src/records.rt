//! The records of a step.

ghost use Rattle.std.specs.Prelude.{◌≡◌, ℕ, false, List, IfOk, None};
ghost use Rattle.crsm_base.specs.Records.{FitsRec};
ghost use Rattle.crsm_ledger.specs.Ledger.{LedgerStands};
ghost use Rattle.crsm_spec.specs.Draft.{keep};
ghost use Rattle.crsm_spec.specs.Fits.{fits};
ghost use Rattle.crsm_spec.specs.Types.{Rec};
ghost use Rattle.crsm_replica.specs.Recorded.{Applied, Recorded, WhereBothStand};
ghost use Rattle.crsm_replica.specs.Replica.{ReplicaStands, MakesFitting, IsPlain};

use crate::state::ReplicaState;
use crsm_base::{Lines, NoMemory, Rec};
use crsm_ledger::{Ledger, LedgerError};
use crsm_replica_output::Output;

impl ReplicaState {
    #[tactic(auto, unfolding(crate::specs::Replica::ReplicaStands))]
    /// Applies a record and adds it with its lines to the output. `false` if it does not fit, `NoMemory` if memory runs
    /// out; with `false` the state is unchanged.
    pub fn keep(&mut self, rec: Rec) -> Result<bool, NoMemory>
        requires plain { IsPlain rec }
        requires spelt { FitsRec rec }
        ensures { MakesFitting (keep rec) self.old result self.new }
    {
        let last = self.ledger.last_stamp();
        let Ok(applied) = apply(&mut self.ledger, &rec) else {
            drop(rec);
            return Err(NoMemory);
        };
        let Some(lines) = applied else {
            drop(rec);
            return Ok(false);
        };
        let Ok(()) = self.epoch_state.keep(&rec, last) else {
            drop(rec);
            return Err(NoMemory);
        };
        self.output.keep(rec, lines)?;
        Ok(true)
    }
}

/// Applies a record to the ledger and returns its lines. `None` if it does not fit; nothing has changed then.
fn apply(ledger: &mut Ledger, rec: &Rec) -> Result<Option<Lines>, NoMemory>
    requires { FitsRec rec.now }
    ensures kept { (me n : ℕ) (log : List Rec) → LedgerStands me n ledger.old log → IfOk result (λ lines. Applied lines me n log rec.now ledger.new) }
    ensures unchanged { IfOk result (λ lines. lines ≡ None → ledger.new ≡ ledger.old) }
{
    match ledger.apply(rec) {
        Ok(lines) => Ok(Some(lines)),
        Err(LedgerError::NotFit { .. }) => Ok(None),
        Err(LedgerError::NoMemory) => Err(NoMemory),
        // A record that does not come from a log has no place in one.
        Err(LedgerError::BadLog { .. }) => unreachable!(),
    }
}

/// Applies a record to the ledger and adds it to the output. `false` if it does not fit, `NoMemory` if memory runs out;
/// with `false` nothing has changed.
pub fn put(ledger: &mut Ledger, output: &mut Output, rec: Rec) -> Result<bool, NoMemory>
    requires { FitsRec rec }
    ensures kept { WhereBothStand ledger.old output.old (λ me n log m. IfOk result (λ fit. (fit ≡ fits me n log rec) × Recorded fit me n log rec m ledger.new output.new)) }
    ensures unchanged { IfOk result (λ fit. fit ≡ false → (ledger.new ≡ ledger.old) × (output.new ≡ output.old)) }
{
    match apply(ledger, &rec) {
        Ok(Some(lines)) => {
            output.keep(rec, lines)?;
            Ok(true)
        }
        Ok(None) => {
            drop(rec);
            Ok(false)
        }
        Err(NoMemory) => {
            drop(rec);
            Err(NoMemory)
        }
    }
}
