//! The end of a replica in memory.

ghost use Rattle.crsm_ledger.specs.Ledger.{LedgerStands};
ghost use Rattle.crsm_replica.specs.Replica.{ReplicaStands, WhereStands};

use crate::state::ReplicaState;
use crsm_ledger::Ledger;

impl ReplicaState {
    /// Returns the ledger; all else that the state holds is dropped.
    #[tactic(auto, unfolding(crate::specs::Replica::ReplicaStands))]
    pub fn into_ledger(self) -> Ledger
        ensures { WhereStands self (λ x. LedgerStands x.replica.me x.replica.n result x.replica.log) }
    {
        drop(self.epoch_state);
        drop(self.gathered);
        drop(self.coordinator);
        drop(self.waiting);
        drop(self.output);
        self.ledger
    }
}
