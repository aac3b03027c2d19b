//! The members of the known epoch, and the replicas whose majorities count.

ghost use Rattle.std.specs.Prelude.{◌≡◌, ◌==◌, ◌<◌, ◌≤◌, not, filter, All, IfOk};
ghost use Rattle.crsm_spec.specs.Lists.{has};
ghost use Rattle.crsm_spec.specs.Replica.{members_of, spec_of, others, other_members};
ghost use Rattle.crsm_spec.specs.Draft.{Draft};
ghost use Rattle.crsm_replica.specs.Replica.{ReplicaStands, WhereStands};

use crate::state::ReplicaState;
use crsm_base::{Members, NoMemory, is_among};
use std::alloc::Global;

impl ReplicaState {
    #[tactic(auto, unfolding(crate::specs::Replica::ReplicaStands))]
    /// Returns whether replica `k` is a member of the known epoch.
    pub fn is_member(&self, k: u32) -> bool
        ensures { WhereStands self.now (λ x. result ≡ has (members_of x.replica) k) }
    {
        is_among(self.ledger.known().members.as_slice(), k)
    }

    #[tactic(auto, unfolding(crate::specs::Replica::ReplicaStands))]
    /// Returns whether replica `k` counts in majorities of the known epoch.
    pub fn is_of_spec(&self, k: u32) -> bool
        ensures { WhereStands self.now (λ x. result ≡ has (spec_of x.replica) k) }
    {
        match &self.ledger.known().spec {
            Some(spec) => is_among(spec.as_slice(), k),
            None => k < self.ledger.n(),
        }
    }

    #[tactic(auto, unfolding(crate::specs::Replica::ReplicaStands))]
    /// Returns the other counted replicas in ascending order. `NoMemory` if memory runs out.
    pub fn others(&self) -> Result<Vec<u32>, NoMemory>
        ensures value { WhereStands self.now (λ x. IfOk result (λ ks. ks.items ≡ others x.replica)) }
        ensures below { IfOk result (λ ks. All (λ k. k < 15) ks.items) }
    {
        except(self.alloc, self.ledger.counted().as_slice(), self.me)
    }

    #[tactic(auto, unfolding(crate::specs::Replica::ReplicaStands))]
    /// Returns the other members in ascending order. `NoMemory` if memory runs out.
    pub fn other_members(&self) -> Result<Vec<u32>, NoMemory>
        ensures value { WhereStands self.now (λ x. IfOk result (λ ks. ks.items ≡ other_members x.replica)) }
        ensures below { IfOk result (λ ks. All (λ k. k < 15) ks.items) }
    {
        except(self.alloc, self.ledger.known().members.as_slice(), self.me)
    }

    #[tactic(auto, unfolding(crate::specs::Replica::ReplicaStands))]
    /// Returns the counted replicas in ascending order. `NoMemory` if memory runs out.
    pub fn spec(&self) -> Result<Members, NoMemory>
        ensures { WhereStands self.now (λ x. IfOk result (λ ks. ks ≡ spec_of x.replica)) }
    {
        self.ledger.spec()
    }

    #[tactic(auto, unfolding(crate::specs::Replica::ReplicaStands))]
    /// Returns the members in ascending order. `NoMemory` if memory runs out.
    pub fn members(&self) -> Result<Members, NoMemory>
        ensures { WhereStands self.now (λ x. IfOk result (λ ks. ks ≡ members_of x.replica)) }
    {
        self.ledger.known().members.copy(self.alloc)
    }
}

/// Returns these replicas without `me`. `NoMemory` if memory runs out.
fn except(alloc: Global, replicas: &[u32], me: u32) -> Result<Vec<u32>, NoMemory>
    ensures value { IfOk result (λ ks. ks.items ≡ filter (λ k. not (k == me)) replicas.now) }
    ensures below { All (λ k. k < 15) replicas.now → IfOk result (λ ks. All (λ k. k < 15) ks.items) }
{
    let mut others = Vec::new(alloc);
    for k in replicas {
        if *k != me {
            others.push(*k)?;
        }
    }
    Ok(others)
}
