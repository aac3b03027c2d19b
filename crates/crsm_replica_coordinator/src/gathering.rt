//! A coordinator that collects frozen logs.

ghost use Rattle.std.specs.Prelude.{◌≡◌, ◌<◌, ℕ, List, Option, true};
ghost use Rattle.std.specs.Option.{IsSomeAnd};
ghost use Rattle.crsm_base.specs.Spelling.{FitsOption, FitsStamp};
ghost use Rattle.crsm_spec.specs.Collect.{cursor, is_whole};
ghost use Rattle.crsm_spec.specs.Lists.{has};
ghost use Rattle.crsm_spec.specs.Log.{Log, decision};
ghost use Rattle.crsm_spec.specs.Quorum.{spec_decided};
ghost use Rattle.crsm_spec.specs.Replica.{LogPage};
ghost use Rattle.crsm_replica_coordinator.specs.Coordinator.{IsGathering};
ghost use Rattle.crsm_replica_coordinator.specs.Stages.{Collects, CollectsOver, WhereCollecting};

use crate::coordinator::Coordinator;
use crsm_base::Stamp;
use crsm_suspend::Collect;

impl Coordinator {
    /// Returns a coordinator that collects.
    pub fn collecting(collect: Collect) -> Coordinator
        ensures { (me n : ℕ) (log : Log) (ms : List ℕ) (pages : List LogPage) → has (spec_decided n (decision log)) me ≡ true → Collects collect n log ms pages → CollectsOver result me n log ms pages }
    {
        Coordinator::Collecting(collect)
    }

    /// Returns the collection in progress, or `None` if there is none.
    pub fn into_collect(self) -> Option<Collect>
        ensures { WhereCollecting self (λ me n known ms pages. IsSomeAnd result (λ c. IsGathering c me n known ms pages)) }
    {
        match self {
            Coordinator::Collecting(collect) => Some(collect),
            other => {
                drop(other);
                None
            }
        }
    }

    /// Returns the stamp of the last entry received from replica `k` in the collection, or `None`.
    pub fn cursor(&self, k: u32) -> Option<Stamp>
        requires { k < 15 }
        ensures value { (me n : ℕ) (log : Log) (ms : List ℕ) (pages : List LogPage) → CollectsOver self.now me n log ms pages → result ≡ cursor pages k }
        ensures fits { FitsOption FitsStamp result }
    {
        match self {
            Coordinator::Collecting(collect) => collect.cursor(k),
            _ => None,
        }
    }

    /// Returns whether the last page of replica `k` was received in the collection.
    pub fn is_whole(&self, k: u32) -> bool
        requires { k < 15 }
        ensures { (me n : ℕ) (log : Log) (ms : List ℕ) (pages : List LogPage) → CollectsOver self.now me n log ms pages → result ≡ is_whole pages k }
    {
        match self {
            Coordinator::Collecting(collect) => collect.is_whole(k),
            _ => false,
        }
    }
}
