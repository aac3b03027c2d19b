//! Records of entries.

ghost use Rattle.crsm_base.specs.Spelling.{FitsEntry, FitsStamp};
ghost use Rattle.crsm_spec.specs.Types.{Rec as Record};
ghost use Rattle.crsm_spec.specs.Draft.{keep};
ghost use Rattle.crsm_replica.specs.Replica.{MakesFitting};

use crsm_base::{Entry, NoMemory, Rec, Stamp};
use crsm_replica::ReplicaState;

/// Logs an entry. `false` if its record does not fit, `NoMemory` if memory runs out; with `false` the state is
/// unchanged.
pub(crate) fn log_entry(state: &mut ReplicaState, entry: &Entry) -> Result<bool, NoMemory>
    requires { FitsEntry entry.now }
    ensures { MakesFitting (keep (Record.Prepare entry.now)) state.old result state.new }
{
    let rec = Rec::Prepare {
        entry: entry.copy(state.alloc())?,
    };
    state.keep(rec)
}

/// Executes the logged entry with this stamp. `false` if its record does not fit, `NoMemory` if memory runs out; with
/// `false` the state is unchanged.
pub(crate) fn commit(state: &mut ReplicaState, stamp: Stamp) -> Result<bool, NoMemory>
    requires { FitsStamp stamp }
    ensures { MakesFitting (keep (Record.Commit stamp)) state.old result state.new }
{
    let rec = Rec::Commit { stamp };
    state.keep(rec)
}
