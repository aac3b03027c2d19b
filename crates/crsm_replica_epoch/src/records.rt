//! The effect of a record on an epoch's state.

ghost use Rattle.std.specs.Prelude.{◌≡◌, true, ◌∷◌, IfOk};
ghost use Rattle.crsm_spec.specs.Types.{Rec};
ghost use Rattle.crsm_spec.specs.Log.{last_stamp};
ghost use Rattle.crsm_spec.specs.Fits.{fits};
ghost use Rattle.crsm_spec.specs.Replica.{Replica};
ghost use Rattle.crsm_replica_epoch.specs.EpochState.{EpochStands, IsNoEnter, is_above, WhereStands};

use crate::state::EpochState;
use crsm_base::{Entry, NoMemory, Rec, Stamp};

impl EpochState {
    /// Applies a record other than that of entering an epoch, for which `new` makes the state. `last` is the stamp of
    /// the last executed entry before it. `NoMemory` if memory runs out.
    pub fn keep(&mut self, rec: &Rec, last: Option<Stamp>) -> Result<(), NoMemory>
        ensures { IfOk result (λ _. WhereStands self.old (λ r. last ≡ last_stamp r.log → fits r.me r.n r.log rec.now ≡ true → IsNoEnter rec.now →
            EpochStands self.new (record r { log = rec.now ∷ r.log }))) }
    {
        match rec {
            Rec::Prepare { entry } => self.log_entry(entry, last)?,
            Rec::Commit { stamp } => self.commit(*stamp),
            _ => {}
        }
        Ok(())
    }

    /// Adds an entry that was logged.
    fn log_entry(&mut self, entry: &Entry, last: Option<Stamp>) -> Result<(), NoMemory>
        ensures { IfOk result (λ _. WhereStands self.old (λ r. last ≡ last_stamp r.log → fits r.me r.n r.log (Rec.Prepare entry.now) ≡ true →
            EpochStands self.new (record r { log = Rec.Prepare entry.now ∷ r.log }))) }
    {
        if is_above(last, entry.stamp) {
            self.pending.add(entry)?;
        }
        Ok(())
    }

    /// Removes the first entry that was not executed, which now is.
    fn commit(&mut self, stamp: Stamp)
        ensures { WhereStands self.old (λ r. fits r.me r.n r.log (Rec.Commit stamp) ≡ true → EpochStands self.new (record r { log = Rec.Commit stamp ∷ r.log })) }
    {
        self.pending.take(stamp);
    }
}

/// Returns whether a stamp is above the last executed one.
pub(crate) fn is_above(last: Option<Stamp>, stamp: Stamp) -> bool
    ensures { result ≡ is_above last stamp }
{
    match last {
        Some(last) => last < stamp,
        None => true,
    }
}
