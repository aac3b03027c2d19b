//! The state of an epoch at a running replica.

ghost use Rattle.std.specs.Prelude.{◌≡◌, false, true, ◌∷◌};
ghost use Rattle.crsm_spec.specs.Types.{Rec};
ghost use Rattle.crsm_spec.specs.Log.{known, active};
ghost use Rattle.crsm_spec.specs.Fits.{fits};
ghost use Rattle.crsm_spec.specs.Replica.{Replica};
ghost use Rattle.crsm_replica_epoch.specs.EpochState.{EpochStands, EachFits, forgotten};

use crate::links::Links;
use crsm_clock::Rising;
use crsm_commit::{Latest, Pending};
use crsm_phase::Waits;
use std::alloc::Global;

/// The state of an epoch at a running replica; it is lost at a restart.
pub struct EpochState {
    pub(crate) clock: Rising,
    /// The latest times, the replica's own included.
    pub(crate) latest: Latest,
    /// The entries that are not executed, and all votes for stamps above the last executed one. Unspecified while the
    /// replica is not active.
    pub(crate) pending: Pending,
    pub(crate) owed: Waits,
    pub(crate) links: Links,
}

// Written by hand, it is one call for the crates above, which would prove a derived one again.
impl Drop for EpochState {
    fn drop(self) {
        let EpochState {
            clock: _,
            latest: _,
            pending: _,
            owed: _,
            links: _,
        } = self;
    }
}

impl EpochState {
    /// Returns the state at the beginning of an epoch.
    pub fn new(alloc: Global) -> EpochState
        ensures inactive { (r : Replica) → EachFits r.me r.n r.log → active r.log ≡ false → EpochStands result (forgotten r) }
        ensures entered { (r : Replica) → EachFits r.me r.n r.log → fits r.me r.n r.log (Rec.Enter (known r.log)) ≡ true →
            EpochStands result (record (forgotten r) { log = Rec.Enter (known r.log) ∷ r.log }) }
    {
        EpochState {
            clock: Rising::new(),
            latest: Latest::new(),
            pending: Pending::new(alloc),
            owed: Waits::new(alloc),
            links: Links::new(alloc),
        }
    }
}
