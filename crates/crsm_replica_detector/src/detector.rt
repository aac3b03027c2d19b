//! The failure detector of a node.

ghost use Rattle.std.specs.Prelude.{◌≡◌, ℕ, IfOk, OnErr};
ghost use Rattle.crsm_replica_detector.specs.Watching.{Watch, unwatched, heard_at, with_tick};

use crate::timers::Timers;
use crsm_base::NoMemory;
use crsm_ledger::Ledger;
use crsm_replica_io::WantedInput;

/// The failure detector of a node: from the readings of the node's turns it decides the input to take next. A reading
/// is in microseconds, since 1970 from `SystemClock`. Each turn calls `next`, then `hear`, and `ticked` if it took a
/// tick.
#[derive(Debug, Drop)]
pub struct Detector {
    me: u32,
    // None before the first reading.
    timers: Option<Timers>,
}

impl Detector {
    ghost use Rattle.crsm_replica_detector.specs.Detector.{DetectorStands, WhereStands, WishesWithLedger};

    /// Returns the detector of replica `me` before its first turn.
    pub fn new(me: u32) -> Detector
        ensures { DetectorStands result me unwatched }
    {
        Detector { me, timers: None }
    }

    /// Records the reading of a turn, and the replica from which it received. A number above 14 is not a replica's, and
    /// has no effect.
    pub fn hear(&mut self, reading: u64, from: Option<u32>)
        ensures { WhereStands self.old (λ me w. DetectorStands self.new me (heard_at from reading w)) }
    {
        self.timers = Some(Timers::at(self.timers, reading, from));
    }

    /// Records that the turn of the newest reading took a tick.
    pub fn ticked(&mut self)
        ensures { WhereStands self.old (λ me w. DetectorStands self.new me (with_tick w)) }
    {
        if let Some(timers) = &mut self.timers {
            timers.ticked = timers.newest;
        }
    }

    /// Returns the input to take next, given the ledger of the same replica: a tick each 10 ms; a suspicion, which
    /// names the replicas that should remain, if nothing was received from a member for 5 s or this replica takes no
    /// part in its epoch; else a receive. A suspicion is recorded, and the next one comes 5 s later at the earliest.
    /// `NoMemory` if memory runs out; nothing has changed then.
    #[tactic(auto, unfolding(crate::specs::Wishing::wish))]
    pub fn next(&mut self, ledger: &Ledger) -> Result<WantedInput, NoMemory>
        ensures wished { WhereStands self.old (λ me w. IfOk result (WishesWithLedger ledger.now self.new me w)) }
        ensures unchanged { OnErr result (self.new ≡ self.old) }
    {
        let Some(timers) = &mut self.timers else {
            return Ok(WantedInput::Receive);
        };
        let what = timers.wish(self.me, ledger)?;
        if let WantedInput::Suspect(_) = &what {
            timers.suspected = timers.newest;
        }
        Ok(what)
    }
}
