//! The replica in memory: its boot and its steps.

ghost use Rattle.std.specs.Prelude.{◌<◌, ◌≤◌, ◌∷◌, IsErr, OnOk};
ghost use Rattle.crsm_mpspec.specs.Log.{Log};
ghost use Rattle.crsm_mpspec.specs.declared.rec.MpRec.{MpRec as Record};
ghost use Rattle.crsm_mpspec.specs.Replica.{fresh};
ghost use Rattle.crsm_mpspec.specs.Step as steps;
ghost use Rattle.crsm_mpledger.specs.MpLedger.{MpLedgerStands};
ghost use Rattle.crsm_mpreplica.specs.Fitting.{FitsInput};
ghost use Rattle.crsm_mpreplica.specs.Made.{Answers, outcome_of};
ghost use Rattle.crsm_mpcore.specs.Core.{CanBoot, IsSpent, MpCoreStands, WhereCore};

use crate::step;
use crsm_base::NoMemory;
use crsm_mpledger::MpLedger;
use crsm_mpreplica::MpReplica;
use crsm_mpspec::{MpBatch, MpInput};
use std::alloc::Global;

/// One replica of a store with a leader, in memory. After an error it is spent, and a new one must be booted from its
/// log.
#[derive(Drop)]
pub struct MpCore {
    state: MpReplica,
    is_spent: bool,
}

impl MpCore {
    /// Returns replica `me` of `n` with this ledger, which keeps no more than its log says.
    pub fn new(alloc: Global, me: u32, n: u32, ledger: MpLedger) -> MpCore
        requires mine { me < n }
        requires most { n ≤ 15 }
        ensures { (log : Log) → MpLedgerStands ledger log → MpCoreStands result (fresh me n log) }
    {
        MpCore {
            state: MpReplica::new(alloc, me, n, ledger),
            is_spent: false,
        }
    }

    /// Runs one step and puts its output into `out`, whose memory a later step uses; a message comes from replica `from`.
    /// The records must be durable before the messages are sent. `NoMemory` if memory runs out; the replica is then
    /// spent.
    #[tactic(auto, unfolding(crate::specs::Core::IsSpent))]
    pub fn step(&mut self, input: &MpInput, from: u32, out: &mut MpBatch) -> Result<(), NoMemory>
        ensures made { FitsInput input.now → WhereCore self.old (λ r. OnOk result (Answers out.new (outcome_of (steps.step r input.now from)))) }
        ensures stands { FitsInput input.now → WhereCore self.old (λ r. OnOk result (MpCoreStands self.new (steps.step r input.now from).replica)) }
        ensures spent { IsErr result → IsSpent self.new }
        ensures stays_spent { IsSpent self.old → IsErr result }
    {
        if self.is_spent {
            return Err(NoMemory);
        }
        // A caller that sees the error below must not continue from half a step.
        self.is_spent = true;
        step::step(&mut self.state, input, from)?;
        self.state.move_output(out);
        self.is_spent = false;
        Ok(())
    }

    /// Returns its ledger.
    pub fn ledger(&self) -> &MpLedger
        ensures { WhereCore self.now (λ r. MpLedgerStands result.now r.log) }
    {
        self.state.ledger()
    }

    /// Boots replica `me` of `n` anew on the same ledger, in which the boot is recorded: what is not in its log is lost.
    /// There must have been fewer than 2^64 - 1 boots.
    pub fn boot(&mut self, me: u32, n: u32)
        requires mine { me < n }
        requires most { n ≤ 15 }
        requires few { CanBoot self.old }
        ensures { WhereCore self.old (λ r. MpCoreStands self.new (fresh me n (Record.Boot ∷ r.log))) }
    {
        self.state.boot(me, n);
    }
}
