//! The state of a replica in memory.

ghost use Rattle.std.specs.Prelude.{◌≡◌, ◌<◌, ◌≤◌, ◌∷◌};
ghost use Rattle.crsm_mpspec.specs.Draft as drafts;
ghost use Rattle.crsm_mpspec.specs.Log.{Log};
ghost use Rattle.crsm_mpspec.specs.declared.rec.MpRec.{MpRec as Record};
ghost use Rattle.crsm_mpspec.specs.Replica.{fresh};
ghost use Rattle.crsm_mpledger.specs.MpLedger.{MpLedgerStands};

use crate::made::StepOutput;
use crate::note::Note;
use crsm_mpledger::MpLedger;
use crsm_mpspec::{MpBatch, SharedCommand};
use std::alloc::Global;
use std::collections::BTreeMap;

/// A replica in memory, with the output of the current step.
#[derive(Drop)]
pub struct MpReplica {
    pub(crate) alloc: Global,
    pub(crate) me: u32,
    pub(crate) n: u32,
    pub(crate) ledger: MpLedger,
    pub(crate) note: Note,
    /// The commands of waiting clients, by slot.
    pub(crate) waiting: BTreeMap<u64, SharedCommand>,
    pub(crate) made: StepOutput,
    ghost mine: { me < n },
    ghost most: { n ≤ 15 },
}

impl MpReplica {
    ghost use Rattle.crsm_mpreplica.specs.Made.{Answers, outcome_of};
    ghost use Rattle.crsm_mpreplica.specs.Notes.{NoteStands};
    ghost use Rattle.crsm_mpreplica.specs.State.{CanBoot, IsReplica, MpReplicaStands, WhereReplica, WhereStands};

    /// Returns the replica of a ledger, at the beginning of a boot.
    pub fn new(alloc: Global, me: u32, n: u32, ledger: MpLedger) -> MpReplica
        requires mine { me < n }
        requires most { n ≤ 15 }
        ensures { (log : Log) → MpLedgerStands ledger log → MpReplicaStands result (drafts.begun (fresh me n log)) }
    {
        MpReplica {
            alloc,
            me,
            n,
            ledger,
            note: Note::Idle,
            waiting: BTreeMap::new(alloc),
            made: StepOutput::new(alloc),
        }
    }

    /// Returns its allocator.
    pub fn alloc(&self) -> Global
        ensures { result ≡ self.now.alloc }
    {
        self.alloc
    }

    /// Returns the number of the replica.
    pub fn me(&self) -> u32
        ensures is { WhereStands self.now (λ x. result ≡ x.replica.me) }
        ensures small { result < 15 }
    {
        self.me
    }

    /// Returns the number of replicas.
    pub fn n(&self) -> u32
        ensures is { WhereStands self.now (λ x. result ≡ x.replica.n) }
        ensures some { 1 ≤ result }
        ensures most { result ≤ 15 }
    {
        self.n
    }

    /// Returns its ledger.
    pub fn ledger(&self) -> &MpLedger
        ensures { WhereStands self.now (λ x. MpLedgerStands result.now x.replica.log) }
    {
        &self.ledger
    }

    /// Boots replica `me` of `n` anew on the same ledger, in which the boot is recorded: its stage in an election and the
    /// clients that wait are forgotten.
    pub fn boot(&mut self, me: u32, n: u32)
        requires mine { me < n }
        requires most { n ≤ 15 }
        requires few { CanBoot self.old }
        ensures { WhereReplica self.old (λ r. IsReplica self.new (fresh me n (Record.Boot ∷ r.log))) }
    {
        self.ledger.boot();
        self.me = me;
        self.n = n;
        self.note = Note::Idle;
        self.waiting = BTreeMap::new(self.alloc);
    }

    /// Returns its stage in an election.
    pub fn note(&self) -> &Note
        ensures { WhereStands self.now (λ x. NoteStands result.now x.replica.me x.replica.log x.replica.note) }
    {
        &self.note
    }

    /// Moves the output of the step to `out`, and leaves the empty one in the memory of what was there.
    pub fn move_output(&mut self, out: &mut MpBatch)
        ensures out { WhereStands self.old (λ x. Answers out.new (outcome_of x)) }
        ensures none { WhereStands self.old (λ x. MpReplicaStands self.new (drafts.begun x.replica)) }
    {
        self.made.move_to(out);
        self.forget_executions();
    }

    /// Forgets the executions, unless the replica leads, or asks to lead, from a slot on that may be executed: its
    /// clients then get the answers of executed slots.
    fn forget_executions(&mut self)
        ensures { WhereStands self.old (λ x. MpReplicaStands self.new x) }
    {
        let is_behind = match &self.note {
            Note::Idle => false,
            Note::Asking(_) => true,
            Note::Leading(leading) => leading.next < self.ledger.executed_len(),
        };
        if !is_behind {
            self.ledger.forget_executions();
        }
    }
}
