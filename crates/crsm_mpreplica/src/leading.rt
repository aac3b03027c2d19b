//! The state of a leader.

ghost use Rattle.std.specs.Prelude.{◌≡◌, ◌+◌, ◌<◌, ℕ, true, List, []};
ghost use Rattle.crsm_base.specs.Spelling.{FitsBallot};
ghost use Rattle.crsm_spec.specs.Clock.{u64_max};
ghost use Rattle.crsm_mpspec.specs.Deciding as deciding;
ghost use Rattle.crsm_mpspec.specs.Draft as drafts;
ghost use Rattle.crsm_mpspec.specs.Draft.{Draft};
ghost use Rattle.crsm_mpspec.specs.Types.{Ballot};
ghost use Rattle.crsm_mpspec.specs.Electing.{on_no};
ghost use Rattle.crsm_mpspec.specs.Replica.{Note as NoteOnPaper, Report, votes_of, without_lead};
ghost use Rattle.crsm_mpreplica.specs.Notes.{awaits_vote};
ghost use Rattle.crsm_mpreplica.specs.State.{Makes, MakesIf, MakesWhere, MpReplicaStands, WhereLeading, WhereStands};

use crate::note::{self, Leading, Note};
use crate::slots::push_slot;
use crate::state::MpReplica;
use crsm_base::{Ballot, NoMemory, majority};
use std::collections::BTreeMap;

impl MpReplica {
    /// Makes the replica the leader in a ballot; `next` is the slot of the next command.
    pub fn lead(&mut self, ballot: Ballot, next: u64)
        ensures { WhereStands self.old (λ x. (start : ℕ) (reports : List Report) → FitsBallot ballot →
            MpReplicaStands self.new (drafts.noting (NoteOnPaper.Leading ballot start next reports []) x)) }
    {
        self.note = Note::Leading(Leading {
            ballot,
            next,
            open: BTreeMap::new(self.alloc),
        });
    }

    /// Ends the lead of the replica.
    pub fn end_lead(&mut self)
        ensures { WhereStands self.old (λ x. MpReplicaStands self.new (drafts.noting (without_lead x.replica.note) x)) }
    {
        note::end_lead(&mut self.note);
    }

    /// Ends the lead in a ballot below one that another replica has promised.
    pub fn end_lead_below(&mut self, promised: Ballot)
        ensures { WhereStands self.old (λ x. MpReplicaStands self.new (on_no promised x)) }
    {
        note::end_lead_below(&mut self.note, promised);
    }

    /// Advances the slot of the leader's next command by 1.
    pub fn pass_slot(&mut self)
        ensures { WhereLeading self.old (λ x b start next reports votes. next < u64_max →
            MpReplicaStands self.new (drafts.noting (NoteOnPaper.Leading b start (next + 1) reports votes) x)) }
    {
        if let Note::Leading(leading) = &mut self.note {
            leading.next = leading.next.saturating_add(1);
        }
    }

    /// Records the replica's own vote for its proposal at a slot. A slot with a known value needs no votes. `NoMemory`
    /// if memory runs out.
    pub fn open_slot(&mut self, slot: u64) -> Result<(), NoMemory>
        ensures { Makes (λ x. drafts.count_vote slot x.replica.me x) self.old result self.new }
    {
        if self.ledger.is_chosen(slot) {
            return Ok(());
        }
        let mut voters = Vec::with_capacity(self.alloc, self.n as usize)?;
        voters.push(self.me)?;
        if let Note::Leading(leading) = &mut self.note {
            push_slot(&mut leading.open, slot, voters)?;
        }
        Ok(())
    }

    /// Counts the vote of a replica for an open slot of a lead in this ballot, once for each replica. Returns whether
    /// it counted. `NoMemory` if memory runs out.
    pub fn take_vote(&mut self, from: u32, ballot: Ballot, slot: u64) -> Result<bool, NoMemory>
        ensures { MakesIf (λ x. awaits_vote ballot slot from x.replica x.replica.note) (drafts.count_vote slot from) self.old result self.new }
    {
        if !self.awaits_vote(from, ballot, slot) {
            return Ok(false);
        }
        self.add_vote(from, slot)?;
        Ok(true)
    }

    /// Returns whether the replica leads in this ballot, and the vote of replica `from` for the slot counts.
    fn awaits_vote(&self, from: u32, ballot: Ballot, slot: u64) -> bool
        ensures { WhereStands self.now (λ x. result ≡ awaits_vote ballot slot from x.replica x.replica.note) }
    {
        let Note::Leading(leading) = &self.note else {
            return false;
        };
        match leading.open.get(&slot) {
            Some(voters) => leading.ballot == ballot && !voters.contains(&from),
            None => false,
        }
    }

    /// Adds a replica to the voters at an open slot.
    fn add_vote(&mut self, from: u32, slot: u64) -> Result<(), NoMemory>
        ensures { MakesWhere (λ x. deciding.counts slot from (votes_of x.replica.note) x.replica ≡ true) (drafts.count_vote slot from) self.old result self.new }
    {
        if let Note::Leading(leading) = &mut self.note {
            if let Some(voters) = leading.open.get_mut(&slot) {
                voters.push(from)?;
            }
        }
        Ok(())
    }

    /// Returns whether a majority has voted for the proposal at a slot whose value is not known yet.
    pub fn is_voted(&self, slot: u64) -> bool
        ensures { WhereStands self.now (λ x. result ≡ deciding.is_voted slot x.replica) }
    {
        let Note::Leading(leading) = &self.note else {
            return false;
        };
        match leading.open.get(&slot) {
            Some(voters) => voters.len() >= majority(self.n) as usize,
            None => false,
        }
    }
}
