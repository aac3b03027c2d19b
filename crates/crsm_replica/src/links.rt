//! The changes of the numbered links and of the clock.

ghost use Rattle.std.specs.Prelude.{◌≡◌, ℕ, ◌<◌, ◌≤◌, List, ◌∷◌, length, Some, IfOk};
ghost use Rattle.crsm_base.specs.Messages.{FitsPayload};
ghost use Rattle.crsm_base.specs.Spelling.{FitsStamp};
ghost use Rattle.crsm_base.specs.declared.Stamp.{Stamp};
ghost use Rattle.crsm_spec.specs.Replica.{frames_to};
ghost use Rattle.crsm_spec.specs.Draft.{Draft, would, push_to_members, issued_at};
ghost use Rattle.crsm_spec.specs.Frames.{ack, owe, owing, again_to};
ghost use Rattle.crsm_replica.specs.Replica.{ReplicaStands, Makes, WhereStands, WhereLater};

use crate::frames::{send_again, send_next};
use crate::state::ReplicaState;
use crsm_base::{Datagram, InEpoch, NoMemory, Stamp};

impl ReplicaState {
    /// Issues `time`, which the clock would issue at some reading, and pushes a payload to the other members.
    /// `NoMemory` if memory runs out.
    pub fn push_at(&mut self, time: u64, payload: InEpoch) -> Result<(), NoMemory>
        ensures { IfOk result (λ _. (x : Draft) (reading : ℕ) → ReplicaStands self.old x → FitsPayload payload → would x reading ≡ Some time → ReplicaStands self.new (push_to_members payload (issued_at time x))) }
    {
        let pushed = self.push_copies(time, &payload);
        drop(payload);
        pushed
    }

    #[tactic(auto, unfolding(crate::specs::Replica::ReplicaStands))]
    /// Issues `time` and pushes copies of a payload.
    fn push_copies(&mut self, time: u64, payload: &InEpoch) -> Result<(), NoMemory>
        ensures { IfOk result (λ _. (x : Draft) (reading : ℕ) → ReplicaStands self.old x → FitsPayload payload.now → would x reading ≡ Some time → ReplicaStands self.new (push_to_members payload.now (issued_at time x))) }
    {
        let number = self.me();
        send_next(
            self.alloc,
            &mut self.output,
            &self.epoch_state,
            number,
            self.ledger.known().epoch,
            self.ledger.known().members.as_slice(),
            payload,
        )?;
        self.epoch_state
            .push_at(time, number, &self.ledger.known().members, payload)
    }

    #[tactic(auto, unfolding(crate::specs::Replica::ReplicaStands))]
    /// Takes the next frame of another replica `k`, and records its time, which is above k's latest. `NoMemory` if
    /// memory runs out.
    pub fn take_next(&mut self, k: u32, time: u64) -> Result<(), NoMemory>
        requires { k < 15 }
        ensures { IfOk result (λ _. WhereLater self.old k time (λ x. ReplicaStands self.new (record x { replica = record x.replica { taken = k ∷ x.replica.taken; received = (k, time) ∷ x.replica.received } }))) }
    {
        self.epoch_state.take_next(k, time);
        Ok(())
    }

    #[tactic(auto, unfolding(crate::specs::Replica::ReplicaStands))]
    /// Sends replica `k` an acknowledgement with the number of the frame that is expected next. `NoMemory` if memory
    /// runs out.
    pub fn ack(&mut self, k: u32) -> Result<(), NoMemory>
        requires { k < 15 }
        ensures { Makes (ack k) self.old result self.new }
    {
        let epoch = self.known();
        let next = self.epoch_state.next_from(k);
        self.output.send(
            k,
            Datagram::Ack {
                from: self.me,
                to: k,
                epoch,
                next,
            },
        )
    }

    #[tactic(auto, unfolding(crate::specs::Replica::ReplicaStands))]
    /// Removes the frames to `k` below the number `next`, which are acknowledged. `NoMemory` if memory runs out.
    pub fn acked(&mut self, k: u32, next: u64) -> Result<(), NoMemory>
        requires { k < 15 }
        ensures { IfOk result (λ _. WhereStands self.old (λ x. next ≤ length (frames_to x.replica k) → ReplicaStands self.new (record x { replica = record x.replica { acked = (k, next) ∷ x.replica.acked } }))) }
    {
        self.epoch_state.acked(k, next);
        Ok(())
    }

    #[tactic(auto, unfolding(crate::specs::Replica::ReplicaStands))]
    /// Adds a pending acknowledgement. `NoMemory` if memory runs out.
    pub fn owe(&mut self, stamp: Stamp) -> Result<(), NoMemory>
        requires { FitsStamp stamp }
        ensures { Makes (owe stamp) self.old result self.new }
    {
        self.epoch_state.owe(stamp)
    }

    #[tactic(auto, unfolding(crate::specs::Replica::ReplicaStands))]
    /// Removes the oldest pending acknowledgement. `NoMemory` if memory runs out.
    pub fn paid(&mut self) -> Result<(), NoMemory>
        ensures { IfOk result (λ _. (x : Draft) (s : Stamp) (ss : List Stamp) → ReplicaStands self.old x → x.replica.owed ≡ s ∷ ss → ReplicaStands self.new (owing ss x)) }
    {
        self.epoch_state.paid();
        Ok(())
    }

    #[tactic(auto, unfolding(crate::specs::Replica::ReplicaStands))]
    /// Retransmits the first unacknowledged frames to replica `k`. `NoMemory` if memory runs out.
    pub fn again_to(&mut self, k: u32) -> Result<(), NoMemory>
        requires { k < 15 }
        ensures { Makes (λ x. again_to x k) self.old result self.new }
    {
        if self.epoch_state.pushed_to(k) == 0 {
            return Ok(());
        }
        let due = self.epoch_state.due(k)?;
        send_again(
            self.alloc,
            &mut self.output,
            self.me,
            self.ledger.known().epoch,
            k,
            due.as_slice(),
        )
    }
}
