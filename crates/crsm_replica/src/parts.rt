//! Receiving of parts of control messages.

ghost use Rattle.std.specs.Prelude.{◌≡◌, ◌<◌, true, IfOk};
ghost use Rattle.crsm_segment.specs.Taking.{is_sized, piece};
ghost use Rattle.crsm_spec.specs.Draft.{Draft};
ghost use Rattle.crsm_spec.specs.Parts.{with_part, whole_with};
ghost use Rattle.crsm_replica.specs.Replica.{ReplicaStands, WhereStands};

use crate::state::ReplicaState;
use crsm_base::{Bytes, NoMemory};

impl ReplicaState {
    #[tactic(auto, unfolding(crate::specs::Replica::ReplicaStands))]
    /// Takes a part of a control message, of the length that its index requires, and returns the bytes of the message
    /// that it completes, if any. `NoMemory` if memory runs out.
    pub fn take_part(
        &mut self,
        from: u32,
        boot: u64,
        number: u64,
        index: u32,
        count: u32,
        bytes: &[u8],
    ) -> Result<Option<Bytes>, NoMemory>
        requires from { from < 15 }
        requires sized { is_sized (piece from boot number index count bytes.now) ≡ true }
        ensures part { IfOk result (λ whole. WhereStands self.old (λ x. ReplicaStands self.new (record x { replica = record x.replica { parts = with_part (piece from boot number index count bytes.now) x.replica.parts } }))) }
        ensures whole { IfOk result (λ whole. WhereStands self.old (λ x. whole ≡ whole_with (piece from boot number index count bytes.now) x.replica.parts)) }
    {
        self.gathered.take(from, boot, number, index, count, bytes)
    }
}
