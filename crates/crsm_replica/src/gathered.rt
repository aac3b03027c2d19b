//! The parts of control messages from all possible replicas.

ghost use Rattle.std.specs.Prelude.{◌≡◌, ◌<◌, true, List, [], IfOk};
ghost use Rattle.crsm_segment.specs.Gather.{GatherStands};
ghost use Rattle.crsm_segment.specs.Taking.{is_sized, piece, whole_of};
ghost use Rattle.crsm_replica.specs.Parts.{TakesPart};

use crsm_base::{Bytes, MAX_REPLICAS, NoMemory};
use crsm_segment::{Gather, PartOutcome, parts_of_datagrams};
use std::alloc::Global;
use std::marker::Model;

/// The parts of control messages that were received.
pub struct Gathered {
    inside: Gather,
}

// Written by hand, it is one call for the crates above, which would prove a derived one again.
impl Drop for Gathered {
    fn drop(self) {
        let Gathered { inside: _ } = self;
    }
}

impl Model for Gathered {
    ghost use Rattle.std.specs.Prelude.{◌≡◌, List, Option, length};
    ghost use Rattle.crsm_segment.specs.Gathering.{Gathering};

    ghost Value = { List (Option Gathering) };

    ghost view = { λ g. g.inside };

    ghost invariant = { λ g. length g.inside ≡ 15 };
}

impl Gathered {
    /// Returns the state before any part was received. `NoMemory` if memory runs out.
    pub fn new(alloc: Global) -> Result<Gathered, NoMemory>
        ensures { IfOk result (λ gathered. GatherStands gathered []) }
    {
        Ok(Gathered {
            inside: Gather::new(alloc, MAX_REPLICAS)?,
        })
    }

    /// Takes a part of a valid length, and returns the message that it completes, if any. `NoMemory` if memory runs
    /// out.
    pub fn take(
        &mut self,
        from: u32,
        boot: u64,
        number: u64,
        index: u32,
        count: u32,
        bytes: &[u8],
    ) -> Result<Option<Bytes>, NoMemory>
        requires from { from < 15 }
        requires sized { is_sized (piece from boot number index count bytes.now) ≡ true }
        ensures { IfOk result (λ whole. TakesPart self.old self.new (piece from boot number index count bytes.now) whole) }
    {
        parts_of_datagrams();
        let taken = self.inside.take(from, boot, number, index, count, bytes)?;
        Ok(whole_message(taken))
    }
}

/// Returns the message that an outcome completes, if any.
#[tactic(auto, unfolding(crsm_segment::specs::Taking::whole_of))]
fn whole_message(taken: PartOutcome) -> Option<Bytes>
    ensures { result ≡ whole_of taken }
{
    match taken {
        PartOutcome::Whole(message) => Some(message),
        PartOutcome::More | PartOutcome::Old | PartOutcome::Odd => None,
    }
}
