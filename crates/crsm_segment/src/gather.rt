//! Control messages of all peers, reassembled from their parts.

ghost use Rattle.std.specs.Prelude.{◌≡◌, ◌<◌, ◌≤◌, List, [], length, IfOk, OnOk, OnErr, None, replicate};
ghost use Rattle.crsm_spec.specs.Parts.{Piece};
ghost use Rattle.crsm_segment.specs.Taking.{after_part, taken_of, piece};
ghost use Rattle.crsm_segment.specs.Gather.{GatherStands};

use crate::message::{Heading, Message, PartOutcome, take_part};
use crsm_base::NoMemory;
use std::alloc::Global;
use std::marker::Model;

/// The parts of control messages received from each peer. A contract sees it by the list of all parts taken.
pub struct Gather {
    alloc: Global,
    peers: Vec<Option<Message>>,
}

// Written by hand, it is one call for the crates above, which would prove a derived one again.
impl Drop for Gather {
    fn drop(self) {
        let Gather { alloc: _, peers: _ } = self;
    }
}

impl Model for Gather {
    ghost use Rattle.std.specs.Prelude.{List, Option};
    ghost use Rattle.crsm_segment.specs.Gathering.{Gathering};

    ghost Value = { List (Option Gathering) };

    ghost view = { λ g. g.peers.items };
}

impl Gather {
    /// Returns the state before any part was received, for `n` peers. `NoMemory` if memory runs out.
    pub fn new(alloc: Global, n: u32) -> Result<Gather, NoMemory>
        requires one { 1 ≤ n }
        requires few { n ≤ 15 }
        ensures peers { IfOk result (λ made. length made ≡ n) }
        ensures empty { IfOk result (λ made. GatherStands made []) }
    {
        let mut peers = Vec::new(alloc);
        for _k in 0..n {
            peers.push(None)?;
        }
        Ok(Gather { alloc, peers })
    }

    /// Takes part `index`, of `count`, of the peer's message `number`. A part of a newer message drops the parts of the
    /// older one. `NoMemory` if memory runs out; nothing has changed then.
    pub fn take(
        &mut self,
        from: u32,
        boot: u64,
        number: u64,
        index: u32,
        count: u32,
        bytes: &[u8],
    ) -> Result<PartOutcome, NoMemory>
        requires { from < length self.old }
        ensures peers { length self.new ≡ length self.old }
        ensures state { OnOk result ((parts : List Piece) → GatherStands self.old parts → GatherStands self.new (after_part (piece from boot number index count bytes.now) parts)) }
        ensures taken { IfOk result (λ taken. (parts : List Piece) → GatherStands self.old parts → taken ≡ taken_of (piece from boot number index count bytes.now) parts) }
        ensures err { OnErr result (self.new ≡ self.old) }
    {
        let heading = Heading {
            boot,
            number,
            index,
            count,
        };
        let peer = &mut self.peers[from as usize];
        take_part(self.alloc, peer, heading, bytes)
    }
}
