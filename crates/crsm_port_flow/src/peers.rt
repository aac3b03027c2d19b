//! The datagrams that came from peers and are not handed up yet, each in its order.

ghost use Rattle.std.specs.Prelude.{◌≡◌, ◌+◌, ◌<◌, ◌≤◌, length};
ghost use Rattle.std.specs.VecDeque.{deque_capacity};
ghost use Rattle.crsm_port_flow.specs.Early.{frames_in};

use crate::again::Again;
use crate::datagram::{Buffers, Datagram, Loss, PACKET_BYTES};
use crate::early::{Early, FrameFate, MOST_EARLY};
use crate::heads::{FRAME, Head, head_in};
use crsm_base::NoMemory;
use crsm_port::Recv;
use std::alloc::Global;
use std::collections::VecDeque;

/// Number of datagrams of peers that are ready from which on no other is taken in.
pub(crate) const MOST_AHEAD: usize = 1_024;

/// Maximum number of datagrams that are ready, if all frames that wait become so at once.
const MOST_READY: usize = MOST_AHEAD + MOST_EARLY;

/// The datagrams of peers: those in order, and frames that wait for an earlier one, each of these at a place of its own.
/// So there is always room for what waits for nothing, and nobody else takes it.
#[derive(Drop)]
pub(crate) struct FromPeers {
    buffers: Buffers,
    ready: VecDeque<Datagram>,
    early: Early,
    again: Again,
    ghost few: { length ready.items + frames_in early.frames.items ≤ 16_384 },
    ghost reserved: { 16_384 ≤ deque_capacity ready },
}

impl FromPeers {
    ghost use Rattle.std.specs.Prelude.{◌⊎◌, ◌++◌, [], ◌∷◌, All, IfOk, IfSome, IsErrOf, OnErr, OnOk, None};
    ghost use Rattle.crsm_port.specs.Passing.{NoMore};
    ghost use Rattle.crsm_port_flow.specs.Again.{IsAgain};
    ghost use Rattle.crsm_port_flow.specs.Early.{IsPastIn, WaitsAs, kept_at};
    ghost use Rattle.crsm_port_flow.specs.Followed.{Follow, IsExpectedOf, IsFollowed, IsFollowedFrom, IsNotedOf, LosesPast, NoneLost};
    ghost use Rattle.crsm_port_flow.specs.Heads.{HasHead};
    ghost use Rattle.crsm_port_flow.specs.Kept.{Is, KeepsOnly, of_peers};
    ghost use Rattle.crsm_port_flow.specs.Lost.{CannotWait};
    ghost use Rattle.crsm_port_flow.specs.Order.{FirstGoes};
    ghost use Rattle.crsm_port_flow.specs.Rooms.{IsShortOf};
    ghost use Rattle.crsm_port_flow.specs.Same.{SamePeers};
    ghost use Rattle.crsm_port_flow.specs.Taken.{GoesAgain, IsMadeReady, IsTaken, NoneAgain, NotesAgain, StaysReady};

    /// Returns a state without datagrams, or `NoMemory` if memory runs out.
    pub(crate) fn new(alloc: Global) -> Result<FromPeers, NoMemory>
        ensures nothing { IfOk result (λ p. NoMore (λ _ _. ⊥) (of_peers p)) }
        ensures said { IfOk result (λ p. All (λ s. s.next ≡ 0) p.again.said.items) }
    {
        Ok(FromPeers {
            buffers: Buffers::new(alloc),
            ready: VecDeque::with_capacity(alloc, MOST_READY)?,
            early: Early::new(alloc)?,
            again: Again::new(alloc)?,
        })
    }

    /// Returns the number of datagrams that can be handed up at once.
    pub(crate) fn ready(&self) -> usize
        ensures { result ≡ length self.now.ready.items }
    {
        self.ready.len()
    }

    /// Takes a datagram in, to be handed up in its order. `Dropped` if it is a frame that cannot wait for an earlier one,
    /// and `NoMemory` if memory runs out; the datagram is then lost, as any may be, and nothing else.
    pub(crate) fn take_in(&mut self, from: u64, bytes: &[u8], now: u64) -> Result<(), Loss>
        requires few { length self.old.ready.items < 1_024 }
        ensures taken { OnOk result (IsTaken from bytes.now now self.old self.new) }
        ensures back { OnOk result (NoneAgain bytes.now now self.old self.new) }
        ensures again { NotesAgain from bytes.now now self.old self.new }
        ensures dropped { IsErrOf result Loss.Dropped → CannotWait bytes.now self.old }
        ensures no_memory { IsErrOf result Loss.NoMemory → IsShortOf (length bytes.now) self.old.buffers }
        ensures followed { OnOk result (IsFollowed from bytes.now self.old self.new) }
        ensures none_lost { NoneLost self.old self.new }
        ensures stays { StaysReady self.old.ready.items self.new.ready.items }
        ensures unchanged { OnErr result (SamePeers self.old self.new) }
        ensures only { KeepsOnly from bytes.now (of_peers self.old) (of_peers self.new) }
    {
        match head_in(FRAME, bytes) {
            Some(frame) => self.take_frame(from, bytes, frame, now),
            None => Ok(self.make_ready(from, bytes)?),
        }
    }

    /// Keeps a datagram to be handed up after those that are ready.
    fn make_ready(&mut self, from: u64, bytes: &[u8]) -> Result<(), NoMemory>
        requires few { length self.old.ready.items < 1_024 }
        ensures ready { OnOk result ((d : Datagram) × Is from bytes.now d × (self.new.ready.items ≡ self.old.ready.items ++ d ∷ [])) }
        ensures no_memory { OnErr result (IsShortOf (length bytes.now) self.old.buffers) }
        ensures again { self.new.again ≡ self.old.again }
        ensures stays { StaysReady self.old.ready.items self.new.ready.items }
        ensures early { self.new.early ≡ self.old.early }
        ensures unchanged { OnErr result (SamePeers self.old self.new) }
        ensures only { KeepsOnly from bytes.now (of_peers self.old) (of_peers self.new) }
    {
        let datagram = self.buffers.datagram(from, bytes)?;
        self.ready.push_back_reserved(datagram);
        Ok(())
    }

    /// Takes a frame in. If it is the expected one, those that waited for it follow it; if it is past, it may stay back.
    fn take_frame(&mut self, from: u64, bytes: &[u8], frame: Head, now: u64) -> Result<(), Loss>
        requires head { HasHead 1 frame.from frame.to frame.epoch frame.number bytes.now }
        requires few { length self.old.ready.items < 1_024 }
        ensures taken { OnOk result (IsTaken from bytes.now now self.old self.new) }
        ensures back { IsPastIn frame.from frame.epoch frame.number self.old.early.links.items → IsAgain frame.from frame.epoch frame.number now self.old.again → OnOk result (self.new ≡ self.old) }
        ensures again { NotesAgain from bytes.now now self.old self.new }
        ensures dropped { IsErrOf result Loss.Dropped → CannotWait bytes.now self.old }
        ensures no_memory { IsErrOf result Loss.NoMemory → IsShortOf (length bytes.now) self.old.buffers }
        ensures followed { OnOk result (IsFollowedFrom frame.from frame.epoch frame.number from bytes.now self.old self.new) }
        ensures none_lost { NoneLost self.old self.new }
        ensures stays { StaysReady self.old.ready.items self.new.ready.items }
        ensures unchanged { OnErr result (SamePeers self.old self.new) }
        ensures only { KeepsOnly from bytes.now (of_peers self.old) (of_peers self.new) }
    {
        if self.early.is_past(frame) {
            return Ok(self.take_again(from, bytes, frame, now)?);
        }
        match self.early.fate(frame) {
            FrameFate::InOrder => Ok(self.take_in_order(from, bytes, frame)?),
            FrameFate::Waits => self.take_early(from, bytes, frame, now),
            FrameFate::IsKept => Ok(()),
        }
    }

    /// Makes a frame ready that is past, unless the replica has acknowledged it and such a frame of its link went up a
    /// moment ago.
    fn take_again(&mut self, from: u64, bytes: &[u8], frame: Head, now: u64) -> Result<(), NoMemory>
        requires head { HasHead 1 frame.from frame.to frame.epoch frame.number bytes.now }
        requires few { length self.old.ready.items < 1_024 }
        ensures goes { OnOk result (GoesAgain from bytes.now now self.old self.new) }
        ensures back { IsAgain frame.from frame.epoch frame.number now self.old.again → OnOk result (self.new ≡ self.old) }
        ensures noted { NotesAgain from bytes.now now self.old self.new }
        ensures no_memory { OnErr result (IsShortOf (length bytes.now) self.old.buffers) }
        ensures early { self.new.early ≡ self.old.early }
        ensures stays { StaysReady self.old.ready.items self.new.ready.items }
        ensures unchanged { OnErr result (SamePeers self.old self.new) }
        ensures only { KeepsOnly from bytes.now (of_peers self.old) (of_peers self.new) }
    {
        if self.again.holds_back(frame, now) {
            return Ok(());
        }
        self.make_ready(from, bytes)?;
        self.again.note_went(frame, now);
        Ok(())
    }

    /// Makes a frame ready, and those that have waited for it.
    fn take_in_order(&mut self, from: u64, bytes: &[u8], frame: Head) -> Result<(), NoMemory>
        requires few { length self.old.ready.items < 1_024 }
        ensures ready { OnOk result (IsMadeReady from bytes.now self.old.ready.items self.new.ready.items) }
        ensures no_memory { OnErr result (IsShortOf (length bytes.now) self.old.buffers) }
        ensures followed { OnOk result (IsFollowedFrom frame.from frame.epoch frame.number from bytes.now self.old self.new) }
        ensures none_lost { NoneLost self.old self.new }
        ensures again { self.new.again ≡ self.old.again }
        ensures stays { StaysReady self.old.ready.items self.new.ready.items }
        ensures unchanged { OnErr result (SamePeers self.old self.new) }
        ensures only { KeepsOnly from bytes.now (of_peers self.old) (of_peers self.new) }
    {
        self.make_ready(from, bytes)?;
        self.early.note_handed_up(frame);
        self.follow(frame.from);
        Ok(())
    }

    /// Keeps a frame until the one before it has come, and makes it ready as well if none of its link was for a while.
    fn take_early(&mut self, from: u64, bytes: &[u8], frame: Head, now: u64) -> Result<(), Loss>
        requires few { length self.old.ready.items < 1_024 }
        ensures waits { OnOk result ((d : Datagram) × Is from bytes.now d × WaitsAs frame.from frame.number d self.new.early.frames.items) }
        ensures dropped { IsErrOf result Loss.Dropped → (1_232 < length bytes.now) ⊎ (kept_at frame.from frame.number self.old.early.frames.items ≡ None → ⊥) }
        ensures no_memory { IsErrOf result Loss.NoMemory → IsShortOf (length bytes.now) self.old.buffers }
        ensures none_lost { NoneLost self.old self.new }
        ensures again { self.new.again ≡ self.old.again }
        ensures stays { StaysReady self.old.ready.items self.new.ready.items }
        ensures unchanged { OnErr result (SamePeers self.old self.new) }
        ensures only { KeepsOnly from bytes.now (of_peers self.old) (of_peers self.new) }
    {
        if bytes.len() > PACKET_BYTES {
            return Err(Loss::Dropped);
        }
        let datagram = self.buffers.datagram(from, bytes)?;
        if let Err(datagram) = self.early.keep(frame, datagram) {
            self.buffers.take_back(datagram);
            return Err(Loss::Dropped);
        }
        if self.early.tells(frame.from, now) {
            // It waits, whether or not there is memory for this.
            let _ = self.make_ready(from, bytes);
        }
        Ok(())
    }

    /// Makes the frames ready that have waited for those before them.
    fn follow(&mut self, sender: u8)
        ensures follow { Follow sender self.old self.new }
        ensures none_lost { NoneLost self.old self.new }
        ensures again { self.new.again ≡ self.old.again }
        ensures stays { StaysReady self.old.ready.items self.new.ready.items }
        ensures only { NoMore (of_peers self.old) (of_peers self.new) }
    {
        while let Some(datagram) = self.early.take_next(sender) {
            self.ready.push_back_reserved(datagram);
        }
    }

    /// Hands up the first datagram that is ready, cut to the buffer, or returns `None`.
    pub(crate) fn hand_up(&mut self, buf: &mut [u8]) -> Option<Recv>
        ensures first { IfSome result (FirstGoes self.old self.new buf.old buf.new) }
        ensures none { result ≡ None → (self.old.ready.items ≡ []) × (self.new.ready.items ≡ []) × (self.new.early ≡ self.old.early) }
    {
        let datagram = self.ready.pop_front()?;
        let got = datagram.hand_up(buf);
        self.buffers.take_back(datagram);
        Some(got)
    }

    /// Records the sequence number that this replica expects next from another, and makes the frames ready that have
    /// waited for those before it.
    pub(crate) fn note_expected(&mut self, expected: Head)
        ensures acknowledged { IsNotedOf expected.to expected.epoch expected.number self.old self.new }
        ensures lost { LosesPast expected.to expected.epoch expected.number self.old self.new }
        ensures expected { IsExpectedOf expected.to expected.epoch expected.number self.old self.new }
        ensures stays { StaysReady self.old.ready.items self.new.ready.items }
        ensures only { NoMore (of_peers self.old) (of_peers self.new) }
    {
        let Head {
            to: of,
            epoch,
            number,
            ..
        } = expected;
        self.again.note_said(of, epoch, number);
        self.early
            .note_expected(of, epoch, number, &mut self.buffers);
        self.follow(of);
    }
}
