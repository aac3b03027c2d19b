//! The fragments that have arrived lately.

ghost use Rattle.std.specs.List.{filter};
ghost use Rattle.std.specs.Prelude.{◌≡◌, ◌⊎◌, ◌<◌, ◌≤◌, ℕ, List, [], false, true, None, Ok, IfSome, IsTrue, OnOk};
ghost use Rattle.crsm_port_packets.specs.Carrying.{put_together};
ghost use Rattle.crsm_port_packets.specs.Format.{fields_of};
ghost use Rattle.crsm_port_packets.specs.Kept.{Forgets, GainsOnly, IsHeld, IsMissing, KeepsFragment, StaysBut, arrived, crowd, fragment_of, is_recent, kept_in};

use crate::format::{Fragment, MOST_FRAGMENTS, NAME_BYTES};
use crsm_base::NoMemory;
use std::alloc::Global;

/// Maximum number of fragments that are kept from one sender: those of four datagrams.
const MOST_KEPT: usize = 4 * MOST_FRAGMENTS;

/// Time in microseconds for which a fragment is kept. A datagram's fragments are sent at once, so where one has not come
/// by then it was lost. Where a clock keeps one longer it does no harm, since its name says which datagram it is of.
const KEPT_FOR: u64 = 10_000_000;

/// A fragment, the address that it came from, and the reading at which it came.
#[derive(Drop)]
pub(crate) struct Piece {
    pub(crate) from: u64,
    pub(crate) at: u64,
    pub(crate) name: [u8; NAME_BYTES],
    pub(crate) index: u8,
    pub(crate) count: u8,
    pub(crate) bytes: Vec<u8>,
}

impl Piece {
    /// Returns whether this is the fragment at an index of the datagram of another, from the same address.
    fn is_at(&self, index: u8, from: u64, fragment: &Fragment<'_>) -> bool
        ensures no { result ≡ false → (at : ℕ) (bytes : List ℕ) → arrived self.now ≡ record { from = from; at = at; fragment = fragment_of (fields_of fragment.now) index bytes } → ⊥ }
        ensures yes { IsTrue result → arrived self.now ≡ record { from = from; at = self.now.at; fragment = record (fields_of fragment.now) { index = index; bytes = self.now.bytes.items } } }
    {
        self.index == index
            && self.name == *fragment.name
            && self.count == fragment.count
            && self.from == from
    }

    /// Returns whether the fragment came less than ten seconds before this reading, and the clock did not go back.
    fn is_recent(&self, now: u64) -> bool
        ensures { result ≡ is_recent now self.now }
    {
        self.at <= now && now - self.at < KEPT_FOR
    }
}

/// The latest fragments of each sender, the oldest first. Where there are `MOST_KEPT` from a sender, a new one takes the
/// place of the oldest of these.
#[derive(Drop)]
pub(crate) struct Fragments {
    alloc: Global,
    pieces: Vec<Piece>,
}

impl Fragments {
    /// Returns a state without fragments.
    pub(crate) fn new(alloc: Global) -> Fragments
        ensures { result.pieces.items ≡ [] }
    {
        Fragments {
            alloc,
            pieces: Vec::new(alloc),
        }
    }

    /// Lets go of the fragments that came ten seconds before this reading or earlier, or at a reading after it.
    pub(crate) fn forget_old(&mut self, now: u64)
        ensures kept { self.new.pieces.items ≡ filter (is_recent now) self.old.pieces.items }
    {
        self.pieces.retain(|piece| piece.is_recent(now));
    }

    /// Keeps a fragment that came at this reading. If all fragments of its datagram have arrived, the datagram is
    /// written to `whole`, which is empty, and `true` is returned. `NoMemory` if memory runs out; the datagram is then
    /// lost.
    pub(crate) fn add(
        &mut self,
        from: u64,
        now: u64,
        fragment: &Fragment<'_>,
        whole: &mut Vec<u8>,
    ) -> Result<bool, NoMemory>
        requires whole { whole.old.items ≡ [] }
        requires within { fragment.now.index < fragment.now.count }
        ensures kept { GainsOnly (record { from = from; at = now; fragment = fields_of fragment.now }) self.old.pieces.items self.new.pieces.items }
        ensures waits { result ≡ Ok false → (7 < fragment.now.count) ⊎ KeepsFragment from now (fields_of fragment.now) self.old.pieces.items self.new.pieces.items }
        ensures few { (address : ℕ) → crowd address self.old.pieces.items ≤ 28 → crowd address self.new.pieces.items ≤ 28 }
        ensures whole { result ≡ Ok true → put_together (kept_in self.new.pieces.items) from whole.new.items }
    {
        if usize::from(fragment.count) > MOST_FRAGMENTS {
            return Ok(false);
        }
        let bytes = Vec::from_slice(self.alloc, fragment.bytes)?;
        self.keep(Piece {
            from,
            at: now,
            name: *fragment.name,
            index: fragment.index,
            count: fragment.count,
            bytes,
        })?;
        self.put_together(from, fragment, whole)
    }

    /// Keeps a fragment. `NoMemory` if memory runs out.
    fn keep(&mut self, piece: Piece) -> Result<(), NoMemory>
        ensures only { GainsOnly (arrived piece) self.old.pieces.items self.new.pieces.items }
        ensures kept { OnOk result (IsHeld self.new.pieces.items (arrived piece)) }
        ensures stays { StaysBut piece.from self.old.pieces.items self.new.pieces.items }
        ensures few { (address : ℕ) → crowd address self.old.pieces.items ≤ 28 → crowd address self.new.pieces.items ≤ 28 }
    {
        self.make_room(piece.from);
        self.pieces.push(piece)?;
        Ok(())
    }

    /// Forgets the oldest fragment from a sender, if no more may be kept from it.
    fn make_room(&mut self, from: u64)
        ensures only { Forgets self.old.pieces.items self.new.pieces.items }
        ensures stays { StaysBut from self.old.pieces.items self.new.pieces.items }
        ensures few { (address : ℕ) → crowd address self.old.pieces.items ≤ 28 → crowd address self.new.pieces.items ≤ 28 }
        ensures room { crowd from self.old.pieces.items ≤ 28 → crowd from self.new.pieces.items < 28 }
    {
        if self.crowd(from) < MOST_KEPT {
            return;
        }
        for index in 0..self.pieces.len() {
            if self.pieces[index].from == from {
                self.pieces.remove(index);
                return;
            }
        }
    }

    /// Returns the number of fragments that are kept from a sender.
    fn crowd(&self, from: u64) -> usize
        ensures { result ≡ crowd from self.now.pieces.items }
    {
        let mut count = 0_usize;
        for piece in &self.pieces {
            if piece.from == from {
                count += 1;
            }
        }
        count
    }

    /// Writes the bytes of all fragments of a datagram in order, and returns whether all are here, and at least one.
    /// `NoMemory` if memory runs out.
    fn put_together(
        &self,
        from: u64,
        fragment: &Fragment<'_>,
        whole: &mut Vec<u8>,
    ) -> Result<bool, NoMemory>
        requires whole { whole.old.items ≡ [] }
        requires within { fragment.now.index < fragment.now.count }
        ensures together { result ≡ Ok true → put_together (kept_in self.now.pieces.items) from whole.new.items }
        ensures missing { result ≡ Ok false → IsMissing from (fields_of fragment.now) self.now.pieces.items }
    {
        for index in 0..fragment.count {
            match self.piece(index, from, fragment) {
                Some(bytes) => whole.extend_from_slice(bytes)?,
                None => return Ok(false),
            }
        }
        Ok(true)
    }

    /// Returns the bytes of the fragment at an index of a datagram, or `None` if it has not arrived.
    fn piece(&self, index: u8, from: u64, fragment: &Fragment<'_>) -> Option<&[u8]>
        ensures some { IfSome result (λ bytes. kept_in self.now.pieces.items from (record (fields_of fragment.now) { index = index; bytes = bytes.now })) }
        ensures none { result ≡ None → (bytes : List ℕ) → kept_in self.now.pieces.items from (fragment_of (fields_of fragment.now) index bytes) → ⊥ }
    {
        for piece in &self.pieces {
            if piece.is_at(index, from, fragment) {
                return Some(piece.bytes.as_slice());
            }
        }
        None
    }
}
