//! Encodings of executed entries, joined in chunks, with an index.

ghost use Rattle.std.specs.Prelude.{◌≡◌, ◌<◌, ◌≤◌, ◌^◌, true, [], ◌∷◌, ◌++◌, List, length, slice_get, Some, OnErr, OnOk, IfOk};
ghost use Rattle.std.specs.List.{AllByRecursion};
ghost use Rattle.std.specs.Option.{option_copied};
ghost use Rattle.crsm_ledger.specs.Pieces.{HasOpenChunk, Keeps, IsSpelling, IsWithin, piece, pieces};

use crsm_base::{Bytes, NoMemory};
use std::alloc::Global;
use std::marker::Model;

/// Length of a chunk in bytes; a longer entry has a chunk of its own length.
const CHUNK_BYTES: usize = 65_536;

/// The location of an entry's bytes: the chunk, and the range in it. There is one for each executed entry, so it is
/// small.
#[derive(Clone, Copy)]
pub struct SpellingRange {
    pub chunk: u32,
    pub start: u32,
    /// Length in bytes.
    pub size: u32,
}

/// The encodings of the executed entries, in their order. No encoding lies in two chunks.
#[derive(Drop)]
pub struct Spelt {
    alloc: Global,
    chunks: Vec<Bytes>,
    places: Vec<SpellingRange>,
}

impl Model for Spelt {
    ghost use Rattle.std.specs.Prelude.{List, ℕ};
    ghost use Rattle.crsm_ledger.specs.Pieces.{pieces, AreSpelt};

    ghost Value = { List (List ℕ) };

    ghost view = { λ s. pieces s.chunks.items s.places.items };

    ghost invariant = { λ s. AreSpelt s.chunks.items s.places.items };
}

#[tactic(auto, using(crate::proofs::PiecesLemmas::pieces_rules))]
impl Spelt {
    /// Returns the empty list.
    pub fn new(alloc: Global) -> Spelt
        ensures { result ≡ [] }
    {
        Spelt {
            alloc,
            chunks: Vec::new(alloc),
            places: Vec::new(alloc),
        }
    }

    /// Returns the number of encodings.
    pub fn len(&self) -> usize
        ensures value { result ≡ length self.now }
        ensures few { result < 2 ^ 63 }
    {
        self.places.len()
    }

    /// Returns the encoding with this index, or `None` if there are not that many.
    pub fn get(&self, index: usize) -> Option<&[u8]>
        ensures { option_copied result ≡ slice_get self.now index }
    {
        piece_at(self.chunks.as_slice(), self.places.as_slice(), index)
    }

    /// Returns the encoding with this index.
    pub fn at(&self, index: usize) -> &[u8]
        requires { index < length self.now }
        ensures value { slice_get self.now index ≡ Some result.now }
        ensures spelling { IsSpelling result.now }
    {
        range_at(self.chunks.as_slice(), self.places.as_slice(), index)
    }

    /// Appends an encoding. `NoMemory` if memory runs out, as it does before there are 2^32 chunks; nothing has changed
    /// then.
    pub fn push(&mut self, bytes: &[u8]) -> Result<(), NoMemory>
        requires { IsSpelling bytes.now }
        ensures ok { OnOk result (self.new ≡ self.old ++ bytes.now ∷ []) }
        ensures err { OnErr result (self.new ≡ self.old) }
    {
        make_room(self.alloc, &mut self.chunks, bytes.len())?;
        let place = append(&mut self.chunks, bytes)?;
        self.places.push(place)?;
        Ok(())
    }
}

/// Returns the bytes of the range with this index.
#[tactic(auto, using(crate::proofs::PiecesLemmas::pieces_rules))]
fn range_at<'a>(chunks: &'a [Bytes], places: &[SpellingRange], index: usize) -> &'a [u8]
    requires inside { AllByRecursion (IsWithin chunks.now) places.now }
    requires index { index < length places.now }
    ensures { slice_get (pieces chunks.now places.now) index ≡ Some result.now }
{
    bytes_at(chunks, places[index])
}

/// Returns the bytes of the range with this index, or `None` if there are not that many.
#[tactic(auto, using(crate::proofs::PiecesLemmas::pieces_rules))]
fn piece_at<'a>(chunks: &'a [Bytes], places: &[SpellingRange], index: usize) -> Option<&'a [u8]>
    requires { AllByRecursion (IsWithin chunks.now) places.now }
    ensures { option_copied result ≡ slice_get (pieces chunks.now places.now) index }
{
    if index < places.len() {
        Some(range_at(chunks, places, index))
    } else {
        None
    }
}

/// Returns the bytes of this range.
fn bytes_at(chunks: &[Bytes], place: SpellingRange) -> &[u8]
    requires { IsWithin chunks.now place }
    ensures { result.now ≡ piece chunks.now place }
{
    let start = place.start as usize;
    &chunks[place.chunk as usize].as_slice()[start..start + place.size as usize]
}

/// Makes the last chunk one that has room for `more` bytes. `NoMemory` if memory runs out.
#[tactic(auto, using(crate::proofs::PiecesLemmas::pieces_rules))]
fn make_room(alloc: Global, chunks: &mut Vec<Bytes>, more: usize) -> Result<(), NoMemory>
    ensures keeps { Keeps chunks.old.items chunks.new.items }
    ensures begun { OnOk result (HasOpenChunk chunks.new.items) }
{
    let has_room = match chunks.last() {
        Some(chunk) => is_room(chunk.as_slice().len(), more),
        None => false,
    };
    if !has_room {
        chunks.push(Bytes::new(alloc))?;
    }
    Ok(())
}

/// Returns whether a chunk with `held` bytes has room for `more`.
fn is_room(held: usize, more: usize) -> bool
    ensures { result ≡ true → held ≤ 65536 }
{
    if held > CHUNK_BYTES {
        return false;
    }
    more <= CHUNK_BYTES - held
}

/// Appends these bytes to the last chunk and returns their range. `NoMemory` if memory runs out.
#[tactic(auto, using(crate::proofs::PiecesLemmas::pieces_rules))]
fn append(chunks: &mut Vec<Bytes>, bytes: &[u8]) -> Result<SpellingRange, NoMemory>
    requires room { HasOpenChunk chunks.old.items }
    requires short { length bytes.now ≤ 1129 }
    ensures keeps { Keeps chunks.old.items chunks.new.items }
    ensures placed { IfOk result (λ p. IsWithin chunks.new.items p × (piece chunks.new.items p ≡ bytes.now)) }
{
    let last = chunks.len() - 1;
    let Ok(chunk) = u32::try_from(last) else {
        return Err(NoMemory);
    };
    let start = chunks[last].as_slice().len() as u32;
    chunks[last].append(bytes)?;
    let size = bytes.len() as u32;
    Ok(SpellingRange { chunk, start, size })
}
