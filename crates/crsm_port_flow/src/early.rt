//! Frames that were received before an earlier frame of their link.

ghost use Rattle.std.specs.Prelude.{◌≡◌, ◌<◌, ◌≤◌, ◌↔◌, ◌-◌, ◌^◌, ◌==◌, if◌then◌else◌, ℕ, [], None, length, slice_index_or, slice_set, IfOk, IfErr, IfSome, IsSome, IsTrue, OnOk, true};
ghost use Rattle.crsm_port_flow.specs.Early.{Expects, kept_at, IsAfterExpected, IsBeforeExpected, IsEarlyIn, IsFrameBelow, IsFrameOf, IsPastIn, KeepsSome, Learns, LosesBelow, NoneBelow, NoneNext, OneMoreWaits, StayKept, TakesNext, Waits, WaitsAs, after, place_of};

use crate::datagram::{Buffers, Datagram};
use crate::heads::Head;
use crate::time::is_recent;
use crsm_base::NoMemory;
use std::alloc::Global;

/// Maximum number of replicas, and of frames after the expected one that are kept of a link.
const REPLICAS: usize = 15;

const WINDOW: usize = 1_024;

/// Maximum number of frames that are kept.
pub(crate) const MOST_EARLY: usize = REPLICAS * WINDOW;

/// Time in microseconds between two early frames of a link that are handed up: the replica acknowledges each, and the
/// sender sees by this which one is missing.
const TELLING_PAUSE: u64 = 2_000;

/// A kept frame: its sender, its number, and its datagram.
#[derive(Drop)]
struct Frame {
    from: u8,
    number: u64,
    datagram: Datagram,
}

/// What becomes of a received frame.
#[derive(Clone, Copy, PartialEq)]
pub(crate) enum FrameFate {
    /// It is the expected one, or of no link that is known: it is handed up.
    InOrder,
    /// It waits for an earlier one.
    Waits,
    /// It is kept already.
    IsKept,
}

/// The frames from one replica in an epoch: the sequence number that is expected next, and the reading at which a later
/// frame was handed up last, in microseconds.
#[derive(Clone, Copy)]
struct Link {
    epoch: u64,
    next: u64,
    told_at: Option<u64>,
}

impl Link {
    /// Returns whether the frame is one of those that are kept: after the expected one, and not too far.
    fn is_early(&self, epoch: u64, number: u64) -> bool
        ensures { result ≡ true → IsAfterExpected epoch number self.now }
    {
        self.epoch == epoch && number > self.next && number - self.next < WINDOW as u64
    }

    /// Returns whether the frame is before the expected one.
    fn is_past(&self, epoch: u64, number: u64) -> bool
        ensures { IsTrue result ↔ IsBeforeExpected epoch number self.now }
    {
        self.epoch == epoch && number < self.next
    }
}

/// Frames that arrived early, each at its sender and number. A link delivers nothing while a frame is missing, and then
/// needs all after it.
#[derive(Drop)]
pub(crate) struct Early {
    links: Vec<Link>,
    frames: Vec<Option<Frame>>,
    ghost wide: { length frames.items ≡ 15_360 },
}

/// Returns the index of a frame among the kept ones.
fn place_of(from: u8, number: u64) -> usize
    ensures place { result ≡ place_of from number }
    ensures within { result < 15_360 }
{
    usize::from(from) % REPLICAS * WINDOW + (number % WINDOW as u64) as usize
}

impl Early {
    /// Returns links without frames, or `NoMemory` if memory runs out.
    pub(crate) fn new(alloc: Global) -> Result<Early, NoMemory>
        ensures { IfOk result (λ e. KeepsSome [] e.frames.items) }
    {
        let nothing = Link {
            epoch: u64::MAX,
            next: 0,
            told_at: None,
        };
        Ok(Early {
            links: Vec::from_elem(alloc, nothing, REPLICAS)?,
            frames: no_frames(alloc)?,
        })
    }

    /// Returns whether a later frame of its link is expected.
    pub(crate) fn is_past(&self, frame: Head) -> bool
        ensures { IsTrue result ↔ IsPastIn frame.from frame.epoch frame.number self.now.links.items }
    {
        match self.links.get(usize::from(frame.from)) {
            Some(link) => link.is_past(frame.epoch, frame.number),
            None => false,
        }
    }

    /// Returns what becomes of a received frame.
    pub(crate) fn fate(&self, frame: Head) -> FrameFate
        ensures early { (result ≡ FrameFate.InOrder → ⊥) → IsEarlyIn frame.from frame.epoch frame.number self.now.links.items }
        ensures waits { result ≡ FrameFate.Waits → Waits frame.from frame.number self.now.frames.items → ⊥ }
        ensures kept { result ≡ FrameFate.IsKept → Waits frame.from frame.number self.now.frames.items }
    {
        match self.links.get(usize::from(frame.from)) {
            Some(link) if link.is_early(frame.epoch, frame.number) => self.fate_of_early(frame),
            _ => FrameFate::InOrder,
        }
    }

    /// Returns what becomes of a frame before which another is missing.
    fn fate_of_early(&self, frame: Head) -> FrameFate
        ensures early { result ≡ FrameFate.InOrder → ⊥ }
        ensures waits { result ≡ FrameFate.Waits → Waits frame.from frame.number self.now.frames.items → ⊥ }
        ensures kept { result ≡ FrameFate.IsKept → Waits frame.from frame.number self.now.frames.items }
    {
        if self.has(frame.from, frame.number) {
            FrameFate::IsKept
        } else {
            FrameFate::Waits
        }
    }

    /// Returns whether the frame of this sender and number is kept.
    fn has(&self, from: u8, number: u64) -> bool
        ensures { IsTrue result ↔ Waits from number self.now.frames.items }
    {
        is_frame(&self.frames[place_of(from, number)], from, number)
    }

    /// Keeps a frame that waits, or returns its datagram if another is kept in its place.
    pub(crate) fn keep(&mut self, frame: Head, datagram: Datagram) -> Result<(), Datagram>
        ensures waits { OnOk result (WaitsAs frame.from frame.number datagram self.new.frames.items) }
        ensures stay { StayKept self.old.frames.items self.new.frames.items }
        ensures only { OneMoreWaits datagram self.old.frames.items self.new.frames.items }
        ensures links { self.new.links ≡ self.old.links }
        ensures taken { IfErr result (λ d. (d ≡ datagram) × (self.new.frames.items ≡ self.old.frames.items) × (kept_at frame.from frame.number self.old.frames.items ≡ None → ⊥)) }
    {
        let place = &mut self.frames[place_of(frame.from, frame.number)];
        if !is_free(place) {
            return Err(datagram);
        }
        *place = Some(Frame {
            from: frame.from,
            number: frame.number,
            datagram,
        });
        Ok(())
    }

    /// Returns whether a frame that waits is handed up as well: one of its link was not for a while.
    pub(crate) fn tells(&mut self, from: u8, now: u64) -> bool
        ensures { self.new.frames ≡ self.old.frames }
    {
        let Some(link) = self.links.get_mut(usize::from(from)) else {
            return false;
        };
        if link
            .told_at
            .is_some_and(|at| is_recent(at, now, TELLING_PAUSE))
        {
            return false;
        }
        link.told_at = Some(now);
        true
    }

    /// Records that a frame is handed up, if it is the expected one.
    pub(crate) fn note_handed_up(&mut self, frame: Head)
        ensures frames { self.new.frames ≡ self.old.frames }
        ensures next { Expects frame.from frame.epoch frame.number self.old.links.items → Expects frame.from frame.epoch (after frame.number) self.new.links.items }
    {
        if let Some(link) = self.links.get_mut(usize::from(frame.from)) {
            if link.epoch == frame.epoch && link.next == frame.number {
                link.next = link.next.saturating_add(1);
            }
        }
    }

    /// Removes the kept frame that is expected next, and records that it is handed up; or returns `None`.
    pub(crate) fn take_next(&mut self, from: u8) -> Option<Datagram>
        ensures next { IfSome result (λ d. TakesNext from d self.old.links.items self.new.links.items self.old.frames.items self.new.frames.items) }
        ensures none { result ≡ None → NoneNext from self.old.links.items self.old.frames.items × (self.new.links.items ≡ self.old.links.items) × (self.new.frames.items ≡ self.old.frames.items) }
    {
        let link = self.links.get_mut(usize::from(from))?;
        let next = link.next;
        let datagram = take_at(&mut self.frames, from, next)?;
        link.next = next.saturating_add(1);
        Some(datagram)
    }

    /// Records the sequence number that this replica expects next from another. Frames of another epoch, and those
    /// before it, are removed, and their datagrams taken back.
    pub(crate) fn note_expected(&mut self, of: u8, epoch: u64, next: u64, buffers: &mut Buffers)
        ensures only { KeepsSome self.old.frames.items self.new.frames.items }
        ensures learns { Learns of epoch next self.old.links.items self.new.links.items self.old.frames.items self.new.frames.items }
    {
        let Some(link) = self.links.get_mut(usize::from(of)) else {
            return;
        };
        let Link {
            epoch: known,
            next: expected,
            ..
        } = *link;
        if known == epoch && next <= expected {
            return;
        }
        link.epoch = epoch;
        link.next = next;
        self.forget(of, least_kept(known, epoch, next), buffers);
    }

    /// Removes the kept frames of a replica before a number.
    fn forget(&mut self, of: u8, least: u64, buffers: &mut Buffers)
        ensures only { KeepsSome self.old.frames.items self.new.frames.items }
        ensures links { self.new.links ≡ self.old.links }
        ensures lost { LosesBelow of least self.old.frames.items self.new.frames.items }
        ensures gone { NoneBelow of least self.new.frames.items }
    {
        for number in 0..WINDOW as u64 {
            if let Some(datagram) = take_below(&mut self.frames, place_of(of, number), of, least) {
                buffers.take_back(datagram);
            }
        }
    }
}

/// Returns the places of kept frames, all of them free. `NoMemory` if memory runs out.
fn no_frames(alloc: Global) -> Result<Vec<Option<Frame>>, NoMemory>
    ensures free { IfOk result (λ frames. KeepsSome [] frames.items) }
    ensures all { IfOk result (λ frames. length frames.items ≡ 15_360) }
{
    let mut frames = Vec::with_capacity(alloc, MOST_EARLY)?;
    while frames.len() < MOST_EARLY {
        frames.push(None)?;
    }
    Ok(frames)
}

/// Removes the frame of this sender and number, and returns its datagram; or `None`.
fn take_at(frames: &mut Vec<Option<Frame>>, from: u8, number: u64) -> Option<Datagram>
    ensures was { IfSome result (λ d. WaitsAs from number d frames.old.items) }
    ensures gone { IsSome result → frames.new.items ≡ slice_set frames.old.items (place_of from number) None }
    ensures none { result ≡ None → (frames.new.items ≡ frames.old.items) × (Waits from number frames.old.items → ⊥) }
{
    let place = frames.get_mut(place_of(from, number))?;
    if !is_frame(place, from, number) {
        return None;
    }
    let frame = place.take()?;
    Some(frame.datagram)
}

/// Returns whether a place has no frame.
fn is_free(place: &Option<Frame>) -> bool
    ensures { IsTrue result ↔ (place.now ≡ None) }
{
    place.is_none()
}

/// Returns whether this is the frame of this sender and number.
fn is_frame(place: &Option<Frame>, from: u8, number: u64) -> bool
    ensures { IsTrue result ↔ IsFrameOf from number place.now }
{
    match place {
        Some(frame) => frame.from == from && frame.number == number,
        None => false,
    }
}

/// Returns whether this is a frame of this sender below a number.
fn is_below(place: &Option<Frame>, from: u8, least: u64) -> bool
    ensures { IsTrue result ↔ IsFrameBelow from least place.now }
{
    match place {
        Some(frame) => frame.from == from && frame.number < least,
        None => false,
    }
}

/// Removes the frame at a place if it is of this sender and below a number, and returns its datagram; or `None`.
fn take_below(
    frames: &mut Vec<Option<Frame>>,
    place: usize,
    from: u8,
    least: u64,
) -> Option<Datagram>
    ensures was { IsSome result → IsFrameBelow from least (slice_index_or frames.old.items place None) }
    ensures gone { IsSome result → frames.new.items ≡ slice_set frames.old.items place None }
    ensures none { result ≡ None → frames.new.items ≡ frames.old.items }
    ensures above { result ≡ None → IsFrameBelow from least (slice_index_or frames.old.items place None) → ⊥ }
{
    let place = frames.get_mut(place)?;
    if !is_below(place, from, least) {
        return None;
    }
    let frame = place.take()?;
    Some(frame.datagram)
}

/// Returns the least number of a frame that is still kept, where this one is expected in an epoch and the link was known
/// for another or the same.
fn least_kept(known: u64, epoch: u64, next: u64) -> u64
    ensures { result ≡ (if known == epoch then next else 2 ^ 64 - 1) }
{
    if known == epoch { next } else { u64::MAX }
}
