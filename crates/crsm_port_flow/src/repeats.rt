//! Frames that were sent recently, and the frames that replicas expect.

ghost use Rattle.std.specs.Prelude.{◌≡◌, ◌↔◌, ◌<◌, ◌≤◌, All, IfOk, IfSome, IsTrue, None, Some, false, max, min, slice_get};
ghost use Rattle.crsm_port_flow.specs.Paces.{IsNeed, WentOnce, WentOnceBelow};
ghost use Rattle.crsm_port_flow.specs.Went.{IsFrame, NotesOnly, WentLately};
ghost use Rattle.crsm_port_flow.specs.declared.repeats.Expected.{Expected};

use crate::heads::Head;
use crate::time::is_recent;
use crsm_base::NoMemory;
use std::alloc::Global;

/// Maximum number of replicas, and of frames of a link that are remembered.
const REPLICAS: usize = 15;

const WINDOW: usize = 4_096;

/// Minimum time in microseconds between two sends of a frame, and the maximum of it. It is twice what acknowledgements
/// take if that is more, since a busy receiver is not helped by frames that it has, and it doubles with each
/// retransmission, since the receiver may be far away. If the receiver has acknowledged the same number twice, a frame is
/// missing there: the first retransmission of the `MISSED` frames from that number on waits only `HASTE`, and each
/// retransmission of the missing one only `NEXT`, since all frames after it wait for it.
const FIRST_PACE: u64 = 20_000;

const LAST_PACE: u64 = 160_000;

const HASTE: u64 = 1_000;

const MISSED: u64 = 32;

const NEXT: u64 = 5_000;

/// A frame, the reading at which it was last sent, in microseconds, and the number of its retransmissions.
#[derive(Clone, Copy)]
struct SentFrame {
    to: u8,
    epoch: u64,
    number: u64,
    at: u64,
    again: u32,
}

/// The frame that a replica expects next, whether it has acknowledged that number twice, and the time in microseconds
/// that its acknowledgements take.
#[derive(Clone, Copy)]
struct Expected {
    epoch: u64,
    next: u64,
    is_repeated: bool,
    delay: u64,
}

/// How a frame stands to the one that its receiver expects.
#[derive(Clone, Copy)]
enum Need {
    /// The receiver waits for this frame.
    Missing,
    /// It is one of those after a missing frame.
    Behind,
    /// Nothing says that it is missing.
    Unknown,
}

/// Returns the minimum time in microseconds after so many retransmissions, where the first one waits this long.
fn paced(first: u64, again: u32) -> u64
    ensures { result ≤ 160_000 }
{
    let factor = match again {
        0 => 1,
        1 => 2,
        2 => 4,
        _ => 8,
    };
    first.saturating_mul(factor).min(LAST_PACE)
}

/// Returns what acknowledgements take on average, where they took `delay` before and the last one took this long.
fn smoothed(delay: u64, took: u64) -> u64
    ensures { (min delay took ≤ result) × (result ≤ max delay took) }
{
    if took >= delay {
        delay + (took - delay) / 8
    } else {
        delay - (delay - took) / 8
    }
}

impl SentFrame {
    /// Returns whether this is the frame of this number to this replica.
    fn is(&self, frame: Head) -> bool
        ensures { IsTrue result ↔ IsFrame frame.to frame.epoch frame.number self.now }
    {
        self.to == frame.to && self.epoch == frame.epoch && self.number == frame.number
    }

    /// Returns the minimum time in microseconds until the frame may be sent again, where acknowledgements take `delay`.
    fn pace(&self, need: Need, delay: u64) -> u64
        ensures { result ≤ 160_000 }
    {
        match need {
            Need::Missing | Need::Behind if self.again == 0 => HASTE,
            Need::Missing => NEXT,
            Need::Behind | Need::Unknown => {
                paced(delay.saturating_mul(2).max(FIRST_PACE), self.again)
            }
        }
    }

    /// Returns how long ago this frame was sent, if it was sent once.
    fn age(&self, frame: Head, now: u64) -> Option<u64>
        ensures { IfSome result (λ took. IsFrame frame.to frame.epoch frame.number self.now × WentOnce self.now now took) }
    {
        if self.is(frame) && self.again == 0 {
            now.checked_sub(self.at)
        } else {
            None
        }
    }
}

impl Expected {
    /// Records an acknowledgement, and the time that it took if that is known.
    fn note(&mut self, ack: Head, took: Option<u64>)
        ensures expected { (self.new.epoch ≡ ack.epoch) × (self.new.next ≡ ack.number) }
        ensures repeated { IsTrue self.new.is_repeated ↔ ((self.old.epoch ≡ ack.epoch) × (self.old.next ≡ ack.number)) }
        ensures unknown { took ≡ None → self.new.delay ≡ self.old.delay }
    {
        if let Some(took) = took {
            self.delay = smoothed(self.delay, took.min(LAST_PACE));
        }
        self.is_repeated = self.epoch == ack.epoch && self.next == ack.number;
        self.epoch = ack.epoch;
        self.next = ack.number;
    }

    /// Returns how a frame stands to the expected one.
    fn need(&self, epoch: u64, number: u64) -> Need
        ensures { IsNeed result epoch number self.now }
    {
        if !self.is_repeated || self.epoch != epoch || number < self.next {
            return Need::Unknown;
        }
        match number - self.next {
            0 => Need::Missing,
            behind if behind < MISSED => Need::Behind,
            _ => Need::Unknown,
        }
    }
}

/// The frames sent recently to each replica, and the number that each expects.
#[derive(Drop)]
pub(crate) struct Repeats {
    last: Vec<SentFrame>,
    expected: Vec<Expected>,
}

/// Returns the index of a frame among the remembered ones.
fn place_of(frame: Head) -> usize
    ensures { result < 61_440 }
{
    usize::from(frame.to) % REPLICAS * WINDOW + (frame.number % WINDOW as u64) as usize
}

/// Returns the places of frames that were sent, in which none was. `NoMemory` if memory runs out.
fn none_sent(alloc: Global) -> Result<Vec<SentFrame>, NoMemory>
    ensures { IfOk result (λ last. All (λ f. f.at ≡ 0) last.items) }
{
    let never = SentFrame {
        to: u8::MAX,
        epoch: u64::MAX,
        number: u64::MAX,
        at: 0,
        again: 0,
    };
    Ok(Vec::from_elem(alloc, never, REPLICAS * WINDOW)?)
}

impl Repeats {
    /// Returns an empty record, or `NoMemory` if memory runs out.
    pub(crate) fn new(alloc: Global) -> Result<Repeats, NoMemory>
        ensures { IfOk result (λ r. All (λ f. f.at ≡ 0) r.last.items) }
    {
        let nothing = Expected {
            epoch: u64::MAX,
            next: 0,
            is_repeated: false,
            delay: 0,
        };
        Ok(Repeats {
            last: none_sent(alloc)?,
            expected: Vec::from_elem(alloc, nothing, REPLICAS)?,
        })
    }

    /// Records the sequence number that a replica expects, at this reading.
    pub(crate) fn note_expected(&mut self, ack: Head, now: u64)
        ensures { self.new.last ≡ self.old.last }
    {
        let took = self.time_to(ack, now);
        if let Some(expected) = self.expected.get_mut(usize::from(ack.from)) {
            expected.note(ack, took);
        }
    }

    /// Returns how long ago the frame was sent that was expected and is acknowledged now. `None` if none is, or if it was
    /// sent more than once: then the acknowledgement may be that of either.
    fn time_to(&self, ack: Head, now: u64) -> Option<u64>
        ensures { IfSome result (λ took. WentOnceBelow ack.from ack.epoch ack.number now took self.now.last.items) }
    {
        let expected = self.expected.get(usize::from(ack.from))?;
        if expected.epoch != ack.epoch || ack.number <= expected.next {
            return None;
        }
        let frame = Head {
            to: ack.from,
            number: expected.next,
            ..ack
        };
        self.last.get(place_of(frame))?.age(frame, now)
    }

    /// Returns whether a frame may be sent at this reading, and records it if so. A clock that went back holds nothing
    /// back.
    pub(crate) fn may_go(&mut self, frame: Head, now: u64) -> bool
        ensures held { result ≡ false → WentLately frame.to frame.epoch frame.number now self.old.last.items }
        ensures noted { NotesOnly frame.to frame.epoch frame.number now self.old.last.items self.new.last.items }
        ensures not { result ≡ false → self.new.last.items ≡ self.old.last.items }
    {
        let (need, delay) = self.need(frame);
        let Some(last) = self.last.get_mut(place_of(frame)) else {
            return true;
        };
        let mut again = 0;
        if last.is(frame) {
            if is_recent(last.at, now, last.pace(need, delay)) {
                return false;
            }
            again = last.again.saturating_add(1);
        }
        let Head {
            to,
            epoch,
            number,
            ..
        } = frame;
        *last = SentFrame {
            to,
            epoch,
            number,
            at: now,
            again,
        };
        true
    }

    /// Returns how a frame stands to the one that its receiver expects, and what its acknowledgements take.
    fn need(&self, frame: Head) -> (Need, u64)
        ensures { (e : Expected) → slice_get self.now.expected.items frame.to ≡ Some e → IsNeed result.0 frame.epoch frame.number e × (result.1 ≡ e.delay) }
    {
        match self.expected.get(usize::from(frame.to)) {
            Some(expected) => (expected.need(frame.epoch, frame.number), expected.delay),
            None => (Need::Unknown, 0),
        }
    }
}
