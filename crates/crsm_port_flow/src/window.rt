//! The frames of each link that were sent and are not acknowledged.

ghost use Rattle.std.specs.Prelude.{◌≡◌, ◌==◌, if◌then◌else◌, true};
ghost use Rattle.crsm_port_flow.specs.Early.{after};
ghost use Rattle.crsm_port_flow.specs.Windows.{CountsExpected, CountsSent, IsBehind, SendsIn, has_past, most_under_way, new_window, under_way};

use crate::heads::Head;
use crate::time::is_recent;

/// Maximum number of replicas.
const REPLICAS: usize = 15;

/// Maximum number of unacknowledged frames of a link at which requests are admitted: so many for each member, since
/// each has so many commands under way at most and each command is one frame of a link, and `MORE`.
const OF_EACH: u64 = 64;

const MORE: u64 = 128;

/// Time in microseconds without an acknowledgement after which requests no longer wait for one.
const PATIENCE: u64 = 1_000_000;

/// The number after the last frame of a link that was sent, and the number that its receiver expects.
#[derive(Clone, Copy)]
struct Link {
    sent: u64,
    acknowledged: u64,
}

impl Link {
    /// Returns the number of frames on their way.
    fn under_way(&self) -> u64
        ensures { result ≡ under_way self.now }
    {
        self.sent.saturating_sub(self.acknowledged)
    }
}

/// The links of the newest epoch.
#[derive(Drop)]
pub(crate) struct Window {
    epoch: u64,
    links: [Link; REPLICAS],
    // The number of links with frames.
    used: u64,
    // The reading at which a frame was last acknowledged, or the first of those under way was sent.
    since: u64,
}

impl Window {
    /// Returns the links of an epoch of which no frame was sent.
    pub(crate) fn new(epoch: u64) -> Window
        ensures { result ≡ new_window epoch }
    {
        Window {
            epoch,
            links: [Link {
                sent: 0,
                acknowledged: 0,
            }; REPLICAS],
            used: 0,
            since: 0,
        }
    }

    /// Records a frame that is sent.
    pub(crate) fn note_sent(&mut self, frame: Head, now: u64)
        ensures { CountsSent frame.to frame.epoch frame.number now self.old self.new }
    {
        let Head {
            to,
            epoch,
            number,
            ..
        } = frame;
        if epoch > self.epoch {
            *self = Window::new(epoch);
        }
        if epoch == self.epoch {
            self.note_next(to, number, now);
        }
    }

    /// Records a frame of the window's epoch that is sent.
    fn note_next(&mut self, to: u8, number: u64, now: u64)
        ensures { SendsIn to number now self.old self.new }
    {
        let place = usize::from(to);
        if place >= REPLICAS {
            return;
        }
        let link = self.links[place];
        if number < link.sent {
            return;
        }
        self.used = used_after(self.used, link);
        self.since = since_after(self.since, link, now);
        self.links[place] = Link {
            sent: number.saturating_add(1),
            acknowledged: link.acknowledged,
        };
    }

    /// Records the sequence number that a replica expects.
    pub(crate) fn note_expected(&mut self, from: u8, epoch: u64, next: u64, now: u64)
        ensures { CountsExpected from epoch next now self.old self.new }
    {
        let place = usize::from(from);
        if epoch != self.epoch || place >= REPLICAS {
            return;
        }
        let link = self.links[place];
        if next <= link.acknowledged || next > link.sent {
            return;
        }
        self.since = now;
        self.links[place] = Link {
            sent: link.sent,
            acknowledged: next,
        };
    }

    /// Returns whether a peer is so far behind that requests have to wait.
    pub(crate) fn is_full(&self, now: u64) -> bool
        ensures { result ≡ true → IsBehind now self.now }
    {
        is_recent(self.since, now, PATIENCE) && has_past(&self.links, self.most_under_way())
    }

    /// Returns the maximum number of frames on their way on a link at which requests are admitted.
    fn most_under_way(&self) -> u64
        ensures { result ≡ most_under_way self.now }
    {
        let members = self.used.min(REPLICAS as u64) + 1;
        OF_EACH * members + MORE
    }
}

/// Returns the number of links with frames after a frame is sent on this one.
fn used_after(used: u64, link: Link) -> u64
    ensures { result ≡ (if link.sent == 0 then after used else used) }
{
    if link.sent == 0 {
        used.saturating_add(1)
    } else {
        used
    }
}

/// Returns since when a frame of the links is waited for, after one is sent on this link.
fn since_after(since: u64, link: Link, now: u64) -> u64
    ensures { result ≡ (if under_way link == 0 then now else since) }
{
    if link.under_way() == 0 { now } else { since }
}

/// Returns whether more than `most` frames are on their way on one of the links.
fn has_past(links: &[Link], most: u64) -> bool
    ensures { result ≡ has_past most links.now }
{
    links.iter().any(|link| link.under_way() > most)
}
