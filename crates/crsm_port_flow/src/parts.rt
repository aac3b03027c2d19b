//! Parts of control messages that were sent recently.

ghost use Rattle.std.specs.Prelude.{◌≡◌, All, IfOk, false};
ghost use Rattle.crsm_port_flow.specs.Went.{NotesPart, PartWentLately, checksum};

use crate::time::is_recent;
use crsm_base::NoMemory;
use std::alloc::Global;

/// Maximum number of parts that are remembered.
const REMEMBERED: usize = 4096;

/// Minimum time between two sends of the same part, in microseconds.
const PACE: u64 = 20_000;

/// The initial value and the multiplier of the checksum (FNV-1a).
const BASIS: u64 = 0xcbf2_9ce4_8422_2325;

const PRIME: u64 = 0x0100_0000_01b3;

/// The checksum of a part, and the clock reading at which it was last sent, in microseconds.
#[derive(Clone, Copy)]
struct SentPart {
    sum: u64,
    at: u64,
}

/// The parts sent recently. A replica repeats its control messages at each tick, with a new message number, and once
/// for each frame of another epoch; so the same part to the same address waits, whatever its message number.
#[derive(Drop)]
pub(crate) struct RecentParts {
    last: Vec<SentPart>,
}

/// Returns a checksum of the address and of a part after its message number. Parts with equal checksums count as the
/// same.
fn sum_of(to: u64, part: &[u8]) -> u64
    ensures { result ≡ checksum to part.now }
{
    let mut sum = (BASIS ^ to).wrapping_mul(PRIME);
    for byte in part {
        sum = (sum ^ u64::from(*byte)).wrapping_mul(PRIME);
    }
    sum
}

impl RecentParts {
    /// Returns an empty record, or `NoMemory` if memory runs out.
    pub(crate) fn new(alloc: Global) -> Result<RecentParts, NoMemory>
        ensures { IfOk result (λ r. All (λ p. p.at ≡ 0) r.last.items) }
    {
        let never = SentPart { sum: 0, at: 0 };
        Ok(RecentParts {
            last: Vec::from_elem(alloc, never, REMEMBERED)?,
        })
    }

    /// Returns whether a part may be sent at this reading, and records it if so. A clock that went back holds nothing
    /// back.
    pub(crate) fn may_go(&mut self, to: u64, part: &[u8], now: u64) -> bool
        ensures held { result ≡ false → PartWentLately (checksum to part.now) now self.old.last.items }
        ensures noted { NotesPart (checksum to part.now) now self.old.last.items self.new.last.items }
        ensures not { result ≡ false → self.new.last.items ≡ self.old.last.items }
    {
        let sum = sum_of(to, part);
        let place = (sum % REMEMBERED as u64) as usize;
        let Some(last) = self.last.get_mut(place) else {
            return true;
        };
        if last.sum == sum && is_recent(last.at, now, PACE) {
            return false;
        }
        *last = SentPart { sum, at: now };
        true
    }
}
