//! The reasons why an event is not possible.

use crsm_base::NoMemory;

/// The reason why an event is not possible.
#[derive(Clone, Copy, Debug, PartialEq, Eq)]
pub enum MpBad {
    /// The event is not supported: bytes from no replica, a group of deliveries, or a stop at a call of the device.
    NotHere,
    /// The log bodies have `bytes` bytes together, which is the limit or above it.
    Full { bytes: u64 },
    /// No replica has this number.
    NoSuchReplica,
    /// No message with this number was sent.
    NoSuchDatagram,
    /// The message was delivered or lost before.
    Used,
    /// The message was neither delivered nor lost before.
    Fresh,
    /// The messages do not all have one receiver. No event is refused for this reason.
    Mixed,
    /// The replica is down.
    IsDown,
    /// The replica is up.
    IsUp,
    /// The members are fewer than a majority.
    TooFew,
    /// The bytes are the encoding of a datagram. No event is refused for this reason.
    Forged,
    /// Memory ran out. From then on the world returns no other result.
    NoMemory,
}

impl From<NoMemory> for MpBad {
    ghost use Rattle.std.specs.Prelude.{◌≡◌};
    ghost use Rattle.crsm_mpspec.specs.declared.bad.MpBad.TheVariants.{NoMemory as OutOfMemory};

    ghost from_gives = { λ _ e. e ≡ OutOfMemory };

    fn from(_e: NoMemory) -> MpBad {
        MpBad::NoMemory
    }
}
