//! The reasons why an event is not possible.

use crsm_base::NoMemory;

/// The reason why an event is not possible.
#[derive(Clone, Copy, Debug, PartialEq, Eq)]
pub enum Bad {
    /// The datagrams and the log bodies have `bytes` bytes together, which is the limit or above it.
    Full { bytes: u64 },
    /// No replica has this number.
    NoSuchReplica,
    /// No datagram with this number was sent.
    NoSuchDatagram,
    /// The datagram was delivered or lost before.
    Used,
    /// The datagram was neither delivered nor lost before.
    Fresh,
    /// The datagrams do not all have one receiver.
    Mixed,
    /// The replica is down.
    IsDown,
    /// The replica is up.
    IsUp,
    /// The members are fewer than a majority.
    TooFew,
    /// The bytes are the encoding of a datagram.
    Forged,
    /// Memory ran out. From then on the world returns no other result.
    NoMemory,
}

impl From<NoMemory> for Bad {
    ghost use Rattle.std.specs.Prelude.{◌≡◌};
    ghost use Rattle.crsm_world.specs.declared.bad.Bad.TheVariants.{NoMemory as OutOfMemory};

    ghost from_gives = { λ _ e. e ≡ OutOfMemory };

    fn from(_e: NoMemory) -> Bad {
        Bad::NoMemory
    }
}
