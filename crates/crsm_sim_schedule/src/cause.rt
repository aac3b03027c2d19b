//! The causes for which a line of a schedule is refused.

ghost use Rattle.std.specs.Prelude.{◌≡◌};
ghost use Rattle.crsm_sim_schedule.specs.Causes.{cause_in};

use crsm_port_lines::LineRefusal;
use std::fmt::{self, Display, Formatter, Write};

/// The cause for which a line of a schedule is refused. What replicas send is a datagram here, whatever a simulation
/// calls it.
#[derive(Clone, Copy, Debug, PartialEq, Eq)]
pub enum Cause {
    /// The line is outside the grammar.
    Unreadable,
    /// The simulation does not support the event.
    NotHere,
    /// What was sent and the log bodies have `bytes` bytes together, which is the limit or above it.
    Full { bytes: u64 },
    /// No replica has this number.
    NoSuchReplica,
    /// No datagram with this number was sent.
    NoSuchDatagram,
    /// The datagram was delivered or lost before.
    Used,
    /// The datagram was neither delivered nor lost before.
    Fresh,
    /// The datagrams do not all have one receiver.
    Mixed,
    /// The replica is down.
    IsDown,
    /// The replica is up.
    IsUp,
    /// The members are fewer than a majority.
    TooFew,
    /// The bytes are the encoding of a datagram.
    Forged,
}

/// A cause that is written in the words of a simulation.
#[derive(Clone, Copy, Debug, PartialEq, Eq)]
pub struct CauseText {
    cause: Cause,
    packet: &'static str,
}

impl Cause {
    /// Returns the cause to be written in words. `packet` is the word for what replicas send, as `datagram`.
    pub fn in_words(self, packet: &'static str) -> CauseText {
        CauseText {
            cause: self,
            packet,
        }
    }
}

/// Returns the cause to report for a bad line.
pub fn told_cause(why: LineRefusal<Cause>) -> Cause
    ensures { result ≡ cause_in why }
{
    match why {
        LineRefusal::Refused(cause) => cause,
        LineRefusal::TooLong | LineRefusal::Cut => Cause::Unreadable,
    }
}

/// Writes the cause in words.
impl Display for CauseText {
    fn fmt<W: Write>(&self, f: &mut Formatter<W>) -> fmt::Result {
        let packet = self.packet;
        match self.cause {
            Cause::Unreadable => f.write_str("it cannot be read"),
            Cause::NotHere => f.write_str("the event has no meaning here"),
            Cause::Full { bytes } => write!(f, "the world is full with {bytes} bytes"),
            Cause::NoSuchReplica => f.write_str("there is no such replica"),
            Cause::NoSuchDatagram => write!(f, "there is no such {packet}"),
            Cause::Used => write!(f, "the {packet} was delivered or lost before"),
            Cause::Fresh => write!(f, "the {packet} was not delivered or lost before"),
            Cause::Mixed => write!(f, "the {packet}s have more than one receiver"),
            Cause::IsDown => f.write_str("the replica is down"),
            Cause::IsUp => f.write_str("the replica is up"),
            Cause::TooFew => f.write_str("the members are fewer than a majority"),
            Cause::Forged => write!(f, "the bytes are a {packet}"),
        }
    }
}
