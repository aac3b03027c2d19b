//! The lines that a node says.

use crate::flushes::FlushTimes;
use crate::replicas::Replicas;
use crsm_base::Refusal;
use std::fmt::{self, Display, Formatter, Write};

/// How much a line matters.
#[derive(Clone, Copy, Debug, PartialEq, Eq)]
pub enum Level {
    /// Something that belongs to a sound cluster.
    Info,
    /// Something that an operator should look at.
    Warning,
}

/// Something that a node has to say. Times are in microseconds.
#[derive(Clone, Copy, Debug, PartialEq, Eq)]
pub enum Line {
    /// The node takes part in this epoch.
    Entered {
        epoch: u64,
        members: Replicas,
        spec: Replicas,
    },
    /// The node knows this epoch and takes no part in it.
    Outside {
        epoch: u64,
        members: Replicas,
        spec: Replicas,
    },
    /// The node is a member of this epoch and has not entered it since it was started: the others take it in.
    Waits {
        epoch: u64,
    },
    /// The node suspects members that it has not heard for 5 s, and asks for an epoch of the others.
    Suspects {
        suspected: Replicas,
        remaining: Replicas,
    },
    /// Nothing came from this replica for this time.
    Silent {
        replica: u32,
        time: u64,
    },
    /// Something came from this replica again, after this time.
    Heard {
        replica: u32,
        time: u64,
    },
    /// Executed commands came by state transfer: their number before and after.
    Transferred {
        from: u64,
        to: u64,
    },
    /// The log has this part of the 4 GiB that it can have.
    Room {
        percent: u64,
        bytes: u64,
    },
    /// A flush of the log took this time.
    SlowFlush {
        time: u64,
    },
    /// Requests were refused, the last one for this reason.
    Refused {
        count: u64,
        time: u64,
        last: Refusal,
    },
    /// The clock reads less than it did.
    ClockWentBack {
        time: u64,
    },
    /// The clock is ahead of the clocks of all replicas that were heard, by this time at least less what packets take.
    ClockAhead {
        time: u64,
    },
    /// The clock is behind the clocks of all replicas that were heard, by this time at least.
    ClockBehind {
        time: u64,
    },
    /// What there is, after a minute in which something happened.
    State {
        is_live: bool,
        epoch: u64,
        members: Replicas,
        executed: u64,
        bytes: u64,
        /// How long the flushes of that minute took, if one was slow.
        flushes: Option<FlushTimes>,
    },
}

impl Line {
    /// Returns how much the line matters.
    pub fn level(&self) -> Level {
        match self {
            Line::Entered { .. }
            | Line::Waits { .. }
            | Line::Heard { .. }
            | Line::Transferred { .. }
            | Line::State { .. } => Level::Info,
            Line::Room { percent, .. } if *percent < 75 => Level::Info,
            _ => Level::Warning,
        }
    }
}

impl Display for Level {
    fn fmt<W: Write>(&self, f: &mut Formatter<W>) -> fmt::Result {
        f.write_str(match self {
            Level::Info => "info",
            Level::Warning => "warning",
        })
    }
}

/// A time in seconds, with tenths.
#[derive(Clone, Copy)]
struct Seconds(u64);

impl Display for Seconds {
    fn fmt<W: Write>(&self, f: &mut Formatter<W>) -> fmt::Result {
        let tenths = self.0 / 100_000;
        write!(f, "{}.{} s", tenths / 10, tenths % 10)
    }
}

/// A time in milliseconds, with tenths.
#[derive(Clone, Copy)]
struct Millis(u64);

impl Display for Millis {
    fn fmt<W: Write>(&self, f: &mut Formatter<W>) -> fmt::Result {
        let tenths = self.0 / 100;
        write!(f, "{}.{} ms", tenths / 10, tenths % 10)
    }
}

/// Writes how long flushes took, behind what else there is; nothing where none was slow.
fn write_flushes<W: Write>(f: &mut Formatter<W>, flushes: Option<FlushTimes>) -> fmt::Result {
    let Some(FlushTimes { median, slowest }) = flushes else {
        return Ok(());
    };
    f.write_str("; flushes: ")?;
    if let Some(median) = median {
        write!(f, "median {}, ", Millis(median))?;
    }
    write!(f, "slowest {}", Millis(slowest))
}

/// Returns the reason of a refusal, in words.
fn reason(why: Refusal) -> &'static str {
    match why {
        Refusal::NotLive => "no 1: this node takes no part in the epoch",
        Refusal::Suspended => "no 2: the epoch is ending",
        Refusal::Busy => "no 3: 64 commands are under way",
        Refusal::Congested => "no 4: a link is full",
        Refusal::ClockSpent => "no 5: the clock stands at its last value",
        Refusal::Dropped => "no 6: dropped with the end of an epoch",
    }
}

/// Writes the line, without its level and without an end.
impl Display for Line {
    fn fmt<W: Write>(&self, f: &mut Formatter<W>) -> fmt::Result {
        match *self {
            Line::Entered {
                epoch,
                members,
                spec,
            } => write!(
                f,
                "takes part in epoch {epoch} with members {members} of {spec}"
            ),
            Line::Outside {
                epoch,
                members,
                spec,
            } => write!(
                f,
                "takes no part in epoch {epoch} with members {members} of {spec}"
            ),
            Line::Waits { epoch } => write!(f, "waits to be taken in, and knows epoch {epoch}"),
            Line::Suspects {
                suspected,
                remaining,
            } => write!(
                f,
                "suspects {suspected}, and asks for an epoch of {remaining}"
            ),
            Line::Silent { replica, time } => write!(
                f,
                "nothing from replica {replica} for {}",
                Seconds(time)
            ),
            Line::Heard { replica, time } => write!(
                f,
                "heard replica {replica} again, after {}",
                Seconds(time)
            ),
            Line::Transferred { from, to } => write!(
                f,
                "caught up by state transfer: {from} executed before, {to} now"
            ),
            Line::Room { percent, bytes } => write!(
                f,
                "the log has {bytes} bytes, over {percent} % of what it can have"
            ),
            Line::SlowFlush { time } => write!(f, "a flush of the log took {}", Seconds(time)),
            Line::Refused { count, time, last } => write!(
                f,
                "refused {count} {} in {}, the last with {}",
                if count == 1 { "request" } else { "requests" },
                Seconds(time),
                reason(last)
            ),
            Line::ClockWentBack { time } => write!(f, "the clock went back by {}", Seconds(time)),
            Line::ClockAhead { time } => write!(
                f,
                "the clock is ahead of those of all others that are heard, by {}",
                Seconds(time)
            ),
            Line::ClockBehind { time } => write!(
                f,
                "the clock is behind those of all others that are heard, by {}",
                Seconds(time)
            ),
            Line::State {
                is_live,
                epoch,
                members,
                executed,
                bytes,
                flushes,
            } => {
                let standing = if is_live { "takes part" } else { "waits" };
                write!(
                    f,
                    "{standing}; epoch {epoch}, members {members}, {executed} executed, log {bytes} bytes"
                )?;
                write_flushes(f, flushes)
            }
        }
    }
}
