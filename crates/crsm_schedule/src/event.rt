//! The events of a schedule.

ghost use Rattle.std.specs.Prelude.{◌≡◌, IfOk};

use crate::numbers::Numbers;
use crsm_base::{Bytes, Command, Members, NoMemory};
use std::alloc::Global;

/// An event of one step at one replica. `reading` is that of the replica's clock. Its unit is left to the schedule;
/// `delay` writes microseconds.
#[derive(Debug, Drop)]
pub enum Single {
    /// A replica receives a client's command.
    Request {
        replica: u64,
        reading: u64,
        command: Command,
    },
    /// A datagram is delivered for the first time. Datagrams are numbered from 0, in the order in which they are sent.
    Go {
        number: u64,
        reading: u64,
    },
    /// A datagram that was delivered or lost is delivered once more.
    Again {
        number: u64,
        reading: u64,
    },
    /// The timer of a replica fires.
    Tick {
        replica: u64,
        reading: u64,
    },
    /// A replica is asked to change the members of its epoch to these.
    Suspect {
        replica: u64,
        reading: u64,
        members: Members,
    },
    /// A replica receives bytes that are no datagram.
    Junk {
        replica: u64,
        reading: u64,
        bytes: Bytes,
    },
}

/// An event: one line of a schedule after the first.
#[derive(Debug, Drop)]
pub enum Event {
    /// One step at one replica.
    One {
        single: Single,
    },
    /// A datagram is lost.
    Lose {
        number: u64,
    },
    /// A replica stops between two steps.
    Crash {
        replica: u64,
    },
    /// A replica boots on its disk; a new number becomes a new replica.
    Start {
        replica: u64,
    },
    /// Every datagram neither delivered nor lost whose receiver is up is delivered, in the order of sending.
    Settle {
        reading: u64,
    },
    /// A step stops before its records are kept.
    CutLost {
        single: Single,
    },
    /// A step stops after its records were kept and its first `sends` datagrams and replies were sent.
    CutKept {
        sends: u64,
        single: Single,
    },
    /// Datagrams are delivered in this order, with one log write for all.
    Batch {
        reading: u64,
        numbers: Numbers,
    },
    /// A batch stops before its records are kept: its first step is lost, and the other datagrams are lost too.
    CutLostBatch {
        reading: u64,
        numbers: Numbers,
    },
    /// A step stops after `calls` device calls of its log write, 0 to 4. Bytes that were not synced read as `fill`.
    CutAt {
        calls: u64,
        fill: u8,
        single: Single,
    },
}

impl Single {
    /// Returns a copy in memory from `alloc`, or `NoMemory` if that runs out.
    pub fn copy(&self, alloc: Global) -> Result<Single, NoMemory>
        ensures { IfOk result (λ copy. copy ≡ self.now) }
    {
        match self {
            Single::Request {
                replica,
                reading,
                command,
            } => Ok(Single::Request {
                replica: *replica,
                reading: *reading,
                command: command.copy(alloc)?,
            }),
            Single::Go { number, reading } => Ok(Single::Go {
                number: *number,
                reading: *reading,
            }),
            Single::Again { number, reading } => Ok(Single::Again {
                number: *number,
                reading: *reading,
            }),
            Single::Tick { replica, reading } => Ok(Single::Tick {
                replica: *replica,
                reading: *reading,
            }),
            Single::Suspect {
                replica,
                reading,
                members,
            } => Ok(Single::Suspect {
                replica: *replica,
                reading: *reading,
                members: members.copy(alloc)?,
            }),
            Single::Junk {
                replica,
                reading,
                bytes,
            } => Ok(Single::Junk {
                replica: *replica,
                reading: *reading,
                bytes: bytes.copy(alloc)?,
            }),
        }
    }
}

impl Event {
    /// Returns a copy in memory from `alloc`, or `NoMemory` if that runs out.
    pub fn copy(&self, alloc: Global) -> Result<Event, NoMemory>
        ensures { IfOk result (λ copy. copy ≡ self.now) }
    {
        match self {
            Event::One { single } => Ok(Event::One {
                single: single.copy(alloc)?,
            }),
            Event::Lose { number } => Ok(Event::Lose { number: *number }),
            Event::Crash { replica } => Ok(Event::Crash { replica: *replica }),
            Event::Start { replica } => Ok(Event::Start { replica: *replica }),
            Event::Settle { reading } => Ok(Event::Settle { reading: *reading }),
            Event::CutLost { single } => Ok(Event::CutLost {
                single: single.copy(alloc)?,
            }),
            Event::CutKept { sends, single } => Ok(Event::CutKept {
                sends: *sends,
                single: single.copy(alloc)?,
            }),
            Event::Batch { reading, numbers } => Ok(Event::Batch {
                reading: *reading,
                numbers: numbers.copy(alloc)?,
            }),
            Event::CutLostBatch { reading, numbers } => Ok(Event::CutLostBatch {
                reading: *reading,
                numbers: numbers.copy(alloc)?,
            }),
            Event::CutAt {
                calls,
                fill,
                single,
            } => Ok(Event::CutAt {
                calls: *calls,
                fill: *fill,
                single: single.copy(alloc)?,
            }),
        }
    }
}
