//! The lines of a transcript.

use crsm_base::Answer;

/// The kind of a message.
#[derive(Clone, Copy, Debug, PartialEq, Eq)]
pub enum MpKind {
    Prep,
    Prom,
    No,
    Acc,
    Accd,
    Learn,
    Ask,
}

/// A line of the transcript, without its line number.
pub enum MpLine {
    /// A boot, with the number of boots of the replica.
    Boot {
        replica: u32,
        count: u64,
    },
    /// The leader accepts a client's command at a slot in a ballot.
    Submit {
        replica: u32,
        slot: u64,
        round: u64,
        by: u32,
        client: u64,
        number: u64,
    },
    /// A replica accepts another value at a slot in a ballot.
    Accept {
        replica: u32,
        slot: u64,
        round: u64,
        by: u32,
    },
    /// A replica promises a ballot.
    Promise {
        replica: u32,
        round: u64,
        by: u32,
    },
    /// The value of a slot is known to be chosen.
    Choose {
        replica: u32,
        slot: u64,
    },
    /// A command is executed at its slot.
    Exec {
        replica: u32,
        slot: u64,
        client: u64,
        number: u64,
        answer: Answer,
    },
    /// A noop is executed at its slot.
    ExecNoop {
        replica: u32,
        slot: u64,
    },
    /// A message, with its number.
    Send {
        index: u64,
        from: u32,
        to: u32,
        kind: MpKind,
    },
    /// A client receives its answer.
    ReplyOk {
        replica: u32,
        client: u64,
        number: u64,
        place: u64,
        answer: Answer,
    },
    /// A client is refused: code 1 if the replica does not lead, 5 if it has no slot left.
    ReplyNo {
        replica: u32,
        client: u64,
        number: u64,
        code: u32,
    },
    /// Another value was chosen at the slot of a client's command.
    ReplyDropped {
        replica: u32,
        client: u64,
        number: u64,
        slot: u64,
    },
    /// A replica goes down.
    Down {
        replica: u32,
    },
    /// The state of a replica at the end, and the number of slots that it has executed.
    Final {
        replica: u32,
        up: bool,
        executed: u64,
    },
}

// Written by hand, it is one call for the crates above, which would prove a derived one again.
impl Drop for MpLine {
    fn drop(self) {
        match self {
            MpLine::Boot {
                replica: _,
                count: _,
            } => {}
            MpLine::Submit {
                replica: _,
                slot: _,
                round: _,
                by: _,
                client: _,
                number: _,
            } => {}
            MpLine::Accept {
                replica: _,
                slot: _,
                round: _,
                by: _,
            } => {}
            MpLine::Promise {
                replica: _,
                round: _,
                by: _,
            } => {}
            MpLine::Choose {
                replica: _,
                slot: _,
            } => {}
            MpLine::Exec {
                replica: _,
                slot: _,
                client: _,
                number: _,
                answer: _,
            } => {}
            MpLine::ExecNoop {
                replica: _,
                slot: _,
            } => {}
            MpLine::Send {
                index: _,
                from: _,
                to: _,
                kind: _,
            } => {}
            MpLine::ReplyOk {
                replica: _,
                client: _,
                number: _,
                place: _,
                answer: _,
            } => {}
            MpLine::ReplyNo {
                replica: _,
                client: _,
                number: _,
                code: _,
            } => {}
            MpLine::ReplyDropped {
                replica: _,
                client: _,
                number: _,
                slot: _,
            } => {}
            MpLine::Down { replica: _ } => {}
            MpLine::Final {
                replica: _,
                up: _,
                executed: _,
            } => {}
        }
    }
}
