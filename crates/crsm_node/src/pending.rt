//! The pending turns of a node.

ghost use Rattle.std.specs.Prelude.{◌≡◌, ◌++◌, [], OnOk, length};
ghost use Rattle.crsm_shell.specs.Taking.{turn_of};
ghost use Rattle.crsm_replica_io.specs.Input.{IsWithin};
ghost use Rattle.crsm_node.specs.Steps.{turn_text};

use crsm_base::{Bytes, NoMemory};
use crsm_shell::{ReceivedInput, TurnResult};
use crsm_text_sheet::{SheetLine, print_sheet, push_in};
use std::alloc::Global;

/// The pending turns of a node: their lines, and whether others wait for them.
#[derive(Drop)]
pub(crate) struct PendingTurns {
    alloc: Global,
    /// Their lines, each with its line feed.
    pub(crate) lines: Bytes,
    /// Whether one of them has a record, which others wait for.
    pub(crate) has_record: bool,
}

impl PendingTurns {
    /// Returns the state without turns.
    pub(crate) fn new(alloc: Global) -> PendingTurns
        ensures { result.lines ≡ [] }
    {
        PendingTurns {
            alloc,
            lines: Bytes::new(alloc),
            has_record: false,
        }
    }

    /// Adds a turn whose datagram is a prefix of the buffer. Its line is printed at once, so that no memory is needed
    /// any more once the turn is durable. `NoMemory` if memory runs out.
    #[tactic(auto, unfolding(crsm_shell::specs::Taking::turn_of))]
    pub(crate) fn add(&mut self, turned: TurnResult, buffer: &[u8]) -> Result<(), NoMemory>
        requires { IsWithin (length buffer.now) turned.taken }
        ensures { OnOk result (self.new.lines ≡ self.old.lines ++ turn_text (turn_of buffer.now turned.taken, turned.reading)) }
    {
        let TurnResult {
            reading,
            taken,
            received: _,
            batch: _,
            size,
        } = turned;
        if size > 0 {
            self.has_record = true;
        }
        match taken {
            ReceivedInput::Datagram { from, len } => push_in(
                &mut self.lines,
                reading,
                from,
                &buffer[..len],
            ),
            ReceivedInput::Tick => print_sheet(
                self.alloc,
                &SheetLine::Tick { reading },
                &mut self.lines,
            ),
            ReceivedInput::Suspect(members) => print_sheet(
                self.alloc,
                &SheetLine::Suspect { reading, members },
                &mut self.lines,
            ),
        }
    }

    /// Removes all turns, and keeps the memory for further ones.
    pub(crate) fn clear(&mut self)
        ensures { self.new.lines ≡ [] }
    {
        self.lines.clear();
        self.has_record = false;
    }
}
