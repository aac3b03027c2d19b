//! The output of a step.

ghost use Rattle.std.specs.Prelude.{◌≡◌, []};

use crate::lines::MpLines;
use crate::recs::MpRecs;
use crate::sends::MpSends;
use std::alloc::Global;

/// The output of one step of a replica. The records must be durable before a message is sent.
#[derive(Drop)]
pub struct MpBatch {
    /// The records, in the order in which they are logged.
    pub records: MpRecs,
    /// The messages to replicas.
    pub sends: MpSends,
    /// The lines of the records.
    pub lines: MpLines,
    /// The lines of the replies to clients.
    pub replies: MpLines,
}

impl MpBatch {
    /// Returns the empty output.
    pub fn new(alloc: Global) -> MpBatch
        ensures records { result.records ≡ [] }
        ensures sends { result.sends ≡ [] }
        ensures lines { result.lines ≡ [] }
        ensures replies { result.replies ≡ [] }
    {
        MpBatch {
            records: MpRecs::new(alloc),
            sends: MpSends::new(alloc),
            lines: MpLines::new(alloc),
            replies: MpLines::new(alloc),
        }
    }

    /// Removes all output, and keeps the memory for further one.
    pub fn clear(&mut self)
        ensures records { self.new.records ≡ [] }
        ensures sends { self.new.sends ≡ [] }
        ensures lines { self.new.lines ≡ [] }
        ensures replies { self.new.replies ≡ [] }
    {
        self.records.clear();
        self.sends.clear();
        self.lines.clear();
        self.replies.clear();
    }
}
