//! The output of a step while it runs.

ghost use Rattle.std.specs.Prelude.{◌≡◌, ◌++◌, ◌∷◌, [], map, OnOk};
ghost use Rattle.crsm_mpspec.specs.Records.{FitsRec};
ghost use Rattle.crsm_mpspec.specs.Sends.{others_below};
ghost use Rattle.crsm_mpreplica.specs.Fitting.{FitsMessage};

use crsm_base::NoMemory;
use crsm_mpspec::{MpBatch, MpLine, MpMessage, MpRec, MpSend};
use std::alloc::Global;
use std::mem;

/// The output that a step has produced until now: records and their lines, messages, and lines of replies.
#[derive(Drop)]
pub(crate) struct StepOutput {
    batch: MpBatch,
}

impl StepOutput {
    ghost use Rattle.crsm_mpreplica.specs.Made.{MadeStands, Answers, Outcome, nothing};

    /// Returns the empty output.
    pub(crate) fn new(alloc: Global) -> StepOutput
        ensures { MadeStands result nothing }
    {
        StepOutput {
            batch: MpBatch::new(alloc),
        }
    }

    /// Appends a record, after its line.
    pub(crate) fn record(&mut self, rec: MpRec) -> Result<(), NoMemory>
        ensures { OnOk result ((o : Outcome) → MadeStands self.old o → FitsRec rec → MadeStands self.new (record o { batch = o.batch ++ rec ∷ [] })) }
    {
        self.batch.records.push(rec)?;
        Ok(())
    }

    /// Appends a line of a record.
    pub(crate) fn tell(&mut self, line: MpLine) -> Result<(), NoMemory>
        ensures { OnOk result ((o : Outcome) → MadeStands self.old o → MadeStands self.new (record o { lines = o.lines ++ line ∷ [] })) }
    {
        self.batch.lines.push(line)?;
        Ok(())
    }

    /// Appends a message.
    pub(crate) fn send(&mut self, to: u32, message: MpMessage) -> Result<(), NoMemory>
        ensures { OnOk result ((o : Outcome) → MadeStands self.old o → FitsMessage message → MadeStands self.new (record o { sends = o.sends ++ (to, message) ∷ [] })) }
    {
        self.batch.sends.push(MpSend { to, message })?;
        Ok(())
    }

    /// Appends a message to each replica below `n` but `me`.
    pub(crate) fn send_to_others(
        &mut self,
        me: u32,
        n: u32,
        message: MpMessage,
    ) -> Result<(), NoMemory>
        ensures { OnOk result ((o : Outcome) → MadeStands self.old o → FitsMessage message → MadeStands self.new (record o { sends = o.sends ++ map (λ k. (k, message)) (others_below me n) })) }
    {
        self.batch.sends.push_to_others(me, n, message)?;
        Ok(())
    }

    /// Appends a reply.
    pub(crate) fn reply(&mut self, line: MpLine) -> Result<(), NoMemory>
        ensures { OnOk result ((o : Outcome) → MadeStands self.old o → MadeStands self.new (record o { replies = o.replies ++ line ∷ [] })) }
    {
        self.batch.replies.push(line)?;
        Ok(())
    }

    /// Moves all output to `out`, and leaves the empty one in the memory of what was there.
    pub(crate) fn move_to(&mut self, out: &mut MpBatch)
        ensures out { (o : Outcome) → MadeStands self.old o → Answers out.new o }
        ensures none { (o : Outcome) → MadeStands self.old o → MadeStands self.new nothing }
    {
        // In this order the swap reads no field that was written just before.
        mem::swap(&mut self.batch, out);
        self.batch.clear();
    }
}
