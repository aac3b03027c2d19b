//! Messages to other replicas, and replies to clients.

ghost use Rattle.crsm_mpspec.specs.Draft as drafts;
ghost use Rattle.crsm_mpreplica.specs.Fitting.{FitsMessage};
ghost use Rattle.crsm_mpreplica.specs.State.{Makes, MakesWhere};

use crate::state::MpReplica;
use crsm_base::NoMemory;
use crsm_mpspec::{MpLine, MpMessage};

impl MpReplica {
    /// Sends a message to a replica. `NoMemory` if memory runs out.
    pub fn send(&mut self, to: u32, message: MpMessage) -> Result<(), NoMemory>
        ensures { MakesWhere (λ x. FitsMessage message) (λ x. drafts.send message x to) self.old result self.new }
    {
        self.made.send(to, message)?;
        Ok(())
    }

    /// Sends a message to each other replica. `NoMemory` if memory runs out.
    pub fn send_to_others(&mut self, message: MpMessage) -> Result<(), NoMemory>
        ensures { MakesWhere (λ x. FitsMessage message) (drafts.send_to_others message) self.old result self.new }
    {
        self.made.send_to_others(self.me, self.n, message)?;
        Ok(())
    }

    /// Replies to a client. `NoMemory` if memory runs out.
    pub fn reply(&mut self, line: MpLine) -> Result<(), NoMemory>
        ensures { Makes (drafts.reply line) self.old result self.new }
    {
        self.made.reply(line)?;
        Ok(())
    }
}
