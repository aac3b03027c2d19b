//! The changes of a step that are not records: votes, datagrams, refusals and waiting clients.

ghost use Rattle.std.specs.Prelude.{◌≡◌, ◌<◌, [], ◌∷◌, ◌++◌, IfOk};
ghost use Rattle.crsm_base.specs.Messages.{FitsDatagram};
ghost use Rattle.crsm_base.specs.Spelling.{FitsCommand, FitsEntry, refusal_number};
ghost use Rattle.crsm_spec.specs.Log.{known};
ghost use Rattle.crsm_spec.specs.Types.{Line};
ghost use Rattle.crsm_spec.specs.Draft.{send, count_vote};
ghost use Rattle.crsm_spec.specs.Clients.{refuse, await};
ghost use Rattle.crsm_replica.specs.Replica.{ReplicaStands, Makes};

use crate::state::{ReplicaState, Waiting};
use crsm_base::{Command, Datagram, Entry, Line, NoMemory, Outcome, Refusal, Stamp};
use crsm_replica_output::Reply;

impl ReplicaState {
    #[tactic(auto, unfolding(crate::specs::Replica::ReplicaStands))]
    /// Counts the vote of replica `k` for the stamp. `NoMemory` if memory runs out.
    pub fn count_vote(&mut self, stamp: Stamp, k: u32) -> Result<(), NoMemory>
        requires { k < 15 }
        ensures { Makes (count_vote stamp k) self.old result self.new }
    {
        let last = self.ledger.last_stamp();
        self.epoch_state.count_vote(stamp, k, last)
    }

    #[tactic(auto, unfolding(crate::specs::Replica::ReplicaStands))]
    /// Sends a datagram to replica `k`. `NoMemory` if memory runs out.
    pub fn send(&mut self, k: u32, datagram: Datagram) -> Result<(), NoMemory>
        requires to { k < 15 }
        requires spelt { FitsDatagram datagram }
        ensures { Makes (send k datagram) self.old result self.new }
    {
        self.output.send(k, datagram)
    }

    #[tactic(auto, unfolding(crate::specs::Replica::ReplicaStands))]
    /// Refuses the command of the client at `address`, for the reason `why`. `NoMemory` if memory runs out.
    pub fn refuse(&mut self, address: u64, command: &Command, why: Refusal) -> Result<(), NoMemory>
        requires { FitsCommand command.now }
        ensures { Makes (refuse address command.now why) self.old result self.new }
    {
        self.output.reply(Reply {
            address,
            client: command.client,
            number: command.number,
            says: Outcome::Refused(why),
            line: Line::ReplyNo {
                replica: self.me,
                client: command.client,
                number: command.number,
                code: code_of(why),
            },
        })
    }

    #[tactic(auto, unfolding(crate::specs::Replica::ReplicaStands))]
    /// Records that the client at `address` waits for the entry. `NoMemory` if memory runs out.
    pub fn await_entry(&mut self, address: u64, entry: Entry) -> Result<(), NoMemory>
        requires { FitsEntry entry }
        ensures { Makes (await address entry) self.old result self.new }
    {
        self.waiting.push(Waiting { address, entry })?;
        Ok(())
    }

    #[tactic(auto, unfolding(crate::specs::Replica::ReplicaStands))]
    /// Writes the line of a collection that exceeds its limits: `count` entries of `bytes` bytes together. `NoMemory`
    /// if memory runs out.
    pub fn refuse_collection(&mut self, count: u64, bytes: u128) -> Result<(), NoMemory>
        ensures { Makes (λ x. record x { excess = x.excess ++ Line.TooMany x.replica.me (known x.replica.log) count bytes ∷ [] }) self.old result self.new }
    {
        let epoch = self.known();
        self.output.exceed(Line::TooMany {
            replica: self.me,
            epoch,
            count,
            bytes,
        })
    }
}

/// Returns the code of a refusal in its line.
fn code_of(why: Refusal) -> u32
    ensures { result ≡ refusal_number why }
{
    match why {
        Refusal::NotLive => 1,
        Refusal::Suspended => 2,
        Refusal::Busy => 3,
        Refusal::Congested => 4,
        Refusal::ClockSpent => 5,
        Refusal::Dropped => 6,
    }
}
