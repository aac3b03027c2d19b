//! Replies to waiting clients.

ghost use Rattle.std.specs.Prelude.{◌≡◌, ◌<◌, ◌^◌, false, IsTrue, None, IfOk};
ghost use Rattle.crsm_replica_results.specs.Answering.{answered};
ghost use Rattle.crsm_base.specs.Spelling.{FitsAnswer};
ghost use Rattle.crsm_spec.specs.Log.{executed};
ghost use Rattle.crsm_spec.specs.Draft.{Draft};
ghost use Rattle.crsm_spec.specs.Clients.{find_executed, answer_found, is_dropped, reply_ok, reply_dropped, replies};
ghost use Rattle.crsm_replica.specs.Sound.{FitsWaiting};
ghost use Rattle.crsm_replica.specs.Replica.{ReplicaStands, Makes, on_paper, WhereStands};

use crate::state::{ReplicaState, Waiting};
use crsm_base::{Answer, Entry, Line, NoMemory, Outcome, Refusal};
use crsm_replica_output::Reply;
use crsm_replica_results::{answer_to, executions, has_dropped, has_no_answer};
use std::mem;

impl ReplicaState {
    /// Answers each waiting client whose entry is executed or dropped. The others continue to wait. `NoMemory` if
    /// memory runs out.
    pub fn replies(&mut self) -> Result<(), NoMemory>
        ensures { Makes (replies) self.old result self.new }
    {
        if self.all_wait() {
            return Ok(());
        }
        self.answer_waiting()
    }

    /// Returns whether no waiting client's entry is executed or dropped.
    fn all_wait(&self) -> bool
        ensures { IsTrue result → WhereStands self.now (λ x. replies x ≡ x) }
    {
        for client in self.waiting.as_slice() {
            if !self.waits_on(&client.entry) {
                return false;
            }
        }
        true
    }

    /// Returns whether the entry is neither executed nor dropped.
    fn waits_on(&self, entry: &Entry) -> bool
        ensures { IsTrue result → WhereStands self.now (λ x. (None ≡ answered (executed x.replica.log) entry.now) × (is_dropped x.replica entry.now ≡ false)) }
    {
        if has_dropped(&self.ledger, entry) {
            return false;
        }
        has_no_answer(&self.ledger, entry)
    }

    /// Answers the clients in order.
    fn answer_waiting(&mut self) -> Result<(), NoMemory>
        ensures { Makes (replies) self.old result self.new }
    {
        let told = executions(self.alloc, self.output.lines())?;
        let clients = mem::replace(&mut self.waiting, Vec::new(self.alloc));
        for client in clients {
            self.answer_client(client, &told)?;
        }
        Ok(())
    }

    /// Answers a client if its entry is executed or dropped, else lets it wait. `executions` are the indices of the
    /// step's execution lines.
    fn answer_client(&mut self, client: Waiting, executions: &[usize]) -> Result<(), NoMemory>
        ensures { IfOk result (λ _. WhereStands self.old (λ x. FitsWaiting (on_paper client) →
            ReplicaStands self.new (answer_found (on_paper client) (find_executed (executed x.replica.log) client.entry) x))) }
    {
        let Ok(found) = answer_to(
            self.alloc,
            &self.ledger,
            self.output.lines(),
            executions,
            &client.entry,
        ) else {
            drop(client);
            return Err(NoMemory);
        };
        match found {
            Some((place, answer)) => self.end_answered(client, place, answer),
            None => self.drop_or_wait(client),
        }
    }

    /// Answers a client if its entry is dropped, else lets it wait.
    fn drop_or_wait(&mut self, client: Waiting) -> Result<(), NoMemory>
        ensures { IfOk result (λ _. WhereStands self.old (λ x. FitsWaiting (on_paper client) → ReplicaStands self.new (answer_found (on_paper client) None x))) }
    {
        if has_dropped(&self.ledger, &client.entry) {
            return self.end_dropped(client);
        }
        self.waiting.push(client)?;
        Ok(())
    }

    /// Ends a client's wait by the answer to the executed entry with this index.
    fn end_answered(&mut self, client: Waiting, place: u64, answer: Answer) -> Result<(), NoMemory>
        ensures { IfOk result (λ _. WhereStands self.old (λ x. FitsWaiting (on_paper client) → FitsAnswer answer → ReplicaStands self.new (reply_ok (on_paper client) place answer x))) }
    {
        let told = self.reply_ok(&client, place, answer);
        drop(client);
        told
    }

    /// Ends a client's wait by the message that its entry will never be executed.
    fn end_dropped(&mut self, client: Waiting) -> Result<(), NoMemory>
        ensures { IfOk result (λ _. WhereStands self.old (λ x. FitsWaiting (on_paper client) → ReplicaStands self.new (reply_dropped (on_paper client) x))) }
    {
        let told = self.reply_dropped(&client);
        drop(client);
        told
    }

    /// Sends a client the answer to the executed entry with this index.
    fn reply_ok(&mut self, client: &Waiting, place: u64, answer: Answer) -> Result<(), NoMemory>
        ensures { IfOk result (λ _. WhereStands self.old (λ x. FitsWaiting (on_paper client.now) → FitsAnswer answer → ReplicaStands self.new (reply_ok (on_paper client.now) place answer x))) }
    {
        let Ok(said) = answer.copy(self.alloc) else {
            drop(answer);
            return Err(NoMemory);
        };
        self.output.reply(Reply {
            address: client.address,
            client: client.entry.command.client,
            number: client.entry.command.number,
            says: Outcome::Answered(said),
            line: Line::ReplyOk {
                replica: self.me,
                client: client.entry.command.client,
                number: client.entry.command.number,
                place,
                answer,
            },
        })
    }

    /// Tells a client that its entry will never be executed.
    fn reply_dropped(&mut self, client: &Waiting) -> Result<(), NoMemory>
        ensures { IfOk result (λ _. WhereStands self.old (λ x. FitsWaiting (on_paper client.now) → ReplicaStands self.new (reply_dropped (on_paper client.now) x))) }
    {
        self.output.reply(Reply {
            address: client.address,
            client: client.entry.command.client,
            number: client.entry.command.number,
            says: Outcome::Refused(Refusal::Dropped),
            line: Line::ReplyDropped {
                replica: self.me,
                client: client.entry.command.client,
                number: client.entry.command.number,
                epoch: client.entry.epoch,
                stamp: client.entry.stamp,
            },
        })
    }
}
