//! The rule for requests of clients.

ghost use Rattle.std.specs.Prelude.{◌≡◌, ◌<◌, ℕ, Some, IfOk};
ghost use Rattle.crsm_base.specs.Spelling.{FitsCommand, FitsEntry};
ghost use Rattle.crsm_spec.specs.Clients as clients;
ghost use Rattle.crsm_spec.specs.Draft.{Draft, count_vote, would};
ghost use Rattle.crsm_spec.specs.Step.{if_fitting};
ghost use Rattle.crsm_replica.specs.Replica.{Makes, ReplicaStands};
ghost use Rattle.crsm_replica_reconfigure.specs.Rules.{Follows};

use crate::records::log_entry;
use crsm_base::{Command, Entry, InEpoch, MAX_OWN_UNEXECUTED, NoMemory, Refusal, Stamp};
use crsm_replica::{ReplicaState, states_are_sound};

/// Handles a client's request: refuses it for the first reason that applies, else submits it. `NoMemory` if memory runs
/// out.
pub(crate) fn on_request(
    state: &mut ReplicaState,
    address: u64,
    command: &Command,
    reading: u64,
) -> Result<(), NoMemory>
    requires { FitsCommand command.now }
    ensures { Follows (clients.on_request address command.now reading) state.old result state.new }
{
    states_are_sound();
    if let Some(why) = refusal(state) {
        return state.refuse(address, command, why);
    }
    let Some(time) = state.would(reading) else {
        return Ok(());
    };
    submit(state, address, command, time)
}

/// Returns the reason for refusing a request, or `None` to accept it.
fn refusal(state: &ReplicaState) -> Option<Refusal>
    ensures { (x : Draft) → ReplicaStands state.now x → result ≡ clients.refusal x.replica }
{
    if !state.is_live() {
        return Some(Refusal::NotLive);
    }
    if state.is_suspended() {
        return Some(Refusal::Suspended);
    }
    if state.own_unexecuted() >= MAX_OWN_UNEXECUTED as u64 {
        return Some(Refusal::Busy);
    }
    if state.is_congested() {
        return Some(Refusal::Congested);
    }
    if state.last_issued() == u64::MAX {
        return Some(Refusal::ClockSpent);
    }
    None
}

/// Logs the command under a new time of this replica, and pushes it to the members.
fn submit(
    state: &mut ReplicaState,
    address: u64,
    command: &Command,
    time: u64,
) -> Result<(), NoMemory>
    requires { FitsCommand command.now }
    ensures { IfOk result (λ _. (x : Draft) (reading : ℕ) → ReplicaStands state.old x → would x reading ≡ Some time →
        ReplicaStands state.new (if_fitting x (clients.submit address command.now time x))) }
{
    let me = state.me();
    let stamp = Stamp { time, origin: me };
    let entry = Entry {
        epoch: state.known(),
        stamp,
        command: command.copy(state.alloc())?,
    };
    let Ok(fits) = log_entry(state, &entry) else {
        drop(entry);
        return Err(NoMemory);
    };
    if !fits {
        drop(entry);
        return Ok(());
    }
    let Ok(()) = vote_and_await(state, address, &entry, me) else {
        drop(entry);
        return Err(NoMemory);
    };
    state.push_at(time, InEpoch::Prepare { entry })
}

/// Counts the vote of replica `me` for the entry, and records that the client at `address` waits for it.
fn vote_and_await(
    state: &mut ReplicaState,
    address: u64,
    entry: &Entry,
    me: u32,
) -> Result<(), NoMemory>
    requires me { me < 15 }
    requires spelt { FitsEntry entry.now }
    ensures { Makes (λ x. clients.await address entry.now (count_vote entry.now.stamp me x)) state.old result state.new }
{
    state.count_vote(entry.stamp, me)?;
    let awaited = entry.copy(state.alloc())?;
    state.await_entry(address, awaited)
}
