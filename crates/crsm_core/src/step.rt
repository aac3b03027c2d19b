//! One step: the rule of the input, and the rules of every step.

ghost use Rattle.std.specs.Prelude.{◌≡◌, IfOk};
ghost use Rattle.crsm_base.specs.Messages.{FitsDatagram};
ghost use Rattle.crsm_spec.specs.Draft.{Draft, begun};
ghost use Rattle.crsm_spec.specs.Frames as frames;
ghost use Rattle.crsm_spec.specs.Replica.{Replica};
ghost use Rattle.crsm_spec.specs.Step as rules;
ghost use Rattle.crsm_replica.specs.Replica.{ReplicaStands, Makes};
ghost use Rattle.crsm_core.specs.Inputs.{input_of, FitsInput};
ghost use Rattle.crsm_replica_reconfigure.specs.Rules.{Follows};

use crate::commits::commits;
use crate::frames::{on_ack, on_frame};
use crate::idle::idle;
use crate::input::Input;
use crate::owed::owed_oks;
use crate::parts::{PartHead, on_part};
use crate::requests::on_request;
use crate::ticks::on_tick;
use crsm_base::{Datagram, NoMemory};
use crsm_replica::ReplicaState;
use crsm_replica_reconfigure::on_suspect;
use crsm_segment::parts_of_datagrams;

/// Runs one step: the rule of the input, the acknowledgements that are due, at a tick the replica's time, then commits
/// and replies. `NoMemory` if memory runs out.
pub(crate) fn step(state: &mut ReplicaState, input: &Input, reading: u64) -> Result<(), NoMemory>
    requires { FitsInput input.now }
    ensures { IfOk result (λ _. (r : Replica) → ReplicaStands state.old (begun r) → ReplicaStands state.new (rules.step r (input_of input.now) reading)) }
{
    on_input(state, input, reading)?;
    owed_oks(state, reading)?;
    idle_at(state, input, reading)?;
    commits(state)?;
    state.replies()
}

/// Applies the rule of an input.
fn on_input(state: &mut ReplicaState, input: &Input, reading: u64) -> Result<(), NoMemory>
    requires { FitsInput input.now }
    ensures { Follows (rules.on_input (input_of input.now) reading) state.old result state.new }
{
    match input {
        Input::Datagram { from, datagram } => on_datagram(state, *from, datagram, reading),
        Input::Tick => on_tick(state),
        Input::Suspect { members } => on_suspect(state, members),
    }
}

/// Applies the idle rule, at a tick.
fn idle_at(state: &mut ReplicaState, input: &Input, reading: u64) -> Result<(), NoMemory>
    ensures { Makes (rules.idle_at (input_of input.now) reading) state.old result state.new }
{
    match input {
        Input::Tick => idle(state, reading),
        Input::Datagram { .. } => Ok(()),
        Input::Suspect { .. } => Ok(()),
    }
}

/// Returns whether a datagram is not from another replica, or is addressed to another.
fn is_astray(state: &ReplicaState, from: u32, to: u32) -> bool
    ensures { (x : Draft) → ReplicaStands state.now x → result ≡ frames.is_astray x.replica from to }
{
    let me = state.me();
    if from > 14 {
        return true;
    }
    if from == me {
        return true;
    }
    to != me
}

/// Handles a datagram from an address.
fn on_datagram(
    state: &mut ReplicaState,
    address: u64,
    datagram: &Datagram,
    reading: u64,
) -> Result<(), NoMemory>
    requires { FitsDatagram datagram.now }
    ensures { Follows (rules.on_datagram address datagram.now reading) state.old result state.new }
{
    parts_of_datagrams();
    match datagram {
        Datagram::Frame {
            from,
            to,
            epoch,
            seq,
            payload,
        } => {
            if is_astray(state, *from, *to) {
                return Ok(());
            }
            on_frame(state, *from, *epoch, *seq, payload)
        }
        Datagram::Ack {
            from,
            to,
            epoch,
            next,
        } => {
            if is_astray(state, *from, *to) {
                return Ok(());
            }
            on_ack(state, *from, *epoch, *next)
        }
        Datagram::Part {
            from,
            to,
            boot,
            number,
            index,
            count,
            bytes,
        } => {
            if is_astray(state, *from, *to) {
                return Ok(());
            }
            let heading = PartHead {
                boot: *boot,
                number: *number,
                index: *index,
                count: *count,
            };
            on_part(state, *from, heading, bytes.as_slice())
        }
        Datagram::Request { command } => on_request(state, address, command, reading),
        Datagram::Reply { .. } => Ok(()),
        Datagram::Operate { members } => on_suspect(state, members),
    }
}
