//! The step of the core for the input that was taken.

ghost use Rattle.std.specs.Prelude.{◌≡◌, length, IfOk, None};
ghost use Rattle.crsm_spec.specs.Draft.{begun};
ghost use Rattle.crsm_spec.specs.Node.{Turn, turn};
ghost use Rattle.crsm_spec.specs.Replica.{Replica};
ghost use Rattle.crsm_core.specs.Core.{Answers, CoreStands};
ghost use Rattle.crsm_core.specs.Inputs.{FitsInput, input_of};
ghost use Rattle.crsm_spec.specs.Step as rules;
ghost use Rattle.crsm_replica_io.specs.Input.{IsWithin};
ghost use Rattle.crsm_shell.specs.Taking.{heard_in, turn_of, step_at};
ghost use Rattle.crsm_shell.specs.Taking as shells;

use crsm_base::{Datagram, Lines, NoMemory, Recs, Sends};
use crsm_core::{Core, Input};
use crsm_replica_io::ReceivedInput;
use crsm_replica_output::Batch;
use crsm_wire::{WireError, read_datagram};
use std::alloc::Global;

/// The output of a step, and the replica from which its input was received.
#[derive(Drop)]
pub(crate) struct StepResult {
    pub(crate) batch: Batch,
    pub(crate) received: Option<u32>,
}

/// Runs one step of the core on the input, whose bytes are in this buffer.
#[tactic(auto, unfolding(crsm_spec::specs::Node::turn, crsm_spec::specs::Node::input_of, crsm_core::specs::Inputs::input_of, crate::specs::Taking::turn_of, crate::specs::Taking::heard_in))]
pub(crate) fn make(
    alloc: Global,
    core: &mut Core,
    taken: &ReceivedInput,
    buffer: &[u8],
    reading: u64,
) -> Result<StepResult, NoMemory>
    requires { IsWithin (length buffer.now) taken.now }
    ensures step { IfOk result (λ made. (r : Replica) → CoreStands core.old r → Answers made.batch (step_at buffer.now taken.now reading r) × CoreStands core.new (step_at buffer.now taken.now reading r).replica) }
    ensures received { IfOk result (λ made. made.received ≡ heard_in (turn_of buffer.now taken.now)) }
{
    match taken {
        ReceivedInput::Datagram { from, len } => come(alloc, core, *from, &buffer[..*len], reading),
        ReceivedInput::Tick => step(core, Input::Tick, reading, None),
        ReceivedInput::Suspect(members) => {
            let members = members.copy(alloc)?;
            step(core, Input::Suspect { members }, reading, None)
        }
    }
}

/// Runs one step of the core on an input received from this replica. An input is large: it is dropped here alone.
fn step(
    core: &mut Core,
    input: Input,
    reading: u64,
    received: Option<u32>,
) -> Result<StepResult, NoMemory>
    requires { FitsInput input }
    ensures step { IfOk result (λ made. (r : Replica) → CoreStands core.old r →
        Answers made.batch (rules.step r (input_of input) reading) × CoreStands core.new (rules.step r (input_of input) reading).replica) }
    ensures received { IfOk result (λ made. made.received ≡ received) }
{
    let stepped = core.step(&input, reading);
    drop(input);
    Ok(StepResult {
        batch: stepped?,
        received,
    })
}

/// Runs one step of the core on bytes from an address. Bytes that are not a datagram change nothing.
#[tactic(auto, unfolding(crsm_core::specs::Inputs::input_of, crate::specs::Taking::heard_in))]
fn come(
    alloc: Global,
    core: &mut Core,
    from: u64,
    bytes: &[u8],
    reading: u64,
) -> Result<StepResult, NoMemory>
    ensures step { IfOk result (λ made. (r : Replica) → CoreStands core.old r →
        Answers made.batch (turn r (Turn.In from bytes.now, reading)) × CoreStands core.new (turn r (Turn.In from bytes.now, reading)).replica) }
    ensures received { IfOk result (λ made. made.received ≡ heard_in (Turn.In from bytes.now)) }
{
    match read_datagram(alloc, bytes) {
        Ok(datagram) => {
            let received = sender_of(&datagram);
            // The datagram is large: it is moved once, into the input.
            step(core, Input::Datagram { from, datagram }, reading, received)
        }
        Err(WireError::NotOne) => Ok(nothing(alloc)),
        Err(WireError::NoMemory) => Err(NoMemory),
    }
}

/// Returns the replica that sent a datagram, or `None` for a client's or an operator's.
#[tactic(auto, unfolding(crate::specs::Taking::sender_of))]
fn sender_of(datagram: &Datagram) -> Option<u32>
    ensures { result ≡ shells.sender_of datagram.now }
{
    match datagram {
        Datagram::Frame { from, .. } => Some(*from),
        Datagram::Ack { from, .. } => Some(*from),
        Datagram::Part { from, .. } => Some(*from),
        Datagram::Request { .. } => None,
        Datagram::Reply { .. } => None,
        Datagram::Operate { .. } => None,
    }
}

/// Returns the result of a step without effect.
#[tactic(auto, unfolding(crsm_spec::specs::Draft::begun))]
fn nothing(alloc: Global) -> StepResult
    ensures step { (r : Replica) → Answers result.batch (begun r) }
    ensures received { result.received ≡ None }
{
    StepResult {
        batch: Batch {
            records: Recs::new(alloc),
            sends: Sends::new(alloc),
            lines: Lines::new(alloc),
        },
        received: None,
    }
}
