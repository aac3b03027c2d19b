//! The steps of turns.

ghost use Rattle.std.specs.Prelude.{IfOk};
ghost use Rattle.crsm_core.specs.Core.{Answers, CoreStands};
ghost use Rattle.crsm_core.specs.Inputs.{FitsInput, input_of};
ghost use Rattle.crsm_spec.specs.Draft.{begun};
ghost use Rattle.crsm_spec.specs.Node.{Turn};
ghost use Rattle.crsm_spec.specs.Replica.{Replica};
ghost use Rattle.crsm_spec.specs.Step as rules;
ghost use Rattle.crsm_replica_rerun.specs.Stages.{IsNothing, IsSpelt, TakesTurn};

use crsm_base::{Lines, Members, NoMemory, Recs, Sends};
use crsm_core::{Batch, Core, Input};
use crsm_wire::{WireError, read_datagram};
use std::alloc::Global;

/// Returns the empty output.
#[tactic(auto, unfolding(crsm_spec::specs::Draft::begun))]
pub(crate) fn nothing(alloc: Global) -> Batch
    ensures nothing { IsNothing result }
    ensures answers { (r : Replica) → Answers result (begun r) }
    ensures spelt { IsSpelt result }
{
    Batch {
        records: Recs::new(alloc),
        sends: Sends::new(alloc),
        lines: Lines::new(alloc),
    }
}

/// Runs one step of the core on an input.
fn step(core: &mut Core, input: &Input, reading: u64) -> Result<Batch, NoMemory>
    requires { FitsInput input.now }
    ensures { IfOk result (λ batch. (r : Replica) → CoreStands core.old r →
        Answers batch (rules.step r (input_of input.now) reading) × CoreStands core.new (rules.step r (input_of input.now) reading).replica) }
{
    let batch = core.step(input, reading)?;
    Ok(batch)
}

/// Runs the step of a turn that received bytes from an address. Bytes that are not a datagram change nothing.
#[tactic(auto, unfolding(crsm_core::specs::Inputs::input_of))]
pub(crate) fn come(
    alloc: Global,
    core: &mut Core,
    reading: u64,
    address: u64,
    bytes: &[u8],
) -> Result<Batch, NoMemory>
    ensures { TakesTurn core.old (Turn.In address bytes.now, reading) result core.new }
{
    match read_datagram(alloc, bytes) {
        Ok(datagram) => {
            let from = address;
            // The datagram is large: it is moved once, into the input.
            step(core, &Input::Datagram { from, datagram }, reading)
        }
        Err(WireError::NotOne) => Ok(nothing(alloc)),
        Err(WireError::NoMemory) => Err(NoMemory),
    }
}

/// Runs the step of a turn that took a tick.
#[tactic(auto, unfolding(crsm_core::specs::Inputs::input_of, crsm_spec::specs::Node::turn, crsm_spec::specs::Node::input_of))]
pub(crate) fn tick(core: &mut Core, reading: u64) -> Result<Batch, NoMemory>
    ensures { TakesTurn core.old (Turn.Tick, reading) result core.new }
{
    step(core, &Input::Tick, reading)
}

/// Runs the step of a turn that took a suspicion.
#[tactic(auto, unfolding(crsm_core::specs::Inputs::input_of, crsm_spec::specs::Node::turn, crsm_spec::specs::Node::input_of))]
pub(crate) fn suspect(
    alloc: Global,
    core: &mut Core,
    reading: u64,
    members: &Members,
) -> Result<Batch, NoMemory>
    ensures { TakesTurn core.old (Turn.Suspect members.now, reading) result core.new }
{
    let members = members.copy(alloc)?;
    step(core, &Input::Suspect { members }, reading)
}
