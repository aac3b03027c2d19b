//! The steps of a replica that is up.

ghost use Rattle.std.specs.Prelude.{◌≡◌, ◌++◌, ◌∷◌, [], ℕ, List, IfOk, OnOk};
ghost use Rattle.std.specs.List.{AllByRecursion};
ghost use Rattle.crsm_core.specs.Core.{FitsSent};
ghost use Rattle.crsm_ledger.specs.Recovered.{with_records};
ghost use Rattle.crsm_spec.specs.Log.{Log};
ghost use Rattle.crsm_spec.specs.Replica.{Replica};
ghost use Rattle.crsm_spec.specs.Draft.{Draft};
ghost use Rattle.crsm_spec.specs.Node.{turn};
ghost use Rattle.crsm_sim_machine.specs.Arriving.{turn_of, Asks};
ghost use Rattle.crsm_sim_machine.specs.PacketPorts.{traffic_of};
ghost use Rattle.crsm_sim_machine.specs.Outcomes.{IsWell, Makes, Sends, ShellHasStepped, ShellHasTaken};
ghost use Rattle.crsm_sim_machine.specs.States.{IsSomeUp, IsUpAs, WhereUpAs};

use crate::arrival::Arrival;
use crate::fixed_clock::FixedClock;
use crate::packet_port::{PacketPort, Slot};
use crate::step::Step;
use crsm_base::{NoMemory, never};
use crsm_disk::MemDisk;
use crsm_port::{MemPort, Port};
use crsm_shell::{Shell, TurnError, WantedInput};

/// Maximum number of steps per flush.
const MOST_PENDING: u32 = 32;

/// Returns the input to ask the shell for at this arrival, and the port from which the shell receives it.
fn wanted(arrival: Arrival<'_>) -> (WantedInput, PacketPort<'_>)
    ensures { Asks arrival.entry result.0 result.1 }
{
    match arrival {
        Arrival::Bytes { from, bytes } => (
            WantedInput::Receive,
            packet_port(Slot::Waits { from, bytes }),
        ),
        Arrival::Tick => (WantedInput::Tick, packet_port(Slot::Missing)),
        Arrival::Suspect(members) => (WantedInput::Suspect(members), packet_port(Slot::Missing)),
    }
}

fn packet_port(slot: Slot<'_>) -> PacketPort<'_>
    ensures { traffic_of result.slot ≡ traffic_of slot.entry }
{
    PacketPort {
        slot,
        empties: 0,
        losses: 0,
    }
}

/// Runs one more step, which stays pending. The shell has not failed before, and its port does not fail.
pub(crate) fn take(
    shell: &mut Shell<MemDisk>,
    arrival: Arrival<'_>,
    reading: u64,
) -> Result<Step, NoMemory>
    requires { ∥ IsSomeUp shell.old ∥₁ }
    ensures stands { IfOk result (λ step. WhereUpAs shell.old (λ me n kept r steps.
        ShellHasTaken shell.new me n kept r steps step (turn r (turn_of arrival.entry, reading)))) }
    ensures spelt { IfOk result (λ step. AllByRecursion FitsSent step.batch.sends) }
{
    if shell.pending() >= MOST_PENDING {
        // A world never has more pending steps.
        return Err(never());
    }
    let (what, mut port) = wanted(arrival);
    let mut clock = FixedClock { reading };
    match shell.take(what, &mut clock, &mut port) {
        Ok(turned) => Ok(Step {
            batch: turned.batch,
            size: turned.size,
        }),
        Err(TurnError::Failed) => unreachable!(),
        Err(TurnError::PortFault) => unreachable!(),
        Err(TurnError::DiskFault) => unreachable!(),
        Err(TurnError::LogFull) => unreachable!(),
        Err(TurnError::NoMemory) => Err(NoMemory),
    }
}

/// Maximum number of sent datagrams retained on a port before the next flush.
const MOST_SENT: usize = 64;

/// Discards sent datagrams that no caller reads again, once there are `MOST_SENT`.
fn renew(port: &mut MemPort)
    ensures { IsWell port.old → IsWell port.new }
{
    if port.sent().len() >= MOST_SENT {
        port.forget_sent();
    }
}

/// Flushes the pending steps, and returns the index on the port of the first datagram sent. The shell has not failed
/// before, and no call of its disk fails.
pub(crate) fn flush(shell: &mut Shell<MemDisk>, port: &mut MemPort) -> Result<usize, NoMemory>
    requires { ∥ IsSomeUp shell.old ∥₁ }
    ensures stands { OnOk result (WhereUpAs shell.old (λ me n kept r steps. IsUpAs me n shell.new r.log r [])) }
    ensures sent { IfOk result (λ first. WhereUpAs shell.old (λ me n kept r steps. IsWell port.old → Sends port.new first steps)) }
{
    renew(port);
    let first = port.sent().len();
    match shell.flush(port) {
        Ok(()) => Ok(first),
        Err(TurnError::Failed) => unreachable!(),
        Err(TurnError::PortFault) => unreachable!(),
        Err(TurnError::DiskFault) => unreachable!(),
        // The log has no room for the records.
        Err(TurnError::LogFull) => Err(NoMemory),
        Err(TurnError::NoMemory) => Err(NoMemory),
    }
}

/// Runs one step and flushes it together with the pending ones. Returns its output, and the index on the port of the
/// first datagram sent. The shell has not failed before, and no call of its disk fails.
pub(crate) fn step(
    shell: &mut Shell<MemDisk>,
    arrival: Arrival<'_>,
    reading: u64,
    port: &mut MemPort,
) -> Result<(Step, usize), NoMemory>
    requires { ∥ IsSomeUp shell.old ∥₁ }
    ensures stands { IfOk result (λ made. WhereUpAs shell.old (λ me n kept r steps.
        ShellHasStepped shell.new me n made.0 (turn r (turn_of arrival.entry, reading)))) }
    ensures sent { IfOk result (λ made. WhereUpAs shell.old (λ me n kept r steps. IsWell port.old →
        Sends port.new made.1 (steps ++ turn r (turn_of arrival.entry, reading) ∷ []))) }
    ensures spelt { IfOk result (λ made. AllByRecursion FitsSent made.0.batch.sends) }
{
    let step = take(shell, arrival, reading)?;
    let Ok(first) = flush(shell, port) else {
        drop(step);
        return Err(NoMemory);
    };
    Ok((step, first))
}
