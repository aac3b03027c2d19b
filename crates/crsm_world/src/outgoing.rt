//! The sending of a step's output.

ghost use Rattle.std.specs.Prelude.{◌≡◌, ◌≤◌, ◌+◌, ◌-◌, ◌++◌, ℕ, List, drop, length, min, take, IfOk, OnOk};
ghost use Rattle.std.specs.List.{AllByRecursion};
ghost use Rattle.crsm_core.specs.Core.{FitsSent};
ghost use Rattle.crsm_sim_machine.specs.Outcomes.{Makes};
ghost use Rattle.crsm_spec.specs.Draft.{Draft};
ghost use Rattle.crsm_world.specs.Effects.{LetsOut, FitsEffects, WhereMade, LetsOutSome, WhereLeft};
ghost use Rattle.crsm_world.specs.World.{LeadsOn};
ghost use Rattle.crsm_sim_network.specs.Packets.{AreSpelt, NetworkStands};
ghost use Rattle.crsm_port.specs.Sent.{packets_of};

use crate::ending::Effects;
use crate::lines::{add, add_first};
use crsm_base::{Line, Lines, NoMemory};
use crsm_port::SentPackets;
use crsm_sim_machine::Step;
use crsm_sim_network::{Network, packets_in};
use std::alloc::Global;

/// Sends the first datagrams and replies of a durable step of replica `k`, which a port has sent from index `first` on.
/// The step's own lines are appended first, then those of the datagrams, then those of the replies. Returns the index
/// on the port behind those that were sent.
pub(crate) fn let_out(
    alloc: Global,
    network: &mut Network,
    k: u32,
    step: Step,
    count: u64,
    sent: &SentPackets,
    first: usize,
    lines: &mut Lines,
) -> Result<usize, NoMemory>
    requires { AllByRecursion FitsSent step.batch.sends }
    ensures stands { OnOk result (WhereMade network.old step (λ packets bytes x. AreSpelt (take count step.batch.sends) (packets_of sent.now) first →
        LetsOutSome count lines.old packets bytes k x network.new lines.new)) }
    ensures exact { IfOk result (λ next. next ≡ first + min (length (packets_of sent.now) - first) (min count (length step.batch.sends))) }
    ensures behind { IfOk result (λ next. AreSpelt (take count step.batch.sends) (packets_of sent.now) first →
        next ≡ first + min count (length step.batch.sends)) }
{
    let mut step = step;
    let next = let_some_out(alloc, network, k, &mut step, count, sent, first, lines);
    // A step is large: it is dropped here alone.
    drop(step);
    next
}

/// Does the same for a step that stays with the caller, without the lines that were moved.
fn let_some_out(
    alloc: Global,
    network: &mut Network,
    k: u32,
    step: &mut Step,
    count: u64,
    sent: &SentPackets,
    first: usize,
    lines: &mut Lines,
) -> Result<usize, NoMemory>
    requires { AllByRecursion FitsSent step.old.batch.sends }
    ensures stands { OnOk result (WhereMade network.old step.old (λ packets bytes x. AreSpelt (take count step.old.batch.sends) (packets_of sent.now) first →
        LetsOutSome count lines.old packets bytes k x network.new lines.new)) }
    ensures exact { IfOk result (λ next. next ≡ first + min (length (packets_of sent.now) - first) (min count (length step.old.batch.sends))) }
    ensures behind { IfOk result (λ next. AreSpelt (take count step.old.batch.sends) (packets_of sent.now) first →
        next ≡ first + min count (length step.old.batch.sends)) }
{
    let made = step.batch.sends.as_slice().len();
    let packets = packets_in(step.batch.sends.as_slice());
    let told = step.batch.lines.as_slice().len();
    let own = told.saturating_sub(made - packets);
    let out = count.min(made as u64) as usize;
    add_first(alloc, &mut step.batch.lines, own, lines)?;
    network.keep(step.size)?;
    let next = network.send_all(k, &step.batch.sends.as_slice()[..out], sent, first, lines)?;
    let shown = out.saturating_sub(packets);
    add_replies(alloc, &step.batch.lines, own, shown, lines)?;
    Ok(next)
}

/// Appends the lines of the first replies, as many as are sent. They come after the step's own lines.
fn add_replies(
    alloc: Global,
    told: &Lines,
    own: usize,
    shown: usize,
    lines: &mut Lines,
) -> Result<(), NoMemory>
    ensures { OnOk result (lines.new ≡ lines.old ++ take shown (drop own told.now)) }
{
    let told = told.as_slice();
    let answers = &told[own.min(told.len())..];
    add(alloc, &answers[..shown.min(answers.len())], lines)?;
    Ok(())
}

/// Does the same for all datagrams and replies of the step.
pub(crate) fn let_all_out(
    alloc: Global,
    network: &mut Network,
    k: u32,
    step: Step,
    sent: &SentPackets,
    first: usize,
    lines: &mut Lines,
) -> Result<usize, NoMemory>
    requires { AllByRecursion FitsSent step.batch.sends }
    ensures exact { IfOk result (λ next. next ≡ first + min (length (packets_of sent.now) - first) (length step.batch.sends)) }
    ensures behind { IfOk result (λ next. AreSpelt step.batch.sends (packets_of sent.now) first → next ≡ first + length step.batch.sends) }
    ensures stands { OnOk result (WhereMade network.old step (λ packets bytes x. AreSpelt step.batch.sends (packets_of sent.now) first →
        LetsOut lines.old packets bytes k x x.sends x.replies network.new lines.new)) }
{
    let all = step.batch.sends.as_slice().len() as u64;
    let next = let_out(alloc, network, k, step, all, sent, first, lines)?;
    Ok(next)
}

/// Sends the effects of an arrival and appends their lines. The port of all replicas has sent the datagrams.
pub(crate) fn leave(
    alloc: Global,
    network: &mut Network,
    sent: &SentPackets,
    effects: Effects,
    lines: &mut Lines,
) -> Result<(), NoMemory>
    requires { FitsEffects effects }
    ensures { OnOk result (WhereLeft network.old (packets_of sent.now) effects (λ m sites. LeadsOn m sites network.new lines.old lines.new)) }
{
    match effects {
        Effects::Nothing => Ok(()),
        Effects::Whole { k, step, first } => {
            let_all_out(alloc, network, k, step, sent, first, lines)?;
            Ok(())
        }
        Effects::Cut {
            k,
            step,
            first,
            sends,
        } => {
            let_out(alloc, network, k, step, sends, sent, first, lines)?;
            lines.push(Line::Down { replica: k })?;
            Ok(())
        }
        Effects::Down { k } => {
            lines.push(Line::Down { replica: k })?;
            Ok(())
        }
    }
}
