//! The sending of a step's output.

ghost use Rattle.std.specs.Prelude.{◌≡◌, ◌<◌, ◌++◌, [], ◌∷◌, ℕ, List, length, map, OnOk};
ghost use Rattle.std.specs.List.{AllByRecursion};
ghost use Rattle.crsm_mpreplica.specs.Made.{to_send};
ghost use Rattle.crsm_mpspec.specs.Sends as sends;
ghost use Rattle.crsm_mpspec.specs.Sends.{others_below};
ghost use Rattle.crsm_mpspec.specs.declared.message.MpMessage.{MpMessage};
ghost use Rattle.crsm_mpworld.specs.Effects.{FitsEffects, HasSent, LeadsOn, LetsOut, LetsOutSome, WhereLeft, WhereMade, to_each};
ghost use Rattle.crsm_mpworld.specs.Packets.{HasLast, HasSameLast, IsOpen, WhereKept, WhereNetwork};
ghost use Rattle.crsm_mpworld.specs.Fits.{FitsSend};

use crate::ending::MpEffects;
use crate::lines::kind_of;
use crate::network::MpNetwork;
use crate::site::MpStep;
use crsm_base::NoMemory;
use crsm_mpspec::{MpKind, MpLine, MpLines, MpMulticast, MpReceivers, MpSends};
use std::mem;

/// Sends the message that replica `k` kept last to replica `to`, and appends its line. The message is of this kind.
fn send_to(
    network: &mut MpNetwork,
    k: u32,
    to: u32,
    kind: MpKind,
    lines: &mut MpLines,
) -> Result<(), NoMemory>
    requires { HasLast network.old }
    ensures sent { OnOk result (WhereKept network.old k kind (λ m. WhereNetwork network.old (λ packets bytes.
        HasSent k ((to, m) ∷ []) packets bytes lines.old network.new lines.new))) }
    ensures last { HasSameLast network.old network.new }
{
    lines.push(MpLine::Send {
        index: network.count(),
        from: k,
        to,
        kind,
    })?;
    network.send(to)?;
    Ok(())
}

/// Sends the message that replica `k` kept last to the replicas below `n` but `me`, in order, and appends their lines.
/// The message is of this kind.
fn send_to_others(
    network: &mut MpNetwork,
    k: u32,
    me: u32,
    n: u32,
    kind: MpKind,
    lines: &mut MpLines,
) -> Result<(), NoMemory>
    requires { HasLast network.old }
    ensures { OnOk result (WhereKept network.old k kind (λ m. WhereNetwork network.old (λ packets bytes.
        HasSent k (to_each m (others_below me n)) packets bytes lines.old network.new lines.new))) }
{
    for to in 0..n {
        if to != me {
            send_to(network, k, to, kind, lines)?;
        }
    }
    Ok(())
}

/// Keeps a message of replica `k`, sends it to each of its receivers, and appends their lines.
fn send_one(
    network: &mut MpNetwork,
    k: u32,
    multicast: MpMulticast,
    lines: &mut MpLines,
) -> Result<(), NoMemory>
    requires fit { AllByRecursion FitsSend (sends.sends_of multicast) }
    requires some { 0 < length (sends.receivers multicast.receivers) }
    ensures { OnOk result (WhereNetwork network.old (λ packets bytes.
        HasSent k (to_each multicast.message (sends.receivers multicast.receivers)) packets bytes lines.old network.new lines.new)) }
{
    let MpMulticast { receivers, message } = multicast;
    let kind = kind_of(&message);
    network.hold(k, message)?;
    match receivers {
        MpReceivers::One { to } => send_to(network, k, to, kind, lines)?,
        MpReceivers::Others { me, n } => send_to_others(network, k, me, n, kind, lines)?,
    }
    Ok(())
}

/// Takes these messages of replica `k` out in order, sends each, and appends their lines.
fn send_each(
    network: &mut MpNetwork,
    k: u32,
    sends: &mut MpSends,
    lines: &mut MpLines,
) -> Result<(), NoMemory>
    requires { AllByRecursion FitsSend sends.old }
    ensures { OnOk result (WhereNetwork network.old (λ packets bytes. (out : List (ℕ × MpMessage)) → sends.old ≡ map to_send out →
        HasSent k out packets bytes lines.old network.new lines.new)) }
{
    while let Some(multicast) = sends.pop_first() {
        send_one(network, k, multicast, lines)?;
    }
    Ok(())
}

/// Moves lines to the end of others. Often there are none of the ones or of the others.
fn move_lines(from: &mut MpLines, lines: &mut MpLines) -> Result<(), NoMemory>
    ensures { OnOk result (lines.new ≡ lines.old ++ from.old) }
{
    if from.as_slice().is_empty() {
        return Ok(());
    }
    if lines.as_slice().is_empty() {
        mem::swap(from, lines);
        return Ok(());
    }
    lines.append(from)?;
    Ok(())
}

/// Appends the line that a replica goes down.
fn tell_down(k: u32, lines: &mut MpLines) -> Result<(), NoMemory>
    ensures { OnOk result (lines.new ≡ lines.old ++ MpLine.Down k ∷ []) }
{
    lines.push(MpLine::Down { replica: k })?;
    Ok(())
}

/// Sends the first messages and replies of a durable step of replica `k`. The lines of its records are appended first,
/// then those of the messages, then those of the replies.
fn let_out(
    network: &mut MpNetwork,
    k: u32,
    step: &mut MpStep,
    count: u64,
    lines: &mut MpLines,
) -> Result<(), NoMemory>
    requires fits { AllByRecursion FitsSend step.old.batch.sends }
    requires room { IsOpen network.old }
    ensures { OnOk result (WhereMade network.old step.old (λ packets bytes x. LetsOutSome count lines.old packets bytes k x network.new lines.new)) }
{
    network.keep(step.size);
    move_lines(&mut step.batch.lines, lines)?;
    let left = step.batch.sends.truncate(count);
    send_each(network, k, &mut step.batch.sends, lines)?;
    step.batch.replies.truncate(left as usize);
    move_lines(&mut step.batch.replies, lines)?;
    Ok(())
}

/// Sends all messages and replies of a durable step of replica `k`. The lines of its records are appended first, then
/// those of the messages, then those of the replies.
fn let_all_out(
    network: &mut MpNetwork,
    k: u32,
    step: &mut MpStep,
    lines: &mut MpLines,
) -> Result<(), NoMemory>
    requires fits { AllByRecursion FitsSend step.old.batch.sends }
    requires room { IsOpen network.old }
    ensures { OnOk result (WhereMade network.old step.old (λ packets bytes x. LetsOut lines.old packets bytes k x x.sends x.replies network.new lines.new)) }
{
    network.keep(step.size);
    move_lines(&mut step.batch.lines, lines)?;
    send_each(network, k, &mut step.batch.sends, lines)?;
    move_lines(&mut step.batch.replies, lines)?;
    Ok(())
}

/// Sends the effects of an input, whose step is `step`, and appends their lines.
pub(crate) fn leave(
    network: &mut MpNetwork,
    effects: MpEffects,
    step: &mut MpStep,
    lines: &mut MpLines,
) -> Result<(), NoMemory>
    requires fits { FitsEffects effects step.old }
    requires room { IsOpen network.old }
    ensures { OnOk result (WhereLeft network.old effects step.old (λ m v sites. LeadsOn m v.n sites network.new lines.old lines.new)) }
{
    match effects {
        MpEffects::Nothing => Ok(()),
        MpEffects::Whole { k } => {
            let_all_out(network, k, step, lines)?;
            Ok(())
        }
        MpEffects::Cut { k, sends } => {
            let_out(network, k, step, sends, lines)?;
            tell_down(k, lines)?;
            Ok(())
        }
        MpEffects::Down { k } => {
            tell_down(k, lines)?;
            Ok(())
        }
    }
}
