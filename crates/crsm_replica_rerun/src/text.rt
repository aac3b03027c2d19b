//! The text of a step: the lines of its records and of refused collections, then its datagrams to replicas, and then
//! its replies. The lines of replies are left out, since the replies are printed as datagrams.

ghost use Rattle.std.specs.Prelude.{◌≡◌, ◌≤◌, ◌-◌, ◌++◌, List, OnOk, count_by, length, map, take};
ghost use Rattle.std.specs.List.{AllByRecursion};
ghost use Rattle.crsm_base.specs.Messages.{FitsDatagram};
ghost use Rattle.crsm_core.specs.Core.{FitsSent};
ghost use Rattle.crsm_schedule.specs.Transcript.{line_text, lines_text};
ghost use Rattle.crsm_spec.specs.Draft.{Draft};
ghost use Rattle.crsm_replica_rerun.specs.Stages.{AnswersAll};
ghost use Rattle.crsm_replica_rerun.specs.Texts.{steps_text};
ghost use Rattle.crsm_replica_rerun.specs.Batches.{send_line};
ghost use Rattle.crsm_replica_rerun.specs.Batches as batches;

use crsm_base::{Bytes, Line, NoMemory, Send, To};
use crsm_core::Batch;
use crsm_schedule::push_line;
use crsm_wire::put_datagram;
use std::alloc::Global;

/// Appends lines with a line number before each.
fn push_lines(out: &mut Bytes, at: u64, lines: &[Line]) -> Result<(), NoMemory>
    ensures { OnOk result (out.new ≡ out.old ++ lines_text at lines.now) }
{
    for line in lines {
        push_line(out, at, line)?;
    }
    Ok(())
}

/// Returns the line of an outgoing datagram with these bytes.
fn line_to(to: To, bytes: Bytes) -> Line
    ensures { result ≡ batches.line_to to bytes }
{
    match to {
        To::Replica(to) => Line::Out { to, bytes },
        To::Address(address) => Line::Back { address, bytes },
    }
}

/// Appends the line of an outgoing datagram.
fn push_send(alloc: Global, out: &mut Bytes, at: u64, send: &Send) -> Result<(), NoMemory>
    requires { FitsDatagram send.now.datagram }
    ensures { OnOk result (out.new ≡ out.old ++ line_text at (send_line send.now)) }
{
    let mut bytes = Bytes::new(alloc);
    put_datagram(&send.datagram, &mut bytes)?;
    let line = line_to(send.to, bytes);
    push_line(out, at, &line)?;
    Ok(())
}

/// Appends the lines of outgoing datagrams.
fn push_sends(alloc: Global, out: &mut Bytes, at: u64, sends: &[Send]) -> Result<(), NoMemory>
    requires { AllByRecursion FitsSent sends.now }
    ensures { OnOk result (out.new ≡ out.old ++ lines_text at (map send_line sends.now)) }
{
    for send in sends {
        push_send(alloc, out, at, send)?;
    }
    Ok(())
}

fn goes_to_client(send: &Send) -> bool
    ensures { result ≡ batches.goes_to_client send.now }
{
    match send.to {
        To::Replica(_) => false,
        To::Address(_) => true,
    }
}

/// Returns the number of a step's lines without those of replies, which are the last ones, one for each reply.
fn own_lines(lines: &[Line], sends: &[Send]) -> usize
    ensures value { result ≡ length lines.now - count_by batches.goes_to_client sends.now }
    ensures within { result ≤ length lines.now }
{
    let replies = sends.iter().filter(|send| goes_to_client(send)).count();
    lines.len().saturating_sub(replies)
}

/// Appends the lines of a step without those of its replies, and the lines of its datagrams.
fn push_all(
    alloc: Global,
    out: &mut Bytes,
    at: u64,
    lines: &[Line],
    sends: &[Send],
) -> Result<(), NoMemory>
    requires { AllByRecursion FitsSent sends.now }
    ensures { OnOk result (out.new ≡ (out.old ++ lines_text at (take (length lines.now - count_by batches.goes_to_client sends.now) lines.now)) ++ lines_text at (map send_line sends.now)) }
{
    let count = own_lines(lines, sends);
    push_lines(out, at, &lines[..count])?;
    push_sends(alloc, out, at, sends)?;
    Ok(())
}

/// Appends the text of a replica's output at the line with the number `at`. `NoMemory` if memory runs out; a prefix of
/// the text may then have been appended.
pub fn push_step(alloc: Global, out: &mut Bytes, at: u64, batch: &Batch) -> Result<(), NoMemory>
    requires { AllByRecursion FitsSent batch.now.sends }
    ensures { (steps : List Draft) → AnswersAll batch.now steps → OnOk result (out.new ≡ out.old ++ steps_text at steps) }
{
    push_all(
        alloc,
        out,
        at,
        batch.lines.as_slice(),
        batch.sends.as_slice(),
    )?;
    Ok(())
}
