//! The request of a command, sent to a replica until it replies.

ghost use Rattle.std.specs.Prelude.{◌≡◌, ◌<◌, IfOk};
ghost use Rattle.crsm_base.specs.declared.Datagram.{Datagram as DatagramOnPaper};
ghost use Rattle.crsm_base.specs.Messages.{datagram_bytes};
ghost use Rattle.crsm_base.specs.Spelling.{FitsCommand};
ghost use Rattle.crsm_client.specs.Asking.{Asks, IsAnswered, IsUnanswered, WhereNotReplied, WhereReplied};
ghost use Rattle.crsm_client.specs.Turns.{SendsMarked, due};
ghost use Rattle.crsm_port.specs.Cluster.{wrapped};

use crate::error::AskError;
use crate::inbox::Inbox;
use crate::marks::marked;
use crsm_base::{Bytes, Command, Datagram, NoMemory, Outcome};
use crsm_port::Port;
use std::alloc::Global;

/// Returns the request of a command with the mark of its cluster. `NoMemory` if memory runs out.
fn request(alloc: Global, cluster: u64, command: &Command) -> Result<Bytes, NoMemory>
    requires { FitsCommand command.now }
    ensures { IfOk result (λ bytes. bytes ≡ wrapped cluster (datagram_bytes (DatagramOnPaper.Request command.now))) }
{
    let command = command.copy(alloc)?;
    marked(alloc, cluster, &Datagram::Request { command })
}

/// Reserves memory for one datagram on the port, and sends it.
fn send_one<P: Port>(port: &mut P, to: u64, bytes: &[u8]) -> Result<(), AskError>
    ensures { SendsMarked 1 to bytes.now (P.meaning port.old) (P.meaning port.new) result }
{
    port.reserve(1, bytes.len() as u64)?;
    match port.send(to, bytes) {
        Ok(()) => Ok(()),
        Err(_) => Err(AskError::PortFault),
    }
}

/// Sends the request if this turn is a multiple of `resend`.
fn send_due<P: Port>(
    port: &mut P,
    to: u64,
    bytes: &[u8],
    turn: u64,
    resend: u64,
) -> Result<(), AskError>
    requires { 0 < resend }
    ensures { SendsMarked (due resend turn) to bytes.now (P.meaning port.old) (P.meaning port.new) result }
{
    if turn % resend == 0 {
        return send_one(port, to, bytes);
    }
    Ok(())
}

/// Requests a command over a port that clusters share: each datagram begins with the mark of its cluster.
pub(crate) fn ask_in<P: Port>(
    alloc: Global,
    cluster: u64,
    port: &mut P,
    to: u64,
    command: &Command,
    turns: u64,
    resend: u64,
) -> Result<Outcome, AskError>
    requires fits { FitsCommand command.now }
    requires resend { 0 < resend }
    ensures { Asks cluster to command.now turns resend (P.meaning port.old) (P.meaning port.new) result }
{
    let request = request(alloc, cluster, command)?;
    let mut inbox = Inbox::new(alloc, cluster)?;
    for turn in 0..turns {
        send_due(port, to, request.as_slice(), turn, resend)?;
        if let Some(outcome) = inbox.receive_reply(alloc, port, to, command)? {
            return Ok(outcome);
        }
    }
    Err(AskError::NoAnswer)
}

/// Requests a command from the replica at the address `to`, IPv4 x 65,536 + port, and returns the outcome in its first
/// reply. Each of the `turns` turns receives once; the request is sent in turn 0 and retransmitted in each turn that is
/// a multiple of `resend`. `NoAnswer` if no reply came in these turns, `PortFault` if the port failed, `NoMemory` if
/// memory runs out.
pub fn ask<P: Port>(
    alloc: Global,
    port: &mut P,
    to: u64,
    command: &Command,
    turns: u64,
    resend: u64,
) -> Result<Outcome, AskError>
    requires fits { FitsCommand command.now }
    requires resend { 0 < resend }
    ensures asks { Asks 0 to command.now turns resend (P.meaning port.old) (P.meaning port.new) result }
    ensures complete { WhereReplied 0 to command.now (P.meaning port.old) (P.meaning port.new) (IsAnswered result) }
    ensures unanswered { WhereNotReplied 0 to command.now (P.meaning port.old) (P.meaning port.new) (IsUnanswered result) }
{
    ask_in(alloc, 0, port, to, command, turns, resend)
}
