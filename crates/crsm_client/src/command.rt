//! The command `client`.

ghost use Rattle.std.specs.Prelude.{◌≡◌, ◌≤◌};
ghost use Rattle.crsm_base.specs.Spelling.{FitsCommand};
ghost use Rattle.crsm_client.specs.Asking.{WhereNotReplied, WhereReplied};
ghost use Rattle.crsm_client.specs.Commands.{ClientRan, IsDone, IsNoAnswer, WritesOutcome};
ghost use Rattle.crsm_port_faults.specs.Counts.{Rose};

use crate::asking::ask_in;
use crate::error::AskError;
use crsm_base::{Bytes, Command, Outcome};
use crsm_io::{Sink, put_all};
use crsm_port::Port;
use crsm_text::print_outcome;
use std::alloc::Global;

/// Number of turns between retransmissions of the request.
const RESEND: u64 = 100;

/// The parameters of the command.
#[derive(Drop)]
pub struct ClientOrder {
    /// The address of the replica, IPv4 x 65,536 + port.
    pub to: u64,
    /// Maximum number of turns, each with one receive.
    pub turns: u64,
    pub command: Command,
}

/// The end of the command.
#[derive(Clone, Copy, Debug, PartialEq, Eq)]
pub enum ClientEnd {
    /// The outcome was written.
    Done,
    /// The port failed in a send or a receive.
    PortFault,
    /// No reply came in all turns.
    NoAnswer,
    /// The output failed.
    WriteFault,
    NoMemory,
}

/// Writes the line of an outcome.
fn write_outcome<O: Sink>(alloc: Global, outcome: &Outcome, output: &mut O) -> ClientEnd
    ensures wrote { WritesOutcome outcome.now (O.written output.old) (O.written output.new) result }
    ensures later { O.faults output.old ≤ O.faults output.new }
    ensures rose { result ≡ ClientEnd.WriteFault → Rose (O.faults output.old) (O.faults output.new) }
{
    let mut text = Bytes::new(alloc);
    if print_outcome(alloc, outcome, &mut text).is_err() {
        return ClientEnd::NoMemory;
    }
    match put_all(output, text.as_slice()) {
        Ok(()) => ClientEnd::Done,
        Err(_) => ClientEnd::WriteFault,
    }
}

/// Requests the command from the replica, over a port that clusters share, and writes the outcome and a line feed.
/// Returns how that ended.
pub fn client<P: Port, O: Sink>(
    alloc: Global,
    order: &ClientOrder,
    cluster: u64,
    port: &mut P,
    output: &mut O,
) -> ClientEnd
    requires { FitsCommand order.now.command }
    ensures ran { ClientRan cluster order.now (P.meaning port.old) (P.meaning port.new) (O.written output.old) (O.written output.new) result }
    ensures write { result ≡ ClientEnd.WriteFault → Rose (O.faults output.old) (O.faults output.new) }
    ensures later { O.faults output.old ≤ O.faults output.new }
    ensures complete { WhereReplied cluster order.now.to order.now.command (P.meaning port.old) (P.meaning port.new)
        (¬ (Rose (O.faults output.old) (O.faults output.new)) → IsDone result) }
    ensures no_answer { WhereNotReplied cluster order.now.to order.now.command (P.meaning port.old) (P.meaning port.new) (IsNoAnswer result) }
{
    match ask_in(
        alloc,
        cluster,
        port,
        order.to,
        &order.command,
        order.turns,
        RESEND,
    ) {
        Ok(outcome) => write_outcome(alloc, &outcome, output),
        Err(AskError::NoAnswer) => ClientEnd::NoAnswer,
        Err(AskError::PortFault) => ClientEnd::PortFault,
        Err(AskError::NoMemory) => ClientEnd::NoMemory,
    }
}
