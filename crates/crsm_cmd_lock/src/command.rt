//! The command `lock`.

ghost use Rattle.std.specs.Prelude.{◌≡◌, ◌<◌, ◌≤◌, ◌-◌, ◌^◌};
ghost use Rattle.crsm_base.specs.Spelling.{FitsKey};
ghost use Rattle.crsm_port_faults.specs.Counts.{Rose};
ghost use Rattle.crsm_cmd_lock.specs.Answers.{WhereAnswered, WhereNotAnswered};
ghost use Rattle.crsm_cmd_lock.specs.Commands.{IsDone, IsNoAnswer, LockRan, WritesTold};

use crate::learning::learn;
use crsm_base::{Bytes, Key};
use crsm_client::AskError;
use crsm_io::{Sink, put_all};
use crsm_lease::{Action, Told, locks_have_one_value, print_told};
use crsm_port::Port;
use std::alloc::Global;

/// The parameters of the command.
#[derive(Drop)]
pub struct LockOrder {
    /// The address of the replica, IPv4 x 65,536 + port.
    pub to: u64,
    /// Maximum number of turns for each of the two requests, each turn with one receive.
    pub turns: u64,
    /// The number of the client, which owns the lock if it is granted.
    pub client: u64,
    /// The number of the first request. The second has the next one.
    pub number: u64,
    pub key: Key,
    pub action: Action,
}

/// The end of the command.
#[derive(Clone, Copy, Debug, PartialEq, Eq)]
pub enum LockEnd {
    /// The result was written.
    Done,
    /// The port failed in a send or a receive.
    PortFault,
    /// No reply to a request came in all its turns.
    NoAnswer,
    /// The output failed.
    WriteFault,
    NoMemory,
}

/// Writes the line of the result.
fn write_told<O: Sink>(alloc: Global, told: Told, output: &mut O) -> LockEnd
    ensures wrote { WritesTold told (O.written output.old) (O.written output.new) result }
    ensures later { O.faults output.old ≤ O.faults output.new }
    ensures rose { result ≡ LockEnd.WriteFault → Rose (O.faults output.old) (O.faults output.new) }
{
    let mut text = Bytes::new(alloc);
    if print_told(alloc, told, &mut text).is_err() {
        return LockEnd::NoMemory;
    }
    match put_all(output, text.as_slice()) {
        Ok(()) => LockEnd::Done,
        Err(_) => LockEnd::WriteFault,
    }
}

/// Reads the key of the lock at the replica, and then requests the operation of the rule, if there is one. Writes the
/// result and a line feed. Returns how that ended.
pub fn lock<P: Port, O: Sink>(
    alloc: Global,
    order: &LockOrder,
    port: &mut P,
    output: &mut O,
) -> LockEnd
    requires key { FitsKey order.now.key }
    requires number { order.now.number < 2 ^ 64 - 1 }
    ensures ran { LockRan order.now (P.meaning port.old) (P.meaning port.new) (O.written output.old) (O.written output.new) result }
    ensures write { result ≡ LockEnd.WriteFault → Rose (O.faults output.old) (O.faults output.new) }
    ensures later { O.faults output.old ≤ O.faults output.new }
    ensures complete { WhereAnswered order.now (P.meaning port.old) (P.meaning port.new)
        (¬ (Rose (O.faults output.old) (O.faults output.new)) → IsDone result) }
    ensures no_answer { WhereNotAnswered order.now (P.meaning port.old) (P.meaning port.new) (IsNoAnswer result) }
{
    locks_have_one_value();
    match learn(alloc, order, port) {
        Ok(told) => write_told(alloc, told, output),
        Err(AskError::NoAnswer) => LockEnd::NoAnswer,
        Err(AskError::PortFault) => LockEnd::PortFault,
        Err(AskError::NoMemory) => LockEnd::NoMemory,
    }
}
