//! The two requests of an action on a lock: a read of its key, and the operation that follows.

ghost use Rattle.std.specs.Prelude.{◌≡◌, ◌<◌, ◌-◌, ◌^◌, IfOk};
ghost use Rattle.crsm_base.specs.Spelling.{FitsCommand, FitsKey};
ghost use Rattle.crsm_lease.specs.Rules.{Asks};
ghost use Rattle.crsm_cmd_lock.specs.Learning.{AsksFor, IsCasOf, LearnsOr, TellsNext, look_of};

use crate::command::LockOrder;
use crsm_base::{Command, Key, NoMemory, Op, Outcome};
use crsm_client::{AskError, ask};
use crsm_lease::{NextStep, Told, after_cas, after_get, locks_have_one_value};
use crsm_port::Port;
use std::alloc::Global;

/// Number of turns between retransmissions of a request.
const RESEND: u64 = 100;

/// Returns the command of a client that reads a key.
fn get(client: u64, number: u64, key: Key) -> Command
    requires { FitsKey key }
    ensures fits { FitsCommand result }
    ensures get { result ≡ record { client = client; number = number; op = Op.Get key } }
{
    Command {
        client,
        number,
        op: Op::Get(key),
    }
}

/// Returns the command that reads the key of the lock. `NoMemory` if memory runs out.
fn look(alloc: Global, order: &LockOrder) -> Result<Command, NoMemory>
    requires { FitsKey order.now.key }
    ensures fits { IfOk result FitsCommand }
    ensures look { IfOk result (λ command. command ≡ look_of order.now) }
{
    let key = order.key.copy(alloc)?;
    Ok(get(order.client, order.number, key))
}

/// Requests a command.
fn request<P: Port>(
    alloc: Global,
    order: &LockOrder,
    command: &Command,
    port: &mut P,
) -> Result<Outcome, AskError>
    requires { FitsCommand command.now }
    ensures { AsksFor order.now command.now (P.meaning port.old) (P.meaning port.new) result }
{
    ask(alloc, port, order.to, command, order.turns, RESEND)
}

/// Requests the operation that follows the read, under the next number, and returns the result to report.
fn follow<P: Port>(alloc: Global, order: &LockOrder, op: Op, port: &mut P) -> Result<Told, AskError>
    requires key { FitsKey order.now.key }
    requires number { order.now.number < 2 ^ 64 - 1 }
    requires asked { Asks order.now.action order.now.client op }
    requires cas { IsCasOf order.now.key op }
    ensures { TellsNext order.now op (P.meaning port.old) (P.meaning port.new) result }
{
    locks_have_one_value();
    let command = Command {
        client: order.client,
        number: order.number + 1,
        op,
    };
    let outcome = request(alloc, order, &command, port)?;
    Ok(after_cas(&command.op, &outcome))
}

/// Reads the key, requests the operation of the rule, and returns the result to report. `NoAnswer` if a reply does not
/// come in its turns, `PortFault` if the port failed, `NoMemory` if memory runs out.
pub(crate) fn learn<P: Port>(
    alloc: Global,
    order: &LockOrder,
    port: &mut P,
) -> Result<Told, AskError>
    requires key { FitsKey order.now.key }
    requires number { order.now.number < 2 ^ 64 - 1 }
    ensures { LearnsOr order.now (P.meaning port.old) (P.meaning port.new) result }
{
    let look = look(alloc, order)?;
    let found = request(alloc, order, &look, port)?;
    match after_get(alloc, order.action, order.client, &order.key, &found)? {
        NextStep::End(told) => Ok(told),
        NextStep::Ask(op) => follow(alloc, order, op, port),
    }
}
