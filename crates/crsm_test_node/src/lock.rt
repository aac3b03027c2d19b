//! Lines of the table `client` about a lock.

ghost use Rattle.std.specs.Prelude.{◌≡◌, ◌<◌, ◌-◌, ◌^◌, IfOk};
ghost use Rattle.crsm_base.specs.Spelling.{FitsKey};

use crate::client::{command_of, output_of, push_ended};
use crate::packets::port_of;
use crate::words::{five_parts, number_of, parted};
use crsm_base::{Bytes, Command, Key, Op};
use crsm_cmd_lock::{LockOrder, lock};
use crsm_io::MemSink;
use crsm_lease::Action;
use crsm_port::MemPort;
use crsm_test_cases::Fault;
use std::alloc::Global;

fn action_of(word: &str) -> Result<Action, Fault> {
    match word {
        "take" => Ok(Action::Take),
        "give" => Ok(Action::Give),
        "break" => Ok(Action::Break),
        _ => Err(Fault::Unreadable),
    }
}

/// Returns the key of a look.
fn key_of(alloc: Global, op: &Op) -> Result<Key, Fault>
    ensures { IfOk result (λ key. op.now ≡ Op.Get key) }
{
    match op {
        Op::Get(key) => Ok(key.copy(alloc)?),
        _ => Err(Fault::Unreadable),
    }
}

/// Reads what a client wants of a lock: an action, and then the look at its key.
fn order_of(alloc: Global, to: u64, turns: u64, words: &str) -> Result<Box<LockOrder>, Fault>
    ensures key { IfOk result (λ order. FitsKey order.value.key) }
    ensures number { IfOk result (λ order. order.value.number < 2 ^ 64 - 1) }
{
    let (action, look) = parted(words)?;
    let action = action_of(action)?;
    let command = command_of(alloc, look)?;
    let key = key_of(alloc, &command.op)?;
    if command.number == u64::MAX {
        return Err(Fault::Unreadable);
    }
    let order = LockOrder {
        to,
        turns,
        client: command.client,
        number: command.number,
        key,
        action,
    };
    Ok(Box::new(alloc, order)?)
}

/// What the command does, over a port and an output.
fn push_lock(
    alloc: Global,
    order: &LockOrder,
    port: &mut MemPort,
    output: &mut MemSink,
    out: &mut Bytes,
) -> Result<(), Fault>
    requires key { FitsKey order.now.key }
    requires number { order.now.number < 2 ^ 64 - 1 }
{
    let end = lock(alloc, order, port, output);
    let end = format!(in alloc; "{end:?}")?;
    push_ended(alloc, end.as_str(), output, port, out)
}

/// Tries the command `lock`.
pub fn push_lock_line(
    alloc: Global,
    words: &str,
    datagrams: &str,
    out: &mut Bytes,
) -> Result<(), Fault> {
    let (to, turns, calls, writes, words) = five_parts(words)?;
    let order = order_of(alloc, number_of(to)?, number_of(turns)?, words)?;
    let mut port = port_of(alloc, calls, datagrams, ' ')?;
    let mut output = output_of(alloc, writes)?;
    push_lock(alloc, &order, &mut port, &mut output, out)
}
