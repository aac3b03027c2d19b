//! The task on a lock.

ghost use Rattle.std.specs.Prelude.{◌≡◌, ◌⊎◌};
ghost use Rattle.crsm_port_faults.specs.Counts.{Rose};
ghost use Rattle.crsm_app.specs.Did.{DidLock};
ghost use Rattle.crsm_app.specs.Exact.{LocksExactly};
ghost use Rattle.crsm_app.specs.Locks.{action_of, lock_order};
ghost use Rattle.crsm_text_words.specs.Orders.{IsLock};

use crate::status::{Status, lock_status};
use crsm_cmd_lock::{LockOrder, lock};
use crsm_io::Sink;
use crsm_lease::Action;
use crsm_port::Port;
use crsm_text_words::{LockAction, LockTask};
use std::alloc::Global;

fn action_of(action: LockAction) -> Action
    ensures { result ≡ action_of action }
{
    match action {
        LockAction::Take => Action::Take,
        LockAction::Give => Action::Give,
        LockAction::Break => Action::Break,
    }
}

/// Returns the parameters of the task.
fn lock_order(task: LockTask) -> LockOrder
    ensures { result ≡ lock_order task }
{
    let LockTask {
        to,
        turns,
        client,
        number,
        key,
        action,
    } = task;
    LockOrder {
        to,
        turns,
        client,
        number,
        key,
        action: action_of(action),
    }
}

/// Requests an action on a lock from a replica.
pub(crate) fn run_lock<O: Sink, P: Port>(
    alloc: Global,
    task: LockTask,
    output: &mut O,
    port: &mut P,
) -> Status
    requires { IsLock task }
    ensures did { DidLock task result (P.meaning port.old) (P.meaning port.new) (O.written output.old) (O.written output.new) }
    ensures exact { LocksExactly task result (P.meaning port.old) (P.meaning port.new) (O.faults output.old) (O.faults output.new) }
    ensures write_fault { result ≡ Status.WriteFault → Rose (O.faults output.old) (O.faults output.new) }
    ensures port_fault { let old = P.meaning port.old in let new = P.meaning port.new in result ≡ Status.PortFault → Rose old.faults new.faults ⊎ Rose old.losses new.losses }
{
    lock_status(lock(alloc, &lock_order(task), port, output))
}
