//! The execution of each task.

ghost use Rattle.std.specs.Prelude.{◌≡◌, ◌≢◌, ◌<◌, ◌≤◌, ◌⊎◌, ℕ, List, Some, length};
ghost use Rattle.crsm_base.specs.Limits.{most_log_bytes};
ghost use Rattle.crsm_base.specs.Spelling.{FitsCommand};
ghost use Rattle.crsm_port_faults.specs.Counts.{Rose};
ghost use Rattle.crsm_port_lines.specs.Exact as loop_exact;
ghost use Rattle.crsm_app.specs.Devices.{devices_of};
ghost use Rattle.crsm_app.specs.Did.{Did, DidAudit, DidClient, DidDump, DidNode, DidOperate, DidPlan, DidReplay, DidReplayMp, DidSheet, DidSoak, Shows};
ghost use Rattle.crsm_app.specs.Exact.{AsksExactly, AuditsExactly, DumpsExactly, Exactly, IsDone, IsNodeDone, WhereNodeFaultless, ReplaysExactly, ReplaysMpExactly, SheetsExactly, PlansExactly};
ghost use Rattle.crsm_app.specs.Run.{PortFailed};
ghost use Rattle.crsm_app.specs.Tasks.{IsLogReader, IsOverPort, IsReader, IsRunner, IsWithinLimits, TakesInput};
ghost use Rattle.crsm_node.specs.Running.{devices_of as node_over};
ghost use Rattle.crsm_text_words.specs.Orders.{IsNode};

use crate::dumping::run_dump;
use crate::locking::run_lock;
use crate::status::{
    Status, client_status, delay_status, node_status, operate_status, replay_mp_status,
    replay_status, sheet_status,
};
use crsm_audit::{audit, audits_are_exact};
use crsm_base::Members;
use crsm_client::{ClientOrder, client, operate_command};
use crsm_clock::Clock;
use crsm_cmd_replay::replay;
use crsm_cmd_replay_node::replay_node;
use crsm_cmd_soak::{SoakEnd, soak};
use crsm_delay::{Wanted, delay, delay_times, plans_are_exact};
use crsm_disk::Disk;
use crsm_io::{Sink, Source, put_all};
use crsm_mpreplay::replay_mp;
use crsm_node::{NodeOrder, Reporter, run_node};
use crsm_port::Port;
use crsm_port_lines::MAX_INPUT_BYTES;
use crsm_text_words::{NodeTask, Order, Task};
use std::alloc::Global;

/// Runs a schedule.
fn run_replay<I: Source, O: Sink>(alloc: Global, input: &mut I, output: &mut O) -> Status
    ensures did { DidReplay result (I.left input.old) (I.left input.new) (O.written output.old) (O.written output.new) }
    ensures read_fault { result ≡ Status.ReadFault → Rose (I.faults input.old) (I.faults input.new) }
    ensures write_fault { result ≡ Status.WriteFault → Rose (O.faults output.old) (O.faults output.new) }
    ensures exact { loop_exact.WhereFaultless (I.faults input.old) (I.faults input.new) (O.faults output.old) (O.faults output.new) (ReplaysExactly (I.left input.old) result) }
    ensures limit { (bytes : List ℕ) → I.left input.old ≡ Some bytes → MAX_INPUT_BYTES < length bytes → result ≢ Status.Ok }
    ensures within { (bytes : List ℕ) → I.left input.old ≡ Some bytes → length bytes ≤ MAX_INPUT_BYTES → result ≢ Status.InputTooLong }
    ensures no_port { result ≢ Status.PortFault }
    ensures no_disk { result ≢ Status.DiskFault }
{
    replay_status(replay(alloc, input, output))
}

/// Runs a schedule of a store with a leader.
fn run_replay_mp<I: Source, O: Sink>(alloc: Global, input: &mut I, output: &mut O) -> Status
    ensures did { DidReplayMp result (I.left input.old) (I.left input.new) (O.written output.old) (O.written output.new) }
    ensures read_fault { result ≡ Status.ReadFault → Rose (I.faults input.old) (I.faults input.new) }
    ensures write_fault { result ≡ Status.WriteFault → Rose (O.faults output.old) (O.faults output.new) }
    ensures exact { loop_exact.WhereFaultless (I.faults input.old) (I.faults input.new) (O.faults output.old) (O.faults output.new) (ReplaysMpExactly (I.left input.old) result) }
    ensures limit { (bytes : List ℕ) → I.left input.old ≡ Some bytes → MAX_INPUT_BYTES < length bytes → result ≢ Status.Ok }
    ensures within { (bytes : List ℕ) → I.left input.old ≡ Some bytes → length bytes ≤ MAX_INPUT_BYTES → result ≢ Status.InputTooLong }
    ensures no_port { result ≢ Status.PortFault }
    ensures no_disk { result ≢ Status.DiskFault }
{
    replay_mp_status(replay_mp(alloc, input, output))
}

/// Replays the sheet of replica `me` of a cluster that began with `n`.
fn run_sheet<I: Source, O: Sink>(
    alloc: Global,
    me: u32,
    n: u32,
    input: &mut I,
    output: &mut O,
) -> Status
    requires me_below { me < 15 }
    requires some { 1 ≤ n }
    requires few { n ≤ 15 }
    ensures did { DidSheet me n result (I.left input.old) (I.left input.new) (O.written output.old) (O.written output.new) }
    ensures read_fault { result ≡ Status.ReadFault → Rose (I.faults input.old) (I.faults input.new) }
    ensures write_fault { result ≡ Status.WriteFault → Rose (O.faults output.old) (O.faults output.new) }
    ensures exact { loop_exact.WhereFaultless (I.faults input.old) (I.faults input.new) (O.faults output.old) (O.faults output.new) (SheetsExactly me n (I.left input.old) result) }
    ensures limit { (bytes : List ℕ) → I.left input.old ≡ Some bytes → MAX_INPUT_BYTES < length bytes → result ≢ Status.Ok }
    ensures within { (bytes : List ℕ) → I.left input.old ≡ Some bytes → length bytes ≤ MAX_INPUT_BYTES → result ≢ Status.InputTooLong }
    ensures no_port { result ≢ Status.PortFault }
    ensures no_disk { result ≢ Status.DiskFault }
{
    sheet_status(replay_node(alloc, me, n, input, output))
}

/// Writes the verdict on the sheets of nodes of a cluster that began with `n`.
fn run_audit<I: Source, O: Sink>(alloc: Global, n: u32, input: &mut I, output: &mut O) -> Status
    requires some { 1 ≤ n }
    requires few { n ≤ 15 }
    ensures did { DidAudit n result (I.left input.old) (I.left input.new) (O.written output.old) (O.written output.new) }
    ensures read_fault { result ≡ Status.ReadFault → Rose (I.faults input.old) (I.faults input.new) }
    ensures write_fault { result ≡ Status.WriteFault → Rose (O.faults output.old) (O.faults output.new) }
    ensures exact { loop_exact.WhereFaultless (I.faults input.old) (I.faults input.new) (O.faults output.old) (O.faults output.new) (AuditsExactly n (I.left input.old) result) }
    ensures limit { (bytes : List ℕ) → I.left input.old ≡ Some bytes → MAX_INPUT_BYTES < length bytes → result ≢ Status.Ok }
    ensures within { (bytes : List ℕ) → I.left input.old ≡ Some bytes → length bytes ≤ MAX_INPUT_BYTES → result ≢ Status.InputTooLong }
    ensures no_port { result ≢ Status.PortFault }
    ensures no_disk { result ≢ Status.DiskFault }
{
    audits_are_exact();
    sheet_status(audit(alloc, n, input, output))
}

/// Writes the schedule of a plan's timeline.
fn run_delay<I: Source, O: Sink>(alloc: Global, input: &mut I, output: &mut O) -> Status
    ensures did { DidPlan Wanted.Schedule result (I.left input.old) (I.left input.new) (O.written output.old) (O.written output.new) }
    ensures read_fault { result ≡ Status.ReadFault → Rose (I.faults input.old) (I.faults input.new) }
    ensures write_fault { result ≡ Status.WriteFault → Rose (O.faults output.old) (O.faults output.new) }
    ensures exact { loop_exact.WhereFaultless (I.faults input.old) (I.faults input.new) (O.faults output.old) (O.faults output.new) (PlansExactly Wanted.Schedule (I.left input.old) result) }
    ensures limit { (bytes : List ℕ) → I.left input.old ≡ Some bytes → MAX_INPUT_BYTES < length bytes → result ≢ Status.Ok }
    ensures within { (bytes : List ℕ) → I.left input.old ≡ Some bytes → length bytes ≤ MAX_INPUT_BYTES → result ≢ Status.InputTooLong }
    ensures no_port { result ≢ Status.PortFault }
    ensures no_disk { result ≢ Status.DiskFault }
{
    plans_are_exact();
    delay_status(delay(alloc, input, output))
}

/// Writes the moments at which the command of a plan commits.
fn run_delay_times<I: Source, O: Sink>(alloc: Global, input: &mut I, output: &mut O) -> Status
    ensures did { DidPlan Wanted.Times result (I.left input.old) (I.left input.new) (O.written output.old) (O.written output.new) }
    ensures read_fault { result ≡ Status.ReadFault → Rose (I.faults input.old) (I.faults input.new) }
    ensures write_fault { result ≡ Status.WriteFault → Rose (O.faults output.old) (O.faults output.new) }
    ensures exact { loop_exact.WhereFaultless (I.faults input.old) (I.faults input.new) (O.faults output.old) (O.faults output.new) (PlansExactly Wanted.Times (I.left input.old) result) }
    ensures limit { (bytes : List ℕ) → I.left input.old ≡ Some bytes → MAX_INPUT_BYTES < length bytes → result ≢ Status.Ok }
    ensures within { (bytes : List ℕ) → I.left input.old ≡ Some bytes → length bytes ≤ MAX_INPUT_BYTES → result ≢ Status.InputTooLong }
    ensures no_port { result ≢ Status.PortFault }
    ensures no_disk { result ≢ Status.DiskFault }
{
    plans_are_exact();
    delay_status(delay_times(alloc, input, output))
}

/// Writes a requested text.
fn show<O: Sink>(text: &[u8], output: &mut O) -> Status
    ensures shows { Shows text.now result (O.written output.old) (O.written output.new) }
    ensures write_fault { result ≡ Status.WriteFault → Rose (O.faults output.old) (O.faults output.new) }
    ensures exact { ¬ (Rose (O.faults output.old) (O.faults output.new)) → IsDone result }
{
    match put_all(output, text) {
        Ok(()) => Status::Ok,
        Err(_) => Status::WriteFault,
    }
}

/// Runs events generated from a number.
fn run_soak<O: Sink>(alloc: Global, number: u64, n: u32, steps: u64, output: &mut O) -> Status
    requires some { 1 ≤ n }
    requires few { n ≤ 15 }
    ensures did { DidSoak number n steps result (O.written output.old) (O.written output.new) }
    ensures write_fault { result ≡ Status.WriteFault → Rose (O.faults output.old) (O.faults output.new) }
    ensures exact { ¬ (Rose (O.faults output.old) (O.faults output.new)) → IsDone result }
{
    match soak(alloc, number, n, steps, output) {
        SoakEnd::Done => Status::Ok,
        SoakEnd::WriteFault => Status::WriteFault,
        SoakEnd::NoMemory => Status::NoMemory,
    }
}

/// Requests a command from a replica.
fn run_client<O: Sink, P: Port>(
    alloc: Global,
    order: &ClientOrder,
    cluster: u64,
    output: &mut O,
    port: &mut P,
) -> Status
    requires { FitsCommand order.now.command }
    ensures did { DidClient cluster order.now result (P.meaning port.old) (P.meaning port.new) (O.written output.old) (O.written output.new) }
    ensures exact { AsksExactly cluster order.now.to order.now.command result (P.meaning port.old) (P.meaning port.new) (O.faults output.old) (O.faults output.new) }
    ensures write_fault { result ≡ Status.WriteFault → Rose (O.faults output.old) (O.faults output.new) }
    ensures port_fault { let old = P.meaning port.old in let new = P.meaning port.new in result ≡ Status.PortFault → Rose old.faults new.faults ⊎ Rose old.losses new.losses }
{
    client_status(client(alloc, order, cluster, port, output))
}

/// Requests a membership change from a replica.
fn run_operate<P: Port>(
    alloc: Global,
    to: u64,
    members: &Members,
    cluster: u64,
    port: &mut P,
) -> Status
    ensures did { DidOperate cluster to members.now result (P.meaning port.old) (P.meaning port.new) }
    ensures exact { let old = P.meaning port.old in let new = P.meaning port.new in ¬ (Rose old.losses new.losses) → IsDone result }
    ensures port_fault { let old = P.meaning port.old in let new = P.meaning port.new in result ≡ Status.PortFault → Rose old.losses new.losses }
{
    operate_status(operate_command(alloc, to, members, cluster, port))
}

/// Runs a replica.
fn run_replica<O: Sink, P: Port, D: Disk, C: Clock, R: Reporter>(
    alloc: Global,
    task: &NodeTask,
    cluster: u64,
    output: &mut O,
    port: &mut P,
    disk: &mut D,
    clock: &mut C,
    reporter: &mut R,
) -> Status
    requires { IsNode task.now }
    ensures did { let at = node_over D.meaning P.meaning C.readings O.written O.faults in
        DidNode cluster task.now result (at disk.old port.old clock.old output.old) (at disk.new port.new clock.new output.new) }
    ensures write_fault { result ≡ Status.WriteFault → Rose (O.faults output.old) (O.faults output.new) }
    ensures port_fault { let old = P.meaning port.old in let new = P.meaning port.new in result ≡ Status.PortFault → Rose old.faults new.faults }
    ensures disk_fault { let old = D.meaning disk.old in let new = D.meaning disk.new in result ≡ Status.DiskFault → Rose old.faults new.faults }
    ensures exact { let p = P.meaning port.old in let q = P.meaning port.new in let d = D.meaning disk.old in let e = D.meaning disk.new in
        WhereNodeFaultless p.faults q.faults d.faults e.faults (O.faults output.old) (O.faults output.new) (IsNodeDone result) }
    ensures no_input { (result ≢ Status.ReadFault) × (result ≢ Status.InputTooLong) }
{
    let Ok(peers) = Vec::from_slice(alloc, task.peers.as_slice()) else {
        return Status::NoMemory;
    };
    match NodeOrder::new(task.me, task.n, task.turns, peers, cluster) {
        Some(order) => {
            let end = run_node(alloc, &order, port, disk, clock, output, reporter);
            node_status(end)
        }
        None => Status::NoMemory,
    }
}

/// Executes the task of an order, and returns the status.
pub(crate) fn do_order<I: Source, O: Sink, P: Port, D: Disk, C: Clock, R: Reporter>(
    alloc: Global,
    order: Order,
    input: &mut I,
    output: &mut O,
    port: &mut P,
    disk: &mut D,
    clock: &mut C,
    reporter: &mut R,
) -> Status
    requires { IsWithinLimits order.task }
    ensures did { let at = devices_of I.left I.faults O.written O.faults P.meaning D.meaning C.readings in
        Did order.cluster order.task result (at input.old output.old port.old disk.old clock.old) (at input.new output.new port.new disk.new clock.new) }
    ensures exact { let at = devices_of I.left I.faults O.written O.faults P.meaning D.meaning C.readings in
        Exactly order.cluster order.task result (at input.old output.old port.old disk.old clock.old) (at input.new output.new port.new disk.new clock.new) }
    ensures read_fault { result ≡ Status.ReadFault → Rose (I.faults input.old) (I.faults input.new) }
    ensures write_fault { result ≡ Status.WriteFault → Rose (O.faults output.old) (O.faults output.new) }
    ensures port_fault { let at = devices_of I.left I.faults O.written O.faults P.meaning D.meaning C.readings in
        result ≡ Status.PortFault → PortFailed (at input.old output.old port.old disk.old clock.old) (at input.new output.new port.new disk.new clock.new) order.task }
    ensures disk_fault { let old = D.meaning disk.old in let new = D.meaning disk.new in result ≡ Status.DiskFault → Rose old.faults new.faults }
    ensures limit { IsReader order.task → (bytes : List ℕ) → I.left input.old ≡ Some bytes → MAX_INPUT_BYTES < length bytes → result ≢ Status.Ok }
    ensures log_limit { IsLogReader order.task → (bytes : List ℕ) → I.left input.old ≡ Some bytes → most_log_bytes < length bytes → result ≢ Status.Ok }
    ensures within { (bytes : List ℕ) → I.left input.old ≡ Some bytes → length bytes ≤ MAX_INPUT_BYTES → result ≢ Status.InputTooLong }
    ensures log_within { (bytes : List ℕ) → I.left input.old ≡ Some bytes → length bytes ≤ most_log_bytes → result ≢ Status.LogTooLong }
    ensures input { ¬ (TakesInput order.task) → input.new ≡ input.old }
    ensures port { ¬ (IsOverPort order.task) → port.new ≡ port.old }
    ensures disk { ¬ (IsRunner order.task) → disk.new ≡ disk.old }
    ensures clock { ¬ (IsRunner order.task) → clock.new ≡ clock.old }
{
    let Order { cluster, task } = order;
    match task {
        Task::Show(text) => show(text.as_slice(), output),
        Task::Replay => run_replay(alloc, input, output),
        Task::ReplayNode { me, n } => run_sheet(alloc, me, n, input, output),
        Task::Client { to, turns, command } => {
            let order = ClientOrder { to, turns, command };
            let status = run_client(alloc, &order, cluster, output, port);
            drop(order);
            status
        }
        Task::Operate { to, members } => run_operate(alloc, to, &members, cluster, port),
        Task::Soak { number, n, steps } => run_soak(alloc, number, n, steps, output),
        Task::Node(node) => run_replica(alloc, &node, cluster, output, port, disk, clock, reporter),
        Task::Lock(task) => run_lock(alloc, task, output, port),
        Task::Audit { n } => run_audit(alloc, n, input, output),
        Task::Delay => run_delay(alloc, input, output),
        Task::DelayTimes => run_delay_times(alloc, input, output),
        Task::ReplayMp => run_replay_mp(alloc, input, output),
        Task::Dump { me, n, part } => run_dump(alloc, me, n, part, input, output),
    }
}
