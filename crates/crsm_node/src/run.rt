//! A node from its start to its end.

ghost use Rattle.std.specs.Prelude.{◌≡◌, [], false, IsErrOf};
ghost use Rattle.crsm_spec.specs.Replica.{Replica};
ghost use Rattle.crsm_shell.specs.Shell.{ShellStands};
ghost use Rattle.crsm_shell.specs.Words.{disk_of, has_failed, pending_of};
ghost use Rattle.crsm_node.specs.Running.{Runs, RunsNumbered, RunsOverCluster, RunsShell, devices_of, end_of};

use crate::errors::{NodeEnd, NodeError};
use crate::opening::write_opening;
use crate::order::NodeOrder;
use crate::report::{Reporter, held_in};
use crate::serving::serve;
use crsm_base::Bodies;
use crsm_clock::Clock;
use crsm_disk::Disk;
use crsm_io::Sink;
use crsm_log::claim;
use crsm_port::{ClusterPort, Port};
use crsm_replica_detector::Detector;
use crsm_shell::{Booted, Shell, logs_are_one};
use std::alloc::Global;

/// Runs a node: claims its log for the cluster, boots the replica on it, writes the first lines of the sheet, and takes
/// all turns. In a cluster other than 0 datagrams use the port of the cluster. The reporter receives the content of the
/// log once the replica is booted, and then what each turn comes to. Returns how the run ended.
pub fn run_node<P: Port, D: Disk, C: Clock, O: Sink, R: Reporter>(
    alloc: Global,
    order: &NodeOrder,
    port: &mut P,
    disk: &mut D,
    clock: &mut C,
    sheet: &mut O,
    reporter: &mut R,
) -> NodeEnd
    ensures { let at = devices_of D.meaning P.meaning C.readings O.written O.faults in
        RunsOverCluster order.now (at disk.old port.old clock.old sheet.old) (at disk.new port.new clock.new sheet.new) result }
{
    if order.cluster == 0 {
        return run_over(alloc, order, port, disk, clock, sheet, reporter);
    }
    run_numbered(alloc, order, port, disk, clock, sheet, reporter)
}

/// Runs a node over the port of its cluster, over this port.
fn run_numbered<P: Port, D: Disk, C: Clock, O: Sink, R: Reporter>(
    alloc: Global,
    order: &NodeOrder,
    port: &mut P,
    disk: &mut D,
    clock: &mut C,
    sheet: &mut O,
    reporter: &mut R,
) -> NodeEnd
    ensures { let at = devices_of D.meaning P.meaning C.readings O.written O.faults in
        RunsNumbered order.now (at disk.old port.old clock.old sheet.old) (at disk.new port.new clock.new sheet.new) result }
{
    let mut over = match ClusterPort::new(alloc, &mut *port, order.cluster) {
        Ok(over) => over,
        Err((why, _port)) => return NodeEnd::from(why),
    };
    let end = run_over(alloc, order, &mut over, disk, clock, sheet, reporter);
    let _port = over.into_inner();
    end
}

/// Runs a node over a port that it has for itself.
fn run_over<P: Port, D: Disk, C: Clock, O: Sink, R: Reporter>(
    alloc: Global,
    order: &NodeOrder,
    port: &mut P,
    disk: &mut D,
    clock: &mut C,
    sheet: &mut O,
    reporter: &mut R,
) -> NodeEnd
    ensures runs { let at = devices_of D.meaning P.meaning C.readings O.written O.faults in
        Runs order.now (at disk.old port.old clock.old sheet.old) (at disk.new port.new clock.new sheet.new) result }
    ensures too_long { (P.meaning port.new).too_long ≡ (P.meaning port.old).too_long }
    ensures framing { (P.meaning port.new).framing ≡ (P.meaning port.old).framing }
    ensures borrowed_as { (P.meaning port.new).borrowed_as ≡ (P.meaning port.old).borrowed_as }
{
    logs_are_one();
    if let Err(why) = claim(alloc, disk, order.cluster) {
        return NodeEnd::from(why);
    }
    match Shell::boot(alloc, order.me, order.n, &order.peers, &mut *disk) {
        Ok(booted) => {
            let Booted {
                mut shell,
                bodies,
                lines: _lines,
                size: _,
            } = booted;
            reporter.booted(held_in(&bodies, &shell));
            let ended = run_shell(
                alloc, order, &bodies, &mut shell, port, clock, sheet, reporter,
            );
            let _disk = shell.into_disk();
            end_of(ended)
        }
        Err((why, _disk)) => NodeEnd::from(why),
    }
}

fn end_of(ended: Result<(), NodeError>) -> NodeEnd
    requires { IsErrOf ended NodeError.Failed → ⊥ }
    ensures { result ≡ end_of ended }
{
    match ended {
        Ok(()) => NodeEnd::Done,
        Err(NodeError::PortFault) => NodeEnd::PortFault,
        Err(NodeError::DiskFault) => NodeEnd::DiskFault,
        Err(NodeError::LogFull) => NodeEnd::LogFull,
        Err(NodeError::WriteFault) => NodeEnd::WriteFault,
        Err(NodeError::NoMemory) => NodeEnd::NoMemory,
        // A booted shell has not failed.
        Err(NodeError::Failed) => unreachable!(),
    }
}

/// Writes the first lines of the sheet, and takes all turns.
fn run_shell<P: Port, D: Disk, C: Clock, O: Sink, R: Reporter>(
    alloc: Global,
    order: &NodeOrder,
    bodies: &Bodies,
    shell: &mut Shell<D>,
    port: &mut P,
    clock: &mut C,
    sheet: &mut O,
    reporter: &mut R,
) -> Result<(), NodeError>
    requires idle { pending_of shell.old ≡ 0 }
    requires well { has_failed shell.old ≡ false }
    ensures runs { (r : Replica) → ShellStands shell.old (D.meaning (disk_of shell.old)) r.log r [] → order.now.me ≡ r.me →
        RunsShell D.meaning P.meaning C.readings O.written O.faults shell.old shell.new port.old port.new clock.old clock.new sheet.old sheet.new bodies.now r order.now.turns result }
    ensures went { IsErrOf result NodeError.Failed → ⊥ }
{
    write_opening(alloc, bodies, sheet)?;
    let mut detector = Detector::new(order.me);
    serve(
        alloc,
        shell,
        &mut detector,
        clock,
        port,
        sheet,
        reporter,
        order.turns,
    )
}
