//! The run of a node that is killed.

ghost use Rattle.std.specs.Prelude.{◌≡◌, ◌+◌};
ghost use Rattle.crsm_node.specs.Running.{devices_of};
ghost use Rattle.crsm_law_killed.specs.Calls.{DiskCall, PortCall, SinkCall};
ghost use Rattle.crsm_law_killed.specs.Handed.{FewMake, IsMadeOf};
ghost use Rattle.crsm_law_killed.specs.Stopping.{RunsUntilKilled};

use crate::calls::Start;
use crate::disk::StoppingDisk;
use crate::port::StoppingPort;
use crate::refused::Refused;
use crate::sheet::StoppingSink;
use crsm_clock::Clock;
use crsm_disk::Disk;
use crsm_io::Sink;
use crsm_node::{NodeEnd, NodeOrder, Silent, run_node};
use crsm_port::Port;
use std::alloc::Global;
use std::marker::Brand;

/// How many calls of each device a node makes before it is killed. Each call of the device's trait counts.
#[derive(Clone, Copy, Debug)]
pub struct Calls {
    pub disk: u64,
    pub port: u64,
    pub sheet: u64,
}

/// The devices as the killed node left them, and how its run over devices that stop there ends: how many calls these
/// refused, and what it says.
#[derive(Drop)]
pub struct Left<P, D, C, O> {
    pub port: P,
    pub disk: D,
    pub clock: C,
    pub sheet: O,
    pub refused: Refused,
    pub end: NodeEnd,
}

/// Runs a node that is killed once it has made these calls. Each device is what at most so many calls made of it, and
/// what they may make of it is what the contract of every run says, where refused calls are faults. None is refused
/// before all of these are made. A process that is killed makes the calls that are made here, in their order, since it
/// runs the same code and is answered the same, and no others. The clock is not stopped.
pub fn run_until_killed<P: Port, D: Disk, C: Clock, O: Sink>(
    alloc: Global,
    order: &NodeOrder,
    calls: Calls,
    port: P,
    disk: D,
    clock: C,
    sheet: O,
) -> Left<P, D, C, O>
    ensures ran { let at = devices_of D.meaning P.meaning C.readings O.written O.faults in
        RunsUntilKilled order.now result.refused (at disk port clock sheet) (at result.disk result.port result.clock result.sheet) result.end }
    ensures disk { ∥ FewMake (DiskCall D.meaning) calls.disk result.refused.disk disk result.disk ∥₁ }
    ensures port { ∥ FewMake (PortCall P.meaning P.gives P.may_send) calls.port (result.refused.receives + result.refused.sends) port result.port ∥₁ }
    ensures sheet { ∥ FewMake (SinkCall O.written O.faults) calls.sheet result.refused.sheet sheet result.sheet ∥₁ }
{
    run_stopping::<P, D, C, O, Brand, Brand, Brand>(alloc, order, calls, port, disk, clock, sheet)
}

/// Runs a node over devices that stop after so many calls. `KP`, `KD` and `KO` name these devices and numbers.
fn run_stopping<P: Port, D: Disk, C: Clock, O: Sink, KP: Start<P>, KD: Start<D>, KO: Start<O>>(
    alloc: Global,
    order: &NodeOrder,
    calls: Calls,
    port: P,
    disk: D,
    clock: C,
    sheet: O,
) -> Left<P, D, C, O>
    requires disk { KD.is_first disk × (calls.disk ≡ KD.calls) }
    requires port { KP.is_first port × (calls.port ≡ KP.calls) }
    requires sheet { KO.is_first sheet × (calls.sheet ≡ KO.calls) }
    ensures ran { let at = devices_of D.meaning P.meaning C.readings O.written O.faults in
        RunsUntilKilled order.now result.refused (at disk port clock sheet) (at result.disk result.port result.clock result.sheet) result.end }
    ensures disk { ∥ IsMadeOf (DiskCall D.meaning) KD.is_first KD.calls result.refused.disk result.disk ∥₁ }
    ensures port { ∥ IsMadeOf (PortCall P.meaning P.gives P.may_send) KP.is_first KP.calls (result.refused.receives + result.refused.sends) result.port ∥₁ }
    ensures sheet { ∥ IsMadeOf (SinkCall O.written O.faults) KO.is_first KO.calls result.refused.sheet result.sheet ∥₁ }
{
    let port = StoppingPort::<P, KP>::new(port, calls.port);
    let disk = StoppingDisk::<D, KD>::new(disk, calls.disk);
    let sheet = StoppingSink::<O, KO>::new(sheet, calls.sheet);
    run_over(alloc, order, port, disk, clock, sheet)
}

/// Runs a node over these devices, none of which has refused a call.
fn run_over<P: Port, D: Disk, C: Clock, O: Sink, KP: Start<P>, KD: Start<D>, KO: Start<O>>(
    alloc: Global,
    order: &NodeOrder,
    mut port: StoppingPort<P, KP>,
    mut disk: StoppingDisk<D, KD>,
    mut clock: C,
    mut sheet: StoppingSink<O, KO>,
) -> Left<P, D, C, O>
    requires disk { (disk.refused ≡ 0) × (disk.renewed ≡ None) }
    requires others { (port.receives ≡ 0) × (port.sends ≡ 0) × (sheet.refused ≡ 0) }
    ensures ran { let at = devices_of D.meaning P.meaning C.readings O.written O.faults in
        RunsUntilKilled order.now result.refused (at disk.inner port.inner clock sheet.inner) (at result.disk result.port result.clock result.sheet) result.end }
    ensures disk { ∥ IsMadeOf (DiskCall D.meaning) KD.is_first KD.calls result.refused.disk result.disk ∥₁ }
    ensures port { ∥ IsMadeOf (PortCall P.meaning P.gives P.may_send) KP.is_first KP.calls (result.refused.receives + result.refused.sends) result.port ∥₁ }
    ensures sheet { ∥ IsMadeOf (SinkCall O.written O.faults) KO.is_first KO.calls result.refused.sheet result.sheet ∥₁ }
{
    let end = run_node(
        alloc,
        order,
        &mut port,
        &mut disk,
        &mut clock,
        &mut sheet,
        &mut Silent,
    );
    let refused = refusals(&port, &disk, &sheet);
    Left {
        port: port.into_inner(),
        disk: disk.into_inner(),
        clock,
        sheet: sheet.into_inner(),
        refused,
        end,
    }
}

/// Returns how many calls these devices refused.
fn refusals<P: Port, D: Disk, O: Sink, KP: Start<P>, KD: Start<D>, KO: Start<O>>(
    port: &StoppingPort<P, KP>,
    disk: &StoppingDisk<D, KD>,
    sheet: &StoppingSink<O, KO>,
) -> Refused
    ensures { result ≡ record { disk = disk.now.refused; receives = port.now.receives; sends = port.now.sends; sheet = sheet.now.refused } }
{
    Refused {
        disk: disk.refused(),
        receives: port.receives(),
        sends: port.sends(),
        sheet: sheet.refused(),
    }
}
