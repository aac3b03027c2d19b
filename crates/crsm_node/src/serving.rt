//! The turns of a node, one after another.

ghost use Rattle.std.specs.Prelude.{◌≡◌, ◌≢◌, ◌⊎◌, ◌<◌, ◌≤◌, ◌↔◌, true, false, IsErrOf};
ghost use Rattle.crsm_shell.specs.Words.{disk_of, has_failed, pending_of};
ghost use Rattle.crsm_node.specs.Devices.{WhereIdle, node_of};
ghost use Rattle.crsm_node.specs.Serving.{Serves};

use crate::errors::NodeError;
use crate::keep::keep_group;
use crate::pending::PendingTurns;
use crate::report::Reporter;
use crate::take::{MOST_PENDING, take_turn};
use crsm_clock::Clock;
use crsm_disk::Disk;
use crsm_io::Sink;
use crsm_port::Port;
use crsm_replica_detector::Detector;
use crsm_shell::Shell;
use std::alloc::Global;

/// Takes `turns` turns, each with the input that the detector wants, and flushes them in groups: a group ends with a
/// turn that took no datagram, with 256 turns, or with the last turn. Once a group is durable its datagrams are sent,
/// and then its lines are written. The reporter receives each turn, and each group once it is durable. No step may be
/// pending at the call, and the detector is that of the same replica.
///
/// # Errors
/// After `PortFault` and `WriteFault` the shell and the detector can continue: all turns taken are durable. After the
/// others the turns of the last group are lost, except after `DiskFault`, which leaves all of them or none, and none of
/// their datagrams was sent. `Failed` if the shell had failed before; nothing is done then.
pub fn serve<C: Clock, P: Port, D: Disk, O: Sink, R: Reporter>(
    alloc: Global,
    shell: &mut Shell<D>,
    detector: &mut Detector,
    clock: &mut C,
    port: &mut P,
    sheet: &mut O,
    reporter: &mut R,
    turns: u64,
) -> Result<(), NodeError>
    requires { pending_of shell.old ≡ 0 }

    // What it took, made durable, sent and wrote, for the replica that it stands for with no step pending.
    ensures serves { let node = node_of D.meaning P.meaning C.readings O.written O.faults in
        WhereIdle (node shell.old detector.old port.old clock.old sheet.old) (λ r w.
        Serves r w turns (node shell.old detector.old port.old clock.old sheet.old) (node shell.new detector.new port.new clock.new sheet.new) result) }

    // A shell that had failed does nothing.
    ensures failed { IsErrOf result NodeError.Failed ↔ (has_failed shell.old ≡ true) }
    ensures nothing { has_failed shell.old ≡ true → (shell.new ≡ shell.old) × (port.new ≡ port.old) × (clock.new ≡ clock.old) × (sheet.new ≡ sheet.old) × (detector.new ≡ detector.old) }
{
    if shell.failed() {
        return Err(NodeError::Failed);
    }
    let mut pending = PendingTurns::new(alloc);
    for turn in 0..turns {
        match take_turn(shell, detector, clock, port, &mut pending, reporter) {
            Ok(took_datagram) => {
                let left = turns - turn - 1;
                if ends_group(took_datagram, left, shell.pending()) {
                    keep_group(shell, port, sheet, &mut pending, reporter)?;
                }
            }
            Err(why) => {
                if why.is_port_fault() && shell.pending() > 0 {
                    keep_group(shell, port, sheet, &mut pending, reporter)?;
                }
                return Err(why);
            }
        }
    }
    Ok(())
}

/// Returns whether a group ends after a turn, with `left` turns left and `pending` pending.
fn ends_group(took_datagram: bool, left: u64, pending: u32) -> bool
    ensures yes { result ≡ true → (took_datagram ≡ false) ⊎ ((left ≡ 0) ⊎ (256 ≤ pending)) }
    ensures no { result ≡ false → (took_datagram ≡ true) × (left ≢ 0) × (pending < 256) }
{
    !took_datagram || left == 0 || pending >= MOST_PENDING
}
