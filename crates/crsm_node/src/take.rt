//! The taking of one turn.

ghost use Rattle.std.specs.Prelude.{◌≡◌, ◌<◌, ◌↔◌, IsTrue, ◌∷◌, [], ℕ, List, true, false, is_err, IfOk, IfErr, OnOk, IsErrOf};
ghost use Rattle.crsm_spec.specs.Draft.{Draft};
ghost use Rattle.crsm_spec.specs.Log.{Log};
ghost use Rattle.crsm_spec.specs.Replica.{Replica};
ghost use Rattle.crsm_spec_process.specs.Groups.{IsDatagram};
ghost use Rattle.crsm_replica_detector.specs.Detector.{DetectorStands, WhereStands as WhereWatches};
ghost use Rattle.crsm_replica_detector.specs.Watching.{Watch};
ghost use Rattle.crsm_replica_detector.specs.Wished.{with_turn};
ghost use Rattle.crsm_replica_detector.specs.Watching.{heard_at};
ghost use Rattle.crsm_shell.specs.Shell.{WhereStands};
ghost use Rattle.crsm_shell.specs.Taking.{turn_of};
ghost use Rattle.crsm_shell.specs.Words.{disk_of, has_failed, peers_of, pending_of};
ghost use Rattle.crsm_node.specs.Steps.{FailsToTake, HasMembers, TakesTurn};

use crate::errors::NodeError;
use crate::pending::PendingTurns;
use crate::report::Reporter;
use crsm_clock::Clock;
use crsm_disk::Disk;
use crsm_port::Port;
use crsm_replica_detector::{Detector, inputs_are_wished, turns_are_watched};
use crsm_shell::{ReceivedInput, Shell, TurnResult, WantedInput};

/// Maximum number of turns in a group.
pub(crate) const MOST_PENDING: u32 = 256;

/// Takes the turn that the detector wants, reports it, and appends its line to those of the pending turns. Returns
/// whether it took a datagram.
pub(crate) fn take_turn<C: Clock, P: Port, D: Disk, R: Reporter>(
    shell: &mut Shell<D>,
    detector: &mut Detector,
    clock: &mut C,
    port: &mut P,
    pending: &mut PendingTurns,
    reporter: &mut R,
) -> Result<bool, NodeError>
    requires { pending_of shell.old < 256 }
    ensures took { WhereStands D.meaning shell.old (λ kept r steps. WhereWatches detector.old (λ me w. me ≡ r.me → IfOk result (λ is_datagram.
        TakesTurn shell.new (D.meaning (disk_of shell.new)) detector.new (C.readings clock.old) (C.readings clock.new) (P.meaning port.old) (P.meaning port.new) pending.old.lines pending.new.lines is_datagram kept r steps w))) }
    ensures failed { WhereStands D.meaning shell.old (λ kept r steps. WhereWatches detector.old (λ me w. me ≡ r.me → IfErr result
        (FailsToTake shell.new (D.meaning (disk_of shell.new)) detector.new (C.readings clock.old) (C.readings clock.new) (P.meaning port.old) (P.meaning port.new) pending.old.lines pending.new.lines kept r steps w))) }
    ensures disk { disk_of shell.new ≡ disk_of shell.old }
    ensures peers { peers_of shell.new ≡ peers_of shell.old }
    ensures usable { OnOk result (has_failed shell.new ≡ false) }
    ensures spared { IsErrOf result NodeError.PortFault → has_failed shell.new ≡ false }
    ensures had_failed { IsErrOf result NodeError.Failed → has_failed shell.old ≡ true }
{
    inputs_are_wished();
    turns_are_watched();
    let what = detector.next(shell.state())?;
    poll_soon(port, &what, pending);
    has_members(&what);
    let turned = shell.take(what, clock, port)?;
    note(detector, &turned);
    let took_datagram = is_datagram(&turned.taken);
    let buffer = shell.buffer();
    reporter.turned(&turned, datagram_in(&turned.taken, buffer), shell.state());
    pending.add(turned, buffer)?;
    Ok(took_datagram)
}

/// Returns the bytes of the datagram that was taken, a prefix of the buffer, or none.
fn datagram_in<'a>(taken: &ReceivedInput, buffer: &'a [u8]) -> &'a [u8] {
    match taken {
        ReceivedInput::Datagram { len, .. } if *len <= buffer.len() => &buffer[..*len],
        _ => &[],
    }
}

/// States that a suspicion has members.
fn has_members(what: &WantedInput)
    ensures { HasMembers what.now }
{
    match what {
        WantedInput::Suspect(members) => {
            let _members = members.as_slice();
        }
        WantedInput::Receive | WantedInput::Tick => {}
    }
}

/// Asks the port not to wait if others wait for pending records, which are to be flushed as soon as no datagram has
/// arrived.
fn poll_soon<P: Port>(port: &mut P, what: &WantedInput, pending: &PendingTurns)
    ensures { P.meaning port.new ≡ P.meaning port.old }
{
    if pending.has_record && matches!(what, WantedInput::Receive) {
        port.poll_soon();
    }
}

#[tactic(auto, unfolding(crsm_shell::specs::Taking::turn_of))]
fn is_datagram(taken: &ReceivedInput) -> bool
    ensures { (buffer : List ℕ) (reading : ℕ) → IsTrue result ↔ IsDatagram (turn_of buffer taken.now, reading) }
{
    match taken {
        ReceivedInput::Datagram { .. } => true,
        ReceivedInput::Tick => false,
        ReceivedInput::Suspect(_) => false,
    }
}

/// Records the reading of a turn and its input in the detector.
#[tactic(auto, unfolding(crsm_shell::specs::Taking::turn_of))]
fn note(detector: &mut Detector, turned: &TurnResult)
    ensures { WhereWatches detector.old (λ me w. (buffer : List ℕ) →
        DetectorStands detector.new me (with_turn (turn_of buffer turned.now.taken) (heard_at turned.now.received turned.now.reading w))) }
{
    detector.hear(turned.reading, turned.received);
    match turned.taken {
        ReceivedInput::Datagram { .. } => {}
        ReceivedInput::Tick => detector.ticked(),
        ReceivedInput::Suspect(_) => {}
    }
}
