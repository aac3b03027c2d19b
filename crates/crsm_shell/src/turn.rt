//! The turn: a step that is taken and flushed.

ghost use Rattle.std.specs.Prelude.{◌≡◌, ◌<◌, ◌↔◌, true, false, IfOk, IfErr, IsErr, IsErrOf, MatchResult};
ghost use Rattle.std.specs.List.{AllByRecursion};
ghost use Rattle.crsm_core.specs.Core.{FitsSent};
ghost use Rattle.crsm_port_faults.specs.Counts.{Rose};
ghost use Rattle.crsm_disk.specs.Meaning.{Same};
ghost use Rattle.crsm_log.specs.Log.{Goes};
ghost use Rattle.crsm_replica_io.specs.Input.{IsWithin};
ghost use Rattle.crsm_shell.specs.Errors.{is_lasting};
ghost use Rattle.crsm_shell.specs.Shell.{WhereStands};
ghost use Rattle.crsm_shell.specs.Taking.{Reads, heard_in, most_received, turn_of};
ghost use Rattle.crsm_shell.specs.Turning.{FailsOnPort, GoesOn, KeepsGroup, KeepsStep, Loses, TakesAndSends};
ghost use Rattle.crsm_shell.specs.Words.{buffer_of, disk_of, peers_of, pending_of, has_failed};

use crate::errors::TurnError;
use crate::shell::Shell;
use crate::turned::TurnResult;
use crsm_clock::Clock;
use crsm_disk::Disk;
use crsm_port::Port;
use crsm_replica_io::WantedInput;

impl<D: Disk> Shell<D> {
    /// Takes the wanted input, and flushes its step together with the pending ones. After `PortFault` nothing was put
    /// or sent, and the shell is unchanged; after any other error it has failed permanently: the input is lost, nothing
    /// was sent, and the disk has the records of all these steps or of none.
    pub fn turn<C: Clock, P: Port>(
        &mut self,
        what: WantedInput,
        clock: &mut C,
        port: &mut P,
    ) -> Result<TurnResult, TurnError>
        requires few { pending_of self.old < 256 }

        // The step of the definitions, durable with those before it.
        ensures stands { WhereStands D.meaning self.old (λ kept r steps. IfOk result (KeepsStep self.new (D.meaning (disk_of self.new)) r)) }
        ensures kept { WhereStands D.meaning self.old (λ kept r steps. IfOk result (KeepsGroup D.meaning self.old self.new kept r steps)) }
        ensures spelt { IfOk result (λ t. AllByRecursion FitsSent t.batch.sends) }
        ensures within { IfOk result (λ t. IsWithin most_received t.taken) }
        ensures received { IfOk result (λ t. t.received ≡ heard_in (turn_of (buffer_of self.new) t.taken)) }
        ensures peers { peers_of self.new ≡ peers_of self.old }

        // One reading, one input, and then the sends: none after an error.
        ensures clock { Reads (C.readings clock.old) (C.readings clock.new) result }
        ensures port { WhereStands D.meaning self.old (λ kept r steps.
            IfOk result (TakesAndSends self.old self.new what (P.meaning port.old) (P.meaning port.new) r steps)) }
        ensures unsent { IfErr result (FailsOnPort what (buffer_of self.new) (P.meaning port.old) (P.meaning port.new)) }
        ensures goes { Goes (D.meaning (disk_of self.old)) (D.meaning (disk_of self.new)) }

        // Which error comes, when, and what it leaves.
        ensures failed { IsErrOf result TurnError.Failed ↔ (has_failed self.old ≡ true) }
        ensures lasting { MatchResult result (λ _. has_failed self.new ≡ false) (λ why. has_failed self.new ≡ is_lasting why) }
        ensures usable { IsErrOf result TurnError.PortFault → WhereStands D.meaning self.old (GoesOn D.meaning self.old self.new) }
        ensures lost { IfErr result (Loses D.meaning self.old self.new what (C.readings clock.old) (C.readings clock.new) (P.meaning port.old) (P.meaning port.new)) }
        ensures fault { IsErrOf result TurnError.DiskFault → Rose (D.meaning (disk_of self.old)).faults (D.meaning (disk_of self.new)).faults }
        ensures unwritten { IsErr result → (IsErrOf result TurnError.DiskFault → ⊥) → Same (D.meaning (disk_of self.old)) (D.meaning (disk_of self.new)) }
    {
        let turned = self.take(what, clock, port)?;
        self.flush(port)?;
        Ok(turned)
    }
}
