//! The taking of a step.

ghost use Rattle.std.specs.Prelude.{◌≡◌, ◌<◌, ◌+◌, ◌++◌, ◌↔◌, true, false, length, is_err, IfOk, OnOk, IsErrOf, MatchResult};
ghost use Rattle.std.specs.List.{AllByRecursion};
ghost use Rattle.crsm_base.specs.Records.{FitsRec, body_bytes};
ghost use Rattle.crsm_core.specs.Core.{FitsSent};
ghost use Rattle.crsm_shell.specs.Shell.{ShellStands, WhereStands};
ghost use Rattle.crsm_shell.specs.Errors.{is_lasting};
ghost use Rattle.crsm_shell.specs.Taking.{AreBytes, IsTyped, MakesStep, Reads, Receives, Takes, TakesStep, heard_in, most_received, turn_of, step_at};
ghost use Rattle.crsm_replica_io.specs.Input.{IsWithin};
ghost use Rattle.crsm_replica_io.specs.Outgoing.{FitsSend, packets_for};
ghost use Rattle.crsm_shell.specs.Words.{buffer_of, disk_of, gate_of, peers_of, pending_of, has_failed};

use crate::errors::TurnError;
use crate::make::{StepResult, make};
use crate::shell::Shell;
use crate::turned::TurnResult;
use crsm_base::{Bytes, NoMemory};
use crsm_clock::Clock;
use crsm_disk::Disk;
use crsm_port::Port;
use crsm_replica_io::{Outbox, ReceivedInput, WantedInput, take_input, write_records};
use crsm_replica_output::Batch;

impl<D: Disk> Shell<D> {
    /// Takes the wanted input and runs its step. The clock is read after the input was received. The step is pending
    /// until it is flushed: its records are not durable yet, and nothing is sent. A receive becomes a tick if no
    /// datagram has arrived. After `PortFault` the shell is unchanged; after any other error it has failed permanently.
    pub fn take<C: Clock, P: Port>(
        &mut self,
        what: WantedInput,
        clock: &mut C,
        port: &mut P,
    ) -> Result<TurnResult, TurnError>
        requires few { pending_of self.old < 256 }

        // The step of the definitions, after the pending ones.
        ensures stands { WhereStands D.meaning self.old (λ kept r steps. IfOk result (TakesStep self.new (D.meaning (disk_of self.new)) kept r steps)) }
        ensures spelt { IfOk result (λ t. AllByRecursion FitsSent t.batch.sends) }
        ensures counted { OnOk result (pending_of self.new ≡ pending_of self.old + 1) }
        ensures within { IfOk result (λ t. IsWithin most_received t.taken) }
        ensures received { IfOk result (λ t. t.received ≡ heard_in (turn_of (buffer_of self.new) t.taken)) }

        // One reading; the input from the port, if any; the disk is not called.
        ensures clock { Reads (C.readings clock.old) (C.readings clock.new) result }
        ensures typed { IsTyped (buffer_of self.new) (C.readings clock.old) (C.readings clock.new) result }
        ensures port { Takes what (buffer_of self.new) (P.meaning port.old) (P.meaning port.new) result }
        ensures disk { disk_of self.new ≡ disk_of self.old }
        ensures gate { gate_of self.new ≡ gate_of self.old }
        ensures peers { peers_of self.new ≡ peers_of self.old }

        // `Failed` if and only if the shell had failed before. After a fault of the port it can continue, unchanged.
        ensures failed { IsErrOf result TurnError.Failed ↔ (has_failed self.old ≡ true) }
        ensures lasting { MatchResult result (λ _. has_failed self.new ≡ false) (λ why. has_failed self.new ≡ is_lasting why) }
        ensures usable { IsErrOf result TurnError.PortFault → WhereStands D.meaning self.old (λ kept r steps. ShellStands self.new (D.meaning (disk_of self.new)) kept r steps) }
    {
        if self.failed {
            return Err(TurnError::Failed);
        }
        let taken = match receive(what, port, &mut self.buffer) {
            Ok(taken) => taken,
            Err(why) => {
                self.failed = why.is_lasting();
                return Err(why);
            }
        };
        are_bytes(&self.buffer);
        // A receive may have waited: an earlier reading would be stale.
        let reading = clock.now();
        let Ok((made, size)) = self.step(&taken, reading) else {
            drop(taken);
            return Err(TurnError::NoMemory);
        };
        Ok(TurnResult {
            reading,
            taken,
            received: made.received,
            batch: made.batch,
            size,
        })
    }

    /// Runs the step of the input, and returns its result with the length in bytes of its records.
    fn step(&mut self, taken: &ReceivedInput, reading: u64) -> Result<(StepResult, u64), NoMemory>
        requires well { self.old.failed ≡ false }
        requires few { self.old.pending < 256 }
        requires within { IsWithin most_received taken.now }
        ensures stands { WhereStands D.meaning self.old (λ kept r steps. IfOk result (λ b. MakesStep self.new (D.meaning (disk_of self.new)) kept r steps (step_at (buffer_of self.new) taken.now reading r) b.0.batch b.1)) }
        ensures spelt { IfOk result (λ b. AllByRecursion FitsSent b.0.batch.sends) }
        ensures received { IfOk result (λ b. b.0.received ≡ heard_in (turn_of (buffer_of self.new) taken.now)) }
        ensures counted { OnOk result (self.new.pending ≡ self.old.pending + 1) }
        ensures log { self.new.log ≡ self.old.log }
        ensures peers { self.new.peers ≡ self.old.peers }
        ensures buffer { self.new.buffer ≡ self.old.buffer }
        ensures lasting { self.new.failed ≡ is_err result }
    {
        // A caller that sees an error below must not continue from half a step.
        self.failed = true;
        let made = make(self.alloc, &mut *self.core, taken, &self.buffer, reading)?;
        let Ok(size) = pend(&made.batch, &mut self.body, &mut self.outbox, &self.peers) else {
            drop(made);
            return Err(NoMemory);
        };
        self.pending += 1;
        self.failed = false;
        Ok((made, size))
    }
}

/// Appends the records and the datagrams of a step to those of the pending ones, and returns the length in bytes of its
/// records. `NoMemory` if memory runs out; some of them may then have been appended.
fn pend(
    batch: &Batch,
    body: &mut Bytes,
    outbox: &mut Outbox,
    peers: &[u64],
) -> Result<u64, NoMemory>
    requires records { AllByRecursion FitsRec batch.now.records }
    requires sends { AllByRecursion FitsSend batch.now.sends }
    ensures body { OnOk result (body.new ≡ body.old ++ body_bytes batch.now.records) }
    ensures outbox { OnOk result (outbox.new ≡ outbox.old ++ packets_for peers.now batch.now.sends) }
    ensures size { IfOk result (λ size. size ≡ length (body_bytes batch.now.records)) }
{
    let before = body.as_slice().len() as u64;
    write_records(batch.records.as_slice(), body)?;
    outbox.add(batch.sends.as_slice(), peers)?;
    Ok(body.as_slice().len() as u64 - before)
}

/// States that the bytes of a buffer are bytes. It runs no code.
fn are_bytes(buffer: &[u8])
    ensures { AreBytes buffer.now }
{}

/// Takes the wanted input.
fn receive<P: Port>(
    what: WantedInput,
    port: &mut P,
    buffer: &mut [u8],
) -> Result<ReceivedInput, TurnError>
    requires { length buffer.old ≡ most_received }
    ensures within { IfOk result (IsWithin most_received) }
    ensures taken { Receives what buffer.new (P.meaning port.old) (P.meaning port.new) result }
{
    let taken = take_input(what, port, buffer)?;
    Ok(taken)
}
