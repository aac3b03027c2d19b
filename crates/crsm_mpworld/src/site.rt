//! The steps of one replica.

ghost use Rattle.std.specs.Prelude.{◌≡◌, ◌++◌, ◌∷◌, ◌<◌, ◌≤◌, ◌^◌, [], None, false, length, IfOk, OnOk};
ghost use Rattle.std.specs.List.{AllByRecursion};
ghost use Rattle.crsm_disk.specs.Memory.{good_left};
ghost use Rattle.crsm_log.specs.Format.{reading, found, bodies_of};
ghost use Rattle.crsm_log.specs.Words.{disk_of, has_failed};
ghost use Rattle.crsm_mpcore.specs.Core.{WhereCore};
ghost use Rattle.crsm_mpledger.specs.Sound.{IsSound, with_records};
ghost use Rattle.crsm_mpreplica.specs.Fitting.{FitsInput};
ghost use Rattle.crsm_mpspec.specs.Log.{Log as LogOnPaper, executed};
ghost use Rattle.crsm_mpspec.specs.Records.{FitsRec, body_bytes};
ghost use Rattle.crsm_mpspec.specs.Step as steps;
ghost use Rattle.crsm_mpspec.specs.World.{body_size};
ghost use Rattle.crsm_mpworld.specs.Disks.{IsDisk, bytes_of};
ghost use Rattle.crsm_mpworld.specs.Fits.{FitsSend};

use crate::place::{BootSize, Machine};
use crsm_base::{Bytes, NoMemory, never};
use crsm_disk::MemDisk;
use crsm_log::{Log, PutError};
use crsm_mpcore::MpCore;
use crsm_mpledger::put_body;
use crsm_mpspec::{MpBatch, MpInput, MpRec};
use std::alloc::Global;

/// The output of a step, and the length of its log body in bytes. The next step uses its memory.
#[derive(Drop)]
pub(crate) struct MpStep {
    pub(crate) batch: MpBatch,
    pub(crate) size: u64,
    ghost small: { size < 2 ^ 63 },
}

impl MpStep {
    /// Returns the step without output.
    pub(crate) fn new(alloc: Global) -> MpStep
        ensures { result.size ≡ 0 }
    {
        MpStep {
            batch: MpBatch::new(alloc),
            size: 0,
        }
    }
}

/// Makes the bytes the log body of records, in their own memory.
fn write_body(records: &[MpRec], body: &mut Bytes) -> Result<(), NoMemory>
    requires { AllByRecursion FitsRec records.now }
    ensures { OnOk result (body.new ≡ body_bytes records.now) }
{
    body.clear();
    put_body(records, body)?;
    Ok(())
}

/// Puts a body into a log on a disk whose calls do not fail.
fn keep(alloc: Global, log: &mut Log<MemDisk>, body: &[u8]) -> Result<(), NoMemory>
    requires some { 0 < length body.now }
    requires unfailed { has_failed log.old ≡ false }
    requires well { good_left (disk_of log.old) ≡ None }
    ensures unfailed { OnOk result (has_failed log.new ≡ false) }
    ensures well { OnOk result (good_left (disk_of log.new) ≡ None) }
    ensures kept { OnOk result (reading (bytes_of (disk_of log.new)) ≡ found (bodies_of (bytes_of (disk_of log.old)) ++ body.now ∷ [])) }
{
    match log.put(alloc, body) {
        Ok(()) => Ok(()),
        Err(PutError::DiskFault) => unreachable!(),
        Err(PutError::Failed) => unreachable!(),
        // A world is full long before a log is.
        Err(PutError::Full { .. }) => Err(never()),
        Err(PutError::NoMemory) => Err(NoMemory),
    }
}

/// Puts the records of a step into the log, if there are any, and returns their length in bytes. `body` lends its memory.
fn keep_records(
    alloc: Global,
    log: &mut Log<MemDisk>,
    records: &[MpRec],
    body: &mut Bytes,
) -> Result<u64, NoMemory>
    requires fit { AllByRecursion FitsRec records.now }
    requires unfailed { has_failed log.old ≡ false }
    requires well { good_left (disk_of log.old) ≡ None }
    ensures unfailed { OnOk result (has_failed log.new ≡ false) }
    ensures well { OnOk result (good_left (disk_of log.new) ≡ None) }
    ensures size { IfOk result (λ size. size ≡ body_size records.now) }
    ensures small { IfOk result (λ size. size < 2 ^ 63) }
    ensures kept { OnOk result ((kept : LogOnPaper) → IsDisk (disk_of log.old) kept → IsSound (with_records kept records.now) →
        IsDisk (disk_of log.new) (with_records kept records.now)) }
{
    if records.is_empty() {
        return Ok(0);
    }
    write_body(records, body)?;
    keep(alloc, log, body.as_slice())?;
    Ok(body.as_slice().len() as u64)
}

/// Returns the number of executed slots.
fn executed_by(core: &MpCore) -> u64
    ensures { WhereCore core.now (λ r. result ≡ length (executed r.log)) }
{
    core.ledger().executed_len()
}

impl Machine {
    ghost use Rattle.crsm_mpworld.specs.Sites.{Boots, IsAs, Makes, WhereAs};

    /// Returns the number of executed slots.
    pub(crate) fn executed_len(&self) -> u64
        ensures { WhereAs self.now (λ r. result ≡ length (executed r.log)) }
    {
        executed_by(&self.core)
    }

    /// Runs one step and makes its records durable. Its output replaces that in `made`.
    pub(crate) fn step(
        &mut self,
        input: &MpInput,
        from: u32,
        made: &mut MpStep,
    ) -> Result<(), NoMemory>
        requires { FitsInput input.now }
        ensures fits { OnOk result (AllByRecursion FitsSend made.new.batch.sends) }
        ensures steps { OnOk result (WhereAs self.old (λ r.
            Makes made.new (steps.step r input.now from) × IsAs self.new (steps.step r input.now from).replica)) }
    {
        if self.is_spent {
            return Err(NoMemory);
        }
        // A caller that sees an error below must not continue from half a step.
        self.is_spent = true;
        self.core.step(input, from, &mut made.batch)?;
        let size = keep_records(
            self.alloc,
            &mut self.log,
            made.batch.records.as_slice(),
            &mut self.body,
        )?;
        made.size = size;
        self.is_spent = false;
        Ok(())
    }

    /// Boots replica `me` of `n` on its log, which is not read: what the core holds beside it is lost.
    pub(crate) fn boot(&mut self, me: u32, n: u32) -> Result<BootSize, NoMemory>
        requires mine { me < n }
        requires most { n ≤ 15 }
        ensures { IfOk result (λ made. WhereAs self.old (λ r. Boots made me n r.log × IsAs self.new (steps.boot me n r.log).replica)) }
    {
        if self.is_spent {
            return Err(NoMemory);
        }
        // A caller that sees an error below must not continue from half a boot.
        self.is_spent = true;
        write_body(&[MpRec::Boot], &mut self.body)?;
        keep(self.alloc, &mut self.log, self.body.as_slice())?;
        self.core.boot(me, n);
        self.is_spent = false;
        Ok(BootSize {
            count: self.core.ledger().boots(),
            size: self.body.as_slice().len() as u64,
        })
    }
}
