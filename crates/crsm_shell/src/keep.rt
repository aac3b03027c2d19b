//! The put of records into the log.

ghost use Rattle.std.specs.Prelude.{◌≡◌, [], false, IfErr, OnErr, OnOk};
ghost use Rattle.crsm_log.specs.Words as logs;
ghost use Rattle.crsm_shell.specs.Flushing.{KeptWell, NotKept};

use crate::errors::TurnError;
use crsm_disk::Disk;
use crsm_log::{Log, stop_keeps};
use std::alloc::Global;

/// Puts the records of a group into the log as one body; if there is none, the disk is not called.
pub(crate) fn keep<D: Disk>(log: &mut Log<D>, alloc: Global, body: &[u8]) -> Result<(), TurnError>
    requires { logs.has_failed log.old ≡ false }
    ensures well { OnOk result (logs.has_failed log.new ≡ false) }
    ensures quiet { body.now ≡ [] → log.new ≡ log.old }
    ensures kept { OnOk result (KeptWell (logs.gate_of log.old) body.now (D.meaning (logs.disk_of log.old)) (D.meaning (logs.disk_of log.new))) }
    ensures not_kept { IfErr result (λ why. NotKept why (logs.gate_of log.old) body.now (D.meaning (logs.disk_of log.old)) (D.meaning (logs.disk_of log.new))) }
{
    if body.is_empty() {
        return Ok(());
    }
    stop_keeps();
    match log.put(alloc, body) {
        Ok(()) => Ok(()),
        Err(why) => Err(TurnError::from(why)),
    }
}
