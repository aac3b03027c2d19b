//! The flush: the records of the pending steps become durable together, and then their datagrams are sent.

ghost use Rattle.std.specs.Prelude.{◌≡◌, ◌↔◌, [], true, is_err, IsErr, OnOk, OnErr, IsErrOf};
ghost use Rattle.crsm_port_faults.specs.Counts.{Rose};
ghost use Rattle.crsm_disk.specs.Meaning.{Same};
ghost use Rattle.crsm_log.specs.Log.{Goes};
ghost use Rattle.crsm_replica_io.specs.Outgoing.{packets_for};
ghost use Rattle.crsm_shell.specs.Flushing.{AddsGroup, CallsForGroup, IsFullFor, LeavesGroup, LeavesLogs, SendsNone, SendsPackets, SpendsForGroup, StopsGroup};
ghost use Rattle.crsm_shell.specs.Shell.{ShellStands, WhereHonest, WhereStands, records_of, sends_of};
ghost use Rattle.crsm_shell.specs.Words.{buffer_of, disk_of, peers_of, pending_of, has_failed};

use crate::errors::TurnError;
use crate::keep::keep;
use crate::shell::Shell;
use crsm_disk::Disk;
use crsm_port::Port;

impl<D: Disk> Shell<D> {
    /// Reserves memory on the port for the pending steps' datagrams, puts their records as one body into the log, and
    /// then sends, in order. If no pending step has a record, the disk is not called. A send that fails is a lost
    /// packet. After an error nothing was sent, and the shell has failed permanently.
    pub fn flush<P: Port>(&mut self, port: &mut P) -> Result<(), TurnError>
        // No step is pending any more, and the log on the disk is the replica's.
        ensures stands { WhereStands D.meaning self.old (λ kept r steps. OnOk result (ShellStands self.new (D.meaning (disk_of self.new)) r.log r [])) }
        ensures added { WhereHonest D.meaning self.old (λ kept r steps. OnOk result (AddsGroup D.meaning self.old self.new steps)) }
        ensures peers { peers_of self.new ≡ peers_of self.old }
        ensures buffer { buffer_of self.new ≡ buffer_of self.old }
        ensures none_left { OnOk result (pending_of self.new ≡ 0) }

        // The datagrams are sent once all is durable; and nothing else is.
        ensures sent { WhereStands D.meaning self.old (λ kept r steps.
            OnOk result (SendsPackets (packets_for (peers_of self.old) (sends_of steps)) (P.meaning port.old) (P.meaning port.new))) }
        ensures unsent { OnErr result (SendsNone (P.meaning port.old) (P.meaning port.new)) }

        // One body for all records, by the four calls of a put; no call if there is none.
        ensures calls { WhereStands D.meaning self.old (λ kept r steps. OnOk result (CallsForGroup D.meaning self.old self.new steps)) }
        ensures plan { WhereHonest D.meaning self.old (λ kept r steps. OnOk result (SpendsForGroup D.meaning self.old self.new steps)) }
        ensures quiet { WhereStands D.meaning self.old (λ kept r steps. records_of steps ≡ [] → disk_of self.new ≡ disk_of self.old) }
        ensures goes { Goes (D.meaning (disk_of self.old)) (D.meaning (disk_of self.new)) }

        // A crash at any moment leaves all batches of the group or none.
        ensures any_moment { WhereHonest D.meaning self.old (λ kept r steps. LeavesLogs D.meaning self.old self.new kept r) }
        ensures left { WhereHonest D.meaning self.old (λ kept r steps. LeavesGroup D.meaning self.old self.new steps) }

        // Which error comes, and when.
        ensures failed { IsErrOf result TurnError.Failed ↔ (has_failed self.old ≡ true) }
        ensures lasting { has_failed self.new ≡ is_err result }
        ensures no_port_fault { IsErrOf result TurnError.PortFault → ⊥ }
        ensures fault { IsErrOf result TurnError.DiskFault → Rose (D.meaning (disk_of self.old)).faults (D.meaning (disk_of self.new)).faults }
        ensures stopped { WhereStands D.meaning self.old (λ kept r steps. IsErrOf result TurnError.DiskFault → StopsGroup D.meaning self.old self.new kept r steps) }
        ensures unwritten { IsErr result → (IsErrOf result TurnError.DiskFault → ⊥) → Same (D.meaning (disk_of self.old)) (D.meaning (disk_of self.new)) }
        ensures full { WhereHonest D.meaning self.old (λ kept r steps. IsErrOf result TurnError.LogFull → IsFullFor D.meaning self.old steps) }
        ensures not_full { WhereHonest D.meaning self.old (λ kept r steps. IsFullFor D.meaning self.old steps → OnOk result ⊥ × (IsErrOf result TurnError.DiskFault → ⊥)) }
    {
        if self.failed {
            return Err(TurnError::Failed);
        }
        // A caller that sees an error below must not continue from half a flush.
        self.failed = true;
        self.outbox.make_room(port)?;
        keep(&mut self.log, self.alloc, self.body.as_slice())?;
        self.outbox.send_all(port);
        self.body.clear();
        self.outbox.clear();
        self.pending = 0;
        self.failed = false;
        Ok(())
    }
}
