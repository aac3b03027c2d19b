//! Readers of a shell, and of its disk.

ghost use Rattle.std.specs.Prelude.{◌≡◌, length, false, Some};
ghost use Rattle.crsm_disk.specs.Contract.{Arms};
ghost use Rattle.crsm_disk.specs.Meaning.{Only};
ghost use Rattle.crsm_port_image.specs.Image.{image_of};
ghost use Rattle.crsm_ledger.specs.Ledger.{LedgerStands};
ghost use Rattle.crsm_shell.specs.Shell.{HasLog, ShellStands, WhereHistory, WhereHonest, WhereStands};
ghost use Rattle.crsm_shell.specs.Taking.{most_received};
ghost use Rattle.crsm_shell.specs.Words.{buffer_of, disk_of, gate_of, peers_of, pending_of, has_failed};

use crate::shell::Shell;
use crsm_disk::Disk;
use crsm_ledger::Ledger;
use crsm_log::stop_keeps;

impl<D: Disk> Shell<D> {
    /// Returns the number of pending steps.
    #[tactic(auto, unfolding(crate::specs::Shell::ShellStands))]
    pub fn pending(&self) -> u32
        ensures value { result ≡ pending_of self.now }
        ensures steps { WhereStands D.meaning self.now (λ kept r steps. result ≡ length steps) }
    {
        self.pending
    }

    /// Returns whether the disk failed, the log was full or memory ran out.
    #[tactic(auto, unfolding(crate::specs::Shell::ShellStands))]
    pub fn failed(&self) -> bool
        ensures value { result ≡ has_failed self.now }
        ensures well { WhereStands D.meaning self.now (λ kept r steps. result ≡ false) }
    {
        self.failed
    }

    /// Returns the receive buffer of 8,192 bytes. The datagram taken last is its prefix, of the length in its
    /// `ReceivedInput`.
    pub fn buffer(&self) -> &[u8]
        ensures value { result.now ≡ buffer_of self.now }
        ensures room { length result.now ≡ most_received }
    {
        self.buffer.as_slice()
    }

    /// Returns the ledger: the state after all records, those of the pending steps included.
    #[tactic(auto, unfolding(crate::specs::Shell::ShellStands))]
    pub fn state(&self) -> &Ledger
        ensures { WhereStands D.meaning self.now (λ kept r steps. LedgerStands r.me r.n result.now r.log) }
    {
        self.core.ledger()
    }

    /// Makes a disk that can be stopped fail after `stop` further calls (`None`: never). Its image then has the byte
    /// `fill` in all ranges that were not synced.
    #[tactic(auto, unfolding(crate::specs::Shell::ShellStands))]
    pub fn arm(&mut self, stop: Option<u64>, fill: u8)
        ensures armed { Arms stop fill (D.meaning (disk_of self.old)) (D.meaning (disk_of self.new)) }
        ensures stands { WhereStands D.meaning self.old (λ kept r steps. ShellStands self.new (D.meaning (disk_of self.new)) kept r steps) }
        ensures gate { gate_of self.new ≡ gate_of self.old }
        ensures peers { peers_of self.new ≡ peers_of self.old }
        ensures pending { pending_of self.new ≡ pending_of self.old }
        ensures failed { has_failed self.new ≡ has_failed self.old }
    {
        self.log.arm(stop, fill);
    }

    /// Returns the disk as the last call left it. The pending steps are lost.
    #[tactic(auto, unfolding(crate::specs::Shell::ShellStands))]
    pub fn into_disk(self) -> D
        ensures disk { result ≡ disk_of self }

        // The durable log is on it, whatever a crash leaves.
        ensures file { WhereHonest D.meaning self (λ kept r steps. HasLog r.me r.n (D.meaning result).seen kept) }
        ensures durable { WhereHonest D.meaning self (λ kept r steps. Only (D.meaning result).seen (D.meaning result).may_leave) }
        ensures image { WhereHistory D.meaning self (λ kept r steps h fill. (D.meaning result).history ≡ Some h → HasLog r.me r.n (image_of h.first h.calls fill) kept) }
    {
        stop_keeps();
        self.log.into_disk()
    }
}
