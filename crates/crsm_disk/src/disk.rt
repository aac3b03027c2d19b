//! The trait of a disk, with a contract of what a crash may leave.

ghost use Rattle.std.specs.Prelude.{◌≡◌, ◌+◌, ◌-◌, ◌≤◌, length, take, IsTrue, IfOk, OnOk, is_ok, Some, if◌then◌else◌, slice_index};
ghost use Rattle.crsm_port_image.specs.Bytes.{overwritten, Torn, Shortened, ReadsAt};
ghost use Rattle.crsm_port_image.specs.Calls.{wrote, cut, synced, noted};
ghost use Rattle.crsm_disk.specs.Contract.{Answers, Arms, Goes, Renews, Reserves};
ghost use Rattle.crsm_disk.specs.Meaning.{Meaning, Only, Same};

use crsm_base::{Failed, NoMemory};

/// A durable array of bytes. `Failed` is returned only if the disk's fault counter rose. Offsets and lengths are in
/// bytes.
pub trait Disk {
    ghost meaning: { Self → Meaning };

    /// Returns the length in bytes.
    fn len(&mut self) -> Result<u64, Failed>
        ensures length { IsTrue (meaning self.old).honest → IfOk result (λ n. n ≡ length (meaning self.old).seen) }
        ensures same { Same (meaning self.old) (meaning self.new) }
        ensures answer { Answers 0 0 (meaning self.old) (meaning self.new) result };

    /// Reads as many bytes from offset `at` on as there are and fit in `buf`, and returns their number.
    fn read_at(&mut self, at: u64, buf: &mut [u8]) -> Result<usize, Failed>
        ensures bound { IfOk result (λ n. n ≤ length buf.old) }
        ensures bytes { IsTrue (meaning self.old).honest → IfOk result (ReadsAt (meaning self.old).seen at buf.old buf.new) }
        ensures same { Same (meaning self.old) (meaning self.new) }
        ensures answer { Answers 0 0 (meaning self.old) (meaning self.new) result };

    /// Writes bytes from offset `at` on, over what is there and past the end. Until the next sync a crash may leave any
    /// bytes in this range.
    fn write_at(&mut self, at: u64, bytes: &[u8]) -> Result<(), Failed>
        ensures written { IsTrue (meaning self.old).honest → OnOk result ((meaning self.new).seen ≡ overwritten (meaning self.old).seen at bytes.now) }
        ensures crash { IsTrue (meaning self.old).honest → Goes (Torn at (length bytes.now)) (meaning self.old) (meaning self.new) }
        ensures told { (meaning self.new).history ≡ (if is_ok result then noted (wrote at bytes.now) (meaning self.old).history else (meaning self.old).history) }
        ensures answer { Answers 1 ((at - length (meaning self.old).seen) + length bytes.now) (meaning self.old) (meaning self.new) result };

    /// Cuts the disk to `len` bytes if it is longer.
    fn cut(&mut self, len: u64) -> Result<(), Failed>
        ensures shorter { IsTrue (meaning self.old).honest → OnOk result ((meaning self.new).seen ≡ take len (meaning self.old).seen) }
        ensures crash { IsTrue (meaning self.old).honest → Goes (Shortened len) (meaning self.old) (meaning self.new) }
        ensures told { (meaning self.new).history ≡ (if is_ok result then noted (cut len) (meaning self.old).history else (meaning self.old).history) }
        ensures answer { Answers 1 0 (meaning self.old) (meaning self.new) result };

    /// Syncs: from then on a crash leaves what a read returns.
    fn sync(&mut self) -> Result<(), Failed>
        ensures durable { IsTrue (meaning self.old).honest → OnOk result (Only (meaning self.old).seen (meaning self.new).may_leave) }
        ensures seen { IsTrue (meaning self.old).honest → (meaning self.new).seen ≡ (meaning self.old).seen }
        ensures crash { IsTrue (meaning self.old).honest → Goes (λ d c. c ≡ d) (meaning self.old) (meaning self.new) }
        ensures told { (meaning self.new).history ≡ (if is_ok result then noted synced (meaning self.old).history else (meaning self.old).history) }
        ensures answer { Answers 1 0 (meaning self.old) (meaning self.new) result };

    /// Makes a byte last that a read returned at offset `at`, whatever became of earlier syncs. Where one failed, a system
    /// may show bytes that the disk does not have and take them for written, so that later syncs succeed without them. On
    /// an honest disk there are no such bytes, and this is no call that counts.
    fn renew(&mut self, at: u64, byte: u8) -> Result<(), Failed>
        requires { IsTrue (meaning self.old).honest → slice_index (meaning self.old).seen at ≡ byte }
        ensures { Renews (Some at) (meaning self.old) (meaning self.new) result };

    /// Reserves memory for `calls` writes, cuts and syncs of `bytes` written bytes together, on a disk that keeps them.
    /// A write past the end also uses room for the gap. `NoMemory` if memory runs out.
    fn reserve(&mut self, calls: u64, bytes: u64) -> Result<(), NoMemory>
        ensures { Reserves calls bytes (meaning self.old) (meaning self.new) result };

    /// Makes a disk that can be stopped fail after `stop` further calls (`None`: never). Its image then has the byte
    /// `fill` in all ranges that were not synced.
    fn arm(&mut self, stop: Option<u64>, fill: u8)
        ensures { Arms stop fill (meaning self.old) (meaning self.new) };
}

impl<D: Disk> Disk for &mut D {
    ghost meaning = { λ d. record (D.meaning d.now) { borrowed_as = Some d.ghost_name } };

    fn len(&mut self) -> Result<u64, Failed> {
        (**self).len()
    }

    fn read_at(&mut self, at: u64, buf: &mut [u8]) -> Result<usize, Failed> {
        (**self).read_at(at, buf)
    }

    fn write_at(&mut self, at: u64, bytes: &[u8]) -> Result<(), Failed> {
        (**self).write_at(at, bytes)
    }

    fn cut(&mut self, len: u64) -> Result<(), Failed> {
        (**self).cut(len)
    }

    fn sync(&mut self) -> Result<(), Failed> {
        (**self).sync()
    }

    fn renew(&mut self, at: u64, byte: u8) -> Result<(), Failed> {
        (**self).renew(at, byte)
    }

    fn reserve(&mut self, calls: u64, bytes: u64) -> Result<(), NoMemory> {
        (**self).reserve(calls, bytes)
    }

    fn arm(&mut self, stop: Option<u64>, fill: u8) {
        (**self).arm(stop, fill)
    }
}
