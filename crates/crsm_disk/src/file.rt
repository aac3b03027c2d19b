//! A file of the system as a disk. Contracts say nothing of the bytes that it holds.

ghost use Rattle.std.specs.Prelude.{◌≡◌, ◌≤◌, length, IfOk, OnOk, Some, false};
ghost use Rattle.crsm_disk.specs.Unknown.{unknown};

use crate::Disk;
use crsm_base::{Failed, NoMemory};
use crsm_port_faults::raised_by;
use std::fs::{File, Files, OpenOptions, TryLockError};
use std::io;
use std::io::ErrorKind;
use std::os::unix::fs::FileExt;
use thiserror::Error;

/// The reason why a file could not be opened as a disk.
#[derive(Debug, Drop, Error)]
pub enum OpenError {
    /// Another disk has the file open, in this process or another.
    #[error("the file is in use by another process")]
    InUse,
    #[error("{0}")]
    Io(io::Error),
}

impl From<io::Error> for OpenError {
    fn from(error: io::Error) -> Self {
        OpenError::Io(error)
    }
}

// The bytes that a file grows by, a multiple of those of one write.
const AHEAD: u64 = 1 << 22;

const PIECE: u64 = 1 << 14;

/// A file of the system as a disk. It specifies what it counts and renews, and nothing else.
///
/// A sync of bytes past the end of a file waits for the file system's journal, a sync of overwritten bytes does not. So
/// a write past the end first puts zeros there, further than it goes itself, and syncs them: the file has bytes that
/// nobody wrote, and a crash may leave any bytes in their place. A write at the first byte puts none, since nothing
/// lasts yet that could say that what follows it is not to be read.
#[derive(Drop)]
pub struct FileDisk {
    file: File,
    folder: File,
    is_settled: bool,
    // Up to here no zeros are to be written: the file has bytes, or the file system has no room for zeros.
    room: u64,
    renewed: Option<u64>,
    faults: u64,
}

impl FileDisk {
    /// Opens the file with this name in the current folder, creates it if it is missing, and locks it until the disk is
    /// dropped. `InUse` if another disk has it locked; `Io` for any other error of the system.
    pub fn open<R: Files<File = File>>(files: &R, name: &str) -> Result<FileDisk, OpenError>
        ensures { IfOk result (λ d. d.faults ≡ 0) }
    {
        let file = OpenOptions::new()
            .read(true)
            .write(true)
            .create(true)
            .open(files, name)?;
        lock(&file)?;
        let folder = File::open(files, ".")?;
        Ok(FileDisk::new(file, folder))
    }

    /// Returns a disk over an open file, to be read and written, and the folder that contains it. It takes no lock.
    pub fn new(file: File, folder: File) -> FileDisk
        ensures { result.faults ≡ 0 }
    {
        FileDisk {
            file,
            folder,
            is_settled: false,
            room: 0,
            renewed: None,
            faults: 0,
        }
    }

    // Writes over bytes that the file has, but for the first byte and where the file system has no room for zeros.
    fn write_over(&mut self, at: u64, bytes: &[u8]) -> io::Result<()>
        ensures { self.new.faults ≡ self.old.faults }
    {
        let end = at.saturating_add(bytes.len() as u64);
        if at > 0 && end > self.room {
            self.make_room(end)?;
        }
        self.file.write_all_at(bytes, at)
    }

    // Gives the file bytes up to `end` and some more. Zeros that find no room are taken away again, and from then on
    // writes append.
    fn make_room(&mut self, end: u64) -> io::Result<()>
        ensures { self.new.faults ≡ self.old.faults }
    {
        let length = self.file.metadata()?.len();
        self.room = length;
        if end <= length {
            return Ok(());
        }
        let wanted = (end / AHEAD + 1).saturating_mul(AHEAD);
        let Err(error) = add_zeros(&self.file, length, wanted) else {
            self.room = wanted;
            return Ok(());
        };
        if !lacks_room(&error) {
            return Err(error);
        }
        self.is_settled = false;
        self.file.set_len(length)?;
        self.room = u64::MAX;
        Ok(())
    }

    // Writes a byte that is there, so that the system has to write its page, whatever it did before.
    fn write_again(&mut self, at: u64, byte: u8) -> io::Result<()>
        ensures renewed { OnOk result (self.new.renewed ≡ Some at) }
        ensures faults { self.new.faults ≡ self.old.faults }
    {
        self.file.write_all_at(&[byte], at)?;
        self.sync_with_name()?;
        self.renewed = Some(at);
        Ok(())
    }

    // The first sync, and the first after a cut, syncs all metadata and the folder that has the file's name. Later ones
    // sync the data and a length that grew with it, but not the file's times.
    fn sync_with_name(&mut self) -> io::Result<()>
        ensures { self.new.faults ≡ self.old.faults }
    {
        if self.is_settled {
            return self.file.sync_data();
        }
        self.file.sync_all()?;
        self.folder.sync_all()?;
        self.is_settled = true;
        Ok(())
    }
}

// Locks the whole file; the lock is released when its last handle is closed.
fn lock(file: &File) -> Result<(), OpenError> {
    match file.try_lock() {
        Ok(()) => Ok(()),
        Err(TryLockError::WouldBlock) => Err(OpenError::InUse),
        Err(TryLockError::Error(error)) => Err(OpenError::Io(error)),
    }
}

// Writes zeros from one offset to another, and syncs them.
fn add_zeros(file: &File, from: u64, to: u64) -> io::Result<()> {
    let zeros = [0u8; 16_384];
    for piece in from / PIECE..to / PIECE {
        let at = from.max(piece.saturating_mul(PIECE));
        let count = PIECE - at % PIECE;
        file.write_all_at(&zeros[..count as usize], at)?;
    }
    file.sync_data()
}

// Returns whether bytes could not be written since there is no room for them.
fn lacks_room(error: &io::Error) -> bool {
    matches!(
        error.kind(),
        ErrorKind::StorageFull | ErrorKind::QuotaExceeded | ErrorKind::FileTooLarge
    )
}

// Reads until the buffer is full or the file ends.
fn read_all(file: &File, at: u64, buf: &mut [u8]) -> io::Result<usize>
    ensures { IfOk result (λ n. n ≤ length buf.old) }
{
    let mut done = 0;
    for _ in 0..u64::MAX {
        let n = file.read_at(&mut buf[done..], at.saturating_add(done as u64))?;
        done += n;
        if n == 0 || done == buf.len() {
            break;
        }
    }
    Ok(done)
}

impl Disk for FileDisk {
    ghost meaning = { λ d. unknown d.faults d.renewed };

    fn len(&mut self) -> Result<u64, Failed> {
        let answer = self.file.metadata().map(|m| m.len());
        raised_by(&mut self.faults, answer)
    }

    fn read_at(&mut self, at: u64, buf: &mut [u8]) -> Result<usize, Failed> {
        let answer = read_all(&self.file, at, buf);
        raised_by(&mut self.faults, answer)
    }

    fn write_at(&mut self, at: u64, bytes: &[u8]) -> Result<(), Failed> {
        let answer = self.write_over(at, bytes);
        raised_by(&mut self.faults, answer)
    }

    fn cut(&mut self, len: u64) -> Result<(), Failed> {
        self.is_settled = false;
        self.room = 0;
        let answer = self.file.set_len(len);
        raised_by(&mut self.faults, answer)
    }

    fn sync(&mut self) -> Result<(), Failed> {
        let answer = self.sync_with_name();
        raised_by(&mut self.faults, answer)
    }

    fn renew(&mut self, at: u64, byte: u8) -> Result<(), Failed> {
        let answer = self.write_again(at, byte);
        raised_by(&mut self.faults, answer)
    }

    fn reserve(&mut self, _calls: u64, _bytes: u64) -> Result<(), NoMemory> {
        Ok(())
    }

    fn arm(&mut self, _stop: Option<u64>, _fill: u8) {}
}
