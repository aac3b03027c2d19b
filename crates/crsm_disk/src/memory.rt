//! A disk in memory, which specifies all its calls and bytes.

ghost use Rattle.std.specs.Prelude.{◌≡◌, ◌≤◌, [], length, IfOk, OnOk, OnErr, Some};
ghost use Rattle.std.specs.Bool.{OnTrue, OnFalse};
ghost use Rattle.crsm_port_faults.specs.Counts.{raised, Rose};
ghost use Rattle.crsm_port_faults.specs.Failing.{IsNotEnd, good_of, least, one_less};
ghost use Rattle.crsm_port_image.specs.Calls.{contents, wrote, cut, synced};
ghost use Rattle.crsm_port_image.specs.Image.{IsImage};
ghost use Rattle.crsm_disk.specs.Memory.{good_left, holding, left_by_crash, meaning_of, room_for_write, with_call};

use crate::Disk;
use crate::content::{Range, copy, overwrite, paint};
use crate::past::{Note, Past};
use crsm_base::{Failed, NoMemory};
use crsm_port_faults::{Failures, raise};
use std::alloc::Global;
use std::marker::Model;

/// A disk in memory. It specifies its calls, fails at listed ones, and can be stopped.
pub struct MemDisk {
    alloc: Global,
    bytes: Vec<u8>,
    // The ranges written since the last sync.
    unsynced: Vec<Range>,
    past: Past,
    failures: Failures,
    stop: Option<u64>,
    fill: u8,
    faults: u64,
    // Both change with each call. Between them stands a field, so that they are not read as one right after they were
    // written as two, which would wait for the writes.
    room_calls: u64,
    renewed: Option<u64>,
    room_bytes: u64,
}

// Written by hand, it is one call for the crates above, which would prove a derived one again.
impl Drop for MemDisk {
    fn drop(self) {
        let MemDisk {
            alloc: _,
            bytes: _,
            unsynced: _,
            past: _,
            failures: _,
            stop: _,
            fill: _,
            faults: _,
            room_calls: _,
            room_bytes: _,
            renewed: _,
        } = self;
    }
}

impl Model for MemDisk {
    ghost use Rattle.crsm_disk.specs.Memory.{Memory};

    ghost Value = { Memory };

    ghost use Rattle.crsm_disk.specs.Inside.{memory_of, IsKept};

    ghost view = { memory_of };

    ghost invariant = { IsKept };
}

impl MemDisk {
    /// Returns an empty disk whose calls with the numbers in `fails`, from 1, fail, and which stops after `stop` calls.
    /// Its image has the byte `fill` in all ranges that were not synced. `NoMemory` if memory runs out.
    pub fn new(
        alloc: Global,
        fails: &[u64],
        stop: Option<u64>,
        fill: u8,
    ) -> Result<MemDisk, NoMemory>
        ensures { IfOk result (λ d. d ≡ holding [] fails.now stop fill) }
    {
        let bytes = Vec::new(alloc);
        let past = Past::before(&bytes);
        Ok(MemDisk {
            alloc,
            bytes,
            unsynced: Vec::new(alloc),
            past,
            failures: Failures::new(alloc, fails)?,
            stop,
            fill,
            faults: 0,
            room_calls: 0,
            room_bytes: 0,
            renewed: None,
        })
    }

    /// Returns the number of calls made: lengths, reads, writes, cuts and syncs.
    pub fn calls(&self) -> u64
        ensures { result ≡ self.now.failing.calls }
    {
        self.failures.calls()
    }

    /// Returns the bytes as they read.
    pub fn bytes(&self) -> &[u8]
        ensures { result.now ≡ contents self.now.first self.now.calls }
    {
        &self.bytes
    }

    /// Returns a new disk with what a crash may leave of this one: the same length, and `fill` in all ranges that were
    /// not synced. It has no failing calls and no stop. `NoMemory` if memory runs out.
    pub fn image(&self) -> Result<MemDisk, NoMemory>
        ensures one { IfOk result (λ d. IsImage self.now.first self.now.calls d.first) }
        ensures exact { IfOk result (λ d. d ≡ left_by_crash self.now) }
    {
        let alloc = self.alloc;
        let mut bytes = Vec::from_slice(alloc, &self.bytes)?;
        paint(&mut bytes, &self.unsynced, self.fill);
        let past = Past::before(&bytes);
        Ok(MemDisk {
            alloc,
            bytes,
            unsynced: Vec::new(alloc),
            past,
            failures: Failures::new(alloc, &[])?,
            stop: None,
            fill: self.fill,
            faults: 0,
            room_calls: 0,
            room_bytes: 0,
            renewed: None,
        })
    }

    /// Returns the same disk as `image`, in this disk's own memory and in time proportional to the unsynced bytes.
    pub fn into_image(self) -> Result<MemDisk, NoMemory>
        ensures one { IfOk result (λ d. IsImage self.first self.calls d.first) }
        ensures exact { IfOk result (λ d. d ≡ left_by_crash self) }
    {
        let mut disk = self;
        paint(&mut disk.bytes, &disk.unsynced, disk.fill);
        disk.unsynced.clear();
        disk.past = Past::before(&disk.bytes);
        disk.failures = Failures::new(disk.alloc, &[])?;
        disk.stop = None;
        disk.faults = 0;
        disk.room_calls = 0;
        disk.room_bytes = 0;
        disk.renewed = None;
        Ok(disk)
    }

    // Counts a call, and returns `Failed` if it is to fail.
    fn begin(&mut self) -> Result<(), Failed>
        ensures same { self.new ≡ record self.old { failing = self.new.failing; stop = self.new.stop; faults = self.new.faults } }
        ensures counted { self.new.failing ≡ record self.old.failing { calls = raised self.old.failing.calls } }
        ensures ok { OnOk result ((self.new.faults ≡ self.old.faults) × (good_left self.new ≡ one_less (good_left self.old)) × IsNotEnd (good_left self.old)) }
        ensures err { OnErr result ((self.old.faults ≤ self.new.faults) × Rose self.old.faults self.new.faults × (good_left self.old ≡ Some 0)) }
    {
        if goes_well(&mut self.failures, &mut self.stop) {
            return Ok(());
        }
        raise(&mut self.faults);
        Err(Failed)
    }

    // Returns `Failed` for a call beyond the reserved room.
    fn take_room(&mut self, at: u64, count: usize) -> Result<(), Failed>
        ensures ok { OnOk result ((self.new ≡ self.old) × (1 ≤ self.old.room_calls) × (room_for_write at count self.old ≤ self.old.room_bytes)) }
        ensures err { OnErr result ((self.new ≡ record self.old { faults = self.new.faults }) × (self.old.faults ≤ self.new.faults) × Rose self.old.faults self.new.faults) }
        ensures beyond { OnErr result (1 ≤ self.old.room_calls → room_for_write at count self.old ≤ self.old.room_bytes → ⊥) }
    {
        let hole = at.saturating_sub(self.bytes.len() as u64);
        if self.room_calls == 0 || hole > self.room_bytes || count as u64 > self.room_bytes - hole {
            raise(&mut self.faults);
            return Err(Failed);
        }
        Ok(())
    }

    // Writes the bytes and notes the call.
    fn put(&mut self, at: u64, bytes: &[u8])
        requires calls { 1 ≤ self.old.room_calls }
        requires bytes { room_for_write at (length bytes.now) self.old ≤ self.old.room_bytes }
        ensures { self.new ≡ with_call (wrote at bytes.now) (room_for_write at (length bytes.now) self.old) self.old }
    {
        let hole = at.saturating_sub(self.bytes.len() as u64);
        overwrite(&mut self.bytes, at as usize, bytes);
        self.unsynced.push_reserved(Range {
            at,
            count: bytes.len(),
        });
        self.past = self.past.with(&Note::Wrote { at, bytes });
        self.room_calls -= 1;
        self.room_bytes -= hole + bytes.len() as u64;
    }

    // Cuts the bytes and notes the call.
    fn shorten(&mut self, len: u64)
        requires { 1 ≤ self.old.room_calls }
        ensures { self.new ≡ with_call (cut len) 0 self.old }
    {
        self.bytes.truncate(len as usize);
        self.past = self.past.with(&Note::Cut { len });
        self.room_calls -= 1;
    }

    // Forgets the ranges that were not synced, and notes the call.
    fn settle(&mut self)
        requires { 1 ≤ self.old.room_calls }
        ensures { self.new ≡ with_call synced 0 self.old }
    {
        self.unsynced.clear();
        self.past = self.past.with(&Note::Synced);
        self.room_calls -= 1;
    }
}

// Counts a call, and returns whether it succeeds.
fn goes_well(failures: &mut Failures, stop: &mut Option<u64>) -> bool
    ensures counted { failures.new ≡ record failures.old { calls = raised failures.old.calls } }
    ensures well { OnTrue result ((least (good_of failures.new) stop.new ≡ one_less (least (good_of failures.old) stop.old))
        × IsNotEnd (least (good_of failures.old) stop.old)) }
    ensures ill { OnFalse result (least (good_of failures.old) stop.old ≡ Some 0) }
{
    let fails = failures.next_fails();
    match *stop {
        Some(0) => false,
        Some(n) => {
            *stop = Some(n - 1);
            !fails
        }
        None => !fails,
    }
}

impl Disk for MemDisk {
    ghost meaning = { meaning_of };

    fn len(&mut self) -> Result<u64, Failed> {
        self.begin()?;
        Ok(self.bytes.len() as u64)
    }

    fn read_at(&mut self, at: u64, buf: &mut [u8]) -> Result<usize, Failed> {
        self.begin()?;
        Ok(copy(&self.bytes, at, buf))
    }

    fn write_at(&mut self, at: u64, bytes: &[u8]) -> Result<(), Failed> {
        self.begin()?;
        self.take_room(at, bytes.len())?;
        self.put(at, bytes);
        Ok(())
    }

    fn cut(&mut self, len: u64) -> Result<(), Failed> {
        self.begin()?;
        self.take_room(0, 0)?;
        self.shorten(len);
        Ok(())
    }

    fn sync(&mut self) -> Result<(), Failed> {
        self.begin()?;
        self.take_room(0, 0)?;
        self.settle();
        Ok(())
    }

    fn renew(&mut self, at: u64, _byte: u8) -> Result<(), Failed> {
        self.renewed = Some(at);
        Ok(())
    }

    fn reserve(&mut self, calls: u64, bytes: u64) -> Result<(), NoMemory> {
        let calls = self.room_calls.max(calls);
        let bytes = self.room_bytes.max(bytes);
        self.unsynced.reserve(calls as usize)?;
        self.bytes.reserve(bytes as usize)?;
        self.room_calls = calls;
        self.room_bytes = bytes;
        Ok(())
    }

    fn arm(&mut self, stop: Option<u64>, fill: u8) {
        self.stop = stop;
        self.fill = fill;
    }
}
