//! The traits of byte sources and sinks.

ghost use Rattle.std.specs.Prelude.{◌≡◌, ℕ, ◌<◌, ◌≤◌, List, Option, length, IfOk, OnOk, OnErr};
ghost use Rattle.crsm_port_faults.specs.Counts.{Rose};
ghost use Rattle.crsm_io.specs.Streams.{Takes, Puts, PutsPrefix, AtEnd, prefix_of};

use crsm_base::Failed;

/// A source of bytes.
pub trait Source {
    /// The bytes still to be read, if the source specifies them.
    ghost left: { Self → Option (List ℕ) };

    /// The number of faults. It never falls, and stays at 2^64 - 1.
    ghost faults: { Self → ℕ };

    /// Reads bytes into a prefix of `buf`, and returns their number; 0 for a non-empty `buf` is the end of the input.
    /// `Failed` means that nothing was read and a fault was counted.
    fn read(&mut self, buf: &mut [u8]) -> Result<usize, Failed>
        ensures bound { IfOk result (λ n. n ≤ length buf.new) }
        ensures taken { Takes (left self.old) (left self.new) (prefix_of result buf.new) }
        ensures end { IfOk result (λ n. n ≡ 0 → 0 < length buf.new → AtEnd (left self.new)) }
        ensures later { faults self.old ≤ faults self.new }
        ensures rose { OnErr result (Rose (faults self.old) (faults self.new)) };
}

/// A sink of bytes.
pub trait Sink {
    /// The bytes that were written, if the sink specifies them.
    ghost written: { Self → Option (List ℕ) };

    /// The number of faults. It never falls, and stays at 2^64 - 1.
    ghost faults: { Self → ℕ };

    /// Writes a prefix of `piece`, and returns its length: at least 1 unless `piece` is empty. `Failed` means that
    /// nothing was written and a fault was counted.
    fn write(&mut self, piece: &[u8]) -> Result<usize, Failed>
        ensures bound { IfOk result (λ n. n ≤ length piece.now) }
        ensures some { IfOk result (λ n. 0 < length piece.now → 0 < n) }
        ensures put { Puts (written self.old) (written self.new) (prefix_of result piece.now) }
        ensures later { faults self.old ≤ faults self.new }
        ensures rose { OnErr result (Rose (faults self.old) (faults self.new)) };
}

/// Writes all of the bytes. `Failed` means that only a prefix of them was written.
pub fn put_all<S: Sink>(sink: &mut S, bytes: &[u8]) -> Result<(), Failed>
    ensures ok { OnOk result (Puts (S.written sink.old) (S.written sink.new) bytes.now) }
    ensures prefix { PutsPrefix (S.written sink.old) (S.written sink.new) bytes.now }
    ensures later { S.faults sink.old ≤ S.faults sink.new }
    ensures rose { OnErr result (Rose (S.faults sink.old) (S.faults sink.new)) }
{
    let mut at = 0;
    while at < bytes.len() {
        at += sink.write(&bytes[at..])?;
    }
    Ok(())
}
