//! The standard library's readers and writers as sources and sinks. Contracts say nothing of the bytes that they hold.

ghost use Rattle.std.specs.Prelude.{◌≡◌, None};

use crate::streams::{Sink, Source};
use crsm_base::Failed;
use crsm_port_faults::{raise, raised_by};
use std::io::{Read, Write};
use std::marker::Model;

/// A reader of the standard library as a source. It counts each error as a fault.
#[derive(Drop)]
pub struct StdSource<R> {
    reader: R,
    faults: u64,
}

impl<R> Model for StdSource<R> {
    ghost use Rattle.std.specs.Prelude.{ℕ};

    ghost Value = { ℕ };

    ghost view = { λ s. s.faults };
}

impl<R> StdSource<R> {
    /// Returns a source over the reader, with no faults counted.
    pub fn new(reader: R) -> StdSource<R>
        ensures { result ≡ 0 }
    {
        StdSource { reader, faults: 0 }
    }
}

impl<R: Read> Source for StdSource<R> {
    ghost left = { λ _. None };

    ghost faults = { λ s. s };

    fn read(&mut self, buf: &mut [u8]) -> Result<usize, Failed> {
        raised_by(&mut self.faults, self.reader.read(buf))
    }
}

/// A writer of the standard library as a sink. It counts each error as a fault.
#[derive(Drop)]
pub struct StdSink<W> {
    writer: W,
    faults: u64,
}

impl<W> Model for StdSink<W> {
    ghost use Rattle.std.specs.Prelude.{ℕ};

    ghost Value = { ℕ };

    ghost view = { λ s. s.faults };
}

impl<W> StdSink<W> {
    /// Returns a sink over the writer, with no faults counted.
    pub fn new(writer: W) -> StdSink<W>
        ensures { result ≡ 0 }
    {
        StdSink { writer, faults: 0 }
    }
}

impl<W: Write> Sink for StdSink<W> {
    ghost written = { λ _. None };

    ghost faults = { λ s. s };

    /// Counts a fault also where the writer takes no byte of a non-empty piece.
    fn write(&mut self, piece: &[u8]) -> Result<usize, Failed> {
        match self.writer.write(piece) {
            Ok(count) if count > 0 || piece.is_empty() => Ok(count),
            _ => {
                raise(&mut self.faults);
                Err(Failed)
            }
        }
    }
}
