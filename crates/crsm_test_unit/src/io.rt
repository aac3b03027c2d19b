//! A reader and a writer of the standard library that fail.

ghost use Rattle.std.specs.Prelude.{◌≤◌, IfOk};

use crsm_base::Failed;
use crsm_io::{Sink, Source, StdSink, StdSource};
use std::io::{self, ErrorKind, Read, Write};

/// What a call answers.
#[derive(Clone, Copy)]
enum Turn {
    Moves(usize),
    Fails,
}

/// A device of the standard library that answers two calls by a list, and then nothing more.
#[derive(Drop)]
struct Scripted {
    turns: [Turn; 2],
    at: usize,
}

impl Scripted {
    fn answer(&mut self, most: usize) -> io::Result<usize>
        ensures { IfOk result (λ n. n ≤ most) }
    {
        let turn = self.turns.get(self.at).copied();
        self.at = self.at.saturating_add(1);
        match turn {
            Some(Turn::Moves(count)) => Ok(count.min(most)),
            Some(Turn::Fails) => Err(io::Error::from(ErrorKind::BrokenPipe)),
            None => Ok(0),
        }
    }
}

impl Read for Scripted {
    fn read(&mut self, buf: &mut [u8]) -> io::Result<usize> {
        self.answer(buf.len())
    }
}

impl Write for Scripted {
    fn write(&mut self, buf: &[u8]) -> io::Result<usize> {
        self.answer(buf.len())
    }

    fn flush(&mut self) -> io::Result<()> {
        Ok(())
    }
}

/// A device that answers two calls so, and then nothing more.
fn answering(first: Turn, second: Turn) -> Scripted {
    Scripted {
        turns: [first, second],
        at: 0,
    }
}

#[test]
fn failed_reads_are_counted(rt: HostRuntime) {
    let mut buf = [0; 4];
    let mut source = StdSource::new(answering(Turn::Fails, Turn::Moves(3)));
    for want in [Err(Failed), Ok(3), Ok(0)] {
        assert_eq!(rt; source.read(&mut buf), want);
    }
}

#[test]
fn failed_writes_are_counted(rt: HostRuntime) {
    let mut sink = StdSink::new(answering(Turn::Moves(3), Turn::Fails));
    let rows = [
        (b"abcd".as_slice(), Ok(3)),
        (b"d".as_slice(), Err(Failed)),
        (b"d".as_slice(), Err(Failed)),
        (b"".as_slice(), Ok(0)),
    ];
    for (bytes, want) in rows {
        assert_eq!(rt; sink.write(bytes), want);
    }
}
