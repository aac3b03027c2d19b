//! The standard streams of the process. A stream that is closed when the process starts leaves its number to the next
//! file that is opened, and output to the stream would go to that file: so other files replace closed streams.

ghost use Rattle.std.specs.Prelude.{◌<ℤ◌, pos, IfOk, IfSome};
ghost use Rattle.std.specs.Fd.{file_raw_fd};

use std::fmt::{self, Display, Formatter, Write};
use std::fs::{File, Files, Metadata, OpenOptions};
use std::io;
use std::os::fd::{AsRawFd, RawFd};
use std::os::unix::fs::MetadataExt;

/// The file descriptors of standard input, output and error are 0, 1 and 2.
const INPUT: RawFd = 0;

const STREAMS: RawFd = 3;

/// The file that replaces a closed stream.
const NULL: &str = "/dev/null";

/// A standard stream for output.
#[derive(Clone, Copy, Debug)]
pub(crate) enum Stream {
    Output,
    Error,
}

impl Stream {
    /// Returns the path at which the system shows the file of the stream.
    fn path(self) -> &'static str {
        match self {
            Stream::Output => "/proc/self/fd/1",
            Stream::Error => "/proc/self/fd/2",
        }
    }
}

impl Display for Stream {
    fn fmt<W: Write>(&self, f: &mut Formatter<W>) -> fmt::Result {
        match self {
            Stream::Output => f.write_str("standard output"),
            Stream::Error => f.write_str("standard error"),
        }
    }
}

/// Opens the file that replaces the lowest closed stream, or returns `None` if all are open. The stream still fails:
/// the file in place of standard input cannot be read, and that of another cannot be written.
fn stand_in<R: Files<File = File>>(rt: &R) -> io::Result<Option<File>>
    ensures { IfOk result (λ opened. IfSome opened (λ file. file_raw_fd file <ℤ pos 3)) }
{
    // A file gets the lowest free file descriptor.
    let mut file = File::open(rt, NULL)?;
    if file.as_raw_fd() == INPUT {
        drop(file);
        file = OpenOptions::new().write(true).open(rt, NULL)?;
    }
    if file.as_raw_fd() < STREAMS {
        Ok(Some(file))
    } else {
        Ok(None)
    }
}

/// Opens the files that replace the closed streams; each does so while it is open. Fails if `/dev/null` cannot be
/// opened, even if all streams are open.
pub(crate) fn stand_ins<R: Files<File = File>>(rt: &R) -> io::Result<[Option<File>; 3]> {
    let first = stand_in(rt)?;
    let second = stand_in(rt)?;
    let third = stand_in(rt)?;
    Ok([first, second, third])
}

/// Returns whether a stream goes to this file; `false` if the system does not say.
fn goes_to<R: Files>(rt: &R, stream: Stream, file: &Metadata) -> bool {
    match rt.metadata(stream.path()) {
        Ok(end) => end.dev() == file.dev() && end.ino() == file.ino(),
        Err(_) => false,
    }
}

/// Returns the stream that goes to the file with this name, or `None`: standard error, if both do.
pub(crate) fn stream_into<R: Files>(rt: &R, name: &str) -> Option<Stream> {
    let file = rt.metadata(name).ok()?;
    if goes_to(rt, Stream::Error, &file) {
        Some(Stream::Error)
    } else if goes_to(rt, Stream::Output, &file) {
        Some(Stream::Output)
    } else {
        None
    }
}
