//! Commands over the real streams and clock, and over a port and a disk.

use crate::streams::Stream;
use crsm_app::{Status, run};
use crsm_clock::SystemClock;
use crsm_disk::{Disk, MemDisk, OpenError};
use crsm_io::{StdSink, StdSource};
use crsm_node::{Reporter, Silent};
use crsm_port::{MemPort, Port, UdpPort};
use std::fmt::{self, Display, Formatter, Write};
use std::io::{self, ErrorKind, Input, Print};
use std::net::Net;
use std::time::Clock;

/// The address with which the system binds a socket at any free port.
const ANY_FREE_PORT: u64 = 0;

/// A device that could not be made.
#[derive(Drop)]
pub(crate) enum NoDevice {
    Socket(io::Error),
    Log(OpenError),
    /// The log file, since this standard stream writes to it.
    LogOf(Stream),
    /// The log file, since its name is a symbolic link to a missing file.
    LogBehindLink,
    /// The file that replaces closed standard streams.
    StandIn(io::Error),
}

impl NoDevice {
    /// Returns the exit status of the program.
    pub(crate) fn status(&self) -> Status {
        match self {
            NoDevice::Socket(error) if is_of_memory(error) => Status::NoMemory,
            NoDevice::Log(OpenError::Io(error)) if is_of_memory(error) => Status::NoMemory,
            NoDevice::StandIn(error) if is_of_memory(error) => Status::NoMemory,
            NoDevice::Socket(_) => Status::PortFault,
            NoDevice::Log(_) | NoDevice::LogOf(_) | NoDevice::LogBehindLink => Status::DiskFault,
            NoDevice::StandIn(_) => Status::WriteFault,
        }
    }

    /// Returns whether the error may be written to standard error, which must not be the log.
    pub(crate) fn may_be_told(&self) -> bool {
        !matches!(self, NoDevice::LogOf(Stream::Error))
    }
}

/// Returns whether the error means that memory ran out.
fn is_of_memory(error: &io::Error) -> bool {
    error.kind() == ErrorKind::OutOfMemory
}

impl Display for NoDevice {
    fn fmt<W: Write>(&self, f: &mut Formatter<W>) -> fmt::Result {
        match self {
            NoDevice::Socket(error) => write!(f, "no socket can be opened: {error}"),
            NoDevice::Log(error) => write!(f, "the log file cannot be opened: {error}"),
            NoDevice::LogOf(stream) => {
                write!(f, "the log file cannot be opened: {stream} goes to it")
            }
            NoDevice::LogBehindLink => {
                f.write_str("the log file cannot be opened: it is a symbolic link to no file")
            }
            NoDevice::StandIn(error) => write!(f, "/dev/null cannot be opened: {error}"),
        }
    }
}

/// Executes the words over standard input and output, the system's clock, and these devices, and returns the status.
pub(crate) fn status_over<R: AllocGlobal + Clock + Input + Print, P: Port, D: Disk, T: Reporter>(
    rt: &R,
    words: &[String],
    port: &mut P,
    disk: &mut D,
    reporter: &mut T,
) -> Status {
    let mut clock = SystemClock::new(rt);
    let mut input = StdSource::new(rt.reader());
    let mut output = StdSink::new(io::writer(rt));
    run(
        rt.alloc(),
        words,
        &mut input,
        &mut output,
        port,
        disk,
        &mut clock,
        reporter,
    )
}

/// Opens a socket at an address, IPv4 x 65,536 + port, as a port.
pub(crate) fn socket_at<R: AllocGlobal + Net>(rt: &R, address: u64) -> Result<UdpPort, NoDevice> {
    if address >= 1 << 48 {
        return Err(NoDevice::Socket(io::Error::from(ErrorKind::InvalidInput)));
    }
    UdpPort::bind(rt.alloc(), rt, address).map_err(NoDevice::Socket)
}

/// Executes the words over this port and a disk without content, and returns the status.
fn status_over_port<R: AllocGlobal + Clock + Input + Print, P: Port>(
    rt: &R,
    words: &[String],
    port: &mut P,
) -> Status {
    let Ok(mut disk) = MemDisk::new(rt.alloc(), &[], None, 0) else {
        return Status::NoMemory;
    };
    let status = status_over(rt, words, port, &mut disk, &mut Silent);
    drop(disk);
    status
}

/// Executes the words over a port and a disk without content, and returns the status.
pub(crate) fn status_over_nothing<R: AllocGlobal + Clock + Input + Print>(
    rt: &R,
    words: &[String],
) -> Status {
    let Ok(mut port) = MemPort::new(rt.alloc(), &[]) else {
        return Status::NoMemory;
    };
    let status = status_over_port(rt, words, &mut port);
    drop(port);
    status
}

/// Executes the words over a socket at any free port, and returns the status.
pub(crate) fn status_over_socket<R: AllocGlobal + Clock + Input + Net + Print>(
    rt: &R,
    words: &[String],
) -> Result<Status, NoDevice> {
    let mut port = socket_at(rt, ANY_FREE_PORT)?;
    let status = status_over_port(rt, words, &mut port);
    drop(port);
    Ok(status)
}
