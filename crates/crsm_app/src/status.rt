//! The status of a run, and its exit status.

ghost use Rattle.std.specs.Prelude.{◌≡◌};
ghost use Rattle.crsm_app.specs.Statuses.{number_of, status_of_client, status_of_delay, status_of_dump, status_of_lock, status_of_node, status_of_operate, status_of_refused, status_of_replay, status_of_replay_mp, status_of_sheet};

use crsm_client::{ClientEnd, OperateError};
use crsm_cmd_dump::DumpEnd;
use crsm_cmd_lock::LockEnd;
use crsm_cmd_replay_node::{SheetCause, told_cause as cause_in_sheet};
use crsm_delay::PlanCause;
use crsm_node::NodeEnd;
use crsm_port_lines::InputEnd;
use crsm_sim_schedule::{Cause, told_cause};
use std::fmt::{self, Display, Formatter, Write};

/// The status of a run.
#[derive(Clone, Copy, Debug, PartialEq, Eq)]
pub enum Status {
    /// All was done.
    Ok,
    /// The words are not those of a command.
    Usage,
    /// This line of the input, counted from 1, is the first that is bad.
    BadInput { line: u64, cause: Cause },
    /// As `BadInput`, for a schedule of a store with a leader.
    BadMpInput { line: u64, cause: Cause },
    /// The input failed.
    ReadFault,
    /// The output failed.
    WriteFault,
    /// The port failed in a receive or in a send.
    PortFault,
    /// The disk failed, or the log file could not be opened.
    DiskFault,
    /// Memory ran out.
    NoMemory,
    /// No reply came in all turns.
    NoAnswer,
    /// The log body with this number, from 0, is the first that is not a list of records (`why` 0), or has a first
    /// record that does not fit of kind `why` (1 to 9), or is missing after an open gate (`why` 10).
    BadLog { entry: u64, why: u32 },
    /// The next entry would exceed the limit of a log file.
    LogFull,
    /// The input has more than 1,073,741,824 bytes.
    InputTooLong,
    /// The input, which is to be a log file, has more than 4,294,967,296 bytes.
    LogTooLong,
    /// The log belongs to the cluster with the number `found`.
    OtherCluster { found: u64 },
}

impl Status {
    /// Returns the exit status of the program.
    pub fn number(&self) -> u8
        ensures { result ≡ number_of self.now }
    {
        match self {
            Status::Ok => 0,
            Status::Usage => 2,
            Status::BadInput { .. } | Status::BadMpInput { .. } => 3,
            Status::ReadFault => 4,
            Status::WriteFault => 5,
            Status::PortFault => 6,
            Status::DiskFault => 7,
            Status::NoMemory => 8,
            Status::NoAnswer => 9,
            Status::BadLog { .. } => 10,
            Status::LogFull => 11,
            Status::InputTooLong | Status::LogTooLong => 12,
            Status::OtherCluster { .. } => 13,
        }
    }
}

/// Returns the status of a replay with this end.
pub(crate) fn replay_status(ending: InputEnd<Cause>) -> Status
    ensures { result ≡ status_of_replay ending }
{
    match ending {
        InputEnd::Done => Status::Ok,
        InputEnd::BadLine { line, why } => Status::BadInput {
            line,
            cause: told_cause(why),
        },
        InputEnd::ReadFault => Status::ReadFault,
        InputEnd::WriteFault => Status::WriteFault,
        InputEnd::NoMemory => Status::NoMemory,
        InputEnd::InputTooLong => Status::InputTooLong,
    }
}

/// Returns the status of a replay of a store with a leader with this end.
pub(crate) fn replay_mp_status(ending: InputEnd<Cause>) -> Status
    ensures { result ≡ status_of_replay_mp ending }
{
    match ending {
        InputEnd::Done => Status::Ok,
        InputEnd::BadLine { line, why } => Status::BadMpInput {
            line,
            cause: told_cause(why),
        },
        InputEnd::ReadFault => Status::ReadFault,
        InputEnd::WriteFault => Status::WriteFault,
        InputEnd::NoMemory => Status::NoMemory,
        InputEnd::InputTooLong => Status::InputTooLong,
    }
}

/// Returns the status of a sheet's line that is refused.
fn refused_status(line: u64, cause: SheetCause) -> Status
    ensures { result ≡ status_of_refused line cause }
{
    match cause {
        SheetCause::Unreadable => Status::BadInput {
            line,
            cause: Cause::Unreadable,
        },
        SheetCause::BadLog { entry, why } => Status::BadLog { entry, why },
    }
}

/// Returns the status of a sheet's replay with this end.
pub(crate) fn sheet_status(ending: InputEnd<SheetCause>) -> Status
    ensures { result ≡ status_of_sheet ending }
{
    match ending {
        InputEnd::Done => Status::Ok,
        InputEnd::BadLine { line, why } => refused_status(line, cause_in_sheet(why)),
        InputEnd::ReadFault => Status::ReadFault,
        InputEnd::WriteFault => Status::WriteFault,
        InputEnd::NoMemory => Status::NoMemory,
        InputEnd::InputTooLong => Status::InputTooLong,
    }
}

/// Returns the status of a plan with this end.
pub(crate) fn delay_status(ending: InputEnd<PlanCause>) -> Status
    ensures { result ≡ status_of_delay ending }
{
    match ending {
        InputEnd::Done => Status::Ok,
        InputEnd::BadLine { line, .. } => Status::BadInput {
            line,
            cause: Cause::Unreadable,
        },
        InputEnd::ReadFault => Status::ReadFault,
        InputEnd::WriteFault => Status::WriteFault,
        InputEnd::NoMemory => Status::NoMemory,
        InputEnd::InputTooLong => Status::InputTooLong,
    }
}

/// Returns the status of a dump with this end.
pub(crate) fn dump_status(ended: DumpEnd) -> Status
    ensures { result ≡ status_of_dump ended }
{
    match ended {
        DumpEnd::Done => Status::Ok,
        DumpEnd::BadLog { entry, why } => Status::BadLog { entry, why },
        DumpEnd::ReadFault => Status::ReadFault,
        DumpEnd::WriteFault => Status::WriteFault,
        DumpEnd::NoMemory => Status::NoMemory,
        DumpEnd::LogTooLong => Status::LogTooLong,
    }
}

/// Returns the status of a client with this end.
pub(crate) fn client_status(ended: ClientEnd) -> Status
    ensures { result ≡ status_of_client ended }
{
    match ended {
        ClientEnd::Done => Status::Ok,
        ClientEnd::PortFault => Status::PortFault,
        ClientEnd::NoAnswer => Status::NoAnswer,
        ClientEnd::WriteFault => Status::WriteFault,
        ClientEnd::NoMemory => Status::NoMemory,
    }
}

/// Returns the status of a request for a membership change with this end.
pub(crate) fn operate_status(ended: Result<(), OperateError>) -> Status
    ensures { result ≡ status_of_operate ended }
{
    match ended {
        Ok(()) => Status::Ok,
        Err(OperateError::PortFault) => Status::PortFault,
        Err(OperateError::NoMemory) => Status::NoMemory,
    }
}

/// Returns the status of an action on a lock with this end.
pub(crate) fn lock_status(ended: LockEnd) -> Status
    ensures { result ≡ status_of_lock ended }
{
    match ended {
        LockEnd::Done => Status::Ok,
        LockEnd::PortFault => Status::PortFault,
        LockEnd::NoAnswer => Status::NoAnswer,
        LockEnd::WriteFault => Status::WriteFault,
        LockEnd::NoMemory => Status::NoMemory,
    }
}

/// Returns the status of a node with this end.
pub(crate) fn node_status(ended: NodeEnd) -> Status
    ensures { result ≡ status_of_node ended }
{
    match ended {
        NodeEnd::Done => Status::Ok,
        NodeEnd::PortFault => Status::PortFault,
        NodeEnd::DiskFault => Status::DiskFault,
        NodeEnd::LogFull => Status::LogFull,
        NodeEnd::WriteFault => Status::WriteFault,
        NodeEnd::BadLog { entry, why } => Status::BadLog { entry, why },
        NodeEnd::OtherCluster { found } => Status::OtherCluster { found },
        NodeEnd::NoMemory => Status::NoMemory,
    }
}

/// Returns the name of a kind of records, the first byte of their encoding.
fn kind_name(kind: u32) -> &'static str {
    match kind {
        1 => "boot",
        2 => "prepare",
        3 => "commit",
        4 => "adopt",
        5 => "suspend",
        6 => "promise",
        7 => "accept",
        8 => "decide",
        9 => "enter",
        _ => "unknown",
    }
}

/// Writes the status in words, on one line.
impl Display for Status {
    fn fmt<W: Write>(&self, f: &mut Formatter<W>) -> fmt::Result {
        match self {
            Status::Ok => f.write_str("done"),
            Status::Usage => f.write_str("the words are no command"),
            Status::BadInput { line, cause } => {
                let cause = cause.in_words("datagram");
                write!(f, "line {line}: {cause}")
            }
            Status::BadMpInput { line, cause } => {
                let cause = cause.in_words("message");
                write!(f, "line {line}: {cause}")
            }
            Status::ReadFault => f.write_str("the input failed"),
            Status::WriteFault => f.write_str("the output failed"),
            Status::PortFault => f.write_str("the port failed"),
            Status::DiskFault => f.write_str("the disk failed"),
            Status::NoMemory => f.write_str("memory ran out"),
            Status::NoAnswer => f.write_str("the replica has not answered"),
            Status::BadLog { entry, why: 0 } => {
                write!(f, "log entry {entry}: it is no list of records")
            }
            Status::BadLog { entry, why: 10 } => {
                write!(f, "log entry {entry}: its end is missing")
            }
            Status::BadLog { entry, why } => {
                let kind = kind_name(*why);
                write!(f, "log entry {entry}: a record of kind {kind} does not fit")
            }
            Status::LogFull => f.write_str("the log is full"),
            Status::OtherCluster { found } => write!(f, "the log is one of cluster {found}"),
            Status::InputTooLong => f.write_str("the input has more than 1073741824 bytes"),
            Status::LogTooLong => f.write_str("the input has more than 4294967296 bytes"),
        }
    }
}
