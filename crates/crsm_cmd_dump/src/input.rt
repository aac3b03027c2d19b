//! Reading an input to its end.

ghost use Rattle.std.specs.Prelude.{◌≡◌, ◌≤◌, IfErr, IfOk, IsErrOf, length};
ghost use Rattle.crsm_port_faults.specs.Counts.{Rose};
ghost use Rattle.crsm_cmd_dump.specs.Reading.{StopsReading};
ghost use Rattle.crsm_cmd_dump.specs.Run.{ReadAll};

use crate::ending::DumpEnd;
use crsm_base::MAX_LOG_BYTES;
use crsm_io::Source;
use std::alloc::Global;

/// Number of bytes read at a time.
const PIECE_BYTES: usize = 65_536;

/// Reads an input to its end through the buffer. Errors are those of `read_all`.
fn read_through<I: Source>(alloc: Global, buf: &mut [u8], input: &mut I) -> Result<Vec<u8>, DumpEnd>
    requires { length buf.old ≡ PIECE_BYTES }
    ensures read { IfOk result (λ file. ReadAll (I.left input.old) (I.left input.new) file.items) }
    ensures stopped { IfErr result (StopsReading (I.left input.old) (I.left input.new)) }
    ensures later { I.faults input.old ≤ I.faults input.new }
    ensures fault { IsErrOf result DumpEnd.ReadFault → Rose (I.faults input.old) (I.faults input.new) }
{
    let mut file = Vec::new(alloc);
    loop {
        let Ok(count) = input.read(buf) else {
            return Err(DumpEnd::ReadFault);
        };
        if count == 0 {
            return Ok(file);
        }
        if count as u64 > MAX_LOG_BYTES - file.len() as u64 {
            return Err(DumpEnd::LogTooLong);
        }
        let Ok(()) = file.extend_from_slice(&buf[..count]) else {
            return Err(DumpEnd::NoMemory);
        };
    }
}

/// Reads an input to its end. `LogTooLong` if it is longer than `MAX_LOG_BYTES`, `ReadFault` if a read fails,
/// `NoMemory` if memory runs out.
pub(crate) fn read_all<I: Source>(alloc: Global, input: &mut I) -> Result<Vec<u8>, DumpEnd>
    ensures read { IfOk result (λ file. ReadAll (I.left input.old) (I.left input.new) file.items) }
    ensures stopped { IfErr result (StopsReading (I.left input.old) (I.left input.new)) }
    ensures later { I.faults input.old ≤ I.faults input.new }
    ensures fault { IsErrOf result DumpEnd.ReadFault → Rose (I.faults input.old) (I.faults input.new) }
{
    let Ok(mut buf) = vec![in alloc; 0u8; PIECE_BYTES] else {
        return Err(DumpEnd::NoMemory);
    };
    read_through(alloc, buf.as_mut_slice(), input)
}
