//! Handling an input from its beginning to its end.

ghost use Rattle.std.specs.Prelude.{◌≡◌, ◌≢◌, ◌<◌, ◌≤◌, ◌+◌, ℕ, List, Some, length, IsErrOf};
ghost use Rattle.crsm_port_faults.specs.Counts.{Rose};
ghost use Rattle.crsm_port_lines.specs.Handling.{Begins};
ghost use Rattle.crsm_port_lines.specs.Exact.{Exact, IsDone, IsRefused, IsTooLong, WhereBad, WhereFaultless, WhereTooLong, WhereWhole};
ghost use Rattle.crsm_port_lines.specs.Run.{Ran, ending_of};

use crate::handler::Handler;
use crate::lines::{Halt, LineReader, LineRefusal};
use crsm_io::{Sink, Source};
use std::alloc::Global;
use std::mem;

/// Maximum length of an input in bytes.
pub const MAX_INPUT_BYTES: u64 = 1_073_741_824;

/// Number of bytes read at a time.
const PIECE_BYTES: usize = 65_536;

/// The ending of a run over an input.
#[derive(Clone, Copy, Debug, PartialEq, Eq)]
pub enum InputEnd<R> {
    /// The input was read to its end.
    Done,
    /// The first bad line, by its number from 1, and the reason.
    BadLine { line: u64, why: LineRefusal<R> },
    /// A read failed.
    ReadFault,
    /// A write failed.
    WriteFault,
    /// Memory ran out.
    NoMemory,
    /// The input has more than `MAX_INPUT_BYTES` bytes.
    InputTooLong,
}

/// Returns how many bytes to read next, so that at most one byte beyond the limit is read.
fn room(total: u64) -> usize
    requires { total ≤ MAX_INPUT_BYTES }
    ensures some { (0 < result) × (result ≤ PIECE_BYTES) }
    ensures within { total < MAX_INPUT_BYTES → total + result ≤ MAX_INPUT_BYTES }
    ensures one { total ≡ MAX_INPUT_BYTES → result ≡ 1 }
{
    let left = MAX_INPUT_BYTES - total;
    if left == 0 {
        1
    } else if left < PIECE_BYTES as u64 {
        left as usize
    } else {
        PIECE_BYTES
    }
}

/// Converts the reason for which the loop stopped.
fn halted<R>(halt: Halt<R>) -> InputEnd<R>
    ensures { result ≡ ending_of halt }
{
    match halt {
        Halt::BadLine { line, why } => InputEnd::BadLine { line, why },
        Halt::WriteFault => InputEnd::WriteFault,
        Halt::NoMemory => InputEnd::NoMemory,
    }
}

/// Reads an input to its end through the buffer.
fn run_through<H: Handler + Drop, I: Source, O: Sink>(
    alloc: Global,
    handler: H,
    buf: &mut [u8],
    input: &mut I,
    output: &mut O,
) -> InputEnd<H::Refusal>
    requires begins { Begins (H.handling handler) handler }
    requires room { length buf.old ≡ PIECE_BYTES }
    ensures ran { Ran (H.handling handler) result (I.left input.old) (I.left input.new) (O.written output.old) (O.written output.new) }
    ensures read { result ≡ InputEnd.ReadFault → Rose (I.faults input.old) (I.faults input.new) }
    ensures write { result ≡ InputEnd.WriteFault → Rose (O.faults output.old) (O.faults output.new) }
{
    let mut lines = LineReader::new(alloc, handler);
    let mut total: u64 = 0;
    loop {
        let want = room(total);
        let Ok(count) = input.read(&mut buf[..want]) else {
            return InputEnd::ReadFault;
        };
        if count == 0 {
            if let Err(halt) = lines.finish(output) {
                return halted(halt);
            }
            // A large simulation takes long to drop, and the process ends with its input.
            mem::forget(lines);
            return InputEnd::Done;
        }
        if total == MAX_INPUT_BYTES {
            return InputEnd::InputTooLong;
        }
        total += count as u64;
        if let Err(halt) = lines.feed(&buf[..count], output) {
            return halted(halt);
        }
    }
}

/// Reads an input to its end through a buffer of `PIECE_BYTES` bytes.
fn run_pieces<H: Handler + Drop, I: Source, O: Sink>(
    alloc: Global,
    handler: H,
    input: &mut I,
    output: &mut O,
) -> InputEnd<H::Refusal>
    requires { Begins (H.handling handler) handler }
    ensures ran { Ran (H.handling handler) result (I.left input.old) (I.left input.new) (O.written output.old) (O.written output.new) }
    ensures read { result ≡ InputEnd.ReadFault → Rose (I.faults input.old) (I.faults input.new) }
    ensures write { result ≡ InputEnd.WriteFault → Rose (O.faults output.old) (O.faults output.new) }
{
    let Ok(mut buf) = vec![in alloc; 0u8; PIECE_BYTES] else {
        return InputEnd::NoMemory;
    };
    run_through(alloc, handler, buf.as_mut_slice(), input, output)
}

/// Reads an input to its end, passes each line to the handler, and writes the text of the lines and of the end. Each
/// variant of `InputEnd` says how it ended. After `Done` what the handler holds is not given back before the process
/// ends.
pub fn run_lines<H: Handler + Drop, I: Source, O: Sink>(
    alloc: Global,
    handler: H,
    input: &mut I,
    output: &mut O,
) -> InputEnd<H::Refusal>
    requires { Begins (H.handling handler) handler }

    // What was read and written, for each ending.
    ensures ran { Ran (H.handling handler) result (I.left input.old) (I.left input.new) (O.written output.old) (O.written output.new) }

    // A fault is returned only if the device counted one.
    ensures read { result ≡ InputEnd.ReadFault → Rose (I.faults input.old) (I.faults input.new) }
    ensures write { result ≡ InputEnd.WriteFault → Rose (O.faults output.old) (O.faults output.new) }

    // If the handler's acceptance depends on lines alone and no device failed: an input of accepted lines ends as
    // `Done`, the first bad line is named with its reason, and accepted lines up to the limit with more bytes after
    // them are `InputTooLong`.
    ensures complete { (x : Exact (H.handling handler)) → WhereWhole (H.handling handler) x (I.left input.old) (WhereFaultless (I.faults input.old) (I.faults input.new) (O.faults output.old) (O.faults output.new) (IsDone result)) }
    ensures refused { (x : Exact (H.handling handler)) → WhereBad (H.handling handler) x (I.left input.old) (λ line why. WhereFaultless (I.faults input.old) (I.faults input.new) (O.faults output.old) (O.faults output.new) (IsRefused (H.handling handler) x line why result)) }
    ensures too_long { (x : Exact (H.handling handler)) → WhereTooLong (H.handling handler) x (I.left input.old) (WhereFaultless (I.faults input.old) (I.faults input.new) (O.faults output.old) (O.faults output.new) (IsTooLong result)) }

    // An input beyond the limit never ends as `Done`, and one within it never as `InputTooLong`.
    ensures limit { (bytes : List ℕ) → I.left input.old ≡ Some bytes → MAX_INPUT_BYTES < length bytes → result ≢ InputEnd.Done }
    ensures within { (bytes : List ℕ) → I.left input.old ≡ Some bytes → length bytes ≤ MAX_INPUT_BYTES → result ≢ InputEnd.InputTooLong }
{
    run_pieces(alloc, handler, input, output)
}
