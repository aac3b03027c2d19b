//! The dump of a log file from its first byte to the text that is written.

ghost use Rattle.std.specs.Prelude.{◌≡◌, ◌≢◌, ◌<◌, ◌≤◌, ℕ, IfErr, IfOk, List, Some, length};
ghost use Rattle.crsm_base.specs.Limits.{most_log_bytes};
ghost use Rattle.crsm_port_faults.specs.Counts.{Rose};
ghost use Rattle.crsm_cmd_dump.specs.declared.part.Part.{Part as Wanted};
ghost use Rattle.crsm_cmd_dump.specs.Dumps.{IsDump, IsRefused};
ghost use Rattle.crsm_cmd_dump.specs.Reading.{IsBadFile};
ghost use Rattle.crsm_cmd_dump.specs.Run.{Dumps, Ends, Ran, WhereFaultless, WhereLog, WhereRefused, WhereTooLong};

use crate::ending::DumpEnd;
use crate::file::read_file;
use crate::input::read_all;
use crate::part::Part;
use crate::text::text_of;
use crsm_base::Bytes;
use crsm_codec::one_spelling_each;
use crsm_io::{Sink, Source, put_all};
use crsm_ledger::Ledger;
use crsm_replica_rerun::bad_logs_are_one;
use std::alloc::Global;

/// Returns the dump of a log file of replica `me`, of a cluster that began with `n`. `BadLog` if a boot on the file is
/// refused, `NoMemory` if memory runs out.
fn dump_of(alloc: Global, me: u32, n: u32, part: Part, file: Vec<u8>) -> Result<Bytes, DumpEnd>
    requires me_below { me < 15 }
    requires some { 1 ≤ n }
    requires few { n ≤ 15 }
    ensures is { IfOk result (λ text. IsDump me n part file.items text) }
    ensures bad { IfErr result (IsBadFile me n file.items) }
{
    let log = read_file(alloc, file)?;
    let ledger = Ledger::recover(alloc, me, n, &log.bodies)?;
    let bodies = log.bodies.len() as u64;
    let text = text_of(alloc, part, log.cluster, bodies, &ledger)?;
    Ok(text)
}

/// States that a file has one dump, which is refused for no reason, or is refused for one body and one reason. It runs
/// no code.
pub fn dumps_are_one()
    ensures text { (me n : ℕ) (part : Wanted) (file a b : List ℕ) → IsDump me n part file a → IsDump me n part file b → a ≡ b }
    ensures kept { (me n entry why : ℕ) (part : Wanted) (file text : List ℕ) → IsDump me n part file text → IsRefused me n file entry why → ⊥ }
    ensures bad { (me n e f w v : ℕ) (file : List ℕ) → IsRefused me n file e w → IsRefused me n file f v → (e ≡ f) × (w ≡ v) }
{
    one_spelling_each();
    bad_logs_are_one();
}

/// Reads a log file to its end, and writes the wanted part of its dump.
fn write_dump<I: Source, O: Sink>(
    alloc: Global,
    me: u32,
    n: u32,
    part: Part,
    input: &mut I,
    output: &mut O,
) -> DumpEnd
    requires me_below { me < 15 }
    requires some { 1 ≤ n }
    requires few { n ≤ 15 }
    ensures ran { Ran me n part result (I.left input.old) (I.left input.new) (O.written output.old) (O.written output.new) }
    ensures read_fault { result ≡ DumpEnd.ReadFault → Rose (I.faults input.old) (I.faults input.new) }
    ensures write_fault { result ≡ DumpEnd.WriteFault → Rose (O.faults output.old) (O.faults output.new) }
{
    let file = match read_all(alloc, input) {
        Ok(file) => file,
        Err(end) => return end,
    };
    let text = match dump_of(alloc, me, n, part, file) {
        Ok(text) => text,
        Err(end) => return end,
    };
    match put_all(output, text.as_slice()) {
        Ok(()) => DumpEnd::Done,
        Err(_) => DumpEnd::WriteFault,
    }
}

/// Reads the log file of replica `me`, of a cluster that began with `n`, to its end, and writes the wanted part of its
/// dump. Returns how that ended. It takes memory for four times the file's bytes at most, and for the store.
pub fn dump<I: Source, O: Sink>(
    alloc: Global,
    me: u32,
    n: u32,
    part: Part,
    input: &mut I,
    output: &mut O,
) -> DumpEnd
    requires me_below { me < 15 }
    requires some { 1 ≤ n }
    requires few { n ≤ 15 }

    // The bytes read and written, by how it ended.
    ensures ran { Ran me n part result (I.left input.old) (I.left input.new) (O.written output.old) (O.written output.new) }

    // A fault is returned only if it was counted.
    ensures read_fault { result ≡ DumpEnd.ReadFault → Rose (I.faults input.old) (I.faults input.new) }
    ensures write_fault { result ≡ DumpEnd.WriteFault → Rose (O.faults output.old) (O.faults output.new) }

    // A log is dumped, a file on which no boot succeeds is refused, and a longer input too, if no fault was counted.
    ensures complete { WhereLog me n part (I.left input.old) (λ text. WhereFaultless (I.faults input.old) (I.faults input.new) (O.faults output.old) (O.faults output.new) (Dumps (O.written output.old) (O.written output.new) result text)) }
    ensures refused { WhereRefused me n (I.left input.old) (λ entry why. WhereFaultless (I.faults input.old) (I.faults input.new) (O.faults output.old) (O.faults output.new) (Ends (DumpEnd.BadLog entry why) result)) }
    ensures too_long { WhereTooLong (I.left input.old) (WhereFaultless (I.faults input.old) (I.faults input.new) (O.faults output.old) (O.faults output.new) (Ends DumpEnd.LogTooLong result)) }

    // An input beyond the limit is never done, and one within it is never too long.
    ensures limit { (bytes : List ℕ) → I.left input.old ≡ Some bytes → most_log_bytes < length bytes → result ≢ DumpEnd.Done }
    ensures within { (bytes : List ℕ) → I.left input.old ≡ Some bytes → length bytes ≤ most_log_bytes → result ≢ DumpEnd.LogTooLong }
{
    dumps_are_one();
    write_dump(alloc, me, n, part, input, output)
}
