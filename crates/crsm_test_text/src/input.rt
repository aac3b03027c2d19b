//! The table `input`: a row is the numbers of the reads that fail, those of the writes, and an input in which a stroke
//! stands for a line feed. It answers how the run of a handler that adds up the lines ended, and what that wrote.

ghost use Rattle.std.specs.Prelude.{◌≡◌, ◌++◌, ℕ, List, OnOk};

use crate::fault::Fault;
use crate::fields::{append_line, text_of};
use crsm_base::{Bytes, NoMemory};
use crsm_io::{MemSink, MemSource};
use crsm_port_lines::{Handler, Stop, run_lines};
use crsm_text::{push_numbers, read_number, read_numbers};
use std::alloc::{AllocError, Global};

/// How many bytes an output has at most.
const ROOM: u64 = 4_096;

/// The sum of the lines so far, if there are any.
#[derive(Drop)]
struct Sum {
    so_far: Option<u64>,
}

/// Adds a line with two numbers.
fn push_line(text: &mut Bytes, at: u64, sum: u64) -> Result<(), NoMemory>
    ensures { OnOk result ((more : List ℕ) × (text.new ≡ text.old ++ more)) }
{
    push_numbers(text, &[at, sum])?;
    text.push(b'\n')
}

impl Handler for Sum {
    type Refusal = Fault;

    ghost use Rattle.crsm_test_text.specs.Any.{any};

    ghost handling = { λ _. any };

    fn line(&mut self, at: u64, line: &[u8], text: &mut Bytes) -> Result<(), Stop<Fault>> {
        let Some(number) = read_number(line) else {
            return Err(Stop::Refused(Fault::NoNumber));
        };
        let sum = self.so_far.unwrap_or(0).wrapping_add(number);
        self.so_far = Some(sum);
        let Ok(()) = push_line(text, at, sum) else {
            text.clear();
            return Err(Stop::NoMemory);
        };
        Ok(())
    }

    fn end(&self, text: &mut Bytes) -> Result<(), Stop<Fault>> {
        let Some(sum) = self.so_far else {
            return Err(Stop::Refused(Fault::NoLine));
        };
        push_line(text, 0, sum)?;
        Ok(())
    }
}

/// Returns the numbers of a field, with a comma between each two, or none where it is no list of numbers.
fn numbers_of(alloc: Global, field: &str) -> Result<Vec<u64>, AllocError> {
    match read_numbers(alloc, field.as_bytes()) {
        Ok(numbers) => Ok(numbers),
        Err(_) => Ok(Vec::new(alloc)),
    }
}

fn source_of(alloc: Global, reads: &[u64], input: &str) -> Result<Box<MemSource>, Fault> {
    let source = MemSource::new(alloc, input.as_bytes(), reads)?;
    Ok(Box::new(alloc, source)?)
}

fn sink_of(alloc: Global, writes: &[u64]) -> Result<Box<MemSink>, Fault> {
    let sink = MemSink::new(alloc, writes)?;
    let mut sink = Box::new(alloc, sink)?;
    sink.reserve(ROOM)?;
    Ok(sink)
}

/// Returns how the run over an input ends, and what it wrote.
fn run(alloc: Global, reads: &[u64], writes: &[u64], input: &str) -> Result<String, Fault> {
    let mut source = source_of(alloc, reads, input)?;
    let mut sink = sink_of(alloc, writes)?;
    let ending = run_lines(alloc, Sum { so_far: None }, &mut *source, &mut *sink);
    let written = text_of(sink.as_slice());
    Ok(format!(in alloc; "{ending:?}: {written:?}")?)
}

/// Appends how the run over a row's input ends, and what it wrote.
pub fn tell(alloc: Global, row: &str, out: &mut Bytes) -> Result<(), Fault> {
    let mut fields = row.split(' ');
    let reads = numbers_of(alloc, fields.next().unwrap_or(""))?;
    let writes = numbers_of(alloc, fields.next().unwrap_or(""))?;
    let input = fields.next().unwrap_or("").replace(alloc, "/", "\n")?;
    let text = run(alloc, reads.as_slice(), writes.as_slice(), input.as_str())?;
    append_line(out, text.as_str())
}
