//! The first lines of a sheet.

ghost use Rattle.std.specs.Prelude.{◌≡◌, ◌⊎◌, ◌++◌, ◌∷◌, ◌<◌, ◌≤◌, [], length, IfErr, IfOk, OnOk, Err};
ghost use Rattle.crsm_port_faults.specs.Counts.{Rose};
ghost use Rattle.crsm_io.specs.Streams.{Puts, PutsPrefix};
ghost use Rattle.crsm_text_sheet.specs.Grammar.{sheet_line_text};
ghost use Rattle.crsm_node.specs.Running.{FailsToOpen, entries_text, opening_text};

use crate::errors::NodeError;
use crsm_base::{Bodies, Bytes, NoMemory};
use crsm_io::{Sink, put_all};
use crsm_text_sheet::{SheetLine, print_sheet, push_entry};
use std::alloc::Global;

/// How many bytes of lines are gathered before they are written: a write for each body of a long log took most of the
/// time of a start.
const GATHERED_BYTES: usize = 65_536;

/// Writes the lines of the bodies that the log had, and the `open` line after them.
pub(crate) fn write_opening<O: Sink>(
    alloc: Global,
    bodies: &Bodies,
    sheet: &mut O,
) -> Result<(), NodeError>
    ensures opened { OnOk result (Puts (O.written sheet.old) (O.written sheet.new) (opening_text bodies.now)) }
    ensures failed { IfErr result (λ why. FailsToOpen bodies.now (O.written sheet.old) (O.written sheet.new) (O.faults sheet.old) (O.faults sheet.new) (Err why)) }
    ensures later { O.faults sheet.old ≤ O.faults sheet.new }
{
    let count = bodies.len();
    let mut index = 0;
    while index < count {
        let (lines, end) = lines_from(alloc, bodies, index)?;
        write_lines(&lines, sheet)?;
        index = end;
    }
    let last = open_line(alloc)?;
    write_lines(&last, sheet)
}

/// Returns the lines of the bodies from the first on, as many as are written at once, and the index of the body behind
/// them.
fn lines_from(alloc: Global, bodies: &Bodies, first: usize) -> Result<(Bytes, usize), NoMemory>
    requires { first < length bodies.now }
    ensures within { IfOk result (λ lines. lines.1 ≤ length bodies.now) }
    ensures further { IfOk result (λ lines. first < lines.1) }
    ensures between { IfOk result (λ lines. entries_text bodies.now lines.1 ≡ entries_text bodies.now first ++ lines.0) }
{
    let count = bodies.len();
    let mut lines = Bytes::new(alloc);
    for index in first..count {
        let Some(body) = bodies.get(index) else {
            unreachable!();
        };
        push_entry(&mut lines, body)?;
        if lines.as_slice().len() >= GATHERED_BYTES {
            return Ok((lines, index + 1));
        }
    }
    Ok((lines, count))
}

/// Returns the line behind those of the bodies.
fn open_line(alloc: Global) -> Result<Bytes, NoMemory>
    ensures { IfOk result (λ line. line ≡ sheet_line_text SheetLine.Open ++ 10 ∷ []) }
{
    let mut line = Bytes::new(alloc);
    print_sheet(alloc, &SheetLine::Open, &mut line)?;
    Ok(line)
}

fn write_lines<O: Sink>(lines: &Bytes, sheet: &mut O) -> Result<(), NodeError>
    ensures put { OnOk result (Puts (O.written sheet.old) (O.written sheet.new) lines.now) }
    ensures prefix { PutsPrefix (O.written sheet.old) (O.written sheet.new) lines.now }
    ensures why { IfErr result (λ why. (why ≡ NodeError.WriteFault) × Rose (O.faults sheet.old) (O.faults sheet.new)) }
    ensures later { O.faults sheet.old ≤ O.faults sheet.new }
{
    match put_all(sheet, lines.as_slice()) {
        Ok(()) => Ok(()),
        Err(_) => Err(NodeError::WriteFault),
    }
}
