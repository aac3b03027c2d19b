//! The table `lines`: a row is a line of a schedule. It answers the event, or how many replicas a first line names.

use crate::fault::Fault;
use crate::fields::append_line;
use crsm_base::Bytes;
use crsm_schedule::{read_event, read_first};
use std::alloc::Global;

/// Returns the event of a line that is no first line.
fn event_text(alloc: Global, line: &[u8]) -> Result<String, Fault> {
    let event = read_event(alloc, line)?;
    let text = format!(in alloc; "{event:?}");
    drop(event);
    Ok(text?)
}

/// Returns what a line of a schedule is read as.
fn meaning(alloc: Global, line: &[u8]) -> Result<String, Fault> {
    match read_first(line) {
        Some(replicas) => Ok(format!(in alloc; "{replicas} replicas")?),
        None => event_text(alloc, line),
    }
}

/// Appends what a line of a schedule is read as.
pub fn tell(alloc: Global, row: &str, out: &mut Bytes) -> Result<(), Fault> {
    let text = meaning(alloc, row.as_bytes())?;
    append_line(out, text.as_str())
}
