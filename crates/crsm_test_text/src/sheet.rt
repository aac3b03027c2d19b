//! The table `sheet`: a row is a line of a sheet. It answers what the line is read as, and that printed again.

use crate::fault::Fault;
use crate::fields::append_line;
use crsm_base::Bytes;
use crsm_text_sheet::{SheetLine, print_sheet, read_sheet};
use std::alloc::Global;

/// Appends what a line is, and the line that is printed of it.
fn push_line(alloc: Global, line: &SheetLine, out: &mut Bytes) -> Result<(), Fault> {
    let text = format!(in alloc; "{line:?}")?;
    append_line(out, text.as_str())?;
    Ok(print_sheet(alloc, line, out)?)
}

/// Appends what a line of a sheet is read as, and the line that is printed of it.
pub fn tell(alloc: Global, row: &str, out: &mut Bytes) -> Result<(), Fault> {
    let line = read_sheet(alloc, row.as_bytes())?;
    let told = push_line(alloc, &line, out);
    drop(line);
    told
}
