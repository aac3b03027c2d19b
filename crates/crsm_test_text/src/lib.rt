//! Writes what the rows of tables of texts are read as.
//!
//! The module of a table says what its rows are: `lines`, `sheet`, `words`, `lease`, `input` and `bytes`.
#![tactic(auto)]

mod again;
mod bytes;
mod fault;
mod fields;
mod input;
mod kind;
mod lease;
mod lines;
mod sheet;
mod table;
mod words;

use crsm_base::Bytes;
use std::io::{self, Print, Write};
pub use table::Table;

/// Writes what a row of this table is read as, or else the fault.
fn show_row<R: AllocGlobal + Print>(rt: &R, table: Table, row: &str) -> io::Result<()> {
    let mut out = Bytes::new(rt.alloc());
    let told = table.tell(rt.alloc(), row, &mut out);
    io::writer(rt).write_all(out.as_slice())?;
    match told {
        Ok(()) => Ok(()),
        Err(fault) => println!(rt; "{fault}"),
    }
}

/// Writes what each row of this table is read as, or else the fault.
///
/// # Errors
/// The output failed.
pub fn show_texts<R: AllocGlobal + Print>(rt: &R, table: Table, rows: &str) -> io::Result<()> {
    for row in rows.lines() {
        show_row(rt, table, row)?;
    }
    Ok(())
}
