//! The tables of an input.

use crate::fault::Fault;
use std::alloc::Global;

/// A table: its name, and what stands behind its heading `table NAME`.
#[derive(Drop)]
pub struct Table {
    pub name: String,
    pub cases: String,
}

/// Returns the table of this heading, which has no cases yet.
fn begun(alloc: Global, name: &str) -> Result<Table, Fault> {
    Ok(Table {
        name: String::from_str(alloc, name.trim_end())?,
        cases: String::new(alloc),
    })
}

/// Appends a line to the last table that has begun.
fn push_line(table: Option<&mut Table>, line: &str) -> Result<(), Fault> {
    let table = table.ok_or(Fault::NoTable)?;
    table.cases.push_str(line)?;
    Ok(())
}

/// Reads the tables of a text, in order. A line above the first heading is `NoTable`.
pub fn read_tables(alloc: Global, text: &str) -> Result<Vec<Table>, Fault> {
    let mut tables: Vec<Table> = Vec::new(alloc);
    for line in text.split_inclusive('\n') {
        match line.strip_prefix("table ") {
            Some(name) => tables.push(begun(alloc, name)?)?,
            None => push_line(tables.last_mut(), line)?,
        }
    }
    Ok(tables)
}
