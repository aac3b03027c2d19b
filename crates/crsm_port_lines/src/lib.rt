//! The loop over the lines of an input, which passes each whole line to a handler and writes the handler's text. Input
//! is read in pieces; a line is passed on once it is complete, and the text for the lines of a piece is written at the
//! end of the piece.
#![tactic(auto)]

mod handler;
mod lines;
mod run;

pub use handler::{Handler, Stop};
pub use lines::{Halt, LineReader, LineRefusal};
pub use run::{InputEnd, MAX_INPUT_BYTES, run_lines};
