//! An input that is read in pieces: each whole line is handled once it is complete, and the text for the lines of a
//! piece is written at the end of the piece.

ghost use Rattle.std.specs.Prelude.{◌≡◌, ◌≢◌, ◌+◌, ◌-◌, ◌<◌, ◌≤◌, ◌^◌, ◌++◌, ◌∷◌, [], ℕ, List, Option, IfErr, OnOk, OnErr, length, IsErrOf};
ghost use Rattle.crsm_port_faults.specs.Counts.{Rose};
ghost use Rattle.crsm_io.specs.Streams.{Puts, PutsPrefix};
ghost use Rattle.crsm_text.specs.Words.{Lacks};
ghost use Rattle.crsm_port_lines.specs.Handling.{Begins, Handles, StopsAt};
ghost use Rattle.crsm_port_lines.specs.State.{state_of};
ghost use Rattle.crsm_port_lines.specs.declared.run.InputEnd.{InputEnd};
ghost use Rattle.crsm_port_lines.specs.Run.{CarriesOn, Halts, Ends, Finishes, IsUpToDate, ending_of};

use crate::handler::{Handler, Stop};
use crsm_base::{Bytes, MAX_LINE_BYTES};
use crsm_io::{Sink, put_all};
use crsm_text::split_field;
use std::alloc::Global;

/// Length in bytes from which on pending text is written within a piece.
const FULL_BYTES: usize = 262_144;

/// The reason why a line is bad.
#[derive(Clone, Copy, Debug, PartialEq, Eq)]
pub enum LineRefusal<R> {
    /// The handler refuses the line, or the end of the input in its place.
    Refused(R),
    /// The line has more than 16,777,216 bytes.
    TooLong,
    /// The input ends before the line's line feed.
    Cut,
}

/// The reason why the loop stops before the end of the input.
#[derive(Clone, Copy, Debug, PartialEq, Eq)]
pub enum Halt<R> {
    /// The first bad line, by its number from 1, and the reason.
    BadLine { line: u64, why: LineRefusal<R> },
    /// A write failed.
    WriteFault,
    /// Memory ran out.
    NoMemory,
}

/// A handler, the number of lines handled, the received part of the next line, and the text to be written.
#[derive(Drop)]
pub struct LineReader<H> {
    alloc: Global,
    handler: H,
    number: u64,
    part: Vec<u8>,
    pending: Bytes,
}

impl<H: Handler> LineReader<H> {
    /// Returns a loop that has read nothing.
    pub fn new(alloc: Global, handler: H) -> LineReader<H>
        ensures value { state_of result ≡ record { handler = handler; number = 0; part = []; pending = [] } }
        ensures up_to_date { (had : Option (List ℕ)) → Begins (H.handling handler) handler → IsUpToDate (H.handling handler) had had (state_of result) [] }
    {
        LineReader {
            alloc,
            handler,
            number: 0,
            part: Vec::new(alloc),
            pending: Bytes::new(alloc),
        }
    }

    /// Passes the line that ends with these bytes to the handler. A line that lies whole in its piece is not copied.
    fn advance(&mut self, tail: &[u8]) -> Result<(), Stop<H::Refusal>>
        requires { self.old.number < 2 ^ 64 - 1 }
        ensures ok { (first : H) (lines : List (List ℕ)) (shown : List ℕ) → self.old.number ≡ length lines → (H.handling first).after self.old.handler lines shown
            → OnOk result (Handles (H.handling first) self.new.handler lines shown (self.old.part.items ++ tail.now) self.old.pending self.new.pending) }
        ensures err { (first : H) (lines : List (List ℕ)) (shown : List ℕ) → self.old.number ≡ length lines → (H.handling first).after self.old.handler lines shown
            → IfErr result (λ stop. StopsAt (H.handling first) lines shown (self.old.part.items ++ tail.now) self.old.pending self.new.pending stop) }
        ensures number { self.new.number ≡ self.old.number }
    {
        let at = self.number + 1;
        if self.part.is_empty() {
            return self.handler.line(at, tail, &mut self.pending);
        }
        let Ok(()) = self.part.extend_from_slice(tail) else {
            return Err(Stop::NoMemory);
        };
        self.handler
            .line(at, self.part.as_slice(), &mut self.pending)
    }

    /// Handles the line that ends with these bytes, and checks its length.
    fn end_line(&mut self, tail: &[u8]) -> Result<(), Halt<H::Refusal>>
        requires number { self.old.number < 2 ^ 64 - 1 }
        requires lacks { Lacks 10 tail.now }
        ensures ok { (first : H) (has : Option (List ℕ)) → OnOk result (CarriesOn (H.handling first) has has (state_of self.old) (state_of self.new) (tail.now ++ 10 ∷ []) []) }
        ensures err { (first : H) (has : Option (List ℕ)) → IfErr result (λ halt. Halts (H.handling first) (ending_of halt) has has (state_of self.old) (state_of self.new) (tail.now ++ 10 ∷ [])) }
        ensures number { OnOk result (self.new.number ≡ self.old.number + 1) }
        ensures fault { IfErr result (λ halt. halt ≢ Halt.WriteFault) }
    {
        let line = self.number + 1;
        if self.part.len().saturating_add(tail.len()) as u64 > MAX_LINE_BYTES {
            let why = LineRefusal::TooLong;
            return Err(Halt::BadLine { line, why });
        }
        match self.advance(tail) {
            Ok(()) => {}
            Err(Stop::Refused(why)) => {
                let why = LineRefusal::Refused(why);
                return Err(Halt::BadLine { line, why });
            }
            Err(Stop::NoMemory) => return Err(Halt::NoMemory),
        }
        self.number = line;
        self.part.clear();
        Ok(())
    }

    /// Keeps a part of a line until the rest is read.
    fn keep(&mut self, prefix: &[u8]) -> Result<(), Halt<H::Refusal>>
        requires number { self.old.number + length prefix.now < 2 ^ 64 }
        requires lacks { Lacks 10 prefix.now }
        ensures ok { (first : H) (has : Option (List ℕ)) → OnOk result (CarriesOn (H.handling first) has has (state_of self.old) (state_of self.new) prefix.now []) }
        ensures err { (first : H) (has : Option (List ℕ)) → IfErr result (λ halt. Halts (H.handling first) (ending_of halt) has has (state_of self.old) (state_of self.new) prefix.now) }
        ensures number { self.new.number ≡ self.old.number }
        ensures fault { IfErr result (λ halt. halt ≢ Halt.WriteFault) }
    {
        if prefix.is_empty() {
            return Ok(());
        }
        if self.part.len().saturating_add(prefix.len()) as u64 > MAX_LINE_BYTES {
            let line = self.number + 1;
            let why = LineRefusal::TooLong;
            return Err(Halt::BadLine { line, why });
        }
        let Ok(()) = self.part.extend_from_slice(prefix) else {
            return Err(Halt::NoMemory);
        };
        Ok(())
    }

    /// Writes the pending text.
    fn flush<O: Sink>(&mut self, output: &mut O) -> Result<(), Halt<H::Refusal>>
        ensures put { OnOk result (Puts (O.written output.old) (O.written output.new) self.old.pending) }
        ensures prefix { PutsPrefix (O.written output.old) (O.written output.new) self.old.pending }
        ensures state { state_of self.new ≡ record { handler = self.old.handler; number = self.old.number; part = self.old.part.items; pending = [] } }
        ensures fault { IfErr result (λ halt. halt ≡ Halt.WriteFault) }
        ensures later { O.faults output.old ≤ O.faults output.new }
        ensures rose { OnErr result (Rose (O.faults output.old) (O.faults output.new)) }
    {
        let written = put_all(output, self.pending.as_slice());
        self.pending.clear();
        match written {
            Ok(()) => Ok(()),
            Err(_) => Err(Halt::WriteFault),
        }
    }

    /// Writes the pending text if it has `FULL_BYTES` bytes or more.
    fn flush_full<O: Sink>(&mut self, output: &mut O) -> Result<(), Halt<H::Refusal>>
        ensures ok { (first : H) → OnOk result (CarriesOn (H.handling first) (O.written output.old) (O.written output.new) (state_of self.old) (state_of self.new) [] []) }
        ensures err { (first : H) → IfErr result (λ halt. Halts (H.handling first) (ending_of halt) (O.written output.old) (O.written output.new) (state_of self.old) (state_of self.new) []) }
        ensures number { self.new.number ≡ self.old.number }
        ensures later { O.faults output.old ≤ O.faults output.new }
        ensures rose { OnErr result (Rose (O.faults output.old) (O.faults output.new)) }
    {
        if self.pending.as_slice().len() < FULL_BYTES {
            return Ok(());
        }
        self.flush(output)
    }

    /// Handles the lines of a piece, up to one that ends the run.
    fn take_lines<O: Sink>(&mut self, piece: &[u8], output: &mut O) -> Result<(), Halt<H::Refusal>>
        requires { self.old.number + length piece.now < 2 ^ 64 }
        ensures ok { (first : H) → OnOk result (CarriesOn (H.handling first) (O.written output.old) (O.written output.new) (state_of self.old) (state_of self.new) piece.now []) }
        ensures err { (first : H) → IfErr result (λ halt. Halts (H.handling first) (ending_of halt) (O.written output.old) (O.written output.new) (state_of self.old) (state_of self.new) piece.now) }
        ensures number { OnOk result (self.new.number ≤ self.old.number + length piece.now) }
        ensures later { O.faults output.old ≤ O.faults output.new }
        ensures rose { IsErrOf result Halt.WriteFault → Rose (O.faults output.old) (O.faults output.new) }
    {
        let mut rest = piece;
        while let Some((tail, behind)) = split_field(rest, b'\n') {
            self.end_line(tail)?;
            self.flush_full(output)?;
            rest = behind;
        }
        self.keep(rest)
    }

    /// Handles the lines of a piece, and writes the text of all of them. So a caller that feeds what each read returned
    /// has, before the next read, handled every whole line received and written its text. `BadLine` for the first line
    /// that is refused or too long; `WriteFault` if the output failed; `NoMemory` if memory runs out.
    pub fn feed<O: Sink>(&mut self, piece: &[u8], output: &mut O) -> Result<(), Halt<H::Refusal>>
        requires { self.old.number + length piece.now < 2 ^ 64 }
        ensures ok { (first : H) → OnOk result (CarriesOn (H.handling first) (O.written output.old) (O.written output.new) (state_of self.old) (state_of self.new) piece.now []) }
        ensures err { (first : H) → IfErr result (λ halt. Ends (H.handling first) (ending_of halt) (O.written output.old) (O.written output.new) (state_of self.old) piece.now) }
        ensures number { OnOk result (self.new.number ≤ self.old.number + length piece.now) }
        ensures pending { self.new.pending ≡ [] }
        ensures up_to_date { (first : H) (had : Option (List ℕ)) (taken : List ℕ) → IsUpToDate (H.handling first) had (O.written output.old) (state_of self.old) taken
            → OnOk result (IsUpToDate (H.handling first) had (O.written output.new) (state_of self.new) (taken ++ piece.now)) }
        ensures later { O.faults output.old ≤ O.faults output.new }
        ensures rose { IsErrOf result Halt.WriteFault → Rose (O.faults output.old) (O.faults output.new) }
    {
        let taken = self.take_lines(piece, output);
        match self.flush(output) {
            Ok(()) => taken,
            Err(halt) => Err(halt),
        }
    }

    /// Ends the input, and writes the text of its end. `BadLine` if the input may not end here; `WriteFault` if the
    /// output failed; `NoMemory` if memory runs out.
    pub fn finish<O: Sink>(&self, output: &mut O) -> Result<(), Halt<H::Refusal>>
        requires number { self.now.number < 2 ^ 64 - 1 }
        requires pending { self.now.pending ≡ [] }
        ensures ok { (first : H) → OnOk result (Finishes (H.handling first) InputEnd.Done (O.written output.old) (O.written output.new) (state_of self.now)) }
        ensures err { (first : H) → IfErr result (λ halt. Finishes (H.handling first) (ending_of halt) (O.written output.old) (O.written output.new) (state_of self.now)) }
        ensures later { O.faults output.old ≤ O.faults output.new }
        ensures rose { IsErrOf result Halt.WriteFault → Rose (O.faults output.old) (O.faults output.new) }
    {
        let line = self.number + 1;
        if !self.part.is_empty() {
            let why = LineRefusal::Cut;
            return Err(Halt::BadLine { line, why });
        }
        let mut text = Bytes::new(self.alloc);
        match self.handler.end(&mut text) {
            Ok(()) => {}
            Err(Stop::Refused(why)) => {
                let why = LineRefusal::Refused(why);
                return Err(Halt::BadLine { line, why });
            }
            Err(Stop::NoMemory) => return Err(Halt::NoMemory),
        }
        match put_all(output, text.as_slice()) {
            Ok(()) => Ok(()),
            Err(_) => Err(Halt::WriteFault),
        }
    }
}
