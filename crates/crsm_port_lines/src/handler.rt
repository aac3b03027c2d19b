//! The trait of handlers of an input's lines.

ghost use Rattle.std.specs.Prelude.{◌≡◌, ◌+◌, ◌++◌, ◌∷◌, [], ℕ, List, IfErr, OnOk, length};
ghost use Rattle.crsm_port_lines.specs.Handling.{Handling, Handles, EndsWell, StopsAt, StopsAtEnd};

use crsm_base::{Bytes, NoMemory};

/// The reason why a line was not handled.
#[derive(Clone, Copy, Debug, PartialEq, Eq)]
pub enum Stop<R> {
    /// The handler refuses it, for this reason.
    Refused(R),
    /// Memory ran out.
    NoMemory,
}

impl<R> From<NoMemory> for Stop<R> {
    ghost use Rattle.std.specs.Prelude.{◌≡◌};
    ghost use Rattle.crsm_port_lines.specs.declared.handler.Stop.TheVariants.{NoMemory as no_memory};

    ghost from_gives = { λ _ e. e ≡ no_memory };

    fn from(_e: NoMemory) -> Stop<R> {
        Stop::NoMemory
    }
}

/// Handles the lines of an input one after another, each without its line feed.
pub trait Handler {
    /// The reason why a line is refused.
    type Refusal: Copy;

    /// Which lines the handler accepts and with which text, from its state before the first line.
    ghost handling: { Self → Handling Self Self.Refusal };

    /// Handles a line and appends its text. `at` is the line's number, from 1. `Refused` leaves `text` unchanged;
    /// `NoMemory` may have cut off its end.
    fn line(&mut self, at: u64, line: &[u8], text: &mut Bytes) -> Result<(), Stop<Self::Refusal>>
        ensures ok { (first : Self) (lines : List (List ℕ)) (shown : List ℕ) → at ≡ length lines + 1 → (handling first).after self.old lines shown
            → OnOk result (Handles (handling first) self.new lines shown line.now text.old text.new) }
        ensures err { (first : Self) (lines : List (List ℕ)) (shown : List ℕ) → at ≡ length lines + 1 → (handling first).after self.old lines shown
            → IfErr result (λ stop. StopsAt (handling first) lines shown line.now text.old text.new stop) };

    /// Ends the input and appends the text of its end. `Refused` if the input may not end here; `NoMemory` if memory
    /// runs out.
    fn end(&self, text: &mut Bytes) -> Result<(), Stop<Self::Refusal>>
        ensures ok { (first : Self) (lines : List (List ℕ)) (shown : List ℕ) → (handling first).after self.now lines shown
            → OnOk result (EndsWell (handling first) lines shown text.old text.new) }
        ensures err { (first : Self) (lines : List (List ℕ)) (shown : List ℕ) → (handling first).after self.now lines shown
            → IfErr result (λ stop. StopsAtEnd (handling first) lines shown stop) };
}
