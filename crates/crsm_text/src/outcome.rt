//! The line that shows a client the outcome of its command.

ghost use Rattle.std.specs.Prelude.{◌≡◌, ◌++◌, OnOk, OnErr};
ghost use Rattle.crsm_text.specs.Values.{outcome_text};

use crate::print::{push_answer, push_named};
use crsm_base::{Bytes, NoMemory, Outcome};
use std::alloc::Global;

fn push_outcome(out: &mut Bytes, outcome: &Outcome) -> Result<(), NoMemory>
    ensures { OnOk result (out.new ≡ out.old ++ outcome_text outcome.now) }
{
    match outcome {
        Outcome::Answered(answer) => {
            out.append(b"ok ")?;
            push_answer(out, answer)?;
        }
        Outcome::Refused(refusal) => push_named(out, b"no", &[*refusal as u64])?,
    }
    out.push(b'\n')
}

/// Appends the line that shows a client its outcome, with its line feed. `NoMemory` if memory runs out; `out` is then
/// unchanged.
pub fn print_outcome(alloc: Global, outcome: &Outcome, out: &mut Bytes) -> Result<(), NoMemory>
    ensures ok { OnOk result (out.new ≡ out.old ++ outcome_text outcome.now) }
    ensures err { OnErr result (out.new ≡ out.old) }
{
    let mut text = Bytes::new(alloc);
    push_outcome(&mut text, outcome)?;
    out.append(text.as_slice())?;
    Ok(())
}
