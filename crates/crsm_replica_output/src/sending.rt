//! Encoding and sending of control messages.

ghost use Rattle.std.specs.Prelude.{[], ◌∷◌, ◌++◌, IfOk, OnOk};
ghost use Rattle.crsm_base.specs.declared.Control.{Control};
ghost use Rattle.crsm_base.specs.declared.Datagram.{Datagram};
ghost use Rattle.crsm_base.specs.Messages.{FitsControl};
ghost use Rattle.crsm_base.specs.Spelling.{FitsDecision};
ghost use Rattle.crsm_spec.specs.Draft.{parts_to};
ghost use Rattle.crsm_replica_output.specs.Made.{Made, OutputStands};
ghost use Rattle.crsm_replica_output.specs.Spellings.{IsSpelling, IsSpellingOf, WhereNext};

use crate::output::Output;
use crsm_base::{Bytes, Control as Message, Datagram as Carried, Decision, NoMemory, PART_BYTES};
use crsm_segment::cut;
use crsm_wire::{put_control, put_decide};
use std::alloc::Global;

/// Returns the encoding of a control message. `NoMemory` if memory runs out.
pub fn spell(alloc: Global, message: &Message) -> Result<Bytes, NoMemory>
    requires { FitsControl message.now }
    ensures { IfOk result (λ bytes. IsSpellingOf bytes message.now) }
{
    let mut bytes = Bytes::new(alloc);
    put_control(message, &mut bytes)?;
    Ok(bytes)
}

/// Returns the encoding of the control message that carries a decision. `NoMemory` if memory runs out.
pub fn spell_decision(alloc: Global, decision: &Decision) -> Result<Bytes, NoMemory>
    requires { FitsDecision decision.now }
    ensures { IfOk result (λ bytes. IsSpellingOf bytes (Control.Decide decision.now)) }
{
    let mut bytes = Bytes::new(alloc);
    put_decide(decision, &mut bytes)?;
    Ok(bytes)
}

/// Sends a control message that fits in one part.
fn send_at_once(
    alloc: Global,
    output: &mut Output,
    from: u32,
    to: u32,
    boot: u64,
    number: u64,
    spelling: &[u8],
) -> Result<(), NoMemory>
    ensures { OnOk result ((m : Made) → OutputStands output.old m → OutputStands output.new (record m { sends = m.sends ++ (to, Datagram.Part from to boot number 0 1 spelling.now) ∷ [] })) }
{
    let mut bytes = Bytes::new(alloc);
    bytes.reserve(spelling.len())?;
    bytes.append(spelling)?;
    let part = Carried::Part {
        from,
        to,
        boot,
        number,
        index: 0,
        count: 1,
        bytes,
    };
    output.send(to, part)?;
    Ok(())
}

/// Sends the parts of a control message with this encoding to replica `to`. It is the `number`th control message that
/// boot `boot` of replica `from` makes. `NoMemory` if memory runs out.
pub fn send_parts(
    alloc: Global,
    output: &mut Output,
    from: u32,
    to: u32,
    boot: u64,
    number: u64,
    spelling: &[u8],
) -> Result<(), NoMemory>
    requires { IsSpelling spelling.now }
    ensures { OnOk result (WhereNext output.old from boot number spelling.now (λ r m c. OutputStands output.new (record m { sends = m.sends ++ parts_to r to c }))) }
{
    if spelling.len() <= PART_BYTES as usize {
        send_at_once(alloc, output, from, to, boot, number, spelling)?;
        return Ok(());
    }
    let parts = cut(alloc, from, to, boot, number, spelling)?;
    output.send_all(parts)?;
    Ok(())
}
