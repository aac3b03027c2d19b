//! Formatting of transcript lines.

ghost use Rattle.std.specs.Prelude.{◌≡◌, ◌≤◌, ◌++◌, ◌∷◌, [], OnOk, codes, decimal, length};
ghost use Rattle.crsm_text.specs.Words.{named, numbers};
ghost use Rattle.crsm_schedule.specs.Transcript.{line_text, kind_text, state_text};

use crsm_base::{Bytes, Line, NoMemory, SendKind, State};
use crsm_text::{
    push_answer, push_hex, push_members, push_named, push_numbered, push_numbered_wide,
    push_numbers,
};

/// Returns the word for a kind of datagram, with a space on both sides.
fn spaced_kind(kind: SendKind) -> &'static [u8]
    ensures text { result.now ≡ 32 ∷ (kind_text kind ++ 32 ∷ []) }
    ensures short { length result.now ≤ 8 }
{
    match kind {
        SendKind::Frame => b" frame ",
        SendKind::Ack => b" ack ",
        SendKind::Part => b" part ",
    }
}

fn push_state(out: &mut Bytes, state: State) -> Result<(), NoMemory>
    ensures { OnOk result (out.new ≡ out.old ++ state_text state) }
{
    match state {
        State::Live => out.append(b"live"),
        State::Held => out.append(b"held"),
        State::Out => out.append(b"out"),
        State::Down => out.append(b"down"),
    }
}

/// Appends the line number and the part that all reply lines begin with, up to the space before the outcome.
fn push_reply(
    out: &mut Bytes,
    at: u64,
    replica: u32,
    client: u64,
    number: u64,
) -> Result<(), NoMemory>
    ensures { OnOk result (out.new ≡ out.old ++ (decimal at ++ 32 ∷ (named (codes "reply") (replica ∷ client ∷ number ∷ []) ++ 32 ∷ []))) }
{
    let values = [u64::from(replica), client, number];
    push_numbered(out, at, b"reply", &values, b" ")
}

fn push_final(
    out: &mut Bytes,
    replica: u32,
    state: State,
    known: u64,
    executed: u64,
) -> Result<(), NoMemory>
    ensures { OnOk result (out.new ≡ out.old ++ (named (codes "final") (replica ∷ []) ++ 32 ∷ (state_text state ++ numbers (known ∷ executed ∷ [])) ++ 10 ∷ [])) }
{
    push_named(out, b"final", &[u64::from(replica)])?;
    out.push(b' ')?;
    push_state(out, state)?;
    push_numbers(out, &[known, executed])?;
    out.push(b'\n')
}

/// Appends a transcript line with its line feed. `at` is the number, from 1, of the input line that caused it; a final
/// line has none. `NoMemory` if memory runs out; a prefix of the line may then have been appended.
pub fn push_line(out: &mut Bytes, at: u64, line: &Line) -> Result<(), NoMemory>
    ensures { OnOk result (out.new ≡ out.old ++ line_text at line.now) }
{
    match line {
        Line::Boot { replica, count } => {
            let values = [u64::from(*replica), *count];
            push_numbered(out, at, b"boot", &values, b"\n")
        }
        Line::Submit {
            replica,
            epoch,
            time,
            client,
            number,
        } => {
            let values = [u64::from(*replica), *epoch, *time, *client, *number];
            push_numbered(out, at, b"submit", &values, b"\n")
        }
        Line::Log {
            replica,
            epoch,
            stamp,
        } => {
            let origin = u64::from(stamp.origin);
            let values = [u64::from(*replica), *epoch, stamp.time, origin];
            push_numbered(out, at, b"log", &values, b"\n")
        }
        Line::Exec {
            replica,
            place,
            epoch,
            stamp,
            client,
            number,
            answer,
        } => {
            let replica = u64::from(*replica);
            let origin = u64::from(stamp.origin);
            let values = [
                replica, *place, *epoch, stamp.time, origin, *client, *number,
            ];
            push_numbered(out, at, b"exec", &values, b" ")?;
            push_answer(out, answer)?;
            out.push(b'\n')
        }
        Line::Suspend { replica, epoch } => {
            let values = [u64::from(*replica), *epoch];
            push_numbered(out, at, b"suspend", &values, b"\n")
        }
        Line::Promise {
            replica,
            instance,
            round,
            by,
        } => {
            let values = [u64::from(*replica), *instance, *round, u64::from(*by)];
            push_numbered(out, at, b"promise", &values, b"\n")
        }
        Line::Accept {
            replica,
            instance,
            round,
            by,
        } => {
            let values = [u64::from(*replica), *instance, *round, u64::from(*by)];
            push_numbered(out, at, b"accept", &values, b"\n")
        }
        Line::Decide {
            replica,
            epoch,
            members,
            base_len,
            count,
        } => {
            let values = [u64::from(*replica), *epoch];
            push_numbered(out, at, b"decide", &values, b" ")?;
            push_members(out, members)?;
            push_numbers(out, &[*base_len, *count])?;
            out.push(b'\n')
        }
        Line::Enter { replica, epoch } => {
            let values = [u64::from(*replica), *epoch];
            push_numbered(out, at, b"enter", &values, b"\n")
        }
        Line::TooMany {
            replica,
            epoch,
            count,
            bytes,
        } => {
            let values = [u64::from(*replica), *epoch, *count];
            push_numbered_wide(out, at, b"toomany", &values, *bytes)
        }
        Line::Send {
            index,
            from,
            to,
            kind,
            bytes,
        } => {
            let values = [*index, u64::from(*from), u64::from(*to)];
            push_numbered(out, at, b"send", &values, spaced_kind(*kind))?;
            push_hex(out, bytes.as_slice())?;
            out.push(b'\n')
        }
        Line::ReplyOk {
            replica,
            client,
            number,
            place,
            answer,
        } => {
            push_reply(out, at, *replica, *client, *number)?;
            push_named(out, b"ok", &[*place])?;
            out.push(b' ')?;
            push_answer(out, answer)?;
            out.push(b'\n')
        }
        Line::ReplyNo {
            replica,
            client,
            number,
            code,
        } => {
            push_reply(out, at, *replica, *client, *number)?;
            push_named(out, b"no", &[u64::from(*code)])?;
            out.push(b'\n')
        }
        Line::ReplyDropped {
            replica,
            client,
            number,
            epoch,
            stamp,
        } => {
            push_reply(out, at, *replica, *client, *number)?;
            let origin = u64::from(stamp.origin);
            push_named(out, b"no", &[6, *epoch, stamp.time, origin])?;
            out.push(b'\n')
        }
        Line::Down { replica } => {
            let values = [u64::from(*replica)];
            push_numbered(out, at, b"down", &values, b"\n")
        }
        Line::Final {
            replica,
            state,
            known,
            executed,
        } => push_final(out, *replica, *state, *known, *executed),
        Line::Out { to, bytes } => {
            push_numbered(out, at, b"out", &[u64::from(*to)], b" ")?;
            push_hex(out, bytes.as_slice())?;
            out.push(b'\n')
        }
        Line::Back { address, bytes } => {
            push_numbered(out, at, b"back", &[*address], b" ")?;
            push_hex(out, bytes.as_slice())?;
            out.push(b'\n')
        }
    }
}
