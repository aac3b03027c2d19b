//! Printing of the lines of a transcript.

ghost use Rattle.std.specs.Prelude.{◌≡◌, ◌≤◌, ◌++◌, ◌∷◌, [], OnOk, codes, decimal, length};
ghost use Rattle.crsm_text.specs.Words.{named, numbers};
ghost use Rattle.crsm_text.specs.Values.{answer_text};
ghost use Rattle.crsm_mpreplay.specs.Transcript.{kind_text, line_text, state_text};

use crsm_base::{Answer, Bytes, NoMemory};
use crsm_mpspec::{MpKind, MpLine};
use crsm_text::{LineNumber, Page, push_answer, push_named, push_numbers};

/// Returns the word for a kind of message, with a space before it and a line feed after it.
fn ended_kind(kind: MpKind) -> &'static [u8]
    ensures text { result.now ≡ 32 ∷ (kind_text kind ++ 10 ∷ []) }
    ensures short { length result.now ≤ 8 }
{
    match kind {
        MpKind::Prep => b" prep\n",
        MpKind::Prom => b" prom\n",
        MpKind::No => b" no\n",
        MpKind::Acc => b" acc\n",
        MpKind::Accd => b" accd\n",
        MpKind::Learn => b" learn\n",
        MpKind::Ask => b" ask\n",
    }
}

/// Appends the number of a line, the part that the lines of all replies begin with, and a space.
fn push_reply(
    out: &mut Bytes,
    page: &mut Page,
    at: &LineNumber,
    replica: u32,
    client: u64,
    number: u64,
) -> Result<(), NoMemory>
    ensures out { OnOk result (out.new ≡ (out.old ++ page.old) ++ (decimal at.now ++ 32 ∷ (named (codes "reply") (replica ∷ client ∷ number ∷ []) ++ 32 ∷ []))) }
    ensures page { OnOk result (page.new ≡ []) }
{
    let values = [u64::from(replica), client, number];
    page.push(out, at, b"reply", &values, b" ")?;
    page.flush(out)
}

/// Appends a line that ends with an answer. The answers that have no value are appended with the line.
fn push_answered(
    out: &mut Bytes,
    page: &mut Page,
    at: &LineNumber,
    name: &[u8],
    values: &[u64],
    answer: &Answer,
) -> Result<(), NoMemory>
    requires name { length name.now ≤ 8 }
    requires values { length values.now ≤ 8 }
    ensures { OnOk result (out.new ++ page.new ≡ (out.old ++ page.old) ++ (decimal at.now ++ 32 ∷ ((named name.now values.now ++ 32 ∷ answer_text answer.now) ++ 10 ∷ []))) }
{
    match answer {
        Answer::Missing => page.push(out, at, name, values, b" missing\n"),
        Answer::Done => page.push(out, at, name, values, b" done\n"),
        Answer::NoRoom => page.push(out, at, name, values, b" noroom\n"),
        Answer::Found(_) | Answer::Differs(_) | Answer::Stale(_) => {
            page.push(out, at, name, values, b" ")?;
            page.flush(out)?;
            push_answer(out, answer)?;
            out.push(b'\n')
        }
    }
}

fn push_state(out: &mut Bytes, up: bool) -> Result<(), NoMemory>
    ensures { OnOk result (out.new ≡ out.old ++ state_text up) }
{
    if up {
        out.append(b"up")
    } else {
        out.append(b"down")
    }
}

fn push_final(out: &mut Bytes, replica: u32, up: bool, executed: u64) -> Result<(), NoMemory>
    ensures { OnOk result (out.new ≡ out.old ++ (named (codes "final") (replica ∷ []) ++ 32 ∷ (state_text up ++ numbers (executed ∷ [])) ++ 10 ∷ [])) }
{
    push_named(out, b"final", &[u64::from(replica)])?;
    out.push(b' ')?;
    push_state(out, up)?;
    push_numbers(out, &[executed])?;
    out.push(b'\n')
}

/// Adds a line of the transcript with its line feed, after the number of the input line that caused it. A final line has
/// no number. What does not fit on the page is moved to the end of `out`. `NoMemory` if memory runs out.
pub fn push_line(
    out: &mut Bytes,
    page: &mut Page,
    at: &LineNumber,
    line: &MpLine,
) -> Result<(), NoMemory>
    ensures { OnOk result (out.new ++ page.new ≡ (out.old ++ page.old) ++ line_text at.now line.now) }
{
    match line {
        MpLine::Boot { replica, count } => {
            let values = [u64::from(*replica), *count];
            page.push(out, at, b"boot", &values, b"\n")
        }
        MpLine::Submit {
            replica,
            slot,
            round,
            by,
            client,
            number,
        } => {
            let (replica, by) = (u64::from(*replica), u64::from(*by));
            let values = [replica, *slot, *round, by, *client, *number];
            page.push(out, at, b"submit", &values, b"\n")
        }
        MpLine::Accept {
            replica,
            slot,
            round,
            by,
        } => {
            let values = [u64::from(*replica), *slot, *round, u64::from(*by)];
            page.push(out, at, b"accept", &values, b"\n")
        }
        MpLine::Promise { replica, round, by } => {
            let values = [u64::from(*replica), *round, u64::from(*by)];
            page.push(out, at, b"promise", &values, b"\n")
        }
        MpLine::Choose { replica, slot } => {
            let values = [u64::from(*replica), *slot];
            page.push(out, at, b"choose", &values, b"\n")
        }
        MpLine::Exec {
            replica,
            slot,
            client,
            number,
            answer,
        } => {
            let values = [u64::from(*replica), *slot, *client, *number];
            push_answered(out, page, at, b"exec", &values, answer)
        }
        MpLine::ExecNoop { replica, slot } => {
            let values = [u64::from(*replica), *slot];
            page.push(out, at, b"exec", &values, b" noop\n")
        }
        MpLine::Send {
            index,
            from,
            to,
            kind,
        } => {
            let values = [*index, u64::from(*from), u64::from(*to)];
            page.push(out, at, b"send", &values, ended_kind(*kind))
        }
        MpLine::ReplyOk {
            replica,
            client,
            number,
            place,
            answer,
        } => {
            push_reply(out, page, at, *replica, *client, *number)?;
            push_named(out, b"ok", &[*place])?;
            out.push(b' ')?;
            push_answer(out, answer)?;
            out.push(b'\n')
        }
        MpLine::ReplyNo {
            replica,
            client,
            number,
            code,
        } => {
            push_reply(out, page, at, *replica, *client, *number)?;
            push_named(out, b"no", &[u64::from(*code)])?;
            out.push(b'\n')
        }
        MpLine::ReplyDropped {
            replica,
            client,
            number,
            slot,
        } => {
            push_reply(out, page, at, *replica, *client, *number)?;
            push_named(out, b"no", &[6, *slot])?;
            out.push(b'\n')
        }
        MpLine::Down { replica } => {
            let values = [u64::from(*replica)];
            page.push(out, at, b"down", &values, b"\n")
        }
        MpLine::Final {
            replica,
            up,
            executed,
        } => {
            page.flush(out)?;
            push_final(out, *replica, *up, *executed)
        }
    }
}
