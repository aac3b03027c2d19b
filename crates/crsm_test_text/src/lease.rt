//! The table `lease`: a row is an action, a client, a key, the outcome of its Get and the outcome of the Cas that
//! follows, with a tab between each two. It answers the Cas that is asked for, if any, and the line that is shown.

ghost use Rattle.crsm_lease.specs.Rules.{IsAsked};

use crate::fault::Fault;
use crate::fields::{number_of, parted};
use crsm_base::{Answer, Bytes, Key, NoMemory, Op, Outcome, Refusal, Val};
use crsm_lease::{Action, NextStep, after_cas, after_get, print_told};
use crsm_text::{hex_of, push_hex};
use std::alloc::Global;

/// What a client does, and what it is answered.
#[derive(Drop)]
struct Row {
    action: Action,
    client: u64,
    key: Key,
    found: Box<Outcome>,
    changed: Box<Outcome>,
}

fn action_of(field: &str) -> Result<Action, Fault> {
    match field {
        "take" => Ok(Action::Take),
        "give" => Ok(Action::Give),
        "break" => Ok(Action::Break),
        _ => Err(Fault::Unreadable),
    }
}

fn key_of(alloc: Global, field: &str) -> Result<Key, Fault> {
    let bytes = hex_of(alloc, field.as_bytes())?;
    Ok(Key::from_slice(alloc, bytes.as_slice())?)
}

fn value_of(alloc: Global, field: &str) -> Result<Val, Fault> {
    if field == "empty" {
        return Ok(Val::new(alloc));
    }
    let bytes = hex_of(alloc, field.as_bytes())?;
    Ok(Val::from_slice(alloc, bytes.as_slice())?)
}

fn option_of(alloc: Global, field: &str) -> Result<Option<Val>, Fault> {
    if field == "none" {
        return Ok(None);
    }
    Ok(Some(value_of(alloc, field)?))
}

fn refusal_of(field: &str) -> Result<Refusal, Fault> {
    match number_of(field)? {
        1 => Ok(Refusal::NotLive),
        2 => Ok(Refusal::Suspended),
        3 => Ok(Refusal::Busy),
        4 => Ok(Refusal::Congested),
        5 => Ok(Refusal::ClockSpent),
        6 => Ok(Refusal::Dropped),
        _ => Err(Fault::Unreadable),
    }
}

fn bare_outcome(field: &str) -> Result<Outcome, Fault> {
    match field {
        "missing" => Ok(Outcome::Answered(Answer::Missing)),
        "done" => Ok(Outcome::Answered(Answer::Done)),
        "noroom" => Ok(Outcome::Answered(Answer::NoRoom)),
        _ => Err(Fault::Unreadable),
    }
}

fn valued_outcome(alloc: Global, field: &str) -> Result<Outcome, Fault> {
    let Some((name, value)) = field.split_once(' ') else {
        return bare_outcome(field);
    };
    match name {
        "found" => Ok(Outcome::Answered(Answer::Found(value_of(alloc, value)?))),
        "differs" => Ok(Outcome::Answered(Answer::Differs(option_of(alloc, value)?))),
        "stale" => Ok(Outcome::Answered(Answer::Stale(number_of(value)?))),
        "no" => Ok(Outcome::Refused(refusal_of(value)?)),
        _ => Err(Fault::Unreadable),
    }
}

fn outcome_of(alloc: Global, field: &str) -> Result<Box<Outcome>, Fault> {
    let outcome = valued_outcome(alloc, field)?;
    Ok(Box::new(alloc, outcome)?)
}

fn row_of(alloc: Global, text: &str) -> Result<Row, Fault> {
    let (action, rest) = parted(text, "\t")?;
    let (client, rest) = parted(rest, "\t")?;
    let (key, rest) = parted(rest, "\t")?;
    let (found, changed) = parted(rest, "\t")?;
    Ok(Row {
        action: action_of(action)?,
        client: number_of(client)?,
        key: key_of(alloc, key)?,
        found: outcome_of(alloc, found)?,
        changed: outcome_of(alloc, changed)?,
    })
}

fn push_value(out: &mut Bytes, value: &Option<Val>) -> Result<(), NoMemory> {
    match value {
        Some(value) => push_hex(out, value.as_slice()),
        None => out.append(b"none"),
    }
}

/// Adds the Cas that is asked for.
fn push_asked(out: &mut Bytes, op: &Op) -> Result<(), NoMemory> {
    let Op::Cas(key, expected, new) = op else {
        return out.append(b"no cas: ");
    };
    out.append(b"cas ")?;
    push_hex(out, key.as_slice())?;
    out.push(b' ')?;
    push_value(out, expected)?;
    out.push(b' ')?;
    push_value(out, new)?;
    out.append(b": ")
}

/// Adds the Cas that is asked for, and what its outcome leads to.
fn push_cas(alloc: Global, op: &Op, changed: &Outcome, out: &mut Bytes) -> Result<(), NoMemory>
    requires { IsAsked op.now }
{
    push_asked(out, op)?;
    print_told(alloc, after_cas(op, changed), out)
}

/// Appends what a row leads to.
fn push_told(alloc: Global, row: &Row, out: &mut Bytes) -> Result<(), NoMemory> {
    match after_get(alloc, row.action, row.client, &row.key, &row.found)? {
        NextStep::End(told) => print_told(alloc, told, out),
        NextStep::Ask(op) => {
            let told = push_cas(alloc, &op, &row.changed, out);
            drop(op);
            told
        }
    }
}

/// Appends the Cas that is asked for, if any, and the line that is shown.
pub fn tell(alloc: Global, row: &str, out: &mut Bytes) -> Result<(), Fault> {
    let row = row_of(alloc, row)?;
    let told = push_told(alloc, &row, out);
    drop(row);
    Ok(told?)
}
