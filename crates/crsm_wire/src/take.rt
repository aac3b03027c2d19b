//! Parsing of control messages from a prefix of the bytes.

ghost use Rattle.std.specs.Prelude.{◌≡◌, IfOk};
ghost use Rattle.std.specs.Option.{option_map};
ghost use Rattle.crsm_base.specs.MessageReading.{bool_at, suspend_at, suspend_ok_at, p1a_at, p1b_at, p1no_at, p2a_at, p2b_at, decide_at, retrieve_at, page_at, control_at};

use crsm_base::{Control, NoMemory};
use crsm_text_fields::{
    take_ballot, take_decision, take_entries, take_option_stamp, take_option_vote, take_u8,
    take_u64,
};
use std::alloc::Global;

#[tactic(auto, unfolding(crsm_base::specs::MessageReading::bool_at))]
fn take_bool(bytes: &[u8]) -> Option<(bool, &[u8])>
    ensures { option_map (λ x. (x.0, x.1.now)) result ≡ bool_at bytes.now }
{
    let (tag, rest) = take_u8(bytes)?;
    match tag {
        0 => Some((false, rest)),
        1 => Some((true, rest)),
        _ => None,
    }
}

#[tactic(auto, unfolding(crsm_base::specs::MessageReading::suspend_at))]
fn take_suspend(_alloc: Global, bytes: &[u8]) -> Result<Option<(Control, &[u8])>, NoMemory>
    ensures { IfOk result (λ r. option_map (λ x. (x.0, x.1.now)) r ≡ suspend_at bytes.now) }
{
    let Some((epoch, rest)) = take_u64(bytes) else {
        return Ok(None);
    };
    let Some((after, rest)) = take_option_stamp(rest) else {
        return Ok(None);
    };
    Ok(Some((Control::Suspend { epoch, after }, rest)))
}

#[tactic(auto, unfolding(crsm_base::specs::MessageReading::suspend_ok_at))]
fn take_suspend_ok(alloc: Global, bytes: &[u8]) -> Result<Option<(Control, &[u8])>, NoMemory>
    ensures { IfOk result (λ r. option_map (λ x. (x.0, x.1.now)) r ≡ suspend_ok_at bytes.now) }
{
    let Some((epoch, rest)) = take_u64(bytes) else {
        return Ok(None);
    };
    let Some((executed, rest)) = take_u64(rest) else {
        return Ok(None);
    };
    let Some((last, rest)) = take_option_stamp(rest) else {
        return Ok(None);
    };
    let Some((after, rest)) = take_option_stamp(rest) else {
        return Ok(None);
    };
    let Some((whole, rest)) = take_bool(rest) else {
        return Ok(None);
    };
    match take_entries(alloc, rest) {
        Ok(Some((entries, rest))) => Ok(Some((
            Control::SuspendOk {
                epoch,
                executed,
                last,
                after,
                whole,
                entries,
            },
            rest,
        ))),
        Ok(None) => Ok(None),
        Err(NoMemory) => Err(NoMemory),
    }
}

#[tactic(auto, unfolding(crsm_base::specs::MessageReading::p1a_at))]
fn take_p1a(_alloc: Global, bytes: &[u8]) -> Result<Option<(Control, &[u8])>, NoMemory>
    ensures { IfOk result (λ r. option_map (λ x. (x.0, x.1.now)) r ≡ p1a_at bytes.now) }
{
    let Some((instance, rest)) = take_u64(bytes) else {
        return Ok(None);
    };
    let Some((ballot, rest)) = take_ballot(rest) else {
        return Ok(None);
    };
    Ok(Some((Control::P1a { instance, ballot }, rest)))
}

#[tactic(auto, unfolding(crsm_base::specs::MessageReading::p1b_at))]
fn take_p1b(alloc: Global, bytes: &[u8]) -> Result<Option<(Control, &[u8])>, NoMemory>
    ensures { IfOk result (λ r. option_map (λ x. (x.0, x.1.now)) r ≡ p1b_at bytes.now) }
{
    let Some((instance, rest)) = take_u64(bytes) else {
        return Ok(None);
    };
    let Some((ballot, rest)) = take_ballot(rest) else {
        return Ok(None);
    };
    match take_option_vote(alloc, rest) {
        Ok(Some((accepted, rest))) => Ok(Some((
            Control::P1b {
                instance,
                ballot,
                accepted,
            },
            rest,
        ))),
        Ok(None) => Ok(None),
        Err(NoMemory) => Err(NoMemory),
    }
}

#[tactic(auto, unfolding(crsm_base::specs::MessageReading::p1no_at))]
fn take_p1no(_alloc: Global, bytes: &[u8]) -> Result<Option<(Control, &[u8])>, NoMemory>
    ensures { IfOk result (λ r. option_map (λ x. (x.0, x.1.now)) r ≡ p1no_at bytes.now) }
{
    let Some((instance, rest)) = take_u64(bytes) else {
        return Ok(None);
    };
    let Some((ballot, rest)) = take_ballot(rest) else {
        return Ok(None);
    };
    let Some((promised, rest)) = take_ballot(rest) else {
        return Ok(None);
    };
    Ok(Some((
        Control::P1no {
            instance,
            ballot,
            promised,
        },
        rest,
    )))
}

#[tactic(auto, unfolding(crsm_base::specs::MessageReading::p2a_at))]
fn take_p2a(alloc: Global, bytes: &[u8]) -> Result<Option<(Control, &[u8])>, NoMemory>
    ensures { IfOk result (λ r. option_map (λ x. (x.0, x.1.now)) r ≡ p2a_at bytes.now) }
{
    let Some((instance, rest)) = take_u64(bytes) else {
        return Ok(None);
    };
    let Some((ballot, rest)) = take_ballot(rest) else {
        return Ok(None);
    };
    match take_decision(alloc, rest) {
        Ok(Some((decision, rest))) => Ok(Some((
            Control::P2a {
                instance,
                ballot,
                decision,
            },
            rest,
        ))),
        Ok(None) => Ok(None),
        Err(NoMemory) => Err(NoMemory),
    }
}

#[tactic(auto, unfolding(crsm_base::specs::MessageReading::p2b_at))]
fn take_p2b(_alloc: Global, bytes: &[u8]) -> Result<Option<(Control, &[u8])>, NoMemory>
    ensures { IfOk result (λ r. option_map (λ x. (x.0, x.1.now)) r ≡ p2b_at bytes.now) }
{
    let Some((instance, rest)) = take_u64(bytes) else {
        return Ok(None);
    };
    let Some((ballot, rest)) = take_ballot(rest) else {
        return Ok(None);
    };
    Ok(Some((Control::P2b { instance, ballot }, rest)))
}

#[tactic(auto, unfolding(crsm_base::specs::MessageReading::decide_at))]
fn take_decide(alloc: Global, bytes: &[u8]) -> Result<Option<(Control, &[u8])>, NoMemory>
    ensures { IfOk result (λ r. option_map (λ x. (x.0, x.1.now)) r ≡ decide_at bytes.now) }
{
    match take_decision(alloc, bytes) {
        Ok(Some((decision, rest))) => Ok(Some((Control::Decide { decision }, rest))),
        Ok(None) => Ok(None),
        Err(NoMemory) => Err(NoMemory),
    }
}

#[tactic(auto, unfolding(crsm_base::specs::MessageReading::retrieve_at))]
fn take_retrieve(_alloc: Global, bytes: &[u8]) -> Result<Option<(Control, &[u8])>, NoMemory>
    ensures { IfOk result (λ r. option_map (λ x. (x.0, x.1.now)) r ≡ retrieve_at bytes.now) }
{
    let Some((known, rest)) = take_u64(bytes) else {
        return Ok(None);
    };
    let Some((from, rest)) = take_u64(rest) else {
        return Ok(None);
    };
    Ok(Some((Control::Retrieve { known, from }, rest)))
}

#[tactic(auto, unfolding(crsm_base::specs::MessageReading::page_at))]
fn take_page(alloc: Global, bytes: &[u8]) -> Result<Option<(Control, &[u8])>, NoMemory>
    ensures { IfOk result (λ r. option_map (λ x. (x.0, x.1.now)) r ≡ page_at bytes.now) }
{
    let Some((known, rest)) = take_u64(bytes) else {
        return Ok(None);
    };
    let Some((from, rest)) = take_u64(rest) else {
        return Ok(None);
    };
    match take_entries(alloc, rest) {
        Ok(Some((entries, rest))) => Ok(Some((
            Control::Page {
                known,
                from,
                entries,
            },
            rest,
        ))),
        Ok(None) => Ok(None),
        Err(NoMemory) => Err(NoMemory),
    }
}

/// Parses a control message at the beginning of `bytes`. Returns it and the remaining bytes, or `None` if they do not
/// begin with one; `NoMemory` if memory runs out.
#[tactic(auto, unfolding(crsm_base::specs::MessageReading::control_at))]
pub fn take_control(alloc: Global, bytes: &[u8]) -> Result<Option<(Control, &[u8])>, NoMemory>
    ensures { IfOk result (λ r. option_map (λ x. (x.0, x.1.now)) r ≡ control_at bytes.now) }
{
    let Some((tag, rest)) = take_u8(bytes) else {
        return Ok(None);
    };
    match tag {
        1 => take_suspend(alloc, rest),
        2 => take_suspend_ok(alloc, rest),
        3 => take_p1a(alloc, rest),
        4 => take_p1b(alloc, rest),
        5 => take_p1no(alloc, rest),
        6 => take_p2a(alloc, rest),
        7 => take_p2b(alloc, rest),
        8 => take_decide(alloc, rest),
        9 => take_retrieve(alloc, rest),
        10 => take_page(alloc, rest),
        _ => Ok(None),
    }
}
