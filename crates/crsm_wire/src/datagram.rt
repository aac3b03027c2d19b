//! Parsing of datagrams from whole inputs.

ghost use Rattle.std.specs.Prelude.{◌≡◌, ◌≤◌, ◌+◌, ◌<◌, ◌==◌, IfOk, IsErrOf, Some, None, length, []};
ghost use Rattle.std.specs.Option.{option_map};
ghost use Rattle.crsm_base.specs.Limits.{most_parts};
ghost use Rattle.crsm_base.specs.Messages.{part_least, part_most};
ghost use Rattle.crsm_base.specs.Parser.{end_at, whole};
ghost use Rattle.crsm_base.specs.MessageReading.{prepare_at, prepare_ok_at, clock_time_at, payload_at, part_fields_at, part_at, frame_at, ack_at, request_at, reply_at, operate_at, datagram_at};

use crate::fault::WireError;
use crsm_base::{Bytes, Datagram, InEpoch, MAX_CONTROL_BYTES, MAX_PARTS, NoMemory, PART_BYTES};
use crsm_text_fields::{
    take_command, take_entry, take_members, take_outcome, take_replica, take_stamp, take_u8,
    take_u32, take_u64,
};
use std::alloc::Global;

#[tactic(auto, unfolding(crsm_base::specs::MessageReading::prepare_at))]
fn take_prepare(alloc: Global, bytes: &[u8]) -> Result<Option<(InEpoch, &[u8])>, NoMemory>
    ensures { IfOk result (λ r. option_map (λ x. (x.0, x.1.now)) r ≡ prepare_at bytes.now) }
{
    match take_entry(alloc, bytes) {
        Ok(Some((entry, rest))) => Ok(Some((InEpoch::Prepare { entry }, rest))),
        Ok(None) => Ok(None),
        Err(NoMemory) => Err(NoMemory),
    }
}

#[tactic(auto, unfolding(crsm_base::specs::MessageReading::prepare_ok_at))]
fn take_prepare_ok(_alloc: Global, bytes: &[u8]) -> Result<Option<(InEpoch, &[u8])>, NoMemory>
    ensures { IfOk result (λ r. option_map (λ x. (x.0, x.1.now)) r ≡ prepare_ok_at bytes.now) }
{
    let Some((stamp, rest)) = take_stamp(bytes) else {
        return Ok(None);
    };
    let Some((at, rest)) = take_u64(rest) else {
        return Ok(None);
    };
    Ok(Some((InEpoch::PrepareOk { stamp, at }, rest)))
}

#[tactic(auto, unfolding(crsm_base::specs::MessageReading::clock_time_at))]
fn take_clock_time(_alloc: Global, bytes: &[u8]) -> Result<Option<(InEpoch, &[u8])>, NoMemory>
    ensures { IfOk result (λ r. option_map (λ x. (x.0, x.1.now)) r ≡ clock_time_at bytes.now) }
{
    let Some((at, rest)) = take_u64(bytes) else {
        return Ok(None);
    };
    Ok(Some((InEpoch::ClockTime { at }, rest)))
}

#[tactic(auto, unfolding(crsm_base::specs::MessageReading::payload_at))]
fn take_payload(alloc: Global, bytes: &[u8]) -> Result<Option<(InEpoch, &[u8])>, NoMemory>
    ensures { IfOk result (λ r. option_map (λ x. (x.0, x.1.now)) r ≡ payload_at bytes.now) }
{
    let Some((tag, rest)) = take_u8(bytes) else {
        return Ok(None);
    };
    match tag {
        1 => take_prepare(alloc, rest),
        2 => take_prepare_ok(alloc, rest),
        3 => take_clock_time(alloc, rest),
        _ => Ok(None),
    }
}

#[tactic(auto, unfolding(crsm_base::specs::MessageReading::frame_at))]
fn read_frame(alloc: Global, bytes: &[u8]) -> Result<Datagram, WireError>
    ensures one { IfOk result (λ datagram. whole (frame_at bytes.now) ≡ Some datagram) }
    ensures none { IsErrOf result WireError.NotOne → whole (frame_at bytes.now) ≡ None }
{
    let Some((from, rest)) = take_replica(bytes) else {
        return Err(WireError::NotOne);
    };
    let Some((to, rest)) = take_replica(rest) else {
        return Err(WireError::NotOne);
    };
    let Some((epoch, rest)) = take_u64(rest) else {
        return Err(WireError::NotOne);
    };
    let Some((seq, rest)) = take_u64(rest) else {
        return Err(WireError::NotOne);
    };
    let Ok(taken) = take_payload(alloc, rest) else {
        return Err(WireError::NoMemory);
    };
    let Some((payload, rest)) = taken else {
        return Err(WireError::NotOne);
    };
    if !rest.is_empty() {
        drop(payload);
        return Err(WireError::NotOne);
    }
    Ok(Datagram::Frame {
        from,
        to,
        epoch,
        seq,
        payload,
    })
}

#[tactic(auto, unfolding(crsm_base::specs::MessageReading::ack_at))]
fn read_ack(bytes: &[u8]) -> Result<Datagram, WireError>
    ensures one { IfOk result (λ datagram. whole (ack_at bytes.now) ≡ Some datagram) }
    ensures none { IsErrOf result WireError.NotOne → whole (ack_at bytes.now) ≡ None }
{
    let Some((from, rest)) = take_replica(bytes) else {
        return Err(WireError::NotOne);
    };
    let Some((to, rest)) = take_replica(rest) else {
        return Err(WireError::NotOne);
    };
    let Some((epoch, rest)) = take_u64(rest) else {
        return Err(WireError::NotOne);
    };
    let Some((next, rest)) = take_u64(rest) else {
        return Err(WireError::NotOne);
    };
    if !rest.is_empty() {
        return Err(WireError::NotOne);
    }
    Ok(Datagram::Ack {
        from,
        to,
        epoch,
        next,
    })
}

#[tactic(auto, unfolding(crsm_base::specs::MessageReading::request_at))]
fn read_request(alloc: Global, bytes: &[u8]) -> Result<Datagram, WireError>
    ensures one { IfOk result (λ datagram. whole (request_at bytes.now) ≡ Some datagram) }
    ensures none { IsErrOf result WireError.NotOne → whole (request_at bytes.now) ≡ None }
{
    let Ok(taken) = take_command(alloc, bytes) else {
        return Err(WireError::NoMemory);
    };
    let Some((command, rest)) = taken else {
        return Err(WireError::NotOne);
    };
    if !rest.is_empty() {
        drop(command);
        return Err(WireError::NotOne);
    }
    Ok(Datagram::Request { command })
}

#[tactic(auto, unfolding(crsm_base::specs::MessageReading::reply_at))]
fn read_reply(alloc: Global, bytes: &[u8]) -> Result<Datagram, WireError>
    ensures one { IfOk result (λ datagram. whole (reply_at bytes.now) ≡ Some datagram) }
    ensures none { IsErrOf result WireError.NotOne → whole (reply_at bytes.now) ≡ None }
{
    let Some((client, rest)) = take_u64(bytes) else {
        return Err(WireError::NotOne);
    };
    let Some((number, rest)) = take_u64(rest) else {
        return Err(WireError::NotOne);
    };
    let Ok(taken) = take_outcome(alloc, rest) else {
        return Err(WireError::NoMemory);
    };
    let Some((outcome, rest)) = taken else {
        return Err(WireError::NotOne);
    };
    if !rest.is_empty() {
        drop(outcome);
        return Err(WireError::NotOne);
    }
    Ok(Datagram::Reply {
        client,
        number,
        outcome,
    })
}

#[tactic(auto, unfolding(crsm_base::specs::MessageReading::operate_at))]
fn read_operate(alloc: Global, bytes: &[u8]) -> Result<Datagram, WireError>
    ensures one { IfOk result (λ datagram. whole (operate_at bytes.now) ≡ Some datagram) }
    ensures none { IsErrOf result WireError.NotOne → whole (operate_at bytes.now) ≡ None }
{
    let Ok(taken) = take_members(alloc, bytes) else {
        return Err(WireError::NoMemory);
    };
    let Some((members, rest)) = taken else {
        return Err(WireError::NotOne);
    };
    if !rest.is_empty() {
        drop(members);
        return Err(WireError::NotOne);
    }
    Ok(Datagram::Operate { members })
}

fn least_length(index: u32, count: u32) -> usize
    requires { index < count }
    ensures { result ≡ part_least index count }
{
    if index + 1 < count {
        PART_BYTES as usize
    } else {
        1
    }
}

fn greatest_length(index: u32, count: u32) -> usize
    requires index { index < count }
    requires count { count ≤ most_parts }
    ensures { result ≡ part_most index count }
{
    if index + 1 < count || count < MAX_PARTS {
        PART_BYTES as usize
    } else {
        (MAX_CONTROL_BYTES - (MAX_PARTS - 1) * PART_BYTES) as usize
    }
}

#[tactic(auto, unfolding(crsm_base::specs::MessageReading::part_at, crsm_base::specs::MessageReading::part_fields_at, crsm_base::specs::Parser::end_at))]
fn read_part(alloc: Global, bytes: &[u8]) -> Result<Datagram, WireError>
    ensures one { IfOk result (λ datagram. whole (part_at bytes.now) ≡ Some datagram) }
    ensures none { IsErrOf result WireError.NotOne → whole (part_at bytes.now) ≡ None }
{
    let Some((from, rest)) = take_replica(bytes) else {
        return Err(WireError::NotOne);
    };
    let Some((to, rest)) = take_replica(rest) else {
        return Err(WireError::NotOne);
    };
    let Some((boot, rest)) = take_u64(rest) else {
        return Err(WireError::NotOne);
    };
    let Some((number, rest)) = take_u64(rest) else {
        return Err(WireError::NotOne);
    };
    let Some((index, rest)) = take_u32(rest) else {
        return Err(WireError::NotOne);
    };
    let Some((count, rest)) = take_u32(rest) else {
        return Err(WireError::NotOne);
    };
    if index >= count || count > MAX_PARTS {
        return Err(WireError::NotOne);
    }
    if rest.len() < least_length(index, count) || rest.len() > greatest_length(index, count) {
        return Err(WireError::NotOne);
    }
    match Bytes::from_slice(alloc, rest) {
        Ok(bytes) => Ok(Datagram::Part {
            from,
            to,
            boot,
            number,
            index,
            count,
            bytes,
        }),
        Err(NoMemory) => Err(WireError::NoMemory),
    }
}

/// Parses a datagram from all of the bytes. `NotOne` if they are no datagram's encoding; `NoMemory` if memory runs out.
#[tactic(auto, unfolding(crsm_base::specs::MessageReading::datagram_at))]
pub fn read_whole(alloc: Global, bytes: &[u8]) -> Result<Datagram, WireError>
    ensures one { IfOk result (λ datagram. whole (datagram_at bytes.now) ≡ Some datagram) }
    ensures none { IsErrOf result WireError.NotOne → whole (datagram_at bytes.now) ≡ None }
{
    let Some((tag, rest)) = take_u8(bytes) else {
        return Err(WireError::NotOne);
    };
    match tag {
        1 => read_frame(alloc, rest),
        2 => read_ack(rest),
        3 => read_part(alloc, rest),
        4 => read_request(alloc, rest),
        5 => read_reply(alloc, rest),
        6 => read_operate(alloc, rest),
        _ => Err(WireError::NotOne),
    }
}
