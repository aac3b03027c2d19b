//! Encoding of control messages and datagrams. Where a function fails, a prefix of the encoding may have been appended.

ghost use Rattle.std.specs.Prelude.{◌≡◌, ◌<◌, ◌∷◌, ◌++◌, OnOk};
ghost use Rattle.crsm_base.specs.declared.Control.{Control as ControlOnPaper};
ghost use Rattle.crsm_base.specs.Spelling.{u64_bytes, ballot_bytes, FitsBallot, FitsDecision};
ghost use Rattle.crsm_base.specs.Messages.{bool_bytes, control_bytes, FitsControl, payload_bytes, FitsPayload, datagram_bytes, FitsDatagram};

use crate::head::{head, marked, put_clock_time, put_head, put_prepare_ok};
use crsm_base::{Ballot, Bytes, Control, Datagram, Decision, InEpoch, NoMemory};
use crsm_text_fields::{
    put_ballot, put_command, put_decision, put_entries, put_entry, put_members, put_option_stamp,
    put_option_vote, put_outcome, put_u8, put_u32, put_u64,
};

fn put_bool(flag: bool, out: &mut Bytes) -> Result<(), NoMemory>
    ensures { OnOk result (out.new ≡ out.old ++ bool_bytes flag) }
{
    if flag { put_u8(1, out) } else { put_u8(0, out) }
}

// Appends a tag byte and a number.
fn put_tagged_u64(tag: u8, number: u64, out: &mut Bytes) -> Result<(), NoMemory>
    ensures { OnOk result (out.new ≡ out.old ++ tag ∷ u64_bytes number) }
{
    out.append(&marked(tag, number))
}

// Appends a tag byte, the number of an instance and a ballot of it.
fn put_ballot_for(tag: u8, instance: u64, ballot: Ballot, out: &mut Bytes) -> Result<(), NoMemory>
    requires { FitsBallot ballot }
    ensures { OnOk result (out.new ≡ out.old ++ tag ∷ (u64_bytes instance ++ ballot_bytes ballot)) }
{
    put_tagged_u64(tag, instance, out)?;
    put_ballot(ballot, out)
}

/// Appends the encoding of a DECIDE message with this decision. `NoMemory` if memory runs out; a prefix may then have
/// been appended.
#[tactic(auto, unfolding(crsm_base::specs::Messages::control_bytes))]
pub fn put_decide(decision: &Decision, out: &mut Bytes) -> Result<(), NoMemory>
    requires { FitsDecision decision.now }
    ensures { OnOk result (out.new ≡ out.old ++ control_bytes (ControlOnPaper.Decide decision.now)) }
{
    put_u8(8, out)?;
    put_decision(decision, out)
}

/// Appends the encoding of a control message. `NoMemory` if memory runs out; a prefix may then have been appended.
#[tactic(auto, unfolding(crsm_base::specs::Messages::control_bytes))]
pub fn put_control(control: &Control, out: &mut Bytes) -> Result<(), NoMemory>
    requires { FitsControl control.now }
    ensures { OnOk result (out.new ≡ out.old ++ control_bytes control.now) }
{
    match control {
        Control::Suspend { epoch, after } => {
            put_tagged_u64(1, *epoch, out)?;
            put_option_stamp(*after, out)
        }
        Control::SuspendOk {
            epoch,
            executed,
            last,
            after,
            whole,
            entries,
        } => {
            put_tagged_u64(2, *epoch, out)?;
            put_u64(*executed, out)?;
            put_option_stamp(*last, out)?;
            put_option_stamp(*after, out)?;
            put_bool(*whole, out)?;
            put_entries(entries, out)
        }
        Control::P1a { instance, ballot } => { put_ballot_for(3, *instance, *ballot, out) }
        Control::P1b {
            instance,
            ballot,
            accepted,
        } => {
            put_ballot_for(4, *instance, *ballot, out)?;
            put_option_vote(accepted, out)
        }
        Control::P1no {
            instance,
            ballot,
            promised,
        } => {
            put_ballot_for(5, *instance, *ballot, out)?;
            put_ballot(*promised, out)
        }
        Control::P2a {
            instance,
            ballot,
            decision,
        } => {
            put_ballot_for(6, *instance, *ballot, out)?;
            put_decision(decision, out)
        }
        Control::P2b { instance, ballot } => { put_ballot_for(7, *instance, *ballot, out) }
        Control::Decide { decision } => put_decide(decision, out),
        Control::Retrieve { known, from } => {
            put_tagged_u64(9, *known, out)?;
            put_u64(*from, out)
        }
        Control::Page {
            known,
            from,
            entries,
        } => {
            put_tagged_u64(10, *known, out)?;
            put_u64(*from, out)?;
            put_entries(entries, out)
        }
    }
}

// Appends the head of a frame and its payload.
#[tactic(auto, unfolding(crsm_base::specs::Messages::payload_bytes))]
fn put_frame(prefix: &[u8; 19], payload: &InEpoch, out: &mut Bytes) -> Result<(), NoMemory>
    requires { FitsPayload payload.now }
    ensures { OnOk result (out.new ≡ out.old ++ (prefix.now ++ payload_bytes payload.now)) }
{
    match payload {
        InEpoch::Prepare { entry } => {
            out.append(prefix)?;
            put_u8(1, out)?;
            put_entry(entry, out)
        }
        InEpoch::PrepareOk { stamp, at } => put_prepare_ok(prefix, *stamp, *at, out),
        InEpoch::ClockTime { at } => {
            out.append(prefix)?;
            put_clock_time(*at, out)
        }
    }
}

/// Appends the encoding of a datagram. `NoMemory` if memory runs out; a prefix may then have been appended.
#[tactic(auto, unfolding(crsm_base::specs::Messages::datagram_bytes))]
pub fn put_datagram(datagram: &Datagram, out: &mut Bytes) -> Result<(), NoMemory>
    requires { FitsDatagram datagram.now }
    ensures { OnOk result (out.new ≡ out.old ++ datagram_bytes datagram.now) }
{
    match datagram {
        Datagram::Frame {
            from,
            to,
            epoch,
            seq,
            payload,
        } => {
            let prefix = head(1, *from, *to, *epoch, *seq);
            put_frame(&prefix, payload, out)
        }
        Datagram::Ack {
            from,
            to,
            epoch,
            next,
        } => put_head(2, *from, *to, *epoch, *next, out),
        Datagram::Part {
            from,
            to,
            boot,
            number,
            index,
            count,
            bytes,
        } => {
            put_head(3, *from, *to, *boot, *number, out)?;
            put_u32(*index, out)?;
            put_u32(*count, out)?;
            out.append(bytes.as_slice())
        }
        Datagram::Request { command } => {
            put_u8(4, out)?;
            put_command(command, out)
        }
        Datagram::Reply {
            client,
            number,
            outcome,
        } => {
            put_tagged_u64(5, *client, out)?;
            put_u64(*number, out)?;
            put_outcome(outcome, out)
        }
        Datagram::Operate { members } => {
            put_u8(6, out)?;
            put_members(members, out)
        }
    }
}
