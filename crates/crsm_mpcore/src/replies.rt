//! Replies to waiting clients.

ghost use Rattle.std.specs.Prelude.{◌≡◌, IfOk};
ghost use Rattle.crsm_mpspec.specs.Log.{executed};
ghost use Rattle.crsm_mpspec.specs.Step as steps;
ghost use Rattle.crsm_mpreplica.specs.State.{Makes, waiting_of};
ghost use Rattle.crsm_mpcore.specs.Replies.{WhereExecuted, answer_at};

use crate::same::is_command;
use crsm_base::{Answer, Command, NoMemory};
use crsm_mpreplica::MpReplica;
use crsm_mpspec::MpLine;

/// Answers each waiting client whose slot is executed. The others continue to wait.
pub(crate) fn replies(state: &mut MpReplica) -> Result<(), NoMemory>
    ensures { Makes steps.replies state.old result state.new }
{
    for _replied in 0..state.waiting_len() {
        let Some((slot, command)) = state.next_due() else {
            return Ok(());
        };
        let line = reply_line(state, slot, command.get())?;
        state.reply(line)?;
    }
    Ok(())
}

/// Returns the reply to a command whose slot is executed: its answer, or that another value was chosen there.
#[tactic(auto, unfolding(crsm_mpspec::specs::Step::reply_line))]
fn reply_line(state: &MpReplica, slot: u64, command: &Command) -> Result<MpLine, NoMemory>
    ensures { IfOk result (λ line. WhereExecuted state.now slot (λ x v.
        line ≡ steps.reply_line x.replica.me (executed x.replica.log) (waiting_of (slot, command.now)) v)) }
{
    let (replica, client, number) = (state.me(), command.client, command.number);
    match answer_to(state, slot, command)? {
        Some(answer) => Ok(MpLine::ReplyOk {
            replica,
            client,
            number,
            place: slot,
            answer,
        }),
        None => Ok(MpLine::ReplyDropped {
            replica,
            client,
            number,
            slot,
        }),
    }
}

/// Returns the answer to a command, or `None` if another value was executed at the slot.
fn answer_to(state: &MpReplica, slot: u64, command: &Command) -> Result<Option<Answer>, NoMemory>
    ensures { IfOk result (λ answer. WhereExecuted state.now slot (λ x v. answer ≡ answer_at slot command.now v (executed x.replica.log))) }
{
    let Some(value) = state.ledger().executed(slot) else {
        return Ok(None);
    };
    if !is_command(command, value) {
        return Ok(None);
    }
    let answer = state.ledger().answer(slot)?;
    Ok(answer)
}
