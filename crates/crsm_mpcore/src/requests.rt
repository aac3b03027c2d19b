//! The rule for requests of clients: they are refused, or accepted at the leader's next slot.

ghost use Rattle.std.specs.Prelude.{◌≡◌, IfOk, IfErr};
ghost use Rattle.crsm_base.specs.Spelling.{FitsCommand};
ghost use Rattle.crsm_mpspec.specs.Deciding as deciding;
ghost use Rattle.crsm_mpspec.specs.Types.{Command as CommandOnPaper};
ghost use Rattle.crsm_mpreplica.specs.State.{Makes, MakesWhere, WhereStands};
ghost use Rattle.crsm_mpcore.specs.Requests.{IsNext, refusal_code};

use crate::deciding::submit;
use crsm_base::{Ballot, Command, NoMemory};
use crsm_mpreplica::{MpReplica, Note};
use crsm_mpspec::{MpLine, SharedCommand};

/// The reason for refusing a command, with its code in the reply.
#[derive(Clone, Copy)]
enum MpRefusal {
    NotLeading = 1,
    NoSlotLeft = 5,
}

/// Handles a client's command: only a leader in the promised ballot accepts it, at the next slot.
pub(crate) fn on_request(state: &mut MpReplica, command: &SharedCommand) -> Result<(), NoMemory>
    ensures { MakesWhere (λ x. FitsCommand command.now) (deciding.on_request command.now) state.old result state.new }
{
    match next_slot(state) {
        Ok((ballot, slot)) => {
            state.pass_slot();
            submit(state, ballot, slot, command)?;
            Ok(())
        }
        Err(why) => {
            refuse(state, command.get(), why)?;
            Ok(())
        }
    }
}

/// Returns the ballot in which the replica leads, and the slot of the next command. The error is the reason for
/// refusing it.
fn next_slot(state: &MpReplica) -> Result<(Ballot, u64), MpRefusal>
    ensures ok { IfOk result (λ next. WhereStands state.now (λ x. IsNext next.0 next.1 x)) }
    ensures err { IfErr result (λ why. WhereStands state.now (λ x. (command : CommandOnPaper) → deciding.on_request command x ≡ deciding.refuse (refusal_code why) command x)) }
{
    let Note::Leading(leading) = state.note() else {
        return Err(MpRefusal::NotLeading);
    };
    if leading.ballot != state.ledger().promised() {
        return Err(MpRefusal::NotLeading);
    }
    if leading.next == u64::MAX {
        return Err(MpRefusal::NoSlotLeft);
    }
    Ok((leading.ballot, leading.next))
}

/// Refuses a client's command.
fn refuse(state: &mut MpReplica, command: &Command, why: MpRefusal) -> Result<(), NoMemory>
    ensures { Makes (deciding.refuse (refusal_code why) command.now) state.old result state.new }
{
    let line = MpLine::ReplyNo {
        replica: state.me(),
        client: command.client,
        number: command.number,
        code: code_of(why),
    };
    state.reply(line)?;
    Ok(())
}

/// Returns the code of a refusal in its line.
fn code_of(why: MpRefusal) -> u32
    ensures { result ≡ refusal_code why }
{
    why as u32
}
