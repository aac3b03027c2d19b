//! Values of slots, made from commands or read back from bytes.

ghost use Rattle.std.specs.Prelude.{◌≡◌, IfOk};
ghost use Rattle.std.specs.Option.{option_map};
ghost use Rattle.crsm_base.specs.Reading.{command_at};
ghost use Rattle.crsm_base.specs.Spelling.{FitsCommand};
ghost use Rattle.crsm_mpledger.specs.Reading.{value_at};

use crsm_base::{Bytes, Command, NoMemory};
use crsm_mpspec::{SharedCommand, SharedValue};
use crsm_text_fields::{put_command, take_command};
use std::alloc::Global;

/// Returns a command of one owner, with its encoding. `NoMemory` if memory runs out.
pub fn share_command(alloc: Global, command: Command) -> Result<SharedCommand, NoMemory>
    requires { FitsCommand command }
    ensures { IfOk result (λ shared. shared ≡ command) }
{
    let mut bytes = Bytes::new(alloc);
    bytes.push(1)?;
    put_command(&command, &mut bytes)?;
    SharedCommand::new(alloc, command, bytes)
}

/// Returns the value of a noop of one owner. `NoMemory` if memory runs out.
pub fn share_noop(alloc: Global) -> Result<SharedValue, NoMemory>
    ensures { IfOk result (λ shared. shared ≡ None) }
{
    let mut bytes = Bytes::new(alloc);
    bytes.push(0)?;
    SharedValue::new(alloc, None, bytes)
}

/// Parses a command from the prefix of the bytes, and returns it with the bytes after it. `None` if none begins there;
/// `NoMemory` if memory runs out.
fn take_shared(alloc: Global, bytes: &[u8]) -> Result<Option<(SharedCommand, &[u8])>, NoMemory>
    ensures { IfOk result (λ r. option_map (λ x. (x.0, x.1.now)) r ≡ command_at bytes.now) }
{
    let Some((command, rest)) = take_command(alloc, bytes)? else {
        return Ok(None);
    };
    Ok(Some((share_command(alloc, command)?, rest)))
}

#[tactic(auto, unfolding(crate::specs::Reading::value_at))]
/// Parses the value of a slot from the prefix of the bytes, and returns it with the bytes after it. `None` if none
/// begins there; `NoMemory` if memory runs out.
pub(crate) fn take_value(
    alloc: Global,
    bytes: &[u8],
) -> Result<Option<(SharedValue, &[u8])>, NoMemory>
    ensures { IfOk result (λ r. option_map (λ x. (x.0, x.1.now)) r ≡ value_at bytes.now) }
{
    match bytes {
        [] => Ok(None),
        [0, rest @ ..] => Ok(Some((share_noop(alloc)?, rest))),
        [1, rest @ ..] => {
            let Some((command, rest)) = take_shared(alloc, rest)? else {
                return Ok(None);
            };
            Ok(Some((command.to_value()?, rest)))
        }
        [_, ..] => Ok(None),
    }
}
