//! The commands that requests and replies name.

ghost use Rattle.std.specs.Prelude.{◌≡◌, Some, IfSome};
ghost use Rattle.crsm_port_flow.specs.Turns.{IsCommandIn};

use crsm_text_fields::take_u64;
use crsm_wire::unmarked;

/// A client's command.
#[derive(Clone, Copy, PartialEq, Eq, Hash)]
pub(crate) struct Command {
    client: u64,
    number: u64,
}

impl Command {
    /// Returns the command that a request or a reply names, with or without the mark of a cluster.
    pub(crate) fn of(bytes: &[u8]) -> Option<Command>
        ensures named { IfSome result (λ c. IsCommandIn c bytes.now) }
        ensures only { (c : Command) → IsCommandIn c bytes.now → result ≡ Some c }
    {
        match unmarked(bytes) {
            [_, rest @ ..] => {
                let (client, rest) = take_u64(rest)?;
                let (number, _) = take_u64(rest)?;
                Some(Command { client, number })
            }
            _ => None,
        }
    }
}
