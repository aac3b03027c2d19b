//! The causes for which a line of a sheet is refused.

ghost use Rattle.std.specs.Prelude.{◌≡◌};
ghost use Rattle.crsm_cmd_replay_node.specs.Causes.{cause_in};

use crsm_port_lines::LineRefusal;

/// The cause for which a line of a sheet is refused.
#[derive(Clone, Copy, Debug, PartialEq, Eq)]
pub enum SheetCause {
    /// The line is outside the grammar, or stands at a wrong place.
    Unreadable,
    /// The line is `open`, and the body with this number before it, from 0, is the first that is not a list of records
    /// (`why` 0), or has a first record that does not fit of kind `why` (1 to 9).
    BadLog { entry: u64, why: u32 },
}

/// Returns the cause to report for a bad line.
pub fn told_cause(why: LineRefusal<SheetCause>) -> SheetCause
    ensures { result ≡ cause_in why }
{
    match why {
        LineRefusal::Refused(cause) => cause,
        LineRefusal::TooLong | LineRefusal::Cut => SheetCause::Unreadable,
    }
}
