//! Laws of the replay of a sheet.

ghost use Rattle.crsm_replica_rerun.specs.Laws.{BadLogsAreOne, KeptAreNotBad, SheetsHaveOneText};

use crsm_codec::one_spelling_each;
use crsm_text_sheet::sheets_are_one;

/// States that a sheet has one replayed text. It runs no code.
pub fn sheets_have_one_text()
    ensures { SheetsHaveOneText }
{
    one_spelling_each();
    sheets_are_one();
}

/// States that bodies which are not a log have one first bad body and one reason. It runs no code.
pub fn bad_logs_are_one()
    ensures kept { KeptAreNotBad }
    ensures one { BadLogsAreOne }
{
    one_spelling_each();
}
