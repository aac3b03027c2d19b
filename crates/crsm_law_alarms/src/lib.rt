//! An audit raises no false alarm: it says of sheets that the nodes of a cluster wrote that they agree, if the last
//! sheet of each node is complete.
#![tactic(auto)]

ghost use Rattle.crsm_law_alarms.specs.Laws.{AuditsOfWholeSheetsAgree, AuditsRaiseNoFalseAlarm};

use crsm_codec::one_spelling_each;
use crsm_law_honest::{honest_sheets_agree, whole_sheets_are_complete};
use crsm_text_sheet::sheets_are_one;

/// An audit of sheets that nodes wrote says that they agree, if the last sheet of each node has every own entry that
/// its log file has.
pub fn audits_raise_no_false_alarm()
    ensures { AuditsRaiseNoFalseAlarm }
{
    one_spelling_each();
    sheets_are_one();
    honest_sheets_agree();
}

/// It does if the last sheet of each node is that of the node's last process, with all turns that this one kept.
pub fn audits_of_whole_sheets_agree()
    ensures { AuditsOfWholeSheetsAgree }
{
    one_spelling_each();
    sheets_are_one();
    whole_sheets_are_complete();
    audits_raise_no_false_alarm();
}
