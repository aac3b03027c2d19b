//! Sheets of several nodes of one cluster: when they agree with one list, and the safety of sheets that agree. The laws
//! are about what each node found and took, so they hold of forged sheets too.
#![tactic(auto)]

ghost use Rattle.crsm_law_sheets.specs.Laws.{AgreeingSheetsAreSafe, EntriesStandInOrder, ExecutedListsGrow, OneListRises};

use crsm_fact_step::steps_are_changes;

/// If sheets agree (their final lists are prefixes of one list, each entry of it was logged at its origin if that has a
/// sheet, and no executed entry was reported as dropped), then executed lists at all moments are prefixes of that list,
/// each reply is right by it, and each node keeps real time.
pub fn agreeing_sheets_are_safe()
    ensures { AgreeingSheetsAreSafe }
{
    steps_are_changes();
}

/// The one list of sheets rises by epoch and stamp, whether they agree or not.
pub fn one_list_rises()
    ensures { OneListRises }
{}

/// In a rising list, an entry at a lower index is before one at a higher index.
pub fn entries_stand_in_order()
    ensures { EntriesStandInOrder }
{}

/// The executed list of a log is a prefix of that of the log with records appended.
pub fn executed_lists_grow()
    ensures { ExecutedListsGrow }
{}
