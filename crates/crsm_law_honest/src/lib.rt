//! Sheets that the nodes of a cluster wrote: they agree, if the last sheet of each node is complete.
#![tactic(auto)]

ghost use Rattle.crsm_law_honest.specs.Cases.{CutSheetsRaiseAlarms};
ghost use Rattle.crsm_law_honest.specs.Laws.{HonestSheetsAgree, WholeSheetsAreComplete};

use crsm_law_lives::steps_are_right;

/// Sheets that nodes wrote have none of the faults that an audit looks for, if the last sheet of each node has every
/// own entry that its log file has. Sheets may lack their last lines otherwise.
pub fn honest_sheets_agree()
    ensures { HonestSheetsAgree }
{
    steps_are_right();
}

/// The last sheet of a node is complete if it is that of the node's last process, with all turns that this one kept: a
/// process that was killed may have kept turns whose lines it never wrote.
pub fn whole_sheets_are_complete()
    ensures { WholeSheetsAreComplete }
{}

/// There are a history and sheets of it that are complete. Without the last line of one of them, which its node was
/// killed before it wrote, an entry is a stranger: the premise of the law is needed.
pub fn cut_sheets_raise_alarms()
    ensures { CutSheetsRaiseAlarms }
{}
