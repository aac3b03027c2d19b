//! Worked histories of running nodes: one in which every kind of event happens, and some in which a premise fails and a
//! law with it.
#![tactic(auto)]

ghost use Rattle.crsm_law_cases.specs.Cases.{AllHappens, ForgedFramesBreak, SendsWaitForKeeps, AnswersWaitForKeeps, OldLogsBreak};

/// There is a lawful history with an answer, a lost group, a restart, and a new replica that enters a decided epoch.
pub fn all_happens()
    ensures { AllHappens }
{}

/// There is a history with forged frames whose log files disagree; it is not lawful.
pub fn forged_frames_break()
    ensures { ForgedFramesBreak }
{}

/// There is a history in which a datagram is received before its sender has kept its records; it is not lawful.
pub fn sends_wait_for_keeps()
    ensures { SendsWaitForKeeps }
{}

/// An answer that is sent before its records are kept can be wrong.
pub fn answers_wait_for_keeps()
    ensures { AnswersWaitForKeeps }
{}

/// If a process boots on an older log than the last one left, executed lists can disagree.
pub fn old_logs_break()
    ensures { OldLogsBreak }
{}
