//! The effects of a step of an active replica, and its counts of received datagrams between steps.
//!
//! The changes of a step (`crsm_fact_step`) are what it may do. These laws say what it must do: which frames it
//! receives, which acknowledgements it sends, what it executes, retransmits and answers. The laws of worlds say what an
//! active replica has counted, in every world that a cluster reaches.
#![tactic(auto)]

ghost use Rattle.crsm_law_active.specs.Counted.{AcksAreEntered, CountsHold};
ghost use Rattle.crsm_law_active.specs.Served.{NothingIsLeft};
ghost use Rattle.crsm_law_active.specs.Again.{StepsSendAgain};
ghost use Rattle.crsm_law_active.specs.Answering.{StepsAnswer};
ghost use Rattle.crsm_law_active.specs.Musts.{StepsExecute, StepsPay, StepsTake};
ghost use Rattle.crsm_law_active.specs.Staying.{StepsStay};
ghost use Rattle.crsm_law_active.specs.Telling.{LinksTellLittle};

/// An active replica receives a valid frame that is next on its link, if its record fits.
pub fn steps_take()
    ensures { StepsTake }
{}

/// At a tick each pending PREPAREOK is sent, if the clock is past its stamp and far from 2^64.
pub fn steps_pay()
    ensures { StepsPay }
{}

/// No entry is ready to be executed after a step.
pub fn steps_execute()
    ensures { StepsExecute }
{}

/// At a tick all unacknowledged frames of a link are sent in order, those pushed at this tick included, if at most 64
/// were unacknowledged before it.
pub fn steps_send_again()
    ensures { StepsSendAgain }
{}

/// A step leaves the replica in its epoch, with no entry of its own logged, if its input is a tick, a frame, an
/// acknowledgement, or a part that completes at most a known decision or a RETRIEVE.
pub fn steps_stay()
    ensures { StepsStay }
{}

/// By such a step each waiting client whose entry is executed is answered, and the others keep waiting.
pub fn steps_answer()
    ensures { StepsAnswer }
{}

/// A step on a frame or an acknowledgement sends, besides these, at most the known decision or one RETRIEVE; a tick of
/// an active replica sends frames only.
pub fn links_tell_little()
    ensures { LinksTellLittle }
{}

/// Each active replica has counted what it received: the times and votes of frames, and for each logged entry its own
/// vote and the origin's. It has pushed or still has pending each PREPAREOK, its links all carry the same times, and it
/// has received what it acknowledged.
pub fn counts_hold()
    ensures { CountsHold }
{}

/// A replica that acknowledges a frame of an epoch has entered that epoch.
pub fn acks_are_entered()
    ensures { AcksAreEntered }
{}

/// Between steps no entry is ready at an active replica, and each client waiting there waits for an entry of this
/// replica in the known epoch that is logged and not executed.
pub fn nothing_is_left()
    ensures { NothingIsLeft }
{}
