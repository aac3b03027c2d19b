//! The lines of a plan: each is added to those read before.

ghost use Rattle.std.specs.Prelude.{◌≡◌, None, Some, IfErr, IfOk, IfSome, OnOk};
ghost use Rattle.crsm_delay.specs.Advancing.{Advances, RefusedAfter};
ghost use Rattle.crsm_delay.specs.Reading.{AddsWritten, StopsUnread};
ghost use Rattle.crsm_spec_plan.specs.Plans.{FitsPlan};

use crate::draft::Draft;
use crate::line::read_line;
use crate::moments::push_times;
use crate::reader::PlanReader;
use crate::timeline::push_timeline;
use crsm_base::{Bytes, NoMemory};
use crsm_port_lines::{Handler, Stop};
use crsm_schedule::read_first;
use crsm_spec_plan::Plan;
use std::alloc::Global;

/// The text that is written of a plan.
#[derive(Clone, Copy, Debug, PartialEq, Eq)]
pub enum Wanted {
    /// The moment at which each replica executes the command.
    Times,
    /// The schedule of a timeline.
    Schedule,
}

/// The cause for which a line of a plan is refused.
#[derive(Clone, Copy, Debug, PartialEq, Eq)]
pub enum PlanCause {
    /// The line is outside the grammar, or cannot follow.
    Unreadable,
}

/// Adds a line to a plan that has begun.
fn add_line(draft: &mut Draft, text: &[u8]) -> Result<(), Stop<PlanCause>>
    ensures ok { IfOk result (λ done. Advances (Some draft.old) text.now (Some draft.new)) }
    ensures err { IfErr result (λ stop. StopsUnread stop (Some draft.old) text.now) }
    ensures kept { IfErr result (λ stop. draft.new ≡ draft.old) }
{
    let Some(line) = read_line(text) else {
        return Err(Stop::Refused(PlanCause::Unreadable));
    };
    if !draft.allows(line) {
        return Err(Stop::Refused(PlanCause::Unreadable));
    }
    let Ok(()) = draft.add(line) else {
        return Err(Stop::NoMemory);
    };
    Ok(())
}

/// Begins a plan by its first line. `None` if it is not one.
fn first_line(alloc: Global, text: &[u8]) -> Option<Draft>
    ensures ok { IfSome result (λ draft. Advances None text.now (Some draft)) }
    ensures err { result ≡ None → RefusedAfter None text.now }
{
    let n = read_first(text)?;
    Some(Draft::new(alloc, u64::from(n)))
}

impl PlanReader {
    pub(crate) fn new(alloc: Global, wanted: Wanted) -> PlanReader
        ensures none { result.draft ≡ None }
        ensures wanted { result.wanted ≡ wanted }
    {
        PlanReader {
            alloc,
            wanted,
            draft: None,
        }
    }

    /// Adds a line, which is the first if none was read.
    fn advance(&mut self, text: &[u8]) -> Result<(), Stop<PlanCause>>
        ensures ok { IfOk result (λ done. Advances self.old.draft text.now self.new.draft) }
        ensures err { IfErr result (λ stop. StopsUnread stop self.old.draft text.now) }
        ensures wanted { self.new.wanted ≡ self.old.wanted }
    {
        match &mut self.draft {
            Some(draft) => add_line(draft, text),
            None => {
                let Some(draft) = first_line(self.alloc, text) else {
                    return Err(Stop::Refused(PlanCause::Unreadable));
                };
                self.draft = Some(draft);
                Ok(())
            }
        }
    }

    /// Appends the wanted text of a plan.
    fn push_wanted(&self, text: &mut Bytes, plan: &Plan) -> Result<(), NoMemory>
        requires { FitsPlan plan.now }
        ensures { OnOk result (AddsWritten self.now.wanted plan.now text.old text.new) }
    {
        match self.wanted {
            Wanted::Times => push_times(text, plan),
            Wanted::Schedule => push_timeline(self.alloc, text, plan),
        }
    }
}

impl Handler for PlanReader {
    type Refusal = PlanCause;

    ghost use Rattle.crsm_delay.specs.Reading.{plans_of};

    ghost handling = { λ r. plans_of r.wanted };

    fn line(&mut self, _at: u64, line: &[u8], _text: &mut Bytes) -> Result<(), Stop<PlanCause>> {
        self.advance(line)
    }

    fn end(&self, text: &mut Bytes) -> Result<(), Stop<PlanCause>> {
        let Some(draft) = &self.draft else {
            return Err(Stop::Refused(PlanCause::Unreadable));
        };
        if !draft.is_whole {
            return Err(Stop::Refused(PlanCause::Unreadable));
        }
        let Ok(()) = self.push_wanted(text, &draft.plan) else {
            return Err(Stop::NoMemory);
        };
        Ok(())
    }
}
