//! The summary of a run.

ghost use Rattle.std.specs.Prelude.{◌≡◌, ◌+◌, ◌-◌, ◌^◌, ℕ};
ghost use Rattle.crsm_cmd_soak.specs.Counting.{executed_in, greatest, known_in};
ghost use Rattle.crsm_cmd_soak.specs.Soak.{IsBelow, more, nothing};

use crate::counting::{
    answers, drops, greatest_executed, greatest_known, refusals, sends, submissions,
};
use crsm_base::Line;

/// The summary of a run: counts over all its events. A replica that is down counts with its last executed length and
/// epoch. The counts of lines have 128 bits: an event has fewer than 2^64 lines, and a run fewer than 2^64 events.
#[derive(Clone, Copy, Debug)]
pub(crate) struct Summary {
    /// Number of events executed.
    pub steps: u64,
    /// Number of commands that a replica has logged.
    pub submitted: u128,
    /// The greatest executed length, in entries.
    pub executed: u64,
    pub answered: u128,
    pub refused: u128,
    /// Number of replies that a command is dropped.
    pub dropped: u128,
    /// The greatest known epoch.
    pub epoch: u64,
    /// Number of datagrams sent.
    pub datagrams: u128,
}

impl Summary {
    /// Returns the summary before any event, once the replicas have booted, which led to these lines.
    #[tactic(auto, unfolding(crate::specs::Soak::more, crate::specs::Soak::nothing))]
    pub fn new(lines: &[Line]) -> Summary
        ensures more { result ≡ more nothing 0 lines.now }
        ensures below { IsBelow 1 result }
    {
        Summary {
            steps: 0,
            submitted: u128::from(submissions(lines)),
            executed: 0,
            answered: u128::from(answers(lines)),
            refused: u128::from(refusals(lines)),
            dropped: u128::from(drops(lines)),
            epoch: 0,
            datagrams: u128::from(sends(lines)),
        }
    }

    /// Adds an event, which led to these lines.
    #[tactic(auto, unfolding(crate::specs::Soak::more))]
    pub fn add(&mut self, lines: &[Line])
        requires { IsBelow (2 ^ 64 - 1) self.old }
        ensures more { self.new ≡ more self.old 1 lines.now }
        ensures below { (n : ℕ) → IsBelow n self.old → IsBelow (n + 1) self.new }
    {
        self.steps += 1;
        self.submitted += u128::from(submissions(lines));
        self.answered += u128::from(answers(lines));
        self.refused += u128::from(refusals(lines));
        self.dropped += u128::from(drops(lines));
        self.datagrams += u128::from(sends(lines));
    }

    /// Adds the final lines of the run, one of each replica.
    pub fn end(&mut self, finals: &[Line])
        ensures { self.new ≡ record self.old { executed = greatest executed_in finals.now; epoch = greatest known_in finals.now } }
    {
        self.executed = greatest_executed(finals);
        self.epoch = greatest_known(finals);
    }
}
