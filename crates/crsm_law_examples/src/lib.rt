//! Worked examples: schedules, and the complete transcripts that the definitions of `crsm_spec`, and of `crsm_mpspec`
//! for the store with a leader, give for them, byte for byte. Each file of `proofs/` proves the example of its name by
//! computation; there is no code.
#![tactic(auto)]

ghost use Rattle.crsm_law_examples.specs.Answering.{AnswersAndDrops};
ghost use Rattle.crsm_law_examples.specs.Calming.{ComesToCalm};
ghost use Rattle.crsm_law_examples.specs.Changing.{ChangesEpochs};

/// In the store with a leader there is a possible run in which one command is answered and another is dropped, so the
/// premises of its safety law can be met.
pub fn commands_are_answered()
    ensures { AnswersAndDrops }
{}

/// There is a possible run in which an epoch is decided and a command that the decision carried over is answered, so
/// the premises of the safety laws can be met.
pub fn epochs_change()
    ensures { ChangesEpochs }
{}

/// There is a possible run that reaches a calm state with an entry not executed, from which two calm rounds are
/// possible, so the premises of the liveness bound can be met.
pub fn calm_rounds_come()
    ensures { ComesToCalm }
{}
