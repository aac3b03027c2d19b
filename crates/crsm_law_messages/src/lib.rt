//! Control messages: those received were sent, and those sent are true of their sender's log.
#![tactic(auto)]

ghost use Rattle.crsm_law_messages.specs.Laws.{ReceivedWasSent, ReceivedIsSent, SentIsTrue};
ghost use Rattle.crsm_law_messages.specs.Proposals.{CoordinatorsAreTrue, AskedWasAsked, ProposedWasProposed};
ghost use Rattle.crsm_law_messages.specs.Counted.{AnswersAreTrue, VotesAreTrue};

/// Each control message that a replica receives was sent to it by the replica that it names, whatever parts were lost,
/// repeated or reordered.
pub fn received_was_sent()
    ensures { ReceivedWasSent }
{}

/// If all messages sent can be encoded, a replica receives the messages that were sent, unchanged.
pub fn received_is_sent()
    ensures { ReceivedIsSent }
{}

/// A message sent is true of an earlier log of its sender, which the sender's log extends.
pub fn sent_is_true()
    ensures { SentIsTrue }
{}

/// A coordinator's state is true of its past: it asked for its ballot, and received the answers and votes that it has
/// counted.
pub fn coordinators_are_true()
    ensures { CoordinatorsAreTrue }
{}

/// The sender of a request for a ballot has asked for that ballot.
pub fn asked_was_asked()
    ensures { AskedWasAsked }
{}

/// The decision of a P2a was proposed in that ballot by its sender, over the answers of a majority.
pub fn proposed_was_proposed()
    ensures { ProposedWasProposed }
{}

/// Each answer that a coordinator counted is a promise recorded at the replica that answered, with the decision that it
/// had accepted.
pub fn answers_are_true()
    ensures { AnswersAreTrue }
{}

/// Each vote that a coordinator counted is an acceptance recorded at the replica that voted.
pub fn votes_are_true()
    ensures { VotesAreTrue }
{}
