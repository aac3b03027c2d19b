//! Laws of clients' numbers, each as the contract of a function that runs no code. They are about every list of
//! entries that is executed in order by the sequential store: a command that stands there again is done once.
#![tactic(auto)]

ghost use Rattle.crsm_law_once.specs.Example.{CommandsRepeat};
ghost use Rattle.crsm_law_once.specs.Laws.{AnswersTellTheFirst, NewNumbersAreExecuted, OldNumbersChangeNothing, OneChangesKeys, PassedNumbersAreStale, RepeatsAreAnsweredAlike};

/// Of all entries with one client and one number at most one changes the keys or their values.
pub fn one_changes_keys()
    ensures { OneChangesKeys }
{}

/// An entry behind one with its client's same number, or with a higher one, leaves the store as it is.
pub fn old_numbers_change_nothing()
    ensures { OldNumbersChangeNothing }
{}

/// An entry whose number is above all earlier ones of its client does what its operation says, unless the store has the
/// maximum number of clients and not this one.
pub fn new_numbers_are_executed()
    ensures { NewNumbersAreExecuted }
{}

/// An entry with a number that its client had before is answered as that one was, if no higher number of the client
/// stands between them.
pub fn repeats_are_answered_alike()
    ensures { RepeatsAreAnsweredAlike }
{}

/// An entry behind a higher number of its client is answered that its number is stale, unless the store has the maximum
/// number of clients and not this one.
pub fn passed_numbers_are_stale()
    ensures { PassedNumbersAreStale }
{}

/// Every answer to a client's number is the one that the first entry with that number got, or says that the number is
/// stale.
pub fn answers_tell_the_first()
    ensures { AnswersTellTheFirst }
{}

/// There is a list in which a command stands three times: it is done, it is answered again, and it is stale, so the
/// premises of these laws can be met.
pub fn commands_repeat()
    ensures { CommandsRepeat }
{}
