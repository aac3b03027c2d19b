//! The processes of a cluster's nodes over their log files make a lawful history with short logs: what is assumed of a
//! disk speaks of bodies in files, as the contract of `node` does, and not of logs.
#![tactic(auto)]

ghost use Rattle.crsm_law_processes.specs.Laws.{ProcessesAreHistories, StepsOfProcessesAreRight};

use crsm_codec::one_spelling_each;

/// If each process of a node finds the bodies that the one before it left, in log files whose bodies take at most 2^50 bytes, and
/// nobody sends in a replica's name, the processes make a lawful history, and no log of it is long.
pub fn processes_are_histories()
    ensures { ProcessesAreHistories }
{
    one_spelling_each();
}

/// Then the list that any kept step has executed is a prefix of one list, and all that it reported of it is right.
pub fn steps_of_processes_are_right()
    ensures { StepsOfProcessesAreRight }
{
    processes_are_histories();
}
