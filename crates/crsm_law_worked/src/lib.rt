//! Worked runs of a cluster's nodes, over devices that are written out: two runs of a node that meet the premises of
//! the law of runs, and runs in which one of its premises fails and agreement with it.
#![tactic(auto)]

ghost use Rattle.std.specs.Prelude.{◌≡◌, length};
ghost use Rattle.crsm_law_worked.specs.Breaking.{ClustersAreSmall, ForgetfulDisksBreak, LostFilesBreak};
ghost use Rattle.crsm_law_worked.specs.Kept.{LostGroupsMayStay};
ghost use Rattle.crsm_law_worked.specs.Started.{SharedNumbersBreak, UsedFilesBreak, WrongSizesBreak};
ghost use Rattle.crsm_law_worked.specs.Worked.{WorkedRuns};

use crsm_law_processes::{processes_are_histories, steps_of_processes_are_right};

/// Shows a node that runs twice over one log file, so that the premises of the law of runs can be met. Its first run
/// answers a client, takes one more request and is killed before this is synced; its second run boots on the file,
/// begins the next epoch and answers the second client, which asks again. The processes that the runs were make a
/// lawful history in which the first answer is sent. The addresses of replicas 0 and 1 are any two.
pub fn runs_happen(peers: &Vec<u64>)
    requires two { length peers.now.items ≡ 2 }
    ensures { (two : length peers.now.items ≡ 2) → WorkedRuns peers.now two }
{
    processes_are_histories();
    steps_of_processes_are_right();
}

/// Shows runs over a file that has what the first of them could not sync before its disk failed, and the run of a
/// replica that the cluster did not begin with. They meet the premises of the law of runs: the first run was a process
/// that kept its last group, and the entry in it keeps its place, though nothing was sent of it.
pub fn lost_groups_may_stay(peers: &Vec<u64>)
    requires two { length peers.now.items ≡ 2 }
    ensures { (two : length peers.now.items ≡ 2) → LostGroupsMayStay peers.now two }
{
    processes_are_histories();
    steps_of_processes_are_right();
}

/// Shows two runs of which the second finds a file that the first cannot leave: they execute different entries at
/// one place.
pub fn lost_files_break(peers: &Vec<u64>)
    requires two { length peers.now.items ≡ 2 }
    ensures { (two : length peers.now.items ≡ 2) → LostFilesBreak peers.now two }
{}

/// Shows two runs over a disk that forgets what was synced: they execute different entries at one place.
pub fn forgetful_disks_break(peers: &Vec<u64>)
    requires two { length peers.now.items ≡ 2 }
    ensures { (two : length peers.now.items ≡ 2) → ForgetfulDisksBreak peers.now two }
{}

/// Shows a node of replica 1 that is started with the number 0, on an empty file of its own: it and the node of
/// replica 0 execute different entries at one place.
pub fn shared_numbers_break(peers: &Vec<u64>)
    requires two { length peers.now.items ≡ 2 }
    ensures { (two : length peers.now.items ≡ 2) → SharedNumbersBreak peers.now two }
{}

/// Shows a first run of replica 1 that finds a file with an entry that another cluster executed: it and the run of
/// replica 0 execute different entries at one place.
pub fn used_files_break(peers: &Vec<u64>)
    requires two { length peers.now.items ≡ 2 }
    ensures { (two : length peers.now.items ≡ 2) → UsedFilesBreak peers.now two }
{}

/// Shows a node that was told that its cluster began with one replica, where it began with three: it executes an entry
/// and answers the client, and in the history of its process nothing is executed.
pub fn wrong_sizes_break(peers: &Vec<u64>)
    requires two { length peers.now.items ≡ 2 }
    ensures { (two : length peers.now.items ≡ 2) → WrongSizesBreak peers.now two }
{
    processes_are_histories();
    steps_of_processes_are_right();
}

/// States that each cluster in which a node runs began with at most 15 replicas.
pub fn clusters_are_small()
    ensures { ClustersAreSmall }
{}
