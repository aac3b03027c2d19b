//! The runs of a cluster's nodes, as the contract of `run_node` describes each, make a lawful history: each run finds a
//! log file that the one before it may have left, whatever ended that one.
#![tactic(auto)]

ghost use Rattle.crsm_node.specs.Running.{devices_of};
ghost use Rattle.crsm_law_restarts.specs.Laws.{PacketsAreTheirs, RunsMakeHistories};

use crsm_clock::Clock;
use crsm_disk::Disk;
use crsm_io::Sink;
use crsm_law_processes::{processes_are_histories, steps_of_processes_are_right};
use crsm_port::Port;

/// Whatever the runs of a cluster's nodes were, one after another over one log file each, there are processes of the
/// law that they were; and every history of these in which nobody sends in a replica's name is lawful.
pub fn runs_make_histories<P: Port, D: Disk, C: Clock, O: Sink>()
    ensures { let at = devices_of D.meaning P.meaning C.readings O.written O.faults in
        RunsMakeHistories (λ (s : D × P × C × O). at s.0 s.1 s.2 s.3) }
{
    processes_are_histories();
    steps_of_processes_are_right();
}

/// The datagrams of a process that went out, as the contract of a node has them, are those that the process sends in
/// the history.
pub fn packets_are_theirs()
    ensures { PacketsAreTheirs }
{}
