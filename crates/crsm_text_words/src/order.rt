//! The task that a command line asks for.

ghost use Rattle.std.specs.Prelude.{◌≡◌};
ghost use Rattle.crsm_text_words.specs.Plans.{HasOwnPeer, plan_of};

use crate::address::Addresses;
use crsm_base::{Bytes, Command, Key, Members};

/// An action of the command `lock`.
#[derive(Clone, Copy, Debug, PartialEq, Eq)]
pub enum LockAction {
    /// Takes the lock if it is free.
    Take,
    /// Gives the lock back.
    Give,
    /// Takes the lock away from its owner.
    Break,
}

/// The task of running one replica over UDP and a log file.
#[derive(Debug, Drop)]
pub struct NodeTask {
    /// The replica's number, 0 to 14.
    pub me: u32,
    /// The number of replicas that began the cluster, 1 to 15.
    pub n: u32,
    /// The number of turns until the node exits, up to 10^12: each receives a datagram or waits a millisecond for one.
    pub turns: u64,
    /// The address of each replica, in the order of their numbers.
    pub peers: Addresses,
}

/// The task of taking, giving back or breaking a lock.
#[derive(Debug, Drop)]
pub struct LockTask {
    /// The address of the replica that is asked, IPv4 x 65,536 + port.
    pub to: u64,
    /// The maximum number of turns (receives) to wait for each reply, 1 to 1,000,000.
    pub turns: u64,
    /// The number of the client, which owns the locks that it takes.
    pub client: u64,
    /// The number of the client's first command.
    pub number: u64,
    pub key: Key,
    pub action: LockAction,
}

/// The part of a log's dump that is wanted.
#[derive(Clone, Copy, Debug, PartialEq, Eq)]
pub enum DumpPart {
    /// The state of the replica, the keys and the clients.
    All,
    /// The state of the replica and the clients.
    State,
    /// The keys.
    Keys,
}

/// A task of the program, with its values.
#[derive(Debug, Drop)]
pub enum Task {
    /// Shows this text, which was asked for: help, or the version.
    Show(Bytes),
    /// Runs a schedule from standard input.
    Replay,
    /// Replays the sheet of node `me`, whose cluster began with `n` replicas.
    ReplayNode {
        me: u32,
        n: u32,
    },
    /// Runs a replica.
    Node(NodeTask),
    /// Asks the replica at address `to` for one command, and waits up to `turns` receives for the reply.
    Client {
        to: u64,
        turns: u64,
        command: Command,
    },
    /// Asks the replica at address `to` to change the members.
    Operate {
        to: u64,
        members: Members,
    },
    /// Runs `steps` events drawn by a generator with the seed `number`, in a cluster of `n` replicas.
    Soak {
        number: u64,
        n: u32,
        steps: u64,
    },
    /// Compares the sheets of the nodes of a cluster that began with `n` replicas.
    Audit {
        n: u32,
    },
    /// Takes, gives back or breaks a lock.
    Lock(LockTask),
    /// Writes the schedule of one command with given delays and clock offsets.
    Delay,
    /// Writes the moment at which each replica executes the command, in microseconds.
    DelayTimes,
    /// Runs a schedule in the store with a leader.
    ReplayMp,
    /// Writes what the log of node `me` says, whose cluster began with `n` replicas.
    Dump {
        me: u32,
        n: u32,
        part: DumpPart,
    },
}

/// A task and the number of its cluster, which is 0 if the words name none.
#[derive(Drop)]
pub struct Order {
    pub cluster: u64,
    pub task: Task,
}

/// The system's devices that a task uses.
#[derive(Clone, Copy, Debug, PartialEq, Eq)]
pub enum DevicePlan {
    /// Standard input and output only.
    Plain,
    /// A socket bound to the address `bind` (IPv4 x 65,536 + port), and the log file of replica `me`.
    Node { me: u32, bind: u64 },
    /// A socket at any free port.
    Socket,
}

impl Task {
    /// Returns the devices that the task uses.
    pub fn plan(&self) -> DevicePlan
        requires { HasOwnPeer self.now }
        ensures { result ≡ plan_of self.now }
    {
        match self {
            Task::Node(node) => DevicePlan::Node {
                me: node.me,
                bind: node.peers.as_slice()[node.me as usize],
            },
            Task::Client { .. } | Task::Operate { .. } | Task::Lock(_) => DevicePlan::Socket,
            _ => DevicePlan::Plain,
        }
    }
}
