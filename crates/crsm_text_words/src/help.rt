//! What help says of each command: a line about it, its usage, and its words with an example.

/// The texts of a command.
#[derive(Clone, Copy)]
pub(crate) struct Help {
    /// What the command does, in a line.
    pub(crate) about: &'static str,
    /// The command line, without what may stand before it.
    pub(crate) usage: &'static str,
    /// What each word means and which form it has, what comes out, and an example.
    pub(crate) details: &'static str,
}

/// Returns the texts of a command, or those of the program if no command has this name.
pub(crate) fn help_of(command: &str) -> Help {
    match command {
        "node" => NODE,
        "client" => CLIENT,
        "operate" => OPERATE,
        "lock" => LOCK,
        "replay" => REPLAY,
        "replay-mp" => REPLAY_MP,
        "replay-node" => REPLAY_NODE,
        "dump" => DUMP,
        "audit" => AUDIT,
        "soak" => SOAK,
        "delay" => DELAY,
        _ => PRODUCT,
    }
}

/// What the program's own help says of all commands.
pub(crate) const PRODUCT: Help = Help {
    about: "A replicated key-value store",
    usage: "crsm [cluster C] COMMAND ..",
    details: "A first node, and a command:
  crsm node 0 1 1000000000000 127.0.0.1:7000 > /dev/null &
  crsm client 127.0.0.1:7000 5000 7 1 put 61 62

'crsm COMMAND --help' says what each word of a command means. Before node, client and operate may stand
'cluster C', the number of a cluster, at least 1: nodes and clients of other numbers are not heard.
The exit status is 0, or 2 for words that are none, or says with a line on standard error what failed.",
};

pub(crate) const NODE: Help = Help {
    about: "Runs a node of the store",
    usage: "crsm [cluster C] node ME N TURNS PEERS",
    details: "Words:
  ME      the node's number, 0 to 14
  N       with how many nodes the cluster began, 1 to 15: the same at all of them, and for good
  TURNS   after so many turns the node ends, up to 1000000000000; a turn takes a datagram or waits a millisecond for one
  PEERS   the addresses of nodes 0, 1, .., as IPv4:PORT with commas between: at least N, and at most 15

The node listens at its own address and keeps its log in the file crsm-ME.log of the folder that it is started in.
Standard output gets its sheet, what it took at each turn, some 30 KB a second: send it to a file or to /dev/null.

Example, the first of three nodes:
  crsm node 0 3 1000000000000 10.0.0.1:7000,10.0.0.2:7000,10.0.0.3:7000 > /dev/null",
};

pub(crate) const CLIENT: Help = Help {
    about: "Asks a node for one command and writes the answer",
    usage: "crsm [cluster C] client TO TURNS CLIENT NUMBER OP",
    details: "Words:
  TO      the node's address, IPv4:PORT; any node takes commands
  TURNS   how long to wait for the answer, in milliseconds at the least, 1 to 1000000
  CLIENT  the client's number, below 2^64; no two clients may have one number
  NUMBER  the command's number, which has to rise with each new command of the client
  OP      get KEY, put KEY VALUE, del KEY, or cas KEY OLD NEW where none stands for no value;
          keys (1 to 64 bytes) and values (up to 512) are hexadecimal, and 'empty' is a value without bytes

A command is done once, however often it is asked for under one number. Without an answer the status is 9: ask again
under the same number, at another node if you like.

Example:
  crsm client 10.0.0.1:7000 5000 7 1 put 636f6c6f7572 626c7565",
};

pub(crate) const OPERATE: Help = Help {
    about: "Asks a node to change which nodes take part",
    usage: "crsm [cluster C] operate TO MEMBERS",
    details: "Words:
  TO       the node's address, IPv4:PORT
  MEMBERS  the numbers of the nodes that are to take part, rising, with commas between

One datagram is sent, and nothing is written. Ask twice, a second apart, and see with client that all answer. Numbers
that were not there before make exactly these nodes the next replica set: name all that are to stay, and start the new
ones first.

Example, node 3 in the place of node 2:
  crsm operate 10.0.0.1:7000 0,1,3",
};

pub(crate) const LOCK: Help = Help {
    about: "Takes, gives back or breaks a lock and writes who has it",
    usage: "crsm lock TO TURNS CLIENT NUMBER KEY ACTION",
    details: "Words:
  TO      the node's address, IPv4:PORT
  TURNS   how long to wait for each answer, in milliseconds at the least, 1 to 1000000
  CLIENT  the client's number, which owns the locks that it takes
  NUMBER  the number of the client's next command; a lock has two commands, so count by two
  KEY     the lock's key, hexadecimal
  ACTION  take, give, or break, which takes the lock from whoever has it

Example:
  crsm lock 10.0.0.1:7000 5000 5 1 6c take",
};

pub(crate) const REPLAY: Help = Help {
    about: "Runs a schedule of a simulated cluster and writes its transcript",
    usage: "crsm replay < SCHEDULE",
    details: "Example:
  crsm replay < examples/first.schedule",
};

pub(crate) const REPLAY_MP: Help = Help {
    about: "Runs a schedule in the store with a leader (Multi-Paxos)",
    usage: "crsm replay-mp < SCHEDULE",
    details: "The same store and the same form of schedule, for a comparison: no node runs it.",
};

pub(crate) const REPLAY_NODE: Help = Help {
    about: "Runs a node's sheet again and writes what the node did",
    usage: "crsm replay-node ME N < SHEET",
    details: "Words:
  ME   the node's number, 0 to 14
  N    with how many nodes its cluster began, 1 to 15

Example:
  crsm replay-node 0 3 < sheet-0",
};

pub(crate) const DUMP: Help = Help {
    about: "Writes what a node's log file says: its state, the keys and the clients",
    usage: "crsm dump ME N [state|keys] < LOG",
    details: "Words:
  ME     the node's number, 0 to 14
  N      with how many nodes its cluster began, 1 to 15
  state  all lines but those of the keys
  keys   the lines of the keys alone, 'key KEY VALUE' in hexadecimal, in ascending order,
         and 'keys N', their number

The log is read as a start of the node reads it, and nothing is written to it; the node may run meanwhile.

Example:
  crsm dump 0 3 keys < crsm-0.log",
};

pub(crate) const AUDIT: Help = Help {
    about: "Compares the sheets of several nodes and writes whether they agree",
    usage: "crsm audit N < SHEETS",
    details: "Words:
  N    with how many nodes their cluster began, 1 to 15

The input has the sheets one after another, each behind a line 'node ME', those of one node in the order of its starts.

Example:
  for k in 0 1 2; do echo node $k; cat $k/sheet; done | crsm audit 3",
};

pub(crate) const SOAK: Help = Help {
    about: "Draws a schedule, runs it and writes a summary",
    usage: "crsm soak NUMBER N STEPS",
    details: "Words:
  NUMBER  the seed, below 2^64
  N       how many replicas, 1 to 15
  STEPS   how many events, up to 100000

Example:
  crsm soak 1 3 1000",
};

pub(crate) const DELAY: Help = Help {
    about: "Reckons when a command commits between sites with given delays",
    usage: "crsm delay [times] < PLAN",
    details: "Writes the schedule of the command's way, which replay runs; with 'times', when each site executes it, in
the unit of the plan.

Example:
  crsm delay times < examples/five_regions.plan",
};
