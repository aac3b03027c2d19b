//! Nodes as the program runs them: senders are checked by address, and replayed sheets are right.
#![tactic(auto)]

ghost use Rattle.crsm_law_nodes.specs.Addresses.{AddressesSuffice};
ghost use Rattle.crsm_law_nodes.specs.Sheets.{SheetsAreRight};

use crsm_law_lives::steps_are_right;
use crsm_port_peers::senders_are_named;
use crsm_replica_rerun::sheets_have_one_text;

/// No datagram is forged if nobody sends from a replica's address, and each node accepts a datagram that names a
/// replica as its sender from that replica's address only.
pub fn addresses_suffice()
    ensures { AddressesSuffice }
{
    senders_are_named();
}

/// The replay of a node's sheet shows executions, answers and drops as they are in the one list.
pub fn sheets_are_right()
    ensures { SheetsAreRight }
{
    sheets_have_one_text();
    steps_are_right();
}
