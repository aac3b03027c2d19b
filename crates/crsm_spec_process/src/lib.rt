//! Definitions, in `specs/`, of one process of a running node from boot to exit: which of its turns were synced
//! together, which of their datagrams were sent, which turns were lost, and what turns can be taken; no code.
#![tactic(auto)]
