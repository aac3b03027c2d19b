//! Definitions of the protocol, in `specs/`, and of the safety of every run; no code.
//!
//! `specs/Safe.antt` has the main statement; `docs/PROTOCOL.md` explains the rules in prose.
#![tactic(auto)]
