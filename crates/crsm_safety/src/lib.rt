//! Laws of single-decree Paxos, each as the contract of a function that runs no code.
#![tactic(auto)]

mod instances;
mod one_instance;

pub use instances::{instances_agree, possible_decision};
pub use one_instance::{
    best_answer, choice, held_vote, one_more_step, own_value, possible_choice, proposer,
    repeated_answer,
};
