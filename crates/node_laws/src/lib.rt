//! Laws that tie a channel's node to the facts of a run: each is the contract of a function without a body.
//!
//! What a node owes by its state is what is due, each of its calls takes it from what the facts say before to what they
//! say after, and what comes later in the log changes none of it.
#![tactic(auto)]

mod all_nodes;
mod all_rounds;
mod arrivals;
mod cycle;
mod frames;
mod slots;

pub use all_nodes::{
    nodes_are_switched, nodes_enter_slots, nodes_hear_requests, nodes_open_cycle,
    nodes_take_finals, nodes_take_sweeps, nodes_take_votes, worlds_may_open,
};
pub use all_rounds::{nodes_decide_alike, nodes_receive_rounds};
pub use arrivals::{have_worked, rounds_arrive};
pub use cycle::{crashes_fell, cycles_are_closed, nodes_end_cycles, nodes_open_cycles};
pub use frames::{nodes_owe_due_frames, nodes_stay};
pub use slots::{
    exchanges_are_received, joiners_are_filled, nodes_decide, nodes_work, requests_are_heard,
    votes_are_taken,
};
