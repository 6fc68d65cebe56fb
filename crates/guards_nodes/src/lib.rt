//! What contracts see of a channel's node: what it holds, what each of its calls does to that, and the frame that it
//! owes in each slot. The definitions stand in `specs/`.
#![tactic(auto)]
