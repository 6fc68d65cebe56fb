//! What the facts of a run say of the nodes, the ledger and the switches, between two cycles and within one; which log
//! stands for a world; and what one cycle of the world does. The definitions stand in `specs/`.
#![tactic(auto)]
