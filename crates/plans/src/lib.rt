// Plans: which nodes behind a node are taken in one look, whether a plan keeps the rules of a graph,
// how many rows graph and plan need, and how far a chain reaches into a packet.

#![tactic(auto)]

pub mod chains;
pub mod count;
pub mod fault;
pub mod nodes;
pub mod path;
pub mod read;
pub mod window;
