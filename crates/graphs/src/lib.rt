// Parse graphs: which header may follow which, when a graph is sound, and which row decides.

#![tactic(auto)]

pub mod check;
pub mod decide;
pub mod fault;
pub mod graph;
pub mod named;
pub mod node;
