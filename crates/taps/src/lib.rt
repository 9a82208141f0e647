// A tap: a graph and a plan loaded into a store, packets read by it, and what was read counted.

#![tactic(auto)]

pub mod counts;
pub mod fault;
mod inner;
pub mod laws;
pub mod tap;
