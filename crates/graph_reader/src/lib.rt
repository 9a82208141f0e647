// Graph files: their layout, and reading a graph from one.

#![tactic(auto)]

mod decode;
pub mod fault;
mod pairs;
pub mod read;
pub mod record;
