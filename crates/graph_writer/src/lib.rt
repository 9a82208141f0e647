// Writing a parse graph as a file.

#![tactic(auto)]

pub mod copy;
pub mod fault;
mod put;
pub mod write;
