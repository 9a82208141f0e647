// From a graph file and a plan to a filled store, and what a reader keeps beside it.

#![tactic(auto)]

mod checked;
pub mod compile;
mod cursor;
mod emit;
pub mod fault;
pub mod few;
mod fill;
mod items;
mod lookups;
mod pieces;
pub mod program;
mod sink;
mod start;
