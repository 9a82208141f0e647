// The plain walk as code: the header at an offset of a packet, and a packet read one header at a time,
// straight from the graph.

#![tactic(auto)]

pub mod fault;
pub mod header;
pub mod step;
pub mod walk;
