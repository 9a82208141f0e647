// Kinds of header and the parts of a packet: a kind's number, shortest length and fields, where a
// header lies, and its fields and the payload as parts of the packet itself.

#![tactic(auto)]

pub mod faults;
pub mod kinds;
pub mod mark;
pub mod names;
pub mod part;
pub mod table;
