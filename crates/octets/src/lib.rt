// Bytes of a list, and the numbers that they spell. A byte behind the list's end reads as 0.

#![tactic(auto)]

pub mod read;
