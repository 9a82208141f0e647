// What the program does with graph files and stores: the basic commands, files, and what is printed.

#![tactic(auto)]

pub mod basic;
pub mod counts;
pub mod failure;
pub mod files;
pub mod graph_text;
pub mod hex;
pub mod store_table;
