// Ternary stores: rows that are tried in order against questions, known by their meaning alone.

#![tactic(auto)]

pub mod fault;
pub mod fill;
pub mod listing;
pub mod pair;
pub mod question;
pub mod state;
pub mod store;
pub mod table;
pub mod tabled;
