// The sliced store: 64 rows as bits of words, the laws of such words, and a pile of three stores.

#![tactic(auto)]

pub mod pile;
pub mod sliced;
pub mod words;
