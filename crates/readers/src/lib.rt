// A packet read by questions to a ternary store.

#![tactic(auto)]

mod behind;
mod front;
mod key;
pub mod read;
mod turn;
