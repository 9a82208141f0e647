// What every refused call answers: a number of one fixed table, the layer that refused, and a place.

#![tactic(auto)]

pub mod refusal;
pub mod text;
