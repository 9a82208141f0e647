// The plain walk, the rows of a store that stand for a graph and a plan, the turns that read by them,
// and the theorem that the turns walk the plain walk.

#![tactic(auto)]

pub mod action;
pub mod outcome;
pub mod theorems;
