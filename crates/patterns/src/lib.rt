// Ternary and range patterns behind one interface, the searches in lists of plain rows, and the split
// of a range into ternary blocks.

#![tactic(auto)]

pub mod block;
pub mod find;
pub mod pattern;
pub mod row;
pub mod span;
pub mod split;
pub mod ternary;
