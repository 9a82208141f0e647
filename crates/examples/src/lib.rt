// Worked examples as tests, in a crate of their own so that the crates below are proved once.

#![tactic(auto)]

#[cfg(test)]
mod fields;
#[cfg(test)]
mod graph_files;
pub mod sample;
#[cfg(test)]
mod searches;
#[cfg(test)]
mod surveys;
#[cfg(test)]
mod words;
