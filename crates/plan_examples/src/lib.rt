// Examples of loading: plans that are refused, and how many rows a store must be able to hold.

#![tactic(auto)]

#[cfg(test)]
mod broken_plans;
pub mod limited;
#[cfg(test)]
mod made;
#[cfg(test)]
mod room;
pub mod worked;
