// Examples of what stores do, on every store alike.

#![tactic(auto)]

#[cfg(test)]
mod agreement;
#[cfg(test)]
mod limits;
#[cfg(test)]
mod piles;
#[cfg(test)]
mod rows;
