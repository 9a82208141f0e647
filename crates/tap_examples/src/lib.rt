// Examples of taps: what packets are read as, what is refused, and two taps side by side.

#![tactic(auto)]

#[cfg(test)]
mod reads;
#[cfg(test)]
mod side;
