// Calls on a tap, one after the other, and two taps side by side.

#![tactic(auto)]

pub mod calls;
pub mod make;
pub mod run;
pub mod side;
