// The state of a question or a row.
ghost use Rattle.std.specs.Prelude.{◌≡◌, ◌<◌, ◌≤◌, MatchOption, MatchResult, Some};
ghost use Rattle.stores.specs.States.{no_state_text};

use std::convert::TryFrom;
use std::error::Error;
use std::fmt;

/// A state's number, which its type keeps below 64.
#[derive(Clone, Copy, PartialEq, Eq, Debug)]
pub struct State {
    number: u8,
    ghost below: { number < 64 },
}

/// A number from 64 on, which is no state's.
#[derive(Clone, Copy, PartialEq, Eq, Debug)]
pub struct NoState {
    pub number: u8,
}

// By hand, as one `write!` is as plain as a derive of another crate's.
impl fmt::Display for NoState {
    ghost output = { λ refused. Some (no_state_text refused) };

    fn fmt<W: fmt::Write>(&self, f: &mut fmt::Formatter<W>) -> fmt::Result {
        write!(f, "{} is no state: a state is below 64", self.number)
    }
}

impl Error for NoState {}

impl TryFrom<u8> for State {
    type Error = NoState;

    ghost try_from_gives = { λ number result. MatchResult result (λ state. state.number ≡ number)
        (λ refused. (64 ≤ number) × (refused.number ≡ number)) };

    /// The state of a number. Refused from 64 on.
    fn try_from(number: u8) -> Result<State, NoState> {
        if number < 64 {
            Ok(State { number })
        } else {
            Err(NoState { number })
        }
    }
}

// By hand: `Default` is not derived for a struct with a ghost field.
impl Default for State {
    ghost is_default = { λ state. state.number ≡ 0 };

    /// The state 0.
    fn default() -> State {
        State { number: 0 }
    }
}

impl State {
    /// The state of a number. None from 64 on.
    // Beside `try_from`, for callers that tell no error.
    pub fn new(number: u8) -> Option<State>
        ensures { MatchOption result (64 ≤ number) (λ state. state.number ≡ number) }
    {
        State::try_from(number).ok()
    }

    /// The state's number.
    pub fn number(&self) -> u8
        ensures { (result ≡ self.now.number) × (result < 64) }
    {
        self.number
    }
}
