// Questions, and the rows that fit them.
ghost use Rattle.std.specs.Prelude.{◌≡◌};
ghost use Rattle.stores.specs.Fits.{fits};

use crate::state::State;

/// A state and a key of eight bytes, the first topmost.
#[derive(Clone, Copy, PartialEq, Eq, Debug)]
pub struct Question {
    pub state: State,
    pub key: u64,
}

/// A state, and a value and a mask of eight bytes each, the first topmost. Any three make a row.
#[derive(Clone, Copy, PartialEq, Eq, Debug, Default)]
pub struct Row {
    pub state: State,
    pub value: u64,
    pub mask: u64,
}

impl Row {
    /// Whether the question has the row's state, and its key's bits under the mask are the value.
    /// A row with a value bit outside its mask fits nothing.
    pub fn fits(&self, question: &Question) -> bool
        ensures { result ≡ fits self.now question.now }
    {
        question.state == self.state && question.key & self.mask == self.value
    }
}
