// Rows and questions of the examples.
use std::convert::TryFrom;
use std::test::Fail;
use stores::question::{Question, Row};
use stores::state::State;

pub(crate) fn row(number: u8, value: u64, mask: u64) -> Result<Row, Fail> {
    let state = State::try_from(number)?;
    Ok(Row { state, value, mask })
}

pub(crate) fn question(number: u8, key: u64) -> Result<Question, Fail> {
    let state = State::try_from(number)?;
    Ok(Question { state, key })
}

// The row of state 0 that only its own key fits.
pub(crate) fn row_of(key: u16) -> Result<Row, Fail> {
    row(0, u64::from(key), u64::MAX)
}

pub(crate) fn question_of(key: u16) -> Result<Question, Fail> {
    question(0, u64::from(key))
}
