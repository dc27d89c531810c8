// What a test fails with: the number of the row of its table that is wrong.
use std::test::Fail;

/// Fails with the number of a row, counted from 0.
pub(crate) fn wrong_row(row: usize) -> Result<(), Fail> {
    Err(Fail::new(format_args!("row {row} is wrong (rows are counted from 0)")))
}

/// Fails with the number of the row that is wrong, if one is.
pub(crate) fn none_wrong(row: Option<usize>) -> Result<(), Fail> {
    match row {
        None => Ok(()),
        Some(row) => wrong_row(row),
    }
}
