//! What one desk answers to one command after the other, as rows of a text. `desk_rows` says what a row is.
mod desk_rows;
mod documents_asked;

pub use crate::rows::desk_rows::{
    answered, check_rows, check_rows_in, first_wrong_of, founded, founded_in,
};
