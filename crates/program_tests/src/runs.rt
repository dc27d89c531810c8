//! Runs of lrs_app over the outside in memory: what is around a run, what it leaves, and the texts that several tests use.
mod outside;
mod texts;

pub use crate::runs::outside::{
    Around, Ran, file_behind, joined, run_over, store, words_of, wrong_at,
};
pub use crate::runs::texts::{
    DISK, GET, MAKE, NO_CONTENT, POST, PUT, SERVE, SHOWN, STATEMENT, file_of, stored,
};
