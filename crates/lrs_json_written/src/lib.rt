//! Reading the written form of trees: bytes give a tree only if they are just what is written from it, nested no deeper
//! than the caller allows, with numbers in range and distinct names in each object. Begin with `reading`.
#![tactic(auto)]

mod names;
mod reading;
mod texts;

pub use lrs_json_reader::Cursor;
pub use reading::{read_tree, read_trees};
pub use texts::read_text;
