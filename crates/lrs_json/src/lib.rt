//! JSON trees, their written form and how deep they may nest; also the texts, numbers, lists and out-of-memory error
//! that the layers above share.
#![tactic(auto)]

pub mod appending;
mod copying;
mod items;
mod limits;
pub mod matching;
mod memory;
mod number;
mod same;
mod text;
mod tree;
mod writing;

pub use items::Items;
pub use limits::DEPTH;
pub use lrs_decimal::{Decimal, is_whole};
pub use matching::is_written;
pub use memory::Memory;
pub use number::Number;
pub use text::{Text, utf8_text};
pub use tree::{Member, Tree, find_member};
pub use writing::write;
