//! The first id after a word that isn't in use, and the ids that an entry makes: none is in use, none is given beside
//! them, and none is made twice.
#![tactic(auto)]

mod fresh;
mod supply;
mod used;

pub use fresh::fresh_id;
pub use supply::{IdSupply, are_distinct};
pub use used::UsedIds;
