ghost use Rattle.lrs_ids.specs.Fresh.{IsFreshId};

use lrs_names::{Id, WORDS};
use std::collections::BTreeSet;

/// Of the ids of `word`, `word + 1`, .. (modulo `WORDS`) the first that isn't used. There is always one, since no set
/// in memory holds all of them. Takes no memory, and looks at one id more than are used at most.
pub fn fresh_id(word: u128, used: &BTreeSet<Id>) -> Id
    ensures { IsFreshId used.now.keys word result }
{
    let start = word % WORDS;
    for step in 0..used.len() + 1 {
        let id = Id::of_word(start + step as u128);
        if !used.contains(&id) {
            return id;
        }
    }
    unreachable!()
}
