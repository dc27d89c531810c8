// Statements that are ready are moved into the list. Nothing here takes memory.
ghost use Rattle.std.specs.Prelude.{◌≡◌, ◌≤◌, ◌-◌, [], ◌++◌, true, length, take, vec_len, vec_capacity};
ghost use Rattle.xapi_index.specs.Index.{IsRising};

use crate::times::still_rising;
use xapi_postings::HeldStatement;

/// Moves statements behind those that are held.
pub(crate) fn install_each(
    held: &mut Vec<HeldStatement>,
    rising: &mut bool,
    ahead: &mut Vec<HeldStatement>,
)
    requires spare { length ahead.old.items ≤ vec_capacity held.old - vec_len held.old }
    requires rising { rising.old ≡ true → IsRising held.old.items }
    ensures held { held.new.items ≡ held.old.items ++ ahead.old.items }
    ensures nothing { ahead.new.items ≡ [] }
    ensures rising { rising.new ≡ true → IsRising held.new.items }
{
    let before = held.len();
    append_each(held, ahead);
    *rising = are_rising(held.as_slice(), before, *rising);
}

fn append_each(held: &mut Vec<HeldStatement>, ahead: &mut Vec<HeldStatement>)
    requires { length ahead.old.items ≤ vec_capacity held.old - vec_len held.old }
    ensures held { held.new.items ≡ held.old.items ++ ahead.old.items }
    ensures nothing { ahead.new.items ≡ [] }
{
    let _ = held.append(ahead);
}

// Whether none is older than one before it, where that is known of the first n or not.
fn are_rising(held: &[HeldStatement], n: usize, known: bool) -> bool
    requires within { n ≤ length held.now }
    requires known { known ≡ true → IsRising (take n held.now) }
    ensures { result ≡ true → IsRising held.now }
{
    let mut rising = known;
    for at in n..held.len() {
        rising = still_rising(rising, &held[..at], &held[at]);
    }
    rising
}
