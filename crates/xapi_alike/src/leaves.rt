// Numbers and texts.
ghost use Rattle.std.specs.Prelude.{◌≡◌};
ghost use Rattle.xapi_alike.specs.Normal.{id_or, instant_or, span_or, said_at};
ghost use Rattle.xapi_alike.specs.Alike.{same_amount, same_words};
ghost use Rattle.lrs_names.specs.Ids.{id_of};
ghost use Rattle.lrs_time.specs.Reading.{timestamp_at, duration_at};

use crate::role::Role;
use lrs_json::{Number, Text};
use lrs_names::Id;
use lrs_time::{Duration, read_timestamp};
use xapi_values::numbers::are_equal;

/// Whether the spellings of numbers are one, or are of one value.
pub fn is_same_amount(a: &Number, b: &Number) -> bool
    ensures { result ≡ same_amount a.now b.now }
{
    a == b || are_equal(a.as_bytes(), b.as_bytes())
}

/// Whether the texts say the same in that role.
#[tactic(auto, unfolding(crate::specs::Normal::said_at))]
pub fn is_same_text(role: Role, a: &Text, b: &Text) -> bool
    ensures { result ≡ same_words (said_at role a.now) (said_at role b.now) }
{
    match role {
        Role::Id => is_same_id(a, b),
        Role::Timestamp => is_same_instant(a, b),
        Role::Duration => is_same_span(a, b),
        _ => a == b,
    }
}

fn is_same_id(a: &Text, b: &Text) -> bool
    ensures { result ≡ same_words (id_or a.now (id_of a.now)) (id_or b.now (id_of b.now)) }
{
    match (Id::read(a.as_bytes()), Id::read(b.as_bytes())) {
        (Some(x), Some(y)) => x == y,
        (None, None) => a == b,
        _ => false,
    }
}

fn is_same_instant(a: &Text, b: &Text) -> bool
    ensures { result ≡ same_words (instant_or a.now (timestamp_at a.now)) (instant_or b.now (timestamp_at b.now)) }
{
    match (read_timestamp(a.as_bytes()), read_timestamp(b.as_bytes())) {
        (Ok(x), Ok(y)) => x == y,
        (Err(_), Err(_)) => a == b,
        _ => false,
    }
}

fn is_same_span(a: &Text, b: &Text) -> bool
    ensures { result ≡ same_words (span_or a.now (duration_at a.now)) (span_or b.now (duration_at b.now)) }
{
    match (Duration::read(a.as_bytes()), Duration::read(b.as_bytes())) {
        (Some(x), Some(y)) => x.same(&y),
        (None, None) => a == b,
        _ => false,
    }
}
