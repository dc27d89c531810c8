// Statements by the moments at which they were accepted.
ghost use Rattle.std.specs.Prelude.{◌≡◌, ◌≤◌, ◌&&◌, nat_le, true, false, length, IfSome};
ghost use Rattle.std.specs.List.Sorted.{IsPartitionPoint};
ghost use Rattle.xapi_index.specs.Index.{IsRising};
ghost use Rattle.xapi_index.specs.Times.{AreLaterFrom, is_until, stands_behind};
ghost use Rattle.xapi_postings.specs.XapiStatementStored.{StoredStatement as SpecStatement};

use lrs_time::Instant;
use xapi_postings::HeldStatement;

// ---- no statement is older than one before it

/// Whether that stays so behind a list of which it is known or not.
pub(crate) fn still_rising(rising: bool, held: &[HeldStatement], statement: &HeldStatement) -> bool
    ensures { result ≡ (rising && stands_behind held.now statement.now) }
{
    rising && stands_behind(held, statement)
}

fn stands_behind(held: &[HeldStatement], statement: &HeldStatement) -> bool
    ensures { result ≡ stands_behind held.now statement.now }
{
    match held.last() {
        Some(last) => is_no_older(statement, last),
        None => true,
    }
}

fn is_no_older(statement: &HeldStatement, other: &HeldStatement) -> bool
    ensures { result ≡ nat_le other.now.stored statement.now.stored }
{
    other.stored().milliseconds() <= statement.stored().milliseconds()
}

// ---- what was stored later

/// The first of those that were stored later than an instant, and at most n: told by halves where none is older than
/// one before it.
pub(crate) fn later_in(
    held: &[HeldStatement],
    rising: bool,
    n: usize,
    instant: Instant,
) -> Option<usize>
    requires { rising ≡ true → IsRising held.now }
    ensures { IfSome result (AreLaterFrom held.now n instant) }
{
    if rising {
        Some(first_later(held, instant).min(n))
    } else {
        None
    }
}

fn first_later(held: &[HeldStatement], instant: Instant) -> usize
    requires { IsRising held.now }
    ensures bound { result ≤ length held.now }
    ensures parted { IsPartitionPoint (λ (s : SpecStatement). is_until instant s ≡ true)
        (λ (s : SpecStatement). is_until instant s ≡ false) held.now result }
{
    held.partition_point(
        |statement: &HeldStatement| -> bool
            ensures { result ≡ is_until instant statement.now }
        { is_until(statement, instant) },
    )
}

fn is_until(statement: &HeldStatement, instant: Instant) -> bool
    ensures { result ≡ is_until instant statement.now }
{
    statement.stored().instant().nanoseconds() <= instant.nanoseconds()
}
