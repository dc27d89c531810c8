// How many statements count.
ghost use Rattle.std.specs.Prelude.{◌≡◌};
ghost use Rattle.cmi5_session.specs.Counting.{one_less, one_more};

/// One more, where it counts. The number stands still at its type's end.
pub fn one_more(number: usize, counts: bool) -> usize
    ensures { result ≡ one_more number counts }
{
    if counts {
        number.saturating_add(1)
    } else {
        number
    }
}

/// One less, where it counts.
pub fn one_less(number: usize, counts: bool) -> usize
    ensures { result ≡ one_less number counts }
{
    if counts {
        number.saturating_sub(1)
    } else {
        number
    }
}
