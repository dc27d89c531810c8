// The first positions of lists.
ghost use Rattle.std.specs.Prelude.{◌≡◌, slice_get};
ghost use Rattle.xapi_postings.specs.Ascending.{IsAscending, below};

fn first_in(positions: &[u32]) -> Option<usize>
    ensures { result ≡ slice_get positions.now 0 }
{
    match positions.first() {
        Some(position) => Some(*position as usize),
        None => None,
    }
}

/// The first of those below a bound.
pub(crate) fn first_below(positions: &[u32], n: usize) -> Option<usize>
    requires { IsAscending positions.now }
    ensures { result ≡ slice_get (below n positions.now) 0 }
{
    match first_in(positions) {
        Some(position) => { if position < n { Some(position) } else { None } }
        None => None,
    }
}
