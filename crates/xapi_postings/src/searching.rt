// Searches in ascending positions.
ghost use Rattle.std.specs.Prelude.{◌≡◌, ◌<◌, ◌≤◌, length, slice_get};
ghost use Rattle.std.specs.List.Sorted.{IsPartitionPoint};
ghost use Rattle.xapi_postings.specs.Ascending.{is_in, IsAscending};
ghost use Rattle.xapi_postings.specs.Nearest.{IsGreatestBelow, IsLeastFrom};

/// Whether a position is one of the list.
pub fn contains(list: &[u32], k: usize) -> bool
    requires { IsAscending list.now }
    ensures { result ≡ is_in list.now k }
{
    match position_at(list, count_below(list, k)) {
        Some(found) => found == k,
        None => false,
    }
}

/// The least one of the list from a position on.
pub fn first_from(list: &[u32], from: usize) -> Option<usize>
    requires { IsAscending list.now }
    ensures { IsLeastFrom (is_in list.now) from result }
{
    position_at(list, count_below(list, from))
}

/// The greatest one of the list below a position.
pub fn last_below(list: &[u32], end: usize) -> Option<usize>
    requires { IsAscending list.now }
    ensures { IsGreatestBelow (is_in list.now) end result }
{
    let count = count_below(list, end);
    if count == 0 {
        None
    } else {
        position_at(list, count - 1)
    }
}

fn position_at(list: &[u32], index: usize) -> Option<usize>
    ensures { result ≡ slice_get list.now index }
{
    match list.get(index) {
        Some(position) => Some(*position as usize),
        None => None,
    }
}

// How many of the list are below a position.
fn count_below(list: &[u32], end: usize) -> usize
    requires { IsAscending list.now }
    ensures within { result ≤ length list.now }
    ensures counted { IsPartitionPoint (λ j. j < end) (λ j. end ≤ j) list.now result }
{
    list.partition_point(|j| (*j as usize) < end)
}
