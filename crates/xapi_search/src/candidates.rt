// Positions of statements that may be listed, and which of them is the next one.
ghost use Rattle.std.specs.Prelude.{◌≡◌};
ghost use Rattle.lrs_names.specs.Rules.{lesser};
ghost use Rattle.xapi_index.specs.XapiPostingsNearest.{IsGreatestBelow, IsLeastFrom};
ghost use Rattle.xapi_search.specs.Candidates.{IsFirstFrom, IsLastBefore, ListsAscend, stands_in};
ghost use Rattle.xapi_search.specs.Nearer.{greater, if_below, if_from};

use xapi_index::{first_from, last_below};

/// The lists in which candidates stand.
#[derive(Clone, Copy)]
pub enum Lists<'a> {
    /// None: each position between the bounds is a candidate.
    Each,
    /// One of two lists, or both.
    Either(&'a [u32], &'a [u32]),
}

/// The positions from the first on and before the end that stand in one of the lists.
#[derive(Clone, Copy)]
pub struct Candidates<'a> {
    pub first: usize,
    pub end: usize,
    pub lists: Lists<'a>,
}

impl Candidates<'_> {
    /// The least candidate from a position on.
    pub fn first_from(&self, from: usize) -> Option<usize>
        requires { ListsAscend self.now.lists }
        ensures { IsFirstFrom self.now from result }
    {
        let start = from.max(self.first);
        let least = self.lists.least_from(start);
        if_below(self.end, least)
    }

    /// The greatest candidate before a position.
    pub fn last_before(&self, end: usize) -> Option<usize>
        requires { ListsAscend self.now.lists }
        ensures { IsLastBefore self.now end result }
    {
        let bound = end.min(self.end);
        let greatest = self.lists.greatest_below(bound);
        if_from(self.first, greatest)
    }
}

impl Lists<'_> {
    fn least_from(self, start: usize) -> Option<usize>
        requires { ListsAscend self }
        ensures { IsLeastFrom (stands_in self.entry) start result }
    {
        match self {
            Lists::Each => Some(start),
            Lists::Either(a, b) => {
                let first = first_from(a, start);
                let second = first_from(b, start);
                lesser(first, second)
            }
        }
    }

    fn greatest_below(self, end: usize) -> Option<usize>
        requires { ListsAscend self }
        ensures { IsGreatestBelow (stands_in self.entry) end result }
    {
        match self {
            Lists::Each => end.checked_sub(1),
            Lists::Either(a, b) => {
                let first = last_below(a, end);
                let second = last_below(b, end);
                greater(first, second)
            }
        }
    }
}

fn lesser(a: Option<usize>, b: Option<usize>) -> Option<usize>
    ensures { result ≡ lesser a b }
{
    match (a, b) {
        (Some(first), Some(second)) => Some(first.min(second)),
        (Some(first), None) => Some(first),
        (None, other) => other,
    }
}

fn greater(a: Option<usize>, b: Option<usize>) -> Option<usize>
    ensures { result ≡ greater a b }
{
    match (a, b) {
        (Some(first), Some(second)) => Some(first.max(second)),
        (Some(first), None) => Some(first),
        (None, other) => other,
    }
}

fn if_below(end: usize, found: Option<usize>) -> Option<usize>
    ensures { result ≡ if_below end found }
{
    match found {
        Some(position) => { if position < end { Some(position) } else { None } }
        None => None,
    }
}

fn if_from(first: usize, found: Option<usize>) -> Option<usize>
    ensures { result ≡ if_from first found }
{
    match found {
        Some(position) => {
            if first <= position {
                Some(position)
            } else {
                None
            }
        }
        None => None,
    }
}
