// What is counted of a node of a course.
ghost use Rattle.std.specs.Prelude.{◌≡◌, ◌||◌, nat_lt, slice_set};
ghost use Rattle.cmi5_running_verdicts.specs.Changes.{added, moved, next_unmet, removed, tally_of, untold};
ghost use Rattle.cmi5_running_verdicts.specs.Tallies.{said_in_tally};

use cmi5_verdict::{Said, one_less, one_more};

/// What the statements of a registration say of a node, and what is still missing under it.
#[derive(Clone, Copy)]
pub struct Tally {
    /// How many statements say that it was waived and aren't voided.
    pub waived: usize,
    pub completed: usize,
    pub passed: usize,
    /// Whether one says that it is satisfied, voided or not.
    pub satisfied: bool,
    /// How many units under it aren't met, itself among them.
    pub unmet: usize,
}

impl Tally {
    /// Nothing was said of it, and nothing is missing.
    pub(crate) fn nothing() -> Tally
        ensures { result ≡ untold }
    {
        Tally {
            waived: 0,
            completed: 0,
            passed: 0,
            satisfied: false,
            unmet: 0,
        }
    }

    /// What it says of its node.
    pub(crate) fn said(self) -> Said
        ensures { result ≡ said_in_tally self }
    {
        Said {
            waived: is_positive(self.waived),
            completed: is_positive(self.completed),
            passed: is_positive(self.passed),
            satisfied: self.satisfied,
        }
    }

    /// A statement more says this of its node.
    pub(crate) fn added(self, told: Said) -> Tally
        ensures { result ≡ added told self }
    {
        Tally {
            waived: one_more(self.waived, told.waived),
            completed: one_more(self.completed, told.completed),
            passed: one_more(self.passed, told.passed),
            satisfied: one_holds(self.satisfied, told.satisfied),
            unmet: self.unmet,
        }
    }

    /// A statement that said this is voided. That the node is satisfied was said all the same.
    pub(crate) fn removed(self, told: Said) -> Tally
        ensures { result ≡ removed told self }
    {
        Tally {
            waived: one_less(self.waived, told.waived),
            completed: one_less(self.completed, told.completed),
            passed: one_less(self.passed, told.passed),
            satisfied: self.satisfied,
            unmet: self.unmet,
        }
    }

    /// A unit under its node is met that wasn't, or isn't that was.
    pub(crate) fn moved(self, is_met: bool) -> Tally
        ensures { result ≡ moved is_met self }
    {
        Tally {
            waived: self.waived,
            completed: self.completed,
            passed: self.passed,
            satisfied: self.satisfied,
            unmet: next_unmet(self.unmet, is_met),
        }
    }
}

fn is_positive(number: usize) -> bool
    ensures { result ≡ nat_lt 0 number }
{
    0 < number
}

fn one_holds(a: bool, b: bool) -> bool
    ensures { result ≡ a || b }
{
    a || b
}

fn next_unmet(unmet: usize, is_met: bool) -> usize
    ensures { result ≡ next_unmet is_met unmet }
{
    if is_met {
        unmet.saturating_sub(1)
    } else {
        unmet.saturating_add(1)
    }
}

// ---- of each node

/// That of the node of that number.
pub(crate) fn tally_of(tallies: &[Tally], index: usize) -> Tally
    ensures { result ≡ tally_of tallies.now index }
{
    match tallies.get(index) {
        Some(tally) => *tally,
        None => Tally::nothing(),
    }
}

/// That is the tally of the node of that number from now on.
pub(crate) fn set(tallies: &mut [Tally], index: usize, tally: Tally)
    ensures { tallies.new ≡ slice_set tallies.old index tally }
{
    if index < tallies.len() {
        tallies[index] = tally;
    }
}
