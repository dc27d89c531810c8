// The rule of the table, and what each step tells.
ghost use Rattle.std.specs.Prelude.{ℕ, List, []};
ghost use Rattle.lrs_turn.specs.Rule.{meaning, Kept, starter, less, another, both, spent};
ghost use Rattle.lrs_turn.specs.Rule.{Takes, Rests, Fetches, Points, Commits, Gives};

use crate::journaled::Journaled;
use crate::view::{Opening, View};
use atomic_table::{Join, Play, Split, TableRule};
use std::marker::{Brand, PhantomData};

pub struct Keeps;

impl<S: Journaled> TableRule<Option<S>, View<S::Record>, Opening<S>> for Keeps {
    ghost holds = { λ o s. Kept (meaning S.line S.marks S.tide) o.passes s };

    ghost first = { λ o. starter (S.line o.state.value) (S.marks o.state.value) (S.tide o.state.value) o.passes };
}

// The steps of a pass. Between calls it is kept as a badge, which can hold no slot: so while it has the turn, the slot
// is at home and empty, from `Rest` to `Fetch`.
pub struct Take;

impl<S: Journaled> Play<Option<S>, View<S::Record>> for Take {
    ghost then = { λ s v n w. Takes (meaning S.line S.marks S.tide) v n w };
}

pub struct Rest;

impl<S: Journaled> Play<Option<S>, View<S::Record>> for Rest {
    ghost then = { λ s v n w. Rests v w };
}

pub struct Fetch;

impl<S: Journaled> Play<Option<S>, View<S::Record>> for Fetch {
    ghost then = { λ s v n w. Fetches v w };
}

pub struct Point;

impl<S: Journaled> Play<Option<S>, View<S::Record>> for Point {
    ghost then = { λ s v n w. Points v w };
}

/// The list behind a commit, for the proof alone: a step can't be told of it.
pub trait ListBehind<T> {
    ghost list: { List T };
}

impl<T> ListBehind<T> for Brand {
    ghost list = { [] };
}

pub struct Commit<W> {
    marker: PhantomData<W>,
}

impl<S: Journaled, W: ListBehind<S::Record>> Play<Option<S>, View<S::Record>> for Commit<W> {
    ghost then = { λ s v n w. Commits W.list v w };
}

/// The tide that a pass knows behind a give, for the proof alone.
pub trait TideBehind {
    ghost tide: { List ℕ };
}

impl TideBehind for Brand {
    ghost tide = { [] };
}

pub struct Give<W> {
    marker: PhantomData<W>,
}

impl<S: Journaled, W: TideBehind> Play<Option<S>, View<S::Record>> for Give<W> {
    ghost then = { λ s v n w. Gives W.tide v w };
}

// A further pass.
pub struct Deal;

impl<T: Drop> Split<View<T>> for Deal {
    ghost left = { less };

    ghost right = { another };
}

// One seat for the passes of two.
pub struct Merge;

impl<T: Drop> Join<View<T>> for Merge {
    ghost both = { both };

    ghost spent = { spent };
}
