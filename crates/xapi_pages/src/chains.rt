// Chains of references. What is found of one is marked, so that a page goes along each reference once.
ghost use Rattle.std.specs.Prelude.{◌≡◌, ◌<◌, ◌≤◌, ◌+◌, ℕ, IfOk, OnOk, [], length, take, if◌then◌else◌, true};
ghost use Rattle.xapi_search.specs.Sought.{AreAscending};
ghost use Rattle.xapi_pages.specs.Chains.{AreTrue, IsMarked, chain_passes, is_among, is_direct_at, known_by, mark_at};
ghost use Rattle.xapi_pages.specs.Chains.{unknown_below};

use lrs_json::Memory;
use std::alloc::Global;
use std::collections::BTreeMap;
use std::marker::Model;
use xapi_search::{Index, Sought, is_direct_at};

/// What is known of the chain of references of a statement.
#[derive(Clone, Copy)]
pub(crate) enum Mark {
    Unknown,
    Passes,
    Fails,
}

/// What is marked at positions: unknown where nothing was marked. It takes memory for the marked ones alone.
#[derive(Drop)]
pub(crate) struct Marks {
    map: BTreeMap<usize, Mark>,
}

impl Model for Marks {
    ghost use Rattle.std.specs.Prelude.{List, ℕ};
    ghost use Rattle.xapi_pages.specs.declared.chains.Mark.{Mark as SpecMark};

    ghost Value = { List (ℕ × SpecMark) };

    ghost view = { λ m. m.map.entries };
}

impl Marks {
    pub(crate) fn new(alloc: Global) -> Marks
        ensures { result ≡ [] }
    {
        Marks {
            map: BTreeMap::new(alloc),
        }
    }

    fn at(&self, position: usize) -> Mark
        ensures { result ≡ mark_at self.now position }
    {
        match self.map.get(&position) {
            Some(mark) => *mark,
            None => Mark::Unknown,
        }
    }

    fn set(&mut self, position: usize, mark: Mark) -> Result<(), Memory>
        ensures { OnOk result (IsMarked self.old position mark self.new) }
    {
        self.map.insert(position, mark)?;
        Ok(())
    }
}

/// Whether a statement of the chain of the one at a position is seen and passes the filters, among the first so many,
/// as the lists tell. The same marks and the same count of steps are handed in throughout a page. The answer and the
/// marks hold while no more than `most` steps were walked.
pub(crate) fn chain_passes(
    alloc: Global,
    index: &Index,
    sought: &Sought<'_>,
    asof: usize,
    marks: &mut Marks,
    position: usize,
    most: usize,
    walked: &mut usize,
) -> Result<bool, Memory>
    requires asof { asof ≤ length index.now.held }
    requires within { position < asof }
    requires ascending { AreAscending sought.now }
    requires marks { AreTrue (chain_passes sought.now (take asof index.now.held)) marks.old [] }
    requires counted { walked.old + unknown_below asof marks.old ≤ asof }
    ensures passes { IfOk result (λ passes. walked.new ≤ most
        → passes ≡ chain_passes sought.now (take asof index.now.held) position) }
    ensures marks { OnOk result (walked.new ≤ most
        → AreTrue (chain_passes sought.now (take asof index.now.held)) marks.new []) }
    ensures counted { OnOk result (walked.new + unknown_below asof marks.new ≤ asof) }
{
    if let Some(passes) = known_at(sought, marks, position) {
        return Ok(passes);
    }
    match index.referred_at(asof, position) {
        Some(next) => follow(alloc, index, sought, asof, marks, next, most, walked),
        None => Ok(false),
    }
}

// Follows the chain from a position on.
fn follow(
    alloc: Global,
    index: &Index,
    sought: &Sought<'_>,
    asof: usize,
    marks: &mut Marks,
    start: usize,
    most: usize,
    walked: &mut usize,
) -> Result<bool, Memory>
    requires asof { asof ≤ length index.now.held }
    requires within { start < asof }
    requires ascending { AreAscending sought.now }
    requires marks { AreTrue (chain_passes sought.now (take asof index.now.held)) marks.old [] }
    requires counted { walked.old + unknown_below asof marks.old ≤ asof }
    ensures passes { IfOk result (λ passes. walked.new ≤ most
        → passes ≡ chain_passes sought.now (take asof index.now.held) start) }
    ensures marks { OnOk result (walked.new ≤ most
        → AreTrue (chain_passes sought.now (take asof index.now.held)) marks.new []) }
    ensures counted { OnOk result (walked.new + unknown_below asof marks.new ≤ asof) }
{
    let mut path = Vec::new(alloc);
    let passes = walk(index, sought, asof, marks, &mut path, start, most, walked)?;
    if !passes {
        return Ok(false);
    }
    mark_passing(marks, path.as_slice())?;
    Ok(true)
}

// Walks from a position until something is known, or more than `most` steps were walked. The positions from it on are
// marked as failing: so a walk that comes round ends, too, if nothing passes.
fn walk(
    index: &Index,
    sought: &Sought<'_>,
    asof: usize,
    marks: &mut Marks,
    path: &mut Vec<usize>,
    start: usize,
    most: usize,
    walked: &mut usize,
) -> Result<bool, Memory>
    requires asof { asof ≤ length index.now.held }
    requires within { start < asof }
    requires ascending { AreAscending sought.now }
    requires path { path.old.items ≡ [] }
    requires marks { AreTrue (chain_passes sought.now (take asof index.now.held)) marks.old [] }
    requires counted { walked.old + unknown_below asof marks.old ≤ asof }
    ensures passes { IfOk result (λ passes. walked.new ≤ most
        → passes ≡ chain_passes sought.now (take asof index.now.held) start) }
    ensures alike { IfOk result (λ passes. walked.new ≤ most → (k : ℕ) → is_among path.new.items k ≡ true
        → chain_passes sought.now (take asof index.now.held) k ≡ passes) }
    ensures marks { OnOk result (walked.new ≤ most
        → AreTrue (chain_passes sought.now (take asof index.now.held)) marks.new path.new.items) }
    ensures counted { OnOk result (walked.new + unknown_below asof marks.new ≤ asof) }
{
    let mut position = start;
    'steps: loop {
        if let Some(passes) = known_at(sought, marks, position) {
            return Ok(passes);
        }
        path.push(position)?;
        marks.set(position, Mark::Fails)?;
        let taken = (*walked).saturating_add(1);
        *walked = taken;
        if taken > most {
            return Ok(false);
        }
        match index.referred_at(asof, position) {
            Some(next) => position = next,
            None => return Ok(false),
        }
    }
}

// What is known at a position without a further step.
fn known_at(sought: &Sought<'_>, marks: &Marks, position: usize) -> Option<bool>
    requires { AreAscending sought.now }
    ensures { result ≡ known_by (mark_at marks.now position) (is_direct_at sought.now position) }
{
    match marks.at(position) {
        Mark::Passes => Some(true),
        Mark::Fails => Some(false),
        Mark::Unknown => {
            if is_direct_at(sought, position) {
                Some(true)
            } else {
                None
            }
        }
    }
}

fn mark_passing(marks: &mut Marks, path: &[usize]) -> Result<(), Memory>
    ensures { OnOk result ((k : ℕ) →
        mark_at marks.new k ≡ (if is_among path.now k then Mark.Passes else mark_at marks.old k)) }
{
    for position in path {
        marks.set(*position, Mark::Passes)?;
    }
    Ok(())
}
