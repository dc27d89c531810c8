// The tests of lrs_turn.
ghost use Rattle.std.specs.Prelude.{◌≡◌, ◌≤◌, ◌<◌, ℕ, [], ◌∷◌, length, replicate, All};
ghost use Rattle.lrs_turn.specs.Lists.{NoneFalls};
ghost use Rattle.lrs_turn.specs.Passes.{IsIdle, HasTurn};

use lrs_turn::{Journaled, MOST_PASSES, Memory, Pass, Turns};
use std::alloc::Global;
use std::sync::Wait;
use std::thread::{Threads, for_each_mut};

/// A list of zeros, of which only the length is kept.
#[derive(Drop)]
struct Tally {
    count: u64,
}

impl Journaled for Tally {
    type Record = u64;

    ghost line = { λ t. replicate t.count 0 };

    ghost marks = { λ _. [] };

    ghost tide = { λ t. t.count ∷ [] };

    fn length(&self) -> u64
        ensures { result ≡ length {A = ℕ} (replicate self.now.count 0) }
    {
        self.count
    }
}

// Adds a record, if a number is left for it.
fn add_one(turns: &Turns<Tally>, pass: &mut Pass<u64>, mut state: Tally) -> Tally
    requires turn { HasTurn turns.now pass.old }
    requires line { pass.old.line ≡ replicate state.count 0 }
    requires marks { pass.old.marks ≡ [] }
    requires tide { pass.old.level ≡ state.count ∷ [] }
    ensures turn { HasTurn turns.now pass.new }
    ensures line { pass.new.line ≡ replicate result.count 0 }
    ensures marks { pass.new.marks ≡ [] }
    ensures tide { NoneFalls pass.new.level (result.count ∷ []) }
{
    if state.count == u64::MAX {
        return state;
    }
    state.count += 1;
    turns.commit(pass, &state);
    state
}

fn add<R: Wait>(rt: &R, turns: &Turns<Tally>, pass: &mut Pass<u64>, wanted: u32)
    requires { IsIdle turns.now pass.old }
    ensures { IsIdle turns.now pass.new }
{
    for _ in 0..wanted {
        let state = turns.take(rt, pass);
        let state = add_one(turns, pass, state);
        turns.give(pass, state);
    }
}

fn look<R: Wait>(rt: &R, turns: &Turns<Tally>, pass: &mut Pass<u64>)
    requires { IsIdle turns.now pass.old }
    ensures { IsIdle turns.now pass.new }
{
    let state = turns.take(rt, pass);
    turns.point(pass, &state);
    turns.give(pass, state);
}

fn add_by_all<R: Threads + Wait + Sync>(
    rt: &R,
    turns: &Turns<Tally>,
    passes: &mut [Pass<u64>],
    wanted: u32,
)
    requires some { 0 < length passes.old }
    requires idle { All (λ p. IsIdle turns.now p) passes.old }
    ensures idle { All (λ p. IsIdle turns.now p) passes.new }
    ensures len { length passes.new ≡ length passes.old }
{
    let threads = passes.len();
    for_each_mut(
        rt,
        passes,
        threads,
        &|_, pass: &mut Pass<u64>|
            requires { IsIdle turns.now pass.now }
            ensures { IsIdle turns.entry.now pass.exit.now }
        { add(rt, turns, pass, wanted) },
    );
}

// Adds records with one of the passes, and answers how many it has seen then.
fn add_with<R: Wait>(
    rt: &R,
    turns: &Turns<Tally>,
    passes: &mut [Pass<u64>],
    index: usize,
    wanted: u32,
) -> u64
    requires index { index < length passes.old }
    requires idle { All (λ p. IsIdle turns.now p) passes.old }
    ensures idle { All (λ p. IsIdle turns.now p) passes.new }
    ensures len { length passes.new ≡ length passes.old }
{
    add(rt, turns, &mut passes[index], wanted);
    passes[index].front()
}

// Looks at the state with one of the passes, and answers how many records it has seen before and behind.
fn look_with<R: Wait>(
    rt: &R,
    turns: &Turns<Tally>,
    passes: &mut [Pass<u64>],
    index: usize,
) -> (u64, u64)
    requires index { index < length passes.old }
    requires idle { All (λ p. IsIdle turns.now p) passes.old }
    ensures idle { All (λ p. IsIdle turns.now p) passes.new }
    ensures len { length passes.new ≡ length passes.old }
{
    let before = passes[index].front();
    look(rt, turns, &mut passes[index]);
    (before, passes[index].front())
}

// The numbers of records that two passes see: the one that added two, the other before and behind its look, and the
// state in the end.
fn seen_by_two<R: Wait>(rt: &R, alloc: Global) -> Result<(u64, u64, u64, u64), (Memory, Tally)> {
    let (turns, mut passes) = Turns::new(alloc, Tally { count: 7 }, 2)?;
    let added = add_with(rt, &turns, passes.as_mut_slice(), 0, 2);
    let (before, behind) = look_with(rt, &turns, passes.as_mut_slice(), 1);
    Ok((added, before, behind, turns.close(passes).count))
}

#[test]
fn a_pass_sees_what_was_committed_once_it_points(rt: HostRuntime) {
    assert!(rt; seen_by_two(&rt, rt.alloc()).ok() == Some((9, 7, 9, 9)));
}

fn count_by<R: Threads + Wait + Sync>(
    rt: &R,
    alloc: Global,
    passes: u32,
    wanted: u32,
) -> Result<u64, (Memory, Tally)>
    requires { (0 < passes) × (passes ≤ MOST_PASSES) }
{
    let (turns, mut passes) = Turns::new(alloc, Tally { count: 1 }, passes)?;
    add_by_all(rt, &turns, passes.as_mut_slice(), wanted);
    Ok(turns.close(passes).count)
}

#[test]
fn one_thread_counts(rt: HostRuntime) {
    assert!(rt; count_by(&rt, rt.alloc(), 1, 3).ok() == Some(4));
}

#[test]
fn two_threads_count_under_the_turn(rt: HostRuntime) {
    assert!(rt; count_by(&rt, rt.alloc(), 2, 50).ok() == Some(101));
}

#[test]
fn sixteen_threads_count_under_the_turn(rt: HostRuntime) {
    assert!(rt; count_by(&rt, rt.alloc(), 16, 20).ok() == Some(321));
}
