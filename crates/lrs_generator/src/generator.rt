// The batches of a seed.
ghost use Rattle.std.specs.Prelude.{◌≡◌, ◌++◌, ◌∷◌, [], ◌+◌, ◌≤◌, ◌^◌, IfOk, OnOk, map, min};
ghost use Rattle.lrs_json.specs.View.{view};
ghost use Rattle.lrs_generator.specs.Generated.{number_at, statement_of};
ghost use Rattle.lrs_generator.specs.Progress.{AreMade};

use crate::statements::{next_number, statement};
use lrs_json::{Items, Memory, Tree};
use std::alloc::Global;
use std::marker::Model;

/// How many statements a batch has; the last one may have fewer.
pub const BATCH: u32 = 100;

/// Makes the statements of a seed, batch by batch.
#[derive(Drop)]
pub struct Generator {
    seed: u64,
    count: u32,
    // How many batches were taken.
    taken: u32,
    // Where batches are left, the number from which the next one's first statement is made.
    number: u64,
}

impl Model for Generator {
    ghost use Rattle.lrs_generator.specs.Progress.{IsProgress, Progress};

    ghost Value = { Progress };

    ghost view = { λ g. record { seed = g.seed; count = g.count; taken = g.taken } };

    ghost invariant = { λ g. IsProgress g.seed g.count g.taken g.number };
}

impl Generator {
    ghost use Rattle.std.specs.Prelude.{◌≡◌, ◌+◌, ◌<◌, ◌≤◌, IfNone, IfOk, IfSome, OnErr, OnSome, map};
    ghost use Rattle.lrs_json.specs.View.{view};
    ghost use Rattle.lrs_generator.specs.Generated.{batch, batch_count};
    ghost use Rattle.lrs_generator.specs.Progress.{untaken};

    /// Will make that many statements of the seed.
    #[tactic(auto, using(crate::proofs::Batches::begun))]
    pub fn new(seed: u64, count: u32) -> Generator
        ensures { result ≡ untaken seed count }
    {
        Generator {
            seed,
            count,
            taken: 0,
            number: seed,
        }
    }

    /// The next batch, or none where all were taken. Where memory runs out, the same batch is still the next.
    pub fn next_batch(&mut self, alloc: Global) -> Result<Option<Items<Tree>>, Memory>
        ensures batch { IfOk result (λ next. IfSome next (λ trees.
            map view trees ≡ batch self.old.seed self.old.count self.old.taken)) }
        ensures left { IfOk result (λ next. OnSome next (self.old.taken < batch_count self.old.count)) }
        ensures ended { IfOk result (λ next. IfNone next (batch_count self.old.count ≤ self.old.taken)) }
        ensures taken { IfOk result (λ next. OnSome next
            (self.new ≡ record self.old { taken = self.old.taken + 1 })) }
        ensures kept { IfOk result (λ next. IfNone next (self.new ≡ self.old)) }
        ensures err { OnErr result (self.new ≡ self.old) }
    {
        let first = self.taken as u64 * BATCH as u64;
        let end = self.count as u64;
        if first >= end {
            return Ok(None);
        }
        let most = next_length(end - first);
        let mut number = self.number;
        let trees = make(alloc, self.seed, first, most, &mut number)?;
        self.number = number;
        self.taken += 1;
        Ok(Some(trees))
    }
}

// How long the next batch is where so many statements are left.
fn next_length(left: u64) -> u64
    ensures { result ≡ min BATCH left }
{
    (BATCH as u64).min(left)
}

// So many statements from that index on. The number is that of the first, and afterwards that of the one behind the
// last.
fn make(
    alloc: Global,
    seed: u64,
    first: u64,
    many: u64,
    number: &mut u64,
) -> Result<Items<Tree>, Memory>
    requires number { number.old ≡ number_at seed first }
    requires few { first + many ≤ 2 ^ 32 }
    ensures { IfOk result (λ trees. AreMade seed first many trees number.new) }
{
    let mut trees = Items::new(alloc);
    for done in 0..many {
        push_statement(seed, first + done, *number, &mut trees)?;
        *number = next_number(*number);
    }
    Ok(trees)
}

fn push_statement(seed: u64, index: u64, number: u64, trees: &mut Items<Tree>) -> Result<(), Memory>
    ensures { OnOk result (map view trees.new ≡ map view trees.old ++ statement_of seed index number ∷ []) }
{
    let tree = statement(trees.allocator(), seed, index, number)?;
    trees.push(tree)
}
