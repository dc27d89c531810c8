// The excerpts of a text.
ghost use Rattle.std.specs.Prelude.{◌≡◌, ◌++◌, [], ◌∷◌, length, IfOk, OnOk};
ghost use Rattle.lrs_json.specs.Written.{Extends};
ghost use Rattle.xapi_received.specs.Excerpts.{listed};
ghost use Rattle.xapi_received.specs.Received.{AreWithin, IsWithin, excerpt_text, excerpts_text};

use crate::marks::{Excerpt, put_excerpt, put_excerpts};
use lrs_json::Memory;
use std::alloc::Global;

/// Excerpts of a text in their order. Up to two, as most texts have, take no memory of their own.
#[derive(Drop)]
pub enum Excerpts {
    Empty,
    One(Excerpt),
    Two(Excerpt, Excerpt),
    More(Vec<Excerpt>),
}

impl Excerpts {
    /// The same, and one more behind them.
    pub fn pushed(self, alloc: Global, excerpt: Excerpt) -> Result<Excerpts, Memory>
        ensures { IfOk result (λ excerpts. listed excerpts ≡ listed self ++ excerpt ∷ []) }
    {
        match self {
            Excerpts::Empty => Ok(Excerpts::One(excerpt)),
            Excerpts::One(first) => Ok(Excerpts::Two(first, excerpt)),
            Excerpts::Two(first, second) => three(alloc, first, second, excerpt),
            Excerpts::More(excerpts) => longer(excerpts, excerpt),
        }
    }

    /// The same, without the memory that isn't needed.
    pub fn shrunk(self) -> Excerpts
        ensures { listed result ≡ listed self }
    {
        match self {
            Excerpts::More(excerpts) => fitted(excerpts),
            few => few,
        }
    }

    /// Appends what they show of the text.
    #[tactic(auto, using(lrs_json::proofs::Extending::extends_trans))]
    pub fn put(&self, text: &[u8], into: &mut Vec<u8>) -> Result<(), Memory>
        requires { AreWithin (length text.now) (listed self.now) }
        ensures ok { OnOk result (into.new.items ≡ into.old.items ++ excerpts_text text.now (listed self.now)) }
        ensures kept { Extends into.old.items into.new.items }
    {
        match self {
            Excerpts::Empty => Ok(()),
            Excerpts::One(excerpt) => put_excerpt(text, *excerpt, into),
            Excerpts::Two(first, second) => put_both(text, *first, *second, into),
            Excerpts::More(excerpts) => put_excerpts(text, excerpts.as_slice(), into),
        }
    }
}

fn three(alloc: Global, first: Excerpt, second: Excerpt, third: Excerpt) -> Result<Excerpts, Memory>
    ensures { IfOk result (λ all. listed all ≡ first ∷ second ∷ third ∷ []) }
{
    let excerpts = Vec::from_slice(alloc, &[first, second, third])?;
    Ok(Excerpts::More(excerpts))
}

fn longer(excerpts: Vec<Excerpt>, excerpt: Excerpt) -> Result<Excerpts, Memory>
    ensures { IfOk result (λ all. listed all ≡ excerpts.items ++ excerpt ∷ []) }
{
    let mut all = excerpts;
    all.push(excerpt)?;
    Ok(Excerpts::More(all))
}

fn fitted(excerpts: Vec<Excerpt>) -> Excerpts
    ensures { listed result ≡ excerpts.items }
{
    let mut all = excerpts;
    all.shrink_to_fit();
    Excerpts::More(all)
}

#[tactic(auto, using(lrs_json::proofs::Extending::extends_trans))]
fn put_both(text: &[u8], first: Excerpt, second: Excerpt, into: &mut Vec<u8>) -> Result<(), Memory>
    requires first { IsWithin (length text.now) first.span }
    requires second { IsWithin (length text.now) second.span }
    ensures ok { OnOk result (into.new.items ≡ into.old.items
        ++ (excerpt_text text.now first ++ excerpt_text text.now second)) }
    ensures kept { Extends into.old.items into.new.items }
{
    put_excerpt(text, first, into)?;
    put_excerpt(text, second, into)
}
