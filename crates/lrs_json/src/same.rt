ghost use Rattle.std.specs.Prelude.{◌≡◌, ◌↔◌, IsTrue};

use crate::{Member, Tree};

impl Tree {
    /// Whether the trees are equal, in the order of members and the spelling of numbers too.
    pub fn same(&self, other: &Tree) -> bool
        ensures { IsTrue result ↔ (self.now ≡ other.now) }
    {
        is_same(self, other)
    }
}

#[cycle(same)]
fn is_same(a: &Tree, b: &Tree) -> bool
    ensures { IsTrue result ↔ (a.now ≡ b.now) }
{
    match (a, b) {
        (Tree::Null, Tree::Null) => true,
        (Tree::Bool(x), Tree::Bool(y)) => *x == *y,
        (Tree::Number(x), Tree::Number(y)) => x == y,
        (Tree::Words(x), Tree::Words(y)) => x == y,
        (Tree::List(x), Tree::List(y)) => are_same(x.as_slice(), y.as_slice()),
        (Tree::Object(x), Tree::Object(y)) => members_are_same(x.as_slice(), y.as_slice()),
        _ => false,
    }
}

#[cycle(same)]
fn are_same(a: &[Tree], b: &[Tree]) -> bool
    ensures { IsTrue result ↔ (a.now ≡ b.now) }
{
    if a.len() != b.len() {
        return false;
    }
    for (x, y) in a.iter().zip(b) {
        if !is_same(x, y) {
            return false;
        }
    }
    true
}

#[cycle(same)]
fn members_are_same(a: &[Member], b: &[Member]) -> bool
    ensures { IsTrue result ↔ (a.now ≡ b.now) }
{
    if a.len() != b.len() {
        return false;
    }
    for (x, y) in a.iter().zip(b) {
        if x.name != y.name || !is_same(&x.value, &y.value) {
            return false;
        }
    }
    true
}
