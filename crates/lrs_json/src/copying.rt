ghost use Rattle.std.specs.Prelude.{◌≡◌, IfOk};

use crate::{Items, Member, Memory, Tree};
use std::alloc::AllocError;

impl Clone for Tree {
    ghost is_clone = { λ old new. new ≡ old };

    fn clone(&self) -> Result<Tree, AllocError> {
        match copy(self) {
            Ok(tree) => Ok(tree),
            Err(Memory) => Err(AllocError),
        }
    }
}

#[cycle(copy)]
fn copy(tree: &Tree) -> Result<Tree, Memory>
    ensures { IfOk result (λ t. t ≡ tree.now) }
{
    match tree {
        Tree::Null => Ok(Tree::Null),
        Tree::Bool(b) => Ok(Tree::Bool(*b)),
        Tree::Number(spelling) => Ok(Tree::Number(spelling.clone()?)),
        Tree::Words(text) => Ok(Tree::Words(text.clone()?)),
        Tree::List(items) => Ok(Tree::List(copy_items(items)?)),
        Tree::Object(members) => Ok(Tree::Object(copy_members(members)?)),
    }
}

#[cycle(copy)]
fn copy_items(items: &Items<Tree>) -> Result<Items<Tree>, Memory>
    ensures { IfOk result (λ copied. copied ≡ items.now) }
{
    let mut copies = Items::new(items.allocator());
    for item in items.as_slice() {
        copies.push(copy(item)?)?;
    }
    Ok(copies)
}

#[cycle(copy)]
fn copy_members(members: &Items<Member>) -> Result<Items<Member>, Memory>
    ensures { IfOk result (λ copied. copied ≡ members.now) }
{
    let mut copies = Items::new(members.allocator());
    for member in members.as_slice() {
        let name = member.name.clone()?;
        let value = copy(&member.value)?;
        copies.push(Member { name, value })?;
    }
    Ok(copies)
}
