ghost use Rattle.std.specs.Prelude.{◌≡◌, map, option_map};
ghost use Rattle.lrs_json.specs.View.{view, member_view, members_of};
ghost use Rattle.lrs_json.specs.Find.{find, find_member};

use crate::{Items, Number, Text};

/// A JSON value (RFC 8259, section 3). A number keeps its spelling, an object its members in their order.
#[cycle(tree)]
#[derive(Drop)]
pub enum Tree {
    Null,
    Bool(bool),
    Number(Number),
    Words(Text),
    List(Items<Tree>),
    Object(Items<Member>),
}

/// A name and its value in an object.
#[cycle(tree)]
#[derive(Drop)]
pub struct Member {
    pub name: Text,
    pub value: Tree,
}

impl Tree {
    /// The value of the first member of that name, if the tree is an object.
    pub fn get(&self, name: &str) -> Option<&Tree>
        ensures { option_map (λ t. view t.now) result ≡ find name.now (view self.now) }
    {
        match self {
            Tree::Object(members) => find_member(members.as_slice(), name),
            _ => None,
        }
    }
}

/// The value of the first member of that name.
pub fn find_member<'a>(members: &'a [Member], name: &str) -> Option<&'a Tree>
    ensures { option_map (λ t. view t.now) result ≡ find_member name.now (members_of (map member_view members.now)) }
{
    for member in members {
        if member.name.as_str() == name {
            return Some(&member.value);
        }
    }
    None
}
