// An object, built member by member.
ghost use Rattle.std.specs.Prelude.{◌≡◌, ◌∷◌, ◌++◌, [], OnOk, map};
ghost use Rattle.lrs_json.specs.Json.{no_members, object};
ghost use Rattle.lrs_json.specs.View.{member_view, members_of, view};
ghost use Rattle.xapi_values.specs.Following.{HasOneMore, followed_by};

use lrs_json::{Items, Member, Memory, Text, Tree};

/// The object of these members.
pub fn whole(built: Items<Member>) -> Tree
    ensures { view result ≡ object (followed_by (members_of (map member_view built)) no_members) }
{
    Tree::Object(built)
}

/// One member more.
pub fn push(name: Text, value: Tree, built: &mut Items<Member>) -> Result<(), Memory>
    ensures { OnOk result (HasOneMore built.old name (view value) built.new) }
{
    push_last(name, value, built)
}

fn push_last(name: Text, value: Tree, built: &mut Items<Member>) -> Result<(), Memory>
    ensures { OnOk result (map member_view built.new ≡ map member_view built.old ++ (name, view value) ∷ []) }
{
    built.push(Member { name, value })
}
