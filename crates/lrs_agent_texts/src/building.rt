//! Building an object member by member.
ghost use Rattle.std.specs.Prelude.{◌≡◌, ◌∷◌, ◌++◌, [], IfOk, OnOk, map};
ghost use Rattle.lrs_json.specs.Json.{object, string};
ghost use Rattle.lrs_json.specs.View.{member_view, members_of, view};
ghost use Rattle.lrs_agent_texts.specs.Texts.{text_given};

use lrs_json::{Items, Member, Memory, Text, Tree};
use std::alloc::Global;

/// The object of these members.
pub fn whole(built: Items<Member>) -> Tree
    ensures { view result ≡ object (members_of (map member_view built)) }
{
    Tree::Object(built)
}

/// One member more, at the end.
pub fn push(name: &str, value: Tree, built: &mut Items<Member>) -> Result<(), Memory>
    ensures { OnOk result (map member_view built.new ≡ map member_view built.old ++ (name.now, view value) ∷ []) }
{
    let name = Text::of(built.allocator(), name)?;
    built.push(Member { name, value })
}

/// A text as a value.
pub fn words(alloc: Global, text: &str) -> Result<Tree, Memory>
    ensures { IfOk result (λ tree. view tree ≡ string text.now) }
{
    Ok(Tree::Words(Text::of(alloc, text)?))
}

/// One member more, which holds the text.
pub fn push_words(name: &str, text: &str, built: &mut Items<Member>) -> Result<(), Memory>
    ensures { OnOk result (map member_view built.new
        ≡ map member_view built.old ++ (name.now, string text.now) ∷ []) }
{
    push(name, words(built.allocator(), text)?, built)
}

/// One member more, which holds the text, where there is one.
pub fn push_given(name: &str, text: &Option<Text>, built: &mut Items<Member>) -> Result<(), Memory>
    ensures { OnOk result (map member_view built.new
        ≡ map member_view built.old ++ text_given name.now text.now) }
{
    match text {
        Some(text) => push_words(name, text.as_str(), built),
        None => Ok(()),
    }
}
