ghost use Rattle.std.specs.Prelude.{◌≡◌, ◌≢◌, ◌<◌, ◌≤◌, ℕ, List, ◌∷◌, IfOk, OnOk, length};
ghost use Rattle.lrs_json.specs.View.{view};
ghost use Rattle.lrs_json.specs.Written.{written_tree};
ghost use Rattle.lrs_json.specs.declared.tree.Tree.{Tree as SpecTree};
ghost use Rattle.lrs_json.specs.Spellable.{IsSpellable};
ghost use Rattle.lrs_json_reader.specs.Rereading.{RereadsWord, RereadsString, RereadsNumber, RereadsLeaf, RereadsValue, RereadsMember, RereadsNextItem, RereadsNextMember};

use crate::cursor::{Cursor, Stop};
use lrs_json::{Items, Member, Memory, Number, Tree};
use std::alloc::Global;

/// The tree that the text was written from. What the written form has for sure isn't looked at again, and bytes that
/// are no written form give some tree. It recurses as deep as the bytes nest: who takes them from outside asks
/// `is_too_deep` first, lest the stack overflows.
pub fn reread(alloc: Global, text: &[u8]) -> Result<Tree, Memory>
    ensures { IfOk result (λ tree. (t : SpecTree) → IsSpellable (view t) → text.now ≡ written_tree t → tree ≡ t) }
{
    let mut cursor = Cursor::new(alloc, text);
    match value(&mut cursor) {
        Ok(tree) => Ok(tree),
        Err(Stop::Memory) => Err(Memory),
        Err(Stop::Bad) => Ok(Tree::Null),
    }
}

#[cycle(reread)]
fn value(cursor: &mut Cursor<'_>) -> Result<Tree, Stop>
    ensures again { RereadsValue cursor.old result cursor.new }
    ensures no_longer { OnOk result (length cursor.new ≤ length cursor.old) }
{
    match cursor.first() {
        Some(b'[') => list(cursor),
        Some(b'{') => object(cursor),
        _ => leaf(cursor),
    }
}

#[cycle(reread)]
fn list(cursor: &mut Cursor<'_>) -> Result<Tree, Stop>
    requires { (rest : List ℕ) × (cursor.old ≡ 91 ∷ rest) }
    ensures again { RereadsValue cursor.old result cursor.new }
    ensures no_longer { OnOk result (length cursor.new ≤ length cursor.old) }
{
    cursor.advance(1);
    let mut items = Items::new(cursor.allocator());
    let mut goes = !cursor.take(b"]");
    while goes {
        goes = next_item(cursor, &mut items)?;
    }
    Ok(Tree::List(items))
}

// One item more, and what follows it. Tells whether another comes.
#[cycle(reread)]
fn next_item(cursor: &mut Cursor<'_>, items: &mut Items<Tree>) -> Result<bool, Stop>
    ensures again { RereadsNextItem items.old cursor.old result items.new cursor.new }
    ensures shorter { OnOk result (length cursor.new < length cursor.old) }
{
    items.push(value(cursor)?)?;
    cursor.comma_or(b']')
}

#[cycle(reread)]
fn object(cursor: &mut Cursor<'_>) -> Result<Tree, Stop>
    requires { (rest : List ℕ) × (cursor.old ≡ 123 ∷ rest) }
    ensures again { RereadsValue cursor.old result cursor.new }
    ensures no_longer { OnOk result (length cursor.new ≤ length cursor.old) }
{
    cursor.advance(1);
    let mut members = Items::new(cursor.allocator());
    let mut goes = !cursor.take(b"}");
    while goes {
        goes = next_member(cursor, &mut members)?;
    }
    Ok(Tree::Object(members))
}

// One member more, and what follows it. Tells whether another comes.
#[cycle(reread)]
fn next_member(cursor: &mut Cursor<'_>, members: &mut Items<Member>) -> Result<bool, Stop>
    ensures again { RereadsNextMember members.old cursor.old result members.new cursor.new }
    ensures shorter { OnOk result (length cursor.new < length cursor.old) }
{
    members.push(member(cursor)?)?;
    cursor.comma_or(b'}')
}

#[cycle(reread)]
fn member(cursor: &mut Cursor<'_>) -> Result<Member, Stop>
    ensures again { RereadsMember cursor.old result cursor.new }
    ensures no_longer { OnOk result (length cursor.new ≤ length cursor.old) }
{
    let name = cursor.quoted()?;
    cursor.word(b":")?;
    let value = value(cursor)?;
    Ok(Member { name, value })
}

// A value that holds no others.
fn leaf(cursor: &mut Cursor<'_>) -> Result<Tree, Stop>
    requires no_list { (rest : List ℕ) → cursor.old ≢ 91 ∷ rest }
    requires no_object { (rest : List ℕ) → cursor.old ≢ 123 ∷ rest }
    ensures again { RereadsLeaf cursor.old result cursor.new }
    ensures no_longer { OnOk result (length cursor.new ≤ length cursor.old) }
{
    let Some(first) = cursor.first() else {
        return Err(Stop::Bad);
    };
    match first {
        b'"' => string(cursor),
        b'n' => literal(b"null", Tree::Null, cursor),
        b't' => literal(b"true", Tree::Bool(true), cursor),
        b'f' => literal(b"false", Tree::Bool(false), cursor),
        _ => number(cursor),
    }
}

fn literal(word: &[u8], tree: Tree, cursor: &mut Cursor<'_>) -> Result<Tree, Stop>
    ensures again { RereadsWord word.now tree cursor.old result cursor.new }
    ensures no_longer { OnOk result (length cursor.new ≤ length cursor.old) }
{
    cursor.word(word)?;
    Ok(tree)
}

fn string(cursor: &mut Cursor<'_>) -> Result<Tree, Stop>
    ensures again { RereadsString cursor.old result cursor.new }
    ensures no_longer { OnOk result (length cursor.new ≤ length cursor.old) }
{
    Ok(Tree::Words(cursor.quoted()?))
}

fn number(cursor: &mut Cursor<'_>) -> Result<Tree, Stop>
    ensures again { RereadsNumber cursor.old result cursor.new }
    ensures no_longer { OnOk result (length cursor.new ≤ length cursor.old) }
{
    let spelling = cursor.number()?;
    Ok(Tree::Number(Number::of(spelling)))
}
