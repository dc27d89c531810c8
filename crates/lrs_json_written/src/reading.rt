ghost use Rattle.std.specs.Prelude.{◌≡◌, ◌≢◌, ℕ, List, ◌∷◌, ◌++◌, map, IfOk};
ghost use Rattle.std.specs.List.{AllByRecursion};
ghost use Rattle.lrs_decimal.specs.Numbers.{Ends};
ghost use Rattle.lrs_json.specs.Fits.{IsReadable};
ghost use Rattle.lrs_json.specs.Json.{Json, array};
ghost use Rattle.lrs_json.specs.View.{elements_of, view};
ghost use Rattle.lrs_json.specs.Written.{written};
ghost use Rattle.lrs_json.specs.declared.tree.Tree.{Tree as SpecTree};
ghost use Rattle.lrs_json_reader.specs.Steps.{Finds};
ghost use Rattle.lrs_json_written.specs.Reading.{ReadsNextItem, ReadsNextMember, ReadsItems, ReadsMember, ReadsMembers, ReadsNumber, ReadsText, ReadsTree, ReadsWord};

use crate::names::have_distinct_names;
use crate::texts::read_text;
use lrs_decimal::is_in_range;
use lrs_json::{Items, Member, Number, Tree};
use lrs_json_reader::{Cursor, Stop};

/// The tree whose written form comes next, nested at most `depth` deep.
pub fn read_tree(cursor: &mut Cursor<'_>, depth: u32) -> Result<Tree, Stop>
    ensures found { IfOk result (λ t. IsReadable depth (view t) × (cursor.old ≡ written (view t) ++ cursor.new)) }
    ensures all { (j : Json) (rest : List ℕ) → IsReadable depth j → cursor.old ≡ written j ++ rest → Ends rest
        → Finds result (λ t. (view t ≡ j) × (cursor.new ≡ rest)) }
{
    value(cursor, depth)
}

/// The trees of the list whose written form comes next, each nested at most `depth` deep.
pub fn read_trees(cursor: &mut Cursor<'_>, depth: u32) -> Result<Items<Tree>, Stop>
    ensures found { IfOk result (λ ts. AllByRecursion (λ t. IsReadable depth (view t)) ts
        × (cursor.old ≡ written (array (elements_of (map view ts))) ++ cursor.new)) }
    ensures all { (ts : List SpecTree) (rest : List ℕ) → AllByRecursion (λ t. IsReadable depth (view t)) ts
        → cursor.old ≡ written (array (elements_of (map view ts))) ++ rest
        → Finds result (λ us. (us ≡ ts) × (cursor.new ≡ rest)) }
{
    items(cursor, depth)
}

#[cycle(reading)]
fn value(cursor: &mut Cursor<'_>, depth: u32) -> Result<Tree, Stop>
    ensures { ReadsTree depth cursor.old result cursor.new }
{
    match cursor.first() {
        Some(b'[') => list(cursor, depth),
        Some(b'{') => object(cursor, depth),
        _ => leaf(cursor),
    }
}

#[cycle(reading)]
fn list(cursor: &mut Cursor<'_>, depth: u32) -> Result<Tree, Stop>
    requires { (rest : List ℕ) × (cursor.old ≡ 91 ∷ rest) }
    ensures { ReadsTree depth cursor.old result cursor.new }
{
    if depth == 0 {
        return Err(Stop::Bad);
    }
    Ok(Tree::List(items(cursor, depth - 1)?))
}

#[cycle(reading)]
fn items(cursor: &mut Cursor<'_>, depth: u32) -> Result<Items<Tree>, Stop>
    ensures { ReadsItems depth cursor.old result cursor.new }
{
    cursor.word(b"[")?;
    let mut items = Items::new(cursor.allocator());
    let mut goes = !cursor.take(b"]");
    while goes {
        goes = next_item(cursor, depth, &mut items)?;
    }
    Ok(items)
}

// One item more, and what follows it. Tells whether another comes.
#[cycle(reading)]
fn next_item(cursor: &mut Cursor<'_>, depth: u32, items: &mut Items<Tree>) -> Result<bool, Stop>
    ensures { ReadsNextItem depth items.old cursor.old result items.new cursor.new }
{
    items.push(value(cursor, depth)?)?;
    cursor.comma_or(b']')
}

#[cycle(reading)]
fn object(cursor: &mut Cursor<'_>, depth: u32) -> Result<Tree, Stop>
    requires { (rest : List ℕ) × (cursor.old ≡ 123 ∷ rest) }
    ensures { ReadsTree depth cursor.old result cursor.new }
{
    if depth == 0 {
        return Err(Stop::Bad);
    }
    let members = members(cursor, depth - 1)?;
    if !have_distinct_names(cursor.allocator(), members.as_slice())? {
        return Err(Stop::Bad);
    }
    Ok(Tree::Object(members))
}

// Whatever their names are.
#[cycle(reading)]
fn members(cursor: &mut Cursor<'_>, depth: u32) -> Result<Items<Member>, Stop>
    ensures { ReadsMembers depth cursor.old result cursor.new }
{
    cursor.word(b"{")?;
    let mut members = Items::new(cursor.allocator());
    let mut goes = !cursor.take(b"}");
    while goes {
        goes = next_member(cursor, depth, &mut members)?;
    }
    Ok(members)
}

// One member more, and what follows it. Tells whether another comes.
#[cycle(reading)]
fn next_member(
    cursor: &mut Cursor<'_>,
    depth: u32,
    members: &mut Items<Member>,
) -> Result<bool, Stop>
    ensures { ReadsNextMember depth members.old cursor.old result members.new cursor.new }
{
    members.push(member(cursor, depth)?)?;
    cursor.comma_or(b'}')
}

#[cycle(reading)]
fn member(cursor: &mut Cursor<'_>, depth: u32) -> Result<Member, Stop>
    ensures { ReadsMember depth cursor.old result cursor.new }
{
    let name = read_text(cursor)?;
    cursor.word(b":")?;
    let value = value(cursor, depth)?;
    Ok(Member { name, value })
}

// A value that holds no others.
fn leaf(cursor: &mut Cursor<'_>) -> Result<Tree, Stop>
    requires no_list { (rest : List ℕ) → cursor.old ≢ 91 ∷ rest }
    requires no_object { (rest : List ℕ) → cursor.old ≢ 123 ∷ rest }
    ensures { (depth : ℕ) → ReadsTree depth cursor.old result cursor.new }
{
    let Some(first) = cursor.first() else {
        return Err(Stop::Bad);
    };
    match first {
        b'"' => string(cursor),
        b'n' => literal(b"null", Tree::Null, cursor),
        b't' => literal(b"true", Tree::Bool(true), cursor),
        b'f' => literal(b"false", Tree::Bool(false), cursor),
        _ => number(cursor),
    }
}

fn literal(word: &[u8], tree: Tree, cursor: &mut Cursor<'_>) -> Result<Tree, Stop>
    ensures { ReadsWord word.now tree cursor.old result cursor.new }
{
    cursor.word(word)?;
    Ok(tree)
}

fn string(cursor: &mut Cursor<'_>) -> Result<Tree, Stop>
    ensures { ReadsText cursor.old result cursor.new }
{
    Ok(Tree::Words(read_text(cursor)?))
}

fn number(cursor: &mut Cursor<'_>) -> Result<Tree, Stop>
    ensures { ReadsNumber cursor.old result cursor.new }
{
    let spelling = cursor.number()?;
    if !is_in_range(spelling.as_bytes()) {
        return Err(Stop::Bad);
    }
    Ok(Tree::Number(Number::of(spelling)))
}
