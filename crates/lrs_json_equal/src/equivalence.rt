ghost use Rattle.std.specs.Prelude.{◌≡◌, ℕ, List, true, false, map, is_some, IsTrue};
ghost use Rattle.std.specs.Option.{option_map, option_map_or};
ghost use Rattle.std.specs.Ordering.{is_eq};
ghost use Rattle.lrs_decimal.specs.Numbers.{IsNumber};
ghost use Rattle.lrs_decimal.specs.Range.{is_in_range};
ghost use Rattle.lrs_decimal.specs.Values.{order};
ghost use Rattle.lrs_json.specs.Json.{Json};
ghost use Rattle.lrs_json.specs.View.{view, member_view, elements_of, members_of};
ghost use Rattle.lrs_json.specs.Fits.{Fits, FitElements, FitMembers};
ghost use Rattle.lrs_json.specs.Find.{find_member};
ghost use Rattle.lrs_json_equal.specs.SameValue.{same, same_elements, same_members, are_named};

use crate::partners::Partners;
use lrs_decimal::Decimal;
use lrs_json::{Member, Number, Tree, find_member};

// Fewer members are looked for one by one.
const FEW: usize = 32;

/// Whether the trees are equal but for the order of members and the spelling of equal decimals, as `1.0` and `1`.
/// Takes no memory.
pub fn same_value(a: &Tree, b: &Tree) -> bool
    requires a_fits { Fits (view a.now) }
    requires b_fits { Fits (view b.now) }
    ensures value { result ≡ same (view a.now) (view b.now) }

    // It is an equivalence.
    ensures reflexive { (j : Json) → Fits j → same j j ≡ true }
    ensures symmetric { (j k : Json) → Fits k → same j k ≡ true → same k j ≡ true }
    ensures transitive { (j k l : Json) → same j k ≡ true → same k l ≡ true → same j l ≡ true }
{
    is_same_value(a, b)
}

#[cycle(same_value)]
fn is_same_value(a: &Tree, b: &Tree) -> bool
    requires a_fits { Fits (view a.now) }
    requires b_fits { Fits (view b.now) }
    ensures { result ≡ same (view a.now) (view b.now) }
{
    match (a, b) {
        (Tree::Null, Tree::Null) => true,
        (Tree::Bool(x), Tree::Bool(y)) => *x == *y,
        (Tree::Number(x), Tree::Number(y)) => is_same_number(x, y),
        (Tree::Words(x), Tree::Words(y)) => x == y,
        (Tree::List(x), Tree::List(y)) => have_same_values(x.as_slice(), y.as_slice()),
        (Tree::Object(x), Tree::Object(y)) => members_have_same_values(x.as_slice(), y.as_slice())
            && are_named(y.as_slice(), x.as_slice()),
        _ => false,
    }
}

fn is_same_number(a: &Number, b: &Number) -> bool
    requires a_fits { IsNumber a.now × IsTrue (is_in_range a.now) }
    requires b_fits { IsNumber b.now × IsTrue (is_in_range b.now) }
    ensures { result ≡ is_eq (order a.now b.now) }
{
    let Some(x) = Decimal::of(a.as_bytes()) else {
        return false;
    };
    let Some(y) = Decimal::of(b.as_bytes()) else {
        return false;
    };
    x.cmp(&y).is_eq()
}

#[cycle(same_value)]
fn have_same_values(a: &[Tree], b: &[Tree]) -> bool
    requires a_fits { FitElements (elements_of (map view a.now)) }
    requires b_fits { FitElements (elements_of (map view b.now)) }
    ensures { result ≡ same_elements (elements_of (map view a.now)) (elements_of (map view b.now)) }
{
    if a.len() != b.len() {
        return false;
    }
    for (x, y) in a.iter().zip(b) {
        if !is_same_value(x, y) {
            return false;
        }
    }
    true
}

// Whether under each name of the first there is the same value in the second.
#[cycle(same_value)]
fn members_have_same_values(a: &[Member], b: &[Member]) -> bool
    requires a_fits { (names : List (List ℕ)) × FitMembers names (members_of (map member_view a.now)) }
    requires b_fits { (names : List (List ℕ)) × FitMembers names (members_of (map member_view b.now)) }
    ensures { result ≡ same_members (members_of (map member_view a.now)) (members_of (map member_view b.now)) }
{
    if a.len() < FEW {
        few_have_same_values(a, b)
    } else {
        many_have_same_values(a, b)
    }
}

#[cycle(same_value)]
fn few_have_same_values(a: &[Member], b: &[Member]) -> bool
    requires a_fits { (names : List (List ℕ)) × FitMembers names (members_of (map member_view a.now)) }
    requires b_fits { (names : List (List ℕ)) × FitMembers names (members_of (map member_view b.now)) }
    ensures { result ≡ same_members (members_of (map member_view a.now)) (members_of (map member_view b.now)) }
{
    let mut at = 0_usize;
    for member in a {
        if !has_same_value(member, b, at) {
            return false;
        }
        at = at.saturating_add(1);
    }
    true
}

// Not inlined, since the partners would then lie on the stack at each level of a value.
#[cycle(same_value)]
#[inline(never)]
fn many_have_same_values(a: &[Member], b: &[Member]) -> bool
    requires a_fits { (names : List (List ℕ)) × FitMembers names (members_of (map member_view a.now)) }
    requires b_fits { (names : List (List ℕ)) × FitMembers names (members_of (map member_view b.now)) }
    ensures { result ≡ same_members (members_of (map member_view a.now)) (members_of (map member_view b.now)) }
{
    let mut partners = Partners::new();
    let mut at = 0_usize;
    for member in a {
        if !has_same_value(member, b, partners.index(a, at, b)) {
            return false;
        }
        at = at.saturating_add(1);
    }
    true
}

// The member of its name mostly stands at that index.
#[cycle(same_value)]
fn has_same_value(member: &Member, members: &[Member], at: usize) -> bool
    requires member_fits { Fits (member_view member.now).1 }
    requires members_fit { (names : List (List ℕ)) × FitMembers names (members_of (map member_view members.now)) }
    ensures { result ≡ option_map_or (same (member_view member.now).1)
        (find_member (member_view member.now).0 (members_of (map member_view members.now))) false }
{
    match find_from(members, member.name.as_str(), at) {
        Some(value) => is_same_value(&member.value, value),
        None => false,
    }
}

// Looks at that index, and then at all.
fn find_from<'a>(members: &'a [Member], name: &str, at: usize) -> Option<&'a Tree>
    ensures found { is_some result ≡ is_some (find_member name.now (members_of (map member_view members.now))) }
    // If the names differ, it is the only one of that name.
    ensures first { (names : List (List ℕ)) → FitMembers names (members_of (map member_view members.now))
        → option_map (λ t. view t.now) result ≡ find_member name.now (members_of (map member_view members.now)) }
{
    let Some(member) = members.get(at) else {
        return find_member(members, name);
    };
    if member.name.as_str() == name {
        Some(&member.value)
    } else {
        find_member(members, name)
    }
}

// Whether each name of the first is one of the second.
fn are_named(a: &[Member], b: &[Member]) -> bool
    ensures { result ≡ are_named (members_of (map member_view a.now)) (members_of (map member_view b.now)) }
{
    if a.len() < FEW {
        few_are_named(a, b)
    } else {
        many_are_named(a, b)
    }
}

fn few_are_named(a: &[Member], b: &[Member]) -> bool
    ensures { result ≡ are_named (members_of (map member_view a.now)) (members_of (map member_view b.now)) }
{
    for member in a {
        if find_member(b, member.name.as_str()).is_none() {
            return false;
        }
    }
    true
}

#[inline(never)]
fn many_are_named(a: &[Member], b: &[Member]) -> bool
    ensures { result ≡ are_named (members_of (map member_view a.now)) (members_of (map member_view b.now)) }
{
    let mut partners = Partners::new();
    let mut at = 0_usize;
    for member in a {
        if find_from(b, member.name.as_str(), partners.index(a, at, b)).is_none() {
            return false;
        }
        at = at.saturating_add(1);
    }
    true
}
