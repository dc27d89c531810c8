// The text of the form with ids alone, written from the text of a received statement. In each of the following, what
// stood before stays if memory runs out in the middle.
ghost use Rattle.std.specs.Prelude.{◌≡◌, ◌++◌, ◌∷◌, [], ℕ, List, false, IfOk, OnOk};
ghost use Rattle.lrs_json.specs.Json.{Json, Members, array, member, object};
ghost use Rattle.lrs_json.specs.Texts.{member_text, name_text};
ghost use Rattle.lrs_json.specs.Written.{Extends, comma_if, elements_text, members_text, written};
ghost use Rattle.lrs_time.specs.Moments.{moment_text};
ghost use Rattle.xapi_format.specs.Authorities.{account_agent, account_name, authority_json};
ghost use Rattle.xapi_format.specs.Completed.{added, completed, in_array};
ghost use Rattle.xapi_values.specs.Memberwise.{each_member, with_each_member};
ghost use Rattle.xapi_reduced.specs.Direct.{direct_activities, direct_before, direct_context_member, direct_member, direct_nested_member, direct_object, direct_part, kept_names};
ghost use Rattle.xapi_reduced.specs.Reduced.{each_item, only, reduced, reduced_activity, reduced_group_member, reduced_party, reduced_plain_object, with_each_item, with_only};

use crate::adding::put_added;
use crate::kinds::{is_anonymous, is_nested, kind_of};
use crate::names::{KeptNames, is_added};
use lrs_json::Memory;
use lrs_json::appending::{put, put_comma};
use lrs_json_slices::{Written, WrittenItems, WrittenMember, WrittenMembers, WrittenText};
use lrs_names::Id;
use lrs_time::Moment;
use xapi_format::WrittenAuthority;
use xapi_values::Kind;

/// Appends the text of a received statement with ids alone, as if it had been completed first. Neither form is made as
/// a tree, nor is the statement: what stays is copied from its text.
#[tactic(auto, unfolding(crate::specs::Reduced::reduced, xapi_format::specs::Completed::completed))]
pub fn put_reduced(
    received: &Written<'_>,
    id: &Id,
    stored: Moment,
    authority: &WrittenAuthority,
    into: &mut Vec<u8>,
) -> Result<(), Memory>
    ensures ok { OnOk result (into.new.items ≡ into.old.items ++ written (reduced
        (completed received.now id.now (moment_text stored) (authority_json authority.now)))) }
    ensures kept { Extends into.old.items into.new.items }
{
    match received.members() {
        Some(members) => put_statement(members, received, id, stored, authority, into),
        None => received.put(into),
    }
}

// The members of a statement that are kept, and what the store adds behind them.
#[tactic(auto, using(lrs_json::proofs::Extending::extends_trans))]
fn put_statement(
    members: WrittenMembers<'_>,
    received: &Written<'_>,
    id: &Id,
    stored: Moment,
    authority: &WrittenAuthority,
    into: &mut Vec<u8>,
) -> Result<(), Memory>
    ensures ok { OnOk result (into.new.items ≡ into.old.items
        ++ written (object (direct_before members.entry
        (added received.now id.now (moment_text stored) (account_agent (account_name authority.now)))))) }
    ensures kept { Extends into.old.items into.new.items }
{
    put(b"{", into)?;
    let later = put_kept(members, into)?;
    put_added(later, received, id, stored, authority, into)
}

// The members that are kept. Tells whether one was put.
#[tactic(auto, using(lrs_json::proofs::Extending::extends_trans))]
fn put_kept(members: WrittenMembers<'_>, into: &mut Vec<u8>) -> Result<bool, Memory>
    ensures ok { IfOk result (λ put. (behind : Members) → into.new.items ++ members_text put behind
        ≡ into.old.items ++ members_text false (direct_before members.entry behind)) }
    ensures kept { Extends into.old.items into.new.items }
{
    let mut left = members;
    let mut later = false;
    while let Some(part) = left.next() {
        later = put_if_kept(later, &part, into)?;
    }
    Ok(later)
}

fn put_if_kept(later: bool, part: &WrittenMember<'_>, into: &mut Vec<u8>) -> Result<bool, Memory>
    ensures ok { IfOk result (λ put. (ms behind : Members) →
        into.new.items ++ members_text put (direct_before ms behind)
        ≡ into.old.items ++ members_text later (direct_before (member part.now.name part.now.value ms) behind)) }
    ensures kept { Extends into.old.items into.new.items }
{
    if is_added(&part.name) {
        return Ok(later);
    }
    put_member::<OfStatement>(later, part, into)?;
    Ok(true)
}

// ---- each member of an object

// What becomes of the value of a member, by its name.
trait Part {
    ghost change: { List ℕ → Json → Json };

    fn put(name: &WrittenText<'_>, value: &Written<'_>, into: &mut Vec<u8>) -> Result<(), Memory>
        ensures ok { OnOk result (into.new.items ≡ into.old.items ++ written (change name.now value.now)) }
        ensures kept { Extends into.old.items into.new.items };
}

// One member, after others if they stand before.
#[tactic(auto, using(lrs_json::proofs::Extending::extends_trans))]
fn put_member<P: Part>(
    later: bool,
    part: &WrittenMember<'_>,
    into: &mut Vec<u8>,
) -> Result<(), Memory>
    ensures ok { OnOk result (into.new.items
        ≡ into.old.items ++ member_text later part.now.name (P.change part.now.name part.now.value)) }
    ensures kept { Extends into.old.items into.new.items }
{
    put_name(later, &part.name, into)?;
    P::put(&part.name, &part.value, into)
}

// The name of a member and its colon, and a comma before it if other members stand before.
#[tactic(auto, using(lrs_json::proofs::Extending::extends_trans))]
fn put_name(later: bool, name: &WrittenText<'_>, into: &mut Vec<u8>) -> Result<(), Memory>
    ensures ok { OnOk result (into.new.items ≡ into.old.items ++ name_text later name.now) }
    ensures kept { Extends into.old.items into.new.items }
{
    put_comma(later, into)?;
    name.put(into)?;
    put(b":", into)
}

fn put_each<P: Part>(value: &Written<'_>, into: &mut Vec<u8>) -> Result<(), Memory>
    ensures ok { OnOk result (into.new.items ≡ into.old.items ++ written (with_each_member P.change value.now)) }
    ensures kept { Extends into.old.items into.new.items }
{
    match value.members() {
        Some(members) => put_object::<P>(members, into),
        None => value.put(into),
    }
}

#[tactic(auto, using(lrs_json::proofs::Extending::extends_trans))]
fn put_object<P: Part>(members: WrittenMembers<'_>, into: &mut Vec<u8>) -> Result<(), Memory>
    ensures ok { OnOk result (into.new.items
        ≡ into.old.items ++ written (object (each_member P.change members.entry))) }
    ensures kept { Extends into.old.items into.new.items }
{
    put(b"{", into)?;
    put_members::<P>(members, into)
}

// The members and the closing brace.
#[tactic(auto, using(lrs_json::proofs::Extending::extends_trans))]
fn put_members<P: Part>(members: WrittenMembers<'_>, into: &mut Vec<u8>) -> Result<(), Memory>
    ensures ok { OnOk result (into.new.items ≡ into.old.items
        ++ members_text false (each_member P.change members.entry)) }
    ensures kept { Extends into.old.items into.new.items }
{
    let mut left = members;
    let mut later = false;
    while let Some(part) = left.next() {
        put_member::<P>(later, &part, into)?;
        later = true;
    }
    put(b"}", into)
}

// ---- the members of some names

// Of an object the members of these names, each as it becomes.
fn put_only<P: Part>(
    names: KeptNames,
    value: &Written<'_>,
    into: &mut Vec<u8>,
) -> Result<(), Memory>
    ensures ok { OnOk result (into.new.items ≡ into.old.items
        ++ written (with_each_member P.change (with_only (kept_names names) value.now))) }
    ensures kept { Extends into.old.items into.new.items }
{
    match value.members() {
        Some(members) => put_only_object::<P>(names, members, into),
        None => value.put(into),
    }
}

#[tactic(auto, using(lrs_json::proofs::Extending::extends_trans))]
fn put_only_object<P: Part>(
    names: KeptNames,
    members: WrittenMembers<'_>,
    into: &mut Vec<u8>,
) -> Result<(), Memory>
    ensures ok { OnOk result (into.new.items ≡ into.old.items
        ++ written (object (each_member P.change (only (kept_names names) members.entry)))) }
    ensures kept { Extends into.old.items into.new.items }
{
    put(b"{", into)?;
    put_only_members::<P>(names, members, into)
}

// These members and the closing brace.
#[tactic(auto, using(lrs_json::proofs::Extending::extends_trans))]
fn put_only_members<P: Part>(
    names: KeptNames,
    members: WrittenMembers<'_>,
    into: &mut Vec<u8>,
) -> Result<(), Memory>
    ensures ok { OnOk result (into.new.items ≡ into.old.items
        ++ members_text false (each_member P.change (only (kept_names names) members.entry))) }
    ensures kept { Extends into.old.items into.new.items }
{
    let mut left = members;
    let mut later = false;
    while let Some(part) = left.next() {
        later = put_if_named::<P>(names, later, &part, into)?;
    }
    put(b"}", into)
}

fn put_if_named<P: Part>(
    names: KeptNames,
    later: bool,
    part: &WrittenMember<'_>,
    into: &mut Vec<u8>,
) -> Result<bool, Memory>
    ensures ok { IfOk result (λ put. (ms : Members) →
        into.new.items ++ members_text put (each_member P.change (only (kept_names names) ms))
        ≡ into.old.items ++ members_text later (each_member P.change
        (only (kept_names names) (member part.now.name part.now.value ms)))) }
    ensures kept { Extends into.old.items into.new.items }
{
    if names.has(&part.name) {
        put_member::<P>(later, part, into)?;
        return Ok(true);
    }
    Ok(later)
}

// A value that stays as it is.
struct AsItIs;

impl Part for AsItIs {
    ghost change = { λ name j. j };

    fn put(_: &WrittenText<'_>, value: &Written<'_>, into: &mut Vec<u8>) -> Result<(), Memory> {
        value.put(into)
    }
}

// Of an object the members of these names as they are.
fn put_with_only(names: KeptNames, value: &Written<'_>, into: &mut Vec<u8>) -> Result<(), Memory>
    ensures ok { OnOk result (into.new.items ≡ into.old.items
        ++ written (with_only (kept_names names) value.now)) }
    ensures kept { Extends into.old.items into.new.items }
{
    put_only::<AsItIs>(names, value, into)
}

// Of each object in an array the members of these names.
fn put_with_only_in_each(
    names: KeptNames,
    value: &Written<'_>,
    into: &mut Vec<u8>,
) -> Result<(), Memory>
    ensures ok { OnOk result (into.new.items ≡ into.old.items
        ++ written (with_each_item (with_only (kept_names names)) value.now)) }
    ensures kept { Extends into.old.items into.new.items }
{
    match value.items() {
        Some(items) => put_list(names, items, into),
        None => value.put(into),
    }
}

#[tactic(auto, using(lrs_json::proofs::Extending::extends_trans))]
fn put_list(names: KeptNames, items: WrittenItems<'_>, into: &mut Vec<u8>) -> Result<(), Memory>
    ensures ok { OnOk result (into.new.items ≡ into.old.items
        ++ written (array (each_item (with_only (kept_names names)) items.entry))) }
    ensures kept { Extends into.old.items into.new.items }
{
    put(b"[", into)?;
    put_items(names, items, into)
}

// The items and the closing bracket.
#[tactic(auto, using(lrs_json::proofs::Extending::extends_trans))]
fn put_items(names: KeptNames, items: WrittenItems<'_>, into: &mut Vec<u8>) -> Result<(), Memory>
    ensures ok { OnOk result (into.new.items ≡ into.old.items
        ++ elements_text false (each_item (with_only (kept_names names)) items.entry)) }
    ensures kept { Extends into.old.items into.new.items }
{
    let mut left = items;
    let mut later = false;
    while let Some(item) = left.next() {
        put_item(names, later, &item, into)?;
        later = true;
    }
    put(b"]", into)
}

#[tactic(auto, using(lrs_json::proofs::Extending::extends_trans))]
fn put_item(
    names: KeptNames,
    later: bool,
    item: &Written<'_>,
    into: &mut Vec<u8>,
) -> Result<(), Memory>
    ensures ok { OnOk result (into.new.items ≡ into.old.items ++ (comma_if later
        ++ written (with_only (kept_names names) item.now))) }
    ensures kept { Extends into.old.items into.new.items }
{
    put_comma(later, into)?;
    put_with_only(names, item, into)
}

// ---- statements

struct OfStatement;

impl Part for OfStatement {
    ghost change = { direct_member };

    fn put(name: &WrittenText<'_>, value: &Written<'_>, into: &mut Vec<u8>) -> Result<(), Memory> {
        if name.is("object") {
            put_statement_object(value, into)
        } else {
            put_part(name, value, into)
        }
    }
}

// A member other than the object, of a statement or a SubStatement.
fn put_part(name: &WrittenText<'_>, value: &Written<'_>, into: &mut Vec<u8>) -> Result<(), Memory>
    ensures ok { OnOk result (into.new.items ≡ into.old.items ++ written (direct_part name.now value.now)) }
    ensures kept { Extends into.old.items into.new.items }
{
    if name.is("actor") {
        put_party(value, into)
    } else if name.is("verb") {
        put_with_only(KeptNames::OfVerb, value, into)
    } else if name.is("context") {
        put_each::<OfContext>(value, into)
    } else {
        value.put(into)
    }
}

// ---- objects

#[tactic(auto, unfolding(crate::specs::Direct::direct_object))]
fn put_statement_object(value: &Written<'_>, into: &mut Vec<u8>) -> Result<(), Memory>
    ensures ok { OnOk result (into.new.items ≡ into.old.items ++ written (direct_object value.now)) }
    ensures kept { Extends into.old.items into.new.items }
{
    if is_nested(value) {
        put_each::<OfSubStatement>(value, into)
    } else {
        put_plain_object(value, into)
    }
}

struct OfSubStatement;

impl Part for OfSubStatement {
    ghost change = { direct_nested_member };

    fn put(name: &WrittenText<'_>, value: &Written<'_>, into: &mut Vec<u8>) -> Result<(), Memory> {
        if name.is("object") {
            put_plain_object(value, into)
        } else {
            put_part(name, value, into)
        }
    }
}

// An object that is no SubStatement.
fn put_plain_object(value: &Written<'_>, into: &mut Vec<u8>) -> Result<(), Memory>
    ensures ok { OnOk result (into.new.items ≡ into.old.items ++ written (reduced_plain_object value.now)) }
    ensures kept { Extends into.old.items into.new.items }
{
    match kind_of(value) {
        Kind::Unstated | Kind::Activity => put_with_only(KeptNames::OfActivity, value, into),
        Kind::Agent | Kind::Group => put_party(value, into),
        Kind::StatementRef | Kind::SubStatement | Kind::Other => value.put(into),
    }
}

// ---- contexts

struct OfContext;

impl Part for OfContext {
    ghost change = { direct_context_member };

    fn put(name: &WrittenText<'_>, value: &Written<'_>, into: &mut Vec<u8>) -> Result<(), Memory> {
        if name.is("instructor") || name.is("team") {
            put_party(value, into)
        } else if name.is("contextActivities") {
            put_each::<OfContextActivities>(value, into)
        } else {
            value.put(into)
        }
    }
}

struct OfContextActivities;

impl Part for OfContextActivities {
    ghost change = { direct_activities };

    fn put(_: &WrittenText<'_>, value: &Written<'_>, into: &mut Vec<u8>) -> Result<(), Memory> {
        put_activities(value, into)
    }
}

// One activity alone is made an array of one.
fn put_activities(value: &Written<'_>, into: &mut Vec<u8>) -> Result<(), Memory>
    ensures ok { OnOk result (into.new.items
        ≡ into.old.items ++ written (with_each_item reduced_activity (in_array value.now))) }
    ensures kept { Extends into.old.items into.new.items }
{
    match value.members() {
        Some(_) => put_alone(value, into),
        None => put_with_only_in_each(KeptNames::OfActivity, value, into),
    }
}

#[tactic(auto, using(lrs_json::proofs::Extending::extends_trans))]
fn put_alone(value: &Written<'_>, into: &mut Vec<u8>) -> Result<(), Memory>
    ensures ok { OnOk result (into.new.items ≡ into.old.items
        ++ (91 ∷ (written (reduced_activity value.now) ++ 93 ∷ []))) }
    ensures kept { Extends into.old.items into.new.items }
{
    put(b"[", into)?;
    put_with_only(KeptNames::OfActivity, value, into)?;
    put(b"]", into)
}

// ---- Agents and Groups

#[tactic(auto, unfolding(crate::specs::Reduced::reduced_party))]
fn put_party(party: &Written<'_>, into: &mut Vec<u8>) -> Result<(), Memory>
    ensures ok { OnOk result (into.new.items ≡ into.old.items ++ written (reduced_party party.now)) }
    ensures kept { Extends into.old.items into.new.items }
{
    if is_anonymous(party) {
        put_only::<OfGroup>(KeptNames::OfGroup, party, into)
    } else {
        put_with_only(KeptNames::OfAgent, party, into)
    }
}

struct OfGroup;

impl Part for OfGroup {
    ghost change = { reduced_group_member };

    fn put(name: &WrittenText<'_>, value: &Written<'_>, into: &mut Vec<u8>) -> Result<(), Memory> {
        if name.is("member") {
            put_with_only_in_each(KeptNames::OfAgent, value, into)
        } else {
            value.put(into)
        }
    }
}
