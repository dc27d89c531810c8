// The completed form of a statement as a tree of its own.
ghost use Rattle.std.specs.Prelude.{◌≡◌, ◌∷◌, ◌++◌, [], ℕ, List, IfOk, OnOk, map, codes};
ghost use Rattle.lrs_json.specs.Json.{Json, Members, no_members, member, object, string};
ghost use Rattle.lrs_json.specs.View.{view, member_view, members_of};
ghost use Rattle.xapi_format.specs.Authorities.{account_json, account_name, authority_json};
ghost use Rattle.xapi_format.specs.Completed.{added, added_behind_id, completed, given_or, kept_before};
ghost use Rattle.xapi_values.specs.Following.{HasOneMore, followed_by};
ghost use Rattle.xapi_values.specs.LrsNamesIds.{id_text};
ghost use Rattle.xapi_values.specs.LrsTimeMoments.{moment_text};

use crate::Authority;
use crate::plural::{OfStatement, push_made};
use crate::showing::is_added;
use lrs_json::{Items, Member, Memory, Text, Tree, utf8_text};
use std::alloc::Global;
use xapi_values::{Id, Moment, moment_text, whole};

/// The completed form of a statement as a tree of its own: what was received, and after it what the store adds.
pub fn completed(
    alloc: Global,
    received: &Tree,
    id: &Id,
    stored: Moment,
    authority: &Authority,
) -> Result<Tree, Memory>
    ensures { IfOk result (λ tree. view tree
        ≡ completed (view received.now) id.now (moment_text stored) (authority_json authority.now)) }
{
    let own = received.clone()?;
    into_completed(alloc, own, id, stored, authority)
}

/// The same of a tree that is taken over: the members that are kept are moved.
pub fn into_completed(
    alloc: Global,
    received: Tree,
    id: &Id,
    stored: Moment,
    authority: &Authority,
) -> Result<Tree, Memory>
    ensures { IfOk result (λ tree. view tree
        ≡ completed (view received) id.now (moment_text stored) (authority_json authority.now)) }
{
    match added(alloc, &received, id, stored, authority) {
        Ok(behind) => with_added(received, behind),
        Err(refused) => {
            drop(received);
            Err(refused)
        }
    }
}

// The completed form with what the store adds, whatever that is.
#[tactic(auto, unfolding(crate::specs::Completed::completed))]
fn with_added(received: Tree, behind: Items<Member>) -> Result<Tree, Memory>
    ensures { (id stored : List ℕ) (authority : Json)
        → members_of (map member_view behind) ≡ added (view received) id stored authority
        → IfOk result (λ tree. view tree ≡ completed (view received) id stored authority) }
{
    match received {
        Tree::Object(members) => joined(members, behind),
        other => {
            drop(behind);
            Ok(other)
        }
    }
}

// The members that are kept, and after them these.
fn joined(members: Items<Member>, behind: Items<Member>) -> Result<Tree, Memory>
    ensures { IfOk result (λ tree. view tree ≡ object (kept_before (members_of (map member_view members))
        (members_of (map member_view behind)))) }
{
    let front = kept(members)?;
    let mut all = front.into_vec();
    let mut last = behind.into_vec();
    all.append(&mut last)?;
    Ok(Tree::Object(Items::from_vec(all)))
}

// The members that are kept.
fn kept(members: Items<Member>) -> Result<Items<Member>, Memory>
    ensures { IfOk result (λ built. (behind : Members) →
        kept_before (members_of (map member_view members)) behind
        ≡ followed_by (members_of (map member_view built)) behind) }
{
    let mut built = Items::new(members.allocator());
    for part in members.into_vec() {
        push_if_kept(part, &mut built)?;
    }
    Ok(built)
}

fn push_if_kept(part: Member, built: &mut Items<Member>) -> Result<(), Memory>
    ensures { let seen = member_view part in OnOk result ((ms behind : Members) →
        followed_by (members_of (map member_view built.old)) (kept_before (member seen.0 seen.1 ms) behind)
        ≡ followed_by (members_of (map member_view built.new)) (kept_before ms behind)) }
{
    if is_added(part.name.as_str()) {
        drop(part);
        return Ok(());
    }
    push_made::<OfStatement>(part, built)
}

// What the store writes after the members that are kept.
fn added(
    alloc: Global,
    received: &Tree,
    id: &Id,
    stored: Moment,
    authority: &Authority,
) -> Result<Items<Member>, Memory>
    ensures { IfOk result (λ built. members_of (map member_view built)
        ≡ added (view received.now) id.now (moment_text stored) (authority_json authority.now)) }
{
    let mut built = Items::new(alloc);
    push_added(alloc, received, id, stored, authority, &mut built)?;
    Ok(built)
}

fn push_added(
    alloc: Global,
    received: &Tree,
    id: &Id,
    stored: Moment,
    authority: &Authority,
    built: &mut Items<Member>,
) -> Result<(), Memory>
    ensures { OnOk result (followed_by (members_of (map member_view built.new)) no_members
        ≡ followed_by (members_of (map member_view built.old))
        (added (view received.now) id.now (moment_text stored) (authority_json authority.now))) }
{
    let id = id.text();
    push_words(alloc, "id", utf8_text(&id), built)?;
    let moment = moment_text(stored);
    push_behind_id(alloc, received, utf8_text(&moment), authority, built)
}

fn push_behind_id(
    alloc: Global,
    received: &Tree,
    stored: &str,
    authority: &Authority,
    built: &mut Items<Member>,
) -> Result<(), Memory>
    ensures { OnOk result (followed_by (members_of (map member_view built.new)) no_members
        ≡ followed_by (members_of (map member_view built.old))
        (added_behind_id (view received.now) stored.now (authority_json authority.now))) }
{
    push_given(alloc, received, "timestamp", stored, built)?;
    push_words(alloc, "stored", stored, built)?;
    push("authority", agent(alloc, authority)?, built)?;
    push_given(alloc, received, "version", "1.0.0", built)
}

// One member more.
fn push(name: &str, value: Tree, built: &mut Items<Member>) -> Result<(), Memory>
    ensures { OnOk result (HasOneMore built.old name.now (view value) built.new) }
{
    let name = Text::of(built.allocator(), name)?;
    xapi_values::push(name, value, built)
}

fn push_words(
    alloc: Global,
    name: &str,
    text: &str,
    built: &mut Items<Member>,
) -> Result<(), Memory>
    ensures { OnOk result (HasOneMore built.old name.now (string text.now) built.new) }
{
    push(name, words(alloc, text)?, built)
}

fn push_given(
    alloc: Global,
    received: &Tree,
    name: &str,
    otherwise: &str,
    built: &mut Items<Member>,
) -> Result<(), Memory>
    ensures { OnOk result (HasOneMore built.old name.now (given_or name.now (view received.now) otherwise.now)
        built.new) }
{
    push(name, given(alloc, received, name, otherwise)?, built)
}

fn words(alloc: Global, text: &str) -> Result<Tree, Memory>
    ensures { IfOk result (λ tree. view tree ≡ string text.now) }
{
    Ok(Tree::Words(Text::of(alloc, text)?))
}

// The member of that name as it was given, else this text.
fn given(alloc: Global, received: &Tree, name: &str, otherwise: &str) -> Result<Tree, Memory>
    ensures { IfOk result (λ tree. view tree ≡ given_or name.now (view received.now) otherwise.now) }
{
    match received.get(name) {
        Some(given) => Ok(given.clone()?),
        None => words(alloc, otherwise),
    }
}

/// The Agent of an authority.
pub fn agent(alloc: Global, authority: &Authority) -> Result<Tree, Memory>
    ensures { IfOk result (λ tree. view tree ≡ authority_json authority.now) }
{
    let mut agent = Items::new(alloc);
    push_words(alloc, "objectType", "Agent", &mut agent)?;
    push_words(alloc, "name", authority.name(), &mut agent)?;
    push("account", account(alloc, authority)?, &mut agent)?;
    Ok(whole(agent))
}

fn account(alloc: Global, authority: &Authority) -> Result<Tree, Memory>
    ensures { IfOk result (λ tree. view tree ≡ account_json (account_name authority.now)) }
{
    let mut account = Items::new(alloc);
    push_words(alloc, "homePage", Authority::HOME_PAGE, &mut account)?;
    push("name", account_name(alloc, authority)?, &mut account)?;
    Ok(whole(account))
}

fn account_name(alloc: Global, authority: &Authority) -> Result<Tree, Memory>
    ensures { IfOk result (λ tree. view tree ≡ string (account_name authority.now)) }
{
    match authority {
        Authority::Admin => words(alloc, "admin"),
        Authority::Provider { number, name: _ } => {
            let text = format!(in alloc; "provider:{number}")?;
            words(alloc, text.as_str())
        }
        Authority::Session(id) => session_name(alloc, id),
        Authority::Desk => words(alloc, "desk"),
    }
}

fn session_name(alloc: Global, id: &Id) -> Result<Tree, Memory>
    ensures { IfOk result (λ tree. view tree ≡ string (codes "session:" ++ id_text id.now)) }
{
    let id = id.text();
    let id = utf8_text(&id);
    let text = format!(in alloc; "session:{id}")?;
    words(alloc, text.as_str())
}
