// What a query and a sight ask of the statements of an index, as lists of positions.
ghost use Rattle.std.specs.Prelude.{◌≡◌, ℕ, [], true, slice_get, IfNone, IfOk, IfSome, OnOk, Some};
ghost use Rattle.lrs_json.specs.View.{view};
ghost use Rattle.xapi_index.specs.XapiPostingsAscending.{IsAscending, is_in};
ghost use Rattle.xapi_index.specs.XapiQueryFilters.{direct, passes_activity, passes_agent, passes_registration, passes_verb};
ghost use Rattle.xapi_index.specs.XapiQueryFilters.{sees};
ghost use Rattle.xapi_search.specs.Narrowing.{AsksFor, EachAscends, ListsThose, Narrows, is_in_each, passes_key};
ghost use Rattle.xapi_search.specs.Sought.{AreAscending, SeenAscends, TellsSought, is_seen, passes};
ghost use Rattle.xapi_index.specs.XapiStatementShown.{takes_part};
ghost use Rattle.xapi_index.specs.XapiStatementStatement.{has_activity};
ghost use Rattle.xapi_index.specs.XapiStatementStored.{StoredStatement as SpecStatement};
ghost use Rattle.xapi_index.specs.XapiStatementKeysKeys.{has_key};

use lrs_agents::Ifi;
use lrs_json::{Memory, Text};
use lrs_names::Id;
use std::alloc::Global;
use xapi_index::{Index, Key, Query, Sight, contains};

/// The positions of the statements that a caller sees.
#[derive(Clone, Copy)]
pub enum Seen<'a> {
    /// None.
    Nothing,
    /// Each.
    All,
    /// Those of the list.
    These(&'a [u32]),
}

/// What a query asks for: of the statements that a caller sees, those that pass each filter. The lists may go on behind
/// the statements that are held.
#[derive(Drop)]
pub struct Sought<'a> {
    pub seen: Seen<'a>,
    /// One list for each filter that is given.
    pub filters: Vec<&'a [u32]>,
}

impl<'a> Sought<'a> {
    /// Looks the lists up. The texts of the filters are copied.
    pub fn of(
        alloc: Global,
        index: &'a Index,
        query: &Query,
        sight: &Sight,
    ) -> Result<Sought<'a>, Memory>
        ensures tells { IfOk result (λ sought. TellsSought query.now sight.now index.now.held sought) }
        ensures ascending { IfOk result (λ sought. AreAscending sought) }
    {
        let filters = filters_of(alloc, index, query)?;
        let seen = seen_of(index, sight);
        Ok(Sought { seen, filters })
    }

    /// Whether the caller sees the statement at a position.
    pub fn sees(&self, position: usize) -> bool
        requires { AreAscending self.now }
        ensures { result ≡ is_seen self.now.seen position }
    {
        match self.seen {
            Seen::Nothing => false,
            Seen::All => true,
            Seen::These(list) => contains(list, position),
        }
    }

    /// Whether the statement at a position passes each filter by itself.
    pub fn passes(&self, position: usize) -> bool
        requires { AreAscending self.now }
        ensures { result ≡ passes self.now position }
    {
        is_in_each(self.filters.as_slice(), position)
    }

    /// The shortest of the filters' lists.
    pub fn shortest(&self) -> Option<&'a [u32]>
        requires { AreAscending self.now }
        ensures passing { IfSome result (λ list. (k : ℕ) → passes self.now k ≡ true → is_in list.now k ≡ true) }
        ensures ascending { IfSome result (λ list. IsAscending list.now) }
        ensures none { IfNone result (self.now.filters.items ≡ []) }
    {
        shortest_of(self.filters.as_slice())
    }
}

// ---- lists of positions

// Whether the position stands in each list.
fn is_in_each(lists: &[&[u32]], position: usize) -> bool
    requires { EachAscends lists.now }
    ensures { result ≡ is_in_each lists.now position }
{
    for &list in lists {
        if !contains(list, position) {
            return false;
        }
    }
    true
}

fn shortest_of<'a>(lists: &[&'a [u32]]) -> Option<&'a [u32]>
    requires { EachAscends lists.now }
    ensures passing { IfSome result (λ list. (k : ℕ) → is_in_each lists.now k ≡ true → is_in list.now k ≡ true) }
    ensures ascending { IfSome result (λ list. IsAscending list.now) }
    ensures none { IfNone result (lists.now ≡ []) }
{
    let mut best = 0;
    for i in 1..lists.len() {
        if lists[i].len() < lists[best].len() {
            best = i;
        }
    }
    lists.get(best).copied()
}

// The positions under a key.
fn list_of<'a>(index: &'a Index, key: Key) -> &'a [u32]
    ensures those { ListsThose index.now.held (has_key key) result.now }
    ensures ascending { IsAscending result.now }
{
    let list = index.posting(&key);
    drop(key);
    list
}

// ---- what the caller sees

fn seen_of<'a>(index: &'a Index, sight: &Sight) -> Seen<'a>
    ensures those { (k : ℕ) → (s : SpecStatement) → slice_get index.now.held k ≡ Some s
        → is_seen result k ≡ sees sight.now s }
    ensures ascending { SeenAscends result }
{
    match sight {
        Sight::Nothing => Seen::Nothing,
        Sight::All => Seen::All,
        Sight::Provider(number) => Seen::These(provided(index, *number)),
        Sight::Registration(id) => Seen::These(registered(index, id)),
    }
}

fn provided<'a>(index: &'a Index, number: u32) -> &'a [u32]
    ensures those { ListsThose index.now.held (has_key (Key.Provider number)) result.now }
    ensures ascending { IsAscending result.now }
{
    list_of(index, Key::Provider(number))
}

fn registered<'a>(index: &'a Index, id: &Id) -> &'a [u32]
    ensures those { ListsThose index.now.held (has_key (Key.Registration id.now)) result.now }
    ensures ascending { IsAscending result.now }
{
    list_of(index, Key::Registration(*id))
}

// ---- the filters

// The lists of the filters that are given.
fn filters_of<'a>(alloc: Global, index: &'a Index, query: &Query) -> Result<Vec<&'a [u32]>, Memory>
    ensures narrows { IfOk result (λ lists. Narrows index.now.held (direct query.now) [] lists.items) }
    ensures ascending { IfOk result (λ lists. EachAscends lists.items) }
{
    let mut lists = Vec::new(alloc);
    add_agent(index, query, &mut lists)?;
    add_verb(index, query, &mut lists)?;
    add_activity(index, query, &mut lists)?;
    add_registration(index, query, &mut lists)?;
    Ok(lists)
}

fn add_agent<'a>(index: &'a Index, query: &Query, lists: &mut Vec<&'a [u32]>) -> Result<(), Memory>
    ensures narrows { OnOk result (Narrows index.now.held (passes_agent query.now) lists.old.items lists.new.items) }
    ensures ascending { OnOk result (EachAscends lists.old.items → EachAscends lists.new.items) }
{
    let key = agent_asked(query)?;
    add(index, key, lists)
}

fn add_verb<'a>(index: &'a Index, query: &Query, lists: &mut Vec<&'a [u32]>) -> Result<(), Memory>
    ensures narrows { OnOk result (Narrows index.now.held (passes_verb query.now) lists.old.items lists.new.items) }
    ensures ascending { OnOk result (EachAscends lists.old.items → EachAscends lists.new.items) }
{
    let key = verb_asked(query)?;
    add(index, key, lists)
}

fn add_activity<'a>(
    index: &'a Index,
    query: &Query,
    lists: &mut Vec<&'a [u32]>,
) -> Result<(), Memory>
    ensures narrows { OnOk result (
        Narrows index.now.held (passes_activity query.now) lists.old.items lists.new.items) }
    ensures ascending { OnOk result (EachAscends lists.old.items → EachAscends lists.new.items) }
{
    let key = activity_asked(query)?;
    add(index, key, lists)
}

fn add_registration<'a>(
    index: &'a Index,
    query: &Query,
    lists: &mut Vec<&'a [u32]>,
) -> Result<(), Memory>
    ensures narrows { OnOk result (
        Narrows index.now.held (passes_registration query.now) lists.old.items lists.new.items) }
    ensures ascending { OnOk result (EachAscends lists.old.items → EachAscends lists.new.items) }
{
    let key = registration_asked(query);
    add(index, key, lists)
}

// Adds the list of a key, if there is a key.
fn add<'a>(index: &'a Index, key: Option<Key>, lists: &mut Vec<&'a [u32]>) -> Result<(), Memory>
    ensures narrows { OnOk result (Narrows index.now.held (passes_key key) lists.old.items lists.new.items) }
    ensures ascending { OnOk result (EachAscends lists.old.items → EachAscends lists.new.items) }
{
    match key {
        Some(key) => {
            lists.push(list_of(index, key))?;
            Ok(())
        }
        None => Ok(()),
    }
}

// ---- the keys that they ask for

fn agent_asked(query: &Query) -> Result<Option<Key>, Memory>
    ensures { IfOk result (λ key. AsksFor key (passes_agent query.now)) }
{
    match &query.agent {
        Some(actor) => {
            let ifi = actor.value.copy()?;
            Ok(Some(agent_key(ifi, query.related_agents)))
        }
        None => Ok(None),
    }
}

fn agent_key(ifi: Ifi, related: bool) -> Key
    ensures { AsksFor (Some result) (takes_part ifi related) }
{
    if related {
        Key::RelatedAgent(ifi)
    } else {
        Key::Agent(ifi)
    }
}

fn verb_asked(query: &Query) -> Result<Option<Key>, Memory>
    ensures { IfOk result (λ key. AsksFor key (passes_verb query.now)) }
{
    match &query.verb {
        Some(id) => {
            let copy = id.copy()?;
            Ok(Some(Key::Verb(copy.into_text())))
        }
        None => Ok(None),
    }
}

fn activity_asked(query: &Query) -> Result<Option<Key>, Memory>
    ensures { IfOk result (λ key. AsksFor key (passes_activity query.now)) }
{
    match &query.activity {
        Some(id) => {
            let copy = id.copy()?;
            Ok(Some(activity_key(copy.into_text(), query.related_activities)))
        }
        None => Ok(None),
    }
}

fn activity_key(id: Text, related: bool) -> Key
    ensures { AsksFor (Some result) (λ s. has_activity id related (view s.received)) }
{
    if related {
        Key::RelatedActivity(id)
    } else {
        Key::Activity(id)
    }
}

fn registration_asked(query: &Query) -> Option<Key>
    ensures { AsksFor result (passes_registration query.now) }
{
    match &query.registration {
        Some(id) => Some(Key::Registration(*id)),
        None => None,
    }
}
