// Statements that are to come: their held forms are made and their positions written ahead, where memory may run out.
// The positions are taken back here where the statements don't come.
ghost use Rattle.std.specs.Prelude.{◌≡◌, ◌<◌, ◌≤◌, ◌+◌, ◌-◌, ◌&&◌, [], ◌∷◌, ◌++◌, true, false, length, drop, IfOk, OnOk};
ghost use Rattle.std.specs.Prelude.{not, if◌then◌else◌, is_some, slice_get};
ghost use Rattle.std.specs.Prelude.{vec_len, vec_capacity};
ghost use Rattle.std.specs.List.{AllByRecursion};
ghost use Rattle.std.specs.Vec.Iter.{into_iter_items};
ghost use Rattle.xapi_index.specs.Ahead.{AreTextsOf, ChangesEach, ChangesSome, IsNextTextOf, StandAhead, is_other};
ghost use Rattle.xapi_index.specs.Index.{ArePosted, IsIndex, is_coming, lists_of};
ghost use Rattle.xapi_postings.specs.XapiStatementStatements.{add, add_each, is_held};
ghost use Rattle.xapi_postings.specs.Ascending.{below};
ghost use Rattle.xapi_postings.specs.Postings.{posted, posting_of};
ghost use Rattle.xapi_postings.specs.XapiStatementHeld.{IsTextOf};
ghost use Rattle.xapi_postings.specs.XapiStatementKeysKeys.{is_among};

use crate::authorities::Authorities;
use lrs_json::Memory;
use std::vec::IntoIter;
use xapi_postings::{
    HeldStatement, Key, Keys, Postings, ReceivedText, SharedAuthority, StoredStatement,
};

// ---- written ahead

/// Makes room for statements in the list, and of those that are new makes the held forms and writes the positions.
/// Where memory runs out in the middle, what was written stays, and its keys are kept.
pub(crate) fn ready_each(
    held: &mut Vec<HeldStatement>,
    postings: &mut Postings,
    coming: &mut Vec<Keys>,
    ahead: &mut Vec<HeldStatement>,
    authorities: &mut Authorities,
    texts: &mut IntoIter<ReceivedText>,
    statements: &[StoredStatement],
) -> Result<(), Memory>
    requires texts { AreTextsOf (into_iter_items texts.old) statements.now }
    requires posted { ArePosted held.old.items postings.old }
    requires nothing { lists_of coming.old.items ≡ [] }
    requires none_ahead { ahead.old.items ≡ [] }
    ensures held { held.new.items ≡ held.old.items }
    ensures index { IsIndex held.old.items postings.new (lists_of coming.new.items) false }
    ensures posted { OnOk result (ArePosted (add_each held.new.items statements.now) postings.new) }
    ensures ahead { OnOk result (add_each held.new.items statements.now ≡ held.new.items ++ ahead.new.items) }
    ensures spare { OnOk result (length statements.now ≤ vec_capacity held.new - vec_len held.new) }
{
    make_room(held, coming, ahead, statements.len())?;
    write_each(
        held.as_slice(),
        postings,
        coming,
        ahead,
        authorities,
        texts,
        statements,
    )
}

fn make_room(
    held: &mut Vec<HeldStatement>,
    coming: &mut Vec<Keys>,
    ahead: &mut Vec<HeldStatement>,
    n: usize,
) -> Result<(), Memory>
    ensures held { held.new.items ≡ held.old.items }
    ensures coming { coming.new.items ≡ coming.old.items }
    ensures ahead { ahead.new.items ≡ ahead.old.items }
    ensures for_held { OnOk result (n ≤ vec_capacity held.new - vec_len held.new) }
    ensures for_coming { OnOk result (n ≤ vec_capacity coming.new - vec_len coming.new) }
{
    held.reserve(n)?;
    coming.reserve(n)?;
    ahead.reserve(n)?;
    Ok(())
}

fn write_each(
    held: &[HeldStatement],
    postings: &mut Postings,
    coming: &mut Vec<Keys>,
    ahead: &mut Vec<HeldStatement>,
    authorities: &mut Authorities,
    texts: &mut IntoIter<ReceivedText>,
    statements: &[StoredStatement],
) -> Result<(), Memory>
    requires texts { AreTextsOf (into_iter_items texts.old) statements.now }
    requires posted { ArePosted held.now postings.old }
    requires nothing { lists_of coming.old.items ≡ [] }
    requires none_ahead { ahead.old.items ≡ [] }
    requires room { length statements.now ≤ vec_capacity coming.old - vec_len coming.old }
    ensures index { IsIndex held.now postings.new (lists_of coming.new.items) false }
    ensures posted { OnOk result (ArePosted (add_each held.now statements.now) postings.new) }
    ensures ahead { OnOk result (add_each held.now statements.now ≡ held.now ++ ahead.new.items) }
{
    for statement in statements {
        let text = next_text(texts, statement);
        write_one(held, postings, coming, ahead, authorities, text, statement)?;
    }
    Ok(())
}

// The text of the next statement, if it was written before.
fn next_text(
    texts: &mut IntoIter<ReceivedText>,
    statement: &StoredStatement,
) -> Option<ReceivedText>
    requires { IsNextTextOf (into_iter_items texts.old) statement.now }
    ensures text { IsTextOf result statement.now.received }
    ensures rest { into_iter_items texts.new ≡ drop 1 (into_iter_items texts.old) }
{
    texts.next()
}

// Does nothing with a statement if one stands under its id, held or to come.
fn write_one(
    held: &[HeldStatement],
    postings: &mut Postings,
    coming: &mut Vec<Keys>,
    ahead: &mut Vec<HeldStatement>,
    authorities: &mut Authorities,
    text: Option<ReceivedText>,
    statement: &StoredStatement,
) -> Result<(), Memory>
    requires room { vec_len coming.old < vec_capacity coming.old }
    requires text { IsTextOf text statement.now.received }
    requires stands { StandAhead held.now ahead.old.items postings.old (lists_of coming.old.items) }
    ensures stands { OnOk result (StandAhead held.now ahead.new.items postings.new (lists_of coming.new.items)) }
    ensures added { OnOk result (held.now ++ ahead.new.items ≡ add (held.now ++ ahead.old.items) statement.now) }
    ensures index { IsIndex held.now postings.new (lists_of coming.new.items) false }
    ensures capacity { vec_capacity coming.new ≡ vec_capacity coming.old }
    ensures longer { vec_len coming.new ≤ vec_len coming.old + 1 }
{
    match write_new(held, ahead.as_slice(), postings, coming, statement) {
        Ok(true) => push_ahead(ahead, authorities, text, statement),
        Ok(false) => {
            drop(text);
            Ok(())
        }
        Err(refused) => {
            drop(text);
            Err(refused)
        }
    }
}

// Makes the held form of a statement.
fn push_ahead(
    ahead: &mut Vec<HeldStatement>,
    authorities: &mut Authorities,
    text: Option<ReceivedText>,
    statement: &StoredStatement,
) -> Result<(), Memory>
    requires { IsTextOf text statement.now.received }
    ensures { OnOk result (ahead.new.items ≡ ahead.old.items ++ statement.now ∷ []) }
{
    match authorities.shared(statement.authority()) {
        Ok(authority) => push_under(ahead, authority, text, statement),
        Err(refused) => {
            drop(text);
            Err(refused)
        }
    }
}

fn push_under(
    ahead: &mut Vec<HeldStatement>,
    authority: SharedAuthority,
    text: Option<ReceivedText>,
    statement: &StoredStatement,
) -> Result<(), Memory>
    requires authority { authority ≡ statement.now.authority }
    requires text { IsTextOf text statement.now.received }
    ensures { OnOk result (ahead.new.items ≡ ahead.old.items ++ statement.now ∷ []) }
{
    let held = HeldStatement::under(*ahead.allocator(), authority, text, statement)?;
    ahead.push(held)?;
    Ok(())
}

// If no statement stands under its id, writes the position behind all others under each key of a statement. Tells whether
// it did. Its keys are kept also if some fail.
fn write_new(
    held: &[HeldStatement],
    ahead: &[HeldStatement],
    postings: &mut Postings,
    coming: &mut Vec<Keys>,
    statement: &StoredStatement,
) -> Result<bool, Memory>
    requires room { vec_len coming.old < vec_capacity coming.old }
    requires stands { StandAhead held.now ahead.now postings.old (lists_of coming.old.items) }
    ensures new { IfOk result (λ is_new. is_new ≡ not (is_held statement.now.id (held.now ++ ahead.now))) }
    ensures stands { IfOk result (λ is_new. StandAhead held.now
        (if is_new then ahead.now ++ statement.now ∷ [] else ahead.now) postings.new (lists_of coming.new.items)) }
    ensures index { IsIndex held.now postings.new (lists_of coming.new.items) false }
    ensures capacity { vec_capacity coming.new ≡ vec_capacity coming.old }
    ensures longer { vec_len coming.new ≤ vec_len coming.old + 1 }
{
    let position = next_position(held.len(), ahead.len())?;
    let keys = Keys::of(*coming.allocator(), statement)?;
    let own = Key::Statement(statement.id());
    let told = post_new(postings, &own, keys.items.as_slice(), position);
    drop(own);
    match told {
        Ok(true) => {
            coming.push_reserved(keys);
            Ok(true)
        }
        Ok(false) => {
            drop(keys);
            Ok(false)
        }
        Err(refused) => {
            coming.push_reserved(keys);
            Err(refused)
        }
    }
}

// The position behind so many that are held and so many that are to come. None has more than 32 bits.
fn next_position(held: usize, coming: usize) -> Result<u32, Memory>
    ensures { IfOk result (λ position. position ≡ held + coming) }
{
    let Some(next) = held.checked_add(coming) else {
        return Err(Memory);
    };
    match u32::try_from(next) {
        Ok(position) => Ok(position),
        Err(_) => Err(Memory),
    }
}

// Writes the position under each of the keys, if none stands under that one of them. Tells whether it did.
fn post_new(postings: &mut Postings, own: &Key, keys: &[Key], position: u32) -> Result<bool, Memory>
    requires own { is_among own.now keys.now ≡ true }
    requires behind { AllByRecursion (λ k. k < position) (posting_of own.now postings.old) }
    ensures new { IfOk result (λ is_new. is_new ≡ not (is_some (slice_get (posting_of own.now postings.old) 0))) }
    ensures some { ChangesSome (λ k. is_among k keys.now) (posted position) postings.old postings.new }
    ensures each { IfOk result (λ is_new. ChangesEach (λ k. is_new && is_among k keys.now) (posted position)
        postings.old postings.new) }
{
    let first = postings.post_if_none(own, position)?;
    if first != position {
        return Ok(false);
    }
    post_others(postings, own, keys, position)?;
    Ok(true)
}

// Writes the position under each of the keys but that one.
fn post_others(
    postings: &mut Postings,
    own: &Key,
    keys: &[Key],
    position: u32,
) -> Result<(), Memory>
    ensures some { ChangesSome (is_other own.now keys.now) (posted position) postings.old postings.new }
    ensures each { OnOk result (ChangesEach (is_other own.now keys.now) (posted position)
        postings.old postings.new) }
{
    for key in keys {
        if key != own {
            postings.post(key, position)?;
        }
    }
    Ok(())
}

// ---- taken back

/// Leaves under these keys the positions below a bound alone.
pub(crate) fn cut_each(postings: &mut Postings, coming: &[Keys], n: usize)
    ensures { ChangesEach (λ k. is_coming k (lists_of coming.now)) (below n) postings.old postings.new }
{
    for keys in coming {
        cut_keys(postings, keys.items.as_slice(), n);
    }
}

fn cut_keys(postings: &mut Postings, keys: &[Key], n: usize)
    ensures { ChangesEach (λ k. is_among k keys.now) (below n) postings.old postings.new }
{
    for key in keys {
        postings.cut(key, n);
    }
}
