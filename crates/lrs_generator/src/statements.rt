// One statement of a seed.
ghost use Rattle.std.specs.Prelude.{◌≡◌, ◌++◌, ◌∷◌, [], ◌+◌, ◌*◌, ◌%◌, ◌^◌, IfOk, OnOk, map};
ghost use Rattle.std.specs.Fmt.{decimal};
ghost use Rattle.lrs_json.specs.Json.{string};
ghost use Rattle.lrs_json.specs.View.{member_view, view};
ghost use Rattle.lrs_names.specs.Ids.{id_text};
ghost use Rattle.lrs_generator.specs.Generated.{account_json, actor_json, id_at, id_json, object_json, reference_json, statement_of, verb_iri};

use lrs_agent_texts::building::{push, push_words, whole};
use lrs_json::{Items, Member, Memory, Tree, utf8_text};
use lrs_names::Id;
use std::alloc::Global;

/// The number behind this one.
pub fn next_number(number: u64) -> u64
    ensures { result ≡ (number * 6364136223846793005 + 1442695040888963407) % 2 ^ 64 }
{
    let next = number as u128 * 6_364_136_223_846_793_005 + 1_442_695_040_888_963_407;
    (next % (1 << 64)) as u64
}

/// The statement at that index of a seed, which is made from that number.
pub fn statement(alloc: Global, seed: u64, index: u64, number: u64) -> Result<Tree, Memory>
    ensures { IfOk result (λ tree. view tree ≡ statement_of seed index number) }
{
    let mut built = Items::new(alloc);
    push_id("id", &id_at(seed, index), &mut built)?;
    push("actor", actor(alloc, number)?, &mut built)?;
    push("verb", verb(alloc, index, number)?, &mut built)?;
    push("object", object_of(alloc, seed, index, number)?, &mut built)?;
    Ok(whole(built))
}

fn id_at(seed: u64, index: u64) -> Id
    ensures { result ≡ id_at seed index }
{
    Id::of_word(seed as u128 * (1 << 32) + index as u128)
}

// One member more, which holds the text of the id.
fn push_id(name: &str, id: &Id, built: &mut Items<Member>) -> Result<(), Memory>
    ensures { OnOk result (map member_view built.new
        ≡ map member_view built.old ++ (name.now, string (id_text id.now)) ∷ []) }
{
    let text = id.text();
    push_words(name, utf8_text(&text), built)
}

// ---- who

fn actor(alloc: Global, number: u64) -> Result<Tree, Memory>
    ensures { IfOk result (λ tree. view tree ≡ actor_json number) }
{
    let mut built = Items::new(alloc);
    push("account", account(alloc, number)?, &mut built)?;
    Ok(whole(built))
}

// Which of twenty learners.
fn account(alloc: Global, number: u64) -> Result<Tree, Memory>
    ensures { IfOk result (λ tree. view tree ≡ account_json number) }
{
    let learner = number / (1 << 50) % 20;
    let name = format!(in alloc; "u{learner}")?;
    let mut built = Items::new(alloc);
    push_words("homePage", "https://l.invalid", &mut built)?;
    push_words("name", name.as_str(), &mut built)?;
    Ok(whole(built))
}

// ---- what

#[tactic(auto, using(crate::proofs::Choices::voided_verb, crate::proofs::Choices::other_verb))]
fn verb(alloc: Global, index: u64, number: u64) -> Result<Tree, Memory>
    ensures { IfOk result (λ tree. view tree ≡ id_json (verb_iri index number)) }
{
    if index % 50 == 49 {
        named(alloc, "http://adlnet.gov/expapi/verbs/voided")
    } else {
        numbered(alloc, "http://v.invalid/", number / (1 << 33) % 7)
    }
}

#[tactic(auto, using(crate::proofs::Choices::voided_object, crate::proofs::Choices::referred_object, crate::proofs::Choices::other_object))]
fn object_of(alloc: Global, seed: u64, index: u64, number: u64) -> Result<Tree, Memory>
    ensures { IfOk result (λ tree. view tree ≡ object_json seed index number) }
{
    if index % 50 == 49 {
        reference(alloc, &id_at(seed, index - 2))
    } else if index % 10 == 9 {
        reference(alloc, &id_at(seed, index - 1))
    } else {
        numbered(alloc, "http://a.invalid/", number / (1 << 40) % 50)
    }
}

// The StatementRef to the statement of that id.
fn reference(alloc: Global, id: &Id) -> Result<Tree, Memory>
    ensures { IfOk result (λ tree. view tree ≡ reference_json id.now) }
{
    let mut built = Items::new(alloc);
    push_words("objectType", "StatementRef", &mut built)?;
    push_id("id", id, &mut built)?;
    Ok(whole(built))
}

// What has that id alone.
fn named(alloc: Global, iri: &str) -> Result<Tree, Memory>
    ensures { IfOk result (λ tree. view tree ≡ id_json iri.now) }
{
    let mut built = Items::new(alloc);
    push_words("id", iri, &mut built)?;
    Ok(whole(built))
}

// What has the id alone that ends with the number.
fn numbered(alloc: Global, words: &str, number: u64) -> Result<Tree, Memory>
    ensures { IfOk result (λ tree. view tree ≡ id_json (words.now ++ decimal number)) }
{
    let iri = format!(in alloc; "{words}{number}")?;
    named(alloc, iri.as_str())
}
