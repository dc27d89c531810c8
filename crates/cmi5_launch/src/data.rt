ghost use Rattle.std.specs.Prelude.{◌≡◌, ◌∷◌, ◌++◌, [], IfOk, OnOk, Some, map};
ghost use Rattle.lrs_agent_texts.specs.Texts.{text_given};
ghost use Rattle.lrs_json.specs.Json.{number, string};
ghost use Rattle.lrs_json.specs.View.{member_view, view};
ghost use Rattle.lrs_names.specs.Ids.{id_of, id_text};
ghost use Rattle.cmi5_launch.specs.Data.{context_template, entitlement_given, entitlement_json, given_data, launch_data, launch_data_json, number_given, template_activities, template_extensions};

use crate::activities::only_activity;
use crate::names::SESSION_ID;
use cmi5_course::{Mode, Unit};
use lrs_agent_texts::building::{push, push_given, push_words, whole};
use lrs_json::{Items, Member, Memory, Number, Text, Tree, utf8_text, write};
use lrs_names::{Id, Iri};
use std::alloc::Global;

/// The bytes of a unit's `LMS.LaunchData` (cmi5 Quartz, section 10.2): the context that its statements begin with, what
/// it is launched for, what satisfies it, and, where they are given, its launch parameters, its mastery score as the
/// course spells it, where to go when it ends, and its entitlement key.
pub fn launch_data(
    alloc: Global,
    unit: &Unit,
    publisher: &Iri,
    session: &Id,
    mode: Mode,
    return_url: &Option<Iri>,
) -> Result<Vec<u8>, Memory>
    ensures { IfOk result (λ bytes. bytes.items
        ≡ launch_data unit.now publisher.now session.now mode return_url.now) }
{
    let data = data_tree(alloc, unit, publisher, session, mode, return_url)?;
    let mut bytes = Vec::new(alloc);
    write(&data, &mut bytes)?;
    Ok(bytes)
}

fn data_tree(
    alloc: Global,
    unit: &Unit,
    publisher: &Iri,
    session: &Id,
    mode: Mode,
    return_url: &Option<Iri>,
) -> Result<Tree, Memory>
    ensures { IfOk result (λ tree. view tree
        ≡ launch_data_json unit.now publisher.now session.now mode return_url.now) }
{
    let mut built = Items::new(alloc);
    push(
        "contextTemplate",
        context_template(alloc, publisher, session)?,
        &mut built,
    )?;
    push_words("launchMode", mode.text(), &mut built)?;
    push_words("moveOn", unit.move_on.text(), &mut built)?;
    push_given_data(unit, return_url, &mut built)?;
    Ok(whole(built))
}

fn push_given_data(
    unit: &Unit,
    return_url: &Option<Iri>,
    built: &mut Items<Member>,
) -> Result<(), Memory>
    ensures { OnOk result (map member_view built.new
        ≡ map member_view built.old ++ given_data unit.now return_url.now) }
{
    push_given("launchParameters", &unit.parameters, built)?;
    push_number("masteryScore", &unit.mastery_text, built)?;
    push_address("returnURL", return_url, built)?;
    push_entitlement(&unit.entitlement, built)
}

/// One member more, which holds the number so spelled, where there is one.
pub fn push_number(
    name: &str,
    spelling: &Option<Number>,
    built: &mut Items<Member>,
) -> Result<(), Memory>
    ensures { OnOk result (map member_view built.new
        ≡ map member_view built.old ++ number_given name.now spelling.now) }
{
    match spelling {
        Some(spelling) => push(name, number(spelling)?, built),
        None => Ok(()),
    }
}

fn number(spelling: &Number) -> Result<Tree, Memory>
    ensures { IfOk result (λ tree. view tree ≡ number spelling.now) }
{
    Ok(Tree::Number(spelling.clone()?))
}

fn push_address(name: &str, address: &Option<Iri>, built: &mut Items<Member>) -> Result<(), Memory>
    ensures { OnOk result (map member_view built.new
        ≡ map member_view built.old ++ text_given name.now address.now) }
{
    match address {
        Some(address) => push_words(name, address.text().as_str(), built),
        None => Ok(()),
    }
}

fn push_entitlement(text: &Option<Text>, built: &mut Items<Member>) -> Result<(), Memory>
    ensures { OnOk result (map member_view built.new ≡ map member_view built.old ++ entitlement_given text.now) }
{
    match text {
        Some(text) => push("entitlementKey", entitlement(text)?, built),
        None => Ok(()),
    }
}

fn entitlement(text: &Text) -> Result<Tree, Memory>
    ensures { IfOk result (λ tree. view tree ≡ entitlement_json text.now) }
{
    let mut built = Items::new(text.allocator());
    push_words("courseStructure", text.as_str(), &mut built)?;
    Ok(whole(built))
}

fn context_template(alloc: Global, publisher: &Iri, session: &Id) -> Result<Tree, Memory>
    ensures { IfOk result (λ tree. view tree ≡ context_template publisher.now session.now) }
{
    let mut built = Items::new(alloc);
    push("contextActivities", grouping(alloc, publisher)?, &mut built)?;
    push("extensions", session_alone(alloc, session)?, &mut built)?;
    Ok(whole(built))
}

fn grouping(alloc: Global, publisher: &Iri) -> Result<Tree, Memory>
    ensures { IfOk result (λ tree. view tree ≡ template_activities publisher.now) }
{
    let mut built = Items::new(alloc);
    push(
        "grouping",
        only_activity(alloc, publisher.text().as_str())?,
        &mut built,
    )?;
    Ok(whole(built))
}

/// The context's extensions of a statement that tells its session and nothing else.
pub fn session_alone(alloc: Global, session: &Id) -> Result<Tree, Memory>
    ensures { IfOk result (λ tree. view tree ≡ template_extensions session.now) }
{
    let mut built = Items::new(alloc);
    push_id(SESSION_ID, session, &mut built)?;
    Ok(whole(built))
}

/// One member more, which holds the text of the id.
pub fn push_id(name: &str, id: &Id, built: &mut Items<Member>) -> Result<(), Memory>
    ensures pushed { OnOk result (map member_view built.new
        ≡ map member_view built.old ++ (name.now, string (id_text id.now)) ∷ []) }
    ensures id { id_of (id_text id.now) ≡ Some id.now }
{
    let text = id.text();
    push_words(name, utf8_text(&text), built)
}
