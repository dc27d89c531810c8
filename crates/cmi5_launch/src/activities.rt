ghost use Rattle.std.specs.Prelude.{◌≡◌, ◌∷◌, [], IfOk, IsTrue};
ghost use Rattle.lrs_json.specs.View.{view};
ghost use Rattle.lrs_names.specs.Iris.{is_iri};
ghost use Rattle.cmi5_launch.specs.Activities.{activity_json, activity_text};
ghost use Rattle.cmi5_launch.specs.Data.{only_activity};
ghost use Rattle.cmi5_launch.specs.Made.{categories_json};

use lrs_agent_texts::building::{push_words, whole};
use lrs_json::{Items, Memory, Text, Tree};
use lrs_names::Iri;
use std::alloc::Global;

/// The id under which the store knows a node of a course: `activities/COURSE/NODE` behind the store's own address,
/// which ends with a slash. Courses and the nodes of each are counted from 0.
pub fn activity_id(alloc: Global, base: &Text, course: u32, node: u32) -> Result<Iri, Memory>
    requires { IsTrue (is_iri base.now) }
    ensures { IfOk result (λ id. id ≡ activity_text base.now course node) }
{
    let base = base.as_str();
    let text = format!(in alloc; "{base}activities/{course}/{node}")?;
    match Iri::read(Text::of(alloc, text.as_str())?) {
        Ok(id) => Ok(id),
        Err(_) => unreachable!(),
    }
}

/// The Activity of that id.
pub fn activity(alloc: Global, id: &str) -> Result<Tree, Memory>
    ensures { IfOk result (λ tree. view tree ≡ activity_json id.now) }
{
    let mut built = Items::new(alloc);
    push_words("objectType", "Activity", &mut built)?;
    push_words("id", id, &mut built)?;
    Ok(whole(built))
}

/// An array of the Activity of that id alone.
pub fn only_activity(alloc: Global, id: &str) -> Result<Tree, Memory>
    ensures { IfOk result (λ tree. view tree ≡ only_activity id.now) }
{
    let mut items = Items::new(alloc);
    items.push(activity(alloc, id)?)?;
    Ok(Tree::List(items))
}

/// An array of the Activities of these ids.
pub fn two_activities(alloc: Global, first: &str, second: &str) -> Result<Tree, Memory>
    ensures { IfOk result (λ tree. view tree ≡ categories_json (first.now ∷ second.now ∷ [])) }
{
    let mut items = Items::new(alloc);
    items.push(activity(alloc, first)?)?;
    items.push(activity(alloc, second)?)?;
    Ok(Tree::List(items))
}
