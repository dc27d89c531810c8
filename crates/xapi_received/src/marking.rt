// The received text of a statement, written with the marks of its completed form.
ghost use Rattle.std.specs.Prelude.{◌≡◌, false, map, true, IfOk, OnOk, None};
ghost use Rattle.lrs_json.specs.Json.{Members, member, no_members, object};
ghost use Rattle.lrs_json.specs.Parts.{members_in};
ghost use Rattle.lrs_json.specs.View.{view, member_view, members_of};
ghost use Rattle.lrs_json.specs.Written.{comma_if};
ghost use Rattle.xapi_format.specs.LrsNamesMembers.{is_one_of};
ghost use Rattle.xapi_format.specs.Completed.{added_names, plural_member};
ghost use Rattle.xapi_received.specs.Marking.{AddsText, Completes, MarksMember, SoFar};
ghost use Rattle.xapi_received.specs.declared.draft.Draft.{Draft as SpecDraft};

use crate::draft::Draft;
use crate::marks::Ending;
use crate::plural::{OfStatement, mark_member, members_in};
use lrs_json::{Member, Memory, Tree};
use xapi_format::is_added;

/// Writes a received value. If it is an object, the members are shown that are kept.
pub fn mark_tree(tree: &Tree, draft: &mut Draft) -> Result<Option<Ending>, Memory>
    ensures { IfOk result (λ ending. Completes (view tree.now) ending draft.old draft.new) }
{
    match members_in(tree) {
        Some(members) => mark_members(members, draft),
        None => mark_other(tree, draft),
    }
}

fn mark_other(tree: &Tree, draft: &mut Draft) -> Result<Option<Ending>, Memory>
    ensures { IfOk result (λ ending. None ≡ members_in (view tree.now)
        → Completes (view tree.now) ending draft.old draft.new) }
{
    draft.put_tree(tree)?;
    draft.pause()?;
    Ok(None)
}

fn mark_members(members: &[Member], draft: &mut Draft) -> Result<Option<Ending>, Memory>
    ensures { IfOk result (λ ending. Completes (object (members_of (map member_view members.now))) ending
        draft.old draft.new) }
{
    draft.put(b"{")?;
    let ending = mark_each(members, draft)?;
    draft.leave(b"}")?;
    Ok(Some(ending))
}

fn mark_each(members: &[Member], draft: &mut Draft) -> Result<Ending, Memory>
    ensures { IfOk result (λ ending. SoFar (members_of (map member_view members.now)) draft.old true no_members
        draft.new ending) }
{
    let mut ending = Ending::nothing();
    for (i, member) in members.iter().enumerate() {
        ending = mark_next(i > 0, ending, member, draft)?;
    }
    Ok(ending)
}

// The member, which the completed form keeps or leaves out.
fn mark_next(
    stands: bool,
    ending: Ending,
    part: &Member,
    draft: &mut Draft,
) -> Result<Ending, Memory>
    ensures { IfOk result (λ next. (all ms : Members) (start : SpecDraft)
        → SoFar all start stands (member part.now.name (view part.now.value) ms) draft.old ending
        → SoFar all start true ms draft.new next) }
{
    if is_added(part.name.as_str()) {
        leave_out(stands, ending, part, draft)
    } else {
        keep(stands, ending, part, draft)
    }
}

fn leave_out(
    stands: bool,
    ending: Ending,
    part: &Member,
    draft: &mut Draft,
) -> Result<Ending, Memory>
    requires { is_one_of added_names part.now.name ≡ true }
    ensures { IfOk result (λ next. (all ms : Members) (start : SpecDraft)
        → SoFar all start stands (member part.now.name (view part.now.value) ms) draft.old ending
        → SoFar all start true ms draft.new next) }
{
    let span = draft.leave_member(stands, part)?;
    Ok(ending.after(part.name.as_str(), span))
}

fn keep(stands: bool, ending: Ending, part: &Member, draft: &mut Draft) -> Result<Ending, Memory>
    requires { is_one_of added_names part.now.name ≡ false }
    ensures { IfOk result (λ next. (all ms : Members) (start : SpecDraft)
        → SoFar all start stands (member part.now.name (view part.now.value) ms) draft.old ending
        → SoFar all start true ms draft.new next) }
{
    mark_kept(stands, ending.later, part, draft)?;
    Ok(Ending {
        later: true,
        timestamp: ending.timestamp,
        version: ending.version,
    })
}

// Others may stand before in the text of which none is kept.
fn mark_kept(stands: bool, later: bool, part: &Member, draft: &mut Draft) -> Result<(), Memory>
    ensures { OnOk result ((later ≡ true → stands ≡ true) → MarksMember stands later part.now.name
        (view part.now.value) (plural_member part.now.name (view part.now.value)) draft.old draft.new) }
{
    mark_comma(stands, later, draft)?;
    mark_member::<OfStatement>(false, part, draft)
}

fn mark_comma(stands: bool, later: bool, draft: &mut Draft) -> Result<(), Memory>
    ensures { OnOk result ((later ≡ true → stands ≡ true)
        → AddsText (comma_if stands) (comma_if later) draft.old draft.new) }
{
    if later {
        draft.put(b",")
    } else if stands {
        draft.leave(b",")
    } else {
        Ok(())
    }
}
