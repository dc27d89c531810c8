// The body that tells how far the learner of a registration has come.
ghost use Rattle.std.specs.Prelude.{◌≡◌, ◌++◌, false, IfOk, OnOk, codes};
ghost use Rattle.std.specs.Fmt.{decimal};
ghost use Rattle.lrs_json.specs.Json.{boolean, string};
ghost use Rattle.lrs_json.specs.Written.{comma_if, written};
ghost use Rattle.lrs_names.specs.Ids.{id_text};
ghost use Rattle.lrs_replies.specs.Standings.{is_course_satisfied, kind_text, node_text, nodes_of, nodes_text, seen_node, standing_body};

use cmi5_course::{Node, NodeKind};
use lrs_json::appending::{put_comma, put_quoted};
use lrs_json::{Memory, Text};
use lrs_names::{Id, Iri};
use std::alloc::Global;

/// What a node takes in the body, if its id is of middle length.
const NODE_ROOM: usize = 96;

/// The body that tells in which edition of a course a registration is, and which nodes of this edition are satisfied in
/// it. The verdicts are those of the nodes, in their order.
pub fn standing_text(
    alloc: Global,
    registration: &Id,
    course: &Text,
    edition: u32,
    nodes: &[Node],
    verdicts: &[bool],
) -> Result<Vec<u8>, Memory>
    ensures { IfOk result (λ body. body.items
        ≡ standing_body registration.now course.now edition (nodes_of nodes.now verdicts.now)) }
{
    let mut body = heading(alloc, registration, course)?;
    put_edition(alloc, edition, &mut body)?;
    make_room(nodes.len(), &mut body)?;
    put_verdict(is_course_satisfied(nodes, verdicts), &mut body)?;
    put_nodes(nodes, verdicts, &mut body)?;
    Ok(body)
}

// The object up to its course.
fn heading(alloc: Global, registration: &Id, course: &Text) -> Result<Vec<u8>, Memory>
    ensures { IfOk result (λ body. body.items ≡ codes "{\"registration\":\"" ++ id_text registration.now
        ++ codes "\",\"course\":" ++ written (string course.now)) }
{
    let mut body = b"{\"registration\":\"".to_vec(alloc)?;
    body.extend_from_slice(&registration.text())?;
    body.extend_from_slice(b"\",\"course\":")?;
    put_quoted(course.as_str(), &mut body)?;
    Ok(body)
}

fn put_edition(alloc: Global, edition: u32, body: &mut Vec<u8>) -> Result<(), Memory>
    ensures { OnOk result (body.new.items ≡ body.old.items ++ codes ",\"edition\":" ++ decimal edition) }
{
    let digits = edition.to_string(alloc)?;
    body.extend_from_slice(b",\"edition\":")?;
    body.extend_from_slice(digits.as_bytes())?;
    Ok(())
}

// Makes room for so many nodes at once.
fn make_room(nodes: usize, body: &mut Vec<u8>) -> Result<(), Memory>
    ensures { body.new.items ≡ body.old.items }
{
    body.reserve(nodes.saturating_mul(NODE_ROOM))?;
    Ok(())
}

fn is_course_satisfied(nodes: &[Node], verdicts: &[bool]) -> bool
    ensures { result ≡ is_course_satisfied (nodes_of nodes.now verdicts.now) }
{
    match (nodes.first(), verdicts.first()) {
        (Some(_), Some(satisfied)) => *satisfied,
        _ => false,
    }
}

fn put_verdict(satisfied: bool, body: &mut Vec<u8>) -> Result<(), Memory>
    ensures { OnOk result (body.new.items
        ≡ body.old.items ++ codes ",\"satisfied\":" ++ written (boolean satisfied)) }
{
    body.extend_from_slice(b",\"satisfied\":")?;
    body.extend_from_slice(truth_text(satisfied).as_bytes())?;
    Ok(())
}

fn truth_text(truth: bool) -> &'static str
    ensures { result.now ≡ written (boolean truth) }
{
    if truth { "true" } else { "false" }
}

// The member that has the nodes, and the end of the object.
fn put_nodes(nodes: &[Node], verdicts: &[bool], body: &mut Vec<u8>) -> Result<(), Memory>
    ensures { OnOk result (body.new.items ≡ body.old.items ++ codes ",\"nodes\":["
        ++ nodes_text false (nodes_of nodes.now verdicts.now) ++ codes "}") }
{
    body.extend_from_slice(b",\"nodes\":[")?;
    put_each(nodes, verdicts, body)?;
    body.push(b'}')?;
    Ok(())
}

// Each node, and the closing bracket.
fn put_each(nodes: &[Node], verdicts: &[bool], body: &mut Vec<u8>) -> Result<(), Memory>
    ensures { OnOk result (body.new.items
        ≡ body.old.items ++ nodes_text false (nodes_of nodes.now verdicts.now)) }
{
    let mut later = false;
    for (node, satisfied) in nodes.iter().zip(verdicts) {
        put_next(later, node, *satisfied, body)?;
        later = true;
    }
    body.push(b']')?;
    Ok(())
}

fn put_next(later: bool, node: &Node, satisfied: bool, body: &mut Vec<u8>) -> Result<(), Memory>
    ensures { OnOk result (body.new.items
        ≡ body.old.items ++ comma_if later ++ node_text (seen_node (node.now, satisfied))) }
{
    put_comma(later, body)?;
    put_node(node, satisfied, body)
}

fn put_node(node: &Node, satisfied: bool, body: &mut Vec<u8>) -> Result<(), Memory>
    ensures { OnOk result (body.new.items ≡ body.old.items ++ node_text (seen_node (node.now, satisfied))) }
{
    put_id(&node.id, body)?;
    put_kind(node.kind, body)?;
    put_end(satisfied, body)
}

fn put_id(id: &Iri, body: &mut Vec<u8>) -> Result<(), Memory>
    ensures { OnOk result (body.new.items ≡ body.old.items ++ codes "{\"id\":" ++ written (string id.now)) }
{
    body.extend_from_slice(b"{\"id\":")?;
    put_quoted(id.text().as_str(), body)
}

fn put_kind(kind: NodeKind, body: &mut Vec<u8>) -> Result<(), Memory>
    ensures { OnOk result (body.new.items ≡ body.old.items ++ codes ",\"kind\":\"" ++ kind_text kind) }
{
    body.extend_from_slice(b",\"kind\":\"")?;
    body.extend_from_slice(kind_text(kind).as_bytes())?;
    Ok(())
}

fn kind_text(kind: NodeKind) -> &'static str
    ensures { result.now ≡ kind_text kind }
{
    match kind {
        NodeKind::Course => "course",
        NodeKind::Block => "block",
        NodeKind::Unit => "unit",
    }
}

// The verdict on a node, behind its kind, and the end of its object.
fn put_end(satisfied: bool, body: &mut Vec<u8>) -> Result<(), Memory>
    ensures { OnOk result (body.new.items ≡ body.old.items ++ codes "\",\"satisfied\":"
        ++ written (boolean satisfied) ++ codes "}") }
{
    body.extend_from_slice(b"\",\"satisfied\":")?;
    body.extend_from_slice(truth_text(satisfied).as_bytes())?;
    body.push(b'}')?;
    Ok(())
}
