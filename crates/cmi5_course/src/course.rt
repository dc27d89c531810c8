ghost use Rattle.std.specs.Prelude.{◌≡◌, ◌⊎◌, ◌<◌, None, Some, MatchResult, IfOk, IfSome, IsSome, map, length, codes, option_map, option_and_then, slice_get};
ghost use Rattle.std.specs.List.{position_from};
ghost use Rattle.lrs_json.specs.View.{view};
ghost use Rattle.lrs_json.specs.Fits.{Fits};
ghost use Rattle.lrs_json_equal.specs.SameValue.{same};
ghost use Rattle.lrs_names.specs.Members.{text_under};
ghost use Rattle.cmi5_course.specs.SpelledNodes.{seen, nodes_in};
ghost use Rattle.cmi5_course.specs.Rules.{broken_rule};
ghost use Rattle.cmi5_course.specs.declared.refused.CourseRefused.TheVariants as CourseRefused;
ghost use Rattle.cmi5_course.specs.Courses.{refusal, course_of, course_key, same_course, is_unit_of, IsSoundUnit, index_of_unit, node_at, unit_at};

use crate::reading::nodes_of;
use crate::rules::broken_nodes;
use crate::spelled_nodes::{SpelledNode, nodes_in};
use crate::{CourseRefused, Unit};
use lrs_json::{Items, Memory, Text, Tree};
use lrs_json_equal::same_value;
use lrs_names::Iri;
use lrs_register::Keyed;
use std::alloc::{AllocError, Global};
use std::marker::Model;

/// What a node of a course is.
#[derive(Clone, Copy, Debug, PartialEq, Eq)]
pub enum NodeKind {
    Course,
    Block,
    Unit,
}

/// A course, a block or a unit.
#[derive(Drop)]
pub struct Node {
    /// The id that its publisher gave it.
    pub id: Iri,
    pub kind: NodeKind,
    /// The index of the block or course that holds it; none of the course itself.
    pub parent: Option<u32>,
    /// What a unit has beside; none of a course or a block.
    pub unit: Option<Unit>,
}

/// A course that breaks no rule, with its nodes in the order of the text: a node before its children, the course
/// itself first. Nodes are numbered from 0 in that order.
#[derive(Drop)]
pub struct Course {
    tree: Tree,
    nodes: Items<Node>,
}

impl Model for Course {
    ghost use Rattle.cmi5_course.specs.Courses.{Course as SpecCourse, IsUnbroken};
    ghost use Rattle.std.specs.Coded.{codes};
    ghost use Rattle.lrs_json.specs.contracts.tree.Tree as json_tree;

    ghost Value = { SpecCourse };

    ghost coded = { Prim.hlevel (codes, json_tree.the_row.coded) };

    ghost view = { λ c. record { tree = c.tree; nodes = c.nodes } };

    ghost invariant = { λ c. IsUnbroken c.tree c.nodes };
}

impl Course {
    /// Holds the tree against the rules K1 to K12, and keeps a copy of it.
    #[tactic(auto, unfolding(crate::specs::Courses::refusal, crate::specs::Rules::broken_rule, crate::specs::Rules::course_faults))]
    pub fn read(alloc: Global, tree: &Tree) -> Result<Course, CourseRefused>
        requires { Fits (view tree.now) }
        ensures { MatchResult result
            (λ course. (course ≡ course_of tree.now) × (broken_rule (view tree.now) ≡ None))
            (λ e. (refusal (view tree.now) ≡ Some e) ⊎ (e ≡ CourseRefused.Memory)) }
    {
        let spelled_nodes = nodes_in(alloc, tree)?;
        match broken_nodes(alloc, spelled_nodes.as_slice())? {
            Some(rule) => Err(CourseRefused::Broken { rule }),
            None => Ok(course_of(alloc, tree, spelled_nodes.as_slice())?),
        }
    }

    /// The tree that was read.
    pub fn tree(&self) -> &Tree
        ensures lent { result.now ≡ self.now.tree }
        ensures read { self.now ≡ course_of self.now.tree }
        ensures unbroken { broken_rule (view self.now.tree) ≡ None }
        ensures fits { Fits (view self.now.tree) }
    {
        &self.tree
    }

    /// Its nodes in the order of the text, the course itself first.
    pub fn nodes(&self) -> &[Node]
        ensures lent { result.now ≡ self.now.nodes }
        ensures read { self.now ≡ course_of self.now.tree }
    {
        self.nodes.as_slice()
    }

    /// The id that its publisher gave the course.
    pub fn id(&self) -> &Iri
        ensures lent { result.now ≡ course_key self.now }
        ensures spelled { text_under (codes "id") (view self.now.tree) ≡ Some result.now }
    {
        match self.nodes.get(0) {
            Some(node) => &node.id,
            None => unreachable!(),
        }
    }

    /// Whether both are one course, however their texts are spelled.
    pub fn same_course(&self, other: &Course) -> bool
        ensures { result ≡ same_course self.now other.now }
    {
        same_value(&self.tree, &other.tree)
    }

    /// Whether that tree spells the course, as `same_course` compares.
    pub fn is_spelled(&self, tree: &Tree) -> bool
        requires { Fits (view tree.now) }
        ensures { result ≡ same (view self.now.tree) (view tree.now) }
    {
        same_value(&self.tree, tree)
    }

    /// The number of the unit of that id.
    pub fn unit(&self, id: &Iri) -> Option<u32>
        ensures value { result ≡ index_of_unit id.now self.now }
        ensures stands { IfSome result (λ index. IsSome (unit_at index self.now)) }
    {
        match index_of(self.nodes.as_slice(), id) {
            Some(index) => Some(index as u32),
            None => None,
        }
    }

    /// The node of that number.
    pub fn node_at(&self, index: u32) -> Option<&Node>
        ensures { option_map (λ node. node.now) result ≡ node_at index self.now }
    {
        self.nodes.get(index as usize)
    }

    /// The unit that the node of that number is.
    pub fn unit_at(&self, index: u32) -> Option<&Unit>
        ensures value { option_map (λ unit. unit.now) result ≡ unit_at index self.now }
        ensures sound { IfSome result (λ unit. IsSoundUnit unit.now) }
    {
        unit_in(self.nodes.as_slice(), index as usize)
    }
}

impl Keyed<Text> for Course {
    ghost use Rattle.cmi5_course.specs.Courses.{course_key};

    ghost key = { course_key };

    fn key(&self) -> &Text {
        self.id().text()
    }

    fn key_copy(&self) -> Result<Text, AllocError> {
        self.id().text().clone()
    }
}

fn unit_in(nodes: &[Node], index: usize) -> Option<&Unit>
    ensures { option_map (λ unit. unit.now) result
        ≡ option_and_then (λ node. node.unit) (slice_get nodes.now index) }
{
    match nodes.get(index) {
        Some(node) => node.unit.as_ref(),
        None => None,
    }
}

fn index_of(nodes: &[Node], id: &Iri) -> Option<usize>
    ensures value { result ≡ position_from (is_unit_of id.now) 0 nodes.now }
    ensures within { IfSome result (λ index. index < length nodes.now) }
{
    for (index, node) in nodes.iter().enumerate() {
        if is_unit_of(node, id) {
            return Some(index);
        }
    }
    None
}

fn is_unit_of(node: &Node, id: &Iri) -> bool
    ensures { result ≡ is_unit_of id.now node.now }
{
    node.kind == NodeKind::Unit && node.id.text().as_str() == id.text().as_str()
}

#[tactic(auto, unfolding(crate::specs::Courses::nodes_of))]
fn course_of(
    alloc: Global,
    tree: &Tree,
    spelled_nodes: &[SpelledNode<'_>],
) -> Result<Course, Memory>
    requires fits { Fits (view tree.now) }
    requires spelled_nodes { map seen spelled_nodes.now ≡ nodes_in (view tree.now) }
    requires unbroken { broken_rule (view tree.now) ≡ None }
    ensures { IfOk result (λ course. course ≡ course_of tree.now) }
{
    let nodes = nodes_of(alloc, spelled_nodes)?;
    if u32::try_from(nodes.len()).is_err() {
        return Err(Memory);
    }
    let tree = tree.clone()?;
    Ok(Course { tree, nodes })
}
