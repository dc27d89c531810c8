ghost use Rattle.std.specs.Prelude.{◌≡◌, ◌↔◌, ◌++◌, length, IsTrue, IfOk, OnOk};
ghost use Rattle.lrs_json.specs.Json.{Json};
ghost use Rattle.lrs_json.specs.View.{view};
ghost use Rattle.lrs_json.specs.Written.{Extends, written, written_tree};
ghost use Rattle.lrs_time.specs.Moments.{moment_text};
ghost use Rattle.xapi_format.specs.Authorities.{authority_json};
ghost use Rattle.xapi_format.specs.Completed.{added, completed};
ghost use Rattle.xapi_received.specs.Excerpts.{listed};
ghost use Rattle.xapi_received.specs.Received.{AreWithin, EndsAs, HasEnding, IsReceived, ending_text, excerpts_text};

use crate::adding::put_added;
use crate::draft::Draft;
use crate::excerpts::Excerpts;
use crate::marking::mark_tree;
use crate::marks::Ending;
use crate::offsets::Offsets;
use lrs_json::appending::put;
use lrs_json::{Memory, Tree, is_written};
use lrs_json_slices::{Written, reread};
use lrs_noted::Noted;
use lrs_time::Moment;
use std::alloc::Global;
use std::marker::Model;
use xapi_format::{Id, WrittenAuthority};

/// The text of a received statement, seen as its tree: kept in place of it, since a tree takes several times as much
/// memory. Marks beside the text tell which excerpts of it the completed form shows, so that this form is copied
/// together and nothing is escaped anew.
#[derive(Drop)]
pub struct ReceivedText {
    text: Vec<u8>,
    excerpts: Excerpts,
    // The ending, as plain numbers.
    offsets: Offsets,
    // for clauses alone
    tree: Noted<Tree>,
}

impl Model for ReceivedText {
    ghost use Rattle.std.specs.Coded.{codes};
    ghost use Rattle.lrs_json.specs.contracts.tree.Tree as json_tree;
    ghost use Rattle.lrs_json.specs.declared.tree.Tree.{Tree as SpecTree};
    ghost use Rattle.xapi_received.specs.Offsets.{ending_at};
    ghost use Rattle.xapi_received.specs.Excerpts.{listed};
    ghost use Rattle.xapi_received.specs.Received.{IsReceived, tree_in};

    ghost Value = { SpecTree };

    ghost coded = { Prim.hlevel (codes, json_tree.the_row.coded) };

    ghost view = { λ r. tree_in r.tree.items };

    ghost invariant = { λ r. IsReceived r.text.items (listed r.excerpts) (ending_at r.offsets) (tree_in r.tree.items) };
}

impl ReceivedText {
    /// Writes the text of a tree.
    pub fn of(alloc: Global, tree: &Tree) -> Result<ReceivedText, Memory>
        ensures { IfOk result (λ r. r ≡ tree.now) }
    {
        let mut draft = Draft::new(alloc)?;
        let ending = mark_tree(tree, &mut draft)?;
        draft.shrink();
        let Draft {
            text,
            excerpts,
            from: _,
        } = draft;
        Ok(marked(text, excerpts, ending, tree))
    }

    /// The tree, read back.
    pub fn tree(&self, alloc: Global) -> Result<Tree, Memory>
        ensures { IfOk result (λ t. t ≡ self.now) }
    {
        reread(alloc, self.text.as_slice())
    }

    /// The value of the tree, as it stands in the text.
    pub fn written(&self) -> Written<'_>
        ensures { result ≡ view self.now }
    {
        Written::of(self.text.as_slice())
    }

    /// Whether it is the text of that tree. Takes no memory.
    pub fn is_of(&self, tree: &Tree) -> bool
        ensures { IsTrue result ↔ (tree.now ≡ self.now) }
    {
        is_written(tree, self.text.as_slice())
    }

    /// Appends the text. What stood before stays if memory runs out in the middle.
    pub fn put(&self, into: &mut Vec<u8>) -> Result<(), Memory>
        ensures ok { OnOk result (into.new.items ≡ into.old.items ++ written_tree self.now) }
        ensures kept { Extends into.old.items into.new.items }
    {
        put(self.text.as_slice(), into)
    }

    /// Appends the text of the completed form. What stood before stays if memory runs out in the middle.
    pub fn put_completed(
        &self,
        id: &Id,
        stored: Moment,
        authority: &WrittenAuthority,
        into: &mut Vec<u8>,
    ) -> Result<(), Memory>
        ensures ok { OnOk result (into.new.items ≡ into.old.items
            ++ written (completed (view self.now) id.now (moment_text stored) (authority_json authority.now))) }
        ensures kept { Extends into.old.items into.new.items }
    {
        let text = self.text.as_slice();
        let ending = self.offsets.ending();
        put_whole(text, &self.excerpts, ending, id, stored, authority, into)
    }
}

// Takes over what was written and marked of the tree.
fn marked(text: Vec<u8>, excerpts: Excerpts, ending: Option<Ending>, tree: &Tree) -> ReceivedText
    requires { IsReceived text.items (listed excerpts) ending tree.now }
    ensures { result ≡ tree.now }
{
    let nothing = Noted::new();
    let noted = nothing.and(tree);
    let offsets = Offsets::of(ending);
    ReceivedText {
        text,
        excerpts,
        offsets,
        tree: noted,
    }
}

#[tactic(auto, using(lrs_json::proofs::Extending::extends_trans))]
fn put_whole(
    text: &[u8],
    excerpts: &Excerpts,
    ending: Option<Ending>,
    id: &Id,
    stored: Moment,
    authority: &WrittenAuthority,
    into: &mut Vec<u8>,
) -> Result<(), Memory>
    requires excerpts { AreWithin (length text.now) (listed excerpts.now) }
    requires ending { HasEnding (length text.now) ending }
    ensures ok { (received : Json) → EndsAs text.now received ending → OnOk result (into.new.items ≡ into.old.items
        ++ (excerpts_text text.now (listed excerpts.now) ++ ending_text ending
        (added received id.now (moment_text stored) (authority_json authority.now)))) }
    ensures kept { Extends into.old.items into.new.items }
{
    excerpts.put(text, into)?;
    put_ending(text, ending, id, stored, authority, into)
}

fn put_ending(
    text: &[u8],
    ending: Option<Ending>,
    id: &Id,
    stored: Moment,
    authority: &WrittenAuthority,
    into: &mut Vec<u8>,
) -> Result<(), Memory>
    requires { HasEnding (length text.now) ending }
    ensures ok { (received : Json) → EndsAs text.now received ending → OnOk result (into.new.items ≡ into.old.items
        ++ ending_text ending (added received id.now (moment_text stored) (authority_json authority.now))) }
    ensures kept { Extends into.old.items into.new.items }
{
    match ending {
        Some(ending) => put_added(text, &ending, id, stored, authority, into),
        None => Ok(()),
    }
}
