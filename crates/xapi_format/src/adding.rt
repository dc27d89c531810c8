// What the store adds to a received statement, as text: members after others. What stood before stays if memory runs
// out in the middle.
ghost use Rattle.std.specs.Prelude.{◌≡◌, ◌∷◌, [], ◌++◌, true, OnOk, codes};
ghost use Rattle.lrs_json.specs.Json.{string};
ghost use Rattle.lrs_json.specs.Texts.{member_text, name_text};
ghost use Rattle.lrs_json.specs.View.{members_of};
ghost use Rattle.lrs_json.specs.Written.{Extends, comma_if, members_text};
ghost use Rattle.xapi_values.specs.LrsNamesIds.{id_text};
ghost use Rattle.xapi_values.specs.LrsTimeMoments.{moment_text};

use lrs_json::Memory;
use lrs_json::appending::put;
use xapi_values::{Id, Moment, moment_text};

/// Appends the member `id`, behind a comma if other members stand before.
#[tactic(auto, using(lrs_json::proofs::Extending::extends_trans))]
pub fn put_id(later: bool, id: &Id, into: &mut Vec<u8>) -> Result<(), Memory>
    ensures ok { OnOk result (into.new.items ≡ into.old.items
        ++ member_text later (codes "id") (string (id_text id.now))) }
    ensures kept { Extends into.old.items into.new.items }
{
    let text = id.text();
    put(before_id(later), into)?;
    put(&text, into)?;
    put(b"\"", into)
}

fn before_id(later: bool) -> &'static [u8]
    ensures { result.now ≡ comma_if later ++ codes "\"id\":\"" }
{
    if later { b",\"id\":\"" } else { b"\"id\":\"" }
}

/// Appends the members `timestamp` and `stored` of a statement that gives no time at which it happened.
#[tactic(auto, using(lrs_json::proofs::Extending::extends_trans))]
pub fn put_own_times(stored: Moment, into: &mut Vec<u8>) -> Result<(), Memory>
    ensures ok { OnOk result (into.new.items ≡ into.old.items
        ++ (member_text true (codes "timestamp") (string (moment_text stored))
        ++ member_text true (codes "stored") (string (moment_text stored)))) }
    ensures kept { Extends into.old.items into.new.items }
{
    let text = moment_text(stored);
    put_both(b",\"timestamp\":\"", &text, into)?;
    put_both(b"\",\"stored\":\"", &text, into)?;
    put(b"\"", into)
}

/// Appends the member `timestamp` with these bytes, the written form of what was given, and the member `stored`.
#[tactic(auto, using(lrs_json::proofs::Extending::extends_trans))]
pub fn put_given_times(given: &[u8], stored: Moment, into: &mut Vec<u8>) -> Result<(), Memory>
    ensures ok { OnOk result (into.new.items ≡ into.old.items
        ++ ((name_text true (codes "timestamp") ++ given.now)
        ++ member_text true (codes "stored") (string (moment_text stored)))) }
    ensures kept { Extends into.old.items into.new.items }
{
    put_both(b",\"timestamp\":", given, into)?;
    put_stored(stored, into)
}

#[tactic(auto, using(lrs_json::proofs::Extending::extends_trans))]
fn put_stored(stored: Moment, into: &mut Vec<u8>) -> Result<(), Memory>
    ensures ok { OnOk result (into.new.items ≡ into.old.items
        ++ member_text true (codes "stored") (string (moment_text stored))) }
    ensures kept { Extends into.old.items into.new.items }
{
    let text = moment_text(stored);
    put(b",\"stored\":\"", into)?;
    put(&text, into)?;
    put(b"\"", into)
}

/// Appends the member `version` of a statement that gives none, and the closing brace.
pub fn put_own_version(into: &mut Vec<u8>) -> Result<(), Memory>
    ensures ok { OnOk result (into.new.items ≡ into.old.items
        ++ members_text true (members_of ((codes "version", string (codes "1.0.0")) ∷ []))) }
    ensures kept { Extends into.old.items into.new.items }
{
    put(b",\"version\":\"1.0.0\"}", into)
}

/// Appends the member `version` with these bytes, the written form of what was given, and the closing brace.
#[tactic(auto, using(lrs_json::proofs::Extending::extends_trans))]
pub fn put_given_version(given: &[u8], into: &mut Vec<u8>) -> Result<(), Memory>
    ensures ok { OnOk result (into.new.items ≡ into.old.items
        ++ ((name_text true (codes "version") ++ given.now) ++ codes "}")) }
    ensures kept { Extends into.old.items into.new.items }
{
    put_both(b",\"version\":", given, into)?;
    put(b"}", into)
}

#[tactic(auto, using(lrs_json::proofs::Extending::extends_trans))]
fn put_both(first: &[u8], second: &[u8], into: &mut Vec<u8>) -> Result<(), Memory>
    ensures ok { OnOk result (into.new.items ≡ into.old.items ++ (first.now ++ second.now)) }
    ensures kept { Extends into.old.items into.new.items }
{
    put(first, into)?;
    put(second, into)
}
