// What the store writes after the members of a received statement.
ghost use Rattle.std.specs.Prelude.{◌≡◌, ◌∷◌, [], ◌++◌, true, length, OnOk, codes};
ghost use Rattle.lrs_json.specs.Json.{Json, string};
ghost use Rattle.lrs_json.specs.Texts.{member_text};
ghost use Rattle.lrs_json.specs.View.{members_of};
ghost use Rattle.lrs_json.specs.Written.{Extends, members_text};
ghost use Rattle.lrs_time.specs.Moments.{moment_text};
ghost use Rattle.xapi_format.specs.Authorities.{authority_json};
ghost use Rattle.xapi_format.specs.Completed.{added, added_behind_id, added_last, given_or};
ghost use Rattle.xapi_received.specs.Received.{AreGiven, HasSpan, HasSpans, IsGiven};

use crate::marks::{ByteSpan, Ending};
use lrs_json::Memory;
use lrs_time::Moment;
use xapi_format::{
    Id, WrittenAuthority, put_given_times, put_given_version, put_id, put_own_times,
    put_own_version,
};

/// What the store writes after the members that are kept, and the closing brace. What was given for it stands in the
/// received text.
#[tactic(auto, using(lrs_json::proofs::Extending::extends_trans))]
pub fn put_added(
    text: &[u8],
    ending: &Ending,
    id: &Id,
    stored: Moment,
    authority: &WrittenAuthority,
    into: &mut Vec<u8>,
) -> Result<(), Memory>
    requires { HasSpans (length text.now) ending.now }
    ensures ok { (received : Json) → AreGiven text.now received ending.now → OnOk result (into.new.items
        ≡ into.old.items ++ members_text ending.now.later
        (added received id.now (moment_text stored) (authority_json authority.now))) }
    ensures kept { Extends into.old.items into.new.items }
{
    put_id(ending.later, id, into)?;
    put_behind_id(text, ending, stored, authority, into)
}

#[tactic(auto, using(lrs_json::proofs::Extending::extends_trans))]
fn put_behind_id(
    text: &[u8],
    ending: &Ending,
    stored: Moment,
    authority: &WrittenAuthority,
    into: &mut Vec<u8>,
) -> Result<(), Memory>
    requires { HasSpans (length text.now) ending.now }
    ensures ok { (received : Json) → AreGiven text.now received ending.now → OnOk result (into.new.items
        ≡ into.old.items ++ members_text true
        (added_behind_id received (moment_text stored) (authority_json authority.now))) }
    ensures kept { Extends into.old.items into.new.items }
{
    put_times(text, ending.timestamp, stored, into)?;
    put_signature(text, ending.version, authority, into)
}

// When it happened, and when it was stored.
fn put_times(
    text: &[u8],
    timestamp: Option<ByteSpan>,
    stored: Moment,
    into: &mut Vec<u8>,
) -> Result<(), Memory>
    requires { HasSpan (length text.now) timestamp }
    ensures ok { (received : Json) → IsGiven text.now (codes "timestamp") received timestamp
        → OnOk result (into.new.items ≡ into.old.items
        ++ (member_text true (codes "timestamp") (given_or (codes "timestamp") received (moment_text stored))
        ++ member_text true (codes "stored") (string (moment_text stored)))) }
    ensures kept { Extends into.old.items into.new.items }
{
    match timestamp {
        Some(span) => put_given_times(span.of(text), stored, into),
        None => put_own_times(stored, into),
    }
}

// Under whose authority it stands, its version, and the closing brace.
#[tactic(auto, using(lrs_json::proofs::Extending::extends_trans))]
fn put_signature(
    text: &[u8],
    version: Option<ByteSpan>,
    authority: &WrittenAuthority,
    into: &mut Vec<u8>,
) -> Result<(), Memory>
    requires { HasSpan (length text.now) version }
    ensures ok { (received : Json) → IsGiven text.now (codes "version") received version
        → OnOk result (into.new.items ≡ into.old.items
        ++ members_text true (added_last received (authority_json authority.now))) }
    ensures kept { Extends into.old.items into.new.items }
{
    authority.put(into)?;
    put_version(text, version, into)
}

// Its version, and the closing brace.
fn put_version(text: &[u8], version: Option<ByteSpan>, into: &mut Vec<u8>) -> Result<(), Memory>
    requires { HasSpan (length text.now) version }
    ensures ok { (received : Json) → IsGiven text.now (codes "version") received version
        → OnOk result (into.new.items ≡ into.old.items ++ members_text true
        (members_of ((codes "version", given_or (codes "version") received (codes "1.0.0")) ∷ []))) }
    ensures kept { Extends into.old.items into.new.items }
{
    match version {
        Some(span) => put_given_version(span.of(text), into),
        None => put_own_version(into),
    }
}
