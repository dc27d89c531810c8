// What the store writes after the members of a received statement, in the form with ids alone.
ghost use Rattle.std.specs.Prelude.{◌≡◌, ◌∷◌, [], ◌++◌, true, OnOk, codes};
ghost use Rattle.lrs_json.specs.Json.{string};
ghost use Rattle.lrs_json.specs.Texts.{member_text};
ghost use Rattle.lrs_json.specs.View.{members_of};
ghost use Rattle.lrs_json.specs.Written.{Extends, members_text};
ghost use Rattle.lrs_time.specs.Moments.{moment_text};
ghost use Rattle.xapi_format.specs.Authorities.{account_agent, account_name};
ghost use Rattle.xapi_format.specs.Completed.{added, added_behind_id, added_last, given_or};

use lrs_json::Memory;
use lrs_json_slices::Written;
use lrs_names::Id;
use lrs_time::Moment;
use xapi_format::{
    WrittenAuthority, put_given_times, put_given_version, put_id, put_own_times, put_own_version,
};

/// Appends what the store writes after the members that are kept, and the closing brace. What stood before stays if
/// memory runs out in the middle.
#[tactic(auto, using(lrs_json::proofs::Extending::extends_trans))]
pub fn put_added(
    later: bool,
    received: &Written<'_>,
    id: &Id,
    stored: Moment,
    authority: &WrittenAuthority,
    into: &mut Vec<u8>,
) -> Result<(), Memory>
    ensures ok { OnOk result (into.new.items ≡ into.old.items ++ members_text later
        (added received.now id.now (moment_text stored) (account_agent (account_name authority.now)))) }
    ensures kept { Extends into.old.items into.new.items }
{
    put_id(later, id, into)?;
    put_behind_id(received, stored, authority, into)
}

#[tactic(auto, using(lrs_json::proofs::Extending::extends_trans))]
fn put_behind_id(
    received: &Written<'_>,
    stored: Moment,
    authority: &WrittenAuthority,
    into: &mut Vec<u8>,
) -> Result<(), Memory>
    ensures ok { OnOk result (into.new.items ≡ into.old.items ++ members_text true
        (added_behind_id received.now (moment_text stored) (account_agent (account_name authority.now)))) }
    ensures kept { Extends into.old.items into.new.items }
{
    put_times(received, stored, into)?;
    put_signature(received, authority, into)
}

// When it happened, and when it was stored.
fn put_times(received: &Written<'_>, stored: Moment, into: &mut Vec<u8>) -> Result<(), Memory>
    ensures ok { OnOk result (into.new.items ≡ into.old.items
        ++ (member_text true (codes "timestamp") (given_or (codes "timestamp") received.now (moment_text stored))
        ++ member_text true (codes "stored") (string (moment_text stored)))) }
    ensures kept { Extends into.old.items into.new.items }
{
    match received.get("timestamp") {
        Some(given) => put_given_times(given.bytes(), stored, into),
        None => put_own_times(stored, into),
    }
}

// Under whose authority it stands, its version, and the closing brace.
#[tactic(auto, using(lrs_json::proofs::Extending::extends_trans))]
fn put_signature(
    received: &Written<'_>,
    authority: &WrittenAuthority,
    into: &mut Vec<u8>,
) -> Result<(), Memory>
    ensures ok { OnOk result (into.new.items ≡ into.old.items
        ++ members_text true (added_last received.now (account_agent (account_name authority.now)))) }
    ensures kept { Extends into.old.items into.new.items }
{
    authority.put_reduced(into)?;
    put_version(received, into)
}

// Its version, and the closing brace.
fn put_version(received: &Written<'_>, into: &mut Vec<u8>) -> Result<(), Memory>
    ensures ok { OnOk result (into.new.items ≡ into.old.items ++ members_text true
        (members_of ((codes "version", given_or (codes "version") received.now (codes "1.0.0")) ∷ []))) }
    ensures kept { Extends into.old.items into.new.items }
{
    match received.get("version") {
        Some(given) => put_given_version(given.bytes(), into),
        None => put_own_version(into),
    }
}
