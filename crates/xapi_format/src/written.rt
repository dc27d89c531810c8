ghost use Rattle.std.specs.Prelude.{◌≡◌, ◌≤◌, ◌++◌, drop, length, true, IfOk, OnOk, codes};
ghost use Rattle.lrs_json.specs.Texts.{member_text};
ghost use Rattle.lrs_json.specs.Written.{Extends};
ghost use Rattle.xapi_format.specs.Authorities.{IsMemberText, account_agent, account_name, agent_front, authority_json};

use crate::Authority;
use crate::showing::{put_account, put_agent_names};
use lrs_json::Memory;
use lrs_json::appending::put;
use std::alloc::Global;
use std::marker::Model;

/// An authority beside the text that statements under it show of it, seen as the authority: the text is written once,
/// and copied for each statement.
#[derive(Drop)]
pub struct WrittenAuthority {
    authority: Authority,
    text: MemberText,
}

// The member `authority` of the completed form, after others.
#[derive(Drop)]
struct MemberText {
    bytes: Vec<u8>,
    // Where the account begins, with its comma.
    account: usize,
}

impl Model for WrittenAuthority {
    ghost use Rattle.xapi_format.specs.Authorities.{IsMemberText};
    ghost use Rattle.xapi_format.specs.declared.authority.Authority.{Authority as SpecAuthority};

    ghost Value = { SpecAuthority };

    ghost view = { λ w. w.authority };

    ghost invariant = { λ w. IsMemberText w.authority w.text.bytes.items w.text.account };
}

impl WrittenAuthority {
    /// Writes the text.
    pub fn of(alloc: Global, authority: Authority) -> Result<WrittenAuthority, Memory>
        ensures { IfOk result (λ written. written ≡ authority) }
    {
        match text_of(alloc, &authority) {
            Ok(text) => Ok(WrittenAuthority { authority, text }),
            Err(refused) => {
                drop(authority);
                Err(refused)
            }
        }
    }

    /// The authority, lent.
    pub fn authority(&self) -> &Authority
        ensures { result.now ≡ self.now }
    {
        &self.authority
    }

    /// Appends the member `authority` of the completed form, after others. What stood before stays if memory runs out
    /// in the middle.
    pub fn put(&self, into: &mut Vec<u8>) -> Result<(), Memory>
        ensures ok { OnOk result (into.new.items ≡ into.old.items
            ++ member_text true (codes "authority") (authority_json self.now)) }
        ensures kept { Extends into.old.items into.new.items }
    {
        put(self.text.bytes.as_slice(), into)
    }

    /// Appends the member `authority` of the form with ids alone, after others. What stood before stays if memory runs
    /// out in the middle.
    #[tactic(auto, using(lrs_json::proofs::Extending::extends_trans))]
    pub fn put_reduced(&self, into: &mut Vec<u8>) -> Result<(), Memory>
        ensures ok { OnOk result (into.new.items ≡ into.old.items
            ++ member_text true (codes "authority") (account_agent (account_name self.now))) }
        ensures kept { Extends into.old.items into.new.items }
    {
        put(b",\"authority\":{\"objectType\":\"Agent\"", into)?;
        put(behind(self.text.bytes.as_slice(), self.text.account), into)
    }
}

// Most texts are shorter. What isn't needed is given back.
const ROOM: usize = 256;

fn text_of(alloc: Global, authority: &Authority) -> Result<MemberText, Memory>
    ensures { IfOk result (λ text. IsMemberText authority.now text.bytes.items text.account) }
{
    let mut bytes = Vec::with_capacity(alloc, ROOM)?;
    put_front(authority, &mut bytes)?;
    let account = length_of(bytes.as_slice());
    put_account(authority, &mut bytes)?;
    bytes.shrink_to_fit();
    Ok(MemberText { bytes, account })
}

// The member up to the account.
fn put_front(authority: &Authority, into: &mut Vec<u8>) -> Result<(), Memory>
    ensures { OnOk result (into.new.items ≡ into.old.items ++ agent_front authority.now) }
{
    put(b",\"authority\":{", into)?;
    put_agent_names(authority, into)
}

fn length_of(text: &[u8]) -> usize
    ensures { result ≡ length text.now }
{
    text.len()
}

fn behind(text: &[u8], offset: usize) -> &[u8]
    requires { offset ≤ length text.now }
    ensures { result.now ≡ drop offset text.now }
{
    &text[offset..]
}
