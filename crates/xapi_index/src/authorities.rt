// The authorities under which statements stand, which they share.
ghost use Rattle.std.specs.Prelude.{◌≡◌, ⊤, IfOk, IfSome};

use lrs_json::Memory;
use std::alloc::Global;
use std::collections::BTreeMap;
use std::marker::Model;
use xapi_postings::{Authority, SharedAuthority};

/// Authorities under which statements came, in each bucket the last one, so that those that come share them.
#[derive(Drop)]
pub(crate) struct Authorities {
    alloc: Global,
    kept: BTreeMap<u8, SharedAuthority>,
}

// No clause depends on which ones are kept.
impl Model for Authorities {
    ghost Value = { ⊤ };

    ghost view = { λ _. tt };
}

impl Authorities {
    /// None yet; takes no memory.
    pub fn new(alloc: Global) -> Authorities {
        Authorities {
            alloc,
            kept: BTreeMap::new(alloc),
        }
    }

    /// The authority, for one more statement: the one that is kept in its bucket, or a copy, which is kept there from
    /// now on.
    pub fn shared(&mut self, authority: &Authority) -> Result<SharedAuthority, Memory>
        ensures { IfOk result (λ shared. shared ≡ authority.now) }
    {
        let bucket = bucket_of(authority);
        match known(&self.kept, bucket, authority) {
            Some(found) => found.again(),
            None => add(self.alloc, &mut self.kept, bucket, authority),
        }
    }
}

// Few authorities have the same bucket, so most find their own there.
fn bucket_of(authority: &Authority) -> u8 {
    match authority {
        Authority::Admin => 0,
        Authority::Desk => 1,
        Authority::Provider { number, name: _ } => (*number % 256) as u8,
        Authority::Session(id) => {
            let text = id.text();
            text[0].wrapping_mul(16).wrapping_add(text[1])
        }
    }
}

fn known<'a>(
    kept: &'a BTreeMap<u8, SharedAuthority>,
    bucket: u8,
    authority: &Authority,
) -> Option<&'a SharedAuthority>
    ensures { IfSome result (λ known. known.now ≡ authority.now) }
{
    match kept.get(&bucket) {
        Some(other) => if_same(other, authority),
        None => None,
    }
}

fn if_same<'a>(other: &'a SharedAuthority, authority: &Authority) -> Option<&'a SharedAuthority>
    ensures { IfSome result (λ same. same.now ≡ authority.now) }
{
    if other.get().is_same(authority) {
        Some(other)
    } else {
        None
    }
}

fn add(
    alloc: Global,
    kept: &mut BTreeMap<u8, SharedAuthority>,
    bucket: u8,
    authority: &Authority,
) -> Result<SharedAuthority, Memory>
    ensures { IfOk result (λ shared. shared ≡ authority.now) }
{
    let own = authority.copy()?;
    let shared = SharedAuthority::of(alloc, own)?;
    let before = kept.insert(bucket, shared.again()?)?;
    drop(before);
    Ok(shared)
}
