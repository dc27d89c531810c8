ghost use Rattle.std.specs.Prelude.{◌≡◌, ◌⊎◌, None, Some, Err, IfOk, OnOk, map};
ghost use Rattle.lrs_json.specs.Json.{object};
ghost use Rattle.lrs_json.specs.View.{member_view, members_of};
ghost use Rattle.lrs_json.specs.Written.{written};
ghost use Rattle.xapi_docs.specs.Merging.{HasIndices, merge, object_in, with_member, with_members};

use lrs_json::{Items, Member, Memory, Text, Tree, write};
use lrs_json_spelled::value_in;
use std::alloc::Global;
use std::collections::BTreeMap;

/// Why two texts aren't merged.
#[derive(Clone, Copy, Debug, PartialEq, Eq)]
pub enum MergeRefused {
    /// One of the two is no JSON object.
    NotObjects,
    /// Out of memory.
    Memory,
}

impl From<Memory> for MergeRefused {
    ghost use Rattle.std.specs.Prelude.{◌≡◌};
    ghost use Rattle.xapi_docs.specs.declared.merging.MergeRefused.TheVariants as Refused;

    ghost from_gives = { λ _ e. e ≡ Refused.Memory };

    fn from(_: Memory) -> MergeRefused {
        MergeRefused::Memory
    }
}

/// The old object with each member of the new one in the place of its own of that name, or after all others.
pub fn merge(alloc: Global, old: &[u8], new: &[u8]) -> Result<Vec<u8>, MergeRefused>
    ensures merged { IfOk result (λ bytes. merge old.now new.now ≡ Some bytes.items) }

    // Refused exactly where one of the two is no JSON object.
    ensures no { result ≡ Err MergeRefused.NotObjects → merge old.now new.now ≡ None }
    ensures always { merge old.now new.now ≡ None → (result ≡ Err MergeRefused.NotObjects)
        ⊎ (result ≡ Err MergeRefused.Memory) }
{
    let mut held = members_of_text(alloc, old)?;
    match members_of_text(alloc, new) {
        Ok(members) => match put_members(alloc, &mut held, members) {
            Ok(()) => Ok(object_text(alloc, held)?),
            Err(refused) => {
                drop(held);
                Err(MergeRefused::from(refused))
            }
        },
        Err(refused) => {
            drop(held);
            Err(refused)
        }
    }
}

// The members of the object that the bytes spell.
fn members_of_text(alloc: Global, bytes: &[u8]) -> Result<Vec<Member>, MergeRefused>
    ensures found { IfOk result (λ members. object_in bytes.now ≡ Some (members_of (map member_view members.items))) }
    ensures no { result ≡ Err MergeRefused.NotObjects → object_in bytes.now ≡ None }
    ensures always { object_in bytes.now ≡ None → (result ≡ Err MergeRefused.NotObjects)
        ⊎ (result ≡ Err MergeRefused.Memory) }
{
    match value_in(alloc, bytes)? {
        Some(Tree::Object(members)) => Ok(members.into_vec()),
        _ => Err(MergeRefused::NotObjects),
    }
}

// Puts each of the new members in the place of the held one of its name, or after all. The indices of names are kept
// beside them, since a body may have very many.
fn put_members(alloc: Global, held: &mut Vec<Member>, members: Vec<Member>) -> Result<(), Memory>
    ensures { OnOk result (members_of (map member_view held.new.items)
        ≡ with_members (members_of (map member_view held.old.items)) (members_of (map member_view members.items))) }
{
    let mut indices = indices_of(alloc, held.as_slice())?;
    for member in members {
        put_member(&mut indices, held, member)?;
    }
    Ok(())
}

// The index of each name, the first where it stands twice.
fn indices_of(alloc: Global, members: &[Member]) -> Result<BTreeMap<Text, usize>, Memory>
    ensures { IfOk result (λ indices. HasIndices indices (members_of (map member_view members.now))) }
{
    let mut indices = BTreeMap::new(alloc);
    for (at, member) in members.iter().enumerate() {
        if !indices.contains_key(&member.name) {
            indices.insert(member.name.clone()?, at)?;
        }
    }
    Ok(indices)
}

fn put_member(
    indices: &mut BTreeMap<Text, usize>,
    held: &mut Vec<Member>,
    member: Member,
) -> Result<(), Memory>
    requires { HasIndices indices.old (members_of (map member_view held.old.items)) }
    ensures put { OnOk result (members_of (map member_view held.new.items)
        ≡ with_member (member_view member).0 (member_view member).1 (members_of (map member_view held.old.items))) }
    ensures indices { OnOk result (HasIndices indices.new (members_of (map member_view held.new.items))) }
{
    match indices.get(&member.name) {
        Some(at) => held[*at].value = member.value,
        None => {
            indices.insert(member.name.clone()?, held.len())?;
            held.push(member)?;
        }
    }
    Ok(())
}

// The text of an object of these members.
fn object_text(alloc: Global, members: Vec<Member>) -> Result<Vec<u8>, Memory>
    ensures { IfOk result (λ bytes. bytes.items ≡ written (object (members_of (map member_view members.items)))) }
{
    let object = Tree::Object(Items::from_vec(members));
    let mut bytes = Vec::new(alloc);
    let done = write(&object, &mut bytes);
    drop(object);
    done?;
    Ok(bytes)
}
