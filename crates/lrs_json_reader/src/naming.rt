// The names of an object's members.
ghost use Rattle.std.specs.Prelude.{◌≡◌, map};
ghost use Rattle.lrs_json.specs.Names.{is_among};
ghost use Rattle.lrs_json.specs.View.{member_view};

use lrs_json::Member;

/// A set of the names pays only where an object has more members than so many.
pub const FEW_MEMBERS: usize = 16;

/// Whether one of the members has the name.
pub fn is_named(members: &[Member], name: &str) -> bool
    ensures { result ≡ is_among name.now (map (λ m. (member_view m).0) members.now) }
{
    for member in members {
        if member.name.as_str() == name {
            return true;
        }
    }
    false
}
