// Where the members of one object stand in another, if there are many.
use lrs_json::Member;
use std::cmp::Ordering;

/// So many are looked for at once.
const AT_ONCE: usize = 8_192;

/// Guesses of the indices of an object's members in another object, by their names. What comes of them is right
/// whichever they are; good ones spare a walk of all members for each. Takes 16 KiB of the stack.
#[derive(Drop)]
pub struct Partners {
    // Of the members from that index on; none are known yet if there is none.
    from: Option<usize>,
    indices: [u16; AT_ONCE],
}

impl Partners {
    pub fn new() -> Partners {
        Partners {
            from: None,
            indices: [0; AT_ONCE],
        }
    }

    /// Where to look first for the member at that index.
    pub fn index(&mut self, members: &[Member], at: usize, others: &[Member]) -> usize {
        if stand_alike(members, others, at) {
            return at;
        }
        match self.known(at) {
            Some(index) => index,
            None => {
                self.find(members, at, others);
                self.known(at).unwrap_or(0)
            }
        }
    }

    fn known(&self, at: usize) -> Option<usize> {
        let index = self.indices.get(at.checked_sub(self.from?)?)?;
        Some(usize::from(*index))
    }

    // For the members from that index on, as many as there is room for. Not inlined, since what is sought would then
    // lie on the stack at each level of a value.
    #[inline(never)]
    fn find(&mut self, members: &[Member], at: usize, others: &[Member]) {
        let members = members.get(at..).unwrap_or(&[]);
        let mut room = [Sought { key: 0, index: 0 }; AT_ONCE];
        self.from = Some(at);
        if let Some(sought) = room.get_mut(..members.len().min(AT_ONCE)) {
            seek(members, sought);
            seat(members, sought, others, &mut self.indices);
        }
    }
}

// Whether members of one name stand at that index.
fn stand_alike(members: &[Member], others: &[Member], at: usize) -> bool {
    match (members.get(at), others.get(at)) {
        (Some(member), Some(other)) => member.name == other.name,
        _ => false,
    }
}

// A member that is looked for: the key of its name, and its index.
#[derive(Clone, Copy)]
struct Sought {
    key: u64,
    index: u16,
}

// The first members, in the order of their names.
fn seek(members: &[Member], into: &mut [Sought]) {
    for (at, (to, member)) in into.iter_mut().zip(members).enumerate() {
        let Ok(index) = u16::try_from(at) else {
            break;
        };
        let key = key_of(member.name.as_bytes());
        *to = Sought { key, index };
    }
    into.sort_unstable_by(|a, b| order(members, a, b.key, name_at(members, b.index)));
}

// Its first eight bytes: names are in the order of their keys, and mostly told apart by them.
fn key_of(name: &[u8]) -> u64 {
    let mut key = [0; 8];
    for (to, byte) in key.iter_mut().zip(name) {
        *to = *byte;
    }
    u64::from_be_bytes(key)
}

fn order(members: &[Member], sought: &Sought, key: u64, name: &str) -> Ordering {
    match sought.key.cmp(&key) {
        Ordering::Equal => name_at(members, sought.index).cmp(name),
        order => order,
    }
}

fn name_at(members: &[Member], index: u16) -> &str {
    match members.get(usize::from(index)) {
        Some(member) => member.name.as_str(),
        None => "",
    }
}

// At the index of each member that is looked for: where it stands among the others.
fn seat(members: &[Member], sought: &[Sought], others: &[Member], indices: &mut [u16]) {
    for (index, other) in others.iter().enumerate() {
        let Some(partner) = partner_of(members, sought, other) else {
            continue;
        };
        if let (Some(seat), Ok(index)) = (indices.get_mut(partner), u16::try_from(index)) {
            *seat = index;
        }
    }
}

fn partner_of(members: &[Member], sought: &[Sought], other: &Member) -> Option<usize> {
    let name = other.name.as_str();
    let key = key_of(name.as_bytes());
    let found = sought.binary_search_by(|one| order(members, one, key, name));
    Some(usize::from(sought.get(found.ok()?)?.index))
}
