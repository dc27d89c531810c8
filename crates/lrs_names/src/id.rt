ghost use Rattle.std.specs.Prelude.{◌≡◌, ◌<◌, IfSome, IsUtf8, Some, ℕ, length};
ghost use Rattle.lrs_names.specs.Ids.{IsId, id_of, id_of_word, id_text};

use std::marker::Model;
use uuid::Uuid;

/// The number of words of which ids are made: 122 bits of an id are its own.
pub const WORDS: u128 = 1 << 122;

/// An id of a statement, a registration or a session, seen as its sixteen bytes. Its order is that of its bytes,
/// which is that of its text.
#[derive(Clone, Copy, PartialEq, Eq, PartialOrd, Ord, Hash)]
pub struct Id {
    bytes: [u8; 16],
}

impl Model for Id {
    ghost use Rattle.std.specs.Prelude.{List, ℕ};

    ghost Value = { List ℕ };

    ghost view = { λ id. id.bytes };

    ghost inverse = { λ bytes. record { bytes = bytes } };
}

impl Id {
    /// Reads the hyphenated form of 36 characters (8-4-4-4-12), with digits in either case. Any version and
    /// variant is an id.
    pub fn read(text: &[u8]) -> Option<Id>
        ensures reads { result ≡ id_of text.now }
        ensures whole { IfSome result IsId }
    {
        if text.len() != 36 {
            return None;
        }
        match Uuid::try_parse_ascii(text) {
            Ok(uuid) => {
                let bytes = uuid.into_bytes();
                are_whole(&bytes);
                Some(Id { bytes })
            }
            Err(_) => None,
        }
    }

    /// The hyphenated form, in lower case.
    pub fn text(&self) -> [u8; 36]
        ensures text { result ≡ id_text self.now }
        ensures read_back { id_of result ≡ Some self.now }
        ensures whole { IsId self.now }
        ensures utf8 { IsUtf8 result }
    {
        are_whole(&self.bytes);
        let mut buffer = [0; 36];
        let text = Uuid::from_bytes(self.bytes)
            .hyphenated()
            .encode_lower(&mut buffer);
        let mut own = [0; 36];
        own.copy_from_slice(text.as_bytes());
        own
    }

    /// The id that is made of a word: of the word's lowest 122 bits the first 48, the version 4 (`0100`), the next
    /// 12, the variant of RFC 4122 (`10`), the last 62.
    pub fn of_word(word: u128) -> Id
        ensures made { result ≡ id_of_word word }
        ensures whole { IsId result }
        ensures distinct { (other : ℕ) → other < WORDS → word < WORDS → id_of_word other ≡ result → other ≡ word }
    {
        let word = word % WORDS;
        let bits = (word / (1 << 74)) * (1 << 80)
            + 4 * (1 << 76)
            + (word / (1 << 62) % (1 << 12)) * (1 << 64)
            + 2 * (1 << 62)
            + word % (1 << 62);
        Id {
            bytes: bits.to_be_bytes(),
        }
    }
}

// Sixteen bytes of the program make an id: each is below 256.
fn are_whole(bytes: &[u8])
    requires { length bytes.now ≡ 16 }
    ensures { IsId bytes.now }
{}
