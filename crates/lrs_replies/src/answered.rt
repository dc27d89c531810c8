use lrs_json::{Items, Text};
use lrs_names::Id;
use lrs_record::Moment;
use lrs_rules::Rule;

/// What the store says to a command.
#[derive(Drop)]
pub enum Answered {
    /// The write changed the store: it has its entry.
    Kept,
    /// The write changes nothing: what it gives is held already.
    Same,
    /// What was asked for or made, as a JSON text. Of statements that were asked for also the moment up to which it is
    /// consistent.
    Shown {
        text: Items<u8>,
        through: Option<Moment>,
    },
    /// The state document that was asked for: its bytes, under its own media type.
    Document {
        media: Text,
        bytes: Items<u8>,
    },
    /// Nothing changes.
    Refused(Refusal),
}

/// Why a command is refused.
#[derive(Drop)]
pub enum Refusal {
    /// Another statement is held under that id.
    Conflict(Id),
    /// The journal's file would have more bytes than it may.
    Full { need: u64, limit: u64 },
    /// Its form breaks this rule.
    Broken(Rule),
    /// A statement's written form has too many bytes, or too many statements come together.
    TooLong,
    /// The history knows no such caller.
    Unauthorized,
    /// The caller may not ask that, by this rule.
    Forbidden(Rule),
    /// What is asked for isn't there.
    NotFound,
}
