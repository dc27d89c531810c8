use lrs_json::{Items, Memory, Text};
use lrs_record::Moment;
use std::alloc::AllocError;

/// The type of a reply's body.
#[derive(Drop)]
pub enum Media {
    /// `application/json`
    Json,
    /// A type of its own, as this text names it.
    Own(Text),
    /// There is no body.
    Empty,
}

/// The body of a reply. The two fixed ones take no memory.
#[derive(Drop)]
pub enum Body {
    /// The bytes of a body that was made; none if there is none.
    Made(Items<u8>),
    /// `{"error":"disk"}`
    Disk,
    /// `{"error":"memory"}`
    Memory,
}

/// What is answered to a command.
#[derive(Drop)]
pub struct Reply {
    /// The status of HTTP (RFC 9110, section 15).
    pub status: u16,
    /// The body's type.
    pub media: Media,
    /// What is sent after the fields.
    pub body: Body,
    /// Of statements that were asked for: the moment up to which the answer is consistent.
    pub through: Option<Moment>,
}

impl Reply {
    /// Drops it. Crates above call this in place of `drop`, so that what drops it is proved here alone.
    pub fn discard(self) {
        drop(self);
    }
}

/// Why the store can't say anything.
#[derive(Clone, Copy, Debug, PartialEq, Eq)]
pub enum Trouble {
    /// Memory ran out. Nothing has changed.
    Memory,
    /// The disk failed. What was to be kept may be in doubt.
    Disk,
}

impl From<Memory> for Trouble {
    ghost use Rattle.std.specs.Prelude.{◌≡◌};
    ghost use Rattle.lrs_replies.specs.declared.reply.Trouble.TheVariants as trouble;

    ghost from_gives = { λ _ e. e ≡ trouble.Memory };

    fn from(_: Memory) -> Trouble {
        Trouble::Memory
    }
}

impl From<AllocError> for Trouble {
    ghost use Rattle.std.specs.Prelude.{◌≡◌};
    ghost use Rattle.lrs_replies.specs.declared.reply.Trouble.TheVariants as trouble;

    ghost from_gives = { λ _ e. e ≡ trouble.Memory };

    fn from(_: AllocError) -> Trouble {
        Trouble::Memory
    }
}
