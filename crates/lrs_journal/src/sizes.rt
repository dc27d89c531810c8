// The formats of a store, and how many bytes it and its pieces have.
ghost use Rattle.std.specs.Prelude.{◌≡◌};
ghost use Rattle.lrs_journal.specs.Store.{head_of};

/// The format of a store's file. Its header tells it as a version.
#[derive(Clone, Copy, Debug, PartialEq, Eq)]
pub enum Format {
    /// Version 1: a frame doesn't tell its number. It is only read.
    One,
    /// Version 2: a frame tells its number.
    Two,
}

impl Format {
    /// The bytes of a frame before its payload.
    pub fn frame_head(self) -> u64
        ensures { result ≡ head_of self }
    {
        match self {
            Format::One => OLD_FRAME_HEAD,
            Format::Two => FRAME_HEAD,
        }
    }
}

/// The fewest bytes that a header may allow.
pub const LEAST_BYTES: u64 = 512;

/// The most bytes that a store's file may have.
pub const MOST_BYTES: u64 = 1_073_741_824;

/// The bytes of the header: a gate, the magic, the version and the limit.
pub const HEADER: u64 = 17;

/// The bytes of a frame before its payload: a gate, the length and the number.
pub const FRAME_HEAD: u64 = 13;

/// The bytes of a frame before its payload in the old format: a gate and the length.
pub const OLD_FRAME_HEAD: u64 = 5;
