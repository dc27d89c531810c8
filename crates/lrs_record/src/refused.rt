use lrs_json::Memory;

/// Why a text is refused as an entry.
#[derive(Clone, Copy, Debug, PartialEq, Eq)]
pub enum EntryRefused {
    /// The bytes are the text of no entry.
    BadEntry,
    /// Memory ran out.
    Memory,
}

impl From<Memory> for EntryRefused {
    ghost use Rattle.std.specs.Prelude.{◌≡◌};
    ghost use Rattle.lrs_record.specs.declared.refused.EntryRefused.TheVariants as Refused;

    ghost from_gives = { λ _ e. e ≡ Refused.Memory };

    fn from(_: Memory) -> EntryRefused {
        EntryRefused::Memory
    }
}
