use lrs_json::Memory;

/// Why a value is no agent or no group.
#[derive(Clone, Copy, Debug, PartialEq, Eq)]
pub enum NameRefused {
    /// It breaks this rule of S6 to S13, and no lesser one.
    Broken { rule: u8 },
    /// Out of memory.
    Memory,
}

impl From<Memory> for NameRefused {
    ghost use Rattle.std.specs.Prelude.{◌≡◌};
    ghost use Rattle.lrs_agents.specs.declared.refused.NameRefused.TheVariants as Refused;

    ghost from_gives = { λ _ e. e ≡ Refused.Memory };

    fn from(_: Memory) -> NameRefused {
        NameRefused::Memory
    }
}
