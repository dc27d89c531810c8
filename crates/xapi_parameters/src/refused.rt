use lrs_json::Memory;
use std::alloc::AllocError;

/// Why a query is refused.
#[derive(Clone, Copy, Debug, PartialEq, Eq)]
pub enum QueryRefused {
    /// The parameters break this rule of P1 to P13, and none of a lesser number.
    BadParameter { number: u8 },
    /// Those of a more link break P14, and none of a lesser number.
    BadLink,
    /// Out of memory.
    Memory,
}

impl From<Memory> for QueryRefused {
    ghost use Rattle.std.specs.Prelude.{◌≡◌};
    ghost use Rattle.xapi_parameters.specs.declared.refused.QueryRefused.TheVariants as Refused;

    ghost from_gives = { λ _ e. e ≡ Refused.Memory };

    fn from(_: Memory) -> QueryRefused {
        QueryRefused::Memory
    }
}
