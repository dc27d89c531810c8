use lrs_json::Memory;

/// Why a value is no course.
#[derive(Clone, Copy, Debug, PartialEq, Eq)]
pub enum CourseRefused {
    /// It breaks this rule of K1 to K12, and no lesser one.
    Broken { rule: u8 },
    /// Out of memory.
    Memory,
}

impl From<Memory> for CourseRefused {
    ghost use Rattle.std.specs.Prelude.{◌≡◌};
    ghost use Rattle.cmi5_course.specs.declared.refused.CourseRefused.TheVariants as Refused;

    ghost from_gives = { λ _ e. e ≡ Refused.Memory };

    fn from(_: Memory) -> CourseRefused {
        CourseRefused::Memory
    }
}
