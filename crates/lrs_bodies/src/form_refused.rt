use lrs_json::Memory;
use lrs_json_reader::ReadRefused;
use lrs_rules::{Rule, json_rule};

/// Why a request is refused by its form.
#[derive(Clone, Copy, Debug, PartialEq, Eq)]
pub enum FormRefused {
    /// It breaks this rule, and none before it.
    Broken(Rule),
    /// Out of memory.
    Memory,
}

impl From<Memory> for FormRefused {
    ghost use Rattle.std.specs.Prelude.{◌≡◌};
    ghost use Rattle.lrs_bodies.specs.declared.form_refused.FormRefused.TheVariants as form_refused;

    ghost from_gives = { λ _ e. e ≡ form_refused.Memory };

    fn from(_: Memory) -> FormRefused {
        FormRefused::Memory
    }
}

impl From<ReadRefused> for FormRefused {
    ghost use Rattle.std.specs.Prelude.{◌≡◌};
    ghost use Rattle.lrs_bodies.specs.Looks.{refused_of_json};

    ghost from_gives = { λ refused e. e ≡ refused_of_json refused };

    fn from(refused: ReadRefused) -> FormRefused {
        match json_rule(refused) {
            Some(rule) => FormRefused::Broken(rule),
            None => FormRefused::Memory,
        }
    }
}
