ghost use Rattle.std.specs.Prelude.{◌≡◌, IfOk, option_map};
ghost use Rattle.lrs_json.specs.View.{view};
ghost use Rattle.lrs_json.specs.declared.limits.TheConstants.{DEPTH};
ghost use Rattle.lrs_json_spelled.specs.Laws.{FindsWhatIsSpelled};
ghost use Rattle.lrs_json_spelled.specs.Spelled.{value_in};

use lrs_json::{Memory, Tree};
use lrs_json_reader::{ReadRefused, read};
use std::alloc::Global;

/// The value that the bytes spell, nested at most `DEPTH` deep, where they spell one.
pub fn value_in(alloc: Global, bytes: &[u8]) -> Result<Option<Tree>, Memory>
    ensures { IfOk result (λ found. option_map view found ≡ value_in DEPTH bytes.now) }
{
    match read(alloc, bytes) {
        Ok(tree) => Ok(Some(tree)),
        Err(ReadRefused::Memory) => Err(Memory),
        Err(ReadRefused::TooDeep) => Ok(None),
        Err(ReadRefused::Bad) => Ok(None),
        Err(ReadRefused::Repeated { .. }) => Ok(None),
        Err(ReadRefused::NumberRange { .. }) => Ok(None),
    }
}

/// What is found is spelled, and what is spelled is found.
pub fn law_of_spelling()
    ensures { FindsWhatIsSpelled }
{}
