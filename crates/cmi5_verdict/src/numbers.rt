// Lists of numbers: of nodes, of launches.
ghost use Rattle.std.specs.Prelude.{◌≡◌, ◌∷◌, ◌++◌, [], if◌then◌else◌, OnOk};

use lrs_json::Memory;

/// Puts a number behind others, if it passes.
pub fn push_if(list: &mut Vec<u32>, number: u32, passes: bool) -> Result<(), Memory>
    ensures { OnOk result (list.new.items ≡ list.old.items ++ (if passes then number ∷ [] else [])) }
{
    if passes {
        list.push(number)?;
    }
    Ok(())
}
