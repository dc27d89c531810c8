ghost use Rattle.std.specs.Prelude.{OnOk};
ghost use Rattle.xapi_statement_keys.specs.Adding.{Adds, same_parts};

use crate::Key;
use lrs_json::Memory;

/// One key more.
pub fn push(keys: &mut Vec<Key>, key: Key) -> Result<(), Memory>
    ensures { OnOk result (Adds keys.old.items keys.new.items (λ k. same_parts key k)) }
{
    keys.push(key)?;
    Ok(())
}
