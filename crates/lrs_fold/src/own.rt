// What the program writes itself.
ghost use Rattle.std.specs.Prelude.{◌≡◌, IfOk};
ghost use Rattle.lrs_fold.specs.Own.{founding_entry, put_of};
ghost use Rattle.lrs_record.specs.Entries.{IsLawfulCaller, IsLawfulWrite};

use lrs_command::Command;
use lrs_json::{Memory, Text, Tree};
use lrs_names::{Draw, Id};
use lrs_reads::Submission;
use lrs_record::{Caller, Entry, Moment, Write};

/// The put of a statement under an id. Its form is judged when it is answered.
pub fn put_of(id: Id, statement: Tree) -> Submission
    ensures { result ≡ put_of id statement }
{
    Submission::unjudged(Command::Write(Write::Put { id, statement }))
}

/// The entry that a store is founded with: the operator's, with draw 0.
pub fn founding_entry(admin: &Text, base: &Text, clock: u64) -> Result<Entry, Memory>
    ensures entry { IfOk result (λ entry. entry ≡ founding_entry admin.now base.now clock) }
    ensures caller { IfOk result (λ entry. IsLawfulCaller entry.caller) }
    ensures write { IfOk result (λ entry. IsLawfulWrite entry.write) }
{
    let admin = admin.clone()?;
    let base = base.clone()?;
    Ok(Entry {
        caller: Caller::Operator,
        write: Write::Found { admin, base },
        moment: Moment::clamp(clock),
        draw: Draw { name: 0, secret: 0 },
    })
}
