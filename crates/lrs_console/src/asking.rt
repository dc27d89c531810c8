// What an input asks of a store.
ghost use Rattle.std.specs.Prelude.{◌≡◌, ◌≤◌, length, IfOk, IfErr};
ghost use Rattle.lrs_json.specs.View.{view};
ghost use Rattle.lrs_json.specs.Fits.{IsReadable};
ghost use Rattle.lrs_json.specs.declared.limits.TheConstants.{DEPTH};
ghost use Rattle.lrs_json_reader.specs.Refusals.{Spells};
ghost use Rattle.lrs_console.specs.Reading.{ForInput, longest_input};
ghost use Rattle.lrs_console.specs.Asking.{with_id, IsTakenFor, ending_without_id, IsNoTree, IsNoStatement, IsNotTaken, HasInputCause};

use crate::Ending;
use crate::reading::{InputRefused, read_input};
use lrs_disk::Source;
use lrs_json::{Memory, Tree};
use lrs_json_reader::read;
use lrs_names::Id;
use lrs_rules::{Rule, json_rule};
use std::alloc::Global;
use xapi_statement::{broken_rule, is_too_long, own_id};

#[tactic(auto, using(lrs_rules::proofs::Readings::breaks_json))]
fn read_tree(alloc: Global, input: &[u8]) -> Result<Tree, Ending>
    ensures read { IfOk result (λ tree. Spells DEPTH input.now (view tree)) }
    ensures readable { IfOk result (λ tree. IsReadable DEPTH (view tree)) }
    ensures refused { IfErr result (IsNoTree input.now) }
{
    match read(alloc, input) {
        Ok(tree) => Ok(tree),
        Err(refused) => match json_rule(refused) {
            Some(rule) => Err(Ending::Refused(rule)),
            None => Err(Ending::Memory),
        },
    }
}

// How a value ends that gives itself no id.
fn ending_without_id(alloc: Global, tree: &Tree) -> Result<Ending, Memory>
    ensures { IfOk result (λ ending. ending ≡ ending_without_id (view tree.now)) }
{
    if is_too_long(tree) {
        return Ok(Ending::TooLong);
    }
    match broken_rule(alloc, tree)? {
        Some(number) => Ok(Ending::Refused(Rule::S(number))),
        None => Ok(Ending::NoId),
    }
}

// The statement that an input asks to be kept, under the id that it gives itself.
fn ask(alloc: Global, input: &[u8]) -> Result<(Id, Tree), Ending>
    requires { length input.now ≤ longest_input }
    ensures with_id { IfOk result (λ statement. IsTakenFor input.now (with_id statement.0 statement.1)) }
    ensures readable { IfOk result (λ statement. IsReadable DEPTH (view statement.1)) }
    ensures refused { IfErr result (IsNoStatement input.now) }
{
    let tree = match read_tree(alloc, input) {
        Ok(tree) => tree,
        Err(ending) => return Err(ending),
    };
    match own_id(&tree) {
        Some(id) => Ok((id, tree)),
        None => match ending_without_id(alloc, &tree) {
            Ok(ending) => Err(ending),
            Err(_) => Err(Ending::Memory),
        },
    }
}

/// Reads the input to its end, and takes the statement that it asks to be kept.
pub fn take_statement<I: Source>(alloc: Global, input: &mut I) -> Result<(Id, Tree), Ending>
    ensures taken { IfOk result (λ statement. ForInput (I.left input.old)
        (λ bytes. IsTakenFor bytes (with_id statement.0 statement.1))) }
    ensures readable { IfOk result (λ statement. IsReadable DEPTH (view statement.1)) }
    ensures refused { IfErr result (λ end. ForInput (I.left input.old) (λ bytes. IsNotTaken bytes end)) }
    ensures cause { IfErr result (HasInputCause (I.fault_count input.old) (I.fault_count input.new)) }
    ensures later { I.fault_count input.old ≤ I.fault_count input.new }
{
    match read_input(alloc, input) {
        Ok(bytes) => ask(alloc, bytes.as_slice()),
        Err(InputRefused::TooLong) => Err(Ending::TooLong),
        Err(InputRefused::Failed) => Err(Ending::InputFault),
        Err(InputRefused::Memory) => Err(Ending::Memory),
    }
}
