// The form of a request, and the command that it means.
ghost use Rattle.std.specs.Prelude.{◌≡◌, IfOk, MatchOption};
ghost use Rattle.lrs_command.specs.Commands.{HasReadTrees};
ghost use Rattle.lrs_routes.specs.Forms.{FirstBroken, IsCommand, nowhere};
ghost use Rattle.lrs_bodies.specs.Bodies.{OfBody};
ghost use Rattle.lrs_bodies.specs.Looks.{FindsForm};
ghost use Rattle.lrs_routes.specs.Operations.{OfParameters, form_of};
ghost use Rattle.lrs_routes.specs.Looks.{HasFormRule, IsGiven, IsMeantThere};

use crate::operation::Operation;
use crate::values::ParameterValue;
use lrs_bodies::{BodyValue, FormRefused};
use lrs_command::{Area, BAD_REQUEST, Command, NOT_FOUND};
use lrs_http::Request;
use lrs_json::Memory;
use lrs_rules::Rule;
use std::alloc::Global;

/// The command of a request to a route of that area. A form that is refused is a command, too, and so is a path of
/// which a part is no id.
pub fn command(
    alloc: Global,
    area: Area,
    operation: Operation,
    request: &Request,
) -> Result<Command, Memory>
    ensures is { IfOk result (IsCommand area operation request.now) }
    ensures trees { IfOk result HasReadTrees }
    ensures rules { IfOk result HasFormRule }
{
    match meaning(alloc, operation, request) {
        Ok(found) => Ok(found_or_nowhere(area, found)),
        Err(FormRefused::Broken(rule)) => Ok(Command::Refused {
            area,
            status: BAD_REQUEST,
            rule,
        }),
        Err(FormRefused::Memory) => Err(Memory),
    }
}

fn found_or_nowhere(area: Area, found: Option<Command>) -> Command
    ensures { MatchOption found (result ≡ nowhere area) (λ command. result ≡ command) }
{
    match found {
        Some(command) => command,
        None => Command::Refused {
            area,
            status: NOT_FOUND,
            rule: Rule::P(5),
        },
    }
}

// The parameters first, then the body, and then the part of the path.
fn meaning(
    alloc: Global,
    operation: Operation,
    request: &Request,
) -> Result<Option<Command>, FormRefused>
    ensures { FindsForm (FirstBroken operation request.now) (IsMeantThere operation request.now) result }
{
    let query = operation.parameter_value(alloc, &request.query)?;
    match operation.body_value(alloc, request) {
        Ok(body) => Ok(meant_there(alloc, operation, request.path.as_str(), query, body)?),
        Err(refused) => {
            drop(query);
            Err(refused)
        }
    }
}

// What the parameters and the body mean, unless the part of the path is no id.
fn meant_there(
    alloc: Global,
    operation: Operation,
    path: &str,
    query: ParameterValue,
    body: BodyValue,
) -> Result<Option<Command>, Memory>
    requires query { OfParameters (form_of operation).parameters query }
    requires body { OfBody (form_of operation).body body }
    ensures { IfOk result (IsGiven operation path.now query body) }
{
    match operation.part_value(alloc, path) {
        Ok(Some(part)) => Ok(Some(operation.command(query, part, body))),
        Ok(None) => {
            drop(query);
            drop(body);
            Ok(None)
        }
        Err(refused) => {
            drop(query);
            drop(body);
            Err(refused)
        }
    }
}
