ghost use Rattle.std.specs.Prelude.{◌≡◌, [], IfOk, OnOk, Err, Result, MatchOption, MatchResult, map};
ghost use Rattle.lrs_command.specs.Commands.{HasReadTrees};
ghost use Rattle.lrs_record.specs.Entries.{IsLawfulCaller};
ghost use Rattle.lrs_routes.specs.Asked.{Agree, IsAsked, IsCommandOf, IsRouteRefused, IsRouted, IsRoutedAs};
ghost use Rattle.lrs_routes.specs.Looks.{HasFormRule};
ghost use Rattle.lrs_routes.specs.Paths.{Fits};
ghost use Rattle.lrs_routes.specs.Table.{desk_routes, patterns, patterns_of, row_of};
ghost use Rattle.lrs_routes.specs.declared.asked.Asked.{Asked as SpecAsked};
ghost use Rattle.lrs_routes.specs.declared.asked.RouteRefused.{RouteRefused as SpecRefused};
ghost use Rattle.lrs_routes.specs.declared.table.Route.{Route as SpecRoute};

use crate::fields::{caller_of, speaks};
use crate::forms::command;
use crate::operation::Operation;
use crate::table::Route;
use crate::{Asked, RouteRefused, Routed};
use lrs_command::Command;
use lrs_http::{Method, Request};
use lrs_json::{Memory, Text};
use matchit::{InsertError, Router};
use std::alloc::Global;

/// The table of routes, made once by each worker.
#[derive(Drop)]
pub struct Routes {
    router: Router<Route>,
    ghost whole: { map (λ row. (row.0, row.1.value)) router ≡ patterns },
}

impl Routes {
    /// The table, whole; only memory can run out.
    pub fn new(alloc: Global) -> Result<Routes, Memory> {
        match router(alloc) {
            Ok(router) => Ok(Routes { router }),
            Err(_) => Err(Memory),
        }
    }

    /// What a request asks, looked at in this order: its route, its method, the version of xAPI, who asks, and then
    /// its form, a broken rule of which is a command too: the store looks at its caller before it answers the rule.
    pub fn command_of(&self, alloc: Global, request: Request) -> Result<Asked, RouteRefused>
        ensures asked { IsAsked request result }

        // No other account of the request holds.
        ensures alone { (other : Result SpecAsked SpecRefused) → IsAsked request other → Agree result other }
        ensures lawful { IfOk result (λ asked. IsLawfulCaller asked.caller) }
        ensures trees { IfOk result (λ asked. HasReadTrees asked.command) }
        ensures rules { IfOk result (λ asked. HasFormRule asked.command) }
    {
        let asked = self.asked(alloc, &request);
        drop(request);
        asked
    }

    fn asked(&self, alloc: Global, request: &Request) -> Result<Asked, RouteRefused>
        ensures asked { IsAsked request.now result }
        ensures lawful { IfOk result (λ asked. IsLawfulCaller asked.caller) }
        ensures trees { IfOk result (λ asked. HasReadTrees asked.command) }
        ensures rules { IfOk result (λ asked. HasFormRule asked.command) }
    {
        let routed = self.routed(alloc, request)?;
        let command = routed.command(alloc, request)?;
        Ok(Asked {
            caller: routed.caller,
            command,
        })
    }

    /// Where a request goes and who asks, looked at in the order of `command_of`, or why it asks for nothing. Its
    /// parameters and its body aren't looked at.
    pub fn routed(&self, alloc: Global, request: &Request) -> Result<Routed, RouteRefused>
        ensures routed { MatchResult result (λ routed. IsRoutedAs request.now routed)
            (λ refused. IsRouteRefused request.now.path request.now.method request.now.version refused) }
        ensures lawful { IfOk result (λ routed. IsLawfulCaller routed.caller) }
    {
        let (route, operation) = self.operation_of(
            request.path.as_str(),
            request.method,
            &request.version,
        )?;
        let area = route.area();
        let caller = caller_of(alloc, area, &request.credential)?;
        Ok(Routed {
            caller,
            area,
            operation,
        })
    }

    // What the request's method is for on its route.
    fn operation_of(
        &self,
        path: &str,
        method: Method,
        version: &Option<Text>,
    ) -> Result<(Route, Operation), RouteRefused>
        ensures { MatchResult result (λ found. IsRouted path.now method version.now found.0 found.1)
            (IsRouteRefused path.now method version.now) }
    {
        let Some(route) = self.route_of(path) else {
            return Err(RouteRefused::NoRoute);
        };
        match route.operation(method) {
            Ok(operation) => {
                if route.is_versioned() && !speaks(version) {
                    Err(RouteRefused::NoVersion)
                } else {
                    Ok((route, operation))
                }
            }
            Err(allow) => Err(RouteRefused::NoMethod { allow }),
        }
    }

    // The route that the path fits.
    fn route_of(&self, path: &str) -> Option<Route>
        ensures { MatchOption result ((route : SpecRoute) → ¬ Fits (row_of route).pattern path.now)
            (λ route. Fits (row_of route).pattern path.now) }
    {
        match self.router.at(path) {
            Ok(found) => Some(copied(found.value)),
            Err(_) => None,
        }
    }
}

impl Routed {
    /// The command of the request. A form that is refused is a command, too.
    pub fn command(&self, alloc: Global, request: &Request) -> Result<Command, Memory>
        ensures is { IfOk result (IsCommandOf request.now self.now) }
        ensures trees { IfOk result HasReadTrees }
        ensures rules { IfOk result HasFormRule }
    {
        command(alloc, self.area, self.operation, request)
    }
}

fn copied(route: &Route) -> Route
    ensures { result ≡ route.now }
{
    *route
}

fn router(alloc: Global) -> Result<Router<Route>, InsertError>
    ensures { IfOk result (λ r. map (λ row. (row.0, row.1.value)) r ≡ patterns) }
{
    let mut router = Router::new(alloc);
    match fill(&mut router) {
        Ok(()) => Ok(router),
        Err(refused) => {
            drop(router);
            Err(refused)
        }
    }
}

// The paths of the table. The router has them in an order of its own.
fn fill(router: &mut Router<Route>) -> Result<(), InsertError>
    requires { router.old ≡ [] }
    ensures { OnOk result (map (λ row. (row.0, row.1.value)) router.new ≡ patterns) }
{
    fill_desk(router)?;
    fill_others(router)
}

fn fill_desk(router: &mut Router<Route>) -> Result<(), InsertError>
    requires { router.old ≡ [] }
    ensures { OnOk result (map (λ row. (row.0, row.1.value)) router.new ≡ patterns_of desk_routes) }
{
    router.insert("/desk/callers", Route::Providers)?;
    router.insert("/desk/courses", Route::Courses)?;
    router.insert("/desk/registrations", Route::Registrations)?;
    router.insert("/desk/registrations/{r}", Route::Registration)?;
    router.insert("/desk/registrations/{r}/launches", Route::Launches)?;
    router.insert("/desk/registrations/{r}/waive", Route::Waive)?;
    router.insert("/desk/sessions/{s}/abandon", Route::Abandon)?;
    router.insert("/desk/sweep", Route::Sweep)?;
    Ok(())
}

fn fill_others(router: &mut Router<Route>) -> Result<(), InsertError>
    requires { map (λ row. (row.0, row.1.value)) router.old ≡ patterns_of desk_routes }
    ensures { OnOk result (map (λ row. (row.0, row.1.value)) router.new ≡ patterns) }
{
    router.insert("/fetch/{key}", Route::Fetch)?;
    router.insert("/xapi/about", Route::About)?;
    router.insert("/xapi/activities/profile", Route::ActivityProfiles)?;
    router.insert("/xapi/activities/state", Route::States)?;
    router.insert("/xapi/agents/profile", Route::AgentProfiles)?;
    router.insert("/xapi/statements", Route::Statements)?;
    router.insert("/xapi/statements/more", Route::MoreStatements)?;
    Ok(())
}
