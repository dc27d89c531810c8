ghost use Rattle.std.specs.Prelude.{◌≡◌, Some, None, MatchResult};
ghost use Rattle.lrs_routes.specs.Table.{allow_of, method_names, methods_of, operation_of, row_of};

use crate::operation::Operation;
use lrs_command::Area;
use lrs_http::Method;

/// A row of the table of routes.
#[derive(Clone, Copy, Debug, PartialEq, Eq)]
pub(crate) enum Route {
    Providers,
    Courses,
    Launches,
    Waive,
    Registration,
    Registrations,
    Abandon,
    Sweep,
    Fetch,
    About,
    ActivityProfiles,
    States,
    AgentProfiles,
    MoreStatements,
    Statements,
}

/// The methods of a route, for the field `Allow` (RFC 9110, section 10.2.1).
#[derive(Clone, Copy, Debug, PartialEq, Eq)]
pub struct Allow {
    route: Route,
}

impl Allow {
    /// The methods' names, as in `GET, POST, PUT`.
    pub fn text(&self) -> &'static str
        ensures { result.now ≡ method_names (methods_of self.now) }
    {
        match self.route {
            Route::Providers
            | Route::Courses
            | Route::Launches
            | Route::Waive
            | Route::Registrations
            | Route::Abandon
            | Route::Sweep
            | Route::Fetch => "POST",
            Route::Registration
            | Route::About
            | Route::ActivityProfiles
            | Route::AgentProfiles
            | Route::MoreStatements => "GET",
            Route::States => "DELETE, GET, POST, PUT",
            Route::Statements => "GET, POST, PUT",
        }
    }
}

impl Route {
    /// Whom the route answers.
    pub(crate) fn area(self) -> Area
        ensures { result ≡ (row_of self).area }
    {
        match self {
            Route::Providers
            | Route::Courses
            | Route::Launches
            | Route::Waive
            | Route::Registration
            | Route::Registrations
            | Route::Abandon
            | Route::Sweep => Area::Desk,
            Route::Fetch | Route::About => Area::Free,
            Route::ActivityProfiles
            | Route::States
            | Route::AgentProfiles
            | Route::MoreStatements
            | Route::Statements => Area::Store,
        }
    }

    /// Whether the route asks for the version of xAPI.
    pub(crate) fn is_versioned(self) -> bool
        ensures { result ≡ (row_of self).versioned }
    {
        match self {
            Route::ActivityProfiles
            | Route::States
            | Route::AgentProfiles
            | Route::MoreStatements
            | Route::Statements => true,
            Route::Providers
            | Route::Courses
            | Route::Launches
            | Route::Waive
            | Route::Registration
            | Route::Registrations
            | Route::Abandon
            | Route::Sweep
            | Route::Fetch
            | Route::About => false,
        }
    }

    /// What the method is for, or the methods that the route has.
    pub(crate) fn operation(self, method: Method) -> Result<Operation, Allow>
        ensures { MatchResult result (λ operation. operation_of (row_of self).methods method ≡ Some operation)
            (λ allow. (operation_of (row_of self).methods method ≡ None) × (allow ≡ allow_of self)) }
    {
        match (self, method) {
            (Route::Providers, Method::Post) => Ok(Operation::MakeProvider),
            (Route::Courses, Method::Post) => Ok(Operation::TakeCourse),
            (Route::Launches, Method::Post) => Ok(Operation::LaunchUnit),
            (Route::Waive, Method::Post) => Ok(Operation::WaiveUnit),
            (Route::Registration, Method::Get) => Ok(Operation::GetRegistration),
            (Route::Registrations, Method::Post) => Ok(Operation::EnrolLearner),
            (Route::Abandon, Method::Post) => Ok(Operation::AbandonSession),
            (Route::Sweep, Method::Post) => Ok(Operation::SweepSessions),
            (Route::Fetch, Method::Post) => Ok(Operation::FetchToken),
            (Route::About, Method::Get) => Ok(Operation::TellVersions),
            (Route::ActivityProfiles, Method::Get) => Ok(Operation::GetProfile),
            (Route::States, Method::Delete) => Ok(Operation::DropDocuments),
            (Route::States, Method::Get) => Ok(Operation::GetDocuments),
            (Route::States, Method::Post) => Ok(Operation::PostDocument),
            (Route::States, Method::Put) => Ok(Operation::PutDocument),
            (Route::AgentProfiles, Method::Get) => Ok(Operation::GetProfile),
            (Route::MoreStatements, Method::Get) => Ok(Operation::GetMoreStatements),
            (Route::Statements, Method::Get) => Ok(Operation::GetStatements),
            (Route::Statements, Method::Post) => Ok(Operation::PostStatements),
            (Route::Statements, Method::Put) => Ok(Operation::PutStatement),
            _ => Err(Allow { route: self }),
        }
    }
}
