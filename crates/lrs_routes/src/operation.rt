ghost use Rattle.std.specs.Prelude.{◌≡◌, Some, IfOk};
ghost use Rattle.lrs_bodies.specs.Bodies.{BodyBreaks, IsInBody, OfBody, course_body, document_body, enrolment_body, launch_body, statement_body, statements_body, sweep_body, waiver_body};
ghost use Rattle.lrs_bodies.specs.Looks.{FindsForm};
ghost use Rattle.lrs_routes.specs.Forms.{looks_at, parameters_of};
ghost use Rattle.lrs_routes.specs.Looks.{IsInParameters, IsNoRefusal, OnlyParameters, ReadsParameters};
ghost use Rattle.lrs_routes.specs.Operations.{OfParameters, command_of, dropping, form_of, parameters_of_document, parameters_of_put, written};
ghost use Rattle.lrs_routes.specs.Parts.{OfPart, part_of};
ghost use Rattle.lrs_routes.specs.declared.operation.Operation.TheVariants as operation;
ghost use Rattle.lrs_routes.specs.declared.values.ParameterValue.TheVariants as parameter;
ghost use Rattle.lrs_routes.specs.declared.values.PartValue.TheVariants as part;

use crate::parameters::{
    decoded, documents_in, dropped_in, id_in, key_in, link_in, nothing_in, refused_of_query,
    wanted_in,
};
use crate::parts;
use crate::values::{ParameterValue, PartValue, first};
use lrs_bodies::{
    BodyValue, FormRefused, read_course, read_document, read_empty, read_enrolment, read_launch,
    read_statement, read_statements, read_strings, read_sweep, read_waiver,
};
use lrs_command::{Command, Read};
use lrs_http::Request;
use lrs_json::{Memory, Text};
use lrs_names::Id;
use lrs_record::{How, Write};
use std::alloc::Global;
use xapi_parameters::{DroppedDocuments, Pair, QueryRefused};

/// What a method of a route is for.
#[derive(Clone, Copy, Debug, PartialEq, Eq)]
pub(crate) enum Operation {
    /// Gives the versions of xAPI that are spoken.
    TellVersions,
    /// Gives statements.
    GetStatements,
    /// Gives the next page of a list of statements.
    GetMoreStatements,
    /// Keeps statements together.
    PostStatements,
    /// Keeps a statement under an id.
    PutStatement,
    /// Gives a state document, or the ids of some.
    GetDocuments,
    /// Writes a state document.
    PutDocument,
    /// Merges a state document into the one that is held.
    PostDocument,
    /// Drops state documents.
    DropDocuments,
    /// Gives the document of a profile, of which there is none.
    GetProfile,
    /// Makes a provider and its token.
    MakeProvider,
    /// Takes a course up.
    TakeCourse,
    /// Enrols a learner in a course.
    EnrolLearner,
    /// Launches a unit of the course of a registration.
    LaunchUnit,
    /// Gives the token of a session away.
    FetchToken,
    /// Tells how far the learner of a registration has come.
    GetRegistration,
    /// Waives a unit for a registration.
    WaiveUnit,
    /// Abandons a session.
    AbandonSession,
    /// Abandons the sessions that are idle.
    SweepSessions,
}

impl Operation {
    /// What the parameters give, by the operation's rules on them.
    pub(crate) fn parameter_value(
        self,
        alloc: Global,
        query: &Option<Text>,
    ) -> Result<ParameterValue, FormRefused>
        ensures { FindsForm (OnlyParameters (form_of self).parameters (parameters_of query.now))
            (IsInParameters (form_of self).parameters (parameters_of query.now)) result }
    {
        if self.looks_at_parameters() {
            let pairs = decoded(alloc, query)?;
            match self.read_parameters(alloc, pairs.as_slice()) {
                Ok(value) => Ok(value),
                Err(refused) => Err(refused_of_query(refused)),
            }
        } else {
            Ok(ParameterValue::Nothing)
        }
    }

    fn looks_at_parameters(self) -> bool
        ensures { result ≡ looks_at (form_of self).parameters }
    {
        match self {
            Operation::TellVersions | Operation::GetProfile | Operation::FetchToken => false,
            _ => true,
        }
    }

    // What parameters that are texts give.
    fn read_parameters(self, alloc: Global, pairs: &[Pair]) -> Result<ParameterValue, QueryRefused>
        ensures { ReadsParameters (form_of self).parameters pairs.now result }
    {
        match self {
            Operation::TellVersions | Operation::GetProfile | Operation::FetchToken => Ok(
                ParameterValue::Nothing,
            ),
            Operation::GetDocuments => documents_in(alloc, pairs),
            Operation::PutDocument | Operation::PostDocument => key_in(alloc, pairs),
            Operation::DropDocuments => dropped_in(alloc, pairs),
            Operation::GetStatements => wanted_in(alloc, pairs),
            Operation::GetMoreStatements => link_in(alloc, pairs),
            Operation::PutStatement => id_in(pairs),
            Operation::PostStatements
            | Operation::MakeProvider
            | Operation::TakeCourse
            | Operation::EnrolLearner
            | Operation::LaunchUnit
            | Operation::GetRegistration
            | Operation::WaiveUnit
            | Operation::AbandonSession
            | Operation::SweepSessions => nothing_in(pairs),
        }
    }

    /// What the part of the path is, none if it is no id where one is asked for.
    pub(crate) fn part_value(self, alloc: Global, path: &str) -> Result<Option<PartValue>, Memory>
        ensures { IfOk result (λ found. found ≡ part_of (form_of self).part path.now) }
    {
        match self {
            Operation::FetchToken => parts::text_in(alloc, path, "/fetch/"),
            Operation::LaunchUnit | Operation::WaiveUnit | Operation::GetRegistration => Ok(
                parts::id_in(path, "/desk/registrations/"),
            ),
            Operation::AbandonSession => Ok(parts::id_in(path, "/desk/sessions/")),
            _ => Ok(Some(PartValue::Nothing)),
        }
    }

    /// What the body gives, by the operation's rules on it.
    pub(crate) fn body_value(
        self,
        alloc: Global,
        request: &Request,
    ) -> Result<BodyValue, FormRefused>
        ensures { FindsForm (BodyBreaks (form_of self).body request.now)
            (IsInBody (form_of self).body request.now) result }
    {
        match self {
            Operation::TellVersions
            | Operation::GetStatements
            | Operation::GetMoreStatements
            | Operation::GetDocuments
            | Operation::DropDocuments
            | Operation::GetProfile
            | Operation::FetchToken
            | Operation::GetRegistration => Ok(BodyValue::Nothing),
            Operation::PutDocument | Operation::PostDocument => read_document(alloc, request),
            Operation::PostStatements => read_statements(alloc, request),
            Operation::PutStatement => read_statement(alloc, request),
            Operation::MakeProvider => read_strings(alloc, request, &[("name", 2)]),
            Operation::TakeCourse => read_course(alloc, request),
            Operation::EnrolLearner => read_enrolment(alloc, request),
            Operation::LaunchUnit => read_launch(alloc, request),
            Operation::WaiveUnit => read_waiver(alloc, request),
            Operation::AbandonSession => read_empty(alloc, request),
            Operation::SweepSessions => read_sweep(alloc, request),
        }
    }

    /// The command of what the three give.
    pub(crate) fn command(self, query: ParameterValue, part: PartValue, body: BodyValue) -> Command
        requires query { OfParameters (form_of self).parameters query }
        requires part { OfPart (form_of self).part part }
        requires body { OfBody (form_of self).body body }
        ensures is { command_of self query part body ≡ Some result }
        ensures plain { IsNoRefusal result }
    {
        match part {
            PartValue::Nothing => self.command_of_whole(query, body),
            PartValue::Text(key) => {
                drop(query);
                drop(body);
                match self {
                    Operation::FetchToken => Command::Write(Write::Fetch { key }),
                    _ => unreachable!(),
                }
            }
            PartValue::Id(id) => self.command_at(query, id, body),
        }
    }

    // The command of an operation that asks for an id in the path.
    fn command_at(self, query: ParameterValue, id: Id, body: BodyValue) -> Command
        requires part { OfPart (form_of self).part (part.Id id) }
        requires body { OfBody (form_of self).body body }
        ensures is { command_of self query (part.Id id) body ≡ Some result }
        ensures plain { IsNoRefusal result }
    {
        drop(query);
        match self {
            Operation::LaunchUnit => launched(id, body),
            Operation::WaiveUnit => waived(id, body),
            Operation::AbandonSession => {
                drop(body);
                Command::Write(Write::Abandon { session: id })
            }
            Operation::GetRegistration => {
                drop(body);
                Command::Read(Read::Registration(id))
            }
            _ => unreachable!(),
        }
    }

    // The command of an operation that asks for no part of the path.
    fn command_of_whole(self, query: ParameterValue, body: BodyValue) -> Command
        requires query { OfParameters (form_of self).parameters query }
        requires part { OfPart (form_of self).part part.Nothing }
        requires body { OfBody (form_of self).body body }
        ensures is { command_of self query part.Nothing body ≡ Some result }
        ensures plain { IsNoRefusal result }
    {
        match self {
            Operation::TellVersions => {
                drop(query);
                drop(body);
                Command::Read(Read::About)
            }
            Operation::GetStatements => {
                drop(body);
                match query {
                    ParameterValue::Wanted(wanted) => Command::Read(Read::Statements(wanted)),
                    _ => unreachable!(),
                }
            }
            Operation::GetMoreStatements => {
                drop(body);
                match query {
                    ParameterValue::Link(link) => Command::Read(Read::More(link)),
                    _ => unreachable!(),
                }
            }
            Operation::PostStatements => {
                drop(query);
                posted(body)
            }
            Operation::PutStatement => put(query, body),
            Operation::GetDocuments => {
                drop(body);
                match query {
                    ParameterValue::Documents(wanted) => Command::Read(Read::Documents(wanted)),
                    _ => unreachable!(),
                }
            }
            Operation::PutDocument => written(How::Put, query, body),
            Operation::PostDocument => written(How::Post, query, body),
            Operation::DropDocuments => {
                drop(body);
                match query {
                    ParameterValue::Dropped(dropped) => dropping(dropped),
                    _ => unreachable!(),
                }
            }
            Operation::GetProfile => {
                drop(query);
                drop(body);
                Command::Read(Read::Profile)
            }
            Operation::MakeProvider => {
                drop(query);
                made(body)
            }
            Operation::TakeCourse => {
                drop(query);
                taken(body)
            }
            Operation::EnrolLearner => {
                drop(query);
                enrolled(body)
            }
            Operation::SweepSessions => {
                drop(query);
                swept(body)
            }
            Operation::LaunchUnit
            | Operation::FetchToken
            | Operation::GetRegistration
            | Operation::WaiveUnit
            | Operation::AbandonSession => unreachable!(),
        }
    }
}

// Each of these is the write of one operation, of what its row asks for.

fn posted(body: BodyValue) -> Command
    requires { OfBody statements_body body }
    ensures is { command_of operation.PostStatements parameter.Nothing part.Nothing body ≡ Some result }
    ensures plain { IsNoRefusal result }
{
    match body {
        BodyValue::Statements(statements) => Command::Write(Write::Post { statements }),
        _ => unreachable!(),
    }
}

fn put(query: ParameterValue, body: BodyValue) -> Command
    requires query { OfParameters parameters_of_put query }
    requires body { OfBody statement_body body }
    ensures is { command_of operation.PutStatement query part.Nothing body ≡ Some result }
    ensures plain { IsNoRefusal result }
{
    match query {
        ParameterValue::Id(id) => match body {
            BodyValue::Statement(statement) => Command::Write(Write::Put { id, statement }),
            _ => unreachable!(),
        },
        _ => unreachable!(),
    }
}

fn made(body: BodyValue) -> Command
    requires { OfBody (form_of operation.MakeProvider).body body }
    ensures is { command_of operation.MakeProvider parameter.Nothing part.Nothing body ≡ Some result }
    ensures plain { IsNoRefusal result }
{
    match body {
        BodyValue::Strings(strings) => {
            let mut texts = strings.into_vec();
            let name = first(&mut texts);
            Command::Write(Write::Provider { name })
        }
        _ => unreachable!(),
    }
}

fn taken(body: BodyValue) -> Command
    requires { OfBody course_body body }
    ensures is { command_of operation.TakeCourse parameter.Nothing part.Nothing body ≡ Some result }
    ensures plain { IsNoRefusal result }
{
    match body {
        BodyValue::Course(tree) => Command::Write(Write::Course { tree }),
        _ => unreachable!(),
    }
}

fn enrolled(body: BodyValue) -> Command
    requires { OfBody enrolment_body body }
    ensures is { command_of operation.EnrolLearner parameter.Nothing part.Nothing body ≡ Some result }
    ensures plain { IsNoRefusal result }
{
    match body {
        BodyValue::Enrolment {
            course,
            actor,
            edition,
        } => Command::Write(Write::Enrol {
            course,
            actor,
            edition,
        }),
        _ => unreachable!(),
    }
}

fn swept(body: BodyValue) -> Command
    requires { OfBody sweep_body body }
    ensures is { command_of operation.SweepSessions parameter.Nothing part.Nothing body ≡ Some result }
    ensures plain { IsNoRefusal result }
{
    match body {
        BodyValue::Sweep { idle } => Command::Write(Write::Sweep { idle }),
        _ => unreachable!(),
    }
}

// The write of a document.
fn written(how: How, query: ParameterValue, body: BodyValue) -> Command
    requires query { OfParameters parameters_of_document query }
    requires body { OfBody document_body body }
    ensures { written how query body ≡ Some result }
{
    match query {
        ParameterValue::Document(key) => match body {
            BodyValue::Document { media, bytes } => Command::Write(Write::State {
                how,
                key,
                media,
                bytes,
            }),
            _ => unreachable!(),
        },
        _ => unreachable!(),
    }
}

fn dropping(dropped: DroppedDocuments) -> Command
    ensures { result ≡ dropping dropped }
{
    let DroppedDocuments {
        activity,
        agent,
        registration,
        state,
    } = dropped;
    Command::Write(Write::Drop {
        activity,
        agent,
        registration,
        state,
    })
}

fn launched(registration: Id, body: BodyValue) -> Command
    requires { OfBody launch_body body }
    ensures is { command_of operation.LaunchUnit parameter.Nothing (part.Id registration) body ≡ Some result }
    ensures plain { IsNoRefusal result }
{
    match body {
        BodyValue::Launch {
            unit,
            mode,
            return_url,
        } => Command::Write(Write::Launch {
            registration,
            unit,
            mode,
            return_url,
        }),
        _ => unreachable!(),
    }
}

fn waived(registration: Id, body: BodyValue) -> Command
    requires { OfBody waiver_body body }
    ensures is { command_of operation.WaiveUnit parameter.Nothing (part.Id registration) body ≡ Some result }
    ensures plain { IsNoRefusal result }
{
    match body {
        BodyValue::Waiver { unit, reason } => Command::Write(Write::Waive {
            registration,
            unit,
            reason,
        }),
        _ => unreachable!(),
    }
}
