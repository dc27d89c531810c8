// The bodies that are statements.
ghost use Rattle.std.specs.Prelude.{◌≡◌, [], ◌∷◌, IfOk, map};
ghost use Rattle.lrs_json.specs.View.{elements_of, view};
ghost use Rattle.lrs_bodies.specs.Bodies.{BodyBreaks, IsInBody, StatementBody, batch_of, statement_body, statements_body};
ghost use Rattle.lrs_bodies.specs.Looks.{FindsForm, IsTreeOf};

use crate::body_value::BodyValue;
use crate::form_refused::FormRefused;
use crate::json::body_tree;
use crate::media::allows_json;
use lrs_http::Request;
use lrs_json::{Items, Memory, Tree};
use lrs_rules::Rule;
use std::alloc::Global;

/// The body as a statement that isn't looked into.
pub fn read_statement(alloc: Global, request: &Request) -> Result<BodyValue, FormRefused>
    ensures { FindsForm (BodyBreaks statement_body request.now) (IsInBody statement_body request.now) result }
{
    let body = statement_tree(alloc, request)?;
    Ok(BodyValue::Statement(body))
}

/// The body as statements that aren't looked into: an array of them, or one alone.
pub fn read_statements(alloc: Global, request: &Request) -> Result<BodyValue, FormRefused>
    ensures { FindsForm (BodyBreaks statements_body request.now) (IsInBody statements_body request.now) result }
{
    let body = statement_tree(alloc, request)?;
    let statements = batch_of(alloc, body)?;
    Ok(BodyValue::Statements(statements))
}

fn statement_tree(alloc: Global, request: &Request) -> Result<Tree, FormRefused>
    ensures { FindsForm (StatementBody request.now) (IsTreeOf request.now.body) result }
{
    if allows_json(&request.media) {
        body_tree(alloc, request)
    } else {
        Err(FormRefused::Broken(Rule::F(3)))
    }
}

fn batch_of(alloc: Global, body: Tree) -> Result<Items<Tree>, Memory>
    ensures { IfOk result (λ statements. elements_of (map view statements) ≡ batch_of (view body)) }
{
    match body {
        Tree::List(statements) => Ok(statements),
        statement => alone(alloc, statement),
    }
}

fn alone(alloc: Global, statement: Tree) -> Result<Items<Tree>, Memory>
    ensures { IfOk result (λ statements. statements ≡ statement ∷ []) }
{
    let mut statements = Items::new(alloc);
    statements.push(statement)?;
    Ok(statements)
}
