// The bodies of pages.
ghost use Rattle.std.specs.Prelude.{◌≡◌, ◌≤◌, ◌∷◌, ◌++◌, ℕ, List, false, codes, length, take, IfOk, OnOk};
ghost use Rattle.lrs_json.specs.Written.{comma_if, quoted};
ghost use Rattle.xapi_search.specs.XapiStatementShown.{shown_text};
ghost use Rattle.xapi_pages.specs.Listings.{Page as SpecPage, items_text, more_text, page_behind, page_body};

use crate::listing::Page;
use crate::searching::page_of;
use lrs_json::{Memory, Tree, write};
use std::alloc::Global;
use xapi_search::{Format, HeldStatement, Index, Query, Sight, link_text};

/// The body of the page after a position, in the list as of the first `asof` statements.
pub fn page_text(
    alloc: Global,
    index: &Index,
    query: &Query,
    sight: &Sight,
    asof: usize,
    after: Option<usize>,
) -> Result<Vec<u8>, Memory>
    requires { asof ≤ length index.now.held }
    ensures { IfOk result (λ body.
        body.items
        ≡ page_body query.now asof index.now.held (page_behind query.now sight.now (take asof index.now.held) after)) }
{
    let page = page_of(alloc, index, query, sight, asof, after)?;
    body_text(alloc, index, query, asof, &page)
}

// The body of a page, in a list of the first `asof` statements.
fn body_text(
    alloc: Global,
    index: &Index,
    query: &Query,
    asof: usize,
    page: &Page,
) -> Result<Vec<u8>, Memory>
    ensures { IfOk result (λ body.
        let shown : SpecPage = record { positions = page.now.positions.items; link = page.now.link } in
        body.items ≡ page_body query.now asof index.now.held shown) }
{
    let mut body = begun(alloc, page.positions.len())?;
    put_statements(index, query.format, page.positions.as_slice(), &mut body)?;
    body.extend_from_slice(b",\"more\":")?;
    put_more(alloc, query, asof, page.link, &mut body)?;
    body.push(b'}')?;
    Ok(body)
}

// What a statement of a page has room in at first: more bytes than most take.
const STATEMENT_ROOM: usize = 1024;

// The beginning of the body of a page of so many statements.
fn begun(alloc: Global, count: usize) -> Result<Vec<u8>, Memory>
    ensures { IfOk result (λ body. body.items ≡ codes "{\"statements\":[") }
{
    let mut body = Vec::with_capacity(alloc, count.saturating_mul(STATEMENT_ROOM))?;
    body.extend_from_slice(b"{\"statements\":[")?;
    Ok(body)
}

// The statements at these positions, and the closing bracket.
fn put_statements(
    index: &Index,
    format: Format,
    positions: &[usize],
    body: &mut Vec<u8>,
) -> Result<(), Memory>
    ensures { OnOk result (body.new.items ≡ body.old.items ++ items_text format index.now.held false positions.now) }
{
    let mut later = false;
    for position in positions {
        later = put_at(index, format, *position, later, body)?;
    }
    body.push(b']')?;
    Ok(())
}

// The statement at a position, if one stands there; whether one was put by then.
fn put_at(
    index: &Index,
    format: Format,
    position: usize,
    later: bool,
    body: &mut Vec<u8>,
) -> Result<bool, Memory>
    ensures { IfOk result (λ put.
        (behind : List ℕ) → body.new.items ++ items_text format index.now.held put behind
        ≡ body.old.items ++ items_text format index.now.held later (position ∷ behind)) }
{
    match index.get(position) {
        Some(statement) => {
            put_statement(format, statement, later, body)?;
            Ok(true)
        }
        None => Ok(later),
    }
}

fn put_statement(
    format: Format,
    statement: &HeldStatement,
    later: bool,
    body: &mut Vec<u8>,
) -> Result<(), Memory>
    ensures { OnOk result (body.new.items ≡ body.old.items ++ comma_if later ++ shown_text format statement.now) }
{
    if later {
        body.push(b',')?;
    }
    statement.write(format, body)
}

// The link after a position as a string, which is empty if there is none.
fn put_more(
    alloc: Global,
    query: &Query,
    asof: usize,
    after: Option<usize>,
    body: &mut Vec<u8>,
) -> Result<(), Memory>
    ensures { OnOk result (body.new.items ≡ body.old.items ++ quoted (more_text query.now asof after)) }
{
    match after {
        Some(after) => {
            let link = link_text(alloc, query, asof as u64, after as u64)?;
            write(&Tree::Words(link), body)
        }
        None => {
            body.extend_from_slice(b"\"\"")?;
            Ok(())
        }
    }
}
