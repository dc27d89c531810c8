// A body as JSON.
ghost use Rattle.lrs_bodies.specs.Looks.{FindsForm, IsTreeOf, OnlySpelled};

use crate::form_refused::FormRefused;
use lrs_http::Request;
use lrs_json::Tree;
use lrs_json_reader::read;
use std::alloc::Global;

/// The body as JSON.
pub(crate) fn body_tree(alloc: Global, request: &Request) -> Result<Tree, FormRefused>
    ensures { FindsForm (OnlySpelled request.now.body) (IsTreeOf request.now.body) result }
{
    tree(alloc, request.body.as_slice())
}

fn tree(alloc: Global, bytes: &[u8]) -> Result<Tree, FormRefused>
    ensures { FindsForm (OnlySpelled bytes.now) (IsTreeOf bytes.now) result }
{
    match read(alloc, bytes) {
        Ok(tree) => Ok(tree),
        Err(refused) => Err(FormRefused::from(refused)),
    }
}
