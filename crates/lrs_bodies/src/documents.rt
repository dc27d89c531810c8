// The bodies that are documents.
ghost use Rattle.std.specs.Prelude.{◌≡◌, IfOk};
ghost use Rattle.lrs_bodies.specs.Bodies.{BodyBreaks, IsInBody, document_body};
ghost use Rattle.lrs_bodies.specs.Looks.{FindsForm};

use crate::body_value::BodyValue;
use crate::form_refused::FormRefused;
use crate::media::media_of;
use lrs_http::Request;
use lrs_json::{Items, Memory};
use std::alloc::Global;

/// The body as a document: its bytes, with their media type.
pub fn read_document(alloc: Global, request: &Request) -> Result<BodyValue, FormRefused>
    ensures { FindsForm (BodyBreaks document_body request.now) (IsInBody document_body request.now) result }
{
    let media = media_of(alloc, &request.media)?;
    let bytes = copied(alloc, request.body.as_slice())?;
    Ok(BodyValue::Document { media, bytes })
}

fn copied(alloc: Global, bytes: &[u8]) -> Result<Items<u8>, Memory>
    ensures { IfOk result (λ copy. copy ≡ bytes.now) }
{
    Ok(Items::from_vec(bytes.to_vec(alloc)?))
}
