//! The responses: those that take no act, and those that say a reply.
ghost use Rattle.std.specs.Prelude.{◌≡◌, [], List, ℕ, Result};
ghost use Rattle.lrs_http.specs.Links.{HasWriteCause};
ghost use Rattle.lrs_replies.specs.declared.answered.Answered.{Answered};
ghost use Rattle.lrs_replies.specs.declared.reply.Trouble.{Trouble};
ghost use Rattle.lrs_replies.specs.Replies.{Says, body_bytes};
ghost use Rattle.lrs_hall.specs.Responses.{FixedResponse as SpecResponse, fixed, fixed_text, media_text, IsThrough, IsReplyText, route_response, framing_response, form_error};
ghost use Rattle.lrs_hall.specs.Steps.{IsResponse, AreResponses, Wrote, IsSayable};

use lrs_disk::Link;
use lrs_http::{LinkFault, Reply2, RequestRefused, write_response};
use lrs_record::Moment;
use lrs_replies::{Body, Media, Reply};
use lrs_routes::RouteRefused;
use lrs_time::moment_text;

// A body that names this error. It takes no memory.
macro_rules! error_text {
    ($error:literal) => {
        concat!("{\"error\":\"", $error, "\"}")
    };
}

/// A response without an act.
#[derive(Clone, Copy, Debug)]
pub(crate) struct FixedResponse {
    pub(crate) status: u16,
    pub(crate) body: &'static str,
    pub(crate) allow: &'static str,
}

// A response that allows no methods.
fn plain(status: u16, body: &'static str) -> FixedResponse
    ensures status { result.status ≡ status }
    ensures body { result.body.now ≡ body.now }
    ensures allow { result.allow.now ≡ [] }
{
    FixedResponse {
        status,
        body,
        allow: "",
    }
}

/// The response to a request that the routes refuse.
pub(crate) fn route_response(refused: RouteRefused) -> FixedResponse
    ensures { IsResponse result (route_response refused) }
{
    match refused {
        RouteRefused::NoRoute => plain(404, error_text!("404")),
        RouteRefused::NoMethod { allow } => FixedResponse {
            status: 405,
            body: error_text!("405"),
            allow: allow.text(),
        },
        RouteRefused::NoVersion => plain(400, error_text!("V1")),
        RouteRefused::Memory => plain(503, error_text!("memory")),
    }
}

// The response to a malformed head or length.
fn form_response(rule: u8) -> FixedResponse
    ensures { IsResponse result (fixed 400 (form_error rule)) }
{
    if rule == 1 {
        plain(400, error_text!("F1"))
    } else {
        plain(400, error_text!("F2"))
    }
}

/// The response when no request could be read. The end of the input gets none.
pub(crate) fn framing_response(refused: RequestRefused) -> Option<FixedResponse>
    ensures { AreResponses result (framing_response refused) }
{
    match refused {
        RequestRefused::End | RequestRefused::Cut | RequestRefused::LinkFault => None,
        RequestRefused::Malformed { rule } => Some(form_response(rule)),
        RequestRefused::HeadTooLong => Some(plain(431, error_text!("431"))),
        RequestRefused::Coded => Some(plain(501, error_text!("501"))),
        RequestRefused::NoLength => Some(plain(411, error_text!("411"))),
        RequestRefused::BodyTooLong => Some(plain(413, error_text!("413"))),
        RequestRefused::Memory => Some(plain(503, error_text!("memory"))),
    }
}

/// Writes a response without an act.
pub(crate) fn write_fixed<L: Link>(
    link: &mut L,
    response: &FixedResponse,
    closes: bool,
) -> Result<(), LinkFault>
    requires { IsSayable response.now.status response.now.allow.now }
    ensures wrote { (f : SpecResponse) → IsResponse response.now f
        → Wrote (fixed_text f closes) result (L.taken link.old)
        (L.taken link.new) }
    ensures left_kept { L.left link.new ≡ L.left link.old }
    ensures stream_kept { L.stream link.new ≡ L.stream link.old }
    ensures name_kept { L.name link.new ≡ L.name link.old }
    ensures cause { HasWriteCause (L.fault_count link.old) (L.fault_count link.new) result }
{
    let reply = Reply2 {
        status: response.status,
        media: "application/json",
        body: response.body.as_bytes(),
        through: None,
        allow: response.allow,
    };
    write_response(link, &reply, closes)
}

fn media_text(media: &Media) -> &str
    ensures { result.now ≡ media_text media.now }
{
    match media {
        Media::Json => "application/json",
        Media::Own(text) => text.as_str(),
        Media::Empty => "",
    }
}

fn body_bytes(body: &Body) -> &[u8]
    ensures { result.now ≡ body_bytes body.now }
{
    match body {
        Body::Made(bytes) => bytes.as_slice(),
        Body::Disk => error_text!("disk").as_bytes(),
        Body::Memory => error_text!("memory").as_bytes(),
    }
}

fn through_text(through: Option<Moment>) -> Option<[u8; 24]>
    ensures { IsThrough through result }
{
    match through {
        Some(moment) => Some(moment_text(moment)),
        None => None,
    }
}

/// Writes a reply of the desk.
pub(crate) fn write_reply<L: Link>(
    link: &mut L,
    reply: &Reply,
    closes: bool,
) -> Result<(), LinkFault>
    requires { (said : Result Answered Trouble) × Says said reply.now }
    ensures wrote { (text : List ℕ) × IsReplyText reply.now closes text
        × Wrote text result (L.taken link.old) (L.taken link.new) }
    ensures left_kept { L.left link.new ≡ L.left link.old }
    ensures stream_kept { L.stream link.new ≡ L.stream link.old }
    ensures name_kept { L.name link.new ≡ L.name link.old }
    ensures cause { HasWriteCause (L.fault_count link.old) (L.fault_count link.new) result }
{
    let reply = Reply2 {
        status: reply.status,
        media: media_text(&reply.media),
        body: body_bytes(&reply.body),
        through: through_text(reply.through),
        allow: "",
    };
    write_response(link, &reply, closes)
}
