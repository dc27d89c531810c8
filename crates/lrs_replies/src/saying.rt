// The replies that say what the store says.
ghost use Rattle.std.specs.Prelude.{◌≡◌, ◌++◌, [], codes, IfOk, Ok, Err};
ghost use Rattle.std.specs.Fmt.{decimal};
ghost use Rattle.lrs_names.specs.Ids.{id_text};
ghost use Rattle.lrs_rules.specs.Rules.{rule_text};
ghost use Rattle.lrs_replies.specs.Replies.{Says, IsReplyTo, status_of, status_in, refusal_status, refusal_body, error_body};

use crate::{Answered, Body, Media, Refusal, Reply, Trouble};
use lrs_json::{Items, Memory};
use lrs_names::Id;
use lrs_rules::Rule;
use std::alloc::Global;

impl Answered {
    /// The status of the reply.
    pub fn status(&self) -> u16
        ensures { result ≡ status_of self.now }
    {
        match self {
            Answered::Kept | Answered::Same => 204,
            Answered::Shown {
                text: _,
                through: _,
            } => 200,
            Answered::Document { media: _, bytes: _ } => 200,
            Answered::Refused(refusal) => refusal.status(),
        }
    }
}

impl Refusal {
    /// The status of the reply.
    pub fn status(&self) -> u16
        ensures { result ≡ refusal_status self.now }
    {
        match self {
            Refusal::Conflict(_) => 409,
            Refusal::Full { need: _, limit: _ } => 507,
            Refusal::Broken(_) => 400,
            Refusal::TooLong => 413,
            Refusal::Unauthorized => 401,
            Refusal::Forbidden(_) => 403,
            Refusal::NotFound => 404,
        }
    }

    fn body(&self, alloc: Global) -> Result<Vec<u8>, Memory>
        ensures { IfOk result (λ body. body.items ≡ refusal_body self.now) }
    {
        match self {
            Refusal::Conflict(id) => conflict_body(alloc, id),
            Refusal::Full { need, limit } => full_body(alloc, *need, *limit),
            Refusal::Broken(rule) => rule_body(alloc, *rule),
            Refusal::TooLong => error_body(alloc, b"413", &[]),
            Refusal::Unauthorized => rule_body(alloc, Rule::A(1)),
            Refusal::Forbidden(rule) => rule_body(alloc, *rule),
            Refusal::NotFound => error_body(alloc, b"404", &[]),
        }
    }
}

fn error_body(alloc: Global, error: &[u8], more: &[u8]) -> Result<Vec<u8>, Memory>
    ensures { IfOk result (λ body. body.items ≡ error_body error.now more.now) }
{
    let mut body = b"{\"error\":\"".to_vec(alloc)?;
    body.extend_from_slice(error)?;
    body.extend_from_slice(b"\"")?;
    body.extend_from_slice(more)?;
    body.extend_from_slice(b"}")?;
    Ok(body)
}

fn conflict_body(alloc: Global, id: &Id) -> Result<Vec<u8>, Memory>
    ensures { IfOk result (λ body. body.items
        ≡ error_body (codes "409") (codes ",\"id\":\"" ++ id_text id.now ++ codes "\"")) }
{
    let mut more = b",\"id\":\"".to_vec(alloc)?;
    more.extend_from_slice(&id.text())?;
    more.extend_from_slice(b"\"")?;
    error_body(alloc, b"409", &more)
}

fn full_body(alloc: Global, need: u64, limit: u64) -> Result<Vec<u8>, Memory>
    ensures { IfOk result (λ body. body.items
        ≡ error_body (codes "507") (codes ",\"need\":" ++ decimal need ++ codes ",\"limit\":" ++ decimal limit)) }
{
    let need = need.to_string(alloc)?;
    let limit = limit.to_string(alloc)?;
    let mut more = b",\"need\":".to_vec(alloc)?;
    more.extend_from_slice(need.as_bytes())?;
    more.extend_from_slice(b",\"limit\":")?;
    more.extend_from_slice(limit.as_bytes())?;
    error_body(alloc, b"507", &more)
}

fn rule_body(alloc: Global, rule: Rule) -> Result<Vec<u8>, Memory>
    ensures { IfOk result (λ body. body.items ≡ error_body (rule_text rule) []) }
{
    let name = rule.text(alloc)?;
    error_body(alloc, &name, &[])
}

impl Reply {
    // The reply that says why a command is refused.
    fn refusing(alloc: Global, refusal: Refusal) -> Result<Reply, Memory>
        ensures { IfOk result (Says (Ok (Answered.Refused refusal))) }
    {
        Ok(Reply {
            status: refusal.status(),
            media: Media::Json,
            body: Body::Made(Items::from_vec(refusal.body(alloc)?)),
            through: None,
        })
    }

    // The reply with no body, which takes no memory.
    fn without_body(alloc: Global) -> Reply
        ensures kept { Says (Ok Answered.Kept) result }
        ensures same { Says (Ok Answered.Same) result }
    {
        Reply {
            status: 204,
            media: Media::Empty,
            body: Body::Made(Items::new(alloc)),
            through: None,
        }
    }

    // The reply that the store can't say anything.
    fn troubled(trouble: Trouble) -> Reply
        ensures { Says (Err trouble) result }
    {
        let body = match trouble {
            Trouble::Memory => Body::Memory,
            Trouble::Disk => Body::Disk,
        };
        Reply {
            status: 503,
            media: Media::Json,
            body,
            through: None,
        }
    }
}

/// The status of the reply.
pub fn status_in(said: &Result<Answered, Trouble>) -> u16
    ensures { result ≡ status_in said.now }
{
    match said {
        Ok(said) => said.status(),
        Err(_) => 503,
    }
}

/// The reply that says this. Only a refusal takes memory for its body; if there is none, the reply says so.
pub fn reply_to(alloc: Global, said: Result<Answered, Trouble>) -> Reply
    ensures { IsReplyTo said result }
{
    match said {
        Ok(Answered::Kept | Answered::Same) => Reply::without_body(alloc),
        Ok(Answered::Shown { text, through }) => Reply {
            status: 200,
            media: Media::Json,
            body: Body::Made(text),
            through,
        },
        Ok(Answered::Document { media, bytes }) => Reply {
            status: 200,
            media: Media::Own(media),
            body: Body::Made(bytes),
            through: None,
        },
        Ok(Answered::Refused(refusal)) => match Reply::refusing(alloc, refusal) {
            Ok(reply) => reply,
            Err(_) => Reply::troubled(Trouble::Memory),
        },
        Err(trouble) => Reply::troubled(trouble),
    }
}
