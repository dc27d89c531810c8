// The texts that are shown: tokens, and the bodies of answers.
ghost use Rattle.std.specs.Prelude.{◌≡◌, ◌++◌, IfOk, OnOk, codes};
ghost use Rattle.lrs_json.specs.Written.{comma_if};
ghost use Rattle.lrs_names.specs.Ids.{id_text};
ghost use Rattle.lrs_record.specs.Entries.{word_text};
ghost use Rattle.lrs_replies.specs.Texts.{token_text, provider_body, ids_body, states_body, versions_body};
ghost use Rattle.lrs_replies.specs.Texts.{course_body, key_used_body, launch_body, opened_at, opened_in, opening_text, registration_body, session_closed_body, session_token_body, swept_body};

use cmi5_course::Method;
use lrs_json::appending::{put_comma, put_quoted};
use lrs_json::{Memory, Text, utf8_text};
use lrs_names::Id;
use lrs_record::put_word;
use std::alloc::Global;

/// The token, or the fetch key, that an entry gives away. The entry stands at that index and was
/// drawn with that secret.
pub fn token_text(alloc: Global, index: u64, secret: u128) -> Result<Text, Memory>
    ensures { IfOk result (λ token. token ≡ token_text index secret) }
{
    let digits = digits_of(secret);
    let digits = utf8_text(&digits);
    let text = format!(in alloc; "{digits}-{index}")?;
    Text::of(alloc, text.as_str())
}

// 32 hexadecimal digits.
fn digits_of(word: u128) -> [u8; 32]
    ensures { result ≡ word_text word }
{
    let mut digits = [0; 32];
    put_word(word, &mut digits);
    digits
}

/// The body that tells of a provider its index and its token.
pub fn provider_text(alloc: Global, index: usize, token: &Text) -> Result<Vec<u8>, Memory>
    ensures { IfOk result (λ body. body.items ≡ provider_body index token.now) }
{
    let index = index.to_string(alloc)?;
    let mut body = b"{\"caller\":".to_vec(alloc)?;
    body.extend_from_slice(index.as_bytes())?;
    body.extend_from_slice(b",\"token\":\"")?;
    body.extend_from_slice(token.as_bytes())?;
    body.extend_from_slice(b"\"}")?;
    Ok(body)
}

/// The body that tells of the versions of xAPI.
pub fn versions_text(alloc: Global) -> Result<Vec<u8>, Memory>
    ensures { IfOk result (λ body. body.items ≡ versions_body) }
{
    Ok(b"{\"version\":[\"1.0.3\"]}".to_vec(alloc)?)
}

/// The body that tells the ids of statements.
pub fn ids_text(alloc: Global, ids: &[Id]) -> Result<Vec<u8>, Memory>
    ensures { IfOk result (λ body. body.items ≡ ids_body ids.now) }
{
    let mut body = Vec::new(alloc);
    put_ids(ids, &mut body)?;
    Ok(body)
}

fn put_ids(ids: &[Id], body: &mut Vec<u8>) -> Result<(), Memory>
    ensures { OnOk result (body.new.items ≡ body.old.items ++ ids_body ids.now) }
{
    body.push(b'[')?;
    let mut later = false;
    for id in ids {
        put_id(body, later, id)?;
        later = true;
    }
    body.push(b']')?;
    Ok(())
}

// Puts an id after the text so far, as a string.
fn put_id(body: &mut Vec<u8>, later: bool, id: &Id) -> Result<(), Memory>
    ensures { OnOk result (body.new.items
        ≡ body.old.items ++ comma_if later ++ codes "\"" ++ id_text id.now ++ codes "\"") }
{
    put_comma(later, body)?;
    body.push(b'"')?;
    body.extend_from_slice(&id.text())?;
    body.push(b'"')?;
    Ok(())
}

/// The body that tells the state ids of documents.
pub fn states_text(alloc: Global, states: &[Text]) -> Result<Vec<u8>, Memory>
    ensures { IfOk result (λ body. body.items ≡ states_body states.now) }
{
    let mut body = b"[".to_vec(alloc)?;
    for (i, state) in states.iter().enumerate() {
        put_comma(i > 0, &mut body)?;
        put_quoted(state.as_str(), &mut body)?;
    }
    body.push(b']')?;
    Ok(body)
}

/// The body that tells the id of a course, an IRI, and the number of an edition of it.
pub fn course_text(alloc: Global, id: &Text, edition: u32) -> Result<Vec<u8>, Memory>
    ensures { IfOk result (λ body. body.items ≡ course_body id.now edition) }
{
    let edition = edition.to_string(alloc)?;
    let mut body = b"{\"course\":".to_vec(alloc)?;
    put_quoted(id.as_str(), &mut body)?;
    body.extend_from_slice(b",\"edition\":")?;
    body.extend_from_slice(edition.as_bytes())?;
    body.push(b'}')?;
    Ok(body)
}

/// The body that tells the id of a registration.
pub fn registration_text(alloc: Global, id: &Id) -> Result<Vec<u8>, Memory>
    ensures { IfOk result (λ body. body.items ≡ registration_body id.now) }
{
    let mut body = b"{\"registration\":\"".to_vec(alloc)?;
    body.extend_from_slice(&id.text())?;
    body.extend_from_slice(b"\"}")?;
    Ok(body)
}

/// The body that tells the sessions that a sweep abandoned.
pub fn swept_text(alloc: Global, sessions: &[Id]) -> Result<Vec<u8>, Memory>
    ensures { IfOk result (λ body. body.items ≡ swept_body sessions.now) }
{
    let mut body = b"{\"abandoned\":".to_vec(alloc)?;
    put_ids(sessions, &mut body)?;
    body.push(b'}')?;
    Ok(body)
}

/// The body that tells of a launch its session, how its unit wants to be shown, and the address to go to.
pub fn launch_text(
    alloc: Global,
    session: &Id,
    method: Method,
    url: &Text,
) -> Result<Vec<u8>, Memory>
    ensures { IfOk result (λ body. body.items ≡ launch_body session.now method url.now) }
{
    let mut body = b"{\"session\":\"".to_vec(alloc)?;
    body.extend_from_slice(&session.text())?;
    put_opening(method, url, &mut body)?;
    Ok(body)
}

// The rest of the object, behind the session's id.
fn put_opening(method: Method, url: &Text, body: &mut Vec<u8>) -> Result<(), Memory>
    ensures { OnOk result (body.new.items ≡ body.old.items ++ opening_text method url.now) }
{
    put_method(method, body)?;
    put_address(url, body)
}

fn put_method(method: Method, body: &mut Vec<u8>) -> Result<(), Memory>
    ensures { OnOk result (body.new.items ≡ body.old.items ++ opened_in method) }
{
    body.extend_from_slice(b"\",\"launchMethod\":\"")?;
    body.extend_from_slice(method.text().as_bytes())?;
    Ok(())
}

fn put_address(url: &Text, body: &mut Vec<u8>) -> Result<(), Memory>
    ensures { OnOk result (body.new.items ≡ body.old.items ++ opened_at url.now) }
{
    body.extend_from_slice(b"\",\"url\":")?;
    put_quoted(url.as_str(), body)?;
    body.push(b'}')?;
    Ok(())
}

/// The body that gives the token of a session away (cmi5 Quartz, section 8.2.2).
pub fn session_token_text(alloc: Global, token: &Text) -> Result<Vec<u8>, Memory>
    ensures { IfOk result (λ body. body.items ≡ session_token_body token.now) }
{
    let mut body = b"{\"auth-token\":\"".to_vec(alloc)?;
    body.extend_from_slice(token.as_bytes())?;
    body.extend_from_slice(b"\"}")?;
    Ok(body)
}

/// The body that tells that a fetch key was used (cmi5 Quartz, section 8.2.3).
pub fn key_used_text(alloc: Global) -> Result<Vec<u8>, Memory>
    ensures { IfOk result (λ body. body.items ≡ key_used_body) }
{
    Ok(b"{\"error-code\":\"1\",\"error-text\":\"The fetch key was used.\"}".to_vec(alloc)?)
}

/// The body that tells that the session of a fetch key is closed (cmi5 Quartz, section 8.2.3).
pub fn session_closed_text(alloc: Global) -> Result<Vec<u8>, Memory>
    ensures { IfOk result (λ body. body.items ≡ session_closed_body) }
{
    Ok(b"{\"error-code\":\"2\",\"error-text\":\"The session is closed.\"}".to_vec(alloc)?)
}
