// What requests ask, as a text of rows.
//
//   METHOD TARGET BODY => ASKED   a request, and what it asks in one word (`asking` has the words)
//   at TEXT                       what stands before the target of the requests from here on
//   version TEXT                  the version that they name, or `-` if they name none
//   credential TEXT, media TEXT   the same of these two fields
//
// The body and the spaces in it go to the arrow. A line after `//` is none. A `|` that ends a line is none of it: it
// shows that a space stands before it.
use crate::routes::asking::asked_text;
use lrs_http::{Method, Request};
use lrs_json::{Items, Text};
use lrs_routes::Routes;
use std::alloc::Global;
use std::test::Fail;

// What requests have in common.
#[derive(Clone, Copy)]
struct Common<'a> {
    at: &'a str,
    version: &'a str,
    credential: &'a str,
    media: &'a str,
}

const COMMON: Common<'static> = Common {
    at: "",
    version: "1.0.3",
    credential: "Basic token-1",
    media: "-",
};

/// Fails with the first row of which the request asks something else, and with what it asks.
pub(crate) fn check_rows(alloc: Global, rows: &str) -> Result<(), Fail> {
    let routes = Routes::new(alloc)?;
    let wrong = first_wrong(alloc, &routes, rows);
    drop(routes);
    let wrong = wrong?;
    if wrong.is_empty() {
        Ok(())
    } else {
        Err(Fail::from(wrong))
    }
}

// That row, or no text.
fn first_wrong(alloc: Global, routes: &Routes, rows: &str) -> Result<String, Fail> {
    let mut common = COMMON;
    for line in rows.lines() {
        let row = line.strip_suffix('|').unwrap_or(line);
        match common_behind(common, row) {
            Some(next) => common = next,
            None => {
                let wrong = wrong_row(alloc, routes, common, row)?;
                if !wrong.is_empty() {
                    return Ok(wrong);
                }
            }
        }
    }
    Ok(String::new(alloc))
}

// What requests have in common behind a row that says so.
fn common_behind<'a>(common: Common<'a>, row: &'a str) -> Option<Common<'a>> {
    let (name, text) = first_word(row);
    match name {
        "at" => Some(Common { at: text, ..common }),
        "version" => Some(Common {
            version: text,
            ..common
        }),
        "credential" => Some(Common {
            credential: text,
            ..common
        }),
        "media" => Some(Common {
            media: text,
            ..common
        }),
        _ => None,
    }
}

// What is sent in this row and what it asks, if something else was expected.
fn wrong_row(
    alloc: Global,
    routes: &Routes,
    common: Common<'_>,
    row: &str,
) -> Result<String, Fail> {
    if row.is_empty() || row.starts_with("//") {
        return Ok(String::new(alloc));
    }
    let (sent, expected) = row.split_once(" => ").ok_or("no arrow")?;
    let request = request(alloc, common, sent)?;
    let asked = asked_text(alloc, routes, request)?;
    let wrong = difference(alloc, sent, asked.as_str(), expected);
    drop(asked);
    wrong
}

fn difference(alloc: Global, sent: &str, asked: &str, expected: &str) -> Result<String, Fail> {
    if asked == expected {
        Ok(String::new(alloc))
    } else {
        Ok(format!(in alloc; "{sent} => {asked}")?)
    }
}

// A word, and what follows the space after it.
fn first_word(text: &str) -> (&str, &str) {
    text.split_once(' ').unwrap_or((text, ""))
}

fn request(alloc: Global, common: Common<'_>, sent: &str) -> Result<Request, Fail> {
    let (method, behind) = first_word(sent);
    let (target, body) = first_word(behind);
    let at = common.at;
    let target = format!(in alloc; "{at}{target}")?;
    let request = request_to(alloc, common, method, target.as_str(), body);
    drop(target);
    request
}

// A request for the whole target.
fn request_to(
    alloc: Global,
    common: Common<'_>,
    method: &str,
    target: &str,
    body: &str,
) -> Result<Request, Fail> {
    let body = Items::from_vec(Vec::from_slice(alloc, body.as_bytes())?);
    let (path, query) = path_of(alloc, target)?;
    let (version, credential, media) = fields_of(alloc, common)?;
    Ok(Request {
        method: method_of(method),
        path,
        query,
        version,
        credential,
        media,
        closes: false,
        body,
    })
}

fn path_of(alloc: Global, target: &str) -> Result<(Text, Option<Text>), Fail> {
    match target.split_once('?') {
        Some((path, query)) => Ok((Text::of(alloc, path)?, Some(Text::of(alloc, query)?))),
        None => Ok((Text::of(alloc, target)?, None)),
    }
}

fn fields_of(
    alloc: Global,
    common: Common<'_>,
) -> Result<(Option<Text>, Option<Text>, Option<Text>), Fail> {
    Ok((
        field_of(alloc, common.version)?,
        field_of(alloc, common.credential)?,
        field_of(alloc, common.media)?,
    ))
}

// A field's text, unless there is none.
fn field_of(alloc: Global, text: &str) -> Result<Option<Text>, Fail> {
    if text == "-" {
        Ok(None)
    } else {
        Ok(Some(Text::of(alloc, text)?))
    }
}

fn method_of(word: &str) -> Method {
    match word {
        "DELETE" => Method::Delete,
        "GET" => Method::Get,
        "POST" => Method::Post,
        "PUT" => Method::Put,
        _ => Method::Other,
    }
}
