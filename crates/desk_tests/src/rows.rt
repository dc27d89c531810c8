// What requests are answered over one desk in a test, as a text of rows.
//
//   WHO METHOD TARGET BODY => STATUS BODY      a request, and its reply; `kept` behind it if an entry is kept
//   draw NAME SECRET                           what is drawn for the requests from here on
//   clock MILLISECONDS                         what the clock reads for them
//   sample                                     the rows that launch the sample unit and fetch its session's token
//
// WHO is `admin`, `nobody`, `operator`, or a token. The operator has no token: what the admin asks is asked as the operator
// then. Behind METHOD stands `:` and a media type if the body has another than JSON's. The body and the spaces in it go to
// the end. A line after `//` is none.
// `kept` stands behind a reply if there is one more entry, with their number if there are several. A document's own media
// type stands before its body. Any other body is JSON by its type: else there is a word for it.
//
// In rows `ID` and two digits stand for the id that ends with them, `ACTOR` for the sample learner's Agent, `LEARNER` for
// its text in launch addresses, `AGENT` and `OTHER` for it and another one as parameters, `BASE` for the store's address,
// `STATE` for the documents of the sample unit, `KEY` and `TOKEN` for the fetch key and the token of the sample session,
// `ZEROS` for all zeros of a key or a token with a small secret, `CMI5` for cmi5's category, `VERB/` and `ADL/` for what
// its verbs begin with. `FIRST` stands for the actor, the object and the context of what the sample session says, `SECOND`
// for those of session 30 in its registration; those of any other are put together of `ABOUT`, a unit's node, `UNDER`, a
// registration, `GIVEN`, the last letter of the publisher's id, `WITHIN` and a session. `INITIALIZED`, `COMPLETED`,
// `PASSED` and `TERMINATED` stand for a verb and its result, `VOIDS` and an id for a statement that voids that one.
// `ADDRESS`, a key, `WHOSE`, a registration, `WHICH` and the unit's activity make a launch address.
ghost use Rattle.lrs_record.specs.Entries.{IsLawfulCaller};

use lrs_http::{Method, Request};
use lrs_in_memory::MemDisk;
use lrs_json::{Items, Text};
use lrs_machine::{Body, Desk, Media, Reply, Submission, is_base, is_token};
use lrs_names::Draw;
use lrs_record::Caller;
use lrs_routes::{Asked, RouteRefused, Routes};
use std::alloc::Global;
use std::test::Fail;

const ADMIN: &str = "adminadmin";

const NOW: u64 = 1_700_000_000_000;

const SAMPLE: &str = r#"
draw 0 0
admin POST /desk/courses {"id":"http://c/1","title":{"en":"C"},"children":[{"kind":"block","id":"http://c/b","title":{"en":"B"},"children":[{"kind":"unit","id":"http://c/u","title":{"en":"U"},"url":"https://au.example/u","moveOn":"CompletedAndPassed","masteryScore":0.8}]}]} => 200 {"course":"http://c/1","edition":1} kept
draw 16 0
admin POST /desk/registrations {"course":"http://c/1","actor":ACTOR} => 200 {"registration":"ID10"} kept
draw 32 1
admin POST /desk/registrations/ID10/launches {"unit":"http://c/u"} => 200 {"session":"ID20","launchMethod":"AnyWindow","url":"ADDRESSKEYWHOSEID10WHICH0%2F2"} kept
draw 0 2
nobody POST /fetch/KEY => 200 {"auth-token":"TOKEN"} kept
"#;

// What stands for what, in this order.
const SHORT: [(&str, &str); 28] = [
    ("FIRST", r#"SAYING"ID20"}}"#),
    ("SECOND", r#"SAYING"ID30"}}"#),
    ("SAYING", r#"ABOUT2UNDER"ID10"GIVENuWITHIN"#),
    (
        "ABOUT",
        r#""actor":LEARNER,"object":{"id":"BASEactivities/0/"#,
    ),
    ("UNDER", r#""},"context":{"registration":"#),
    (
        "GIVEN",
        r#","contextActivities":{"grouping":[{"id":"http://c/"#,
    ),
    (
        "WITHIN",
        r#""}],"category":[{"id":"CMI5"},{"id":"https://w3id.org/xapi/cmi5/context/categories/moveon"}]},"extensions":{"https://w3id.org/xapi/cmi5/context/extensions/sessionid":"#,
    ),
    ("INITIALIZED", r#""verb":{"id":"VERB/initialized"}"#),
    (
        "COMPLETED",
        r#""verb":{"id":"VERB/completed"},"result":{"completion":true}"#,
    ),
    (
        "PASSED",
        r#""verb":{"id":"VERB/passed"},"result":{"success":true}"#,
    ),
    (
        "TERMINATED",
        r#""verb":{"id":"VERB/terminated"},"result":{"duration":"PT1S"}"#,
    ),
    (
        "VOIDS",
        r#"{"actor":{"mbox":"mailto:a@b"},"verb":{"id":"VERB/voided"},"object":{"objectType":"StatementRef","id":"#,
    ),
    (
        "ADDRESS",
        "https://au.example/u?endpoint=http%3A%2F%2F127.0.0.1%3A8080%2Fxapi%2F&fetch=http%3A%2F%2F127.0.0.1%3A8080%2Ffetch%2F",
    ),
    (
        "WHOSE",
        "&actor=%7B%22objectType%22%3A%22Agent%22%2C%22account%22%3A%7B%22homePage%22%3A%22https%3A%2F%2Fp.example%22%2C%22name%22%3A%22k1%22%7D%7D&registration=",
    ),
    (
        "WHICH",
        "&activityId=http%3A%2F%2F127.0.0.1%3A8080%2Factivities%2F",
    ),
    (
        "ACTOR",
        r#"{"account":{"homePage":"https://p.example","name":"k1"}}"#,
    ),
    (
        "LEARNER",
        r#"{"objectType":"Agent","account":{"homePage":"https://p.example","name":"k1"}}"#,
    ),
    (
        "AGENT",
        "%7B%22account%22:%7B%22homePage%22:%22https://p.example%22,%22name%22:%22k1%22%7D%7D",
    ),
    (
        "OTHER",
        "%7B%22account%22:%7B%22homePage%22:%22https://p.example%22,%22name%22:%22k2%22%7D%7D",
    ),
    (
        "STATE",
        "/xapi/activities/state?activityId=BASEactivities/0/2",
    ),
    ("BASE", "http://127.0.0.1:8080/"),
    ("KEY", "ZEROS1-3"),
    ("TOKEN", "ZEROS2-4"),
    ("ZEROS", "0000000000000000000000000000000"),
    ("CMI5", "https://w3id.org/xapi/cmi5/context/categories/cmi5"),
    ("VERB/", "http://adlnet.gov/expapi/verbs/"),
    ("ADL/", "https://w3id.org/xapi/adl/verbs/"),
    ("ID", "00000000-0000-4000-8000-0000000000"),
];

/// A new desk over a disk of which the calls with these numbers fail, and which takes so many bytes.
pub fn founded(alloc: Global, failing: Vec<u64>, written: u64) -> Result<Desk<MemDisk>, Fail> {
    let admin = Text::of(alloc, ADMIN)?;
    let base = Text::of(alloc, "http://127.0.0.1:8080/")?;
    if !is_token(&admin) {
        return Err(Fail::from("no token"));
    }
    if !is_base(alloc, &base)? {
        return Err(Fail::from("no base"));
    }
    let disk = MemDisk::new(alloc, Vec::new(alloc), failing, 19_999, written)?;
    match Desk::found(alloc, disk, 16_777_216, &admin, &base, NOW) {
        Ok(desk) => Ok(desk),
        Err(refused) => {
            drop(refused);
            Err(Fail::from("not founded"))
        }
    }
}

/// Fails with the first row that a new desk answers otherwise, and its answer.
pub fn check_rows(alloc: Global, rows: &str) -> Result<(), Fail> {
    let mut desk = founded(alloc, Vec::new(alloc), 9_999_999)?;
    let wrong = wrong_rows(alloc, &mut desk, rows);
    drop(desk);
    verdict(wrong)
}

/// The same, for rows with words of their own, each of which stands for a text.
pub fn check_rows_with(alloc: Global, words: &[(&str, &str)], rows: &str) -> Result<(), Fail> {
    let rows = spelled(alloc, rows, words)?;
    check_rows(alloc, rows.as_str())
}

/// The same, for rows that this desk is asked.
pub fn check_rows_of(alloc: Global, desk: &mut Desk<MemDisk>, rows: &str) -> Result<(), Fail> {
    verdict(wrong_rows(alloc, desk, rows))
}

/// The same, for rows over a new desk, and for later ones over what is opened from its disk.
pub fn check_reopened(alloc: Global, rows: &str, later: &str) -> Result<(), Fail> {
    let mut desk = founded(alloc, Vec::new(alloc), 9_999_999)?;
    let wrong = wrong_rows(alloc, &mut desk, rows);
    match desk.close() {
        Ok(disk) => verdict_behind(alloc, wrong, disk, later),
        Err((_, disk)) => {
            drop(disk);
            verdict(wrong)?;
            Err(Fail::from("not closed"))
        }
    }
}

/// The same, for rows with words of their own, each of which stands for a text.
pub fn check_reopened_with(
    alloc: Global,
    words: &[(&str, &str)],
    rows: &str,
    later: &str,
) -> Result<(), Fail> {
    let rows = spelled(alloc, rows, words)?;
    let later = spelled(alloc, later, words)?;
    check_reopened(alloc, rows.as_str(), later.as_str())
}

fn verdict_behind(
    alloc: Global,
    wrong: Result<String, Fail>,
    disk: MemDisk,
    rows: &str,
) -> Result<(), Fail> {
    match verdict(wrong) {
        Ok(()) => verdict(wrong_behind(alloc, disk, rows)),
        Err(fail) => {
            drop(disk);
            Err(fail)
        }
    }
}

fn reopened(alloc: Global, disk: MemDisk) -> Result<Desk<MemDisk>, Fail> {
    match Desk::recover(alloc, disk) {
        Ok(desk) => Ok(desk),
        Err((_, disk)) => {
            drop(disk);
            Err(Fail::from("not opened"))
        }
    }
}

// The first row that a desk over this disk answers otherwise.
fn wrong_behind(alloc: Global, disk: MemDisk, rows: &str) -> Result<String, Fail> {
    let mut desk = reopened(alloc, disk)?;
    let wrong = wrong_rows(alloc, &mut desk, rows);
    drop(desk);
    wrong
}

fn verdict(wrong: Result<String, Fail>) -> Result<(), Fail> {
    let wrong = wrong?;
    if wrong.is_empty() {
        Ok(())
    } else {
        Err(Fail::from(wrong))
    }
}

// The first row that this desk answers otherwise, and its answer, or no text.
fn wrong_rows(alloc: Global, desk: &mut Desk<MemDisk>, rows: &str) -> Result<String, Fail> {
    let rows = rows.replace(alloc, "\nsample\n", SAMPLE)?;
    let routes = Routes::new(alloc)?;
    let wrong = first_wrong(alloc, &routes, desk, rows.as_str());
    drop(routes);
    wrong
}

fn first_wrong(
    alloc: Global,
    routes: &Routes,
    desk: &mut Desk<MemDisk>,
    rows: &str,
) -> Result<String, Fail> {
    let mut draw = usual_draw();
    let mut now = NOW;
    for row in rows.lines() {
        if let Some(drawn) = row.strip_prefix("draw ") {
            draw = draw_of(drawn)?;
        } else if let Some(read) = row.strip_prefix("clock ") {
            now = clock_of(read)?;
        } else {
            let wrong = wrong_row(alloc, routes, desk, &draw, now, row)?;
            if !wrong.is_empty() {
                return Ok(wrong);
            }
        }
    }
    Ok(String::new(alloc))
}

/// What is drawn where no row says it.
pub fn usual_draw() -> Draw {
    Draw {
        name: 80,
        secret: 5,
    }
}

fn draw_of(text: &str) -> Result<Draw, Fail> {
    let (name, secret) = text.split_once(' ').ok_or("no draw")?;
    Ok(Draw {
        name: number(name)?,
        secret: number(secret)?,
    })
}

fn number(text: &str) -> Result<u128, Fail> {
    match text.parse::<u128>() {
        Ok(number) => Ok(number),
        Err(_) => Err(Fail::from("no number")),
    }
}

fn clock_of(text: &str) -> Result<u64, Fail> {
    match text.parse::<u64>() {
        Ok(moment) => Ok(moment),
        Err(_) => Err(Fail::from("no moment")),
    }
}

// What was asked and answered in this row, if something else was expected.
fn wrong_row(
    alloc: Global,
    routes: &Routes,
    desk: &mut Desk<MemDisk>,
    draw: &Draw,
    now: u64,
    row: &str,
) -> Result<String, Fail> {
    if row.is_empty() || row.starts_with("//") {
        return Ok(String::new(alloc));
    }
    let row = spelled(alloc, row, &SHORT)?;
    let (asked, expected) = row.as_str().split_once(" => ").ok_or("no answer")?;
    let found = answered(alloc, routes, desk, draw, now, asked)?;
    if found.as_str() == expected {
        Ok(String::new(alloc))
    } else {
        Ok(format!(in alloc; "{asked} => {found}")?)
    }
}

// The text with what each of these words stands for.
fn spelled(alloc: Global, text: &str, words: &[(&str, &str)]) -> Result<String, Fail> {
    let mut whole = String::from_str(alloc, text)?;
    for (short, long) in words {
        whole = whole.as_str().replace(alloc, *short, *long)?;
    }
    Ok(whole)
}

// A word, and what follows the space after it.
fn first_word(text: &str) -> (&str, &str) {
    text.split_once(' ').unwrap_or((text, ""))
}

/// The text with what its words stand for.
pub fn spelled_out(alloc: Global, text: &str) -> Result<String, Fail> {
    spelled(alloc, text, &SHORT)
}

/// What this desk answers to a row that has no reply and is spelled out, where this is drawn.
pub fn replied(
    alloc: Global,
    routes: &Routes,
    desk: &mut Desk<MemDisk>,
    draw: &Draw,
    asked: &str,
) -> Result<String, Fail> {
    answered(alloc, routes, desk, draw, NOW, asked)
}

// What a desk answers to a request, in short.
fn answered(
    alloc: Global,
    routes: &Routes,
    desk: &mut Desk<MemDisk>,
    draw: &Draw,
    now: u64,
    asked: &str,
) -> Result<String, Fail> {
    let before = desk.length();
    let (who, _) = first_word(asked);
    let request = request(alloc, asked)?;
    match routes.command_of(alloc, request) {
        Ok(Asked { caller, command }) => match Submission::of(alloc, command) {
            Ok(command) => {
                let caller = asking(who, caller);
                let (reply, _receipt) = desk.act(caller, command, now, draw);
                let text = reply_text(alloc, &reply, before, desk.length());
                drop(reply);
                text
            }
            Err(refused) => {
                drop(caller);
                Err(Fail::from(refused))
            }
        },
        Err(refused) => refused_text(alloc, refused),
    }
}

// Who asks: the caller of the request, but for the operator.
fn asking(who: &str, caller: Caller) -> Caller
    requires { IsLawfulCaller caller }
    ensures { IsLawfulCaller result }
{
    if who == "operator" {
        drop(caller);
        Caller::Operator
    } else {
        caller
    }
}

fn refused_text(alloc: Global, refused: RouteRefused) -> Result<String, Fail> {
    match refused {
        RouteRefused::NoRoute => Ok(String::from_str(alloc, "no route")?),
        RouteRefused::NoMethod { allow } => Ok(String::from_str(alloc, allow.text())?),
        RouteRefused::NoVersion => Ok(String::from_str(alloc, "no version")?),
        RouteRefused::Memory => Err(Fail::from("memory")),
    }
}

fn request(alloc: Global, asked: &str) -> Result<Request, Fail> {
    let (who, behind) = first_word(asked);
    let (method, behind) = first_word(behind);
    let (method, media) = method
        .split_once(':')
        .unwrap_or((method, "application/json"));
    let (target, body) = first_word(behind);
    let credential = credential(alloc, who)?;
    let body = Items::from_vec(body.as_bytes().to_vec(alloc)?);
    let version = Text::of(alloc, "1.0.3")?;
    let media = Text::of(alloc, media)?;
    let (path, query) = path_of(alloc, target)?;
    Ok(Request {
        method: method_of(method),
        path,
        query,
        version: Some(version),
        credential,
        media: Some(media),
        closes: false,
        body,
    })
}

fn path_of(alloc: Global, target: &str) -> Result<(Text, Option<Text>), Fail> {
    match target.split_once('?') {
        Some((path, query)) => Ok((Text::of(alloc, path)?, Some(Text::of(alloc, query)?))),
        None => Ok((Text::of(alloc, target)?, None)),
    }
}

fn credential(alloc: Global, who: &str) -> Result<Option<Text>, Fail> {
    let token = match who {
        "nobody" => return Ok(None),
        "admin" | "operator" => ADMIN,
        other => other,
    };
    let field = format!(in alloc; "Basic {token}")?;
    Ok(Some(Text::of(alloc, field.as_str())?))
}

fn method_of(name: &str) -> Method {
    match name {
        "GET" => Method::Get,
        "PUT" => Method::Put,
        "POST" => Method::Post,
        "DELETE" => Method::Delete,
        _ => Method::Other,
    }
}

// How many entries are kept, by the numbers of those before and after.
fn kept_text(alloc: Global, before: u64, after: u64) -> Result<String, Fail> {
    match after.checked_sub(before) {
        Some(0) => Ok(String::new(alloc)),
        Some(1) => Ok(String::from_str(alloc, "kept")?),
        Some(more) => Ok(format!(in alloc; "kept {more}")?),
        None => Ok(String::from_str(alloc, "lost")?),
    }
}

// A document's own media type, or what is wrong with that of another reply.
fn media_text<'a>(media: &'a Media, body: &str) -> &'a str {
    match media {
        Media::Own(media) => media.as_str(),
        Media::Json => { if body.is_empty() { "typed" } else { "" } }
        Media::Empty => { if body.is_empty() { "" } else { "untyped" } }
    }
}

fn reply_text(alloc: Global, reply: &Reply, before: u64, after: u64) -> Result<String, Fail> {
    let body = match &reply.body {
        Body::Made(body) => str::from_utf8(body.as_slice())?,
        Body::Disk => "disk",
        Body::Memory => "memory",
    };
    let kept = kept_text(alloc, before, after)?;
    let parts = [media_text(&reply.media, body), body, kept.as_str()];
    let mut text = reply.status.to_string(alloc)?;
    for part in parts {
        if !part.is_empty() {
            text.push(' ')?;
            text.push_str(part)?;
        }
    }
    Ok(text)
}
