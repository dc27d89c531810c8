use crate::failing::{none_wrong, wrong_row};
use crate::query::found_pairs;
use lrs_json::Text;
use lrs_json_reader::read;
use lrs_names::Id;
use lrs_time::Moment;
use std::alloc::Global;
use std::test::Fail;
use xapi_parameters::{Pair, QueryRefused, no_parameters, pairs, put_id, read_link, read_wanted};
use xapi_query::{MoreLink, Query, Sight, Wanted, in_time, sees};
use xapi_statement::{Authority, HeldStatement, Statement, StoredStatement};

// The number of the rule by which something was refused; 0 if memory ran out.
fn broken_by<T>(found: &Result<T, QueryRefused>) -> Option<u8> {
    match found {
        Ok(_) => None,
        Err(refused) => Some(number_of(*refused)),
    }
}

fn number_of(refused: QueryRefused) -> u8 {
    match refused {
        QueryRefused::BadParameter { number } => number,
        QueryRefused::BadLink => 14,
        QueryRefused::Memory => 0,
    }
}

// ---- pairs

const FORMS: [(&str, &[(&str, &str)]); 7] = [
    ("", &[]),
    ("&&", &[]),
    ("=", &[("", "")]),
    ("a", &[("a", "")]),
    ("a=1&b=2&a=3", &[("a", "1"), ("b", "2"), ("a", "3")]),
    ("a+b=c%20d=%2B", &[("a b", "c d=+")]),
    ("%61=%C3%A9%2", &[("a", "é%2")]),
];

const NO_TEXTS: [&str; 3] = ["%FF=1", "a=%c3", "a=1&b=%ED%A0%80"];

fn are_pairs(found: &[Pair], expected: &[(&str, &str)]) -> bool {
    if found.len() != expected.len() {
        return false;
    }
    for (pair, (name, value)) in found.iter().zip(expected) {
        if pair.name.as_str() != *name || pair.value.as_str() != *value {
            return false;
        }
    }
    true
}

#[test]
fn reads_pairs_as_a_form(rt: HostRuntime) -> Result<(), Fail> {
    let alloc = rt.alloc();
    for (i, (query, expected)) in FORMS.iter().enumerate() {
        let found = found_pairs(alloc, query)?;
        if !are_pairs(found.as_slice(), expected) {
            return wrong_row(i);
        }
    }
    Ok(())
}

#[test]
fn refuses_pairs_that_are_no_texts(rt: HostRuntime) -> Result<(), Fail> {
    let alloc = rt.alloc();
    for (i, query) in NO_TEXTS.iter().enumerate() {
        let query = Text::of(alloc, query)?;
        if broken_by(&pairs(alloc, &query)) != Some(1) {
            return wrong_row(i);
        }
    }
    Ok(())
}

// ---- one statement

// What follows `statementId=` and an id, and the least rule that is broken then.
const GETS: [(&str, Option<u8>); 17] = [
    ("", None),
    ("&format=exact&attachments=false", None),
    ("&stateId=a&statementId=1", Some(2)),
    ("&statementId=11111111-1111-4111-8111-111111111111", Some(3)),
    ("&registration=1&agent=x", Some(5)),
    ("&agent=x&verb=x", Some(6)),
    (
        "&agent=%7B%22objectType%22:%22Group%22,%22member%22:%5B%5D%7D",
        Some(6),
    ),
    ("&agent=%7B%22mbox%22:%22mailto:a@b%22%7D", Some(13)),
    ("&verb=x&ascending=yes", Some(7)),
    ("&related_agents=1&since=now", Some(8)),
    ("&until=2023-02-30T00:00:00Z&limit=", Some(9)),
    ("&since=2023-11-14T22:13:20Z&limit=1234567890", Some(10)),
    ("&limit=5&format=canonical", Some(11)),
    ("&format=ids", None),
    ("&limit=5&format=ids", Some(13)),
    ("&attachments=true", Some(12)),
    (
        "&voidedStatementId=11111111-1111-4111-8111-111111111111",
        Some(13),
    ),
];

// What follows `voidedStatementId=` and an id, and the least rule that is broken then.
const GETS_OF_VOIDED: [(&str, Option<u8>); 6] = [
    ("", None),
    ("&format=exact&attachments=false", None),
    ("&voidedStatementId=1", Some(3)),
    ("&registration=1", Some(5)),
    ("&limit=5", Some(13)),
    (
        "&statementId=11111111-1111-4111-8111-111111111111",
        Some(13),
    ),
];

const WANTED: [u8; 36] = *b"aaaaaaaa-1111-4111-8111-111111111111";

fn is_answered(found: &Result<Wanted, QueryRefused>, number: Option<u8>, voided: bool) -> bool {
    match found {
        Ok(Wanted::One(id, _)) => number.is_none() && !voided && id.text() == WANTED,
        Ok(Wanted::Voided(id, _)) => number.is_none() && voided && id.text() == WANTED,
        Ok(Wanted::Many(_)) => false,
        Err(refused) => number == Some(number_of(*refused)),
    }
}

fn is_got(alloc: Global, pairs: &[Pair], number: Option<u8>, voided: bool) -> bool {
    let found = read_wanted(alloc, pairs);
    let answered = is_answered(&found, number, voided);
    drop(found);
    answered
}

fn check_gets(
    alloc: Global,
    name: &str,
    rows: &[(&str, Option<u8>)],
    voided: bool,
) -> Result<(), Fail> {
    for (i, (more, number)) in rows.iter().enumerate() {
        let query = format!(in alloc; "{name}=AAAAAAAA-1111-4111-8111-111111111111{more}")?;
        let found = found_pairs(alloc, query.as_str())?;
        if !is_got(alloc, found.as_slice(), *number, voided) {
            return wrong_row(i);
        }
    }
    Ok(())
}

#[test]
fn reads_what_a_get_wants(rt: HostRuntime) -> Result<(), Fail> {
    check_gets(rt.alloc(), "statementId", &GETS, false)
}

#[test]
fn reads_what_a_get_of_a_voided_statement_wants(rt: HostRuntime) -> Result<(), Fail> {
    check_gets(rt.alloc(), "voidedStatementId", &GETS_OF_VOIDED, true)
}

const PUTS: [(&str, Option<u8>); 5] = [
    ("statementId=11111111-1111-4111-8111-111111111111", None),
    ("", Some(4)),
    ("statementId=1", Some(5)),
    ("statementId=1&statementId=1", Some(3)),
    ("statementId=1&format=exact", Some(2)),
];

fn is_put(pairs: &[Pair], number: Option<u8>) -> bool {
    match put_id(pairs) {
        Ok(id) => number.is_none() && id.text() == *b"11111111-1111-4111-8111-111111111111",
        Err(refused) => number == Some(number_of(refused)),
    }
}

#[test]
fn reads_the_parameters_of_writes(rt: HostRuntime) -> Result<(), Fail> {
    let alloc = rt.alloc();
    for (i, (query, number)) in PUTS.iter().enumerate() {
        let found = found_pairs(alloc, query)?;
        let none = no_parameters(found.as_slice()).is_ok();
        if !is_put(found.as_slice(), *number) || none != query.is_empty() {
            return wrong_row(i);
        }
    }
    Ok(())
}

// ---- lists and links

// What a list is asked for with, the least rule that is broken, and what the link after the ninth of ten statements is.
const LISTS: [(&str, Option<u8>, &str); 31] = [
    ("", None, ""),
    (
        "attachments=false&format=exact&limit=100&ascending=false",
        None,
        "",
    ),
    ("limit=0", None, ""),
    ("limit=101", None, ""),
    ("limit=999999999", None, ""),
    ("limit=1", None, "&limit=1"),
    ("limit=000000099", None, "&limit=99"),
    ("limit=0000000099", Some(10), ""),
    ("limit=-1", Some(10), ""),
    ("limit=", Some(10), ""),
    (
        "verb=http://v/6&limit=2",
        None,
        "&verb=http%3A%2F%2Fv%2F6&limit=2",
    ),
    ("verb=http:", Some(7), ""),
    ("activity=a", Some(7), ""),
    (
        "format=ids&ascending=true&until=2023-11-14T22:13:20Z&since=2001-01-01T00:00:00%2B01&related_agents=true&related_activities=true&registration=AAAAAAAA-1111-4111-8111-111111111111&activity=http://a/1&verb=http://v/1&agent=%7B%22mbox%22:%22mailto:a@b%22%7D",
        None,
        "&agent=%7B%22mbox%22%3A%22mailto%3Aa%40b%22%7D&verb=http%3A%2F%2Fv%2F1&activity=http%3A%2F%2Fa%2F1&registration=aaaaaaaa-1111-4111-8111-111111111111&related_activities=true&related_agents=true&since=2001-01-01T00%3A00%3A00%2B01&until=2023-11-14T22%3A13%3A20Z&ascending=true&format=ids",
    ),
    ("related_agents=false&related_activities=false", None, ""),
    ("related_agents=True", Some(8), ""),
    ("related_activities=", Some(8), ""),
    ("ascending=1", Some(8), ""),
    ("since=2023-02-29T00:00:00Z", Some(9), ""),
    ("until=2023-11-14", Some(9), ""),
    ("registration=1", Some(5), ""),
    ("agent=%7B%22mbox%22:%22mailto:a@b%22", Some(6), ""),
    ("agent=5", Some(6), ""),
    ("agent=%7B%22name%22:%22n%22%7D", Some(6), ""),
    (
        "agent=%7B%22objectType%22:%22Group%22,%22mbox%22:%22mailto:a@b%22%7D",
        None,
        "&agent=%7B%22objectType%22%3A%22Group%22%2C%22mbox%22%3A%22mailto%3Aa%40b%22%7D",
    ),
    ("format=canonical", Some(11), ""),
    ("attachments=true", Some(12), ""),
    ("attachments=yes", Some(12), ""),
    ("asof=10", Some(2), ""),
    ("verb=http://v/6&verb=http://v/6", Some(3), ""),
    ("verb=http://v/%C3%A9+", Some(7), ""),
];

// The text of a link.
fn text_of(alloc: Global, link: &MoreLink) -> Result<Text, Fail> {
    let mut text = Vec::new(alloc);
    link.write(&mut text)?;
    Ok(Text::of(alloc, str::from_utf8(text.as_slice())?)?)
}

// The link of a text.
fn read_back(alloc: Global, text: &str) -> Result<MoreLink, Fail> {
    let (_path, behind) = text.split_once('?').ok_or("no query")?;
    Ok(read_link(alloc, found_pairs(alloc, behind)?.as_slice())?)
}

// Whether a link that was read back is that of the ninth of ten statements, and is written as before.
fn is_again(alloc: Global, query: &Query, again: &MoreLink, text: &str) -> Result<bool, Fail> {
    let same = again.asof == 10 && again.after == 8 && again.query.page == query.page;
    Ok(same && text_of(alloc, again)?.as_str() == text)
}

fn is_read_back(alloc: Global, query: &Query, text: &str) -> Result<bool, Fail> {
    let again = read_back(alloc, text)?;
    let same = is_again(alloc, query, &again, text);
    drop(again);
    same
}

fn is_text_of(alloc: Global, link: &MoreLink, behind: &str) -> Result<bool, Fail> {
    let text = text_of(alloc, link)?;
    let expected = format!(in alloc; "/xapi/statements/more?asof=10&after=8{behind}")?;
    Ok(text.as_str() == expected.as_str() && is_read_back(alloc, &link.query, text.as_str())?)
}

// Whether that is the link after the ninth of ten statements, and is read as itself.
fn is_linked(alloc: Global, query: Query, number: Option<u8>, behind: &str) -> Result<bool, Fail> {
    let link = MoreLink {
        query,
        asof: 10,
        after: 8,
    };
    let linked = is_text_of(alloc, &link, behind);
    drop(link);
    Ok(linked? && number.is_none())
}

fn is_listed(
    alloc: Global,
    pairs: &[Pair],
    number: Option<u8>,
    behind: &str,
) -> Result<bool, Fail> {
    match read_wanted(alloc, pairs) {
        Ok(Wanted::Many(query)) => is_linked(alloc, query, number, behind),
        Ok(Wanted::One(_, _) | Wanted::Voided(_, _)) => Ok(false),
        Err(refused) => Ok(number == Some(number_of(refused))),
    }
}

#[test]
fn lists_are_asked_for_and_linked(rt: HostRuntime) -> Result<(), Fail> {
    let alloc = rt.alloc();
    for (i, (query, number, behind)) in LISTS.iter().enumerate() {
        let found = found_pairs(alloc, query)?;
        if !is_listed(alloc, found.as_slice(), *number, behind)? {
            return wrong_row(i);
        }
    }
    Ok(())
}

const LINKS: [(&str, Option<u8>); 19] = [
    ("asof=1&after=0", None),
    ("after=0&asof=1&limit=0&related_agents=false", None),
    ("asof=999999999999999999&after=000000000000000001", None),
    ("asof=1000000000000000000&after=1", Some(14)),
    ("asof=10&after=0000000000000000001", Some(14)),
    ("asof=10&after=10", Some(14)),
    ("asof=0&after=0", Some(14)),
    ("asof=10", Some(14)),
    ("after=1", Some(14)),
    ("asof=&after=", Some(14)),
    ("asof=+2&after=1", Some(14)),
    ("asof=2&after=-1", Some(14)),
    ("", Some(14)),
    ("asof=x&format=no", Some(11)),
    ("asof=2&after=1&limit=x", Some(10)),
    ("asof=2&after=1&registration=x", Some(5)),
    ("asof=2&after=1&asof=2", Some(3)),
    ("asof=2&after=1&attachments=false", Some(2)),
    (
        "asof=2&after=1&statementId=11111111-1111-4111-8111-111111111111",
        Some(2),
    ),
];

fn link_broken_by(alloc: Global, pairs: &[Pair]) -> Option<u8> {
    let found = read_link(alloc, pairs);
    let number = broken_by(&found);
    drop(found);
    number
}

#[test]
fn links_are_held_against_their_form(rt: HostRuntime) -> Result<(), Fail> {
    let alloc = rt.alloc();
    for (i, (query, number)) in LINKS.iter().enumerate() {
        let found = found_pairs(alloc, query)?;
        if link_broken_by(alloc, found.as_slice()) != *number {
            return wrong_row(i);
        }
    }
    Ok(())
}

// ---- times and sight

const DID: &str =
    r#"{"actor":{"mbox":"mailto:a@b"},"verb":{"id":"http://v/1"},"object":{"id":"http://a/1"},"context":{"registration":"AAAAAAAA-1111-4111-8111-111111111111","instructor":{"mbox":"mailto:i@j"},"contextActivities":{"parent":{"id":"http://p/1"}}}}"#;

const REFERS: &str =
    r#"{"actor":{"mbox":"mailto:c@d"},"verb":{"id":"http://v/2"},"object":{"objectType":"StatementRef","id":"11111111-1111-4111-8111-111111111111"}}"#;

// Whether what was stored at 2023-11-14T22:13:20Z is within the times.
const TIMES: [(&str, bool); 8] = [
    ("since=2023-11-14T22:13:20Z", false),
    ("since=2023-11-14T22:13:19.999999999Z", true),
    ("since=2023-11-15T00:13:20%2B02", false),
    ("until=2023-11-14T22:13:20Z", true),
    ("until=2023-11-14T22:13:19.999999999Z", false),
    ("until=0000-01-01T00:00:00Z", false),
    (
        "since=0000-01-01T00:00:00Z&until=9999-12-31T23:59:59Z",
        true,
    ),
    (
        "since=2023-11-14T22:13:20Z&until=9999-12-31T23:59:59Z",
        false,
    ),
];

fn kept(alloc: Global, text: &str, by: Authority) -> Result<StoredStatement, Fail> {
    let id = Id::read(b"11111111-1111-4111-8111-111111111111").ok_or("no id")?;
    let statement = Statement::read(alloc, read(alloc, text.as_bytes())?)?;
    Ok(statement.complete(id, Moment::clamp(1_700_000_000_000), by))
}

fn held(alloc: Global, text: &str, by: Authority) -> Result<HeldStatement, Fail> {
    let kept = kept(alloc, text, by)?;
    let held = HeldStatement::of(alloc, &kept);
    drop(kept);
    Ok(held?)
}

fn asked(alloc: Global, query: &str) -> Result<Query, Fail> {
    let found = found_pairs(alloc, query)?;
    match read_wanted(alloc, found.as_slice()) {
        Ok(Wanted::Many(query)) => Ok(query),
        Ok(Wanted::One(_, _) | Wanted::Voided(_, _)) => Err(Fail::from("no list")),
        Err(_) => Err(Fail::from("refused")),
    }
}

fn first_wrong_time(alloc: Global, did: &HeldStatement) -> Result<Option<usize>, Fail> {
    for (i, (query, within)) in TIMES.iter().enumerate() {
        let query = asked(alloc, query)?;
        let right = in_time(&query, did) == *within;
        drop(query);
        if !right {
            return Ok(Some(i));
        }
    }
    Ok(None)
}

#[test]
fn times_are_held_at_their_edges(rt: HostRuntime) -> Result<(), Fail> {
    let alloc = rt.alloc();
    let did = held(alloc, DID, Authority::Admin)?;
    let wrong = first_wrong_time(alloc, &did);
    drop(did);
    none_wrong(wrong?)
}

// The index of the first sight that doesn't see the first or the second as it should. What a session sees hangs on the
// registration alone, and not on who sent a statement.
fn first_wrong_sight(first: &HeldStatement, second: &HeldStatement) -> Result<Option<usize>, Fail> {
    let named = Id::read(b"aaaaaaaa-1111-4111-8111-111111111111").ok_or("no id")?;
    let other = Id::read(b"11111111-1111-4111-8111-111111111111").ok_or("no id")?;
    let rows = [
        (Sight::Nothing, false, false),
        (Sight::All, true, true),
        (Sight::Provider(3), true, false),
        (Sight::Provider(0), false, false),
        (Sight::Registration(named), true, false),
        (Sight::Registration(other), false, false),
    ];
    for (i, (sight, one, other)) in rows.iter().enumerate() {
        if sees(sight, first) != *one || sees(sight, second) != *other {
            return Ok(Some(i));
        }
    }
    Ok(None)
}

fn first_wrong_sight_of(alloc: Global, first: &HeldStatement) -> Result<Option<usize>, Fail> {
    let session = Id::read(b"bbbbbbbb-1111-4111-8111-111111111111").ok_or("no id")?;
    let own = held(alloc, REFERS, Authority::Session(session))?;
    let wrong = first_wrong_sight(first, &own);
    drop(own);
    wrong
}

#[test]
fn a_sight_sees_what_is_its_own(rt: HostRuntime) -> Result<(), Fail> {
    let alloc = rt.alloc();
    let name = Text::of(alloc, "p")?;
    let given = held(alloc, DID, Authority::Provider { number: 3, name })?;
    let wrong = first_wrong_sight_of(alloc, &given);
    drop(given);
    none_wrong(wrong?)
}
