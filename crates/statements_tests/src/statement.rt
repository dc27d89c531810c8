// The tests of xapi_statement and xapi_properties.
use crate::failing::{first_wrong, none_wrong, wrong_row};
use lrs_agents::Ifi;
use lrs_decimal::Decimal;
use lrs_json::{Text, Tree, write};
use lrs_json_reader::read;
use lrs_names::Id;
use lrs_time::Moment;
use std::alloc::Global;
use std::cmp::Ordering;
use std::test::Fail;
use xapi_statement::{
    Authority, Format, HeldStatement, Statement, StatementRefused, StoredStatement,
};

// One with all parts, one with a SubStatement, one that voids, and one about an Agent.
const WHOLE: &str =
    "{\"id\":\"6690E6C9-3ef0-4ed3-8b37-7f3964730bee\",\"actor\":{\"objectType\":\"Group\",\"name\":\"Team PB\",\"mbox\":\"mailto:team@example.com\",\"member\":[{\"account\":{\"homePage\":\"http://www.example.com\",\"name\":\"13936749\"}},{\"openid\":\"http://toby.openid.example.org/\"}]},\"verb\":{\"id\":\"http://adlnet.gov/expapi/verbs/attended\"},\"object\":{\"id\":\"http://www.example.com/meetings/34534\"},\"result\":{\"score\":{\"scaled\":0.80},\"success\":true,\"completion\":false,\"duration\":\"PT1H0M0S\"},\"context\":{\"registration\":\"ec531277-b57b-4c15-8d91-d292c5b2b8f7\",\"contextActivities\":{\"parent\":[{\"id\":\"http://p/1\"}],\"category\":[{\"id\":\"http://c/0\"},{\"id\":\"http://c/1\"}],\"grouping\":{\"id\":\"http://g/1\"}},\"instructor\":{\"mbox\":\"mailto:i@example.com\"},\"team\":{\"objectType\":\"Group\",\"member\":[{\"mbox\":\"mailto:t@example.com\"}]},\"extensions\":{\"http://e/1\":[1]}},\"authority\":{\"mbox\":\"mailto:auth@example.com\"}}";

const NESTED: &str =
    "{\"actor\":{\"mbox\":\"mailto:a@b\"},\"verb\":{\"id\":\"http://v/1\"},\"object\":{\"objectType\":\"SubStatement\",\"actor\":{\"objectType\":\"Group\",\"member\":[{\"mbox\":\"mailto:g@h\"}]},\"verb\":{\"id\":\"http://v/2\"},\"object\":{\"id\":\"http://a/2\"},\"context\":{\"contextActivities\":{\"other\":{\"id\":\"http://o/1\"}},\"instructor\":{\"mbox\":\"mailto:i@j\"}}}}";

const VOIDING: &str =
    "{\"actor\":{\"mbox\":\"mailto:a@b\"},\"verb\":{\"id\":\"http://adlnet.gov/expapi/verbs/voided\"},\"object\":{\"objectType\":\"StatementRef\",\"id\":\"E05AA883-acaf-40ad-bf54-02c8ce485fb0\"}}";

const ABOUT_AGENT: &str =
    "{\"actor\":{\"mbox\":\"mailto:a@b\"},\"verb\":{\"id\":\"http://v/1\"},\"object\":{\"objectType\":\"Agent\",\"mbox\":\"mailto:c@d\"}}";

fn statement(alloc: Global, text: &str) -> Result<Statement, Fail> {
    let tree = read(alloc, text.as_bytes())?;
    Ok(Statement::read(alloc, tree)?)
}

fn mailbox(alloc: Global, text: &str) -> Result<Ifi, Fail> {
    Ok(Ifi::Mbox(Text::of(alloc, text)?))
}

fn is_id(id: Option<Id>, text: &[u8; 36]) -> bool {
    matches!(id, Some(id) if id.text() == *text)
}

fn is_four_fifths(number: Option<Decimal>) -> bool {
    match (number, Decimal::of(b"0.8")) {
        (Some(number), Some(four_fifths)) => number.cmp(&four_fifths) == Ordering::Equal,
        _ => false,
    }
}

fn are_ids_told(whole: &Statement) -> bool {
    is_id(whole.id(), b"6690e6c9-3ef0-4ed3-8b37-7f3964730bee")
        && is_id(
            whole.registration(),
            b"ec531277-b57b-4c15-8d91-d292c5b2b8f7",
        )
        && whole.verb() == "http://adlnet.gov/expapi/verbs/attended"
        && matches!(whole.activity(), Some(id) if id.as_str() == "http://www.example.com/meetings/34534")
        && whole.target().is_none()
        && !whole.is_voiding()
}

fn is_result_told(whole: &Statement) -> bool {
    is_four_fifths(whole.scaled())
        && whole.success() == Some(true)
        && whole.completion() == Some(false)
        && whole.has_duration()
}

fn are_extensions_told(whole: &Statement) -> bool {
    matches!(whole.extension("http://e/1"), Some(Tree::List(items)) if items.len() == 1)
        && whole.extension("http://e/2").is_none()
}

fn is_voiding_told(voiding: &Statement) -> bool {
    voiding.is_voiding()
        && is_id(voiding.target(), b"e05aa883-acaf-40ad-bf54-02c8ce485fb0")
        && voiding.id().is_none()
        && voiding.activity().is_none()
        && voiding.scaled().is_none()
        && voiding.success().is_none()
        && !voiding.has_duration()
}

#[test]
fn the_members_of_a_statement_are_told(rt: HostRuntime) -> Result<(), Fail> {
    let whole = statement(rt.alloc(), WHOLE)?;
    let wrong = first_wrong(&[
        are_ids_told(&whole),
        is_result_told(&whole),
        are_extensions_told(&whole),
    ]);
    drop(whole);
    none_wrong(wrong)
}

#[test]
fn a_voiding_statement_tells_what_it_refers_to(rt: HostRuntime) -> Result<(), Fail> {
    let voiding = statement(rt.alloc(), VOIDING)?;
    let told = is_voiding_told(&voiding);
    drop(voiding);
    assert!(rt; told);
    Ok(())
}

// A statement, a mailbox, and whether it is found in the direct roles and with the related ones.
const AGENTS: [(&str, &str, (bool, bool)); 9] = [
    (WHOLE, "mailto:team@example.com", (true, true)),
    (WHOLE, "mailto:i@example.com", (false, true)),
    (WHOLE, "mailto:t@example.com", (false, true)),
    (WHOLE, "mailto:auth@example.com", (false, true)),
    (WHOLE, "mailto:none@example.com", (false, false)),
    (NESTED, "mailto:a@b", (true, true)),
    (NESTED, "mailto:g@h", (false, true)),
    (NESTED, "mailto:i@j", (false, true)),
    (ABOUT_AGENT, "mailto:c@d", (true, true)),
];

// Where a statement has who has that mailbox: in the direct roles, and with the related ones.
fn mailbox_roles(alloc: Global, statement: &Statement, mail: &str) -> Result<(bool, bool), Fail> {
    let ifi = mailbox(alloc, mail)?;
    Ok((
        statement.has_agent(&ifi, false),
        statement.has_agent(&ifi, true),
    ))
}

fn agent_roles(alloc: Global, text: &str, mail: &str) -> Result<(bool, bool), Fail> {
    let statement = statement(alloc, text)?;
    mailbox_roles(alloc, &statement, mail)
}

#[test]
fn agents_are_found_in_their_roles(rt: HostRuntime) -> Result<(), Fail> {
    let alloc = rt.alloc();
    for (i, (text, mail, roles)) in AGENTS.iter().enumerate() {
        if agent_roles(alloc, text, mail)? != *roles {
            return wrong_row(i);
        }
    }
    Ok(())
}

// A statement, an id, and whether its Activity is found in the direct roles and with the related ones.
const ACTIVITIES: [(&str, &str, (bool, bool)); 8] = [
    (WHOLE, "http://www.example.com/meetings/34534", (true, true)),
    (WHOLE, "http://p/1", (false, true)),
    (WHOLE, "http://c/1", (false, true)),
    (WHOLE, "http://g/1", (false, true)),
    (NESTED, "http://a/2", (false, true)),
    (NESTED, "http://o/1", (false, true)),
    (NESTED, "http://v/2", (false, false)),
    (
        VOIDING,
        "E05AA883-acaf-40ad-bf54-02c8ce485fb0",
        (false, false),
    ),
];

fn activity_roles(alloc: Global, text: &str, id: &str) -> Result<(bool, bool), Fail> {
    let statement = statement(alloc, text)?;
    Ok((
        statement.has_activity(id, false),
        statement.has_activity(id, true),
    ))
}

#[test]
fn activities_are_found_in_their_roles(rt: HostRuntime) -> Result<(), Fail> {
    let alloc = rt.alloc();
    for (i, (text, id, roles)) in ACTIVITIES.iter().enumerate() {
        if activity_roles(alloc, text, id)? != *roles {
            return wrong_row(i);
        }
    }
    Ok(())
}

// Which of the two activities stand among the categories and the groupings.
fn context_roles(whole: &Statement) -> [bool; 4] {
    [
        whole.category("http://c/1"),
        whole.category("http://g/1"),
        whole.grouping("http://c/1"),
        whole.grouping("http://g/1"),
    ]
}

#[test]
fn categories_and_groupings_are_told_apart(rt: HostRuntime) -> Result<(), Fail> {
    let whole = statement(rt.alloc(), WHOLE)?;
    let roles = context_roles(&whole);
    drop(whole);
    assert!(rt; roles == [true, false, false, true]);
    Ok(())
}

fn is_actor(alloc: Global, text: &str, mail: &str) -> Result<bool, Fail> {
    let statement = statement(alloc, text)?;
    is_actor_of(alloc, &statement, mail)
}

fn is_actor_of(alloc: Global, statement: &Statement, mail: &str) -> Result<bool, Fail> {
    let ifi = mailbox(alloc, mail)?;
    Ok(statement.is_actor(&ifi))
}

// A Group is no Agent.
#[test]
fn an_actor_is_known_where_it_is_an_agent(rt: HostRuntime) -> Result<(), Fail> {
    let group = is_actor(rt.alloc(), WHOLE, "mailto:team@example.com")?;
    let agent = is_actor(rt.alloc(), VOIDING, "mailto:a@b")?;
    assert!(rt; agent && !group);
    Ok(())
}

// A statement whose written form has this many bytes.
fn of_length(alloc: Global, length: usize) -> Result<Tree, Fail> {
    let mut text = Vec::new(alloc);
    text.extend_from_slice(
        b"{\"actor\":{\"mbox\":\"mailto:a@b\"},\"verb\":{\"id\":\"http://v/1\"},\"object\":{\"id\":\"http://a/1\"},\"result\":{\"response\":\"",
    )?;
    for _ in 0..length.saturating_sub(112) {
        text.push(b'x')?;
    }
    text.extend_from_slice(b"\"}}")?;
    Ok(read(alloc, text.as_slice())?)
}

// Why the tree is no statement.
fn refusal(alloc: Global, tree: Tree) -> Option<StatementRefused> {
    match Statement::read(alloc, tree) {
        Ok(statement) => {
            drop(statement);
            None
        }
        Err(refused) => Some(refused),
    }
}

#[test]
fn a_statement_has_at_most_so_many_bytes(rt: HostRuntime) -> Result<(), Fail> {
    let longest = refusal(rt.alloc(), of_length(rt.alloc(), 262_144)?);
    let longer = refusal(rt.alloc(), of_length(rt.alloc(), 262_145)?);
    assert!(rt; longest.is_none() && longer == Some(StatementRefused::TooLong));
    Ok(())
}

#[test]
fn a_broken_value_is_no_statement(rt: HostRuntime) -> Result<(), Fail> {
    let broken = read(rt.alloc(), b"{\"actor\":5}")?;
    assert!(rt; refusal(rt.alloc(), broken) == Some(StatementRefused::Broken { rule: 1 }));
    Ok(())
}

// A statement, and its forms when the store keeps it for an admin: whole, and with ids alone.
const RECEIVED: &str =
    r#"{"actor":{"name":"A","mbox":"mailto:a@b"},"verb":{"id":"http://v/1"},"object":{"id":"http://a/1"}}"#;

const KEPT: [(Format, &str); 2] = [
    (
        Format::Exact,
        r#"{"actor":{"name":"A","mbox":"mailto:a@b"},"verb":{"id":"http://v/1"},"object":{"id":"http://a/1"},"id":"11111111-1111-4111-8111-111111111111","timestamp":"2023-11-14T22:13:20.000Z","stored":"2023-11-14T22:13:20.000Z","authority":{"objectType":"Agent","name":"admin","account":{"homePage":"https://lrs.invalid/callers","name":"admin"}},"version":"1.0.0"}"#,
    ),
    (
        Format::Ids,
        r#"{"actor":{"mbox":"mailto:a@b"},"verb":{"id":"http://v/1"},"object":{"id":"http://a/1"},"id":"11111111-1111-4111-8111-111111111111","timestamp":"2023-11-14T22:13:20.000Z","stored":"2023-11-14T22:13:20.000Z","authority":{"objectType":"Agent","account":{"homePage":"https://lrs.invalid/callers","name":"admin"}},"version":"1.0.0"}"#,
    ),
];

// The same for a session, and for the store itself.
const KEPT_OF_SESSION: [(Format, &str); 2] = [
    (
        Format::Exact,
        r#"{"actor":{"name":"A","mbox":"mailto:a@b"},"verb":{"id":"http://v/1"},"object":{"id":"http://a/1"},"id":"11111111-1111-4111-8111-111111111111","timestamp":"2023-11-14T22:13:20.000Z","stored":"2023-11-14T22:13:20.000Z","authority":{"objectType":"Agent","name":"session","account":{"homePage":"https://lrs.invalid/callers","name":"session:bbbbbbbb-1111-4111-8111-111111111111"}},"version":"1.0.0"}"#,
    ),
    (
        Format::Ids,
        r#"{"actor":{"mbox":"mailto:a@b"},"verb":{"id":"http://v/1"},"object":{"id":"http://a/1"},"id":"11111111-1111-4111-8111-111111111111","timestamp":"2023-11-14T22:13:20.000Z","stored":"2023-11-14T22:13:20.000Z","authority":{"objectType":"Agent","account":{"homePage":"https://lrs.invalid/callers","name":"session:bbbbbbbb-1111-4111-8111-111111111111"}},"version":"1.0.0"}"#,
    ),
];

const KEPT_OF_DESK: [(Format, &str); 2] = [
    (
        Format::Exact,
        r#"{"actor":{"name":"A","mbox":"mailto:a@b"},"verb":{"id":"http://v/1"},"object":{"id":"http://a/1"},"id":"11111111-1111-4111-8111-111111111111","timestamp":"2023-11-14T22:13:20.000Z","stored":"2023-11-14T22:13:20.000Z","authority":{"objectType":"Agent","name":"desk","account":{"homePage":"https://lrs.invalid/callers","name":"desk"}},"version":"1.0.0"}"#,
    ),
    (
        Format::Ids,
        r#"{"actor":{"mbox":"mailto:a@b"},"verb":{"id":"http://v/1"},"object":{"id":"http://a/1"},"id":"11111111-1111-4111-8111-111111111111","timestamp":"2023-11-14T22:13:20.000Z","stored":"2023-11-14T22:13:20.000Z","authority":{"objectType":"Agent","account":{"homePage":"https://lrs.invalid/callers","name":"desk"}},"version":"1.0.0"}"#,
    ),
];

pub(crate) fn id() -> Result<Id, Fail> {
    Ok(Id::read(b"11111111-1111-4111-8111-111111111111").ok_or("no id")?)
}

pub(crate) fn stored() -> Moment {
    Moment::clamp(1_700_000_000_000)
}

// The statement as it is kept.
fn kept(alloc: Global, text: &str, by: Authority) -> Result<StoredStatement, Fail> {
    let id = id()?;
    match statement(alloc, text) {
        Ok(statement) => Ok(statement.complete(id, stored(), by)),
        Err(failed) => {
            drop(by);
            Err(failed)
        }
    }
}

fn has_tree_of(
    alloc: Global,
    kept: &StoredStatement,
    format: Format,
    text: &str,
) -> Result<bool, Fail> {
    let tree = kept.tree(alloc, format)?;
    is_tree_written_as(alloc, &tree, text.as_bytes())
}

fn is_tree_written_as(alloc: Global, tree: &Tree, text: &[u8]) -> Result<bool, Fail> {
    let mut bytes = Vec::new(alloc);
    write(tree, &mut bytes)?;
    Ok(bytes.as_slice() == text)
}

fn is_held_written_as(
    alloc: Global,
    kept: &StoredStatement,
    format: Format,
    text: &str,
) -> Result<bool, Fail> {
    let held = HeldStatement::of(alloc, kept)?;
    let found = is_shown_as(alloc, &held, format, text.as_bytes());
    drop(held);
    found
}

fn is_shown_as(
    alloc: Global,
    held: &HeldStatement,
    format: Format,
    text: &[u8],
) -> Result<bool, Fail> {
    let mut bytes = Vec::new(alloc);
    held.write(format, &mut bytes)?;
    Ok(bytes.as_slice() == text)
}

// The number of the first row that isn't so.
fn first_shown_wrong(
    alloc: Global,
    kept: &StoredStatement,
    rows: &[(Format, &str)],
) -> Result<Option<usize>, Fail> {
    for (i, (format, text)) in rows.iter().enumerate() {
        if !has_tree_of(alloc, kept, *format, text)?
            || !is_held_written_as(alloc, kept, *format, text)?
        {
            return Ok(Some(i));
        }
    }
    Ok(None)
}

// The number of the first row that isn't so, of the statement that is kept under that authority.
fn first_kept_wrong(
    alloc: Global,
    by: Authority,
    rows: &[(Format, &str)],
) -> Result<Option<usize>, Fail> {
    let kept = kept(alloc, RECEIVED, by)?;
    let wrong = first_shown_wrong(alloc, &kept, rows);
    drop(kept);
    wrong
}

#[test]
fn a_kept_statement_is_shown_in_the_form_that_is_asked_for(rt: HostRuntime) -> Result<(), Fail> {
    none_wrong(first_kept_wrong(rt.alloc(), Authority::Admin, &KEPT)?)
}

#[test]
fn a_statement_of_a_session_is_shown_as_its_own(rt: HostRuntime) -> Result<(), Fail> {
    let session = Id::read(b"bbbbbbbb-1111-4111-8111-111111111111").ok_or("no id")?;
    let by = Authority::Session(session);
    none_wrong(first_kept_wrong(rt.alloc(), by, &KEPT_OF_SESSION)?)
}

#[test]
fn a_statement_of_the_store_is_shown_as_its_own(rt: HostRuntime) -> Result<(), Fail> {
    none_wrong(first_kept_wrong(rt.alloc(), Authority::Desk, &KEPT_OF_DESK)?)
}

fn tells_what_it_is_kept_with(kept: &StoredStatement, id: Id) -> bool {
    kept.id() == id && kept.stored() == stored() && !kept.is_voiding() && kept.target().is_none()
}

#[test]
fn a_kept_statement_tells_its_id_and_moment(rt: HostRuntime) -> Result<(), Fail> {
    let id = id()?;
    let kept = kept(rt.alloc(), RECEIVED, Authority::Admin)?;
    let told = tells_what_it_is_kept_with(&kept, id);
    drop(kept);
    assert!(rt; told);
    Ok(())
}

// ---- statements as they are held

// Statements as they are sent, one a line: with what the store adds itself in front, between and behind, context
// activities alone and in arrays, escapes, numbers in many spellings, members in any order.
const SENT: &str =
    r#"{"actor":{"mbox":"mailto:a@b"},"verb":{"id":"http://v/1"},"object":{"id":"http://a/1"}}
{"actor":{"mbox":"mailto:a@b"},"verb":{"id":"http://v/1"},"object":{"id":"http://a/1"},"id":"AAAAAAAA-1111-4111-8111-111111111111","timestamp":"2023-11-14T22:13:20Z","version":"1.0.3"}
{"version":"1.0.1","authority":{"mbox":"mailto:x@y"},"stored":"2020-01-01T00:00:00Z","timestamp":"2023-11-14T22:13:20.5+01:00","id":"aaaaaaaa-1111-4111-8111-111111111111","object":{"id":"http://a/1"},"verb":{"id":"http://v/1"},"actor":{"mbox":"mailto:a@b"}}
{"object":{"id":"http://a/1"},"id":"aaaaaaaa-1111-4111-8111-111111111111","actor":{"mbox":"mailto:a@b"},"timestamp":"2023-11-14T22:13:20Z","verb":{"id":"http://v/1"}}
{"actor":{"mbox":"mailto:a@b"},"timestamp":"2023-11-14T22:13:20Z","version":"1.0.0","verb":{"id":"http://v/1"},"stored":"2020-01-01T00:00:00Z","object":{"id":"http://a/1"}}
{"actor":{"mbox":"mailto:a@b"},"verb":{"id":"http://v/1"},"version":"1.0.","object":{"id":"http://a/1"}}
{"id":"aaaaaaaa-1111-4111-8111-111111111111","actor":{"mbox":"mailto:a@b"},"verb":{"id":"http://v/1"},"object":{"id":"http://a/1"}}
{"actor":{"mbox":"mailto:a@b"},"verb":{"id":"http://v/1"},"object":{"id":"http://a/1"},"context":{"contextActivities":{"parent":{"id":"http://p/1"},"grouping":[{"id":"http://g/1"},{"id":"http://g/2"}],"category":{"definition":{"name":{"en":"C"},"type":"http://t/1"},"id":"http://c/1"},"other":[]}}}
{"context":{"registration":"BBBBBBBB-1111-4111-8111-111111111111","contextActivities":{"other":{"id":"http://o/1"}},"language":"en"},"id":"aaaaaaaa-1111-4111-8111-111111111111","actor":{"mbox":"mailto:a@b"},"verb":{"id":"http://v/1"},"object":{"id":"http://a/1"}}
{"actor":{"mbox":"mailto:a@b"},"verb":{"id":"http://v/1"},"context":{"contextActivities":{"parent":{"id":"http://p/1"}}},"version":"1.0.0","object":{"objectType":"SubStatement","context":{"contextActivities":{"parent":{"id":"http://p/2"},"other":[{"id":"http://o/2"}]},"instructor":{"name":"I","mbox":"mailto:i@j"}},"actor":{"name":"B","mbox":"mailto:c@d"},"verb":{"id":"http://v/2","display":{"en":"did"}},"object":{"id":"http://a/2"},"timestamp":"2023-11-14T22:13:20Z"}}
{"object":{"actor":{"mbox":"mailto:c@d"},"verb":{"id":"http://v/2"},"object":{"id":"http://a/2"},"context":{"language":"en","contextActivities":{"category":{"id":"http://c/2"},"grouping":{"id":"http://g/2"}}},"objectType":"SubStatement"},"actor":{"mbox":"mailto:a@b"},"timestamp":"2023-11-14T22:13:20Z","verb":{"id":"http://v/1"}}
{"actor":{"mbox":"mailto:a@b"},"verb":{"id":"http://v/1"},"object":{"id":"http://a/1"},"context":{}}
{"actor":{"mbox":"mailto:a@b"},"verb":{"id":"http://v/1"},"object":{"id":"http://a/1"},"context":{"contextActivities":{}},"result":{}}
{"actor":{"name":"\"\\\/\b\f\n\r\t\u001f\u007f\u00e9\ud83d\ude00 é","mbox":"mailto:a\u0040b"},"verb":{"id":"http:\/\/v\/1"},"\u006fbject":{"id":"http://a/1"},"result":{"response":"\u0022\u005c\u000A"}}
{"\u0069d":"aaaaaaaa\u002d1111-4111-8111-111111111111","version":"1.0.\"\\\u0001","actor":{"mbox":"mailto:a@b"},"timest\u0061mp":"2023-11-14T22:13:20\u005a","verb":{"id":"http://v/1"},"object":{"id":"http://a/1"}}
{"actor":{"mbox":"mailto:a@b"},"verb":{"id":"http://v/1"},"object":{"id":"http://a/1"},"context":{"\u0063ontextActivities":{"p\u0061rent":{"\u0069d":"http:\/\/p\/1"}},"extensions":{"http://e/\u00e9":"\"","http:\/\/e\/\u0031":{"":""}}}}
{"result":{"score":{"max":100.000e0,"scaled":0.80,"min":-0,"raw":1E+2},"duration":"PT1H0M0S"},"actor":{"mbox":"mailto:a@b"},"verb":{"id":"http://v/1"},"object":{"id":"http://a/1"},"context":{"extensions":{"http://e/1":[-0.0,0e0,1e-7,5e+3,1E0,0.10,12345678901234567890,-12.50E-1]}}}
{"actor":{"mbox":"mailto:a@b"},"verb":{"id":"http://v/1"},"object":{"id":"http://a/1"},"context":{"extensions":{"http://e/1":[null,true,false,{},[],"",[[]],{"b":{"id":1},"a":2}],"http://e/2":null}}}
{"attachments":[{"fileUrl":"http://f/1","usageType":"http://u/1","display":{"en":"D"},"contentType":"text/plain","length":0,"sha2":"x"}],"object":{"definition":{"name":{"en":"A","de":"B"}},"id":"http://a/1","objectType":"Activity"},"verb":{"display":{"en":"did"},"id":"http://v/1"},"actor":{"member":[{"name":"M","mbox":"mailto:m@n"},{"account":{"name":"k","homePage":"http://h"}}],"name":"G","objectType":"Group"}}
{"actor":{"mbox":"mailto:a@b","name":"A"},"verb":{"id":"http://adlnet.gov/expapi/verbs/voided"},"object":{"id":"E05AA883-acaf-40ad-bf54-02c8ce485fb0","objectType":"StatementRef"}}
{"actor":{"mbox":"mailto:a@b"},"verb":{"id":"http://v/1"},"object":{"mbox":"mailto:c@d","name":"C","objectType":"Agent"},"authority":{"mbox":"mailto:x@y"}}
 { "actor" : { "mbox" : "mailto:a@b" } , "id" : "aaaaaaaa-1111-4111-8111-111111111111" , "verb" : { "id" : "http://v/1" } , "object" : { "id" : "http://a/1" } , "context" : { "contextActivities" : { "parent" : { "id" : "http://p/1" } } } , "version" : "1.0.0" } "#;

fn provider(alloc: Global) -> Result<Authority, Fail> {
    Ok(Authority::Provider {
        number: 12,
        name: Text::of(alloc, "p.1")?,
    })
}

// Whether both are shown alike in that form.
fn are_shown_alike(
    alloc: Global,
    kept: &StoredStatement,
    held: &HeldStatement,
    format: Format,
) -> Result<bool, Fail> {
    let mut bytes = Vec::new(alloc);
    let tree = kept.tree(alloc, format)?;
    write(&tree, &mut bytes)?;
    is_shown_as(alloc, held, format, bytes.as_slice())
}

// Whether the tree that is made anew is written as the one that was received, and known as this one.
fn is_received_again(
    alloc: Global,
    kept: &StoredStatement,
    held: &HeldStatement,
) -> Result<bool, Fail> {
    let mut bytes = Vec::new(alloc);
    write(kept.received(), &mut bytes)?;
    let tree = held.received(alloc)?;
    let known = held.is_received_as(&tree) && !held.is_received_as(&Tree::Null);
    let again = is_tree_written_as(alloc, &tree, bytes.as_slice());
    drop(tree);
    Ok(again? && known)
}

// Whether the statement that is made anew is held as the first one.
fn is_whole_again(alloc: Global, held: &HeldStatement) -> Result<bool, Fail> {
    let whole = held.whole(alloc)?;
    let again = are_shown_alike(alloc, &whole, held, Format::Exact);
    drop(whole);
    again
}

fn are_alike(alloc: Global, kept: &StoredStatement, held: &HeldStatement) -> Result<bool, Fail> {
    Ok(
        are_shown_alike(alloc, kept, held, Format::Exact)?
            && are_shown_alike(alloc, kept, held, Format::Ids)?
            && is_received_again(alloc, kept, held)?
            && is_whole_again(alloc, held)?,
    )
}

fn is_held_alike(alloc: Global, kept: &StoredStatement) -> Result<bool, Fail> {
    let held = HeldStatement::of(alloc, kept)?;
    let alike = are_alike(alloc, kept, &held);
    drop(held);
    alike
}

fn is_sent_held_alike(alloc: Global, text: &str) -> Result<bool, Fail> {
    let by = provider(alloc)?;
    let kept = kept(alloc, text, by)?;
    let alike = is_held_alike(alloc, &kept);
    drop(kept);
    alike
}

#[test]
fn a_held_statement_is_shown_as_its_tree_is(rt: HostRuntime) -> Result<(), Fail> {
    let alloc = rt.alloc();
    for (i, text) in SENT.lines().enumerate() {
        if !is_sent_held_alike(alloc, text)? {
            return wrong_row(i);
        }
    }
    Ok(())
}
