// The tests of xapi_format, xapi_received and xapi_reduced.
use crate::failing::wrong_row;
use crate::statement::{id, stored};
use lrs_agents::Ifi;
use lrs_json::{Text, Tree, write};
use lrs_json_reader::read;
use lrs_names::Id;
use std::alloc::Global;
use std::test::Fail;
use xapi_format::{Authority, WrittenAuthority, completed};
use xapi_received::ReceivedText;
use xapi_reduced::{put_reduced, reduced};
use xapi_values::is_nested;

// Under whose authority: a provider by its number and name, a session by its id.
#[derive(Clone, Copy)]
enum By {
    Admin,
    Provider(u32, &'static str),
    Session(&'static str),
    Desk,
}

// The first statement, its completed form under the admin's authority, one of a provider with a time and a version of
// its own, one whose context activities stand alone, also in a SubStatement, one of a session, and one that the store
// made.
const COMPLETED: [(&str, By, &str); 6] = [
    (
        r#"{"id":"11111111-1111-4111-8111-111111111111","actor":{"mbox":"mailto:a@b"},"verb":{"id":"http://v/1"},"object":{"id":"http://a/1"}}"#,
        By::Admin,
        r#"{"actor":{"mbox":"mailto:a@b"},"verb":{"id":"http://v/1"},"object":{"id":"http://a/1"},"id":"11111111-1111-4111-8111-111111111111","timestamp":"2023-11-14T22:13:20.000Z","stored":"2023-11-14T22:13:20.000Z","authority":{"objectType":"Agent","name":"admin","account":{"homePage":"https://lrs.invalid/callers","name":"admin"}},"version":"1.0.0"}"#,
    ),
    (
        r#"{"version":"1.0.3","timestamp":"2023-11-14T23:13:20+01:00","actor":{"mbox":"mailto:a@b"},"stored":"2001-01-01T00:00:00Z","verb":{"id":"http://v/1"},"authority":{"mbox":"mailto:c@d"},"object":{"id":"http://a/1"},"result":{"response":"a\"\u0001"}}"#,
        By::Provider(12, "p.1"),
        r#"{"actor":{"mbox":"mailto:a@b"},"verb":{"id":"http://v/1"},"object":{"id":"http://a/1"},"result":{"response":"a\"\u0001"},"id":"11111111-1111-4111-8111-111111111111","timestamp":"2023-11-14T23:13:20+01:00","stored":"2023-11-14T22:13:20.000Z","authority":{"objectType":"Agent","name":"p.1","account":{"homePage":"https://lrs.invalid/callers","name":"provider:12"}},"version":"1.0.3"}"#,
    ),
    (
        r#"{"actor":{"mbox":"mailto:a@b"},"context":{"platform":"x","contextActivities":{"parent":{"id":"http://c/1"},"other":[{"id":"http://c/2"},{"id":"http://c/3"}],"grouping":[]}},"verb":{"id":"http://v/1"},"object":{"id":"http://a/1"}}"#,
        By::Admin,
        r#"{"actor":{"mbox":"mailto:a@b"},"context":{"platform":"x","contextActivities":{"parent":[{"id":"http://c/1"}],"other":[{"id":"http://c/2"},{"id":"http://c/3"}],"grouping":[]}},"verb":{"id":"http://v/1"},"object":{"id":"http://a/1"},"id":"11111111-1111-4111-8111-111111111111","timestamp":"2023-11-14T22:13:20.000Z","stored":"2023-11-14T22:13:20.000Z","authority":{"objectType":"Agent","name":"admin","account":{"homePage":"https://lrs.invalid/callers","name":"admin"}},"version":"1.0.0"}"#,
    ),
    (
        r#"{"actor":{"mbox":"mailto:a@b"},"verb":{"id":"http://v/1"},"object":{"objectType":"SubStatement","actor":{"mbox":"mailto:a@b"},"verb":{"id":"http://v/2"},"object":{"id":"http://a/2"},"context":{"contextActivities":{"category":{"id":"http://c/1"}}}}}"#,
        By::Admin,
        r#"{"actor":{"mbox":"mailto:a@b"},"verb":{"id":"http://v/1"},"object":{"objectType":"SubStatement","actor":{"mbox":"mailto:a@b"},"verb":{"id":"http://v/2"},"object":{"id":"http://a/2"},"context":{"contextActivities":{"category":[{"id":"http://c/1"}]}}},"id":"11111111-1111-4111-8111-111111111111","timestamp":"2023-11-14T22:13:20.000Z","stored":"2023-11-14T22:13:20.000Z","authority":{"objectType":"Agent","name":"admin","account":{"homePage":"https://lrs.invalid/callers","name":"admin"}},"version":"1.0.0"}"#,
    ),
    (
        r#"{"actor":{"mbox":"mailto:a@b"},"verb":{"id":"http://v/1"},"object":{"id":"http://a/1"}}"#,
        By::Session("AAAAAAAA-1111-4111-8111-111111111111"),
        r#"{"actor":{"mbox":"mailto:a@b"},"verb":{"id":"http://v/1"},"object":{"id":"http://a/1"},"id":"11111111-1111-4111-8111-111111111111","timestamp":"2023-11-14T22:13:20.000Z","stored":"2023-11-14T22:13:20.000Z","authority":{"objectType":"Agent","name":"session","account":{"homePage":"https://lrs.invalid/callers","name":"session:aaaaaaaa-1111-4111-8111-111111111111"}},"version":"1.0.0"}"#,
    ),
    (
        r#"{"actor":{"mbox":"mailto:a@b"},"verb":{"id":"http://v/1"},"object":{"id":"http://a/1"}}"#,
        By::Desk,
        r#"{"actor":{"mbox":"mailto:a@b"},"verb":{"id":"http://v/1"},"object":{"id":"http://a/1"},"id":"11111111-1111-4111-8111-111111111111","timestamp":"2023-11-14T22:13:20.000Z","stored":"2023-11-14T22:13:20.000Z","authority":{"objectType":"Agent","name":"desk","account":{"homePage":"https://lrs.invalid/callers","name":"desk"}},"version":"1.0.0"}"#,
    ),
];

fn authority(alloc: Global, by: By) -> Result<Authority, Fail> {
    match by {
        By::Admin => Ok(Authority::Admin),
        By::Provider(number, name) => Ok(Authority::Provider {
            number,
            name: Text::of(alloc, name)?,
        }),
        By::Session(id) => Ok(Authority::Session(session(id)?)),
        By::Desk => Ok(Authority::Desk),
    }
}

fn session(id: &str) -> Result<Id, Fail> {
    Ok(Id::read(id.as_bytes()).ok_or("no session")?)
}

// Whether the statement, completed under that authority, has this text.
fn is_completed_as(
    alloc: Global,
    received: &Tree,
    by: &Authority,
    text: &str,
) -> Result<bool, Fail> {
    let mut bytes = Vec::new(alloc);
    let by = WrittenAuthority::of(alloc, by.copy()?)?;
    let kept = ReceivedText::of(alloc, received)?;
    kept.put_completed(&id()?, stored(), &by, &mut bytes)?;
    Ok(bytes.as_slice() == text.as_bytes())
}

// The same of the tree that it becomes.
fn is_completed_to(
    alloc: Global,
    received: &Tree,
    by: &Authority,
    text: &str,
) -> Result<bool, Fail> {
    let tree = completed(alloc, received, &id()?, stored(), by)?;
    is_written_as(alloc, &tree, text)
}

fn is_written_as(alloc: Global, tree: &Tree, text: &str) -> Result<bool, Fail> {
    let mut bytes = Vec::new(alloc);
    write(tree, &mut bytes)?;
    Ok(bytes.as_slice() == text.as_bytes())
}

// Whether this is the text that it is kept as.
fn is_kept_as(alloc: Global, received: &Tree, text: &str) -> Result<bool, Fail> {
    let mut bytes = Vec::new(alloc);
    let kept = ReceivedText::of(alloc, received)?;
    kept.put(&mut bytes)?;
    Ok(bytes.as_slice() == text.as_bytes())
}

// Whether the text that it is kept as gives the tree back.
fn is_read_back(alloc: Global, received: &Tree, text: &str) -> Result<bool, Fail> {
    let kept = ReceivedText::of(alloc, received)?;
    let tree = kept.tree(alloc)?;
    is_written_as(alloc, &tree, text)
}

fn is_completed_each_way(
    alloc: Global,
    text: &str,
    by: &Authority,
    wanted: &str,
) -> Result<bool, Fail> {
    let received = read(alloc, text.as_bytes())?;
    Ok(
        is_kept_as(alloc, &received, text)?
            && is_read_back(alloc, &received, text)?
            && is_completed_as(alloc, &received, by, wanted)?
            && is_completed_to(alloc, &received, by, wanted)?,
    )
}

#[test]
fn a_completed_statement_has_what_the_store_adds(rt: HostRuntime) -> Result<(), Fail> {
    let alloc = rt.alloc();
    for (i, (received, by, text)) in COMPLETED.iter().enumerate() {
        let by = authority(alloc, *by)?;
        if !is_completed_each_way(alloc, received, &by, text)? {
            return wrong_row(i);
        }
    }
    Ok(())
}

// Statements with all that is dropped, and their forms with ids alone: the first statement; names, definitions and
// displays; Groups with and without an identifier, a context, and a SubStatement; a reference, and what is free. Then
// escapes in texts and names, brackets in texts, numbers and words as last members, a SubStatement about an anonymous
// Group, context activities alone and in an array, parts of another kind than they should be, and an empty object.
const REDUCED: [(&str, &str); 12] = [
    (
        r#"{"id":"11111111-1111-4111-8111-111111111111","actor":{"mbox":"mailto:a@b"},"verb":{"id":"http://v/1"},"object":{"id":"http://a/1"}}"#,
        r#"{"actor":{"mbox":"mailto:a@b"},"verb":{"id":"http://v/1"},"object":{"id":"http://a/1"}"#,
    ),
    (
        r#"{"actor":{"name":"A","objectType":"Agent","account":{"homePage":"http://h","name":"n"}},"verb":{"display":{"en":"did"},"id":"http://v/1"},"object":{"definition":{"name":{"en":"x"}},"id":"http://a/1","objectType":"Activity"},"result":{"response":"r","extensions":{"http://e":{"name":"kept","id":1}}}}"#,
        r#"{"actor":{"objectType":"Agent","account":{"homePage":"http://h","name":"n"}},"verb":{"id":"http://v/1"},"object":{"id":"http://a/1","objectType":"Activity"},"result":{"response":"r","extensions":{"http://e":{"name":"kept","id":1}}}"#,
    ),
    (
        r#"{"actor":{"objectType":"Group","name":"G","member":[{"name":"M","mbox":"mailto:m@n"},{"objectType":"Agent","openid":"http://o"}]},"verb":{"id":"http://v/1"},"object":{"objectType":"Group","name":"H","mbox":"mailto:h@h","member":[{"mbox":"mailto:m@n"}]}}"#,
        r#"{"actor":{"objectType":"Group","member":[{"mbox":"mailto:m@n"},{"objectType":"Agent","openid":"http://o"}]},"verb":{"id":"http://v/1"},"object":{"objectType":"Group","mbox":"mailto:h@h"}"#,
    ),
    (
        r#"{"actor":{"mbox":"mailto:a@b"},"verb":{"id":"http://v/1"},"object":{"objectType":"SubStatement","actor":{"name":"S","mbox":"mailto:s@t"},"verb":{"id":"http://v/2","display":{}},"object":{"id":"http://a/2","definition":{}},"context":{"team":{"objectType":"Group","name":"T","member":[{"name":"U","mbox":"mailto:u@u"}]},"contextActivities":{"other":{"id":"http://o/1","definition":{}}}}},"context":{"instructor":{"name":"I","mbox":"mailto:i@j"},"language":"en","contextActivities":{"parent":[{"id":"http://p/1","definition":{}},{"objectType":"Activity","id":"http://p/2"}],"category":[]},"extensions":{"http://x":{"definition":1}}}}"#,
        r#"{"actor":{"mbox":"mailto:a@b"},"verb":{"id":"http://v/1"},"object":{"objectType":"SubStatement","actor":{"mbox":"mailto:s@t"},"verb":{"id":"http://v/2"},"object":{"id":"http://a/2"},"context":{"team":{"objectType":"Group","member":[{"mbox":"mailto:u@u"}]},"contextActivities":{"other":[{"id":"http://o/1"}]}}},"context":{"instructor":{"mbox":"mailto:i@j"},"language":"en","contextActivities":{"parent":[{"id":"http://p/1"},{"objectType":"Activity","id":"http://p/2"}],"category":[]},"extensions":{"http://x":{"definition":1}}}"#,
    ),
    (
        r#"{"actor":{"mbox":"mailto:a@b"},"verb":{"id":"http://v/1"},"object":{"id":"22222222-2222-4222-8222-222222222222","objectType":"StatementRef"},"attachments":[{"usageType":"http://u","display":{"en":"d"},"contentType":"text/plain","length":3,"sha2":"s","fileUrl":"http://f"}]}"#,
        r#"{"actor":{"mbox":"mailto:a@b"},"verb":{"id":"http://v/1"},"object":{"id":"22222222-2222-4222-8222-222222222222","objectType":"StatementRef"},"attachments":[{"usageType":"http://u","display":{"en":"d"},"contentType":"text/plain","length":3,"sha2":"s","fileUrl":"http://f"}]"#,
    ),
    (
        r#"{"actor":{"name":"a\"b\\","mbox":"mailto:\\\"@\u0001"},"verb":{"display":{"e\"n":"\\"},"id":"http://v/\\"},"object":{"definition":{"name":{"en":"\u0001{["}},"id":"\"\\\"}","i\u0001d":1},"result":{"response":"\\\"}","extensions":{"http://e\\x\"":{"{":"}","[\u001f":"]\n"}}},"obj\"ect":{"name":"kept"},"\\id":2}"#,
        r#"{"actor":{"mbox":"mailto:\\\"@\u0001"},"verb":{"id":"http://v/\\"},"object":{"id":"\"\\\"}"},"result":{"response":"\\\"}","extensions":{"http://e\\x\"":{"{":"}","[\u001f":"]\n"}}},"obj\"ect":{"name":"kept"},"\\id":2"#,
    ),
    (
        r#"{"actor":{},"verb":{"id":"http://v/1","display":{"]":"}"}},"object":{"definition":{"a":[[],{},[{"b":"]}","c":[["{"]]}]],"n":-1.5e3},"id":"http://a/1"},"result":{"score":{"raw":1.50},"success":true},"a":[{"x":[1,true,null,"]",{},[[]]]},"[",0],"b":null,"c":[],"d":{},"e":false,"f":-0.5E+2}"#,
        r#"{"actor":{},"verb":{"id":"http://v/1"},"object":{"id":"http://a/1"},"result":{"score":{"raw":1.50},"success":true},"a":[{"x":[1,true,null,"]",{},[[]]]},"[",0],"b":null,"c":[],"d":{},"e":false,"f":-0.5E+2"#,
    ),
    (
        r#"{"object":{"objectType":"SubStatement","object":{"objectType":"Group","member":[],"name":"[","x":1},"actor":{"member":[{"mbox":"mailto:a@b","name":"]"},{"account":{"name":"}","homePage":"http://h"},"n":0},5,{}],"objectType":"Group"},"verb":{"display":null,"id":"http://v/2"},"authority":{"name":"kept"},"context":{"instructor":{"objectType":"Group","member":"none","openid":null,"name":1},"contextActivities":{"parent":{"definition":{"}":"{"},"id":"http://p/1"},"grouping":[{"id":"http://p/2","definition":[]},7,{"definition":{}}]},"revision":"1"}},"verb":5}"#,
        r#"{"object":{"objectType":"SubStatement","object":{"objectType":"Group","member":[]},"actor":{"member":[{"mbox":"mailto:a@b"},{"account":{"name":"}","homePage":"http://h"}},5,{}],"objectType":"Group"},"verb":{"id":"http://v/2"},"authority":{"name":"kept"},"context":{"instructor":{"objectType":"Group","openid":null},"contextActivities":{"parent":[{"id":"http://p/1"}],"grouping":[{"id":"http://p/2"},7,{}]},"revision":"1"}},"verb":5"#,
    ),
    (
        r#"{"actor":"a","verb":[{"display":1}],"object":null,"context":{"team":[{"name":"kept"}],"contextActivities":[{"definition":1}],"instructor":true}}"#,
        r#"{"actor":"a","verb":[{"display":1}],"object":null,"context":{"team":[{"name":"kept"}],"contextActivities":[{"definition":1}],"instructor":true}"#,
    ),
    (
        r#"{"actor":{"objectType":"Group","member":{"name":"kept"},"name":"G"},"object":{"objectType":"\u0001","definition":"kept"},"context":{"contextActivities":{"parent":"http://p/1","other":{}}}}"#,
        r#"{"actor":{"objectType":"Group","member":{"name":"kept"}},"object":{"objectType":"\u0001","definition":"kept"},"context":{"contextActivities":{"parent":"http://p/1","other":[{}]}}"#,
    ),
    (
        r#"{"object":{"objectType":"Agent","mbox_sha1sum":"s","name":"A","openid":"o","mbox":"m","account":[]},"actor":{"objectType":7,"member":[],"mbox":{}},"context":[]}"#,
        r#"{"object":{"objectType":"Agent","mbox_sha1sum":"s","openid":"o","mbox":"m","account":[]},"actor":{"objectType":7,"mbox":{}},"context":[]"#,
    ),
    (r#"{"x":"","y":{"":""}}"#, r#"{"x":"","y":{"":""}"#),
];

// Values that are no object, to which nothing is added.
const NO_OBJECTS: [&str; 7] = [
    r#""a\"]""#,
    "-1.5e3",
    "true",
    "null",
    "[]",
    r#"[{"object":{"definition":"kept"}},"]"]"#,
    r#"["id"]"#,
];

// What the store adds for an admin, with ids alone.
const ADDED_IDS: &str =
    r#","id":"11111111-1111-4111-8111-111111111111","timestamp":"2023-11-14T22:13:20.000Z","stored":"2023-11-14T22:13:20.000Z","authority":{"objectType":"Agent","account":{"homePage":"https://lrs.invalid/callers","name":"admin"}},"version":"1.0.0"}"#;

fn reduced_tree(alloc: Global, received: &str) -> Result<Tree, Fail> {
    let received = read(alloc, received.as_bytes())?;
    let whole = completed(alloc, &received, &id()?, stored(), &Authority::Admin)?;
    Ok(reduced(whole)?)
}

// Whether the statement, completed for an admin, has this text with ids alone.
fn is_reduced_to(alloc: Global, received: &str, text: &str) -> Result<bool, Fail> {
    let tree = reduced_tree(alloc, received)?;
    is_written_as(alloc, &tree, text)
}

// The same, written from the text that it is kept as.
fn is_reduced_as(alloc: Global, received: &str, text: &str) -> Result<bool, Fail> {
    let mut bytes = Vec::new(alloc);
    let by = WrittenAuthority::of(alloc, Authority::Admin)?;
    let tree = read(alloc, received.as_bytes())?;
    let kept = ReceivedText::of(alloc, &tree)?;
    put_reduced(&kept.written(), &id()?, stored(), &by, &mut bytes)?;
    Ok(bytes.as_slice() == text.as_bytes())
}

fn is_reduced_each_way(alloc: Global, received: &str, text: &str) -> Result<bool, Fail> {
    Ok(is_reduced_to(alloc, received, text)? && is_reduced_as(alloc, received, text)?)
}

#[test]
fn a_statement_with_ids_alone_tells_which_ones_they_are(rt: HostRuntime) -> Result<(), Fail> {
    let alloc = rt.alloc();
    for (i, (received, front)) in REDUCED.iter().enumerate() {
        let text = format!(in alloc; "{front}{ADDED_IDS}")?;
        if !is_reduced_each_way(alloc, received, text.as_str())? {
            return wrong_row(i);
        }
    }
    Ok(())
}

#[test]
fn a_value_that_is_no_object_has_no_ids_alone(rt: HostRuntime) -> Result<(), Fail> {
    let alloc = rt.alloc();
    for (i, text) in NO_OBJECTS.iter().enumerate() {
        if !is_reduced_each_way(alloc, text, text)? {
            return wrong_row(i);
        }
    }
    Ok(())
}

// An authority, the name of an account, and whether it is that one's.
const ACCOUNTS: [(By, &str, bool); 17] = [
    (By::Admin, "admin", true),
    (By::Admin, "provider:12", false),
    (By::Admin, "desk", false),
    (By::Provider(12, "p.1"), "provider:12", true),
    (By::Provider(12, "p.1"), "provider:1", false),
    (By::Provider(12, "p.1"), "provider:012", false),
    (By::Provider(12, "p.1"), "p.1", false),
    (By::Provider(12, "p.1"), "admin", false),
    (By::Provider(12, "desk"), "desk", false),
    (
        By::Session("AAAAAAAA-1111-4111-8111-111111111111"),
        "session:aaaaaaaa-1111-4111-8111-111111111111",
        true,
    ),
    (
        By::Session("AAAAAAAA-1111-4111-8111-111111111111"),
        "session:AAAAAAAA-1111-4111-8111-111111111111",
        false,
    ),
    (
        By::Session("AAAAAAAA-1111-4111-8111-111111111111"),
        "session:bbbbbbbb-1111-4111-8111-111111111111",
        false,
    ),
    (
        By::Session("AAAAAAAA-1111-4111-8111-111111111111"),
        "aaaaaaaa-1111-4111-8111-111111111111",
        false,
    ),
    (
        By::Session("AAAAAAAA-1111-4111-8111-111111111111"),
        "session",
        false,
    ),
    (By::Desk, "desk", true),
    (By::Desk, "desk:", false),
    (By::Desk, "session", false),
];

fn account(alloc: Global, home: &str, name: &str) -> Result<Ifi, Fail> {
    Ok(Ifi::Account {
        home: Text::of(alloc, home)?,
        name: Text::of(alloc, name)?,
    })
}

fn has_account(alloc: Global, by: &Authority, home: &str, name: &str) -> Result<bool, Fail> {
    let account = account(alloc, home, name)?;
    Ok(by.has_agent(&account))
}

fn has_mailbox(alloc: Global, by: &Authority, name: &str) -> Result<bool, Fail> {
    let mailbox = Ifi::Mbox(Text::of(alloc, name)?);
    Ok(by.has_agent(&mailbox))
}

// Whether the authority has the account of that name on the callers' page exactly if it should, and nothing else.
fn is_found(alloc: Global, by: &Authority, name: &str, wanted: bool) -> Result<bool, Fail> {
    Ok(
        has_account(alloc, by, "https://lrs.invalid/callers", name)? == wanted
            && !has_account(alloc, by, "http://h", name)?
            && !has_mailbox(alloc, by, name)?,
    )
}

#[test]
fn an_authority_has_one_account(rt: HostRuntime) -> Result<(), Fail> {
    let alloc = rt.alloc();
    for (i, (by, name, wanted)) in ACCOUNTS.iter().enumerate() {
        let by = authority(alloc, *by)?;
        if !is_found(alloc, &by, name, *wanted)? {
            return wrong_row(i);
        }
    }
    Ok(())
}

fn is_substatement(alloc: Global, text: &[u8]) -> Result<bool, Fail> {
    let object = read(alloc, text)?;
    Ok(is_nested(&object))
}

#[test]
fn a_substatement_is_told_by_its_type(rt: HostRuntime) -> Result<(), Fail> {
    let nested = is_substatement(rt.alloc(), br#"{"objectType":"SubStatement"}"#)?;
    let activity = is_substatement(rt.alloc(), br#"{"id":"http://a/1"}"#)?;
    assert!(rt; nested && !activity);
    Ok(())
}
