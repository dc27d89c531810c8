// The tests of xapi_equal and xapi_alike.
use crate::failing::wrong_row;
use lrs_json_reader::read;
use std::alloc::Global;
use std::test::Fail;
use xapi_equal::same;
use xapi_statement::Statement;

// The beginning of a statement, up to what the rows say.
const ACTED: &str =
    r#"{"actor":{"mbox":"mailto:a@b"},"verb":{"id":"http://v/1"},"object":{"id":"http://a/1"}"#;

const ABOUT: &str = r#"{"actor":{"mbox":"mailto:a@b"}"#;

const DEFINED: &str =
    r#"{"actor":{"mbox":"mailto:a@b"},"verb":{"id":"http://v/1"},"object":{"id":"http://a/1","definition":{"#;

const WITHIN: &str =
    r#"{"actor":{"mbox":"mailto:a@b"},"verb":{"id":"http://v/1"},"object":{"objectType":"SubStatement","actor":{"mbox":"mailto:a@b"},"verb":{"id":"http://v/1"},"object":{"id":"http://a/1"}"#;

const COMMON: [(&str, &str, bool); 40] = [
    // the order of members, and that of an array
    (
        r#","result":{"success":true,"completion":false}"#,
        r#","result":{"completion":false,"success":true}"#,
        true,
    ),
    (
        r#","result":{"success":true,"completion":false}"#,
        r#","result":{"completion":true,"success":false}"#,
        false,
    ),
    (
        r#","result":{"extensions":{"http://e/1":[1,2]}}"#,
        r#","result":{"extensions":{"http://e/1":[2,1]}}"#,
        false,
    ),
    (
        r#","result":{"extensions":{"http://e/1":{"x":1,"y":2}}}"#,
        r#","result":{"extensions":{"http://e/1":{"y":2,"x":1}}}"#,
        true,
    ),
    (
        r#","result":{"extensions":{"http://e/1":{"x":1,"y":2}}}"#,
        r#","result":{"extensions":{"http://e/1":{"x":1}}}"#,
        false,
    ),
    // what a store sets
    (
        r#","id":"11111111-1111-4111-8111-111111111111""#,
        r#","id":"22222222-2222-4222-8222-222222222222""#,
        true,
    ),
    (r#","id":"11111111-1111-4111-8111-111111111111""#, "", true),
    (
        r#","stored":"2023-11-14T22:13:20Z""#,
        r#","stored":"2024-11-14T22:13:20Z""#,
        true,
    ),
    (
        r#","authority":{"mbox":"mailto:x@y"}"#,
        r#","authority":{"openid":"http://z/"}"#,
        true,
    ),
    (r#","version":"1.0.3""#, "", true),
    // digits of ids
    (
        r#","context":{"registration":"ec531277-b57b-4c15-8d91-d292c5b2b8f7"}"#,
        r#","context":{"registration":"EC531277-B57B-4c15-8d91-d292c5b2b8f7"}"#,
        true,
    ),
    (
        r#","context":{"registration":"ec531277-b57b-4c15-8d91-d292c5b2b8f7"}"#,
        r#","context":{"registration":"ec531277-b57b-4c15-8d91-d292c5b2b8f8"}"#,
        false,
    ),
    (
        r#","context":{"statement":{"objectType":"StatementRef","id":"ec531277-b57b-4c15-8d91-d292c5b2b8f7"}}"#,
        r#","context":{"statement":{"id":"EC531277-b57b-4c15-8d91-d292c5b2b8f7","objectType":"StatementRef"}}"#,
        true,
    ),
    (
        r#","context":{"statement":{"objectType":"StatementRef","id":"ec531277-b57b-4c15-8d91-d292c5b2b8f7"}}"#,
        r#","context":{"statement":{"objectType":"StatementRef","id":"fc531277-b57b-4c15-8d91-d292c5b2b8f7"}}"#,
        false,
    ),
    (
        r#","result":{"extensions":{"http://e/1":"ec531277-b57b-4c15-8d91-d292c5b2b8f7"}}"#,
        r#","result":{"extensions":{"http://e/1":"EC531277-b57b-4c15-8d91-d292c5b2b8f7"}}"#,
        false,
    ),
    // an objectType that its role means anyway
    (
        r#","context":{"instructor":{"objectType":"Agent","mbox":"mailto:i@j"}}"#,
        r#","context":{"instructor":{"mbox":"mailto:i@j"}}"#,
        true,
    ),
    (
        r#","context":{"instructor":{"objectType":"Group","mbox":"mailto:i@j"}}"#,
        r#","context":{"instructor":{"mbox":"mailto:i@j"}}"#,
        false,
    ),
    (
        r#","context":{"contextActivities":{"other":[{"objectType":"Activity","id":"http://c/1"}]}}"#,
        r#","context":{"contextActivities":{"other":[{"id":"http://c/1"}]}}"#,
        true,
    ),
    (
        r#","context":{"extensions":{"http://e/1":{"objectType":"Activity"}}}"#,
        r#","context":{"extensions":{"http://e/1":{}}}"#,
        false,
    ),
    // one context activity, and an array of it
    (
        r#","context":{"contextActivities":{"parent":{"id":"http://c/1"}}}"#,
        r#","context":{"contextActivities":{"parent":[{"objectType":"Activity","id":"http://c/1"}]}}"#,
        true,
    ),
    (
        r#","context":{"contextActivities":{"category":{"id":"http://c/1"}}}"#,
        r#","context":{"contextActivities":{"category":[{"id":"http://c/2"}]}}"#,
        false,
    ),
    (
        r#","context":{"contextActivities":{"grouping":{"id":"http://c/1"}}}"#,
        r#","context":{"contextActivities":{"grouping":[{"id":"http://c/1"},{"id":"http://c/1"}]}}"#,
        false,
    ),
    (
        r#","context":{"contextActivities":{"grouping":{"id":"http://c/1"}}}"#,
        r#","context":{"contextActivities":{"grouping":[]}}"#,
        false,
    ),
    (
        r#","context":{"contextActivities":{"other":[{"id":"http://c/1"},{"id":"http://c/2"}]}}"#,
        r#","context":{"contextActivities":{"other":[{"id":"http://c/2"},{"id":"http://c/1"}]}}"#,
        false,
    ),
    (
        r#","context":{"extensions":{"http://e/1":{"id":"http://c/1"}}}"#,
        r#","context":{"extensions":{"http://e/1":[{"id":"http://c/1"}]}}"#,
        false,
    ),
    // decimals
    (
        r#","result":{"score":{"scaled":0.50}}"#,
        r#","result":{"score":{"scaled":0.5}}"#,
        true,
    ),
    (
        r#","result":{"score":{"scaled":0.50}}"#,
        r#","result":{"score":{"scaled":0.51}}"#,
        false,
    ),
    (
        r#","result":{"score":{"raw":100}}"#,
        r#","result":{"score":{"raw":1e2}}"#,
        true,
    ),
    (
        r#","result":{"score":{"raw":100}}"#,
        r#","result":{"score":{"raw":-100}}"#,
        false,
    ),
    (
        r#","context":{"extensions":{"http://e/1":[1.0,{"x":-0}]}}"#,
        r#","context":{"extensions":{"http://e/1":[10e-1,{"x":0.0}]}}"#,
        true,
    ),
    (
        r#","context":{"extensions":{"http://e/1":1}}"#,
        r#","context":{"extensions":{"http://e/1":"1"}}"#,
        false,
    ),
    // times
    (
        r#","timestamp":"2023-11-14T22:13:20Z""#,
        r#","timestamp":"2023-11-14T23:13:20.000+01:00""#,
        true,
    ),
    (
        r#","timestamp":"2023-11-14T22:13:20Z""#,
        r#","timestamp":"2023-11-14T22:13:20.000000001Z""#,
        false,
    ),
    (r#","timestamp":"2023-11-14T22:13:20Z""#, "", false),
    (
        r#","context":{"extensions":{"http://e/1":"2023-11-14T22:13:20Z"}}"#,
        r#","context":{"extensions":{"http://e/1":"2023-11-14T22:13:20.0Z"}}"#,
        false,
    ),
    (
        r#","result":{"duration":"PT1.019S"}"#,
        r#","result":{"duration":"PT1,01S"}"#,
        true,
    ),
    (
        r#","result":{"duration":"PT1.01S"}"#,
        r#","result":{"duration":"PT1.02S"}"#,
        false,
    ),
    (
        r#","result":{"duration":"PT60S"}"#,
        r#","result":{"duration":"PT1M"}"#,
        false,
    ),
    (
        r#","result":{"duration":"P01DT0S"}"#,
        r#","result":{"duration":"P1D"}"#,
        true,
    ),
    (r#","result":{"duration":"P1D"}"#, r#","result":{}"#, false),
];

const SINGLE: [(&str, &str, bool); 24] = [
    (
        r#","result":{"score":{"raw":1}}"#,
        r#","result":{"score":{"min":1}}"#,
        false,
    ),
    (
        r#","result":{"score":{"max":1}}"#,
        r#","result":{"score":{"max":2}}"#,
        false,
    ),
    (
        r#","result":{"success":true}"#,
        r#","result":{"success":false}"#,
        false,
    ),
    (r#","result":{"completion":true}"#, r#","result":{}"#, false),
    (
        r#","result":{"response":"A"}"#,
        r#","result":{"response":"a"}"#,
        false,
    ),
    (
        r#","result":{"extensions":{"http://e/1":null}}"#,
        r#","result":{"extensions":{"http://e/1":false}}"#,
        false,
    ),
    (r#","result":{}"#, "", false),
    (
        r#","context":{"instructor":{"mbox":"mailto:i@j"}}"#,
        r#","context":{"instructor":{"mbox":"mailto:I@j"}}"#,
        false,
    ),
    (
        r#","context":{"team":{"objectType":"Group","mbox":"mailto:i@j"}}"#,
        r#","context":{"team":{"objectType":"Group","mbox":"mailto:i@j","name":"x"}}"#,
        false,
    ),
    (
        r#","context":{"contextActivities":{"parent":{"id":"http://c/1"}}}"#,
        r#","context":{"contextActivities":{"other":{"id":"http://c/1"}}}"#,
        false,
    ),
    (
        r#","context":{"contextActivities":{"grouping":{"id":"http://c/1"}}}"#,
        r#","context":{"contextActivities":{"category":{"id":"http://c/1"}}}"#,
        false,
    ),
    (
        r#","context":{"contextActivities":{"parent":{"id":"http://c/1"}}}"#,
        r#","context":{"contextActivities":{"parent":{"id":"http://c/1","definition":{}}}}"#,
        false,
    ),
    (
        r#","context":{"revision":"1"}"#,
        r#","context":{"revision":"2"}"#,
        false,
    ),
    (
        r#","context":{"platform":"1"}"#,
        r#","context":{"platform":"2"}"#,
        false,
    ),
    (
        r#","context":{"language":"en"}"#,
        r#","context":{"language":"EN"}"#,
        false,
    ),
    (
        r#","context":{"extensions":{"http://e/1":1}}"#,
        r#","context":{"extensions":{"http://e/2":1}}"#,
        false,
    ),
    (r#","attachments":[]"#, "", false),
    (
        r#","attachments":[{"usageType":"http://u/1","display":{"en":"d"},"contentType":"t","length":1,"sha2":"s","fileUrl":"http://f/1"}]"#,
        r#","attachments":[{"usageType":"http://u/2","display":{"en":"d"},"contentType":"t","length":1,"sha2":"s","fileUrl":"http://f/1"}]"#,
        false,
    ),
    (
        r#","attachments":[{"usageType":"http://u/1","display":{"en":"d"},"contentType":"t","length":1,"sha2":"s","fileUrl":"http://f/1"}]"#,
        r#","attachments":[{"usageType":"http://u/1","display":{"en":"e"},"contentType":"t","length":1,"sha2":"s","fileUrl":"http://f/1"}]"#,
        false,
    ),
    (
        r#","attachments":[{"usageType":"http://u/1","display":{"en":"d"},"contentType":"t","length":1,"sha2":"s","fileUrl":"http://f/1"}]"#,
        r#","attachments":[{"usageType":"http://u/1","display":{"en":"d"},"description":{},"contentType":"t","length":1,"sha2":"s","fileUrl":"http://f/1"}]"#,
        false,
    ),
    (
        r#","attachments":[{"usageType":"http://u/1","display":{"en":"d"},"contentType":"t","length":1,"sha2":"s","fileUrl":"http://f/1"}]"#,
        r#","attachments":[{"usageType":"http://u/1","display":{"en":"d"},"contentType":"T","length":1,"sha2":"s","fileUrl":"http://f/1"}]"#,
        false,
    ),
    (
        r#","attachments":[{"usageType":"http://u/1","display":{"en":"d"},"contentType":"t","length":1,"sha2":"s","fileUrl":"http://f/1"}]"#,
        r#","attachments":[{"usageType":"http://u/1","display":{"en":"d"},"contentType":"t","length":2,"sha2":"s","fileUrl":"http://f/1"}]"#,
        false,
    ),
    (
        r#","attachments":[{"usageType":"http://u/1","display":{"en":"d"},"contentType":"t","length":1,"sha2":"s","fileUrl":"http://f/1"}]"#,
        r#","attachments":[{"usageType":"http://u/1","display":{"en":"d"},"contentType":"t","length":1,"sha2":"S","fileUrl":"http://f/1"}]"#,
        false,
    ),
    (
        r#","attachments":[{"usageType":"http://u/1","display":{"en":"d"},"contentType":"t","length":1,"sha2":"s","fileUrl":"http://f/1"}]"#,
        r#","attachments":[{"usageType":"http://u/1","display":{"en":"d"},"contentType":"t","length":1,"sha2":"s","fileUrl":"http://f/2"}]"#,
        false,
    ),
];

const ACTORS: [(&str, &str, bool); 15] = [
    (
        r#""actor":{"mbox":"mailto:a@b"}"#,
        r#""actor":{"mbox":"mailto:a@b","objectType":"Agent"}"#,
        true,
    ),
    (
        r#""actor":{"mbox":"mailto:a@b"}"#,
        r#""actor":{"mbox":"mailto:a@c"}"#,
        false,
    ),
    (
        r#""actor":{"mbox":"mailto:a@b","name":"A"}"#,
        r#""actor":{"mbox":"mailto:a@b"}"#,
        false,
    ),
    (
        r#""actor":{"mbox":"mailto:a@b"}"#,
        r#""actor":{"openid":"mailto:a@b"}"#,
        false,
    ),
    (
        r#""actor":{"mbox_sha1sum":"ebd31e95054c018b10727ccffd2ef2ec3a016ee9"}"#,
        r#""actor":{"mbox_sha1sum":"EBD31e95054c018b10727ccffd2ef2ec3a016ee9"}"#,
        false,
    ),
    (
        r#""actor":{"account":{"homePage":"http://h/","name":"n"}}"#,
        r#""actor":{"account":{"name":"n","homePage":"http://h/"}}"#,
        true,
    ),
    (
        r#""actor":{"account":{"homePage":"http://h/","name":"n"}}"#,
        r#""actor":{"account":{"homePage":"http://i/","name":"n"}}"#,
        false,
    ),
    (
        r#""actor":{"account":{"homePage":"http://h/","name":"n"}}"#,
        r#""actor":{"account":{"homePage":"http://h/","name":"m"}}"#,
        false,
    ),
    (
        r#""actor":{"objectType":"Group","member":[{"mbox":"mailto:a@b"},{"mbox":"mailto:c@d"},{"openid":"http://e/"}]}"#,
        r#""actor":{"objectType":"Group","member":[{"openid":"http://e/"},{"mbox":"mailto:c@d","objectType":"Agent"},{"mbox":"mailto:a@b"}]}"#,
        true,
    ),
    (
        r#""actor":{"objectType":"Group","member":[{"mbox":"mailto:a@b"},{"mbox":"mailto:c@d"}]}"#,
        r#""actor":{"objectType":"Group","member":[{"mbox":"mailto:a@b"},{"mbox":"mailto:e@f"}]}"#,
        false,
    ),
    (
        r#""actor":{"objectType":"Group","member":[{"mbox":"mailto:a@b"}]}"#,
        r#""actor":{"objectType":"Group","member":[{"mbox":"mailto:a@b"},{"mbox":"mailto:a@b"}]}"#,
        false,
    ),
    (
        r#""actor":{"objectType":"Group","member":[{"mbox":"mailto:a@b"},{"mbox":"mailto:a@b"},{"mbox":"mailto:c@d"}]}"#,
        r#""actor":{"objectType":"Group","member":[{"mbox":"mailto:a@b"},{"mbox":"mailto:c@d"},{"mbox":"mailto:c@d"}]}"#,
        false,
    ),
    (
        r#""actor":{"objectType":"Group","member":[{"mbox":"mailto:a@b"},{"mbox":"mailto:c@d"},{"mbox":"mailto:a@b"}]}"#,
        r#""actor":{"objectType":"Group","member":[{"mbox":"mailto:c@d"},{"mbox":"mailto:a@b"},{"mbox":"mailto:a@b"}]}"#,
        true,
    ),
    (
        r#""actor":{"objectType":"Group","mbox":"mailto:a@b"}"#,
        r#""actor":{"objectType":"Group","mbox":"mailto:a@b","member":[]}"#,
        false,
    ),
    (
        r#""actor":{"objectType":"Group","mbox":"mailto:a@b"}"#,
        r#""actor":{"objectType":"Agent","mbox":"mailto:a@b"}"#,
        false,
    ),
];

const OBJECTS: [(&str, &str, bool); 9] = [
    (
        r#","verb":{"id":"http://v/1"},"object":{"id":"http://a/1"}"#,
        r#","object":{"objectType":"Activity","id":"http://a/1"},"verb":{"id":"http://v/1"}"#,
        true,
    ),
    (
        r#","verb":{"id":"http://v/1"},"object":{"id":"http://a/1"}"#,
        r#","verb":{"id":"http://V/1"},"object":{"id":"http://a/1"}"#,
        false,
    ),
    (
        r#","verb":{"id":"http://v/1","display":{"en":"did"}},"object":{"id":"http://a/1"}"#,
        r#","verb":{"id":"http://v/1","display":{"en":"done"}},"object":{"id":"http://a/1"}"#,
        false,
    ),
    (
        r#","verb":{"id":"http://v/1","display":{"en":"did"}},"object":{"id":"http://a/1"}"#,
        r#","verb":{"id":"http://v/1"},"object":{"id":"http://a/1"}"#,
        false,
    ),
    (
        r#","verb":{"id":"http://v/1"},"object":{"id":"http://a/1"}"#,
        r#","verb":{"id":"http://v/1"},"object":{"id":"http://A/1"}"#,
        false,
    ),
    (
        r#","verb":{"id":"http://v/1"},"object":{"objectType":"Agent","mbox":"mailto:a@b"}"#,
        r#","verb":{"id":"http://v/1"},"object":{"objectType":"Group","mbox":"mailto:a@b"}"#,
        false,
    ),
    (
        r#","verb":{"id":"http://v/1"},"object":{"objectType":"Group","member":[{"mbox":"mailto:a@b"},{"mbox":"mailto:c@d"}]}"#,
        r#","verb":{"id":"http://v/1"},"object":{"objectType":"Group","member":[{"mbox":"mailto:c@d"},{"mbox":"mailto:a@b"}]}"#,
        true,
    ),
    (
        r#","verb":{"id":"http://v/1"},"object":{"objectType":"StatementRef","id":"e05aa883-acaf-40ad-bf54-02c8ce485fb0"}"#,
        r#","verb":{"id":"http://v/1"},"object":{"objectType":"StatementRef","id":"E05AA883-ACAF-40AD-BF54-02C8CE485FB0"}"#,
        true,
    ),
    (
        r#","verb":{"id":"http://v/1"},"object":{"objectType":"StatementRef","id":"e05aa883-acaf-40ad-bf54-02c8ce485fb0"}"#,
        r#","verb":{"id":"http://v/1"},"object":{"objectType":"StatementRef","id":"e05aa883-acaf-40ad-bf54-02c8ce485fb1"}"#,
        false,
    ),
];

const DEFINITIONS: [(&str, &str, bool); 11] = [
    (r#""name":{"en":"n"}"#, r#""name":{"de":"n"}"#, false),
    (
        r#""description":{"en":"n"}"#,
        r#""description":{"en":"m"}"#,
        false,
    ),
    (r#""type":"http://t/1""#, r#""type":"http://t/2""#, false),
    (
        r#""moreInfo":"http://t/1""#,
        r#""moreInfo":"http://t/2""#,
        false,
    ),
    (
        r#""extensions":{"http://e/1":0.5}"#,
        r#""extensions":{"http://e/1":0.6}"#,
        false,
    ),
    (
        r#""interactionType":"choice""#,
        r#""interactionType":"likert""#,
        false,
    ),
    (
        r#""correctResponsesPattern":["a","b"]"#,
        r#""correctResponsesPattern":["b","a"]"#,
        false,
    ),
    (
        r#""choices":[{"id":"a"}]"#,
        r#""choices":[{"id":"A"}]"#,
        false,
    ),
    (r#""scale":[{"id":"a"}]"#, r#""scale":[]"#, false),
    (
        r#""source":[{"id":"a"}]"#,
        r#""target":[{"id":"a"}]"#,
        false,
    ),
    (
        r#""steps":[{"id":"a"},{"id":"b"}]"#,
        r#""steps":[{"id":"b"},{"id":"a"}]"#,
        false,
    ),
];

const NESTED: [(&str, &str, bool); 7] = [
    (
        r#","timestamp":"2023-11-14T22:13:20Z""#,
        r#","timestamp":"2023-11-14T20:13:20-02:00""#,
        true,
    ),
    (
        r#","timestamp":"2023-11-14T22:13:20Z""#,
        r#","timestamp":"2023-11-14T22:13:21Z""#,
        false,
    ),
    (r#","timestamp":"2023-11-14T22:13:20Z""#, "", false),
    (
        r#","result":{"duration":"PT1.009S","score":{"scaled":1.0}}"#,
        r#","result":{"score":{"scaled":1},"duration":"PT1S"}"#,
        true,
    ),
    (
        r#","context":{"contextActivities":{"other":{"id":"http://c/1"}},"registration":"ec531277-b57b-4c15-8d91-d292c5b2b8f7"}"#,
        r#","context":{"registration":"EC531277-b57b-4c15-8d91-d292c5b2b8f7","contextActivities":{"other":[{"id":"http://c/1"}]}}"#,
        true,
    ),
    (
        r#","context":{"team":{"objectType":"Group","member":[{"mbox":"mailto:a@b"},{"mbox":"mailto:c@d"}]}}"#,
        r#","context":{"team":{"objectType":"Group","member":[{"mbox":"mailto:c@d"},{"mbox":"mailto:a@b"}]}}"#,
        true,
    ),
    (r#","attachments":[]"#, "", false),
];

fn statement(alloc: Global, front: &str, middle: &str, back: &str) -> Result<Statement, Fail> {
    let mut text = Vec::new(alloc);
    text.extend_from_slice(front.as_bytes())?;
    text.extend_from_slice(middle.as_bytes())?;
    text.extend_from_slice(back.as_bytes())?;
    let tree = read(alloc, text.as_slice())?;
    Ok(Statement::read(alloc, tree)?)
}

// Whether the statement and that of the text are the same, or not, either way round.
fn is_right(
    alloc: Global,
    a: &Statement,
    text: (&str, &str, &str),
    wanted: bool,
) -> Result<bool, Fail> {
    let b = statement(alloc, text.0, text.1, text.2)?;
    let right = same(a, &b) == wanted && same(&b, a) == wanted && same(a, a);
    drop(b);
    Ok(right)
}

// The same of two texts, between what stands before and after both.
fn are_right(
    alloc: Global,
    front: &str,
    one: &str,
    other: &str,
    back: &str,
    wanted: bool,
) -> Result<bool, Fail> {
    let a = statement(alloc, front, one, back)?;
    let right = is_right(alloc, &a, (front, other, back), wanted);
    drop(a);
    right
}

// Fails with the first row, one statement, another and whether they are the same, that isn't so either way round.
fn check_rows(
    alloc: Global,
    front: &str,
    rows: &[(&str, &str, bool)],
    back: &str,
) -> Result<(), Fail> {
    for (i, (one, other, wanted)) in rows.iter().enumerate() {
        if !are_right(alloc, front, one, other, back, *wanted)? {
            return wrong_row(i);
        }
    }
    Ok(())
}

// What follows the actor, the verb and the object.

#[test]
fn what_does_not_count_and_what_does(rt: HostRuntime) -> Result<(), Fail> {
    check_rows(rt.alloc(), ACTED, &COMMON, "}")
}

#[test]
fn each_other_member_counts(rt: HostRuntime) -> Result<(), Fail> {
    check_rows(rt.alloc(), ACTED, &SINGLE, "}")
}

#[test]
fn each_member_of_a_definition_counts(rt: HostRuntime) -> Result<(), Fail> {
    check_rows(rt.alloc(), DEFINED, &DEFINITIONS, "}}}")
}

#[test]
fn actors_and_groups(rt: HostRuntime) -> Result<(), Fail> {
    let back = r#","verb":{"id":"http://v/1"},"object":{"id":"http://a/1"}}"#;
    check_rows(rt.alloc(), "{", &ACTORS, back)
}

#[test]
fn verbs_and_objects(rt: HostRuntime) -> Result<(), Fail> {
    check_rows(rt.alloc(), ABOUT, &OBJECTS, "}")
}

#[test]
fn the_same_holds_in_a_substatement(rt: HostRuntime) -> Result<(), Fail> {
    check_rows(rt.alloc(), WITHIN, &NESTED, "}}")
}

// Members of two Groups, each by a letter, and whether these are the same.
const MANY: [(&str, &str, bool); 5] = [
    (
        "abcdefghijklmnopqrstuvwxyz0123456789",
        "9876543210zyxwvutsrqponmlkjihgfedcba",
        true,
    ),
    (
        "aabcdefghijklmnopqrstuvwxyz012345678",
        "876543210zyxwvutsrqponmlkjihgfedcbaa",
        true,
    ),
    (
        "aabcdefghijklmnopqrstuvwxyz012345678",
        "8876543210zyxwvutsrqponmlkjihgfedcba",
        false,
    ),
    (
        "abcdefghijklmnopqrstuvwxyz0123456789",
        "A876543210zyxwvutsrqponmlkjihgfedcba",
        false,
    ),
    (
        "abcdefghijklmnopqrstuvwxyz0123456789",
        "9876543210zyxwvutsrqponmlkjihgfedcb~",
        false,
    ),
];

// What stands before and after a letter.
const MEMBERS: [(&str, &str); 3] = [
    (r#"{"mbox":"mailto:"#, r#"@b"}"#),
    (r#"{"account":{"homePage":"http://h/","name":""#, r#""}}"#),
    (r#"{"openid":"http://o/","name":""#, r#""}"#),
];

fn members(alloc: Global, letters: &str, front: &str, back: &str) -> Result<String, Fail> {
    let mut text = String::new(alloc);
    for letter in letters.chars() {
        if !text.is_empty() {
            text.push(',')?;
        }
        text.push_str(front)?;
        text.push(letter)?;
        text.push_str(back)?;
    }
    Ok(text)
}

fn check_groups(alloc: Global, before: &str, behind: &str) -> Result<(), Fail> {
    let front = r#"{"actor":{"objectType":"Group","member":["#;
    let back = r#"]},"verb":{"id":"http://v/1"},"object":{"id":"http://a/1"}}"#;
    for (i, (one, other, wanted)) in MANY.iter().enumerate() {
        let a = members(alloc, one, before, behind)?;
        let b = members(alloc, other, before, behind)?;
        if !are_right(alloc, front, a.as_str(), b.as_str(), back, *wanted)? {
            return wrong_row(i);
        }
    }
    Ok(())
}

#[test]
fn many_members_are_compared_in_any_order(rt: HostRuntime) -> Result<(), Fail> {
    for (before, behind) in &MEMBERS {
        check_groups(rt.alloc(), before, behind)?;
    }
    Ok(())
}

// Members of two objects, each by the letter that is its name, the value of one more (1 in the first), and whether
// these are the same.
const MANY_NAMES: [(&str, &str, u8, bool); 5] = [
    (
        "abcdefghijklmnopqrstuvwxyz0123456789",
        "9876543210zyxwvutsrqponmlkjihgfedcba",
        1,
        true,
    ),
    (
        "abcdefghijklmnopqrstuvwxyz0123456789",
        "z9m4ayl8bx3kcw7jdv2ieu6hft1gs5r0qnop",
        1,
        true,
    ),
    (
        "abcdefghijklmnopqrstuvwxyz0123456789",
        "9876543210zyxwvutsrqponmlkjihgfedcba",
        2,
        false,
    ),
    (
        "abcdefghijklmnopqrstuvwxyz0123456789",
        "A876543210zyxwvutsrqponmlkjihgfedcba",
        1,
        false,
    ),
    (
        "abcdefghijklmnopqrstuvwxyz0123456789",
        "876543210zyxwvutsrqponmlkjihgfedcba",
        1,
        false,
    ),
];

const EXTENDED: &str =
    r#"{"actor":{"mbox":"mailto:a@b"},"verb":{"id":"http://v/1"},"object":{"id":"http://a/1"},"result":{"extensions":{"http://e/1":"#;

// What stands before and after a letter.
const NAMES: [(&str, &str); 2] = [("\"", "\":1"), ("\"http://long/", "\":[{}]")];

// Objects with the members of these letters and one more, which stands last in one and first in the other.
fn are_right_objects(
    alloc: Global,
    one: &str,
    other: &str,
    last: u8,
    wanted: bool,
) -> Result<bool, Fail> {
    let one = format!(in alloc; "{{{one},\"!\":1}}")?;
    let other = format!(in alloc; "{{\"!\":{last},{other}}}")?;
    are_right(alloc, EXTENDED, one.as_str(), other.as_str(), "}}}", wanted)
}

fn check_objects(alloc: Global, front: &str, back: &str) -> Result<(), Fail> {
    for (i, (one, other, last, wanted)) in MANY_NAMES.iter().enumerate() {
        let one = members(alloc, one, front, back)?;
        let other = members(alloc, other, front, back)?;
        if !are_right_objects(alloc, one.as_str(), other.as_str(), *last, *wanted)? {
            return wrong_row(i);
        }
    }
    Ok(())
}

#[test]
fn many_members_of_an_object_are_compared_in_any_order(rt: HostRuntime) -> Result<(), Fail> {
    for (front, back) in &NAMES {
        check_objects(rt.alloc(), front, back)?;
    }
    Ok(())
}

// So many objects within one another, each with these members and the next object.
fn nested(alloc: Global, letters: &str, levels: usize) -> Result<String, Fail> {
    let members = members(alloc, letters, "\"", "\":1")?;
    let mut text = String::new(alloc);
    for _ in 0..levels {
        text.push('{')?;
        text.push_str(members.as_str())?;
        text.push_str(",\"_\":")?;
    }
    text.push_str("{}")?;
    for _ in 0..levels {
        text.push('}')?;
    }
    Ok(text)
}

fn are_alike_at_each_level(alloc: Global) -> Result<bool, Fail> {
    let a = nested(alloc, "abcdefghijklmnopqrstuvwxyz0123456789", 60)?;
    let b = nested(alloc, "9876543210zyxwvutsrqponmlkjihgfedcba", 60)?;
    are_right(alloc, EXTENDED, a.as_str(), b.as_str(), "}}}", true)
}

// As deep as a value may be.
#[test]
fn many_members_are_compared_at_each_level(rt: HostRuntime) -> Result<(), Fail> {
    assert!(rt; are_alike_at_each_level(rt.alloc())?);
    Ok(())
}
