// The tests of xapi_rules.
mod nulls;
mod objects;
mod parts;

use crate::failing::wrong_row;
use lrs_json_reader::read;
use std::alloc::Global;
use std::test::Fail;
use xapi_rules::broken_rule;

pub fn rule_of(alloc: Global, text: &str) -> Result<Option<u8>, Fail> {
    let tree = read(alloc, text.as_bytes())?;
    Ok(broken_rule(alloc, &tree)?)
}

// Fails with the first row, a rule and a statement, whose statement doesn't break that rule as the least.
pub fn check_rules(alloc: Global, rows: &[(u8, &str)]) -> Result<(), Fail> {
    for (i, (rule, text)) in rows.iter().enumerate() {
        if rule_of(alloc, text)? != Some(*rule) {
            return wrong_row(i);
        }
    }
    Ok(())
}

// Fails with the first statement that breaks a rule.
fn check_lawful(alloc: Global, texts: &[&str]) -> Result<(), Fail> {
    for (i, text) in texts.iter().enumerate() {
        if rule_of(alloc, text)?.is_some() {
            return wrong_row(i);
        }
    }
    Ok(())
}

// Statements that break no rule.
const EDGES: [&str; 63] = [
    "{\"actor\":{\"mbox\":\"mailto:a@b\"},\"verb\":{\"id\":\"http://v/1\"},\"object\":{\"id\":\"http://a/1\"},\"result\":{\"extensions\":{\"http://e/1\":null,\"http://e/2\":[null,{\"a\":null}]}}}",
    "{\"actor\":{\"mbox\":\"mailto:a@b\"},\"verb\":{\"id\":\"http://v/1\"},\"object\":{\"id\":\"http://a/1\"},\"context\":{\"extensions\":{\"http://e/1\":null}}}",
    "{\"actor\":{\"mbox\":\"mailto:a@b\"},\"verb\":{\"id\":\"http://v/1\"},\"object\":{\"id\":\"http://a/1\",\"definition\":{\"extensions\":{\"http://e/1\":null}}}}",
    "{\"actor\":{\"mbox\":\"mailto:a@b\"},\"verb\":{\"id\":\"http://v/1\"},\"object\":{\"objectType\":\"SubStatement\",\"actor\":{\"mbox\":\"mailto:a@b\"},\"verb\":{\"id\":\"http://v/1\"},\"object\":{\"id\":\"http://a/1\"},\"result\":{\"extensions\":{\"http://e/1\":null}}}}",
    "{\"actor\":{\"mbox\":\"mailto:a@b\"},\"verb\":{\"id\":\"http://v/1\"},\"object\":{\"objectType\":\"SubStatement\",\"actor\":{\"mbox\":\"mailto:a@b\"},\"verb\":{\"id\":\"http://v/1\"},\"object\":{\"id\":\"http://a/1\",\"definition\":{\"extensions\":{\"http://e/1\":{\"x\":null}}}}}}",
    "{\"actor\":{\"mbox\":\"mailto:a@b\"},\"verb\":{\"id\":\"http://v/1\"},\"object\":{\"id\":\"http://a/1\"},\"context\":{\"contextActivities\":{\"parent\":{\"id\":\"http://p/1\",\"definition\":{\"extensions\":{\"http://e/1\":null}}},\"other\":[{\"id\":\"http://p/1\",\"definition\":{\"extensions\":{\"http://e/1\":null}}}]}}}",
    "{\"actor\":{\"mbox\":\"mailto:a@b\"},\"verb\":{\"id\":\"http://v/1\"},\"object\":{\"id\":\"http://a/1\"},\"id\":\"ABCDEFAB-CDEF-4111-8111-111111111111\"}",
    "{\"actor\":{\"mbox\":\"mailto:a@b\"},\"verb\":{\"id\":\"http://v/1\"},\"object\":{\"id\":\"http://a/1\"},\"id\":\"00000000-0000-0000-0000-000000000000\"}",
    "{\"actor\":{\"mbox\":\"mailto:a@b\"},\"verb\":{\"id\":\"http://v/1\"},\"object\":{\"id\":\"http://a/1\"},\"version\":\"1.0.\"}",
    "{\"actor\":{\"mbox\":\"mailto:a@b\"},\"verb\":{\"id\":\"http://v/1\"},\"object\":{\"id\":\"http://a/1\"},\"version\":\"1.0.3\"}",
    "{\"actor\":{\"mbox\":\"mailto:a@b\"},\"verb\":{\"id\":\"a:b\"},\"object\":{\"id\":\"http://a/1\"}}",
    "{\"actor\":{\"mbox\":\"mailto:a@b\"},\"verb\":{\"id\":\"a+-.1:\\u00e9#x\"},\"object\":{\"id\":\"http://a/1\"}}",
    "{\"actor\":{\"mbox\":\"mailto:a@b\"},\"verb\":{\"id\":\"http://v/1\"},\"object\":{\"id\":\"http://a/1\",\"definition\":{\"extensions\":{}}}}",
    "{\"actor\":{\"mbox_sha1sum\":\"0123456789ABCDEF0123456789abcdef01234567\"},\"verb\":{\"id\":\"http://v/1\"},\"object\":{\"id\":\"http://a/1\"}}",
    "{\"actor\":{\"objectType\":\"Agent\",\"name\":\"\",\"openid\":\"http://o/1\"},\"verb\":{\"id\":\"http://v/1\"},\"object\":{\"id\":\"http://a/1\"}}",
    "{\"actor\":{\"objectType\":\"Group\",\"member\":[]},\"verb\":{\"id\":\"http://v/1\"},\"object\":{\"id\":\"http://a/1\"}}",
    "{\"actor\":{\"objectType\":\"Group\",\"name\":\"g\",\"mbox\":\"mailto:a@b\"},\"verb\":{\"id\":\"http://v/1\"},\"object\":{\"id\":\"http://a/1\"}}",
    "{\"actor\":{\"mbox\":\"mailto:a@b\"},\"verb\":{\"id\":\"http://v/1\",\"display\":{}},\"object\":{\"id\":\"http://a/1\"}}",
    "{\"actor\":{\"mbox\":\"mailto:a@b\"},\"verb\":{\"id\":\"http://v/1\",\"display\":{\"abcdefgh-12345678-a\":\"\"}},\"object\":{\"id\":\"http://a/1\"}}",
    "{\"actor\":{\"mbox\":\"mailto:a@b\"},\"verb\":{\"id\":\"http://v/1\"},\"object\":{\"id\":\"http://a/1\",\"definition\":{}}}",
    "{\"actor\":{\"mbox\":\"mailto:a@b\"},\"verb\":{\"id\":\"http://v/1\"},\"object\":{\"id\":\"http://a/1\",\"definition\":{\"name\":{},\"description\":{},\"type\":\"http://t/1\",\"moreInfo\":\"http://m/1\",\"extensions\":{}}}}",
    "{\"actor\":{\"mbox\":\"mailto:a@b\"},\"verb\":{\"id\":\"http://v/1\"},\"object\":{\"id\":\"http://a/1\",\"definition\":{\"interactionType\":\"true-false\"}}}",
    "{\"actor\":{\"mbox\":\"mailto:a@b\"},\"verb\":{\"id\":\"http://v/1\"},\"object\":{\"id\":\"http://a/1\",\"definition\":{\"interactionType\":\"choice\"}}}",
    "{\"actor\":{\"mbox\":\"mailto:a@b\"},\"verb\":{\"id\":\"http://v/1\"},\"object\":{\"id\":\"http://a/1\",\"definition\":{\"interactionType\":\"fill-in\"}}}",
    "{\"actor\":{\"mbox\":\"mailto:a@b\"},\"verb\":{\"id\":\"http://v/1\"},\"object\":{\"id\":\"http://a/1\",\"definition\":{\"interactionType\":\"long-fill-in\"}}}",
    "{\"actor\":{\"mbox\":\"mailto:a@b\"},\"verb\":{\"id\":\"http://v/1\"},\"object\":{\"id\":\"http://a/1\",\"definition\":{\"interactionType\":\"matching\"}}}",
    "{\"actor\":{\"mbox\":\"mailto:a@b\"},\"verb\":{\"id\":\"http://v/1\"},\"object\":{\"id\":\"http://a/1\",\"definition\":{\"interactionType\":\"performance\"}}}",
    "{\"actor\":{\"mbox\":\"mailto:a@b\"},\"verb\":{\"id\":\"http://v/1\"},\"object\":{\"id\":\"http://a/1\",\"definition\":{\"interactionType\":\"sequencing\"}}}",
    "{\"actor\":{\"mbox\":\"mailto:a@b\"},\"verb\":{\"id\":\"http://v/1\"},\"object\":{\"id\":\"http://a/1\",\"definition\":{\"interactionType\":\"likert\"}}}",
    "{\"actor\":{\"mbox\":\"mailto:a@b\"},\"verb\":{\"id\":\"http://v/1\"},\"object\":{\"id\":\"http://a/1\",\"definition\":{\"interactionType\":\"numeric\"}}}",
    "{\"actor\":{\"mbox\":\"mailto:a@b\"},\"verb\":{\"id\":\"http://v/1\"},\"object\":{\"id\":\"http://a/1\",\"definition\":{\"interactionType\":\"other\"}}}",
    "{\"actor\":{\"mbox\":\"mailto:a@b\"},\"verb\":{\"id\":\"http://v/1\"},\"object\":{\"id\":\"http://a/1\",\"definition\":{\"correctResponsesPattern\":[],\"choices\":[],\"scale\":[{\"id\":\"\"}],\"source\":[{\"id\":\"a\",\"description\":{}}],\"target\":[{\"id\":\"a\"}],\"steps\":[{\"id\":\"a\"},{\"id\":\"A\"}]}}}",
    "{\"actor\":{\"mbox\":\"mailto:a@b\"},\"verb\":{\"id\":\"http://adlnet.gov/expapi/verbs/voided\"},\"object\":{\"objectType\":\"StatementRef\",\"id\":\"11111111-1111-4111-8111-111111111111\"}}",
    "{\"actor\":{\"mbox\":\"mailto:a@b\"},\"verb\":{\"id\":\"http://v/1\"},\"object\":{\"objectType\":\"SubStatement\",\"actor\":{\"mbox\":\"mailto:a@b\"},\"verb\":{\"id\":\"http://adlnet.gov/expapi/verbs/voided\"},\"object\":{\"id\":\"http://a/1\"}}}",
    "{\"actor\":{\"mbox\":\"mailto:a@b\"},\"verb\":{\"id\":\"http://v/1\"},\"object\":{\"objectType\":\"StatementRef\",\"id\":\"11111111-1111-4111-8111-111111111111\"}}",
    "{\"actor\":{\"mbox\":\"mailto:a@b\"},\"verb\":{\"id\":\"http://v/1\"},\"object\":{\"objectType\":\"SubStatement\",\"actor\":{\"mbox\":\"mailto:a@b\"},\"verb\":{\"id\":\"http://v/1\"},\"object\":{\"objectType\":\"StatementRef\",\"id\":\"11111111-1111-4111-8111-111111111111\"}}}",
    "{\"actor\":{\"mbox\":\"mailto:a@b\"},\"verb\":{\"id\":\"http://v/1\"},\"object\":{\"id\":\"http://a/1\"},\"context\":{\"statement\":{\"objectType\":\"StatementRef\",\"id\":\"11111111-1111-4111-8111-111111111111\"}}}",
    "{\"actor\":{\"mbox\":\"mailto:a@b\"},\"verb\":{\"id\":\"http://v/1\"},\"object\":{\"id\":\"http://a/1\"},\"result\":{}}",
    "{\"actor\":{\"mbox\":\"mailto:a@b\"},\"verb\":{\"id\":\"http://v/1\"},\"object\":{\"id\":\"http://a/1\"},\"result\":{\"score\":{},\"success\":false,\"completion\":true,\"response\":\"\",\"duration\":\"P1D\",\"extensions\":{}}}",
    "{\"actor\":{\"mbox\":\"mailto:a@b\"},\"verb\":{\"id\":\"http://v/1\"},\"object\":{\"id\":\"http://a/1\"},\"result\":{\"duration\":\"PT1.5S\"}}",
    "{\"actor\":{\"mbox\":\"mailto:a@b\"},\"verb\":{\"id\":\"http://v/1\"},\"object\":{\"objectType\":\"SubStatement\",\"actor\":{\"mbox\":\"mailto:a@b\"},\"verb\":{\"id\":\"http://v/1\"},\"object\":{\"id\":\"http://a/1\"},\"result\":{\"duration\":\"P1Y2M3W4DT5H6M7S\"}}}",
    "{\"actor\":{\"mbox\":\"mailto:a@b\"},\"verb\":{\"id\":\"http://v/1\"},\"object\":{\"id\":\"http://a/1\"},\"result\":{\"score\":{\"scaled\":1}}}",
    "{\"actor\":{\"mbox\":\"mailto:a@b\"},\"verb\":{\"id\":\"http://v/1\"},\"object\":{\"id\":\"http://a/1\"},\"result\":{\"score\":{\"scaled\":10e-1}}}",
    "{\"actor\":{\"mbox\":\"mailto:a@b\"},\"verb\":{\"id\":\"http://v/1\"},\"object\":{\"id\":\"http://a/1\"},\"result\":{\"score\":{\"scaled\":-1.0,\"raw\":1e1,\"min\":10,\"max\":10.5}}}",
    "{\"actor\":{\"mbox\":\"mailto:a@b\"},\"verb\":{\"id\":\"http://v/1\"},\"object\":{\"id\":\"http://a/1\"},\"result\":{\"score\":{\"raw\":2,\"min\":1,\"max\":2.0}}}",
    "{\"actor\":{\"mbox\":\"mailto:a@b\"},\"verb\":{\"id\":\"http://v/1\"},\"object\":{\"id\":\"http://a/1\"},\"context\":{}}",
    "{\"actor\":{\"mbox\":\"mailto:a@b\"},\"verb\":{\"id\":\"http://v/1\"},\"object\":{\"id\":\"http://a/1\"},\"context\":{\"registration\":\"11111111-1111-4111-8111-111111111111\",\"instructor\":{\"objectType\":\"Group\",\"mbox\":\"mailto:a@b\"},\"team\":{\"objectType\":\"Group\",\"member\":[]},\"revision\":\"\",\"platform\":\"\",\"language\":\"en-US\"}}",
    "{\"actor\":{\"mbox\":\"mailto:a@b\"},\"verb\":{\"id\":\"http://v/1\"},\"object\":{\"id\":\"http://a/1\"},\"context\":{\"contextActivities\":{}}}",
    "{\"actor\":{\"mbox\":\"mailto:a@b\"},\"verb\":{\"id\":\"http://v/1\"},\"object\":{\"id\":\"http://a/1\"},\"context\":{\"contextActivities\":{\"parent\":[],\"grouping\":[{\"id\":\"http://p/1\"},{\"objectType\":\"Activity\",\"id\":\"http://p/2\"}],\"category\":{\"id\":\"http://p/3\"},\"other\":[]}}}",
    "{\"actor\":{\"mbox\":\"mailto:a@b\"},\"verb\":{\"id\":\"http://v/1\"},\"object\":{\"objectType\":\"Activity\",\"id\":\"http://a/1\"},\"context\":{\"platform\":\"x\",\"revision\":\"x\"}}",
    "{\"actor\":{\"mbox\":\"mailto:a@b\"},\"verb\":{\"id\":\"http://v/1\"},\"object\":{\"objectType\":\"SubStatement\",\"actor\":{\"mbox\":\"mailto:a@b\"},\"verb\":{\"id\":\"http://v/1\"},\"object\":{\"id\":\"http://a/1\"},\"context\":{\"platform\":\"x\"}}}",
    "{\"actor\":{\"mbox\":\"mailto:a@b\"},\"verb\":{\"id\":\"http://v/1\"},\"object\":{\"id\":\"http://a/1\"},\"timestamp\":\"2024-02-29T23:59:59.123456789+14:00\",\"stored\":\"2024-01-01T00:00:00\"}",
    "{\"actor\":{\"mbox\":\"mailto:a@b\"},\"verb\":{\"id\":\"http://v/1\"},\"object\":{\"objectType\":\"SubStatement\",\"actor\":{\"mbox\":\"mailto:a@b\"},\"verb\":{\"id\":\"http://v/1\"},\"object\":{\"id\":\"http://a/1\"},\"timestamp\":\"2024-01-01T00:00:00Z\"}}",
    "{\"actor\":{\"mbox\":\"mailto:a@b\"},\"verb\":{\"id\":\"http://v/1\"},\"object\":{\"id\":\"http://a/1\"},\"authority\":{\"mbox\":\"mailto:a@b\"}}",
    "{\"actor\":{\"mbox\":\"mailto:a@b\"},\"verb\":{\"id\":\"http://v/1\"},\"object\":{\"id\":\"http://a/1\"},\"authority\":{\"objectType\":\"Group\",\"member\":[{\"mbox\":\"mailto:a@b\"},{\"mbox\":\"mailto:a@b\"}]}}",
    "{\"actor\":{\"mbox\":\"mailto:a@b\"},\"verb\":{\"id\":\"http://v/1\"},\"object\":{\"id\":\"http://a/1\"},\"attachments\":[]}",
    "{\"actor\":{\"mbox\":\"mailto:a@b\"},\"verb\":{\"id\":\"http://v/1\"},\"object\":{\"id\":\"http://a/1\"},\"attachments\":[{\"usageType\":\"http://u/1\",\"display\":{\"en\":\"x\"},\"contentType\":\"t/x\",\"length\":-0,\"sha2\":\"s\",\"fileUrl\":\"http://f/1\"}]}",
    "{\"actor\":{\"mbox\":\"mailto:a@b\"},\"verb\":{\"id\":\"http://v/1\"},\"object\":{\"id\":\"http://a/1\"},\"attachments\":[{\"usageType\":\"http://u/1\",\"display\":{\"en\":\"x\"},\"contentType\":\"t/x\",\"length\":1.0,\"sha2\":\"s\",\"fileUrl\":\"http://f/1\"}]}",
    "{\"actor\":{\"mbox\":\"mailto:a@b\"},\"verb\":{\"id\":\"http://v/1\"},\"object\":{\"id\":\"http://a/1\"},\"attachments\":[{\"usageType\":\"http://u/1\",\"display\":{\"en\":\"x\"},\"contentType\":\"t/x\",\"length\":10e-1,\"sha2\":\"s\",\"fileUrl\":\"http://f/1\"}]}",
    "{\"actor\":{\"mbox\":\"mailto:a@b\"},\"verb\":{\"id\":\"http://v/1\"},\"object\":{\"id\":\"http://a/1\"},\"attachments\":[{\"usageType\":\"http://u/1\",\"display\":{\"en\":\"x\"},\"contentType\":\"t/x\",\"length\":1e2,\"sha2\":\"s\",\"fileUrl\":\"http://f/1\"}]}",
    "{\"actor\":{\"mbox\":\"mailto:a@b\"},\"verb\":{\"id\":\"http://v/1\"},\"object\":{\"id\":\"http://a/1\"},\"attachments\":[{\"usageType\":\"http://u/1\",\"display\":{\"en\":\"x\"},\"contentType\":\"t/x\",\"length\":9007199254740993,\"sha2\":\"s\",\"fileUrl\":\"http://f/1\"}]}",
    "{\"actor\":{\"mbox\":\"mailto:a@b\"},\"verb\":{\"id\":\"http://v/1\"},\"object\":{\"id\":\"http://a/1\"},\"attachments\":[{\"usageType\":\"http://u/1\",\"display\":{\"en\":\"x\"},\"contentType\":\"t/x\",\"length\":0.0e5,\"sha2\":\"s\",\"fileUrl\":\"http://f/1\"}]}",
    "{\"actor\":{\"mbox\":\"mailto:a@b\"},\"verb\":{\"id\":\"http://v/1\"},\"object\":{\"objectType\":\"SubStatement\",\"actor\":{\"mbox\":\"mailto:a@b\"},\"verb\":{\"id\":\"http://v/1\"},\"object\":{\"id\":\"http://a/1\"},\"attachments\":[{\"usageType\":\"http://u/1\",\"display\":{\"en\":\"x\"},\"contentType\":\"t/x\",\"length\":0,\"sha2\":\"s\",\"fileUrl\":\"http://f/1\",\"description\":{}}]}}",
];

#[test]
fn statements_at_the_edge_of_a_rule_meet_it(rt: HostRuntime) -> Result<(), Fail> {
    check_lawful(rt.alloc(), &EDGES)
}

// Statements that break two rules.
const PAIRS: [(u8, &str); 24] = [
    (
        1,
        "{\"verb\":{\"id\":\"http://v/1\"},\"object\":{\"id\":\"http://a/1\"},\"x\":1}",
    ),
    (
        2,
        "{\"actor\":{\"mbox\":\"mailto:a@b\"},\"verb\":{\"id\":\"http://v/1\"},\"object\":{\"id\":\"http://a/1\"},\"x\":null}",
    ),
    (
        3,
        "{\"actor\":{\"mbox\":\"mailto:a@b\"},\"verb\":{\"id\":\"http://v/1\"},\"object\":{\"id\":\"http://a/1\"},\"id\":null}",
    ),
    (
        3,
        "{\"actor\":{\"mbox\":\"mailto:a@b\"},\"verb\":{\"id\":\"v\"},\"object\":{\"id\":\"http://a/1\"},\"result\":{\"response\":null}}",
    ),
    (
        4,
        "{\"actor\":{\"mbox\":\"mailto:a@b\"},\"verb\":{\"id\":\"http://v/1\"},\"object\":{\"id\":\"http://a/1\"},\"id\":\"x\",\"version\":\"2\"}",
    ),
    (
        5,
        "{\"actor\":{\"mbox\":\"mailto:a@b\"},\"verb\":{\"id\":\"v\"},\"object\":{\"id\":\"http://a/1\"},\"version\":\"2\"}",
    ),
    (
        6,
        "{\"actor\":{\"mbox\":\"x\",\"openid\":\"x\"},\"verb\":{\"id\":\"http://v/1\"},\"object\":{\"id\":\"http://a/1\"}}",
    ),
    (
        7,
        "{\"actor\":{\"mbox\":\"x\",\"x\":1},\"verb\":{\"id\":\"http://v/1\"},\"object\":{\"id\":\"http://a/1\"}}",
    ),
    (
        6,
        "{\"actor\":{\"openid\":\"x\"},\"verb\":{\"id\":\"http://v/1\"},\"object\":{\"id\":\"http://a/1\"}}",
    ),
    (
        11,
        "{\"actor\":5,\"verb\":5,\"object\":{\"id\":\"http://a/1\"}}",
    ),
    (
        14,
        "{\"actor\":{\"mbox\":\"mailto:a@b\"},\"verb\":{\"display\":5},\"object\":{\"id\":\"http://a/1\"}}",
    ),
    (
        16,
        "{\"actor\":{\"mbox\":\"mailto:a@b\"},\"verb\":{},\"object\":5}",
    ),
    (
        18,
        "{\"actor\":{\"mbox\":\"mailto:a@b\"},\"verb\":{\"id\":\"http://v/1\"},\"object\":{\"definition\":5}}",
    ),
    (
        19,
        "{\"actor\":{\"mbox\":\"mailto:a@b\"},\"verb\":{\"id\":\"http://v/1\"},\"object\":{\"id\":\"http://a/1\",\"definition\":{\"x\":1,\"interactionType\":5}}}",
    ),
    (
        20,
        "{\"actor\":{\"mbox\":\"mailto:a@b\"},\"verb\":{\"id\":\"http://v/1\"},\"object\":{\"id\":\"http://a/1\",\"definition\":{\"choices\":[{\"id\":\"a\"},{\"id\":\"a\"},5]}}}",
    ),
    (
        21,
        "{\"actor\":{\"mbox\":\"mailto:a@b\"},\"verb\":{\"id\":\"http://adlnet.gov/expapi/verbs/voided\"},\"object\":{\"id\":\"http://a/1\",\"definition\":{\"choices\":[{\"id\":\"a\"},{\"id\":\"a\"}]}}}",
    ),
    (
        17,
        "{\"actor\":{\"mbox\":\"mailto:a@b\"},\"verb\":{\"id\":\"http://v/1\"},\"object\":5,\"context\":{\"platform\":\"x\"}}",
    ),
    (
        24,
        "{\"actor\":{\"mbox\":\"mailto:a@b\"},\"verb\":{\"id\":\"http://v/1\"},\"object\":{\"id\":\"http://a/1\"},\"result\":{\"x\":1,\"duration\":\"x\"}}",
    ),
    (
        25,
        "{\"actor\":{\"mbox\":\"mailto:a@b\"},\"verb\":{\"id\":\"http://v/1\"},\"object\":{\"id\":\"http://a/1\"},\"result\":{\"duration\":\"x\",\"score\":5}}",
    ),
    (
        26,
        "{\"actor\":{\"mbox\":\"mailto:a@b\"},\"verb\":{\"id\":\"http://v/1\"},\"object\":{\"id\":\"http://a/1\"},\"result\":{\"score\":5},\"context\":5}",
    ),
    (
        27,
        "{\"actor\":{\"mbox\":\"mailto:a@b\"},\"verb\":{\"id\":\"http://v/1\"},\"object\":{\"objectType\":\"Agent\",\"mbox\":\"mailto:c@d\"},\"context\":{\"platform\":5}}",
    ),
    (
        29,
        "{\"actor\":{\"mbox\":\"mailto:a@b\"},\"verb\":{\"id\":\"http://v/1\"},\"object\":{\"objectType\":\"Agent\",\"mbox\":\"mailto:c@d\"},\"context\":{\"platform\":\"x\"},\"timestamp\":5}",
    ),
    (
        30,
        "{\"actor\":{\"mbox\":\"mailto:a@b\"},\"verb\":{\"id\":\"http://v/1\"},\"object\":{\"id\":\"http://a/1\"},\"timestamp\":5,\"attachments\":5}",
    ),
    (
        31,
        "{\"actor\":{\"mbox\":\"mailto:a@b\"},\"verb\":{\"id\":\"http://v/1\"},\"object\":{\"id\":\"http://a/1\"},\"authority\":{\"objectType\":\"x\"},\"attachments\":5}",
    ),
];

#[test]
fn the_lesser_of_two_broken_rules_is_named(rt: HostRuntime) -> Result<(), Fail> {
    check_rules(rt.alloc(), &PAIRS)
}

// The examples of xAPI 1.0.3.
const EXAMPLES: [&str; 15] = [
    "{\"id\":\"12345678-1234-5678-1234-567812345678\",\"actor\":{\"mbox\":\"mailto:xapi@adlnet.gov\"},\"verb\":{\"id\":\"http://adlnet.gov/expapi/verbs/created\",\"display\":{\"en-US\":\"created\"}},\"object\":{\"id\":\"http://example.adlnet.gov/xapi/example/activity\"}}",
    "{\"id\":\"fd41c918-b88b-4b20-a0a5-a4c32391aaa0\",\"timestamp\":\"2015-11-18T12:17:00+00:00\",\"actor\":{\"objectType\":\"Agent\",\"name\":\"Project Tin Can API\",\"mbox\":\"mailto:user@example.com\"},\"verb\":{\"id\":\"http://example.com/xapi/verbs#sent-a-statement\",\"display\":{\"en-US\":\"sent\"}},\"object\":{\"id\":\"http://example.com/xapi/activity/simplestatement\",\"definition\":{\"name\":{\"en-US\":\"simple statement\"},\"description\":{\"en-US\":\"A simple Experience API statement. Note that the LRS does not need to have any prior information about the Actor (learner), the verb, or the Activity/object.\"}}}}",
    "{\"id\":\"6690e6c9-3ef0-4ed3-8b37-7f3964730bee\",\"actor\":{\"name\":\"Team PB\",\"mbox\":\"mailto:teampb@example.com\",\"member\":[{\"name\":\"Andrew Downes\",\"account\":{\"homePage\":\"http://www.example.com\",\"name\":\"13936749\"},\"objectType\":\"Agent\"},{\"name\":\"Toby Nichols\",\"openid\":\"http://toby.openid.example.org/\",\"objectType\":\"Agent\"},{\"name\":\"Ena Hills\",\"mbox_sha1sum\":\"ebd31e95054c018b10727ccffd2ef2ec3a016ee9\",\"objectType\":\"Agent\"}],\"objectType\":\"Group\"},\"verb\":{\"id\":\"http://adlnet.gov/expapi/verbs/attended\",\"display\":{\"en-GB\":\"attended\",\"en-US\":\"attended\"}},\"result\":{\"extensions\":{\"http://example.com/profiles/meetings/resultextensions/minuteslocation\":\"X:\\\\meetings\\\\minutes\\\\examplemeeting.one\"},\"success\":true,\"completion\":true,\"response\":\"We agreed on some example actions.\",\"duration\":\"PT1H0M0S\"},\"context\":{\"registration\":\"ec531277-b57b-4c15-8d91-d292c5b2b8f7\",\"contextActivities\":{\"parent\":[{\"id\":\"http://www.example.com/meetings/series/267\",\"objectType\":\"Activity\"}],\"category\":[{\"id\":\"http://www.example.com/meetings/categories/teammeeting\",\"objectType\":\"Activity\",\"definition\":{\"name\":{\"en\":\"team meeting\"},\"description\":{\"en\":\"A category of meeting used for regular team meetings.\"},\"type\":\"http://example.com/expapi/activities/meetingcategory\"}}],\"other\":[{\"id\":\"http://www.example.com/meetings/occurances/34257\",\"objectType\":\"Activity\"},{\"id\":\"http://www.example.com/meetings/occurances/3425567\",\"objectType\":\"Activity\"}]},\"instructor\":{\"name\":\"Andrew Downes\",\"account\":{\"homePage\":\"http://www.example.com\",\"name\":\"13936749\"},\"objectType\":\"Agent\"},\"team\":{\"name\":\"Team PB\",\"mbox\":\"mailto:teampb@example.com\",\"objectType\":\"Group\"},\"platform\":\"Example virtual meeting software\",\"language\":\"tlh\",\"statement\":{\"objectType\":\"StatementRef\",\"id\":\"6690e6c9-3ef0-4ed3-8b37-7f3964730bee\"}},\"timestamp\":\"2013-05-18T05:32:34.804Z\",\"stored\":\"2013-05-18T05:32:34.804Z\",\"authority\":{\"account\":{\"homePage\":\"http://cloud.scorm.com/\",\"name\":\"anonymous\"},\"objectType\":\"Agent\"},\"version\":\"1.0.0\",\"object\":{\"id\":\"http://www.example.com/meetings/occurances/34534\",\"definition\":{\"extensions\":{\"http://example.com/profiles/meetings/activitydefinitionextensions/room\":{\"name\":\"Kilby\",\"id\":\"http://example.com/rooms/342\"}},\"name\":{\"en-GB\":\"example meeting\",\"en-US\":\"example meeting\"},\"description\":{\"en-GB\":\"An example meeting that happened on a specific occasion with certain people present.\"},\"type\":\"http://adlnet.gov/expapi/activities/meeting\",\"moreInfo\":\"http://virtualmeeting.example.com/345256\"},\"objectType\":\"Activity\"}}",
    "{\"actor\":{\"objectType\":\"Agent\",\"mbox\":\"mailto:test@example.com\"},\"verb\":{\"id\":\"http://example.com/planned\",\"display\":{\"en-US\":\"planned\"}},\"object\":{\"objectType\":\"SubStatement\",\"actor\":{\"objectType\":\"Agent\",\"mbox\":\"mailto:test@example.com\"},\"verb\":{\"id\":\"http://example.com/visited\",\"display\":{\"en-US\":\"will visit\"}},\"object\":{\"objectType\":\"Activity\",\"id\":\"http://example.com/website\",\"definition\":{\"name\":{\"en-US\":\"Some Awesome Website\"}}}}}",
    "{\"actor\":{\"objectType\":\"Agent\",\"name\":\"Example Admin\",\"mbox\":\"mailto:admin@example.adlnet.gov\"},\"verb\":{\"id\":\"http://adlnet.gov/expapi/verbs/voided\",\"display\":{\"en-US\":\"voided\"}},\"object\":{\"objectType\":\"StatementRef\",\"id\":\"e05aa883-acaf-40ad-bf54-02c8ce485fb0\"}}",
    "{\"actor\":{\"mbox\":\"mailto:a@b\"},\"verb\":{\"id\":\"http://v/1\"},\"object\":{\"id\":\"http://a/1\",\"definition\":{\"type\":\"http://adlnet.gov/expapi/activities/cmi.interaction\",\"interactionType\":\"true-false\",\"correctResponsesPattern\":[\"true\"]}}}",
    "{\"actor\":{\"mbox\":\"mailto:a@b\"},\"verb\":{\"id\":\"http://v/1\"},\"object\":{\"id\":\"http://a/1\",\"definition\":{\"type\":\"http://adlnet.gov/expapi/activities/cmi.interaction\",\"interactionType\":\"choice\",\"correctResponsesPattern\":[\"golf[,]tetris\"],\"choices\":[{\"id\":\"golf\",\"description\":{\"en-US\":\"Golf Example\"}},{\"id\":\"facebook\",\"description\":{\"en-US\":\"Facebook App\"}},{\"id\":\"tetris\",\"description\":{\"en-US\":\"Tetris Example\"}},{\"id\":\"scrabble\",\"description\":{\"en-US\":\"Scrabble Example\"}}]}}}",
    "{\"actor\":{\"mbox\":\"mailto:a@b\"},\"verb\":{\"id\":\"http://v/1\"},\"object\":{\"id\":\"http://a/1\",\"definition\":{\"type\":\"http://adlnet.gov/expapi/activities/cmi.interaction\",\"interactionType\":\"fill-in\",\"correctResponsesPattern\":[\"Bob's your uncle\"]}}}",
    "{\"actor\":{\"mbox\":\"mailto:a@b\"},\"verb\":{\"id\":\"http://v/1\"},\"object\":{\"id\":\"http://a/1\",\"definition\":{\"type\":\"http://adlnet.gov/expapi/activities/cmi.interaction\",\"interactionType\":\"long-fill-in\",\"correctResponsesPattern\":[\"{case_matters=false}{lang=en}To store and provide access to learning experiences.\"]}}}",
    "{\"actor\":{\"mbox\":\"mailto:a@b\"},\"verb\":{\"id\":\"http://v/1\"},\"object\":{\"id\":\"http://a/1\",\"definition\":{\"type\":\"http://adlnet.gov/expapi/activities/cmi.interaction\",\"interactionType\":\"likert\",\"correctResponsesPattern\":[\"likert_3\"],\"scale\":[{\"id\":\"likert_0\",\"description\":{\"en-US\":\"It's OK\"}},{\"id\":\"likert_1\",\"description\":{\"en-US\":\"It's Pretty Cool\"}},{\"id\":\"likert_2\",\"description\":{\"en-US\":\"It's Cool\"}},{\"id\":\"likert_3\",\"description\":{\"en-US\":\"It's Gonna Change the World\"}}]}}}",
    "{\"actor\":{\"mbox\":\"mailto:a@b\"},\"verb\":{\"id\":\"http://v/1\"},\"object\":{\"id\":\"http://a/1\",\"definition\":{\"type\":\"http://adlnet.gov/expapi/activities/cmi.interaction\",\"interactionType\":\"matching\",\"correctResponsesPattern\":[\"ben[.]3[,]chris[.]2[,]troy[.]4[,]freddie[.]1\"],\"source\":[{\"id\":\"ben\",\"description\":{\"en-US\":\"Ben\"}},{\"id\":\"chris\",\"description\":{\"en-US\":\"Chris\"}}],\"target\":[{\"id\":\"1\",\"description\":{\"en-US\":\"Swift Kick in the Grass\"}},{\"id\":\"2\",\"description\":{\"en-US\":\"We got Runs\"}}]}}}",
    "{\"actor\":{\"mbox\":\"mailto:a@b\"},\"verb\":{\"id\":\"http://v/1\"},\"object\":{\"id\":\"http://a/1\",\"definition\":{\"type\":\"http://adlnet.gov/expapi/activities/cmi.interaction\",\"interactionType\":\"performance\",\"correctResponsesPattern\":[\"pong[.]1:[,]dg[.]:10[,]lunch[.]\"],\"steps\":[{\"id\":\"pong\",\"description\":{\"en-US\":\"Net pong matches won\"}},{\"id\":\"dg\",\"description\":{\"en-US\":\"Strokes over par in disc golf at Liberty\"}},{\"id\":\"lunch\",\"description\":{\"en-US\":\"Lunch having been eaten\"}}]}}}",
    "{\"actor\":{\"mbox\":\"mailto:a@b\"},\"verb\":{\"id\":\"http://v/1\"},\"object\":{\"id\":\"http://a/1\",\"definition\":{\"type\":\"http://adlnet.gov/expapi/activities/cmi.interaction\",\"interactionType\":\"sequencing\",\"correctResponsesPattern\":[\"tim[,]mike[,]ells[,]ben\"],\"choices\":[{\"id\":\"tim\",\"description\":{\"en-US\":\"Tim\"}},{\"id\":\"mike\",\"description\":{\"en-US\":\"Mike\"}},{\"id\":\"ells\",\"description\":{\"en-US\":\"Ells\"}},{\"id\":\"ben\",\"description\":{\"en-US\":\"Ben\"}}]}}}",
    "{\"actor\":{\"mbox\":\"mailto:a@b\"},\"verb\":{\"id\":\"http://v/1\"},\"object\":{\"id\":\"http://a/1\",\"definition\":{\"type\":\"http://adlnet.gov/expapi/activities/cmi.interaction\",\"interactionType\":\"numeric\",\"correctResponsesPattern\":[\"4[:]\"]}}}",
    "{\"actor\":{\"mbox\":\"mailto:a@b\"},\"verb\":{\"id\":\"http://v/1\"},\"object\":{\"id\":\"http://a/1\",\"definition\":{\"type\":\"http://adlnet.gov/expapi/activities/cmi.interaction\",\"interactionType\":\"other\",\"correctResponsesPattern\":[\"(35.937432,-86.868896)\"]}}}",
];

#[test]
fn the_examples_of_the_standard_are_accepted(rt: HostRuntime) -> Result<(), Fail> {
    check_lawful(rt.alloc(), &EXAMPLES)
}
