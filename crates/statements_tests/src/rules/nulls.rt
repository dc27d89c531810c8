use crate::failing::wrong_row;
use crate::rules::rule_of;
use std::alloc::Global;
use std::test::Fail;

// The beginning of each statement, up to what the rows say.
const FRONT: &str = r#"{"actor":{"mbox":"mailto:a@b"},"verb":{"id":"http://v/1"},"#;

// The rest of a statement, and whether a null stands in it outside extensions (rule 3). The others break no rule.
const NULLS: [(&str, bool); 24] = [
    // extensions of an Activity's definition, which alone protects a null
    (
        r#""object":{"objectType":"Activity","id":"http://a/1","definition":{"extensions":{"http://x/y":null}}}"#,
        false,
    ),
    (
        r#""object":{"objectType":"Agent","mbox":"mailto:c@d","definition":{"extensions":{"http://x/y":null}}}"#,
        true,
    ),
    (
        r#""object":{"objectType":"Group","mbox":"mailto:c@d","definition":{"extensions":{"http://x/y":null}}}"#,
        true,
    ),
    (
        r#""object":{"objectType":"StatementRef","id":"11111111-1111-4111-8111-111111111111","definition":{"extensions":{"http://x/y":null}}}"#,
        true,
    ),
    (
        r#""object":{"objectType":"Thing","id":"http://a/1","definition":{"extensions":{"http://x/y":null}}}"#,
        true,
    ),
    (
        r#""object":{"objectType":5,"id":"http://a/1","definition":{"extensions":{"http://x/y":null}}}"#,
        true,
    ),
    (
        r#""object":{"objectType":"SubStatement","actor":{"mbox":"mailto:a@b"},"verb":{"id":"http://v/1"},"object":{"id":"http://a/1"},"definition":{"extensions":{"http://x/y":null}}}"#,
        true,
    ),
    // the same in a SubStatement
    (
        r#""object":{"objectType":"SubStatement","actor":{"mbox":"mailto:a@b"},"verb":{"id":"http://v/1"},"object":{"objectType":"Activity","id":"http://a/1","definition":{"extensions":{"http://x/y":null}}}}"#,
        false,
    ),
    (
        r#""object":{"objectType":"SubStatement","actor":{"mbox":"mailto:a@b"},"verb":{"id":"http://v/1"},"object":{"objectType":"Agent","mbox":"mailto:c@d","definition":{"extensions":{"http://x/y":null}}}}"#,
        true,
    ),
    (
        r#""object":{"objectType":"SubStatement","actor":{"mbox":"mailto:a@b"},"verb":{"id":"http://v/1"},"object":{"objectType":"StatementRef","id":"11111111-1111-4111-8111-111111111111","definition":{"extensions":{"http://x/y":null}}}}"#,
        true,
    ),
    // the same of context activities
    (
        r#""object":{"id":"http://a/1"},"context":{"contextActivities":{"parent":{"objectType":"Activity","id":"http://p/1","definition":{"extensions":{"http://x/y":null}}},"other":[{"id":"http://p/2","definition":{"extensions":{"http://x/y":[null]}}}]}}"#,
        false,
    ),
    (
        r#""object":{"id":"http://a/1"},"context":{"contextActivities":{"parent":{"objectType":"Agent","id":"http://p/1","definition":{"extensions":{"http://x/y":null}}}}}"#,
        true,
    ),
    (
        r#""object":{"id":"http://a/1"},"context":{"contextActivities":{"other":[{"id":"http://p/1"},{"objectType":"SubStatement","id":"http://p/1","definition":{"extensions":{"http://x/y":null}}}]}}"#,
        true,
    ),
    (
        r#""object":{"objectType":"SubStatement","actor":{"mbox":"mailto:a@b"},"verb":{"id":"http://v/1"},"object":{"id":"http://a/1"},"context":{"contextActivities":{"grouping":[{"objectType":"Thing","id":"http://p/1","definition":{"extensions":{"http://x/y":null}}}]}}}"#,
        true,
    ),
    // an array in place of extensions
    (
        r#""object":{"id":"http://a/1"},"result":{"extensions":[null]}"#,
        true,
    ),
    (
        r#""object":{"id":"http://a/1"},"result":{"extensions":{"http://x/y":[null]}}"#,
        false,
    ),
    (
        r#""object":{"id":"http://a/1"},"result":{"extensions":[{"extensions":{"http://x/y":null}}]}"#,
        true,
    ),
    (
        r#""object":{"id":"http://a/1"},"context":{"extensions":[{"http://x/y":null}]}"#,
        true,
    ),
    (
        r#""object":{"id":"http://a/1","definition":{"extensions":[[null]]}}"#,
        true,
    ),
    (
        r#""object":{"objectType":"SubStatement","actor":{"mbox":"mailto:a@b"},"verb":{"id":"http://v/1"},"object":{"id":"http://a/1"},"result":{"extensions":[null]}}"#,
        true,
    ),
    (
        r#""object":{"id":"http://a/1"},"context":{"contextActivities":{"category":[{"id":"http://p/1","definition":{"extensions":[null]}}]}}"#,
        true,
    ),
    // an array in place of what has extensions
    (
        r#""object":{"id":"http://a/1","definition":[{"extensions":{"http://x/y":null}}]}"#,
        true,
    ),
    // what has no extensions
    (
        r#""object":{"id":"http://a/1","extensions":{"http://x/y":null}}"#,
        true,
    ),
    (
        r#""object":{"id":"http://a/1"},"context":{"instructor":{"mbox":"mailto:c@d","definition":{"extensions":{"http://x/y":null}}}}"#,
        true,
    ),
];

fn rule_behind(alloc: Global, rest: &str) -> Result<Option<u8>, Fail> {
    let text = format!(in alloc; "{FRONT}{rest}}}")?;
    rule_of(alloc, text.as_str())
}

#[test]
fn a_null_stands_in_extensions_alone(rt: HostRuntime) -> Result<(), Fail> {
    let alloc = rt.alloc();
    for (i, (rest, is_broken)) in NULLS.iter().enumerate() {
        let wanted = if *is_broken { Some(3) } else { None };
        if rule_behind(alloc, rest)? != wanted {
            return wrong_row(i);
        }
    }
    Ok(())
}
