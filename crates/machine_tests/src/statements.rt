// What statements are answered over one desk: repeats, batches, made ids, voiding.
use crate::rows::check_rows;
use std::alloc::Global;
use std::test::Fail;

const REPEATS: &str = r#"
operator put Z1 v/1 a/1 Z1 => 204 kept
operator put Z1 v/1 a/1 Z1 => 204
admin get ?statementId=Z1 => 200 {"actor":{"mbox":"mailto:a@b"},"verb":{"id":"http://v/1"},"object":{"id":"http://a/1"},"id":"Z1","timestamp":"2023-11-14T22:13:20.000Z","stored":"2023-11-14T22:13:20.000Z","authority":{"objectType":"Agent","name":"admin","account":{"homePage":"https://lrs.invalid/callers","name":"admin"}},"version":"1.0.0"}
admin put Z2 {"id":"Z2","actor":{"mbox":"mailto:a@b"},"verb":{"id":"http://v/1"},"object":{"id":"http://a/1"},"result":{"score":{"scaled":0.50}}} => 204 kept
admin put Z2 {"result":{"score":{"scaled":0.5}},"object":{"id":"http://a/1"},"verb":{"id":"http://v/1"},"actor":{"mbox":"mailto:a@b"}} => 204
admin put Z2 {"result":{"score":{"scaled":0.51}},"object":{"id":"http://a/1"},"verb":{"id":"http://v/1"},"actor":{"mbox":"mailto:a@b"}} => 409 {"error":"409","id":"Z2"}
admin put Z1 {"actor":{"mbox":"mailto:a@b"},"verb":{"id":"http://v/1"},"object":{"id":"http://a/1"},"timestamp":"2023-11-14T22:13:20Z"} => 409 {"error":"409","id":"Z1"}
admin get ?voidedStatementId=Z1 => 404 {"error":"404"}
"#;

#[test]
fn a_repeat_is_taken_as_such_and_a_conflict_told(rt: HostRuntime) -> Result<(), Fail> {
    check_rows(rt.alloc(), REPEATS)
}

// One that voids before its target comes, one that would void a voiding statement, and one after its target. A provider
// may not void, but may repeat.
const VOIDING: &str = r#"
admin provider p.1 => 200 {"caller":0,"token":"00000000000000000000000000000005-1"} kept
provider put Z3 voided Z1 => 403 {"error":"C2"}
provider post v/1 a/1;voided Z1 => 403 {"error":"C2"}
admin put Z3 voided Z1 => 204 kept
provider put Z3 voided Z1 => 204
admin get ?statementId=Z1 => 404 {"error":"404"}
admin get ?voidedStatementId=Z1 => 404 {"error":"404"}
admin put Z1 v/1 a/1 Z1 => 204 kept
admin put Z4 voided Z3 => 204 kept
admin get ?statementId=Z1 => 404 {"error":"404"}
admin get ?voidedStatementId=Z1 => 200 {"actor":{"mbox":"mailto:a@b"},"verb":{"id":"http://v/1"},"object":{"id":"http://a/1"},"id":"Z1","timestamp":"2023-11-14T22:13:20.000Z","stored":"2023-11-14T22:13:20.000Z","authority":{"objectType":"Agent","name":"admin","account":{"homePage":"https://lrs.invalid/callers","name":"admin"}},"version":"1.0.0"}
admin get ?voidedStatementId=Z3 => 404 {"error":"404"}
admin get ? => 200 [43]
provider get ?voidedStatementId=Z1 => 404 {"error":"404"}
provider get ?statementId=Z4 => 404 {"error":"404"}
admin put Z2 v/1 a/1 => 204 kept
admin post voided Z2 => 200 ["00000000-0000-4000-8000-000000000050"] kept
admin get ?statementId=Z2 => 404 {"error":"404"}
"#;

#[test]
fn what_is_voided_is_found_as_such(rt: HostRuntime) -> Result<(), Fail> {
    check_rows(rt.alloc(), VOIDING)
}

// In one batch: one voids what stands before it, one what is held, one that again, one what comes behind it, and one
// what isn't there.
const VOIDING_TOGETHER: &str = r#"
admin put Z1 v/1 a/1 Z1 => 204 kept
admin post v/1 a/1 Z2;voided Z2 Z3;voided Z1 Z4;voided Z1 Z5;voided Z8 Z6;voided Z9 Z7;v/1 a/1 Z8 => 200 ["Z2","Z3","Z4","Z5","Z6","Z7","Z8"] kept
admin get ?statementId=Z1 => 404 {"error":"404"}
admin get ?statementId=Z2 => 404 {"error":"404"}
admin get ?statementId=Z8 => 404 {"error":"404"}
admin get ?voidedStatementId=Z1 => 200 {"actor":{"mbox":"mailto:a@b"},"verb":{"id":"http://v/1"},"object":{"id":"http://a/1"},"id":"Z1","timestamp":"2023-11-14T22:13:20.000Z","stored":"2023-11-14T22:13:20.000Z","authority":{"objectType":"Agent","name":"admin","account":{"homePage":"https://lrs.invalid/callers","name":"admin"}},"version":"1.0.0"}
admin get ?voidedStatementId=Z2 => 200 {"actor":{"mbox":"mailto:a@b"},"verb":{"id":"http://v/1"},"object":{"id":"http://a/1"},"id":"Z2","timestamp":"2023-11-14T22:13:20.000Z","stored":"2023-11-14T22:13:20.000Z","authority":{"objectType":"Agent","name":"admin","account":{"homePage":"https://lrs.invalid/callers","name":"admin"}},"version":"1.0.0"}
admin get ?voidedStatementId=Z8 => 200 {"actor":{"mbox":"mailto:a@b"},"verb":{"id":"http://v/1"},"object":{"id":"http://a/1"},"id":"Z8","timestamp":"2023-11-14T22:13:20.000Z","stored":"2023-11-14T22:13:20.000Z","authority":{"objectType":"Agent","name":"admin","account":{"homePage":"https://lrs.invalid/callers","name":"admin"}},"version":"1.0.0"}
admin get ?voidedStatementId=Z9 => 404 {"error":"404"}
admin get ? => 200 [76543]
"#;

#[test]
fn a_batch_voids_what_is_held_and_its_own(rt: HostRuntime) -> Result<(), Fail> {
    check_rows(rt.alloc(), VOIDING_TOGETHER)
}

// An admin voids a provider's statement. In a batch the first refusal is told, a conflict or a voiding.
const OF_PROVIDERS: &str = r#"
admin provider p.1 => 200 {"caller":0,"token":"00000000000000000000000000000005-1"} kept
provider put Z1 v/1 a/1 Z1 => 204 kept
admin put Z3 voided Z1 => 204 kept
provider get ?statementId=Z1 => 404 {"error":"404"}
provider get ?voidedStatementId=Z1 => 200 {"actor":{"mbox":"mailto:a@b"},"verb":{"id":"http://v/1"},"object":{"id":"http://a/1"},"id":"Z1","timestamp":"2023-11-14T22:13:20.000Z","stored":"2023-11-14T22:13:20.000Z","authority":{"objectType":"Agent","name":"p.1","account":{"homePage":"https://lrs.invalid/callers","name":"provider:0"}},"version":"1.0.0"}
provider post voided Z1;v/2 a/1 Z1 => 403 {"error":"C2"}
provider post v/2 a/1 Z1;voided Z1 => 409 {"error":"409","id":"Z1"}
"#;

#[test]
fn a_provider_sees_its_voided_statement(rt: HostRuntime) -> Result<(), Fail> {
    check_rows(rt.alloc(), OF_PROVIDERS)
}

const BATCHES: &str = r#"
admin post => 200 []
admin post v/1 a/1 Z1 => 200 ["Z1"] kept
admin post v/1 a/1 Z1 => 200 ["Z1"]
admin post v/1 a/1 => 200 ["00000000-0000-4000-8000-000000000050"] kept
// made ids pass over what is held, what the batch names and what it was given
admin post v/1 a/1;v/1 a/1 00000000-0000-4000-8000-000000000052;v/1 a/1 => 200 ["00000000-0000-4000-8000-000000000051","00000000-0000-4000-8000-000000000052","00000000-0000-4000-8000-000000000053"] kept
// the last word of all, and the first one after it
admin last v/1 a/1;v/1 a/1 => 200 ["ffffffff-ffff-4fff-bfff-ffffffffffff","00000000-0000-4000-8000-000000000000"] kept
admin post v/1 a/1 Z2;v/1 a/1 Z2 => 400 {"error":"B9"}
// one id in two cases
admin post v/1 a/1 aaaaaaaa-aaaa-4aaa-8aaa-aaaaaaaaaaaa;v/1 a/1 AAAAAAAA-AAAA-4AAA-8AAA-AAAAAAAAAAAA => 400 {"error":"B9"}
admin post v/1 a/1 Z2;v/2 a/1 Z1 => 409 {"error":"409","id":"Z1"}
admin get ?statementId=Z2 => 404 {"error":"404"}
// the first that breaks a rule is told, not the least rule of all, and before a doubled id
admin post {"actor":{"mbox":"mailto:a@b"},"verb":{"id":"http://v/1"},"object":{"id":"http://a/1"},"timestamp":"x"};{};{"id":"Z2"};{"id":"Z2"} => 400 {"error":"S30"}
// who isn't let in is told that, and not what the form breaks
nobody post {};{"id":"Z2"};{"id":"Z2"} => 401 {"error":"A1"}
nobody put Z2 {} => 401 {"error":"A1"}
admin put Z2 {} => 400 {"error":"S1"}
// one held and one new
admin post v/1 a/1 Z1;v/1 a/1 Z2 => 200 ["Z1","Z2"] kept
admin get ?statementId=Z1 => 200 {"actor":{"mbox":"mailto:a@b"},"verb":{"id":"http://v/1"},"object":{"id":"http://a/1"},"id":"Z1","timestamp":"2023-11-14T22:13:20.000Z","stored":"2023-11-14T22:13:20.000Z","authority":{"objectType":"Agent","name":"admin","account":{"homePage":"https://lrs.invalid/callers","name":"admin"}},"version":"1.0.0"}
"#;

#[test]
fn a_batch_is_taken_whole_or_refused_whole(rt: HostRuntime) -> Result<(), Fail> {
    check_rows(rt.alloc(), BATCHES)
}

// More than 500 statements are told before a rule that one breaks.
const TOO_MANY: &str = r#"
admin times 501 {} => 413 {"error":"413"}
"#;

#[test]
fn too_many_statements_are_told_first(rt: HostRuntime) -> Result<(), Fail> {
    check_rows(rt.alloc(), TOO_MANY)
}

// A statement that is too long, after one that breaks a rule.
fn check_a_long_one(alloc: Global) -> Result<(), Fail> {
    let text = "x".repeat(alloc, 262_144)?;
    let row = format!(in alloc;
        "admin post {{}};{{\"x\":\"{text}\"}} => 413 {{\"error\":\"413\"}}"
    )?;
    check_rows(alloc, row.as_str())
}

#[test]
fn a_statement_that_is_too_long_is_told_first(rt: HostRuntime) -> Result<(), Fail> {
    check_a_long_one(rt.alloc())
}
