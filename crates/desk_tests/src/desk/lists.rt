// What a session sees in lists of statements.
use crate::rows::check_rows;
use std::alloc::Global;
use std::test::Fail;

// Each filter over what its registration has, beside what is alike and elsewhere.
const LISTED: &str = r#"
sample
draw 64 3
TOKEN PUT /xapi/statements?statementId=ID3f {"verb":{"id":"VERB/initialized"},FIRST} => 204 kept
TOKEN POST /xapi/statements {"actor":LEARNER,"verb":{"id":"http://v/1"},"object":{"id":"http://a/1"},"context":{"registration":"ID10","instructor":{"mbox":"mailto:i@b"},"contextActivities":{"parent":[{"id":"http://a/2"}]}}} => 200 ["ID40"] kept
admin POST /xapi/statements {"actor":LEARNER,"verb":{"id":"http://v/1"},"object":{"id":"http://a/1"},"context":{"registration":"ID11","instructor":{"mbox":"mailto:i@b"},"contextActivities":{"parent":[{"id":"http://a/2"}]}}} => 200 ["ID41"] kept
// one that names no registration, which a session can't say
TOKEN POST /xapi/statements {"actor":LEARNER,"verb":{"id":"http://v/1"},"object":{"id":"http://a/1"}} => 403 {"error":"C4"}
admin POST /xapi/statements {"actor":LEARNER,"verb":{"id":"http://v/1"},"object":{"id":"http://a/1"}} => 200 ["ID42"] kept
TOKEN GET /xapi/statements?statementId=ID42 => 404 {"error":"404"}
TOKEN GET /xapi/statements => 200 {"statements":[{"actor":LEARNER,"verb":{"id":"http://v/1"},"object":{"id":"http://a/1"},"context":{"registration":"ID10","instructor":{"mbox":"mailto:i@b"},"contextActivities":{"parent":[{"id":"http://a/2"}]}},"id":"ID40","timestamp":"2023-11-14T22:13:20.000Z","stored":"2023-11-14T22:13:20.000Z","authority":{"objectType":"Agent","name":"session","account":{"homePage":"https://lrs.invalid/callers","name":"session:ID20"}},"version":"1.0.0"},{"verb":{"id":"VERB/initialized"},FIRST,"id":"ID3f","timestamp":"2023-11-14T22:13:20.000Z","stored":"2023-11-14T22:13:20.000Z","authority":{"objectType":"Agent","name":"session","account":{"homePage":"https://lrs.invalid/callers","name":"session:ID20"}},"version":"1.0.0"},{"actor":LEARNER,"verb":{"id":"VERB/launched","display":{"en":"launched"}},"object":{"objectType":"Activity","id":"BASEactivities/0/2"},"context":{"registration":"ID10","contextActivities":{"grouping":[{"objectType":"Activity","id":"http://c/u"}],"category":[{"objectType":"Activity","id":"CMI5"}]},"extensions":{"https://w3id.org/xapi/cmi5/context/extensions/sessionid":"ID20","https://w3id.org/xapi/cmi5/context/extensions/launchmode":"Normal","https://w3id.org/xapi/cmi5/context/extensions/launchurl":"https://au.example/u","https://w3id.org/xapi/cmi5/context/extensions/moveon":"CompletedAndPassed","https://w3id.org/xapi/cmi5/context/extensions/masteryscore":0.8}},"id":"ID21","timestamp":"2023-11-14T22:13:20.000Z","stored":"2023-11-14T22:13:20.000Z","authority":{"objectType":"Agent","name":"desk","account":{"homePage":"https://lrs.invalid/callers","name":"desk"}},"version":"1.0.0"}],"more":""}
TOKEN GET /xapi/statements?ascending=true&format=ids => 200 {"statements":[{"actor":LEARNER,"verb":{"id":"VERB/launched"},"object":{"objectType":"Activity","id":"BASEactivities/0/2"},"context":{"registration":"ID10","contextActivities":{"grouping":[{"objectType":"Activity","id":"http://c/u"}],"category":[{"objectType":"Activity","id":"CMI5"}]},"extensions":{"https://w3id.org/xapi/cmi5/context/extensions/sessionid":"ID20","https://w3id.org/xapi/cmi5/context/extensions/launchmode":"Normal","https://w3id.org/xapi/cmi5/context/extensions/launchurl":"https://au.example/u","https://w3id.org/xapi/cmi5/context/extensions/moveon":"CompletedAndPassed","https://w3id.org/xapi/cmi5/context/extensions/masteryscore":0.8}},"id":"ID21","timestamp":"2023-11-14T22:13:20.000Z","stored":"2023-11-14T22:13:20.000Z","authority":{"objectType":"Agent","account":{"homePage":"https://lrs.invalid/callers","name":"desk"}},"version":"1.0.0"},{"verb":{"id":"VERB/initialized"},FIRST,"id":"ID3f","timestamp":"2023-11-14T22:13:20.000Z","stored":"2023-11-14T22:13:20.000Z","authority":{"objectType":"Agent","account":{"homePage":"https://lrs.invalid/callers","name":"session:ID20"}},"version":"1.0.0"},{"actor":LEARNER,"verb":{"id":"http://v/1"},"object":{"id":"http://a/1"},"context":{"registration":"ID10","instructor":{"mbox":"mailto:i@b"},"contextActivities":{"parent":[{"id":"http://a/2"}]}},"id":"ID40","timestamp":"2023-11-14T22:13:20.000Z","stored":"2023-11-14T22:13:20.000Z","authority":{"objectType":"Agent","account":{"homePage":"https://lrs.invalid/callers","name":"session:ID20"}},"version":"1.0.0"}],"more":""}
TOKEN GET /xapi/statements?activity=http://a/1&format=ids => 200 {"statements":[{"actor":LEARNER,"verb":{"id":"http://v/1"},"object":{"id":"http://a/1"},"context":{"registration":"ID10","instructor":{"mbox":"mailto:i@b"},"contextActivities":{"parent":[{"id":"http://a/2"}]}},"id":"ID40","timestamp":"2023-11-14T22:13:20.000Z","stored":"2023-11-14T22:13:20.000Z","authority":{"objectType":"Agent","account":{"homePage":"https://lrs.invalid/callers","name":"session:ID20"}},"version":"1.0.0"}],"more":""}
TOKEN GET /xapi/statements?activity=http://a/2 => 200 {"statements":[],"more":""}
TOKEN GET /xapi/statements?activity=http://a/2&related_activities=true&format=ids => 200 {"statements":[{"actor":LEARNER,"verb":{"id":"http://v/1"},"object":{"id":"http://a/1"},"context":{"registration":"ID10","instructor":{"mbox":"mailto:i@b"},"contextActivities":{"parent":[{"id":"http://a/2"}]}},"id":"ID40","timestamp":"2023-11-14T22:13:20.000Z","stored":"2023-11-14T22:13:20.000Z","authority":{"objectType":"Agent","account":{"homePage":"https://lrs.invalid/callers","name":"session:ID20"}},"version":"1.0.0"}],"more":""}
TOKEN GET /xapi/statements?agent=%7B%22mbox%22:%22mailto:i@b%22%7D => 200 {"statements":[],"more":""}
TOKEN GET /xapi/statements?agent=%7B%22mbox%22:%22mailto:i@b%22%7D&related_agents=true&format=ids => 200 {"statements":[{"actor":LEARNER,"verb":{"id":"http://v/1"},"object":{"id":"http://a/1"},"context":{"registration":"ID10","instructor":{"mbox":"mailto:i@b"},"contextActivities":{"parent":[{"id":"http://a/2"}]}},"id":"ID40","timestamp":"2023-11-14T22:13:20.000Z","stored":"2023-11-14T22:13:20.000Z","authority":{"objectType":"Agent","account":{"homePage":"https://lrs.invalid/callers","name":"session:ID20"}},"version":"1.0.0"}],"more":""}
TOKEN GET /xapi/statements?agent=%7B%22account%22:%7B%22homePage%22:%22https://lrs.invalid/callers%22,%22name%22:%22session:ID20%22%7D%7D&related_agents=true&format=ids => 200 {"statements":[{"actor":LEARNER,"verb":{"id":"http://v/1"},"object":{"id":"http://a/1"},"context":{"registration":"ID10","instructor":{"mbox":"mailto:i@b"},"contextActivities":{"parent":[{"id":"http://a/2"}]}},"id":"ID40","timestamp":"2023-11-14T22:13:20.000Z","stored":"2023-11-14T22:13:20.000Z","authority":{"objectType":"Agent","account":{"homePage":"https://lrs.invalid/callers","name":"session:ID20"}},"version":"1.0.0"},{"verb":{"id":"VERB/initialized"},FIRST,"id":"ID3f","timestamp":"2023-11-14T22:13:20.000Z","stored":"2023-11-14T22:13:20.000Z","authority":{"objectType":"Agent","account":{"homePage":"https://lrs.invalid/callers","name":"session:ID20"}},"version":"1.0.0"}],"more":""}
TOKEN GET /xapi/statements?agent=%7B%22account%22:%7B%22homePage%22:%22https://lrs.invalid/callers%22,%22name%22:%22admin%22%7D%7D&related_agents=true => 200 {"statements":[],"more":""}
TOKEN GET /xapi/statements?agent=%7B%22account%22:%7B%22homePage%22:%22https://lrs.invalid/callers%22,%22name%22:%22desk%22%7D%7D&related_agents=true&format=ids => 200 {"statements":[{"actor":LEARNER,"verb":{"id":"VERB/launched"},"object":{"objectType":"Activity","id":"BASEactivities/0/2"},"context":{"registration":"ID10","contextActivities":{"grouping":[{"objectType":"Activity","id":"http://c/u"}],"category":[{"objectType":"Activity","id":"CMI5"}]},"extensions":{"https://w3id.org/xapi/cmi5/context/extensions/sessionid":"ID20","https://w3id.org/xapi/cmi5/context/extensions/launchmode":"Normal","https://w3id.org/xapi/cmi5/context/extensions/launchurl":"https://au.example/u","https://w3id.org/xapi/cmi5/context/extensions/moveon":"CompletedAndPassed","https://w3id.org/xapi/cmi5/context/extensions/masteryscore":0.8}},"id":"ID21","timestamp":"2023-11-14T22:13:20.000Z","stored":"2023-11-14T22:13:20.000Z","authority":{"objectType":"Agent","account":{"homePage":"https://lrs.invalid/callers","name":"desk"}},"version":"1.0.0"}],"more":""}
TOKEN GET /xapi/statements?agent=%7B%22account%22:%7B%22homePage%22:%22https://lrs.invalid/callers%22,%22name%22:%22desk%22%7D%7D => 200 {"statements":[],"more":""}
TOKEN GET /xapi/statements?agent=AGENT&verb=http://v/1&format=ids => 200 {"statements":[{"actor":LEARNER,"verb":{"id":"http://v/1"},"object":{"id":"http://a/1"},"context":{"registration":"ID10","instructor":{"mbox":"mailto:i@b"},"contextActivities":{"parent":[{"id":"http://a/2"}]}},"id":"ID40","timestamp":"2023-11-14T22:13:20.000Z","stored":"2023-11-14T22:13:20.000Z","authority":{"objectType":"Agent","account":{"homePage":"https://lrs.invalid/callers","name":"session:ID20"}},"version":"1.0.0"}],"more":""}
TOKEN GET /xapi/statements?registration=ID10&verb=http://v/1&format=ids => 200 {"statements":[{"actor":LEARNER,"verb":{"id":"http://v/1"},"object":{"id":"http://a/1"},"context":{"registration":"ID10","instructor":{"mbox":"mailto:i@b"},"contextActivities":{"parent":[{"id":"http://a/2"}]}},"id":"ID40","timestamp":"2023-11-14T22:13:20.000Z","stored":"2023-11-14T22:13:20.000Z","authority":{"objectType":"Agent","account":{"homePage":"https://lrs.invalid/callers","name":"session:ID20"}},"version":"1.0.0"}],"more":""}
TOKEN GET /xapi/statements?registration=ID11 => 200 {"statements":[],"more":""}
// all are stored at one moment
TOKEN GET /xapi/statements?verb=http://v/1&until=2023-11-14T22:13:20Z&format=ids => 200 {"statements":[{"actor":LEARNER,"verb":{"id":"http://v/1"},"object":{"id":"http://a/1"},"context":{"registration":"ID10","instructor":{"mbox":"mailto:i@b"},"contextActivities":{"parent":[{"id":"http://a/2"}]}},"id":"ID40","timestamp":"2023-11-14T22:13:20.000Z","stored":"2023-11-14T22:13:20.000Z","authority":{"objectType":"Agent","account":{"homePage":"https://lrs.invalid/callers","name":"session:ID20"}},"version":"1.0.0"}],"more":""}
TOKEN GET /xapi/statements?verb=http://v/1&since=2023-11-14T22:13:19.999Z&format=ids => 200 {"statements":[{"actor":LEARNER,"verb":{"id":"http://v/1"},"object":{"id":"http://a/1"},"context":{"registration":"ID10","instructor":{"mbox":"mailto:i@b"},"contextActivities":{"parent":[{"id":"http://a/2"}]}},"id":"ID40","timestamp":"2023-11-14T22:13:20.000Z","stored":"2023-11-14T22:13:20.000Z","authority":{"objectType":"Agent","account":{"homePage":"https://lrs.invalid/callers","name":"session:ID20"}},"version":"1.0.0"}],"more":""}
TOKEN GET /xapi/statements?since=2023-11-14T22:13:20Z => 200 {"statements":[],"more":""}
TOKEN GET /xapi/statements?until=2023-11-14T22:13:19.999Z => 200 {"statements":[],"more":""}
"#;

#[test]
fn a_session_lists_the_statements_of_its_registration(rt: HostRuntime) -> Result<(), Fail> {
    check_rows(rt.alloc(), LISTED)
}

// A session whose id has a letter, which its account spells in lower case.
const LETTERS: &str = r#"
sample
draw 42 3
admin POST /desk/registrations/ID10/launches {"unit":"http://c/u"} => 200 {"session":"ID2a","launchMethod":"AnyWindow","url":"ADDRESSZEROS3-5WHOSEID10WHICH0%2F2"} kept
draw 0 4
nobody POST /fetch/ZEROS3-5 => 200 {"auth-token":"ZEROS4-6"} kept
draw 64 0
ZEROS4-6 POST /xapi/statements {INITIALIZED,SAYING"ID2a"}}} => 200 ["ID40"] kept
admin GET /xapi/statements?agent=%7B%22account%22:%7B%22homePage%22:%22https://lrs.invalid/callers%22,%22name%22:%22session:ID2a%22%7D%7D&related_agents=true&format=ids => 200 {"statements":[{"verb":{"id":"VERB/initialized"},SAYING"ID2a"}},"id":"ID40","timestamp":"2023-11-14T22:13:20.000Z","stored":"2023-11-14T22:13:20.000Z","authority":{"objectType":"Agent","account":{"homePage":"https://lrs.invalid/callers","name":"session:ID2a"}},"version":"1.0.0"}],"more":""}
admin GET /xapi/statements?agent=%7B%22account%22:%7B%22homePage%22:%22https://lrs.invalid/callers%22,%22name%22:%22session:ID2A%22%7D%7D&related_agents=true => 200 {"statements":[],"more":""}
"#;

#[test]
fn a_session_is_found_by_its_account_in_lower_case(rt: HostRuntime) -> Result<(), Fail> {
    check_rows(rt.alloc(), LETTERS)
}

// Pages, and the links from one to the next.
const PAGES: &str = r#"
sample
draw 64 3
TOKEN PUT /xapi/statements?statementId=ID3f {"verb":{"id":"VERB/initialized"},FIRST} => 204 kept
TOKEN POST /xapi/statements {"actor":LEARNER,"verb":{"id":"http://v/1"},"object":{"id":"http://a/1"},"context":{"registration":"ID10"}} => 200 ["ID40"] kept
admin POST /xapi/statements {"actor":{"mbox":"mailto:a@b"},"verb":{"id":"http://v/1"},"object":{"id":"http://a/1"}} => 200 ["ID41"] kept
admin POST /xapi/statements {"actor":{"mbox":"mailto:a@b"},"verb":{"id":"http://v/1"},"object":{"id":"http://a/1"},"context":{"registration":"ID10"}} => 200 ["ID42"] kept
TOKEN GET /xapi/statements?verb=http://v/1&limit=1&format=ids => 200 {"statements":[{"actor":{"mbox":"mailto:a@b"},"verb":{"id":"http://v/1"},"object":{"id":"http://a/1"},"context":{"registration":"ID10"},"id":"ID42","timestamp":"2023-11-14T22:13:20.000Z","stored":"2023-11-14T22:13:20.000Z","authority":{"objectType":"Agent","account":{"homePage":"https://lrs.invalid/callers","name":"admin"}},"version":"1.0.0"}],"more":"/xapi/statements/more?asof=5&after=4&verb=http%3A%2F%2Fv%2F1&limit=1&format=ids"}
// what comes later changes nothing in the link
admin POST /xapi/statements {"actor":{"mbox":"mailto:a@b"},"verb":{"id":"http://v/1"},"object":{"id":"http://a/1"},"context":{"registration":"ID10"}} => 200 ["ID43"] kept
TOKEN GET /xapi/statements/more?asof=5&after=4&verb=http%3A%2F%2Fv%2F1&limit=1&format=ids => 200 {"statements":[{"actor":LEARNER,"verb":{"id":"http://v/1"},"object":{"id":"http://a/1"},"context":{"registration":"ID10"},"id":"ID40","timestamp":"2023-11-14T22:13:20.000Z","stored":"2023-11-14T22:13:20.000Z","authority":{"objectType":"Agent","account":{"homePage":"https://lrs.invalid/callers","name":"session:ID20"}},"version":"1.0.0"}],"more":""}
admin GET /xapi/statements/more?asof=5&after=4&verb=http%3A%2F%2Fv%2F1&limit=1&format=ids => 200 {"statements":[{"actor":{"mbox":"mailto:a@b"},"verb":{"id":"http://v/1"},"object":{"id":"http://a/1"},"id":"ID41","timestamp":"2023-11-14T22:13:20.000Z","stored":"2023-11-14T22:13:20.000Z","authority":{"objectType":"Agent","account":{"homePage":"https://lrs.invalid/callers","name":"admin"}},"version":"1.0.0"}],"more":"/xapi/statements/more?asof=5&after=3&verb=http%3A%2F%2Fv%2F1&limit=1&format=ids"}
// the oldest first
TOKEN GET /xapi/statements?verb=http://v/1&limit=1&ascending=true&format=ids => 200 {"statements":[{"actor":LEARNER,"verb":{"id":"http://v/1"},"object":{"id":"http://a/1"},"context":{"registration":"ID10"},"id":"ID40","timestamp":"2023-11-14T22:13:20.000Z","stored":"2023-11-14T22:13:20.000Z","authority":{"objectType":"Agent","account":{"homePage":"https://lrs.invalid/callers","name":"session:ID20"}},"version":"1.0.0"}],"more":"/xapi/statements/more?asof=6&after=2&verb=http%3A%2F%2Fv%2F1&limit=1&ascending=true&format=ids"}
TOKEN GET /xapi/statements/more?asof=6&after=2&verb=http%3A%2F%2Fv%2F1&limit=1&ascending=true&format=ids => 200 {"statements":[{"actor":{"mbox":"mailto:a@b"},"verb":{"id":"http://v/1"},"object":{"id":"http://a/1"},"context":{"registration":"ID10"},"id":"ID42","timestamp":"2023-11-14T22:13:20.000Z","stored":"2023-11-14T22:13:20.000Z","authority":{"objectType":"Agent","account":{"homePage":"https://lrs.invalid/callers","name":"admin"}},"version":"1.0.0"}],"more":"/xapi/statements/more?asof=6&after=4&verb=http%3A%2F%2Fv%2F1&limit=1&ascending=true&format=ids"}
TOKEN GET /xapi/statements/more?asof=6&after=4&verb=http%3A%2F%2Fv%2F1&limit=1&ascending=true&format=ids => 200 {"statements":[{"actor":{"mbox":"mailto:a@b"},"verb":{"id":"http://v/1"},"object":{"id":"http://a/1"},"context":{"registration":"ID10"},"id":"ID43","timestamp":"2023-11-14T22:13:20.000Z","stored":"2023-11-14T22:13:20.000Z","authority":{"objectType":"Agent","account":{"homePage":"https://lrs.invalid/callers","name":"admin"}},"version":"1.0.0"}],"more":""}
// behind one that it doesn't see, and behind the last one
TOKEN GET /xapi/statements/more?asof=6&after=3&verb=http%3A%2F%2Fv%2F1&format=ids => 200 {"statements":[{"actor":LEARNER,"verb":{"id":"http://v/1"},"object":{"id":"http://a/1"},"context":{"registration":"ID10"},"id":"ID40","timestamp":"2023-11-14T22:13:20.000Z","stored":"2023-11-14T22:13:20.000Z","authority":{"objectType":"Agent","account":{"homePage":"https://lrs.invalid/callers","name":"session:ID20"}},"version":"1.0.0"}],"more":""}
TOKEN GET /xapi/statements/more?asof=6&after=5&verb=http%3A%2F%2Fv%2F1&limit=1&ascending=true&format=ids => 200 {"statements":[],"more":""}
TOKEN GET /xapi/statements/more?asof=7&after=2 => 400 {"error":"P14"}
nobody GET /xapi/statements/more?asof=7&after=2 => 401 {"error":"A1"}
"#;

#[test]
fn a_session_follows_links(rt: HostRuntime) -> Result<(), Fail> {
    check_rows(rt.alloc(), PAGES)
}

// Voided statements.
const VOIDED: &str = r#"
sample
draw 64 3
TOKEN PUT /xapi/statements?statementId=ID3f {"verb":{"id":"VERB/initialized"},FIRST} => 204 kept
TOKEN POST /xapi/statements {"actor":LEARNER,"verb":{"id":"http://v/1"},"object":{"id":"http://a/1"},"context":{"registration":"ID10"}} => 200 ["ID40"] kept
admin POST /xapi/statements {"actor":{"mbox":"mailto:a@b"},"verb":{"id":"http://v/1"},"object":{"id":"http://a/1"},"context":{"registration":"ID11"}} => 200 ["ID41"] kept
TOKEN GET /xapi/statements?voidedStatementId=ID40 => 404 {"error":"404"}
admin POST /xapi/statements {"actor":{"mbox":"mailto:a@b"},"verb":{"id":"VERB/voided"},"object":{"objectType":"StatementRef","id":"ID40"},"context":{"registration":"ID10"}} => 200 ["ID42"] kept
admin POST /xapi/statements {"actor":{"mbox":"mailto:a@b"},"verb":{"id":"VERB/voided"},"object":{"objectType":"StatementRef","id":"ID41"}} => 200 ["ID43"] kept
TOKEN GET /xapi/statements?statementId=ID40 => 404 {"error":"404"}
TOKEN GET /xapi/statements?voidedStatementId=ID40&format=ids => 200 {"actor":LEARNER,"verb":{"id":"http://v/1"},"object":{"id":"http://a/1"},"context":{"registration":"ID10"},"id":"ID40","timestamp":"2023-11-14T22:13:20.000Z","stored":"2023-11-14T22:13:20.000Z","authority":{"objectType":"Agent","account":{"homePage":"https://lrs.invalid/callers","name":"session:ID20"}},"version":"1.0.0"}
// another registration's, which an admin sees
TOKEN GET /xapi/statements?voidedStatementId=ID41 => 404 {"error":"404"}
TOKEN GET /xapi/statements?statementId=ID43 => 404 {"error":"404"}
admin GET /xapi/statements?voidedStatementId=ID41&format=ids => 200 {"actor":{"mbox":"mailto:a@b"},"verb":{"id":"http://v/1"},"object":{"id":"http://a/1"},"context":{"registration":"ID11"},"id":"ID41","timestamp":"2023-11-14T22:13:20.000Z","stored":"2023-11-14T22:13:20.000Z","authority":{"objectType":"Agent","account":{"homePage":"https://lrs.invalid/callers","name":"admin"}},"version":"1.0.0"}
TOKEN GET /xapi/statements?voidedStatementId=ID42 => 404 {"error":"404"}
TOKEN GET /xapi/statements?voidedStatementId=ID21 => 404 {"error":"404"}
// what voids refers to it, and is listed for it
TOKEN GET /xapi/statements?activity=http://a/1&format=ids => 200 {"statements":[{"actor":{"mbox":"mailto:a@b"},"verb":{"id":"VERB/voided"},"object":{"objectType":"StatementRef","id":"ID40"},"context":{"registration":"ID10"},"id":"ID42","timestamp":"2023-11-14T22:13:20.000Z","stored":"2023-11-14T22:13:20.000Z","authority":{"objectType":"Agent","account":{"homePage":"https://lrs.invalid/callers","name":"admin"}},"version":"1.0.0"}],"more":""}
TOKEN GET /xapi/statements?verb=VERB/voided&format=ids => 200 {"statements":[{"actor":{"mbox":"mailto:a@b"},"verb":{"id":"VERB/voided"},"object":{"objectType":"StatementRef","id":"ID40"},"context":{"registration":"ID10"},"id":"ID42","timestamp":"2023-11-14T22:13:20.000Z","stored":"2023-11-14T22:13:20.000Z","authority":{"objectType":"Agent","account":{"homePage":"https://lrs.invalid/callers","name":"admin"}},"version":"1.0.0"}],"more":""}
"#;

#[test]
fn a_session_sees_what_was_voided_in_its_registration(rt: HostRuntime) -> Result<(), Fail> {
    check_rows(rt.alloc(), VOIDED)
}

// Chains of references.
const CHAINS: &str = r#"
sample
draw 64 3
TOKEN PUT /xapi/statements?statementId=ID3f {"verb":{"id":"VERB/initialized"},FIRST} => 204 kept
TOKEN POST /xapi/statements {"actor":LEARNER,"verb":{"id":"http://v/1"},"object":{"id":"http://a/1"},"context":{"registration":"ID10"}} => 200 ["ID40"] kept
admin POST /xapi/statements {"actor":{"mbox":"mailto:a@b"},"verb":{"id":"http://v/1"},"object":{"id":"http://a/1"}} => 200 ["ID41"] kept
admin POST /xapi/statements {"actor":{"mbox":"mailto:a@b"},"verb":{"id":"http://v/2"},"object":{"objectType":"StatementRef","id":"ID41"},"context":{"registration":"ID10"}} => 200 ["ID42"] kept
admin POST /xapi/statements {"actor":{"mbox":"mailto:a@b"},"verb":{"id":"http://v/3"},"object":{"objectType":"StatementRef","id":"ID40"},"context":{"registration":"ID10"}} => 200 ["ID43"] kept
admin POST /xapi/statements {"actor":{"mbox":"mailto:a@b"},"verb":{"id":"http://v/4"},"object":{"objectType":"StatementRef","id":"ID40"}} => 200 ["ID44"] kept
admin POST /xapi/statements {"actor":{"mbox":"mailto:a@b"},"verb":{"id":"http://v/5"},"object":{"objectType":"StatementRef","id":"ID44"},"context":{"registration":"ID10"}} => 200 ["ID45"] kept
// one refers to a statement that it doesn't see, one through such a statement to one that it sees
TOKEN GET /xapi/statements?verb=http://v/1&format=ids => 200 {"statements":[{"actor":{"mbox":"mailto:a@b"},"verb":{"id":"http://v/5"},"object":{"objectType":"StatementRef","id":"ID44"},"context":{"registration":"ID10"},"id":"ID45","timestamp":"2023-11-14T22:13:20.000Z","stored":"2023-11-14T22:13:20.000Z","authority":{"objectType":"Agent","account":{"homePage":"https://lrs.invalid/callers","name":"admin"}},"version":"1.0.0"},{"actor":{"mbox":"mailto:a@b"},"verb":{"id":"http://v/3"},"object":{"objectType":"StatementRef","id":"ID40"},"context":{"registration":"ID10"},"id":"ID43","timestamp":"2023-11-14T22:13:20.000Z","stored":"2023-11-14T22:13:20.000Z","authority":{"objectType":"Agent","account":{"homePage":"https://lrs.invalid/callers","name":"admin"}},"version":"1.0.0"},{"actor":LEARNER,"verb":{"id":"http://v/1"},"object":{"id":"http://a/1"},"context":{"registration":"ID10"},"id":"ID40","timestamp":"2023-11-14T22:13:20.000Z","stored":"2023-11-14T22:13:20.000Z","authority":{"objectType":"Agent","account":{"homePage":"https://lrs.invalid/callers","name":"session:ID20"}},"version":"1.0.0"}],"more":""}
admin GET /xapi/statements?verb=http://v/1&format=ids => 200 {"statements":[{"actor":{"mbox":"mailto:a@b"},"verb":{"id":"http://v/5"},"object":{"objectType":"StatementRef","id":"ID44"},"context":{"registration":"ID10"},"id":"ID45","timestamp":"2023-11-14T22:13:20.000Z","stored":"2023-11-14T22:13:20.000Z","authority":{"objectType":"Agent","account":{"homePage":"https://lrs.invalid/callers","name":"admin"}},"version":"1.0.0"},{"actor":{"mbox":"mailto:a@b"},"verb":{"id":"http://v/4"},"object":{"objectType":"StatementRef","id":"ID40"},"id":"ID44","timestamp":"2023-11-14T22:13:20.000Z","stored":"2023-11-14T22:13:20.000Z","authority":{"objectType":"Agent","account":{"homePage":"https://lrs.invalid/callers","name":"admin"}},"version":"1.0.0"},{"actor":{"mbox":"mailto:a@b"},"verb":{"id":"http://v/3"},"object":{"objectType":"StatementRef","id":"ID40"},"context":{"registration":"ID10"},"id":"ID43","timestamp":"2023-11-14T22:13:20.000Z","stored":"2023-11-14T22:13:20.000Z","authority":{"objectType":"Agent","account":{"homePage":"https://lrs.invalid/callers","name":"admin"}},"version":"1.0.0"},{"actor":{"mbox":"mailto:a@b"},"verb":{"id":"http://v/2"},"object":{"objectType":"StatementRef","id":"ID41"},"context":{"registration":"ID10"},"id":"ID42","timestamp":"2023-11-14T22:13:20.000Z","stored":"2023-11-14T22:13:20.000Z","authority":{"objectType":"Agent","account":{"homePage":"https://lrs.invalid/callers","name":"admin"}},"version":"1.0.0"},{"actor":{"mbox":"mailto:a@b"},"verb":{"id":"http://v/1"},"object":{"id":"http://a/1"},"id":"ID41","timestamp":"2023-11-14T22:13:20.000Z","stored":"2023-11-14T22:13:20.000Z","authority":{"objectType":"Agent","account":{"homePage":"https://lrs.invalid/callers","name":"admin"}},"version":"1.0.0"},{"actor":LEARNER,"verb":{"id":"http://v/1"},"object":{"id":"http://a/1"},"context":{"registration":"ID10"},"id":"ID40","timestamp":"2023-11-14T22:13:20.000Z","stored":"2023-11-14T22:13:20.000Z","authority":{"objectType":"Agent","account":{"homePage":"https://lrs.invalid/callers","name":"session:ID20"}},"version":"1.0.0"}],"more":""}
TOKEN GET /xapi/statements?verb=http://v/4&format=ids => 200 {"statements":[],"more":""}
admin GET /xapi/statements?verb=http://v/4&format=ids => 200 {"statements":[{"actor":{"mbox":"mailto:a@b"},"verb":{"id":"http://v/5"},"object":{"objectType":"StatementRef","id":"ID44"},"context":{"registration":"ID10"},"id":"ID45","timestamp":"2023-11-14T22:13:20.000Z","stored":"2023-11-14T22:13:20.000Z","authority":{"objectType":"Agent","account":{"homePage":"https://lrs.invalid/callers","name":"admin"}},"version":"1.0.0"},{"actor":{"mbox":"mailto:a@b"},"verb":{"id":"http://v/4"},"object":{"objectType":"StatementRef","id":"ID40"},"id":"ID44","timestamp":"2023-11-14T22:13:20.000Z","stored":"2023-11-14T22:13:20.000Z","authority":{"objectType":"Agent","account":{"homePage":"https://lrs.invalid/callers","name":"admin"}},"version":"1.0.0"}],"more":""}
TOKEN GET /xapi/statements?verb=http://v/2&format=ids => 200 {"statements":[{"actor":{"mbox":"mailto:a@b"},"verb":{"id":"http://v/2"},"object":{"objectType":"StatementRef","id":"ID41"},"context":{"registration":"ID10"},"id":"ID42","timestamp":"2023-11-14T22:13:20.000Z","stored":"2023-11-14T22:13:20.000Z","authority":{"objectType":"Agent","account":{"homePage":"https://lrs.invalid/callers","name":"admin"}},"version":"1.0.0"}],"more":""}
// no one statement of a chain passes both filters
TOKEN GET /xapi/statements?verb=http://v/3&activity=http://a/1 => 200 {"statements":[],"more":""}
"#;

#[test]
fn a_session_sees_no_more_through_chains(rt: HostRuntime) -> Result<(), Fail> {
    check_rows(rt.alloc(), CHAINS)
}
