// What sessions see and may do.
use crate::rows::check_rows;
use std::alloc::Global;
use std::test::Fail;

// A session keeps statements that cmi5 defines, which no other caller may, and sees those of its registration.
const STATEMENTS: &str = r#"
sample
draw 64 3
TOKEN POST /xapi/statements {"verb":{"id":"VERB/initialized"},FIRST} => 200 ["ID40"] kept
admin POST /xapi/statements {"verb":{"id":"VERB/initialized"},FIRST} => 403 {"error":"C1"}
admin POST /desk/callers {"name":"p"} => 200 {"caller":0,"token":"00000000000000000000000000000003-6"} kept
00000000000000000000000000000003-6 POST /xapi/statements {"verb":{"id":"VERB/initialized"},FIRST} => 403 {"error":"C1"}
00000000000000000000000000000003-6 PUT /xapi/statements?statementId=ID50 {"verb":{"id":"VERB/initialized"},FIRST} => 403 {"error":"C1"}
// the same statement of another caller under the id that is held
00000000000000000000000000000003-6 PUT /xapi/statements?statementId=ID40 {"verb":{"id":"VERB/initialized"},FIRST} => 204
// another statement under it; a batch with a statement that isn't kept
admin PUT /xapi/statements?statementId=ID40 {"actor":LEARNER,"verb":{"id":"VERB/passed"},"object":{"id":"BASEactivities/0/2"},"context":{"contextActivities":{"category":{"id":"CMI5"}}}} => 409 {"error":"409","id":"ID40"}
admin POST /xapi/statements [{"id":"ID60","actor":LEARNER,"verb":{"id":"http://v/1"},"object":{"id":"http://a/1"}},{"actor":LEARNER,"verb":{"id":"http://v/1"},"object":{"id":"http://a/1"},"context":{"contextActivities":{"category":{"id":"CMI5"}}}}] => 403 {"error":"C1"}
admin GET /xapi/statements?statementId=ID60 => 404 {"error":"404"}
// C1 before C2; a session doesn't void
admin POST /xapi/statements {"actor":LEARNER,"verb":{"id":"VERB/voided"},"object":{"objectType":"StatementRef","id":"ID40"},"context":{"contextActivities":{"category":{"id":"CMI5"}}}} => 403 {"error":"C1"}
TOKEN POST /xapi/statements {"actor":LEARNER,"verb":{"id":"VERB/voided"},"object":{"objectType":"StatementRef","id":"ID40"},"context":{"contextActivities":{"category":{"id":"CMI5"}}}} => 403 {"error":"C2"}
// a category of another kind, and cmi5's elsewhere
admin PUT /xapi/statements?statementId=ID51 {"actor":LEARNER,"verb":{"id":"http://v/1"},"object":{"id":"http://a/1"},"context":{"contextActivities":{"category":[{"id":"CMI5/x"}],"other":{"id":"CMI5"}}}} => 204 kept
// by id and in lists: the registration's
TOKEN GET /xapi/statements?statementId=ID51 => 404 {"error":"404"}
TOKEN GET /xapi/statements?statementId=ID40&format=ids => 200 {"verb":{"id":"VERB/initialized"},FIRST,"id":"ID40","timestamp":"2023-11-14T22:13:20.000Z","stored":"2023-11-14T22:13:20.000Z","authority":{"objectType":"Agent","account":{"homePage":"https://lrs.invalid/callers","name":"session:ID20"}},"version":"1.0.0"}
TOKEN GET /xapi/statements?verb=http://v/1 => 200 {"statements":[],"more":""}
TOKEN GET /xapi/statements?verb=VERB/initialized&format=ids => 200 {"statements":[{"verb":{"id":"VERB/initialized"},FIRST,"id":"ID40","timestamp":"2023-11-14T22:13:20.000Z","stored":"2023-11-14T22:13:20.000Z","authority":{"objectType":"Agent","account":{"homePage":"https://lrs.invalid/callers","name":"session:ID20"}},"version":"1.0.0"}],"more":""}
00000000000000000000000000000003-6 GET /xapi/statements => 200 {"statements":[],"more":""}
"#;

#[test]
fn a_session_keeps_and_sees_the_statements_of_its_registration(
    rt: HostRuntime,
) -> Result<(), Fail> {
    check_rows(rt.alloc(), STATEMENTS)
}

// Documents of its own learner, of its registration or of none; not what its launch wrote, and one by one.
const DOCUMENTS: &str = r#"
sample
TOKEN PUT STATE&agent=AGENT&registration=ID10&stateId=b {"page":1} => 204 kept
TOKEN POST STATE&agent=AGENT&registration=ID10&stateId=b {"page":2} => 204 kept
TOKEN GET STATE&agent=AGENT&registration=ID10&stateId=b => 200 application/json {"page":2}
TOKEN PUT STATE&agent=AGENT&stateId=b {"page":3} => 204 kept
TOKEN DELETE STATE&agent=AGENT&stateId=b => 204 kept
// another learner's, and another registration's
TOKEN PUT STATE&agent=OTHER&registration=ID10&stateId=b 1 => 403 {"error":"A3"}
TOKEN GET STATE&agent=OTHER&registration=ID10&stateId=b => 403 {"error":"A3"}
TOKEN GET STATE&agent=OTHER => 403 {"error":"A3"}
TOKEN PUT STATE&agent=AGENT&registration=ID20&stateId=b 1 => 403 {"error":"A3"}
TOKEN GET STATE&agent=AGENT&registration=ID20&stateId=b => 403 {"error":"A3"}
TOKEN GET STATE&agent=AGENT&registration=ID20 => 403 {"error":"A3"}
TOKEN DELETE STATE&agent=OTHER => 403 {"error":"A3"}
// its launch data, by each method, and all at once
TOKEN PUT STATE&agent=AGENT&registration=ID10&stateId=LMS.LaunchData 1 => 403 {"error":"A4"}
TOKEN POST STATE&agent=AGENT&registration=ID10&stateId=LMS.LaunchData {} => 403 {"error":"A4"}
TOKEN DELETE STATE&agent=AGENT&registration=ID10&stateId=LMS.LaunchData => 403 {"error":"A4"}
TOKEN PUT STATE&agent=OTHER&stateId=LMS.LaunchData 1 => 403 {"error":"A3"}
TOKEN DELETE STATE&agent=AGENT&registration=ID10 => 403 {"error":"A5"}
// whatever registration or activity it names
TOKEN PUT STATE&agent=AGENT&stateId=LMS.LaunchData 1 => 403 {"error":"A4"}
TOKEN DELETE STATE&agent=AGENT&stateId=LMS.LaunchData => 403 {"error":"A4"}
TOKEN PUT /xapi/activities/state?activityId=http://a/1&agent=AGENT&registration=ID10&stateId=LMS.LaunchData 1 => 403 {"error":"A4"}
TOKEN DELETE STATE&agent=AGENT => 403 {"error":"A5"}
// the rules on the form go before, what isn't there and what can't be merged come after
TOKEN PUT STATE&agent=OTHER 1 => 400 {"error":"P4"}
TOKEN GET STATE&agent=AGENT&stateId=c => 404 {"error":"404"}
TOKEN POST STATE&agent=AGENT&registration=ID10&stateId=b [1] => 400 {"error":"T2"}
TOKEN POST STATE&agent=OTHER&registration=ID10&stateId=b [1] => 403 {"error":"A3"}
// all others may write what a launch wrote
draw 0 3
admin POST /desk/callers {"name":"p"} => 200 {"caller":0,"token":"00000000000000000000000000000003-9"} kept
00000000000000000000000000000003-9 PUT STATE&agent=AGENT&registration=ID10&stateId=LMS.LaunchData {"p":1} => 204 kept
admin PUT STATE&agent=AGENT&registration=ID10&stateId=LMS.LaunchData {} => 204 kept
admin DELETE STATE&agent=AGENT&registration=ID10 => 204 kept
"#;

#[test]
fn a_session_keeps_documents_of_its_learner(rt: HostRuntime) -> Result<(), Fail> {
    check_rows(rt.alloc(), DOCUMENTS)
}

// Two learners' sessions: neither sees the other's statements or documents. A key that was never fetched opens nothing,
// and a key is no token.
const APART: &str = r#"
sample
draw 48 0
admin POST /desk/registrations {"course":"http://c/1","actor":{"name":"K \"2\"","account":{"homePage":"https://p.example","name":"k2"}}} => 200 {"registration":"ID30"} kept
draw 80 8
admin POST /desk/registrations/ID30/launches {"unit":"http://c/u"} => 200 {"session":"ID50","launchMethod":"AnyWindow","url":"https://au.example/u?endpoint=http%3A%2F%2F127.0.0.1%3A8080%2Fxapi%2F&fetch=http%3A%2F%2F127.0.0.1%3A8080%2Ffetch%2F00000000000000000000000000000008-6&actor=%7B%22objectType%22%3A%22Agent%22%2C%22name%22%3A%22K%20%5C%222%5C%22%22%2C%22account%22%3A%7B%22homePage%22%3A%22https%3A%2F%2Fp.example%22%2C%22name%22%3A%22k2%22%7D%7D&registration=ID30&activityId=http%3A%2F%2F127.0.0.1%3A8080%2Factivities%2F0%2F2"} kept
00000000000000000000000000000008-6 GET STATE&agent=OTHER => 401 {"error":"A1"}
draw 0 9
nobody POST /fetch/00000000000000000000000000000008-6 => 200 {"auth-token":"00000000000000000000000000000009-7"} kept
00000000000000000000000000000008-6 GET STATE&agent=OTHER => 401 {"error":"A1"}
KEY GET STATE&agent=AGENT => 401 {"error":"A1"}
00000000000000000000000000000009-7 GET STATE&agent=OTHER&registration=ID30 => 200 ["LMS.LaunchData"]
00000000000000000000000000000009-7 GET STATE&agent=AGENT&registration=ID10 => 403 {"error":"A3"}
00000000000000000000000000000009-7 GET STATE&agent=OTHER&registration=ID10 => 403 {"error":"A3"}
00000000000000000000000000000009-7 GET /xapi/statements?statementId=ID21 => 404 {"error":"404"}
TOKEN GET /xapi/statements?statementId=ID51 => 404 {"error":"404"}
TOKEN GET /xapi/statements?agent=OTHER => 200 {"statements":[],"more":""}
00000000000000000000000000000009-7 GET /xapi/statements?registration=ID10 => 200 {"statements":[],"more":""}
"#;

#[test]
fn sessions_are_apart(rt: HostRuntime) -> Result<(), Fail> {
    check_rows(rt.alloc(), APART)
}

// A session that has ended: its token is for good, and its key was used.
const ENDED: &str = r#"
sample
draw 64 0
TOKEN POST /xapi/statements {"verb":{"id":"VERB/initialized"},FIRST} => 200 ["ID40"] kept
TOKEN POST /xapi/statements {"verb":{"id":"VERB/terminated"},"result":{"duration":"PT1S"},FIRST} => 200 ["ID41"] kept
nobody POST /fetch/KEY => 200 {"error-code":"1","error-text":"The fetch key was used."}
TOKEN GET STATE&agent=AGENT&registration=ID10 => 200 ["LMS.LaunchData"]
TOKEN PUT STATE&agent=AGENT&registration=ID10&stateId=b 1 => 204 kept
"#;

#[test]
fn a_token_is_for_good(rt: HostRuntime) -> Result<(), Fail> {
    check_rows(rt.alloc(), ENDED)
}

// A learner who is enrolled twice, with a session of each.
const TWICE: &str = r#"
sample
draw 48 0
admin POST /desk/registrations {"course":"http://c/1","actor":ACTOR} => 200 {"registration":"ID30"} kept
draw 80 8
admin POST /desk/registrations/ID30/launches {"unit":"http://c/u"} => 200 {"session":"ID50","launchMethod":"AnyWindow","url":"https://au.example/u?endpoint=http%3A%2F%2F127.0.0.1%3A8080%2Fxapi%2F&fetch=http%3A%2F%2F127.0.0.1%3A8080%2Ffetch%2F00000000000000000000000000000008-6&actor=%7B%22objectType%22%3A%22Agent%22%2C%22account%22%3A%7B%22homePage%22%3A%22https%3A%2F%2Fp.example%22%2C%22name%22%3A%22k1%22%7D%7D&registration=ID30&activityId=http%3A%2F%2F127.0.0.1%3A8080%2Factivities%2F0%2F2"} kept
draw 0 9
nobody POST /fetch/00000000000000000000000000000008-6 => 200 {"auth-token":"00000000000000000000000000000009-7"} kept
TOKEN GET STATE&agent=AGENT&registration=ID30&stateId=b => 403 {"error":"A3"}
TOKEN PUT STATE&agent=AGENT&registration=ID30&stateId=b 1 => 403 {"error":"A3"}
TOKEN POST STATE&agent=AGENT&registration=ID30&stateId=b {} => 403 {"error":"A3"}
TOKEN DELETE STATE&agent=AGENT&registration=ID30&stateId=b => 403 {"error":"A3"}
TOKEN GET STATE&agent=AGENT&registration=ID30 => 403 {"error":"A3"}
TOKEN DELETE STATE&agent=AGENT&registration=ID30 => 403 {"error":"A3"}
TOKEN GET STATE&agent=AGENT&registration=ID30&stateId=LMS.LaunchData => 403 {"error":"A3"}
TOKEN PUT STATE&agent=AGENT&registration=ID30&stateId=LMS.LaunchData 1 => 403 {"error":"A3"}
00000000000000000000000000000009-7 GET STATE&agent=AGENT&registration=ID10&stateId=b => 403 {"error":"A3"}
00000000000000000000000000000009-7 PUT STATE&agent=AGENT&registration=ID10&stateId=b 1 => 403 {"error":"A3"}
00000000000000000000000000000009-7 POST STATE&agent=AGENT&registration=ID10&stateId=b {} => 403 {"error":"A3"}
00000000000000000000000000000009-7 DELETE STATE&agent=AGENT&registration=ID10&stateId=b => 403 {"error":"A3"}
00000000000000000000000000000009-7 GET STATE&agent=AGENT&registration=ID10 => 403 {"error":"A3"}
00000000000000000000000000000009-7 DELETE STATE&agent=AGENT&registration=ID10 => 403 {"error":"A3"}
00000000000000000000000000000009-7 GET STATE&agent=AGENT&registration=ID10&stateId=LMS.LaunchData => 403 {"error":"A3"}
00000000000000000000000000000009-7 PUT STATE&agent=AGENT&registration=ID10&stateId=LMS.LaunchData 1 => 403 {"error":"A3"}
// each its own
TOKEN GET STATE&agent=AGENT&registration=ID10&stateId=LMS.LaunchData => 200 application/json {"contextTemplate":{"contextActivities":{"grouping":[{"objectType":"Activity","id":"http://c/u"}]},"extensions":{"https://w3id.org/xapi/cmi5/context/extensions/sessionid":"ID20"}},"launchMode":"Normal","moveOn":"CompletedAndPassed","masteryScore":0.8}
00000000000000000000000000000009-7 GET STATE&agent=AGENT&registration=ID30&stateId=LMS.LaunchData => 200 application/json {"contextTemplate":{"contextActivities":{"grouping":[{"objectType":"Activity","id":"http://c/u"}]},"extensions":{"https://w3id.org/xapi/cmi5/context/extensions/sessionid":"ID50"}},"launchMode":"Normal","moveOn":"CompletedAndPassed","masteryScore":0.8}
00000000000000000000000000000009-7 PUT STATE&agent=AGENT&registration=ID30&stateId=LMS.LaunchData 1 => 403 {"error":"A4"}
00000000000000000000000000000009-7 POST STATE&agent=AGENT&registration=ID30&stateId=LMS.LaunchData {} => 403 {"error":"A4"}
00000000000000000000000000000009-7 DELETE STATE&agent=AGENT&registration=ID30&stateId=LMS.LaunchData => 403 {"error":"A4"}
00000000000000000000000000000009-7 DELETE STATE&agent=AGENT&registration=ID30 => 403 {"error":"A5"}
// without a registration both have the same
TOKEN PUT STATE&agent=AGENT&stateId=b {"page":1} => 204 kept
00000000000000000000000000000009-7 GET STATE&agent=AGENT&stateId=b => 200 application/json {"page":1}
00000000000000000000000000000009-7 POST STATE&agent=AGENT&stateId=b {"page":2} => 204 kept
TOKEN GET STATE&agent=AGENT&stateId=b => 200 application/json {"page":2}
00000000000000000000000000000009-7 GET STATE&agent=AGENT => 200 ["b"]
00000000000000000000000000000009-7 GET STATE&agent=AGENT&registration=ID30 => 200 ["LMS.LaunchData"]
// a name in lower case is another's
TOKEN GET STATE&agent=AGENT&registration=ID10&stateId=lms.launchdata => 404 {"error":"404"}
TOKEN DELETE STATE&agent=AGENT&registration=ID10&stateId=lms.launchdata => 204
TOKEN PUT STATE&agent=AGENT&registration=ID10&stateId=lms.launchdata 1 => 204 kept
TOKEN GET STATE&agent=AGENT&registration=ID10&stateId=lms.launchdata => 200 application/json 1
TOKEN GET STATE&agent=AGENT&registration=ID10 => 200 ["LMS.LaunchData","lms.launchdata"]
TOKEN DELETE STATE&agent=AGENT&registration=ID10&stateId=lms.launchdata => 204 kept
TOKEN GET STATE&agent=AGENT&registration=ID10 => 200 ["LMS.LaunchData"]
"#;

#[test]
fn sessions_of_one_learner_are_apart(rt: HostRuntime) -> Result<(), Fail> {
    check_rows(rt.alloc(), TWICE)
}
