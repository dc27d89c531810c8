// Sessions that an admin abandons.
use crate::rows::check_rows;
use std::alloc::Global;
use std::test::Fail;

// A session in each phase: fetched, launched, initialized, terminated. The store says it only of one that had begun.
const PHASES: &str = r#"
sample
draw 64 0
admin POST /desk/sessions/ID20/abandon {} => 204 kept
admin POST /desk/sessions/ID20/abandon {} => 204
admin GET /xapi/statements?verb=ADL/abandoned => 200 {"statements":[],"more":""}
// it says nothing new, but its token is for good, and its key was used
TOKEN POST /xapi/statements {INITIALIZED,FIRST} => 403 {"error":"C5"}
TOKEN POST /xapi/statements {"actor":LEARNER,"verb":{"id":"http://v/1"},"object":{"id":"http://a/1"},"context":{"registration":"ID10"}} => 403 {"error":"C5"}
TOKEN GET STATE&agent=AGENT&registration=ID10 => 200 ["LMS.LaunchData"]
TOKEN PUT STATE&agent=AGENT&registration=ID10&stateId=b 1 => 204 kept
nobody POST /fetch/KEY => 200 {"error-code":"1","error-text":"The fetch key was used."}
// one that wasn't fetched gives no token any more
draw 48 3
admin POST /desk/registrations/ID10/launches {"unit":"http://c/u"} => 200 {"session":"ID30","launchMethod":"AnyWindow","url":"ADDRESSZEROS3-7WHOSEID10WHICH0%2F2"} kept
admin POST /desk/sessions/ID30/abandon {} => 204 kept
nobody POST /fetch/ZEROS3-7 => 200 {"error-code":"2","error-text":"The session is closed."}
nobody POST /fetch/ZEROS3-7 => 200 {"error-code":"2","error-text":"The session is closed."}
admin GET /xapi/statements?verb=ADL/abandoned => 200 {"statements":[],"more":""}
// one that had begun; what it said before may be said again
draw 96 4
admin POST /desk/registrations/ID10/launches {"unit":"http://c/u"} => 200 {"session":"ID60","launchMethod":"AnyWindow","url":"ADDRESSZEROS4-9WHOSEID10WHICH0%2F2"} kept
draw 0 5
nobody POST /fetch/ZEROS4-9 => 200 {"auth-token":"ZEROS5-10"} kept
draw 112 0
ZEROS5-10 POST /xapi/statements {INITIALIZED,SAYING"ID60"}}} => 200 ["ID70"] kept
admin POST /desk/sessions/ID60/abandon {} => 204 kept
admin POST /desk/sessions/ID60/abandon {} => 204
admin GET /xapi/statements?verb=ADL/abandoned&format=ids => 200 {"statements":[{"actor":LEARNER,"verb":{"id":"ADL/abandoned"},"object":{"objectType":"Activity","id":"BASEactivities/0/2"},"context":{"registration":"ID10","contextActivities":{"grouping":[{"objectType":"Activity","id":"http://c/u"}],"category":[{"objectType":"Activity","id":"CMI5"}]},"extensions":{"https://w3id.org/xapi/cmi5/context/extensions/sessionid":"ID60"}},"result":{"duration":"PT0S"},"id":"ID71","timestamp":"2023-11-14T22:13:20.000Z","stored":"2023-11-14T22:13:20.000Z","authority":{"objectType":"Agent","account":{"homePage":"https://lrs.invalid/callers","name":"desk"}},"version":"1.0.0"}],"more":""}
ZEROS5-10 POST /xapi/statements {TERMINATED,SAYING"ID60"}}} => 403 {"error":"C5"}
ZEROS5-10 PUT /xapi/statements?statementId=ID70 {INITIALIZED,SAYING"ID60"}}} => 204
ZEROS5-10 PUT /xapi/statements?statementId=ID70 {TERMINATED,SAYING"ID60"}}} => 409 {"error":"409","id":"ID70"}
nobody POST /fetch/ZEROS4-9 => 200 {"error-code":"1","error-text":"The fetch key was used."}
// one that ended by itself
draw 128 6
admin POST /desk/registrations/ID10/launches {"unit":"http://c/u"} => 200 {"session":"ID80","launchMethod":"AnyWindow","url":"ADDRESSZEROS6-13WHOSEID10WHICH0%2F2"} kept
draw 0 7
nobody POST /fetch/ZEROS6-13 => 200 {"auth-token":"ZEROS7-14"} kept
draw 144 0
ZEROS7-14 POST /xapi/statements [{INITIALIZED,SAYING"ID80"}}},{TERMINATED,SAYING"ID80"}}}] => 200 ["ID90","ID91"] kept
admin POST /desk/sessions/ID80/abandon {} => 204
ZEROS7-14 POST /xapi/statements {COMPLETED,SAYING"ID80"}}} => 403 {"error":"C6"}
"#;

#[test]
fn a_session_is_abandoned_in_each_phase(rt: HostRuntime) -> Result<(), Fail> {
    check_rows(rt.alloc(), PHASES)
}

// The whole statement. How long the session lasted goes by its own statements, of whatever kind, in hundredths.
const WHOLE: &str = r#"
sample
clock 1700000001000
draw 64 0
TOKEN POST /xapi/statements {INITIALIZED,FIRST} => 200 ["ID40"] kept
clock 1700000013349
TOKEN POST /xapi/statements {"actor":LEARNER,"verb":{"id":"http://v/1"},"object":{"id":"http://a/1"},"context":{"registration":"ID10"}} => 200 ["ID41"] kept
clock 1700000020000
admin POST /xapi/statements {"actor":LEARNER,"verb":{"id":"http://v/1"},"object":{"id":"http://a/1"},"context":{"registration":"ID10"}} => 200 ["ID42"] kept
clock 1700000040500
draw 96 0
admin POST /desk/sessions/ID20/abandon {} => 204 kept
admin GET /xapi/statements?statementId=ID60 => 200 {"actor":LEARNER,"verb":{"id":"ADL/abandoned","display":{"en":"abandoned"}},"object":{"objectType":"Activity","id":"BASEactivities/0/2"},"context":{"registration":"ID10","contextActivities":{"grouping":[{"objectType":"Activity","id":"http://c/u"}],"category":[{"objectType":"Activity","id":"CMI5"}]},"extensions":{"https://w3id.org/xapi/cmi5/context/extensions/sessionid":"ID20"}},"result":{"duration":"PT12.34S"},"id":"ID60","timestamp":"2023-11-14T22:14:00.500Z","stored":"2023-11-14T22:14:00.500Z","authority":{"objectType":"Agent","name":"desk","account":{"homePage":"https://lrs.invalid/callers","name":"desk"}},"version":"1.0.0"}
TOKEN GET /xapi/statements?statementId=ID60&format=ids => 200 {"actor":LEARNER,"verb":{"id":"ADL/abandoned"},"object":{"objectType":"Activity","id":"BASEactivities/0/2"},"context":{"registration":"ID10","contextActivities":{"grouping":[{"objectType":"Activity","id":"http://c/u"}],"category":[{"objectType":"Activity","id":"CMI5"}]},"extensions":{"https://w3id.org/xapi/cmi5/context/extensions/sessionid":"ID20"}},"result":{"duration":"PT12.34S"},"id":"ID60","timestamp":"2023-11-14T22:14:00.500Z","stored":"2023-11-14T22:14:00.500Z","authority":{"objectType":"Agent","account":{"homePage":"https://lrs.invalid/callers","name":"desk"}},"version":"1.0.0"}
admin GET /xapi/statements?statementId=ID61 => 404 {"error":"404"}
"#;

#[test]
fn an_abandoned_session_is_told_whole(rt: HostRuntime) -> Result<(), Fail> {
    check_rows(rt.alloc(), WHOLE)
}

// What was voided counts: the session had begun, and lasted so long.
const VOIDED: &str = r#"
sample
draw 64 0
TOKEN POST /xapi/statements {INITIALIZED,FIRST} => 200 ["ID40"] kept
clock 1700000002000
TOKEN POST /xapi/statements {PASSED,FIRST} => 200 ["ID41"] kept
clock 1700000003000
admin POST /xapi/statements [VOIDS"ID40"}},VOIDS"ID41"}}] => 200 ["ID42","ID43"] kept
admin POST /desk/sessions/ID20/abandon {} => 204 kept
admin GET /xapi/statements?statementId=ID44&format=ids => 200 {"actor":LEARNER,"verb":{"id":"ADL/abandoned"},"object":{"objectType":"Activity","id":"BASEactivities/0/2"},"context":{"registration":"ID10","contextActivities":{"grouping":[{"objectType":"Activity","id":"http://c/u"}],"category":[{"objectType":"Activity","id":"CMI5"}]},"extensions":{"https://w3id.org/xapi/cmi5/context/extensions/sessionid":"ID20"}},"result":{"duration":"PT2S"},"id":"ID44","timestamp":"2023-11-14T22:13:23.000Z","stored":"2023-11-14T22:13:23.000Z","authority":{"objectType":"Agent","account":{"homePage":"https://lrs.invalid/callers","name":"desk"}},"version":"1.0.0"}
"#;

#[test]
fn what_was_voided_began_a_session(rt: HostRuntime) -> Result<(), Fail> {
    check_rows(rt.alloc(), VOIDED)
}

// Two sessions, of which one lasted ten milliseconds less than the longest span that is told, and one a millisecond more.
const LONG: &str = r#"
sample
draw 64 0
TOKEN POST /xapi/statements {INITIALIZED,FIRST} => 200 ["ID40"] kept
clock 2699999999989
TOKEN POST /xapi/statements {"actor":LEARNER,"verb":{"id":"http://v/1"},"object":{"id":"http://a/1"},"context":{"registration":"ID10"}} => 200 ["ID41"] kept
admin POST /desk/sessions/ID20/abandon {} => 204 kept
admin GET /xapi/statements?statementId=ID42&format=ids => 200 {"actor":LEARNER,"verb":{"id":"ADL/abandoned"},"object":{"objectType":"Activity","id":"BASEactivities/0/2"},"context":{"registration":"ID10","contextActivities":{"grouping":[{"objectType":"Activity","id":"http://c/u"}],"category":[{"objectType":"Activity","id":"CMI5"}]},"extensions":{"https://w3id.org/xapi/cmi5/context/extensions/sessionid":"ID20"}},"result":{"duration":"PT999999999.98S"},"id":"ID42","timestamp":"2055-07-23T23:59:59.989Z","stored":"2055-07-23T23:59:59.989Z","authority":{"objectType":"Agent","account":{"homePage":"https://lrs.invalid/callers","name":"desk"}},"version":"1.0.0"}
draw 48 3
admin POST /desk/registrations/ID10/launches {"unit":"http://c/u"} => 200 {"session":"ID30","launchMethod":"AnyWindow","url":"ADDRESSZEROS3-8WHOSEID10WHICH0%2F2"} kept
draw 0 4
nobody POST /fetch/ZEROS3-8 => 200 {"auth-token":"ZEROS4-9"} kept
draw 80 0
ZEROS4-9 POST /xapi/statements {INITIALIZED,SECOND} => 200 ["ID50"] kept
clock 3699999999989
ZEROS4-9 POST /xapi/statements {"actor":LEARNER,"verb":{"id":"http://v/1"},"object":{"id":"http://a/1"},"context":{"registration":"ID10"}} => 200 ["ID51"] kept
admin POST /desk/sessions/ID30/abandon {} => 204 kept
admin GET /xapi/statements?statementId=ID52&format=ids => 200 {"actor":LEARNER,"verb":{"id":"ADL/abandoned"},"object":{"objectType":"Activity","id":"BASEactivities/0/2"},"context":{"registration":"ID10","contextActivities":{"grouping":[{"objectType":"Activity","id":"http://c/u"}],"category":[{"objectType":"Activity","id":"CMI5"}]},"extensions":{"https://w3id.org/xapi/cmi5/context/extensions/sessionid":"ID30"}},"result":{"duration":"PT999999999.99S"},"id":"ID52","timestamp":"2087-04-01T01:46:39.989Z","stored":"2087-04-01T01:46:39.989Z","authority":{"objectType":"Agent","account":{"homePage":"https://lrs.invalid/callers","name":"desk"}},"version":"1.0.0"}
"#;

#[test]
fn a_span_is_told_up_to_the_longest(rt: HostRuntime) -> Result<(), Fail> {
    check_rows(rt.alloc(), LONG)
}

// Who may, and what isn't there.
const ASKED: &str = r#"
sample
admin POST /desk/sessions/ID10/abandon {} => 404 {"error":"404"}
admin POST /desk/sessions/ID21/abandon {} => 404 {"error":"404"}
admin POST /desk/sessions/20/abandon {} => 404 {"error":"404"}
admin POST /desk/sessions/20/abandon {"a":1} => 400 {"error":"B1"}
admin POST /desk/sessions/ID20/abandon [] => 400 {"error":"B1"}
admin POST /desk/sessions/ID20/abandon => 400 {"error":"J2"}
admin POST /desk/sessions/ID20/abandon?a=b { => 400 {"error":"P2"}
admin GET /desk/sessions/ID20/abandon => POST
admin POST /desk/sessions/ID20 {} => no route
nobody POST /desk/sessions/ID20/abandon {} => 401 {"error":"A1"}
TOKEN POST /desk/sessions/ID20/abandon {} => 403 {"error":"A2"}
admin POST /desk/callers {"name":"p"} => 200 {"caller":0,"token":"ZEROS2-5"} kept
ZEROS2-5 POST /desk/sessions/ID20/abandon { => 403 {"error":"A2"}
admin POST /desk/sessions/ID20/abandon {} => 204 kept
"#;

#[test]
fn an_admin_abandons_a_session_of_a_launch(rt: HostRuntime) -> Result<(), Fail> {
    check_rows(rt.alloc(), ASKED)
}
