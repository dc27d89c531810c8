// Launches over a session that is open.
use crate::rows::check_rows;
use std::alloc::Global;
use std::test::Fail;

// A unit is launched again in its registration: over a session that hasn't begun, over one that has, in another mode, and
// over one that ended. The statement that one was abandoned comes before that of the launch.
const AGAIN: &str = r#"
sample
draw 48 3
admin POST /desk/registrations/ID10/launches {"unit":"http://c/u"} => 200 {"session":"ID30","launchMethod":"AnyWindow","url":"ADDRESSZEROS3-5WHOSEID10WHICH0%2F2"} kept
TOKEN POST /xapi/statements {INITIALIZED,FIRST} => 403 {"error":"C5"}
admin GET /xapi/statements?verb=ADL/abandoned => 200 {"statements":[],"more":""}
admin POST /desk/sessions/ID20/abandon {} => 204
draw 0 4
nobody POST /fetch/ZEROS3-5 => 200 {"auth-token":"ZEROS4-6"} kept
draw 64 0
ZEROS4-6 POST /xapi/statements {INITIALIZED,SECOND} => 200 ["ID40"] kept
clock 1700000007500
ZEROS4-6 POST /xapi/statements {"actor":LEARNER,"verb":{"id":"http://v/1"},"object":{"id":"http://a/1"},"context":{"registration":"ID10"}} => 200 ["ID41"] kept
clock 1700000009000
draw 80 5
admin POST /desk/registrations/ID10/launches {"unit":"http://c/u","mode":"Review"} => 200 {"session":"ID50","launchMethod":"AnyWindow","url":"ADDRESSZEROS5-9WHOSEID10WHICH0%2F2"} kept
admin GET /xapi/statements?statementId=ID51 => 200 {"actor":LEARNER,"verb":{"id":"ADL/abandoned","display":{"en":"abandoned"}},"object":{"objectType":"Activity","id":"BASEactivities/0/2"},"context":{"registration":"ID10","contextActivities":{"grouping":[{"objectType":"Activity","id":"http://c/u"}],"category":[{"objectType":"Activity","id":"CMI5"}]},"extensions":{"https://w3id.org/xapi/cmi5/context/extensions/sessionid":"ID30"}},"result":{"duration":"PT7.50S"},"id":"ID51","timestamp":"2023-11-14T22:13:29.000Z","stored":"2023-11-14T22:13:29.000Z","authority":{"objectType":"Agent","name":"desk","account":{"homePage":"https://lrs.invalid/callers","name":"desk"}},"version":"1.0.0"}
admin GET /xapi/statements?statementId=ID52&format=ids => 200 {"actor":LEARNER,"verb":{"id":"VERB/launched"},"object":{"objectType":"Activity","id":"BASEactivities/0/2"},"context":{"registration":"ID10","contextActivities":{"grouping":[{"objectType":"Activity","id":"http://c/u"}],"category":[{"objectType":"Activity","id":"CMI5"}]},"extensions":{"https://w3id.org/xapi/cmi5/context/extensions/sessionid":"ID50","https://w3id.org/xapi/cmi5/context/extensions/launchmode":"Review","https://w3id.org/xapi/cmi5/context/extensions/launchurl":"https://au.example/u","https://w3id.org/xapi/cmi5/context/extensions/moveon":"CompletedAndPassed","https://w3id.org/xapi/cmi5/context/extensions/masteryscore":0.8}},"id":"ID52","timestamp":"2023-11-14T22:13:29.000Z","stored":"2023-11-14T22:13:29.000Z","authority":{"objectType":"Agent","account":{"homePage":"https://lrs.invalid/callers","name":"desk"}},"version":"1.0.0"}
ZEROS4-6 POST /xapi/statements {TERMINATED,SECOND} => 403 {"error":"C5"}
draw 0 6
nobody POST /fetch/ZEROS5-9 => 200 {"auth-token":"ZEROS6-10"} kept
draw 96 0
ZEROS6-10 POST /xapi/statements [{INITIALIZED,SAYING"ID50"}}},{TERMINATED,SAYING"ID50"}}}] => 200 ["ID60","ID61"] kept
draw 112 7
admin POST /desk/registrations/ID10/launches {"unit":"http://c/u"} => 200 {"session":"ID70","launchMethod":"AnyWindow","url":"ADDRESSZEROS7-12WHOSEID10WHICH0%2F2"} kept
admin GET /xapi/statements?statementId=ID72 => 404 {"error":"404"}
admin POST /desk/sweep {"idle":0} => 200 {"abandoned":["ID70"]} kept
"#;

#[test]
fn a_launch_abandons_the_open_session_of_its_unit(rt: HostRuntime) -> Result<(), Fail> {
    check_rows(rt.alloc(), AGAIN)
}

// A launch of another unit, or in another registration, leaves a session open. One of the first unit in its registration
// abandons that one alone.
const OTHERS: &str = r#"
draw 0 0
admin POST /desk/courses {"id":"http://c/1","title":{"en":"C"},"children":[{"kind":"unit","id":"http://c/v","title":{"en":"V"},"url":"https://au.example/u","moveOn":"Passed"},{"kind":"unit","id":"http://c/u","title":{"en":"U"},"url":"https://au.example/u","moveOn":"Passed"}]} => 200 {"course":"http://c/1","edition":1} kept
draw 16 0
admin POST /desk/registrations {"course":"http://c/1","actor":ACTOR} => 200 {"registration":"ID10"} kept
admin POST /desk/registrations {"course":"http://c/1","actor":ACTOR} => 200 {"registration":"ID11"} kept
draw 32 1
admin POST /desk/registrations/ID10/launches {"unit":"http://c/u"} => 200 {"session":"ID20","launchMethod":"AnyWindow","url":"ADDRESSZEROS1-4WHOSEID10WHICH0%2F2"} kept
draw 0 2
nobody POST /fetch/ZEROS1-4 => 200 {"auth-token":"ZEROS2-5"} kept
draw 64 0
ZEROS2-5 POST /xapi/statements {INITIALIZED,FIRST} => 200 ["ID40"] kept
draw 80 3
admin POST /desk/registrations/ID10/launches {"unit":"http://c/v"} => 200 {"session":"ID50","launchMethod":"AnyWindow","url":"ADDRESSZEROS3-7WHOSEID10WHICH0%2F1"} kept
draw 96 4
admin POST /desk/registrations/ID11/launches {"unit":"http://c/u"} => 200 {"session":"ID60","launchMethod":"AnyWindow","url":"ADDRESSZEROS4-8WHOSEID11WHICH0%2F2"} kept
admin GET /xapi/statements?verb=ADL/abandoned => 200 {"statements":[],"more":""}
draw 65 0
ZEROS2-5 POST /xapi/statements {COMPLETED,FIRST} => 200 ["ID41"] kept
draw 112 5
admin POST /desk/registrations/ID10/launches {"unit":"http://c/u"} => 200 {"session":"ID70","launchMethod":"AnyWindow","url":"ADDRESSZEROS5-10WHOSEID10WHICH0%2F2"} kept
ZEROS2-5 POST /xapi/statements {TERMINATED,FIRST} => 403 {"error":"C5"}
admin GET /xapi/statements?statementId=ID73 => 404 {"error":"404"}
draw 128 0
admin POST /desk/sweep {"idle":0} => 200 {"abandoned":["ID50","ID60","ID70"]} kept
"#;

#[test]
fn a_launch_leaves_other_sessions_open(rt: HostRuntime) -> Result<(), Fail> {
    check_rows(rt.alloc(), OTHERS)
}

// A launch that is refused abandons none.
const REFUSED: &str = r#"
sample
admin POST /desk/registrations/ID10/launches {"unit":"http://c/b"} => 404 {"error":"404"}
admin POST /desk/registrations/ID10/launches {"unit":"http://c/u","mode":"normal"} => 400 {"error":"B4"}
TOKEN POST /desk/registrations/ID10/launches {"unit":"http://c/u"} => 403 {"error":"A2"}
draw 64 0
TOKEN POST /xapi/statements {INITIALIZED,FIRST} => 200 ["ID40"] kept
"#;

#[test]
fn a_refused_launch_abandons_none(rt: HostRuntime) -> Result<(), Fail> {
    check_rows(rt.alloc(), REFUSED)
}
