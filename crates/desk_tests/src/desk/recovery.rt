// A desk that is opened again.
use crate::rows::check_reopened;
use std::alloc::Global;
use std::test::Fail;

// Two launches of the sample unit for one learner, who is enrolled twice. The first is fetched, and its session keeps
// something.
const BEFORE: &str = r#"
draw 0 0
admin POST /desk/courses {"id":"http://c/1","title":{"en":"C"},"children":[{"kind":"block","id":"http://c/b","title":{"en":"B"},"children":[{"kind":"unit","id":"http://c/u","title":{"en":"U"},"url":"https://au.example/u","moveOn":"CompletedAndPassed","masteryScore":0.8}]}]} => 200 {"course":"http://c/1","edition":1} kept
draw 16 0
admin POST /desk/registrations {"course":"http://c/1","actor":ACTOR} => 200 {"registration":"ID10"} kept
draw 32 1
admin POST /desk/registrations/ID10/launches {"unit":"http://c/u"} => 200 {"session":"ID20","launchMethod":"AnyWindow","url":"ADDRESSKEYWHOSEID10WHICH0%2F2"} kept
draw 112 0
admin POST /desk/registrations {"course":"http://c/1","actor":ACTOR} => 200 {"registration":"ID70"} kept
draw 48 1
admin POST /desk/registrations/ID70/launches {"unit":"http://c/u"} => 200 {"session":"ID30","launchMethod":"AnyWindow","url":"ADDRESSZEROS1-5WHOSEID70WHICH0%2F2"} kept
draw 0 2
nobody POST /fetch/KEY => 200 {"auth-token":"ZEROS2-6"} kept
draw 64 3
ZEROS2-6 PUT /xapi/statements?statementId=ID3f {INITIALIZED,FIRST} => 204 kept
ZEROS2-6 POST /xapi/statements {"actor":LEARNER,"verb":{"id":"http://v/1"},"object":{"id":"http://a/1"},"context":{"registration":"ID10"}} => 200 ["ID40"] kept
ZEROS2-6 PUT STATE&agent=AGENT&registration=ID10&stateId=b {"page":1} => 204 kept
admin POST /desk/callers {"name":"p"} => 200 {"caller":0,"token":"ZEROS3-10"} kept
"#;

// What is answered over what is opened again.
const AFTER: &str = r#"
admin POST /desk/courses {"id":"http://c/1","title":{"en":"C"},"children":[{"kind":"block","id":"http://c/b","title":{"en":"B"},"children":[{"kind":"unit","id":"http://c/u","title":{"en":"U"},"url":"https://au.example/u","moveOn":"CompletedAndPassed","masteryScore":0.8}]}]} => 200 {"course":"http://c/1","edition":1}
admin POST /desk/courses {"id":"http://c/1","title":{"en":"C"},"children":[{"kind":"block","id":"http://c/b","title":{"en":"B"},"children":[{"kind":"unit","id":"http://c/u","title":{"en":"U"},"url":"https://au.example/u","moveOn":"CompletedAndPassed","masteryScore":0.9}]}]} => 200 {"course":"http://c/1","edition":2} kept
nobody POST /fetch/KEY => 200 {"error-code":"1","error-text":"The fetch key was used."}
// what its token opens, and that its session has begun
ZEROS2-6 GET STATE&agent=AGENT&registration=ID10 => 200 ["LMS.LaunchData","b"]
ZEROS2-6 GET STATE&agent=AGENT&registration=ID10&stateId=b => 200 application/json {"page":1}
ZEROS2-6 GET STATE&agent=AGENT&registration=ID10&stateId=LMS.LaunchData => 200 application/json {"contextTemplate":{"contextActivities":{"grouping":[{"objectType":"Activity","id":"http://c/u"}]},"extensions":{"https://w3id.org/xapi/cmi5/context/extensions/sessionid":"ID20"}},"launchMode":"Normal","moveOn":"CompletedAndPassed","masteryScore":0.8}
ZEROS2-6 DELETE STATE&agent=AGENT&registration=ID10&stateId=LMS.LaunchData => 403 {"error":"A4"}
ZEROS2-6 GET STATE&agent=AGENT&registration=ID20&stateId=b => 403 {"error":"A3"}
ZEROS2-6 GET /xapi/statements?verb=http://v/1 => 200 {"statements":[{"actor":LEARNER,"verb":{"id":"http://v/1"},"object":{"id":"http://a/1"},"context":{"registration":"ID10"},"id":"ID40","timestamp":"2023-11-14T22:13:20.000Z","stored":"2023-11-14T22:13:20.000Z","authority":{"objectType":"Agent","name":"session","account":{"homePage":"https://lrs.invalid/callers","name":"session:ID20"}},"version":"1.0.0"}],"more":""}
ZEROS2-6 GET /xapi/statements?statementId=ID21 => 200 {"actor":LEARNER,"verb":{"id":"VERB/launched","display":{"en":"launched"}},"object":{"objectType":"Activity","id":"BASEactivities/0/2"},"context":{"registration":"ID10","contextActivities":{"grouping":[{"objectType":"Activity","id":"http://c/u"}],"category":[{"objectType":"Activity","id":"CMI5"}]},"extensions":{"https://w3id.org/xapi/cmi5/context/extensions/sessionid":"ID20","https://w3id.org/xapi/cmi5/context/extensions/launchmode":"Normal","https://w3id.org/xapi/cmi5/context/extensions/launchurl":"https://au.example/u","https://w3id.org/xapi/cmi5/context/extensions/moveon":"CompletedAndPassed","https://w3id.org/xapi/cmi5/context/extensions/masteryscore":0.8}},"id":"ID21","timestamp":"2023-11-14T22:13:20.000Z","stored":"2023-11-14T22:13:20.000Z","authority":{"objectType":"Agent","name":"desk","account":{"homePage":"https://lrs.invalid/callers","name":"desk"}},"version":"1.0.0"}
ZEROS2-6 POST /xapi/statements {INITIALIZED,FIRST} => 403 {"error":"C12"}
ZEROS3-10 GET /xapi/statements => 200 {"statements":[],"more":""}
// the key that wasn't used, once
draw 0 4
nobody POST /fetch/ZEROS1-5 => 200 {"auth-token":"ZEROS4-12"} kept
nobody POST /fetch/ZEROS1-5 => 200 {"error-code":"1","error-text":"The fetch key was used."}
ZEROS4-12 GET STATE&agent=AGENT&registration=ID70 => 200 ["LMS.LaunchData"]
ZEROS4-12 GET STATE&agent=AGENT&registration=ID10 => 403 {"error":"A3"}
// the next ids, of which one goes to the statement that the first session was abandoned
draw 32 6
admin POST /desk/registrations/ID10/launches {"unit":"http://c/u"} => 200 {"session":"ID22","launchMethod":"AnyWindow","url":"ADDRESSZEROS6-13WHOSEID10WHICH0%2F2"} kept
ZEROS2-6 GET /xapi/statements?verb=ADL/abandoned&format=ids => 200 {"statements":[{"actor":LEARNER,"verb":{"id":"ADL/abandoned"},"object":{"objectType":"Activity","id":"BASEactivities/0/2"},"context":{"registration":"ID10","contextActivities":{"grouping":[{"objectType":"Activity","id":"http://c/u"}],"category":[{"objectType":"Activity","id":"CMI5"}]},"extensions":{"https://w3id.org/xapi/cmi5/context/extensions/sessionid":"ID20"}},"result":{"duration":"PT0S"},"id":"ID23","timestamp":"2023-11-14T22:13:20.000Z","stored":"2023-11-14T22:13:20.000Z","authority":{"objectType":"Agent","account":{"homePage":"https://lrs.invalid/callers","name":"desk"}},"version":"1.0.0"}],"more":""}
ZEROS2-6 GET /xapi/statements?statementId=ID24 => 200 {"actor":LEARNER,"verb":{"id":"VERB/launched","display":{"en":"launched"}},"object":{"objectType":"Activity","id":"BASEactivities/0/2"},"context":{"registration":"ID10","contextActivities":{"grouping":[{"objectType":"Activity","id":"http://c/u"}],"category":[{"objectType":"Activity","id":"CMI5"}]},"extensions":{"https://w3id.org/xapi/cmi5/context/extensions/sessionid":"ID22","https://w3id.org/xapi/cmi5/context/extensions/launchmode":"Normal","https://w3id.org/xapi/cmi5/context/extensions/launchurl":"https://au.example/u","https://w3id.org/xapi/cmi5/context/extensions/moveon":"CompletedAndPassed","https://w3id.org/xapi/cmi5/context/extensions/masteryscore":0.8}},"id":"ID24","timestamp":"2023-11-14T22:13:20.000Z","stored":"2023-11-14T22:13:20.000Z","authority":{"objectType":"Agent","name":"desk","account":{"homePage":"https://lrs.invalid/callers","name":"desk"}},"version":"1.0.0"}
ZEROS2-6 POST /xapi/statements {TERMINATED,FIRST} => 403 {"error":"C5"}
draw 16 0
admin POST /desk/registrations {"course":"http://c/1","actor":ACTOR} => 200 {"registration":"ID11"} kept
admin POST /desk/callers {"name":"q"} => 200 {"caller":1,"token":"00000000000000000000000000000000-15"} kept
"#;

#[test]
fn a_desk_that_is_opened_again_answers_the_same(rt: HostRuntime) -> Result<(), Fail> {
    check_reopened(rt.alloc(), BEFORE, AFTER)
}

// Sessions of three registrations: one passes and completes, one is abandoned before its fetch, one is fetched later than
// it is launched. Beside them a waiver.
const ENDED: &str = r#"
sample
draw 64 0
TOKEN POST /xapi/statements [{INITIALIZED,FIRST},{PASSED,FIRST},{COMPLETED,FIRST}] => 200 ["ID40","ID41","ID42"] kept
draw 48 0
admin POST /desk/registrations {"course":"http://c/1","actor":ACTOR} => 200 {"registration":"ID30"} kept
draw 80 3
admin POST /desk/registrations/ID30/launches {"unit":"http://c/u"} => 200 {"session":"ID50","launchMethod":"AnyWindow","url":"ADDRESSZEROS3-7WHOSEID30WHICH0%2F2"} kept
admin POST /desk/sessions/ID50/abandon {} => 204 kept
draw 96 0
admin POST /desk/registrations {"course":"http://c/1","actor":ACTOR} => 200 {"registration":"ID60"} kept
draw 112 4
admin POST /desk/registrations/ID60/launches {"unit":"http://c/u"} => 200 {"session":"ID70","launchMethod":"AnyWindow","url":"ADDRESSZEROS4-10WHOSEID60WHICH0%2F2"} kept
draw 128 0
admin POST /desk/registrations/ID30/waive {"unit":"http://c/u","reason":"Equivalent AU"} => 204 kept
clock 1700000030000
draw 0 5
nobody POST /fetch/ZEROS4-10 => 200 {"auth-token":"ZEROS5-12"} kept
"#;

const AS_ENDED: &str = r#"
admin GET /desk/registrations/ID10 => 200 {"registration":"ID10","course":"http://c/1","edition":1,"satisfied":true,"nodes":[{"id":"http://c/1","kind":"course","satisfied":true},{"id":"http://c/b","kind":"block","satisfied":true},{"id":"http://c/u","kind":"unit","satisfied":true}]}
admin GET /desk/registrations/ID30 => 200 {"registration":"ID30","course":"http://c/1","edition":1,"satisfied":true,"nodes":[{"id":"http://c/1","kind":"course","satisfied":true},{"id":"http://c/b","kind":"block","satisfied":true},{"id":"http://c/u","kind":"unit","satisfied":true}]}
admin GET /desk/registrations/ID60 => 200 {"registration":"ID60","course":"http://c/1","edition":1,"satisfied":false,"nodes":[{"id":"http://c/1","kind":"course","satisfied":false},{"id":"http://c/b","kind":"block","satisfied":false},{"id":"http://c/u","kind":"unit","satisfied":false}]}
// what is said and done isn't said and done again
admin POST /desk/registrations/ID30/waive {"unit":"http://c/u","reason":"Tested Out"} => 204
admin POST /desk/sessions/ID50/abandon {} => 204
nobody POST /fetch/ZEROS3-7 => 200 {"error-code":"2","error-text":"The session is closed."}
TOKEN POST /xapi/statements {COMPLETED,FIRST} => 403 {"error":"C16"}
// the session in which the waiver was said is no launch's, and its id is used
admin POST /desk/sessions/ID80/abandon {} => 404 {"error":"404"}
draw 128 0
admin POST /xapi/statements {"actor":{"mbox":"mailto:a@b"},"verb":{"id":"http://v/1"},"object":{"id":"http://a/1"}} => 200 ["ID84"] kept
// since its fetch nothing happened in the last session
clock 1700000089999
admin POST /desk/sweep {"idle":60} => 200 {"abandoned":["ID20"]} kept
clock 1700000090000
admin POST /desk/sweep {"idle":60} => 200 {"abandoned":["ID70"]} kept
"#;

#[test]
fn verdicts_and_ends_of_sessions_are_the_same(rt: HostRuntime) -> Result<(), Fail> {
    check_reopened(rt.alloc(), ENDED, AS_ENDED)
}

// Sessions of three registrations: one begins and completes, one isn't fetched, and one is launched later. A sweep abandons
// the first two.
const SWEPT: &str = r#"
sample
draw 64 0
TOKEN POST /xapi/statements [{INITIALIZED,FIRST},{COMPLETED,FIRST}] => 200 ["ID40","ID41"] kept
draw 48 0
admin POST /desk/registrations {"course":"http://c/1","actor":ACTOR} => 200 {"registration":"ID30"} kept
draw 80 3
admin POST /desk/registrations/ID30/launches {"unit":"http://c/u"} => 200 {"session":"ID50","launchMethod":"AnyWindow","url":"ADDRESSZEROS3-7WHOSEID30WHICH0%2F2"} kept
clock 1700000060000
draw 96 0
admin POST /desk/registrations {"course":"http://c/1","actor":ACTOR} => 200 {"registration":"ID60"} kept
draw 112 4
admin POST /desk/registrations/ID60/launches {"unit":"http://c/u"} => 200 {"session":"ID70","launchMethod":"AnyWindow","url":"ADDRESSZEROS4-9WHOSEID60WHICH0%2F2"} kept
draw 128 0
admin POST /desk/sweep {"idle":60} => 200 {"abandoned":["ID20","ID50"]} kept
"#;

const AS_SWEPT: &str = r#"
nobody POST /fetch/ZEROS3-7 => 200 {"error-code":"2","error-text":"The session is closed."}
nobody POST /fetch/KEY => 200 {"error-code":"1","error-text":"The fetch key was used."}
TOKEN POST /xapi/statements {TERMINATED,FIRST} => 403 {"error":"C5"}
TOKEN GET STATE&agent=AGENT&registration=ID10 => 200 ["LMS.LaunchData"]
admin POST /desk/sessions/ID20/abandon {} => 204
admin POST /desk/sessions/ID50/abandon {} => 204
admin GET /desk/registrations/ID10 => 200 {"registration":"ID10","course":"http://c/1","edition":1,"satisfied":false,"nodes":[{"id":"http://c/1","kind":"course","satisfied":false},{"id":"http://c/b","kind":"block","satisfied":false},{"id":"http://c/u","kind":"unit","satisfied":false}]}
admin GET /xapi/statements?verb=ADL/abandoned&format=ids => 200 {"statements":[{"actor":LEARNER,"verb":{"id":"ADL/abandoned"},"object":{"objectType":"Activity","id":"BASEactivities/0/2"},"context":{"registration":"ID10","contextActivities":{"grouping":[{"objectType":"Activity","id":"http://c/u"}],"category":[{"objectType":"Activity","id":"CMI5"}]},"extensions":{"https://w3id.org/xapi/cmi5/context/extensions/sessionid":"ID20"}},"result":{"duration":"PT0S"},"id":"ID80","timestamp":"2023-11-14T22:14:20.000Z","stored":"2023-11-14T22:14:20.000Z","authority":{"objectType":"Agent","account":{"homePage":"https://lrs.invalid/callers","name":"desk"}},"version":"1.0.0"}],"more":""}
// the last one is idle from its launch on
clock 1700000119999
admin POST /desk/sweep {"idle":60} => 200 {"abandoned":[]}
clock 1700000120000
admin POST /desk/sweep {"idle":60} => 200 {"abandoned":["ID70"]} kept
nobody POST /fetch/ZEROS4-9 => 200 {"error-code":"2","error-text":"The session is closed."}
"#;

#[test]
fn what_a_sweep_abandoned_stays_so(rt: HostRuntime) -> Result<(), Fail> {
    check_reopened(rt.alloc(), SWEPT, AS_SWEPT)
}

// Three launches over the sample session: that one was fetched, the second one wasn't, and the third one had begun.
const LAUNCHED_OVER: &str = r#"
sample
draw 48 3
admin POST /desk/registrations/ID10/launches {"unit":"http://c/u"} => 200 {"session":"ID30","launchMethod":"AnyWindow","url":"ADDRESSZEROS3-5WHOSEID10WHICH0%2F2"} kept
draw 80 4
admin POST /desk/registrations/ID10/launches {"unit":"http://c/u"} => 200 {"session":"ID50","launchMethod":"AnyWindow","url":"ADDRESSZEROS4-6WHOSEID10WHICH0%2F2"} kept
draw 0 5
nobody POST /fetch/ZEROS4-6 => 200 {"auth-token":"ZEROS5-7"} kept
draw 64 0
ZEROS5-7 POST /xapi/statements {INITIALIZED,SAYING"ID50"}}} => 200 ["ID40"] kept
clock 1700000005500
ZEROS5-7 POST /xapi/statements {"actor":LEARNER,"verb":{"id":"http://v/1"},"object":{"id":"http://a/1"},"context":{"registration":"ID10"}} => 200 ["ID41"] kept
clock 1700000009000
draw 112 6
admin POST /desk/registrations/ID10/launches {"unit":"http://c/u","mode":"Review"} => 200 {"session":"ID70","launchMethod":"AnyWindow","url":"ADDRESSZEROS6-10WHOSEID10WHICH0%2F2"} kept
"#;

const AS_LAUNCHED_OVER: &str = r#"
nobody POST /fetch/KEY => 200 {"error-code":"1","error-text":"The fetch key was used."}
nobody POST /fetch/ZEROS3-5 => 200 {"error-code":"2","error-text":"The session is closed."}
nobody POST /fetch/ZEROS4-6 => 200 {"error-code":"1","error-text":"The fetch key was used."}
admin POST /desk/sessions/ID20/abandon {} => 204
admin POST /desk/sessions/ID30/abandon {} => 204
admin POST /desk/sessions/ID50/abandon {} => 204
TOKEN POST /xapi/statements {INITIALIZED,FIRST} => 403 {"error":"C5"}
ZEROS5-7 POST /xapi/statements {TERMINATED,SAYING"ID50"}}} => 403 {"error":"C5"}
admin GET /xapi/statements?verb=ADL/abandoned&format=ids => 200 {"statements":[{"actor":LEARNER,"verb":{"id":"ADL/abandoned"},"object":{"objectType":"Activity","id":"BASEactivities/0/2"},"context":{"registration":"ID10","contextActivities":{"grouping":[{"objectType":"Activity","id":"http://c/u"}],"category":[{"objectType":"Activity","id":"CMI5"}]},"extensions":{"https://w3id.org/xapi/cmi5/context/extensions/sessionid":"ID50"}},"result":{"duration":"PT5.50S"},"id":"ID71","timestamp":"2023-11-14T22:13:29.000Z","stored":"2023-11-14T22:13:29.000Z","authority":{"objectType":"Agent","account":{"homePage":"https://lrs.invalid/callers","name":"desk"}},"version":"1.0.0"}],"more":""}
// the last one is open, in its mode and with its data
TOKEN GET STATE&agent=AGENT&registration=ID10&stateId=LMS.LaunchData => 200 application/json {"contextTemplate":{"contextActivities":{"grouping":[{"objectType":"Activity","id":"http://c/u"}]},"extensions":{"https://w3id.org/xapi/cmi5/context/extensions/sessionid":"ID70"}},"launchMode":"Review","moveOn":"CompletedAndPassed","masteryScore":0.8}
draw 0 7
nobody POST /fetch/ZEROS6-10 => 200 {"auth-token":"ZEROS7-11"} kept
draw 128 0
ZEROS7-11 POST /xapi/statements [{INITIALIZED,SAYING"ID70"}}},{COMPLETED,SAYING"ID70"}}}] => 403 {"error":"C13"}
ZEROS7-11 POST /xapi/statements {INITIALIZED,SAYING"ID70"}}} => 200 ["ID80"] kept
draw 144 0
admin POST /desk/sweep {"idle":0} => 200 {"abandoned":["ID70"]} kept
"#;

#[test]
fn what_a_launch_abandoned_stays_so(rt: HostRuntime) -> Result<(), Fail> {
    check_reopened(rt.alloc(), LAUNCHED_OVER, AS_LAUNCHED_OVER)
}
