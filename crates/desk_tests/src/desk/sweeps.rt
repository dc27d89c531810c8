// Sweeps, which abandon the sessions in which nothing happened for so many seconds.
use crate::rows::check_rows;
use std::alloc::Global;
use std::test::Fail;

// At the edge of its seconds, and again.
const EDGE: &str = r#"
sample
draw 64 0
TOKEN POST /xapi/statements {INITIALIZED,FIRST} => 200 ["ID40"] kept
draw 96 0
clock 1700000059999
admin POST /desk/sweep {"idle":60} => 200 {"abandoned":[]}
clock 1700000060000
admin POST /desk/sweep {"idle":60} => 200 {"abandoned":["ID20"]} kept
admin GET /xapi/statements?statementId=ID60 => 200 {"actor":LEARNER,"verb":{"id":"ADL/abandoned","display":{"en":"abandoned"}},"object":{"objectType":"Activity","id":"BASEactivities/0/2"},"context":{"registration":"ID10","contextActivities":{"grouping":[{"objectType":"Activity","id":"http://c/u"}],"category":[{"objectType":"Activity","id":"CMI5"}]},"extensions":{"https://w3id.org/xapi/cmi5/context/extensions/sessionid":"ID20"}},"result":{"duration":"PT0S"},"id":"ID60","timestamp":"2023-11-14T22:14:20.000Z","stored":"2023-11-14T22:14:20.000Z","authority":{"objectType":"Agent","name":"desk","account":{"homePage":"https://lrs.invalid/callers","name":"desk"}},"version":"1.0.0"}
admin POST /desk/sweep {"idle":60} => 200 {"abandoned":[]}
admin POST /desk/sweep {"idle":0} => 200 {"abandoned":[]}
admin GET /xapi/statements?statementId=ID61 => 404 {"error":"404"}
TOKEN POST /xapi/statements {TERMINATED,FIRST} => 403 {"error":"C5"}
admin POST /desk/sessions/ID20/abandon {} => 204
"#;

#[test]
fn a_sweep_abandons_from_its_seconds_on(rt: HostRuntime) -> Result<(), Fail> {
    check_rows(rt.alloc(), EDGE)
}

// A session that is never fetched is idle from its launch on: not from the enrolment before it, nor from one behind it.
const LAUNCHED: &str = r#"
draw 0 0
admin POST /desk/courses {"id":"http://c/1","title":{"en":"C"},"children":[{"kind":"unit","id":"http://c/u","title":{"en":"U"},"url":"https://au.example/u","moveOn":"Passed"}]} => 200 {"course":"http://c/1","edition":1} kept
draw 16 0
admin POST /desk/registrations {"course":"http://c/1","actor":ACTOR} => 200 {"registration":"ID10"} kept
clock 1700000005000
draw 32 1
admin POST /desk/registrations/ID10/launches {"unit":"http://c/u"} => 200 {"session":"ID20","launchMethod":"AnyWindow","url":"ADDRESSKEYWHOSEID10WHICH0%2F1"} kept
admin POST /desk/sweep {"idle":1} => 200 {"abandoned":[]}
clock 1700000010000
draw 48 0
admin POST /desk/registrations {"course":"http://c/1","actor":ACTOR} => 200 {"registration":"ID30"} kept
clock 1700000064999
admin POST /desk/sweep {"idle":60} => 200 {"abandoned":[]}
clock 1700000065000
admin POST /desk/sweep {"idle":60} => 200 {"abandoned":["ID20"]} kept
admin POST /desk/sweep {"idle":0} => 200 {"abandoned":[]}
nobody POST /fetch/KEY => 200 {"error-code":"2","error-text":"The session is closed."}
admin GET /xapi/statements?verb=ADL/abandoned => 200 {"statements":[],"more":""}
"#;

#[test]
fn a_sweep_goes_by_the_launch_of_what_was_never_fetched(rt: HostRuntime) -> Result<(), Fail> {
    check_rows(rt.alloc(), LAUNCHED)
}

// What counts as an event of a session: its fetch, and its own statements, voided ones too. Nothing else does.
const EVENTS: &str = r#"
sample
draw 48 0
admin POST /desk/registrations {"course":"http://c/1","actor":ACTOR} => 200 {"registration":"ID30"} kept
draw 80 3
admin POST /desk/registrations/ID30/launches {"unit":"http://c/u"} => 200 {"session":"ID50","launchMethod":"AnyWindow","url":"ADDRESSZEROS3-6WHOSEID30WHICH0%2F2"} kept
clock 1700000010000
draw 0 4
nobody POST /fetch/ZEROS3-6 => 200 {"auth-token":"ZEROS4-7"} kept
clock 1700000020000
draw 64 0
TOKEN POST /xapi/statements {INITIALIZED,FIRST} => 200 ["ID40"] kept
// others speak of the registration, a document is written, what was said is said again, what isn't may not be said
clock 1700000025000
admin POST /xapi/statements {"actor":LEARNER,"verb":{"id":"http://v/1"},"object":{"id":"http://a/1"},"context":{"registration":"ID10"}} => 200 ["ID41"] kept
TOKEN PUT STATE&agent=AGENT&registration=ID10&stateId=b 1 => 204 kept
TOKEN PUT /xapi/statements?statementId=ID40 {INITIALIZED,FIRST} => 204
TOKEN POST /xapi/statements {INITIALIZED,FIRST} => 403 {"error":"C12"}
nobody POST /fetch/KEY => 200 {"error-code":"1","error-text":"The fetch key was used."}
admin POST /xapi/statements VOIDS"ID40"}} => 200 ["ID42"] kept
clock 1700000069999
admin POST /desk/sweep {"idle":60} => 200 {"abandoned":[]}
clock 1700000070000
admin POST /desk/sweep {"idle":60} => 200 {"abandoned":["ID50"]} kept
clock 1700000079999
admin POST /desk/sweep {"idle":60} => 200 {"abandoned":[]}
clock 1700000080000
admin POST /desk/sweep {"idle":60} => 200 {"abandoned":["ID20"]} kept
"#;

#[test]
fn a_sweep_goes_by_the_last_event(rt: HostRuntime) -> Result<(), Fail> {
    check_rows(rt.alloc(), EVENTS)
}

// Many at once, in the order of their launches, whatever happened last: the first one ended, the second one spoke last,
// the third one wasn't fetched, and the fourth one began before the second.
const MANY: &str = r#"
sample
draw 48 0
admin POST /desk/registrations {"course":"http://c/1","actor":ACTOR} => 200 {"registration":"ID30"} kept
draw 80 3
admin POST /desk/registrations/ID30/launches {"unit":"http://c/u"} => 200 {"session":"ID50","launchMethod":"AnyWindow","url":"ADDRESSZEROS3-6WHOSEID30WHICH0%2F2"} kept
draw 49 0
admin POST /desk/registrations {"course":"http://c/1","actor":ACTOR} => 200 {"registration":"ID31"} kept
draw 96 4
admin POST /desk/registrations/ID31/launches {"unit":"http://c/u"} => 200 {"session":"ID60","launchMethod":"AnyWindow","url":"ADDRESSZEROS4-8WHOSEID31WHICH0%2F2"} kept
draw 50 0
admin POST /desk/registrations {"course":"http://c/1","actor":ACTOR} => 200 {"registration":"ID32"} kept
draw 112 5
admin POST /desk/registrations/ID32/launches {"unit":"http://c/u"} => 200 {"session":"ID70","launchMethod":"AnyWindow","url":"ADDRESSZEROS5-10WHOSEID32WHICH0%2F2"} kept
draw 0 6
nobody POST /fetch/ZEROS5-10 => 200 {"auth-token":"ZEROS6-11"} kept
draw 0 7
nobody POST /fetch/ZEROS3-6 => 200 {"auth-token":"ZEROS7-12"} kept
draw 128 0
ZEROS6-11 POST /xapi/statements {INITIALIZED,ABOUT2UNDER"ID32"GIVENuWITHIN"ID70"}}} => 200 ["ID80"] kept
TOKEN POST /xapi/statements [{INITIALIZED,FIRST},{TERMINATED,FIRST}] => 200 ["ID81","ID82"] kept
clock 1700000001000
ZEROS7-12 POST /xapi/statements {INITIALIZED,ABOUT2UNDER"ID30"GIVENuWITHIN"ID50"}}} => 200 ["ID83"] kept
clock 1700000002000
draw 144 0
admin POST /desk/sweep {"idle":1} => 200 {"abandoned":["ID50","ID60","ID70"]} kept
admin GET /xapi/statements?verb=ADL/abandoned&format=ids&ascending=true => 200 {"statements":[{"actor":LEARNER,"verb":{"id":"ADL/abandoned"},"object":{"objectType":"Activity","id":"BASEactivities/0/2"},"context":{"registration":"ID30","contextActivities":{"grouping":[{"objectType":"Activity","id":"http://c/u"}],"category":[{"objectType":"Activity","id":"CMI5"}]},"extensions":{"https://w3id.org/xapi/cmi5/context/extensions/sessionid":"ID50"}},"result":{"duration":"PT0S"},"id":"ID90","timestamp":"2023-11-14T22:13:22.000Z","stored":"2023-11-14T22:13:22.000Z","authority":{"objectType":"Agent","account":{"homePage":"https://lrs.invalid/callers","name":"desk"}},"version":"1.0.0"},{"actor":LEARNER,"verb":{"id":"ADL/abandoned"},"object":{"objectType":"Activity","id":"BASEactivities/0/2"},"context":{"registration":"ID32","contextActivities":{"grouping":[{"objectType":"Activity","id":"http://c/u"}],"category":[{"objectType":"Activity","id":"CMI5"}]},"extensions":{"https://w3id.org/xapi/cmi5/context/extensions/sessionid":"ID70"}},"result":{"duration":"PT0S"},"id":"ID91","timestamp":"2023-11-14T22:13:22.000Z","stored":"2023-11-14T22:13:22.000Z","authority":{"objectType":"Agent","account":{"homePage":"https://lrs.invalid/callers","name":"desk"}},"version":"1.0.0"}],"more":""}
admin POST /desk/sweep {"idle":1} => 200 {"abandoned":[]}
ZEROS7-12 POST /xapi/statements {TERMINATED,ABOUT2UNDER"ID30"GIVENuWITHIN"ID50"}}} => 403 {"error":"C5"}
nobody POST /fetch/ZEROS4-8 => 200 {"error-code":"2","error-text":"The session is closed."}
TOKEN POST /xapi/statements {COMPLETED,FIRST} => 403 {"error":"C6"}
"#;

#[test]
fn a_sweep_abandons_many_in_their_order(rt: HostRuntime) -> Result<(), Fail> {
    check_rows(rt.alloc(), MANY)
}

// Which seconds there are, over no session and over one, and who may.
const SECONDS: &str = r#"
admin POST /desk/sweep {"idle":0} => 200 {"abandoned":[]}
admin POST /desk/sweep {"idle":31536000} => 200 {"abandoned":[]}
admin POST /desk/sweep {"idle":31536001} => 400 {"error":"B6"}
admin POST /desk/sweep {"idle":99999999999999999999} => 400 {"error":"B6"}
admin POST /desk/sweep {"idle":-0} => 400 {"error":"B6"}
admin POST /desk/sweep {"idle":-1} => 400 {"error":"B6"}
admin POST /desk/sweep {"idle":1.0} => 400 {"error":"B6"}
admin POST /desk/sweep {"idle":1e1} => 400 {"error":"B6"}
admin POST /desk/sweep {"idle":"60"} => 400 {"error":"B6"}
admin POST /desk/sweep {"idle":null} => 400 {"error":"B6"}
admin POST /desk/sweep {} => 400 {"error":"B1"}
admin POST /desk/sweep {"idle":60,"a":1} => 400 {"error":"B1"}
admin POST /desk/sweep [60] => 400 {"error":"B1"}
admin POST /desk/sweep {"idle":060} => 400 {"error":"J2"}
admin POST /desk/sweep?idle=60 {"idle":60} => 400 {"error":"P2"}
admin GET /desk/sweep => POST
nobody POST /desk/sweep {"idle":0} => 401 {"error":"A1"}
sample
TOKEN POST /desk/sweep {"idle":0} => 403 {"error":"A2"}
admin POST /desk/callers {"name":"p"} => 200 {"caller":0,"token":"ZEROS2-5"} kept
ZEROS2-5 POST /desk/sweep {"idle":-1} => 403 {"error":"A2"}
clock 1731535999999
admin POST /desk/sweep {"idle":31536000} => 200 {"abandoned":[]}
clock 1731536000000
admin POST /desk/sweep {"idle":31536000} => 200 {"abandoned":["ID20"]} kept
"#;

#[test]
fn a_sweep_is_asked_with_seconds(rt: HostRuntime) -> Result<(), Fail> {
    check_rows(rt.alloc(), SECONDS)
}

// At once, where no second is asked for.
const AT_ONCE: &str = r#"
sample
admin POST /desk/sweep {"idle":1} => 200 {"abandoned":[]}
admin POST /desk/sweep {"idle":0} => 200 {"abandoned":["ID20"]} kept
admin GET /xapi/statements?verb=ADL/abandoned => 200 {"statements":[],"more":""}
"#;

#[test]
fn a_sweep_of_no_seconds_abandons_all(rt: HostRuntime) -> Result<(), Fail> {
    check_rows(rt.alloc(), AT_ONCE)
}

// What a session said counts on behind its end. The first one completes the unit, and is swept. The next one may not say
// that again, passes the unit, and is abandoned.
const RESULTS: &str = r#"
sample
draw 64 0
TOKEN POST /xapi/statements [{INITIALIZED,FIRST},{COMPLETED,FIRST}] => 200 ["ID40","ID41"] kept
admin GET /desk/registrations/ID10 => 200 {"registration":"ID10","course":"http://c/1","edition":1,"satisfied":false,"nodes":[{"id":"http://c/1","kind":"course","satisfied":false},{"id":"http://c/b","kind":"block","satisfied":false},{"id":"http://c/u","kind":"unit","satisfied":false}]}
draw 96 0
admin POST /desk/sweep {"idle":0} => 200 {"abandoned":["ID20"]} kept
admin GET /desk/registrations/ID10 => 200 {"registration":"ID10","course":"http://c/1","edition":1,"satisfied":false,"nodes":[{"id":"http://c/1","kind":"course","satisfied":false},{"id":"http://c/b","kind":"block","satisfied":false},{"id":"http://c/u","kind":"unit","satisfied":false}]}
draw 48 3
admin POST /desk/registrations/ID10/launches {"unit":"http://c/u"} => 200 {"session":"ID30","launchMethod":"AnyWindow","url":"ADDRESSZEROS3-7WHOSEID10WHICH0%2F2"} kept
draw 0 4
nobody POST /fetch/ZEROS3-7 => 200 {"auth-token":"ZEROS4-8"} kept
draw 112 0
ZEROS4-8 POST /xapi/statements [{INITIALIZED,SECOND},{COMPLETED,SECOND}] => 403 {"error":"C16"}
ZEROS4-8 POST /xapi/statements [{INITIALIZED,SECOND},{PASSED,SECOND}] => 200 ["ID70","ID71"] kept
admin GET /desk/registrations/ID10 => 200 {"registration":"ID10","course":"http://c/1","edition":1,"satisfied":true,"nodes":[{"id":"http://c/1","kind":"course","satisfied":true},{"id":"http://c/b","kind":"block","satisfied":true},{"id":"http://c/u","kind":"unit","satisfied":true}]}
// behind two satisfied statements
admin POST /desk/sessions/ID30/abandon {} => 204 kept
admin GET /xapi/statements?statementId=ID74&format=ids => 200 {"actor":LEARNER,"verb":{"id":"ADL/abandoned"},"object":{"objectType":"Activity","id":"BASEactivities/0/2"},"context":{"registration":"ID10","contextActivities":{"grouping":[{"objectType":"Activity","id":"http://c/u"}],"category":[{"objectType":"Activity","id":"CMI5"}]},"extensions":{"https://w3id.org/xapi/cmi5/context/extensions/sessionid":"ID30"}},"result":{"duration":"PT0S"},"id":"ID74","timestamp":"2023-11-14T22:13:20.000Z","stored":"2023-11-14T22:13:20.000Z","authority":{"objectType":"Agent","account":{"homePage":"https://lrs.invalid/callers","name":"desk"}},"version":"1.0.0"}
admin GET /xapi/statements?statementId=ID75 => 404 {"error":"404"}
admin GET /desk/registrations/ID10 => 200 {"registration":"ID10","course":"http://c/1","edition":1,"satisfied":true,"nodes":[{"id":"http://c/1","kind":"course","satisfied":true},{"id":"http://c/b","kind":"block","satisfied":true},{"id":"http://c/u","kind":"unit","satisfied":true}]}
"#;

#[test]
fn results_count_behind_the_end_of_their_session(rt: HostRuntime) -> Result<(), Fail> {
    check_rows(rt.alloc(), RESULTS)
}
