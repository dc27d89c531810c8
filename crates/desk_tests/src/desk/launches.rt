// Launches and fetches.
use crate::rows::check_rows;
use std::alloc::Global;
use std::test::Fail;

// The sample session: the address, the launched statement, the data, and the token, which its key gives once.
const SAMPLE: &str = r##"
sample
nobody POST /fetch/KEY => 200 {"error-code":"1","error-text":"The fetch key was used."}
TOKEN POST /fetch/KEY?a=b { => 200 {"error-code":"1","error-text":"The fetch key was used."}
nobody POST /fetch/00000000000000000000000000000001-4 => 404 {"error":"404"}
nobody POST /fetch/TOKEN => 404 {"error":"404"}
nobody POST /fetch/KEY/ => no route
nobody POST /fetch/ => no route
nobody GET /fetch/KEY => POST
admin GET /xapi/statements?statementId=ID21 => 200 {"actor":LEARNER,"verb":{"id":"VERB/launched","display":{"en":"launched"}},"object":{"objectType":"Activity","id":"BASEactivities/0/2"},"context":{"registration":"ID10","contextActivities":{"grouping":[{"objectType":"Activity","id":"http://c/u"}],"category":[{"objectType":"Activity","id":"CMI5"}]},"extensions":{"https://w3id.org/xapi/cmi5/context/extensions/sessionid":"ID20","https://w3id.org/xapi/cmi5/context/extensions/launchmode":"Normal","https://w3id.org/xapi/cmi5/context/extensions/launchurl":"https://au.example/u","https://w3id.org/xapi/cmi5/context/extensions/moveon":"CompletedAndPassed","https://w3id.org/xapi/cmi5/context/extensions/masteryscore":0.8}},"id":"ID21","timestamp":"2023-11-14T22:13:20.000Z","stored":"2023-11-14T22:13:20.000Z","authority":{"objectType":"Agent","name":"desk","account":{"homePage":"https://lrs.invalid/callers","name":"desk"}},"version":"1.0.0"}
TOKEN GET STATE&agent=AGENT&registration=ID10&stateId=LMS.LaunchData => 200 application/json {"contextTemplate":{"contextActivities":{"grouping":[{"objectType":"Activity","id":"http://c/u"}]},"extensions":{"https://w3id.org/xapi/cmi5/context/extensions/sessionid":"ID20"}},"launchMode":"Normal","moveOn":"CompletedAndPassed","masteryScore":0.8}
TOKEN GET STATE&agent=AGENT&registration=ID10 => 200 ["LMS.LaunchData"]
TOKEN GET STATE&agent=AGENT => 200 []
TOKEN GET /xapi/agents/profile?profileId=cmi5LearnerPreferences&agent=AGENT => 404 {"error":"404"}
// the ids of sessions and of made statements are passed over
draw 32 0
admin POST /xapi/statements {"actor":{"mbox":"mailto:a@b"},"verb":{"id":"http://v/1"},"object":{"id":"http://a/1"}} => 200 ["ID22"] kept
admin POST /desk/registrations {"course":"http://c/1","actor":ACTOR} => 200 {"registration":"ID23"} kept
// another course, with a unit in a window of its own whose address has a query and a fragment
admin POST /desk/courses {"id":"http://c/2","title":{"en":"C"},"children":[{"kind":"unit","id":"http://c/u","title":{"en":"U"},"url":"https://AU.example/v?x=1#f","launchMethod":"OwnWindow"}]} => 200 {"course":"http://c/2","edition":1} kept
draw 96 0
admin POST /desk/registrations {"course":"http://c/2","actor":ACTOR} => 200 {"registration":"ID60"} kept
draw 112 1
admin POST /desk/registrations/ID60/launches {"unit":"http://c/u"} => 200 {"session":"ID70","launchMethod":"OwnWindow","url":"https://au.example/v?x=1&endpoint=http%3A%2F%2F127.0.0.1%3A8080%2Fxapi%2F&fetch=http%3A%2F%2F127.0.0.1%3A8080%2Ffetch%2F00000000000000000000000000000001-9&actor=%7B%22objectType%22%3A%22Agent%22%2C%22account%22%3A%7B%22homePage%22%3A%22https%3A%2F%2Fp.example%22%2C%22name%22%3A%22k1%22%7D%7D&registration=ID60&activityId=http%3A%2F%2F127.0.0.1%3A8080%2Factivities%2F1%2F1#f"} kept
"##;

#[test]
fn the_sample_session_is_launched(rt: HostRuntime) -> Result<(), Fail> {
    check_rows(rt.alloc(), SAMPLE)
}

// What a launch is asked with, and what isn't there. A launch over another makes a session of its own; its data replaces
// the other's.
const ASKED: &str = r#"
sample
admin POST /desk/registrations/ID10/launches {} => 400 {"error":"B1"}
admin POST /desk/registrations/ID10/launches {"unit":"http://c/u","name":"n"} => 400 {"error":"B1"}
admin POST /desk/registrations/ID10/launches {"unit":"no"} => 400 {"error":"B8"}
admin POST /desk/registrations/ID10/launches {"unit":"http://c/u","mode":"normal"} => 400 {"error":"B4"}
admin POST /desk/registrations/ID10/launches {"unit":"no","mode":1,"returnURL":"no"} => 400 {"error":"B4"}
admin POST /desk/registrations/ID10/launches {"unit":"no","returnURL":"no"} => 400 {"error":"B7"}
admin POST /desk/registrations/10/launches {"unit":"no"} => 400 {"error":"B8"}
admin POST /desk/registrations/10/launches {"unit":"http://c/u"} => 404 {"error":"404"}
nobody POST /desk/registrations/10/launches {"unit":"http://c/u"} => 401 {"error":"A1"}
TOKEN POST /desk/registrations/10/launches {"unit":"http://c/u"} => 403 {"error":"A2"}
admin POST /desk/registrations/ID20/launches {"unit":"http://c/u"} => 404 {"error":"404"}
admin POST /desk/registrations/ID10/launches {"unit":"http://c/b"} => 404 {"error":"404"}
admin POST /desk/registrations/ID10/launches {"unit":"http://c/1"} => 404 {"error":"404"}
admin POST /desk/registrations/ID10/launches?a=b {"unit":"http://c/u"} => 400 {"error":"P2"}
draw 16 1
admin POST /desk/registrations/ID10/launches {"unit":"http://c/u","mode":"Review","returnURL":"https://p.example/back"} => 200 {"session":"ID11","launchMethod":"AnyWindow","url":"https://au.example/u?endpoint=http%3A%2F%2F127.0.0.1%3A8080%2Fxapi%2F&fetch=http%3A%2F%2F127.0.0.1%3A8080%2Ffetch%2F00000000000000000000000000000001-5&actor=%7B%22objectType%22%3A%22Agent%22%2C%22account%22%3A%7B%22homePage%22%3A%22https%3A%2F%2Fp.example%22%2C%22name%22%3A%22k1%22%7D%7D&registration=ID10&activityId=http%3A%2F%2F127.0.0.1%3A8080%2Factivities%2F0%2F2"} kept
TOKEN GET STATE&agent=AGENT&registration=ID10&stateId=LMS.LaunchData => 200 application/json {"contextTemplate":{"contextActivities":{"grouping":[{"objectType":"Activity","id":"http://c/u"}]},"extensions":{"https://w3id.org/xapi/cmi5/context/extensions/sessionid":"ID11"}},"launchMode":"Review","moveOn":"CompletedAndPassed","masteryScore":0.8,"returnURL":"https://p.example/back"}
TOKEN GET /xapi/statements?statementId=ID12 => 200 {"actor":LEARNER,"verb":{"id":"VERB/launched","display":{"en":"launched"}},"object":{"objectType":"Activity","id":"BASEactivities/0/2"},"context":{"registration":"ID10","contextActivities":{"grouping":[{"objectType":"Activity","id":"http://c/u"}],"category":[{"objectType":"Activity","id":"CMI5"}]},"extensions":{"https://w3id.org/xapi/cmi5/context/extensions/sessionid":"ID11","https://w3id.org/xapi/cmi5/context/extensions/launchmode":"Review","https://w3id.org/xapi/cmi5/context/extensions/launchurl":"https://au.example/u","https://w3id.org/xapi/cmi5/context/extensions/moveon":"CompletedAndPassed","https://w3id.org/xapi/cmi5/context/extensions/masteryscore":0.8}},"id":"ID12","timestamp":"2023-11-14T22:13:20.000Z","stored":"2023-11-14T22:13:20.000Z","authority":{"objectType":"Agent","name":"desk","account":{"homePage":"https://lrs.invalid/callers","name":"desk"}},"version":"1.0.0"}
"#;

#[test]
fn a_unit_is_launched_as_it_is_asked(rt: HostRuntime) -> Result<(), Fail> {
    check_rows(rt.alloc(), ASKED)
}

// The ids of a launch are the next free ones.
const MADE: &str = r#"
draw 0 0
admin POST /desk/courses {"id":"http://c/1","title":{"en":"C"},"children":[{"kind":"block","id":"http://c/b","title":{"en":"B"},"children":[{"kind":"unit","id":"http://c/u","title":{"en":"U"},"url":"https://au.example/u","moveOn":"CompletedAndPassed","masteryScore":0.8}]}]} => 200 {"course":"http://c/1","edition":1} kept
draw 16 0
admin POST /desk/registrations {"course":"http://c/1","actor":ACTOR} => 200 {"registration":"ID10"} kept
admin PUT /xapi/statements?statementId=ID21 {"actor":{"mbox":"mailto:a@b"},"verb":{"id":"http://v/1"},"object":{"id":"http://a/1"}} => 204 kept
// the second one is taken
draw 32 1
admin POST /desk/registrations/ID10/launches {"unit":"http://c/u"} => 200 {"session":"ID20","launchMethod":"AnyWindow","url":"https://au.example/u?endpoint=http%3A%2F%2F127.0.0.1%3A8080%2Fxapi%2F&fetch=http%3A%2F%2F127.0.0.1%3A8080%2Ffetch%2F00000000000000000000000000000001-4&actor=%7B%22objectType%22%3A%22Agent%22%2C%22account%22%3A%7B%22homePage%22%3A%22https%3A%2F%2Fp.example%22%2C%22name%22%3A%22k1%22%7D%7D&registration=ID10&activityId=http%3A%2F%2F127.0.0.1%3A8080%2Factivities%2F0%2F2"} kept
admin GET /xapi/statements?statementId=ID21&format=ids => 200 {"actor":{"mbox":"mailto:a@b"},"verb":{"id":"http://v/1"},"object":{"id":"http://a/1"},"id":"ID21","timestamp":"2023-11-14T22:13:20.000Z","stored":"2023-11-14T22:13:20.000Z","authority":{"objectType":"Agent","account":{"homePage":"https://lrs.invalid/callers","name":"admin"}},"version":"1.0.0"}
admin GET /xapi/statements?statementId=ID22 => 200 {"actor":LEARNER,"verb":{"id":"VERB/launched","display":{"en":"launched"}},"object":{"objectType":"Activity","id":"BASEactivities/0/2"},"context":{"registration":"ID10","contextActivities":{"grouping":[{"objectType":"Activity","id":"http://c/u"}],"category":[{"objectType":"Activity","id":"CMI5"}]},"extensions":{"https://w3id.org/xapi/cmi5/context/extensions/sessionid":"ID20","https://w3id.org/xapi/cmi5/context/extensions/launchmode":"Normal","https://w3id.org/xapi/cmi5/context/extensions/launchurl":"https://au.example/u","https://w3id.org/xapi/cmi5/context/extensions/moveon":"CompletedAndPassed","https://w3id.org/xapi/cmi5/context/extensions/masteryscore":0.8}},"id":"ID22","timestamp":"2023-11-14T22:13:20.000Z","stored":"2023-11-14T22:13:20.000Z","authority":{"objectType":"Agent","name":"desk","account":{"homePage":"https://lrs.invalid/callers","name":"desk"}},"version":"1.0.0"}
// the first one is a session's
admin POST /desk/registrations/ID10/launches {"unit":"http://c/u"} => 200 {"session":"ID23","launchMethod":"AnyWindow","url":"https://au.example/u?endpoint=http%3A%2F%2F127.0.0.1%3A8080%2Fxapi%2F&fetch=http%3A%2F%2F127.0.0.1%3A8080%2Ffetch%2F00000000000000000000000000000001-5&actor=%7B%22objectType%22%3A%22Agent%22%2C%22account%22%3A%7B%22homePage%22%3A%22https%3A%2F%2Fp.example%22%2C%22name%22%3A%22k1%22%7D%7D&registration=ID10&activityId=http%3A%2F%2F127.0.0.1%3A8080%2Factivities%2F0%2F2"} kept
admin GET /xapi/statements?statementId=ID24 => 200 {"actor":LEARNER,"verb":{"id":"VERB/launched","display":{"en":"launched"}},"object":{"objectType":"Activity","id":"BASEactivities/0/2"},"context":{"registration":"ID10","contextActivities":{"grouping":[{"objectType":"Activity","id":"http://c/u"}],"category":[{"objectType":"Activity","id":"CMI5"}]},"extensions":{"https://w3id.org/xapi/cmi5/context/extensions/sessionid":"ID23","https://w3id.org/xapi/cmi5/context/extensions/launchmode":"Normal","https://w3id.org/xapi/cmi5/context/extensions/launchurl":"https://au.example/u","https://w3id.org/xapi/cmi5/context/extensions/moveon":"CompletedAndPassed","https://w3id.org/xapi/cmi5/context/extensions/masteryscore":0.8}},"id":"ID24","timestamp":"2023-11-14T22:13:20.000Z","stored":"2023-11-14T22:13:20.000Z","authority":{"objectType":"Agent","name":"desk","account":{"homePage":"https://lrs.invalid/callers","name":"desk"}},"version":"1.0.0"}
// the second one is a session's
draw 31 1
admin POST /desk/registrations/ID10/launches {"unit":"http://c/u"} => 200 {"session":"ID1f","launchMethod":"AnyWindow","url":"https://au.example/u?endpoint=http%3A%2F%2F127.0.0.1%3A8080%2Fxapi%2F&fetch=http%3A%2F%2F127.0.0.1%3A8080%2Ffetch%2F00000000000000000000000000000001-6&actor=%7B%22objectType%22%3A%22Agent%22%2C%22account%22%3A%7B%22homePage%22%3A%22https%3A%2F%2Fp.example%22%2C%22name%22%3A%22k1%22%7D%7D&registration=ID10&activityId=http%3A%2F%2F127.0.0.1%3A8080%2Factivities%2F0%2F2"} kept
admin GET /xapi/statements?statementId=ID25 => 200 {"actor":LEARNER,"verb":{"id":"VERB/launched","display":{"en":"launched"}},"object":{"objectType":"Activity","id":"BASEactivities/0/2"},"context":{"registration":"ID10","contextActivities":{"grouping":[{"objectType":"Activity","id":"http://c/u"}],"category":[{"objectType":"Activity","id":"CMI5"}]},"extensions":{"https://w3id.org/xapi/cmi5/context/extensions/sessionid":"ID1f","https://w3id.org/xapi/cmi5/context/extensions/launchmode":"Normal","https://w3id.org/xapi/cmi5/context/extensions/launchurl":"https://au.example/u","https://w3id.org/xapi/cmi5/context/extensions/moveon":"CompletedAndPassed","https://w3id.org/xapi/cmi5/context/extensions/masteryscore":0.8}},"id":"ID25","timestamp":"2023-11-14T22:13:20.000Z","stored":"2023-11-14T22:13:20.000Z","authority":{"objectType":"Agent","name":"desk","account":{"homePage":"https://lrs.invalid/callers","name":"desk"}},"version":"1.0.0"}
// both are taken, the first by the registration
admin PUT /xapi/statements?statementId=ID12 {"actor":{"mbox":"mailto:a@b"},"verb":{"id":"http://v/1"},"object":{"id":"http://a/1"}} => 204 kept
draw 16 1
admin POST /desk/registrations/ID10/launches {"unit":"http://c/u"} => 200 {"session":"ID11","launchMethod":"AnyWindow","url":"https://au.example/u?endpoint=http%3A%2F%2F127.0.0.1%3A8080%2Fxapi%2F&fetch=http%3A%2F%2F127.0.0.1%3A8080%2Ffetch%2F00000000000000000000000000000001-8&actor=%7B%22objectType%22%3A%22Agent%22%2C%22account%22%3A%7B%22homePage%22%3A%22https%3A%2F%2Fp.example%22%2C%22name%22%3A%22k1%22%7D%7D&registration=ID10&activityId=http%3A%2F%2F127.0.0.1%3A8080%2Factivities%2F0%2F2"} kept
admin GET /xapi/statements?statementId=ID13 => 200 {"actor":LEARNER,"verb":{"id":"VERB/launched","display":{"en":"launched"}},"object":{"objectType":"Activity","id":"BASEactivities/0/2"},"context":{"registration":"ID10","contextActivities":{"grouping":[{"objectType":"Activity","id":"http://c/u"}],"category":[{"objectType":"Activity","id":"CMI5"}]},"extensions":{"https://w3id.org/xapi/cmi5/context/extensions/sessionid":"ID11","https://w3id.org/xapi/cmi5/context/extensions/launchmode":"Normal","https://w3id.org/xapi/cmi5/context/extensions/launchurl":"https://au.example/u","https://w3id.org/xapi/cmi5/context/extensions/moveon":"CompletedAndPassed","https://w3id.org/xapi/cmi5/context/extensions/masteryscore":0.8}},"id":"ID13","timestamp":"2023-11-14T22:13:20.000Z","stored":"2023-11-14T22:13:20.000Z","authority":{"objectType":"Agent","name":"desk","account":{"homePage":"https://lrs.invalid/callers","name":"desk"}},"version":"1.0.0"}
admin GET /xapi/statements?statementId=ID20 => 404 {"error":"404"}
"#;

#[test]
fn the_ids_of_a_launch_are_free(rt: HostRuntime) -> Result<(), Fail> {
    check_rows(rt.alloc(), MADE)
}
