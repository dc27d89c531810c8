// What sessions may say of their learners, and when.
use crate::rows::check_rows;
use std::alloc::Global;
use std::test::Fail;

// A session that is begun, passes and ends. Behind its end nothing new is kept.
const OVER: &str = r#"
sample
TOKEN PUT /xapi/statements?statementId=ID40 {"verb":{"id":"VERB/initialized"},FIRST} => 204 kept
TOKEN PUT /xapi/statements?statementId=ID41 {"verb":{"id":"VERB/passed"},"result":{"success":true,"score":{"scaled":0.80}},FIRST} => 204 kept
TOKEN POST /xapi/statements {"id":"ID42","verb":{"id":"VERB/terminated"},"result":{"duration":"PT1S"},FIRST} => 200 ["ID42"] kept
TOKEN POST /xapi/statements {"id":"ID42","verb":{"id":"VERB/terminated"},"result":{"duration":"PT1S"},FIRST} => 200 ["ID42"]
TOKEN POST /xapi/statements {"verb":{"id":"VERB/completed"},"result":{"completion":true},FIRST} => 403 {"error":"C6"}
// nor is anything else; what is held may be said again, or conflicts
TOKEN POST /xapi/statements {"verb":{"id":"VERB/initialized"},FIRST} => 403 {"error":"C6"}
TOKEN POST /xapi/statements {"actor":LEARNER,"verb":{"id":"http://v/1"},"object":{"id":"http://a/1"},"context":{"registration":"ID10"}} => 403 {"error":"C6"}
TOKEN PUT /xapi/statements?statementId=ID40 {"verb":{"id":"VERB/initialized"},FIRST} => 204
TOKEN PUT /xapi/statements?statementId=ID41 {"verb":{"id":"VERB/passed"},"result":{"success":true,"score":{"scaled":8e-1}},FIRST} => 204
TOKEN PUT /xapi/statements?statementId=ID41 {"verb":{"id":"VERB/passed"},"result":{"success":true,"score":{"scaled":0.81}},FIRST} => 409 {"error":"409","id":"ID41"}
TOKEN POST /xapi/statements [{"id":"ID40","verb":{"id":"VERB/initialized"},FIRST},{"id":"ID42","verb":{"id":"VERB/terminated"},"result":{"duration":"PT1S"},FIRST}] => 200 ["ID40","ID42"]
TOKEN POST /xapi/statements [{"id":"ID40","verb":{"id":"VERB/initialized"},FIRST},{"verb":{"id":"VERB/completed"},"result":{"completion":true},FIRST}] => 403 {"error":"C6"}
"#;

#[test]
fn nothing_new_is_said_behind_the_end(rt: HostRuntime) -> Result<(), Fail> {
    check_rows(rt.alloc(), OVER)
}

// What is refused before a session is begun, and while it lasts.
const RULES: &str = r#"
sample
draw 64 0
// nothing before initialized, and a session voids nothing
TOKEN POST /xapi/statements [{"verb":{"id":"VERB/completed"},"result":{"completion":true},FIRST},{"verb":{"id":"VERB/initialized"},FIRST}] => 403 {"error":"C7"}
TOKEN POST /xapi/statements {"actor":LEARNER,"verb":{"id":"http://v/1"},"object":{"id":"http://a/1"},"context":{"registration":"ID10"}} => 403 {"error":"C7"}
TOKEN POST /xapi/statements {"verb":{"id":"VERB/terminated"},"result":{"duration":"PT1S"},FIRST} => 403 {"error":"C7"}
TOKEN PUT /xapi/statements?statementId=ID21 {"verb":{"id":"VERB/initialized"},FIRST} => 409 {"error":"409","id":"ID21"}
TOKEN POST /xapi/statements {"actor":{"mbox":"mailto:a@b"},"verb":{"id":"VERB/voided"},"object":{"objectType":"StatementRef","id":"ID21"}} => 403 {"error":"C2"}
admin GET /xapi/statements?verb=VERB/initialized => 200 {"statements":[],"more":""}
admin GET /xapi/statements?verb=VERB/completed => 200 {"statements":[],"more":""}
TOKEN POST /xapi/statements {"verb":{"id":"VERB/initialized"},FIRST} => 200 ["ID40"] kept
TOKEN POST /xapi/statements {"verb":{"id":"VERB/initialized"},FIRST} => 403 {"error":"C12"}
TOKEN PUT /xapi/statements?statementId=ID50 {"verb":{"id":"VERB/initialized"},FIRST} => 403 {"error":"C12"}
// the others, each told by its number
TOKEN POST /xapi/statements {"actor":{"mbox":"mailto:a@b"},"verb":{"id":"http://v/1"},"object":{"id":"http://a/1"},"context":{"registration":"ID10"}} => 403 {"error":"C3"}
TOKEN POST /xapi/statements {"actor":LEARNER,"verb":{"id":"http://v/1"},"object":{"id":"http://a/1"},"context":{"registration":"ID11"}} => 403 {"error":"C4"}
TOKEN POST /xapi/statements {"verb":{"id":"VERB/launched"},FIRST} => 403 {"error":"C8"}
TOKEN POST /xapi/statements {"verb":{"id":"VERB/completed"},"result":{"completion":true},"actor":LEARNER,"object":{"id":"http://c/u"},"context":{"registration":"ID10","contextActivities":{"category":[{"id":"CMI5"}]}}} => 403 {"error":"C9"}
TOKEN POST /xapi/statements {"verb":{"id":"VERB/completed"},"result":{"completion":true},SECOND} => 403 {"error":"C10"}
TOKEN POST /xapi/statements {"verb":{"id":"VERB/completed"},"result":{"completion":true},"actor":LEARNER,"object":{"id":"BASEactivities/0/2"},"context":{"registration":"ID10","contextActivities":{"category":[{"id":"CMI5"}]},"extensions":{"https://w3id.org/xapi/cmi5/context/extensions/sessionid":"ID20"}}} => 403 {"error":"C11"}
TOKEN POST /xapi/statements {"verb":{"id":"VERB/completed"},"result":{"completion":true},"actor":LEARNER,"object":{"id":"BASEactivities/0/2"},"context":{"registration":"ID10","contextActivities":{"grouping":[{"id":"http://c/u"}],"category":[{"id":"CMI5"}]},"extensions":{"https://w3id.org/xapi/cmi5/context/extensions/sessionid":"ID20"}}} => 403 {"error":"C14"}
TOKEN POST /xapi/statements {"verb":{"id":"VERB/completed"},FIRST} => 403 {"error":"C15"}
TOKEN POST /xapi/statements {"verb":{"id":"VERB/failed"},"result":{"success":false,"score":{"scaled":0.8}},FIRST} => 403 {"error":"C18"}
TOKEN POST /xapi/statements {"verb":{"id":"VERB/passed"},"result":{"success":true,"score":{"scaled":0.79}},FIRST} => 403 {"error":"C18"}
TOKEN POST /xapi/statements {"verb":{"id":"VERB/terminated"},"result":{"duration":"PT1S"},"actor":LEARNER,"object":{"id":"BASEactivities/0/2"},"context":{"registration":"ID10","contextActivities":{"grouping":[{"id":"http://c/u"}],"category":[{"id":"CMI5"}]},"extensions":{"https://w3id.org/xapi/cmi5/context/extensions/sessionid":"ID20","https://w3id.org/xapi/cmi5/context/extensions/masteryscore":0.9}}} => 403 {"error":"C19"}
TOKEN POST /xapi/statements {"verb":{"id":"VERB/terminated"},FIRST} => 403 {"error":"C20"}
// and what breaks none
TOKEN POST /xapi/statements {"actor":LEARNER,"verb":{"id":"http://v/1"},"object":{"id":"http://a/1"},"context":{"registration":"ID10"}} => 200 ["ID41"] kept
TOKEN POST /xapi/statements {"verb":{"id":"VERB/completed"},"result":{"completion":true},FIRST} => 200 ["ID42"] kept
TOKEN POST /xapi/statements {"verb":{"id":"VERB/completed"},"result":{"completion":true},FIRST} => 403 {"error":"C16"}
TOKEN POST /xapi/statements {"verb":{"id":"VERB/failed"},"result":{"success":false,"score":{"scaled":0.1}},FIRST} => 200 ["ID43"] kept
TOKEN POST /xapi/statements {"verb":{"id":"VERB/passed"},"result":{"success":true,"score":{"scaled":0.8}},FIRST} => 200 ["ID44"] kept
TOKEN POST /xapi/statements {"verb":{"id":"VERB/passed"},"result":{"success":true,"score":{"scaled":0.9}},FIRST} => 403 {"error":"C17"}
// the store said of the block and of the course that they are satisfied
TOKEN POST /xapi/statements {"verb":{"id":"VERB/terminated"},"result":{"duration":"PT1S"},FIRST} => 200 ["ID47"] kept
"#;

#[test]
fn a_session_says_what_it_may(rt: HostRuntime) -> Result<(), Fail> {
    check_rows(rt.alloc(), RULES)
}

// Statements together come one behind the other. If one of them breaks a rule, none is kept.
const BATCHES: &str = r#"
sample
draw 64 0
TOKEN POST /xapi/statements [{"verb":{"id":"VERB/initialized"},FIRST},{"verb":{"id":"VERB/initialized"},FIRST}] => 403 {"error":"C12"}
TOKEN POST /xapi/statements [{"verb":{"id":"VERB/initialized"},FIRST},{"verb":{"id":"VERB/passed"},"result":{"success":true,"score":{"scaled":0.79}},FIRST}] => 403 {"error":"C18"}
TOKEN POST /xapi/statements [{"verb":{"id":"VERB/initialized"},FIRST},{"verb":{"id":"VERB/completed"},"result":{"completion":true},FIRST},{"verb":{"id":"VERB/completed"},"result":{"completion":true},FIRST}] => 403 {"error":"C16"}
TOKEN POST /xapi/statements [{"verb":{"id":"VERB/initialized"},FIRST},{"verb":{"id":"VERB/passed"},"result":{"success":true,"score":{"scaled":0.9}},FIRST},{"verb":{"id":"VERB/passed"},"result":{"success":true,"score":{"scaled":0.9}},FIRST}] => 403 {"error":"C17"}
TOKEN POST /xapi/statements [{"verb":{"id":"VERB/initialized"},FIRST},{"verb":{"id":"VERB/completed"},"result":{"completion":true},FIRST},{"verb":{"id":"VERB/terminated"},"result":{"duration":"PT1S"},FIRST},{"verb":{"id":"VERB/passed"},"result":{"success":true,"score":{"scaled":0.9}},FIRST}] => 403 {"error":"C6"}
TOKEN POST /xapi/statements [{"verb":{"id":"VERB/initialized"},FIRST},{"verb":{"id":"VERB/terminated"},"result":{"duration":"PT1S"},FIRST},{"verb":{"id":"VERB/initialized"},FIRST}] => 403 {"error":"C6"}
TOKEN POST /xapi/statements [{"verb":{"id":"VERB/initialized"},FIRST},{"actor":LEARNER,"verb":{"id":"http://v/1"},"object":{"id":"http://a/1"},"context":{"registration":"ID10"}},{"actor":{"mbox":"mailto:a@b"},"verb":{"id":"VERB/voided"},"object":{"objectType":"StatementRef","id":"ID21"}}] => 403 {"error":"C2"}
TOKEN POST /xapi/statements [{"actor":LEARNER,"verb":{"id":"http://v/1"},"object":{"id":"http://a/1"},"context":{"registration":"ID10"}},{"verb":{"id":"VERB/initialized"},FIRST}] => 403 {"error":"C7"}
admin GET /xapi/statements?verb=VERB/initialized => 200 {"statements":[],"more":""}
// a whole session, and one in two batches
TOKEN POST /xapi/statements [{"id":"ID50","verb":{"id":"VERB/initialized"},FIRST},{"actor":LEARNER,"verb":{"id":"http://v/1"},"object":{"id":"http://a/1"},"context":{"registration":"ID10"}},{"verb":{"id":"VERB/completed"},"result":{"completion":true},FIRST},{"verb":{"id":"VERB/failed"},"result":{"success":false,"score":{"scaled":0.1}},FIRST},{"verb":{"id":"VERB/passed"},"result":{"success":true,"score":{"scaled":0.9}},FIRST},{"verb":{"id":"VERB/terminated"},"result":{"duration":"PT1S"},FIRST}] => 200 ["ID50","ID40","ID41","ID42","ID43","ID44"] kept
TOKEN POST /xapi/statements {"actor":LEARNER,"verb":{"id":"http://v/1"},"object":{"id":"http://a/1"},"context":{"registration":"ID10"}} => 403 {"error":"C6"}
draw 48 8
admin POST /desk/registrations/ID10/launches {"unit":"http://c/u"} => 200 {"session":"ID30","launchMethod":"AnyWindow","url":"https://au.example/u?endpoint=http%3A%2F%2F127.0.0.1%3A8080%2Fxapi%2F&fetch=http%3A%2F%2F127.0.0.1%3A8080%2Ffetch%2F00000000000000000000000000000008-6&actor=%7B%22objectType%22%3A%22Agent%22%2C%22account%22%3A%7B%22homePage%22%3A%22https%3A%2F%2Fp.example%22%2C%22name%22%3A%22k1%22%7D%7D&registration=ID10&activityId=http%3A%2F%2F127.0.0.1%3A8080%2Factivities%2F0%2F2"} kept
draw 0 9
nobody POST /fetch/00000000000000000000000000000008-6 => 200 {"auth-token":"00000000000000000000000000000009-7"} kept
draw 96 0
00000000000000000000000000000009-7 POST /xapi/statements [{"verb":{"id":"VERB/initialized"},SECOND},{"actor":LEARNER,"verb":{"id":"http://v/1"},"object":{"id":"http://a/1"},"context":{"registration":"ID10"}}] => 200 ["ID60","ID61"] kept
00000000000000000000000000000009-7 POST /xapi/statements [{"verb":{"id":"VERB/failed"},"result":{"success":false,"score":{"scaled":0.1}},SECOND},{"verb":{"id":"VERB/initialized"},SECOND}] => 403 {"error":"C12"}
00000000000000000000000000000009-7 POST /xapi/statements [{"verb":{"id":"VERB/failed"},"result":{"success":false,"score":{"scaled":0.1}},SECOND},{"verb":{"id":"VERB/terminated"},"result":{"duration":"PT1S"},SECOND}] => 200 ["ID62","ID63"] kept
"#;

#[test]
fn a_batch_goes_through_a_session(rt: HostRuntime) -> Result<(), Fail> {
    check_rows(rt.alloc(), BATCHES)
}

// A voided passed may be said again. A voided initialized and a voided terminated count as before.
const VOIDED: &str = r#"
sample
draw 64 0
TOKEN POST /xapi/statements [{"verb":{"id":"VERB/initialized"},FIRST},{"verb":{"id":"VERB/passed"},"result":{"success":true,"score":{"scaled":0.9}},FIRST}] => 200 ["ID40","ID41"] kept
TOKEN POST /xapi/statements {"verb":{"id":"VERB/passed"},"result":{"success":true,"score":{"scaled":0.9}},FIRST} => 403 {"error":"C17"}
admin POST /xapi/statements {"actor":{"mbox":"mailto:a@b"},"verb":{"id":"VERB/voided"},"object":{"objectType":"StatementRef","id":"ID41"}} => 200 ["ID42"] kept
TOKEN POST /xapi/statements {"verb":{"id":"VERB/passed"},"result":{"success":true,"score":{"scaled":0.9}},FIRST} => 200 ["ID43"] kept
TOKEN POST /xapi/statements {"verb":{"id":"VERB/passed"},"result":{"success":true,"score":{"scaled":0.9}},FIRST} => 403 {"error":"C17"}
// one that is voided before it comes, alone and in a batch
admin POST /xapi/statements [{"actor":{"mbox":"mailto:a@b"},"verb":{"id":"VERB/voided"},"object":{"objectType":"StatementRef","id":"ID43"}},{"actor":{"mbox":"mailto:a@b"},"verb":{"id":"VERB/voided"},"object":{"objectType":"StatementRef","id":"ID60"}},{"actor":{"mbox":"mailto:a@b"},"verb":{"id":"VERB/voided"},"object":{"objectType":"StatementRef","id":"ID61"}}] => 200 ["ID44","ID45","ID46"] kept
TOKEN PUT /xapi/statements?statementId=ID60 {"verb":{"id":"VERB/passed"},"result":{"success":true,"score":{"scaled":0.9}},FIRST} => 204 kept
TOKEN POST /xapi/statements [{"id":"ID61","verb":{"id":"VERB/passed"},"result":{"success":true,"score":{"scaled":0.9}},FIRST},{"verb":{"id":"VERB/passed"},"result":{"success":true,"score":{"scaled":0.9}},FIRST}] => 200 ["ID61","ID47"] kept
TOKEN POST /xapi/statements {"verb":{"id":"VERB/passed"},"result":{"success":true,"score":{"scaled":0.9}},FIRST} => 403 {"error":"C17"}
// what begins and what ends a session stays said
admin POST /xapi/statements {"actor":{"mbox":"mailto:a@b"},"verb":{"id":"VERB/voided"},"object":{"objectType":"StatementRef","id":"ID40"}} => 200 ["ID48"] kept
TOKEN POST /xapi/statements {"verb":{"id":"VERB/initialized"},FIRST} => 403 {"error":"C12"}
TOKEN POST /xapi/statements [{"verb":{"id":"VERB/completed"},"result":{"completion":true},FIRST},{"verb":{"id":"VERB/terminated"},"result":{"duration":"PT1S"},FIRST}] => 200 ["ID49","ID4a"] kept
// the store said of the block and of the course that they are satisfied
admin POST /xapi/statements [{"actor":{"mbox":"mailto:a@b"},"verb":{"id":"VERB/voided"},"object":{"objectType":"StatementRef","id":"ID49"}},{"actor":{"mbox":"mailto:a@b"},"verb":{"id":"VERB/voided"},"object":{"objectType":"StatementRef","id":"ID4a"}}] => 200 ["ID4d","ID4e"] kept
TOKEN POST /xapi/statements {"verb":{"id":"VERB/completed"},"result":{"completion":true},FIRST} => 403 {"error":"C6"}
"#;

#[test]
fn what_is_voided_counts_in_the_order_alone(rt: HostRuntime) -> Result<(), Fail> {
    check_rows(rt.alloc(), VOIDED)
}

// Two sessions of one unit in one registration, and one of it in another.
const TWO: &str = r#"
sample
draw 64 0
TOKEN POST /xapi/statements [{"verb":{"id":"VERB/initialized"},FIRST},{"verb":{"id":"VERB/completed"},"result":{"completion":true},FIRST},{"verb":{"id":"VERB/passed"},"result":{"success":true,"score":{"scaled":0.9}},FIRST},{"verb":{"id":"VERB/terminated"},"result":{"duration":"PT1S"},FIRST}] => 200 ["ID40","ID41","ID42","ID43"] kept
draw 48 8
admin POST /desk/registrations/ID10/launches {"unit":"http://c/u"} => 200 {"session":"ID30","launchMethod":"AnyWindow","url":"https://au.example/u?endpoint=http%3A%2F%2F127.0.0.1%3A8080%2Fxapi%2F&fetch=http%3A%2F%2F127.0.0.1%3A8080%2Ffetch%2F00000000000000000000000000000008-6&actor=%7B%22objectType%22%3A%22Agent%22%2C%22account%22%3A%7B%22homePage%22%3A%22https%3A%2F%2Fp.example%22%2C%22name%22%3A%22k1%22%7D%7D&registration=ID10&activityId=http%3A%2F%2F127.0.0.1%3A8080%2Factivities%2F0%2F2"} kept
draw 0 9
nobody POST /fetch/00000000000000000000000000000008-6 => 200 {"auth-token":"00000000000000000000000000000009-7"} kept
// what the first one said is held, and stays its own
draw 80 0
00000000000000000000000000000009-7 PUT /xapi/statements?statementId=ID40 {"verb":{"id":"VERB/initialized"},FIRST} => 204
00000000000000000000000000000009-7 POST /xapi/statements {"verb":{"id":"VERB/completed"},"result":{"completion":true},SECOND} => 403 {"error":"C7"}
00000000000000000000000000000009-7 POST /xapi/statements [{"id":"ID40","verb":{"id":"VERB/initialized"},FIRST},{"verb":{"id":"VERB/completed"},"result":{"completion":true},SECOND}] => 403 {"error":"C7"}
00000000000000000000000000000009-7 POST /xapi/statements {"verb":{"id":"VERB/initialized"},FIRST} => 403 {"error":"C10"}
00000000000000000000000000000009-7 POST /xapi/statements {"verb":{"id":"VERB/initialized"},SECOND} => 200 ["ID50"] kept
// the unit was completed and passed in the registration
00000000000000000000000000000009-7 POST /xapi/statements {"verb":{"id":"VERB/completed"},"result":{"completion":true},SECOND} => 403 {"error":"C16"}
00000000000000000000000000000009-7 POST /xapi/statements {"verb":{"id":"VERB/passed"},"result":{"success":true,"score":{"scaled":0.9}},SECOND} => 403 {"error":"C17"}
00000000000000000000000000000009-7 POST /xapi/statements {"verb":{"id":"VERB/failed"},"result":{"success":false,"score":{"scaled":0.1}},SECOND} => 200 ["ID51"] kept
admin POST /xapi/statements {"actor":{"mbox":"mailto:a@b"},"verb":{"id":"VERB/voided"},"object":{"objectType":"StatementRef","id":"ID41"}} => 200 ["ID52"] kept
00000000000000000000000000000009-7 POST /xapi/statements {"verb":{"id":"VERB/completed"},"result":{"completion":true},SECOND} => 200 ["ID53"] kept
00000000000000000000000000000009-7 POST /xapi/statements {"verb":{"id":"VERB/passed"},"result":{"success":true,"score":{"scaled":0.9}},SECOND} => 403 {"error":"C17"}
TOKEN POST /xapi/statements {"verb":{"id":"VERB/completed"},"result":{"completion":true},FIRST} => 403 {"error":"C6"}
// not in another one
draw 112 0
admin POST /desk/registrations {"course":"http://c/1","actor":ACTOR} => 200 {"registration":"ID70"} kept
draw 128 10
admin POST /desk/registrations/ID70/launches {"unit":"http://c/u"} => 200 {"session":"ID80","launchMethod":"AnyWindow","url":"https://au.example/u?endpoint=http%3A%2F%2F127.0.0.1%3A8080%2Fxapi%2F&fetch=http%3A%2F%2F127.0.0.1%3A8080%2Ffetch%2F0000000000000000000000000000000a-13&actor=%7B%22objectType%22%3A%22Agent%22%2C%22account%22%3A%7B%22homePage%22%3A%22https%3A%2F%2Fp.example%22%2C%22name%22%3A%22k1%22%7D%7D&registration=ID70&activityId=http%3A%2F%2F127.0.0.1%3A8080%2Factivities%2F0%2F2"} kept
draw 0 11
nobody POST /fetch/0000000000000000000000000000000a-13 => 200 {"auth-token":"0000000000000000000000000000000b-14"} kept
draw 144 0
0000000000000000000000000000000b-14 POST /xapi/statements [{"verb":{"id":"VERB/initialized"},"actor":LEARNER,"object":{"id":"BASEactivities/0/2"},"context":{"registration":"ID70","contextActivities":{"grouping":[{"id":"http://c/u"}],"category":[{"id":"CMI5"},{"id":"https://w3id.org/xapi/cmi5/context/categories/moveon"}]},"extensions":{"https://w3id.org/xapi/cmi5/context/extensions/sessionid":"ID80"}}},{"verb":{"id":"VERB/completed"},"result":{"completion":true},"actor":LEARNER,"object":{"id":"BASEactivities/0/2"},"context":{"registration":"ID70","contextActivities":{"grouping":[{"id":"http://c/u"}],"category":[{"id":"CMI5"},{"id":"https://w3id.org/xapi/cmi5/context/categories/moveon"}]},"extensions":{"https://w3id.org/xapi/cmi5/context/extensions/sessionid":"ID80"}}},{"verb":{"id":"VERB/passed"},"result":{"success":true,"score":{"scaled":0.9}},"actor":LEARNER,"object":{"id":"BASEactivities/0/2"},"context":{"registration":"ID70","contextActivities":{"grouping":[{"id":"http://c/u"}],"category":[{"id":"CMI5"},{"id":"https://w3id.org/xapi/cmi5/context/categories/moveon"}]},"extensions":{"https://w3id.org/xapi/cmi5/context/extensions/sessionid":"ID80"}}}] => 200 ["ID90","ID91","ID92"] kept
"#;

#[test]
fn a_unit_is_completed_and_passed_once_in_a_registration(rt: HostRuntime) -> Result<(), Fail> {
    check_rows(rt.alloc(), TWO)
}

// A unit that is launched to be browsed.
const BROWSED: &str = r#"
sample
draw 48 8
admin POST /desk/registrations/ID10/launches {"unit":"http://c/u","mode":"Browse"} => 200 {"session":"ID30","launchMethod":"AnyWindow","url":"https://au.example/u?endpoint=http%3A%2F%2F127.0.0.1%3A8080%2Fxapi%2F&fetch=http%3A%2F%2F127.0.0.1%3A8080%2Ffetch%2F00000000000000000000000000000008-5&actor=%7B%22objectType%22%3A%22Agent%22%2C%22account%22%3A%7B%22homePage%22%3A%22https%3A%2F%2Fp.example%22%2C%22name%22%3A%22k1%22%7D%7D&registration=ID10&activityId=http%3A%2F%2F127.0.0.1%3A8080%2Factivities%2F0%2F2"} kept
draw 0 9
nobody POST /fetch/00000000000000000000000000000008-5 => 200 {"auth-token":"00000000000000000000000000000009-6"} kept
draw 64 0
00000000000000000000000000000009-6 POST /xapi/statements {"verb":{"id":"VERB/initialized"},SECOND} => 200 ["ID40"] kept
00000000000000000000000000000009-6 POST /xapi/statements {"verb":{"id":"VERB/completed"},"result":{"completion":true},SECOND} => 403 {"error":"C13"}
00000000000000000000000000000009-6 POST /xapi/statements {"verb":{"id":"VERB/passed"},"result":{"success":true,"score":{"scaled":0.9}},SECOND} => 403 {"error":"C13"}
00000000000000000000000000000009-6 POST /xapi/statements {"verb":{"id":"VERB/failed"},"result":{"success":false,"score":{"scaled":0.1}},SECOND} => 403 {"error":"C13"}
00000000000000000000000000000009-6 POST /xapi/statements {"actor":LEARNER,"verb":{"id":"http://v/1"},"object":{"id":"http://a/1"},"context":{"registration":"ID10"}} => 200 ["ID41"] kept
00000000000000000000000000000009-6 POST /xapi/statements {"verb":{"id":"VERB/terminated"},"result":{"duration":"PT1S"},SECOND} => 200 ["ID42"] kept
"#;

#[test]
fn who_browses_has_no_result(rt: HostRuntime) -> Result<(), Fail> {
    check_rows(rt.alloc(), BROWSED)
}

// Two units of one registration, and one of them in another: `u` is completed and passed by a session, `v` by another.
const UNITS: &str = r#"
draw 0 0
admin POST /desk/courses {"id":"http://c/1","title":{"en":"C"},"children":[{"kind":"unit","id":"http://c/v","title":{"en":"V"},"url":"https://au.example/u","moveOn":"Passed"},{"kind":"unit","id":"http://c/u","title":{"en":"U"},"url":"https://au.example/u","moveOn":"Passed"},{"kind":"unit","id":"http://c/w","title":{"en":"W"},"url":"https://au.example/u","moveOn":"Passed"}]} => 200 {"course":"http://c/1","edition":1} kept
draw 16 0
admin POST /desk/registrations {"course":"http://c/1","actor":ACTOR} => 200 {"registration":"ID10"} kept
admin POST /desk/registrations {"course":"http://c/1","actor":ACTOR} => 200 {"registration":"ID11"} kept
draw 32 1
admin POST /desk/registrations/ID10/launches {"unit":"http://c/u"} => 200 {"session":"ID20","launchMethod":"AnyWindow","url":"ADDRESSZEROS1-4WHOSEID10WHICH0%2F2"} kept
draw 0 2
nobody POST /fetch/ZEROS1-4 => 200 {"auth-token":"ZEROS2-5"} kept
draw 64 0
ZEROS2-5 POST /xapi/statements [{INITIALIZED,FIRST},{COMPLETED,FIRST},{PASSED,FIRST}] => 200 ["ID40","ID41","ID42"] kept
ZEROS2-5 POST /xapi/statements {COMPLETED,FIRST} => 403 {"error":"C16"}
ZEROS2-5 POST /xapi/statements {PASSED,FIRST} => 403 {"error":"C17"}
// the other unit, in the same registration
draw 80 3
admin POST /desk/registrations/ID10/launches {"unit":"http://c/v"} => 200 {"session":"ID50","launchMethod":"AnyWindow","url":"ADDRESSZEROS3-7WHOSEID10WHICH0%2F1"} kept
draw 0 4
nobody POST /fetch/ZEROS3-7 => 200 {"auth-token":"ZEROS4-8"} kept
draw 96 0
ZEROS4-8 POST /xapi/statements [{INITIALIZED,ABOUT1UNDER"ID10"GIVENvWITHIN"ID50"}}},{PASSED,ABOUT1UNDER"ID10"GIVENvWITHIN"ID50"}}},{COMPLETED,ABOUT1UNDER"ID10"GIVENvWITHIN"ID50"}}}] => 200 ["ID60","ID61","ID62"] kept
ZEROS4-8 POST /xapi/statements {PASSED,ABOUT1UNDER"ID10"GIVENvWITHIN"ID50"}}} => 403 {"error":"C17"}
ZEROS4-8 POST /xapi/statements {COMPLETED,ABOUT1UNDER"ID10"GIVENvWITHIN"ID50"}}} => 403 {"error":"C16"}
// the first unit, in the other registration
draw 112 5
admin POST /desk/registrations/ID11/launches {"unit":"http://c/u"} => 200 {"session":"ID70","launchMethod":"AnyWindow","url":"ADDRESSZEROS5-10WHOSEID11WHICH0%2F2"} kept
draw 0 6
nobody POST /fetch/ZEROS5-10 => 200 {"auth-token":"ZEROS6-11"} kept
draw 128 0
ZEROS6-11 POST /xapi/statements [{INITIALIZED,ABOUT2UNDER"ID11"GIVENuWITHIN"ID70"}}},{PASSED,ABOUT2UNDER"ID11"GIVENuWITHIN"ID70"}}},{COMPLETED,ABOUT2UNDER"ID11"GIVENuWITHIN"ID70"}}}] => 200 ["ID80","ID81","ID82"] kept
// the voided passed of one unit lets that one be passed again, and no other
admin POST /xapi/statements VOIDS"ID61"}} => 200 ["ID83"] kept
ZEROS2-5 POST /xapi/statements {PASSED,FIRST} => 403 {"error":"C17"}
ZEROS4-8 POST /xapi/statements {PASSED,ABOUT1UNDER"ID10"GIVENvWITHIN"ID50"}}} => 200 ["ID84"] kept
// a later session of a unit
draw 144 7
admin POST /desk/registrations/ID10/launches {"unit":"http://c/u"} => 200 {"session":"ID90","launchMethod":"AnyWindow","url":"ADDRESSZEROS7-15WHOSEID10WHICH0%2F2"} kept
draw 0 8
nobody POST /fetch/ZEROS7-15 => 200 {"auth-token":"ZEROS8-16"} kept
draw 160 0
ZEROS8-16 POST /xapi/statements [{INITIALIZED,SAYING"ID90"}}},{COMPLETED,SAYING"ID90"}}}] => 403 {"error":"C16"}
ZEROS8-16 POST /xapi/statements [{INITIALIZED,SAYING"ID90"}}},{PASSED,SAYING"ID90"}}}] => 403 {"error":"C17"}
ZEROS8-16 POST /xapi/statements {INITIALIZED,SAYING"ID90"}}} => 200 ["IDa0"] kept
"#;

#[test]
fn results_count_once_for_a_unit_and_a_registration(rt: HostRuntime) -> Result<(), Fail> {
    check_rows(rt.alloc(), UNITS)
}
