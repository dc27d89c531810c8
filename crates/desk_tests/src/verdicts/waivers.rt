// Units that are waived.
use crate::rows::{check_rows, check_rows_with};
use std::alloc::Global;
use std::test::Fail;

// `TOLD` and what follows it is how far the learner of the sample course has come in a registration.
const WORDS: [(&str, &str); 4] = [
    (
        "TOLD",
        r#"","course":"http://c/1","edition":1,"satisfied":"#,
    ),
    (
        "NODES",
        r#","nodes":[{"id":"http://c/1","kind":"course","satisfied":"#,
    ),
    (
        "BLOCK",
        r#"},{"id":"http://c/b","kind":"block","satisfied":"#,
    ),
    ("UNIT", r#"},{"id":"http://c/u","kind":"unit","satisfied":"#),
];

// The sample unit is waived once. The store says so, and that the block and the course are satisfied, all in one session
// that is no launch's.
const ONCE: &str = r#"
sample
draw 96 0
admin POST /desk/registrations/ID10/waive {"unit":"http://c/u","reason":"Tested Out"} => 204 kept
admin GET /xapi/statements?statementId=ID60 => 404 {"error":"404"}
admin GET /xapi/statements?statementId=ID61 => 200 {"actor":LEARNER,"verb":{"id":"ADL/waived","display":{"en":"waived"}},"object":{"objectType":"Activity","id":"BASEactivities/0/2"},"context":{"registration":"ID10","contextActivities":{"grouping":[{"objectType":"Activity","id":"http://c/u"}],"category":[{"objectType":"Activity","id":"CMI5"},{"objectType":"Activity","id":"https://w3id.org/xapi/cmi5/context/categories/moveon"}]},"extensions":{"https://w3id.org/xapi/cmi5/context/extensions/sessionid":"ID60"}},"result":{"success":true,"completion":true,"extensions":{"https://w3id.org/xapi/cmi5/result/extensions/reason":"Tested Out"}},"id":"ID61","timestamp":"2023-11-14T22:13:20.000Z","stored":"2023-11-14T22:13:20.000Z","authority":{"objectType":"Agent","name":"desk","account":{"homePage":"https://lrs.invalid/callers","name":"desk"}},"version":"1.0.0"}
admin GET /xapi/statements?statementId=ID62 => 200 {"actor":LEARNER,"verb":{"id":"ADL/satisfied","display":{"en":"satisfied"}},"object":{"objectType":"Activity","id":"BASEactivities/0/1","definition":{"type":"https://w3id.org/xapi/cmi5/activitytype/block"}},"context":{"registration":"ID10","contextActivities":{"grouping":[{"objectType":"Activity","id":"http://c/b"}],"category":[{"objectType":"Activity","id":"CMI5"}]},"extensions":{"https://w3id.org/xapi/cmi5/context/extensions/sessionid":"ID60"}},"id":"ID62","timestamp":"2023-11-14T22:13:20.000Z","stored":"2023-11-14T22:13:20.000Z","authority":{"objectType":"Agent","name":"desk","account":{"homePage":"https://lrs.invalid/callers","name":"desk"}},"version":"1.0.0"}
TOKEN GET /xapi/statements?statementId=ID63 => 200 {"actor":LEARNER,"verb":{"id":"ADL/satisfied","display":{"en":"satisfied"}},"object":{"objectType":"Activity","id":"BASEactivities/0/0","definition":{"type":"https://w3id.org/xapi/cmi5/activitytype/course"}},"context":{"registration":"ID10","contextActivities":{"grouping":[{"objectType":"Activity","id":"http://c/1"}],"category":[{"objectType":"Activity","id":"CMI5"}]},"extensions":{"https://w3id.org/xapi/cmi5/context/extensions/sessionid":"ID60"}},"id":"ID63","timestamp":"2023-11-14T22:13:20.000Z","stored":"2023-11-14T22:13:20.000Z","authority":{"objectType":"Agent","name":"desk","account":{"homePage":"https://lrs.invalid/callers","name":"desk"}},"version":"1.0.0"}
admin GET /desk/registrations/ID10 => 200 {"registration":"ID10TOLDtrueNODEStrueBLOCKtrueUNITtrue}]}
// the same again, and for another reason
admin POST /desk/registrations/ID10/waive {"unit":"http://c/u","reason":"Tested Out"} => 204
admin POST /desk/registrations/ID10/waive {"unit":"http://c/u","reason":"Administrative"} => 204
admin GET /xapi/statements?statementId=ID64 => 404 {"error":"404"}
admin POST /desk/sessions/ID60/abandon {} => 404 {"error":"404"}
admin POST /xapi/statements {"actor":{"mbox":"mailto:a@b"},"verb":{"id":"http://v/1"},"object":{"id":"http://a/1"}} => 200 ["ID64"] kept
// the session of the unit goes on; its results bring no more statements of the store
draw 112 0
TOKEN POST /xapi/statements [{INITIALIZED,FIRST},{PASSED,FIRST},{COMPLETED,FIRST},{TERMINATED,FIRST}] => 200 ["ID70","ID71","ID72","ID73"] kept
admin GET /xapi/statements?statementId=ID74 => 404 {"error":"404"}
"#;

#[test]
fn a_unit_is_waived_once(rt: HostRuntime) -> Result<(), Fail> {
    check_rows_with(rt.alloc(), &WORDS, ONCE)
}

// Behind a voided waiver the unit is open, and is waived again, each time for another reason. What was told of the block
// and the course isn't told again. A session can't say that it is waived.
const AGAIN: &str = r#"
sample
draw 96 0
admin POST /desk/registrations/ID10/waive {"unit":"http://c/u","reason":"Tested Out"} => 204 kept
admin POST /xapi/statements VOIDS"ID61"}} => 200 ["ID64"] kept
admin GET /desk/registrations/ID10 => 200 {"registration":"ID10TOLDfalseNODESfalseBLOCKfalseUNITfalse}]}
draw 112 0
admin POST /desk/registrations/ID10/waive {"unit":"http://c/u","reason":"Equivalent AU"} => 204 kept
admin GET /xapi/statements?statementId=ID71 => 200 {"actor":LEARNER,"verb":{"id":"ADL/waived","display":{"en":"waived"}},"object":{"objectType":"Activity","id":"BASEactivities/0/2"},"context":{"registration":"ID10","contextActivities":{"grouping":[{"objectType":"Activity","id":"http://c/u"}],"category":[{"objectType":"Activity","id":"CMI5"},{"objectType":"Activity","id":"https://w3id.org/xapi/cmi5/context/categories/moveon"}]},"extensions":{"https://w3id.org/xapi/cmi5/context/extensions/sessionid":"ID70"}},"result":{"success":true,"completion":true,"extensions":{"https://w3id.org/xapi/cmi5/result/extensions/reason":"Equivalent AU"}},"id":"ID71","timestamp":"2023-11-14T22:13:20.000Z","stored":"2023-11-14T22:13:20.000Z","authority":{"objectType":"Agent","name":"desk","account":{"homePage":"https://lrs.invalid/callers","name":"desk"}},"version":"1.0.0"}
admin GET /xapi/statements?statementId=ID72 => 404 {"error":"404"}
admin GET /desk/registrations/ID10 => 200 {"registration":"ID10TOLDtrueNODEStrueBLOCKtrueUNITtrue}]}
admin POST /desk/registrations/ID10/waive {"unit":"http://c/u","reason":"Equivalent AU"} => 204
admin POST /xapi/statements VOIDS"ID71"}} => 200 ["ID72"] kept
draw 128 0
admin POST /desk/registrations/ID10/waive {"unit":"http://c/u","reason":"Equivalent Outside Activity"} => 204 kept
admin GET /xapi/statements?statementId=ID81&format=ids => 200 {"actor":LEARNER,"verb":{"id":"ADL/waived"},"object":{"objectType":"Activity","id":"BASEactivities/0/2"},"context":{"registration":"ID10","contextActivities":{"grouping":[{"objectType":"Activity","id":"http://c/u"}],"category":[{"objectType":"Activity","id":"CMI5"},{"objectType":"Activity","id":"https://w3id.org/xapi/cmi5/context/categories/moveon"}]},"extensions":{"https://w3id.org/xapi/cmi5/context/extensions/sessionid":"ID80"}},"result":{"success":true,"completion":true,"extensions":{"https://w3id.org/xapi/cmi5/result/extensions/reason":"Equivalent Outside Activity"}},"id":"ID81","timestamp":"2023-11-14T22:13:20.000Z","stored":"2023-11-14T22:13:20.000Z","authority":{"objectType":"Agent","account":{"homePage":"https://lrs.invalid/callers","name":"desk"}},"version":"1.0.0"}
admin POST /xapi/statements VOIDS"ID81"}} => 200 ["ID82"] kept
draw 144 0
admin POST /desk/registrations/ID10/waive {"unit":"http://c/u","reason":"Administrative"} => 204 kept
admin GET /xapi/statements?statementId=ID91&format=ids => 200 {"actor":LEARNER,"verb":{"id":"ADL/waived"},"object":{"objectType":"Activity","id":"BASEactivities/0/2"},"context":{"registration":"ID10","contextActivities":{"grouping":[{"objectType":"Activity","id":"http://c/u"}],"category":[{"objectType":"Activity","id":"CMI5"},{"objectType":"Activity","id":"https://w3id.org/xapi/cmi5/context/categories/moveon"}]},"extensions":{"https://w3id.org/xapi/cmi5/context/extensions/sessionid":"ID90"}},"result":{"success":true,"completion":true,"extensions":{"https://w3id.org/xapi/cmi5/result/extensions/reason":"Administrative"}},"id":"ID91","timestamp":"2023-11-14T22:13:20.000Z","stored":"2023-11-14T22:13:20.000Z","authority":{"objectType":"Agent","account":{"homePage":"https://lrs.invalid/callers","name":"desk"}},"version":"1.0.0"}
admin GET /xapi/statements?statementId=ID92 => 404 {"error":"404"}
TOKEN POST /xapi/statements [{INITIALIZED,FIRST},{"verb":{"id":"ADL/waived"},"result":{"success":true,"completion":true},FIRST}] => 403 {"error":"C8"}
TOKEN POST /xapi/statements [{INITIALIZED,FIRST},{"verb":{"id":"ADL/satisfied"},FIRST}] => 403 {"error":"C8"}
admin POST /xapi/statements {"verb":{"id":"ADL/waived"},"result":{"success":true,"completion":true},FIRST} => 403 {"error":"C1"}
"#;

#[test]
fn a_unit_is_waived_again_behind_a_voided_waiver(rt: HostRuntime) -> Result<(), Fail> {
    check_rows_with(rt.alloc(), &WORDS, AGAIN)
}

// A waiver counts in its registration alone. One of a unit that is met already brings its own statement alone.
const APART: &str = r#"
sample
draw 48 0
admin POST /desk/registrations {"course":"http://c/1","actor":ACTOR} => 200 {"registration":"ID30"} kept
draw 96 0
admin POST /desk/registrations/ID30/waive {"unit":"http://c/u","reason":"Tested Out"} => 204 kept
admin GET /desk/registrations/ID10 => 200 {"registration":"ID10TOLDfalseNODESfalseBLOCKfalseUNITfalse}]}
admin GET /desk/registrations/ID30 => 200 {"registration":"ID30TOLDtrueNODEStrueBLOCKtrueUNITtrue}]}
draw 64 0
TOKEN POST /xapi/statements [{INITIALIZED,FIRST},{COMPLETED,FIRST},{PASSED,FIRST}] => 200 ["ID40","ID41","ID42"] kept
admin GET /desk/registrations/ID10 => 200 {"registration":"ID10TOLDtrueNODEStrueBLOCKtrueUNITtrue}]}
draw 112 0
admin POST /desk/registrations/ID10/waive {"unit":"http://c/u","reason":"Administrative"} => 204 kept
admin GET /xapi/statements?registration=ID10&verb=ADL/waived&format=ids => 200 {"statements":[{"actor":LEARNER,"verb":{"id":"ADL/waived"},"object":{"objectType":"Activity","id":"BASEactivities/0/2"},"context":{"registration":"ID10","contextActivities":{"grouping":[{"objectType":"Activity","id":"http://c/u"}],"category":[{"objectType":"Activity","id":"CMI5"},{"objectType":"Activity","id":"https://w3id.org/xapi/cmi5/context/categories/moveon"}]},"extensions":{"https://w3id.org/xapi/cmi5/context/extensions/sessionid":"ID70"}},"result":{"success":true,"completion":true,"extensions":{"https://w3id.org/xapi/cmi5/result/extensions/reason":"Administrative"}},"id":"ID71","timestamp":"2023-11-14T22:13:20.000Z","stored":"2023-11-14T22:13:20.000Z","authority":{"objectType":"Agent","account":{"homePage":"https://lrs.invalid/callers","name":"desk"}},"version":"1.0.0"}],"more":""}
admin GET /xapi/statements?statementId=ID72 => 404 {"error":"404"}
// the unit stays met behind its voided results
admin POST /xapi/statements [VOIDS"ID41"}},VOIDS"ID42"}}] => 200 ["ID72","ID73"] kept
admin GET /desk/registrations/ID10 => 200 {"registration":"ID10TOLDtrueNODEStrueBLOCKtrueUNITtrue}]}
"#;

#[test]
fn a_waiver_counts_in_its_registration(rt: HostRuntime) -> Result<(), Fail> {
    check_rows_with(rt.alloc(), &WORDS, APART)
}

// Which reasons there are, what isn't there, and who may.
const ASKED: &str = r#"
sample
admin POST /desk/registrations/ID10/waive {"unit":"http://c/u","reason":"tested out"} => 400 {"error":"B5"}
admin POST /desk/registrations/ID10/waive {"unit":"http://c/u","reason":"Tested Out "} => 400 {"error":"B5"}
admin POST /desk/registrations/ID10/waive {"unit":"http://c/u","reason":"Tested  Out"} => 400 {"error":"B5"}
admin POST /desk/registrations/ID10/waive {"unit":"http://c/u","reason":"Equivalent"} => 400 {"error":"B5"}
admin POST /desk/registrations/ID10/waive {"unit":"http://c/u","reason":"Administrativ"} => 400 {"error":"B5"}
admin POST /desk/registrations/ID10/waive {"unit":"http://c/u","reason":""} => 400 {"error":"B5"}
admin POST /desk/registrations/ID10/waive {"unit":"http://c/u","reason":null} => 400 {"error":"B5"}
admin POST /desk/registrations/ID10/waive {"unit":"http://c/u","reason":["Tested Out"]} => 400 {"error":"B5"}
admin POST /desk/registrations/ID10/waive {"unit":"no","reason":"no"} => 400 {"error":"B5"}
admin POST /desk/registrations/ID10/waive {"unit":"no","reason":"Tested Out"} => 400 {"error":"B8"}
admin POST /desk/registrations/ID10/waive {"unit":"http://c/u"} => 400 {"error":"B1"}
admin POST /desk/registrations/ID10/waive {"reason":"Tested Out"} => 400 {"error":"B1"}
admin POST /desk/registrations/ID10/waive {"unit":"http://c/u","reason":"Tested Out","mode":"Normal"} => 400 {"error":"B1"}
admin POST /desk/registrations/ID10/waive {"unit":"http://c/u" => 400 {"error":"J2"}
admin POST /desk/registrations/ID10/waive?a=b {"unit":"http://c/u","reason":"Tested Out"} => 400 {"error":"P2"}
admin POST /desk/registrations/10/waive {"unit":"http://c/u","reason":"no"} => 400 {"error":"B5"}
admin POST /desk/registrations/10/waive {"unit":"http://c/u","reason":"Tested Out"} => 404 {"error":"404"}
admin POST /desk/registrations/ID20/waive {"unit":"http://c/u","reason":"Tested Out"} => 404 {"error":"404"}
admin POST /desk/registrations/ID10/waive {"unit":"http://c/b","reason":"Tested Out"} => 404 {"error":"404"}
admin POST /desk/registrations/ID10/waive {"unit":"http://c/1","reason":"Tested Out"} => 404 {"error":"404"}
admin POST /desk/registrations/ID10/waive {"unit":"BASEactivities/0/2","reason":"Tested Out"} => 404 {"error":"404"}
admin GET /desk/registrations/ID10/waive => POST
nobody POST /desk/registrations/ID10/waive {"unit":"http://c/u","reason":"Tested Out"} => 401 {"error":"A1"}
TOKEN POST /desk/registrations/ID10/waive {"unit":"http://c/u","reason":"Tested Out"} => 403 {"error":"A2"}
admin POST /desk/callers {"name":"p"} => 200 {"caller":0,"token":"ZEROS2-5"} kept
ZEROS2-5 POST /desk/registrations/ID11/waive { => 403 {"error":"A2"}
admin GET /xapi/statements?verb=ADL/waived => 200 {"statements":[],"more":""}
admin POST /desk/registrations/ID10/waive {"reason":"Tested\u0020Out","unit":"http://c/u"} => 204 kept
"#;

#[test]
fn a_waiver_has_one_of_four_reasons(rt: HostRuntime) -> Result<(), Fail> {
    check_rows(rt.alloc(), ASKED)
}
