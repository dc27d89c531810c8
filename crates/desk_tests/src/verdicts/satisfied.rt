// What the store says of blocks and courses that are satisfied, and when.
use crate::rows::{check_rows, check_rows_with};
use std::alloc::Global;
use std::test::Fail;

// The sample session passes, then completes: the store says that the block and the course are satisfied, the deeper node
// first. The passed is voided, and said again: nothing more is said of the nodes.
const SAMPLE: &str = r#"
sample
draw 80 0
TOKEN PUT /xapi/statements?statementId=ID90 {INITIALIZED,FIRST} => 204 kept
TOKEN PUT /xapi/statements?statementId=ID91 {PASSED,FIRST} => 204 kept
admin GET /xapi/statements?statementId=ID50 => 404 {"error":"404"}
admin GET /desk/registrations/ID10 => 200 {"registration":"ID10","course":"http://c/1","edition":1,"satisfied":false,"nodes":[{"id":"http://c/1","kind":"course","satisfied":false},{"id":"http://c/b","kind":"block","satisfied":false},{"id":"http://c/u","kind":"unit","satisfied":false}]}
draw 64 0
TOKEN PUT /xapi/statements?statementId=ID92 {COMPLETED,FIRST} => 204 kept
admin GET /xapi/statements?statementId=ID40 => 200 {"actor":LEARNER,"verb":{"id":"ADL/satisfied","display":{"en":"satisfied"}},"object":{"objectType":"Activity","id":"BASEactivities/0/1","definition":{"type":"https://w3id.org/xapi/cmi5/activitytype/block"}},"context":{"registration":"ID10","contextActivities":{"grouping":[{"objectType":"Activity","id":"http://c/b"}],"category":[{"objectType":"Activity","id":"CMI5"}]},"extensions":{"https://w3id.org/xapi/cmi5/context/extensions/sessionid":"ID20"}},"id":"ID40","timestamp":"2023-11-14T22:13:20.000Z","stored":"2023-11-14T22:13:20.000Z","authority":{"objectType":"Agent","name":"desk","account":{"homePage":"https://lrs.invalid/callers","name":"desk"}},"version":"1.0.0"}
admin GET /xapi/statements?statementId=ID41 => 200 {"actor":LEARNER,"verb":{"id":"ADL/satisfied","display":{"en":"satisfied"}},"object":{"objectType":"Activity","id":"BASEactivities/0/0","definition":{"type":"https://w3id.org/xapi/cmi5/activitytype/course"}},"context":{"registration":"ID10","contextActivities":{"grouping":[{"objectType":"Activity","id":"http://c/1"}],"category":[{"objectType":"Activity","id":"CMI5"}]},"extensions":{"https://w3id.org/xapi/cmi5/context/extensions/sessionid":"ID20"}},"id":"ID41","timestamp":"2023-11-14T22:13:20.000Z","stored":"2023-11-14T22:13:20.000Z","authority":{"objectType":"Agent","name":"desk","account":{"homePage":"https://lrs.invalid/callers","name":"desk"}},"version":"1.0.0"}
admin GET /xapi/statements?statementId=ID42 => 404 {"error":"404"}
admin GET /desk/registrations/ID10 => 200 {"registration":"ID10","course":"http://c/1","edition":1,"satisfied":true,"nodes":[{"id":"http://c/1","kind":"course","satisfied":true},{"id":"http://c/b","kind":"block","satisfied":true},{"id":"http://c/u","kind":"unit","satisfied":true}]}
draw 96 0
admin POST /xapi/statements VOIDS"ID91"}} => 200 ["ID60"] kept
admin GET /desk/registrations/ID10 => 200 {"registration":"ID10","course":"http://c/1","edition":1,"satisfied":false,"nodes":[{"id":"http://c/1","kind":"course","satisfied":false},{"id":"http://c/b","kind":"block","satisfied":false},{"id":"http://c/u","kind":"unit","satisfied":false}]}
TOKEN PUT /xapi/statements?statementId=ID93 {PASSED,FIRST} => 204 kept
admin GET /desk/registrations/ID10 => 200 {"registration":"ID10","course":"http://c/1","edition":1,"satisfied":true,"nodes":[{"id":"http://c/1","kind":"course","satisfied":true},{"id":"http://c/b","kind":"block","satisfied":true},{"id":"http://c/u","kind":"unit","satisfied":true}]}
admin GET /xapi/statements?statementId=ID61 => 404 {"error":"404"}
// what is said again, and what is refused, brings nothing
TOKEN PUT /xapi/statements?statementId=ID93 {PASSED,FIRST} => 204
TOKEN PUT /xapi/statements?statementId=ID94 {PASSED,FIRST} => 403 {"error":"C17"}
TOKEN PUT /xapi/statements?statementId=ID95 {TERMINATED,FIRST} => 204 kept
admin GET /xapi/statements?statementId=ID61 => 404 {"error":"404"}
// a voided one was said, too; the store's own are no results, and the learner sees them
admin POST /xapi/statements [VOIDS"ID40"}},VOIDS"ID41"}}] => 200 ["ID61","ID62"] kept
admin POST /xapi/statements VOIDS"ID93"}} => 200 ["ID63"] kept
TOKEN GET /xapi/statements?statementId=ID41 => 404 {"error":"404"}
TOKEN GET /xapi/statements?voidedStatementId=ID41&format=ids => 200 {"actor":LEARNER,"verb":{"id":"ADL/satisfied"},"object":{"objectType":"Activity","id":"BASEactivities/0/0"},"context":{"registration":"ID10","contextActivities":{"grouping":[{"objectType":"Activity","id":"http://c/1"}],"category":[{"objectType":"Activity","id":"CMI5"}]},"extensions":{"https://w3id.org/xapi/cmi5/context/extensions/sessionid":"ID20"}},"id":"ID41","timestamp":"2023-11-14T22:13:20.000Z","stored":"2023-11-14T22:13:20.000Z","authority":{"objectType":"Agent","account":{"homePage":"https://lrs.invalid/callers","name":"desk"}},"version":"1.0.0"}
draw 112 3
admin POST /desk/registrations/ID10/launches {"unit":"http://c/u"} => 200 {"session":"ID70","launchMethod":"AnyWindow","url":"ADDRESSZEROS3-13WHOSEID10WHICH0%2F2"} kept
draw 0 4
nobody POST /fetch/ZEROS3-13 => 200 {"auth-token":"ZEROS4-14"} kept
draw 128 0
ZEROS4-14 POST /xapi/statements [{INITIALIZED,SAYING"ID70"}}},{PASSED,SAYING"ID70"}}}] => 200 ["ID80","ID81"] kept
admin GET /desk/registrations/ID10 => 200 {"registration":"ID10","course":"http://c/1","edition":1,"satisfied":true,"nodes":[{"id":"http://c/1","kind":"course","satisfied":true},{"id":"http://c/b","kind":"block","satisfied":true},{"id":"http://c/u","kind":"unit","satisfied":true}]}
admin GET /xapi/statements?statementId=ID82 => 404 {"error":"404"}
"#;

#[test]
fn nodes_are_told_once_to_be_satisfied(rt: HostRuntime) -> Result<(), Fail> {
    check_rows(rt.alloc(), SAMPLE)
}

// One batch of a whole session satisfies at its last statements. One that is refused brings nothing.
const BATCH: &str = r#"
sample
draw 64 0
TOKEN POST /xapi/statements [{INITIALIZED,FIRST},{COMPLETED,FIRST},{PASSED,FIRST},{PASSED,FIRST}] => 403 {"error":"C17"}
admin GET /xapi/statements?verb=ADL/satisfied => 200 {"statements":[],"more":""}
TOKEN POST /xapi/statements [{INITIALIZED,FIRST},{COMPLETED,FIRST},{"id":"ID44",PASSED,FIRST},{TERMINATED,FIRST}] => 200 ["ID40","ID41","ID44","ID42"] kept
// the next ids but the one that was given
admin GET /xapi/statements?verb=ADL/satisfied&format=ids&ascending=true => 200 {"statements":[{"actor":LEARNER,"verb":{"id":"ADL/satisfied"},"object":{"objectType":"Activity","id":"BASEactivities/0/1"},"context":{"registration":"ID10","contextActivities":{"grouping":[{"objectType":"Activity","id":"http://c/b"}],"category":[{"objectType":"Activity","id":"CMI5"}]},"extensions":{"https://w3id.org/xapi/cmi5/context/extensions/sessionid":"ID20"}},"id":"ID43","timestamp":"2023-11-14T22:13:20.000Z","stored":"2023-11-14T22:13:20.000Z","authority":{"objectType":"Agent","account":{"homePage":"https://lrs.invalid/callers","name":"desk"}},"version":"1.0.0"},{"actor":LEARNER,"verb":{"id":"ADL/satisfied"},"object":{"objectType":"Activity","id":"BASEactivities/0/0"},"context":{"registration":"ID10","contextActivities":{"grouping":[{"objectType":"Activity","id":"http://c/1"}],"category":[{"objectType":"Activity","id":"CMI5"}]},"extensions":{"https://w3id.org/xapi/cmi5/context/extensions/sessionid":"ID20"}},"id":"ID45","timestamp":"2023-11-14T22:13:20.000Z","stored":"2023-11-14T22:13:20.000Z","authority":{"objectType":"Agent","account":{"homePage":"https://lrs.invalid/callers","name":"desk"}},"version":"1.0.0"}],"more":""}
"#;

#[test]
fn a_batch_satisfies_behind_itself(rt: HostRuntime) -> Result<(), Fail> {
    check_rows(rt.alloc(), BATCH)
}

// A course that asks for nothing: it is satisfied as soon as a learner is enrolled, and a session is made for saying so.
const AT_ONCE: &str = r#"
draw 0 0
admin POST /desk/courses {"id":"http://c/2","title":{"en":"C"},"children":[{"kind":"unit","id":"http://c/2/u","title":{"en":"U"},"url":"https://au.example/u"}]} => 200 {"course":"http://c/2","edition":1} kept
draw 16 0
admin POST /desk/registrations {"course":"http://c/2","actor":ACTOR} => 200 {"registration":"ID10"} kept
admin GET /desk/registrations/ID10 => 200 {"registration":"ID10","course":"http://c/2","edition":1,"satisfied":true,"nodes":[{"id":"http://c/2","kind":"course","satisfied":true},{"id":"http://c/2/u","kind":"unit","satisfied":true}]}
admin GET /xapi/statements => 200 {"statements":[{"actor":LEARNER,"verb":{"id":"ADL/satisfied","display":{"en":"satisfied"}},"object":{"objectType":"Activity","id":"BASEactivities/0/0","definition":{"type":"https://w3id.org/xapi/cmi5/activitytype/course"}},"context":{"registration":"ID10","contextActivities":{"grouping":[{"objectType":"Activity","id":"http://c/2"}],"category":[{"objectType":"Activity","id":"CMI5"}]},"extensions":{"https://w3id.org/xapi/cmi5/context/extensions/sessionid":"ID11"}},"id":"ID12","timestamp":"2023-11-14T22:13:20.000Z","stored":"2023-11-14T22:13:20.000Z","authority":{"objectType":"Agent","name":"desk","account":{"homePage":"https://lrs.invalid/callers","name":"desk"}},"version":"1.0.0"}],"more":""}
// that session is no launch's, and its id is used
admin POST /desk/sessions/ID11/abandon {} => 404 {"error":"404"}
admin POST /desk/sweep {"idle":0} => 200 {"abandoned":[]}
draw 17 0
admin POST /xapi/statements {"actor":{"mbox":"mailto:a@b"},"verb":{"id":"http://v/1"},"object":{"id":"http://a/1"}} => 200 ["ID13"] kept
// of another registration it is told, too
draw 32 0
admin POST /desk/registrations {"course":"http://c/2","actor":ACTOR} => 200 {"registration":"ID20"} kept
admin GET /xapi/statements?registration=ID20&format=ids => 200 {"statements":[{"actor":LEARNER,"verb":{"id":"ADL/satisfied"},"object":{"objectType":"Activity","id":"BASEactivities/0/0"},"context":{"registration":"ID20","contextActivities":{"grouping":[{"objectType":"Activity","id":"http://c/2"}],"category":[{"objectType":"Activity","id":"CMI5"}]},"extensions":{"https://w3id.org/xapi/cmi5/context/extensions/sessionid":"ID21"}},"id":"ID22","timestamp":"2023-11-14T22:13:20.000Z","stored":"2023-11-14T22:13:20.000Z","authority":{"objectType":"Agent","account":{"homePage":"https://lrs.invalid/callers","name":"desk"}},"version":"1.0.0"}],"more":""}
// a unit is launched and waived all the same, and nothing more is told of the course
draw 48 1
admin POST /desk/registrations/ID10/launches {"unit":"http://c/2/u"} => 200 {"session":"ID30","launchMethod":"AnyWindow","url":"ADDRESSZEROS1-5WHOSEID10WHICH0%2F1"} kept
draw 64 0
admin POST /desk/registrations/ID20/waive {"unit":"http://c/2/u","reason":"Administrative"} => 204 kept
admin GET /xapi/statements?statementId=ID42 => 404 {"error":"404"}
"#;

#[test]
fn a_course_that_asks_for_nothing_is_satisfied_at_once(rt: HostRuntime) -> Result<(), Fail> {
    check_rows(rt.alloc(), AT_ONCE)
}

// A course of blocks in blocks, of which two hold no unit of their own: `x` holds `xa`, which holds `a` that asks for
// nothing, and `xp`, which holds `p`; `y` holds `ya`, which holds `d` that asks for nothing; `q` stands beside them.
// `IN_` and what follows it begins what the store says of a node in a session.
const WORDS: [(&str, &str); 20] = [
    (
        "TREE",
        r#"{"id":"http://c/1","title":{"en":"C"},"children":[BLOCKx",HOLDS[BLOCKxa",HOLDS[UNITa"}]},BLOCKxp",HOLDS[UNITp","moveOn":"Passed"}]}]},BLOCKy",HOLDS[BLOCKya",HOLDS[UNITd"}]}]},UNITq","moveOn":"Completed"}]}"#,
    ),
    (
        "BLOCK",
        r#"{"kind":"block","title":{"en":"B"},"id":"http://c/"#,
    ),
    ("HOLDS", r#""children":"#),
    (
        "UNIT",
        r#"{"kind":"unit","title":{"en":"U"},"url":"https://au.example/u","id":"http://c/"#,
    ),
    (
        "OF_NODE",
        r#"{"actor":LEARNER,"verb":{"id":"ADL/satisfied"},"object":{"objectType":"Activity","id":"BASEactivities/0/"#,
    ),
    (
        "IN_ONE",
        r#""},"context":{"registration":"ID10","contextActivities":{"grouping":[{"objectType":"Activity","id":"http://c/"#,
    ),
    (
        "IN_TWO",
        r#""},"context":{"registration":"ID30","contextActivities":{"grouping":[{"objectType":"Activity","id":"http://c/"#,
    ),
    (
        "BY_ID",
        r#""}],"category":[{"objectType":"Activity","id":"CMI5"}]},"extensions":{"https://w3id.org/xapi/cmi5/context/extensions/sessionid":"ID"#,
    ),
    ("AS_ID", r#""}},"id":"ID"#),
    (
        "AT_LAST",
        r#"","timestamp":"2023-11-14T22:13:20.000Z","stored":"2023-11-14T22:13:20.000Z","authority":{"objectType":"Agent","account":{"homePage":"https://lrs.invalid/callers","name":"desk"}},"version":"1.0.0"}"#,
    ),
    ("TOLD", r#","course":"http://c/1","edition":1,"satisfied":"#),
    (
        "NODES",
        r#","nodes":[{"id":"http://c/1","kind":"course","satisfied":"#,
    ),
    ("X?", r#"},{"id":"http://c/x","kind":"block","satisfied":"#),
    (
        "XA?",
        r#"},{"id":"http://c/xa","kind":"block","satisfied":"#,
    ),
    ("UA?", r#"},{"id":"http://c/a","kind":"unit","satisfied":"#),
    (
        "XP?",
        r#"},{"id":"http://c/xp","kind":"block","satisfied":"#,
    ),
    ("UP?", r#"},{"id":"http://c/p","kind":"unit","satisfied":"#),
    ("Y?", r#"},{"id":"http://c/y","kind":"block","satisfied":"#),
    (
        "YA?",
        r#"},{"id":"http://c/ya","kind":"block","satisfied":"#,
    ),
    (
        "UD?true",
        r#"},{"id":"http://c/d","kind":"unit","satisfied":true},{"id":"http://c/q","kind":"unit","satisfied":"#,
    ),
];

// What is satisfied at the enrolment, by a session, and by a waiver: deeper nodes are told first, and those of one depth
// in the order of the text.
const BLOCKS: &str = r#"
draw 0 0
admin POST /desk/courses TREE => 200 {"course":"http://c/1","edition":1} kept
draw 16 0
admin POST /desk/registrations {"course":"http://c/1","actor":ACTOR} => 200 {"registration":"ID10"} kept
admin GET /xapi/statements?format=ids&ascending=true => 200 {"statements":[OF_NODE2IN_ONExaBY_ID11AS_ID12AT_LAST,OF_NODE7IN_ONEyaBY_ID11AS_ID13AT_LAST,OF_NODE6IN_ONEyBY_ID11AS_ID14AT_LAST],"more":""}
admin GET /desk/registrations/ID10 => 200 {"registration":"ID10"TOLDfalseNODESfalseX?falseXA?trueUA?trueXP?falseUP?falseY?trueYA?trueUD?truefalse}]}
// a unit in two blocks is passed
draw 32 1
admin POST /desk/registrations/ID10/launches {"unit":"http://c/p"} => 200 {"session":"ID20","launchMethod":"AnyWindow","url":"ADDRESSKEYWHOSEID10WHICH0%2F5"} kept
draw 0 2
nobody POST /fetch/KEY => 200 {"auth-token":"TOKEN"} kept
draw 64 0
TOKEN POST /xapi/statements [{INITIALIZED,ABOUT5UNDER"ID10"GIVENpWITHIN"ID20"}}},{PASSED,ABOUT5UNDER"ID10"GIVENpWITHIN"ID20"}}}] => 200 ["ID40","ID41"] kept
admin GET /xapi/statements?verb=ADL/satisfied&format=ids&ascending=true => 200 {"statements":[OF_NODE2IN_ONExaBY_ID11AS_ID12AT_LAST,OF_NODE7IN_ONEyaBY_ID11AS_ID13AT_LAST,OF_NODE6IN_ONEyBY_ID11AS_ID14AT_LAST,OF_NODE4IN_ONExpBY_ID20AS_ID42AT_LAST,OF_NODE1IN_ONExBY_ID20AS_ID43AT_LAST],"more":""}
admin GET /desk/registrations/ID10 => 200 {"registration":"ID10"TOLDfalseNODESfalseX?trueXA?trueUA?trueXP?trueUP?trueY?trueYA?trueUD?truefalse}]}
// the unit beside the blocks is waived
draw 80 0
admin POST /desk/registrations/ID10/waive {"unit":"http://c/q","reason":"Tested Out"} => 204 kept
admin GET /xapi/statements?statementId=ID52&format=ids => 200 OF_NODE0IN_ONE1BY_ID50AS_ID52AT_LAST
admin GET /desk/registrations/ID10 => 200 {"registration":"ID10"TOLDtrueNODEStrueX?trueXA?trueUA?trueXP?trueUP?trueY?trueYA?trueUD?truetrue}]}
// the passed is voided: what holds its unit isn't satisfied, all else is
admin POST /xapi/statements VOIDS"ID41"}} => 200 ["ID53"] kept
admin GET /desk/registrations/ID10 => 200 {"registration":"ID10"TOLDfalseNODESfalseX?falseXA?trueUA?trueXP?falseUP?falseY?trueYA?trueUD?truetrue}]}
// another learner's registration: the unit beside the blocks first, then the one in two blocks
draw 48 0
admin POST /desk/registrations {"course":"http://c/1","actor":ACTOR} => 200 {"registration":"ID30"} kept
draw 96 0
admin POST /desk/registrations/ID30/waive {"unit":"http://c/q","reason":"Tested Out"} => 204 kept
admin GET /desk/registrations/ID30 => 200 {"registration":"ID30"TOLDfalseNODESfalseX?falseXA?trueUA?trueXP?falseUP?falseY?trueYA?trueUD?truetrue}]}
admin POST /desk/registrations/ID30/waive {"unit":"http://c/p","reason":"Tested Out"} => 204 kept
admin GET /xapi/statements?verb=ADL/satisfied&registration=ID30&format=ids&ascending=true => 200 {"statements":[OF_NODE2IN_TWOxaBY_ID31AS_ID32AT_LAST,OF_NODE7IN_TWOyaBY_ID31AS_ID33AT_LAST,OF_NODE6IN_TWOyBY_ID31AS_ID34AT_LAST,OF_NODE4IN_TWOxpBY_ID62AS_ID64AT_LAST,OF_NODE1IN_TWOxBY_ID62AS_ID65AT_LAST,OF_NODE0IN_TWO1BY_ID62AS_ID66AT_LAST],"more":""}
admin GET /desk/registrations/ID30 => 200 {"registration":"ID30"TOLDtrueNODEStrueX?trueXA?trueUA?trueXP?trueUP?trueY?trueYA?trueUD?truetrue}]}
admin GET /desk/registrations/ID10 => 200 {"registration":"ID10"TOLDfalseNODESfalseX?falseXA?trueUA?trueXP?falseUP?falseY?trueYA?trueUD?truetrue}]}
"#;

#[test]
fn deeper_blocks_are_told_first(rt: HostRuntime) -> Result<(), Fail> {
    check_rows_with(rt.alloc(), &WORDS, BLOCKS)
}

// Who asks for a registration, and what isn't there.
const ASKED: &str = r#"
sample
admin GET /desk/registrations/ID10 => 200 {"registration":"ID10","course":"http://c/1","edition":1,"satisfied":false,"nodes":[{"id":"http://c/1","kind":"course","satisfied":false},{"id":"http://c/b","kind":"block","satisfied":false},{"id":"http://c/u","kind":"unit","satisfied":false}]}
admin GET /desk/registrations/ID10 { => 200 {"registration":"ID10","course":"http://c/1","edition":1,"satisfied":false,"nodes":[{"id":"http://c/1","kind":"course","satisfied":false},{"id":"http://c/b","kind":"block","satisfied":false},{"id":"http://c/u","kind":"unit","satisfied":false}]}
admin GET /desk/registrations/ID20 => 404 {"error":"404"}
admin GET /desk/registrations/10 => 404 {"error":"404"}
admin GET /desk/registrations/ID10?a=b => 400 {"error":"P2"}
admin GET /desk/registrations/ID10/ => no route
admin POST /desk/registrations/ID10 {} => GET
nobody GET /desk/registrations/ID10 => 401 {"error":"A1"}
TOKEN GET /desk/registrations/ID10 => 403 {"error":"A2"}
admin POST /desk/callers {"name":"p"} => 200 {"caller":0,"token":"ZEROS2-5"} kept
ZEROS2-5 GET /desk/registrations/10 => 403 {"error":"A2"}
"#;

#[test]
fn an_admin_asks_how_far_a_learner_is(rt: HostRuntime) -> Result<(), Fail> {
    check_rows(rt.alloc(), ASKED)
}
