// Editions of courses.
use crate::rows::{check_reopened_with, check_rows, check_rows_with};
use std::alloc::Global;
use std::test::Fail;

// `ONE` and `TWO` are two courses up to what is said of their unit. `TOLD` and an edition's number is how far a learner
// has come in the first one, `OPEN` that it isn't far.
const COURSES: [(&str, &str); 5] = [
    (
        "ONE",
        r#"{"id":"http://c/1","title":{"en":"C"},"children":[UNIT"#,
    ),
    (
        "TWO",
        r#"{"id":"http://c/2","title":{"en":"C"},"children":[UNIT"#,
    ),
    (
        "UNIT",
        r#"{"kind":"unit","id":"http://c/u","title":{"en":"U"},"url":"https://au.example/u""#,
    ),
    ("TOLD", r#"","course":"http://c/1","edition":"#),
    (
        "OPEN",
        r#","satisfied":false,"nodes":[{"id":"http://c/1","kind":"course","satisfied":false},{"id":"http://c/u","kind":"unit","satisfied":false}]}"#,
    ),
];

// A course is an edition of its id unless it is the same as the newest one. Each enrolment is in the newest or in the one
// that it names, and stays there.
const NUMBERED: &str = r#"
admin POST /desk/courses ONE,"moveOn":"Completed"}]} => 200 {"course":"http://c/1","edition":1} kept
draw 16 0
admin POST /desk/registrations {"course":"http://c/1","actor":ACTOR} => 200 {"registration":"ID10"} kept
admin POST /desk/courses ONE,"moveOn":"Completed"}]} => 200 {"course":"http://c/1","edition":1}
admin POST /desk/courses {"children":[{"moveOn":"Completed","url":"https://au.example/u","title":{"en":"U"},"id":"http://c/u","kind":"unit"}],"title":{"en":"C"},"id":"http://c/1"} => 200 {"course":"http://c/1","edition":1}
admin POST /desk/courses ONE,"moveOn":"Passed","masteryScore":0.8}]} => 200 {"course":"http://c/1","edition":2} kept
admin POST /desk/courses ONE,"moveOn":"Passed","masteryScore":0.80}]} => 200 {"course":"http://c/1","edition":2}
admin POST /desk/courses ONE,"masteryScore":8e-1,"moveOn":"Passed"}]} => 200 {"course":"http://c/1","edition":2}
// another id has numbers of its own, and what is no course has none
admin POST /desk/courses TWO}]} => 200 {"course":"http://c/2","edition":1} kept
admin POST /desk/courses {"id":"http://c/1","title":{"en":"C"},"children":[{"kind":"unit","id":"http://c/1","title":{"en":"U"},"url":"https://au.example/u"}]} => 400 {"error":"K6"}
// a course is changed back: this is a new edition, too
admin POST /desk/courses ONE,"moveOn":"Completed"}]} => 200 {"course":"http://c/1","edition":3} kept
admin POST /desk/courses ONE,"moveOn":"Passed","masteryScore":0.8}]} => 200 {"course":"http://c/1","edition":4} kept
admin POST /desk/courses ONE,"moveOn":"Passed","masteryScore":0.8}]} => 200 {"course":"http://c/1","edition":4}
// what a unit is without saying so, said
admin POST /desk/courses TWO,"moveOn":"NotApplicable"}]} => 200 {"course":"http://c/2","edition":2} kept
admin POST /desk/courses TWO,"moveOn":"NotApplicable"}]} => 200 {"course":"http://c/2","edition":2}
admin POST /desk/courses TWO}]} => 200 {"course":"http://c/2","edition":3} kept
admin POST /desk/courses TWO,"launchMethod":"AnyWindow"}]} => 200 {"course":"http://c/2","edition":4} kept
admin POST /desk/courses TWO,"launchMethod":"OwnWindow"}]} => 200 {"course":"http://c/2","edition":5} kept
// none is named, each one, one that only the other course has, and ones that none has
admin POST /desk/registrations {"course":"http://c/1","actor":ACTOR} => 200 {"registration":"ID11"} kept
admin POST /desk/registrations {"course":"http://c/1","actor":ACTOR,"edition":1} => 200 {"registration":"ID12"} kept
admin POST /desk/registrations {"course":"http://c/1","edition":2,"actor":ACTOR} => 200 {"registration":"ID13"} kept
admin POST /desk/registrations {"edition":3,"course":"http://c/1","actor":ACTOR} => 200 {"registration":"ID14"} kept
admin POST /desk/registrations {"course":"http://c/1","actor":ACTOR,"edition":4} => 200 {"registration":"ID15"} kept
admin POST /desk/registrations {"course":"http://c/1","actor":ACTOR,"edition":5} => 404 {"error":"404"}
admin POST /desk/registrations {"course":"http://c/1","actor":ACTOR,"edition":10} => 404 {"error":"404"}
admin POST /desk/registrations {"course":"http://c/1","actor":ACTOR,"edition":999999999} => 404 {"error":"404"}
admin POST /desk/registrations {"course":"http://c/3","actor":ACTOR,"edition":1} => 404 {"error":"404"}
draw 32 0
admin POST /desk/registrations {"course":"http://c/2","actor":ACTOR,"edition":5} => 200 {"registration":"ID20"} kept
admin POST /desk/registrations {"course":"http://c/2","actor":ACTOR,"edition":6} => 404 {"error":"404"}
admin GET /desk/registrations/ID10 => 200 {"registration":"ID10TOLD1OPEN
admin GET /desk/registrations/ID11 => 200 {"registration":"ID11TOLD4OPEN
admin GET /desk/registrations/ID12 => 200 {"registration":"ID12TOLD1OPEN
admin GET /desk/registrations/ID13 => 200 {"registration":"ID13TOLD2OPEN
admin GET /desk/registrations/ID14 => 200 {"registration":"ID14TOLD3OPEN
admin GET /desk/registrations/ID15 => 200 {"registration":"ID15TOLD4OPEN
admin GET /desk/registrations/ID20 => 200 {"registration":"ID20","course":"http://c/2","edition":5,"satisfied":true,"nodes":[{"id":"http://c/2","kind":"course","satisfied":true},{"id":"http://c/u","kind":"unit","satisfied":true}]}
"#;

#[test]
fn a_changed_course_is_a_new_edition(rt: HostRuntime) -> Result<(), Fail> {
    check_rows_with(rt.alloc(), &COURSES, NUMBERED)
}

// What is no edition's number: it is refused behind who asks and the other members, and before what isn't there.
const REFUSED: &str = r#"
sample
admin POST /desk/registrations {"course":"http://c/1","actor":ACTOR,"edition":0} => 400 {"error":"B10"}
admin POST /desk/registrations {"course":"http://c/1","actor":ACTOR,"edition":1.0} => 400 {"error":"B10"}
admin POST /desk/registrations {"course":"http://c/1","actor":ACTOR,"edition":1e0} => 400 {"error":"B10"}
admin POST /desk/registrations {"course":"http://c/1","actor":ACTOR,"edition":-1} => 400 {"error":"B10"}
admin POST /desk/registrations {"course":"http://c/1","actor":ACTOR,"edition":"1"} => 400 {"error":"B10"}
admin POST /desk/registrations {"course":"http://c/1","actor":ACTOR,"edition":null} => 400 {"error":"B10"}
admin POST /desk/registrations {"course":"http://c/1","actor":ACTOR,"edition":1000000000} => 400 {"error":"B10"}
admin POST /desk/registrations {"course":"http://c/1","actor":ACTOR,"edition":4294967297} => 400 {"error":"B10"}
admin POST /desk/registrations {"course":"http://c/1","actor":ACTOR,"edition":01} => 400 {"error":"J2"}
admin POST /desk/registrations {"course":"http://c/1","actor":ACTOR,"edition":1,"edition":1} => 400 {"error":"J3"}
admin POST /desk/registrations {"course":"http://c/1","actor":ACTOR,"editions":1} => 400 {"error":"B1"}
admin POST /desk/registrations {"actor":ACTOR,"edition":0} => 400 {"error":"B1"}
admin POST /desk/registrations {"course":"no","actor":ACTOR,"edition":0} => 400 {"error":"B8"}
admin POST /desk/registrations {"course":"no","actor":{"mbox":"mailto:a@b"},"edition":0} => 400 {"error":"B3"}
admin POST /desk/registrations {"course":"http://c/3","actor":ACTOR,"edition":0} => 400 {"error":"B10"}
admin POST /desk/registrations {"course":"http://c/3","actor":ACTOR,"edition":1} => 404 {"error":"404"}
nobody POST /desk/registrations {"course":"http://c/1","actor":ACTOR,"edition":0} => 401 {"error":"A1"}
TOKEN POST /desk/registrations {"course":"http://c/1","actor":ACTOR,"edition":0} => 403 {"error":"A2"}
admin GET /desk/registrations/ID50 => 404 {"error":"404"}
"#;

#[test]
fn what_is_no_number_names_no_edition(rt: HostRuntime) -> Result<(), Fail> {
    check_rows(rt.alloc(), REFUSED)
}

// Two editions of a course of two units: the second one asks for something else in the first unit, and has another one in
// place of the second. `TOLD` and an edition's number begin how far a learner has come, the course and its units follow.
// `SAYS_OLD` and `SAYS_NEW` are what the sessions of the first unit say. `OF_EDITION` and what follows it up to `AT_LAST`
// is what the store says of a satisfied course: of which edition among all, in which registration and session, by which id.
const SIDES: [(&str, &str); 18] = [
    (
        "FORMER",
        r#"HOLDING[UNITu","moveOn":"Passed","masteryScore":0.8},UNITv","moveOn":"Completed"}]}"#,
    ),
    (
        "CORRECTED",
        r#"HOLDING[UNITu","moveOn":"CompletedAndPassed","masteryScore":0.5},UNITw","moveOn":"Passed"}]}"#,
    ),
    (
        "HOLDING",
        r#"{"id":"http://c/1","title":{"en":"C"},"children":"#,
    ),
    (
        "UNIT",
        r#"{"kind":"unit","title":{"en":"U"},"url":"https://au.example/u","id":"http://c/"#,
    ),
    ("SAYS_OLD", r#"ABOUT1UNDER"ID10"GIVENuWITHIN"ID20"}}"#),
    (
        "SAYS_NEW",
        r#""actor":LEARNER,"object":{"id":"BASEactivities/1/1UNDER"ID60"GIVENuWITHIN"ID30"}}"#,
    ),
    (
        "PASSES",
        r#""verb":{"id":"VERB/passed"},"result":{"success":true,"score":{"scaled":"#,
    ),
    (
        "FAILS",
        r#""verb":{"id":"VERB/failed"},"result":{"success":false,"score":{"scaled":"#,
    ),
    (
        "COURSE",
        r#"{"id":"http://c/1","kind":"course","satisfied":"#,
    ),
    ("U?", r#"},{"id":"http://c/u","kind":"unit","satisfied":"#),
    ("V?", r#"},{"id":"http://c/v","kind":"unit","satisfied":"#),
    ("W?", r#"},{"id":"http://c/w","kind":"unit","satisfied":"#),
    ("TOLD", r#"","course":"http://c/1","edition":"#),
    (
        "OF_EDITION",
        r#"{"actor":LEARNER,"verb":{"id":"ADL/satisfied"},"object":{"objectType":"Activity","id":"BASEactivities/"#,
    ),
    ("IN_WAY", r#"/0"},"context":{"registration":"ID"#),
    (
        "BY_ID",
        r#"","contextActivities":{"grouping":[{"objectType":"Activity","id":"http://c/1"}],"category":[{"objectType":"Activity","id":"CMI5"}]},"extensions":{"https://w3id.org/xapi/cmi5/context/extensions/sessionid":"ID"#,
    ),
    ("AS_ID", r#""}},"id":"ID"#),
    (
        "AT_LAST",
        r#"","timestamp":"2023-11-14T22:13:20.000Z","stored":"2023-11-14T22:13:20.000Z","authority":{"objectType":"Agent","account":{"homePage":"https://lrs.invalid/callers","name":"desk"}},"version":"1.0.0"}"#,
    ),
];

const SIDE_BY_SIDE: &str = r#"
draw 0 0
admin POST /desk/courses FORMER => 200 {"course":"http://c/1","edition":1} kept
draw 16 0
admin POST /desk/registrations {"course":"http://c/1","actor":ACTOR} => 200 {"registration":"ID10"} kept
admin POST /desk/courses CORRECTED => 200 {"course":"http://c/1","edition":2} kept
draw 96 0
admin POST /desk/registrations {"course":"http://c/1","actor":ACTOR} => 200 {"registration":"ID60"} kept
draw 112 0
admin POST /desk/registrations {"course":"http://c/1","actor":ACTOR,"edition":1} => 200 {"registration":"ID70"} kept
// each has the units of its own edition alone
admin POST /desk/registrations/ID10/launches {"unit":"http://c/w"} => 404 {"error":"404"}
admin POST /desk/registrations/ID60/launches {"unit":"http://c/v"} => 404 {"error":"404"}
admin POST /desk/registrations/ID70/launches {"unit":"http://c/w"} => 404 {"error":"404"}
admin POST /desk/registrations/ID10/waive {"unit":"http://c/w","reason":"Administrative"} => 404 {"error":"404"}
admin POST /desk/registrations/ID60/waive {"unit":"http://c/v","reason":"Administrative"} => 404 {"error":"404"}
draw 32 1
admin POST /desk/registrations/ID10/launches {"unit":"http://c/u"} => 200 {"session":"ID20","launchMethod":"AnyWindow","url":"ADDRESSZEROS1-6WHOSEID10WHICH0%2F1"} kept
draw 48 2
admin POST /desk/registrations/ID60/launches {"unit":"http://c/u"} => 200 {"session":"ID30","launchMethod":"AnyWindow","url":"ADDRESSZEROS2-7WHOSEID60WHICH1%2F1"} kept
admin GET /xapi/activities/state?activityId=BASEactivities/0/1&agent=AGENT&registration=ID10&stateId=LMS.LaunchData => 200 application/json {"contextTemplate":{"contextActivities":{"grouping":[{"objectType":"Activity","id":"http://c/u"}]},"extensions":{"https://w3id.org/xapi/cmi5/context/extensions/sessionid":"ID20"}},"launchMode":"Normal","moveOn":"Passed","masteryScore":0.8}
admin GET /xapi/activities/state?activityId=BASEactivities/1/1&agent=AGENT&registration=ID60&stateId=LMS.LaunchData => 200 application/json {"contextTemplate":{"contextActivities":{"grouping":[{"objectType":"Activity","id":"http://c/u"}]},"extensions":{"https://w3id.org/xapi/cmi5/context/extensions/sessionid":"ID30"}},"launchMode":"Normal","moveOn":"CompletedAndPassed","masteryScore":0.5}
admin GET /xapi/activities/state?activityId=BASEactivities/0/1&agent=AGENT&registration=ID60&stateId=LMS.LaunchData => 404 {"error":"404"}
draw 0 3
nobody POST /fetch/ZEROS1-6 => 200 {"auth-token":"ZEROS3-8"} kept
draw 0 4
nobody POST /fetch/ZEROS2-7 => 200 {"auth-token":"ZEROS4-9"} kept
// each is judged by its own edition: the score that is enough, and what satisfies the unit
draw 64 0
ZEROS3-8 POST /xapi/statements [{INITIALIZED,SAYS_OLD},{PASSES0.6}},SAYS_OLD}] => 403 {"error":"C18"}
ZEROS3-8 POST /xapi/statements [{INITIALIZED,SAYS_OLD},{FAILS0.6}},SAYS_OLD},{PASSES0.9}},SAYS_OLD}] => 200 ["ID40","ID41","ID42"] kept
draw 80 0
ZEROS4-9 POST /xapi/statements [{INITIALIZED,SAYS_NEW},{FAILS0.6}},SAYS_NEW}] => 403 {"error":"C18"}
ZEROS4-9 POST /xapi/statements [{INITIALIZED,SAYS_NEW},{PASSES0.6}},SAYS_NEW}] => 200 ["ID50","ID51"] kept
admin GET /desk/registrations/ID10 => 200 {"registration":"ID10TOLD1,"satisfied":false,"nodes":[COURSEfalseU?trueV?false}]}
admin GET /desk/registrations/ID60 => 200 {"registration":"ID60TOLD2,"satisfied":false,"nodes":[COURSEfalseU?falseW?false}]}
draw 128 0
ZEROS4-9 POST /xapi/statements {COMPLETED,SAYS_NEW} => 200 ["ID80"] kept
admin GET /desk/registrations/ID60 => 200 {"registration":"ID60TOLD2,"satisfied":false,"nodes":[COURSEfalseU?trueW?false}]}
draw 144 0
admin POST /desk/registrations/ID60/waive {"unit":"http://c/w","reason":"Administrative"} => 204 kept
admin GET /xapi/statements?statementId=ID92&format=ids => 200 OF_EDITION1IN_WAY60BY_ID90AS_ID92AT_LAST
draw 160 0
admin POST /desk/registrations/ID70/waive {"unit":"http://c/v","reason":"Administrative"} => 204 kept
// the course is changed back: what was reached in the first edition isn't reached in the third
admin POST /desk/courses FORMER => 200 {"course":"http://c/1","edition":3} kept
draw 176 0
admin POST /desk/registrations {"course":"http://c/1","actor":ACTOR} => 200 {"registration":"IDb0"} kept
draw 192 5
admin POST /desk/registrations/ID10/launches {"unit":"http://c/v"} => 200 {"session":"IDc0","launchMethod":"AnyWindow","url":"ADDRESSZEROS5-17WHOSEID10WHICH0%2F2"} kept
draw 208 6
admin POST /desk/registrations/IDb0/launches {"unit":"http://c/v"} => 200 {"session":"IDd0","launchMethod":"AnyWindow","url":"ADDRESSZEROS6-18WHOSEIDb0WHICH2%2F2"} kept
"#;

// The same before and behind an opening.
const STANDINGS: &str = r#"
admin GET /desk/registrations/ID10 => 200 {"registration":"ID10TOLD1,"satisfied":false,"nodes":[COURSEfalseU?trueV?false}]}
admin GET /desk/registrations/ID60 => 200 {"registration":"ID60TOLD2,"satisfied":true,"nodes":[COURSEtrueU?trueW?true}]}
admin GET /desk/registrations/ID70 => 200 {"registration":"ID70TOLD1,"satisfied":false,"nodes":[COURSEfalseU?falseV?true}]}
admin GET /desk/registrations/IDb0 => 200 {"registration":"IDb0TOLD3,"satisfied":false,"nodes":[COURSEfalseU?falseV?false}]}
admin POST /desk/courses FORMER => 200 {"course":"http://c/1","edition":3}
draw 224 0
admin POST /desk/registrations {"course":"http://c/1","actor":ACTOR,"edition":4} => 404 {"error":"404"}
admin POST /desk/registrations {"course":"http://c/1","actor":ACTOR,"edition":2} => 200 {"registration":"IDe0"} kept
admin GET /desk/registrations/IDe0 => 200 {"registration":"IDe0TOLD2,"satisfied":false,"nodes":[COURSEfalseU?falseW?false}]}
admin POST /desk/courses CORRECTED => 200 {"course":"http://c/1","edition":4} kept
admin POST /desk/registrations {"course":"http://c/1","actor":ACTOR} => 200 {"registration":"IDe1"} kept
admin GET /desk/registrations/IDe1 => 200 {"registration":"IDe1TOLD4,"satisfied":false,"nodes":[COURSEfalseU?falseW?false}]}
// each learner is told once to have satisfied the course, in the own edition
draw 240 0
admin POST /desk/registrations/ID60/waive {"unit":"http://c/u","reason":"Administrative"} => 204 kept
admin POST /desk/registrations/ID10/waive {"unit":"http://c/v","reason":"Administrative"} => 204 kept
admin POST /desk/registrations/ID10/waive {"unit":"http://c/u","reason":"Administrative"} => 204 kept
admin GET /xapi/statements?verb=ADL/satisfied&format=ids&ascending=true => 200 {"statements":[OF_EDITION1IN_WAY60BY_ID90AS_ID92AT_LAST,OF_EDITION0IN_WAY10BY_IDf2AS_IDf4AT_LAST],"more":""}
"#;

#[test]
fn learners_stay_in_their_editions(rt: HostRuntime) -> Result<(), Fail> {
    let alloc = rt.alloc();
    let mut rows = String::from_str(alloc, SIDE_BY_SIDE)?;
    rows.push_str(STANDINGS)?;
    check_rows_with(alloc, &SIDES, rows.as_str())
}

#[test]
fn editions_are_the_same_behind_an_opening(rt: HostRuntime) -> Result<(), Fail> {
    check_reopened_with(rt.alloc(), &SIDES, SIDE_BY_SIDE, STANDINGS)
}

// The second edition has a unit more than the first, the third one less.
const MORE_AND_LESS: &str = r#"
draw 0 0
admin POST /desk/courses HOLDING[UNITu","moveOn":"Passed"}]} => 200 {"course":"http://c/1","edition":1} kept
draw 16 0
admin POST /desk/registrations {"course":"http://c/1","actor":ACTOR} => 200 {"registration":"ID10"} kept
admin POST /desk/courses HOLDING[UNITu","moveOn":"Passed"},UNITv","moveOn":"Passed"}]} => 200 {"course":"http://c/1","edition":2} kept
draw 32 0
admin POST /desk/registrations {"course":"http://c/1","actor":ACTOR} => 200 {"registration":"ID20"} kept
admin POST /desk/courses HOLDING[UNITv","moveOn":"Passed"}]} => 200 {"course":"http://c/1","edition":3} kept
draw 48 0
admin POST /desk/registrations {"course":"http://c/1","actor":ACTOR} => 200 {"registration":"ID30"} kept
admin GET /desk/registrations/ID10 => 200 {"registration":"ID10TOLD1,"satisfied":false,"nodes":[COURSEfalseU?false}]}
admin GET /desk/registrations/ID20 => 200 {"registration":"ID20TOLD2,"satisfied":false,"nodes":[COURSEfalseU?falseV?false}]}
admin GET /desk/registrations/ID30 => 200 {"registration":"ID30TOLD3,"satisfied":false,"nodes":[COURSEfalseV?false}]}
admin POST /desk/registrations/ID10/launches {"unit":"http://c/v"} => 404 {"error":"404"}
admin POST /desk/registrations/ID10/waive {"unit":"http://c/v","reason":"Administrative"} => 404 {"error":"404"}
admin POST /desk/registrations/ID30/launches {"unit":"http://c/u"} => 404 {"error":"404"}
admin POST /desk/registrations/ID30/waive {"unit":"http://c/u","reason":"Administrative"} => 404 {"error":"404"}
// a unit has another place in each edition
draw 64 1
admin POST /desk/registrations/ID20/launches {"unit":"http://c/v"} => 200 {"session":"ID40","launchMethod":"AnyWindow","url":"ADDRESSZEROS1-7WHOSEID20WHICH1%2F2"} kept
draw 80 2
admin POST /desk/registrations/ID30/launches {"unit":"http://c/v"} => 200 {"session":"ID50","launchMethod":"AnyWindow","url":"ADDRESSZEROS2-8WHOSEID30WHICH2%2F1"} kept
draw 96 3
admin POST /desk/registrations/ID10/launches {"unit":"http://c/u"} => 200 {"session":"ID60","launchMethod":"AnyWindow","url":"ADDRESSZEROS3-9WHOSEID10WHICH0%2F1"} kept
// the unit that is left out, or comes later, isn't asked for
draw 112 0
admin POST /desk/registrations/ID10/waive {"unit":"http://c/u","reason":"Administrative"} => 204 kept
draw 128 0
admin POST /desk/registrations/ID20/waive {"unit":"http://c/v","reason":"Administrative"} => 204 kept
draw 144 0
admin POST /desk/registrations/ID30/waive {"unit":"http://c/v","reason":"Administrative"} => 204 kept
admin GET /desk/registrations/ID10 => 200 {"registration":"ID10TOLD1,"satisfied":true,"nodes":[COURSEtrueU?true}]}
admin GET /desk/registrations/ID20 => 200 {"registration":"ID20TOLD2,"satisfied":false,"nodes":[COURSEfalseU?falseV?true}]}
admin GET /desk/registrations/ID30 => 200 {"registration":"ID30TOLD3,"satisfied":true,"nodes":[COURSEtrueV?true}]}
admin GET /xapi/statements?verb=ADL/satisfied&format=ids&ascending=true => 200 {"statements":[OF_EDITION0IN_WAY10BY_ID70AS_ID72AT_LAST,OF_EDITION2IN_WAY30BY_ID90AS_ID92AT_LAST],"more":""}
"#;

#[test]
fn an_edition_has_its_own_units(rt: HostRuntime) -> Result<(), Fail> {
    check_rows_with(rt.alloc(), &SIDES, MORE_AND_LESS)
}

// A course that asks for nothing, and then for something.
const ASKING: [(&str, &str); 4] = [
    (
        "PLAIN",
        r#"{"id":"http://c/2","title":{"en":"C"},"children":[{"kind":"unit","id":"http://c/2/u","title":{"en":"U"},"url":"https://au.example/u""#,
    ),
    ("TOLD", r#"","course":"http://c/2","edition":"#),
    (
        "COURSE",
        r#"{"id":"http://c/2","kind":"course","satisfied":"#,
    ),
    ("U?", r#"},{"id":"http://c/2/u","kind":"unit","satisfied":"#),
];

const ASKED_FOR: &str = r#"
draw 16 0
admin POST /desk/courses PLAIN}]} => 200 {"course":"http://c/2","edition":1} kept
admin POST /desk/registrations {"course":"http://c/2","actor":ACTOR} => 200 {"registration":"ID10"} kept
admin POST /desk/courses PLAIN,"moveOn":"Passed"}]} => 200 {"course":"http://c/2","edition":2} kept
admin POST /desk/courses PLAIN,"moveOn":"Passed"}]} => 200 {"course":"http://c/2","edition":2}
admin GET /desk/registrations/ID10 => 200 {"registration":"ID10TOLD1,"satisfied":true,"nodes":[COURSEtrueU?true}]}
draw 32 0
admin POST /desk/registrations {"course":"http://c/2","actor":ACTOR} => 200 {"registration":"ID20"} kept
admin GET /desk/registrations/ID20 => 200 {"registration":"ID20TOLD2,"satisfied":false,"nodes":[COURSEfalseU?false}]}
draw 48 0
admin POST /desk/registrations {"course":"http://c/2","actor":ACTOR,"edition":1} => 200 {"registration":"ID30"} kept
admin POST /desk/registrations {"course":"http://c/2","actor":ACTOR,"edition":3} => 404 {"error":"404"}
"#;

const AS_ASKED_FOR: &str = r#"
admin GET /desk/registrations/ID10 => 200 {"registration":"ID10TOLD1,"satisfied":true,"nodes":[COURSEtrueU?true}]}
admin GET /desk/registrations/ID20 => 200 {"registration":"ID20TOLD2,"satisfied":false,"nodes":[COURSEfalseU?false}]}
admin GET /desk/registrations/ID30 => 200 {"registration":"ID30TOLD1,"satisfied":true,"nodes":[COURSEtrueU?true}]}
admin POST /desk/registrations {"course":"http://c/2","actor":ACTOR,"edition":3} => 404 {"error":"404"}
admin POST /desk/courses PLAIN,"moveOn":"Passed"}]} => 200 {"course":"http://c/2","edition":2}
"#;

#[test]
fn who_is_enrolled_keeps_what_was_asked(rt: HostRuntime) -> Result<(), Fail> {
    check_reopened_with(rt.alloc(), &ASKING, ASKED_FOR, AS_ASKED_FOR)
}

const MANY: u32 = 1_000;

// So many editions of one course, and at every hundredth one a course of its own.
fn many(alloc: Global) -> Result<String, Fail> {
    let mut rows = String::new(alloc);
    for i in 1..=MANY {
        let row = format!(in alloc;
            "admin POST /desk/courses {{\"id\":\"http://c/1\",\"title\":{{\"en\":\"{i}\"}},\"children\":[UNIT,\"moveOn\":\"Passed\"}}]}} => 200 {{\"course\":\"http://c/1\",\"edition\":{i}}} kept\n"
        )?;
        rows.push_str(row.as_str())?;
        if i % 100 == 0 {
            let row = format!(in alloc;
                "admin POST /desk/courses {{\"id\":\"http://d/{i}\",\"title\":{{\"en\":\"D\"}},\"children\":[UNIT}}]}} => 200 {{\"course\":\"http://d/{i}\",\"edition\":1}} kept\n"
            )?;
            rows.push_str(row.as_str())?;
        }
    }
    Ok(rows)
}

const OF_MANY: &str = r#"
draw 16 0
admin POST /desk/registrations {"course":"http://c/1","actor":ACTOR} => 200 {"registration":"ID10"} kept
admin POST /desk/registrations {"course":"http://c/1","actor":ACTOR,"edition":1} => 200 {"registration":"ID11"} kept
admin POST /desk/registrations {"course":"http://c/1","actor":ACTOR,"edition":500} => 200 {"registration":"ID12"} kept
// the 500th edition is the one of that number among all, behind four other courses
draw 32 1
admin POST /desk/registrations/ID12/launches {"unit":"http://c/u"} => 200 {"session":"ID20","launchMethod":"AnyWindow","url":"ADDRESSZEROS1-1014WHOSEID12WHICH503%2F1"} kept
"#;

const AS_MANY: &str = r#"
draw 48 2
admin POST /desk/registrations {"course":"http://c/1","actor":ACTOR,"edition":1000} => 200 {"registration":"ID30"} kept
admin POST /desk/registrations {"course":"http://d/500","actor":ACTOR} => 200 {"registration":"ID31"} kept
admin POST /desk/registrations {"course":"http://c/1","actor":ACTOR,"edition":1001} => 404 {"error":"404"}
admin POST /desk/registrations {"course":"http://d/500","actor":ACTOR,"edition":2} => 404 {"error":"404"}
admin GET /desk/registrations/ID10 => 200 {"registration":"ID10TOLD1000OPEN
admin GET /desk/registrations/ID11 => 200 {"registration":"ID11TOLD1OPEN
admin GET /desk/registrations/ID12 => 200 {"registration":"ID12TOLD500OPEN
admin GET /desk/registrations/ID30 => 200 {"registration":"ID30TOLD1000OPEN
draw 64 3
admin POST /desk/registrations/ID30/launches {"unit":"http://c/u"} => 200 {"session":"ID40","launchMethod":"AnyWindow","url":"ADDRESSZEROS3-1017WHOSEID30WHICH1008%2F1"} kept
admin POST /desk/courses {"id":"http://c/1","title":{"en":"1000"},"children":[UNIT,"moveOn":"Passed"}]} => 200 {"course":"http://c/1","edition":1000}
admin POST /desk/courses {"id":"http://c/1","title":{"en":"1"},"children":[UNIT,"moveOn":"Passed"}]} => 200 {"course":"http://c/1","edition":1001} kept
"#;

#[test]
fn a_course_has_a_thousand_editions(rt: HostRuntime) -> Result<(), Fail> {
    let alloc = rt.alloc();
    let mut rows = many(alloc)?;
    rows.push_str(OF_MANY)?;
    check_reopened_with(alloc, &COURSES, rows.as_str(), AS_MANY)
}
