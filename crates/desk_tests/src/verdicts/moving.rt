// Which units are met, by the five words of `moveOn`.
use crate::rows::check_rows_with;
use std::alloc::Global;
use std::test::Fail;

// A course of five units, one for each word: none given, Passed, Completed, both, either. `SAYS_P` is what the session of
// the second one says, `PASSER` its token, and so on; the first one's is `FREE`. `TOLD` and what follows it is how far the
// learner has come.
const WORDS: [(&str, &str); 19] = [
    (
        "COURSE",
        r#"{"id":"http://c/1","title":{"en":"C"},"children":[UNITn"},UNITp","moveOn":"Passed"},UNITc","moveOn":"Completed"},UNITb","moveOn":"CompletedAndPassed"},UNITe","moveOn":"CompletedOrPassed"}]}"#,
    ),
    (
        "UNIT",
        r#"{"kind":"unit","title":{"en":"U"},"url":"https://au.example/u","id":"http://c/"#,
    ),
    ("SAYS_N", r#"ABOUT1UNDER"ID10"GIVENnWITHIN"ID60"}}"#),
    ("SAYS_P", r#"ABOUT2UNDER"ID10"GIVENpWITHIN"ID20"}}"#),
    ("SAYS_C", r#"ABOUT3UNDER"ID10"GIVENcWITHIN"ID30"}}"#),
    ("SAYS_B", r#"ABOUT4UNDER"ID10"GIVENbWITHIN"ID40"}}"#),
    ("SAYS_E", r#"ABOUT5UNDER"ID10"GIVENeWITHIN"ID50"}}"#),
    ("PASSER", "ZEROS2-4"),
    ("COMPLETER", "ZEROS4-6"),
    ("BOTH", "ZEROS6-8"),
    ("EITHER", "ZEROS8-10"),
    ("FREE", "ZEROSa-12"),
    (
        "TOLD",
        r#"{"registration":"ID10","course":"http://c/1","edition":1,"satisfied":"#,
    ),
    (
        "NODES",
        r#","nodes":[{"id":"http://c/1","kind":"course","satisfied":"#,
    ),
    ("N?", r#"},{"id":"http://c/n","kind":"unit","satisfied":"#),
    ("P?", r#"},{"id":"http://c/p","kind":"unit","satisfied":"#),
    ("C?", r#"},{"id":"http://c/c","kind":"unit","satisfied":"#),
    ("B?", r#"},{"id":"http://c/b","kind":"unit","satisfied":"#),
    ("E?", r#"},{"id":"http://c/e","kind":"unit","satisfied":"#),
];

// Each unit behind nothing, behind completed, behind passed, and behind both. Each is voided and said again. The first,
// which asks for nothing, is met all along. The course is told to be satisfied once.
const SAID: &str = r#"
draw 0 0
admin POST /desk/courses COURSE => 200 {"course":"http://c/1","edition":1} kept
draw 16 0
admin POST /desk/registrations {"course":"http://c/1","actor":ACTOR} => 200 {"registration":"ID10"} kept
draw 32 1
admin POST /desk/registrations/ID10/launches {"unit":"http://c/p"} => 200 {"session":"ID20","launchMethod":"AnyWindow","url":"ADDRESSZEROS1-3WHOSEID10WHICH0%2F2"} kept
draw 0 2
nobody POST /fetch/ZEROS1-3 => 200 {"auth-token":"PASSER"} kept
draw 48 3
admin POST /desk/registrations/ID10/launches {"unit":"http://c/c"} => 200 {"session":"ID30","launchMethod":"AnyWindow","url":"ADDRESSZEROS3-5WHOSEID10WHICH0%2F3"} kept
draw 0 4
nobody POST /fetch/ZEROS3-5 => 200 {"auth-token":"COMPLETER"} kept
draw 64 5
admin POST /desk/registrations/ID10/launches {"unit":"http://c/b"} => 200 {"session":"ID40","launchMethod":"AnyWindow","url":"ADDRESSZEROS5-7WHOSEID10WHICH0%2F4"} kept
draw 0 6
nobody POST /fetch/ZEROS5-7 => 200 {"auth-token":"BOTH"} kept
draw 80 7
admin POST /desk/registrations/ID10/launches {"unit":"http://c/e"} => 200 {"session":"ID50","launchMethod":"AnyWindow","url":"ADDRESSZEROS7-9WHOSEID10WHICH0%2F5"} kept
draw 0 8
nobody POST /fetch/ZEROS7-9 => 200 {"auth-token":"EITHER"} kept
draw 96 9
admin POST /desk/registrations/ID10/launches {"unit":"http://c/n"} => 200 {"session":"ID60","launchMethod":"AnyWindow","url":"ADDRESSZEROS9-11WHOSEID10WHICH0%2F1"} kept
draw 0 10
nobody POST /fetch/ZEROS9-11 => 200 {"auth-token":"FREE"} kept
admin GET /desk/registrations/ID10 => 200 TOLDfalseNODESfalseN?trueP?falseC?falseB?falseE?false}]}
// completed
draw 112 0
PASSER POST /xapi/statements [{INITIALIZED,SAYS_P},{COMPLETED,SAYS_P}] => 200 ["ID70","ID71"] kept
COMPLETER POST /xapi/statements [{INITIALIZED,SAYS_C},{COMPLETED,SAYS_C}] => 200 ["ID72","ID73"] kept
BOTH POST /xapi/statements [{INITIALIZED,SAYS_B},{COMPLETED,SAYS_B}] => 200 ["ID74","ID75"] kept
EITHER POST /xapi/statements [{INITIALIZED,SAYS_E},{COMPLETED,SAYS_E}] => 200 ["ID76","ID77"] kept
FREE POST /xapi/statements [{INITIALIZED,SAYS_N},{COMPLETED,SAYS_N}] => 200 ["ID78","ID79"] kept
admin GET /desk/registrations/ID10 => 200 TOLDfalseNODESfalseN?trueP?falseC?trueB?falseE?true}]}
// voided
admin POST /xapi/statements [VOIDS"ID71"}},VOIDS"ID73"}},VOIDS"ID75"}},VOIDS"ID77"}},VOIDS"ID79"}}] => 200 ["ID7a","ID7b","ID7c","ID7d","ID7e"] kept
admin GET /desk/registrations/ID10 => 200 TOLDfalseNODESfalseN?trueP?falseC?falseB?falseE?false}]}
// passed
PASSER POST /xapi/statements {PASSED,SAYS_P} => 200 ["ID7f"] kept
COMPLETER POST /xapi/statements {PASSED,SAYS_C} => 200 ["ID80"] kept
BOTH POST /xapi/statements {PASSED,SAYS_B} => 200 ["ID81"] kept
EITHER POST /xapi/statements {PASSED,SAYS_E} => 200 ["ID82"] kept
FREE POST /xapi/statements {PASSED,SAYS_N} => 200 ["ID83"] kept
admin GET /desk/registrations/ID10 => 200 TOLDfalseNODESfalseN?trueP?trueC?falseB?falseE?true}]}
// completed again: the last one satisfies the course
PASSER POST /xapi/statements {COMPLETED,SAYS_P} => 200 ["ID84"] kept
COMPLETER POST /xapi/statements {COMPLETED,SAYS_C} => 200 ["ID85"] kept
EITHER POST /xapi/statements {COMPLETED,SAYS_E} => 200 ["ID86"] kept
FREE POST /xapi/statements {COMPLETED,SAYS_N} => 200 ["ID87"] kept
admin GET /desk/registrations/ID10 => 200 TOLDfalseNODESfalseN?trueP?trueC?trueB?falseE?true}]}
admin GET /xapi/statements?verb=ADL/satisfied => 200 {"statements":[],"more":""}
BOTH POST /xapi/statements {COMPLETED,SAYS_B} => 200 ["ID88"] kept
admin GET /desk/registrations/ID10 => 200 TOLDtrueNODEStrueN?trueP?trueC?trueB?trueE?true}]}
// passed voided, and said again: what the store said it says no more
admin POST /xapi/statements [VOIDS"ID7f"}},VOIDS"ID80"}},VOIDS"ID81"}},VOIDS"ID82"}},VOIDS"ID83"}}] => 200 ["ID8a","ID8b","ID8c","ID8d","ID8e"] kept
admin GET /desk/registrations/ID10 => 200 TOLDfalseNODESfalseN?trueP?falseC?trueB?falseE?true}]}
PASSER POST /xapi/statements {PASSED,SAYS_P} => 200 ["ID8f"] kept
COMPLETER POST /xapi/statements {PASSED,SAYS_C} => 200 ["ID90"] kept
EITHER POST /xapi/statements {PASSED,SAYS_E} => 200 ["ID91"] kept
FREE POST /xapi/statements {PASSED,SAYS_N} => 200 ["ID92"] kept
admin GET /desk/registrations/ID10 => 200 TOLDfalseNODESfalseN?trueP?trueC?trueB?falseE?true}]}
BOTH POST /xapi/statements {PASSED,SAYS_B} => 200 ["ID93"] kept
admin GET /desk/registrations/ID10 => 200 TOLDtrueNODEStrueN?trueP?trueC?trueB?trueE?true}]}
admin GET /xapi/statements?verb=ADL/satisfied&format=ids => 200 {"statements":[{"actor":LEARNER,"verb":{"id":"ADL/satisfied"},"object":{"objectType":"Activity","id":"BASEactivities/0/0"},"context":{"registration":"ID10","contextActivities":{"grouping":[{"objectType":"Activity","id":"http://c/1"}],"category":[{"objectType":"Activity","id":"CMI5"}]},"extensions":{"https://w3id.org/xapi/cmi5/context/extensions/sessionid":"ID40"}},"id":"ID89","timestamp":"2023-11-14T22:13:20.000Z","stored":"2023-11-14T22:13:20.000Z","authority":{"objectType":"Agent","account":{"homePage":"https://lrs.invalid/callers","name":"desk"}},"version":"1.0.0"}],"more":""}
"#;

#[test]
fn a_unit_is_met_by_what_its_sessions_say(rt: HostRuntime) -> Result<(), Fail> {
    check_rows_with(rt.alloc(), &WORDS, SAID)
}

// A failed meets nothing, nor does a passed without the category of cmi5.
const UNMET: &str = r#"
draw 0 0
admin POST /desk/courses COURSE => 200 {"course":"http://c/1","edition":1} kept
draw 16 0
admin POST /desk/registrations {"course":"http://c/1","actor":ACTOR} => 200 {"registration":"ID10"} kept
draw 32 1
admin POST /desk/registrations/ID10/launches {"unit":"http://c/p"} => 200 {"session":"ID20","launchMethod":"AnyWindow","url":"ADDRESSZEROS1-3WHOSEID10WHICH0%2F2"} kept
draw 0 2
nobody POST /fetch/ZEROS1-3 => 200 {"auth-token":"PASSER"} kept
draw 96 0
PASSER POST /xapi/statements [{INITIALIZED,SAYS_P},{"verb":{"id":"VERB/failed"},"result":{"success":false},SAYS_P},{PASSED,"actor":LEARNER,"object":{"id":"BASEactivities/0/2"},"context":{"registration":"ID10"}}] => 200 ["ID60","ID61","ID62"] kept
admin POST /xapi/statements {PASSED,"actor":LEARNER,"object":{"id":"BASEactivities/0/2"},"context":{"registration":"ID10"}} => 200 ["ID63"] kept
PASSER POST /xapi/statements {TERMINATED,SAYS_P} => 200 ["ID64"] kept
admin GET /desk/registrations/ID10 => 200 TOLDfalseNODESfalseN?trueP?falseC?falseB?falseE?false}]}
"#;

#[test]
fn nothing_else_meets_a_unit(rt: HostRuntime) -> Result<(), Fail> {
    check_rows_with(rt.alloc(), &WORDS, UNMET)
}

// A waiver in place of each. That of the first unit, which is met already, is taken, too.
const WAIVED: &str = r#"
draw 0 0
admin POST /desk/courses COURSE => 200 {"course":"http://c/1","edition":1} kept
draw 16 0
admin POST /desk/registrations {"course":"http://c/1","actor":ACTOR} => 200 {"registration":"ID10"} kept
draw 32 0
admin POST /desk/registrations/ID10/waive {"unit":"http://c/n","reason":"Administrative"} => 204 kept
admin GET /desk/registrations/ID10 => 200 TOLDfalseNODESfalseN?trueP?falseC?falseB?falseE?false}]}
admin POST /desk/registrations/ID10/waive {"unit":"http://c/p","reason":"Administrative"} => 204 kept
admin GET /desk/registrations/ID10 => 200 TOLDfalseNODESfalseN?trueP?trueC?falseB?falseE?false}]}
admin POST /desk/registrations/ID10/waive {"unit":"http://c/c","reason":"Administrative"} => 204 kept
admin GET /desk/registrations/ID10 => 200 TOLDfalseNODESfalseN?trueP?trueC?trueB?falseE?false}]}
admin POST /desk/registrations/ID10/waive {"unit":"http://c/b","reason":"Administrative"} => 204 kept
admin GET /desk/registrations/ID10 => 200 TOLDfalseNODESfalseN?trueP?trueC?trueB?trueE?false}]}
admin POST /desk/registrations/ID10/waive {"unit":"http://c/e","reason":"Administrative"} => 204 kept
admin GET /desk/registrations/ID10 => 200 TOLDtrueNODEStrueN?trueP?trueC?trueB?trueE?true}]}
// each took two ids, and the last one a third
admin GET /xapi/statements?statementId=ID2a&format=ids => 200 {"actor":LEARNER,"verb":{"id":"ADL/satisfied"},"object":{"objectType":"Activity","id":"BASEactivities/0/0"},"context":{"registration":"ID10","contextActivities":{"grouping":[{"objectType":"Activity","id":"http://c/1"}],"category":[{"objectType":"Activity","id":"CMI5"}]},"extensions":{"https://w3id.org/xapi/cmi5/context/extensions/sessionid":"ID28"}},"id":"ID2a","timestamp":"2023-11-14T22:13:20.000Z","stored":"2023-11-14T22:13:20.000Z","authority":{"objectType":"Agent","account":{"homePage":"https://lrs.invalid/callers","name":"desk"}},"version":"1.0.0"}
// behind its voided waiver a unit is open, but for the first
admin POST /xapi/statements [VOIDS"ID21"}},VOIDS"ID23"}}] => 200 ["ID2b","ID2c"] kept
admin GET /desk/registrations/ID10 => 200 TOLDfalseNODESfalseN?trueP?falseC?trueB?trueE?true}]}
"#;

#[test]
fn a_waiver_meets_each_unit(rt: HostRuntime) -> Result<(), Fail> {
    check_rows_with(rt.alloc(), &WORDS, WAIVED)
}
