// Courses and enrolments.
use crate::rows::check_rows;
use std::alloc::Global;
use std::test::Fail;

// A course of two nodes, taken up once, then another edition of it, and courses under another id.
const TAKEN: &str = r#"
admin POST /desk/courses {"id":"http://c/1","title":{"en":"C"},"children":[{"kind":"unit","id":"http://c/u","title":{"en":"U"},"url":"https://au.example/u"}]} => 200 {"course":"http://c/1","edition":1} kept
admin POST /desk/courses {"title":{"en":"C"},"id":"http://c/1","children":[{"kind":"unit","title":{"en":"U"},"id":"http://c/u","url":"https://au.example/u"}]} => 200 {"course":"http://c/1","edition":1}
admin POST /desk/courses {"id":"http://c/1","title":{"en":"D"},"children":[{"kind":"unit","id":"http://c/u","title":{"en":"U"},"url":"https://au.example/u"}]} => 200 {"course":"http://c/1","edition":2} kept
admin POST /desk/courses {"id":"http://c/2","title":{"en":"C"},"children":[{"kind":"unit","id":"http://c/2","title":{"en":"U"},"url":"https://au.example/u"}]} => 400 {"error":"K6"}
admin POST /desk/courses {"id":"http://c/2","title":{"en":"C"},"children":[{"kind":"unit","id":"http://c/u","title":{"en":"U"},"url":"https://au.example/u","masteryScore":0.50}]} => 200 {"course":"http://c/2","edition":1} kept
admin POST /desk/courses {"id":"http://c/2","title":{"en":"C"},"children":[{"kind":"unit","id":"http://c/u","title":{"en":"U"},"url":"https://au.example/u","masteryScore":5e-1}]} => 200 {"course":"http://c/2","edition":1}
admin POST /desk/courses {"id":"http://c/2","title":{"en":"C"},"children":[{"kind":"unit","id":"http://c/u","title":{"en":"U"},"url":"https://au.example/u","masteryScore":0.51}]} => 200 {"course":"http://c/2","edition":2} kept
// what is no course, and no JSON
admin POST /desk/courses [] => 400 {"error":"K1"}
admin POST /desk/courses {"id":"c","title":{},"children":[]} => 400 {"error":"K3"}
admin POST /desk/courses { => 400 {"error":"J2"}
admin POST /desk/courses?a=b [] => 400 {"error":"P2"}
// who may
nobody POST /desk/courses [] => 401 {"error":"A1"}
admin POST /desk/callers {"name":"p"} => 200 {"caller":0,"token":"00000000000000000000000000000005-5"} kept
00000000000000000000000000000005-5 POST /desk/courses [] => 403 {"error":"A2"}
00000000000000000000000000000005-5 POST /desk/registrations {} => 403 {"error":"A2"}
00000000000000000000000000000005-5 POST /desk/registrations/ID50/launches {} => 403 {"error":"A2"}
admin GET /desk/courses => POST
admin PUT /desk/registrations => POST
admin GET /desk/registrations/ID50 => 404 {"error":"404"}
"#;

#[test]
fn courses_are_taken_up(rt: HostRuntime) -> Result<(), Fail> {
    check_rows(rt.alloc(), TAKEN)
}

// A learner is enrolled under a new id each time. Ids that are held are passed over, and so are those of registrations.
const ENROLLED: &str = r#"
admin POST /desk/registrations {"course":"http://c/1","actor":ACTOR} => 404 {"error":"404"}
admin POST /desk/courses {"id":"http://c/1","title":{"en":"C"},"children":[{"kind":"unit","id":"http://c/u","title":{"en":"U"},"url":"https://au.example/u","moveOn":"Passed"}]} => 200 {"course":"http://c/1","edition":1} kept
draw 16 0
admin POST /desk/registrations {"course":"http://c/1","actor":ACTOR} => 200 {"registration":"ID10"} kept
admin POST /desk/registrations {"course":"http://c/1","actor":ACTOR} => 200 {"registration":"ID11"} kept
admin PUT /xapi/statements?statementId=ID12 {"actor":{"mbox":"mailto:a@b"},"verb":{"id":"http://v/1"},"object":{"id":"http://a/1"}} => 204 kept
admin POST /desk/registrations {"course":"http://c/1","actor":ACTOR} => 200 {"registration":"ID13"} kept
// a registration's id is used for statements, too, but one that a statement only names isn't
admin POST /xapi/statements {"actor":{"mbox":"mailto:a@b"},"verb":{"id":"http://v/1"},"object":{"id":"http://a/1"},"context":{"registration":"ID15"}} => 200 ["ID14"] kept
admin POST /desk/registrations {"course":"http://c/1","actor":ACTOR} => 200 {"registration":"ID15"} kept
// the body
admin POST /desk/registrations [] => 400 {"error":"B1"}
admin POST /desk/registrations {"course":"http://c/1"} => 400 {"error":"B1"}
admin POST /desk/registrations {"course":"http://c/1","actor":ACTOR,"name":"n"} => 400 {"error":"B1"}
admin POST /desk/registrations {"course":"http://c/1","actor":{"mbox":"mailto:a@b"}} => 400 {"error":"B3"}
admin POST /desk/registrations {"course":"http://c/1","actor":{"account":{"homePage":"no","name":"k1"}}} => 400 {"error":"B3"}
admin POST /desk/registrations {"course":"http://c/1","actor":{"objectType":"Group","account":{"homePage":"https://p.example","name":"k1"}}} => 400 {"error":"B3"}
admin POST /desk/registrations {"course":"no","actor":{"mbox":"mailto:a@b"}} => 400 {"error":"B3"}
admin POST /desk/registrations {"course":"no","actor":ACTOR} => 400 {"error":"B8"}
admin POST /desk/registrations {"course":1,"actor":ACTOR} => 400 {"error":"B8"}
admin POST /desk/registrations {"course":"http://c/2","actor":ACTOR} => 404 {"error":"404"}
"#;

#[test]
fn a_learner_is_enrolled(rt: HostRuntime) -> Result<(), Fail> {
    check_rows(rt.alloc(), ENROLLED)
}
