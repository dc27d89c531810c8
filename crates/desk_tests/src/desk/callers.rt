// Who is made a caller, and who may ask the desk.
use crate::rows::check_rows;
use std::alloc::Global;
use std::test::Fail;

// A provider's name has 1 to 64 letters, digits, `.` and `_`.
const NAMED: &str = r#"
draw 0 5
admin POST /desk/callers {"name":""} => 400 {"error":"B2"}
admin POST /desk/callers {"name":"a"} => 200 {"caller":0,"token":"00000000000000000000000000000005-1"} kept
admin POST /desk/callers {"name":"A23456789012345678901234567890123456789012345678901234567890.._z"} => 200 {"caller":1,"token":"00000000000000000000000000000005-2"} kept
admin POST /desk/callers {"name":"A23456789012345678901234567890123456789012345678901234567890.._zz"} => 400 {"error":"B2"}
// each first and last letter and digit; what stands beside them
admin POST /desk/callers {"name":"09AZaz._"} => 200 {"caller":2,"token":"00000000000000000000000000000005-3"} kept
admin POST /desk/callers {"name":"_"} => 200 {"caller":3,"token":"00000000000000000000000000000005-4"} kept
admin POST /desk/callers {"name":"."} => 200 {"caller":4,"token":"00000000000000000000000000000005-5"} kept
admin POST /desk/callers {"name":"p q"} => 400 {"error":"B2"}
admin POST /desk/callers {"name":"é"} => 400 {"error":"B2"}
admin POST /desk/callers {"name":"pé"} => 400 {"error":"B2"}
admin POST /desk/callers {"name":"-"} => 400 {"error":"B2"}
admin POST /desk/callers {"name":"/"} => 400 {"error":"B2"}
admin POST /desk/callers {"name":":"} => 400 {"error":"B2"}
admin POST /desk/callers {"name":"@"} => 400 {"error":"B2"}
admin POST /desk/callers {"name":"["} => 400 {"error":"B2"}
admin POST /desk/callers {"name":"^"} => 400 {"error":"B2"}
admin POST /desk/callers {"name":"`"} => 400 {"error":"B2"}
admin POST /desk/callers {"name":"{"} => 400 {"error":"B2"}
admin POST /desk/callers {"name":"p~"} => 400 {"error":"B2"}
admin POST /desk/callers {"name":"\n"} => 400 {"error":"B2"}
admin POST /desk/callers {"name":"\u0000"} => 400 {"error":"B2"}
admin POST /desk/callers {"name":"\u007f"} => 400 {"error":"B2"}
admin POST /desk/callers {"name":"p\""} => 400 {"error":"B2"}
admin POST /desk/callers {"name":"p/"} => 400 {"error":"B2"}
// as it is spelled, and one that is held
admin POST /desk/callers {"name":"\u0061"} => 200 {"caller":5,"token":"00000000000000000000000000000005-6"} kept
admin POST /desk/callers {"name":"a"} => 200 {"caller":6,"token":"00000000000000000000000000000005-7"} kept
// no string, and other members
admin POST /desk/callers {"name":1} => 400 {"error":"B2"}
admin POST /desk/callers {"name":null} => 400 {"error":"B2"}
admin POST /desk/callers {"name":["p"]} => 400 {"error":"B2"}
admin POST /desk/callers {"name":true} => 400 {"error":"B2"}
admin POST /desk/callers {} => 400 {"error":"B1"}
admin POST /desk/callers [] => 400 {"error":"B1"}
admin POST /desk/callers "p" => 400 {"error":"B1"}
admin POST /desk/callers {"name":"","id":1} => 400 {"error":"B1"}
admin POST /desk/callers {"Name":"p"} => 400 {"error":"B1"}
admin POST /desk/callers {"name":"p" => 400 {"error":"J2"}
admin POST /desk/callers {"name":"p","name":"p"} => 400 {"error":"J3"}
admin POST /desk/callers?a=b {"name":""} => 400 {"error":"P2"}
"#;

#[test]
fn a_provider_has_a_name(rt: HostRuntime) -> Result<(), Fail> {
    check_rows(rt.alloc(), NAMED)
}

// An admin alone asks the desk.
const BARRED: &str = r#"
sample
admin POST /desk/callers {"name":"p"} => 200 {"caller":0,"token":"00000000000000000000000000000002-5"} kept
// a provider, a session, and whoever is none, a fetch key too
00000000000000000000000000000002-5 POST /desk/courses {"id":"http://c/1","title":{"en":"C"},"children":[{"kind":"block","id":"http://c/b","title":{"en":"B"},"children":[{"kind":"unit","id":"http://c/u","title":{"en":"U"},"url":"https://au.example/u","moveOn":"CompletedAndPassed","masteryScore":0.8}]}]} => 403 {"error":"A2"}
00000000000000000000000000000002-5 POST /desk/registrations {"course":"http://c/1","actor":ACTOR} => 403 {"error":"A2"}
00000000000000000000000000000002-5 POST /desk/registrations/ID10/launches {"unit":"http://c/u"} => 403 {"error":"A2"}
00000000000000000000000000000002-5 POST /desk/callers {"name":"q"} => 403 {"error":"A2"}
TOKEN POST /desk/courses {"id":"http://c/1","title":{"en":"C"},"children":[{"kind":"block","id":"http://c/b","title":{"en":"B"},"children":[{"kind":"unit","id":"http://c/u","title":{"en":"U"},"url":"https://au.example/u","moveOn":"CompletedAndPassed","masteryScore":0.8}]}]} => 403 {"error":"A2"}
TOKEN POST /desk/registrations {"course":"http://c/1","actor":ACTOR} => 403 {"error":"A2"}
TOKEN POST /desk/registrations/ID10/launches {"unit":"http://c/u"} => 403 {"error":"A2"}
TOKEN POST /desk/callers {"name":"q"} => 403 {"error":"A2"}
nobody POST /desk/courses {"id":"http://c/1","title":{"en":"C"},"children":[{"kind":"block","id":"http://c/b","title":{"en":"B"},"children":[{"kind":"unit","id":"http://c/u","title":{"en":"U"},"url":"https://au.example/u","moveOn":"CompletedAndPassed","masteryScore":0.8}]}]} => 401 {"error":"A1"}
nobody POST /desk/registrations {"course":"http://c/1","actor":ACTOR} => 401 {"error":"A1"}
nobody POST /desk/registrations/ID10/launches {"unit":"http://c/u"} => 401 {"error":"A1"}
nobody POST /desk/callers {"name":"q"} => 401 {"error":"A1"}
KEY POST /desk/callers {"name":"q"} => 401 {"error":"A1"}
* POST /desk/callers {"name":"q"} => 401 {"error":"A1"}
00000000000000000000000000000002-6 POST /desk/callers {"name":"q"} => 401 {"error":"A1"}
// before all that is said of the request
00000000000000000000000000000002-5 POST /desk/callers?a=b { => 403 {"error":"A2"}
00000000000000000000000000000002-5 POST /desk/registrations/ID11/launches?a=b { => 403 {"error":"A2"}
TOKEN POST /desk/callers?a=b { => 403 {"error":"A2"}
TOKEN POST /desk/registrations/ID11/launches?a=b { => 403 {"error":"A2"}
nobody POST /desk/callers?a=b { => 401 {"error":"A1"}
nobody POST /desk/registrations/ID11/launches?a=b { => 401 {"error":"A1"}
// before the rules on its form too
nobody POST /xapi/statements {} => 401 {"error":"A1"}
TOKEN POST /xapi/statements {} => 400 {"error":"S1"}
00000000000000000000000000000002-5 PUT /xapi/statements?statementId=ID50 {} => 400 {"error":"S1"}
nobody POST /desk/courses [] => 401 {"error":"A1"}
TOKEN POST /desk/courses [] => 403 {"error":"A2"}
admin POST /desk/courses [] => 400 {"error":"K1"}
"#;

#[test]
fn an_admin_alone_asks_the_desk(rt: HostRuntime) -> Result<(), Fail> {
    check_rows(rt.alloc(), BARRED)
}
