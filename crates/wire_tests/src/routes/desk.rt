// What requests at the desk ask, and requests for tokens. Neither the version nor the media type is looked at there.
use crate::routes::rows::check_rows;
use std::test::Fail;

// Paths are compared undecoded. The body is empty.
const PATHS: &str = "
POST /desk/courses => token-1: Desk 400 J2
GET /desk/courses => only POST
PUT /desk/courses => only POST
DELETE /desk/courses => only POST
OTHER /desk/courses => only POST
POST /desk/courses/ => NoRoute
POST /desk/course => NoRoute
POST /desk/registrations => token-1: Desk 400 J2
GET /desk/registrations => only POST
DELETE /desk/registrations => only POST
POST /desk/registrations/ => NoRoute
GET /desk/registrations/00000000-0000-4000-8000-000000000010 => token-1: registration 00000000-0000-4000-8000-000000000010
POST /desk/registrations/00000000-0000-4000-8000-000000000010 => only GET
PUT /desk/registrations/00000000-0000-4000-8000-000000000010 => only GET
DELETE /desk/registrations/00000000-0000-4000-8000-000000000010 => only GET
GET /desk/registrations/00000000-0000-4000-8000-000000000010/ => NoRoute
POST /desk/registrations/00000000-0000-4000-8000-000000000010/launches => token-1: Desk 400 J2
GET /desk/registrations/00000000-0000-4000-8000-000000000010/launches => only POST
PUT /desk/registrations/00000000-0000-4000-8000-000000000010/launches => only POST
POST /desk/registrations/00000000-0000-4000-8000-000000000010/launches/ => NoRoute
POST /desk/registrations/00000000-0000-4000-8000-000000000010/launch => NoRoute
POST /desk/registrations//launches => NoRoute
POST /desk/registrations/launches => only GET
POST /desk/registrations/00000000-0000-4000-8000-000000000010/a/launches => NoRoute
GET /desk/registrations/a/launches => only POST
POST /desk/registrations/a/launches => token-1: Desk 400 J2
POST /desk/registrations/00000000-0000-4000-8000-000000000010/waive => token-1: Desk 400 J2
GET /desk/registrations/00000000-0000-4000-8000-000000000010/waive => only POST
DELETE /desk/registrations/00000000-0000-4000-8000-000000000010/waive => only POST
POST /desk/registrations/00000000-0000-4000-8000-000000000010/waive/ => NoRoute
POST /desk/registrations/00000000-0000-4000-8000-000000000010/waiver => NoRoute
POST /desk/registrations//waive => NoRoute
POST /desk/registrations/waive => only GET
POST /desk/registrations/a/waive => token-1: Desk 400 J2
POST /desk/sessions/00000000-0000-4000-8000-000000000020/abandon => token-1: Desk 400 J2
GET /desk/sessions/00000000-0000-4000-8000-000000000020/abandon => only POST
PUT /desk/sessions/00000000-0000-4000-8000-000000000020/abandon => only POST
POST /desk/sessions/00000000-0000-4000-8000-000000000020/abandon/ => NoRoute
GET /desk/sessions/00000000-0000-4000-8000-000000000020 => NoRoute
POST /desk/sessions//abandon => NoRoute
POST /desk/sessions/abandon => NoRoute
GET /desk/sessions => NoRoute
POST /desk/sessions/00000000-0000-4000-8000-000000000020/a/abandon => NoRoute
POST /desk/sweep => token-1: Desk 400 J2
GET /desk/sweep => only POST
OTHER /desk/sweep => only POST
POST /desk/sweep/ => NoRoute
POST /desk/sweep/a => NoRoute
POST /fetch/a => : fetch a
POST /fetch/00000000000000000000000000000001-3 => : fetch 00000000000000000000000000000001-3
POST /fetch/%61%2F => : fetch %61%2F
GET /fetch/a => only POST
PUT /fetch/a => only POST
OTHER /fetch/a => only POST
POST /fetch/a/ => NoRoute
POST /fetch/a/b => NoRoute
POST /fetch/ => NoRoute
POST /fetch => NoRoute
POST /fetch// => NoRoute
";

#[test]
fn finds_the_paths_of_the_desk_and_of_tokens(rt: HostRuntime) -> Result<(), Fail> {
    check_rows(rt.alloc(), PATHS)
}

// A new caller has exactly one member, its name.
const CALLERS: &str = r#"
media text/plain
POST /desk/callers {"name":"office"} => token-1: provider office
POST /desk/callers?  { "n\u0061me" : "" }  => token-1: provider |
POST /desk/callers?& {"name":"no name?"} => token-1: provider no name?
POST /desk/callers?name=a { => token-1: Desk 400 P2
POST /desk/callers?a=%FF { => token-1: Desk 400 P1
POST /desk/callers?a&a { => token-1: Desk 400 P2
POST /desk/callers => token-1: Desk 400 J2
POST /desk/callers {"name":"a","name":"b"} => token-1: Desk 400 J3
POST /desk/callers {"name":0.1e-1000} => token-1: Desk 400 J4
POST /desk/callers {} => token-1: Desk 400 B1
POST /desk/callers [] => token-1: Desk 400 B1
POST /desk/callers "name" => token-1: Desk 400 B1
POST /desk/callers ["name"] => token-1: Desk 400 B1
POST /desk/callers {"Name":"a"} => token-1: Desk 400 B1
POST /desk/callers {"name":"a","more":1} => token-1: Desk 400 B1
POST /desk/callers {"more":1,"name":"a"} => token-1: Desk 400 B1
POST /desk/callers {"name":5} => token-1: Desk 400 B2
POST /desk/callers {"name":null} => token-1: Desk 400 B2
POST /desk/callers {"name":["a"]} => token-1: Desk 400 B2
"#;

#[test]
fn reads_new_callers(rt: HostRuntime) -> Result<(), Fail> {
    check_rows(rt.alloc(), CALLERS)
}

// A course may be any JSON. What it has to hold, the store judges.
const COURSES: &str = r#"
version -
media text/plain
POST /desk/courses  { "a" : [ 1 , null ] }  => token-1: course {"a":[1,null]}
POST /desk/courses? 5 => token-1: course 5
POST /desk/courses?& "http://c/1" => token-1: course "http://c/1"
POST /desk/courses => token-1: Desk 400 J2
POST /desk/courses { => token-1: Desk 400 J2
POST /desk/courses {"a":1,"a":2} => token-1: Desk 400 J3
POST /desk/courses [1e1000] => token-1: Desk 400 J4
POST /desk/courses [[[[[[[[[[[[[[[[[[[[[[[[[[[[[[[[[[[[[[[[[[[[[[[[[[[[[[[[[[[[[[[[[ => token-1: Desk 400 J1
POST /desk/courses?a=1 { => token-1: Desk 400 P2
POST /desk/courses?a=%FF {} => token-1: Desk 400 P1
"#;

#[test]
fn reads_courses(rt: HostRuntime) -> Result<(), Fail> {
    check_rows(rt.alloc(), COURSES)
}

// An enrolment has the id of a course, and an Agent that is known by an account. It may name an edition.
const ENROLMENTS: &str = r#"
version -
media text/plain
POST /desk/registrations {"course":"http://c/1","actor":{"account":{"homePage":"http://p","name":"k"}}} => token-1: enrol in http://c/1 http://p k
POST /desk/registrations? {"actor":{"account":{"homePage":"http://p","name":"k"}},"course":"http://c/1"} => token-1: enrol in http://c/1 http://p k
POST /desk/registrations?a=1 { => token-1: Desk 400 P2
POST /desk/registrations { => token-1: Desk 400 J2
POST /desk/registrations {"course":"http://c/1","actor":{},"course":1} => token-1: Desk 400 J3
POST /desk/registrations [] => token-1: Desk 400 B1
POST /desk/registrations {} => token-1: Desk 400 B1
POST /desk/registrations {"course":"http://c/1"} => token-1: Desk 400 B1
POST /desk/registrations {"actor":{"account":{"homePage":"http://p","name":"k"}}} => token-1: Desk 400 B1
POST /desk/registrations {"course":"http://c/1","actor":{"account":{"homePage":"http://p","name":"k"}},"more":1} => token-1: Desk 400 B1
POST /desk/registrations {"more":1,"course":5,"actor":5} => token-1: Desk 400 B1
POST /desk/registrations {"course":5,"actor":{"account":{"homePage":"http://p","name":"k"}}} => token-1: Desk 400 B8
POST /desk/registrations {"course":"c1","actor":{"account":{"homePage":"http://p","name":"k"}}} => token-1: Desk 400 B8
POST /desk/registrations {"course":"","actor":{"account":{"homePage":"http://p","name":"k"}}} => token-1: Desk 400 B8
POST /desk/registrations {"course":"c1","actor":{}} => token-1: Desk 400 B3
"#;

#[test]
fn reads_enrolments(rt: HostRuntime) -> Result<(), Fail> {
    check_rows(rt.alloc(), ENROLMENTS)
}

// An edition is a number of 1 to 9 digits that doesn't begin with 0. What is wrong with other members goes before it.
const EDITIONS: &str = r#"
version -
media text/plain
POST /desk/registrations {"course":"http://c/1","actor":{"account":{"homePage":"http://p","name":"k"}},"edition":1} => token-1: enrol in http://c/1 http://p k edition 1
POST /desk/registrations {"course":"http://c/1","actor":{"account":{"homePage":"http://p","name":"k"}},"edition":2} => token-1: enrol in http://c/1 http://p k edition 2
POST /desk/registrations {"course":"http://c/1","actor":{"account":{"homePage":"http://p","name":"k"}},"edition":10} => token-1: enrol in http://c/1 http://p k edition 10
POST /desk/registrations {"course":"http://c/1","actor":{"account":{"homePage":"http://p","name":"k"}},"edition":999999999} => token-1: enrol in http://c/1 http://p k edition 999999999
POST /desk/registrations { "edition" : 7 , "actor":{"account":{"homePage":"http://p","name":"k"}},"course":"http://c/1"} => token-1: enrol in http://c/1 http://p k edition 7
POST /desk/registrations {"course":"http://c/1","actor":{"name":"Ann","account":{"homePage":"http://p","name":"k"}},"\u0065dition":3} => token-1: enrol in http://c/1 http://p k (Ann) edition 3
POST /desk/registrations {"course":"http://c/1","actor":{"account":{"homePage":"http://p","name":"k"}},"edition":0} => token-1: Desk 400 B10
POST /desk/registrations {"course":"http://c/1","actor":{"account":{"homePage":"http://p","name":"k"}},"edition":1000000000} => token-1: Desk 400 B10
POST /desk/registrations {"course":"http://c/1","actor":{"account":{"homePage":"http://p","name":"k"}},"edition":4294967295} => token-1: Desk 400 B10
POST /desk/registrations {"course":"http://c/1","actor":{"account":{"homePage":"http://p","name":"k"}},"edition":4294967296} => token-1: Desk 400 B10
POST /desk/registrations {"course":"http://c/1","actor":{"account":{"homePage":"http://p","name":"k"}},"edition":4294967297} => token-1: Desk 400 B10
POST /desk/registrations {"course":"http://c/1","actor":{"account":{"homePage":"http://p","name":"k"}},"edition":18446744073709551617} => token-1: Desk 400 B10
POST /desk/registrations {"course":"http://c/1","actor":{"account":{"homePage":"http://p","name":"k"}},"edition":-1} => token-1: Desk 400 B10
POST /desk/registrations {"course":"http://c/1","actor":{"account":{"homePage":"http://p","name":"k"}},"edition":-0} => token-1: Desk 400 B10
POST /desk/registrations {"course":"http://c/1","actor":{"account":{"homePage":"http://p","name":"k"}},"edition":0.5} => token-1: Desk 400 B10
POST /desk/registrations {"course":"http://c/1","actor":{"account":{"homePage":"http://p","name":"k"}},"edition":1.0} => token-1: Desk 400 B10
POST /desk/registrations {"course":"http://c/1","actor":{"account":{"homePage":"http://p","name":"k"}},"edition":1e0} => token-1: Desk 400 B10
POST /desk/registrations {"course":"http://c/1","actor":{"account":{"homePage":"http://p","name":"k"}},"edition":1E+1} => token-1: Desk 400 B10
POST /desk/registrations {"course":"http://c/1","actor":{"account":{"homePage":"http://p","name":"k"}},"edition":10e-1} => token-1: Desk 400 B10
POST /desk/registrations {"course":"http://c/1","actor":{"account":{"homePage":"http://p","name":"k"}},"edition":"1"} => token-1: Desk 400 B10
POST /desk/registrations {"course":"http://c/1","actor":{"account":{"homePage":"http://p","name":"k"}},"edition":""} => token-1: Desk 400 B10
POST /desk/registrations {"course":"http://c/1","actor":{"account":{"homePage":"http://p","name":"k"}},"edition":null} => token-1: Desk 400 B10
POST /desk/registrations {"course":"http://c/1","actor":{"account":{"homePage":"http://p","name":"k"}},"edition":true} => token-1: Desk 400 B10
POST /desk/registrations {"course":"http://c/1","actor":{"account":{"homePage":"http://p","name":"k"}},"edition":[1]} => token-1: Desk 400 B10
POST /desk/registrations {"course":"http://c/1","actor":{"account":{"homePage":"http://p","name":"k"}},"edition":{}} => token-1: Desk 400 B10
POST /desk/registrations {"course":"http://c/1","actor":{"account":{"homePage":"http://p","name":"k"}},"edition":{"edition":1}} => token-1: Desk 400 B10
POST /desk/registrations {"course":"http://c/1","actor":{"account":{"homePage":"http://p","name":"k"}},"edition":01} => token-1: Desk 400 J2
POST /desk/registrations {"course":"http://c/1","actor":{"account":{"homePage":"http://p","name":"k"}},"edition":00} => token-1: Desk 400 J2
POST /desk/registrations {"course":"http://c/1","actor":{"account":{"homePage":"http://p","name":"k"}},"edition":0001} => token-1: Desk 400 J2
POST /desk/registrations {"course":"http://c/1","actor":{"account":{"homePage":"http://p","name":"k"}},"edition":+1} => token-1: Desk 400 J2
POST /desk/registrations {"course":"http://c/1","actor":{"account":{"homePage":"http://p","name":"k"}},"edition":1.} => token-1: Desk 400 J2
POST /desk/registrations {"course":"http://c/1","actor":{"account":{"homePage":"http://p","name":"k"}},"edition":.5} => token-1: Desk 400 J2
POST /desk/registrations {"course":"http://c/1","actor":{"account":{"homePage":"http://p","name":"k"}},"edition":0x1} => token-1: Desk 400 J2
POST /desk/registrations {"course":"http://c/1","actor":{"account":{"homePage":"http://p","name":"k"}},"edition":} => token-1: Desk 400 J2
POST /desk/registrations {"course":"http://c/1","actor":{"account":{"homePage":"http://p","name":"k"}},"edition":1,"edition":1} => token-1: Desk 400 J3
POST /desk/registrations {"course":"http://c/1","actor":{"account":{"homePage":"http://p","name":"k"}},"edition":1e1000} => token-1: Desk 400 J4
POST /desk/registrations {"course":"http://c/1","actor":{"account":{"homePage":"http://p","name":"k"}},"editions":1} => token-1: Desk 400 B1
POST /desk/registrations {"course":"http://c/1","actor":{"account":{"homePage":"http://p","name":"k"}},"Edition":1} => token-1: Desk 400 B1
POST /desk/registrations {"course":"http://c/1","edition":1} => token-1: Desk 400 B1
POST /desk/registrations {"actor":{"account":{"homePage":"http://p","name":"k"}},"edition":1} => token-1: Desk 400 B1
POST /desk/registrations {"edition":0} => token-1: Desk 400 B1
POST /desk/registrations {"course":"http://c/1","actor":{"account":{"homePage":"http://p","name":"k"}},"edition":0,"more":1} => token-1: Desk 400 B1
POST /desk/registrations {"course":"http://c/1","actor":{},"edition":0} => token-1: Desk 400 B3
POST /desk/registrations {"course":"c","actor":{},"edition":0} => token-1: Desk 400 B3
POST /desk/registrations {"course":"c","actor":{"account":{"homePage":"http://p","name":"k"}},"edition":0} => token-1: Desk 400 B8
POST /desk/registrations {"course":"c","actor":{"account":{"homePage":"http://p","name":"k"}},"edition":1} => token-1: Desk 400 B8
POST /desk/registrations {"course":5,"actor":{"account":{"homePage":"http://p","name":"k"}},"edition":null} => token-1: Desk 400 B8
"#;

#[test]
fn reads_editions(rt: HostRuntime) -> Result<(), Fail> {
    check_rows(rt.alloc(), EDITIONS)
}

// Which Agents can be enrolled.
const ACTORS: &str = r#"
version -
media text/plain
POST /desk/registrations {"course":"http://c/1","actor":{"objectType":"Agent","name":"Ann","account":{"name":"k","homePage":"http://p"}}} => token-1: enrol in http://c/1 http://p k (Ann)
POST /desk/registrations {"course":"http://c/1","actor":{"name":"","account":{"homePage":"http://p","name":""}}} => token-1: enrol in http://c/1 http://p  ()
POST /desk/registrations {"course":"http://c/1","actor":"k"} => token-1: Desk 400 B3
POST /desk/registrations {"course":"http://c/1","actor":null} => token-1: Desk 400 B3
POST /desk/registrations {"course":"http://c/1","actor":[]} => token-1: Desk 400 B3
POST /desk/registrations {"course":"http://c/1","actor":{}} => token-1: Desk 400 B3
POST /desk/registrations {"course":"http://c/1","actor":{"mbox":"mailto:a@b"}} => token-1: Desk 400 B3
POST /desk/registrations {"course":"http://c/1","actor":{"mbox":"mailto:a@b","account":{"homePage":"http://p","name":"k"}}} => token-1: Desk 400 B3
POST /desk/registrations {"course":"http://c/1","actor":{"objectType":"Group","account":{"homePage":"http://p","name":"k"}}} => token-1: Desk 400 B3
POST /desk/registrations {"course":"http://c/1","actor":{"account":{"homePage":"p","name":"k"}}} => token-1: Desk 400 B3
POST /desk/registrations {"course":"http://c/1","actor":{"account":{"homePage":"http://p"}}} => token-1: Desk 400 B3
POST /desk/registrations {"course":"http://c/1","actor":{"account":5}} => token-1: Desk 400 B3
POST /desk/registrations {"course":"http://c/1","actor":{"name":5,"account":{"homePage":"http://p","name":"k"}}} => token-1: Desk 400 B3
POST /desk/registrations {"course":"http://c/1","actor":{"more":5,"account":{"homePage":"http://p","name":"k"}}} => token-1: Desk 400 B3
"#;

#[test]
fn reads_actors(rt: HostRuntime) -> Result<(), Fail> {
    check_rows(rt.alloc(), ACTORS)
}

// A launch has the id of a unit, and may have a mode and an address to return to.
const UNITS: &str = r#"
at /desk/registrations/00000000-0000-4000-8000-000000000010
version -
media text/plain
POST /launches {"unit":"http://c/u"} => token-1: Normal http://c/u 00000000-0000-4000-8000-000000000010
POST /launches? {"mode":"Normal","unit":"http://c/u"} => token-1: Normal http://c/u 00000000-0000-4000-8000-000000000010
POST /launches {"unit":"http://c/u","mode":"Browse"} => token-1: Browse http://c/u 00000000-0000-4000-8000-000000000010
POST /launches {"unit":"http://c/u","returnURL":"https://b.example/"} => token-1: Normal http://c/u 00000000-0000-4000-8000-000000000010 back to https://b.example/
POST /launches {"returnURL":"b:1","unit":"http://c/u","mode":"Review"} => token-1: Review http://c/u 00000000-0000-4000-8000-000000000010 back to b:1
POST /launches?a&a { => token-1: Desk 400 P2
POST /launches { => token-1: Desk 400 J2
POST /launches "http://c/u" => token-1: Desk 400 B1
POST /launches {} => token-1: Desk 400 B1
POST /launches {"mode":"Normal"} => token-1: Desk 400 B1
POST /launches {"unit":"http://c/u","more":1} => token-1: Desk 400 B1
POST /launches {"Unit":"http://c/u"} => token-1: Desk 400 B1
POST /launches {"mode":5,"returnURL":5} => token-1: Desk 400 B1
POST /launches {"unit":"http://c/u","mode":"normal"} => token-1: Desk 400 B4
POST /launches {"unit":"http://c/u","mode":""} => token-1: Desk 400 B4
POST /launches {"unit":"http://c/u","mode":null} => token-1: Desk 400 B4
POST /launches {"unit":"http://c/u","mode":["Normal"]} => token-1: Desk 400 B4
POST /launches {"unit":"http://c/u","returnURL":"b.example"} => token-1: Desk 400 B7
POST /launches {"unit":"http://c/u","returnURL":5} => token-1: Desk 400 B7
POST /launches {"unit":"http://c/u","returnURL":null} => token-1: Desk 400 B7
POST /launches {"unit":"u"} => token-1: Desk 400 B8
POST /launches {"unit":5} => token-1: Desk 400 B8
POST /launches {"unit":"http://c/ u","mode":"Review"} => token-1: Desk 400 B8
POST /launches {"unit":"u","mode":"x"} => token-1: Desk 400 B4
POST /launches {"unit":"u","returnURL":"b"} => token-1: Desk 400 B7
POST /launches {"unit":"http://c/u","mode":"x","returnURL":"b"} => token-1: Desk 400 B4
"#;

#[test]
fn reads_launches(rt: HostRuntime) -> Result<(), Fail> {
    check_rows(rt.alloc(), UNITS)
}

// The part of the path is an id in either case. Nothing is where it is none, but for the rules on the body.
const REGISTRATIONS: &str = r#"
version -
media text/plain
POST /desk/registrations/ABCDEF00-0000-4000-8000-00000000001F/launches {"unit":"http://c/u"} => token-1: Normal http://c/u abcdef00-0000-4000-8000-00000000001f
POST /desk/registrations/00000000-0000-0000-0000-000000000000/launches {"unit":"http://c/u"} => token-1: Normal http://c/u 00000000-0000-0000-0000-000000000000
POST /desk/registrations/a/launches {"unit":"http://c/u"} => token-1: Desk 404
POST /desk/registrations/00000000-0000-4000-8000-0000000000100/launches {"unit":"http://c/u"} => token-1: Desk 404
POST /desk/registrations/00000000-0000-4000-8000-00000000001/launches {"unit":"http://c/u"} => token-1: Desk 404
POST /desk/registrations/000000000000400080000000000000100000/launches {"unit":"http://c/u"} => token-1: Desk 404
POST /desk/registrations/g0000000-0000-4000-8000-000000000010/launches {"unit":"http://c/u"} => token-1: Desk 404
POST /desk/registrations/%300000000-0000-4000-8000-000000000010/launches {"unit":"http://c/u"} => token-1: Desk 404
POST /desk/registrations/%3000000-0000-4000-8000-000000000010/launches {"unit":"http://c/u"} => token-1: Desk 404
POST /desk/registrations/a/launches { => token-1: Desk 400 J2
POST /desk/registrations/a/launches {} => token-1: Desk 400 B1
POST /desk/registrations/a/launches {"unit":"u"} => token-1: Desk 400 B8
"#;

#[test]
fn reads_the_registration_of_a_path(rt: HostRuntime) -> Result<(), Fail> {
    check_rows(rt.alloc(), REGISTRATIONS)
}

// A waiver has the id of a unit and one of four reasons, letter by letter.
const WAIVERS: &str = r#"
at /desk/registrations/00000000-0000-4000-8000-000000000010
version -
media text/plain
POST /waive {"unit":"http://c/u","reason":"Tested Out"} => token-1: waive http://c/u (Tested Out) 00000000-0000-4000-8000-000000000010
POST /waive? {"reason":"Equivalent AU","unit":"http://c/u"} => token-1: waive http://c/u (Equivalent AU) 00000000-0000-4000-8000-000000000010
POST /waive {"unit":"c:1","reason":"Equivalent Outside Activity"} => token-1: waive c:1 (Equivalent Outside Activity) 00000000-0000-4000-8000-000000000010
POST /waive {"unit":"http://c/u","reason":"Administrative"} => token-1: waive http://c/u (Administrative) 00000000-0000-4000-8000-000000000010
POST /waive {"unit":"http://c/u","reason":"Tested\u0020Out"} => token-1: waive http://c/u (Tested Out) 00000000-0000-4000-8000-000000000010
POST /waive?a=1 { => token-1: Desk 400 P2
POST /waive?a=%FF { => token-1: Desk 400 P1
POST /waive { => token-1: Desk 400 J2
POST /waive {"unit":"http://c/u","reason":"Administrative","unit":"http://c/u"} => token-1: Desk 400 J3
POST /waive [] => token-1: Desk 400 B1
POST /waive "http://c/u" => token-1: Desk 400 B1
POST /waive {} => token-1: Desk 400 B1
POST /waive {"unit":"http://c/u"} => token-1: Desk 400 B1
POST /waive {"reason":"Administrative"} => token-1: Desk 400 B1
POST /waive {"unit":"http://c/u","reason":"Administrative","more":1} => token-1: Desk 400 B1
POST /waive {"unit":"http://c/u","Reason":"Administrative"} => token-1: Desk 400 B1
POST /waive {"more":1,"unit":5,"reason":5} => token-1: Desk 400 B1
POST /waive {"unit":"http://c/u","reason":"tested out"} => token-1: Desk 400 B5
POST /waive {"unit":"http://c/u","reason":"Tested out"} => token-1: Desk 400 B5
POST /waive {"unit":"http://c/u","reason":"EQUIVALENT AU"} => token-1: Desk 400 B5
POST /waive {"unit":"http://c/u","reason":"Equivalent Au"} => token-1: Desk 400 B5
POST /waive {"unit":"http://c/u","reason":"Equivalent outside activity"} => token-1: Desk 400 B5
POST /waive {"unit":"http://c/u","reason":"administrative"} => token-1: Desk 400 B5
POST /waive {"unit":"http://c/u","reason":"Administrative "} => token-1: Desk 400 B5
POST /waive {"unit":"http://c/u","reason":"TestedOut"} => token-1: Desk 400 B5
POST /waive {"unit":"http://c/u","reason":""} => token-1: Desk 400 B5
POST /waive {"unit":"http://c/u","reason":null} => token-1: Desk 400 B5
POST /waive {"unit":"http://c/u","reason":["Administrative"]} => token-1: Desk 400 B5
POST /waive {"unit":"u","reason":"Administrative"} => token-1: Desk 400 B8
POST /waive {"unit":5,"reason":"Administrative"} => token-1: Desk 400 B8
POST /waive {"unit":"u","reason":"none"} => token-1: Desk 400 B5
"#;

#[test]
fn reads_waivers(rt: HostRuntime) -> Result<(), Fail> {
    check_rows(rt.alloc(), WAIVERS)
}

// The body that abandons a session has nothing to say.
const ABANDONED: &str = r#"
at /desk/sessions/00000000-0000-4000-8000-000000000020
version -
media text/plain
POST /abandon {} => token-1: abandon 00000000-0000-4000-8000-000000000020
POST /abandon?  { }  => token-1: abandon 00000000-0000-4000-8000-000000000020
POST /abandon?a=1 {} => token-1: Desk 400 P2
POST /abandon { => token-1: Desk 400 J2
POST /abandon {"a":1} => token-1: Desk 400 B1
POST /abandon [] => token-1: Desk 400 B1
POST /abandon null => token-1: Desk 400 B1
POST /abandon "" => token-1: Desk 400 B1
"#;

#[test]
fn reads_what_abandons_a_session(rt: HostRuntime) -> Result<(), Fail> {
    check_rows(rt.alloc(), ABANDONED)
}

// A sweep has a number of seconds that digits alone spell, at most a year of 365 days.
const SWEEPS: &str = r#"
at /desk/sweep
version -
media text/plain
POST  {"idle":0} => token-1: sweep 0
POST ?  { "idle" : 3600 }  => token-1: sweep 3600
POST  {"idle":31536000} => token-1: sweep 31536000
POST  {"idle":31536001} => token-1: Desk 400 B6
POST  {"idle":99999999} => token-1: Desk 400 B6
POST  {"idle":4294967296} => token-1: Desk 400 B6
POST  {"idle":18446744073709551676} => token-1: Desk 400 B6
POST  {"idle":-1} => token-1: Desk 400 B6
POST  {"idle":-0} => token-1: Desk 400 B6
POST  {"idle":1.0} => token-1: Desk 400 B6
POST  {"idle":1e1} => token-1: Desk 400 B6
POST  {"idle":1E+1} => token-1: Desk 400 B6
POST  {"idle":"60"} => token-1: Desk 400 B6
POST  {"idle":null} => token-1: Desk 400 B6
POST  {"idle":[60]} => token-1: Desk 400 B6
POST  {"idle":060} => token-1: Desk 400 J2
POST  {"idle":+60} => token-1: Desk 400 J2
POST  {"idle":60,"idle":60} => token-1: Desk 400 J3
POST  {} => token-1: Desk 400 B1
POST  {"idle":60,"more":1} => token-1: Desk 400 B1
POST  {"more":1,"idle":"60"} => token-1: Desk 400 B1
POST  {"Idle":60} => token-1: Desk 400 B1
POST  [60] => token-1: Desk 400 B1
POST  60 => token-1: Desk 400 B1
POST ?idle=60 {"idle":60} => token-1: Desk 400 P2
"#;

#[test]
fn reads_sweeps(rt: HostRuntime) -> Result<(), Fail> {
    check_rows(rt.alloc(), SWEEPS)
}

// The ids of the other paths are read so, too. The body of a GET isn't looked at.
const PATH_IDS: &str = r#"
version -
media text/plain
GET /desk/registrations/ABCDEF00-0000-4000-8000-00000000001F { => token-1: registration abcdef00-0000-4000-8000-00000000001f
GET /desk/registrations/00000000-0000-4000-8000-000000000010? => token-1: registration 00000000-0000-4000-8000-000000000010
GET /desk/registrations/00000000-0000-4000-8000-000000000010?a=1 => token-1: Desk 400 P2
GET /desk/registrations/00000000-0000-4000-8000-000000000010?a=%FF => token-1: Desk 400 P1
GET /desk/registrations/a => token-1: Desk 404
GET /desk/registrations/launches => token-1: Desk 404
GET /desk/registrations/%300000000-0000-4000-8000-000000000010 => token-1: Desk 404
GET /desk/registrations/a?a=1 => token-1: Desk 400 P2
POST /desk/registrations/ABCDEF00-0000-4000-8000-00000000001F/waive {"unit":"http://c/u","reason":"Administrative"} => token-1: waive http://c/u (Administrative) abcdef00-0000-4000-8000-00000000001f
POST /desk/registrations/a/waive {"unit":"http://c/u","reason":"Administrative"} => token-1: Desk 404
POST /desk/registrations/a/waive {"unit":"http://c/u","reason":"administrative"} => token-1: Desk 400 B5
POST /desk/sessions/ABCDEF00-0000-4000-8000-00000000001F/abandon {} => token-1: abandon abcdef00-0000-4000-8000-00000000001f
POST /desk/sessions/a/abandon {} => token-1: Desk 404
POST /desk/sessions/00000000-0000-4000-8000-0000000000200/abandon {} => token-1: Desk 404
POST /desk/sessions/a/abandon {"a":1} => token-1: Desk 400 B1
POST /desk/sessions/a/abandon => token-1: Desk 400 J2
"#;

#[test]
fn reads_the_ids_of_other_paths(rt: HostRuntime) -> Result<(), Fail> {
    check_rows(rt.alloc(), PATH_IDS)
}

// Who fetches a token is nobody, whatever is presented. Neither the parameters nor the body are looked at.
const FETCHES: &str = r#"
version -
credential -
media text/plain
POST /fetch/a-1 => : fetch a-1
credential Basic token-1
POST /fetch/a-1 { => : fetch a-1
credential -
POST /fetch/a-1?a=%FF {} => : fetch a-1
credential Basic *
POST /fetch/a-1?a&a [1e1000] => : fetch a-1
credential Bearer a
POST /fetch/a-1? {"a":1,"a":1} => : fetch a-1
"#;

#[test]
fn reads_fetches(rt: HostRuntime) -> Result<(), Fail> {
    check_rows(rt.alloc(), FETCHES)
}
