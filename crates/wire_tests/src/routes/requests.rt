// Which route a path has, and who is presented.
use crate::routes::rows::check_rows;
use std::test::Fail;

// Paths are compared whole and undecoded. At `about` nobody is presented, and no version is asked for.
const ROUTES: &str = "
GET /xapi/about => : about
DELETE /xapi/about => only GET
OTHER /xapi/about => only GET
GET /xapi/about/ => NoRoute
GET /none => NoRoute
GET  => NoRoute
GET / => NoRoute
GET /xapi => NoRoute
GET /xapi/statement => NoRoute
GET /xapi/statements/ => NoRoute
GET /xapi/statementss => NoRoute
GET /xapi//statements => NoRoute
GET /xapi/%73tatements => NoRoute
GET /XAPI/statements => NoRoute
GET /xapi/statements => token-1: list 100
GET /xapi/statements/more => token-1: Store 400 P14
PUT /xapi/statements/more => only GET
GET /xapi/statements/more/ => NoRoute
GET /xapi/statements/mor => NoRoute
PUT /xapi/statements => token-1: Store 400 P4
POST /xapi/statements => token-1: Store 400 J2
DELETE /xapi/statements => only GET, POST, PUT
OTHER /xapi/statements => only GET, POST, PUT
POST /desk/callers => token-1: Desk 400 J2
GET /desk/callers => only POST
PUT /desk/callers => only POST
GET /xapi/activities/state => token-1: Store 400 P4
PUT /xapi/activities/state => token-1: Store 400 P4
POST /xapi/activities/state => token-1: Store 400 P4
DELETE /xapi/activities/state => token-1: Store 400 P4
OTHER /xapi/activities/state => only DELETE, GET, POST, PUT
GET /xapi/activities/state/ => NoRoute
GET /xapi/activities/states => NoRoute
GET /xapi/activities => NoRoute
GET /xapi/activities/profile => token-1: profile
PUT /xapi/activities/profile => only GET
OTHER /xapi/activities/profile => only GET
GET /xapi/agents/profile => token-1: profile
POST /xapi/agents/profile => only GET
DELETE /xapi/agents/profile => only GET
GET /xapi/agents => NoRoute
";

#[test]
fn finds_routes_and_methods(rt: HostRuntime) -> Result<(), Fail> {
    check_rows(rt.alloc(), ROUTES)
}

// The version goes after the method and before all else. The other routes ask for none.
const VERSIONS: &str = "
version -
GET /xapi/statements => NoVersion
version |
GET /xapi/statements => NoVersion
version 1
GET /xapi/statements => NoVersion
version 1.0
GET /xapi/statements => token-1: list 100
version 1.0.
GET /xapi/statements => token-1: list 100
version 1.0.0
GET /xapi/statements => token-1: list 100
version 1.0.3
GET /xapi/statements => token-1: list 100
version 1.0.17
GET /xapi/statements => token-1: list 100
version 1.00
GET /xapi/statements => NoVersion
version 1.1
GET /xapi/statements => NoVersion
version 0.95
GET /xapi/statements => NoVersion
version 2.0.0
GET /xapi/statements => NoVersion
version v1.0.3
GET /xapi/statements => NoVersion
version 1.0 |
PUT /xapi/statements => NoVersion
version -
POST /xapi/statements => NoVersion
DELETE /xapi/statements => only GET, POST, PUT
GET /xapi/activities/state => NoVersion
GET /xapi/activities/profile => NoVersion
version 2.0.0
GET /xapi/agents/profile => NoVersion
version -
OTHER /xapi/activities/state => only DELETE, GET, POST, PUT
GET /xapi/about => : about
POST /desk/callers => token-1: Desk 400 J2
";

#[test]
fn asks_for_the_version(rt: HostRuntime) -> Result<(), Fail> {
    check_rows(rt.alloc(), VERSIONS)
}

// Who is presented: nobody has no token.
const CREDENTIALS: &str = "
credential -
PUT /xapi/statements => : Store 400 P4
credential |
PUT /xapi/statements => : Store 400 P4
credential Basic
PUT /xapi/statements => : Store 400 P4
credential Basic |
PUT /xapi/statements => : Store 400 P4
credential Basic *
PUT /xapi/statements => : Store 400 P4
credential Basic **
PUT /xapi/statements => **: Store 400 P4
credential Basic adminadmin
PUT /xapi/statements => adminadmin: Store 400 P4
credential BASIC adminadmin
PUT /xapi/statements => adminadmin: Store 400 P4
credential bAsIc YWRtaW46
PUT /xapi/statements => YWRtaW46: Store 400 P4
credential Basic  a
PUT /xapi/statements =>  a: Store 400 P4
credential Basic a b
PUT /xapi/statements => a b: Store 400 P4
credential Basic\ta
PUT /xapi/statements => : Store 400 P4
credential Basics a
PUT /xapi/statements => : Store 400 P4
credential Bearer adminadmin
PUT /xapi/statements => : Store 400 P4
credential adminadmin
PUT /xapi/statements => : Store 400 P4
credential  Basic a
PUT /xapi/statements => : Store 400 P4
";

#[test]
fn presents_the_credential(rt: HostRuntime) -> Result<(), Fail> {
    check_rows(rt.alloc(), CREDENTIALS)
}
