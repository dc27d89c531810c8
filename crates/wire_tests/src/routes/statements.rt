// What requests for statements ask.
use crate::routes::rows::check_rows;
use std::test::Fail;

// Parameters go before the media type, that before JSON. What JSON it is, the store judges.
const PUTS: &str = "
PUT /xapi/statements?statementId=11111111-1111-4111-8111-111111111111 {} => token-1: put 11111111-1111-4111-8111-111111111111
PUT /xapi/statements?statementId=11111111-1111-4111-8111-111111111111  5  => token-1: put 11111111-1111-4111-8111-111111111111
PUT /xapi/statements?statementId=AAAAAAAA-1111-4111-8111-11111111111B {} => token-1: put aaaaaaaa-1111-4111-8111-11111111111b
media text/plain
PUT /xapi/statements? { => token-1: Store 400 P4
media -
PUT /xapi/statements?statementId=1 {} => token-1: Store 400 P5
PUT /xapi/statements?statementId=1&a=%FF {} => token-1: Store 400 P1
PUT /xapi/statements?statementId=1&limit=1 {} => token-1: Store 400 P2
PUT /xapi/statements?statementId=1&statementId=1 {} => token-1: Store 400 P3
media text/plain
PUT /xapi/statements?statementId=11111111-1111-4111-8111-111111111111 { => token-1: Store 400 F3
media |
PUT /xapi/statements?statementId=11111111-1111-4111-8111-111111111111 {} => token-1: Store 400 F3
media application/jsonx
PUT /xapi/statements?statementId=11111111-1111-4111-8111-111111111111 {} => token-1: Store 400 F3
media application/json,text/plain
PUT /xapi/statements?statementId=11111111-1111-4111-8111-111111111111 {} => token-1: Store 400 F3
media multipart/mixed; boundary=a
PUT /xapi/statements?statementId=11111111-1111-4111-8111-111111111111 {} => token-1: Store 400 F3
media application/json
PUT /xapi/statements?statementId=11111111-1111-4111-8111-111111111111 { => token-1: Store 400 J2
media Application/JSON
PUT /xapi/statements?statementId=11111111-1111-4111-8111-111111111111 => token-1: Store 400 J2
media application/json; charset=utf-8
PUT /xapi/statements?statementId=11111111-1111-4111-8111-111111111111 {\"a\":1,\"a\":2} => token-1: Store 400 J3
media application/json \t;
PUT /xapi/statements?statementId=11111111-1111-4111-8111-111111111111 [1e1000] => token-1: Store 400 J4
media -
PUT /xapi/statements?statementId=11111111-1111-4111-8111-111111111111 [1,] => token-1: Store 400 J2
PUT /xapi/statements?statementId=11111111-1111-4111-8111-111111111111 [[[[[[[[[[[[[[[[[[[[[[[[[[[[[[[[[[[[[[[[[[[[[[[[[[[[[[[[[[[[[[[[[ => token-1: Store 400 J1
";

#[test]
fn reads_puts(rt: HostRuntime) -> Result<(), Fail> {
    check_rows(rt.alloc(), PUTS)
}

// An array is a batch, and any other value the one statement of a batch.
const POSTS: &str = r#"
POST /xapi/statements [] => token-1: post 0
POST /xapi/statements [{},5,[]] => token-1: post 3
POST /xapi/statements?  {}  => token-1: post 1
POST /xapi/statements 5 => token-1: post 1
POST /xapi/statements null => token-1: post 1
media application/json; charset=utf-8
POST /xapi/statements [[]] => token-1: post 1
media -
POST /xapi/statements?statementId=11111111-1111-4111-8111-111111111111 [] => token-1: Store 400 P2
POST /xapi/statements?statementId=1&a=%FF [] => token-1: Store 400 P1
media text/plain
POST /xapi/statements?limit=1 [ => token-1: Store 400 P2
POST /xapi/statements [ => token-1: Store 400 F3
media -
POST /xapi/statements [1,] => token-1: Store 400 J2
POST /xapi/statements [{"a":1,"a":2}] => token-1: Store 400 J3
POST /xapi/statements [1e1000] => token-1: Store 400 J4
"#;

#[test]
fn reads_posts(rt: HostRuntime) -> Result<(), Fail> {
    check_rows(rt.alloc(), POSTS)
}

// A GET has no body that counts.
const GETS: &str = "
media text/plain
GET /xapi/statements? { => token-1: list 100
GET /xapi/statements?limit=7&verb=http://v/1 { => token-1: list 7
GET /xapi/statements?verb=http://v/1&since=now { => token-1: Store 400 P9
GET /xapi/statements?limit=7&asof=9&after=8 { => token-1: Store 400 P2
GET /xapi/statements?statementId=11111111-1111-4111-8111-111111111111&format=ids { => token-1: get ids of 11111111-1111-4111-8111-111111111111
GET /xapi/statements?voidedStatementId=11111111-1111-4111-8111-111111111111&format=exact { => token-1: get voided 11111111-1111-4111-8111-111111111111
GET /xapi/statements?statementId=11111111-1111-4111-8111-111111111111 { => token-1: get 11111111-1111-4111-8111-111111111111
GET /xapi/statements?format=exact&statementId=%31%31111111-1111-4111-8111-111111111111&attachments=false { => token-1: get 11111111-1111-4111-8111-111111111111
GET /xapi/statements?statementId=1 { => token-1: Store 400 P5
GET /xapi/statements?statementId=1&a=%FF { => token-1: Store 400 P1
GET /xapi/statements?statementId=1&stateId=1 { => token-1: Store 400 P2
GET /xapi/statements?statementId=1&statementId=1 { => token-1: Store 400 P3
";

#[test]
fn reads_gets(rt: HostRuntime) -> Result<(), Fail> {
    check_rows(rt.alloc(), GETS)
}

// A link has the parameters of a list, and two of its own.
const LINKS: &str = "
GET /xapi/statements/more?asof=9&after=8 => token-1: more 9 8
GET /xapi/statements/more?limit=7&after=8&asof=9 => token-1: more 9 8
GET /xapi/statements/more?after=9&asof=8 => token-1: Store 400 P14
GET /xapi/statements/more?asof=9&after=8&attachments=false => token-1: Store 400 P2
GET /xapi/statements/more?asof=9&after=8&limit=%FF => token-1: Store 400 P1
";

#[test]
fn reads_links(rt: HostRuntime) -> Result<(), Fail> {
    check_rows(rt.alloc(), LINKS)
}
