// What requests for documents ask.
use crate::routes::rows::check_rows;
use std::test::Fail;

// A document is written with the media type as it was sent, in brackets here, and with any body. The media type and the
// body of other requests aren't looked at.
const DOCUMENTS: &str = "
at /xapi/activities/state?activityId=http://a/1&
media text/plain
PUT agent=%7B%22mbox%22:%22mailto:a@b%22%7D&stateId=b abc => token-1: put b [text/plain] abc
media -
PUT agent=%7B%22mbox%22:%22mailto:a@b%22%7D&stateId=b abc => token-1: put b [application/octet-stream] abc
media |
PUT agent=%7B%22mbox%22:%22mailto:a@b%22%7D&stateId=b => token-1: put b [] |
media ?
PUT agent=%7B%22mbox%22:%22mailto:a@b%22%7D&stateId= { => token-1: put  [?] {
media Application/JSON;  Charset=UTF-8
POST agent=%7B%22mbox%22:%22mailto:a@b%22%7D&stateId=b {} => token-1: post b [Application/JSON;  Charset=UTF-8] {}
media -
POST agent=%7B%22mbox%22:%22mailto:a@b%22%7D&stateId=b => token-1: post b [application/octet-stream] |
media |
POST agent=%7B%22mbox%22:%22mailto:a@b%22%7D&stateId=b&registration=11111111-1111-4111-8111-111111111111 [1,] => token-1: post b [] [1,]
media text/plain
PUT agent=%7B%22mbox%22:%22mailto:a@b%22%7D abc => token-1: Store 400 P4
POST agent=%7B%22mbox%22:%22mailto:a@b%22%7D abc => token-1: Store 400 P4
media -
PUT agent=%7B%22mbox%22:%22mailto:a@b%22%7D&stateId=b&since=2023-11-14T22:13:20Z => token-1: Store 400 P2
POST agent=%7B%22mbox%22:%22mailto:a@b%22%7D&stateId=b&registration=1 => token-1: Store 400 P5
PUT agent=%7B%22mbox%22:%22mailto:a@b%22%7D&stateId=%FF => token-1: Store 400 P1
media text/plain
GET agent=%7B%22mbox%22:%22mailto:a@b%22%7D&stateId=b { => token-1: document b
media |
GET agent=%7B%22mbox%22:%22mailto:a@b%22%7D { => token-1: document ids of http://a/1
media -
GET agent=%7B%22mbox%22:%22mailto:a@b%22%7D&since=2023-11-14T22:13:20Z => token-1: document ids of http://a/1
GET agent=%7B%22mbox%22:%22mailto:a@b%22%7D&since=now => token-1: Store 400 P9
GET agent=%7B%22mbox%22:%22mailto:a@b%22%7D&stateId=b&since=2023-11-14T22:13:20Z => token-1: Store 400 P2
GET agent=%7B%22mbox%22:%22mailto:a@b%22%7D&stateId=b&stateId=b => token-1: Store 400 P3
media text/plain
DELETE agent=%7B%22mbox%22:%22mailto:a@b%22%7D&stateId=b { => token-1: drop b
media -
DELETE agent=%7B%22mbox%22:%22mailto:a@b%22%7D&stateId= => token-1: drop |
DELETE agent=%7B%22mbox%22:%22mailto:a@b%22%7D => token-1: drop all of http://a/1
DELETE agent=%7B%22mbox%22:%22mailto:a@b%22%7D&since=2023-11-14T22:13:20Z => token-1: Store 400 P2
DELETE agent=%7B%22mbox%22:%22mailto:a@b%22%7D&since=%FF => token-1: Store 400 P1
";

#[test]
fn reads_documents(rt: HostRuntime) -> Result<(), Fail> {
    check_rows(rt.alloc(), DOCUMENTS)
}

// Of no profile a document is held. Neither the parameters nor the body are looked at.
const PROFILES: &str = "
GET /xapi/activities/profile?a=%FF { => token-1: profile
GET /xapi/activities/profile?profileId=a&activityId=a { => token-1: profile
GET /xapi/agents/profile?a=%FF { => token-1: profile
GET /xapi/agents/profile?a&a { => token-1: profile
";

#[test]
fn reads_profiles(rt: HostRuntime) -> Result<(), Fail> {
    check_rows(rt.alloc(), PROFILES)
}
