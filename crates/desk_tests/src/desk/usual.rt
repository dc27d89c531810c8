// A usual session from its fetch to its end.
use crate::rows::check_rows_with;
use std::alloc::Global;
use std::test::Fail;

// What the learner answers, and a bookmark of 6,144 bytes.
const WORDS: [(&str, &str); 6] = [
    (
        "ANSWER",
        r#"{"actor":LEARNER,"verb":{"id":"http://adlnet.gov/expapi/verbs/answered","display":{"en":"answered","de":"antwortete"}},"object":{"objectType":"Activity","id":"http://c/u/q","definition":{"name":{"en":"Which one?","de":"Welches?"},"description":{"en":"One of two"},"type":"http://adlnet.gov/expapi/activities/cmi.interaction","interactionType":"choice","correctResponsesPattern":["a"],"choices":[{"id":"a","description":{"en":"A"}},{"id":"b"}],"extensions":{"http://e/1":{"tries":[1,null]}}}},"result":{"score":{"scaled":0.5},"success":true,"response":"a","duration":"PT3.5S","extensions":{"http://e/2":"b"}},"context":{"registration":"ID10","language":"de-AT","platform":"p","contextActivities":{"parent":{"id":"BASEactivities/0/2"}},"extensions":{"http://e/3":1.50}}}"#,
    ),
    ("BOOKMARK", "B2048B2048B2048"),
    ("B2048", "B512B512B512B512"),
    ("B512", "B128B128B128B128"),
    ("B128", "B32B32B32B32"),
    ("B32", "0123456789abcdef0123456789abcdef"),
];

const ROWS: &str = r#"
sample
TOKEN GET STATE&agent=AGENT&registration=ID10&stateId=LMS.LaunchData => 200 application/json {"contextTemplate":{"contextActivities":{"grouping":[{"objectType":"Activity","id":"http://c/u"}]},"extensions":{"https://w3id.org/xapi/cmi5/context/extensions/sessionid":"ID20"}},"launchMode":"Normal","moveOn":"CompletedAndPassed","masteryScore":0.8}
TOKEN GET /xapi/agents/profile?profileId=cmi5LearnerPreferences&agent=AGENT => 404 {"error":"404"}
TOKEN PUT /xapi/statements?statementId=ID40 {INITIALIZED,FIRST} => 204 kept
TOKEN PUT /xapi/statements?statementId=ID41 ANSWER => 204 kept
TOKEN PUT /xapi/statements?statementId=ID42 ANSWER => 204 kept
TOKEN PUT /xapi/statements?statementId=ID43 ANSWER => 204 kept
TOKEN PUT /xapi/statements?statementId=ID44 ANSWER => 204 kept
TOKEN PUT /xapi/statements?statementId=ID45 ANSWER => 204 kept
TOKEN PUT /xapi/statements?statementId=ID46 ANSWER => 204 kept
TOKEN PUT /xapi/statements?statementId=ID47 ANSWER => 204 kept
TOKEN PUT /xapi/statements?statementId=ID48 ANSWER => 204 kept
TOKEN PUT /xapi/statements?statementId=ID49 ANSWER => 204 kept
TOKEN PUT /xapi/statements?statementId=ID4a ANSWER => 204 kept
TOKEN PUT /xapi/statements?statementId=ID4b ANSWER => 204 kept
TOKEN PUT /xapi/statements?statementId=ID4c ANSWER => 204 kept
TOKEN PUT /xapi/statements?statementId=ID4d ANSWER => 204 kept
TOKEN PUT /xapi/statements?statementId=ID4e ANSWER => 204 kept
TOKEN PUT /xapi/statements?statementId=ID4f ANSWER => 204 kept
TOKEN PUT /xapi/statements?statementId=ID50 ANSWER => 204 kept
TOKEN PUT /xapi/statements?statementId=ID51 ANSWER => 204 kept
TOKEN PUT /xapi/statements?statementId=ID52 ANSWER => 204 kept
TOKEN PUT /xapi/statements?statementId=ID53 ANSWER => 204 kept
TOKEN PUT /xapi/statements?statementId=ID54 ANSWER => 204 kept
TOKEN PUT /xapi/statements?statementId=ID55 ANSWER => 204 kept
TOKEN PUT /xapi/statements?statementId=ID56 ANSWER => 204 kept
TOKEN PUT /xapi/statements?statementId=ID57 ANSWER => 204 kept
TOKEN PUT /xapi/statements?statementId=ID58 ANSWER => 204 kept
TOKEN PUT /xapi/statements?statementId=ID59 ANSWER => 204 kept
TOKEN PUT /xapi/statements?statementId=ID5a ANSWER => 204 kept
TOKEN PUT /xapi/statements?statementId=ID5b ANSWER => 204 kept
TOKEN PUT /xapi/statements?statementId=ID5c ANSWER => 204 kept
TOKEN PUT /xapi/statements?statementId=ID5d ANSWER => 204 kept
TOKEN PUT /xapi/statements?statementId=ID5e ANSWER => 204 kept
TOKEN PUT /xapi/statements?statementId=ID5f ANSWER => 204 kept
TOKEN PUT /xapi/statements?statementId=ID60 ANSWER => 204 kept
TOKEN PUT /xapi/statements?statementId=ID61 ANSWER => 204 kept
TOKEN PUT /xapi/statements?statementId=ID62 ANSWER => 204 kept
TOKEN PUT /xapi/statements?statementId=ID63 ANSWER => 204 kept
TOKEN PUT /xapi/statements?statementId=ID64 ANSWER => 204 kept
TOKEN PUT /xapi/statements?statementId=ID65 ANSWER => 204 kept
TOKEN PUT STATE&agent=AGENT&registration=ID10&stateId=bookmark BOOKMARK => 204 kept
TOKEN GET STATE&agent=AGENT&registration=ID10&stateId=bookmark => 200 application/json BOOKMARK
TOKEN PUT /xapi/statements?statementId=ID66 {COMPLETED,FIRST} => 204 kept
TOKEN PUT /xapi/statements?statementId=ID67 {TERMINATED,FIRST} => 204 kept
"#;

#[test]
fn a_usual_session_goes_through(rt: HostRuntime) -> Result<(), Fail> {
    check_rows_with(rt.alloc(), &WORDS, ROWS)
}
