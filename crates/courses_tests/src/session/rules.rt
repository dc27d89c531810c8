// Each rule broken alone, and the rules on who, when and where at their edges.
use crate::session::rows::check_rows;
use std::test::Fail;

const ALONE: &str = r#"
initialized => taken
completed => taken
passed => taken
failed => taken
terminated => taken
other CATEGORY=[] => taken
other SAID=VERB/voided OBJECT=REFERENCE CATEGORY=[] => C2
passed ACTOR={"account":{"homePage":"https://p.example","name":"k2"}} => C3
passed REGISTRATION=00000000-0000-4000-8000-0000000000ac => C4
passed phase=Abandoned => C5
passed phase=Terminated => C6
passed phase=Fetched => C7
other => C8
passed ACTIVITY=http://lrs.example/activities/0/3 => C9
passed SESSION=00000000-0000-4000-8000-0000000000ce => C10
passed PUBLISHER=http://c/v => C11
initialized phase=Initialized => C12
passed mode=Browse => C13
passed CATEGORY=[CMI5] => C14
passed RESULT={"score":{"scaled":1},"success":false} => C15
completed stands=completed => C16
passed stands=passed => C17
passed SCALED=0.7 => C18
failed SCALED=0.9 => C18
passed MORE=,"EXTENSION/masteryscore":0.7 => C19
terminated RESULT={} => C20
"#;

#[test]
fn each_rule_can_be_broken_alone(rt: HostRuntime) -> Result<(), Fail> {
    check_rows(rt.alloc(), ALONE)
}

// C2 to C4, which hold of all that a session says.
const WHO: &str = r#"
// a statement that voids, and one that speaks of another that would
other SAID=VERB/voided OBJECT=REFERENCE => C2
other OBJECT={"objectType":"SubStatement","actor":ACTOR,"verb":{"id":"VERB/voided"},"object":REFERENCE} CATEGORY=[] => taken
other OBJECT=REFERENCE CATEGORY=[] => taken
// the learner by its identifier, however it is spelled and called
initialized ACTOR={"objectType":"Agent","name":"K","account":{"name":"k1","homePage":"https://p.example"}} => taken
initialized ACTOR={"account":{"homePage":"https://p.example","name":"\u006b1"}} => taken
initialized ACTOR={"account":{"homePage":"https://p.example","name":"K1"}} => C3
initialized ACTOR={"account":{"homePage":"https://p.example/","name":"k1"}} => C3
initialized ACTOR={"account":{"homePage":"https://q.example","name":"k1"}} => C3
initialized ACTOR={"mbox":"mailto:k1@p.example"} => C3
initialized ACTOR={"openid":"https://p.example"} => C3
// no group, not even of that identifier or of the learner alone
initialized ACTOR={"objectType":"Group","account":{"homePage":"https://p.example","name":"k1"}} => C3
initialized ACTOR={"objectType":"Group","member":[{"account":{"homePage":"https://p.example","name":"k1"}}]} => C3
other ACTOR={"mbox":"mailto:a@b"} CATEGORY=[] => C3
// the registration by its value
initialized REGISTRATION=00000000-0000-4000-8000-0000000000AB => taken
initialized REGISTRATION=SESSION => C4
initialized CONTEXT={"contextActivities":ACTIVITIES,"extensions":EXTENSIONS} => C4
other CONTEXT={"registration":"REGISTRATION"} => taken
other CONTEXT={} => C4
"#;

#[test]
fn a_session_speaks_of_its_learner_in_its_registration(rt: HostRuntime) -> Result<(), Fail> {
    check_rows(rt.alloc(), WHO)
}

// C8 to C11, which hold of what cmi5 defines.
const NAMED: &str = r#"
// the five verbs by their spelling
other SAID=VERB/launched => C8
other SAID=VERB/Passed => C8
other SAID=VERB/passed/ => C8
other SAID=https://w3id.org/xapi/adl/verbs/abandoned => C8
other SAID=https://w3id.org/xapi/adl/verbs/waived => C8
other SAID=https://w3id.org/xapi/adl/verbs/satisfied => C8
other CATEGORY=CMI5 => C8
other CATEGORY=[{"id":"http://c/x"},CMI5] => C8
// no statement that cmi5 defines
other CATEGORY=[MOVEON] => taken
other ACTIVITIES={"grouping":[CMI5],"parent":[CMI5],"other":[CMI5]} => taken
completed OBJECT={"id":"http://a/1"} EXTENSIONS={} GROUPING=[] CATEGORY=[MOVEON] => taken
// the unit by the store's id
completed OBJECT={"objectType":"Activity","id":"ACTIVITY","definition":{"type":"http://t/1"}} => taken
completed ACTIVITY=http://LRS.example/activities/0/2 => C9
completed OBJECT={"id":"PUBLISHER"} => C9
completed OBJECT=REFERENCE => C9
completed OBJECT={"objectType":"Agent","mbox":"mailto:a@b"} => C9
completed OBJECT={"objectType":"SubStatement","actor":ACTOR,"verb":{"id":"VERB/completed"},"object":{"id":"ACTIVITY"}} => C9
// the session's id in lower case
completed EXTENSIONS={"http://e/1":1,"EXTENSION/sessionid":"\u00300000000-0000-4000-8000-0000000000cd"} => taken
completed SESSION=00000000-0000-4000-8000-0000000000CD => C10
completed EXTENSIONS={"EXTENSION/sessionid":"REGISTRATION"} => C10
completed EXTENSIONS={"EXTENSION/sessionid":["SESSION"]} => C10
completed EXTENSIONS={"EXTENSION/sessionid":0} => C10
completed EXTENSIONS={"EXTENSION/sessionId":"SESSION"} => C10
completed EXTENSIONS={} => C10
completed CONTEXT={"registration":"REGISTRATION","contextActivities":ACTIVITIES} => C10
// the publisher's id in the grouping, beside others or alone
completed GROUPING=[{"id":"http://c/x"},{"objectType":"Activity","id":"PUBLISHER"}] => taken
completed GROUPING={"id":"PUBLISHER"} => taken
completed GROUPING={"id":"http://c/x"} => C11
completed GROUPING=[{"id":"ACTIVITY"}] => C11
completed GROUPING=[] => C11
completed ACTIVITIES={"category":CATEGORY} => C11
completed ACTIVITIES={"parent":GROUPING,"other":GROUPING,"category":CATEGORY} => C11
completed PUBLISHER=http://c/U => C11
"#;

#[test]
fn what_cmi5_defines_names_its_unit_and_its_session(rt: HostRuntime) -> Result<(), Fail> {
    check_rows(rt.alloc(), NAMED)
}
