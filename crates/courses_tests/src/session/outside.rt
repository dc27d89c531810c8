// What callers may say who are no sessions.
use crate::session::rows::check_rows;
use std::test::Fail;

const OUTSIDE: &str = r#"
// what cmi5 defines, whatever else it says
initialized who=admin => C1
completed who=admin => C1
passed who=admin => C1
failed who=admin => C1
terminated who=admin => C1
other who=admin => C1
initialized who=provider => C1
passed who=provider => C1
other who=provider => C1
other CATEGORY=CMI5 who=admin => C1
other CATEGORY=[{"id":"http://c/x"},CMI5] who=provider => C1
// what it doesn't define
initialized CATEGORY=[] who=admin => taken
passed CATEGORY=[MOVEON] who=provider => taken
other CONTEXT={} who=provider => taken
other ACTIVITIES={"grouping":[CMI5],"parent":[CMI5],"other":[CMI5]} who=admin => taken
other CATEGORY=[{"id":"https://w3id.org/xapi/cmi5/context/categories/Cmi5"}] who=admin => taken
other CATEGORY=[{"id":"https://w3id.org/xapi/cmi5/context/categories/cmi5/"}] who=provider => taken
other CONTEXT={} OBJECT={"objectType":"SubStatement","actor":ACTOR,"verb":{"id":"VERB/passed"},"object":{"id":"ACTIVITY"},"context":{"contextActivities":{"category":[CMI5]}}} who=provider => taken
// an admin alone voids
other SAID=VERB/voided OBJECT=REFERENCE CATEGORY=[] who=admin => taken
other SAID=VERB/voided OBJECT=REFERENCE CATEGORY=[] who=provider => C2
other SAID=VERB/voided OBJECT=REFERENCE who=admin => C1
other SAID=VERB/voided OBJECT=REFERENCE who=provider => C1
other OBJECT={"objectType":"SubStatement","actor":ACTOR,"verb":{"id":"VERB/voided"},"object":REFERENCE} CATEGORY=[] who=provider => taken
"#;

#[test]
fn a_session_alone_says_what_cmi5_defines_and_an_admin_alone_voids(
    rt: HostRuntime,
) -> Result<(), Fail> {
    check_rows(rt.alloc(), OUTSIDE)
}
