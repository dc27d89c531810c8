// The rules on what is said of how a learner did, at their edges.
use crate::session::rows::check_rows;
use std::test::Fail;

// C13 to C15.
const RESULTS: &str = r#"
// in mode Normal alone
completed mode=Browse => C13
passed mode=Review => C13
failed mode=Browse => C13
failed mode=Review => C13
initialized mode=Browse => taken
terminated mode=Review => taken
completed mode=Review CATEGORY=[MOVEON] => taken
// what counts for moveOn says so
completed CATEGORY=[CMI5] => C14
completed CATEGORY=CMI5 => C14
failed CATEGORY=[CMI5] => C14
failed CATEGORY=[CMI5,{"id":"http://c/x"}] => C14
completed ACTIVITIES={"grouping":[{"id":"PUBLISHER"},MOVEON],"category":[CMI5],"other":[MOVEON]} => C14
completed CATEGORY=[MOVEON,{"id":"http://c/x"},CMI5] => taken
initialized CATEGORY=[CMI5,MOVEON] => taken
terminated CATEGORY=[CMI5,MOVEON] => taken
// and the result says what the verb says
completed OUTCOME= => C15
completed RESULT={} => C15
completed RESULT={"completion":false} => C15
completed RESULT={"success":true} => C15
completed RESULT={"completion":true,"success":false} => taken
passed OUTCOME= => C15
passed RESULT={"completion":true} => C15
passed RESULT={"success":true,"completion":false} => taken
failed OUTCOME= => C15
failed RESULT={"completion":false} => C15
failed RESULT={"success":true} => C15
failed RESULT={"success":false,"completion":true} => taken
initialized RESULT={"completion":false,"success":false} => taken
terminated RESULT={"completion":false,"success":false,"duration":"PT1S"} => taken
"#;

#[test]
fn a_result_counts_where_it_may(rt: HostRuntime) -> Result<(), Fail> {
    check_rows(rt.alloc(), RESULTS)
}

// C16 and C17.
const EARLIER: &str = r#"
completed stands=completed,passed => C16
completed stands=passed => taken
completed stands=completed CATEGORY=[MOVEON] => taken
passed stands=completed,passed => C17
passed stands=completed => taken
passed stands=passed CATEGORY=[MOVEON] => taken
failed stands=completed,passed => taken
initialized stands=completed,passed => taken
terminated stands=completed,passed => taken
"#;

#[test]
fn a_unit_is_completed_once_and_passed_once(rt: HostRuntime) -> Result<(), Fail> {
    check_rows(rt.alloc(), EARLIER)
}

// C18. A score is compared by its value.
const PASSED: &str = r#"
passed SCALED=0.8 => taken
passed SCALED=0.80 => taken
passed SCALED=8e-1 => taken
passed SCALED=80.0E-2 => taken
passed SCALED=0.8 mastery=0.80 => taken
passed SCALED=0.8 mastery=8e-1 => taken
passed SCALED=0.8000000000000000000000000000000001 => taken
passed SCALED=0.7999999999999999999999999999999999 => C18
passed SCALED=0.79 => C18
passed SCALED=7.99e-1 => C18
passed SCALED=0 => C18
passed SCALED=-0.8 => C18
passed SCALED=0.99 mastery=1 => C18
passed SCALED=10e-1 mastery=1 => taken
passed SCALED=-0 mastery=0 => taken
passed SCALED=-1e-9 mastery=0 => C18
// nothing to compare
passed SCALED=-1 mastery=none => taken
passed RESULT={"success":true} => taken
passed RESULT={"score":{"raw":1,"min":0,"max":100},"success":true} => taken
// no statement that says of passing
completed RESULT={"completion":true,"score":{"scaled":0.1}} => taken
terminated RESULT={"duration":"PT1S","score":{"scaled":0.1}} => taken
passed SCALED=0.1 CATEGORY=[MOVEON] => taken
"#;

#[test]
fn who_passed_has_the_mastery_score(rt: HostRuntime) -> Result<(), Fail> {
    check_rows(rt.alloc(), PASSED)
}

const FAILED: &str = r#"
failed SCALED=0.79 => taken
failed SCALED=0.7999999999999999999999999999999999 => taken
failed SCALED=-1 => taken
failed SCALED=0.8 => C18
failed SCALED=0.80 => C18
failed SCALED=8e-1 => C18
failed SCALED=0.8 mastery=80e-2 => C18
failed SCALED=0.8000000000000000000000000000000001 => C18
failed SCALED=1 => C18
failed SCALED=-0 mastery=0 => C18
failed SCALED=-1e-9 mastery=0 => taken
failed SCALED=1 mastery=none => taken
failed RESULT={"success":false} => taken
failed SCALED=1 CATEGORY=[MOVEON] => taken
"#;

#[test]
fn who_failed_has_less_than_the_mastery_score(rt: HostRuntime) -> Result<(), Fail> {
    check_rows(rt.alloc(), FAILED)
}

// C19. So is the mastery score that a statement tells.
const QUOTED: &str = r#"
passed MORE=,"EXTENSION/masteryscore":0.8 => taken
passed MORE=,"EXTENSION/masteryscore":0.80 => taken
passed MORE=,"EXTENSION/masteryscore":8e-1 => taken
passed MORE=,"EXTENSION/masteryscore":0.8 mastery=8.0E-1 => taken
passed MORE=,"EXTENSION/masteryscore":0.8000000000000000000000000000000001 => C19
passed MORE=,"EXTENSION/masteryscore":-0.8 => C19
passed MORE=,"EXTENSION/masteryscore":-0 mastery=0 => taken
// of a unit that has none
passed MORE=,"EXTENSION/masteryscore":0.8 mastery=none => C19
passed MORE=,"EXTENSION/masteryscore":null mastery=none => C19
passed mastery=none => taken
// what is no number
passed MORE=,"EXTENSION/masteryscore":"0.8" => C19
passed MORE=,"EXTENSION/masteryscore":null => C19
passed MORE=,"EXTENSION/masteryscore":true => C19
passed MORE=,"EXTENSION/masteryscore":[0.8] => C19
passed MORE=,"EXTENSION/masteryscore":{"value":0.8} => C19
// with each verb
initialized MORE=,"EXTENSION/masteryscore":0.7 => C19
completed MORE=,"EXTENSION/masteryscore":0.7 => C19
failed MORE=,"EXTENSION/masteryscore":0.7 => C19
terminated MORE=,"EXTENSION/masteryscore":0.7 => C19
initialized MORE=,"EXTENSION/masteryscore":0.80 => taken
// no statement that cmi5 defines
passed MORE=,"EXTENSION/masteryscore":0.7 CATEGORY=[MOVEON] => taken
"#;

#[test]
fn the_mastery_score_is_told_as_it_is(rt: HostRuntime) -> Result<(), Fail> {
    check_rows(rt.alloc(), QUOTED)
}

// C20.
const DURATIONS: &str = r#"
terminated RESULT={"duration":"PT0S"} => taken
terminated RESULT={"duration":"P0D"} => taken
terminated RESULT={"duration":"PT0.00S","completion":false} => taken
terminated OUTCOME= => C20
terminated RESULT={"completion":true,"extensions":{"http://e/duration":"PT1S"}} => C20
terminated OUTCOME= CATEGORY=[MOVEON] => taken
initialized OUTCOME= => taken
passed RESULT={"success":true,"duration":"PT0S"} => taken
"#;

#[test]
fn who_ends_tells_how_long_it_took(rt: HostRuntime) -> Result<(), Fail> {
    check_rows(rt.alloc(), DURATIONS)
}
