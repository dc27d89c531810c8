// Each verb in each phase of a session.
use crate::session::rows::check_rows;
use std::test::Fail;

// Statements that cmi5 defines.
const DEFINED: &str = r#"
initialized phase=Launched => taken
completed phase=Launched => C7
passed phase=Launched => C7
failed phase=Launched => C7
terminated phase=Launched => C7
other phase=Launched => C7
initialized phase=Fetched => taken
completed phase=Fetched => C7
passed phase=Fetched => C7
failed phase=Fetched => C7
terminated phase=Fetched => C7
other phase=Fetched => C7
initialized phase=Initialized => C12
completed phase=Initialized => taken
passed phase=Initialized => taken
failed phase=Initialized => taken
terminated phase=Initialized => taken
other phase=Initialized => C8
initialized phase=Terminated => C6
completed phase=Terminated => C6
passed phase=Terminated => C6
failed phase=Terminated => C6
terminated phase=Terminated => C6
other phase=Terminated => C6
initialized phase=Abandoned => C5
completed phase=Abandoned => C5
passed phase=Abandoned => C5
failed phase=Abandoned => C5
terminated phase=Abandoned => C5
other phase=Abandoned => C5
"#;

#[test]
fn what_cmi5_defines_comes_in_its_order(rt: HostRuntime) -> Result<(), Fail> {
    check_rows(rt.alloc(), DEFINED)
}

// The same without the category that says so.
const OTHERS: &str = r#"
initialized phase=Launched CATEGORY=[MOVEON] => C7
completed phase=Launched CATEGORY=[MOVEON] => C7
passed phase=Launched CATEGORY=[MOVEON] => C7
failed phase=Launched CATEGORY=[MOVEON] => C7
terminated phase=Launched CATEGORY=[MOVEON] => C7
other phase=Launched CATEGORY=[MOVEON] => C7
initialized phase=Fetched CATEGORY=[MOVEON] => C7
completed phase=Fetched CATEGORY=[MOVEON] => C7
passed phase=Fetched CATEGORY=[MOVEON] => C7
failed phase=Fetched CATEGORY=[MOVEON] => C7
terminated phase=Fetched CATEGORY=[MOVEON] => C7
other phase=Fetched CATEGORY=[MOVEON] => C7
initialized phase=Initialized CATEGORY=[MOVEON] => taken
completed phase=Initialized CATEGORY=[MOVEON] => taken
passed phase=Initialized CATEGORY=[MOVEON] => taken
failed phase=Initialized CATEGORY=[MOVEON] => taken
terminated phase=Initialized CATEGORY=[MOVEON] => taken
other phase=Initialized CATEGORY=[MOVEON] => taken
initialized phase=Terminated CATEGORY=[MOVEON] => C6
completed phase=Terminated CATEGORY=[MOVEON] => C6
passed phase=Terminated CATEGORY=[MOVEON] => C6
failed phase=Terminated CATEGORY=[MOVEON] => C6
terminated phase=Terminated CATEGORY=[MOVEON] => C6
other phase=Terminated CATEGORY=[MOVEON] => C6
initialized phase=Abandoned CATEGORY=[MOVEON] => C5
completed phase=Abandoned CATEGORY=[MOVEON] => C5
passed phase=Abandoned CATEGORY=[MOVEON] => C5
failed phase=Abandoned CATEGORY=[MOVEON] => C5
terminated phase=Abandoned CATEGORY=[MOVEON] => C5
other phase=Abandoned CATEGORY=[MOVEON] => C5
"#;

#[test]
fn what_cmi5_does_not_define_comes_between_begin_and_end(rt: HostRuntime) -> Result<(), Fail> {
    check_rows(rt.alloc(), OTHERS)
}
