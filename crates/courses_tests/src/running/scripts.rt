// What comes one after the other, in two registrations of one course.
use crate::running::rows::check_rows;
use std::test::Fail;

// The sample session passes and completes. Its passed is voided, and said again.
const SAMPLE: &str = r#"
enrolment => F ---
first-initialized:2 => I ---
first-passed:2 => Ip ---
first-completed:2 => Icp +++ 1 0
desk-satisfied:1 => Icp +++ 0
desk-satisfied:0 => Icp +++
admin-voids:2 => Ic ---
first-passed:2 => Icp +++
first-terminated:2 => Tcp +++
"#;

#[test]
fn the_sample_session_is_told_by_what_is_kept(rt: HostRuntime) -> Result<(), Fail> {
    check_rows(rt.alloc(), SAMPLE)
}

const VOIDED: &str = r#"
enrolment => F ---
// before it comes
admin-voids:2 => F ---
first-passed:2 => F ---
first-completed:2 => Fc ---
first-passed:2 => Fcp +++ 1 0
// what voids isn't voided
admin-voids:1 => Fcp +++ 1 0
// once and twice
admin-voids:4 => Fc ---
admin-voids:4 => Fc ---
// one of two that say the same
admin-voids:9 => Fc ---
first-completed:2 => Fc ---
first-passed:2 => Fcp +++ 1 0
admin-voids:3 => Fp ---
// how far a session has come is told by what is voided, too
first-initialized:2 => Ip ---
admin-voids:12 => Ip ---
first-completed:2 => Icp +++ 1 0
first-terminated:2 => Tcp +++ 1 0
admin-voids:15 => Tcp +++ 1 0
"#;

#[test]
fn what_is_voided_does_not_count_whichever_comes_first(rt: HostRuntime) -> Result<(), Fail> {
    check_rows(rt.alloc(), VOIDED)
}

const WAIVED: &str = r#"
enrolment => F ---
desk-waived:2 => F +++ 1 0
desk-satisfied:1 => F +++ 0
admin-voids:1 => F ---
// what was said isn't said again, though it is voided
admin-voids:2 => F ---
desk-waived:2 => F +++ 0
// one of two waivers
desk-waived:2 => F +++ 0
admin-voids:5 => F +++ 0
desk-satisfied:0 => F +++
admin-voids:6 => F ---
// about the block, and about no node of the course
first-passed:1 => F ---
first-completed:10 => F ---
first-passed:2 => Fp ---
first-completed:2 => Fcp +++
"#;

#[test]
fn a_unit_is_met_as_long_as_a_waiver_stands(rt: HostRuntime) -> Result<(), Fail> {
    check_rows(rt.alloc(), WAIVED)
}

const TWO: &str = r#"
enrolment => F ---
// of a registration that isn't held yet, some of it voided
second-passed:2 => F ---
admin-voids:1 => F ---
admin-voids:5 => F ---
second-completed:2 => F ---
second-passed:2 => F ---
first-passed:2 => Fp ---
enrolment => Fp ---
second-passed:2 => Fp ---
office-satisfied:1 => Fp ---
first-completed:2 => Fcp +++ 1 0
admin-voids:7 => Fcp +++ 1 0
// another session of the first registration
later-failed:2 => Fcp +++ 1 0
later-passed:2 => Fcp +++ 1 0
admin-voids:6 => Fcp +++ 1 0
admin-voids:12 => Fc ---
office-waived:2 => Fc ---
second-terminated:2 => Fc ---
later-initialized:2 => Fc ---
first-terminated:2 => Tc ---
"#;

#[test]
fn two_registrations_of_one_course_are_kept_apart(rt: HostRuntime) -> Result<(), Fail> {
    check_rows(rt.alloc(), TWO)
}
