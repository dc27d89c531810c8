// Which blocks are told of, and in which order.
use crate::verdict::rows::check_rows;
use std::test::Fail;

// A block that holds one unit.
const SMALL: &str =
    r#"{"id":"http://c/1","title":{"en":"C"},"children":[{"kind":"block","id":"http://c/b","title":{"en":"B"},"children":[{"kind":"unit","id":"http://c/u","title":{"en":"U"},"url":"https://au.example/u","moveOn":"CompletedAndPassed","masteryScore":0.8}]}]}"#;

const ONCE: &str = r#"
nothing => ---
passed:2 => ---
passed:2 completed:2 => +++ 1 0
waived:2 => +++ 1 0
passed:2 completed:2 satisfied:1 satisfied:0 => +++
passed:2 completed:2 satisfied:1 => +++ 0
passed:2 completed:2 satisfied:1 satisfied:0 voids:1 => ---
passed:2 completed:2 satisfied:1 satisfied:0 voids:1 passed:2 => +++
"#;

#[test]
fn a_block_is_told_before_its_course_and_once(rt: HostRuntime) -> Result<(), Fail> {
    check_rows(rt.alloc(), SMALL, ONCE)
}

// The same, where some of the statements are new.
const NEW: &str = r#"
// nothing is new
passed:2 completed:2 | => +++ 1 0
passed:2 | => ---
// what completes it is new
passed:2 | completed:2 => +++ 1 0
| completed:2 passed:2 => +++ 1 0
| waived:2 => +++ 1 0
// a new one is voided by one that is held
passed:2 voids:3 | completed:2 => ---
voids:2 | waived:2 => ---
passed:2 voids:3 | completed:2 completed:2 => +++ 1 0
// a new one voids one that is held, or a new one
passed:2 completed:2 | voids:1 => ---
waived:2 | voids:1 passed:2 completed:2 => +++ 1 0
passed:2 | completed:2 voids:2 => ---
passed:2 | voids:3 completed:2 => ---
// what was said is new, and may be voided
passed:2 completed:2 satisfied:1 | satisfied:0 => +++
passed:2 completed:2 | satisfied:1 voids:3 => +++ 0
passed:2 completed:2 satisfied:1 | voids:3 voids:1 => ---
// new ones of another registration
| other-completed:2 other-passed:2 other-waived:2 => ---
"#;

#[test]
fn new_statements_count_behind_those_that_are_held(rt: HostRuntime) -> Result<(), Fail> {
    check_rows(rt.alloc(), SMALL, NEW)
}

// 0 the course: 1 a block of 2 a block of 3 a unit (Completed), and of 4 a unit (Passed); 5 a block of 6 a block of 7 a
// unit (NotApplicable); 8 a unit (Completed).
const DEEP: &str =
    r#"{"id":"http://c/1","title":{"en":"C"},"children":[{"kind":"block","id":"http://c/b1","title":{"en":"B"},"children":[{"kind":"block","id":"http://c/b2","title":{"en":"B"},"children":[{"kind":"unit","id":"http://c/u3","title":{"en":"U"},"url":"http://a/3","moveOn":"Completed"}]},{"kind":"unit","id":"http://c/u4","title":{"en":"U"},"url":"http://a/4","moveOn":"Passed"}]},{"kind":"block","id":"http://c/b5","title":{"en":"B"},"children":[{"kind":"block","id":"http://c/b6","title":{"en":"B"},"children":[{"kind":"unit","id":"http://c/u7","title":{"en":"U"},"url":"http://a/7"}]}]},{"kind":"unit","id":"http://c/u8","title":{"en":"U"},"url":"http://a/8","moveOn":"Completed"}]}"#;

const DEEPER: &str = r#"
nothing => -----+++- 6 5
satisfied:6 => -----+++- 5
satisfied:6 voids:1 => -----+++- 5
satisfied:5 => -----+++- 6
other-satisfied:6 other-satisfied:5 => -----+++- 6 5
completed:8 => -----++++ 6 5
completed:3 => --++-+++- 2 6 5
passed:4 => ----++++- 6 5
completed:3 passed:4 => -+++++++- 2 6 1 5
passed:4 completed:3 => -+++++++- 2 6 1 5
completed:3 passed:4 completed:8 => +++++++++ 2 6 1 5 0
waived:3 waived:4 waived:8 waived:7 => +++++++++ 2 6 1 5 0
completed:3 passed:4 completed:8 satisfied:2 satisfied:6 satisfied:1 satisfied:5 satisfied:0 voids:2 => --++-++++
completed:3 passed:4 completed:8 satisfied:2 satisfied:6 satisfied:1 satisfied:5 satisfied:0 voids:2 passed:4 => +++++++++
"#;

#[test]
fn deeper_blocks_are_told_first(rt: HostRuntime) -> Result<(), Fail> {
    check_rows(rt.alloc(), DEEP, DEEPER)
}
