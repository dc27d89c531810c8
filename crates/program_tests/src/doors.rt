//! How `serve` ends with two workers of which a door fails.
use crate::repeats::first_of_append;
use crate::runs::{Around, PUT, run_over, stored};
use crate::workers::ending;
use std::alloc::Global;
use std::slice::from_ref;
use std::sync::Wait;
use std::test::Fail;
use std::thread::Threads;

const SERVE_TWO: &str = "serve s 127.0.0.1:8080 --workers 2 --connections 2";

// Which call of `next` fails at the first door and at the second, and how the run ends: its status, the number of entries
// and the line. Each door is asked for two connections and gives one, which brings a statement. So call 2 never comes.
const ENDS: [(u64, u64, &str); 9] = [
    (2, 2, "0 3 served 2\n"),
    (0, 2, "8 2 lobby fault\n"),
    (2, 0, "8 2 lobby fault\n"),
    (1, 2, "8 3 lobby fault\n"),
    (2, 1, "8 3 lobby fault\n"),
    (0, 0, "8 1 lobby fault\n"),
    (0, 1, "8 2 lobby fault\n"),
    (1, 0, "8 2 lobby fault\n"),
    (1, 1, "8 3 lobby fault\n"),
];

// The same where the one statement is in doubt, and the closing can't end that.
const IN_DOUBT: [(u64, u64, &str); 2] = [(0, 2, "5 2 disk fault\n"), (2, 0, "5 2 disk fault\n")];

// How a run ends of which these calls fail: of each door's `next`, and of the disk.
fn found<R: Threads + Wait + Sync>(
    rt: &R,
    alloc: Global,
    first: &u64,
    second: &u64,
    disk_fails: &[u64],
) -> Result<String, Fail> {
    let other = PUT.replace(
        alloc,
        "11111111-1111-4111-8111-111111111111",
        "22222222-2222-4222-8222-222222222222",
    )?;
    let around = Around {
        others: from_ref(&other),
        door_fails: from_ref(first),
        other_fails: from_ref(second),
        disk_fails,
        ..Around::calm(stored(), "", &[PUT])
    };
    let ran = run_over(rt, alloc, SERVE_TWO, &around)?;
    let found = ending(alloc, &ran);
    drop(ran);
    found
}

// Fails with the first row that ends otherwise.
fn check_ends<R: Threads + Wait + Sync>(
    rt: &R,
    alloc: Global,
    rows: &[(u64, u64, &str)],
    disk_fails: &[u64],
) -> Result<(), Fail> {
    for (first, second, expected) in rows.iter() {
        let found = found(rt, alloc, first, second, disk_fails)?;
        if found.as_str() != *expected {
            return Err(Fail::from(format!(in alloc; "{first} {second}: {found}")?));
        }
    }
    Ok(())
}

#[test]
fn a_door_that_fails_goes_before_workers_that_are_done(rt: HostRuntime) -> Result<(), Fail> {
    check_ends(&rt, rt.alloc(), &ENDS, &[])
}

// The sixth call of the append fails, and the first of the closing.
#[test]
fn a_disk_fault_goes_before_a_door_that_fails(rt: HostRuntime) -> Result<(), Fail> {
    let first = first_of_append(&rt, rt.alloc())?;
    let failing = [first.saturating_add(5), first.saturating_add(6)];
    check_ends(&rt, rt.alloc(), &IN_DOUBT, &failing)
}
