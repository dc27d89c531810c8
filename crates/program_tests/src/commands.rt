// What `init`, `intake` and `load` print and leave, as texts of rows: commands over one file, one after the other.
//
//   FILE FAULT WORDS <INPUT => STATUS ENTRIES LINE
//
// FILE is what the file holds before: `none`, `header`, `letter`, `store`, or `old`, a store of the old format, or `last`,
// what the row before left. FAULT is the call that fails, as `disk:0` or `input:0`, or `room:` and how many bytes the output takes, or `-`. INPUT is
// `statement`, `other` or `unnamed`, or is given as it is. A second line stands after a comma. After a LINE that is cut
// off stands `..`, and `changed` after the line if the file isn't as it was, with a status by which it has to be if no
// batch of a load went well.
use crate::runs::{Around, Ran, STATEMENT, file_of, run_over, store, stored, wrong_at};
use std::alloc::Global;
use std::slice::from_ref;
use std::sync::Wait;
use std::test::Fail;
use std::thread::Threads;

const OTHER: &str =
    r#"{"id":"11111111-1111-4111-8111-111111111111","actor":{"mbox":"mailto:a@b"},"verb":{"id":"http://v/2"},"object":{"id":"http://a/1"}}"#;

const UNNAMED: &str =
    r#"{"actor":{"mbox":"mailto:a@b"},"verb":{"id":"http://v/1"},"object":{"id":"http://a/1"}}"#;

fn input_of(name: &str) -> &str {
    match name {
        "statement" => STATEMENT,
        "other" => OTHER,
        "unnamed" => UNNAMED,
        _ => name,
    }
}

// The same with a fault of this kind.
fn with_fault<'a>(calm: Around<'a>, kind: &str, number: &'a u64) -> Around<'a> {
    match kind {
        "disk" => Around {
            disk_fails: from_ref(number),
            ..calm
        },
        "input" => Around {
            input_fails: from_ref(number),
            ..calm
        },
        "room" => Around {
            room: (*number).min(64) as usize,
            ..calm
        },
        _ => calm,
    }
}

// A run of these words.
fn ran<R: Threads + Wait + Sync>(
    rt: &R,
    alloc: Global,
    fault: &str,
    words: &str,
    file: &[u8],
    input: &str,
) -> Result<Ran, Fail> {
    let (kind, number) = fault.split_once(':').unwrap_or((fault, "0"));
    let number = number.parse::<u64>()?;
    let around = with_fault(Around::calm(file, input, &[]), kind, &number);
    run_over(rt, alloc, words, &around)
}

// What follows the line of a run over this file.
fn mark(ran: &Ran, before: &[u8]) -> &'static str {
    let may_write = matches!(ran.status, 0 | 5 | 7);
    if !may_write && !ran.leaves(before) {
        " changed"
    } else if !ran.printed.as_slice().ends_with(b"\n") {
        ".."
    } else {
        ""
    }
}

// What is told of a run over this file.
fn told(alloc: Global, ran: &Ran, before: &[u8]) -> Result<String, Fail> {
    let printed = str::from_utf8(ran.printed.as_slice())?;
    let line = printed.strip_suffix('\n').unwrap_or(printed);
    let (status, length) = (ran.status, ran.length);
    let mark = mark(ran, before);
    match line.split_once('\n') {
        Some((first, second)) => {
            Ok(format!(in alloc; "{status} {length} {first}, {second}{mark}")?)
        }
        None => Ok(format!(in alloc; "{status} {length} {line}{mark}")?),
    }
}

// A word, and what follows the space after it.
fn first_word(text: &str) -> (&str, &str) {
    text.split_once(' ').unwrap_or((text, ""))
}

// Fails with what is found where something else is expected, and gives what the file holds then.
fn compared(
    alloc: Global,
    ran: &Ran,
    before: &[u8],
    asked: &str,
    expected: &str,
) -> Result<Vec<u8>, Fail> {
    let found = told(alloc, ran, before)?;
    if found.as_str() != expected {
        return Err(Fail::from(format!(in alloc; "{asked} => {found}")?));
    }
    match ran.file() {
        Some(file) => Ok(file.to_vec(alloc)?),
        None => Ok(before.to_vec(alloc)?),
    }
}

// The same of a run that is asked for.
fn compared_of<R: Threads + Wait + Sync>(
    rt: &R,
    alloc: Global,
    last: &[u8],
    asked: &str,
    expected: &str,
) -> Result<Vec<u8>, Fail> {
    let (name, rest) = first_word(asked);
    let (fault, rest) = first_word(rest);
    let (words, input) = rest.split_once(" <").ok_or("no input")?;
    let before = file_of(name, last);
    let ran = ran(rt, alloc, fault, words, before, input_of(input))?;
    let file = compared(alloc, &ran, before, asked, expected);
    drop(ran);
    file
}

fn check_rows<R: Threads + Wait + Sync>(rt: &R, alloc: Global, rows: &str) -> Result<(), Fail> {
    let mut last = Vec::new(alloc);
    for row in rows.lines() {
        let (asked, expected) = row.split_once(" => ").ok_or("no answer")?;
        last = compared_of(rt, alloc, last.as_slice(), asked, expected)?;
    }
    Ok(())
}

#[test]
fn a_statement_is_kept_once(rt: HostRuntime) -> Result<(), Fail> {
    check_rows(
        &rt,
        rt.alloc(),
        r#"none - intake s <statement => 2 0 not a store
last - init s --admin adminadmin < => 0 1 founded
last - init s --admin adminadmin < => 4 0 already a store
last - intake s <statement => 0 2 11111111-1111-4111-8111-111111111111
last - intake s <statement => 0 2 11111111-1111-4111-8111-111111111111
last - intake s <other => 10 2 conflict 11111111-1111-4111-8111-111111111111
last - intake s <{ => 10 2 refused J2
last - intake s <unnamed => 10 2 refused no id
last - intake s <[1] => 10 2 refused S1
last - intake s <{"id":"22222222-2222-4222-8222-222222222222","actor":{"mbox":"mailto:a@b"},"verb":{"id":"http://v/1"},"object":{"id":"http://a/1"},"context":{"contextActivities":{"category":[{"id":"https://w3id.org/xapi/cmi5/context/categories/cmi5"}]}}} => 10 2 refused C1
last - intake s <statement => 0 2 11111111-1111-4111-8111-111111111111
"#,
    )
}

#[test]
fn a_store_keeps_to_its_limit(rt: HostRuntime) -> Result<(), Fail> {
    check_rows(
        &rt,
        rt.alloc(),
        r#"none - init s --admin adminadmin --limit 549 < => 0 1 founded
last - intake s <statement => 0 2 11111111-1111-4111-8111-111111111111
none - init s --admin adminadmin --limit 548 < => 0 1 founded
last - intake s <statement => 12 1 full 549 548
none - init s --admin adminadmin --limit 00000000000000065536 < => 0 1 founded
last - intake s <statement => 0 2 11111111-1111-4111-8111-111111111111
none - init s --admin adminadmin --limit 00000000001073741824 < => 0 1 founded
last - intake s <statement => 0 2 11111111-1111-4111-8111-111111111111
none - init s --admin adminadmin --limit 1073741824 < => 0 1 founded
last - intake s <statement => 0 2 11111111-1111-4111-8111-111111111111
"#,
    )
}

#[test]
fn other_files_are_refused(rt: HostRuntime) -> Result<(), Fail> {
    check_rows(
        &rt,
        rt.alloc(),
        r#"header - intake s <statement => 3 0 damaged 0
letter - intake s <statement => 2 0 not a store
letter - init s --admin adminadmin <statement => 2 0 not a store
old - intake s <statement => 9 0 old format
old - load s 7 1 < => 9 0 old format
old - init s --admin adminadmin <statement => 4 0 already a store
store - init s --admin adminadmin <statement => 4 0 already a store
"#,
    )
}

#[test]
fn a_fault_is_told_by_its_object(rt: HostRuntime) -> Result<(), Fail> {
    check_rows(
        &rt,
        rt.alloc(),
        r#"none disk:0 init s --admin adminadmin <statement => 5 0 disk fault
none disk:4 init s --admin adminadmin <statement => 5 0 disk fault
store disk:1 intake s <statement => 5 0 disk fault
store input:0 intake s <statement => 11 1 input fault
store - intake t <statement => 5 0 disk fault
none room:3 init s --admin adminadmin <statement => 7 1 fou..
store room:3 init s --admin adminadmin <statement => 4 0 alr..
"#,
    )
}

#[test]
fn a_seed_is_loaded_once(rt: HostRuntime) -> Result<(), Fail> {
    check_rows(
        &rt,
        rt.alloc(),
        r#"none - load s 7 100 < => 2 0 not a store
store - load s 7 100 < => 0 2 loaded 100, listed 98
last - load s 7 100 < => 0 2 loaded 100, listed 98
last - load s 7 150 < => 0 3 loaded 150, listed 147
store - load s 7 1 < => 0 2 loaded 1, listed 1
last - load s 18446744073709551615 00000000000000000101 < => 0 4 loaded 101, listed 100
letter - load s 7 1 < => 2 0 not a store
header - load s 7 1 < => 3 0 damaged 0
"#,
    )
}

// Statements 3 and 103 of seed 7 have these ids, and are others.
#[test]
fn a_load_ends_at_a_conflict(rt: HostRuntime) -> Result<(), Fail> {
    check_rows(
        &rt,
        rt.alloc(),
        r#"store - intake s <{"id":"00000000-0000-4000-8000-000700000003","actor":{"mbox":"mailto:a@b"},"verb":{"id":"http://v/1"},"object":{"id":"http://a/1"}} => 0 2 00000000-0000-4000-8000-000700000003
last - load s 7 100 < => 10 2 conflict 00000000-0000-4000-8000-000700000003
last - load s 7 3 < => 0 3 loaded 3, listed 4
store - intake s <{"id":"00000000-0000-4000-8000-000700000067","actor":{"mbox":"mailto:a@b"},"verb":{"id":"http://v/1"},"object":{"id":"http://a/1"}} => 0 2 00000000-0000-4000-8000-000700000067
last - load s 7 150 < => 10 3 conflict 00000000-0000-4000-8000-000700000067 changed
last - load s 7 150 < => 10 3 conflict 00000000-0000-4000-8000-000700000067
"#,
    )
}

#[test]
fn a_load_ends_where_there_is_no_room(rt: HostRuntime) -> Result<(), Fail> {
    check_rows(
        &rt,
        rt.alloc(),
        r#"none - init s --admin adminadmin --limit 19298 < => 0 1 founded
last - load s 7 150 < => 12 1 full 19299 19298
none - init s --admin adminadmin --limit 28916 < => 0 1 founded
last - load s 7 150 < => 12 2 full 28917 28916 changed
none - init s --admin adminadmin --limit 28917 < => 0 1 founded
last - load s 7 150 < => 0 3 loaded 150, listed 147
"#,
    )
}

#[test]
fn a_load_is_told_as_far_as_the_output_goes(rt: HostRuntime) -> Result<(), Fail> {
    check_rows(
        &rt,
        rt.alloc(),
        r#"store room:5 load s 7 100 < => 7 2 loade..
store room:12 load s 7 100 < => 7 2 loaded 100, l..
store disk:0 load s 7 100 < => 5 0 disk fault
store - load t 7 100 < => 5 0 disk fault
"#,
    )
}

// Whether a load ends well or by the disk's fault if this call of the disk fails, and then goes on over what is left.
fn is_loaded_again<R: Threads + Wait + Sync>(
    rt: &R,
    alloc: Global,
    call: u64,
) -> Result<bool, Fail> {
    let failing = with_fault(Around::calm(stored(), "", &[]), "disk", &call);
    let first = run_over(rt, alloc, "load s 7 101", &failing)?;
    let told = matches!(first.status, 0 | 5);
    let left = first.copy(alloc)?;
    drop(first);
    let again = run_over(
        rt,
        alloc,
        "load s 7 101",
        &Around::calm(left.as_slice(), "", &[]),
    )?;
    let ends = again.ends(0, "loaded 101\nlisted 99\n") && again.length == 3;
    drop(again);
    Ok(told && ends)
}

#[test]
fn a_disk_that_fails_at_a_batch_keeps_the_earlier_ones(rt: HostRuntime) -> Result<(), Fail> {
    for call in 0..16 {
        if !is_loaded_again(&rt, rt.alloc(), call)? {
            return wrong_at(rt.alloc(), call);
        }
    }
    Ok(())
}

#[test]
fn a_store_has_these_bytes(rt: HostRuntime) -> Result<(), Fail> {
    let made = store(&rt, rt.alloc(), "65536")?;
    if made.as_slice() == stored() {
        Ok(())
    } else {
        Err(Fail::from("other bytes"))
    }
}

// Fails if an input of so many blanks ends otherwise.
fn check_blanks<R: Threads + Wait + Sync>(
    rt: &R,
    alloc: Global,
    length: usize,
    line: &str,
) -> Result<(), Fail> {
    let input = " ".repeat(alloc, length)?;
    let ran = run_over(
        rt,
        alloc,
        "intake s",
        &Around::calm(stored(), input.as_str(), &[]),
    )?;
    let ends = ran.ends(10, line);
    drop(ran);
    if ends {
        Ok(())
    } else {
        Err(Fail::from("another end"))
    }
}

#[test]
fn an_input_of_the_longest_length_is_read(rt: HostRuntime) -> Result<(), Fail> {
    check_blanks(&rt, rt.alloc(), 262_144, "refused J2\n")
}

#[test]
fn a_longer_input_is_too_long(rt: HostRuntime) -> Result<(), Fail> {
    check_blanks(&rt, rt.alloc(), 262_145, "refused too long\n")
}
