//! `init`, `intake`, `load` and `migrate` over real files.
use crate::runs::{STATEMENT, file_of, words_of, wrong_at};
use lrs_app::run;
use lrs_edge::{FileShelf, StdSource, TcpLobby};
use lrs_in_memory_doors::MemSink;
use lrs_json::Text;
use std::alloc::Global;
use std::sync::Wait;
use std::test::Fail;
use std::thread::Threads;
use std::{env, fs};

// Runs the words over the real files. `threads` is the same runtime as what starts threads.
fn run_really<R: Threads + Wait + Sync>(
    threads: &R,
    rt: HostRuntime,
    words: &[Text],
    input: &str,
    out: &mut MemSink,
) -> Result<(), Fail> {
    let mut shelf = FileShelf::new(rt, 2)?;
    let mut lobby = TcpLobby::new(rt);
    let mut input = StdSource::new(input.as_bytes());
    let ended = run(
        threads,
        rt.alloc(),
        words,
        &mut shelf,
        &mut lobby,
        &mut input,
        out,
        [7; 32],
    );
    drop(ended);
    Ok(())
}

// What the program prints over the real files.
fn printed<R: Threads + Wait + Sync>(
    threads: &R,
    rt: HostRuntime,
    line: &str,
    input: &str,
) -> Result<Vec<u8>, Fail> {
    let words = words_of(rt.alloc(), line)?;
    let mut out = MemSink::new(rt.alloc(), 64, Vec::new(rt.alloc()))?;
    run_really(threads, rt, words.as_slice(), input, &mut out)?;
    Ok(out.taken().to_vec(rt.alloc())?)
}

// A new store in a file.
fn founded<R: Threads + Wait + Sync>(
    threads: &R,
    rt: HostRuntime,
    file: &str,
) -> Result<Vec<u8>, Fail> {
    let line = format!(in rt.alloc(); "init {file} --admin adminadmin")?;
    let printed = printed(threads, rt, line.as_str(), "")?;
    if printed.as_slice() != b"founded\n".as_slice() {
        return Err(Fail::from("not founded"));
    }
    Ok(fs::read(&rt, file)?)
}

// What is printed of a statement that is taken in to this file.
fn taken_in<R: Threads + Wait + Sync>(
    threads: &R,
    rt: HostRuntime,
    file: &str,
    statement: &str,
) -> Result<Vec<u8>, Fail> {
    let line = format!(in rt.alloc(); "intake {file}")?;
    printed(threads, rt, line.as_str(), statement)
}

// The path of a file for one test.
fn path_of(rt: HostRuntime, test: &str) -> Result<String, Fail> {
    let number = std::process::id(rt.process());
    let mut path = env::temp_dir(&rt)?;
    path.push(format!(in rt.alloc(); "kilnlime-{test}-{number}")?.as_str())?;
    Ok(String::from_str(rt.alloc(), path.as_path().as_str())?)
}

// The second frame's gate is byte 216, its last byte is 547.
fn line_at(length: usize) -> &'static str {
    match length {
        218..548 => "damaged 1\n",
        _ => "11111111-1111-4111-8111-111111111111\n",
    }
}

// Whether the file of this store, cut at this length, is told of as it should be.
fn is_told<R: Threads + Wait + Sync>(
    threads: &R,
    rt: HostRuntime,
    file: &str,
    whole: &[u8],
    length: usize,
) -> Result<bool, Fail> {
    fs::write(&rt, file, whole.get(..length).ok_or("short")?)?;
    let line = taken_in(threads, rt, file, STATEMENT)?;
    Ok(line.as_slice() == line_at(length).as_bytes())
}

// Fails with the first length at which it isn't.
fn check_cuts<R: Threads + Wait + Sync>(
    threads: &R,
    rt: HostRuntime,
    file: &str,
    whole: &[u8],
) -> Result<(), Fail> {
    for length in 216..550 {
        if !is_told(threads, rt, file, whole, length)? {
            return wrong_at(rt.alloc(), length as u64);
        }
    }
    Ok(())
}

// The same for a new store with one statement.
fn check_store<R: Threads + Wait + Sync>(
    threads: &R,
    rt: HostRuntime,
    file: &str,
) -> Result<(), Fail> {
    founded(threads, rt, file)?;
    taken_in(threads, rt, file, STATEMENT)?;
    let whole = fs::read(&rt, file)?;
    if whole.len() != 549 {
        return Err(Fail::from("another length"));
    }
    check_cuts(threads, rt, file, whole.as_slice())
}

#[test]
fn a_store_file_that_was_cut_opens_or_says_where(rt: HostRuntime) -> Result<(), Fail> {
    let path = path_of(rt, "cut")?;
    check_store(&rt, rt, path.as_str())?;
    fs::remove_file(&rt, path.as_str())?;
    Ok(())
}

// Rules, and statements that break them. No statement's least broken rule is 9: an `openid` that is no IRI breaks rule 6.
const REFUSED: &str =
    r#"S1 {"id":"22222222-2222-4222-8222-222222222222","actor":{"mbox":"mailto:a@b"},"object":{"id":"http://a/1"}}
S2 {"id":"22222222-2222-4222-8222-222222222222","actor":{"mbox":"mailto:a@b"},"verb":{"id":"http://v/1"},"object":{"id":"http://a/1"},"note":"x"}
S3 {"id":"22222222-2222-4222-8222-222222222222","actor":{"mbox":"mailto:a@b"},"verb":{"id":"http://v/1"},"object":{"id":"http://a/1"},"result":null}
S4 {"id":"2222","actor":{"mbox":"mailto:a@b"},"verb":{"id":"http://v/1"},"object":{"id":"http://a/1"}}
S5 {"id":"22222222-2222-4222-8222-222222222222","actor":{"mbox":"mailto:a@b"},"verb":{"id":"http://v/1"},"object":{"id":"http://a/1"},"version":"2.0.0"}
S6 {"id":"22222222-2222-4222-8222-222222222222","actor":{"mbox":"mailto:a@b"},"verb":{"id":"no iri"},"object":{"id":"http://a/1"}}
S7 {"id":"22222222-2222-4222-8222-222222222222","actor":{"mbox":"mailto:a"},"verb":{"id":"http://v/1"},"object":{"id":"http://a/1"}}
S8 {"id":"22222222-2222-4222-8222-222222222222","actor":{"mbox_sha1sum":"abc"},"verb":{"id":"http://v/1"},"object":{"id":"http://a/1"}}
S6 {"id":"22222222-2222-4222-8222-222222222222","actor":{"openid":"no iri"},"verb":{"id":"http://v/1"},"object":{"id":"http://a/1"}}
S10 {"id":"22222222-2222-4222-8222-222222222222","actor":{"account":{"homePage":"http://h/"}},"verb":{"id":"http://v/1"},"object":{"id":"http://a/1"}}
S11 {"id":"22222222-2222-4222-8222-222222222222","actor":{"mbox":"mailto:a@b","openid":"http://o/1"},"verb":{"id":"http://v/1"},"object":{"id":"http://a/1"}}
S12 {"id":"22222222-2222-4222-8222-222222222222","actor":{"objectType":"Group"},"verb":{"id":"http://v/1"},"object":{"id":"http://a/1"}}
S13 {"id":"22222222-2222-4222-8222-222222222222","actor":{"objectType":"Group","member":{}},"verb":{"id":"http://v/1"},"object":{"id":"http://a/1"}}
S14 {"id":"22222222-2222-4222-8222-222222222222","actor":{"mbox":"mailto:a@b"},"verb":{"id":"http://v/1","display":{"en":1}},"object":{"id":"http://a/1"}}
S15 {"id":"22222222-2222-4222-8222-222222222222","actor":{"objectType":"Activity","id":"http://a/1"},"verb":{"id":"http://v/1"},"object":{"id":"http://a/1"}}
S16 {"id":"22222222-2222-4222-8222-222222222222","actor":{"mbox":"mailto:a@b"},"verb":{"id":"http://v/1","name":"x"},"object":{"id":"http://a/1"}}
S17 {"id":"22222222-2222-4222-8222-222222222222","actor":{"mbox":"mailto:a@b"},"verb":{"id":"http://v/1"},"object":{"objectType":"Thing"}}
S18 {"id":"22222222-2222-4222-8222-222222222222","actor":{"mbox":"mailto:a@b"},"verb":{"id":"http://v/1"},"object":{"objectType":"Activity"}}
S19 {"id":"22222222-2222-4222-8222-222222222222","actor":{"mbox":"mailto:a@b"},"verb":{"id":"http://v/1"},"object":{"id":"http://a/1","definition":{"title":"x"}}}
S20 {"id":"22222222-2222-4222-8222-222222222222","actor":{"mbox":"mailto:a@b"},"verb":{"id":"http://v/1"},"object":{"id":"http://a/1","definition":{"interactionType":"guess"}}}
S21 {"id":"22222222-2222-4222-8222-222222222222","actor":{"mbox":"mailto:a@b"},"verb":{"id":"http://v/1"},"object":{"id":"http://a/1","definition":{"interactionType":"choice","choices":[{"id":"x"},{"id":"x"}]}}}
S22 {"id":"22222222-2222-4222-8222-222222222222","actor":{"mbox":"mailto:a@b"},"verb":{"id":"http://adlnet.gov/expapi/verbs/voided"},"object":{"id":"http://a/1"}}
S23 {"id":"22222222-2222-4222-8222-222222222222","actor":{"mbox":"mailto:a@b"},"verb":{"id":"http://v/1"},"object":{"objectType":"SubStatement","actor":{"mbox":"mailto:a@b"},"verb":{"id":"http://v/1"}}}
S24 {"id":"22222222-2222-4222-8222-222222222222","actor":{"mbox":"mailto:a@b"},"verb":{"id":"http://v/1"},"object":{"id":"http://a/1"},"result":{"success":"yes"}}
S25 {"id":"22222222-2222-4222-8222-222222222222","actor":{"mbox":"mailto:a@b"},"verb":{"id":"http://v/1"},"object":{"id":"http://a/1"},"result":{"duration":"one hour"}}
S26 {"id":"22222222-2222-4222-8222-222222222222","actor":{"mbox":"mailto:a@b"},"verb":{"id":"http://v/1"},"object":{"id":"http://a/1"},"result":{"score":{"scaled":1.01}}}
S27 {"id":"22222222-2222-4222-8222-222222222222","actor":{"mbox":"mailto:a@b"},"verb":{"id":"http://v/1"},"object":{"id":"http://a/1"},"context":{"registration":"2222"}}
S28 {"id":"22222222-2222-4222-8222-222222222222","actor":{"mbox":"mailto:a@b"},"verb":{"id":"http://v/1"},"object":{"id":"http://a/1"},"context":{"contextActivities":{"parent":1}}}
S29 {"id":"22222222-2222-4222-8222-222222222222","actor":{"mbox":"mailto:a@b"},"verb":{"id":"http://v/1"},"object":{"objectType":"Agent","mbox":"mailto:c@d"},"context":{"platform":"x"}}
S30 {"id":"22222222-2222-4222-8222-222222222222","actor":{"mbox":"mailto:a@b"},"verb":{"id":"http://v/1"},"object":{"id":"http://a/1"},"timestamp":"yesterday"}
S31 {"id":"22222222-2222-4222-8222-222222222222","actor":{"mbox":"mailto:a@b"},"verb":{"id":"http://v/1"},"object":{"id":"http://a/1"},"authority":{"objectType":"Group","member":[{"mbox":"mailto:a@b"}]}}
S32 {"id":"22222222-2222-4222-8222-222222222222","actor":{"mbox":"mailto:a@b"},"verb":{"id":"http://v/1"},"object":{"id":"http://a/1"},"attachments":[{"usageType":"http://u/1"}]}
"#;

// Whether the statement of a row is refused by the rule before it.
fn is_refused<R: Threads + Wait + Sync>(
    threads: &R,
    rt: HostRuntime,
    file: &str,
    row: &str,
) -> Result<bool, Fail> {
    let (rule, statement) = row.split_once(' ').ok_or("no statement")?;
    let line = format!(in rt.alloc(); "refused {rule}\n")?;
    Ok(taken_in(threads, rt, file, statement)?.as_slice() == line.as_bytes())
}

// Fails with the first row that is refused otherwise.
fn check_rules<R: Threads + Wait + Sync>(
    threads: &R,
    rt: HostRuntime,
    file: &str,
) -> Result<(), Fail> {
    for row in REFUSED.lines() {
        if !is_refused(threads, rt, file, row)? {
            return Err(Fail::from(row));
        }
    }
    Ok(())
}

// The same in a new store, whose file stays as it was.
fn check_refusals<R: Threads + Wait + Sync>(
    threads: &R,
    rt: HostRuntime,
    file: &str,
) -> Result<(), Fail> {
    let stored = founded(threads, rt, file)?;
    check_rules(threads, rt, file)?;
    if fs::read(&rt, file)?.as_slice() == stored.as_slice() {
        Ok(())
    } else {
        Err(Fail::from("another file"))
    }
}

#[test]
fn intake_names_the_least_broken_rule(rt: HostRuntime) -> Result<(), Fail> {
    let path = path_of(rt, "rules")?;
    check_refusals(&rt, rt, path.as_str())?;
    fs::remove_file(&rt, path.as_str())?;
    Ok(())
}

// So many that a list which compares each of them with all others would take long.
fn check_load<R: Threads + Wait + Sync>(
    threads: &R,
    rt: HostRuntime,
    file: &str,
) -> Result<(), Fail> {
    founded(threads, rt, file)?;
    let line = format!(in rt.alloc(); "load {file} 7 20000")?;
    if printed(threads, rt, line.as_str(), "")?.as_slice()
        == b"loaded 20000\nlisted 19600\n".as_slice()
    {
        Ok(())
    } else {
        Err(Fail::from("another end"))
    }
}

#[test]
fn twenty_thousand_statements_are_loaded_and_listed(rt: HostRuntime) -> Result<(), Fail> {
    let path = path_of(rt, "load")?;
    check_load(&rt, rt, path.as_str())?;
    fs::remove_file(&rt, path.as_str())?;
    Ok(())
}

// Fails if `migrate` prints something else than this line over these files, or leaves another old one.
fn check_line<R: Threads + Wait + Sync>(
    threads: &R,
    rt: HostRuntime,
    old: &str,
    new: &str,
    expected: &str,
) -> Result<(), Fail> {
    let line = format!(in rt.alloc(); "migrate {old} {new}")?;
    let line = printed(threads, rt, line.as_str(), "")?;
    let is_kept = fs::read(&rt, old)?.as_slice() == file_of("old", &[]);
    if is_kept && line.as_slice() == expected.as_bytes() {
        Ok(())
    } else {
        Err(Fail::from(expected))
    }
}

// An old store is moved into a new file once. The old file under another name is still the old file, which is in use.
fn check_move<R: Threads + Wait + Sync>(
    threads: &R,
    rt: HostRuntime,
    old: &str,
    new: &str,
) -> Result<(), Fail> {
    fs::write(&rt, old, file_of("old", &[]))?;
    let same = old.replace(rt.alloc(), "/kilnlime-", "/./kilnlime-")?;
    check_line(threads, rt, old, same.as_str(), "disk fault\n")?;
    check_line(threads, rt, old, new, "migrated 1\n")?;
    check_line(threads, rt, old, new, "already a store\n")?;
    if fs::read(&rt, new)?.as_slice() == file_of("store", &[]) {
        Ok(())
    } else {
        Err(Fail::from("another file"))
    }
}

#[test]
fn an_old_store_is_moved_into_another_file(rt: HostRuntime) -> Result<(), Fail> {
    let old = path_of(rt, "old")?;
    let new = path_of(rt, "new")?;
    check_move(&rt, rt, old.as_str(), new.as_str())?;
    fs::remove_file(&rt, old.as_str())?;
    fs::remove_file(&rt, new.as_str())?;
    Ok(())
}
