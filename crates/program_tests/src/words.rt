//! Lines of words that are no command.
use crate::runs::{Around, run_over};
use std::alloc::Global;
use std::sync::Wait;
use std::test::Fail;
use std::thread::Threads;

// Lines that are no command. The first has no words.
const NO_COMMANDS: &str = r#"
''
--
load s
s intake
--admin adminadmin init s
intake
intake s t
intake s ''
intake -s
intake s --help
intake s --admin adminadmin
help
--version
init s
init --admin adminadmin
init s --admin
init s --admin --limit 512
init s --admin adminadmin --admin adminadmin
init s --admin=adminadmin --admin=adminadmin
init s --admin=short
init s --admin adminadmin --limit 511
init s --admin adminadmin --limit +512
init s --admin adminadmin --limit=+512
init s --admin adminadmin --limit 000000000000000000512
serve s a --connections 1
serve s --workers 1 --connections 1
serve s a --workers 17 --connections 1
serve s a --workers 0 --connections 1
serve s a t --workers 1 --connections 1
intake --help
--help
serve s
load
load s 7
load s 7 1 1
load s 7 1 --help
load s 7 0
load s 7 100001
load s 7 000000000000000000001
load s 7 +1
load s 7 -1
load s 7 ''
load s 7 1x
load s -7 1
load s +7 1
load s 7. 1
load s 000000000000000000007 1
load s 18446744073709551616 1
load -s 7 1
load s 7 --count 1
load s --seed=7 1
serve s a --workers 1
serve s a --workers 1 --connections 0
serve s a --workers 1 --connections 10001
serve s -a --workers 1 --connections 1
serve s a --workers 1 --connections 1 t
init s --admin short
init s --admin adminadmin --limit 1073741825
init s --admin adminadmin --limit 000000000001073741824
init s --admin adminadmin --base http://a
"#;

fn is_usage<R: Threads + Wait + Sync>(rt: &R, alloc: Global, line: &str) -> Result<bool, Fail> {
    let ran = run_over(rt, alloc, line, &Around::calm(&[], "", &[]))?;
    Ok(ran.ends(1, "usage\n") && ran.disk().is_none())
}

#[test]
fn other_words_are_a_usage_fault(rt: HostRuntime) -> Result<(), Fail> {
    for line in NO_COMMANDS.lines() {
        if !is_usage(&rt, rt.alloc(), line)? {
            return Err(Fail::from(line));
        }
    }
    Ok(())
}
