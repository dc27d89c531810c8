// The tests of lrs_command_line: which command a line of words is. Lines that are none are run, in those of lrs_app.
use lrs_command_line::{ProgramCommand, read_words};
use lrs_json::Text;
use std::alloc::Global;
use std::test::Fail;

// Lines of words, and after `=>` the command that each is with its values, or `usage`. `''` is the empty word, `own` the
// old store's limit. Where a `=`, a `--`, a `-` alone or a `''` stands, they aren't plain.
const COMMANDS: &str = r#"intake s => intake s
init s --admin adminadmin => init s adminadmin http://127.0.0.1:8080/ 268435456
init --admin adminadmin s => init s adminadmin http://127.0.0.1:8080/ 268435456
init --limit 512 s --base http://a/ --admin adminadmin => init s adminadmin http://a/ 512
init s --base http://a/ --admin adminadmin --limit 00512 => init s adminadmin http://a/ 512
serve s a --workers 1 --connections 9 => serve s a 1 9
serve --connections 9 s a --workers 4 => serve s a 4 9
serve s --workers 16 a --connections 10000 => serve s a 16 10000
init s --admin=adminadmin => init s adminadmin http://127.0.0.1:8080/ 268435456
init --limit=600 --admin adminadmin s => init s adminadmin http://127.0.0.1:8080/ 600
intake -- s => intake s
intake -- -s => intake -s
intake - => intake -
intake '' => intake ''
serve --workers=1 --connections=2 -- s --workers => serve s --workers 1 2
serve s --workers=16 a --connections 2 => serve s a 16 2
serve s a --workers 00000000000000000002 --connections 1 => serve s a 2 1
serve s a --workers 17 --connections 1 => usage
serve s a --workers=17 --connections 1 => usage
serve s a --workers 0 --connections 1 => usage
serve s a --workers 000000000000000000002 --connections 1 => usage
serve s a --workers 16 --connections 10001 => usage
init s --admin adminadmin --limit 1073741824 => init s adminadmin http://127.0.0.1:8080/ 1073741824
init s --admin adminadmin --limit 1073741825 => usage
init s --admin adminadmin --limit 00000000001073741824 => init s adminadmin http://127.0.0.1:8080/ 1073741824
init s --admin adminadmin --limit 000000000001073741824 => usage
init s --admin adminadmin --limit 512 => init s adminadmin http://127.0.0.1:8080/ 512
init s --admin adminadmin --limit 511 => usage
load s 7 100 => load s 7 100
load s 0 1 => load s 0 1
load s 00000000000000000007 00000000000000100000 => load s 7 100000
load s 18446744073709551615 100000 => load s 18446744073709551615 100000
load -- -s 7 100 => load -s 7 100
load s -- 7 100 => load s 7 100
load s 18446744073709551616 100 => usage
load s 000000000000000000007 100 => usage
load s 7 0 => usage
load s 7 100001 => usage
load s 7 000000000000000000100 => usage
load s 7 => usage
load s 7 100 1 => usage
migrate s t => migrate s t own
migrate s t --limit 512 => migrate s t 512
migrate --limit 00000000001073741824 s t => migrate s t 1073741824
migrate s --limit 600 t => migrate s t 600
migrate s ./s => migrate s ./s own
migrate --limit=600 s t => migrate s t 600
migrate -- -s -t => migrate -s -t own
migrate '' - => migrate '' - own
migrate s t --limit 511 => usage
migrate s t --limit=511 => usage
migrate s t --limit 1073741825 => usage
migrate s t --limit 000000000001073741824 => usage
migrate s t --limit -1 => usage
migrate s t --limit '' => usage
migrate s t --limit => usage
migrate s t --limit 512 --limit 512 => usage
migrate s t --admin adminadmin => usage
migrate s s => usage
migrate s s --limit 512 => usage
migrate -- s s => usage
migrate '' '' => usage
migrate s => usage
migrate => usage
migrate s t u => usage
"#;

// The words of a line.
fn words_of(alloc: Global, line: &str) -> Result<Vec<Text>, Fail> {
    let mut words = Vec::new(alloc);
    for word in line.split(' ') {
        words.push(Text::of(alloc, if word == "''" { "" } else { word })?)?;
    }
    Ok(words)
}

// A file as a word of a line.
fn word(file: &str) -> &str {
    if file.is_empty() { "''" } else { file }
}

// A command as a line that tells its values.
fn told(alloc: Global, read: &Option<ProgramCommand>) -> Result<String, Fail> {
    Ok(match read {
        None => format!(in alloc; "usage")?,
        Some(
            ProgramCommand::Init {
                file,
                admin,
                base,
                limit,
            },
        ) => {
            let (file, admin, base) = (file.as_str(), admin.as_str(), base.as_str());
            format!(in alloc; "init {file} {admin} {base} {limit}")?
        }
        Some(ProgramCommand::Intake { file }) => {
            let file = word(file.as_str());
            format!(in alloc; "intake {file}")?
        }
        Some(
            ProgramCommand::Serve {
                file,
                address,
                workers,
                connections,
            },
        ) => {
            let (file, address) = (file.as_str(), address.as_str());
            format!(in alloc; "serve {file} {address} {workers} {connections}")?
        }
        Some(ProgramCommand::Load { file, seed, count }) => {
            let file = file.as_str();
            format!(in alloc; "load {file} {seed} {count}")?
        }
        Some(ProgramCommand::Migrate { old, new, limit }) => {
            let (old, new) = (word(old.as_str()), word(new.as_str()));
            match limit {
                Some(limit) => format!(in alloc; "migrate {old} {new} {limit}")?,
                None => format!(in alloc; "migrate {old} {new} own")?,
            }
        }
    })
}

fn read_as(alloc: Global, line: &str) -> Result<String, Fail> {
    let words = words_of(alloc, line)?;
    let read = read_words(alloc, words.as_slice())?;
    let told = told(alloc, &read);
    drop(read);
    told
}

// Fails with the first line that is read as something else.
#[test]
fn a_line_is_read_as_its_command(rt: HostRuntime) -> Result<(), Fail> {
    let alloc = rt.alloc();
    for row in COMMANDS.lines() {
        let (line, command) = row.split_once(" => ").ok_or("no command")?;
        if read_as(alloc, line)?.as_str() != command {
            return Err(Fail::new(row));
        }
    }
    Ok(())
}
