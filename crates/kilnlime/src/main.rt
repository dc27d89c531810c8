//! The `kilnlime` program: it hands its words, the real outside and a random seed to `run`.
#![tactic(auto)]

use lrs_app::run;
use lrs_command_line::tell_fault;
use lrs_console::{Ending, finish};
use lrs_edge::{FileShelf, StdSink, StdSource, TcpLobby};
use lrs_json::Text;
use std::env::{self, Env};
use std::io::ErrorKind;
use std::process::ExitCode;
use std::random::RandomSource;

/// The status if the machine's source of random bytes fails.
const NO_RANDOM_SOURCE: u8 = 21;

/// The status if the words are no command.
const NO_COMMAND: u8 = 1;

/// The status if the store has the old format.
const OLD_FORMAT: u8 = 9;

/// How many files a command works on at most.
const FILES: usize = 2;

const USAGE: &str = "usage: kilnlime init FILE --admin TOKEN [--base URL] [--limit BYTES]
       kilnlime intake FILE < STATEMENT
       kilnlime serve FILE ADDRESS --workers W --connections N
       kilnlime load FILE SEED N
       kilnlime migrate OLD NEW [--limit BYTES]
see `kilnlime --help`, or docs/FORMATS.md, section \"Words and statuses\"";

const UPGRADE: &str =
    "this store was made by kilnlime 0.1.0; `kilnlime migrate FILE NEW` makes a store of this version in NEW, and leaves FILE as it is (docs/OPERATING.md, \"Upgrades\")";

// The words after the program's name. One that is no UTF-8 makes them no command.
fn arguments(rt: &(impl Env + AllocGlobal)) -> Result<Vec<Text>, Ending> {
    let mut words = match env::args(rt) {
        Ok(words) => words,
        Err(error) if error.kind() == ErrorKind::InvalidData => return Err(Ending::Usage),
        Err(_) => return Err(Ending::Memory),
    };
    let mut texts = Vec::new(rt.alloc());
    let _program = words.next();
    for word in words {
        let Ok(text) = Text::of(rt.alloc(), word.as_str()) else {
            return Err(Ending::Memory);
        };
        if texts.push(text).is_err() {
            return Err(Ending::Memory);
        }
    }
    Ok(texts)
}

// The program's end. If the words are no command, standard error tells which one is wrong, and what they can be. If the
// store has the old format, it tells what to do.
fn exit(rt: &(impl Eprint + AllocGlobal), status: u8, words: Option<&[Text]>) -> ExitCode {
    if status == NO_COMMAND {
        tell_fault(rt, words);
        let _ = rt.eprintln(USAGE);
    }
    if status == OLD_FORMAT {
        let _ = rt.eprintln(UPGRADE);
    }
    ExitCode::from(status)
}

fn main(rt: HostRuntime) -> ExitCode {
    let mut out = StdSink::new(rt.stdout());
    let words = match arguments(&rt) {
        Ok(words) => words,
        Err(ending) => return exit(&rt, finish(&mut out, ending), None),
    };
    let mut seed = [0; 32];
    if rt.fill_bytes(&mut seed).is_err() {
        let _ = println!(rt; "no random source");
        return ExitCode::from(NO_RANDOM_SOURCE);
    }
    let Ok(mut shelf) = FileShelf::new(rt, FILES) else {
        return exit(&rt, finish(&mut out, Ending::Memory), None);
    };
    let mut lobby = TcpLobby::new(rt);
    let mut input = StdSource::new(rt.stdin());
    let ended = run(
        &rt,
        rt.alloc(),
        words.as_slice(),
        &mut shelf,
        &mut lobby,
        &mut input,
        &mut out,
        seed,
    );
    exit(&rt, ended.status, Some(words.as_slice()))
}
