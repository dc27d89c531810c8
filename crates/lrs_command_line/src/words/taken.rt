//! Lines that aren't plain, as clap takes them.

ghost use Rattle.std.specs.Prelude.{◌≡◌, true, false, map, IfOk, MatchOption, option_map, option_and_then};
ghost use Rattle.std.specs.Option.{option_copied};
ghost use Rattle.clap.specs.Words.{App, app_of, first_of, found_of, rows_of, rule_of, subcommand_of, subcommand_rows_of, with_rule, with_subcommand};
ghost use Rattle.lrs_command_line.specs.CommandLine.{required, needed, optional, init_app, intake_app, load_app, migrate_app, serve_app, program, program_begun, whole_line};
ghost use Rattle.lrs_command_line.specs.Shapes.{IsOf, IsReadAs, command_in, command_of, init_in, intake_in, is_faulty, load_in, migrate_in, serve_in, taken};

use crate::words::{CommandLine, ProgramCommand, test_named};
use clap::error::ErrorKind;
use clap::{Arg, ArgMatches, Command};
use lrs_json::{Memory, Text};
use std::alloc::Global;

fn required<'a>(alloc: Global, name: &'a str) -> Arg<'a>
    ensures rule { rule_of result ≡ required name.entry.now }
    ensures local { result.global ≡ false }
{
    Arg::new(alloc, name).required(true)
}

fn needed<'a>(alloc: Global, name: &'a str) -> Arg<'a>
    ensures rule { rule_of result ≡ needed name.entry.now }
    ensures local { result.global ≡ false }
{
    required(alloc, name).long(name)
}

fn optional<'a>(alloc: Global, name: &'a str) -> Arg<'a>
    ensures rule { rule_of result ≡ optional name.entry.now }
    ensures local { result.global ≡ false }
{
    Arg::new(alloc, name).long(name)
}

// The command with one argument more.
fn with_argument<'a>(
    made: Result<Command<'a>, Memory>,
    argument: Arg<'a>,
) -> Result<Command<'a>, Memory>
    requires { argument.global ≡ false }
    ensures { (a : App) → IfOk made.entry (IsOf a) → IfOk result (IsOf (with_rule a (rule_of argument.entry))) }
{
    match made {
        Ok(command) => Ok(command.arg(argument)?),
        Err(refused) => {
            drop(argument);
            Err(refused)
        }
    }
}

fn init_command<'a>(alloc: Global) -> Result<Command<'a>, Memory>
    ensures { IfOk result (IsOf init_app) }
{
    let command = Ok(Command::new(alloc, "init"));
    let command = with_argument(command, required(alloc, "file"));
    let command = with_argument(command, needed(alloc, "admin"));
    let command = with_argument(command, optional(alloc, "base"));
    with_argument(command, optional(alloc, "limit"))
}

fn intake_command<'a>(alloc: Global) -> Result<Command<'a>, Memory>
    ensures { IfOk result (IsOf intake_app) }
{
    let command = Ok(Command::new(alloc, "intake"));
    with_argument(command, required(alloc, "file"))
}

fn serve_command<'a>(alloc: Global) -> Result<Command<'a>, Memory>
    ensures { IfOk result (IsOf serve_app) }
{
    let command = Ok(Command::new(alloc, "serve"));
    let command = with_argument(command, required(alloc, "file"));
    let command = with_argument(command, required(alloc, "address"));
    let command = with_argument(command, needed(alloc, "workers"));
    with_argument(command, needed(alloc, "connections"))
}

fn load_command<'a>(alloc: Global) -> Result<Command<'a>, Memory>
    ensures { IfOk result (IsOf load_app) }
{
    let command = Ok(Command::new(alloc, "load"));
    let command = with_argument(command, required(alloc, "file"));
    let command = with_argument(command, required(alloc, "seed"));
    with_argument(command, required(alloc, "count"))
}

fn migrate_command<'a>(alloc: Global) -> Result<Command<'a>, Memory>
    ensures { IfOk result (IsOf migrate_app) }
{
    let command = Ok(Command::new(alloc, "migrate"));
    let command = with_argument(command, required(alloc, "old"));
    let command = with_argument(command, required(alloc, "new"));
    with_argument(command, optional(alloc, "limit"))
}

fn add_command<'a>(
    program: Command<'a>,
    made: Result<Command<'a>, Memory>,
) -> Result<Command<'a>, Memory>
    ensures { (a : App) → IfOk made.entry (IsOf a)
        → IfOk result (λ c. app_of c ≡ with_subcommand (app_of program.entry) a.top) }
{
    match made {
        Ok(command) => Ok(program.subcommand(command)?),
        Err(refused) => {
            drop(program);
            Err(refused)
        }
    }
}

// The program with one command more.
fn with_command<'a>(
    program: Result<Command<'a>, Memory>,
    made: Result<Command<'a>, Memory>,
) -> Result<Command<'a>, Memory>
    ensures { (p a : App) → IfOk program.entry (λ c. app_of c ≡ p) → IfOk made.entry (IsOf a)
        → IfOk result (λ c. app_of c ≡ with_subcommand p a.top) }
{
    match program {
        Ok(program) => add_command(program, made),
        Err(refused) => {
            drop(made);
            Err(refused)
        }
    }
}

// The program with the first two of its commands.
fn program_begun<'a>(alloc: Global) -> Result<Command<'a>, Memory>
    ensures { IfOk result (λ c. app_of c ≡ program_begun) }
{
    let program = Ok(Command::new(alloc, "kilnlime"));
    let program = with_command(program, init_command(alloc));
    with_command(program, intake_command(alloc))
}

// The program's words, as clap has them.
fn program<'a>(alloc: Global) -> Result<Command<'a>, Memory>
    ensures { IfOk result (λ c. app_of c ≡ program) }
{
    let program = with_command(program_begun(alloc), serve_command(alloc));
    let program = with_command(program, load_command(alloc));
    with_command(program, migrate_command(alloc))
}

// A value of what was given.
fn text_of<'a>(given: &ArgMatches<'a>, id: &str) -> Option<&'a str>
    ensures { option_copied result ≡ first_of id.now (rows_of (found_of given.now)) }
{
    given.get_str(id)
}

fn taken_init<'a>(given: &ArgMatches<'a>) -> Option<CommandLine<'a>>
    ensures { option_map command_of result ≡ init_in (rows_of (found_of given.now)) }
{
    Some(CommandLine::Init {
        file: text_of(given, "file")?,
        admin: text_of(given, "admin")?,
        base: text_of(given, "base"),
        limit: text_of(given, "limit"),
    })
}

fn taken_intake<'a>(given: &ArgMatches<'a>) -> Option<CommandLine<'a>>
    ensures { option_map command_of result ≡ intake_in (rows_of (found_of given.now)) }
{
    Some(CommandLine::Intake {
        file: text_of(given, "file")?,
    })
}

fn taken_serve<'a>(given: &ArgMatches<'a>) -> Option<CommandLine<'a>>
    ensures { option_map command_of result ≡ serve_in (rows_of (found_of given.now)) }
{
    Some(CommandLine::Serve {
        file: text_of(given, "file")?,
        address: text_of(given, "address")?,
        workers: text_of(given, "workers")?,
        connections: text_of(given, "connections")?,
    })
}

fn taken_load<'a>(given: &ArgMatches<'a>) -> Option<CommandLine<'a>>
    ensures { option_map command_of result ≡ load_in (rows_of (found_of given.now)) }
{
    Some(CommandLine::Load {
        file: text_of(given, "file")?,
        seed: text_of(given, "seed")?,
        count: text_of(given, "count")?,
    })
}

fn taken_migrate<'a>(given: &ArgMatches<'a>) -> Option<CommandLine<'a>>
    ensures { option_map command_of result ≡ migrate_in (rows_of (found_of given.now)) }
{
    Some(CommandLine::Migrate {
        old: text_of(given, "old")?,
        new: text_of(given, "new")?,
        limit: text_of(given, "limit"),
    })
}

// The command of a name, with what was given to it.
fn taken_as<'a>(name: &str, given: &ArgMatches<'a>) -> Option<CommandLine<'a>>
    ensures { option_map command_of result ≡ command_in (name.now, rows_of (found_of given.now)) }
{
    match name {
        "init" => taken_init(given),
        "intake" => taken_intake(given),
        "serve" => taken_serve(given),
        "load" => taken_load(given),
        "migrate" => taken_migrate(given),
        _ => None,
    }
}

fn taken_shape<'a>(matches: &ArgMatches<'a>) -> Option<CommandLine<'a>>
    ensures { option_map command_of result ≡ option_and_then command_in (subcommand_rows_of matches.now) }
{
    match matches.subcommand() {
        Some((name, given)) => taken_as(name, given),
        None => None,
    }
}

// The words with the program's name before them.
fn texts_of(alloc: Global, words: &[Text]) -> Result<Vec<&str>, Memory>
    ensures { IfOk result (λ texts. map (λ t. t.now) texts.items ≡ whole_line words.now) }
{
    let mut texts = Vec::new(alloc);
    texts.push("kilnlime")?;
    for word in words {
        texts.push(word.as_str())?;
    }
    Ok(texts)
}

// What clap gives of a line, or none if it refuses it.
fn matches_of<'a>(alloc: Global, line: &'a [&'a str]) -> Result<Option<ArgMatches<'a>>, Memory>
    ensures { IfOk result (λ found. MatchOption found (is_faulty (map (λ t. t.now) line.now) ≡ true)
        (λ matches. (is_faulty (map (λ t. t.now) line.now) ≡ false)
        × (subcommand_rows_of matches ≡ subcommand_of program (map (λ t. t.now) line.now)))) }
{
    match program(alloc)?.try_get_matches_from(line) {
        Ok(matches) => Ok(Some(matches)),
        Err(error) => match error.kind() {
            ErrorKind::OutOfMemory => Err(Memory),
            _ => Ok(None),
        },
    }
}

/// Reads a line as clap takes it, its values tested.
pub(super) fn read_taken(alloc: Global, words: &[Text]) -> Result<Option<ProgramCommand>, Memory>
    ensures { IfOk result (IsReadAs (taken words.now)) }
{
    let texts = texts_of(alloc, words)?;
    match matches_of(alloc, texts.as_slice())? {
        Some(matches) => test_named(alloc, taken_shape(&matches)),
        None => Ok(None),
    }
}
