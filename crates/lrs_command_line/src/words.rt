ghost use Rattle.std.specs.Prelude.{◌≡◌, IsTrue, ◌↔◌, IfOk, IfSome, MatchOption, List, ℕ, option_map, unwrap_or};
ghost use Rattle.std.specs.Char.{is_ascii_digit};
ghost use Rattle.std.specs.List.{list_all};
ghost use Rattle.std.specs.Option.{SomeIff, option_copied, option_map_or};
ghost use Rattle.std.specs.Str.Parse.{digits_value};
ghost use Rattle.lrs_state.specs.Founding.{IsToken, IsBase};
ghost use Rattle.lrs_command_line.specs.CommandLine.{CommandLine as SpecCommandLine, init, serve, load, migrate, InitWords, ServeWords, LoadWords, MigrateWords, IsCommandLine, IsInRange, IsInitInRange, IsServeInRange, IsLoadInRange, IsMigrateInRange, IsNumberWord, IsNumberIn, IsLimitWord};
ghost use Rattle.lrs_command_line.specs.Shapes.{IsReadAs, Denotes, command_of, named};

mod plain;
mod taken;

use crate::words::plain::{is_plain, read_plain};
use crate::words::taken::read_taken;
use lrs_journal::{LEAST_BYTES, MOST_BYTES};
use lrs_json::{Memory, Text};
use lrs_state::{is_base, is_token};
use lrs_turn::MOST_PASSES;
use std::alloc::Global;

/// The base address of a store whose words name none.
const DEFAULT_BASE: &str = "http://127.0.0.1:8080/";

/// The limit of a store whose words name none, in bytes.
const DEFAULT_LIMIT: u64 = 268_435_456;

/// How many digits a number may have.
pub(crate) const MOST_DIGITS: usize = 20;

/// The most connections that a worker may be asked to serve.
pub(crate) const MOST_CONNECTIONS: u64 = 10_000;

/// The most statements that may be loaded.
pub(crate) const MOST_STATEMENTS: u64 = 100_000;

/// A command of the program with what its words name.
#[derive(Drop)]
pub enum ProgramCommand {
    Init {
        file: Text,
        admin: Text,
        base: Text,
        limit: u64,
    },
    Intake {
        file: Text,
    },
    /// So many workers at once, and so many connections of each of them.
    Serve {
        file: Text,
        address: Text,
        workers: u32,
        connections: u32,
    },
    Load {
        file: Text,
        seed: u64,
        count: u32,
    },
    /// Without a limit, the new store has that of the old one.
    Migrate {
        old: Text,
        new: Text,
        limit: Option<u64>,
    },
}

// A command as its words name it, before a value is looked at.
#[derive(Clone, Copy)]
enum CommandLine<'a> {
    Init {
        file: &'a str,
        admin: &'a str,
        base: Option<&'a str>,
        limit: Option<&'a str>,
    },
    Intake {
        file: &'a str,
    },
    Serve {
        file: &'a str,
        address: &'a str,
        workers: &'a str,
        connections: &'a str,
    },
    Load {
        file: &'a str,
        seed: &'a str,
        count: &'a str,
    },
    Migrate {
        old: &'a str,
        new: &'a str,
        limit: Option<&'a str>,
    },
}

fn are_digits(word: &str) -> bool
    ensures { result ≡ list_all is_ascii_digit word.now }
{
    word.bytes().all(|digit| digit.is_ascii_digit())
}

fn is_number(word: &str) -> bool
    ensures { IsTrue result ↔ IsNumberWord word.now }
{
    !word.is_empty() && word.len() <= MOST_DIGITS && are_digits(word)
}

// The number that a word spells, if it is of the range.
fn read_number(word: &str, least: u64, most: u64) -> Option<u64>
    ensures { SomeIff result (IsNumberIn least most word.now) (digits_value 10 word.now) }
{
    if !is_number(word) {
        return None;
    }
    match word.parse::<u64>() {
        Ok(number) if (least..=most).contains(&number) => Some(number),
        _ => None,
    }
}

fn read_limit(limit: Option<&str>) -> Option<u64>
    ensures { MatchOption result (IfSome (option_copied limit.entry) IsLimitWord → ⊥)
        (λ n. IfSome (option_copied limit.entry) IsLimitWord
        × (n ≡ option_map_or (digits_value 10) (option_copied limit.entry) DEFAULT_LIMIT)) }
{
    match limit {
        Some(word) => read_number(word, LEAST_BYTES, MOST_BYTES),
        None => Some(DEFAULT_LIMIT),
    }
}

// The same, if the words may leave it open.
fn read_chosen_limit(limit: Option<&str>) -> Option<Option<u64>>
    ensures { MatchOption result (IfSome (option_copied limit.entry) IsLimitWord → ⊥)
        (λ chosen. IfSome (option_copied limit.entry) IsLimitWord
        × (chosen ≡ option_map (digits_value 10) (option_copied limit.entry))) }
{
    match limit {
        Some(word) => read_number(word, LEAST_BYTES, MOST_BYTES).map(Some),
        None => Some(None),
    }
}

fn read_token(alloc: Global, word: &str) -> Result<Option<Text>, Memory>
    ensures { IfOk result (λ found. MatchOption found (IsToken word.now → ⊥)
        (λ token. IsToken word.now × (token ≡ word.now))) }
{
    let token = Text::of(alloc, word)?;
    if !is_token(&token) {
        return Ok(None);
    }
    Ok(Some(token))
}

fn base_or_default(alloc: Global, base: Option<&str>) -> Result<Text, Memory>
    ensures { IfOk result (λ text. text ≡ unwrap_or (option_copied base.entry) DEFAULT_BASE.now) }
{
    match base {
        Some(base) => Text::of(alloc, base),
        None => Text::of(alloc, DEFAULT_BASE),
    }
}

fn read_base(alloc: Global, base: Option<&str>) -> Result<Option<Text>, Memory>
    ensures { IfOk result (λ found. let text : List ℕ = unwrap_or (option_copied base.entry)
        DEFAULT_BASE.now in
        MatchOption found (IsBase text → ⊥) (λ read. IsBase text × (read ≡ text))) }
{
    let text = base_or_default(alloc, base)?;
    if !is_base(alloc, &text)? {
        return Ok(None);
    }
    Ok(Some(text))
}

// The words of `init`, with its values tested.
fn test_init(
    alloc: Global,
    file: &str,
    admin: &str,
    base: Option<&str>,
    limit: Option<&str>,
) -> Result<Option<ProgramCommand>, Memory>
    ensures { IfOk result (λ found. let w : InitWords = record {
      file = file.now;
      admin = admin.now;
      base = option_copied base.entry;
      limit = option_copied limit.entry;
    } in
        MatchOption found (IsInitInRange w → ⊥) (λ words. IsInitInRange w × Denotes words (init w))) }
{
    let Some(limit) = read_limit(limit) else {
        return Ok(None);
    };
    let Some(admin) = read_token(alloc, admin)? else {
        return Ok(None);
    };
    let Some(base) = read_base(alloc, base)? else {
        return Ok(None);
    };
    Ok(Some(ProgramCommand::Init {
        file: Text::of(alloc, file)?,
        admin,
        base,
        limit,
    }))
}

// The words of `serve`, with its values tested.
fn test_serve(
    alloc: Global,
    file: &str,
    address: &str,
    workers: &str,
    connections: &str,
) -> Result<Option<ProgramCommand>, Memory>
    ensures { IfOk result (λ found. let w : ServeWords = record {
      file = file.now;
      address = address.now;
      workers = workers.now;
      connections = connections.now;
    } in
        MatchOption found (IsServeInRange w → ⊥) (λ words. IsServeInRange w × Denotes words (serve w))) }
{
    let Some(workers) = read_number(workers, 1, MOST_PASSES as u64) else {
        return Ok(None);
    };
    match read_number(connections, 1, MOST_CONNECTIONS) {
        Some(connections) => Ok(Some(ProgramCommand::Serve {
            file: Text::of(alloc, file)?,
            address: Text::of(alloc, address)?,
            workers: workers as u32,
            connections: connections as u32,
        })),
        None => Ok(None),
    }
}

// The words of `load`, with its values tested.
fn test_load(
    alloc: Global,
    file: &str,
    seed: &str,
    count: &str,
) -> Result<Option<ProgramCommand>, Memory>
    ensures { IfOk result (λ found. let w : LoadWords = record {
      file = file.now;
      seed = seed.now;
      count = count.now;
    } in
        MatchOption found (IsLoadInRange w → ⊥) (λ words. IsLoadInRange w × Denotes words (load w))) }
{
    let Some(seed) = read_number(seed, 0, u64::MAX) else {
        return Ok(None);
    };
    match read_number(count, 1, MOST_STATEMENTS) {
        Some(count) => Ok(Some(ProgramCommand::Load {
            file: Text::of(alloc, file)?,
            seed,
            count: count as u32,
        })),
        None => Ok(None),
    }
}

// The words of `migrate`, with its values tested.
fn test_migrate(
    alloc: Global,
    old: &str,
    new: &str,
    limit: Option<&str>,
) -> Result<Option<ProgramCommand>, Memory>
    ensures { IfOk result (λ found. let w : MigrateWords = record {
      old = old.now;
      new = new.now;
      limit = option_copied limit.entry;
    } in
        MatchOption found (IsMigrateInRange w → ⊥) (λ words. IsMigrateInRange w × Denotes words (migrate w))) }
{
    if old == new {
        return Ok(None);
    }
    match read_chosen_limit(limit) {
        Some(limit) => Ok(Some(ProgramCommand::Migrate {
            old: Text::of(alloc, old)?,
            new: Text::of(alloc, new)?,
            limit,
        })),
        None => Ok(None),
    }
}

// The words of a command, with its values tested.
fn test_values(alloc: Global, shape: CommandLine<'_>) -> Result<Option<ProgramCommand>, Memory>
    ensures { IfOk result (λ found. MatchOption found (IsInRange (command_of shape.entry) → ⊥)
        (λ words. IsInRange (command_of shape.entry) × Denotes words (command_of shape.entry))) }
{
    match shape {
        CommandLine::Init {
            file,
            admin,
            base,
            limit,
        } => test_init(alloc, file, admin, base, limit),
        CommandLine::Intake { file } => Ok(Some(ProgramCommand::Intake {
            file: Text::of(alloc, file)?,
        })),
        CommandLine::Serve {
            file,
            address,
            workers,
            connections,
        } => test_serve(alloc, file, address, workers, connections),
        CommandLine::Load { file, seed, count } => test_load(alloc, file, seed, count),
        CommandLine::Migrate { old, new, limit } => test_migrate(alloc, old, new, limit),
    }
}

// The same, if the words name a command.
fn test_named(
    alloc: Global,
    shape: Option<CommandLine<'_>>,
) -> Result<Option<ProgramCommand>, Memory>
    ensures { IfOk result (IsReadAs (option_map command_of shape.entry)) }
{
    match shape {
        Some(shape) => test_values(alloc, shape),
        None => Ok(None),
    }
}

fn read_named(alloc: Global, words: &[Text]) -> Result<Option<ProgramCommand>, Memory>
    ensures { IfOk result (IsReadAs (named words.now)) }
{
    if is_plain(words) {
        test_named(alloc, read_plain(words))
    } else {
        read_taken(alloc, words)
    }
}

/// Reads the words after the program's name: a command of the program, or none (a usage fault).
///
/// A command's options stand in any order and anywhere after its name, `--name VALUE` or `--name=VALUE`, and each
/// once. A `--` ends them, so that a FILE after it may begin with `-`.
pub fn read_words(alloc: Global, words: &[Text]) -> Result<Option<ProgramCommand>, Memory>
    ensures { IfOk result (λ found. MatchOption found ((c : SpecCommandLine) → IsCommandLine words.now c → ⊥)
        (λ read. (c : SpecCommandLine) × IsCommandLine words.now c × Denotes read c)) }
{
    read_named(alloc, words)
}
