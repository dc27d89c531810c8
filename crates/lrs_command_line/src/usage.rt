//! What is wrong with words that are no command, in a line for people. Which words are a command is the contract of
//! `read_words`; no clause says anything of this line.

use crate::words::{MOST_CONNECTIONS, MOST_DIGITS, MOST_STATEMENTS};
use lrs_journal::{LEAST_BYTES, MOST_BYTES};
use lrs_json::Text;
use lrs_state::{is_base, is_token};
use lrs_turn::MOST_PASSES;
use std::alloc::Global;
use std::fmt;

const COMMANDS: &str = "init, intake, serve, load or migrate";

// What a word has to be.
#[derive(Clone, Copy)]
enum Value {
    File,
    NewFile,
    Address,
    Token,
    Base,
    Number { least: u64, most: u64 },
    // The same, of a word that isn't even spelled as a number.
    Digits { least: u64, most: u64 },
}

impl fmt::Display for Value {
    fn fmt<W: fmt::Write>(&self, f: &mut fmt::Formatter<W>) -> fmt::Result {
        match self {
            Value::File => f.write_str("the store's file"),
            Value::NewFile => f.write_str("the new store's file, another one than OLD"),
            Value::Address => f.write_str("an address, such as 127.0.0.1:8080"),
            Value::Token => f.write_str("8 to 64 letters and digits"),
            Value::Base => {
                f.write_str("a URL that begins http:// or https://, ends with / and has no ? or #")
            }
            Value::Number { least, most } => write!(f, "a number from {least} to {most}"),
            Value::Digits { least, most } => write!(
                f,
                "a number from {least} to {most}, spelled with 1 to 20 digits and nothing else"
            ),
        }
    }
}

// A word that stands alone, by its name in the usage line, or an option, with what its value has to be.
#[derive(Clone, Copy)]
struct Argument {
    name: &'static str,
    value: Value,
    is_needed: bool,
}

// A command: the words that stand alone, and the options, and each of them as it is told.
#[derive(Clone, Copy)]
struct Shape {
    name: &'static str,
    alone: &'static [Argument],
    told_alone: &'static str,
    options: &'static [Argument],
    told_options: &'static str,
}

const FILE: Argument = Argument {
    name: "FILE",
    value: Value::File,
    is_needed: true,
};

const LIMIT: Argument = Argument {
    name: "--limit",
    value: Value::Number {
        least: LEAST_BYTES,
        most: MOST_BYTES,
    },
    is_needed: false,
};

const INIT: Shape = Shape {
    name: "init",
    alone: &[FILE],
    told_alone: "FILE",
    options: &[
        Argument {
            name: "--admin",
            value: Value::Token,
            is_needed: true,
        },
        Argument {
            name: "--base",
            value: Value::Base,
            is_needed: false,
        },
        LIMIT,
    ],
    told_options: "--admin, --base and --limit",
};

const INTAKE: Shape = Shape {
    name: "intake",
    alone: &[FILE],
    told_alone: "FILE",
    options: &[],
    told_options: "none",
};

const SERVE: Shape = Shape {
    name: "serve",
    alone: &[
        FILE,
        Argument {
            name: "ADDRESS",
            value: Value::Address,
            is_needed: true,
        },
    ],
    told_alone: "FILE and ADDRESS",
    options: &[
        Argument {
            name: "--workers",
            value: Value::Number {
                least: 1,
                most: MOST_PASSES as u64,
            },
            is_needed: true,
        },
        Argument {
            name: "--connections",
            value: Value::Number {
                least: 1,
                most: MOST_CONNECTIONS,
            },
            is_needed: true,
        },
    ],
    told_options: "--workers and --connections",
};

const LOAD: Shape = Shape {
    name: "load",
    alone: &[
        FILE,
        Argument {
            name: "SEED",
            value: Value::Number {
                least: 0,
                most: u64::MAX,
            },
            is_needed: true,
        },
        Argument {
            name: "N",
            value: Value::Number {
                least: 1,
                most: MOST_STATEMENTS,
            },
            is_needed: true,
        },
    ],
    told_alone: "FILE, SEED and N",
    options: &[],
    told_options: "none",
};

const MIGRATE: Shape = Shape {
    name: "migrate",
    alone: &[
        Argument {
            name: "OLD",
            value: Value::File,
            is_needed: true,
        },
        Argument {
            name: "NEW",
            value: Value::NewFile,
            is_needed: true,
        },
    ],
    told_alone: "OLD and NEW",
    options: &[LIMIT],
    told_options: "--limit",
};

// What is wrong with the words, and with which of them.
#[derive(Clone, Copy)]
enum Fault<'a> {
    NotUtf8,
    NoWord,
    NoCommand(&'a str),
    Missing(Argument),
    TooMany(&'a str, Shape),
    Unknown(&'a str, Shape),
    Twice(Argument),
    NoValue(Argument),
    // The word of this name has to be something else.
    WrongWord(&'static str, &'a str, Value),
    // The value of this option has to be something else.
    WrongValue(&'static str, &'a str, Value),
}

impl fmt::Display for Fault<'_> {
    fn fmt<W: fmt::Write>(&self, f: &mut fmt::Formatter<W>) -> fmt::Result {
        match self {
            Fault::NotUtf8 => f.write_str("each word must be UTF-8"),
            Fault::NoWord => write!(f, "the first word must be a command: {COMMANDS}"),
            Fault::NoCommand(word) => {
                let word = word.escape_debug();
                write!(f, "`{word}` must be a command: {COMMANDS}")
            }
            Fault::Missing(Argument { name, value, .. }) => {
                write!(f, "`{name}` is missing: {value}")
            }
            Fault::TooMany(
                word,
                Shape {
                    name,
                    told_alone,
                    ..
                },
            ) => {
                let word = word.escape_debug();
                write!(f, "`{word}` is a word too many: {name} takes {told_alone}")
            }
            Fault::Unknown(
                word,
                Shape {
                    name,
                    told_options,
                    ..
                },
            ) => {
                let word = word.escape_debug();
                write!(
                    f,
                    "`{word}` is no option of {name}, which has {told_options}"
                )
            }
            Fault::Twice(Argument { name, .. }) => write!(f, "`{name}` must stand once"),
            Fault::NoValue(Argument { name, value, .. }) => {
                write!(f, "`{name}` must have a value: {value}")
            }
            Fault::WrongWord(name, word, value) => {
                let word = word.escape_debug();
                write!(f, "{name} `{word}` must be {value}")
            }
            // A token is a secret, and standard error may be kept.
            Fault::WrongValue(name, _, Value::Token) => {
                write!(f, "the value of `{name}` must be {}", Value::Token)
            }
            Fault::WrongValue(name, word, value) => {
                let word = word.escape_debug();
                write!(f, "`{name} {word}` must be {value}")
            }
        }
    }
}

fn shape_of(command: &str) -> Option<Shape> {
    match command {
        "init" => Some(INIT),
        "intake" => Some(INTAKE),
        "serve" => Some(SERVE),
        "load" => Some(LOAD),
        "migrate" => Some(MIGRATE),
        _ => None,
    }
}

fn option_of(shape: Shape, name: &str) -> Option<Argument> {
    for option in shape.options {
        if option.name == name {
            return Some(*option);
        }
    }
    None
}

// Whether the word begins as an option's name does, or is the `--` that ends the options.
fn is_option(word: &str) -> bool {
    matches!(word.as_bytes(), [b'-', _, ..])
}

// An option's name, and the value that `=` joins to it.
fn split_option(word: &str) -> (&str, Option<&str>) {
    match word.split_once('=') {
        Some((name, value)) => (name, Some(value)),
        None => (word, None),
    }
}

// How often an option stands before a `--`.
fn times(name: &str, words: &[Text]) -> usize {
    let mut times = 0_usize;
    for word in words {
        if word.as_str() == "--" {
            return times;
        }
        if split_option(word.as_str()).0 == name {
            times = times.saturating_add(1);
        }
    }
    times
}

fn is_number(word: &str) -> bool {
    !word.is_empty()
        && word.len() <= MOST_DIGITS
        && word.bytes().all(|digit| digit.is_ascii_digit())
}

// What the word has to be, if it is something else. If memory is out, it passes.
fn lacking(alloc: Global, word: &str, value: Value) -> Option<Value> {
    let Ok(text) = Text::of(alloc, word) else {
        return None;
    };
    let fits = match value {
        Value::Token => is_token(&text),
        Value::Base => is_base(alloc, &text).unwrap_or(true),
        Value::Number { least, most } if !is_number(word) => {
            return Some(Value::Digits { least, most });
        }
        Value::Number { least, most } => match word.parse::<u64>() {
            Ok(number) => (least..=most).contains(&number),
            Err(_) => false,
        },
        _ => true,
    };
    if fits { None } else { Some(value) }
}

fn is_same(word: &str, other: Option<&Text>) -> bool {
    match other {
        Some(other) => other.as_str() == word,
        None => false,
    }
}

// Looks at a word that stands alone, behind another one or none. What is still to come is given back.
fn check_alone<'a>(
    alloc: Global,
    shape: Shape,
    left: &'static [Argument],
    before: Option<&Text>,
    word: &'a str,
) -> Result<&'static [Argument], Fault<'a>> {
    let [argument, left @ ..] = left else {
        return Err(Fault::TooMany(word, shape));
    };
    if matches!(argument.value, Value::NewFile) && is_same(word, before) {
        return Err(Fault::WrongWord(argument.name, word, argument.value));
    }
    match lacking(alloc, word, argument.value) {
        Some(value) => Err(Fault::WrongWord(argument.name, word, value)),
        None => Ok(left),
    }
}

fn check_value<'a>(alloc: Global, option: Argument, word: &'a str) -> Result<(), Fault<'a>> {
    match lacking(alloc, word, option.value) {
        Some(value) => Err(Fault::WrongValue(option.name, word, value)),
        None => Ok(()),
    }
}

// Looks at an option. If the next word has to be its value, the option is given back.
fn check_option<'a>(
    alloc: Global,
    shape: Shape,
    words: &[Text],
    word: &'a str,
) -> Result<Option<Argument>, Fault<'a>> {
    let (name, value) = split_option(word);
    let Some(option) = option_of(shape, name) else {
        return Err(Fault::Unknown(name, shape));
    };
    if times(name, words) > 1 {
        return Err(Fault::Twice(option));
    }
    match value {
        Some(value) => {
            check_value(alloc, option, value)?;
            Ok(None)
        }
        None => Ok(Some(option)),
    }
}

// Looks at the words after a command's name up to the first one that is wrong, then for a word that is missing.
fn check_words<'a>(alloc: Global, shape: Shape, words: &'a [Text]) -> Result<(), Fault<'a>> {
    let mut left = shape.alone;
    let mut before: Option<&Text> = None;
    let mut waiting: Option<Argument> = None;
    let mut ended = false;
    for text in words {
        let word = text.as_str();
        match waiting {
            Some(option) if is_option(word) => return Err(Fault::NoValue(option)),
            Some(option) => {
                check_value(alloc, option, word)?;
                waiting = None;
            }
            None if ended || !is_option(word) => {
                left = check_alone(alloc, shape, left, before, word)?;
                before = Some(text);
            }
            None if word == "--" => ended = true,
            None => waiting = check_option(alloc, shape, words, word)?,
        }
    }
    match (waiting, left) {
        (Some(option), _) => Err(Fault::NoValue(option)),
        (None, [argument, ..]) => Err(Fault::Missing(*argument)),
        (None, []) => Ok(()),
    }
}

// Looks for an option that is missing.
fn check_needed(shape: Shape, words: &[Text]) -> Result<(), Fault<'static>> {
    for option in shape.options {
        if option.is_needed && times(option.name, words) == 0 {
            return Err(Fault::Missing(*option));
        }
    }
    Ok(())
}

fn check<'a>(alloc: Global, words: Option<&'a [Text]>) -> Result<(), Fault<'a>> {
    let Some(words) = words else {
        return Err(Fault::NotUtf8);
    };
    let [command, words @ ..] = words else {
        return Err(Fault::NoWord);
    };
    let Some(shape) = shape_of(command.as_str()) else {
        return Err(Fault::NoCommand(command.as_str()));
    };
    check_words(alloc, shape, words)?;
    check_needed(shape, words)
}

/// Says on standard error, in one line, which of the words is wrong and what it can be. There are no words if one isn't
/// UTF-8. A line that can't be written is let go.
pub fn tell_fault(rt: &(impl Eprint + AllocGlobal), words: Option<&[Text]>) {
    if let Err(fault) = check(rt.alloc(), words) {
        let _ = eprintln!(rt; "kilnlime: {fault}");
    }
}
