//! Plain lines.

ghost use Rattle.std.specs.Prelude.{◌≡◌, ◌≤◌, ◌∷◌, [], true, false, length, codes, IfSome, MatchOption, Some, option_map};
ghost use Rattle.std.specs.Option.{option_copied};
ghost use Rattle.lrs_json.specs.Names.{is_among};
ghost use Rattle.lrs_command_line.specs.CommandLine.{is_no_option, options_of_command, options_of};
ghost use Rattle.lrs_command_line.specs.Shapes.{alone, command_of, init_with, is_option, is_plain, load_said, migrate_with, said_by, serve_with, value_behind};

use crate::words::CommandLine;
use lrs_json::Text;

// Whether the word isn't empty and doesn't begin as an option's name does.
fn is_no_option(word: &Text) -> bool
    ensures { result ≡ is_no_option word.now }
{
    match word.as_bytes() {
        [] | [b'-', ..] => false,
        _ => true,
    }
}

// Whether the command has this option.
fn has_option(command: &str, word: &str) -> bool
    ensures { result ≡ is_among word.now (options_of_command command.now) }
{
    match command {
        "init" => word == "--admin" || word == "--base" || word == "--limit",
        "serve" => word == "--workers" || word == "--connections",
        "migrate" => word == "--limit",
        _ => false,
    }
}

fn is_among(word: &str, words: &[Text]) -> bool
    ensures { result ≡ is_among word.now words.now }
{
    let mut left = words;
    while let [other, rest @ ..] = left {
        if word == other.as_str() {
            return true;
        }
        left = rest;
    }
    false
}

// Whether the word is an option of the command that doesn't stand again after it.
fn is_option(command: &str, word: &Text, behind: &[Text]) -> bool
    ensures { result ≡ is_option (options_of_command command.now) word.now behind.now }
{
    has_option(command, word.as_str()) && !is_among(word.as_str(), behind)
}

// The words of a plain line after its first one, or after that and its value.
fn pass_word<'a>(command: &str, word: &Text, words: &'a [Text]) -> Option<&'a [Text]>
    ensures plain { MatchOption result (is_plain (options_of_command command.now) false (word.now ∷ words.now) ≡ false)
        (λ rest. is_plain (options_of_command command.now) false rest.now
        ≡ is_plain (options_of_command command.now) false (word.now ∷ words.now)) }
    ensures shorter { IfSome result (λ rest. length rest.now ≤ length words.now) }
{
    if is_no_option(word) {
        return Some(words);
    }
    match words {
        [value, rest @ ..] if is_option(command, word, words) && is_no_option(value) => Some(rest),
        _ => None,
    }
}

fn is_plain_for(command: &str, words: &[Text]) -> bool
    ensures { result ≡ is_plain (options_of_command command.now) false words.now }
{
    let mut left = words;
    while let [word, behind @ ..] = left {
        match pass_word(command, word, behind) {
            Some(rest) => left = rest,
            None => return false,
        }
    }
    true
}

/// Whether a line is plain: no word is empty, none begins with `-` but the options of its command, and each of those
/// stands once with its value after it.
pub(super) fn is_plain(words: &[Text]) -> bool
    ensures { result ≡ is_plain (options_of words.now) false words.now }
{
    match words {
        [command, ..] => is_plain_for(command.as_str(), words),
        [] => true,
    }
}

// The words after an option's value.
fn behind_value(words: &[Text]) -> &[Text]
    ensures same { alone false result.now ≡ alone true words.now }
    ensures shorter { length result.now ≤ length words.now }
{
    match words {
        [_, rest @ ..] => rest,
        [] => words,
    }
}

// The first word of a line that stands alone, and the words after it.
fn next_alone(line: &[Text]) -> Option<(&Text, &[Text])>
    ensures { MatchOption result (alone false line.now ≡ [])
        (λ next. alone false line.now ≡ next.0.now ∷ alone false next.1.now) }
{
    let mut left = line;
    while let [word, words @ ..] = left {
        if is_no_option(word) {
            return Some((word, words));
        }
        left = behind_value(words);
    }
    None
}

// The word after an option's name.
fn value_behind<'a>(name: &str, line: &'a [Text]) -> Option<&'a str>
    ensures { option_copied result ≡ value_behind name.now line.now }
{
    let mut left = line;
    while let [word, words @ ..] = left {
        if word.as_str() == name {
            return words.first().map(Text::as_str);
        }
        left = words;
    }
    None
}

fn plain_init<'a>(file: &'a str, words: &'a [Text]) -> Option<CommandLine<'a>>
    ensures { option_map command_of result ≡ init_with (Some file.now) (value_behind (codes "--admin") words.now)
        (value_behind (codes "--base") words.now) (value_behind (codes "--limit") words.now) }
{
    Some(CommandLine::Init {
        file,
        admin: value_behind("--admin", words)?,
        base: value_behind("--base", words),
        limit: value_behind("--limit", words),
    })
}

fn plain_serve<'a>(file: &'a str, address: &'a str, words: &'a [Text]) -> Option<CommandLine<'a>>
    ensures { option_map command_of result ≡ serve_with (Some file.now) (Some address.now)
        (value_behind (codes "--workers") words.now) (value_behind (codes "--connections") words.now) }
{
    Some(CommandLine::Serve {
        file,
        address,
        workers: value_behind("--workers", words)?,
        connections: value_behind("--connections", words)?,
    })
}

fn plain_migrate<'a>(old: &'a str, new: &'a str, words: &'a [Text]) -> CommandLine<'a>
    ensures { Some (command_of result) ≡ migrate_with (Some old.now) (Some new.now)
        (value_behind (codes "--limit") words.now) }
{
    CommandLine::Migrate {
        old,
        new,
        limit: value_behind("--limit", words),
    }
}

// A plain line with one word after the command's name.
fn plain_with_file<'a>(command: &str, file: &'a str, words: &'a [Text]) -> Option<CommandLine<'a>>
    ensures { option_map command_of result ≡ said_by (command.now ∷ file.now ∷ [])
        (λ name. value_behind name words.now) }
{
    match command {
        "init" => plain_init(file, words),
        "intake" => Some(CommandLine::Intake { file }),
        _ => None,
    }
}

// A plain line with two words after the command's name.
fn plain_with_second<'a>(
    command: &str,
    file: &'a str,
    second: &'a str,
    words: &'a [Text],
) -> Option<CommandLine<'a>>
    ensures { option_map command_of result ≡ said_by (command.now ∷ file.now ∷ second.now ∷ [])
        (λ name. value_behind name words.now) }
{
    match command {
        "serve" => plain_serve(file, second, words),
        "migrate" => Some(plain_migrate(file, second, words)),
        _ => None,
    }
}

// A plain line with three words after the command's name.
fn plain_with_seed<'a>(
    command: &str,
    file: &'a str,
    seed: &'a str,
    count: &'a str,
) -> Option<CommandLine<'a>>
    ensures { option_map command_of result ≡ load_said command.now file.now seed.now count.now }
{
    match command {
        "load" => Some(CommandLine::Load { file, seed, count }),
        _ => None,
    }
}

/// The command that a plain line names.
pub(super) fn read_plain(words: &[Text]) -> Option<CommandLine<'_>>
    ensures { option_map command_of result ≡ said_by (alone false words.now) (λ name. value_behind name words.now) }
{
    let (command, rest) = next_alone(words)?;
    let (file, rest) = next_alone(rest)?;
    let Some((second, rest)) = next_alone(rest) else {
        return plain_with_file(command.as_str(), file.as_str(), words);
    };
    let Some((third, rest)) = next_alone(rest) else {
        return plain_with_second(command.as_str(), file.as_str(), second.as_str(), words);
    };
    match next_alone(rest) {
        None => plain_with_seed(
            command.as_str(),
            file.as_str(),
            second.as_str(),
            third.as_str(),
        ),
        Some(_) => None,
    }
}
