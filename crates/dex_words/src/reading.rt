//! The command that the words are.

ghost use Rattle.std.specs.Prelude.{◌≡◌, ◌^◌, IfOk, IsErrOf, None, Some, map, option_map};
ghost use Rattle.std.specs.List.{list_any};
ghost use Rattle.std.specs.String.{string_bytes};
ghost use Rattle.dex_words.specs.Commands.{begins_with_hyphen, command_of, count_of, counted_command, plain_command};
ghost use Rattle.dex_words.specs.Commands.{single_command};
ghost use Rattle.dex_words.specs.Positionals.{given_command};

use crate::command::{MOST_EVENTS, MOST_NODES, MOST_ROWS};
use crate::positionals::{FIRST, NAME, SECOND, placed};
use crate::{Command, WordsError};
use dex_rows::numbers::{u32_word, u64_word};
use std::alloc::Global;

/// The most threads of a batch.
const MOST_WORKERS: u32 = 16;

/// The command that the words after the program's name are. `Usage` exactly where they are none.
#[tactic(auto, using(crate::proofs::Placing::hyphen_is_none, crate::proofs::Placing::out_is_none, crate::proofs::Placing::placed_command))]
pub fn read_words(alloc: Global, words: &[String]) -> Result<Command, WordsError>
    ensures command { IfOk result (λ command.
        command_of (map (λ word. string_bytes word) words.now) ≡ Some command) }
    ensures usage { IsErrOf result WordsError.Usage
        → command_of (map (λ word. string_bytes word) words.now) ≡ None }
{
    if has_hyphen(words) {
        return Err(WordsError::Usage);
    }
    let matches = placed(alloc, words)?;
    let first = matches.get_str(FIRST);
    let second = matches.get_str(SECOND);
    match given_command(matches.get_str(NAME), first, second) {
        Some(command) => Ok(command),
        None => Err(WordsError::Usage),
    }
}

// Whether a word begins with a hyphen.
fn has_hyphen(words: &[String]) -> bool
    ensures { result ≡ list_any (λ word. begins_with_hyphen (string_bytes word)) words.now }
{
    words.iter().any(|word| begins_with_hyphen(word))
}

// Whether the word begins with a hyphen.
fn begins_with_hyphen(word: &str) -> bool
    ensures { result ≡ begins_with_hyphen word.now }
{
    word.as_bytes().first() == Some(&b'-')
}

// The command of a name and the two words after it, where they are there.
fn given_command(name: Option<&str>, first: Option<&str>, second: Option<&str>) -> Option<Command>
    ensures { result ≡ given_command (option_map (λ word. word.now) name.entry)
        (option_map (λ word. word.now) first.entry) (option_map (λ word. word.now) second.entry) }
{
    match (name, first, second) {
        (Some(name), None, None) => plain_command(name),
        (Some(name), Some(first), None) => single_command(name, first),
        (Some(name), Some(first), Some(second)) => counted_command(name, first, second),
        _ => None,
    }
}

// The command that is a name alone.
fn plain_command(name: &str) -> Option<Command>
    ensures { result ≡ plain_command name.now }
{
    match name {
        "replay" => Some(Command::Replay),
        "run" => Some(Command::Run),
        "dump" => Some(Command::Dump),
        "audit" => Some(Command::Audit),
        "worth" => Some(Command::Worth),
        _ => None,
    }
}

// The command that is a name and one number.
fn single_command(name: &str, first: &str) -> Option<Command>
    ensures { result ≡ single_command name.now first.now }
{
    match name {
        "batch" => Some(Command::Batch {
            workers: count_word(first, MOST_WORKERS)?,
        }),
        _ => None,
    }
}

// The command that is a name and two numbers.
fn counted_command(name: &str, first: &str, second: &str) -> Option<Command>
    ensures { result ≡ counted_command name.now first.now second.now }
{
    match name {
        "make" => Some(Command::Make {
            number: u64_word(first.as_bytes())?,
            rows: count_word(second, MOST_ROWS)?,
        }),
        "bulk" => Some(Command::Bulk {
            number: u64_word(first.as_bytes())?,
            rows: count_word(second, MOST_ROWS)?,
        }),
        "migrate" => Some(Command::Migrate {
            nodes: count_word(first, MOST_NODES)?,
            events: count_word(second, MOST_EVENTS)?,
        }),
        _ => None,
    }
}

// The number from 1 to the greatest that a word writes.
fn count_word(word: &str, most: u32) -> Option<u32>
    ensures { result ≡ count_of most word.now }
{
    let number = u32_word(word.as_bytes())?;
    if number >= 1 && number <= most {
        Some(number)
    } else {
        None
    }
}
