//! The words by their places: a command's name, and up to two words after it.

ghost use Rattle.std.specs.Prelude.{◌≡◌, IfOk, IsErrOf, false, map};
ghost use Rattle.std.specs.List.{list_any};
ghost use Rattle.std.specs.String.{string_bytes};
ghost use Rattle.clap.specs.Words.{app_of, found_of};
ghost use Rattle.dex_words.specs.Commands.{begins_with_hyphen};
ghost use Rattle.dex_words.specs.Positionals.{ArePlaced, IsOutOfPlaces, line};

use crate::WordsError;
use clap::{Arg, ArgMatches, Command};
use std::alloc::{AllocError, Global};

/// The id of the command's name.
pub(crate) const NAME: &str = "command";
/// The id of the first word after the name.
pub(crate) const FIRST: &str = "first";
/// The id of the second word after the name.
pub(crate) const SECOND: &str = "second";

// A line of one required and two optional positional words.
fn line<'a>(alloc: Global) -> Result<Command<'a>, AllocError>
    ensures { IfOk result (λ command. app_of command ≡ line) }
{
    let name = Arg::new(alloc, NAME).required(true);
    let first = Arg::new(alloc, FIRST);
    let second = Arg::new(alloc, SECOND);
    Command::new(alloc, "dex")
        .no_binary_name(true)
        .disable_help_flag(true)
        .arg(name)?
        .arg(first)?
        .arg(second)
}

/// Reads the words by their places.
pub(crate) fn placed<'a>(alloc: Global, words: &'a [String]) -> Result<ArgMatches<'a>, WordsError>
    requires { list_any (λ word. begins_with_hyphen (string_bytes word)) words.now ≡ false }
    ensures placed { IfOk result (λ matches.
        ArePlaced (map (λ word. string_bytes word) words.now) (found_of matches)) }
    ensures usage { IsErrOf result WordsError.Usage
        → IsOutOfPlaces (map (λ word. string_bytes word) words.now) }
{
    let line = line(alloc)?;
    let matches = line.try_get_matches_from(words)?;
    Ok(matches)
}
