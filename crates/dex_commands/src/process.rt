//! The words that a process begins with.

ghost use Rattle.std.specs.Prelude.{◌≡◌, MatchOption, None, Some, drop, map};
ghost use Rattle.std.specs.String.{string_bytes};
ghost use Rattle.dex_commands.specs.Process.{words_given};

use dex_words::WordsError;

/// The words that a program runs on, of those of its process: all but the first, which is its name, or none where they
/// are no text. Nothing where there was no memory for them: then it does not run.
pub fn behind_name(words: &Result<Vec<String>, WordsError>) -> Option<&[String]>
    ensures { MatchOption result (words_given words.now ≡ None)
        (λ behind. words_given words.now ≡ Some (map (λ word. string_bytes word) behind.now)) }
{
    match words {
        Ok(words) => Some(behind_first(words)),
        Err(WordsError::Usage) => Some(&[]),
        Err(WordsError::NoMemory) => None,
    }
}

/// All words but the first.
fn behind_first(words: &[String]) -> &[String]
    ensures { result.now ≡ drop 1 words.now }
{
    match words {
        [_, rest @ ..] => rest,
        [] => words,
    }
}
