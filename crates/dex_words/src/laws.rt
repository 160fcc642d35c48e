//! What holds of all commands. A law is a function without a body, and its clause is the law.

ghost use Rattle.std.specs.Prelude.{◌≡◌, ◌↔◌, ℕ, List, Some};
ghost use Rattle.dex_words.specs.Commands.{command_of};
ghost use Rattle.dex_words.specs.Spelling.{IsWithin, spelling};
ghost use Rattle.dex_words.specs.declared.command.Command.{Command};

/// Words are a command exactly where they are its spelling, and its numbers are within their limits.
pub fn a_command_has_one_spelling()
    ensures { (words : List (List ℕ)) (command : Command)
        → (command_of words ≡ Some command) ↔ ((words ≡ spelling command) × IsWithin command) }
{}
