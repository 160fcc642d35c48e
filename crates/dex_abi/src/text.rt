//! The line of a report that numbers stand for.

ghost use Rattle.std.specs.Prelude.{◌≡◌, IfOk};
ghost use Rattle.std.specs.String.{string_bytes};
ghost use Rattle.dex_abi.specs.Texts.{told_by};

use crate::numbers::ReplyNumbers;
use crate::reading::reply_in;
use std::alloc::{AllocError, Global};
use std::fmt::Write;

/// What a report says of the reply that numbers stand for; nothing where they stand for none.
pub fn reply_text(alloc: Global, numbers: &ReplyNumbers) -> Result<String, AllocError>
    ensures { IfOk result (λ text. string_bytes text ≡ told_by numbers.now) }
{
    let mut text = String::new(alloc);
    if let Some(reply) = reply_in(numbers) {
        write!(text, "{reply}")?;
    }
    Ok(text)
}
