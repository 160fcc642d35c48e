//! What a report says of a reply, as text.

ghost use Rattle.std.specs.Prelude.{IfOk};
ghost use Rattle.dex_answers.specs.Told.{text_of};
ghost use Rattle.dex_call.specs.Calls.{EndsWith, done};
ghost use Rattle.dex_call.specs.ReplyTexts.{SaysReply};

use crate::calling::tell;
use dex_abi::ReplyNumbers;
use dex_answers::{Status, StatusText};
use dex_types::NoMemory;
use std::alloc::Global;

/// What a report says of the reply that numbers stand for.
fn reply_answer(alloc: Global, reply: &ReplyNumbers) -> Result<StatusText, NoMemory>
    ensures { IfOk result (λ told. SaysReply reply.now told.status (text_of told)) }
{
    let text = dex_abi::reply_text(alloc, reply)?;
    StatusText::of(alloc, Status::Ok, text.into_bytes())
}

/// What a report says of the reply that numbers stand for, such as `ok cancelled 2`; nothing where they stand for none.
pub fn reply_text(alloc: Global, reply: &ReplyNumbers, room: &mut [u8], size: &mut usize) -> u8
    ensures { EndsWith (SaysReply reply.now) (done room.old room.new result size.new) }
{
    tell(reply_answer(alloc, reply), room, size)
}
