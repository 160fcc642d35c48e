//! Laws of sessions. Each is a function without a body, and its clauses are the law.

ghost use Rattle.std.specs.Prelude.{◌++◌, List};
ghost use Rattle.dex_desk.specs.Talks.{Talk, Talks, first};
ghost use Rattle.dex_desk.specs.Turns.{Turn};
ghost use Rattle.dex_desk.specs.Whole.{IsWhole, heard_in, said_in};

/// A front of turns that talk talks. Each call of a desk puts a turn behind those before, so at any moment, also where
/// the process is killed, what was heard and said until then is a talk: what stands in the pipe is a front of true
/// answers.
pub fn a_front_of_turns_that_talk_talks()
    ensures { (before after : Talk) (turns more : List Turn) → Talks before (turns ++ more) after
        → (between : Talk) × Talks before turns between × Talks between more after }
{}

/// A session is one replay: of the script of the set-up that was heard before the line `open`, and behind it of just
/// those rows heard behind that line that were accepted, in their order. Each other row was answered by its fault, or
/// asks for none that acts. So it makes no difference where rows are cut into blocks: the answers of each block, which
/// stand in what was said one behind the other, are of the entries that this one replay has; the desk's accounts are
/// those that it leaves; and a session that ends well says these last.
pub fn a_session_is_one_replay()
    ensures { (turns : List Turn) (after : Talk) → Talks first turns after → IsWhole after.session (heard_in turns)
        (said_in turns ++ after.owed) }
{}
