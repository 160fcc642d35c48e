//! What a gate asks of its value.
ghost use Rattle.std.specs.Prelude.{◌≡◌, ℕ, ◌^◌, ◌<◌, List, length};

/// A value with a history: a list of entries, each of one lane, and an origin, which no turn changes.
pub trait Journaled {
    /// An entry of the history, as clauses see it. No value of it need be made.
    type Entry;
    /// What no turn changes.
    type Origin;

    /// The history, from its first entry to its last.
    ghost entries: { Self → List Self.Entry };

    /// The lane of an entry: the number of the pass whose turn added it.
    ghost lane: { Self.Entry → ℕ };

    ghost origin: { Self → Self.Origin };

    /// The number of entries.
    fn count(&self) -> u64
        ensures length { result ≡ length (entries self.now) }
        ensures bounded { result < 2 ^ 63 };
}
