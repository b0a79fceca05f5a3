//! What a turn passes from hand to hand.
ghost use Rattle.std.specs.Prelude.{◌≡◌, ℕ, List, length};

/// A value with a history that only grows, which seats pass on by turns.
pub trait Kept: Drop + Send {
    /// What the value was begun from. No call of a turn changes it.
    type Origin;
    /// One entry of the history.
    type Item;

    ghost base: { Self → Self.Origin };

    /// The entries, the oldest first.
    ghost history: { Self → List Self.Item };

    /// The number of the seat that made an entry.
    ghost shell: { Self.Item → ℕ };

    /// How many entries the history has.
    fn length(&self) -> u64
        ensures { result ≡ length (history self.now) };
}
