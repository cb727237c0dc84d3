ghost use Rattle.std.specs.Prelude.{◌≡◌, ◌++◌, ◌∷◌, [], List, ℕ, length, OnOk, OnErr};

use taps_base::{Body, NoMemory};

/// Something that takes messages, one after the other.
///
/// Contracts see which messages it has taken so far.
pub trait MessageSink {
    // It has taken these messages, the oldest first.
    ghost Keeps: { Self → List (List ℕ) → Type 0 };

    /// Takes a message, whose number is how many it has taken before. Where memory runs out, it keeps
    /// those alone.
    fn keep(&mut self, number: u64, body: Body) -> Result<(), NoMemory>
        ensures ok { OnOk result ((messages : List (List ℕ)) → Keeps self.old messages →
            length messages ≡ number → Keeps self.new (messages ++ body ∷ [])) }
        ensures err { OnErr result ((messages : List (List ℕ)) → Keeps self.old messages → Keeps self.new messages) };
}
