// What lies behind a gate.
/// An object with a history. Its calls are what threads make through the gate, one after the other.
///
/// An impl says with `replies` and `finds` what a call or a poll answers after a history, and whether it makes an entry
/// there, and which: nothing else is known of the history by those who call through a gate.
pub trait Object {
    ghost use Rattle.std.specs.Prelude.{◌≡◌, ◌↔◌, ℕ, List, length, Option, IsNone, IfNone, IfSome};
    ghost use Rattle.parked_gate.specs.Histories.{Appends};

    type Call;

    type Reply;

    /// What a thread waits for.
    type Ask: Copy;

    type Found;

    type Question;

    type Answer;

    /// What the history keeps of a call or a poll. The gate makes no value of it.
    type Entry;

    ghost history: { Self → List Self.Entry };

    // The number of the pass that made an entry.
    ghost caller_of: { Self.Entry → ℕ };

    // What is true of each history that the object has.
    ghost is_legal: { List Self.Entry → Type 0 };

    // When a call may be made.
    ghost may: { Self.Call → Type 0 };

    // What a call replies after a history, and the entry that it makes there, if it makes one.
    ghost replies: { List Self.Entry → Self.Call → Self.Reply → Option Self.Entry → Type 0 };

    // There is nothing for an ask after a history.
    ghost lacks: { List Self.Entry → Self.Ask → Type 0 };

    // What is found for an ask after a history, and the entry that finding it makes, if it makes one.
    ghost finds: { List Self.Entry → Self.Ask → Self.Found → Option Self.Entry → Type 0 };

    ghost answers: { List Self.Entry → Self.Question → Self.Answer → Type 0 };

    fn step(&mut self, caller: u32, call: Self::Call) -> Self::Reply
        requires { may call }
        ensures { (made : Option Self.Entry)
            × Appends caller_of caller (history self.old) made (history self.new)
            × replies (history self.old) call result made };

    /// It takes no memory.
    fn poll(&mut self, caller: u32, ask: Self::Ask) -> Option<Self::Found>
        ensures nothing { IsNone result ↔ lacks (history self.old) ask }
        ensures none { IfNone result (history self.new ≡ history self.old) }
        ensures found { IfSome result (λ found. (made : Option Self.Entry)
            × Appends caller_of caller (history self.old) made (history self.new)
            × finds (history self.old) ask found made) };

    fn look(&self, question: &Self::Question) -> Self::Answer
        ensures { answers (history self.now) question.now result };

    /// How many entries the history has. It takes no memory.
    fn count(&self) -> u64
        ensures length { result ≡ length (history self.now) }
        ensures legal { is_legal (history self.now) };
}
