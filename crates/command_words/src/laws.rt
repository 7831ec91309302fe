//! A law of words. The function does nothing: it is called for what it ensures.

ghost use Rattle.std.specs.Prelude.{◌≡◌, ℕ, List};
ghost use Rattle.command_words.specs.Asking.{Asks, Request};

/// Words ask for one request at most.
pub fn one_request()
    ensures { (words : List (List ℕ)) (a b : Request) → Asks words a → Asks words b → a ≡ b }
{}
