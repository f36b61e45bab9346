//! What the definition of a request says of itself.
ghost use Rattle.std.specs.Prelude.{◌≡◌, ℕ, List};
ghost use Rattle.http_talk.specs.Request.{Request, IsRequest};

/// An input asks for one thing alone.
pub fn an_input_asks_for_one_thing_law()
    ensures { (input : List ℕ) (a b : Request) → IsRequest input a → IsRequest input b → a ≡ b }
{}
