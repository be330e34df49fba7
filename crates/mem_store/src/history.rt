// What was drawn, as clauses read it.
ghost use Rattle.std.specs.Prelude.{◌≡◌, ℕ, List, [], ◌∷◌, ◌++◌};
ghost use Rattle.std.specs.Borrow.{ftrue};

use std::marker::Model;

/// The identifiers drawn so far. It takes no memory, so that it never runs out of it.
#[derive(Drop)]
pub struct History {
    pub ghost drawn: { List (List ℕ) },
}

impl Model for History {
    ghost also_owns = { λ _. ftrue };
}

impl History {
    /// None was drawn.
    pub fn new() -> History
        ensures { result.drawn ≡ [] }
    {
        History {}
    }

    /// One more was drawn.
    pub fn with(&self, _id: &[u8; 16]) -> History
        ensures { result.drawn ≡ self.now.drawn ++ _id.now ∷ [] }
    {
        History {}
    }
}
