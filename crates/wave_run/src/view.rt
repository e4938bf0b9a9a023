//! What a pass knows.
ghost use Rattle.std.specs.Prelude.{ℕ, List};
ghost use Rattle.std.specs.Borrow.{ftrue};

use std::marker::Model;

/// A pass's parts of the board, and the numbers that it has drawn, in their order. No value of it is made.
pub struct View {
    pub ghost parts: { ℕ },
    pub ghost drawn: { List ℕ },
}

impl Model for View {
    ghost also_owns = { λ _. ftrue };
}
