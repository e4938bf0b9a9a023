//! What the definitions of lexing imply. These functions do nothing: each is its clause.
ghost use Rattle.std.specs.Prelude.{◌≡◌, ◌≤◌, ◌-◌, List, ℕ, Option, Some, All, length, take, drop, slice_get};
ghost use Rattle.go_tree.specs.declared.token.Item.{Item};
ghost use Rattle.go_tree.specs.declared.token.Token.{Token};
ghost use Rattle.go_tree.specs.declared.token.TokenKind.TheVariants.{Int};
ghost use Rattle.go_tree.specs.declared.token.Why.{Why};
ghost use Rattle.go_tree.specs.Lexed.{Lexed, LexedBy, LexRefused};

/// A text has at most one list of tokens.
pub fn one_lexing()
    ensures { (text : List ℕ) (a : List Token) (b : List Token) → Lexed text a → Lexed text b → a ≡ b }
{}

/// A text is refused at one offset at most, and for one reason.
pub fn one_refusal()
    ensures { (text : List ℕ) (m : ℕ) (n : ℕ) (v : Why) (w : Why) → LexRefused text m v → LexRefused text n w → (m ≡ n) × (v ≡ w) }
{}

/// A text that has tokens is not refused.
pub fn not_both()
    ensures { (text : List ℕ) (tokens : List Token) (offset : ℕ) (why : Why) → Lexed text tokens → LexRefused text offset why → ⊥ }
{}

/// Each token lies in its text, whatever the items.
pub fn tokens_lie_in_their_text()
    ensures { (items : List ℕ → Option Item) (text : List ℕ) (tokens : List Token) → LexedBy items text tokens → (k : ℕ) (t : Token) → slice_get tokens k ≡ Some t → (t.start ≤ t.end) × (t.end ≤ length text) }
{}
