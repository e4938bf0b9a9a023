//! What follows from the definitions alone.
ghost use Rattle.std.specs.Prelude.{◌≡◌, ℕ, List, true, Some, slice_get};
ghost use Rattle.std.specs.Str.{is_utf8};
ghost use Rattle.go_tree.specs.Spelling.{text_of};
ghost use Rattle.go_tree.specs.declared.token.Token.{Token};
ghost use Rattle.go_tree.specs.declared.tree.FileTree.{FileTree};
ghost use Rattle.parse_file.specs.Verdict.{IsParsed};

/// Each token of a file that parses is UTF-8.
pub fn tokens_are_texts()
    ensures { (text : List ℕ) → (tree : FileTree) → (i : ℕ) → (t : Token) → IsParsed text tree → slice_get tree.tokens i ≡ Some t → is_utf8 (text_of text t) ≡ true }
{}
