//! Laws of the definitions.
ghost use Rattle.std.specs.Prelude.{◌≡◌, ℕ, List};
ghost use Rattle.gv_base.specs.Files.{Entry};
ghost use Rattle.analysis_core.specs.declared.reply.Counts.{Counts};
ghost use Rattle.analysis_core.specs.declared.reply.ErrorLine.{ErrorLine};
ghost use Rattle.analysis_core.specs.declared.reply.Reply.{Reply};
ghost use Rattle.analysis_core.specs.JsonReplies.{IsJson};
ghost use Rattle.analysis_core.specs.Replies.{IsToldSo};

/// The bytes of a check's reply are its error lines in turn and how many packages and error lines there are; something
/// is found exactly where it has an error line.
pub fn a_check_is_told_so()
    ensures { (files : List Entry) (packages : ℕ) (errors : List ErrorLine) (counts : Counts) → IsToldSo files packages errors counts }
{}

/// A reply has one JSON.
pub fn one_json()
    ensures { (files : List Entry) (reply : Reply) (a b : List ℕ) → IsJson files reply a → IsJson files reply b → a ≡ b }
{}
