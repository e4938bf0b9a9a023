//! Values that calls give.
ghost use Rattle.std.specs.Prelude.{◌≡◌, true, None};
ghost use Rattle.typed_tree.specs.Basics.{HasBasics};
ghost use Rattle.rule_words.specs.Answers.{is_plain};
ghost use Rattle.rule_words.specs.Words.{nothing};
ghost use Rattle.rule_words.specs.Scenes.{said, IsMarkOf, type_in, IsTypeOf};
ghost use Rattle.builtin_rules.specs.Values.{value_of};

use gv_base::Kind;
use rule_words::good::basic_type;
use type_model::TypeId;
use typed_marks::{Facts, Mark, State};
use typed_tree::Mode;

/// What stands for something of a type that is its own final type.
pub fn good(mode: Mode, of: TypeId) -> Mark
    ensures { result ≡ Mark.Good (record { mode = mode; of = of; value = None; last = of }) }
{
    Mark::Good(Facts {
        mode,
        of,
        value: None,
        last: of,
    })
}

/// What has no value.
pub fn nothing(s: &State) -> Mark
    requires basics { HasBasics s.now.table }
    ensures is { said s.now result ≡ nothing }
    ensures over { IsMarkOf s.now result }
    ensures plain { is_plain result ≡ true }
{
    good(Mode::NoValue, basic_type(s, Kind::UntypedNil))
}

/// A value of a type.
pub fn value_of(s: &State, of: TypeId) -> Mark
    requires within { IsTypeOf s.now of }
    ensures is { said s.now result ≡ value_of (type_in s.now of) }
    ensures over { IsMarkOf s.now result }
    ensures plain { is_plain result ≡ true }
{
    let _ = s;
    good(Mode::Value, of)
}
