//! What a place wants, and what an operand takes there.
ghost use Rattle.std.specs.Prelude.{◌≡◌, ◌<◌, None, true};
ghost use Rattle.gv_base.specs.declared.constant.Kind.{Kind};
ghost use Rattle.type_model.specs.GoTypes.{BasicType};
ghost use Rattle.typed_marks.specs.Meanings.{wish_in, constant_at, IsValueWithin};
ghost use Rattle.type_model.specs.Tables.{types_in, IsTable};
ghost use Rattle.std.specs.Prelude.{length};
ghost use Rattle.typed_tree.specs.Basics.{HasBasics};
ghost use Rattle.rule_words.specs.Words.{wanted_in, default_kind, is_untyped_kind, taken, last_of, operand};
ghost use Rattle.rule_words.specs.Scenes.{said, IsMarkOf, type_in, IsTypeOf};
ghost use Rattle.rule_words.specs.Answers.{is_plain};
ghost use Rattle.rule_words.specs.Wanting.{wanted_of, IsWantedOf};

use gv_base::Kind;
use type_model::{Term, TypeId};
use typed_marks::{ConstId, Facts, Mark, State, Want};
use typed_tree::{Mode, Want as Demand, basic};

/// What a place wants: what has to stand there, and of which type.
#[derive(Clone, Copy, PartialEq, Eq, Drop)]
pub struct Wanted {
    pub demand: Demand,
    pub want: Want,
}

/// What the mark of a place says that it wants.
pub fn wanted_by(s: &State, m: Mark) -> Wanted
    requires { IsMarkOf s.now m }
    ensures is { wanted_of s.now result ≡ wanted_in (said s.now m) }
    ensures over { IsWantedOf s.now result }
{
    match m {
        Mark::Wants(demand, want) => Wanted { demand, want },
        _ => Wanted {
            demand: Demand::Nothing,
            want: Want::Free,
        },
    }
}

/// The default type of an untyped operand of a kind.
pub fn default_kind(kind: Kind) -> Kind
    ensures { result ≡ default_kind kind }
{
    match kind {
        Kind::UntypedBool => Kind::Bool,
        Kind::UntypedInt => Kind::Int,
        Kind::UntypedRune => Kind::Int32,
        Kind::UntypedText => Kind::Text,
        kind => kind,
    }
}

fn is_untyped_kind(kind: Kind) -> bool
    ensures { result ≡ is_untyped_kind kind }
{
    match kind {
        Kind::UntypedBool => true,
        Kind::UntypedInt => true,
        Kind::UntypedRune => true,
        Kind::UntypedText => true,
        Kind::UntypedNil => true,
        _ => false,
    }
}

fn taken(s: &State, kind: Kind, want: Want) -> TypeId
    requires basics { HasBasics s.now.table }
    requires want { IsWantedOf s.now (record { demand = Demand.Nothing; want = want }) }
    ensures is { type_in s.now result ≡ taken kind (wish_in (types_in s.now.table) want) }
    ensures within { IsTypeOf s.now result }
{
    match want {
        Want::Free => basic(default_kind(kind)),
        Want::Takes(to) => to,
        Want::Fits(to) => to,
        Want::Assigned(to) => to,
    }
}

/// The final type of an operand at a place that wants this.
pub fn last_of(s: &State, of: TypeId, want: Want) -> TypeId
    requires basics { HasBasics s.now.table }
    requires within { IsTypeOf s.now of }
    requires want { IsWantedOf s.now (record { demand = Demand.Nothing; want = want }) }
    ensures is { type_in s.now result ≡ last_of (type_in s.now of) (wish_in (types_in s.now.table) want) }
    ensures within { IsTypeOf s.now result }
{
    match s.table.term(of) {
        Term::Basic(kind) => {
            if is_untyped_kind(*kind) {
                taken(s, *kind, want)
            } else {
                of
            }
        }
        _ => of,
    }
}

/// A good operand at a place that wants this.
pub fn operand(s: &State, mode: Mode, of: TypeId, value: Option<ConstId>, want: Want) -> Mark
    requires basics { HasBasics s.now.table }
    requires within { IsTypeOf s.now of }
    requires value { IsValueWithin (length s.now.constants.items) value }
    requires want { IsWantedOf s.now (record { demand = Demand.Nothing; want = want }) }
    ensures is { said s.now result ≡ operand mode (type_in s.now of) (constant_at s.now.constants.items value) (wish_in (types_in s.now.table) want) }
    ensures over { IsMarkOf s.now result }
    ensures plain { is_plain result ≡ true }
{
    let last = last_of(s, of, want);
    Mark::Good(Facts {
        mode,
        of,
        value,
        last,
    })
}
