//! Specifications, and names that are declared.
ghost use Rattle.std.specs.Prelude.{◌≡◌, option_map};
ghost use Rattle.mark_walk.specs.Telling.{tell, Says};
ghost use Rattle.type_model.specs.GoTypes.{BasicType};
ghost use Rattle.rule_words.specs.Words.{nothing};
ghost use Rattle.type_model.specs.Tables.{IsTable};
ghost use Rattle.typed_tree.specs.Declarations.{has_constants};
ghost use Rattle.typed_tree.specs.Basics.{HasBasics};
ghost use Rattle.unit_read.specs.Subjects.{unit_of, IsRead};
ghost use Rattle.rule_words.specs.Scenes.{sight, type_in, IsTypeOf, MayBeTypeOf};
ghost use Rattle.rule_words.specs.Steps.{step_in, IsStepOf};
ghost use Rattle.decl_rules.specs.Specifications.{is_fit, counted_rule, const_rule, declared_name_rule};

use const_tree::{Spec, name_count, value_count};
use go_tree::{Node, NodeRef};
use gv_base::Kind;
use rule_words::Step;
use rule_words::good::{basic_type, broken, good};
use type_model::{Term, TypeId};
use typed_marks::{Facts, State};
use typed_tree::{BAD_CONSTANT_TYPE, DUPLICATE_MEMBER, Mode, WRONG_NUMBER_OF_VALUES};
use unit_read::Subject;

fn kind_has_constants(kind: Kind) -> bool
    ensures { result ≡ has_constants (BasicType kind) }
{
    match kind {
        Kind::UntypedNil => false,
        _ => true,
    }
}

/// A type that a constant may have.
pub fn has_constants(s: &State, of: TypeId) -> bool
    requires table { IsTable s.now.table }
    requires within { IsTypeOf s.now of }
    ensures { result ≡ has_constants (type_in s.now of) }
{
    match s.table.term(of) {
        Term::Basic(kind) => kind_has_constants(*kind),
        _ => false,
    }
}

/// E98: whether the underlying type has constants, where it is known.
pub fn is_fit(s: &State, under: Option<TypeId>) -> bool
    requires table { IsTable s.now.table }
    requires within { MayBeTypeOf s.now under }
    ensures { result ≡ is_fit (option_map (type_in s.now) under) }
{
    match under {
        Some(of) => has_constants(s, of),
        None => true,
    }
}

/// What has no value.
pub fn nothing(s: &State) -> Step
    requires { HasBasics s.now.table }
    ensures is { step_in s.now result ≡ Says nothing }
    ensures over { IsStepOf s.now result }
{
    let of = basic_type(s, Kind::UntypedNil);
    good(Facts {
        mode: Mode::NoValue,
        of,
        value: None,
        last: of,
    })
}

fn counted(s: &State, fit: bool, nodes: &[Node], spec: Spec) -> Step
    requires { HasBasics s.now.table }
    ensures is { step_in s.now result ≡ tell (sight s.now) (counted_rule fit nodes.now spec) }
    ensures over { IsStepOf s.now result }
{
    if !fit {
        return broken(BAD_CONSTANT_TYPE);
    }
    if name_count(nodes, spec) == value_count(nodes, spec) {
        nothing(s)
    } else {
        broken(WRONG_NUMBER_OF_VALUES)
    }
}

/// A specification of constants: E98, E99.
pub fn constants(u: &Subject, s: &State, at: NodeRef, fit: bool) -> Step
    requires read { IsRead u.now }
    requires basics { HasBasics s.now.table }
    ensures is { step_in s.now result ≡ tell (sight s.now) (const_rule (unit_of u.now) at fit) }
    ensures over { IsStepOf s.now result }
{
    match u.spec_at(at) {
        Some(spec) => counted(s, fit, u.nodes_at(at.file), spec),
        None => nothing(s),
    }
}

/// A name that is declared: E14 where an earlier field of its struct has it.
pub fn declared_name(u: &Subject, s: &State, at: NodeRef) -> Step
    requires read { IsRead u.now }
    requires basics { HasBasics s.now.table }
    ensures is { step_in s.now result ≡ tell (sight s.now) (declared_name_rule (unit_of u.now) at) }
    ensures over { IsStepOf s.now result }
{
    if u.is_repeat(at) {
        broken(DUPLICATE_MEMBER)
    } else {
        nothing(s)
    }
}
